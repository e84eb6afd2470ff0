// The bytes of an error message.
ghost use Rattle.std.specs.Prelude.{◌≡◌, ◌≤◌, ℕ, List, length, true};
ghost use Rattle.messages.specs.Layout.{error_bit, type_of, is_error_code, code_of, entry_of};
ghost use Rattle.messages.specs.Code.Message.{code_for, is_laid, reads, IsMessage};

use refusals::Refusal;

// The first byte, a message without data that is routed to the root, and how many there are.
const MESSAGE: u8 = 0x30;

const LENGTH: usize = 16;

// Where 154 has the type, and valid.
const TYPE: u32 = 0x0001_0000;

const VALID: u32 = 0x0004_0000;

// An error message's code.
#[derive(Clone, Copy, Debug, PartialEq, Eq)]
pub enum ErrorCode {
    Correctable,
    NonFatal,
    Fatal,
}

impl ErrorCode {
    // ERR_COR and ERR_NONFATAL; any other is taken as ERR_FATAL.
    pub fn of(code: u32) -> ErrorCode
        ensures { result ≡ code_for code }
    {
        match code {
            0x30 => ErrorCode::Correctable,
            0x31 => ErrorCode::NonFatal,
            _ => ErrorCode::Fatal,
        }
    }

    // Its decode bit.
    #[tactic(auto)]
    pub fn decode_bit(self) -> u32
        ensures { (n : ℕ) → self ≡ code_for n → result ≡ error_bit n }
    {
        match self {
            ErrorCode::Correctable => common::CORRECTABLE,
            ErrorCode::NonFatal => common::NON_FATAL,
            ErrorCode::Fatal => common::FATAL,
        }
    }

    // The type that 154 shows.
    #[tactic(auto)]
    fn shown_type(self) -> u32
        ensures shown { (n : ℕ) → self ≡ code_for n → result ≡ type_of n }
        ensures small { result ≤ 2 }
    {
        match self {
            ErrorCode::Correctable => 0,
            ErrorCode::NonFatal => 1,
            ErrorCode::Fatal => 2,
        }
    }
}

// ERR_COR, ERR_NONFATAL, ERR_FATAL; no other byte is an error's code.
fn is_error_code(code: u32) -> bool
    ensures { result ≡ is_error_code code }
{
    matches!(code, 0x30 | 0x31 | 0x33)
}

// The byte of a message's code.
pub fn code_of(s: &[u8]) -> u32
    requires { 16 ≤ length s.now }
    ensures { result ≡ code_of s.now }
{
    u32::from(s[7])
}

// The bytes round the requester ID, the tag and the code.
fn is_laid(s: &[u8]) -> bool
    ensures { (result ≡ is_laid s.now) × (result ≡ true → length s.now ≡ 16) }
{
    s.len() == LENGTH && s.starts_with(&[MESSAGE, 0, 0, 0]) && s.ends_with(&[0; 8])
}

// An error message: who sends it, and which error it reports.
#[derive(Clone, Copy, Debug, PartialEq, Eq)]
pub struct ErrorMessage {
    pub requester: u16,
    pub code: ErrorCode,
}

impl ErrorMessage {
    // That of some bytes, whether they are laid out as one or not.
    pub fn of(s: &[u8]) -> ErrorMessage
        requires { 16 ≤ length s.now }
        ensures { IsMessage s.now result }
    {
        ErrorMessage {
            requester: u16::from_be_bytes([s[4], s[5]]),
            code: ErrorCode::of(code_of(s)),
        }
    }

    // Reads the 16 bytes of a message. Any tag is taken; a byte that the layout has as 0 must be 0.
    #[tactic(auto, using(crate::proofs::Bytes::not_laid, crate::proofs::Bytes::no_code, crate::proofs::Bytes::taken))]
    pub fn read(s: &[u8]) -> Result<ErrorMessage, Refusal>
        ensures { reads s.now result }
    {
        if is_laid(s) && is_error_code(code_of(s)) {
            Ok(ErrorMessage::of(s))
        } else {
            Err(Refusal::Malformed)
        }
    }

    // The decode bit of its code.
    pub fn decode_bit(self) -> u32
        ensures { (s : List ℕ) → IsMessage s self → result ≡ error_bit (code_of s) }
    {
        self.code.decode_bit()
    }

    // The entry that is queued.
    #[tactic(auto, unfolding(crate::specs::Layout::entry_of))]
    pub fn entry(self) -> u32
        ensures { (s : List ℕ) → IsMessage s self → result ≡ entry_of s }
    {
        u32::from(self.requester) + self.code.shown_type() * TYPE + VALID
    }
}
