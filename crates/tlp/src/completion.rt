// Completion headers, with and without data.
ghost use Rattle.std.specs.Prelude.{◌≡◌, true, ◌≤◌, length};
ghost use Rattle.tlp.specs.Completion.{valid_payload, valid_completion, completion_bytes, write_completion, area_after_completion, completion_in, completion_reserved, read_completion};

use crate::{HeaderBytes, or_full, pair, put};
use refusals::Refusal;

// A completion's header. Kept: data or none stands in a flag, and the status in a number, as in the header; any values may be given,
// and `write_completion` refuses the wrong ones with 12.
#[derive(Clone, Copy, Debug, PartialEq, Eq)]
pub struct Completion {
    // With data.
    pub payload: bool,
    // EP.
    pub poisoned: bool,
    // Of the data, in words of 4 bytes.
    pub length: u32,
    // The completer ID.
    pub completer: u32,
    pub status: u32,
    // The byte count.
    pub count: u32,
    // The requester ID.
    pub requester: u32,
    pub tag: u32,
    // The lower address.
    pub lower: u32,
}

impl Completion {
    fn valid_payload(self) -> bool
        ensures { result ≡ valid_payload self }
    {
        self.payload & (self.status == 0) & (1 <= self.length) & (self.length <= 1024)
            | !self.payload & (self.length == 0) & !self.poisoned
    }

    #[tactic(auto, unfolding(crate::specs::Completion::valid_completion))]
    fn is_valid(self) -> bool
        ensures { result ≡ valid_completion self }
    {
        self.valid_payload()
            & (self.completer < 65536)
            & (self.status < 8)
            & (1 <= self.count)
            & (self.count <= 4096)
            & (self.requester < 65536)
            & (self.tag < 256)
            & (self.lower < 128)
    }

    // The header of a valid completion.
    #[tactic(auto, unfolding(crate::specs::Completion::valid_completion, crate::specs::Completion::completion_bytes))]
    fn bytes(self) -> [u8; 12]
        requires { valid_completion self ≡ true }
        ensures { result ≡ completion_bytes self }
    {
        let length = ((self.length % 1024) as u16).to_be_bytes();
        let completer = (self.completer as u16).to_be_bytes();
        let count = ((self.count % 4096) as u16).to_be_bytes();
        let requester = (self.requester as u16).to_be_bytes();
        [
            if self.payload { 0x4A } else { 0x0A },
            0,
            u8::from(self.poisoned) * 64 + length[0],
            length[1],
            completer[0],
            completer[1],
            self.status as u8 * 32 + count[0],
            count[1],
            requester[0],
            requester[1],
            self.tag as u8,
            self.lower as u8,
        ]
    }
}

// Puts the header of c into the area, of at least 16 bytes; how many bytes it has.
// Kept: a twin of write_request, and read_completion of read_request; a trait over both headers is longer than the tests that they
// share.
#[tactic(auto, unfolding(crate::specs::Bytes::write_header, crate::specs::Bytes::area_after))]
pub fn write_completion(c: Completion, area: &mut [u8]) -> Result<usize, Refusal>
    ensures { (result ≡ write_completion c (length area.old)) × (area.new ≡ area_after_completion c area.old) }
{
    if area.len() < 16 {
        return Err(Refusal::TooShort);
    }
    if !c.is_valid() {
        return Err(Refusal::Malformed);
    }
    Ok(put(area, &c.bytes()))
}

#[tactic(auto, unfolding(crate::specs::Completion::completion_reserved))]
fn completion_reserved(s: &[u8]) -> bool
    ensures { result ≡ completion_reserved s.now }
{
    s.len() == 12
        && ((s[0] == 0x0A) | (s[0] == 0x4A))
            & (s[1] == 0)
            & (s[2] < 0x80)
            & (s[2] % 0x40 < 4)
            & (s[6] % 32 < 16)
}

impl HeaderBytes<'_> {
    fn completion(self) -> Completion
        ensures { result ≡ completion_in self.entry.bytes.now }
    {
        let s = self.bytes;
        let payload = s[0] == 0x4A;
        let field = pair(s[2] % 4, s[3]);
        Completion {
            payload,
            poisoned: 0x40 <= s[2],
            length: if payload { or_full(1024, field) } else { field },
            completer: pair(s[4], s[5]),
            status: u32::from(s[6] / 32),
            count: or_full(4096, pair(s[6] % 16, s[7])),
            requester: pair(s[8], s[9]),
            tag: u32::from(s[10]),
            lower: u32::from(s[11]),
        }
    }
}

// The completion whose header the bytes are, all of them.
#[tactic(auto, unfolding(crate::specs::Completion::completion_reserved, crate::specs::Completion::read_completion))]
pub fn read_completion(s: &[u8]) -> Result<Completion, Refusal>
    ensures { result ≡ read_completion s.now }
{
    let h = HeaderBytes::of(s).ok_or(Refusal::Malformed)?;
    if !completion_reserved(s) {
        return Err(Refusal::Malformed);
    }
    let c = h.completion();
    if c.is_valid() {
        Ok(c)
    } else {
        Err(Refusal::Malformed)
    }
}
