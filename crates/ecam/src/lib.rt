// Configuration space: accesses and where they go; the registers behind the local words; the bytes of a data word.
#![tactic(auto)]

pub mod access;
pub mod registers;

ghost use Rattle.std.specs.Prelude.{◌≡◌};
ghost use Rattle.ecam.specs.Request.{data_bytes, data_word};

pub use access::{Access, Route};

// The data word of four bytes, low byte first.
#[tactic(auto, unfolding(crate::specs::Request::data_word))]
pub fn data_word(s: &[u8]) -> u32
    ensures { result ≡ data_word s.now }
{
    match s {
        &[a, b, c, d, ..] => u32::from_le_bytes([a, b, c, d]),
        _ => 0,
    }
}

// The bytes of a data word, low byte first.
#[tactic(auto, unfolding(crate::specs::Request::data_bytes, crate::specs::Registers::byte))]
pub fn data_bytes(w: u32) -> [u8; 4]
    ensures { result ≡ data_bytes w }
{
    w.to_le_bytes()
}
