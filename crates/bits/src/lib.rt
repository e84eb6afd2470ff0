// The bits of a 32-bit word.
#![tactic(auto)]

ghost use Rattle.std.specs.Prelude.{◌≡◌};
ghost use Rattle.bits.specs.Bits.{is_set, set_bit, clear_bit};

// Whether the bit at i is a one; past the word there is none.
#[tactic(auto, using(crate::proofs::Steps::past), unfolding(crate::specs::Bits::is_set, crate::specs::Bits::bit))]
pub fn is_set(w: u32, i: u32) -> bool
    ensures { result ≡ is_set w i }
{
    i < 32 && (w >> i) % 2 == 1
}

// The word with a one at i; past the word nothing changes.
#[tactic(auto, using(crate::proofs::Steps::or_one, crate::proofs::Steps::set_past))]
pub fn set(w: u32, i: u32) -> u32
    ensures { result ≡ set_bit 32 w i }
{
    if i < 32 { w | 1 << i } else { w }
}

// The word with a zero at i.
#[tactic(auto, using(crate::proofs::Steps::and_one, crate::proofs::Steps::clear_past))]
pub fn clear(w: u32, i: u32) -> u32
    ensures { result ≡ clear_bit w i }
{
    if i < 32 { w & !(1 << i) } else { w }
}
