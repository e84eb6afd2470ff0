// The free tags, as the ones of a word.
// Kept: functions of the bare word, whose trailing zeros pick a tag and whose count of ones decides a refusal.
#![tactic(auto)]

ghost use Rattle.std.specs.Prelude.{◌≡◌};
ghost use Rattle.bits.specs.Bits.{set_bit, clear_bit};
ghost use Rattle.tags.specs.Tags.{lowest, available};

// The lowest free tag, 32 where none is free.
#[tactic(auto, using(crate::proofs::Tags::lowest_by_zeros))]
pub fn lowest(free: u32) -> u32
    ensures { result ≡ lowest 32 free }
{
    free.trailing_zeros()
}

// How many tags are free.
#[tactic(auto, using(crate::proofs::Tags::available_by_ones))]
pub fn available(free: u32) -> u32
    ensures { result ≡ available 32 free }
{
    free.count_ones()
}

// The word once tag t is taken; a tag that is not free, or none, changes nothing.
pub fn taken(free: u32, t: u32) -> u32
    ensures { result ≡ clear_bit free t }
{
    bits::clear(free, t)
}

// The word once tag t is free again; one that is free, or none, changes nothing.
pub fn freed(free: u32, t: u32) -> u32
    ensures { result ≡ set_bit 32 free t }
{
    bits::set(free, t)
}
