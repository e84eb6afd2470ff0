// Decisions on numbers: the free slot, the age of a request, what can be taken.
ghost use Rattle.std.specs.Prelude.{◌≡◌, ◌%◌, ◌+◌, ◌^◌, ◌<◌, ◌≤◌, min, ◌&&◌, ◌==◌, IfSome};
ghost use Rattle.refusals.specs.Refusals.{number_in};
ghost use Rattle.verdict.specs.Verdict.{is_open};
ghost use Rattle.parts.specs.Sizes.{slot_count, slot_size};
ghost use Rattle.parts.specs.Numbers.{next_tick, age_of, state_in, take_number, free_slot_from};
ghost use Rattle.parts.specs.Code.Struct.{states_of, slot_or_none};

use crate::{CONFIG_SLOT, FINISHED, FREE, SLOT_SIZE, SLOTS, STORE_SIZE, State};
use refusals::Refusal;
use verdict::is_open;

// The counter starts again at zero after its last value.
pub fn next_tick(x: u32) -> u32
    ensures { result ≡ next_tick x }
{
    x.wrapping_add(1)
}

// The counter n ticks later.
pub fn tick_after(x: u32, n: u32) -> u32
    ensures { (result ≡ (x + n) % 2 ^ 32) × (x < 2 ^ 32) }
{
    x.wrapping_add(n)
}

// Ticks since sending. The wrapping difference is right because the time limit is small.
pub fn age(now: u32, then: u32) -> u32
    ensures { result ≡ age_of now then }
{
    now.wrapping_sub(then)
}

pub fn is_old(missing: u32, place: u32, now: u32, then: u32, limit: u32) -> bool
    ensures { result ≡ is_open missing place && (age_of now then == limit) }
{
    is_open(missing, place) & (age(now, then) == limit)
}

// A burst's length, within its slot.
pub fn within_slot(n: u32) -> usize
    ensures { (result ≡ min n slot_size) × (result ≤ slot_size) }
{
    SLOT_SIZE.min(n as usize)
}

// What look and release refuse, with the state that was found.
#[tactic(auto, unfolding(crate::specs::Numbers::take_number))]
pub fn take_refusal(room: usize, found: u32) -> Result<(), Refusal>
    ensures { number_in result ≡ take_number room found }
{
    if room < STORE_SIZE {
        return Err(Refusal::TooShort);
    }
    if found != FINISHED {
        return Err(Refusal::NotFinished);
    }
    Ok(())
}

impl State {
    // The lowest free slot.
    // Kept: a `for`; with `position` the contract did not prove.
    pub fn free_slot(&self) -> Option<usize>
        ensures slot { slot_or_none result ≡ free_slot_from (states_of self.now.slots) 0 slot_count }
        ensures bound { IfSome result (λ k. k < slot_count) }
    {
        for k in 0..SLOTS {
            if self.slots[k].state == FREE {
                return Some(k);
            }
        }
        None
    }

    // The state of a slot: 8 is the configuration slot, and there are no more.
    #[tactic(auto, unfolding(crate::specs::Numbers::state_in))]
    pub fn state_in(&self, slot: u32) -> u32
        ensures { result ≡ state_in self.now.core.config.state (states_of self.now.slots) slot }
    {
        if slot == CONFIG_SLOT {
            return self.core.config.state;
        }
        if slot < CONFIG_SLOT {
            return self.slots[slot as usize].state;
        }
        FREE
    }
}
