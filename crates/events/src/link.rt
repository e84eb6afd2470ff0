// The link.
ghost use Rattle.std.specs.Prelude.{◌≡◌, List, ℕ, ◌≤◌, length};
ghost use Rattle.parts.specs.Sizes.{slot_count};
ghost use Rattle.parts.specs.Code.Struct.{answer_of};
ghost use Rattle.machine.specs.Completions.{store_size, plain};
ghost use Rattle.machine.specs.Ticks.{store_refusal, drop_slots, linked};
ghost use Rattle.machine.specs.Code.Tables.{held_of};

use moves::slots::drop_slot;
use parts::read_slot::ReadSlot;
use parts::{Accepted, Answer, SLOTS, STORE_SIZE, State, TAGS};
use refusals::Refusal;

fn drop_slots(b: &mut State, store: &mut [u8])
    requires { store_size ≤ length store.old }
    ensures { (cells : List ℕ) → held_of cells b.new store.new ≡ drop_slots (held_of cells b.old store.old) slot_count }
{
    for k in 0..SLOTS {
        drop_slot(b, store, ReadSlot { number: k });
    }
}

// The link goes up or down.
#[tactic(auto, unfolding(machine::specs::Ticks::linked, machine::specs::Ticks::link_lost))]
pub fn link_in(b: &mut State, store: &mut [u8], up: bool) -> Answer
    ensures answer { answer_of result ≡ plain (store_refusal (length store.old)) }
    ensures tables { (cells : List ℕ) → held_of cells b.new store.new ≡ linked up (held_of cells b.old store.old) }
{
    if store.len() < STORE_SIZE {
        return Err(Refusal::TooShort);
    }
    if up | !b.core.registers.link {
        b.core.link_to(up);
        return Ok(Accepted::plain());
    }
    b.missing = [0; TAGS];
    b.core.lose_link();
    drop_slots(b, store);
    Ok(Accepted::plain())
}
