// The verbs on read slots, on their rows and the store.
ghost use Rattle.std.specs.Prelude.{◌≡◌, List, ℕ, ◌≤◌, length};
ghost use Rattle.parts.specs.Sizes.{slot_size, store_size};
ghost use Rattle.machine.specs.Stores.{zeroed};
ghost use Rattle.machine.specs.Completions.{faulted, failed, finished, piece_closed};
ghost use Rattle.machine.specs.Ticks.{drop_slot};
ghost use Rattle.machine.specs.Code.Tables.{bridge_of, held_of};

use common::zero_at;
use parts::numbers::within_slot;
use parts::read_slot::ReadSlot;
use parts::{FINISHED, OPEN, SLOT_SIZE, SlotRow, State};
use verdict::Cause;

// The first n bytes of slot k are zero.
pub fn clear_slot(store: &mut [u8], k: ReadSlot, n: usize)
    requires { (store_size ≤ length store.old) × (n ≤ slot_size) }
    ensures { store.new ≡ zeroed k.number n store.old }
{
    zero_at(store, SLOT_SIZE * k.number, n);
}

// A piece of slot k failed at this place.
#[tactic(auto, unfolding(machine::specs::Completions::faulted))]
pub fn fault(b: &mut State, k: ReadSlot, place: u32, code: u32)
    ensures tables { (cells : List ℕ) → bridge_of cells b.new ≡ faulted k.number place code (bridge_of cells b.old) }
    ensures core { b.new.core ≡ b.old.core }
{
    let row = b.slots[k.number];
    if place < row.fault {
        b.slots[k.number] = SlotRow {
            fault: place,
            cause: code,
            ..row
        };
    }
}

// A memory read's piece failed, and its decode bit is set.
#[tactic(auto, unfolding(machine::specs::Completions::failed))]
pub fn fail(b: &mut State, k: ReadSlot, place: u32, why: Cause)
    ensures { (cells : List ℕ) → bridge_of cells b.new ≡ failed k.number place why (bridge_of cells b.old) }
{
    fault(b, k, place, why.response().code());
    b.core.raise(why.decode_bit());
}

// The read in slot k is finished, and its bytes are zero unless it is OKAY.
#[tactic(auto, unfolding(machine::specs::Completions::finished))]
pub fn finish(b: &mut State, store: &mut [u8], k: ReadSlot)
    requires { store_size ≤ length store.old }
    ensures tables { (cells : List ℕ) → held_of cells b.new store.new ≡ finished k.number (held_of cells b.old store.old) }
    ensures core { b.new.core ≡ b.old.core }
{
    let row = b.slots[k.number];
    b.slots[k.number] = SlotRow {
        pieces: 0,
        state: FINISHED,
        ..row
    };
    if row.cause != 0 {
        clear_slot(store, k, within_slot(row.size));
    }
}

// A piece of slot k is closed.
#[tactic(auto, unfolding(machine::specs::Completions::piece_closed))]
pub fn close_piece(b: &mut State, store: &mut [u8], k: ReadSlot)
    requires { store_size ≤ length store.old }
    ensures tables { (cells : List ℕ) → held_of cells b.new store.new ≡ piece_closed k.number (held_of cells b.old store.old) }
    ensures core { b.new.core ≡ b.old.core }
{
    let row = b.slots[k.number];
    if row.pieces <= 1 {
        finish(b, store, k);
    } else {
        b.slots[k.number] = SlotRow {
            pieces: row.pieces - 1,
            ..row
        };
    }
}

// A read that is open in slot k is finished as SLVERR with zero data.
#[tactic(auto, unfolding(machine::specs::Ticks::drop_slot))]
pub fn drop_slot(b: &mut State, store: &mut [u8], k: ReadSlot)
    requires { store_size ≤ length store.old }
    ensures tables { (cells : List ℕ) → held_of cells b.new store.new ≡ drop_slot (held_of cells b.old store.old) k.number }
    ensures core { b.new.core ≡ b.old.core }
{
    let row = b.slots[k.number];
    if row.state == OPEN {
        b.slots[k.number] = SlotRow {
            cause: 2,
            pieces: 0,
            state: FINISHED,
            ..row
        };
        clear_slot(store, k, within_slot(row.size));
    }
}
