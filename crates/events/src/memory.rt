// Memory reads and writes.
ghost use Rattle.std.specs.Prelude.{◌≡◌, List, ℕ, ◌≤◌, length};
ghost use Rattle.tags.specs.Tags.{available};
ghost use Rattle.parts.specs.Sizes.{tag_count, area_size};
ghost use Rattle.parts.specs.Code.Struct.{answer_of};
ghost use Rattle.machine.specs.State.{answered};
ghost use Rattle.machine.specs.Memory.{filled, pieces_of, read_to, read_sent, read_step, read_area, write_step, write_area};
ghost use Rattle.machine.specs.Code.Tables.{bridge_of};

use burst::Burst;
use moves::memory::{check_write, read_slot};
use moves::opening::{Opening, claim};
use packets::{shift_of, write_pieces};
use parts::read_slot::ReadSlot;
use parts::{Accepted, Answer, State};
use refusals::Response;

// Every piece of a burst is opened, in address order, and its header sent; how many bytes these are.
fn read_pieces(b: &mut State, slot: ReadSlot, q: Burst, area: &mut [u8]) -> usize
    requires { (pieces_of b.old.settings.reads q ≤ available tag_count b.old.core.free) × (area_size ≤ length area.old) }
    ensures tables { (cells : List ℕ) → bridge_of cells b.new ≡ read_to slot.number q (bridge_of cells b.old) (pieces_of b.old.settings.reads q) }
    ensures sent { (cells : List ℕ) → result ≡ length (read_sent slot.number q (bridge_of cells b.old) (pieces_of b.old.settings.reads q)) }
    ensures area { (cells : List ℕ) → area.new ≡ filled (read_sent slot.number q (bridge_of cells b.old) (pieces_of b.old.settings.reads q)) area.old }
{
    let read = Opening {
        slot: slot.number as u32,
        shift: shift_of(b.settings.windows, q.start),
        burst: q,
        bytes: q.length(),
    };
    let mut at = 0;
    for k in 0..burst::piece_count(b.settings.reads, q.start.0, read.bytes) {
        at = read.turn(b, k, area, at);
    }
    at
}

// A memory read.
pub fn read_in(b: &mut State, q: Burst, area: &mut [u8]) -> Answer
    ensures step { (cells : List ℕ) → answered (bridge_of cells b.new) (answer_of result) ≡ read_step (bridge_of cells b.old) q (length area.old) }
    ensures area { (cells : List ℕ) → area.new ≡ read_area (bridge_of cells b.old) q area.old }
{
    match read_slot(b, q, area.len()) {
        Err(why) => b.core.refuse(why),
        Ok(slot) => {
            claim(b, slot, q);
            let sent = read_pieces(b, slot, q, area);
            Ok(Accepted::sent(Response::Nothing, slot.number as u32, sent))
        }
    }
}

// A memory write: of the state, a refusal alone changes something.
pub fn write_in(b: &mut State, q: Burst, bytes: &[u8], area: &mut [u8]) -> Answer
    ensures step { (cells : List ℕ) → answered (bridge_of cells b.new) (answer_of result) ≡ write_step (bridge_of cells b.old) q bytes.now (length area.old) }
    ensures area { (cells : List ℕ) → area.new ≡ write_area (bridge_of cells b.old) q bytes.now area.old }
{
    match check_write(b, q, bytes.len(), area.len()) {
        Err(why) => b.core.refuse(why),
        Ok(()) => {
            let sent = write_pieces(b.settings, q, bytes, area);
            Ok(Accepted::sent(Response::Okay, 0, sent))
        }
    }
}
