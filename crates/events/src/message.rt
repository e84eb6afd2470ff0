// Error messages.
ghost use Rattle.std.specs.Prelude.{cond, List, eqb, ◌≡◌, ℕ};
ghost use Rattle.messages.specs.Layout.{entry_of};
ghost use Rattle.messages.specs.Code.Cells.{cells_after};
ghost use Rattle.ecam.specs.Code.Struct.{registers_from};
ghost use Rattle.parts.specs.Code.Struct.{answer_of};
ghost use Rattle.machine.specs.State.{answered};
ghost use Rattle.machine.specs.Messages.{message_number, message_step};
ghost use Rattle.machine.specs.Code.Tables.{bridge_of};

use messages::layout::ErrorMessage;
use messages::queue::DEPTH;
use parts::{Accepted, Answer, State};
use refusals::Refusal;

// A message of any bytes, with the cells of the queue.
#[tactic(auto, unfolding(machine::specs::Messages::message_step, machine::specs::Messages::message_number, machine::specs::State::refused))]
pub fn message_in(b: &mut State, cells: &mut [u32; DEPTH], packet: &[u8]) -> Answer
    ensures step { answered (bridge_of cells.new b.new) (answer_of result) ≡ message_step (bridge_of cells.old b.old) packet.now }
    ensures cells { cells.new ≡ cond (eqb (message_number (registers_from b.old.core.registers cells.old) packet.now) 0) (cells_after b.old.core.registers.errors cells.old (entry_of packet.now)) cells.old }
{
    let m = match ErrorMessage::read(packet) {
        Ok(m) => m,
        Err(why) => return b.core.refuse(why),
    };
    if !b.core.registers.link {
        return b.core.refuse(Refusal::LinkDown);
    }
    b.core.registers = b.core.registers.message(cells, m);
    Ok(Accepted::plain())
}
