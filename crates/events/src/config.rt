// Configuration accesses.
ghost use Rattle.std.specs.Prelude.{◌≡◌, List, ℕ, length};
ghost use Rattle.parts.specs.Code.Struct.{answer_of};
ghost use Rattle.machine.specs.State.{answered};
ghost use Rattle.machine.specs.Config.{config_step, config_area};
ghost use Rattle.machine.specs.Code.Tables.{bridge_of};

use ecam::Access;
use messages::queue::DEPTH;
use moves::routed::{routed, stay};
use parts::access::goes_out;
use parts::{Accepted, Answer, CONFIG_SLOT, State};
use refusals::Response;

// A configuration access. A local one may read the queued messages.
#[tactic(auto, unfolding(machine::specs::Config::config_step, machine::specs::Config::config_area, machine::specs::Config::routed_bridge, machine::specs::State::refused))]
pub fn config_in(b: &mut State, cells: &[u32; DEPTH], a: Access, area: &mut [u8]) -> Answer
    ensures step { answered (bridge_of cells.now b.new) (answer_of result) ≡ config_step (bridge_of cells.now b.old) a (length area.old) }
    ensures area { area.new ≡ config_area (bridge_of cells.now b.old) a area.old }
{
    let x = match b.core.config_route(b.settings.bits, a, area.len()) {
        Ok(x) => x,
        Err(why) => return b.core.refuse(why),
    };
    let mut sent = 0;
    if goes_out(Ok(x)) {
        sent = routed(b, Ok(x), a, area);
    } else {
        stay(&mut b.core, cells, Ok(x), a);
    }
    Ok(Accepted::sent(Response::Nothing, CONFIG_SLOT, sent))
}
