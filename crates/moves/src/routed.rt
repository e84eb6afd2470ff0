// A configuration access by its route.
ghost use Rattle.std.specs.Prelude.{◌≡◌, List, ℕ, ◌≤◌, ◌<◌, length};
ghost use Rattle.tags.specs.Tags.{lowest};
ghost use Rattle.packets.specs.Packets.{filled, packet};
ghost use Rattle.parts.specs.Sizes.{tag_count};
ghost use Rattle.parts.specs.Cores.{with_config};
ghost use Rattle.ecam.specs.Code.Routed.{route_to};
ghost use Rattle.parts.specs.Access.{area_size};
ghost use Rattle.parts.specs.Code.Struct.{core_from};
ghost use Rattle.machine.specs.Bridge.{core_in};
ghost use Rattle.machine.specs.Routed.{routed_request, payload_of};
ghost use Rattle.machine.specs.Code.Passing.{stayed};
ghost use Rattle.machine.specs.State.{opened, open_config, figures_now};
ghost use Rattle.machine.specs.Config.{word_pending};
ghost use Rattle.machine.specs.Code.Tables.{bridge_of};

use crate::tagged::open;
use common::copy_at;
use ecam::{Access, Route};
use messages::queue::DEPTH;
use parts::{ConfigSlot, Core, Pending, State};
use refusals::Refusal;
use tlp::request::{Request, write_request};

// What an access that does not go out leaves in the core.
#[tactic(auto, using(crate::proofs::Staying::refused_kept))]
pub fn stay(c: &mut Core, cells: &[u32; DEPTH], to: Result<Route, Refusal>, a: Access)
    ensures { core_from c.new cells.now ≡ stayed (core_from c.old cells.now) a (route_to to) }
{
    match to {
        Ok(Route::Local(w)) => c.finish_local(cells, a, w),
        Ok(Route::Type0 | Route::Type1) | Err(_) => {}
    }
}

// Puts a request's header into the area, and a write's data word behind it, and counts the bytes; none where the request is
// outside its ranges.
pub fn send(q: Request, write: bool, word: u32, area: &mut [u8]) -> usize
    requires { area_size ≤ length area.old }
    ensures { (result ≡ length (packet q (payload_of write word))) × (area.new ≡ filled (packet q (payload_of write word)) area.old) }
{
    let Ok(n) = write_request(q, area) else {
        return 0;
    };
    if !write {
        return n;
    }
    copy_at(area, n, &ecam::data_bytes(word), 4);
    n + 4
}

// A routed access: one piece of 4 bytes for the configuration slot, and its request; how many bytes were sent.
pub fn routed(b: &mut State, to: Result<Route, Refusal>, a: Access, area: &mut [u8]) -> usize
    requires { (lowest tag_count b.old.core.free < tag_count) × (area_size ≤ length area.old) }
    ensures tables { (cells : List ℕ) → bridge_of cells b.new ≡ opened (word_pending a.write) (core_in (with_config (open_config a.write (figures_now (core_from b.old.core cells))) (core_from b.old.core cells)) (bridge_of cells b.old)) }
    ensures sent { result ≡ length (packet (routed_request (route_to to) a b.old.settings.requester (lowest tag_count b.old.core.free)) (payload_of a.write a.word)) }
    ensures area { area.new ≡ filled (packet (routed_request (route_to to) a b.old.settings.requester (lowest tag_count b.old.core.free)) (payload_of a.write a.word)) area.old }
{
    let tag = tags::lowest(b.core.free);
    let q = a.request(to, b.settings.requester, tag);
    let sent = send(q, a.write, a.word, area);
    b.core.config = ConfigSlot::open(a.write, b.core.figures());
    open(b, Pending::word(a.write));
    sent
}
