// One event of a capture, played.
ghost use Rattle.std.specs.Prelude.{◌≡◌, List, [], ◌∷◌, ◌++◌, drop};
ghost use Rattle.parts.specs.Code.Struct.{answer_of};
ghost use Rattle.records.specs.Code.Meaning.{captured};
ghost use Rattle.replay.specs.Events.{Told, played, tells};
ghost use Rattle.replay.specs.Code.Tables.{stage_with};

use bridge::Bridge;
use ecam::Access;
use events::complete::complete_in;
use events::config::config_in;
use events::link::link_in;
use events::memory::{read_in, write_in};
use events::take::release_in;
use events::tick::tick_in;
use parts::Answer;
use records::{DATA_AT, Event, PACKET_AT};

// What stands behind a record's fields.
pub fn behind(bytes: &[u8], at: usize) -> &[u8]
    ensures { result.now ≡ drop at bytes.now }
{
    bytes.get(at..).unwrap_or(&[])
}

// An event with the bytes of its record, on a bridge; store and area are lent as to any event.
#[tactic(auto, unfolding(crate::specs::Events::played))]
pub fn event_in(b: &mut Bridge, store: &mut [u8], area: &mut [u8], e: Event, bytes: &[u8]) -> Answer
    ensures stage { (told : List Told) → stage_with b.new store.new area.new (told ++ tells (captured e bytes.now) (answer_of result) ∷ []) ≡ played (stage_with b.old store.old area.old told) (captured e bytes.now) }
    ensures cells { b.new.cells ≡ b.old.cells }
{
    let state = &mut b.state;
    match e {
        Event::Read(q) => read_in(state, q, area),
        Event::Write(q) => write_in(state, q, behind(bytes, DATA_AT), area),
        Event::ConfigRead(offset) => {
            let a = Access {
                offset,
                write: false,
                strobes: 0,
                word: 0,
            };
            config_in(state, &b.cells, a, area)
        }
        Event::ConfigWrite(offset, strobes, word) => {
            let a = Access {
                offset,
                write: true,
                strobes,
                word,
            };
            config_in(state, &b.cells, a, area)
        }
        Event::Completion => complete_in(state, store, behind(bytes, PACKET_AT)),
        Event::Link(up) => link_in(state, store, up),
        Event::Tick => tick_in(state, store),
        Event::Take(slot) => release_in(state, store, slot),
    }
}
