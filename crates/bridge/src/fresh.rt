// A new bridge, and what can be read of one.
ghost use Rattle.std.specs.Prelude.{◌≡◌};
ghost use Rattle.machine.specs.State.{fresh_bridge, new_bridge, registers_of, line_of};
ghost use Rattle.ecam.specs.Registers.{local_read};
ghost use Rattle.ecam.specs.Code.Struct.{registers_from};
ghost use Rattle.bridge.specs.View.{Whole, view_of, step_of};

use crate::{Accepted, Answered, Bridge, Core};
use address::Settings;
use ecam::registers::Registers;
use messages::queue::DEPTH;
use parts::{SLOTS, SlotRow, State, TAGS, TagRow};

#[tactic(auto, unfolding(machine::specs::State::fresh_bridge))]
fn fresh_bridge(settings: Settings) -> Bridge
    ensures { view_of result ≡ fresh_bridge settings }
{
    let tag = TagRow {
        sent: 0,
        owner: 0,
        place: 0,
        next: 0,
        kind: 0,
    };
    let slot = SlotRow {
        state: 0,
        size: 0,
        pieces: 0,
        fault: 0,
        cause: 0,
        session: 0,
    };
    Bridge {
        state: State {
            settings,
            core: Core::fresh(),
            missing: [0; TAGS],
            tags: [tag; TAGS],
            slots: [slot; SLOTS],
        },
        cells: [0; DEPTH],
    }
}

impl Bridge {
    // The fresh bridge with these settings; where one of them breaks its rule, that of the worked examples, and 1.
    #[tactic(auto, unfolding(machine::specs::State::new_bridge, machine::specs::State::refused, machine::specs::State::refusal_change))]
    pub fn new(s: Settings) -> Answered
        ensures { step_of result ≡ new_bridge s }
    {
        match s.check() {
            Ok(()) => Answered {
                bridge: fresh_bridge(s),
                answer: Ok(Accepted::plain()),
            },
            Err(why) => Answered {
                bridge: fresh_bridge(address::example_settings()),
                answer: Err(why),
            },
        }
    }

    // The registers but for the entries of the queue, which stand in `cells`; and of every struct, that its tables have their
    // lengths.
    pub fn registers(self) -> Registers
        ensures { (result ≡ self.state.core.registers) × ((registers_from result self.cells ≡ registers_of (view_of self)) × Whole self) }
    {
        self.state.core.registers
    }

    // What a local word shows.
    pub fn word(self, word: u32) -> u32
        ensures { result ≡ local_read (registers_of (view_of self)) word }
    {
        self.state.core.registers.local_read(&self.cells, word)
    }

    // The interrupt line.
    pub fn line(self) -> bool
        ensures { result ≡ line_of (view_of self) }
    {
        self.state.core.registers.line()
    }
}
