// The core: fresh, and after a change of the link.
ghost use Rattle.std.specs.Prelude.{◌≡◌, ℕ, ◌-◌, ◌^◌, false, List};
ghost use Rattle.common.specs.Decode.{link_down_bit};
ghost use Rattle.parts.specs.Cores.{tag_count, with_free, with_config, raised_core, fresh_core, figures_now, link_in, next_session, link_to};
ghost use Rattle.parts.specs.Access.{drop_config};
ghost use Rattle.parts.specs.Code.Struct.{core_from};

use crate::{ConfigSlot, Core, Figures};
use common::LINK_DOWN_BIT;
use ecam::registers::Registers;

impl Core {
    #[tactic(auto, unfolding(crate::specs::Cores::fresh_core))]
    pub fn fresh() -> Core
        ensures { (cells : List ℕ) → core_from result cells ≡ fresh_core }
    {
        Core {
            registers: Registers::fresh(),
            ticks: 0,
            session: 0,
            free: 0xFFFF_FFFF,
            config: ConfigSlot::free(),
        }
    }

    // The figures of an access that is accepted now.
    pub fn figures(&self) -> Figures
        ensures { (cells : List ℕ) → result ≡ figures_now (core_from self.now cells) }
    {
        Figures {
            session: self.session,
        }
    }

    // The link is up or down.
    pub fn set_link(&mut self, up: bool)
        ensures { (cells : List ℕ) → core_from self.new cells ≡ link_in up (core_from self.old cells) }
    {
        self.registers.link = up;
    }

    // A link event that is no drop: one that brings a down link up begins a session, any other repeats the present state.
    pub fn link_to(&mut self, up: bool)
        ensures { (cells : List ℕ) → core_from self.new cells ≡ link_to up (core_from self.old cells) }
    {
        if up & !self.registers.link {
            self.session = next_session(self.session);
        }
        self.set_link(up);
    }

    // Every tag is free, an open configuration access is finished, bit 0 is set.
    pub fn lose_link(&mut self)
        ensures { (cells : List ℕ) → core_from self.new cells ≡ raised_core link_down_bit (link_in false (with_free (2 ^ tag_count - 1) (with_config (drop_config self.old.config) (core_from self.old cells)))) }
    {
        self.config = self.config.dropped();
        self.free = 0xFFFF_FFFF;
        self.set_link(false);
        self.raise(LINK_DOWN_BIT);
    }
}

// The counter of sessions starts again at zero after its last value.
// Kept: a twin of next_tick; each counter has its definition.
pub fn next_session(x: u32) -> u32
    ensures { result ≡ next_session x }
{
    x.wrapping_add(1)
}
