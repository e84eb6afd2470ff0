// The configuration slot: what refuses an access, and what it holds when one is finished.
ghost use Rattle.std.specs.Prelude.{◌≡◌, ℕ, List, Ok, cond};
ghost use Rattle.common.specs.Decode.{cfg_timeout};
ghost use Rattle.refusals.specs.Refusals.{number_in};
ghost use Rattle.ecam.specs.declared.access.Route as code;
ghost use Rattle.ecam.specs.Route as routes;
ghost use Rattle.ecam.specs.Route.{route};
ghost use Rattle.ecam.specs.Request.{data_word};
ghost use Rattle.ecam.specs.Code.Struct.{registers_from};
ghost use Rattle.ecam.specs.Code.Routed.{outcome, route_in, route_to};
ghost use Rattle.verdict.specs.declared.Verdict.TheVariants.{Failed};
ghost use Rattle.verdict.specs.Verdict.{slverr};
ghost use Rattle.parts.specs.Cores.{with_config, raised_core, free_config, open_config};
ghost use Rattle.parts.specs.Access.{config_done, goes_out, config_number, local_core, drop_config, config_answer};
ghost use Rattle.parts.specs.Code.Struct.{core_from};

use crate::{AREA_SIZE, ConfigSlot, Core, FINISHED, FREE, Figures, OPEN};
use common::CFG_TIMEOUT;
use ecam::{Access, Route};
use messages::queue::DEPTH;
use refusals::Refusal;
use verdict::{Cause, Verdict};

// Whether the request goes out over the link; that of a refused route does not.
#[tactic(auto, using(crate::proofs::Refused::refused_stays))]
pub fn goes_out(to: Result<Route, Refusal>) -> bool
    ensures { result ≡ goes_out (route_to to) }
{
    match to {
        Ok(x) => matches!(x, Route::Type0 | Route::Type1),
        Err(_) => false,
    }
}

// The data word of an answer: 0 for a write.
pub fn config_word(write: bool, payload: &[u8]) -> u32
    ensures { result ≡ cond write 0 (data_word payload.now) }
{
    if write { 0 } else { ecam::data_word(payload) }
}

impl ConfigSlot {
    // One that is free.
    pub fn free() -> ConfigSlot
        ensures { result ≡ free_config }
    {
        ConfigSlot {
            state: FREE,
            write: false,
            response: 0,
            word: 0,
            figures: Figures::none(),
        }
    }

    // One that waits for a completion.
    pub fn open(write: bool, figures: Figures) -> ConfigSlot
        ensures { result ≡ open_config write figures }
    {
        ConfigSlot {
            state: OPEN,
            write,
            response: 0,
            word: 0,
            figures,
        }
    }

    // Its access is finished.
    pub fn done(self, code: u32, word: u32) -> ConfigSlot
        ensures { result ≡ config_done self code word }
    {
        ConfigSlot {
            state: FINISHED,
            response: code,
            word,
            ..self
        }
    }

    // What it holds after UR, CRS or CA.
    #[tactic(auto, unfolding(crate::specs::Access::config_answer))]
    pub fn failed(self, why: Cause) -> ConfigSlot
        ensures { (payload : List ℕ) → result ≡ config_answer self payload (Failed why) }
    {
        match why {
            Cause::UnsupportedRequest if !self.write => self.done(0, 0xFFFF_FFFF),
            _ => self.done(2, 0),
        }
    }

    // What it holds after a completion.
    #[tactic(auto, unfolding(crate::specs::Access::config_answer))]
    pub fn answer(self, payload: &[u8], v: Verdict) -> ConfigSlot
        ensures { result ≡ config_answer self payload.now v }
    {
        match v {
            Verdict::Unexpected => self,
            Verdict::Good(_) => self.done(0, config_word(self.write, payload)),
            Verdict::Poisoned(_) => self.done(2, 0),
            Verdict::Failed(why) => self.failed(why),
        }
    }

    // What it holds when the link goes down: an open access is finished.
    pub fn dropped(self) -> ConfigSlot
        ensures { result ≡ drop_config self }
    {
        if self.state == OPEN {
            self.done(2, 0)
        } else {
            self
        }
    }
}

impl Core {
    // An access's route, unless it is refused. The refusals in their order: 8, 5, the route's 9, 10 or 11, and of what goes out 4
    // and 7.
    #[tactic(auto, using(ecam::proofs::Routed::outcome_number, ecam::proofs::Routed::outcome_ok), unfolding(crate::specs::Access::config_number))]
    pub fn check_config(&self, to: Result<Route, Refusal>, room: usize) -> Result<Route, Refusal>
        ensures number { (cells : List ℕ) (x : routes.Route) → to ≡ outcome x → number_in result ≡ config_number (core_from self.now cells) x room }
        ensures route { (x : code.Route) → result ≡ Ok x → to ≡ Ok x }
    {
        if room < AREA_SIZE {
            return Err(Refusal::TooShort);
        }
        if self.config.state != FREE {
            return Err(Refusal::ConfigBusy);
        }
        let x = to?;
        if goes_out(to) && !self.registers.link {
            return Err(Refusal::LinkDown);
        }
        if goes_out(to) && tags::available(self.free) == 0 {
            return Err(Refusal::FewTags);
        }
        Ok(x)
    }

    // That of an access, with n bus bits.
    #[tactic(auto, using(ecam::proofs::Routed::outcome_ok))]
    pub fn config_route(&self, n: u32, a: Access, room: usize) -> Result<Route, Refusal>
        ensures number { (cells : List ℕ) → number_in result ≡ config_number (core_from self.now cells) (route n (registers_from self.now.registers cells) a.offset) room }
        ensures route { (cells : List ℕ) (x : code.Route) → result ≡ Ok x → route_in x ≡ route n (registers_from self.now.registers cells) a.offset }
    {
        self.check_config(a.route(n, self.registers), room)
    }

    // A local access, of word w, finishes at once.
    #[tactic(auto, unfolding(crate::specs::Access::local_core))]
    pub fn finish_local(&mut self, cells: &[u32; DEPTH], a: Access, w: u32)
        ensures { core_from self.new cells.now ≡ local_core (core_from self.old cells.now) a w }
    {
        let slot = ConfigSlot::open(a.write, self.figures());
        if a.write {
            self.registers = self.registers.local_write(w, a.strobes, a.word);
            self.config = slot.done(0, 0);
        } else {
            self.config = slot.done(0, self.registers.local_read(cells, w));
        }
    }

    // The configuration access is finished as SLVERR with zero data, and bit 8 is set.
    pub fn time_out_config(&mut self)
        ensures { (cells : List ℕ) → core_from self.new cells ≡ raised_core cfg_timeout (with_config (config_done self.old.config slverr 0) (core_from self.old cells)) }
    {
        self.config = self.config.done(2, 0);
        self.raise(CFG_TIMEOUT);
    }
}
