// A configuration access: the fields of its offset, where it goes, and the request of one that goes out.
ghost use Rattle.std.specs.Prelude.{◌≡◌, cond, List, ℕ, ◌%◌};
ghost use Rattle.ecam.specs.Offset.{register, extended, function, device, bus, word};
ghost use Rattle.ecam.specs.Route.{out_of_range, route};
ghost use Rattle.ecam.specs.Request.{config_address, config_target, config_request};
ghost use Rattle.ecam.specs.Code.Struct.{registers_from};
ghost use Rattle.ecam.specs.Code.Routed.{outcome, route_in, route_to};

use crate::registers::Registers;
use refusals::Refusal;
use tlp::request::{ConfigAddress, Request, Target};

// What a configuration call is given. Kept: a flag beside strobes and word, as the call has them; a read may come with any.
#[derive(Clone, Copy, Debug, PartialEq, Eq)]
pub struct Access {
    pub offset: u64,
    pub write: bool,
    pub strobes: u32,
    pub word: u32,
}

// Where an access goes that is not refused: a local word, or a request over the link.
#[derive(Clone, Copy, Debug, PartialEq, Eq)]
pub enum Route {
    Local(u32),
    Type0,
    Type1,
}

impl Access {
    pub fn register(self) -> u32
        ensures { result ≡ register self.offset }
    {
        ((self.offset >> 2) % 64) as u32
    }

    pub fn extended(self) -> u32
        ensures { result ≡ extended self.offset }
    {
        ((self.offset >> 8) % 16) as u32
    }

    pub fn function(self) -> u32
        ensures { result ≡ function self.offset }
    {
        ((self.offset >> 12) % 8) as u32
    }

    pub fn device(self) -> u32
        ensures { result ≡ device self.offset }
    {
        ((self.offset >> 15) % 32) as u32
    }

    pub fn bus(self) -> u64
        ensures { result ≡ bus self.offset }
    {
        self.offset >> 20
    }

    // The local word at the offset.
    pub fn local_word(self) -> u32
        ensures { result ≡ word self.offset }
    {
        (self.offset % 4096 / 4 * 4) as u32
    }

    // Whether the offset lies past n bus bits.
    #[tactic(auto, using(crate::proofs::Reach::shifted, crate::proofs::Reach::all_below))]
    fn is_out_of_range(self, n: u32) -> bool
        ensures { result ≡ out_of_range n self.offset }
    {
        n < 44 && 1 << (20 + n) <= self.offset
    }

    // Where it goes, with n bus bits.
    #[tactic(auto, unfolding(crate::specs::Route::route))]
    pub fn route(self, n: u32, r: Registers) -> Result<Route, Refusal>
        ensures { (cells : List ℕ) → result ≡ outcome (route n (registers_from r cells) self.offset) }
    {
        if self.is_out_of_range(n) {
            return Err(Refusal::OffsetOver);
        }
        let bus = self.bus();
        if bus == u64::from(r.primary) {
            return Ok(Route::Local(self.local_word()));
        }
        let secondary = u64::from(r.secondary);
        if bus < secondary || u64::from(r.subordinate) < bus {
            return Err(Refusal::NotRouted);
        }
        if secondary < bus {
            return Ok(Route::Type1);
        }
        if self.device() != 0 {
            return Err(Refusal::WrongDevice);
        }
        Ok(Route::Type0)
    }

    // The offset's fields, as a header has them.
    #[tactic(auto, unfolding(crate::specs::Request::config_address))]
    fn address(self) -> ConfigAddress
        ensures { result ≡ config_address self.offset }
    {
        ConfigAddress {
            bus: (self.bus() % 256) as u32,
            device: self.device(),
            function: self.function(),
            extended: self.extended(),
            register: self.register(),
        }
    }

    #[tactic(auto, unfolding(crate::specs::Request::config_target))]
    fn target(self, x: Route) -> Target
        ensures { result ≡ config_target (route_in x) self.offset }
    {
        match x {
            Route::Type1 => Target::Config1(self.address()),
            Route::Local(_) | Route::Type0 => Target::Config0(self.address()),
        }
    }

    // A refused route has a target too, by type 0.
    #[tactic(auto, using(crate::proofs::Routed::refused_target))]
    fn target_of(self, to: Result<Route, Refusal>) -> Target
        ensures { result ≡ config_target (route_to to) self.offset }
    {
        match to {
            Ok(x) => self.target(x),
            Err(_) => self.target(Route::Type0),
        }
    }

    fn first_enables(self) -> u32
        ensures { result ≡ cond self.write (self.strobes % 16) 15 }
    {
        if self.write { self.strobes % 16 } else { 15 }
    }

    // The request of an access by its route, routed or not.
    #[tactic(auto, unfolding(crate::specs::Request::config_request))]
    pub fn request(self, to: Result<Route, Refusal>, requester: u32, tag: u32) -> Request
        ensures { result ≡ config_request (route_to to) self.offset self.write self.strobes requester tag }
    {
        Request {
            write: self.write,
            target: self.target_of(to),
            length: 1,
            requester,
            tag,
            last: 0,
            first: self.first_enables(),
        }
    }
}
