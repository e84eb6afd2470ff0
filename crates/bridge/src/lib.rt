// The bridge: its state by value, and a method for each event that hands back the bridge with its answer.
#![tactic(auto)]

mod fresh;
mod methods;

use messages::queue::DEPTH;
use parts::State;
pub use parts::{Accepted, Answer, ConfigSlot, Core, Figures};
pub use refusals::{Refusal, Response};

#[derive(Clone, Copy, Debug, PartialEq, Eq)]
pub struct Bridge {
    pub state: State,
    // The entries of the queued error messages; `state.core.registers.errors` says where they begin and how many there are.
    pub cells: [u32; DEPTH],
}

// An event's answer, with the bridge after it.
#[derive(Clone, Copy, Debug, PartialEq, Eq)]
pub struct Answered {
    pub bridge: Bridge,
    pub answer: Answer,
}
