// The verbs of the machine, one at a time, on the code's state: each contract says which definition of `machine` the state
// means then, whatever the cells of the queued messages hold.
#![tactic(auto)]

pub mod memory;
pub mod opening;
pub mod pieces;
pub mod routed;
pub mod slots;
pub mod stores;
pub mod tagged;
