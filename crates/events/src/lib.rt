// The events on a state: a loop over many events lends the same one to each; the methods of `bridge` take and hand back a bridge
// by value. The cells of the queued messages are lent beside it where they are wanted.
#![tactic(auto)]

pub mod complete;
pub mod config;
pub mod link;
pub mod memory;
pub mod message;
mod pieces;
pub mod take;
pub mod tick;
