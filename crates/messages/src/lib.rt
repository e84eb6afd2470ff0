// Messages that come over the link: their layout, and the queue that keeps the errors.
#![tactic(auto)]

pub mod layout;
pub mod queue;
