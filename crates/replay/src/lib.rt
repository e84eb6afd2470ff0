// A capture played on a bridge that is lent from event to event, and by value from call to call.
#![tactic(auto)]

pub mod event;
pub mod play;
pub mod replay;
pub mod rows;
