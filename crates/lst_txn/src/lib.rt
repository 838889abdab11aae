//! A session's transactions: the steps of begins and ends.
#![tactic(auto)]

mod begins;
mod ends;

pub use begins::{BeginFault, as_of, begin, may_begin, open};
pub use ends::{Idle, Turn, TurnFault, close, take_turn};
