//! A call of the program over memory, for the tests of the crates above: its words and its input are known, and each end of it takes steps of a chosen
//! length and fails at a chosen call.
#![tactic(auto)]

mod calls;

pub use calls::{Ends, Shown, call};
