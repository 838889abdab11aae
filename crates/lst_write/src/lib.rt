//! Versions: what a session writes on a record's chain.
//! It takes the steps of a write: the latch of an indirection word, the draw of a tail record and its cells, the indirection word again.
#![tactic(auto)]

mod cells;
mod judgement;
mod latches;
mod standing;
mod tails;

pub use judgement::{JudgeFault, judge, judged_version};
pub use latches::{Latched, latch, release};
pub use tails::{TailFull, append, install};
