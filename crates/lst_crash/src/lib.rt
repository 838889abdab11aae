//! A script that is run through a journal on a disk in memory, which may stop at any of its calls; and what a second opening finds behind the crash.
#![tactic(auto)]

mod crash;
mod recovered;
mod running;
mod words;

pub use crash::{Crashed, crash_lines};
