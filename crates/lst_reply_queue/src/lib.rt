//! Replies that wait in a queue, most of them in little memory.
#![tactic(auto)]

mod kinds;
mod queue;

pub use queue::ReplyQueue;
