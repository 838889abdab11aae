//! Sessions, each with its transactions, and the crew that hosts all sessions of a store on one thread.
//! It touches words by the calls of the crates below alone.
#![tactic(auto)]

mod begins;
mod commits;
mod crew;
mod gathers;
mod held;
mod histories;
mod kinds;
mod laws;
mod lines;
mod locks;
mod merges;
mod parts;
mod passes;
mod phases;
mod reader;
mod reads;
mod replies;
mod session;
mod turns;
mod writes;

pub use crew::{Crew, open_crew};
pub use gathers::gather;
pub use held::Held;
pub use kinds::{CommitRefusal, Merge, Outcome, WriteRefusal};
pub use laws::seen_is_sound;
pub use locks::CommitLock;
pub use lst_seat::Note;
pub use lst_txn::{BeginFault as BeginRefusal, Idle as NotBegun};
pub use passes::{GatherCause, GatherRefusal, Merger, Sessions};
pub use phases::next_phase;
pub use reader::{Reader, Reads};
pub use replies::{commit_reply, merge_reply};
pub use session::Session;
