//! A crew with a journal: a store that is recovered from a disk that a crash may have left, and the log of its commits.
//! It makes the calls of a log of `lst_log` and of a crew.
#![tactic(auto)]

mod again;
mod fits;
mod journal;
mod lines;
mod opening;
mod own;
mod recovery;
mod together;

pub use journal::{Kept, Redo};
pub use opening::{OpenCause, OpenRefusal, open_redo};
pub use own::OwnWrites;
pub use recovery::{RecoveryFault, recover};
pub use together::RunFault;
