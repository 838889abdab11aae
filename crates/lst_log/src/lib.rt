//! A log of commits on a disk: a journal. It touches the disk that it is given, by the calls of `lst_disk`.
#![tactic(auto)]

mod laws;
mod load;
mod log;
mod opening;
mod read;
mod store;
mod write;

pub use laws::image_has_one_history;
pub use log::{AppendFault, Log, StageFault};
pub use opening::{LogCause, LogRefusal, open};
pub use read::{has_place, is_record, read_record};
