//! A disk over a file of the system. What it shows of itself is read off a record of the calls that were made on the file.
#![tactic(auto)]

mod calls;
mod faults;
mod file_disk;
mod names;
mod opening;
mod record;
mod system;

pub use calls::Calls;
pub use faults::GrowFault;
pub use file_disk::FileDisk;
pub use names::open;
pub use opening::OpenFault;
pub use record::Record;
pub use system::SystemFile;
