//! A device of fixed size that may fail, and that may crash at any moment; and one in memory.
#![tactic(auto)]

mod disk;
mod faults;
mod laws;
mod memory;
mod parts;

pub use disk::{Disk, DiskFailed};
pub use laws::images_differ_in_pending_bytes;
pub use memory::MemDisk;
