//! Where bytes come from and where they go: a source and a sink that may fail, and count their faults.
#![tactic(auto)]

mod ends;
mod faults;
mod memory;
mod streams;
mod whole;

pub use ends::{Failed, Sink, Source};
pub use memory::{MemSink, MemSource};
pub use streams::{StdSink, StdSource};
pub use whole::{ReadAllFault, read_all, write_all};
