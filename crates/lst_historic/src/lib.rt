//! The versions of all keys of a history in one block of bytes, read as of each time. Bytes and lists alone.
#![tactic(auto)]

mod building;
mod changing;
mod checking;
mod decoding;
mod digits;
mod gathering;
mod historic;
mod laws;
mod numbers;
mod opening;
mod places;
mod reading;
mod steps;
mod sums;
mod tables;
mod writing;

pub use building::build;
pub use digits::by_digits;
pub use historic::{Historic, Late, TableRefused};
pub use laws::{
    block_has_one_meaning, history_has_its_block, number_has_one_spelling,
    table_is_that_of_versions, worked_blocks_are_read_aloud,
};
pub use opening::{BlockFault, open_block};
pub use steps::Step;
