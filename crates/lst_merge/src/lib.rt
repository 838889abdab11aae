//! The parts of a merge, by which a page takes the settled tails of its range in, and the page that is made so takes its place.
//! It loads directory words, frames, tail records and state words, and stores frames that the merger has in hand and one directory word.
#![tactic(auto)]

mod builds;
mod entries;
mod folds;
mod frames;
mod runs;
mod swaps;
mod tails;
mod words;

pub use builds::build;
pub use entries::{put_entry, read_values};
pub use runs::{Run, run_end};
pub use swaps::swap;
pub use words::write_page;
