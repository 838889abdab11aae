//! The history of a store, read off its words by a seat that knows each of them.
//! It loads log, start, encoding and value words, and stores none.
#![tactic(auto)]

mod acts;
mod bare;
mod commits;
mod joins;
mod reading;
mod sorting;
mod tails;
mod words;

pub use bare::history_without_writes;
pub use reading::history;
