//! The secondary indexes: which tails hold a number in an indexed column.
//! It loads posting words and the words of tail records, and stores postings.
#![tactic(auto)]

mod gathering;
mod listing;
mod lists;
mod positions;
mod posting;
mod visits;

pub use listing::{CandidateFault, candidates};
pub use lists::RecordList;
pub use posting::{post, post_all};
