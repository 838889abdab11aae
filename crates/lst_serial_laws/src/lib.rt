//! Serial places: what a report tells where each transaction that commits is as if it stood alone at its commit's time.
//! But for the two functions of `reads.rt`, nothing here runs.
#![tactic(auto)]

mod laws;
mod reads;

pub use laws::{answers_stay, checks_place, ends_are_legal, places_answer, unchanged_is_placed};
pub use reads::{key_of_call, reads_table};
