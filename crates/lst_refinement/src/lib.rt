//! The machine of one thread as a crew's store tells it. Nothing here runs.
#![tactic(auto)]

mod laws;

pub use laws::{
    changes_are_told, merged_reads_need_no_tail, merges_are_told, pages_are_told, states_are_told,
};
