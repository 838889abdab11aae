//! A list of commits, run again on the machine of one thread. Definitions and laws alone, which know no words of a store.
#![tactic(auto)]

mod laws;

pub use laws::{
    commits_run_again, histories_run_again, puts_are_committed, room_meets_no_limit,
    same_commits_stay_same, stores_have_room,
};
