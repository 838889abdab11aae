//! Scans: sums, counts, lists and finds over the rows that a session's open transaction sees.
//! It loads what `lst_walk` and `lst_second` do, and whole frames.
#![tactic(auto)]

mod finds;
mod laws;
mod lines;
mod lists;
mod paged;
mod readers;
mod records;
mod sessions;
mod sums;

pub use finds::FindRefusal;
pub use laws::{
    crews_answer_scans, found_numbers_were_put, places_are_found, scans_leave_sessions, sums_add_up,
};
pub use lines::crew_line;
pub use readers::{count, find, find_among, rows, sum, sum_part};
pub use sessions::session_line;
