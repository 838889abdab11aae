//! Sessions at work, each in a thread of its own where one can be started: a worker runs the lines of its session, a merge worker the merges, phase after phase.
//! It touches words by the calls of sessions alone.
#![tactic(auto)]

mod blocks;
mod gates;
mod hearing;
mod hiring;
mod laws;
mod lines;
mod loading;
mod merging;
mod orders;
mod paces;
mod par_sums;
mod phases;
mod reads;
mod reporting;
mod scripts;
mod serials;
mod totals;
mod workers;
mod working;

pub use gates::{FreeGate, Gate};
pub use laws::{generated_script_has_total, generated_script_is_loaded};
pub use lines::line_reply;
pub use loading::{Loaded, load};
pub use par_sums::{all_can_begin, all_have_seen, par_sum, sessions_see_alike};
pub use reporting::{work, work_at, work_serial};
pub use totals::work_total;
pub use working::work_on;
