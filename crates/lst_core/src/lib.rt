//! The protocol in single steps, executable: `Core` is one row of words, which it makes each step of `lst_core_state` on. No shared word is touched.
#![tactic(auto)]

mod allowed;
mod chains;
mod cores;
mod drafts;
mod numbers;
mod postings;
mod probes;
mod reads;

pub use allowed::{is_within, session_of};
pub use cores::{Core, NotEnabled};
pub use lst_core_state::{Event, every_run_is_sound};
pub use numbers::{after, allows};
