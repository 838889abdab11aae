//! The protocol of a store as data: what a session knows, the single atomic steps, and what holds between any two of them.
//! What runs are the numbers that a program keeps of what a session knows, and the word that a step is on.
#![tactic(auto)]

mod afters;
mod events;
mod facts;
mod known;
mod laws;
mod numbers;
mod pages;
mod targets;

pub use afters::{advance, look};
pub use events::Event;
pub use facts::{Fact, Find};
pub use known::{Counter, Done, Draft, Hold, Known, Looks, Placing, Stage};
pub use laws::{
    chains_are_history, chains_are_sights, every_run_is_sound, histories_are_sound,
    postings_are_complete, seen_may_grow, seen_means_known, steps_are_sound,
    unposted_may_be_posted, visible_is_seen,
};
pub use numbers::{Numbers, newcomers};
pub use pages::{MergerFrames, PageInHand, PageKnown, Retired, SessionFrames};
pub use targets::{target, written};
