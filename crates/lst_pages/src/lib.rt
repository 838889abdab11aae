//! Base pages, frames and pins: what a page says of each record, and the single atomic steps by which pages are built, taken and given up.
//! What runs of steps are the numbers that a program keeps of pages, and the word that a step is on.
#![tactic(auto)]

mod entries;
mod events;
mod frames;
mod laws;
mod numbers;
mod tails;

pub use entries::{Entry, fold_tails};
pub use events::PageEvent;
pub use frames::{entry_in, is_right};
pub use laws::{
    entries_are_answers, every_run_is_sound, merger_knows_its_words, opening_pages_are_sound,
    pages_are_built_on, pages_left_alone_are_sound, pages_stay_right, settled_tails_are_found,
    sound_states_are_safe, steps_are_made_by_numbers, steps_keep_soundness,
    steps_of_the_core_leave_pages, steps_on_pages_are_sound, words_of_pages_are_free,
    zeros_are_a_right_page,
};
pub use numbers::{MergerNumbers, lets_go, merger_after, pin_after, target, written};
pub use tails::PageTail;
