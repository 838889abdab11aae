//! Pins, and frames that are free to be used again. It stores and loads the pins of sessions, and loads the epoch.
#![tactic(auto)]

mod frees;
mod pins;
mod spares;

pub use frees::{Held, first_holder, free_frame};
pub use pins::{pin, unpin};
pub use spares::opening_spares;
