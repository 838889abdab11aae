//! The seats of a store: parted, told of one another by notes, and gathered again. It stores into no word.
#![tactic(auto)]

mod gathers;
mod lists;
mod notes;
mod parts;

pub use gathers::gather;
pub use lists::{SeatCause, SeatList, SeatRefusal};
pub use lst_rule::open_store;
pub use notes::{Note, hear, tell};
pub use parts::part;
