//! The spare frames that a program keeps.
use arrayvec::ArrayVec;
use lst_core_state::Retired;

/// The retired frames and the epoch of each, oldest first. There are at most 64.
pub type Spares = ArrayVec<Retired, 64>;
