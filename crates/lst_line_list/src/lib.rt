//! Lines in a list, most of them in little memory.
#![tactic(auto)]

mod keeping;
mod kinds;
mod list;
mod packed;
mod parts;

pub use list::LineList;
pub use packed::PackedPatch;
pub use parts::LineSlice;
