//! Packed pages: 256 values in as few words as one of five forms takes. No word of a store is touched.
#![tactic(auto)]

mod checks;
mod forms;
mod laws;
mod packing;
mod single;
mod survey;
mod whole;
mod widths;

pub use checks::is_packed;
pub use forms::Form;
pub use laws::packed_words;
pub use packing::pack;
pub use single::{Words, get, get_from};
pub use whole::unpack;
