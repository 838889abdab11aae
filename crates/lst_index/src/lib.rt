//! The primary index: which record a key has, and how a key comes to one.
//! It loads index words, key words and the counter of records; it draws a record, and stores a key and an index word for it.
#![tactic(auto)]

mod finding;
mod placing;
mod positions;
mod visits;

pub use finding::find;
pub use lst_rule::RecordId;
pub use placing::{TableFull, draw, look_at_counter, place, settle, take_record, visit};
pub use positions::position;
pub use visits::look;
