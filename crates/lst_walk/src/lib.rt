//! The version walk: what a session's open transaction sees of a record, read off the record's chain of tail records, and off base pages.
//! It loads indirection words, the words of tail records and of pages that are taken in hand, and stores stamps alone.
#![tactic(auto)]

mod columns;
mod laws;
mod packed;
mod pages;
mod placed;
mod presence;
mod rows;
mod stamps;
mod whole;
mod words;

pub use columns::{column, column_by_chain, column_from};
pub use laws::{
    counters_tell_ranges, folds_are_cells, folds_are_numbers, folds_on_pages, looks_tell_folds,
    seen_are_known,
};
pub use placed::{TailPlaces, tails_of};
pub use presence::has_row;
pub use rows::{put_row, row};
pub use stamps::stamp;
