//! Tables as comma-separated values: a table becomes a script that makes it, and a table of a store becomes text.
#![tactic(auto)]

mod faults;
mod fields;
mod folding;
mod importing;
mod inserting;
mod keys;
mod laws;
mod reading;
mod writing;

pub use faults::{TableFault, TableRefusal};
pub use folding::dump_history;
pub use importing::import_text;
pub use laws::{
    script_of_any_table_is_read, script_of_table_is_read, text_of_table_is_the_same,
    written_records_are_read_again, written_table_is_read_again,
};
pub use writing::dump_text;
