//! What the commits of a script make is always a table whose text is read again. The crate has a law alone, over the machine, the grammar of scripts and
//! the records of tables, and knows no words of a store.
#![tactic(auto)]

mod laws;

pub use laws::dumps_are_tables;
