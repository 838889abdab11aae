//! An engine that keeps rows as lists of versions, one list for each key: an oracle for tests, which the program doesn't run.
#![tactic(auto)]

mod calls;
mod engine;
mod holder;
mod lineage;
mod lines;
mod plain;
mod record;
mod records;
mod scans;
mod session;
mod tails;
mod versions;
mod writes;

pub use plain::Plain;
