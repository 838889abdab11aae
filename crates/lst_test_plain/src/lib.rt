//! Tests of the engine of one thread, and of the machine that it answers as: each line of a script with its reply; and of snapshots of a history,
//! against its table.
#![tactic(auto)]

#[cfg(test)]
mod rows;
#[cfg(test)]
mod snapshot_tests;
#[cfg(test)]
mod tests;
