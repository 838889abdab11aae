//! Tests of commits by time: blocks of all versions, rows read from them beside the machine's, what a journal holds behind a crash, and transfers between
//! accounts.
#![tactic(auto)]

#[cfg(test)]
mod account_tests;
#[cfg(test)]
mod block_tests;
#[cfg(test)]
mod blocks;
#[cfg(test)]
mod changed_tests;
#[cfg(test)]
mod checks;
#[cfg(test)]
mod deeds;
#[cfg(test)]
mod digits_tests;
#[cfg(test)]
mod drawn_tests;
#[cfg(test)]
mod field_tests;
#[cfg(test)]
mod journal_tests;
#[cfg(test)]
mod past_tests;
#[cfg(test)]
mod plain;
