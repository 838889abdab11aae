//! Sessions of one seat, which hosts them all, taken operation by operation, so that tests can hold every order of their operations against each
//! other; and tests of keys, postings, rows, seats, pins, merges, pages and transactions.
#![tactic(auto)]

#[cfg(test)]
mod candidate_tests;
#[cfg(test)]
mod greatest_tests;
#[cfg(test)]
mod history_tests;
#[cfg(test)]
mod index_tests;
#[cfg(test)]
mod machine;
#[cfg(test)]
mod merge_tests;
#[cfg(test)]
mod operations;
#[cfg(test)]
mod page_tests;
#[cfg(test)]
mod pairs;
#[cfg(test)]
mod part_tests;
#[cfg(test)]
mod pin_tests;
#[cfg(test)]
mod place_tests;
#[cfg(test)]
mod post_tests;
#[cfg(test)]
mod read_tests;
#[cfg(test)]
mod same;
#[cfg(test)]
mod seat_tests;
#[cfg(test)]
mod second_tests;
mod stages;
#[cfg(test)]
mod tests;
#[cfg(test)]
mod turns;
#[cfg(test)]
mod txn_tests;
#[cfg(test)]
mod writes;

pub use stages::{Pair, Stage};
