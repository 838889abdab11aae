//! Tests of the protocol and of base pages in single steps: worked steps, and drawn ones beside a plain recomputation; and pages of worked tails.
#![tactic(auto)]

#[cfg(test)]
mod core_tests;
#[cfg(test)]
mod drawn_tests;
#[cfg(test)]
mod page_core_tests;
#[cfg(test)]
mod page_tests;
#[cfg(test)]
mod plain;
