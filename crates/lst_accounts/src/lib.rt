//! Accounts as rows of one column, transfers between them, and why a history of transfers keeps what was paid in.
#![tactic(auto)]

mod laws;
mod rows;
mod transfer;

pub use laws::{entries_last, every_sum_is_what_was_paid_in};
pub use rows::{account, balance_in, new_balance};
pub use transfer::Transfer;
