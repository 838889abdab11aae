//! What a session has done by a place of a run.

use lst_model::{Time, Writes};

/// An open transaction: the number that it has in its session (1 and up), the time at which it began, whether it is
/// read-only, and its writes so far, by rising key and, of one key, in the order of the calls.
#[derive(Drop)]
pub struct Transaction {
    pub number: u64,
    pub begin: Time,
    pub read_only: bool,
    pub writes: Writes,
}

/// How many transactions a session has begun, and its open one.
#[derive(Drop)]
pub struct SessionState {
    pub begun: u64,
    pub current: Option<Transaction>,
}
