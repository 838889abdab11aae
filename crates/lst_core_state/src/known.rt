//! What a session knows.

use crate::facts::{Fact, Find};
use crate::pages::PageKnown;
use lst_model::{Commit, Write};
use std::collections::LinkedList;

/// How far a session is with its turn to commit.
#[derive(Clone, Copy, PartialEq, Eq)]
pub enum Stage {
    /// It holds no turn.
    Away,
    /// It holds the turn.
    Taken,
    /// It has loaded the clock since it took the turn.
    Fresh,
    /// It has stored the log word.
    Logged,
    /// It has stored the state word.
    Stated,
    /// Its transaction is committed, and the turn isn't given back yet.
    Done,
}

/// What a session knows of a counter that it draws numbers from.
#[derive(Clone, Copy)]
pub struct Counter {
    /// A load since the last draw has found the counter below its limit.
    pub is_serving: bool,
    /// One more than the number at the limit or above that a draw has found, or 0.
    pub full: u64,
}

/// What a session knows of the record that it is about to place.
pub struct Placing {
    /// One more than the record in hand, or 0.
    pub hand: u32,
    /// The key that was stored for it.
    pub key: u64,
    pub has_key: bool,
    /// The record counter.
    pub counter: Counter,
    /// The records that it ever drew.
    pub drawn: LinkedList<u32>,
}

/// The latch and the tail in hand.
#[derive(Clone, Copy)]
pub struct Hold {
    /// One more than the record whose latch is in hand, or 0.
    pub latch: u32,
    /// The number, in its range, of the tail that the latched indirection word held, or 0.
    pub head: u64,
    /// The identifier of the tail in hand, `range * tails + number`, or 0.
    pub tail: u32,
    /// The start word of the tail in hand is stored.
    pub is_whole: bool,
}

/// The words of the tail in hand.
pub struct Draft {
    /// The word at each place.
    pub words: LinkedList<u64>,
    /// Bit p is set where the word at the place p, not the start word, is stored.
    pub stored: u32,
    /// Bit c is set where the tail was posted in the indexed column c.
    pub posted: u32,
    /// Bit c is set where the run of the tail's number in column c was found to end with no posting of its record and number.
    pub unposted: u32,
}

/// A write that is on a chain: by which transaction of the session, on which record, and its tail.
#[derive(Clone, Copy)]
pub struct Done {
    pub number: u32,
    pub rec: u32,
    pub tail: u32,
}

/// The words that were loaded last.
#[derive(Clone, Copy)]
pub struct Looks {
    /// The index word.
    pub index: u64,
    /// The start word of a tail, one more than the tail's record, and the tail.
    pub start: u64,
    pub about: u32,
    pub tail: u32,
    /// The state word of a transaction, and whose it was.
    pub state: u64,
    pub session: u32,
    pub number: u32,
}

/// What a session knows. No value of it is made at run time.
pub struct Known {
    /// The number of the last transaction that it began, or 0.
    pub number: u32,
    pub begin: u64,
    pub read_only: bool,
    pub is_open: bool,
    pub turn: Stage,
    /// The history that it has seen.
    pub seen: LinkedList<Commit>,
    /// The writes of its open transaction, by key, and those of a key in the order of the calls.
    pub own: LinkedList<Write>,
    pub placing: Placing,
    pub hold: Hold,
    pub draft: Draft,
    /// The tail counter of each range.
    pub counters: LinkedList<Counter>,
    /// The records that it ever latched.
    pub latched: LinkedList<u32>,
    /// The writes that it ever installed.
    pub done: LinkedList<Done>,
    pub facts: LinkedList<Fact>,
    pub finds: LinkedList<Find>,
    pub looks: Looks,
    pub pages: PageKnown,
}
