//! What steps have found.

use std::collections::LinkedList;

/// What a step has found, and stays so for good. A tail is named by its identifier, `range * tails + number`.
pub enum Fact {
    /// The position of the index holds the record, which has the key.
    IndexAt {
        position: u32,
        rec: u32,
        key: u64,
    },
    /// The transaction isn't active: it has this state word.
    StateAt {
        session: u32,
        number: u32,
        state: u64,
    },
    /// The tail is stored whole by the transaction of this name, with these words.
    CellIs {
        tail: u32,
        writer: u64,
        encoding: u64,
        back: u64,
        values: LinkedList<u64>,
    },
    /// The record's chain, newest first, ends in these tails.
    ChainEnds {
        rec: u32,
        tails: LinkedList<u32>,
    },
    /// The log names this transaction at the time, which isn't above the clock.
    CommitAt {
        time: u64,
        session: u32,
        number: u32,
    },
    /// The record counter is at least this.
    RecordsAtLeast {
        count: u64,
    },
    /// The tail counter of the range is at least this.
    TailsAtLeast {
        range: u32,
        count: u64,
    },
    /// The epoch is at least this.
    EpochAtLeast {
        epoch: u64,
    },
    /// The position of the column's postings holds the tail.
    PostAt {
        column: u32,
        position: u32,
        tail: u32,
    },
}

/// What a step has found at its moment. The list of them only grows; a count is the number of one kind among them.
#[derive(Clone, Copy)]
pub enum Find {
    /// A latch bit was set already.
    LatchedRecord {
        rec: u32,
    },
    /// The clock had this value.
    FreshClock {
        clock: u64,
    },
    /// The epoch had this value.
    FreshEpoch {
        epoch: u64,
    },
    /// The transaction was neither closed nor committed by the clock. `about` is one more than the record of the version
    /// that was at hand, and `tail` its tail, or both are 0; `begin` is one more than the finder's begin, or 0 where it
    /// had no transaction.
    UnfinishedVersion {
        about: u32,
        tail: u32,
        session: u32,
        number: u32,
        begin: u64,
    },
    /// The commit word wasn't 0.
    HeldTurn,
    /// The record counter was at its limit or above.
    FullRecords,
    /// The tail counter of the range was at its limit or above.
    FullTails {
        range: u32,
    },
    /// The tail counter of the range had this value.
    CountedTails {
        range: u32,
        count: u64,
    },
    /// The tail's start word was 0.
    EmptyStart {
        tail: u32,
    },
    /// A word of a tail was loaded.
    TailLoad {
        tail: u32,
    },
}
