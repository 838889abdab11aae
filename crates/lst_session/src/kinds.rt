//! What the calls of a session answer.
use lst_model::Time;

/// Why a write isn't made.
#[derive(Clone, Copy, PartialEq, Eq, Debug)]
pub enum WriteRefusal {
    /// No transaction is open.
    Idle,
    /// The open transaction is read-only.
    ReadOnly,
    /// The transaction sees no row of the key.
    Missing,
    /// The transaction sees a row of the key.
    Exists,
    /// Every record of the store is drawn.
    TableFull,
    /// Another session has the record's latch.
    Latched,
    /// A write on the key was committed at this time, after the transaction's begin.
    Newer { time: Time },
    /// The transaction with this number of this other session has written on the key, and isn't finished.
    Unfinished { session: u32, number: u32 },
    /// Every tail of the record's range is drawn.
    TailFull,
}

/// Why a commit isn't made.
#[derive(Clone, Copy, PartialEq, Eq, Debug)]
pub enum CommitRefusal {
    /// No transaction is open.
    Idle,
    /// The commit word was found held by another session.
    Busy,
}

/// How a transaction ends that its session commits.
#[derive(Clone, Copy, PartialEq, Eq, Debug)]
pub enum Outcome {
    /// It has writes, and is the commit at this time.
    Committed { time: Time },
    /// It has none. This is its begin.
    Ended { time: Time },
}

/// What a merge of a page came to.
#[derive(Clone, Copy, PartialEq, Eq, Debug)]
pub enum Merge {
    /// The page has the tails up to this number now.
    Merged { tps: u32 },
    /// It has them already, and the next one isn't settled.
    Idle { tps: u32 },
    /// There are tails to take in, and no frame for them: this session's pin holds the retired ones.
    NoFrame { session: u32 },
}
