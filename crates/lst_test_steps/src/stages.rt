//! How far sessions are with their writes.

/// How far a session is with its write.
#[derive(Clone, Copy)]
pub enum Stage {
    /// Without a latch; whether a transaction is open isn't told.
    Out,
    /// Without a latch, in an open transaction.
    In,
    /// With the latch of a record, whose newest version has the number `head` in its range.
    Latching { rec: u32, head: u32 },
    /// The same, and the transaction may write there.
    Judged { rec: u32, head: u32 },
    /// With the latch of a record, and a whole tail of its range.
    Whole { rec: u32, tail: u32 },
}

/// How far the sessions 0 and 1 are.
#[derive(Clone, Copy)]
pub struct Pair {
    pub first: Stage,
    pub second: Stage,
}
