//! The atomic steps.

/// One atomic step of a session, or a load by the merger, whose number is that of the sessions.
#[derive(Clone, Copy)]
pub enum Event {
    /// Load a word.
    Look {
        session: u32,
        address: u64,
    },
    /// Store the begin word of the next transaction.
    Begin {
        session: u32,
        begin: u64,
        read_only: bool,
    },
    /// Exchange the commit word from 0 to the session's number plus one.
    Take {
        session: u32,
    },
    /// Store the log word above the clock.
    Log {
        session: u32,
    },
    /// Store the state word of the open transaction: committed at the time above the clock.
    State {
        session: u32,
    },
    /// Store the clock, one higher.
    Clock {
        session: u32,
    },
    /// Store 0 into the commit word.
    Give {
        session: u32,
    },
    /// Store the state word of the open transaction: closed.
    Close {
        session: u32,
    },
    /// Add one to the record counter.
    DrawRecord {
        session: u32,
    },
    /// Store the key word of the record in hand.
    StoreKey {
        session: u32,
        key: u64,
    },
    /// Exchange an index position from 0 to the record in hand plus one.
    Claim {
        session: u32,
        position: u32,
    },
    /// Set the latch bit of a record's indirection word.
    Latch {
        session: u32,
        rec: u32,
    },
    /// Add one to the tail counter of a range.
    DrawTail {
        session: u32,
        range: u32,
    },
    /// Store one word of the tail in hand: place 0 is its start word, 1 its encoding word, 2 its back word, and
    /// 3 + c the value of column c.
    StoreCell {
        session: u32,
        place: u32,
        value: u64,
    },
    /// Store the tail in hand into the indirection word of the latched record, without the latch bit.
    Install {
        session: u32,
    },
    /// Store the indirection word of the latched record as it was before the latch.
    Release {
        session: u32,
    },
    /// Store the commit time of a tail's transaction into its start word. The tail is named by its range and its number there.
    Stamp {
        session: u32,
        range: u32,
        number: u32,
    },
    /// Exchange a position of an indexed column's postings from 0 to the tail in hand.
    Post {
        session: u32,
        column: u32,
        position: u32,
    },
}
