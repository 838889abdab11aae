//! The atomic steps on pins, pages and frames.

/// One atomic step: of the session that it names, or of the merger.
#[derive(Clone, Copy, PartialEq, Eq, Debug)]
pub enum PageEvent {
    /// A session stores its pin word: the epoch plus one.
    Pin {
        session: u32,
        epoch: u64,
    },
    /// A session stores 0 into its pin word.
    Unpin {
        session: u32,
    },
    /// A session loads a directory word, and so has that frame in hand.
    LookPage {
        session: u32,
        range: u32,
        column: u32,
    },
    /// The merger loads a session's pin word.
    LookPin {
        session: u32,
    },
    /// The merger stores a word of the oldest retired frame, which it so begins or goes on to build.
    StoreFrame {
        frame: u32,
        place: u32,
        value: u64,
    },
    /// The merger stores the frame that it has built into a directory word.
    Swap {
        range: u32,
        column: u32,
    },
    /// The merger stores the epoch, one higher, and retires the frame that it has replaced.
    Raise,
}
