//! What sessions and the merger know of pages.

use std::collections::LinkedList;

/// A retired frame, and the epoch at which it was retired.
#[derive(Clone, Copy, PartialEq, Eq, Debug, Default)]
pub struct Retired {
    pub frame: u32,
    pub epoch: u64,
}

/// A page that a session has in hand, with the words that its frame had when it was taken in hand.
pub struct PageInHand {
    pub range: u32,
    pub column: u32,
    pub words: LinkedList<u64>,
}

/// What a session knows of frames. No value of it is made at run time.
pub struct SessionFrames {
    /// Its pin word: 0 where it has no epoch pinned, else that epoch plus one.
    pub pin: u64,
    /// For each frame, the page that it was taken in hand as, if it is in hand.
    pub hand: LinkedList<Option<PageInHand>>,
}

/// What the merger knows of frames. No value of it is made at run time.
pub struct MergerFrames {
    /// The epoch word. The merger alone stores it, the directory and the frames, so it knows their words.
    pub epoch: u64,
    /// The directory words, by range and column.
    pub directory: LinkedList<LinkedList<u64>>,
    /// The words of each frame.
    pub frames: LinkedList<LinkedList<u64>>,
    /// The retired frames, oldest first.
    pub retired: LinkedList<Retired>,
    /// For each session, whether its pin was found not to hold the oldest retired frame.
    pub clear: LinkedList<bool>,
    /// The frame that was replaced and waits to be retired.
    pub waiting: Option<u32>,
    /// The frame that is being built.
    pub built: Option<u32>,
    /// The session of each find of a pin that held the oldest retired frame.
    pub held: LinkedList<u32>,
    /// The session of each find of a pin that didn't.
    pub let_go: LinkedList<u32>,
}

/// What a session, or the merger, knows of pages. No value of it is made at run time.
pub struct PageKnown {
    /// How many pins it ever set.
    pub pins: u64,
    /// Its pin and its frames in hand. The merger sets no pin.
    pub session: SessionFrames,
    /// The merger's stock of frames. A session's stays as it was when the store opened.
    pub stock: MergerFrames,
}
