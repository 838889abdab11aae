//! What a running program needs of what a session knows.
ghost use Rattle.std.specs.Prelude.{◌≡◌, IfOk, replicate};
ghost use Rattle.lst_core_state.specs.Numbers.{newcomer_numbers};

use crate::{Hold, Stage};
use lst_model::OutOfMemory;
use std::alloc::Global;

/// The numbers of what a session knows.
#[derive(Clone, Copy)]
pub struct Numbers {
    /// The number of the last transaction that it began, or 0.
    pub number: u32,
    pub begin: u64,
    pub read_only: bool,
    pub is_open: bool,
    pub turn: Stage,
    /// The length of the history that it has seen.
    pub seen: u64,
    /// Its open transaction has installed a write.
    pub has_writes: bool,
    /// One more than the record in hand, or 0.
    pub hand: u32,
    /// The key that was stored for the record in hand.
    pub key: u64,
    pub has_key: bool,
    /// A load serves the next draw of a record.
    pub is_serving: bool,
    pub hold: Hold,
    /// Bit p is set where the word at the place p of the tail in hand is stored.
    pub stored: u32,
    /// The index word that was loaded last.
    pub index: u64,
    /// Whether a load serves the next draw of a tail, by range.
    pub served: [bool; 64],
    /// Its pin word: 0 where it has no epoch pinned, else that epoch plus one.
    pub pin: u64,
    /// The epoch word, as the merger knows it.
    pub epoch: u64,
    /// The frame that the merger is building.
    pub built: Option<u32>,
}

/// The numbers of a session that knows nothing.
const NEWCOMER: Numbers = Numbers {
    number: 0,
    begin: 0,
    read_only: false,
    is_open: false,
    turn: Stage::Away,
    seen: 0,
    has_writes: false,
    hand: 0,
    key: 0,
    has_key: false,
    is_serving: false,
    hold: Hold {
        latch: 0,
        head: 0,
        tail: 0,
        is_whole: false,
    },
    stored: 0,
    index: 0,
    served: [false; 64],
    pin: 0,
    epoch: 0,
    built: None,
};

/// The numbers of this many sessions that know nothing.
pub fn newcomers(alloc: Global, count: u32) -> Result<Vec<Numbers>, OutOfMemory>
    ensures { IfOk result (λ numbers. numbers.items ≡ replicate count newcomer_numbers) }
{
    let mut numbers = Vec::new(alloc);
    let mut made = 0;
    while made < count {
        numbers.push(NEWCOMER)?;
        made += 1;
    }
    Ok(numbers)
}
