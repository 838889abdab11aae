//! What merges ask of a session.
ghost use Rattle.std.specs.Prelude.{◌≡◌, ◌<◌, IfOk, slice_index, length, replicate};
ghost use Rattle.lst_plain.specs.Lineages.{new_holder, begun_holder, ended_holder, noted_holder, swapped_holder, is_behind};

use lst_model::OutOfMemory;
use std::alloc::Global;
use std::marker::Model;

/// How many pages were swapped since a session's open transaction began, counted up to a limit, or None where it has none; and by
/// range the number of the first tail that this transaction wrote there, or 0.
#[derive(Drop)]
pub(crate) struct Holder {
    swaps: Option<u32>,
    firsts: Vec<u32>,
}

impl Model for Holder {
    ghost use Rattle.lst_plain.specs.Lineages.{HolderState};

    ghost Value = { HolderState };

    ghost view = { λ h. record { swaps = h.swaps; firsts = h.firsts.items } };
}

impl Holder {
    /// A session without a transaction.
    pub fn new(alloc: Global, ranges: u32) -> Result<Holder, OutOfMemory>
        ensures { IfOk result (λ holder. holder ≡ new_holder ranges) }
    {
        let firsts = vec![in alloc; 0; ranges as usize]?;
        Ok(Holder {
            swaps: None,
            firsts,
        })
    }

    /// A transaction begins, where none is open.
    pub fn begin(&mut self)
        ensures { self.new ≡ begun_holder self.old }
    {
        self.swaps = Some(0);
    }

    /// The open transaction ends.
    pub fn end(&mut self)
        ensures { self.new ≡ ended_holder self.old }
    {
        self.swaps = None;
        clear(self.firsts.as_mut_slice());
    }

    /// The open transaction wrote this tail of a range.
    pub fn note(&mut self, range: usize, tail: u32)
        requires { range < length self.old.firsts }
        ensures { self.new ≡ noted_holder self.old range tail }
    {
        if self.firsts[range] == 0 {
            self.firsts[range] = tail;
        }
    }

    /// The number of the first tail of a range that the open transaction wrote, or 0.
    pub fn first(&self, range: usize) -> u32
        requires { range < length self.now.firsts }
        ensures { result ≡ slice_index self.now.firsts range }
    {
        self.firsts[range]
    }

    /// One more page was swapped. The count goes up to this limit.
    pub fn swap(&mut self, spare: u32)
        ensures { self.new ≡ swapped_holder spare self.old }
    {
        if let Some(swaps) = self.swaps {
            if swaps < spare {
                self.swaps = Some(swaps + 1);
            }
        }
    }

    /// Whether so many pages were swapped since the open transaction began.
    pub fn is_behind(&self, spare: u32) -> bool
        ensures { result ≡ is_behind spare self.now }
    {
        match self.swaps {
            Some(swaps) => spare <= swaps,
            None => false,
        }
    }
}

/// Makes all numbers 0.
fn clear(numbers: &mut [u32])
    ensures { numbers.new ≡ replicate (length numbers.old) 0 }
{
    for place in 0..numbers.len() {
        numbers[place] = 0;
    }
}
