//! The retired frames, and how far the oldest one is on its way to be used again.
ghost use Rattle.std.specs.Prelude.{◌≡◌, ◌<◌, ◌≤◌, ◌+◌, ◌^◌, ◌↔◌, ℕ, IfOk, IsTrue, Some, None, true, false, length, slice_index_or, replicate};
ghost use Rattle.lst_layout.specs.Limits.{IsValid};
ghost use Rattle.lst_core_pages.specs.Cells as spec;
ghost use Rattle.lst_pages.specs.Lists.{HasFirst};
ghost use Rattle.lst_pages.specs.State as state;

use arrayvec::ArrayVec;
use lst_core_state::Retired;
use lst_layout::Limits;
use lst_model::OutOfMemory;
use lst_pages::{PageEvent, lets_go};
use std::alloc::Global;
use std::marker::Model;

/// The retired frames, oldest first; for each session whether its pin was found not to hold the oldest; the frame that
/// waits to be retired, and the one that is being built.
#[derive(Drop)]
pub(crate) struct FrameQueue {
    retired: ArrayVec<Retired, 64>,
    clear: Vec<bool>,
    waiting: Option<u32>,
    built: Option<u32>,
}

impl Model for FrameQueue {
    ghost use Rattle.lst_core_pages.specs.Cells.{Queue};

    ghost Value = { Queue };

    ghost view = { λ q. record { retired = q.retired.items; clear = q.clear.items; waiting = q.waiting; built = q.built } };
}

impl FrameQueue {
    /// The frames that no page has at opening are retired.
    pub(crate) fn new(alloc: Global, limits: &Limits) -> Result<FrameQueue, OutOfMemory>
        requires { IsValid limits.now }
        ensures { IfOk result (λ queue. queue ≡ spec.opening_queue limits.now) }
    {
        let clear = vec![in alloc; false; limits.sessions as usize]?;
        Ok(FrameQueue {
            retired: spares(limits.page_count() as u32, limits.spare),
            clear,
            waiting: None,
            built: None,
        })
    }

    /// The frame that was replaced and waits to be retired.
    pub(crate) fn waiting(&self) -> Option<u32>
        ensures { result ≡ self.now.waiting }
    {
        self.waiting
    }

    /// The frame that is being built.
    pub(crate) fn built(&self) -> Option<u32>
        ensures { result ≡ self.now.built }
    {
        self.built
    }

    /// Whether the frame is the oldest retired one and every session's pin was found not to hold it.
    pub(crate) fn may_build(&self, frame: u32) -> bool
        ensures { IsTrue result ↔ (HasFirst (λ r. r.frame ≡ frame) self.now.retired × ((s : ℕ) → s < length self.now.clear → slice_index_or self.now.clear s false ≡ true)) }
    {
        is_oldest(self.retired.as_slice(), frame) && are_all(self.clear.as_slice())
    }

    /// Changes the queue as the step does that has found this word.
    pub(crate) fn change(&mut self, event: PageEvent, found: u64)
        requires { spec.QueueFits self.old event found }
        ensures { self.new ≡ spec.queue_after self.old event found }
    {
        match event {
            PageEvent::LookPin { session } => {
                if lets_go(found, oldest_epoch(self.retired.as_slice())) {
                    self.clear[session as usize] = true;
                }
            }
            PageEvent::StoreFrame {
                frame,
                place: _,
                value: _,
            } => self.built = Some(frame),
            PageEvent::Swap {
                range: _,
                column: _,
            } => {
                self.retired.remove(0);
                self.clear.as_mut_slice().fill(false);
                self.waiting = Some(found as u32);
                self.built = None;
            }
            PageEvent::Raise => {
                self.retired.push(Retired {
                    frame: self.waiting.unwrap_or(0),
                    epoch: found + 1,
                });
                self.waiting = None;
            }
            PageEvent::Pin {
                session: _,
                epoch: _,
            }
            | PageEvent::Unpin { session: _ }
            | PageEvent::LookPage {
                session: _,
                range: _,
                column: _,
            } => {}
        }
    }
}

/// This many frames from one on, each retired at epoch 0.
#[tactic(auto, using(crate::proofs::Spares::spares_more, crate::proofs::Spares::spares_long))]
fn spares(first: u32, count: u32) -> ArrayVec<Retired, 64>
    requires few { count ≤ 64 }
    requires low { first + count < 2 ^ 32 }
    ensures { result.items ≡ state.spares first count }
{
    let mut retired = ArrayVec::new();
    for k in 0..count {
        retired.push(Retired {
            frame: first + k,
            epoch: 0,
        });
    }
    retired
}

/// Whether the frame is the first of these.
fn is_oldest(retired: &[Retired], frame: u32) -> bool
    ensures { IsTrue result ↔ HasFirst (λ r. r.frame ≡ frame) retired.now }
{
    match retired {
        [oldest, ..] => oldest.frame == frame,
        [] => false,
    }
}

/// The epoch of the first of these.
fn oldest_epoch(retired: &[Retired]) -> u64
    ensures { result ≡ state.oldest_epoch retired.now }
{
    match retired {
        [oldest, ..] => oldest.epoch,
        [] => 0,
    }
}

/// Whether all flags are set.
fn are_all(flags: &[bool]) -> bool
    ensures { IsTrue result ↔ ((i : ℕ) → i < length flags.now → slice_index_or flags.now i false ≡ true) }
{
    for flag in flags {
        if !*flag {
            return false;
        }
    }
    true
}
