//! The page core as a machine of one thread.
ghost use Rattle.std.specs.Prelude.{◌≡◌, ◌<◌, ◌≤◌, ◌+◌, slice_range, ◌↔◌, ℕ, IfOk, OnOk, OnErr, IsOk, IsTrue, None, [], length, replicate, slice_index};
ghost use Rattle.lst_layout.specs.Areas.{frame_count};
ghost use Rattle.lst_layout.specs.Words.{word_at};
ghost use Rattle.lst_pages.specs.declared.tails.PageTail.{PageTail};
ghost use Rattle.lst_core_pages.specs.Cells as spec;
ghost use Rattle.lst_core_pages.specs.Cells.{pages_of, unheld};
ghost use Rattle.lst_pages.specs.Sound.{IsPage, Sound};
ghost use Rattle.lst_pages.specs.State.{opening};
ghost use Rattle.lst_pages.specs.Step.{IsWithin, MaySwap, Enabled, place_of, after, settled};

use crate::hands::{Hand, PageId};
use crate::queue::FrameQueue;
use crate::tails::TailList;
use lst_layout::{FRAME_WORDS, Layout, opening_words};
use lst_model::OutOfMemory;
use lst_pages::{MergerNumbers, PageEvent, PageTail, is_right, target, written};
use std::alloc::Global;
use std::marker::Model;

/// A step may not be made in this state.
#[derive(Clone, Copy, PartialEq, Eq, Debug)]
pub struct NotEnabled;

/// A state of frames, pins and pages that makes single steps. A contract sees the cells that it keeps, and `pages_of` them
/// is the state that they tell, but for the merger's count of finds, which is not kept.
#[derive(Drop)]
pub struct PageCore {
    layout: Layout,
    words: Vec<u64>,
    hands: Vec<Hand>,
    tails: Vec<TailList>,
    queue: FrameQueue,
}

impl Model for PageCore {
    ghost use Rattle.lst_core_pages.specs.Cells.{Cells, IsCore};

    ghost Value = { Cells };

    ghost view = { λ c. record { limits = c.layout.limits; row = c.words.items; hands = c.hands.items; tails = c.tails.items; queue = c.queue } };

    ghost invariant = { λ c. IsCore (record { limits = c.layout.limits; row = c.words.items; hands = c.hands.items; tails = c.tails.items; queue = c.queue }) };
}

impl PageCore {
    /// The core at opening. All memory that steps need is taken here.
    pub fn new(alloc: Global, layout: &Layout) -> Result<PageCore, OutOfMemory>
        ensures limits { IfOk result (λ core. core.limits ≡ layout.now.limits) }
        ensures state { IfOk result (λ core. pages_of core ≡ opening layout.now.limits) }
        ensures sound { IfOk result (λ core. Sound (pages_of core)) }
    {
        let limits = layout.limits;
        let words = opening_words(alloc, layout)?;
        let hands = empty_hands(
            alloc,
            limits.sessions as usize,
            limits.frame_count() as usize,
        )?;
        let tails = no_tails(alloc, limits.ranges as usize)?;
        let queue = FrameQueue::new(alloc, &limits)?;
        Ok(PageCore {
            layout: *layout,
            words,
            hands,
            tails,
            queue,
        })
    }

    /// Appends a settled tail to a range. For want of memory nothing changes.
    pub fn settle(&mut self, range: u32, tail: PageTail) -> Result<(), OutOfMemory>
        requires { range < self.old.limits.ranges }
        ensures limits { self.new.limits ≡ self.old.limits }
        ensures ok { OnOk result (pages_of self.new ≡ settled (pages_of self.old) range tail) }
        ensures err { OnErr result (self.new ≡ self.old) }
        ensures sound { Sound (pages_of self.new) }
    {
        self.tails[range as usize].push(tail)
    }

    /// Makes one step, and answers the word that it found before. Where the step may not be made, nothing changes.
    pub fn step(&mut self, event: PageEvent) -> Result<u64, NotEnabled>
        requires { IsWithin self.old.limits event }
        ensures limits { self.new.limits ≡ self.old.limits }
        ensures enabled { IsOk result ↔ Enabled (pages_of self.old) event }
        ensures found { IfOk result (λ found. found ≡ word_at (pages_of self.old).words (place_of event)) }
        ensures ok { OnOk result (pages_of self.new ≡ unheld (after (pages_of self.old) event)) }
        ensures err { OnErr result (self.new ≡ self.old) }
        ensures sound { Sound (pages_of self.new) }
    {
        if !self.is_enabled(event) {
            return Err(NotEnabled);
        }
        Ok(self.make(event))
    }

    /// Whether the step may be made.
    fn is_enabled(&self, event: PageEvent) -> bool
        requires { IsWithin self.now.limits event }
        ensures enabled { IsTrue result ↔ Enabled (pages_of self.now) event }
        ensures kept { spec.IsCore self.now }
    {
        match event {
            PageEvent::Pin { session, epoch } => self.pin(session) == 0 && epoch <= self.epoch(),
            PageEvent::Unpin { session }
            | PageEvent::LookPage {
                session,
                range: _,
                column: _,
            } => self.pin(session) > 0,
            PageEvent::LookPin { session: _ } => self.queue.waiting().is_none(),
            PageEvent::StoreFrame {
                frame,
                place: _,
                value: _,
            } => self.queue.may_build(frame),
            PageEvent::Swap { range, column } => match self.queue.built() {
                Some(frame) => self.may_swap(range, column, frame),
                None => false,
            },
            PageEvent::Raise => self.queue.waiting().is_some(),
        }
    }

    /// The pin word of a session.
    fn pin(&self, session: u32) -> u64
        requires { session < self.now.limits.sessions }
        ensures { result ≡ (pages_of self.now).words.pins session }
    {
        self.words[self.layout.pins(session) as usize]
    }

    /// The epoch word.
    fn epoch(&self) -> u64
        ensures { result ≡ (pages_of self.now).words.epoch }
    {
        self.words[self.layout.epoch() as usize]
    }

    /// The frame of a page.
    fn frame_of(&self, range: u32, column: u32) -> u32
        requires { IsPage self.now.limits range column }
        ensures frame { result ≡ (pages_of self.now).words.directory range column }
        ensures low { result < frame_count self.now.limits }
    {
        self.words[self.layout.directory(range, column) as usize] as u32
    }

    /// The words of a frame.
    fn frame(&self, frame: u32) -> &[u64]
        requires { frame < frame_count self.now.limits }
        ensures length { length result.now ≡ FRAME_WORDS }
        ensures words { (n : ℕ) → n < FRAME_WORDS → slice_index result.now n ≡ (pages_of self.now).words.frames frame n }
    {
        frame_from(self.words.as_slice(), self.layout.frames(frame, 0) as usize)
    }

    /// Whether a frame may take the place of a page.
    fn may_swap(&self, range: u32, column: u32, frame: u32) -> bool
        requires page { IsPage self.now.limits range column }
        requires frame { frame < frame_count self.now.limits }
        ensures { IsTrue result ↔ MaySwap self.now.limits (pages_of self.now).words ((pages_of self.now).tails range) range column frame }
    {
        let new = self.frame(frame);
        let old = self.frame(self.frame_of(range, column));
        old[0] < new[0]
            && new[0] <= self.layout.limits.tails as u64
            && is_right(self.tails[range as usize].items(), column, new)
    }

    /// Makes a step that may be made.
    fn make(&mut self, event: PageEvent) -> u64
        requires within { IsWithin self.old.limits event }
        requires enabled { Enabled (pages_of self.old) event }
        ensures found { result ≡ spec.found_in self.old event }
        ensures stepped { self.new ≡ spec.stepped self.old event }
    {
        let word = target(&self.layout, event) as usize;
        let found = self.words[word];
        let numbers = MergerNumbers {
            epoch: self.words[self.layout.epoch() as usize],
            built: self.queue.built(),
        };
        self.words[word] = written(numbers, event, found);
        change_hands(self.hands.as_mut_slice(), event, found);
        self.queue.change(event, found);
        found
    }
}

/// No frame is in the hand of any session.
fn empty_hands(alloc: Global, sessions: usize, frames: usize) -> Result<Vec<Hand>, OutOfMemory>
    ensures { IfOk result (λ hands. hands.items ≡ replicate sessions (replicate frames None)) }
{
    let mut hands = Vec::with_capacity(alloc, sessions)?;
    for _ in 0..sessions {
        hands.push(Hand::new(alloc, frames)?)?;
    }
    Ok(hands)
}

/// No range has a settled tail.
fn no_tails(alloc: Global, ranges: usize) -> Result<Vec<TailList>, OutOfMemory>
    ensures { IfOk result (λ tails. tails.items ≡ replicate ranges []) }
{
    let mut tails = Vec::with_capacity(alloc, ranges)?;
    for _ in 0..ranges {
        tails.push(TailList::new(alloc))?;
    }
    Ok(tails)
}

/// As many words as a frame has, from a place on.
fn frame_from(words: &[u64], start: usize) -> &[u64]
    requires { start + FRAME_WORDS ≤ length words.now }
    ensures part { result.now ≡ slice_range words.now start (start + FRAME_WORDS) }
    ensures length { length result.now ≡ FRAME_WORDS }
{
    &words[start..start + FRAME_WORDS as usize]
}

/// Changes what sessions have in hand as the step does that has found this word.
fn change_hands(hands: &mut [Hand], event: PageEvent, found: u64)
    requires { spec.HandsFit hands.old event found }
    ensures { hands.new ≡ spec.hands_after hands.old event found }
{
    match event {
        PageEvent::Unpin { session } => hands[session as usize].clear(),
        PageEvent::LookPage {
            session,
            range,
            column,
        } => hands[session as usize].put(found as usize, PageId { range, column }),
        PageEvent::Pin {
            session: _,
            epoch: _,
        }
        | PageEvent::LookPin { session: _ }
        | PageEvent::StoreFrame {
            frame: _,
            place: _,
            value: _,
        }
        | PageEvent::Swap {
            range: _,
            column: _,
        }
        | PageEvent::Raise => {}
    }
}
