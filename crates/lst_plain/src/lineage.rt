//! The page part of the engine.
ghost use Rattle.std.specs.Prelude.{◌≡◌, ℕ, ◌<◌, ◌*◌, ◌≤◌, IfOk, Some, length, replicate, slice_index, map};
ghost use Rattle.lst_machine.specs.Merges.{lowest_where};
ghost use Rattle.lst_plain.specs.declared.engine.Tail.{Tail};
ghost use Rattle.lst_plain.specs.Lineages.{new_holder, holder_of, with_begun, with_ended, with_tail, with_swap, swapped_holder, is_behind, lesser, least_first, tails_before, followed};
ghost use Rattle.lst_plain.specs.LineageOf.{lineage_of};

use crate::engine::Tail;
use crate::holder::Holder;
use lst_layout::Limits;
use lst_model::{OutOfMemory, Reply};
use std::alloc::Global;

/// By range and column the number of the last tail that is folded into the page, its TPS; and what merges ask of each session. No
/// page is built, and no tail is looked at again.
#[derive(Drop)]
pub(crate) struct Lineage {
    tps: Vec<u32>,
    holders: Vec<Holder>,
}

impl Lineage {
    /// Pages into which nothing is folded, and sessions without transactions.
    pub fn new(alloc: Global, limits: &Limits) -> Result<Lineage, OutOfMemory>
        requires ranges { limits.now.ranges ≤ 64 }
        requires columns { limits.now.columns ≤ 8 }
        ensures { IfOk result (λ lineage. lineage_of lineage ≡ record { tps = replicate (limits.now.ranges * limits.now.columns) 0; holders = replicate limits.now.sessions (new_holder limits.now.ranges) }) }
    {
        let tps = vec![in alloc; 0; limits.ranges as usize * limits.columns as usize]?;
        let holders = new_holders(alloc, limits.sessions, limits.ranges)?;
        Ok(Lineage { tps, holders })
    }

    /// A session's call was answered. Where it was a write that was accepted, its tail is this one.
    pub fn follow(&mut self, session: u32, newest: Option<Tail>, reply: &Reply)
        requires within { session < length self.old.holders.items }
        requires range { (tail : Tail) → newest ≡ Some tail → tail.range < length (holder_of self.old.holders.items session).firsts }
        ensures { lineage_of self.new ≡ followed (lineage_of self.old) session newest reply.now }
    {
        match reply {
            Reply::Begun { .. } => self.begin(session),
            Reply::Done => {
                if let Some(tail) = newest {
                    self.note(session, tail);
                }
            }
            Reply::Committed { .. } | Reply::Ended { .. } | Reply::Aborted => self.end(session),
            _ => {}
        }
    }

    /// A session begins a transaction.
    fn begin(&mut self, session: u32)
        requires { session < length self.old.holders.items }
        ensures { lineage_of self.new ≡ with_begun (lineage_of self.old) session }
    {
        self.holders[session as usize].begin();
    }

    /// A session's transaction ends.
    fn end(&mut self, session: u32)
        requires { session < length self.old.holders.items }
        ensures { lineage_of self.new ≡ with_ended (lineage_of self.old) session }
    {
        self.holders[session as usize].end();
    }

    /// A session's transaction wrote this tail.
    fn note(&mut self, session: u32, tail: Tail)
        requires within { session < length self.old.holders.items }
        requires range { tail.range < length (holder_of self.old.holders.items session).firsts }
        ensures { lineage_of self.new ≡ with_tail (lineage_of self.old) session tail.range tail.number }
    {
        self.holders[session as usize].note(tail.range, tail.number);
    }

    /// The TPS of a page.
    pub fn tps(&self, page: usize) -> u32
        requires { page < length self.now.tps.items }
        ensures { result ≡ slice_index self.now.tps.items page }
    {
        self.tps[page]
    }

    /// How many of the tails of a range stand before the first one of an open transaction, where the range has so many.
    pub fn settled(&self, range: usize, count: u32) -> u32
        requires { (session : ℕ) → session < length self.now.holders.items → range < length (holder_of self.now.holders.items session).firsts }
        ensures { result ≡ tails_before (least_first 0 self.now.holders.items range) count }
    {
        let least = least_of(self.holders.as_slice(), range);
        if least == 0 { count } else { least - 1 }
    }

    /// The lowest session that began its transaction so many swaps ago.
    pub fn holder(&self, sessions: u32, spare: u32) -> Option<u32>
        requires { length self.now.holders.items ≡ sessions }
        ensures { result ≡ lowest_where (λ session. is_behind spare (holder_of self.now.holders.items session)) sessions }
    {
        for session in 0..sessions {
            if self.holders[session as usize].is_behind(spare) {
                return Some(session);
            }
        }
        None
    }

    /// The page is swapped for one with this TPS.
    pub fn swap(&mut self, page: usize, tps: u32, spare: u32)
        requires { page < length self.old.tps.items }
        ensures { lineage_of self.new ≡ with_swap (lineage_of self.old) page tps spare }
    {
        self.tps[page] = tps;
        swap_all(self.holders.as_mut_slice(), spare);
    }
}

/// The first tail of a range that some of the open transactions wrote, or 0.
fn least_of(holders: &[Holder], range: usize) -> u32
    requires { (session : ℕ) → session < length holders.now → range < length (holder_of holders.now session).firsts }
    ensures { result ≡ least_first 0 holders.now range }
{
    let mut least = 0;
    for holder in holders {
        least = lesser(least, holder.first(range));
    }
    least
}

/// One more page was swapped.
fn swap_all(holders: &mut [Holder], spare: u32)
    ensures { holders.new ≡ map (swapped_holder spare) holders.old }
{
    for session in 0..holders.len() {
        holders[session].swap(spare);
    }
}

/// The lower of two numbers of tails, where 0 is none.
fn lesser(first: u32, other: u32) -> u32
    ensures { result ≡ lesser first other }
{
    if first == 0 {
        return other;
    }
    if other == 0 || first < other {
        first
    } else {
        other
    }
}

/// As many sessions without transactions.
fn new_holders(alloc: Global, count: u32, ranges: u32) -> Result<Vec<Holder>, OutOfMemory>
    ensures { IfOk result (λ holders. holders.items ≡ replicate count (new_holder ranges)) }
{
    let mut holders = Vec::new(alloc);
    for _ in 0..count {
        holders.push(Holder::new(alloc, ranges)?)?;
    }
    Ok(holders)
}
