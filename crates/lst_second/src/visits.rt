//! One position of a number's run.
ghost use Rattle.std.specs.Prelude.{◌≡◌, ℕ, ◌+◌, ◌<◌, ◌≤◌, true, IfSome, IfNone, IsTrue, IsFalse};
ghost use Rattle.lst_core_state.specs.Cells.{tail_count};
ghost use Rattle.lst_core_state.specs.Postings.{postings_size, value_position};
ghost use Rattle.lst_rule.specs.Rule.{knows, hosts};
ghost use Rattle.lst_rule.specs.Stores.{IsSeatOf};
ghost use Rattle.lst_rule.specs.Shown.{StandsAt, Taken, Passed, IsShown};
ghost use Rattle.lst_rule.specs.Posting.{Posts};
ghost use Rattle.lst_second.specs.Visits.{IsEntry, MayPost, Visits};

use crate::positions::{position, record_of};
use lst_bits::unpack_posting;
use lst_rule::{Seat, Store, load_cell, load_posting, step_post};

/// What is to be posted: the number that the tail in hand holds in an indexed column, and the record of that tail.
#[derive(Clone, Copy)]
pub(crate) struct Entry {
    pub(crate) column: u32,
    pub(crate) rec: u32,
    pub(crate) value: u64,
}

/// The tail at a position of the number's run, if there is one. None comes where the run ends there: then the tail in hand may be
/// posted.
pub(crate) fn look(
    store: &Store,
    seat: &mut Seat,
    s: u32,
    entry: Entry,
    offset: u32,
    position: u32,
) -> Option<u32>
    requires visits { Visits store.now seat.old s entry offset }
    requires offset { offset < postings_size store.now.layout.limits }
    requires position { position ≡ value_position store.now.layout.limits entry.value offset }
    requires below { position < postings_size store.now.layout.limits }
    ensures posts { Posts seat.old.view seat.new.view s }
    ensures visits { Visits store.now seat.new s entry offset }
    ensures some { IfSome result (λ tail. (0 < tail) × (tail ≤ tail_count store.now.layout.limits) × StandsAt store.now.layout.limits (knows seat.new.view s).facts entry.column entry.value offset tail) }
    ensures none { IfNone result (MayPost (knows seat.new.view s) entry.column) }
{
    let _ = offset;
    let word = load_posting(store, seat, s, entry.column, position);
    unpack_posting(word)
}

/// Posts the tail in hand at a position, where the number's run was found to end. None comes where it is posted, and else the tail
/// that another session has posted there.
pub(crate) fn try_post(
    store: &Store,
    seat: &mut Seat,
    s: u32,
    entry: Entry,
    offset: u32,
    position: u32,
) -> Option<u32>
    requires visits { Visits store.now seat.old s entry offset }
    requires offset { offset < postings_size store.now.layout.limits }
    requires position { position ≡ value_position store.now.layout.limits entry.value offset }
    requires below { position < postings_size store.now.layout.limits }
    requires may { MayPost (knows seat.old.view s) entry.column }
    ensures posts { Posts seat.old.view seat.new.view s }
    ensures visits { Visits store.now seat.new s entry offset }
    ensures posted { IfNone result (IsShown store.now.layout.limits (knows seat.new.view s).facts entry.column entry.rec entry.value) }
    ensures other { IfSome result (λ tail. (0 < tail) × (tail ≤ tail_count store.now.layout.limits) × StandsAt store.now.layout.limits (knows seat.new.view s).facts entry.column entry.value offset tail) }
{
    let _ = offset;
    let word = step_post(store, seat, s, entry.column, position);
    unpack_posting(word)
}

/// Whether the tail that stands at a position of the number's run is of the entry's record and has its value: then the entry is
/// posted, and else the position is passed.
pub(crate) fn compare(
    store: &Store,
    seat: &mut Seat,
    s: u32,
    entry: Entry,
    offset: u32,
    tail: u32,
) -> bool
    requires visits { Visits store.now seat.old s entry offset }
    requires offset { offset < postings_size store.now.layout.limits }
    requires some { 0 < tail }
    requires few { tail ≤ tail_count store.now.layout.limits }
    requires stands { StandsAt store.now.layout.limits (knows seat.old.view s).facts entry.column entry.value offset tail }
    ensures posts { Posts seat.old.view seat.new.view s }
    ensures seat { IsSeatOf store.now seat.new }
    ensures shown { IsTrue result → IsShown store.now.layout.limits (knows seat.new.view s).facts entry.column entry.rec entry.value }
    ensures next { IsFalse result → Visits store.now seat.new s entry (offset + 1) }
{
    let _ = offset;
    if load_cell(store, seat, s, tail, 3 + entry.column) != entry.value {
        return false;
    }
    let encoding = load_cell(store, seat, s, tail, 1);
    record_of(store.layout(), tail, encoding) == entry.rec
}

/// Posts the tail in hand at the position that was found empty, unless another tail was posted there since. Whether the entry is posted
/// then; else the position is passed.
fn settle(store: &Store, seat: &mut Seat, s: u32, entry: Entry, offset: u32, position: u32) -> bool
    requires visits { Visits store.now seat.old s entry offset }
    requires offset { offset < postings_size store.now.layout.limits }
    requires position { position ≡ value_position store.now.layout.limits entry.value offset }
    requires below { position < postings_size store.now.layout.limits }
    requires may { MayPost (knows seat.old.view s) entry.column }
    ensures posts { Posts seat.old.view seat.new.view s }
    ensures seat { IsSeatOf store.now seat.new }
    ensures shown { IsTrue result → IsShown store.now.layout.limits (knows seat.new.view s).facts entry.column entry.rec entry.value }
    ensures next { IsFalse result → Visits store.now seat.new s entry (offset + 1) }
{
    match try_post(store, seat, s, entry, offset, position) {
        None => true,
        Some(tail) => compare(store, seat, s, entry, offset, tail),
    }
}

/// Looks at one position of the number's run, and posts the tail in hand there if it is free. Whether the entry is posted then; else
/// the position is passed.
pub(crate) fn visit(store: &Store, seat: &mut Seat, s: u32, entry: Entry, offset: u32) -> bool
    requires visits { Visits store.now seat.old s entry offset }
    requires offset { offset < postings_size store.now.layout.limits }
    ensures posts { Posts seat.old.view seat.new.view s }
    ensures seat { IsSeatOf store.now seat.new }
    ensures shown { IsTrue result → IsShown store.now.layout.limits (knows seat.new.view s).facts entry.column entry.rec entry.value }
    ensures next { IsFalse result → Visits store.now seat.new s entry (offset + 1) }
{
    let at = position(store.layout(), entry.value, offset);
    if let Some(tail) = look(store, seat, s, entry, offset, at) {
        return compare(store, seat, s, entry, offset, tail);
    }
    settle(store, seat, s, entry, offset, at)
}
