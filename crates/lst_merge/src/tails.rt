//! Tails as a merge reads them.
ghost use Rattle.std.specs.Prelude.{◌≡◌, ◌+◌, ◌*◌, ◌<◌, ◌≤◌, ◌^◌, true, false, IfSome, IfNone};
ghost use Rattle.lst_bits.specs.Encodings.{IsMaskOf};
ghost use Rattle.lst_model.specs.Cells.{has_bit};
ghost use Rattle.lst_pages.specs.declared.tails.PageTail.{PageTail};
ghost use Rattle.lst_pages.specs.Rows.{cell_at};
ghost use Rattle.lst_rule.specs.Rule.{hosts};
ghost use Rattle.lst_rule.specs.Stores.{IsSeatOf};
ghost use Rattle.lst_merge.specs.Inspections.{merger_of, Inspects};
ghost use Rattle.lst_merge.specs.Runs.{KnowsSettled, HasSettled, SettledAt, IsEncodedAs, Unsettled};
ghost use Rattle.lst_merge.specs.Tails.{IsTail};

use lst_bits::{Encoding, unpack_encoding};
use lst_layout::Layout;
use lst_rule::{Seat, Status, Store, load_cell_from, status_of};

/// A tail, as the merger loads its words.
#[derive(Clone, Copy)]
pub(crate) struct Tail {
    /// Its identifier.
    pub identifier: u32,
    /// The address of its first word.
    pub first: u64,
    /// The number by which the merger is named.
    pub merger: u32,
}

/// The tail of a range with this number, from 1 on.
#[inline(always)]
pub(crate) fn tail_at(layout: &Layout, range: u32, number: u32) -> Tail
    requires range { range < layout.now.limits.ranges }
    requires some { 0 < number }
    requires few { number ≤ layout.now.limits.tails }
    ensures tail { IsTail layout.now.limits result }
    ensures identifier { result.identifier ≡ range * layout.now.limits.tails + number }
{
    let identifier = range * layout.limits.tails + number;
    Tail {
        identifier,
        first: layout.cell_address(identifier, 0),
        merger: layout.limits.sessions,
    }
}

/// The time of a tail's commit, or 0 where its transaction is closed. None comes where the tail is found not stored, or unfinished.
#[inline(always)]
pub(crate) fn time_of(store: &Store, seat: &mut Seat, tail: Tail) -> Option<u64>
    requires seat { IsSeatOf store.now seat.old }
    requires host { hosts seat.old.view seat.old.view.limits.sessions ≡ true }
    requires tail { IsTail store.now.layout.limits tail }
    ensures seat { IsSeatOf store.now seat.new }
    ensures inspects { Inspects seat.old.view seat.new.view seat.old.view.limits.sessions }
    ensures some { IfSome result (λ time. (time < 2 ^ 63) × SettledAt (merger_of seat.new.view) tail.identifier time) }
    ensures none { IfNone result (Unsettled seat.old.view seat.new.view tail.identifier) }
{
    let start = load_cell_from(store, seat, tail.merger, tail.identifier, tail.first, 0);
    match status_of(store, seat, tail.merger, start) {
        Status::Closed => Some(0),
        Status::Committed { time } => Some(time),
        Status::Empty => None,
        Status::Unfinished { .. } => {
            seat.consider();
            None
        }
    }
}

/// What a settled tail does, by its encoding word.
#[inline(always)]
pub(crate) fn encoding_of(store: &Store, seat: &mut Seat, tail: Tail) -> Encoding
    requires seat { IsSeatOf store.now seat.old }
    requires host { hosts seat.old.view seat.old.view.limits.sessions ≡ true }
    requires tail { IsTail store.now.layout.limits tail }
    requires settled { HasSettled (merger_of seat.old.view) tail.identifier }
    ensures seat { IsSeatOf store.now seat.new }
    ensures inspects { Inspects seat.old.view seat.new.view seat.old.view.limits.sessions }
    ensures encoding { IsEncodedAs (merger_of seat.new.view).facts tail.identifier result }
    ensures mask { IsMaskOf seat.old.view.limits.columns result.kind result.mask }
{
    unpack_encoding(load_cell_from(store, seat, tail.merger, tail.identifier, tail.first, 1))
}

/// The number that a settled tail with this encoding holds of a column, where it holds one and not null.
#[inline(always)]
pub(crate) fn number_in(
    store: &Store,
    seat: &mut Seat,
    tail: Tail,
    encoding: Encoding,
    column: u32,
) -> u64
    requires seat { IsSeatOf store.now seat.old }
    requires host { hosts seat.old.view seat.old.view.limits.sessions ≡ true }
    requires tail { IsTail store.now.layout.limits tail }
    requires column { column < store.now.layout.limits.columns }
    requires settled { HasSettled (merger_of seat.old.view) tail.identifier }
    requires encoding { IsEncodedAs (merger_of seat.old.view).facts tail.identifier encoding }
    requires number { has_bit encoding.nulls column ≡ false }
    ensures seat { IsSeatOf store.now seat.new }
    ensures inspects { Inspects seat.old.view seat.new.view seat.old.view.limits.sessions }
    ensures cell { (t : PageTail) → KnowsSettled (merger_of seat.old.view) tail.identifier t → Some result ≡ cell_at column t.values }
{
    let _ = encoding;
    load_cell_from(
        store,
        seat,
        tail.merger,
        tail.identifier,
        tail.first,
        3 + column,
    )
}
