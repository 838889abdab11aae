//! What the open transaction sees of one record.
ghost use Rattle.std.specs.Prelude.{◌≡◌, ℕ, ◌+◌, ◌/◌, ◌<◌, []};
ghost use Rattle.lst_model.specs.Cells.{holds_at};
ghost use Rattle.lst_core_state.specs.Cells.{record_count};
ghost use Rattle.lst_rule.specs.Rule.{knows};
ghost use Rattle.lst_rule.specs.Seen.{HasKey};
ghost use Rattle.lst_rule.specs.Watching.{Watched};
ghost use Rattle.lst_walk.specs.Readers.{IsReader};
ghost use Rattle.lst_walk.specs.Chains.{AreTailsOf};
ghost use Rattle.lst_walk.specs.Whole.{row_where};
ghost use Rattle.lst_scan.specs.Savings.{SavesPart, TellsNone};
ghost use Rattle.lst_scan.specs.Scans.{IsCellOn, IsRowOn, IsEntryOn, entry_where, IsEntryWith};

use arrayvec::ArrayVec;
use lst_model::{Key, Row};
use lst_rule::{RecordId, Seat, Store, load_key};
use lst_walk::{TailPlaces, column_by_chain, put_row, tails_of};

/// The number in a column, 0 for null, of the row on a record, along the record's chain alone. None comes exactly where the transaction sees no row
/// of a key that is on it. This serves a record that the column's page doesn't tell. The range's tail records stand where `tails` says, and the
/// transaction began at `begin`.
#[inline(always)]
pub(crate) fn cell_by_chain(
    store: &Store,
    seat: &mut Seat,
    s: u32,
    rec: RecordId,
    tails: TailPlaces,
    begin: u64,
    c: u32,
) -> Option<u64>
    requires reader { IsReader store.now seat.old s }
    requires rec { rec.number < record_count store.now.layout.limits }
    requires tails { AreTailsOf store.now.layout.limits (rec.number / 256) tails }
    requires begin { begin ≡ (knows seat.old.view s).begin }
    requires column { c < store.now.layout.limits.columns }
    ensures reader { IsReader store.now seat.new s }
    ensures watched { Watched seat.old.view seat.new.view s }
    ensures cell { IsCellOn (knows seat.old.view s) rec.number c result }
    ensures saves { TellsNone seat.old.view s (rec.number / 256) c → SavesPart seat.old.view seat.new.view s c rec.number (rec.number + 1) }
{
    column_by_chain(store, seat, s, rec, tails, begin, c)
}

/// Where the tail records of a range stand. Apart, so that a loop over its records takes the two numbers as they are, and makes up no part of them anew.
#[inline(never)]
pub(crate) fn tails_apart(store: &Store, range: u32) -> TailPlaces
    requires { range < store.now.layout.limits.ranges }
    ensures { AreTailsOf store.now.layout.limits range result }
{
    tails_of(store, range)
}

/// The row on a record, put into a row that has no cells. Whether there is a row is answered.
#[inline(always)]
fn put_row_on(store: &Store, seat: &mut Seat, s: u32, rec: RecordId, row: &mut Row) -> bool
    requires reader { IsReader store.now seat.old s }
    requires rec { rec.number < record_count store.now.layout.limits }
    requires empty { row.old ≡ [] }
    ensures reader { IsReader store.now seat.new s }
    ensures watched { Watched seat.old.view seat.new.view s }
    ensures row { IsRowOn (knows seat.old.view s) rec.number (row_where result row.new) }
{
    put_row(store, seat, s, rec, row)
}

/// The key of a record that is known to have one.
fn key_of(store: &Store, seat: &mut Seat, s: u32, rec: RecordId) -> Key
    requires reader { IsReader store.now seat.old s }
    requires rec { rec.number < record_count store.now.layout.limits }
    requires free { (knows seat.old.view s).placing.hand ≡ 0 }
    ensures reader { IsReader store.now seat.new s }
    ensures watched { Watched seat.old.view seat.new.view s }
    ensures key { (key : ℕ) → HasKey (knows seat.old.view s).facts rec.number key → result ≡ key }
{
    load_key(store, seat, s, rec.number)
}

/// Puts the row on a record into a row that has no cells, and answers its key. The key is loaded only where there is a row: the key word of a
/// record without one may be any.
#[inline(always)]
pub(crate) fn put_entry(
    store: &Store,
    seat: &mut Seat,
    s: u32,
    rec: RecordId,
    row: &mut Row,
) -> Option<Key>
    requires reader { IsReader store.now seat.old s }
    requires rec { rec.number < record_count store.now.layout.limits }
    requires free { (knows seat.old.view s).placing.hand ≡ 0 }
    requires empty { row.old ≡ [] }
    ensures reader { IsReader store.now seat.new s }
    ensures watched { Watched seat.old.view seat.new.view s }
    ensures entry { IsEntryOn (knows seat.old.view s) rec.number (entry_where result row.new) }
{
    seat.consider();
    if put_row_on(store, seat, s, rec, row) {
        Some(key_of(store, seat, s, rec))
    } else {
        None
    }
}

/// The row on a record, with its key.
pub(crate) fn entry(store: &Store, seat: &mut Seat, s: u32, rec: RecordId) -> Option<(Key, Row)>
    requires reader { IsReader store.now seat.old s }
    requires rec { rec.number < record_count store.now.layout.limits }
    requires free { (knows seat.old.view s).placing.hand ≡ 0 }
    ensures reader { IsReader store.now seat.new s }
    ensures watched { Watched seat.old.view seat.new.view s }
    ensures entry { IsEntryOn (knows seat.old.view s) rec.number result }
{
    let mut row = Row::of_numbers(ArrayVec::new());
    match put_entry(store, seat, s, rec, &mut row) {
        Some(key) => Some((key, row)),
        None => None,
    }
}

/// The same where the row has this number in the column.
pub(crate) fn entry_with(
    store: &Store,
    seat: &mut Seat,
    s: u32,
    rec: RecordId,
    column: u32,
    number: u64,
) -> Option<(Key, Row)>
    requires reader { IsReader store.now seat.old s }
    requires rec { rec.number < record_count store.now.layout.limits }
    requires free { (knows seat.old.view s).placing.hand ≡ 0 }
    ensures reader { IsReader store.now seat.new s }
    ensures watched { Watched seat.old.view seat.new.view s }
    ensures entry { IsEntryWith (knows seat.old.view s) rec.number column number result }
{
    seat.consider();
    let (key, row) = entry(store, seat, s, rec)?;
    if holds(&row, column, number) {
        Some((key, row))
    } else {
        None
    }
}

/// Whether a row has this number in the column.
fn holds(row: &Row, column: u32, number: u64) -> bool
    ensures { result ≡ holds_at column number row.now }
{
    match row.get(column) {
        Some(held) => held == number,
        None => false,
    }
}
