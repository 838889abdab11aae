//! One column of a record's row.
ghost use Rattle.std.specs.Prelude.{◌≡◌, ℕ, ◌+◌, ◌*◌, ◌/◌, ◌<◌, ◌≤◌, true, false, Option, Some, None};
ghost use Rattle.lst_layout.specs.declared.place.Place.TheVariants.{CellWord};
ghost use Rattle.lst_layout.specs.Addresses.{address};
ghost use Rattle.lst_core_state.specs.Cells.{record_count};
ghost use Rattle.lst_rule.specs.Rule.{knows, hosts};
ghost use Rattle.lst_rule.specs.Stores.{IsSeatOf};
ghost use Rattle.lst_rule.specs.Copies.{Version};
ghost use Rattle.lst_rule.specs.Watching.{Watched};
ghost use Rattle.lst_rule.specs.TailLoads.{LoadsOf, LoadsTail};
ghost use Rattle.lst_walk.specs.Readers.{IsReader, IsAt, HasVersion, Resolves};
ghost use Rattle.lst_walk.specs.Chains.{SavesChain, AreTailsOf, IsTailOf, CellAhead, CellBy};
ghost use Rattle.lst_rule.specs.declared.view.View.{View};
ghost use Rattle.lst_walk.specs.Pages.{touches_by, is_told, SavesCell};
ghost use Rattle.lst_walk.specs.Walks.{IsCellOf, WalksCell, Tells, Told};

use crate::pages::{entry_of, number_of};
use crate::placed::{
    TailPlaces, below_from, encoding_from, first_after, first_word, is_seen_early, is_seen_from,
    tails_of, value_from,
};
use crate::words::head;
use lst_bits::{Kind, has_column};
use lst_rule::{RecordId, Seat, Store, tail_of};

/// The number in a column, 0 for null, of the row that the open transaction sees of a record: of the snapshot at its begin, with its own
/// writes on it. None comes exactly where it sees no row, of a record without a seen key too. The walk goes along the chain from the newest
/// version, to the first one that is seen and tells of the column. It resolves each version that it passes, this one included: where it finds
/// the transaction committed and the start word not stamped, it stores the commit time there. Where the session has a pin, the column's page is
/// taken in hand first, and its entry answers as soon as the walk is at a number that is at most the page's TPS, if the entry's time is at most
/// the begin: at the head no word of a tail record is loaded then.
pub fn column(store: &Store, seat: &mut Seat, s: u32, rec: RecordId, c: u32) -> Option<u64>
    requires seat { IsSeatOf store.now seat.old }
    requires host { hosts seat.old.view s ≡ true }
    requires own { s < seat.old.view.limits.sessions }
    requires opened { (knows seat.old.view s).is_open ≡ true }
    requires rec { rec.number < record_count store.now.layout.limits }
    requires column { c < store.now.layout.limits.columns }
    ensures seat { IsSeatOf store.now seat.new }
    ensures watched { Watched seat.old.view seat.new.view s }
    ensures cell { IsCellOf seat.old.view s rec.number c result }
    ensures walk { WalksCell seat.old.view seat.new.view s rec.number c result }
    ensures saves { 0 < (knows seat.old.view s).pages.session.pin → SavesCell seat.old.view seat.new.view s rec.number c }
{
    seat.consider();
    let range = rec.number / 256;
    let mut number = head(store, seat, s, rec);
    let entry = entry_of(store, seat, s, rec, c);
    while number > 0 {
        if number as u64 <= entry.until {
            return number_of(store, seat, s, rec, entry);
        }
        let first = first_word(store, range, number);
        if let Some(held) = held(store, seat, s, range, number, first, c) {
            return held;
        }
        number = below_from(store, seat, s, tail_of(store, range, number), first);
    }
    None
}

/// What `column` answers, along the chain alone: no page is looked at. This serves a record of which the column's page tells nothing. Where the
/// record has no version, no word of a tail record is loaded, and never one of another record's. The range's tail records stand where `tails` says, and the
/// transaction began at `begin`: a caller that goes over a range has both once.
#[inline(always)]
pub fn column_by_chain(
    store: &Store,
    seat: &mut Seat,
    s: u32,
    rec: RecordId,
    tails: TailPlaces,
    begin: u64,
    c: u32,
) -> Option<u64>
    requires reader { IsReader store.now seat.old s }
    requires rec { rec.number < record_count store.now.layout.limits }
    requires tails { AreTailsOf store.now.layout.limits (rec.number / 256) tails }
    requires begin { begin ≡ (knows seat.old.view s).begin }
    requires column { c < store.now.layout.limits.columns }
    ensures reader { IsReader store.now seat.new s }
    ensures watched { Watched seat.old.view seat.new.view s }
    ensures cell { IsCellOf seat.old.view s rec.number c result }
    ensures walk { WalksCell seat.old.view seat.new.view s rec.number c result }
    ensures loads { LoadsOf seat.old.view seat.new.view s (IsTailOf seat.new.view s rec.number) }
    ensures saves { SavesChain seat.old.view seat.new.view s rec.number }
{
    seat.consider();
    let number = head(store, seat, s, rec);
    column_from(store, seat, s, rec, number, tails, begin, c)
}

/// What `column_by_chain` answers, where the record's indirection word was loaded before: `number` is that of the newest version that it named, or 0.
/// A newest version is looked at here that has its commit time, is seen and tells of the column.
#[inline(always)]
pub fn column_from(
    store: &Store,
    seat: &mut Seat,
    s: u32,
    rec: RecordId,
    number: u32,
    tails: TailPlaces,
    begin: u64,
    c: u32,
) -> Option<u64>
    requires reader { IsReader store.now seat.old s }
    requires rec { rec.number < record_count store.now.layout.limits }
    requires column { c < store.now.layout.limits.columns }
    requires tails { AreTailsOf store.now.layout.limits (rec.number / 256) tails }
    requires begin { begin ≡ (knows seat.old.view s).begin }
    requires walk { (v : View) × CellAhead store.now v seat.old s rec.number c number }
    ensures reader { IsReader store.now seat.new s }
    ensures watched { Watched seat.old.view seat.new.view s }
    ensures told { (v : View) → CellAhead store.now v seat.old s rec.number c number → CellBy v seat.new.view s rec.number c result }
    ensures loads { LoadsOf seat.old.view seat.new.view s (IsTailOf seat.new.view s rec.number) }
    ensures quiet { number ≡ 0 → (knows seat.new.view s).finds ≡ (knows seat.old.view s).finds }
{
    if number == 0 {
        return None;
    }
    let range = rec.number / 256;
    let first = first_after(store, range, number, tails.start, tails.words);
    if let Some(held) = held_early(store, seat, s, range, number, first, begin, c) {
        return held;
    }
    column_on(store, seat, s, rec, number, c)
}

/// The same, version by version. Apart, since of most records the newest version tells.
#[inline(never)]
fn column_on(
    store: &Store,
    seat: &mut Seat,
    s: u32,
    rec: RecordId,
    number: u32,
    c: u32,
) -> Option<u64>
    requires reader { IsReader store.now seat.old s }
    requires rec { rec.number < record_count store.now.layout.limits }
    requires column { c < store.now.layout.limits.columns }
    requires walk { (v : View) × CellAhead store.now v seat.old s rec.number c number }
    ensures reader { IsReader store.now seat.new s }
    ensures watched { Watched seat.old.view seat.new.view s }
    ensures told { (v : View) → CellAhead store.now v seat.old s rec.number c number → CellBy v seat.new.view s rec.number c result }
    ensures loads { LoadsOf seat.old.view seat.new.view s (IsTailOf seat.new.view s rec.number) }
{
    let range = rec.number / 256;
    let tails = tails_of(store, range);
    let mut number = number;
    while number > 0 {
        let first = first_after(store, range, number, tails.start, tails.words);
        if let Some(held) = held(store, seat, s, range, number, first, c) {
            return held;
        }
        number = below_from(store, seat, s, tail_of(store, range, number), first);
    }
    None
}

/// What a version tells of a column, where its start word has a time of at most the begin. None says nothing of the version. The tail record's first word
/// has the address `first`.
#[inline(always)]
fn held_early(
    store: &Store,
    seat: &mut Seat,
    s: u32,
    range: u32,
    number: u32,
    first: u64,
    begin: u64,
    column: u32,
) -> Option<Option<u64>>
    requires reader { IsReader store.now seat.old s }
    requires range { range < store.now.layout.limits.ranges }
    requires number { (0 < number) × (number ≤ store.now.layout.limits.tails) }
    requires version { HasVersion seat.old.view s (range * store.now.layout.limits.tails + number) }
    requires first { first ≡ address store.now.layout.limits (CellWord (range * store.now.layout.limits.tails + number) 0) }
    requires begin { begin ≡ (knows seat.old.view s).begin }
    requires column { column < store.now.layout.limits.columns }
    ensures reader { IsReader store.now seat.new s }
    ensures watched { Watched seat.old.view seat.new.view s }
    ensures loads { LoadsTail seat.old.view seat.new.view s (range * store.now.layout.limits.tails + number) }
    ensures tells { (told : Option ℕ) → result ≡ Some told → (c : Version) → IsAt seat.old.view s (range * store.now.layout.limits.tails + number) c → Tells (knows seat.old.view s) s c store.now.layout.limits.columns column result }
    ensures resolved { (told : Option ℕ) → result ≡ Some told → Resolves seat.old.view seat.new.view s range number }
{
    if is_seen_early(store, seat, s, range, number, first, begin) {
        told(store, seat, s, tail_of(store, range, number), first, column)
    } else {
        None
    }
}

/// What a version of a range, by the number of its tail record, tells of a column: its number, 0 for null, or with None in it that there is
/// no row. None comes where the version isn't seen, or tells nothing of the column. The tail record's first word has the address `first`.
#[inline(always)]
fn held(
    store: &Store,
    seat: &mut Seat,
    s: u32,
    range: u32,
    number: u32,
    first: u64,
    column: u32,
) -> Option<Option<u64>>
    requires reader { IsReader store.now seat.old s }
    requires range { range < store.now.layout.limits.ranges }
    requires number { (0 < number) × (number ≤ store.now.layout.limits.tails) }
    requires version { HasVersion seat.old.view s (range * store.now.layout.limits.tails + number) }
    requires first { first ≡ address store.now.layout.limits (CellWord (range * store.now.layout.limits.tails + number) 0) }
    requires column { column < store.now.layout.limits.columns }
    ensures reader { IsReader store.now seat.new s }
    ensures watched { Watched seat.old.view seat.new.view s }
    ensures loads { LoadsTail seat.old.view seat.new.view s (range * store.now.layout.limits.tails + number) }
    ensures tells { (c : Version) → IsAt seat.old.view s (range * store.now.layout.limits.tails + number) c → Tells (knows seat.old.view s) s c store.now.layout.limits.columns column result }
    ensures leaves { result ≡ None → (c : Version) → IsAt seat.old.view s (range * store.now.layout.limits.tails + number) c → is_told (knows seat.old.view s) s column c ≡ false }
    ensures resolved { Resolves seat.old.view seat.new.view s range number }
{
    if is_seen_from(store, seat, s, range, number, first) {
        told(store, seat, s, tail_of(store, range, number), first, column)
    } else {
        None
    }
}

/// What a version that is seen tells of a column. A put has each column in its mask, and a delete none, so that its kind is asked for only where the
/// mask leaves the column out.
#[inline(always)]
fn told(
    store: &Store,
    seat: &mut Seat,
    s: u32,
    tail: u32,
    first: u64,
    column: u32,
) -> Option<Option<u64>>
    requires reader { IsReader store.now seat.old s }
    requires version { HasVersion seat.old.view s tail }
    requires first { first ≡ address store.now.layout.limits (CellWord tail 0) }
    requires column { column < store.now.layout.limits.columns }
    ensures reader { IsReader store.now seat.new s }
    ensures watched { Watched seat.old.view seat.new.view s }
    ensures loads { LoadsTail seat.old.view seat.new.view s tail }
    ensures told { (c : Version) → IsAt seat.old.view s tail c → Told c store.now.layout.limits.columns column result }
    ensures leaves { result ≡ None → (c : Version) → IsAt seat.old.view s tail c → touches_by column c.encoding ≡ false }
{
    let encoding = encoding_from(store, seat, s, tail, first);
    if has_column(encoding.mask, column) {
        return Some(Some(value_from(store, seat, s, tail, first, column)));
    }
    match encoding.kind {
        Kind::Put | Kind::Set => None,
        Kind::Del => Some(None),
    }
}
