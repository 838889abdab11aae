//! Sums and counts.
ghost use Rattle.std.specs.Prelude.{◌≡◌, ℕ, ◌+◌, ◌-◌, ◌*◌, ◌^◌, ◌<◌, ◌≤◌};
ghost use Rattle.lst_model.specs.Tables.{sum_of, count_of};
ghost use Rattle.lst_rule.specs.Rule.{knows};
ghost use Rattle.lst_rule.specs.Watching.{Watched};
ghost use Rattle.lst_walk.specs.Readers.{IsReader};
ghost use Rattle.lst_core_state.specs.Cells.{record_count};
ghost use Rattle.lst_scan.specs.Savings.{SavesPart, TellsNone};
ghost use Rattle.lst_scan.specs.Scans.{table_seen, Places, between};

use crate::paged::{Sheet, count_by_page, frame_of, sum_by_page};
use crate::records::{cell_by_chain, tails_apart};
use lst_rule::{RecordId, Seat, Store};

/// The numbers of a column, 0 for null, added over all rows that the open transaction sees. A sum has 128 bits, and never wraps: there are
/// fewer than 2^64 records.
pub(crate) fn sum(store: &Store, seat: &mut Seat, s: u32, c: u32) -> u128
    requires reader { IsReader store.now seat.old s }
    requires column { c < store.now.layout.limits.columns }
    ensures reader { IsReader store.now seat.new s }
    ensures watched { Watched seat.old.view seat.new.view s }
    ensures sum { result ≡ sum_of (table_seen (knows seat.old.view s)) c }
    ensures saves { SavesPart seat.old.view seat.new.view s c 0 (record_count store.now.layout.limits) }
{
    seat.consider();
    sum_part(store, seat, s, c, 0, store.layout().limits.ranges)
}

/// The same over the rows whose keys are on records of the ranges from `from` up to and without `to`.
pub(crate) fn sum_part(store: &Store, seat: &mut Seat, s: u32, c: u32, from: u32, to: u32) -> u128
    requires reader { IsReader store.now seat.old s }
    requires column { c < store.now.layout.limits.columns }
    requires rises { from ≤ to }
    requires ranges { to ≤ store.now.layout.limits.ranges }
    ensures reader { IsReader store.now seat.new s }
    ensures watched { Watched seat.old.view seat.new.view s }
    ensures sum { (place : ℕ → ℕ) → Places (knows seat.old.view s) place → result ≡ sum_of (between place (256 * from) (256 * to) (table_seen (knows seat.old.view s))) c }
    ensures saves { SavesPart seat.old.view seat.new.view s c (256 * from) (256 * to) }
    ensures few { result ≤ (to - from) * 2 ^ 73 }
{
    seat.consider();
    let mut sheet = Sheet::blank();
    let mut total: u128 = 0;
    for range in from..to {
        total += sum_range(store, seat, s, c, range, &mut sheet);
    }
    total
}

/// The same over the rows of one range. What is loaded of it goes into the sheet.
fn sum_range(store: &Store, seat: &mut Seat, s: u32, c: u32, range: u32, sheet: &mut Sheet) -> u128
    requires reader { IsReader store.now seat.old s }
    requires column { c < store.now.layout.limits.columns }
    requires range { range < store.now.layout.limits.ranges }
    ensures reader { IsReader store.now seat.new s }
    ensures watched { Watched seat.old.view seat.new.view s }
    ensures sum { (place : ℕ → ℕ) → Places (knows seat.old.view s) place → result ≡ sum_of (between place (256 * range) (256 * (range + 1)) (table_seen (knows seat.old.view s))) c }
    ensures saves { SavesPart seat.old.view seat.new.view s c (256 * range) (256 * (range + 1)) }
    ensures few { result ≤ 2 ^ 73 }
{
    seat.consider();
    match frame_of(store, seat, s, range, c) {
        Some(frame) => sum_by_page(store, seat, s, c, range, frame, sheet),
        None => sum_by_records(store, seat, s, c, range),
    }
}

/// The same, record by record, where the page tells of none.
fn sum_by_records(store: &Store, seat: &mut Seat, s: u32, c: u32, range: u32) -> u128
    requires reader { IsReader store.now seat.old s }
    requires column { c < store.now.layout.limits.columns }
    requires range { range < store.now.layout.limits.ranges }
    requires none { TellsNone seat.old.view s range c }
    ensures reader { IsReader store.now seat.new s }
    ensures watched { Watched seat.old.view seat.new.view s }
    ensures sum { (place : ℕ → ℕ) → Places (knows seat.old.view s) place → result ≡ sum_of (between place (256 * range) (256 * (range + 1)) (table_seen (knows seat.old.view s))) c }
    ensures saves { SavesPart seat.old.view seat.new.view s c (256 * range) (256 * (range + 1)) }
    ensures few { result ≤ 2 ^ 72 }
{
    seat.consider();
    let tails = tails_apart(store, range);
    let begin = seat.begin(s);
    let mut total: u128 = 0;
    for number in 256 * range..256 * (range + 1) {
        seat.consider();
        let found = cell_by_chain(store, seat, s, RecordId { number }, tails, begin, c);
        total += u128::from(found.unwrap_or(0));
    }
    total
}

/// The number of rows that the open transaction sees.
pub(crate) fn count(store: &Store, seat: &mut Seat, s: u32) -> u64
    requires reader { IsReader store.now seat.old s }
    ensures reader { IsReader store.now seat.new s }
    ensures watched { Watched seat.old.view seat.new.view s }
    ensures saves { SavesPart seat.old.view seat.new.view s 0 0 (record_count store.now.layout.limits) }
    ensures count { result ≡ count_of (table_seen (knows seat.old.view s)) }
{
    seat.consider();
    let mut heads = [0; 256];
    let mut times = [0; 256];
    let mut rows: u64 = 0;
    for range in 0..store.layout().limits.ranges {
        rows += count_range(store, seat, s, range, &mut heads, &mut times);
    }
    rows
}

/// The number of those of one range. What is loaded of it goes into `heads` and `times`.
fn count_range(
    store: &Store,
    seat: &mut Seat,
    s: u32,
    range: u32,
    heads: &mut [u64; 256],
    times: &mut [u64; 256],
) -> u64
    requires reader { IsReader store.now seat.old s }
    requires range { range < store.now.layout.limits.ranges }
    ensures reader { IsReader store.now seat.new s }
    ensures watched { Watched seat.old.view seat.new.view s }
    ensures saves { SavesPart seat.old.view seat.new.view s 0 (256 * range) (256 * (range + 1)) }
    ensures count { (place : ℕ → ℕ) → Places (knows seat.old.view s) place → result ≡ count_of (between place (256 * range) (256 * (range + 1)) (table_seen (knows seat.old.view s))) }
    ensures few { result ≤ 512 }
{
    seat.consider();
    match frame_of(store, seat, s, range, 0) {
        Some(frame) => count_by_page(store, seat, s, range, frame, heads, times),
        None => count_by_records(store, seat, s, range),
    }
}

/// The same, record by record, where the page tells of none.
fn count_by_records(store: &Store, seat: &mut Seat, s: u32, range: u32) -> u64
    requires reader { IsReader store.now seat.old s }
    requires range { range < store.now.layout.limits.ranges }
    requires none { TellsNone seat.old.view s range 0 }
    ensures reader { IsReader store.now seat.new s }
    ensures watched { Watched seat.old.view seat.new.view s }
    ensures saves { SavesPart seat.old.view seat.new.view s 0 (256 * range) (256 * (range + 1)) }
    ensures count { (place : ℕ → ℕ) → Places (knows seat.old.view s) place → result ≡ count_of (between place (256 * range) (256 * (range + 1)) (table_seen (knows seat.old.view s))) }
    ensures few { result ≤ 256 }
{
    seat.consider();
    let tails = tails_apart(store, range);
    let begin = seat.begin(s);
    let mut rows: u64 = 0;
    for number in 256 * range..256 * (range + 1) {
        seat.consider();
        if cell_by_chain(store, seat, s, RecordId { number }, tails, begin, 0).is_some() {
            rows += 1;
        }
    }
    rows
}
