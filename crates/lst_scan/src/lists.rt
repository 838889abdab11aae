//! Lists of rows.
ghost use Rattle.std.specs.Prelude.{◌≡◌, ◌⊎◌, ◌<◌, [], IfOk, true};
ghost use Rattle.lst_model.specs.Tables.{scan_of};
ghost use Rattle.lst_rule.specs.Rule.{knows};
ghost use Rattle.lst_rule.specs.Watching.{Watched};
ghost use Rattle.lst_walk.specs.Readers.{IsReader};
ghost use Rattle.lst_scan.specs.Scans.{table_seen};

use crate::records::{entry, put_entry};
use arrayvec::ArrayVec;
use lst_model::{Key, OutOfMemory, Row, RowList};
use lst_rule::{RecordId, Seat, Store};
use std::alloc::Global;
use std::collections::BTreeMap;

/// All rows that the open transaction sees, by rising key. While keys rise with records, as they do where rows were put by rising key, a row goes
/// to the end of the list. Where one doesn't, all rows are read anew, into a map by key.
pub(crate) fn rows(
    alloc: Global,
    store: &Store,
    seat: &mut Seat,
    s: u32,
) -> Result<RowList, OutOfMemory>
    requires reader { IsReader store.now seat.old s }
    requires free { (knows seat.old.view s).placing.hand ≡ 0 }
    ensures reader { IsReader store.now seat.new s }
    ensures watched { Watched seat.old.view seat.new.view s }
    ensures rows { IfOk result (λ list. list ≡ scan_of (table_seen (knows seat.old.view s))) }
{
    seat.consider();
    let mut found: Vec<(Key, Row)> = Vec::new(alloc);
    let mut last = 0;
    let records = 256 * store.layout().limits.ranges;
    for number in 0..records {
        seat.consider();
        let mut row = Row::of_numbers(ArrayVec::new());
        if let Some(key) = put_entry(store, seat, s, RecordId { number }, &mut row) {
            if comes_next(&found, last, key) {
                found.push((key, row))?;
                last = key;
            } else {
                return rows_by_key(alloc, store, seat, s);
            }
        }
    }
    Ok(RowList::from_items(found))
}

/// Whether a key is above the last one of a list, where it has any.
fn comes_next(found: &Vec<(Key, Row)>, last: Key, key: Key) -> bool
    ensures { result ≡ true → (found.now.items ≡ []) ⊎ (last < key) }
{
    found.is_empty() || last < key
}

/// The same rows, gathered by key.
fn rows_by_key(
    alloc: Global,
    store: &Store,
    seat: &mut Seat,
    s: u32,
) -> Result<RowList, OutOfMemory>
    requires reader { IsReader store.now seat.old s }
    requires free { (knows seat.old.view s).placing.hand ≡ 0 }
    ensures reader { IsReader store.now seat.new s }
    ensures watched { Watched seat.old.view seat.new.view s }
    ensures rows { IfOk result (λ list. list ≡ scan_of (table_seen (knows seat.old.view s))) }
{
    let found = collected(alloc, store, seat, s)?;
    listed(alloc, found)
}

/// The rows of all records, by key.
fn collected(
    alloc: Global,
    store: &Store,
    seat: &mut Seat,
    s: u32,
) -> Result<BTreeMap<Key, Row>, OutOfMemory>
    requires reader { IsReader store.now seat.old s }
    requires free { (knows seat.old.view s).placing.hand ≡ 0 }
    ensures reader { IsReader store.now seat.new s }
    ensures watched { Watched seat.old.view seat.new.view s }
    ensures rows { IfOk result (λ rows. rows.entries ≡ scan_of (table_seen (knows seat.old.view s))) }
{
    seat.consider();
    let mut found = BTreeMap::new(alloc);
    for number in 0..256 * store.layout().limits.ranges {
        seat.consider();
        if let Some((key, row)) = entry(store, seat, s, RecordId { number }) {
            found.insert(key, row)?;
        }
    }
    Ok(found)
}

/// The list of a map's entries.
fn listed(alloc: Global, rows: BTreeMap<Key, Row>) -> Result<RowList, OutOfMemory>
    ensures { IfOk result (λ list. list ≡ rows.entries) }
{
    Ok(RowList::from_items(rows.into_iter().collect(alloc)?))
}
