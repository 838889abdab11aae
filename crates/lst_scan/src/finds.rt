//! The keys of the rows that have a number in a column.
ghost use Rattle.std.specs.Prelude.{◌≡◌, ℕ, ◌<◌, true, false, IfOk, IfErr, map};
ghost use Rattle.std.specs.List.{All, Contains};
ghost use Rattle.lst_model.specs.Tables.{find_of};
ghost use Rattle.lst_machine.specs.Calls.{is_indexed};
ghost use Rattle.lst_core_state.specs.Cells.{record_count};
ghost use Rattle.lst_rule.specs.Rule.{knows};
ghost use Rattle.lst_rule.specs.Watching.{Watched};
ghost use Rattle.lst_walk.specs.Readers.{IsReader};
ghost use Rattle.lst_scan.specs.Scans.{table_seen, AreCandidates};
ghost use Rattle.lst_scan.specs.Finds.{IsRefused};

use crate::records::entry_with;
use lst_model::{Key, KeyList, OutOfMemory, Row};
use lst_rule::{RecordId, Seat, Store};
use lst_second::{CandidateFault, candidates};
use std::alloc::Global;
use std::collections::BTreeMap;

/// Why a find found nothing out: the column has no index, or memory is wanting.
#[derive(Clone, Copy, Debug, PartialEq, Eq)]
pub enum FindRefusal {
    NotIndexed,
    OutOfMemory,
}

/// The keys, rising, of the rows that the open transaction sees with this number in the column, by its index: of each record that the index
/// names the row is looked at.
pub(crate) fn find(
    alloc: Global,
    store: &Store,
    seat: &mut Seat,
    s: u32,
    column: u32,
    number: u64,
) -> Result<KeyList, FindRefusal>
    requires reader { IsReader store.now seat.old s }
    requires free { (knows seat.old.view s).placing.hand ≡ 0 }
    requires column { column < store.now.layout.limits.columns }
    ensures reader { IsReader store.now seat.new s }
    ensures watched { Watched seat.old.view seat.new.view s }
    ensures keys { IfOk result (λ keys. (is_indexed store.now.layout.limits column ≡ true) × (keys ≡ find_of (table_seen (knows seat.old.view s)) column number)) }
    ensures refusal { IfErr result (λ refusal. IsRefused store.now.layout.limits seat.old seat.new column refusal) }
{
    let records = records_for(alloc, store, seat, s, column, number)?;
    match find_among(alloc, store, seat, s, column, number, &records) {
        Ok(keys) => Ok(keys),
        Err(OutOfMemory) => Err(FindRefusal::OutOfMemory),
    }
}

/// The records at which a find looks: those that the column's index names for the number. Between its calls a session has no tail in hand. With
/// one, a walk through the index would leave marks of it, so that each record of the store is looked at instead.
fn records_for(
    alloc: Global,
    store: &Store,
    seat: &mut Seat,
    s: u32,
    column: u32,
    number: u64,
) -> Result<Vec<RecordId>, FindRefusal>
    requires reader { IsReader store.now seat.old s }
    requires column { column < store.now.layout.limits.columns }
    ensures reader { IsReader store.now seat.new s }
    ensures watched { Watched seat.old.view seat.new.view s }
    ensures same { table_seen (knows seat.new.view s) ≡ table_seen (knows seat.old.view s) }
    ensures indexed { IfOk result (λ records. is_indexed store.now.layout.limits column ≡ true) }
    ensures low { IfOk result (λ records. All (λ rec. rec.number < record_count store.now.layout.limits) records.items) }
    ensures candidates { IfOk result (λ records. AreCandidates (knows seat.new.view s) column number records.items) }
    ensures refusal { IfErr result (λ refusal. IsRefused store.now.layout.limits seat.old seat.new column refusal) }
{
    seat.consider();
    match seat.tail(s) {
        None => by_index(alloc, store, seat, s, column, number),
        Some(_) => by_all(alloc, store, seat, s, column),
    }
}

/// The records that the column's index names for the number.
fn by_index(
    alloc: Global,
    store: &Store,
    seat: &mut Seat,
    s: u32,
    column: u32,
    number: u64,
) -> Result<Vec<RecordId>, FindRefusal>
    requires reader { IsReader store.now seat.old s }
    requires no_tail { (knows seat.old.view s).hold.is_whole ≡ false }
    requires column { column < store.now.layout.limits.columns }
    ensures reader { IsReader store.now seat.new s }
    ensures watched { Watched seat.old.view seat.new.view s }
    ensures same { table_seen (knows seat.new.view s) ≡ table_seen (knows seat.old.view s) }
    ensures indexed { IfOk result (λ records. is_indexed store.now.layout.limits column ≡ true) }
    ensures low { IfOk result (λ records. All (λ rec. rec.number < record_count store.now.layout.limits) records.items) }
    ensures candidates { IfOk result (λ records. AreCandidates (knows seat.new.view s) column number records.items) }
    ensures refusal { IfErr result (λ refusal. IsRefused store.now.layout.limits seat.old seat.new column refusal) }
{
    match candidates(alloc, store, seat, s, column, number) {
        Ok(records) => Ok(records.into_vec()),
        Err(CandidateFault::NotIndexed) => Err(FindRefusal::NotIndexed),
        Err(CandidateFault::OutOfMemory) => Err(FindRefusal::OutOfMemory),
    }
}

/// All records of the store, where the column has an index.
fn by_all(
    alloc: Global,
    store: &Store,
    seat: &Seat,
    s: u32,
    column: u32,
) -> Result<Vec<RecordId>, FindRefusal>
    requires reader { IsReader store.now seat.now s }
    requires column { column < store.now.layout.limits.columns }
    ensures indexed { IfOk result (λ records. is_indexed store.now.layout.limits column ≡ true) }
    ensures low { IfOk result (λ records. All (λ rec. rec.number < record_count store.now.layout.limits) records.items) }
    ensures candidates { IfOk result (λ records. (number : ℕ) → AreCandidates (knows seat.now.view s) column number records.items) }
    ensures refusal { IfErr result (λ refusal. IsRefused store.now.layout.limits seat.now seat.now column refusal) }
{
    seat.consider();
    let _ = s;
    if !has_index(store, column) {
        return Err(FindRefusal::NotIndexed);
    }
    match all_records(alloc, store) {
        Ok(records) => Ok(records),
        Err(OutOfMemory) => Err(FindRefusal::OutOfMemory),
    }
}

/// Whether the layout names an index on the column.
fn has_index(store: &Store, column: u32) -> bool
    requires { column < store.now.layout.limits.columns }
    ensures { result ≡ is_indexed store.now.layout.limits column }
{
    store.layout().limits.is_indexed(column)
}

/// All records of the store.
fn all_records(alloc: Global, store: &Store) -> Result<Vec<RecordId>, OutOfMemory>
    ensures low { IfOk result (λ list. All (λ rec. rec.number < record_count store.now.layout.limits) list.items) }
    ensures all { IfOk result (λ list. (rec : ℕ) → rec < record_count store.now.layout.limits → Contains list.items record { number = rec }) }
{
    let mut records = Vec::new(alloc);
    for number in 0..256 * store.layout().limits.ranges {
        records.push(RecordId { number })?;
    }
    Ok(records)
}

/// The keys, rising, of the rows that the open transaction sees with this number in the column, where the records of all these are among
/// the candidates.
pub(crate) fn find_among(
    alloc: Global,
    store: &Store,
    seat: &mut Seat,
    s: u32,
    column: u32,
    number: u64,
    records: &[RecordId],
) -> Result<KeyList, OutOfMemory>
    requires reader { IsReader store.now seat.old s }
    requires free { (knows seat.old.view s).placing.hand ≡ 0 }
    requires low { All (λ rec. rec.number < record_count store.now.layout.limits) records.now }
    requires candidates { AreCandidates (knows seat.old.view s) column number records.now }
    ensures reader { IsReader store.now seat.new s }
    ensures watched { Watched seat.old.view seat.new.view s }
    ensures keys { IfOk result (λ keys. keys ≡ find_of (table_seen (knows seat.old.view s)) column number) }
{
    let found = entries_with(alloc, store, seat, s, column, number, records)?;
    keys_of(alloc, found)
}

/// The rows, by key.
fn entries_with(
    alloc: Global,
    store: &Store,
    seat: &mut Seat,
    s: u32,
    column: u32,
    number: u64,
    records: &[RecordId],
) -> Result<BTreeMap<Key, Row>, OutOfMemory>
    requires reader { IsReader store.now seat.old s }
    requires free { (knows seat.old.view s).placing.hand ≡ 0 }
    requires low { All (λ rec. rec.number < record_count store.now.layout.limits) records.now }
    requires candidates { AreCandidates (knows seat.old.view s) column number records.now }
    ensures reader { IsReader store.now seat.new s }
    ensures watched { Watched seat.old.view seat.new.view s }
    ensures keys { IfOk result (λ found. map (λ entry. entry.0) found.entries ≡ find_of (table_seen (knows seat.old.view s)) column number) }
{
    seat.consider();
    let mut found = BTreeMap::new(alloc);
    for rec in records {
        seat.consider();
        if let Some((key, row)) = entry_with(store, seat, s, *rec, column, number) {
            found.insert(key, row)?;
        }
    }
    Ok(found)
}

/// The list of a map's keys.
fn keys_of(alloc: Global, found: BTreeMap<Key, Row>) -> Result<KeyList, OutOfMemory>
    ensures { IfOk result (λ keys. keys ≡ map (λ entry. entry.0) found.entries) }
{
    Ok(KeyList::from_items(found.into_keys().collect(alloc)?))
}
