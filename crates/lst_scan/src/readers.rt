//! The scans as they are called: by a reader, at the seat that it was lent. Whatever other sessions do meanwhile, an answer is that of the
//! table which the open transaction sees. A scan leaves of what the session knows what a read leaves. A reader as a session or a crew lends it is one
//! for each of them, and stays so.
ghost use Rattle.std.specs.Prelude.{◌≡◌, ℕ, ◌-◌, ◌*◌, ◌^◌, ◌<◌, ◌≤◌, true, IfOk, IfErr};
ghost use Rattle.std.specs.List.{All};
ghost use Rattle.lst_model.specs.Tables.{sum_of, count_of, scan_of, find_of};
ghost use Rattle.lst_machine.specs.Calls.{is_indexed};
ghost use Rattle.lst_core_state.specs.Cells.{record_count};
ghost use Rattle.lst_rule.specs.Rule.{knows};
ghost use Rattle.lst_rule.specs.Watching.{Watched};
ghost use Rattle.lst_session.specs.Lending.{IsLent};
ghost use Rattle.lst_walk.specs.Readers.{IsReader};
ghost use Rattle.lst_scan.specs.Savings.{SavesPart};
ghost use Rattle.lst_scan.specs.Scans.{table_seen, Places, between, AreCandidates};
ghost use Rattle.lst_scan.specs.Finds.{IsRefused};

use crate::finds::FindRefusal;
use crate::{finds, lists, sums};
use lst_model::{KeyList, OutOfMemory, RowList};
use lst_rule::{RecordId, Store};
use lst_session::Reader;
use std::alloc::Global;

/// The numbers of a column, 0 for null, added over all rows. The sum never wraps. A record is told by the column's page where that has folded its newest
/// version, with an entry of the begin or earlier. Where the seat knows each word and the session is pinned, words are loaded of no other tail records than those of records that
/// aren't told; and where each record is told, the session finds nothing at all.
pub fn sum(store: &Store, reader: &mut Reader<'_>, column: u32) -> u128
    requires reader { IsReader store.now reader.old.seat.now reader.old.s }
    requires column { column < store.now.layout.limits.columns }
    ensures reader { IsReader store.now reader.new.seat.now reader.new.s }
    ensures still { IsLent store.now reader.old.seat.now reader.old.s → IsLent store.now reader.new.seat.now reader.new.s }
    ensures session { reader.new.s ≡ reader.old.s }
    ensures lent { reader.new.seat.ghost_name ≡ reader.old.seat.ghost_name }
    ensures watched { Watched reader.old.seat.now.view reader.new.seat.now.view reader.old.s }
    ensures sum { result ≡ sum_of (table_seen (knows reader.old.seat.now.view reader.old.s)) column }
    ensures saves { SavesPart reader.old.seat.now.view reader.new.seat.now.view reader.old.s column 0 (record_count store.now.layout.limits) }
{
    sums::sum(store, reader.seat, reader.s, column)
}

/// The same over the rows whose keys are on records of the ranges from `from` up to and without `to`: at most 2^73 for each of them. It saves the same, of the
/// records of these ranges.
pub fn sum_part(store: &Store, reader: &mut Reader<'_>, column: u32, from: u32, to: u32) -> u128
    requires reader { IsReader store.now reader.old.seat.now reader.old.s }
    requires column { column < store.now.layout.limits.columns }
    requires rises { from ≤ to }
    requires ranges { to ≤ store.now.layout.limits.ranges }
    ensures reader { IsReader store.now reader.new.seat.now reader.new.s }
    ensures still { IsLent store.now reader.old.seat.now reader.old.s → IsLent store.now reader.new.seat.now reader.new.s }
    ensures session { reader.new.s ≡ reader.old.s }
    ensures lent { reader.new.seat.ghost_name ≡ reader.old.seat.ghost_name }
    ensures watched { Watched reader.old.seat.now.view reader.new.seat.now.view reader.old.s }
    ensures sum { (place : ℕ → ℕ) → Places (knows reader.old.seat.now.view reader.old.s) place → result ≡ sum_of (between place (256 * from) (256 * to) (table_seen (knows reader.old.seat.now.view reader.old.s))) column }
    ensures saves { SavesPart reader.old.seat.now.view reader.new.seat.now.view reader.old.s column (256 * from) (256 * to) }
    ensures few { result ≤ (to - from) * 2 ^ 73 }
{
    sums::sum_part(store, reader.seat, reader.s, column, from, to)
}

/// The number of rows. Of the page of the first column it saves what `sum` does of its column's.
pub fn count(store: &Store, reader: &mut Reader<'_>) -> u64
    requires reader { IsReader store.now reader.old.seat.now reader.old.s }
    ensures reader { IsReader store.now reader.new.seat.now reader.new.s }
    ensures still { IsLent store.now reader.old.seat.now reader.old.s → IsLent store.now reader.new.seat.now reader.new.s }
    ensures session { reader.new.s ≡ reader.old.s }
    ensures lent { reader.new.seat.ghost_name ≡ reader.old.seat.ghost_name }
    ensures watched { Watched reader.old.seat.now.view reader.new.seat.now.view reader.old.s }
    ensures count { result ≡ count_of (table_seen (knows reader.old.seat.now.view reader.old.s)) }
    ensures saves { SavesPart reader.old.seat.now.view reader.new.seat.now.view reader.old.s 0 0 (record_count store.now.layout.limits) }
{
    sums::count(store, reader.seat, reader.s)
}

/// All rows with their keys, by rising key. For want of memory only looks were made.
pub fn rows(alloc: Global, store: &Store, reader: &mut Reader<'_>) -> Result<RowList, OutOfMemory>
    requires reader { IsLent store.now reader.old.seat.now reader.old.s }
    ensures reader { IsLent store.now reader.new.seat.now reader.new.s }
    ensures session { reader.new.s ≡ reader.old.s }
    ensures lent { reader.new.seat.ghost_name ≡ reader.old.seat.ghost_name }
    ensures watched { Watched reader.old.seat.now.view reader.new.seat.now.view reader.old.s }
    ensures rows { IfOk result (λ list. list ≡ scan_of (table_seen (knows reader.old.seat.now.view reader.old.s))) }
{
    lists::rows(alloc, store, reader.seat, reader.s)
}

/// The keys, rising, of the rows with this number in the column, where the records of all these are among the candidates. For want of memory only
/// looks were made.
pub fn find_among(
    alloc: Global,
    store: &Store,
    reader: &mut Reader<'_>,
    column: u32,
    number: u64,
    records: &[RecordId],
) -> Result<KeyList, OutOfMemory>
    requires reader { IsLent store.now reader.old.seat.now reader.old.s }
    requires low { All (λ rec. rec.number < record_count store.now.layout.limits) records.now }
    requires candidates { AreCandidates (knows reader.old.seat.now.view reader.old.s) column number records.now }
    ensures reader { IsLent store.now reader.new.seat.now reader.new.s }
    ensures session { reader.new.s ≡ reader.old.s }
    ensures lent { reader.new.seat.ghost_name ≡ reader.old.seat.ghost_name }
    ensures watched { Watched reader.old.seat.now.view reader.new.seat.now.view reader.old.s }
    ensures keys { IfOk result (λ keys. keys ≡ find_of (table_seen (knows reader.old.seat.now.view reader.old.s)) column number) }
{
    finds::find_among(alloc, store, reader.seat, reader.s, column, number, records)
}

/// The keys, rising, of the rows with this number in the column. NotIndexed comes exactly where the layout names no index on the column, and
/// then nothing is looked at; for want of memory only looks were made.
pub fn find(
    alloc: Global,
    store: &Store,
    reader: &mut Reader<'_>,
    column: u32,
    value: u64,
) -> Result<KeyList, FindRefusal>
    requires reader { IsLent store.now reader.old.seat.now reader.old.s }
    requires column { column < store.now.layout.limits.columns }
    ensures reader { IsLent store.now reader.new.seat.now reader.new.s }
    ensures session { reader.new.s ≡ reader.old.s }
    ensures lent { reader.new.seat.ghost_name ≡ reader.old.seat.ghost_name }
    ensures watched { Watched reader.old.seat.now.view reader.new.seat.now.view reader.old.s }
    ensures keys { IfOk result (λ keys. (is_indexed store.now.layout.limits column ≡ true) × (keys ≡ find_of (table_seen (knows reader.old.seat.now.view reader.old.s)) column value)) }
    ensures refusal { IfErr result (λ refusal. IsRefused store.now.layout.limits reader.old.seat.now reader.new.seat.now column refusal) }
{
    finds::find(alloc, store, reader.seat, reader.s, column, value)
}
