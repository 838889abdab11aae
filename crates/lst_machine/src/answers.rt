//! What both engines of one thread share: the open transaction, refusals, and the answers to questions about rows.
ghost use Rattle.std.specs.Prelude.{◌≡◌, [], ◌++◌, IfOk, OnOk, OnErr, map, filter, sum_by};
ghost use Rattle.lst_model.specs.Cells.{number_at, holds_at};
ghost use Rattle.lst_model.specs.Tables.{Rows, scan_of};
ghost use Rattle.lst_machine.specs.Calls.{is_indexed};
ghost use Rattle.lst_machine.specs.Changes.{misfit};
ghost use Rattle.lst_machine.specs.Listings.{listed_row};
ghost use Rattle.lst_machine.specs.Scans.{IsScan, scan_answer, lacks_index};

use lst_layout::Limits;
use lst_model::{Act, Call, Cause, Key, KeyList, OutOfMemory, Reply, Row, RowList, Time};
use std::alloc::Global;

/// An open transaction: the time at which it began, and whether it was opened as of a time, to read alone.
#[derive(Clone, Copy)]
pub struct Transaction {
    pub begin: Time,
    pub read_only: bool,
}

/// A refusal for this cause.
pub fn refused(cause: Cause) -> Reply
    ensures { result ≡ Reply.Refused cause }
{
    Reply::Refused { cause }
}

/// Why an act does not fit a row, or None: an insert asks that there is no row, an update and a delete that there is one.
pub fn row_misfit(row: &Option<Row>, act: &Act) -> Option<Cause>
    ensures { result ≡ misfit row.now act.now }
{
    match act {
        Act::Put(_) => {
            if row.is_some() {
                return Some(Cause::Exists);
            }
            None
        }
        Act::Set(_) | Act::Del => {
            if row.is_none() {
                return Some(Cause::Missing);
            }
            None
        }
    }
}

/// The answer to a sum, a count, a scan or a find, by the rows of a table, which stand by rising key. A sum and a count take no
/// memory, and a scan takes none besides.
pub fn answer_from_rows(alloc: Global, call: &Call, rows: RowList) -> Result<Reply, OutOfMemory>
    requires { IsScan call.now }
    ensures { IfOk result (λ reply. (table : Rows) → rows ≡ scan_of table → reply ≡ scan_answer table call.now) }
{
    match call {
        Call::Sum { column } => Ok(Reply::Sum {
            total: sum_of_rows(rows.items(), *column),
        }),
        Call::Count => Ok(Reply::Count {
            rows: rows.items().len() as u64,
        }),
        Call::Scan => Ok(Reply::Rows { list: rows }),
        Call::Find { column, value } => Ok(Reply::Keys {
            list: keys_of_rows(alloc, rows.items(), *column, *value)?,
        }),
        _ => unreachable!(),
    }
}

/// Adds a key with its row behind others, where it has one. For want of memory they stay as they are.
pub fn list_row(rows: &mut RowList, key: Key, row: Option<Row>) -> Result<(), OutOfMemory>
    ensures ok { OnOk result (rows.new ≡ rows.old ++ listed_row key row []) }
    ensures err { OnErr result (rows.new ≡ rows.old) }
{
    match row {
        Some(row) => rows.push(key, row),
        None => Ok(()),
    }
}

/// Whether a call is a find on a column without an index.
pub fn lacks_index(limits: &Limits, call: &Call) -> bool
    ensures { result ≡ lacks_index limits.now call.now }
{
    match call {
        Call::Find { column, .. } => !is_indexed(limits, *column),
        _ => false,
    }
}

/// Whether a column has an index.
fn is_indexed(limits: &Limits, column: u32) -> bool
    ensures { result ≡ is_indexed limits.now column }
{
    let indexed = u32::from(limits.indexed);
    if column >= 32 {
        return false;
    }
    indexed >> column & 1 == 1
}

/// The numbers of a column, added over rows. Null adds 0, and so does a row without the column.
fn sum_of_rows(rows: &[(Key, Row)], column: u32) -> u128
    ensures { result ≡ sum_by (λ entry. number_at column entry.1) rows.now }
{
    let mut total = 0u128;
    for entry in rows {
        total += u128::from(number_in(&entry.1, column));
    }
    total
}

fn number_in(row: &Row, column: u32) -> u64
    ensures { result ≡ number_at column row.now }
{
    row.numbers().get(column as usize).copied().unwrap_or(0)
}

/// The keys of the rows whose cell in a column is this number, in the order of the rows.
fn keys_of_rows(
    alloc: Global,
    rows: &[(Key, Row)],
    column: u32,
    value: u64,
) -> Result<KeyList, OutOfMemory>
    ensures { IfOk result (λ keys. keys ≡ map (λ entry. entry.0) (filter (λ entry. holds_at column value entry.1) rows.now)) }
{
    let mut keys = KeyList::new(alloc);
    for (key, row) in rows {
        if is_holding(row, column, value) {
            keys.push(*key)?;
        }
    }
    Ok(keys)
}

fn is_holding(row: &Row, column: u32, value: u64) -> bool
    ensures { result ≡ holds_at column value row.now }
{
    match row.get(column) {
        Some(number) => number == value,
        None => false,
    }
}
