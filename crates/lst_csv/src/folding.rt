//! The table that a history makes, as text.
ghost use Rattle.std.specs.Prelude.{◌≡◌, IfOk, IfSome, OnOk, length};
ghost use Rattle.lst_model.specs.Histories.{table_at};
ghost use Rattle.lst_model.specs.Tables.{Rows, all_applied, scan_of};
ghost use Rattle.lst_csv.specs.Writing.{IsListed, history_text};

use crate::writing::{dump_text, rows_text};
use lst_model::{Act, Commit, History, OutOfMemory, RowList, Table, Text, Write, apply};
use lst_names::Names;
use std::alloc::Global;

/// The text, as `dump_text` writes it, of the table that all commits of a history make, under these names of its columns. The only error is want of
/// memory.
pub fn dump_history(alloc: Global, names: &Names, history: &History) -> Result<Text, OutOfMemory>
    ensures { IfOk result (λ text. text ≡ history_text names.now history.now) }
{
    if let Some(rows) = rising_rows(alloc, history.items())? {
        return rows_text(alloc, names, &rows);
    }
    let table = table_of(alloc, history.items())?;
    dump_text(alloc, names, &table)
}

/// The rows of the table that commits make whose writes put rows by rising key and do nothing else, as those of an import. None where there is
/// another write. The only error is want of memory.
fn rising_rows(alloc: Global, commits: &[Commit]) -> Result<Option<RowList>, OutOfMemory>
    ensures { IfOk result (λ found. IfSome found (λ rows. rows ≡ scan_of (table_at commits.now (length commits.now)))) }
{
    let mut rows = RowList::new(alloc);
    let mut floor = 0;
    for commit in commits {
        let Some(next) = list_writes(&mut rows, floor, commit.writes.items())? else {
            return Ok(None);
        };
        floor = next;
    }
    Ok(Some(rows))
}

/// Lists the rows that writes put by rising key, none of which is below a floor, and tells the floor behind them. None where there is another write.
fn list_writes(rows: &mut RowList, floor: u64, writes: &[Write]) -> Result<Option<u64>, OutOfMemory>
    ensures { IfOk result (λ found. IfSome found (λ next. (table : Rows) → IsListed floor rows.old table → IsListed next rows.new (all_applied table writes.now))) }
{
    let mut next = floor;
    for write in writes {
        let Act::Put(row) = &write.act else {
            return Ok(None);
        };
        if write.key < next || write.key == u64::MAX {
            return Ok(None);
        }
        rows.push(write.key, row.copied())?;
        next = write.key + 1;
    }
    Ok(Some(next))
}

/// The table that commits make, in their order.
fn table_of(alloc: Global, commits: &[Commit]) -> Result<Table, OutOfMemory>
    ensures { IfOk result (λ table. table ≡ table_at commits.now (length commits.now)) }
{
    let mut table = Table::new(alloc);
    for commit in commits {
        apply_all(&mut table, commit.writes.items())?;
    }
    Ok(table)
}

/// Applies writes to a table, in their order.
fn apply_all(table: &mut Table, writes: &[Write]) -> Result<(), OutOfMemory>
    ensures { OnOk result (table.new ≡ all_applied table.old writes.now) }
{
    for write in writes {
        apply(table, write)?;
    }
    Ok(())
}
