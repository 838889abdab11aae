//! The rows of all keys of a block.
ghost use Rattle.std.specs.Prelude.{◌≡◌, ℕ, List, [], ◌++◌, IfOk, OnOk};
ghost use Rattle.lst_model.specs.declared.commits.Commit.{Commit};
ghost use Rattle.lst_model.specs.Tables.{scan_of};
ghost use Rattle.lst_model.specs.Histories.{table_at};
ghost use Rattle.lst_historic.specs.Places.{HasBlock, IsHeld};
ghost use Rattle.lst_historic.specs.Tabled.{with_entry};

use crate::decoding::row_in;
use crate::places::Place;
use lst_model::{Key, OutOfMemory, Row, RowList, Time};
use std::alloc::Global;

/// The rows of all keys as of a time.
pub(crate) fn table_at(
    alloc: Global,
    bytes: &[u8],
    columns: u32,
    until: Time,
    places: &[Place],
    time: Time,
) -> Result<RowList, OutOfMemory>
    requires { IsHeld bytes.now columns until places.now }
    ensures { IfOk result (λ rows. (width : ℕ) (history : List Commit) → HasBlock width history bytes.now → rows ≡ scan_of (table_at history time)) }
{
    let mut rows = RowList::new(alloc);
    for index in 0..places.len() {
        let row = row_in(columns, until, time, bytes, places[index].at);
        push_row(&mut rows, places[index].key, row)?;
    }
    Ok(rows)
}

/// Adds the row of a key, where there is one.
fn push_row(rows: &mut RowList, key: Key, row: Option<Row>) -> Result<(), OutOfMemory>
    ensures { OnOk result (rows.new ≡ rows.old ++ with_entry key row []) }
{
    match row {
        Some(row) => rows.push(key, row),
        None => Ok(()),
    }
}
