//! The cells of a row, changed in place by what writes do.
ghost use Rattle.std.specs.Prelude.{◌≡◌, ◌<◌, ◌≤◌, length, min, slice_get, slice_set, Some, None};
ghost use Rattle.lst_model.specs.declared.acts.Act.TheVariants.{Set};
ghost use Rattle.lst_model.specs.Cells.{Cell, overlaid};
ghost use Rattle.lst_model.specs.Histories.{row_after};
ghost use Rattle.lst_historic.specs.Blocks.{base_of};
ghost use Rattle.lst_historic.specs.Decoding.{shown};

use crate::decoding::{Cells, clear, set};
use lst_model::{Act, Patch, Row};

/// The cell of a column.
#[inline(always)]
pub(crate) fn cell_at(cells: &Cells, column: u32) -> Option<u64>
    requires { column < length cells.now.items }
    ensures { slice_get cells.now.items column ≡ Some result }
{
    cells.as_slice()[column as usize]
}

/// Makes cells those of a row.
fn put(cells: &mut Cells, row: &Row)
    ensures { cells.new.items ≡ row.now }
{
    cells.clear();
    for column in 0..row.len() as u32 {
        cells.push(row.cell(column));
    }
}

/// How many columns both have.
fn columns_of(cells: &Cells, patch: &Patch) -> u32
    ensures old { result ≤ length cells.now.items }
    ensures new { result ≤ length patch.now }
    ensures all { min (length cells.now.items) (length patch.now) ≤ result }
{
    let own = cells.as_slice().len();
    if own < patch.len() {
        own as u32
    } else {
        patch.len() as u32
    }
}

/// Puts what a column becomes in its place.
fn set_change(cells: &mut Cells, column: u32, change: Option<Option<u64>>)
    requires { column < length cells.old.items }
    ensures none { change ≡ None → cells.new.items ≡ cells.old.items }
    ensures some { (cell : Cell) → change ≡ Some cell → cells.new.items ≡ slice_set cells.old.items column cell }
{
    if let Some(cell) = change {
        set(cells, column as usize, cell);
    }
}

/// Sets the cells that a patch sets.
fn overlay(cells: &mut Cells, patch: &Patch)
    ensures { cells.new.items ≡ overlaid cells.old.items patch.now }
{
    for column in 0..columns_of(cells, patch) {
        set_change(cells, column, patch.change(column));
    }
}

/// Sets the cells that a patch sets where there is a row, and answers whether there is one.
fn set_some(cells: &mut Cells, is_some: bool, patch: &Patch) -> bool
    ensures { shown result cells.new.items ≡ row_after (shown is_some cells.old.items) (Set patch.now) }
{
    if !is_some {
        return false;
    }
    overlay(cells, patch);
    true
}

/// Makes cells those of the row that an act makes of the row in them, or of none, and answers whether there is one then.
pub(crate) fn change(cells: &mut Cells, is_some: bool, act: &Act) -> bool
    ensures { shown result cells.new.items ≡ row_after (shown is_some cells.old.items) act.now }
{
    match act {
        Act::Put(row) => {
            put(cells, row);
            true
        }
        Act::Set(patch) => set_some(cells, is_some, patch),
        Act::Del => false,
    }
}

/// Makes cells those of other ones, one after the other.
fn refill(cells: &mut Cells, other: &Cells)
    ensures { cells.new.items ≡ other.now.items }
{
    cells.clear();
    for cell in other.as_slice() {
        cells.push(*cell);
    }
}

/// Makes cells those of other ones. As many are written where they stand.
fn copy(cells: &mut Cells, other: &Cells)
    ensures { cells.new.items ≡ other.now.items }
{
    if cells.as_slice().len() != other.as_slice().len() {
        refill(cells, other);
        return;
    }
    for column in 0..other.as_slice().len() as u32 {
        set(cells, column as usize, cell_at(other, column));
    }
}

/// Makes cells those with which the version behind a row is compared.
pub(crate) fn rebase(cells: &mut Cells, columns: u32, is_some: bool, row: &Cells)
    requires { columns ≤ 8 }
    ensures { cells.new.items ≡ base_of columns (shown is_some row.now.items) }
{
    if is_some {
        copy(cells, row);
    } else {
        clear(cells, columns);
    }
}
