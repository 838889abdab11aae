//! Rows decoded in place, from bytes that are known to be a block's.
ghost use Rattle.std.specs.Prelude.{◌≡◌, ◌<◌, ◌≤◌, ◌^◌, ◌++◌, ℕ, List, length, drop, replicate, slice_get, slice_set, true, Option, Some, None, IsSome};
ghost use Rattle.arrayvec.specs.ArrayVec.{array_vec_len};
ghost use Rattle.lst_snapshots.specs.declared.versions.Version.{Version};
ghost use Rattle.lst_snapshots.specs.Versions.{row_at};
ghost use Rattle.lst_historic.specs.Numbers.{word_at};
ghost use Rattle.lst_historic.specs.Blocks.{base_of, AreVersions, chain_text};
ghost use Rattle.lst_historic.specs.Reading.{cell_behind, cells_behind, row_behind};
ghost use Rattle.lst_historic.specs.Decoding.{HasVersions, IsStep, shown};

use crate::reading::number_after;
use arrayvec::ArrayVec;
use lst_model::{Row, Time};

/// The cells of a row while it is decoded, one a column.
pub(crate) type Cells = ArrayVec<Option<u64>, 8>;

/// The number that stands at a place, and the place behind it. Most have three bytes or fewer.
#[inline(always)]
fn number_in(bytes: &[u8], place: usize) -> (u64, usize)
    requires { IsSome (word_at (drop place bytes.now)) }
    ensures { Some (result.0, drop result.1 bytes.now) ≡ word_at (drop place bytes.now) }
{
    let first = u64::from(bytes[place]);
    if first < 128 {
        return (first, place + 1);
    }
    let second = u64::from(bytes[place + 1]);
    if second < 128 {
        return (first - 128 + second * 128, place + 2);
    }
    let third = u64::from(bytes[place + 2]);
    if third < 128 {
        return (
            first - 128 + (second - 128) * 128 + third * 16_384,
            place + 3,
        );
    }
    long_number_in(bytes, place)
}

/// The same, whatever its length.
fn long_number_in(bytes: &[u8], place: usize) -> (u64, usize)
    requires { IsSome (word_at (drop place bytes.now)) }
    ensures { Some (result.0, drop result.1 bytes.now) ≡ word_at (drop place bytes.now) }
{
    let mut number = 0u64;
    let mut scale = 1u64;
    for at in place..bytes.len() {
        let byte = u64::from(bytes[at]);
        if byte < 128 {
            return (number + byte * scale, at + 1);
        }
        number += (byte - 128) * scale;
        scale *= 128;
    }
    (number, place)
}

/// A cell that differs from the one before it, and the place behind it.
fn cell_in(emptied: bool, old: Option<u64>, bytes: &[u8], place: usize) -> (Option<u64>, usize)
    requires { IsSome (cell_behind true emptied old (drop place bytes.now)) }
    ensures { Some (result.0, drop result.1 bytes.now) ≡ cell_behind true emptied old (drop place bytes.now) }
{
    if emptied {
        return (None, place);
    }
    let (code, behind) = number_in(bytes, place);
    (Some(number_after(old.unwrap_or(0), code)), behind)
}

/// Puts a cell in its column.
pub(crate) fn set(cells: &mut Cells, column: usize, cell: Option<u64>)
    requires { column < array_vec_len cells.old }
    ensures { cells.new.items ≡ slice_set cells.old.items column cell }
{
    cells.as_mut_slice()[column] = cell;
}

/// Puts a column's next cell in its place, and answers the place behind it in the bytes.
#[inline(always)]
fn step(
    cells: &mut Cells,
    column: usize,
    changed: bool,
    emptied: bool,
    bytes: &[u8],
    place: usize,
) -> usize
    requires column { column < array_vec_len cells.old }
    requires read { (old : Option ℕ) → slice_get cells.old.items column ≡ Some old → IsSome (cell_behind changed emptied old (drop place bytes.now)) }
    ensures few { column < 8 }
    ensures step { IsStep cells.old.items cells.new.items column changed emptied (drop place bytes.now) (drop result bytes.now) }
{
    let old = cells.as_slice()[column];
    if !changed {
        return place;
    }
    let (cell, behind) = cell_in(emptied, old, bytes, place);
    set(cells, column, cell);
    behind
}

/// Makes cells those of the row behind them, by the bits of the columns that differ and of those that became null, and answers the place
/// behind it. It is compiled into each call, so that one without nulls has no look at them.
#[inline(always)]
fn cells_in(cells: &mut Cells, mask: u64, nulls: u64, bytes: &[u8], place: usize) -> usize
    requires { IsSome (cells_behind mask nulls cells.old.items (drop place bytes.now)) }
    ensures { Some (cells.new.items, drop result bytes.now) ≡ cells_behind mask nulls cells.old.items (drop place bytes.now) }
{
    let mut changed = mask;
    let mut emptied = nulls;
    let mut column = 0;
    let mut at = place;
    while changed > 0 {
        at = step(cells, column, changed % 2 == 1, emptied % 2 == 1, bytes, at);
        changed /= 2;
        emptied /= 2;
        column += 1;
    }
    at
}

/// Makes cells those of the row behind them, of which the first column alone differs, and answers the place behind it. It takes no loop.
#[inline(always)]
fn first_in(cells: &mut Cells, bytes: &[u8], place: usize) -> usize
    requires { IsSome (cells_behind 1 0 cells.old.items (drop place bytes.now)) }
    ensures { Some (cells.new.items, drop result bytes.now) ≡ cells_behind 1 0 cells.old.items (drop place bytes.now) }
{
    step(cells, 0, true, false, bytes, place)
}

/// The same of the second column.
#[inline(always)]
fn second_in(cells: &mut Cells, bytes: &[u8], place: usize) -> usize
    requires { IsSome (cells_behind 2 0 cells.old.items (drop place bytes.now)) }
    ensures { Some (cells.new.items, drop result bytes.now) ≡ cells_behind 2 0 cells.old.items (drop place bytes.now) }
{
    step(cells, 1, true, false, bytes, place)
}

/// Makes cells those of so many numbers 0.
#[inline(always)]
pub(crate) fn clear(cells: &mut Cells, columns: u32)
    requires { columns ≤ 8 }
    ensures { cells.new.items ≡ replicate columns (Some 0) }
{
    cells.clear();
    for _ in 0..columns {
        cells.push(Some(0));
    }
}

/// Makes cells those with which the next version is compared, and answers whether the key has a row, and the place behind it. Versions in
/// which one of the first two columns alone differs are told first.
fn row_behind_in(columns: u32, cells: &mut Cells, bytes: &[u8], place: usize) -> (bool, usize)
    requires few { columns ≤ 8 }
    requires read { IsSome (row_behind cells.old.items (drop place bytes.now)) }
    ensures read { Some (shown result.0 cells.new.items, drop result.1 bytes.now) ≡ row_behind cells.old.items (drop place bytes.now) }
    ensures base { base_of columns (shown result.0 cells.new.items) ≡ cells.new.items }
{
    let (tag, behind) = number_in(bytes, place);
    if tag == 2 {
        let end = first_in(cells, bytes, behind);
        return (true, end);
    }
    if tag == 3 {
        let end = second_in(cells, bytes, behind);
        return (true, end);
    }
    if tag == 0 {
        clear(cells, columns);
        return (false, behind);
    }
    if tag <= 256 {
        let end = cells_in(cells, tag - 1, 0, bytes, behind);
        return (true, end);
    }
    let end = cells_in(cells, (tag - 1) % 256, (tag - 1) / 256, bytes, behind);
    (true, end)
}

/// The row of these cells, or None where the key has none.
fn row_of(is_some: bool, cells: &Cells) -> Option<Row>
    ensures { result ≡ shown is_some cells.now.items }
{
    if !is_some {
        return None;
    }
    let mut row = Row::of_numbers(ArrayVec::new());
    for cell in cells.as_slice() {
        row.push(*cell);
    }
    Some(row)
}

/// The row as of a time, of the versions of a key that stand at a place.
pub(crate) fn row_in(
    columns: u32,
    until: Time,
    time: Time,
    bytes: &[u8],
    place: usize,
) -> Option<Row>
    requires few { columns ≤ 8 }
    requires some { HasVersions columns until (drop place bytes.now) }
    ensures { (versions : List Version) (rest : List ℕ) → until < 2 ^ 64 → length versions < 2 ^ 64 → AreVersions columns until 0 versions → drop place bytes.now ≡ chain_text columns versions ++ rest → result ≡ row_at versions time }
{
    let (count, start) = number_in(bytes, place);
    let mut at = start;
    let mut now = 0;
    let mut is_some = false;
    let mut cells = Cells::new();
    clear(&mut cells, columns);
    for _ in 0..count {
        let (gap, behind) = number_in(bytes, at);
        let later = now + gap;
        if later > time {
            return row_of(is_some, &cells);
        }
        let (present, end) = row_behind_in(columns, &mut cells, bytes, behind);
        now = later;
        is_some = present;
        at = end;
    }
    row_of(is_some, &cells)
}
