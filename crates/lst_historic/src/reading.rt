//! Versions read from the front of bytes, each from the row before it.
ghost use Rattle.std.specs.Prelude.{◌≡◌, ◌==◌, ◌&&◌, ◌+◌, ◌≤◌, replicate, Some, None};
ghost use Rattle.std.specs.Option.{option_map};
ghost use Rattle.lst_snapshots.specs.Versions.{version_at};
ghost use Rattle.lst_historic.specs.Blocks.{base_of};
ghost use Rattle.lst_historic.specs.Reading.{number_after, number_behind, cell_behind, cells_behind, row_behind, version_behind};

use crate::numbers::word_at;
use arrayvec::ArrayVec;
use lst_model::{Row, Time};

/// The number whose difference from another has this code.
pub(crate) fn number_after(old: u64, code: u64) -> u64
    ensures { result ≡ number_after old code }
{
    if code % 2 == 0 {
        old.wrapping_add(code / 2)
    } else {
        old.wrapping_sub(code / 2 + 1)
    }
}

/// A cell that differs from the one before it and is not null.
#[tactic(auto, unfolding(crate::specs::Reading::number_behind))]
fn number_behind(old: Option<u64>, bytes: &[u8]) -> Option<(Option<u64>, &[u8])>
    ensures { option_map (λ found. (found.0, found.1.now)) result ≡ number_behind old bytes.now }
{
    let (code, rest) = word_at(bytes)?;
    let new = Some(number_after(old.unwrap_or(0), code));
    if old == new {
        return None;
    }
    Some((new, rest))
}

/// A cell: whether it differs from the one before it, and whether it became null.
fn cell_behind(
    changed: bool,
    emptied: bool,
    old: Option<u64>,
    bytes: &[u8],
) -> Option<(Option<u64>, &[u8])>
    ensures { option_map (λ found. (found.0, found.1.now)) result ≡ cell_behind changed emptied old bytes.now }
{
    match (changed, emptied) {
        (false, false) => Some((old, bytes)),
        (false, true) => None,
        (true, true) => match old {
            Some(_) => Some((None, bytes)),
            None => None,
        },
        (true, false) => number_behind(old, bytes),
    }
}

/// The row behind another, by the bits of the cells that differ and of those that became null.
fn cells_behind<'a>(mask: u64, nulls: u64, old: &Row, bytes: &'a [u8]) -> Option<(Row, &'a [u8])>
    ensures { option_map (λ found. (found.0, found.1.now)) result ≡ cells_behind mask nulls old.now bytes.now }
{
    let mut row = Row::of_numbers(ArrayVec::new());
    let mut changes = mask;
    let mut empties = nulls;
    let mut rest = bytes;
    for column in 0..old.len() as u32 {
        let Some((cell, behind)) = cell_behind(
            changes % 2 == 1,
            empties % 2 == 1,
            old.cell(column),
            rest,
        ) else {
            return None;
        };
        row.push(cell);
        changes /= 2;
        empties /= 2;
        rest = behind;
    }
    match are_zero(changes, empties) {
        true => Some((row, rest)),
        false => None,
    }
}

/// Whether no bit is left.
fn are_zero(mask: u64, nulls: u64) -> bool
    ensures { result ≡ (mask == 0 && nulls == 0) }
{
    mask == 0 && nulls == 0
}

/// The row of a version, or None in it where the key is absent.
#[tactic(auto, unfolding(crate::specs::Reading::row_behind))]
fn row_behind<'a>(base: &Row, bytes: &'a [u8]) -> Option<(Option<Row>, &'a [u8])>
    ensures { option_map (λ found. (found.0, found.1.now)) result ≡ row_behind base.now bytes.now }
{
    let (tag, rest) = word_at(bytes)?;
    if tag == 0 {
        return Some((None, rest));
    }
    let (row, rest) = cells_behind((tag - 1) % 256, (tag - 1) / 256, base, rest)?;
    Some((Some(row), rest))
}

/// The row that a version is compared with.
pub(crate) fn base_of(columns: u32, row: &Option<Row>) -> Row
    requires { columns ≤ 8 }
    ensures { result ≡ base_of columns row.now }
{
    match row {
        Some(row) => row.copied(),
        None => zeros(columns),
    }
}

/// The row of so many numbers 0.
fn zeros(columns: u32) -> Row
    requires { columns ≤ 8 }
    ensures { result ≡ replicate columns (Some 0) }
{
    let mut row = Row::of_numbers(ArrayVec::new());
    for _ in 0..columns {
        row.push(Some(0));
    }
    row
}

/// A version: its time and its row.
#[tactic(auto, unfolding(crate::specs::Reading::version_behind))]
pub(crate) fn version_behind<'a>(
    columns: u32,
    until: Time,
    time: Time,
    row: &Option<Row>,
    bytes: &'a [u8],
) -> Option<(Time, Option<Row>, &'a [u8])>
    requires { columns ≤ 8 }
    ensures { option_map (λ found. (version_at found.0 found.1, found.2.now)) result ≡ version_behind columns until time row.now bytes.now }
{
    let (gap, rest) = word_at(bytes)?;
    if gap == 0 || gap > until.saturating_sub(time) {
        return None;
    }
    let (new, rest) = row_behind(&base_of(columns, row), rest)?;
    Some((time + gap, new, rest))
}
