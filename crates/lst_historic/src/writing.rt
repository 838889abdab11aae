//! Rows and versions written at the end of bytes, each as what differs from the row before it.
ghost use Rattle.std.specs.Prelude.{◌≡◌, ◌++◌, ◌<◌, ◌≤◌, ◌+◌, ◌-◌, ◌*◌, [], cond, is_none, min, length, OnOk, IfSome, IfNone};
ghost use Rattle.lst_historic.specs.Blocks.{are_same, tag_of, difference, code_of, differences, cell_text, row_text, chain_text};
ghost use Rattle.std.specs.Prelude.{drop, None};
ghost use Rattle.lst_historic.specs.Numbers.{spelled};
ghost use Rattle.std.specs.List.{AllByRecursion};
ghost use Rattle.lst_historic.specs.Blocks.{versions_text, CellFits, RowIsWide, VersionsAreWide, HasNumbers, HaveNumbers};
ghost use Rattle.lst_historic.specs.Moves.{moves, made_of, times_in, goes_on};
ghost use Rattle.lst_historic.specs.Decoding.{shown};

use crate::changing::{cell_at, change, rebase};
use crate::decoding::{Cells, clear};
use crate::numbers::push_number;
use crate::steps::Step;
use lst_model::{OutOfMemory, Time};

/// The code of the difference of two numbers.
fn code_of(old: u64, new: u64) -> u64
    ensures { result ≡ code_of (difference old new) }
{
    let difference = new.wrapping_sub(old);
    if difference < 1 << 63 {
        2 * difference
    } else {
        (u64::MAX - difference) * 2 + 1
    }
}

/// Whether cells are the same.
fn are_same(old: Option<u64>, new: Option<u64>) -> bool
    ensures { result ≡ are_same old new }
{
    match old {
        None => new.is_none(),
        Some(old) => match new {
            None => false,
            Some(new) => old == new,
        },
    }
}

/// What a cell adds to the number in front of its row: 1 where it differs, and 256 more where it is null now.
fn cell_bits(old: Option<u64>, new: Option<u64>) -> u64
    ensures few { result ≤ 257 }
    ensures is { result ≡ cond (are_same old new) 0 1 + 256 * cond (are_same old new) 0 (cond (is_none new) 1 0) }
{
    if are_same(old, new) {
        0
    } else if new.is_none() {
        257
    } else {
        1
    }
}

/// How many columns both rows have.
fn width(old: &Cells, new: &Cells) -> u32
    ensures old { result ≤ length old.now.items }
    ensures new { result ≤ length new.now.items }
    ensures few { length old.now.items ≤ 8 }
    ensures all { min (length old.now.items) (length new.now.items) ≤ result }
{
    let olds = old.as_slice().len();
    let news = new.as_slice().len();
    if olds < news {
        olds as u32
    } else {
        news as u32
    }
}

/// The bits of the columns whose cell differs, and 256 times those of the ones that are null now.
fn row_bits(old: &Cells, new: &Cells) -> u64
    ensures low { result < 65536 }
    ensures tag { 1 + result ≡ tag_of old.now.items new.now.items }
{
    let mut bits = 0;
    let mut column = width(old, new);
    while column > 0 {
        column -= 1;
        bits = cell_bits(cell_at(old, column), cell_at(new, column)) + 2 * bits;
    }
    bits
}

/// The number in front of a row that is compared with another.
fn tag_of(old: &Cells, new: &Cells) -> u64
    ensures { result ≡ tag_of old.now.items new.now.items }
{
    1 + row_bits(old, new)
}

/// The code of the difference of a cell that differs and is not null, or None where nothing is written of it.
fn code_between(old: Option<u64>, new: Option<u64>) -> Option<u64>
    ensures number { CellFits new }
    ensures some { IfSome result (λ code. cond (are_same old new) [] (cell_text old new) ≡ spelled code) }
    ensures none { IfNone result (cond (are_same old new) [] (cell_text old new) ≡ []) }
{
    match old {
        None => match new {
            None => None,
            Some(number) => Some(code_of(0, number)),
        },
        Some(before) => match new {
            None => None,
            Some(number) => {
                if before == number {
                    None
                } else {
                    Some(code_of(before, number))
                }
            }
        },
    }
}

/// Writes the difference of a cell that differs and is not null.
fn push_cell(out: &mut Vec<u8>, old: Option<u64>, new: Option<u64>) -> Result<(), OutOfMemory>
    ensures number { CellFits new }
    ensures text { OnOk result (out.new.items ≡ out.old.items ++ cond (are_same old new) [] (cell_text old new)) }
{
    match code_between(old, new) {
        Some(code) => push_number(out, code),
        None => Ok(()),
    }
}

/// Writes the differences of the cells that differ and are not null.
fn push_differences(out: &mut Vec<u8>, old: &Cells, new: &Cells) -> Result<(), OutOfMemory>
    ensures numbers { OnOk result (length new.now.items ≡ length old.now.items → AllByRecursion CellFits new.now.items) }
    ensures text { OnOk result (out.new.items ≡ out.old.items ++ differences old.now.items new.now.items) }
{
    for column in 0..width(old, new) {
        push_cell(out, cell_at(old, column), cell_at(new, column))?;
    }
    Ok(())
}

/// Writes the row of these cells, or that the key is absent where there is none.
fn push_row(out: &mut Vec<u8>, base: &Cells, is_some: bool, row: &Cells) -> Result<(), OutOfMemory>
    ensures numbers { OnOk result (RowIsWide (length base.now.items) (shown is_some row.now.items) → HasNumbers (shown is_some row.now.items)) }
    ensures text { OnOk result (out.new.items ≡ out.old.items ++ row_text base.now.items (shown is_some row.now.items)) }
{
    if !is_some {
        return push_number(out, 0);
    }
    push_number(out, tag_of(base, row))?;
    push_differences(out, base, row)?;
    Ok(())
}

/// Whether the step at a place has this time.
fn goes_on(steps: &[Step], place: usize, time: Time) -> bool
    ensures { result ≡ goes_on time (drop place (moves steps.now)) }
{
    if place < steps.len() {
        time == steps[place].time
    } else {
        false
    }
}

/// Whether the step at a place has another time, as a number.
fn ends_at(steps: &[Step], place: usize, time: Time) -> u64
    ensures few { result ≤ 1 }
    ensures is { result ≡ cond (goes_on time (drop place (moves steps.now))) 0 1 }
{
    if goes_on(steps, place, time) { 0 } else { 1 }
}

/// How many times steps on one key have.
fn times_in(steps: &[Step]) -> u64
    ensures { result ≡ times_in (moves steps.now) }
{
    let mut count = 0;
    for place in 0..steps.len() {
        count += ends_at(steps, place + 1, steps[place].time);
    }
    count
}

/// Writes a version behind a time, as what differs from a row.
fn push_version(
    out: &mut Vec<u8>,
    at: Time,
    base: &Cells,
    time: Time,
    is_some: bool,
    row: &Cells,
) -> Result<(), OutOfMemory>
    ensures numbers { OnOk result (RowIsWide (length base.now.items) (shown is_some row.now.items) → HasNumbers (shown is_some row.now.items)) }
    ensures text { OnOk result (out.new.items ≡ out.old.items ++ (spelled (time - at) ++ row_text base.now.items (shown is_some row.now.items))) }
{
    push_number(out, time.saturating_sub(at))?;
    push_row(out, base, is_some, row)?;
    Ok(())
}

/// Writes the versions that steps on one key make. One row is changed in place, and one has the cells of the last version.
fn push_versions(out: &mut Vec<u8>, columns: u32, steps: &[Step]) -> Result<(), OutOfMemory>
    requires { columns ≤ 8 }
    ensures numbers { OnOk result (VersionsAreWide columns (made_of None (moves steps.now)) → HaveNumbers (made_of None (moves steps.now))) }
    ensures text { OnOk result (out.new.items ≡ out.old.items ++ versions_text columns 0 None (made_of None (moves steps.now))) }
{
    let mut at = 0;
    let mut is_some = false;
    let mut row = Cells::new();
    let mut base = Cells::new();
    clear(&mut base, columns);
    for place in 0..steps.len() {
        let step = steps[place];
        is_some = change(&mut row, is_some, step.act);
        if goes_on(steps, place + 1, step.time) {
            continue;
        }
        push_version(out, at, &base, step.time, is_some, &row)?;
        at = step.time;
        rebase(&mut base, columns, is_some, &row);
    }
    Ok(())
}

/// Writes the number of versions that steps on one key make, and the versions.
pub(crate) fn push_chain(out: &mut Vec<u8>, columns: u32, steps: &[Step]) -> Result<(), OutOfMemory>
    requires { columns ≤ 8 }
    ensures numbers { OnOk result (VersionsAreWide columns (made_of None (moves steps.now)) → HaveNumbers (made_of None (moves steps.now))) }
    ensures text { OnOk result (out.new.items ≡ out.old.items ++ chain_text columns (made_of None (moves steps.now))) }
{
    push_number(out, times_in(steps))?;
    push_versions(out, columns, steps)?;
    Ok(())
}
