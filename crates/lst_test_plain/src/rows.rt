//! Rows and patches of two columns.

use arrayvec::ArrayVec;
use lst_model::{Patch, Row};

pub(crate) fn row(first: u64, second: u64) -> Row {
    let mut cells = ArrayVec::new();
    cells.push(first);
    cells.push(second);
    Row::of_numbers(cells)
}

/// None leaves a column as it is.
pub(crate) fn patch(first: Option<u64>, second: Option<u64>) -> Patch {
    let mut cells = ArrayVec::new();
    cells.push(first);
    cells.push(second);
    Patch::of_numbers(cells)
}

/// None is null.
pub(crate) fn row_of(first: Option<u64>, second: Option<u64>) -> Row {
    let mut row = Row::of_numbers(ArrayVec::new());
    row.push(first);
    row.push(second);
    row
}

/// None leaves a column as it is, and Some None makes it null.
pub(crate) fn patch_of(first: Option<Option<u64>>, second: Option<Option<u64>>) -> Patch {
    let mut patch = Patch::of_numbers(ArrayVec::new());
    patch.push(first);
    patch.push(second);
    patch
}
