//! Rows of each number of columns.

use arrayvec::ArrayVec;
use lst_model::Row;

/// A row of so many columns, of which each second one is null.
pub(crate) fn row(columns: usize) -> Row {
    let mut row = Row::of_numbers(ArrayVec::new());
    for column in 0..columns {
        if row.len() < 8 {
            row.push(if column % 2 == 0 {
                Some(column as u64)
            } else {
                None
            });
        }
    }
    row
}
