//! Rows and patches by their numbers and the bits of their columns: bit c stands for column c.
ghost use Rattle.std.specs.Prelude.{◌≡◌, ◌<◌, ◌≤◌, [], length, cond, Some, None};
ghost use Rattle.lst_model.specs.Cells.{has_bit, cell_of, cells_of, patched, bits_set};

use crate::rows::{Patch, Row};
use arrayvec::ArrayVec;

impl Row {
    /// The row of these numbers, in the order of the columns, where the columns of the null bits are null, whatever their numbers are.
    pub fn of_bits(nulls: u8, numbers: &[u64]) -> Row
        requires { length numbers.now ≤ 8 }
        ensures { result ≡ cells_of nulls 0 numbers.now }
    {
        let mut row = Row::of_numbers(ArrayVec::new());
        for (column, number) in numbers.iter().enumerate() {
            row.push(cell(nulls, column as u32, *number));
        }
        row
    }
}

impl Patch {
    /// The patch that sets the columns of the mask to these numbers, or to null where the null bits say so.
    pub fn of_bits(mask: u8, nulls: u8, numbers: &[u64]) -> Patch
        requires { length numbers.now ≤ 8 }
        ensures { result ≡ patched mask 0 (cells_of nulls 0 numbers.now) }
    {
        let mut patch = Patch::of_numbers(ArrayVec::new());
        patch.fill(mask, nulls, numbers);
        patch
    }

    /// Makes a patch of no column the one that sets the columns of the mask to these numbers, or to null where the null bits say so.
    #[inline(always)]
    pub fn fill(&mut self, mask: u8, nulls: u8, numbers: &[u64])
        requires few { length numbers.now ≤ 8 }
        requires none { self.old ≡ [] }
        ensures { self.new ≡ patched mask 0 (cells_of nulls 0 numbers.now) }
    {
        for (column, number) in numbers.iter().enumerate() {
            self.push(change(mask, nulls, column as u32, *number));
        }
    }

    /// The columns that the patch sets: bit c is set where it sets column c.
    #[inline(always)]
    pub fn set_bits(&self) -> u8
        ensures { result ≡ bits_set self.now }
    {
        let changes = self.numbers();
        let mut column = changes.len();
        let mut mask = 0;
        while column > 0 {
            column -= 1;
            mask = 2 * mask + changes[column].is_some() as u8;
        }
        mask
    }
}

/// The cell of a column: its number, or null.
fn cell(nulls: u8, column: u32, number: u64) -> Option<u64>
    requires { column < 8 }
    ensures { result ≡ cell_of nulls column number }
{
    if has_column(nulls, column) {
        None
    } else {
        Some(number)
    }
}

/// What a column becomes, where the mask has it.
fn change(mask: u8, nulls: u8, column: u32, number: u64) -> Option<Option<u64>>
    requires { column < 8 }
    ensures { result ≡ cond (has_bit mask column) (Some (cell_of nulls column number)) None }
{
    if has_column(mask, column) {
        Some(cell(nulls, column, number))
    } else {
        None
    }
}

/// Whether bits have the one of a column.
fn has_column(bits: u8, column: u32) -> bool
    requires { column < 8 }
    ensures { result ≡ has_bit bits column }
{
    bits >> column & 1 == 1
}
