//! Sums over all keys of a block.
ghost use Rattle.std.specs.Prelude.{◌≡◌, ℕ, List, slice_index};
ghost use Rattle.lst_model.specs.declared.commits.Commit.{Commit};
ghost use Rattle.lst_model.specs.Tables.{sum_of};
ghost use Rattle.lst_model.specs.Histories.{table_at};
ghost use Rattle.lst_historic.specs.Places.{HasBlock, IsHeld};
ghost use Rattle.lst_historic.specs.Tabled.{number_in};

use crate::decoding::row_in;
use crate::places::Place;
use lst_model::{Row, Time};

/// The number of a column, which is 0 where there is no row or no number.
fn number_in(row: &Option<Row>, column: u32) -> u64
    ensures { result ≡ number_in column row.now }
{
    match row {
        Some(row) => number_at(row.numbers(), column as usize),
        None => 0,
    }
}

/// The number at a place, which is 0 past the end.
fn number_at(numbers: &[u64], place: usize) -> u64
    ensures { result ≡ slice_index numbers.now place }
{
    if place < numbers.len() {
        numbers[place]
    } else {
        0
    }
}

/// The numbers of a column as of a time, added over all keys.
pub(crate) fn sum_at(
    bytes: &[u8],
    columns: u32,
    until: Time,
    places: &[Place],
    column: u32,
    time: Time,
) -> u128
    requires { IsHeld bytes.now columns until places.now }
    ensures { (width : ℕ) (history : List Commit) → HasBlock width history bytes.now → result ≡ sum_of (table_at history time) column }
{
    let mut total = 0u128;
    for index in 0..places.len() {
        let row = row_in(columns, until, time, bytes, places[index].at);
        total += u128::from(number_in(&row, column));
    }
    total
}
