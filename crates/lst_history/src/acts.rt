//! What a tail record does to the row of its record.
ghost use Rattle.std.specs.Prelude.{◌≡◌, ◌<◌, ◌≤◌};
ghost use Rattle.lst_core_state.specs.Cells.{tail_count, listed, act_with};
ghost use Rattle.lst_model.specs.Cells.{cells_of};
ghost use Rattle.lst_bits.specs.Encodings.{kind_code};
ghost use Rattle.lst_history.specs.Peeks.{words_in, IsReader, Reads};

use crate::words::cell_word;
use arrayvec::ArrayVec;
use lst_bits::{Encoding, Kind};
use lst_model::{Act, Patch, Row};
use lst_rule::{Seat, Store};

/// What a tail record with this encoding does.
pub(crate) fn act(store: &Store, seat: &mut Seat, s: u32, tail: u32, encoding: Encoding) -> Act
    requires reader { IsReader store.now seat.old s }
    requires tail { (0 < tail) × (tail ≤ tail_count seat.old.view.limits) }
    ensures reads { Reads store.now seat.old seat.new s }
    ensures act { result ≡ act_with (kind_code encoding.kind) encoding.mask (cells_of encoding.nulls 0 (listed ((words_in seat.old.view).cells tail) 3 seat.old.view.limits.columns)) }
{
    match encoding.kind {
        Kind::Put => {
            let values = values(store, seat, s, tail);
            Act::Put(Row::of_bits(encoding.nulls, values.as_slice()))
        }
        Kind::Set => {
            let values = values(store, seat, s, tail);
            Act::Set(Patch::of_bits(encoding.mask, encoding.nulls, values.as_slice()))
        }
        Kind::Del => Act::Del,
    }
}

/// The value words of a tail record.
fn values(store: &Store, seat: &mut Seat, s: u32, tail: u32) -> ArrayVec<u64, 8>
    requires reader { IsReader store.now seat.old s }
    requires tail { (0 < tail) × (tail ≤ tail_count seat.old.view.limits) }
    ensures reads { Reads store.now seat.old seat.new s }
    ensures values { result.items ≡ listed ((words_in seat.old.view).cells tail) 3 seat.old.view.limits.columns }
{
    seat.consider();
    let columns = seat.limits().columns;
    let mut cells = ArrayVec::new();
    for column in 0..columns {
        cells.push(cell_word(store, seat, s, tail, 3 + column));
    }
    cells
}
