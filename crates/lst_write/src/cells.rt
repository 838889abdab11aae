//! The words of an act in a tail.
ghost use Rattle.std.specs.Prelude.{◌≡◌, ◌+◌, ◌<◌, ◌≤◌};
ghost use Rattle.lst_write.specs.Cells as cells;
ghost use Rattle.lst_write.specs.Cells.{IsActFor};

use lst_bits::{Encoding, Kind, full_mask, pack_encoding};
use lst_model::{Act, Patch};
use lst_rule::RecordId;

/// The encoding word of an act on a record, with the bits of the columns that it makes null.
pub(crate) fn encoding(columns: u32, rec: RecordId, act: &Act) -> u64
    requires columns { columns ≤ 8 }
    requires act { IsActFor columns act.now }
    ensures { result ≡ cells.encoding_of columns rec.number act.now }
{
    let slot = (rec.number % 256) as u8;
    match act {
        Act::Put(row) => pack_encoding(Encoding {
            mask: full_mask(columns),
            kind: Kind::Put,
            slot,
            nulls: row.nulls(),
        }),
        Act::Set(patch) => pack_encoding(Encoding {
            mask: patch.set_bits(),
            kind: Kind::Set,
            slot,
            nulls: patch.nulls(),
        }),
        Act::Del => pack_encoding(Encoding {
            mask: 0,
            kind: Kind::Del,
            slot,
            nulls: 0,
        }),
    }
}

/// The number that an act has for a column, which is 0 where it leaves the column as it is or makes it null.
fn value(columns: u32, act: &Act, column: u32) -> u64
    requires act { IsActFor columns act.now }
    requires column { column < columns }
    ensures { result ≡ cells.value_of act.now column }
{
    let _ = columns;
    let column = column as usize;
    match act {
        Act::Put(row) => row.numbers()[column],
        Act::Set(patch) => patch.numbers()[column].unwrap_or(0),
        Act::Del => 0,
    }
}

/// The word at a place of a tail, but the start word.
pub(crate) fn cell_word(columns: u32, encoding: u64, head: u32, act: &Act, place: u32) -> u64
    requires act { IsActFor columns act.now }
    requires place { (0 < place) × (place < 3 + columns) }
    ensures { result ≡ cells.cell_word encoding head act.now place }
{
    match place {
        1 => encoding,
        2 => head as u64,
        _ => value(columns, act, place - 3),
    }
}
