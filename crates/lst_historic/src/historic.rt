//! A block of all versions, read as of each time up to the one at which it was built.
ghost use Rattle.std.specs.Prelude.{◌≡◌, ℕ, ◌<◌, ◌≤◌, List, ◌↔◌, IfOk, IfErr, IsErrOf, length};
ghost use Rattle.std.specs.Result.{IsErr, IsOk};
ghost use Rattle.lst_model.specs.declared.commits.Commit.{Commit};
ghost use Rattle.lst_model.specs.Tables.{row_of, sum_of, scan_of};
ghost use Rattle.lst_model.specs.Histories.{table_at};
ghost use Rattle.lst_historic.specs.declared.historic.TableRefused.TheVariants.{Late as TableLate};
ghost use Rattle.lst_historic.specs.Places.{IsBuiltAt, HasBlock, IsHeld};
ghost use Rattle.lst_historic.specs.Refusals.{IsRefusalOf};

use crate::decoding::row_in;
use crate::places::{Place, find};
use crate::sums::sum_at;
use crate::tables::table_at;
use lst_model::{Key, OutOfMemory, Row, RowList, Text, Time};
use std::alloc::Global;
use std::marker::Model;

/// A time above the one at which the block was built.
#[derive(Clone, Copy, Debug, Drop, PartialEq, Eq)]
pub struct Late {
    pub until: Time,
}

/// Why there is no table as of a time: the time is above the one at which the block was built, or memory is wanting.
#[derive(Clone, Copy, Debug, Drop, PartialEq, Eq)]
pub enum TableRefused {
    Late { until: Time },
    OutOfMemory,
}

/// A block of all versions. A contract sees its bytes.
#[derive(Drop)]
pub struct Historic {
    bytes: Text,
    columns: u32,
    until: Time,
    places: Vec<Place>,
}

impl Model for Historic {
    ghost use Rattle.std.specs.Prelude.{List, ℕ};
    ghost use Rattle.lst_historic.specs.Places.{IsHeld};

    ghost Value = { List ℕ };

    ghost view = { λ h. h.bytes };

    ghost invariant = { λ h. IsHeld h.bytes h.columns h.until h.places.items };
}

impl Historic {
    /// A block with the places of its keys.
    pub(crate) fn from_parts(bytes: Text, columns: u32, until: Time, places: Vec<Place>) -> Historic
        requires { IsHeld bytes columns until places.items }
        ensures { result ≡ bytes }
    {
        Historic {
            bytes,
            columns,
            until,
            places,
        }
    }

    /// The block.
    pub fn bytes(&self) -> &[u8]
        ensures { result.now ≡ self.now }
    {
        self.bytes.as_bytes()
    }

    /// The time at which the block was built.
    pub fn until(&self) -> Time
        ensures { IsBuiltAt self.now result }
    {
        self.until
    }

    /// The row of a key as of a time, or None where the key is absent. It takes no memory.
    pub fn row(&self, key: Key, time: Time) -> Result<Option<Row>, Late>
        ensures late { (until : ℕ) → IsBuiltAt self.now until → IsErr result ↔ (until < time) }
        ensures until { IfErr result (λ late. IsBuiltAt self.now late.until) }
        ensures row { (columns : ℕ) (history : List Commit) → HasBlock columns history self.now → IfOk result (λ row. row ≡ row_of (table_at history time) key) }
    {
        if time > self.until {
            return Err(Late { until: self.until });
        }
        Ok(row_at(
            self.bytes.as_bytes(),
            self.columns,
            self.until,
            self.places.as_slice(),
            key,
            time,
        ))
    }

    /// The numbers of a column as of a time, added over all rows. It takes no memory.
    pub fn sum(&self, column: u32, time: Time) -> Result<u128, Late>
        ensures late { (until : ℕ) → IsBuiltAt self.now until → IsErr result ↔ (until < time) }
        ensures until { IfErr result (λ late. IsBuiltAt self.now late.until) }
        ensures sum { (columns : ℕ) (history : List Commit) → HasBlock columns history self.now → IfOk result (λ total. total ≡ sum_of (table_at history time) column) }
    {
        if time > self.until {
            return Err(Late { until: self.until });
        }
        Ok(sum_at(
            self.bytes.as_bytes(),
            self.columns,
            self.until,
            self.places.as_slice(),
            column,
            time,
        ))
    }

    /// The rows of all keys as of a time, by rising key.
    pub fn table(&self, alloc: Global, time: Time) -> Result<RowList, TableRefused>
        ensures late { (until : ℕ) → IsBuiltAt self.now until → IsErrOf result (TableLate until) ↔ (until < time) }
        ensures refused { IfErr result (IsRefusalOf self.now time) }
        ensures rows { (columns : ℕ) (history : List Commit) → HasBlock columns history self.now → IfOk result (λ rows. rows ≡ scan_of (table_at history time)) }
        ensures early { (columns : ℕ) (history : List Commit) → HasBlock columns history self.now → IsOk result → time ≤ length history }
    {
        if time > self.until {
            return Err(TableRefused::Late { until: self.until });
        }
        match table_at(
            alloc,
            self.bytes.as_bytes(),
            self.columns,
            self.until,
            self.places.as_slice(),
            time,
        ) {
            Ok(rows) => Ok(rows),
            Err(OutOfMemory) => Err(TableRefused::OutOfMemory),
        }
    }
}

/// The row of a key as of a time, found by the place of its versions in a block.
fn row_at(
    bytes: &[u8],
    columns: u32,
    until: Time,
    places: &[Place],
    key: Key,
    time: Time,
) -> Option<Row>
    requires { IsHeld bytes.now columns until places.now }
    ensures { (width : ℕ) (history : List Commit) → HasBlock width history bytes.now → result ≡ row_of (table_at history time) key }
{
    match find(places, key) {
        Some(at) => row_in(columns, until, time, bytes, at),
        None => None,
    }
}
