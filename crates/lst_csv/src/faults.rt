//! Why records are no table.
ghost use Rattle.std.specs.Prelude.{◌≡◌};
ghost use Rattle.lst_csv.specs.FaultTexts.{table_fault_text};
ghost use Rattle.lst_csv.specs.declared.faults.TableRefusal.TheVariants as refusals;

use lst_model::OutOfMemory;
use std::alloc::{AllocError, AllocFailed};

/// What is wrong with a record.
#[derive(Clone, Copy, Debug, PartialEq, Eq)]
pub enum TableFault {
    /// The first record isn't `key` and the names of the columns, or there is none.
    BadHeader,
    /// The record has too few or too many fields.
    BadLength,
    /// The key isn't a number, or a cell is neither empty nor a number.
    BadField,
    /// A record before has the same key.
    RepeatedKey,
    /// There are more rows than a table has.
    TooManyRows,
}

impl TableFault {
    /// The fault in words, as a message about the record says it.
    pub fn text(self) -> &'static str
        ensures { result.now ≡ table_fault_text self }
    {
        match self {
            TableFault::BadHeader => "bad header",
            TableFault::BadLength => "wrong number of fields",
            TableFault::BadField => "bad field",
            TableFault::RepeatedKey => "repeated key",
            TableFault::TooManyRows => "too many rows",
        }
    }
}

/// Why bytes were not read as a table.
#[derive(Clone, Copy, Debug, PartialEq, Eq)]
pub enum TableRefusal {
    /// A record is faulty. It is the first such record, counted from 1, the header included.
    Bad { place: u64, kind: TableFault },
    /// A request for memory was refused.
    OutOfMemory,
}

impl From<AllocError> for TableRefusal {
    ghost from_gives = { λ _ refusal. refusal ≡ refusals.OutOfMemory };

    fn from(_error: AllocError) -> TableRefusal {
        TableRefusal::OutOfMemory
    }
}

impl<T: Drop> From<AllocFailed<T>> for TableRefusal {
    ghost from_gives = { λ _ refusal. refusal ≡ refusals.OutOfMemory };

    fn from(_failed: AllocFailed<T>) -> TableRefusal {
        TableRefusal::OutOfMemory
    }
}

impl From<OutOfMemory> for TableRefusal {
    ghost from_gives = { λ _ refusal. refusal ≡ refusals.OutOfMemory };

    fn from(_want: OutOfMemory) -> TableRefusal {
        TableRefusal::OutOfMemory
    }
}
