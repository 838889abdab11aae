//! Settled tails.
ghost use Rattle.std.specs.Prelude.{◌≡◌, ◌<◌, nat_lt, ◌&&◌};
ghost use Rattle.lst_pages.specs.Tails.{touches_column};
ghost use Rattle.lst_pages.specs.Entries.{entry_by};
ghost use Rattle.lst_pages.specs.Rows.{cell_at};

use crate::entries::Entry;
use lst_bits::{Kind, has_column};
use lst_model::Row;

/// A tail record of a range, once its transaction is closed or committed.
#[derive(Debug, Drop, PartialEq, Eq)]
pub struct PageTail {
    /// The record's slot in the range.
    pub slot: u8,
    pub kind: Kind,
    /// Bit c is set where a set holds column c.
    pub mask: u8,
    /// The cell of each column, a number or null; those that a set does not hold are not read.
    pub values: Row,
    /// The time of the commit, or 0 where the transaction was closed.
    pub time: u64,
}

impl PageTail {
    /// Whether the tail is committed and touches this column: a put and a delete touch every column.
    pub fn touches(&self, column: u32) -> bool
        requires { column < 8 }
        ensures { result ≡ (nat_lt 0 self.now.time && touches_column column self.now.kind self.now.mask) }
    {
        self.time > 0
            && match self.kind {
                Kind::Put | Kind::Del => true,
                Kind::Set => has_column(self.mask, column),
            }
    }

    /// What the tail makes of its record's entry in this column, which it touches.
    pub fn entry(&self, column: u32) -> Entry
        ensures { result ≡ entry_by column self.now }
    {
        let cell = match self.kind {
            Kind::Put | Kind::Set => Some(self.cell(column)),
            Kind::Del => None,
        };
        Entry {
            cell,
            time: self.time,
        }
    }

    /// The cell that the tail holds of this column, null where it has no such column.
    fn cell(&self, column: u32) -> Option<u64>
        ensures { result ≡ cell_at column self.now.values }
    {
        if column < self.values.len() as u32 {
            self.values.cell(column)
        } else {
            None
        }
    }
}
