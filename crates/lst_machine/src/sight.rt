//! What a transaction of the machine sees.
ghost use Rattle.std.specs.Prelude.{◌≡◌, ℕ, IfOk, OnOk, None, false};
ghost use Rattle.std.specs.Ordering.{nat_cmp};
ghost use Rattle.std.specs.BTreeSet.{contains};
ghost use Rattle.lst_model.specs.Tables.{no_rows, applied, all_applied, row_of, scan_of};
ghost use Rattle.lst_model.specs.Histories.{replayed};

use crate::answers::list_row;
use lst_model::{Commit, Key, OutOfMemory, Row, RowList, Table, Write, apply};
use std::alloc::Global;
use std::collections::BTreeSet;

/// A table, with the keys that were written.
#[derive(Drop)]
pub(crate) struct Sight {
    alloc: Global,
    pub table: Table,
    keys: BTreeSet<Key>,
    ghost covers: { (key : ℕ) → contains nat_cmp keys key ≡ false → row_of table key ≡ None },
}

impl Sight {
    /// The empty table.
    pub fn new(alloc: Global) -> Sight
        ensures { result.table ≡ no_rows }
    {
        Sight {
            alloc,
            table: Table::new(alloc),
            keys: BTreeSet::new(alloc),
        }
    }

    /// Applies writes, in order.
    pub fn apply(&mut self, writes: &[Write]) -> Result<(), OutOfMemory>
        ensures { OnOk result (self.new.table ≡ all_applied self.old.table writes.now) }
    {
        for write in writes {
            self.apply_one(write)?;
        }
        Ok(())
    }

    /// Applies the writes of commits, in order.
    pub fn replay(&mut self, commits: &[Commit]) -> Result<(), OutOfMemory>
        ensures { OnOk result (self.new.table ≡ replayed self.old.table commits.now) }
    {
        for commit in commits {
            self.apply(commit.writes.items())?;
        }
        Ok(())
    }

    fn apply_one(&mut self, write: &Write) -> Result<(), OutOfMemory>
        ensures { OnOk result (self.new.table ≡ applied self.old.table write.now) }
    {
        self.keys.insert(write.key)?;
        apply(&mut self.table, write)
    }

    /// The row of a key, or None where the key is absent.
    pub fn row(&self, key: Key) -> Option<Row>
        ensures { result ≡ row_of self.now.table key }
    {
        self.table.row(key)
    }

    /// The keys with their rows, by rising key.
    pub fn rows(&self) -> Result<RowList, OutOfMemory>
        ensures { IfOk result (λ rows. rows ≡ scan_of self.now.table) }
    {
        let mut rows = RowList::new(self.alloc);
        for key in self.keys.iter() {
            list_row(&mut rows, *key, self.row(*key))?;
        }
        Ok(rows)
    }
}
