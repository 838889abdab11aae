//! Entries of a page.
ghost use Rattle.std.specs.Prelude.{◌≡◌, ◌<◌, ℕ, length, slice_index_or};
ghost use Rattle.lst_pages.specs.Tails.{touches};
ghost use Rattle.lst_pages.specs.Entries.{blank, folded};

use crate::tails::PageTail;
use lst_layout::RANGE_RECORDS;

/// What a page says of one record.
#[derive(Clone, Copy, PartialEq, Eq, Debug)]
pub struct Entry {
    /// The record's cell in the page's column, where the record is present: a number, or None for null.
    pub cell: Option<Option<u64>>,
    /// The time of the last commit that touched the column, or 0 where there is none.
    pub time: u64,
}

impl Entry {
    /// The entry of a record that no tail has touched.
    pub fn blank() -> Entry
        ensures { result ≡ blank }
    {
        Entry {
            cell: None,
            time: 0,
        }
    }
}

/// Folds tails into the entries of a column, oldest first: each one that is committed and touches the column makes its
/// record's entry anew.
pub fn fold_tails(entries: &mut [Entry], column: u32, tails: &[PageTail])
    requires column { column < 8 }
    requires entries { length entries.old ≡ RANGE_RECORDS }
    ensures { (i : ℕ) → i < RANGE_RECORDS → slice_index_or entries.new i blank ≡ folded (touches column i) column (slice_index_or entries.old i blank) tails.now }
{
    for tail in tails {
        if tail.touches(column) {
            entries[tail.slot as usize] = tail.entry(column);
        }
    }
}
