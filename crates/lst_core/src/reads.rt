//! Words of a sound state, read off the row of all words.
ghost use Rattle.std.specs.Prelude.{◌≡◌, ◌+◌, ◌-◌, ◌*◌, ◌/◌, ◌%◌, ◌<◌, ◌≤◌, length, slice_index, ◌↔◌, IsTrue};
ghost use Rattle.lst_layout.specs.Addresses as addresses;
ghost use Rattle.lst_layout.specs.Areas.{words_of};
ghost use Rattle.lst_layout.specs.Words.{shown};
ghost use Rattle.lst_layout.specs.declared.place.Place.TheVariants.{LogWord, StateWord, KeyWord, IndexWord, HeadWord, CellWord, PostingWord};
ghost use Rattle.lst_core_state.specs.Cells.{tail_count};
ghost use Rattle.lst_core_state.specs.State.{writer_at, state_at};
ghost use Rattle.lst_core_state.specs.Step.{IsCommitted};
ghost use Rattle.lst_core.specs.Reading.{IsRead};

use lst_layout::Layout;

/// The number of commits.
pub(crate) fn clock(layout: &Layout, words: &[u64]) -> u64
    requires wide { length words.now ≡ words_of layout.now.limits }
    ensures { result ≡ (shown layout.now.limits words.now).clock }
{
    words[layout.clock() as usize]
}

/// The log word of a time.
pub(crate) fn log(layout: &Layout, words: &[u64], time: u64) -> u64
    requires wide { length words.now ≡ words_of layout.now.limits }
    requires place { addresses.IsWithin layout.now.limits (LogWord time) }
    ensures { result ≡ (shown layout.now.limits words.now).log time }
{
    words[layout.log(time) as usize]
}

/// The state word of a transaction.
pub(crate) fn state(layout: &Layout, words: &[u64], session: u32, number: u32) -> u64
    requires wide { length words.now ≡ words_of layout.now.limits }
    requires place { addresses.IsWithin layout.now.limits (StateWord session number) }
    ensures { result ≡ (shown layout.now.limits words.now).states session number }
{
    words[layout.transactions(session, number, 1) as usize]
}

/// The key word of a record.
pub(crate) fn key(layout: &Layout, words: &[u64], rec: u32) -> u64
    requires wide { length words.now ≡ words_of layout.now.limits }
    requires place { addresses.IsWithin layout.now.limits (KeyWord rec) }
    ensures { result ≡ (shown layout.now.limits words.now).keys rec }
{
    words[layout.keys(rec) as usize]
}

/// The word at a position of the index.
pub(crate) fn index(layout: &Layout, words: &[u64], position: u32) -> u64
    requires wide { length words.now ≡ words_of layout.now.limits }
    requires place { addresses.IsWithin layout.now.limits (IndexWord position) }
    ensures { result ≡ (shown layout.now.limits words.now).index position }
{
    words[layout.index(position) as usize]
}

/// The indirection word of a record.
pub(crate) fn head(layout: &Layout, words: &[u64], rec: u32) -> u64
    requires wide { length words.now ≡ words_of layout.now.limits }
    requires place { addresses.IsWithin layout.now.limits (HeadWord rec) }
    ensures { result ≡ (shown layout.now.limits words.now).heads rec }
{
    words[layout.indirection(rec) as usize]
}

/// A word of a tail.
pub(crate) fn cell(layout: &Layout, words: &[u64], tail: u32, place: u32) -> u64
    requires wide { length words.now ≡ words_of layout.now.limits }
    requires place { addresses.IsWithin layout.now.limits (CellWord tail place) }
    ensures { result ≡ (shown layout.now.limits words.now).cells tail place }
{
    words[layout.cell_address(tail, place) as usize]
}

/// The word at a position of a column's postings.
pub(crate) fn posting(layout: &Layout, words: &[u64], column: u32, position: u32) -> u64
    requires wide { length words.now ≡ words_of layout.now.limits }
    requires place { addresses.IsWithin layout.now.limits (PostingWord column position) }
    ensures { result ≡ (shown layout.now.limits words.now).postings column position }
{
    words[layout.postings(column, position) as usize]
}
