//! The words of a frame as a page.
ghost use Rattle.std.specs.Prelude.{◌≡◌, ◌<◌, ℕ, List, length, slice_index, slice_index_or, IsTrue, ◌↔◌};
ghost use Rattle.lst_pack.specs.Forms.{Packs, IsPacked};
ghost use Rattle.lst_pages.specs.Entries.{blank};
ghost use Rattle.lst_pages.specs.Frames as frame;
ghost use Rattle.lst_pages.specs.Pages.{IsRightPage};

use crate::entries::{Entry, fold_tails};
use crate::tails::PageTail;
use lst_bits::unpack_time;
use lst_layout::{FRAME_NULLS, FRAME_TIMES, FRAME_VALUES, FRAME_WORDS, RANGE_RECORDS};
use lst_pack::{get, is_packed, unpack};

const RECORDS: usize = RANGE_RECORDS as usize;

const VALUES: usize = FRAME_VALUES as usize;

const TIMES: usize = FRAME_TIMES as usize;

const NULLS: usize = FRAME_NULLS as usize;

/// The entry of the record at a slot, by the words of a frame, whose values begin with a page in one of the packed forms.
pub fn entry_in(words: &[u64], slot: usize) -> Entry
    requires words { length words.now ≡ FRAME_WORDS }
    requires packed { IsPacked (frame.packed_in (slice_index words.now)) }
    requires slot { slot < RANGE_RECORDS }
    ensures { (values : List ℕ) → Packs (frame.packed_in (slice_index words.now)) values → result ≡ frame.entry_in (slice_index words.now) (slice_index values slot) slot }
{
    entry_with(words, get(packed_words(words), slot), slot)
}

/// Whether the words of a frame are a right page of a column, over the settled tails of its range, oldest first. It goes
/// once over the tails up to the page's TPS.
pub fn is_right(tails: &[PageTail], column: u32, words: &[u64]) -> bool
    requires column { column < 8 }
    requires words { length words.now ≡ FRAME_WORDS }
    ensures { IsTrue result ↔ IsRightPage column tails.now (slice_index words.now) }
{
    let tps = words[0];
    if tps > tails.len() as u64 {
        return false;
    }
    let mut entries = [Entry::blank(); RECORDS];
    fold_tails(&mut entries, column, &tails[..tps as usize]);
    has_entries(words, &entries)
}

/// Whether the words of a frame say these entries.
fn has_entries(words: &[u64], entries: &[Entry]) -> bool
    requires words { length words.now ≡ FRAME_WORDS }
    requires entries { length entries.now ≡ RANGE_RECORDS }
    ensures { IsTrue result ↔ frame.HasEntries (slice_index words.now) (λ i. slice_index_or entries.now i blank) }
{
    if !is_packed(packed_words(words)) {
        return false;
    }
    let mut values = [0; RECORDS];
    unpack(packed_words(words), &mut values);
    for (slot, entry) in entries.iter().enumerate() {
        if !is_entry(words, values[slot], slot, entry) {
            return false;
        }
    }
    true
}

/// Whether the words of a frame with this value say this entry, and the value is the number of its cell.
fn is_entry(words: &[u64], value: u64, slot: usize, entry: &Entry) -> bool
    requires words { length words.now ≡ FRAME_WORDS }
    requires slot { slot < RANGE_RECORDS }
    ensures { IsTrue result ↔ frame.IsEntry (slice_index words.now) value slot entry.now }
{
    let is_number = match entry.cell {
        Some(cell) => cell.unwrap_or(0) == value,
        None => true,
    };
    is_number && entry_with(words, value, slot) == *entry
}

/// The entry of the record at a slot with this value, by the words of a frame.
fn entry_with(words: &[u64], value: u64, slot: usize) -> Entry
    requires words { length words.now ≡ FRAME_WORDS }
    requires slot { slot < RANGE_RECORDS }
    ensures { result ≡ frame.entry_in (slice_index words.now) value slot }
{
    let (time, is_present) = unpack_time(words[TIMES + slot]);
    let is_null = words[NULLS + slot / 64] >> (slot % 64) & 1 == 1;
    let cell = if !is_present {
        None
    } else if is_null {
        Some(None)
    } else {
        Some(Some(value))
    };
    Entry { cell, time }
}

/// The words of a frame in which its values are packed.
fn packed_words(words: &[u64]) -> &[u64]
    requires { length words.now ≡ FRAME_WORDS }
    ensures { result.now ≡ frame.packed_in (slice_index words.now) }
{
    &words[VALUES..TIMES]
}
