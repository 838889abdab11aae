//! A page in hand: the words of a frame, and its 256 values. The packed words among the first don't count.
ghost use Rattle.std.specs.Prelude.{◌≡◌, ℕ, ◌^◌, ◌<◌, eqb, cond, slice_index};
ghost use Rattle.lst_bits.specs.Times.{is_present};
ghost use Rattle.lst_model.specs.Cells.{has_bit, is_to_null};
ghost use Rattle.lst_pack.specs.Forms.{IsPacked};
ghost use Rattle.lst_pages.specs.Frames.{packed_in};
ghost use Rattle.lst_merge.specs.Pages.{entry_of, AreValuesIn, AreNumbers, IsWith};

use lst_bits::{pack_time, unpack_time};
use lst_layout::{FRAME_NULLS, FRAME_TIMES, FRAME_VALUES, FRAME_WORDS};
use lst_pack::unpack;
use lst_pages::Entry;

const WORDS: usize = FRAME_WORDS as usize;

const VALUES: usize = FRAME_VALUES as usize;

const TIMES: usize = FRAME_TIMES as usize;

const NULLS: usize = FRAME_NULLS as usize;

/// Writes the values of a page that stands in the words of a frame. That of an absent entry is 0, whatever the words say.
pub fn read_values(words: &[u64; WORDS], values: &mut [u64; 256])
    requires { IsPacked (packed_in (slice_index words.now)) }
    ensures { AreValuesIn (slice_index words.now) values.new }
{
    unpack(packed_words(words), values);
    for slot in 0..256 {
        values[slot] = present_value(words[TIMES + slot], values[slot]);
    }
}

/// The words of a frame in which its values are packed.
fn packed_words(words: &[u64; WORDS]) -> &[u64]
    ensures { result.now ≡ packed_in (slice_index words.now) }
{
    &words[VALUES..TIMES]
}

/// The value, or 0 where the time word says that the entry is absent.
fn present_value(stamp: u64, value: u64) -> u64
    ensures { result ≡ cond (is_present stamp) value 0 }
{
    let (_, is_present) = unpack_time(stamp);
    if is_present { value } else { 0 }
}

/// Writes an entry into a page in hand. The value of one that is absent or null is 0.
#[inline(always)]
pub fn put_entry(words: &mut [u64; WORDS], values: &mut [u64; 256], slot: usize, entry: Entry)
    requires slot { slot < 256 }
    requires time { entry.time < 2 ^ 63 }
    requires numbers { AreNumbers (slice_index words.old) values.old }
    ensures entry { IsWith slot entry (entry_of (slice_index words.old) values.old) (entry_of (slice_index words.new) values.new) }
    ensures numbers { AreNumbers (slice_index words.new) values.new }
{
    values[slot] = entry.cell.flatten().unwrap_or(0);
    words[TIMES + slot] = pack_time(entry.time, entry.cell.is_some());
    let nulls = words[NULLS + slot / 64];
    words[NULLS + slot / 64] = with_bit(nulls, slot % 64, is_null(&entry));
}

/// The word with this bit set or cleared.
#[inline(always)]
fn with_bit(word: u64, bit: usize, is_set: bool) -> u64
    requires { bit < 64 }
    ensures { (other : ℕ) → other < 64 → has_bit result other ≡ cond (eqb bit other) is_set (has_bit word other) }
{
    let one: u64 = 1 << bit;
    if is_set {
        word | one
    } else {
        (word | one) ^ one
    }
}

/// Whether an entry is present, and null.
#[inline(always)]
fn is_null(entry: &Entry) -> bool
    ensures { result ≡ is_to_null entry.now.cell }
{
    match entry.cell {
        Some(cell) => cell.is_none(),
        None => false,
    }
}
