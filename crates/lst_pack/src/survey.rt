//! What the values of a page have in common, and the form that follows from it.
ghost use Rattle.std.specs.Prelude.{◌≡◌, ℕ, ◌+◌, ◌-◌, ◌<◌, ◌≤◌, ◌^◌, length, slice_index};
ghost use Rattle.lst_pack.specs.Counts.{runs_below, IsKnown, IsNew, IsPlace, Rises, AreKnown, AreRecent, IsLeast, IsGreatest};
ghost use Rattle.lst_pack.specs.Choices.{IsLeastWidth, IsChoice};

use crate::forms::Form;

// How many spots there are for values that were seen: more than there are distinct values in a dictionary.
pub(crate) const SPOTS: usize = 128;

// What was found of 256 values.
#[derive(Drop)]
pub(crate) struct Survey {
    // The distinct values, rising, as far as 17 of them.
    pub known: [u64; 17],
    pub distinct: usize,
    pub least: u64,
    pub greatest: u64,
}

pub(crate) fn survey_of(values: &[u64; 256]) -> Survey
    ensures known { AreKnown values.now 256 result.known result.distinct }
    ensures least { IsLeast values.now 256 result.least }
    ensures greatest { IsGreatest values.now 256 result.greatest }
{
    let mut known = [0; 17];
    let distinct = note(values, &mut known);
    let (least, greatest) = if distinct <= 16 {
        (known[0], known[distinct - 1])
    } else {
        bounds_of(values)
    };
    Survey {
        known,
        distinct,
        least,
        greatest,
    }
}

// The number of maximal runs: each place begins one, unless the value before it is the same.
pub(crate) fn runs_of(values: &[u64; 256]) -> usize
    ensures { result ≡ runs_below values.now 256 }
{
    let mut same = 0;
    for place in 1..256 {
        if values[place] == values[place - 1] {
            same += 1;
        }
    }
    256 - same
}

// Learns the values one after another, until more than 16 are known. One that was seen a short while ago is mostly found at its spot
// among the recent ones.
fn note(values: &[u64; 256], known: &mut [u64; 17]) -> usize
    ensures { AreKnown values.now 256 known.new result }
{
    let mut recent = [values[0]; SPOTS];
    let mut count = 1;
    known[0] = values[0];
    for turn in 0..16 {
        for k in 0..16 {
            let value = values[turn * 16 + k];
            let spot = spot_of(value);
            if recent[spot] != value {
                recent[spot] = value;
                count = learn(known, count, value);
                if count > 16 {
                    return count;
                }
            }
        }
    }
    count
}

// The least and the greatest value.
fn bounds_of(values: &[u64; 256]) -> (u64, u64)
    ensures least { IsLeast values.now 256 result.0 }
    ensures greatest { IsGreatest values.now 256 result.1 }
{
    let mut least = values[0];
    let mut greatest = values[0];
    for place in 1..256 {
        least = least.min(values[place]);
        greatest = greatest.max(values[place]);
    }
    (least, greatest)
}

// The spot of a value, by multiplicative hashing (Knuth, The Art of Computer Programming, volume 3, 6.4): the upper bits of its product with
// 2^64 divided by the golden ratio.
pub(crate) fn spot_of(value: u64) -> usize
    ensures { result < 128 }
{
    (value.wrapping_mul(0x9E37_79B9_7F4A_7C15) >> 57) as usize
}

// The same as `place_of`, of a value that mostly stands at the place `near`.
#[inline(always)]
pub(crate) fn place_near(known: &[u64; 17], count: usize, value: u64, near: usize) -> usize
    requires few { count ≤ 17 }
    requires rising { Rises known.now count }
    requires near { near < count }
    ensures { IsPlace known.now count value result }
{
    if known[near] == value {
        return near;
    }
    place_far(known, count, value)
}

// `place_of`, apart from the loop of those that are near.
#[inline(never)]
fn place_far(known: &[u64; 17], count: usize, value: u64) -> usize
    requires few { count ≤ 17 }
    requires rising { Rises known.now count }
    ensures { IsPlace known.now count value result }
{
    place_of(known, count, value)
}

// How many of the first `count` known values are below this one. It is looked for from the greatest on, since values often rise.
fn place_of(known: &[u64; 17], count: usize, value: u64) -> usize
    requires few { count ≤ 17 }
    requires rising { Rises known.now count }
    ensures { IsPlace known.now count value result }
{
    let mut place = count;
    while place > 0 && known[place - 1] >= value {
        place -= 1;
    }
    place
}

// Puts a value at its place among the known ones, unless it is known. Answers how many there are then.
#[inline(never)]
fn learn(known: &mut [u64; 17], count: usize, value: u64) -> usize
    requires few { count ≤ 16 }
    requires rising { Rises known.old count }
    ensures few { result ≤ 17 }
    ensures rising { Rises known.new result }
    ensures new { IsKnown known.new result value }
    ensures kept { (other : ℕ) → IsKnown known.old count other → IsKnown known.new result other }
    ensures others { (code : ℕ) → code < result → IsNew known.old count value (slice_index known.new code) }
{
    let at = place_of(known, count, value);
    if at < count && known[at] == value {
        return count;
    }
    insert(known, count, at, value);
    count + 1
}

// Moves the known values from `at` on up by one, and puts this one there.
fn insert(known: &mut [u64; 17], count: usize, at: usize, value: u64)
    requires few { count ≤ 16 }
    requires within { at ≤ count }
    ensures below { (code : ℕ) → code < at → slice_index known.new code ≡ slice_index known.old code }
    ensures here { slice_index known.new at ≡ value }
    ensures above { (code : ℕ) → at ≤ code → code < count → slice_index known.new (code + 1) ≡ slice_index known.old code }
{
    for code in (at..count).rev() {
        known[code + 1] = known[code];
    }
    known[at] = value;
}

// The least width that holds this difference: 1, 2, 4, 8, 16 or 32 bits, or 64 where none of them does.
pub(crate) fn width_of(difference: u64) -> u32
    ensures { IsLeastWidth difference result }
{
    if difference < 1 << 1 {
        1
    } else if difference < 1 << 2 {
        2
    } else if difference < 1 << 4 {
        4
    } else if difference < 1 << 8 {
        8
    } else if difference < 1 << 16 {
        16
    } else if difference < 1 << 32 {
        32
    } else {
        64
    }
}

// Of the forms that these numbers leave the one with the fewest words; on a tie the earlier one in the order constant, dictionary,
// runs, frame of reference, plain.
pub(crate) fn choose(runs: u32, distinct: usize, width: u32) -> Form
    requires runs { 1 ≤ runs }
    requires few { runs ≤ 256 }
    requires distinct { 1 ≤ distinct }
    requires seen { distinct ≤ 17 }
    ensures { IsChoice runs distinct width result }
{
    if runs == 1 {
        return Form::Constant;
    }
    let mut form = Form::Plain;
    let mut words = 257;
    if width <= 32 {
        form = Form::Reference { width };
        words = 2 + 4 * width;
    }
    if runs <= 128 && 1 + 2 * runs <= words {
        form = Form::Runs { runs };
        words = 1 + 2 * runs;
    }
    if distinct <= 16 && 17 + distinct as u32 <= words {
        form = Form::Dictionary {
            size: distinct as u32,
        };
    }
    form
}
