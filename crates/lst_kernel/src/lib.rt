//! Sums and counts over the entries of a page, by lanes. No word of a store is touched.
#![tactic(auto)]

ghost use Rattle.std.specs.Prelude.{◌≡◌, ◌≢◌, ◌<◌, ◌≤◌, ◌+◌, ◌*◌, ◌%◌, ◌^◌, ℕ, IfSome, None, length, slice_index, sum, count_by};
ghost use Rattle.std.specs.Simd.Lanes.{zip2};
ghost use Rattle.lst_kernel.specs.Entries.{is_seen, seen_values, lane_of};

use std::simd::prelude::*;

/// How many entries the lanes take at once.
const LANES: usize = 8;

/// The greatest time that a time word can tell.
const LAST_TIME: u64 = u64::MAX / 2;

/// The sum of the values of a page's entries that are present with a time of at most `begin`, where `values` has the
/// entries' value words and `times` their time words.
pub fn sum_where(values: &[u64; 256], times: &[u64; 256], begin: u64) -> u128
    ensures { result ≡ sum (seen_values begin values.now times.now) }
{
    sum_seen(values, times, begin)
}

/// The sum of all values of a page, of entries that are present and of others.
pub fn sum_all(values: &[u64; 256]) -> u128
    ensures { result ≡ sum values.now }
{
    match sum_narrow(values) {
        Some(total) => u128::from(total),
        None => sum_all_by_lanes(values),
    }
}

/// How many of a page's entries are present with a time of at most `begin`, where `times` has the entries' time words.
pub fn count_where(times: &[u64; 256], begin: u64) -> u32
    ensures { result ≡ count_by (is_seen begin) times.now }
{
    count_seen(times, begin)
}

/// The sum as `sum_where` answers it, for any number of entries up to a page's 256.
pub fn sum_seen(values: &[u64], times: &[u64], begin: u64) -> u128
    requires long { length values.now ≡ length times.now }
    requires few { length values.now ≤ 256 }
    ensures { result ≡ sum (seen_values begin values.now times.now) }
{
    let whole = values.len() / LANES * LANES;
    sum_by_lanes(&values[..whole], &times[..whole], begin)
        + sum_one_by_one(&values[whole..], &times[whole..], begin)
}

/// The count as `count_where` answers it, for any number of entries up to a page's 256.
pub fn count_seen(times: &[u64], begin: u64) -> u32
    requires { length times.now ≤ 256 }
    ensures { result ≡ count_by (is_seen begin) times.now }
{
    let whole = times.len() / LANES * LANES;
    count_by_lanes(&times[..whole], begin) + count_one_by_one(&times[whole..], begin)
}

/// The sum where the lanes take all entries. The lanes add what is left of the sum in 64 bits, and the upper halves
/// of the values besides: together they tell the whole sum.
fn sum_by_lanes(values: &[u64], times: &[u64], begin: u64) -> u128
    requires long { length values.now ≡ length times.now }
    requires few { (n : ℕ) × (n ≤ 32) × (length values.now ≡ n * 8) }
    ensures { result ≡ sum (seen_values begin values.now times.now) }
{
    let mut sums = u64x8::splat(0);
    let mut high_halves = u64x8::splat(0);
    let mut at = 0;
    while at + LANES <= values.len() {
        let seen = seen_lanes(
            u64x8::from_slice(&values[at..]),
            u64x8::from_slice(&times[at..]),
            begin,
        );
        sums += seen;
        high_halves = high_halves.strict_add(seen >> u64x8::splat(32));
        at += LANES;
    }
    sum_from(sums.reduce_sum(), high_halves.strict_reduce_sum())
}

/// The sum of all values of a page, added in 64 bits. None comes where a value has more than 56 bits, since 256 of those may be too much.
fn sum_narrow(values: &[u64]) -> Option<u64>
    requires { length values.now ≡ 256 }
    ensures sum { IfSome result (λ total. total ≡ sum values.now) }
    ensures none { ((i : ℕ) → i < 256 → slice_index values.now i < 2 ^ 56) → result ≢ None }
{
    let mut sums = u64x8::splat(0);
    let mut bits = u64x8::splat(0);
    let mut at = 0;
    while at + LANES <= values.len() {
        let lanes = u64x8::from_slice(&values[at..]);
        sums += lanes;
        bits |= lanes;
        at += LANES;
    }
    if bits.reduce_or() < 1 << 56 {
        Some(sums.reduce_sum())
    } else {
        None
    }
}

/// The sum of all values of a page, in the two parts in which `sum_by_lanes` keeps it.
fn sum_all_by_lanes(values: &[u64]) -> u128
    requires { length values.now ≡ 256 }
    ensures { result ≡ sum values.now }
{
    let mut sums = u64x8::splat(0);
    let mut high_halves = u64x8::splat(0);
    let mut at = 0;
    while at + LANES <= values.len() {
        let lanes = u64x8::from_slice(&values[at..]);
        sums += lanes;
        high_halves = high_halves.strict_add(lanes >> u64x8::splat(32));
        at += LANES;
    }
    sum_from(sums.reduce_sum(), high_halves.strict_reduce_sum())
}

/// The number that is `high` times 2^32 and a rest below 2^64, where `low` is what is left of it in 64 bits.
fn sum_from(low: u64, high: u64) -> u128
    ensures { (rest : ℕ) → rest < 2 ^ 64 → low ≡ (high * 2 ^ 32 + rest) % 2 ^ 64 → result ≡ high * 2 ^ 32 + rest }
{
    let rest = low.wrapping_sub(high.wrapping_mul(1 << 32));
    u128::from(high) * (1 << 32) + u128::from(rest)
}

/// The sum by a plain loop, for a rest that is too short for the lanes.
fn sum_one_by_one(values: &[u64], times: &[u64], begin: u64) -> u128
    requires long { length values.now ≡ length times.now }
    requires few { length values.now ≤ 256 }
    ensures { result ≡ sum (seen_values begin values.now times.now) }
{
    let mut total = 0u128;
    for at in 0..values.len() {
        if is_word_seen(times[at], begin) {
            total += u128::from(values[at]);
        }
    }
    total
}

/// The count where the lanes take all entries.
fn count_by_lanes(times: &[u64], begin: u64) -> u32
    requires { (n : ℕ) × (n ≤ 32) × (length times.now ≡ n * 8) }
    ensures { result ≡ count_by (is_seen begin) times.now }
{
    let mut counts = u64x8::splat(0);
    let mut at = 0;
    while at + LANES <= times.len() {
        let seen = seen_lanes(u64x8::splat(1), u64x8::from_slice(&times[at..]), begin);
        counts = counts.strict_add(seen);
        at += LANES;
    }
    counts.strict_reduce_sum() as u32
}

/// The count by a plain loop, for a rest that is too short for the lanes.
fn count_one_by_one(times: &[u64], begin: u64) -> u32
    requires { length times.now ≤ 256 }
    ensures { result ≡ count_by (is_seen begin) times.now }
{
    let mut count = 0;
    for word in times {
        if is_word_seen(*word, begin) {
            count += 1;
        }
    }
    count
}

/// The values where the entry is present with a time of at most `begin`, and 0 elsewhere.
fn seen_lanes(values: u64x8, times: u64x8, begin: u64) -> u64x8
    ensures { result ≡ zip2 (lane_of begin) values times }
{
    // The time, and above every time where the entry is absent: the lowest bit goes to the top, and is turned there.
    let absent_last = (times >> u64x8::splat(1))
        + (times << u64x8::splat(63))
        + u64x8::splat(1 << 63);
    absent_last
        .simd_le(u64x8::splat(begin.min(LAST_TIME)))
        .select(values, u64x8::splat(0))
}

/// Whether a time word is of an entry that is present with a time of at most `begin`.
fn is_word_seen(word: u64, begin: u64) -> bool
    ensures { result ≡ is_seen begin word }
{
    word % 2 == 1 && word / 2 <= begin
}
