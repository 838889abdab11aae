//! Sums and counts over a page's words, against a plain loop and at the greatest values.
ghost use Rattle.std.specs.Prelude.{◌<◌, ◌≤◌, ◌^◌};

use crate::same::same;
use lst_kernel::{count_seen, count_where, sum_all, sum_seen, sum_where};

/// The time word of an entry that is present.
fn present(time: u64) -> u64
    requires { time < 2 ^ 63 }
{
    2 * time + 1
}

#[test]
fn a_page_of_fives_at_time_1_is_seen_from_1_on(rt: HostRuntime) {
    let times = [present(1); 256];
    for (begin, wanted) in [(1, (1280, 256)), (0, (0, 0))] {
        let sum = sum_where(&[5; 256], &times, begin);
        same(&rt, (sum, count_where(&times, begin)), wanted, begin);
    }
}

#[test]
fn the_greatest_sum_is_256_greatest_words(rt: HostRuntime) {
    let times = [present(0); 256];
    let sum = sum_where(&[u64::MAX; 256], &times, 0);
    same(&rt, sum, 256 * 18_446_744_073_709_551_615, "the sum");
}

#[test]
fn absent_entries_are_left_out_at_any_begin(rt: HostRuntime) {
    for word in [0, 2, u64::MAX - 1, 1 << 63] {
        for begin in [0, 1, (1 << 62) - 1, (1 << 63) - 1, 1 << 63, u64::MAX] {
            let times = [word; 256];
            let sum = sum_where(&[u64::MAX; 256], &times, begin);
            let found = (sum, count_where(&times, begin));
            same(&rt, found, (0, 0), (word, begin));
        }
    }
}

#[test]
fn a_time_of_the_begin_is_seen_and_one_above_is_not(rt: HostRuntime) {
    for time in [0, 1, 1 << 31, (1 << 62) - 1, 1 << 62, (1 << 63) - 1] {
        let times = [present(time); 256];
        for begin in [time, u64::MAX] {
            same(&rt, count_where(&times, begin), 256, (time, begin));
        }
        if time > 0 {
            same(&rt, count_where(&times, time - 1), 0, (time, time - 1));
        }
    }
}

/// A number from a seed, which moves on.
fn drawn(seed: &mut u64) -> u64 {
    *seed = seed
        .wrapping_mul(6364136223846793005)
        .wrapping_add(1442695040888963407);
    *seed >> 33 ^ *seed << 20
}

/// The words of a page, of some number of bits.
fn drawn_words(seed: &mut u64, bits: u32) -> [u64; 256]
    requires { (0 < bits) × (bits ≤ 64) }
{
    let mut words = [0; 256];
    for word in words.iter_mut() {
        *word = drawn(seed) >> (64 - bits);
    }
    words
}

/// What a plain loop adds and counts.
fn added_plainly(values: &[u64], times: &[u64], begin: u64) -> (u128, u32) {
    let mut total = 0u128;
    let mut count = 0u32;
    for (value, word) in values.iter().zip(times) {
        if *word & 1 == 1 && *word >> 1 <= begin {
            total = total.wrapping_add(u128::from(*value));
            count = count.wrapping_add(1);
        }
    }
    (total, count)
}

#[test]
fn drawn_pages_come_to_what_a_plain_loop_adds(rt: HostRuntime) {
    let mut seed = 1;
    for bits in 1..65 {
        let values = drawn_words(&mut seed, 64);
        let times = drawn_words(&mut seed, bits);
        for begin in [0, drawn(&mut seed) >> (64 - bits) >> 1, u64::MAX] {
            let sum = sum_where(&values, &times, begin);
            let wanted = added_plainly(&values, &times, begin);
            same(
                &rt,
                (sum, count_where(&times, begin)),
                wanted,
                (bits, begin),
            );
        }
    }
}

#[test]
fn a_rest_of_up_to_seven_entries_is_counted(rt: HostRuntime) {
    let values = [1 << 40; 23];
    let times = [present(3); 23];
    for long in 0..24 {
        let sum = sum_seen(&values[..long], &times[..long], 3);
        let found = (sum, count_seen(&times[..long], 3));
        same(&rt, found, (long as u128 * (1 << 40), long as u32), long);
    }
}

/// The value words and the time words of a page whose entries were written at the times 0 to 255. Each is present but
/// the first of each sixteen.
fn page() -> ([u64; 256], [u64; 256]) {
    let mut values = [0; 256];
    let mut times = [0; 256];
    let mut word = 0u64;
    for value in values.iter_mut() {
        word = word.wrapping_add(0x9e37_79b9_7f4a_7c15);
        *value = word;
    }
    let mut time = 0u64;
    for stamp in times.iter_mut() {
        *stamp = time.wrapping_mul(2) | (time % 16 != 0) as u64;
        time = time.wrapping_add(1);
    }
    (values, times)
}

// The instructions of these two are counted.
#[inline(never)]
fn sum_of_page(values: &[u64; 256], times: &[u64; 256], begin: u64) -> u128 {
    sum_where(values, times, begin)
}

#[inline(never)]
fn count_of_page(times: &[u64; 256], begin: u64) -> u32 {
    count_where(times, begin)
}

#[test]
fn a_page_written_over_256_times_comes_to_more_with_each_begin(rt: HostRuntime) {
    let (values, times) = page();
    for (begin, wanted) in [
        (0, (0, 0)),
        (1, (4_354_685_564_936_845_354, 1)),
        (100, (876_357_179_779_209_390_696, 94)),
        (255, (2_219_738_988_732_810_668_976, 240)),
    ] {
        let sum = sum_of_page(&values, &times, begin);
        same(&rt, (sum, count_of_page(&times, begin)), wanted, begin);
    }
}

// The instructions of this one are counted.
#[inline(never)]
fn sum_of_all(values: &[u64; 256]) -> u128 {
    sum_all(values)
}

#[test]
fn all_values_are_added(rt: HostRuntime) {
    let mut values = [0; 256];
    let mut next = 0u64;
    for value in values.iter_mut() {
        *value = next;
        next = next.wrapping_add(1);
    }
    same(&rt, sum_of_all(&values), 32_640, "0 to 255");
    for (greatest, sum) in [
        ((1 << 56) - 1, 72_057_594_037_960_320),
        (1 << 56, 72_057_594_037_960_321),
        (1 << 63, 9_223_372_036_854_808_193),
    ] {
        values[255] = greatest;
        same(&rt, sum_of_all(&values), sum, greatest);
    }
    for (value, sum) in [
        ((1 << 56) - 1, 18_446_744_073_709_551_360),
        (1 << 56, 18_446_744_073_709_551_616),
        (u64::MAX, 256 * 18_446_744_073_709_551_615),
    ] {
        same(&rt, sum_of_all(&[value; 256]), sum, value);
    }
}
