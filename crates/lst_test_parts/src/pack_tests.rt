//! Pages of 256 values at the edges of each form, read back by each reader.
ghost use Rattle.std.specs.Prelude.{◌<◌};
ghost use Rattle.lst_pack.specs.Forms.{IsPacked};

use crate::same::same;
use lst_pack::{Words, get, get_from, pack, packed_words, unpack};
use std::process::Abort;

// Words of a page that are loaded one by one.
#[derive(Drop)]
struct Loaded {
    page: [u64; 257],
}

impl Words for Loaded {
    ghost use Rattle.std.specs.Prelude.{◌≡◌, refl};

    ghost words = { λ s. s.page };

    ghost later = { λ one other. other ≡ one };

    fn word(&mut self, place: u32) -> u64 {
        self.page[place as usize]
    }

    ghost later_same = { λ one. refl };

    ghost later_on = { λ one other third a b. Prim.cc };
}

fn loaded_value(page: [u64; 257], place: u32) -> u64
    requires place { place < 256 }
    requires packed { IsPacked page }
{
    get_from(&mut Loaded { page }, place)
}

// Packs the values into words of which all bits are set, and reads them back by each of the three readers. Tells how many words
// they take, and the first three.
fn packed(rt: &impl Abort, values: &[u64; 256]) -> (usize, [u64; 3]) {
    let mut words = [u64::MAX; 257];
    let count = pack(values, &mut words);
    let mut read = [0; 256];
    unpack(&words, &mut read);
    for place in 0..256 {
        let loaded = loaded_value(words, place as u32);
        same(
            rt,
            [get(&words, place), loaded, read[place]],
            [values[place]; 3],
            place,
        );
    }
    (count, [words[0], words[1], words[2]])
}

// At each place `base` and `step` times the place modulo `count`.
fn counted(base: u64, step: u64, count: u64) -> [u64; 256]
    requires { 0 < count }
{
    let mut values = [0; 256];
    for place in 0..256 {
        values[place] = (place as u64 % count).wrapping_mul(step).wrapping_add(base);
    }
    values
}

// The value at each place is drawn from `base` to `base + top`; the first is `base` and the second `base + top`.
fn drawn(base: u64, top: u64) -> [u64; 256] {
    let span = if top < u64::MAX { top + 1 } else { top };
    let mut values = [base; 256];
    let mut state: u64 = 7;
    for place in 2..256 {
        state = state
            .wrapping_mul(6364136223846793005)
            .wrapping_add(1442695040888963407);
        values[place] = base.wrapping_add((state >> 31) % span);
    }
    values[1] = base.wrapping_add(top);
    values
}

// Two runs: 3 at the first 200 places, and 9 at the rest.
fn two_runs() -> [u64; 256] {
    let mut values = [3; 256];
    for place in 200..256 {
        values[place] = 9;
    }
    values
}

#[test]
fn values_take_the_words_that_are_known(rt: HostRuntime) {
    let (count, [first, second, _]) = packed(&rt, &[5; 256]);
    same(&rt, (count, first, second), (2, 1, 5), "fives");

    let two = two_runs();
    same(&rt, packed(&rt, &two), (5, [19, 3, 200]), "two runs");
    let mut words = [0; 257];
    let _ = pack(&two, &mut words);
    same(
        &rt,
        (words[3], words[4], words[5]),
        (9, 256, 0),
        "the second run",
    );

    let differences = (34, [68, 100, 506_097_522_914_230_528]);
    same(
        &rt,
        packed(&rt, &counted(100, 1, 17)),
        differences,
        "differences",
    );
    let (count, [first, ..]) = packed(&rt, &counted(0, 1 << 40, 256));
    same(&rt, (count, first), (257, 0), "plain words");
}

#[test]
fn sixteen_distinct_values_have_a_dictionary_and_seventeen_none(rt: HostRuntime) {
    for (distinct, count, first) in [(2u64, 19, 18), (16, 33, 130), (17, 257, 0)] {
        let (words, [word, ..]) = packed(&rt, &counted(9, 1 << 40, distinct));
        same(&rt, (words, word), (count, first), distinct);
    }
}

#[test]
fn a_hundred_and_twenty_eight_runs_are_written_and_one_more_is_not(rt: HostRuntime) {
    let mut values = [0; 256];
    for place in 0..256 {
        values[place] = (place as u64 / 2) << 40;
    }
    let (words, [word, ..]) = packed(&rt, &values);
    same(&rt, (words, word), (257, 3 + 8 * 128), "128 runs");
    values[255] = 1;
    let (words, [word, ..]) = packed(&rt, &values);
    same(&rt, (words, word), (257, 0), "129 runs");
}

#[test]
fn runs_of_one_place_and_more_are_read(rt: HostRuntime) {
    let mut values = [0; 256];
    let mut run: u64 = 0;
    let mut left: u64 = 1;
    for place in 0..256 {
        values[place] = run << 40;
        left = left.wrapping_sub(1);
        if left == 0 {
            run = run.wrapping_add(1);
            left = run.wrapping_add(1);
        }
    }
    // 22 runs of 1 to 22 places, and one of 3.
    let (words, [word, ..]) = packed(&rt, &values);
    same(&rt, (words, word), (47, 3 + 8 * 23), ());
}

#[test]
fn differences_take_the_least_width_that_holds_them(rt: HostRuntime) {
    for (top, count, first) in [
        (1u64, 6, 12),
        (2, 10, 20),
        (3, 10, 20),
        (4, 18, 36),
        (16, 34, 68),
        (255, 34, 68),
        (256, 66, 132),
        ((1 << 16) - 1, 66, 132),
        (1 << 16, 130, 260),
        ((1 << 32) - 1, 130, 260),
        (1 << 32, 257, 0),
    ] {
        let base = u64::MAX - top;
        let (words, [word, ..]) = packed(&rt, &drawn(base, top));
        same(&rt, (words, word), (count, first), top);
    }
}

#[test]
fn laws_hold() {
    packed_words();
}
