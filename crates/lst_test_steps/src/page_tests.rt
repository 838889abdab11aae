//! Pages in hand.
ghost use Rattle.std.specs.Prelude.{◌<◌};

use crate::same::same;
use lst_layout::{FRAME_NULLS, FRAME_TIMES, FRAME_VALUES, FRAME_WORDS};
use lst_merge::{put_entry, read_values, write_page};
use lst_pages::Entry;
use std::process::Abort;

const WORDS: usize = FRAME_WORDS as usize;

const VALUES: usize = FRAME_VALUES as usize;

const TIMES: usize = FRAME_TIMES as usize;

const NULLS: usize = FRAME_NULLS as usize;

/// Makes the words of a page with these numbers, of TPS 3 and times 9, and reads the values off them. Tells the first packed word.
fn form_of(rt: &impl Abort, numbers: &[u64; 256]) -> u64 {
    let mut words = [0; WORDS];
    let mut values = [0; 256];
    for slot in 0..256 {
        let entry = Entry {
            cell: Some(Some(numbers[slot])),
            time: 9,
        };
        put_entry(&mut words, &mut values, slot, entry);
    }
    write_page(3, &values, &mut words);
    let mut read = [7; 256];
    read_values(&words, &mut read);
    for slot in 0..256 {
        let found = (read[slot], words[TIMES + slot]);
        same(rt, found, (numbers[slot], 19), slot);
    }
    same(rt, words[0], 3, "the TPS");
    words[VALUES]
}

/// At each place a number that is drawn: one of `count`, `step` apart.
fn drawn(count: u64, step: u64) -> [u64; 256]
    requires { 0 < count }
{
    let mut numbers = [5; 256];
    let mut state: u64 = 7;
    for slot in 0..256 {
        state = state
            .wrapping_mul(6364136223846793005)
            .wrapping_add(1442695040888963407);
        numbers[slot] = ((state >> 31) % count).wrapping_mul(step);
    }
    numbers
}

/// A page of numbers that are drawn so has this first packed word.
fn draws(rt: &impl Abort, count: u64, step: u64, word: u64)
    requires { 0 < count }
{
    same(rt, form_of(rt, &drawn(count, step)), word, count);
}

/// At each place a number; eight places have one together.
fn in_eights() -> [u64; 256] {
    let mut numbers = [0; 256];
    for slot in 0..256 {
        numbers[slot] = (slot as u64 / 8) << 40;
    }
    numbers
}

#[test]
fn a_page_of_each_form_says_its_numbers(rt: HostRuntime) {
    same(&rt, form_of(&rt, &[5; 256]), 1, "one number");
    draws(&rt, 4, 1 << 40, 2 + 8 * 4);
    draws(&rt, 16, 1 << 40, 2 + 8 * 16);
    same(&rt, form_of(&rt, &in_eights()), 3 + 8 * 32, "in eights");
    draws(&rt, 256, 1, 4 + 8 * 8);
    draws(&rt, 1 << 16, 1, 4 + 8 * 16);
    draws(&rt, 1 << 40, 1, 0);
}

/// The first two words of nulls.
fn nulls_of(words: &[u64; WORDS]) -> (u64, u64) {
    (words[NULLS], words[NULLS + 1])
}

#[test]
fn each_null_has_its_bit(rt: HostRuntime) {
    let mut words = [0; WORDS];
    let mut values = [0; 256];
    let null = Entry {
        cell: Some(None),
        time: 5,
    };
    let nought = Entry {
        cell: Some(Some(0)),
        time: 5,
    };
    put_entry(&mut words, &mut values, 70, null);
    put_entry(&mut words, &mut values, 71, nought);
    same(&rt, nulls_of(&words), (0, 64), "70");
    put_entry(&mut words, &mut values, 71, null);
    same(&rt, nulls_of(&words), (0, 192), "70 and 71");
    put_entry(&mut words, &mut values, 70, nought);
    same(&rt, nulls_of(&words), (0, 128), "71");
}
