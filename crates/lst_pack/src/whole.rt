//! All values of a packed page.
ghost use Rattle.std.specs.Prelude.{◌≡◌, ℕ, ◌+◌, ◌*◌, ◌^◌, ◌⊎◌, ◌<◌, ◌≤◌, List, length, slice_index};
ghost use Rattle.lst_pack.specs.Forms.{run_value, code_at, difference_at, IsDictionary, AreRuns, IsInRun, IsReference, Packs, IsPacked};

use crate::widths::{read_bytes, read_halves, read_narrow, read_wide};

/// Writes the 256 values of the page with which `words` begin.
///
/// The words begin with a page in one of the five forms, by condition. Words past that form may hold anything.
pub fn unpack(words: &[u64], out: &mut [u64; 256])
    requires { IsPacked words.now }
    ensures { (values : List ℕ) → Packs words.now values → out.new ≡ values }
{
    let first = words[0];
    match first % 8 {
        1 => unpack_constant(words[1], out),
        2 => unpack_dictionary(words, (first / 8) as usize, out),
        3 => unpack_runs(words, (first / 8) as usize, out),
        4 => unpack_reference(words, first / 8, out),
        _ => unpack_plain(words, out),
    }
}

fn unpack_constant(value: u64, out: &mut [u64; 256])
    ensures { (place : ℕ) → place < 256 → slice_index out.new place ≡ value }
{
    for x in out.iter_mut() {
        *x = value;
    }
}

fn unpack_plain(words: &[u64], out: &mut [u64; 256])
    requires { 257 ≤ length words.now }
    ensures { (place : ℕ) → place < 256 → slice_index out.new place ≡ slice_index words.now (1 + place) }
{
    for place in 0..256 {
        out[place] = words[1 + place];
    }
}

// The codes are read first, each into a byte.
fn unpack_dictionary(words: &[u64], size: usize, out: &mut [u64; 256])
    requires long { 17 + size ≤ length words.now }
    requires dictionary { IsDictionary words.now size }
    ensures { (place : ℕ) → place < 256 → slice_index out.new place ≡ slice_index words.now (1 + code_at words.now size place) }
{
    let mut codes = [0; 256];
    read_narrow::<4, 128>(words, 1 + size, &mut codes);
    for turn in 0..16 {
        for k in 0..16 {
            out[turn * 16 + k] = words[1 + codes[turn * 16 + k] as usize];
        }
    }
}

fn unpack_runs(words: &[u64], runs: usize, out: &mut [u64; 256])
    requires long { 1 + 2 * runs ≤ length words.now }
    requires runs { AreRuns words.now runs }
    ensures { (place run : ℕ) → IsInRun words.now runs place run → slice_index out.new place ≡ run_value words.now run }
{
    let mut start = 0;
    let mut at = 0;
    while at < 2 * runs {
        let value = words[1 + at];
        let end = words[2 + at] as usize;
        fill_run(start, end, value, out);
        start = end;
        at += 2;
    }
}

// Two places, six more, then eight at a time, while all are within the page. So places past the end may be written, where the next run is to stand.
fn fill_run(start: usize, end: usize, value: u64, out: &mut [u64; 256])
    requires some { start < end }
    requires end { end ≤ 256 }
    ensures before { (place : ℕ) → place < start → slice_index out.new place ≡ slice_index out.old place }
    ensures run { (place : ℕ) → start ≤ place → place < end → slice_index out.new place ≡ value }
{
    if end <= 248 {
        fill::<2>(start, value, out);
        if start + 2 < end {
            fill::<6>(start + 2, value, out);
            let mut place = start + 8;
            while place < end {
                fill::<8>(place, value, out);
                place += 8;
            }
        }
    } else {
        for place in start..end {
            out[place] = value;
        }
    }
}

#[inline(always)]
fn fill<const COUNT: usize>(from: usize, value: u64, out: &mut [u64; 256])
    requires { from + COUNT ≤ 256 }
    ensures before { (place : ℕ) → place < from → slice_index out.new place ≡ slice_index out.old place }
    ensures here { (place : ℕ) → from ≤ place → place < from + COUNT → slice_index out.new place ≡ value }
{
    for k in 0..COUNT {
        out[from + k] = value;
    }
}

fn unpack_reference(words: &[u64], width: u64, out: &mut [u64; 256])
    requires long { 2 + 4 * width ≤ length words.now }
    requires reference { IsReference words.now width }
    ensures { (place : ℕ) → place < 256 → slice_index out.new place ≡ slice_index words.now 1 + difference_at words.now width place }
{
    match width {
        1 => unpack_narrow::<1, 32>(words, out),
        2 => unpack_narrow::<2, 64>(words, out),
        4 => unpack_narrow::<4, 128>(words, out),
        8 => unpack_bytes(words, out),
        16 => unpack_halves(words, out),
        _ => unpack_wide(words, out),
    }
}

fn unpack_narrow<const WIDTH: usize, const COUNT: usize>(words: &[u64], out: &mut [u64; 256])
    requires width { (WIDTH ≡ 1) ⊎ ((WIDTH ≡ 2) ⊎ (WIDTH ≡ 4)) }
    requires count { COUNT ≡ 32 * WIDTH }
    requires long { 2 + 4 * WIDTH ≤ length words.now }
    requires reference { IsReference words.now WIDTH }
    ensures { (place : ℕ) → place < 256 → slice_index out.new place ≡ slice_index words.now 1 + difference_at words.now WIDTH place }
{
    let mut differences = [0; 256];
    read_narrow::<WIDTH, COUNT>(words, 2, &mut differences);
    add_base(words[1], &differences, out);
}

fn unpack_bytes(words: &[u64], out: &mut [u64; 256])
    requires long { 34 ≤ length words.now }
    requires reference { IsReference words.now 8 }
    ensures { (place : ℕ) → place < 256 → slice_index out.new place ≡ slice_index words.now 1 + difference_at words.now 8 place }
{
    let mut differences = [0; 256];
    read_bytes(words, 2, &mut differences);
    add_base(words[1], &differences, out);
}

fn add_base(base: u64, differences: &[u8; 256], out: &mut [u64; 256])
    requires fits { (place : ℕ) → place < 256 → base + slice_index differences.now place < 2 ^ 64 }
    ensures { (place : ℕ) → place < 256 → slice_index out.new place ≡ base + slice_index differences.now place }
{
    for place in 0..256 {
        out[place] = base + differences[place] as u64;
    }
}

fn unpack_halves(words: &[u64], out: &mut [u64; 256])
    requires long { 66 ≤ length words.now }
    requires reference { IsReference words.now 16 }
    ensures { (place : ℕ) → place < 256 → slice_index out.new place ≡ slice_index words.now 1 + difference_at words.now 16 place }
{
    let mut differences = [0; 256];
    read_halves(words, 2, &mut differences);
    let base = words[1];
    for place in 0..256 {
        out[place] = base + differences[place] as u64;
    }
}

fn unpack_wide(words: &[u64], out: &mut [u64; 256])
    requires long { 130 ≤ length words.now }
    requires reference { IsReference words.now 32 }
    ensures { (place : ℕ) → place < 256 → slice_index out.new place ≡ slice_index words.now 1 + difference_at words.now 32 place }
{
    let mut differences = [0; 256];
    read_wide(words, 2, &mut differences);
    let base = words[1];
    for place in 0..256 {
        out[place] = base + differences[place] as u64;
    }
}
