//! Packing a page.
ghost use Rattle.std.specs.Prelude.{◌≡◌, ℕ, ◌+◌, ◌-◌, ◌*◌, ◌/◌, ◌%◌, ◌^◌, ◌<◌, ◌≤◌, ◌⊎◌, length, slice_index};
ghost use Rattle.lst_pack.specs.Forms.{IsWidth, PacksAs};
ghost use Rattle.lst_pack.specs.Chosen.{IsSorted, IsTight, AreMaximal, IsChosen};
ghost use Rattle.lst_pack.specs.Choices.{IsFrame};
ghost use Rattle.lst_pack.specs.Counts.{runs_below, AreKnown, AddsRun};
ghost use Rattle.lst_pack.specs.declared.forms.Form.TheVariants.{Constant, Dictionary, Runs, Reference, Plain};

use crate::forms::Form;
use crate::survey::{SPOTS, choose, place_near, runs_of, spot_of, survey_of, width_of};

/// Packs 256 values, and answers how many words from the front of `out` they take. The others may hold anything.
///
/// The form is the one that takes the fewest words; on a tie the earlier one in the order constant, dictionary, runs, frame of
/// reference, plain.
pub fn pack(values: &[u64; 256], out: &mut [u64; 257]) -> usize
    ensures { IsChosen out.new values.now result }
{
    let runs = runs_of(values);
    if runs == 1 {
        return write_constant(values, out);
    }
    let found = survey_of(values);
    let width = width_of(found.greatest - found.least);
    match choose(runs as u32, found.distinct, width) {
        Form::Constant => write_constant(values, out),
        Form::Dictionary { size } => write_dictionary(values, &found.known, size as usize, out),
        Form::Runs { runs } => write_runs(values, runs as usize, out),
        Form::Reference { width } => write_reference(values, found.least, width as usize, out),
        Form::Plain => write_plain(values, out),
    }
}

fn write_constant(values: &[u64; 256], out: &mut [u64; 257]) -> usize
    requires { runs_below values.now 256 ≡ 1 }
    ensures count { result ≡ 2 }
    ensures packs { PacksAs Constant out.new values.now }
{
    out[0] = 1;
    out[1] = values[0];
    2
}

fn write_plain(values: &[u64; 256], out: &mut [u64; 257]) -> usize
    ensures count { result ≡ 257 }
    ensures packs { PacksAs Plain out.new values.now }
{
    out[0] = 0;
    for place in 0..256 {
        out[1 + place] = values[place];
    }
    257
}

fn write_dictionary(
    values: &[u64; 256],
    known: &[u64; 17],
    size: usize,
    out: &mut [u64; 257],
) -> usize
    requires few { size ≤ 16 }
    requires known { AreKnown values.now 256 known.now size }
    ensures count { result ≡ 17 + size }
    ensures packs { PacksAs (Dictionary size) out.new values.now }
    ensures sorted { IsSorted out.new values.now size }
{
    out[0] = 2 + 8 * size as u64;
    for code in 0..size {
        out[1 + code] = known[code];
    }
    let spots = spots_of(known, size);
    for turn in 0..16 {
        out[1 + size + turn] = word_of_codes(values, known, size, turn, &spots);
    }
    17 + size
}

// The code at the spot of each known value. Where two have one spot the later one stands there, and where none has it the first.
fn spots_of(known: &[u64; 17], size: usize) -> [u8; SPOTS]
    requires few { size ≤ 16 }
    requires some { 0 < size }
    ensures { (spot : ℕ) → spot < 128 → slice_index result spot < size }
{
    let mut spots = [0; SPOTS];
    for code in 0..size {
        spots[spot_of(known[code])] = code as u8;
    }
    spots
}

// The codes of the 16 values from place 16 * `turn` on. Each is looked for at its spot first.
fn word_of_codes(
    values: &[u64; 256],
    known: &[u64; 17],
    size: usize,
    turn: usize,
    spots: &[u8; SPOTS],
) -> u64
    requires few { size ≤ 16 }
    requires turn { turn < 16 }
    requires known { AreKnown values.now 256 known.now size }
    requires spots { (spot : ℕ) → spot < 128 → slice_index spots.now spot < size }
    ensures { (k : ℕ) → k < 16 → (result / 2 ^ (k * 4) % 2 ^ 4 < size) × (slice_index known.now (result / 2 ^ (k * 4) % 2 ^ 4) ≡ slice_index values.now (turn * 16 + k)) }
{
    let mut word: u64 = 0;
    for k in (0..16).rev() {
        let value = values[turn * 16 + k];
        let code = place_near(known, size, value, spots[spot_of(value)] as usize);
        word = word * 16 + code as u64;
    }
    word
}

fn write_runs(values: &[u64; 256], runs: usize, out: &mut [u64; 257]) -> usize
    requires runs { runs ≡ runs_below values.now 256 }
    requires few { runs ≤ 128 }
    ensures count { result ≡ 1 + 2 * runs }
    ensures packs { PacksAs (Runs runs) out.new values.now }
    ensures maximal { AreMaximal out.new runs }
{
    out[0] = 3 + 8 * runs as u64;
    let mut run = 0;
    for place in 1..256 {
        if values[place] != values[place - 1] {
            close_run(values, place, run, out);
            run += 1;
        }
    }
    close_run(values, 256, run, out);
    1 + 2 * runs
}

// Writes a run, with as many before it as `run`, of the value before this place.
fn close_run(values: &[u64; 256], place: usize, run: usize, out: &mut [u64; 257])
    requires place { place ≤ 256 }
    requires some { 0 < place }
    requires few { run < 128 }
    ensures { AddsRun values.now out.old out.new run place }
{
    out[1 + 2 * run] = values[place - 1];
    out[2 + 2 * run] = place as u64;
}

fn write_reference(values: &[u64; 256], least: u64, width: usize, out: &mut [u64; 257]) -> usize
    requires { IsFrame values.now least width }
    ensures count { result ≡ 2 + 4 * width }
    ensures packs { PacksAs (Reference width) out.new values.now }
    ensures tight { IsTight out.new values.now width }
{
    match width {
        1 => write_differences::<1>(values, least, out),
        2 => write_differences::<2>(values, least, out),
        4 => write_differences::<4>(values, least, out),
        8 => write_differences::<8>(values, least, out),
        16 => write_differences::<16>(values, least, out),
        _ => write_differences::<32>(values, least, out),
    }
}

fn write_differences<const WIDTH: usize>(
    values: &[u64; 256],
    least: u64,
    out: &mut [u64; 257],
) -> usize
    requires { IsFrame values.now least WIDTH }
    ensures count { result ≡ 2 + 4 * WIDTH }
    ensures packs { PacksAs (Reference WIDTH) out.new values.now }
    ensures tight { IsTight out.new values.now WIDTH }
{
    out[0] = 4 + 8 * WIDTH as u64;
    out[1] = least;
    for turn in 0..4 * WIDTH {
        out[2 + turn] = word_of_differences::<WIDTH>(values, least, turn);
    }
    2 + 4 * WIDTH
}

// The differences of the values from place `turn` * 64 / `WIDTH` on, as many as a word holds.
#[inline(always)]
fn word_of_differences<const WIDTH: usize>(values: &[u64; 256], least: u64, turn: usize) -> u64
    requires width { IsWidth WIDTH }
    requires turn { turn < 4 * WIDTH }
    requires least { (place : ℕ) → place < 256 → least ≤ slice_index values.now place }
    requires holds { (place : ℕ) → place < 256 → slice_index values.now place < least + 2 ^ WIDTH }
    ensures { (k : ℕ) → k < 64 / WIDTH → result / 2 ^ (k * WIDTH) % 2 ^ WIDTH ≡ slice_index values.now (turn * (64 / WIDTH) + k) - least }
{
    let count = 64 / WIDTH;
    let mut word: u64 = 0;
    for k in (0..count).rev() {
        word = word * (1 << WIDTH) + (values[turn * count + k] - least);
    }
    word
}
