//! The limits that the values of options give a store.
ghost use Rattle.std.specs.Prelude.{◌≡◌, ℕ, ◌≤◌, ◌<◌, ◌^◌, IfOk, IfSome, None, drop, map, option_map, string_bytes, codes};
ghost use Rattle.clap.specs.Words.{Text, first_of, found_of, rows_of};
ghost use Rattle.lst_layout.specs.declared.limits.Limits.{Limits as LimitsOf};
ghost use Rattle.lst_layout.specs.Limits.{IsValid};
ghost use Rattle.lst_options.specs.Options.{number_or, index_or, GivesLimits, TellsLimits};

use crate::words::{run_matches, value_in};
use clap::ArgMatches;
use lst_layout::Limits;
use lst_model::OutOfMemory;
use lst_script::number;
use std::alloc::Global;

/// The limits that the words behind a command name for a store: `--columns`, `--ranges`, `--tails`, `--sessions`, `--txns`, `--spare` and
/// `--index`, each with one number, as `--ranges 8` or `--ranges=8`, in any order and none twice. What no option names has its default, as
/// `Limits::default` has it. None where the words are none of this, or a number is out of its range. The first of `words`, the command, isn't
/// looked at. The only error is want of memory, which may come before the words are judged.
pub fn limits_of_words(alloc: Global, words: &[String]) -> Result<Option<Limits>, OutOfMemory>
    ensures told { IfOk result (TellsLimits (drop 1 (map string_bytes words.now))) }
    ensures valid { IfOk result (λ limits. IfSome limits IsValid) }
{
    match run_matches(alloc, words)? {
        Some(matches) => Ok(limits_in(&matches)),
        None => Ok(None),
    }
}

/// The limits by the values of all options.
pub(crate) fn limits_in(matches: &ArgMatches) -> Option<Limits>
    ensures some { IfSome result (GivesLimits (λ (name : Text). first_of name (rows_of (found_of matches.now)))) }
    ensures none { result ≡ None → (limits : LimitsOf) → ¬ GivesLimits (λ (name : Text). first_of name (rows_of (found_of matches.now))) limits }
    ensures valid { IfSome result IsValid }
{
    let default = Limits::default();
    let columns = number_in(matches, "columns", default.columns, 1, 8)?;
    let ranges = number_in(matches, "ranges", default.ranges, 1, 64)?;
    let tails = number_in(matches, "tails", default.tails, 1, 16_384)?;
    let sessions = number_in(matches, "sessions", default.sessions, 1, 16)?;
    let txns = number_in(matches, "txns", default.txns, 1, 65_535)?;
    let spare = number_in(matches, "spare", default.spare, 1, 64)?;
    let indexed = index_in(matches, columns)?;
    Some(Limits {
        columns,
        ranges,
        tails,
        sessions,
        txns,
        spare,
        indexed,
    })
}

/// The number that an option has: its default where it isn't given, and None where its value is no number from `least` to `most`.
pub(crate) fn number_in(
    matches: &ArgMatches,
    name: &str,
    default: u32,
    least: u32,
    most: u32,
) -> Option<u32>
    requires default { (least ≤ default) × (default ≤ most) }
    ensures number { result ≡ number_or default least most (first_of name.now (rows_of (found_of matches.now))) }
    ensures range { IfSome result (λ number. (least ≤ number) × (number ≤ most)) }
{
    number_of_text(value_in(matches, name), default, least, most)
}

/// The number of a text from `least` to `most`, or the default where there is no text.
fn number_of_text(text: Option<&str>, default: u32, least: u32, most: u32) -> Option<u32>
    requires default { (least ≤ default) × (default ≤ most) }
    ensures number { result ≡ number_or default least most (option_map (λ given. given.now) text.entry) }
    ensures range { IfSome result (λ number. (least ≤ number) × (number ≤ most)) }
{
    let Some(text) = text else {
        return Some(default);
    };
    let number = number(text.as_bytes())?;
    if number < u64::from(least) || number > u64::from(most) {
        return None;
    }
    Some(number as u32)
}

/// The set of the one indexed column, as a bit: none where no index is asked for, and None where the value is no column.
fn index_in(matches: &ArgMatches, columns: u32) -> Option<u8>
    requires some { 0 < columns }
    requires few { columns ≤ 8 }
    ensures bits { result ≡ index_or columns (first_of (codes "index") (rows_of (found_of matches.now))) }
    ensures below { IfSome result (λ bits. bits < 2 ^ columns) }
{
    index_of_text(value_in(matches, "index"), columns)
}

/// The bit of the column that a text names, or no bit where there is no text.
#[tactic(auto, using(std::proofs::lemmas::Nat::pow_below))]
fn index_of_text(text: Option<&str>, columns: u32) -> Option<u8>
    requires some { 0 < columns }
    requires few { columns ≤ 8 }
    ensures bits { result ≡ index_or columns (option_map (λ given. given.now) text.entry) }
    ensures below { IfSome result (λ bits. bits < 2 ^ columns) }
{
    let Some(text) = text else {
        return Some(0);
    };
    let column = number(text.as_bytes())?;
    if column >= u64::from(columns) {
        return None;
    }
    Some(bit(column as u32))
}

/// The bit of a column.
#[tactic(auto, using(std::proofs::lemmas::Nat::pow_below))]
fn bit(column: u32) -> u8
    requires { column < 8 }
    ensures { result ≡ 2 ^ column }
{
    (1u64 << column) as u8
}
