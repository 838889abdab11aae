//! The limits and the time that the values of options give a look at a past table.
ghost use Rattle.std.specs.Prelude.{◌≡◌, IfOk, IfSome, None, drop, map, option_map, string_bytes};
ghost use Rattle.clap.specs.Words.{Text, first_of, found_of, rows_of};
ghost use Rattle.lst_layout.specs.Limits.{IsValid};
ghost use Rattle.lst_options.specs.declared.as_of.AsOfOptions.{AsOfOptions as AsOfOptionsOf};
ghost use Rattle.lst_options.specs.Options.{time_or_zero, GivesAsOf, TellsAsOf};

use crate::limits::limits_in;
use crate::words::{as_of_matches, value_in};
use clap::ArgMatches;
use lst_layout::Limits;
use lst_model::{OutOfMemory, Time};
use lst_script::number;
use std::alloc::Global;

/// What a look at a past table is of: the limits of the store, and the time as of which its table is told.
#[derive(Clone, Copy, Debug, PartialEq, Eq)]
pub struct AsOfOptions {
    pub limits: Limits,
    pub time: Time,
}

/// The limits and the time that the words behind `asof` name: the options of a store, as `limits_of_words` has them, and `--time`, any number up to
/// 18,446,744,073,709,551,615, in any order and none twice. Without `--time` the time is 0. None where the words are none of this, or a number is out
/// of its range. The first of `words`, the command, isn't looked at. The only error is want of memory, which may come before the words are judged.
pub fn as_of_of_words(alloc: Global, words: &[String]) -> Result<Option<AsOfOptions>, OutOfMemory>
    ensures told { IfOk result (TellsAsOf (drop 1 (map string_bytes words.now))) }
    ensures valid { IfOk result (λ options. IfSome options (λ given. IsValid given.limits)) }
{
    match as_of_matches(alloc, words)? {
        Some(matches) => Ok(as_of_in(&matches)),
        None => Ok(None),
    }
}

/// The limits and the time by the values of all options.
fn as_of_in(matches: &ArgMatches) -> Option<AsOfOptions>
    ensures some { IfSome result (GivesAsOf (λ (name : Text). first_of name (rows_of (found_of matches.now)))) }
    ensures none { result ≡ None → (options : AsOfOptionsOf) → ¬ GivesAsOf (λ (name : Text). first_of name (rows_of (found_of matches.now))) options }
    ensures valid { IfSome result (λ given. IsValid given.limits) }
{
    let limits = limits_in(matches)?;
    let time = time_of_text(value_in(matches, "time"))?;
    Some(AsOfOptions { limits, time })
}

/// The time that a text names, or 0 where there is no text.
fn time_of_text(text: Option<&str>) -> Option<Time>
    ensures { result ≡ time_or_zero (option_map (λ given. given.now) text.entry) }
{
    match text {
        Some(text) => number(text.as_bytes()),
        None => Some(0),
    }
}
