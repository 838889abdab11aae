//! The limits and the level that the values of options give a judgement, or sessions at work.
ghost use Rattle.std.specs.Prelude.{◌≡◌, IfOk, IfSome, None, drop, map, option_map, string_bytes};
ghost use Rattle.clap.specs.Words.{Text, first_of, found_of, rows_of};
ghost use Rattle.lst_layout.specs.Limits.{IsValid};
ghost use Rattle.lst_options.specs.declared.level.LevelOptions.{LevelOptions as LevelOptionsOf};
ghost use Rattle.lst_options.specs.Options.{level_numbered, level_or_snapshot, GivesLevel, TellsLevel};

use crate::limits::limits_in;
use crate::words::{level_matches, value_in};
use clap::ArgMatches;
use lst_layout::Limits;
use lst_legal_runs::Level;
use lst_model::OutOfMemory;
use lst_script::number;
use std::alloc::Global;

/// What a judgement of reports is of: the limits of the store, and the level of isolation of its transactions.
#[derive(Clone, Copy)]
pub struct LevelOptions {
    pub limits: Limits,
    pub level: Level,
}

/// The limits and the level that the words behind a command name: the options of a store, as `limits_of_words` has them, and `--level`, which is 1 for
/// snapshot isolation or 2 for the serializable level, in any order and none twice. Without `--level` the level is 1. None where the words are none of
/// this, or a number is out of its range. The first of `words`, the command, isn't looked at. The only error is want of memory, which may come before
/// the words are judged.
pub fn level_of_words(alloc: Global, words: &[String]) -> Result<Option<LevelOptions>, OutOfMemory>
    ensures told { IfOk result (TellsLevel (drop 1 (map string_bytes words.now))) }
    ensures valid { IfOk result (λ options. IfSome options (λ given. IsValid given.limits)) }
{
    match level_matches(alloc, words)? {
        Some(matches) => Ok(level_in(&matches)),
        None => Ok(None),
    }
}

/// The limits and the level by the values of all options.
fn level_in(matches: &ArgMatches) -> Option<LevelOptions>
    ensures some { IfSome result (GivesLevel (λ (name : Text). first_of name (rows_of (found_of matches.now)))) }
    ensures none { result ≡ None → (options : LevelOptionsOf) → ¬ GivesLevel (λ (name : Text). first_of name (rows_of (found_of matches.now))) options }
    ensures valid { IfSome result (λ given. IsValid given.limits) }
{
    let limits = limits_in(matches)?;
    let level = level_of_text(value_in(matches, "level"))?;
    Some(LevelOptions { limits, level })
}

/// The level that a text names, or snapshot isolation where there is no text.
fn level_of_text(text: Option<&str>) -> Option<Level>
    ensures { result ≡ level_or_snapshot (option_map (λ given. given.now) text.entry) }
{
    match text {
        Some(text) => level_numbered(number(text.as_bytes())?),
        None => Some(Level::Snapshot),
    }
}

/// The level of a number.
fn level_numbered(number: u64) -> Option<Level>
    ensures { result ≡ level_numbered number }
{
    if number == 1 {
        Some(Level::Snapshot)
    } else if number == 2 {
        Some(Level::Serializable)
    } else {
        None
    }
}
