//! The numbers that the values of options give a load.
ghost use Rattle.std.specs.Prelude.{◌≡◌, ◌≤◌, ◌<◌, IfOk, IfSome, None, drop, map, option_map, string_bytes, codes};
ghost use Rattle.clap.specs.Words.{Text, first_of, found_of, rows_of};
ghost use Rattle.lst_options.specs.declared.load.LoadNumbers.{LoadNumbers as LoadNumbersOf};
ghost use Rattle.lst_options.specs.Options.{seed_or_one, GivesLoad, IsLoadable, TellsLoad};

use crate::limits::number_in;
use crate::words::{load_matches, value_in};
use clap::ArgMatches;
use lst_model::OutOfMemory;
use lst_script::number;
use std::alloc::Global;

/// What a load is of: the number from which its script is generated, and how many keys and sessions the script has.
#[derive(Clone, Copy, Debug, PartialEq, Eq)]
pub struct LoadNumbers {
    pub seed: u64,
    pub keys: u32,
    pub sessions: u32,
}

/// The load that the words behind `load` name: `--seed`, any number up to 18,446,744,073,709,551,615, `--keys`, 1 to 4,096, and `--sessions`,
/// 1 to 16, each with one number, as `--keys 8` or `--keys=8`, in any order and none twice. What no option names is 1, 1,000 and 4. None where
/// the words are none of this, or a number is out of its range. The first of `words`, the command, isn't looked at. The only error is want of
/// memory, which may come before the words are judged.
pub fn load_of_words(alloc: Global, words: &[String]) -> Result<Option<LoadNumbers>, OutOfMemory>
    ensures told { IfOk result (TellsLoad (drop 1 (map string_bytes words.now))) }
    ensures ranges { IfOk result (λ load. IfSome load IsLoadable) }
{
    match load_matches(alloc, words)? {
        Some(matches) => Ok(load_in(&matches)),
        None => Ok(None),
    }
}

/// The numbers of a load by the values of all options.
fn load_in(matches: &ArgMatches) -> Option<LoadNumbers>
    ensures some { IfSome result (GivesLoad (λ (name : Text). first_of name (rows_of (found_of matches.now)))) }
    ensures none { result ≡ None → (load : LoadNumbersOf) → ¬ GivesLoad (λ (name : Text). first_of name (rows_of (found_of matches.now))) load }
    ensures ranges { IfSome result IsLoadable }
{
    let seed = seed_of_text(value_in(matches, "seed"))?;
    let keys = number_in(matches, "keys", 1_000, 1, 4_096)?;
    let sessions = number_in(matches, "sessions", 4, 1, 16)?;
    Some(LoadNumbers {
        seed,
        keys,
        sessions,
    })
}

/// The seed that a text names, or 1 where there is no text.
fn seed_of_text(text: Option<&str>) -> Option<u64>
    ensures { result ≡ seed_or_one (option_map (λ given. given.now) text.entry) }
{
    match text {
        Some(text) => number(text.as_bytes()),
        None => Some(1),
    }
}
