//! The limits that the value of an option gives a table.
ghost use Rattle.std.specs.Prelude.{◌≡◌, IfOk, IfSome, None, drop, map, string_bytes};
ghost use Rattle.clap.specs.Words.{Text, first_of, found_of, rows_of};
ghost use Rattle.lst_layout.specs.declared.limits.Limits.{Limits as LimitsOf};
ghost use Rattle.lst_layout.specs.Limits.{IsValid};
ghost use Rattle.lst_options.specs.Options.{GivesTable, TellsTable};

use crate::limits::number_in;
use crate::words::table_matches;
use clap::ArgMatches;
use lst_layout::Limits;
use lst_model::OutOfMemory;
use std::alloc::Global;

/// The limits with the number of columns that the words behind `import` name: `--columns`, 1 to 8, at most once. What no option names has its default,
/// as `Limits::default` has it. None where the words are none of this, or the number is out of its range. The first of `words`, the command, isn't
/// looked at. The only error is want of memory, which may come before the words are judged.
pub fn table_of_words(alloc: Global, words: &[String]) -> Result<Option<Limits>, OutOfMemory>
    ensures told { IfOk result (TellsTable (drop 1 (map string_bytes words.now))) }
    ensures valid { IfOk result (λ limits. IfSome limits IsValid) }
{
    match table_matches(alloc, words)? {
        Some(matches) => Ok(table_in(&matches)),
        None => Ok(None),
    }
}

/// The limits by the value of the option.
fn table_in(matches: &ArgMatches) -> Option<Limits>
    ensures some { IfSome result (GivesTable (λ (name : Text). first_of name (rows_of (found_of matches.now)))) }
    ensures none { result ≡ None → (limits : LimitsOf) → ¬ GivesTable (λ (name : Text). first_of name (rows_of (found_of matches.now))) limits }
    ensures valid { IfSome result IsValid }
{
    let default = Limits::default();
    let columns = number_in(matches, "columns", default.columns, 1, 8)?;
    Some(Limits { columns, ..default })
}
