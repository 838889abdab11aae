//! The words of a command line, taken by options.
ghost use Rattle.std.specs.Prelude.{◌≡◌, ◌↔◌, true, [], IfOk, IfSome, IsSome, map, option_map, string_bytes};
ghost use Rattle.clap.specs.Words.{app_of, fault_of, first_of, found_of, is_simple, is_simple_and_free, matches_of, rows_of, with_rule};
ghost use Rattle.lst_options.specs.Words.{option, as_of_options, bare, crash_options, level_options, load_options, run_options, table_options};

use clap::error::ErrorKind;
use clap::{Arg, ArgAction, ArgMatches, Command};
use lst_model::OutOfMemory;
use std::alloc::{AllocError, Global};

/// The values that the words give the options of a store, or None where they aren't taken. The first word isn't looked at.
/// The only error is want of memory.
pub(crate) fn run_matches<'a>(
    alloc: Global,
    words: &'a [String],
) -> Result<Option<ArgMatches<'a>>, OutOfMemory>
    ensures taken { IfOk result (λ found. IsSome found ↔ (fault_of run_options (map string_bytes words.entry.now) ≡ [])) }
    ensures rows { IfOk result (λ found. IfSome found (λ matches. rows_of (found_of matches) ≡ matches_of run_options (map string_bytes words.entry.now))) }
{
    parsed(run_command(alloc)?, words)
}

/// The values that the words give the options of a store and a time, or None where they aren't taken. The first word isn't looked at.
/// The only error is want of memory.
pub(crate) fn as_of_matches<'a>(
    alloc: Global,
    words: &'a [String],
) -> Result<Option<ArgMatches<'a>>, OutOfMemory>
    ensures taken { IfOk result (λ found. IsSome found ↔ (fault_of as_of_options (map string_bytes words.entry.now) ≡ [])) }
    ensures rows { IfOk result (λ found. IfSome found (λ matches. rows_of (found_of matches) ≡ matches_of as_of_options (map string_bytes words.entry.now))) }
{
    parsed(as_of_command(alloc)?, words)
}

/// The values that the words give the options of a store and a level, or None where they aren't taken. The first word isn't looked at.
/// The only error is want of memory.
pub(crate) fn level_matches<'a>(
    alloc: Global,
    words: &'a [String],
) -> Result<Option<ArgMatches<'a>>, OutOfMemory>
    ensures taken { IfOk result (λ found. IsSome found ↔ (fault_of level_options (map string_bytes words.entry.now) ≡ [])) }
    ensures rows { IfOk result (λ found. IfSome found (λ matches. rows_of (found_of matches) ≡ matches_of level_options (map string_bytes words.entry.now))) }
{
    parsed(level_command(alloc)?, words)
}

/// The values that the words give the options of a store and a disk, or None where they aren't taken. The first word isn't looked at.
/// The only error is want of memory.
pub(crate) fn crash_matches<'a>(
    alloc: Global,
    words: &'a [String],
) -> Result<Option<ArgMatches<'a>>, OutOfMemory>
    ensures taken { IfOk result (λ found. IsSome found ↔ (fault_of crash_options (map string_bytes words.entry.now) ≡ [])) }
    ensures rows { IfOk result (λ found. IfSome found (λ matches. rows_of (found_of matches) ≡ matches_of crash_options (map string_bytes words.entry.now))) }
{
    parsed(crash_command(alloc)?, words)
}

/// The values that the words give the options of a table, or None where they aren't taken. The first word isn't looked at.
/// The only error is want of memory.
pub(crate) fn table_matches<'a>(
    alloc: Global,
    words: &'a [String],
) -> Result<Option<ArgMatches<'a>>, OutOfMemory>
    ensures taken { IfOk result (λ found. IsSome found ↔ (fault_of table_options (map string_bytes words.entry.now) ≡ [])) }
    ensures rows { IfOk result (λ found. IfSome found (λ matches. rows_of (found_of matches) ≡ matches_of table_options (map string_bytes words.entry.now))) }
{
    parsed(table_command(alloc)?, words)
}

/// The values that the words give the options of a load, or None where they aren't taken. The first word isn't looked at.
/// The only error is want of memory.
pub(crate) fn load_matches<'a>(
    alloc: Global,
    words: &'a [String],
) -> Result<Option<ArgMatches<'a>>, OutOfMemory>
    ensures taken { IfOk result (λ found. IsSome found ↔ (fault_of load_options (map string_bytes words.entry.now) ≡ [])) }
    ensures rows { IfOk result (λ found. IfSome found (λ matches. rows_of (found_of matches) ≡ matches_of load_options (map string_bytes words.entry.now))) }
{
    parsed(load_command(alloc)?, words)
}

/// The values that the words give the options of a command, or None where they aren't taken. The first word isn't looked at.
/// The only error is want of memory.
fn parsed<'a>(
    command: Command<'a>,
    words: &'a [String],
) -> Result<Option<ArgMatches<'a>>, OutOfMemory>
    requires simple { is_simple (app_of command) ≡ true }
    requires free { is_simple_and_free (app_of command) ≡ true }
    ensures taken { IfOk result (λ found. IsSome found ↔ (fault_of (app_of command.entry) (map string_bytes words.entry.now) ≡ [])) }
    ensures rows { IfOk result (λ found. IfSome found (λ matches. rows_of (found_of matches) ≡ matches_of (app_of command.entry) (map string_bytes words.entry.now))) }
{
    match command.try_get_matches_from(words) {
        Ok(matches) => Ok(Some(matches)),
        Err(error) => match error.kind() {
            ErrorKind::OutOfMemory => Err(OutOfMemory),
            _ => Ok(None),
        },
    }
}

/// A command that takes the options of a store, and no flag for help or the version.
fn run_command<'a>(alloc: Global) -> Result<Command<'a>, AllocError>
    ensures { IfOk result (λ command. app_of command ≡ run_options) }
{
    let command = bare_command(alloc);
    let command = with_option(alloc, command, "columns")?;
    let command = with_option(alloc, command, "ranges")?;
    let command = with_option(alloc, command, "tails")?;
    let command = with_option(alloc, command, "sessions")?;
    let command = with_option(alloc, command, "txns")?;
    let command = with_option(alloc, command, "spare")?;
    with_option(alloc, command, "index")
}

/// A command that takes the options of a store and a time, and no flag for help or the version.
fn as_of_command<'a>(alloc: Global) -> Result<Command<'a>, AllocError>
    ensures { IfOk result (λ command. app_of command ≡ as_of_options) }
{
    let command = run_command(alloc)?;
    with_option(alloc, command, "time")
}

/// A command that takes the options of a store and a level, and no flag for help or the version.
fn level_command<'a>(alloc: Global) -> Result<Command<'a>, AllocError>
    ensures { IfOk result (λ command. app_of command ≡ level_options) }
{
    let command = run_command(alloc)?;
    with_option(alloc, command, "level")
}

/// A command that takes the options of a store and a disk, and no flag for help or the version.
fn crash_command<'a>(alloc: Global) -> Result<Command<'a>, AllocError>
    ensures { IfOk result (λ command. app_of command ≡ crash_options) }
{
    let command = run_command(alloc)?;
    let command = with_option(alloc, command, "stop")?;
    let command = with_option(alloc, command, "torn")?;
    with_option(alloc, command, "bytes")
}

/// A command that takes the options of a table, and no flag for help or the version.
fn table_command<'a>(alloc: Global) -> Result<Command<'a>, AllocError>
    ensures { IfOk result (λ command. app_of command ≡ table_options) }
{
    let command = bare_command(alloc);
    with_option(alloc, command, "columns")
}

/// A command that takes the options of a load, and no flag for help or the version.
fn load_command<'a>(alloc: Global) -> Result<Command<'a>, AllocError>
    ensures { IfOk result (λ command. app_of command ≡ load_options) }
{
    let command = bare_command(alloc);
    let command = with_option(alloc, command, "seed")?;
    let command = with_option(alloc, command, "keys")?;
    with_option(alloc, command, "sessions")
}

/// A command without options and without flags.
fn bare_command<'a>(alloc: Global) -> Command<'a>
    ensures { app_of result ≡ bare }
{
    Command::new(alloc, "lstore")
        .disable_help_flag(true)
        .disable_version_flag(true)
}

/// The command with one more option, which takes one value.
fn with_option<'a>(
    alloc: Global,
    command: Command<'a>,
    name: &'a str,
) -> Result<Command<'a>, AllocError>
    ensures { IfOk result (λ more. app_of more ≡ with_rule (app_of command.entry) (option name.entry.now)) }
{
    let argument = Arg::new(alloc, name).long(name).action(ArgAction::Set);
    command.arg(argument)
}

/// The value of an option, where it is given.
pub(crate) fn value_in<'a>(matches: &ArgMatches<'a>, name: &str) -> Option<&'a str>
    ensures { option_map (λ text. text.now) result ≡ first_of name.now (rows_of (found_of matches.now)) }
{
    matches.get_str(name)
}
