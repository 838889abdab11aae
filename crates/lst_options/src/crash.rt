//! The limits and the disk that the values of options give a run that is crashed.
ghost use Rattle.std.specs.Prelude.{◌≡◌, IfOk, IfSome, None, drop, map, option_map, string_bytes, codes, ◌==◌};
ghost use Rattle.clap.specs.Words.{Text, first_of, found_of, rows_of};
ghost use Rattle.lst_options.specs.declared.crash.CrashOptions.{CrashOptions as CrashOptionsOf};
ghost use Rattle.lst_layout.specs.Limits.{IsValid};
ghost use Rattle.lst_options.specs.declared.crash.DiskOptions.{DiskOptions as DiskOptionsOf};
ghost use Rattle.lst_options.specs.Options.{number_or, GivesCrash, GivesDisk, IsDisk, TellsCrash};

use crate::limits::{limits_in, number_in};
use crate::words::crash_matches;
use clap::ArgMatches;
use lst_layout::Limits;
use lst_model::OutOfMemory;
use std::alloc::Global;

/// A disk: how many calls it makes before it fails, whether a crash leaves all that was written, and how many bytes it has.
#[derive(Clone, Copy, Debug, PartialEq, Eq)]
pub struct DiskOptions {
    pub stop: u32,
    pub torn: bool,
    pub bytes: u32,
}

/// What a run that is crashed is of: the limits of the store, and the disk.
#[derive(Clone, Copy, Debug, PartialEq, Eq)]
pub struct CrashOptions {
    pub limits: Limits,
    pub disk: DiskOptions,
}

/// The limits and the disk that the words behind `crash` name: the options of a store, as `limits_of_words` has them, `--stop`, 0 to 1,000,000,
/// `--torn`, 0 or 1, and `--bytes`, 64 to 262,144, in any order and none twice. What no option names is 1,000,000, 0 and 65,536. None where the words
/// are none of this, or a number is out of its range. The first of `words`, the command, isn't looked at. The only error is want of memory, which may
/// come before the words are judged.
pub fn crash_of_words(alloc: Global, words: &[String]) -> Result<Option<CrashOptions>, OutOfMemory>
    ensures told { IfOk result (TellsCrash (drop 1 (map string_bytes words.now))) }
    ensures valid { IfOk result (λ options. IfSome options (λ given. IsValid given.limits)) }
    ensures disk { IfOk result (λ options. IfSome options (λ given. IsDisk given.disk)) }
{
    match crash_matches(alloc, words)? {
        Some(matches) => Ok(crash_in(&matches)),
        None => Ok(None),
    }
}

/// The limits and the disk by the values of all options.
fn crash_in(matches: &ArgMatches) -> Option<CrashOptions>
    ensures some { IfSome result (GivesCrash (λ (name : Text). first_of name (rows_of (found_of matches.now)))) }
    ensures none { result ≡ None → (options : CrashOptionsOf) → ¬ GivesCrash (λ (name : Text). first_of name (rows_of (found_of matches.now))) options }
    ensures valid { IfSome result (λ given. IsValid given.limits) }
    ensures disk { IfSome result (λ given. IsDisk given.disk) }
{
    let limits = limits_in(matches)?;
    let disk = disk_in(matches)?;
    Some(CrashOptions { limits, disk })
}

/// The disk by the values of all options.
fn disk_in(matches: &ArgMatches) -> Option<DiskOptions>
    ensures some { IfSome result (GivesDisk (λ (name : Text). first_of name (rows_of (found_of matches.now)))) }
    ensures none { result ≡ None → (disk : DiskOptionsOf) → ¬ GivesDisk (λ (name : Text). first_of name (rows_of (found_of matches.now))) disk }
    ensures ranges { IfSome result IsDisk }
{
    let stop = number_in(matches, "stop", 1_000_000, 0, 1_000_000)?;
    let torn = torn_in(matches)?;
    let bytes = number_in(matches, "bytes", 65_536, 64, 262_144)?;
    Some(DiskOptions { stop, torn, bytes })
}

/// Whether the disk tears: 1 says so, and 0 that it doesn't, as without the option.
fn torn_in(matches: &ArgMatches) -> Option<bool>
    ensures { result ≡ option_map (λ number. number == 1) (number_or 0 0 1 (first_of (codes "torn") (rows_of (found_of matches.now)))) }
{
    match number_in(matches, "torn", 0, 0, 1) {
        Some(number) => Some(number == 1),
        None => None,
    }
}
