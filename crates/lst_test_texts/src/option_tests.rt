//! Words of command lines, and the limits, the time, the level, the disk or the load that they name.

use crate::texts::same;
use lst_layout::Limits;
use lst_legal_runs::Level;
use lst_model::OutOfMemory;
use lst_options::{
    LoadNumbers, as_of_of_words, crash_of_words, level_of_words, limits_of_words, load_of_words,
    table_of_words,
};
use std::alloc::Global;
use std::process::Abort;

/// The words of a line, which spaces separate.
fn words_of(alloc: Global, line: &str) -> Result<Vec<String>, OutOfMemory> {
    let mut words = Vec::new(alloc);
    for word in line.split_whitespace() {
        words.push(String::from_str(alloc, word)?)?;
    }
    Ok(words)
}

/// The limits that a line of words names.
fn limits_of(alloc: Global, line: &str) -> Result<Option<Limits>, OutOfMemory> {
    let words = words_of(alloc, line)?;
    limits_of_words(alloc, words.as_slice())
}

/// The load that a line of words names.
fn load_of(alloc: Global, line: &str) -> Result<Option<LoadNumbers>, OutOfMemory> {
    let words = words_of(alloc, line)?;
    load_of_words(alloc, words.as_slice())
}

/// The least of all limits.
const LEAST: Limits = Limits {
    columns: 1,
    ranges: 1,
    tails: 1,
    sessions: 1,
    txns: 1,
    spare: 1,
    indexed: 1,
};

/// The greatest of all limits.
const GREATEST: Limits = Limits {
    columns: 8,
    ranges: 64,
    tails: 16_384,
    sessions: 16,
    txns: 65_535,
    spare: 64,
    indexed: 128,
};

#[test]
fn each_option_gives_its_limit(rt: HostRuntime) -> Result<(), OutOfMemory> {
    let found = limits_of(rt.alloc(), "run")?;
    same(&rt, found, Some(Limits::default()), "none");
    let line = "run --columns 1 --ranges=1 --tails 01 --sessions 1 --txns 1 --spare=1 --index 0";
    same(&rt, limits_of(rt.alloc(), line)?, Some(LEAST), line);
    let line =
        "run --index 7 --spare 64 --txns 65535 --sessions 16 --tails 16384 --ranges 64 --columns 8";
    same(&rt, limits_of(rt.alloc(), line)?, Some(GREATEST), line);
    Ok(())
}

#[test]
fn other_words_name_no_limits(rt: HostRuntime) -> Result<(), OutOfMemory> {
    for &line in &[
        "run --ranges 0",
        "run --ranges 65",
        "run --columns 9",
        "run --tails 16385",
        "run --sessions 17",
        "run --txns 65536",
        "run --spare 65",
        "run --columns 1 --index 1",
        "run --index 2",
        "run --index 18446744073709551616",
        "run --ranges 4294967297",
        "run --ranges -1",
        "run --ranges +1",
        "run --ranges 1x",
        "run --ranges=",
        "run --ranges",
        "run --ranges 1 --ranges 1",
        "run --ranges=1 --ranges=1",
        "run --range 1",
        "run --keys 1",
        "run --level 1",
        "run ranges 1",
        "run run",
        "run --help",
        "run -h",
        "run --version",
        "run 1",
    ] {
        same(&rt, limits_of(rt.alloc(), line)?, None, line);
    }
    Ok(())
}

/// An option with its least number, its greatest one, and the number behind that.
type Named<'a> = (&'a str, &'a str, &'a str, &'a str);

/// A line in which the words `NAME`, `LEAST`, `MOST` and `BEYOND` stand for those of an option.
fn filled(alloc: Global, form: &str, option: Named<'_>) -> Result<String, OutOfMemory> {
    let (name, least, most, beyond) = option;
    let line = form.replace(alloc, "NAME", name)?;
    let line = line.replace(alloc, "LEAST", least)?;
    let line = line.replace(alloc, "MOST", most)?;
    Ok(line.replace(alloc, "BEYOND", beyond)?)
}

/// A line of an option names limits, or none.
fn expect_form(
    rt: &impl Abort,
    alloc: Global,
    option: Named<'_>,
    form: &str,
    is_taken: bool,
) -> Result<(), OutOfMemory> {
    let line = filled(alloc, form, option)?;
    let found = limits_of(alloc, line.as_str())?;
    same(rt, found.is_some(), is_taken, (option.0, form));
    Ok(())
}

/// The forms of a line of an option, and whether it names limits.
const FORMS: [(&str, bool); 16] = [
    ("run --NAME LEAST", true),
    ("run --NAME=LEAST", true),
    ("run --NAME MOST", true),
    ("run --NAME=000MOST", true),
    ("run --NAME=MOST --", true),
    ("run --NAME BEYOND", false),
    ("run --NAME=BEYOND", false),
    ("run --NAME 00000000000000000000MOST", false),
    ("run --NAME", false),
    ("run --NAME=", false),
    ("run --NAME -MOST", false),
    ("run --NAME MOST MOST", false),
    ("run --NAME MOST --NAME=MOST", false),
    ("run -NAME MOST", false),
    ("run --NAMEs MOST", false),
    ("run -- --NAME MOST", false),
];

/// Each line of an option names limits, or none.
fn expect_each_form(rt: &impl Abort, alloc: Global, option: Named<'_>) -> Result<(), OutOfMemory> {
    for &(form, is_taken) in &FORMS {
        expect_form(rt, alloc, option, form, is_taken)?;
    }
    Ok(())
}

#[test]
fn each_option_is_read_in_every_form(rt: HostRuntime) -> Result<(), OutOfMemory> {
    for &option in &[
        ("columns", "1", "8", "9"),
        ("ranges", "1", "64", "65"),
        ("tails", "1", "16384", "16385"),
        ("sessions", "1", "16", "17"),
        ("txns", "1", "65535", "65536"),
        ("spare", "1", "64", "65"),
        ("index", "0", "1", "2"),
    ] {
        expect_each_form(&rt, rt.alloc(), option)?;
    }
    Ok(())
}

/// A line names the load of these numbers.
fn loads(
    rt: &impl Abort,
    alloc: Global,
    line: &str,
    seed: u64,
    keys: u32,
    sessions: u32,
) -> Result<(), OutOfMemory> {
    let wanted = LoadNumbers {
        seed,
        keys,
        sessions,
    };
    same(rt, load_of(alloc, line)?, Some(wanted), line);
    Ok(())
}

#[test]
fn each_option_gives_its_number_of_a_load(rt: HostRuntime) -> Result<(), OutOfMemory> {
    for &(line, seed, keys, sessions) in &[
        ("load", 1, 1_000, 4),
        ("load --", 1, 1_000, 4),
        ("load --seed 7", 7, 1_000, 4),
        ("load --keys=8", 1, 8, 4),
        ("load --sessions 09", 1, 1_000, 9),
        (
            "load --sessions 1 --keys 1 --seed=00000000000000000000",
            0,
            1,
            1,
        ),
        (
            "load --seed 18446744073709551615 --keys 4096 --sessions=16",
            18_446_744_073_709_551_615,
            4_096,
            16,
        ),
    ] {
        loads(&rt, rt.alloc(), line, seed, keys, sessions)?;
    }
    Ok(())
}

#[test]
fn other_words_name_no_load(rt: HostRuntime) -> Result<(), OutOfMemory> {
    for &line in &[
        "load x",
        "load 1",
        "load load",
        "load --keys 0",
        "load --keys 4097",
        "load --keys 4294967297",
        "load --sessions 0",
        "load --sessions 17",
        "load --seed 18446744073709551616",
        "load --seed 000000000000000000001",
        "load --seed -1",
        "load --seed 1x",
        "load --seed=",
        "load --seed",
        "load --seed 1 --seed 1",
        "load --keys=1 --keys=1",
        "load --tails 3",
        "load --ranges 1",
        "load --columns 1",
        "load --index 0",
        "load --help",
        "load -h",
        "load --version",
    ] {
        same(&rt, load_of(rt.alloc(), line)?, None, line);
    }
    Ok(())
}

/// The ranges and the time that a line of words names.
fn time_of(alloc: Global, line: &str) -> Result<Option<(u32, u64)>, OutOfMemory> {
    let words = words_of(alloc, line)?;
    match as_of_of_words(alloc, words.as_slice())? {
        Some(options) => Ok(Some((options.limits.ranges, options.time))),
        None => Ok(None),
    }
}

#[test]
fn time_is_named_beside_limits(rt: HostRuntime) -> Result<(), OutOfMemory> {
    for &(line, wanted) in &[
        ("asof", Some((4, 0))),
        ("asof --time 3 --ranges 2", Some((2, 3))),
        ("asof --time=18446744073709551615", Some((4, u64::MAX))),
        ("asof --time 18446744073709551616", None),
        ("asof --time", None),
        ("asof --time 1 --time 1", None),
        ("asof --ranges 65", None),
        ("asof --seed 1", None),
    ] {
        same(&rt, time_of(rt.alloc(), line)?, wanted, line);
    }
    Ok(())
}

/// The ranges, and the numbers of a disk.
type Disk = (u32, u32, bool, u32);

/// The ranges and the disk that a line of words names.
fn disk_of(alloc: Global, line: &str) -> Result<Option<Disk>, OutOfMemory> {
    let words = words_of(alloc, line)?;
    match crash_of_words(alloc, words.as_slice())? {
        Some(options) => {
            let disk = options.disk;
            let ranges = options.limits.ranges;
            Ok(Some((ranges, disk.stop, disk.torn, disk.bytes)))
        }
        None => Ok(None),
    }
}

#[test]
fn a_disk_is_named_beside_limits(rt: HostRuntime) -> Result<(), OutOfMemory> {
    for &(line, wanted) in &[
        ("crash", Some((4, 1_000_000, false, 65_536))),
        (
            "crash --stop 4 --torn 1 --bytes 64 --ranges 2",
            Some((2, 4, true, 64)),
        ),
        (
            "crash --torn=0 --bytes=262144 --stop=0",
            Some((4, 0, false, 262_144)),
        ),
        ("crash --stop 1000001", None),
        ("crash --torn 2", None),
        ("crash --bytes 63", None),
        ("crash --bytes 262145", None),
        ("crash --stop 1 --stop 1", None),
        ("crash --torn", None),
        ("crash --ranges 65", None),
        ("crash --time 1", None),
    ] {
        same(&rt, disk_of(rt.alloc(), line)?, wanted, line);
    }
    Ok(())
}

/// The number of a level.
fn numbered(level: Level) -> u32 {
    match level {
        Level::Snapshot => 1,
        Level::Serializable => 2,
    }
}

/// The ranges and the level that a line of words names.
fn level_of(alloc: Global, line: &str) -> Result<Option<(u32, u32)>, OutOfMemory> {
    let words = words_of(alloc, line)?;
    match level_of_words(alloc, words.as_slice())? {
        Some(options) => Ok(Some((options.limits.ranges, numbered(options.level)))),
        None => Ok(None),
    }
}

#[test]
fn level_is_named_beside_limits(rt: HostRuntime) -> Result<(), OutOfMemory> {
    for &(line, wanted) in &[
        ("check", Some((4, 1))),
        ("check --level 1", Some((4, 1))),
        ("check --level 2", Some((4, 2))),
        ("check --level=2 --ranges 2", Some((2, 2))),
        ("check --ranges=2 --level=01", Some((2, 1))),
        ("check --level 0", None),
        ("check --level 3", None),
        ("check --level 12", None),
        ("check --level -1", None),
        ("check --level 2x", None),
        ("check --level=", None),
        ("check --level", None),
        ("check --level 18446744073709551617", None),
        ("check --level 1 --level 2", None),
        ("check --level 2 --ranges 65", None),
        ("check --level 2 --time 1", None),
        ("check level 2", None),
    ] {
        same(&rt, level_of(rt.alloc(), line)?, wanted, line);
    }
    Ok(())
}

/// The columns that a line of words names.
fn columns_of(alloc: Global, line: &str) -> Result<Option<u32>, OutOfMemory> {
    let words = words_of(alloc, line)?;
    match table_of_words(alloc, words.as_slice())? {
        Some(limits) => Ok(Some(limits.columns)),
        None => Ok(None),
    }
}

#[test]
fn columns_are_named_alone(rt: HostRuntime) -> Result<(), OutOfMemory> {
    for &(line, wanted) in &[
        ("import", Some(2)),
        ("import --columns 1", Some(1)),
        ("import --columns=8", Some(8)),
        ("import --columns 0", None),
        ("import --columns 9", None),
        ("import --columns", None),
        ("import --columns 3 --columns 3", None),
        ("import --ranges 4", None),
        ("import table", None),
    ] {
        same(&rt, columns_of(rt.alloc(), line)?, wanted, line);
    }
    Ok(())
}
