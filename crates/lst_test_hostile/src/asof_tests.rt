//! Past tables: what `asof` writes at each time is what a transaction as of that time scans.

use crate::calls::{same, written};
use lst_model::OutOfMemory;
use std::alloc::{AllocError, Global};
use std::process::Abort;
use std::sync::Wait;
use std::thread::Threads;

/// The bytes behind the first newline.
pub(crate) fn behind_line(bytes: &[u8]) -> &[u8] {
    match bytes.iter().position(|byte| *byte == b'\n') {
        Some(place) => &bytes[place + 1..],
        None => bytes,
    }
}

/// The bytes without this last line, where they end with it.
pub(crate) fn without_last<'a>(bytes: &'a [u8], line: &[u8]) -> &'a [u8] {
    match bytes.strip_suffix(line) {
        Some(front) => front,
        None => bytes,
    }
}

/// What a look at a script's table at a time tells.
pub(crate) fn looked(
    rt: &(impl Abort + Threads + Wait + Sync),
    alloc: Global,
    script: &str,
    time: u64,
) -> Result<Vec<u8>, OutOfMemory> {
    let words = format!(in alloc; "asof --time {time}")?;
    written(rt, alloc, words.as_str(), script)
}

/// What a run answers that scans a script's table as of a time behind it.
fn scanned(
    rt: &(impl Abort + Threads + Wait + Sync),
    alloc: Global,
    script: &str,
    time: u64,
) -> Result<Vec<u8>, OutOfMemory> {
    let input = format!(in alloc; "{script}3 asof {time}\n3 scan\n")?;
    written(rt, alloc, "run", input.as_str())
}

/// A look tells the rows that a transaction as of the same time scans behind the script, or the time that the refusal of such a
/// transaction names, behind which a scan finds none.
fn is_scanned(
    rt: &(impl Abort + Threads + Wait + Sync),
    alloc: Global,
    script: &str,
    time: u64,
) -> Result<(), OutOfMemory> {
    let looked = looked(rt, alloc, script, time)?;
    let scanned = scanned(rt, alloc, script, time)?;
    let told = behind_line(looked.as_slice());
    let answers = without_last(scanned.as_slice(), b"3 refused idle\n");
    same(rt, !told.is_empty() && answers.ends_with(told), true, time);
    Ok(())
}

/// A drawn write on a row of the key.
fn drawn_write(alloc: Global, key: u64, number: u64, turn: u64) -> Result<String, AllocError> {
    match number % 4 {
        0 => format!(in alloc; "delete {key}"),
        1 => format!(in alloc; "update {key} b=null"),
        2 => format!(in alloc; "update {key} a={number}"),
        _ => format!(in alloc; "insert {key} a={number} b={turn}"),
    }
}

/// The small transaction of a turn, from the state of what is drawn.
fn drawn_transaction(alloc: Global, state: u64, turn: u64) -> Result<String, AllocError> {
    let key = state / 65_536 % 8;
    let number = state / 4_294_967_296 % 1_000;
    let write = drawn_write(alloc, key, number, turn)?;
    let session = turn % 3;
    format!(in alloc; "{session} begin\n{session} {write}\n{session} commit\n")
}

/// A script of many small transactions on eight keys, drawn from a number.
pub(crate) fn drawn(alloc: Global, seed: u64) -> Result<String, OutOfMemory> {
    let mut script = String::from_str(alloc, "version 2 a b\n")?;
    let mut state = seed;
    for turn in 0..24u64 {
        state = state
            .wrapping_mul(6_364_136_223_846_793_005)
            .wrapping_add(1);
        let lines = drawn_transaction(alloc, state, turn)?;
        script.push_str(lines.as_str())?;
    }
    Ok(script)
}

/// The table of a script at each of its times is the one that is scanned.
fn all_are_scanned(
    rt: &(impl Abort + Threads + Wait + Sync),
    alloc: Global,
    script: &str,
) -> Result<(), OutOfMemory> {
    for time in 0..10u64 {
        is_scanned(rt, alloc, script, time)?;
    }
    is_scanned(rt, alloc, script, 25)
}

#[test]
fn drawn_past_tables_are_those_that_are_scanned(rt: HostRuntime) -> Result<(), OutOfMemory> {
    for seed in 1..5u64 {
        let script = drawn(rt.alloc(), seed)?;
        all_are_scanned(&rt, rt.alloc(), script.as_str())?;
    }
    Ok(())
}
