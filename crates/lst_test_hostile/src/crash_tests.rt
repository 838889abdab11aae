//! Scripts that are crashed: what is recovered is the table at the last commit that was acknowledged, or at the one behind it.

use crate::asof_tests::{behind_line, drawn, looked, without_last};
use crate::calls::{same, written};
use lst_model::OutOfMemory;
use std::alloc::Global;
use std::process::Abort;
use std::sync::Wait;
use std::thread::Threads;

/// The bytes without a last line that tells of a commit at which the disk stopped, where they end with one.
fn without_stopped(bytes: &[u8]) -> &[u8] {
    let bytes = without_last(bytes, b"0 stopped\n");
    let bytes = without_last(bytes, b"1 stopped\n");
    without_last(bytes, b"2 stopped\n")
}

/// What is written where the disk stops once the opening and so many calls behind it were made.
fn crashed(
    rt: &(impl Abort + Threads + Wait + Sync),
    alloc: Global,
    script: &str,
    calls: u64,
    torn: u64,
) -> Result<Vec<u8>, OutOfMemory> {
    let stop = calls.wrapping_add(1);
    let words = format!(in alloc; "crash --stop {stop} --torn {torn}")?;
    written(rt, alloc, words.as_str(), script)
}

/// The last lines where so many commits are recovered: their number, and the rows that a look at that time tells.
fn last_lines(
    rt: &(impl Abort + Threads + Wait + Sync),
    alloc: Global,
    script: &str,
    recovered: u64,
) -> Result<Vec<u8>, OutOfMemory> {
    let looked = looked(rt, alloc, script, recovered)?;
    let rows = behind_line(looked.as_slice());
    same(rt, rows.starts_with(b"rows"), true, recovered);
    let mut lines = format!(in alloc; "recovered {recovered}\n")?.into_bytes();
    lines.extend_from_slice(rows)?;
    Ok(lines)
}

/// Lines are answered as when a script runs, up to the commit at which the disk stopped.
fn are_answered_up_to_the_stop(
    rt: &(impl Abort + Threads + Wait + Sync),
    alloc: Global,
    script: &str,
    lines: &[u8],
) -> Result<(), OutOfMemory> {
    let ran = written(rt, alloc, "run", script)?;
    let answers = without_stopped(lines);
    let is_front = answers.len() < lines.len() && ran.as_slice().starts_with(answers);
    same(rt, is_front, true, lines);
    Ok(())
}

/// A disk that stops once the opening and so many calls behind it were made: the lines are answered as when they run, up to the commit at which it stopped.
/// Four calls acknowledge a commit, and the third one writes the gate of its record, which a disk that keeps all that was written has.
fn is_recovered(
    rt: &(impl Abort + Threads + Wait + Sync),
    alloc: Global,
    script: &str,
    calls: u64,
    torn: u64,
) -> Result<(), OutOfMemory> {
    let recovered = (calls / 4).wrapping_add(if calls % 4 == 3 { torn } else { 0 });
    let crashed = crashed(rt, alloc, script, calls, torn)?;
    let last = last_lines(rt, alloc, script, recovered)?;
    let is_last = crashed.as_slice().ends_with(last.as_slice());
    same(rt, is_last, true, (calls, torn));
    let lines = without_last(crashed.as_slice(), last.as_slice());
    are_answered_up_to_the_stop(rt, alloc, script, lines)
}

/// A script is recovered wherever its disk stops, torn and not.
fn is_recovered_at_each_call(
    rt: &(impl Abort + Threads + Wait + Sync),
    alloc: Global,
    script: &str,
) -> Result<(), OutOfMemory> {
    for calls in 0..14u64 {
        is_recovered(rt, alloc, script, calls, 0)?;
        is_recovered(rt, alloc, script, calls, 1)?;
    }
    Ok(())
}

#[test]
fn drawn_scripts_are_recovered_up_to_their_last_commit(rt: HostRuntime) -> Result<(), OutOfMemory> {
    for seed in 1..4u64 {
        let script = drawn(rt.alloc(), seed)?;
        is_recovered_at_each_call(&rt, rt.alloc(), script.as_str())?;
    }
    Ok(())
}
