//! Worked scripts with both merges of a range put between their lines: all other replies stay the same.

use crate::calls::{SOUND, Wanted, called, comes_to, same};
use crate::rows::{ROWS, Row};
use lst_command::{FreeGate, Status};
use lst_model::OutOfMemory;
use std::alloc::Global;
use std::process::Abort;
use std::sync::Wait;
use std::thread::Threads;

/// The lines of a text that a session's number begins, so all but merges and their replies.
fn without_merges(alloc: Global, text: &[u8]) -> Result<Vec<u8>, OutOfMemory> {
    let mut kept = Vec::new(alloc);
    let mut is_kept = true;
    let mut begins = true;
    for byte in text {
        if begins {
            is_kept = byte.is_ascii_digit();
        }
        if is_kept {
            kept.push(*byte)?;
        }
        begins = *byte == b'\n';
    }
    Ok(kept)
}

/// A script with merges of two columns behind its first lines, so many as `gap`, or behind each of its lines where there is no gap.
fn with_merges(alloc: Global, input: &str, gap: Option<u64>) -> Result<Vec<u8>, OutOfMemory> {
    let mut script = Vec::new(alloc);
    let mut place = 0u64;
    for byte in input.as_bytes() {
        script.push(*byte)?;
        if *byte == b'\n' {
            place = place.wrapping_add(1);
            if gap.unwrap_or(place) == place {
                script.extend_from_slice(b"merge 0 0\nmerge 0 1\n")?;
            }
        }
    }
    Ok(script)
}

/// How many lines a text has.
fn lines_of(text: &[u8]) -> u64 {
    text.iter().filter(|byte| **byte == b'\n').count() as u64
}

/// What is answered to a script with merges, a line to each of its lines.
fn answered(
    rt: &(impl Abort + Threads + Wait + Sync),
    alloc: Global,
    words: &str,
    script: &[u8],
) -> Result<Vec<u8>, OutOfMemory> {
    let shown = called(rt, alloc, words, script, &SOUND, &FreeGate)?;
    same(rt, shown.status, Status::Done, words);
    let lines = lines_of(shown.sink.taken());
    same(rt, lines, lines_of(script), words);
    without_merges(alloc, shown.sink.taken())
}

/// Compares what is answered to a script with merges in a gap, or in each.
fn stays(
    rt: &(impl Abort + Threads + Wait + Sync),
    alloc: Global,
    words: &str,
    row: &Row,
    gap: Option<u64>,
) -> Result<(), OutOfMemory> {
    let script = with_merges(alloc, row.input, gap)?;
    let told = answered(rt, alloc, words, script.as_slice())?;
    let wanted = without_merges(alloc, row.output.as_bytes())?;
    same(rt, told, wanted, (words, gap, row.input));
    Ok(())
}

/// The same for each gap of a script.
fn stays_at_each_gap(
    rt: &(impl Abort + Threads + Wait + Sync),
    alloc: Global,
    words: &str,
    row: &Row,
) -> Result<(), OutOfMemory> {
    for gap in 0..lines_of(row.input.as_bytes()) {
        stays(rt, alloc, words, row, Some(gap.wrapping_add(1)))?;
    }
    stays(rt, alloc, words, row, None)
}

/// The same for each gap of each script.
fn stay(
    rt: &(impl Abort + Threads + Wait + Sync),
    alloc: Global,
    words: &str,
) -> Result<(), OutOfMemory> {
    for row in ROWS.iter() {
        stays_at_each_gap(rt, alloc, words, row)?;
    }
    Ok(())
}

#[test]
fn worked_scripts_are_answered(rt: HostRuntime) -> Result<(), OutOfMemory> {
    let mut label = 0;
    for row in ROWS.iter() {
        let (input, wanted) = (row.input.as_bytes(), Wanted::output(row.output));
        comes_to(&rt, rt.alloc(), label, "run", input, &SOUND, wanted)?;
        label = label.wrapping_add(1);
    }
    Ok(())
}

#[test]
fn merges_in_each_gap_change_no_other_reply_with_one_spare_frame(
    rt: HostRuntime,
) -> Result<(), OutOfMemory> {
    stay(&rt, rt.alloc(), "run --spare 1")
}

#[test]
fn merges_in_each_gap_change_no_other_reply_with_eight_spare_frames(
    rt: HostRuntime,
) -> Result<(), OutOfMemory> {
    stay(&rt, rt.alloc(), "run --spare 8")
}
