//! Sessions at work while a line of one waits until a line of another is answered: `check` judges each report to be legal.

use crate::calls::same;
use crate::work_tests::report_of;
use lst_command::Gate;
use lst_model::OutOfMemory;
use std::alloc::Global;
use std::process::Abort;
use std::sync::Wait;
use std::sync::atomic::{AtomicBool, Ordering};
use std::thread::{Threads, yield_now};

/// The options of the store for each script.
const OPTIONS: &str = "--sessions 3 --ranges 1 --tails 40 --spare 2";

/// Session 0 puts two rows. Then both sessions write on them, with merges beside them.
const WRITERS: &str =
    "0 begin\n0 insert 1 10 20\n0 insert 2 30 40\n0 commit\nphase\n0 begin\n0 update 1 11 _\n0 get 2\n0 commit\nmerge 0 0\n1 begin\n1 get 1\n1 update 1 _ 21\n1 sum 0\n1 commit\nmerge 0 1\n0 begin\n0 scan\n0 commit\n";

/// Two sessions move an amount between two rows, and a third reads both.
const MOVERS: &str =
    "0 begin\n0 insert 1 50 0\n0 insert 2 50 0\n0 commit\nphase\n0 begin\n0 update 1 40 _\n0 update 2 60 _\n0 commit\n1 begin\n1 update 2 45 _\n1 update 1 55 _\n1 commit\n2 begin\n2 get 1\nmerge 0 0\n2 get 2\n2 sum 0\n2 commit\n2 begin\n2 delete 1\n2 commit\n";

/// A line, by its place in the script from 1 on, that waits until another line is answered.
#[derive(Clone, Copy)]
struct Hold {
    line: u64,
    until: u64,
}

/// How many turns a line that is held takes. Then it passes all the same: the other line may be one that no thread has begun.
const TURNS: u32 = 1_000_000;

/// Holds a line back, and lets all others pass.
#[derive(Drop)]
struct HoldingGate {
    hold: Hold,
    turns: u32,
    may_pass: AtomicBool,
    ran_out: AtomicBool,
}

impl HoldingGate {
    fn new(hold: Hold, turns: u32) -> HoldingGate {
        HoldingGate {
            hold,
            turns,
            may_pass: AtomicBool::new(false),
            ran_out: AtomicBool::new(false),
        }
    }

    /// Waits until the line may pass, or has taken its turns.
    fn wait(&self) {
        for _ in 0..self.turns {
            if self.may_pass.load(Ordering::SeqCst) {
                return;
            }
            yield_now();
        }
        self.ran_out.store(true, Ordering::SeqCst);
    }
}

impl Gate for HoldingGate {
    fn at(&self, _session: u32, line: u64, after: bool) {
        if after && line == self.hold.until {
            self.may_pass.store(true, Ordering::SeqCst);
        }
        if !after && line == self.hold.line {
            self.wait();
        }
    }
}

/// Session 2 puts a row. Then two sessions write it, each in a transaction of its own.
const RIVALS: &str =
    "2 begin\n2 insert 7 10 20\n2 commit\nphase\n0 begin\n0 update 7 11 _\n0 commit\n1 begin\n1 update 7 12 _\n1 commit\n";

/// How a rival's transaction went.
#[derive(Clone, Copy, PartialEq, Eq, Debug)]
enum Went {
    /// It wrote and committed before the other began, or behind it.
    First,
    Second,
    /// Its write met the other's.
    Refused,
}

/// How a transaction went that was answered by these three lines, of which each begins with the session's number and a space.
fn course_of(begin: &[u8], write: &[u8], end: &[u8]) -> Option<Went> {
    let begin = begin.get(2..)?;
    let write = write.get(2..)?;
    let end = end.get(2..)?;
    let wrote = write == b"ok".as_slice();
    if begin == b"begun 1".as_slice() && wrote && end == b"committed 2".as_slice() {
        Some(Went::First)
    } else if begin == b"begun 2".as_slice() && wrote && end == b"committed 3".as_slice() {
        Some(Went::Second)
    } else if begin == b"begun 1".as_slice()
        && write.starts_with(b"conflict ")
        && end == b"ended 1".as_slice()
    {
        Some(Went::Refused)
    } else {
        None
    }
}

/// How the transactions of both rivals went, by a report.
fn both_went(report: &[u8]) -> Option<(Went, Went)> {
    let behind = report.strip_prefix(b"2 begun 0\n2 ok\n2 committed 1\n")?;
    let mut lines = behind.split(|byte| *byte == b'\n');
    let one = course_of(lines.next()?, lines.next()?, lines.next()?)?;
    let other = course_of(lines.next()?, lines.next()?, lines.next()?)?;
    Some((one, other))
}

/// One of the rivals wrote at last while the other saw it or was refused.
fn is_ended(both: Option<(Went, Went)>) -> bool {
    matches!(
        both,
        Some(
            (Went::First, Went::Second | Went::Refused)
                | (Went::Second | Went::Refused, Went::First)
        )
    )
}

/// The rivals at work at a level under a gate: the report is legal, and one of them wrote at last while the other saw it or was refused.
fn rivals_end<R: Abort + Threads + Wait + Sync>(
    rt: &R,
    alloc: Global,
    level: &str,
    gate: &HoldingGate,
) -> Result<(), OutOfMemory> {
    let report = report_of(rt, alloc, level, RIVALS, gate)?;
    let both = both_went(report.as_slice());
    same(rt, is_ended(both), true, both);
    Ok(())
}

/// The same at each level, while a line is held.
fn rivals_end_under<R: Abort + Threads + Wait + Sync>(
    rt: &R,
    alloc: Global,
    hold: Hold,
) -> Result<(), OutOfMemory> {
    rivals_end(rt, alloc, "", &HoldingGate::new(hold, TURNS))?;
    rivals_end(rt, alloc, "--level 2", &HoldingGate::new(hold, TURNS))
}

#[test]
fn two_rivals_write_one_after_the_other_or_one_is_refused(
    rt: HostRuntime,
) -> Result<(), OutOfMemory> {
    for hold in &[
        // A line of one is held until the other's line like it is answered.
        Hold { line: 5, until: 8 },
        Hold { line: 6, until: 9 },
        Hold { line: 7, until: 10 },
        Hold { line: 8, until: 5 },
        Hold { line: 9, until: 6 },
        Hold { line: 10, until: 7 },
        // One begins behind the other's commit.
        Hold { line: 5, until: 10 },
        Hold { line: 8, until: 7 },
    ] {
        rivals_end_under(&rt, rt.alloc(), *hold)?;
    }
    Ok(())
}

#[test]
fn two_sessions_are_at_work_at_the_same_time(rt: HostRuntime) -> Result<(), OutOfMemory> {
    let gate = HoldingGate::new(Hold { line: 5, until: 8 }, 100_000_000);
    rivals_end(&rt, rt.alloc(), "", &gate)?;
    same(&rt, gate.ran_out.load(Ordering::SeqCst), false, "ran out");
    Ok(())
}

/// A report of sessions at work is legal while a line is held.
fn is_legal_under<R: Abort + Threads + Wait + Sync>(
    rt: &R,
    alloc: Global,
    script: &str,
    hold: Hold,
) -> Result<(), OutOfMemory> {
    let gate = HoldingGate::new(hold, TURNS);
    report_of(rt, alloc, OPTIONS, script, &gate)?;
    Ok(())
}

#[test]
fn reports_of_two_writers_are_legal_under_each_gate(rt: HostRuntime) -> Result<(), OutOfMemory> {
    for hold in &[
        // A transaction begins behind the other's commit, or commits behind it.
        Hold { line: 11, until: 9 },
        Hold { line: 9, until: 15 },
        // One writes behind the other's write on the same row.
        Hold { line: 7, until: 13 },
        Hold { line: 13, until: 7 },
        // One reads behind the other's commit, with a begin before it or behind it.
        Hold { line: 12, until: 9 },
        Hold {
            line: 18,
            until: 15,
        },
        // A merge is made behind a commit, and a sum is answered behind a merge.
        Hold {
            line: 10,
            until: 15,
        },
        Hold {
            line: 14,
            until: 16,
        },
    ] {
        is_legal_under(&rt, rt.alloc(), WRITERS, *hold)?;
    }
    Ok(())
}

#[test]
fn reports_of_two_movers_and_a_reader_are_legal_under_each_gate(
    rt: HostRuntime,
) -> Result<(), OutOfMemory> {
    for hold in &[
        // The second write of one waits for the first of the other.
        Hold { line: 8, until: 11 },
        Hold { line: 12, until: 7 },
        // The reader's second read waits for a commit.
        Hold { line: 17, until: 9 },
        Hold {
            line: 17,
            until: 13,
        },
        // The reader begins between the two, or before both.
        Hold { line: 14, until: 9 },
        Hold { line: 6, until: 19 },
        // The merge waits for a commit, and the delete for the other writer's.
        Hold {
            line: 16,
            until: 13,
        },
        Hold {
            line: 21,
            until: 13,
        },
    ] {
        is_legal_under(&rt, rt.alloc(), MOVERS, *hold)?;
    }
    Ok(())
}
