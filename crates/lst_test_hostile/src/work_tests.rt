//! Sessions at work: what `work` writes for a script is a report that `check` judges to be legal.

use crate::calls::{SOUND, Wanted, all_come_to, called, comes_to, failing, same};
use lst_command::{FreeGate, Gate, Status};
use lst_model::OutOfMemory;
use lst_script::FaultKind;
use std::alloc::Global;
use std::process::Abort;
use std::sync::Wait;
use std::sync::atomic::{AtomicU64, Ordering};
use std::thread::Threads;

/// Two sessions that write the same rows, with merges beside them, in two phases.
const TWO_PHASES: &str =
    "0 begin\n0 insert 1 10 20\n0 insert 2 30 40\n0 commit\n1 begin\n1 insert 1 11 21\n1 insert 3 50 60\n1 commit\n1 begin\n1 get 1\n1 count\n1 commit\nmerge 0 0\nmerge 0 1\nphase\n0 begin\n0 update 1 12 _\n0 get 1\n0 commit\n0 begin\n0 update 3 _ 61\n0 delete 2\n0 abort\n0 begin\n0 sum 1\n0 scan\n0 commit\nmerge 0 0\n1 begin\n1 update 1 _ 22\n1 update 2 31 _\n1 commit\n1 asof 1\n1 get 1\n1 scan\n1 commit\nmerge 0 1\n1 begin\n1 delete 1\n1 sum 0\n1 commit\nmerge 0 0\n";

/// More writes and merges than a range of eight tails and one spare frame can take.
const TIGHT: &str =
    "0 begin\n0 insert 1 1 1\n0 insert 2 2 2\n0 commit\nmerge 0 0\n1 begin\n1 insert 3 3 3\n1 update 1 9 _\n1 get 2\n1 commit\nmerge 0 1\nmerge 0 0\n0 begin\n0 update 1 4 _\n0 update 3 _ 5\n0 commit\nmerge 0 0\nphase\nmerge 0 1\n1 begin\n1 update 2 6 _\n1 update 1 _ 7\n1 sum 0\n1 commit\nmerge 0 0\n0 begin\n0 get 1\n0 update 2 8 8\n0 update 3 8 8\n0 delete 1\n0 commit\n0 begin\n0 scan\n0 commit\n0 begin\nmerge 0 1\nmerge 0 0\n";

/// Lets the lines that it names pass one after another, in this order, and all others freely.
#[derive(Drop)]
struct InOrder<'a, R: Wait + Sync> {
    rt: &'a R,
    lines: &'a [u64],
    next: AtomicU64,
}

impl<'a, R: Wait + Sync> Gate for InOrder<'a, R> {
    fn at(&self, _session: u32, line: u64, after: bool) {
        let Some(place) = self.lines.iter().position(|named| *named == line) else {
            return;
        };
        let place = place as u64;
        if after {
            self.next.store(place.wrapping_add(1), Ordering::SeqCst);
            return;
        }
        for _ in self.rt.forever() {
            if self.next.load(Ordering::SeqCst) == place {
                return;
            }
        }
    }
}

/// What sessions at work write for a script, under a gate.
fn worked<R: Abort + Threads + Wait + Sync, G: Gate + Sync>(
    rt: &R,
    alloc: Global,
    options: &str,
    script: &str,
    gate: &G,
) -> Result<Vec<u8>, OutOfMemory> {
    let words = format!(in alloc; "work {options}")?;
    let worked = called(rt, alloc, words.as_str(), script.as_bytes(), &SOUND, gate)?;
    same(rt, worked.status, Status::Done, options);
    let has_left = worked.left.is_some() && worked.errors.taken().is_empty();
    same(rt, has_left, true, options);
    Ok(worked.sink.taken().to_vec(alloc)?)
}

/// A script with its report.
fn claim(alloc: Global, script: &str, report: &[u8]) -> Result<Vec<u8>, OutOfMemory> {
    let mut claim = script.as_bytes().to_vec(alloc)?;
    claim.extend_from_slice(b"report\n")?;
    claim.extend_from_slice(report)?;
    Ok(claim)
}

/// A report is judged to be legal for its script.
fn is_legal(
    rt: &(impl Abort + Threads + Wait + Sync),
    alloc: Global,
    options: &str,
    script: &str,
    report: &[u8],
) -> Result<(), OutOfMemory> {
    let claim = claim(alloc, script, report)?;
    let words = format!(in alloc; "check {options}")?;
    let (line, input) = (words.as_str(), claim.as_slice());
    let wanted = Wanted::output("legal\n");
    comes_to(rt, alloc, 0, line, input, &SOUND, wanted)
}

/// What sessions at work write for a script, under a gate: it is judged to be legal.
pub(crate) fn report_of<R: Abort + Threads + Wait + Sync, G: Gate + Sync>(
    rt: &R,
    alloc: Global,
    options: &str,
    script: &str,
    gate: &G,
) -> Result<Vec<u8>, OutOfMemory> {
    let report = worked(rt, alloc, options, script, gate)?;
    is_legal(rt, alloc, options, script, report.as_slice())?;
    Ok(report)
}

/// Two sessions at work on a script, again and again: each report is judged to be legal.
fn reports_are_legal(
    rt: &(impl Abort + Threads + Wait + Sync),
    alloc: Global,
    options: &str,
    script: &str,
) -> Result<(), OutOfMemory> {
    for _ in 0..20u32 {
        report_of(rt, alloc, options, script, &FreeGate)?;
    }
    Ok(())
}

/// Two sessions at work, while these lines pass in this order: what they write, which is judged to be legal.
fn writes_in_order(
    rt: &(impl Abort + Threads + Wait + Sync),
    alloc: Global,
    script: &str,
    lines: &[u64],
    wanted: &str,
) -> Result<(), OutOfMemory> {
    let gate = InOrder {
        rt,
        lines,
        next: AtomicU64::new(0),
    };
    let report = report_of(rt, alloc, "--sessions 2", script, &gate)?;
    same(rt, report.as_slice(), wanted.as_bytes(), lines);
    Ok(())
}

#[test]
fn two_sessions_at_work_write_a_legal_report(rt: HostRuntime) -> Result<(), OutOfMemory> {
    reports_are_legal(&rt, rt.alloc(), "--sessions 2", TWO_PHASES)?;
    reports_are_legal(&rt, rt.alloc(), "--sessions 2 --level 2", TWO_PHASES)
}

/// Two sessions that each read the row that the other one writes. The ends of phases put their calls into this order.
const SKEW: &str =
    "2 begin\n2 insert 1 1 0\n2 insert 2 1 0\n2 commit\nphase\n0 begin\n0 get 1\n0 update 2 0 _\nphase\n1 begin\n1 get 2\n1 update 1 0 _\nphase\n0 commit\nphase\n1 commit\n";

/// What both sessions answer to it, up to the second commit.
const SKEWED: &str =
    "2 begun 0\n2 ok\n2 ok\n2 committed 1\n0 begun 1\n0 row 1 0\n0 ok\n1 begun 1\n1 row 1 0\n1 ok\n0 committed 2\n";

/// Under these options the report of both sessions ends so.
fn skew_ends(
    rt: &(impl Abort + Threads + Wait + Sync),
    alloc: Global,
    options: &str,
    end: &str,
) -> Result<(), OutOfMemory> {
    let report = report_of(rt, alloc, options, SKEW, &FreeGate)?;
    let found = report.as_slice().strip_prefix(SKEWED.as_bytes());
    same(rt, found, Some(end.as_bytes()), options);
    Ok(())
}

#[test]
fn write_skew_is_stale_at_level_2_alone(rt: HostRuntime) -> Result<(), OutOfMemory> {
    let skewed = "1 committed 3\nhistory 3\n1 2 1 0\n2 0 1 1\n3 1 1 1\n";
    let stale = "1 conflict stale 2\nhistory 2\n1 2 1 0\n2 0 1 1\n";
    skew_ends(&rt, rt.alloc(), "--sessions 3", skewed)?;
    skew_ends(&rt, rt.alloc(), "--sessions 3 --level 1", skewed)?;
    skew_ends(&rt, rt.alloc(), "--sessions 3 --level=2", stale)
}

#[test]
fn a_line_that_is_held_back_sees_what_was_done_before_it(
    rt: HostRuntime,
) -> Result<(), OutOfMemory> {
    let alloc = rt.alloc();
    let script = "0 begin\n0 insert 7 10 20\n0 commit\n1 begin\n1 get 7\n1 commit\n";
    writes_in_order(
        &rt,
        alloc,
        script,
        &[3, 4],
        "0 begun 0\n0 ok\n0 committed 1\n1 begun 1\n1 row 10 20\n1 ended 1\nhistory 1\n1 0 1 0\n",
    )?;
    writes_in_order(
        &rt,
        alloc,
        script,
        &[6, 3],
        "0 begun 0\n0 ok\n0 committed 1\n1 begun 0\n1 none\n1 ended 0\nhistory 1\n1 0 1 0\n",
    )?;
    writes_in_order(
        &rt,
        alloc,
        "0 begin\n0 insert 7 1 1\n0 commit\n1 begin\n1 insert 7 2 2\n1 abort\n",
        &[2, 5, 3],
        "0 begun 0\n0 ok\n0 committed 1\n1 begun 0\n1 conflict open 0 1\n1 aborted\nhistory 1\n1 0 1 0\n",
    )
}

#[test]
fn merges_over_tight_limits_give_a_legal_report(rt: HostRuntime) -> Result<(), OutOfMemory> {
    let options = "--sessions 2 --ranges 1 --tails 8 --txns 3 --spare 1";
    reports_are_legal(&rt, rt.alloc(), options, TIGHT)?;
    let options = "--sessions 2 --ranges 1 --tails 8 --txns 3 --spare 1 --level 2";
    reports_are_legal(&rt, rt.alloc(), options, TIGHT)
}

/// A fault of a line of work is told.
const FAULTY: Wanted<'static> = Wanted {
    status: Status::BadScript {
        line: 2,
        kind: FaultKind::BadSession,
    },
    output: b"",
    message: b"lstore: line 2: no such session\n",
};

/// The sink of work fails at its second call.
const CUT: Wanted<'static> = Wanted {
    status: Status::WriteFault,
    output: b"0 beg",
    message: b"lstore: write failed\n",
};

#[test]
fn the_edges_of_work_are_those_of_run(rt: HostRuntime) -> Result<(), OutOfMemory> {
    all_come_to(
        &rt,
        rt.alloc(),
        &[
            ("work", b"", Wanted::output("history 0\n")),
            ("work --sessions 1", b"0 begin\n1 begin\n", FAULTY),
        ],
    )?;
    let ends = failing(0, 2, 0);
    comes_to(&rt, rt.alloc(), 2, "work", b"0 begin\n", &ends, CUT)
}
