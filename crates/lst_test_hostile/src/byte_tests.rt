//! A script with its report, of which each byte is replaced.

use crate::calls::{SOUND, Wanted, comes_to, same};
use lst_command::Status;
use lst_layout::Limits;
use lst_legal::are_sessions_below;
use lst_model::OutOfMemory;
use lst_report::{Report, ReportFault, legal, parse_report};
use lst_script::{FaultKind, Script, ScriptFault, parse};
use std::alloc::{AllocError, Global};
use std::process::Abort;
use std::sync::Wait;
use std::thread::Threads;

/// A report of a commit and of a sum that sees it, behind its script. It is legal.
const CLAIM: &str =
    "0 begin\n0 insert 7 10 20\n0 commit\n1 begin\n1 sum 0\n1 commit\nreport\n0 begun 0\n0 ok\n0 committed 1\n1 begun 1\n1 sum 10\n1 ended 1\nhistory 1\n1 0 1 0\n";

/// How many newlines a text has.
fn newlines(text: &[u8]) -> u64 {
    text.iter().filter(|byte| **byte == b'\n').count() as u64
}

/// Where the first line `report` begins and where the next one does, or None.
fn mark_in(text: &[u8]) -> Option<(usize, usize)> {
    let mut start = 0usize;
    for line in text.split(|byte| *byte == b'\n') {
        let behind = start.wrapping_add(line.len()).wrapping_add(1);
        if line == b"report".as_slice() {
            return Some((start, behind));
        }
        start = behind;
    }
    None
}

/// A fault of a line.
fn fault(line: u64, kind: FaultKind) -> Status {
    Status::BadScript { line, kind }
}

/// The status of a fault of a script.
fn of_script(found: ScriptFault) -> Result<Status, OutOfMemory> {
    match found {
        ScriptFault::Bad { line, kind } => Ok(fault(line, kind)),
        ScriptFault::OutOfMemory => Err(OutOfMemory),
    }
}

/// The status of a script and of a report that are read.
fn of_report(
    rt: &impl Abort,
    alloc: Global,
    script: &Script,
    report: &Report,
) -> Result<Status, OutOfMemory> {
    let limits = Limits::default();
    let lines = script.unpacked(alloc)?;
    assert!(rt; are_sessions_below(limits.sessions, lines.as_slice()));
    if legal(alloc, &limits, lines.as_slice(), report)? {
        Ok(Status::Done)
    } else {
        Ok(Status::Illegal)
    }
}

/// The status of a text without a line `report`.
fn without_report(alloc: Global, text: &[u8]) -> Result<Status, OutOfMemory> {
    if let Err(found) = parse(alloc, text, &Limits::default()) {
        return of_script(found);
    }
    let is_open = text.last().copied().unwrap_or(b'\n') != b'\n';
    let lines = newlines(text).wrapping_add(u64::from(is_open));
    Ok(fault(lines.wrapping_add(1), FaultKind::NoReport))
}

/// The status of a script that is read and of the text of its report, behind so many lines.
fn with_report(
    rt: &impl Abort,
    alloc: Global,
    script: &Script,
    report: &[u8],
    lines: u64,
) -> Result<Status, OutOfMemory> {
    match parse_report(alloc, report, 2) {
        Ok(report) => of_report(rt, alloc, script, &report),
        Err(ReportFault::Bad { line }) => Ok(fault(lines.wrapping_add(line), FaultKind::BadReport)),
        Err(ReportFault::OutOfMemory) => Err(OutOfMemory),
    }
}

/// The status of a text, by its script and its report, read apart.
fn status_of(rt: &impl Abort, alloc: Global, text: &[u8]) -> Result<Status, OutOfMemory> {
    let Some((front, behind)) = mark_in(text) else {
        return without_report(alloc, text);
    };
    let front = text.get(..front).unwrap_or(b"0 fly");
    let report = text.get(behind..).unwrap_or(b"");
    let lines = newlines(front).wrapping_add(1);
    match parse(alloc, front, &Limits::default()) {
        Ok(script) => with_report(rt, alloc, &script, report, lines),
        Err(found) => of_script(found),
    }
}

/// The verdict of a status, and its line of errors.
fn texts_of(
    rt: &impl Abort,
    alloc: Global,
    status: &Status,
) -> Result<(&'static str, String), AllocError> {
    match status {
        Status::Done => Ok(("legal\n", String::new(alloc))),
        Status::Illegal => Ok(("illegal\n", String::new(alloc))),
        Status::BadScript { line, kind } => {
            let fault = kind.text();
            Ok(("", format!(in alloc; "lstore: line {line}: {fault}\n")?))
        }
        _ => panic!(rt; "a text is judged or refused"),
    }
}

/// How many texts came to each verdict.
#[derive(Drop)]
struct Counts {
    legal: u64,
    illegal: u64,
    faulty: u64,
}

impl Counts {
    fn count(&mut self, status: &Status) {
        match status {
            Status::Done => self.legal = self.legal.wrapping_add(1),
            Status::Illegal => self.illegal = self.illegal.wrapping_add(1),
            _ => self.faulty = self.faulty.wrapping_add(1),
        }
    }
}

/// Compares what `check` makes of a text with what its parts are.
fn is_judged(
    rt: &(impl Abort + Threads + Wait + Sync),
    alloc: Global,
    label: u64,
    text: &[u8],
    counts: &mut Counts,
) -> Result<(), OutOfMemory> {
    let status = status_of(rt, alloc, text)?;
    counts.count(&status);
    let (verdict, message) = texts_of(rt, alloc, &status)?;
    let wanted = Wanted {
        status,
        output: verdict.as_bytes(),
        message: message.as_str().as_bytes(),
    };
    comes_to(rt, alloc, label, "check", text, &SOUND, wanted)
}

/// Compares them where the byte at a place is replaced.
fn is_replaced_and_judged(
    rt: &(impl Abort + Threads + Wait + Sync),
    alloc: Global,
    place: usize,
    byte: u8,
    counts: &mut Counts,
) -> Result<(), OutOfMemory> {
    let mut text = CLAIM.as_bytes().to_vec(alloc)?;
    if let Some(old) = text.get_mut(place) {
        *old = byte;
    }
    is_judged(rt, alloc, place as u64, text.as_slice(), counts)
}

#[test]
fn a_report_of_which_a_byte_is_replaced_is_judged_as_its_parts_are(
    rt: HostRuntime,
) -> Result<(), OutOfMemory> {
    let mut counts = Counts {
        legal: 0,
        illegal: 0,
        faulty: 0,
    };
    for place in 0..CLAIM.len() {
        for byte in b" 9\n".as_slice() {
            is_replaced_and_judged(&rt, rt.alloc(), place, *byte, &mut counts)?;
        }
    }
    let is_varied = counts.legal > 5 && counts.illegal > 5 && counts.faulty > 200;
    same(&rt, is_varied, true, "verdicts");
    Ok(())
}
