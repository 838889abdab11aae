//! Texts with a script and a report, and each fault with its line.

use lst_layout::Limits;
use lst_report::{ReportFault, legal, parse_report, read_claim};
use lst_script::{FaultKind, ScriptFault, parse};
use std::alloc::{AllocError, Global};
use std::process::Abort;
use std::test::Fail;

/// Whether a text is read, and the report is legal or not.
fn expect_judged(rt: &impl Abort, alloc: Global, text: &str, wanted: bool) -> Result<(), Fail> {
    let limits = Limits::default();
    let claim = read_claim(alloc, text.as_bytes(), &limits)?;
    let lines = claim.script.unpacked(alloc)?;
    let judged = legal(alloc, &limits, lines.as_slice(), &claim.report)?;
    assert_eq!(rt; judged, wanted, "{text}");
    Ok(())
}

/// Whether a text has this fault.
fn expect_fault(rt: &impl Abort, alloc: Global, text: &str, line: u64, kind: FaultKind) {
    let read = read_claim(alloc, text.as_bytes(), &Limits::default());
    assert_eq!(rt;
        read.map(|_| ()),
        Err(ScriptFault::Bad { line, kind }),
        "{text}"
    );
}

const JUDGED: [(&str, bool); 4] = [
    ("report\nhistory 0\n", true),
    (
        "0 begin\n0 insert 7 10 20\n0 commit\nreport\n0 begun 0\n0 ok\n0 committed 1\nhistory 1\n1 0 1 0\n",
        true,
    ),
    (
        "0 begin\r\n# a note\n0 insert 7 10 20\n0 commit\nreport\r\n0 begun 0\n0 ok\n0 committed 1\nhistory 1\n1 0 1 0",
        true,
    ),
    (
        "0 begin\n0 get 7\nreport\n0 begun 0\n0 row 1 2\nhistory 0\n",
        false,
    ),
];

#[test]
fn a_script_and_its_report_are_read_and_judged(rt: HostRuntime) -> Result<(), Fail> {
    for &(text, wanted) in JUDGED.iter() {
        expect_judged(&rt, rt.alloc(), text, wanted)?;
    }
    Ok(())
}

/// Texts, each with the line of its fault.
const FAULTS: [(&str, u64, FaultKind); 12] = [
    (
        "0 begin\n0 insert 7 10 20\n0 commit\n",
        4,
        FaultKind::NoReport,
    ),
    ("0 begin\n0 commit", 3, FaultKind::NoReport),
    ("", 1, FaultKind::NoReport),
    ("0 begin\n0 fly\n", 2, FaultKind::UnknownWord),
    ("0 fly\nreport\nnone", 1, FaultKind::UnknownWord),
    (" report\nreport", 1, FaultKind::UnknownWord),
    ("0 begin\nreport now\n", 2, FaultKind::UnknownWord),
    ("report", 2, FaultKind::BadReport),
    ("report\n", 2, FaultKind::BadReport),
    ("0 begin\nreport\n0 begun 0\n", 4, FaultKind::BadReport),
    (
        "0 begin\nreport\n0 begun 00\nhistory 0\n",
        3,
        FaultKind::BadReport,
    ),
    (
        "0 begin\nreport\nreport\nhistory 0\n",
        3,
        FaultKind::BadReport,
    ),
];

#[test]
fn the_fault_of_the_script_comes_first(rt: HostRuntime) {
    for &(text, line, kind) in FAULTS.iter() {
        expect_fault(&rt, rt.alloc(), text, line, kind);
    }
}

/// Where the first line `report` begins, and where what is behind it begins.
fn mark_in(text: &[u8]) -> Option<(usize, usize)> {
    let mut start = 0usize;
    for place in 0..text.len() {
        let is_last = place.wrapping_add(1) == text.len();
        let byte = text.get(place).copied().unwrap_or(b' ');
        if byte == b'\n' || is_last {
            let end = if byte == b'\n' {
                place
            } else {
                place.wrapping_add(1)
            };
            let line = text.get(start..end).unwrap_or(b"");
            if line == b"report".as_slice() || line == b"report\r".as_slice() {
                return Some((start, place.wrapping_add(1)));
            }
            start = place.wrapping_add(1);
        }
    }
    None
}

/// How many newlines a text has.
fn newlines(text: &[u8]) -> u64 {
    text.iter().filter(|byte| **byte == b'\n').count() as u64
}

/// How many lines and replies a text has, or its fault, by its parts read apart.
fn read_apart(alloc: Global, text: &[u8]) -> Result<(usize, usize), ScriptFault> {
    let limits = Limits::default();
    let Some((front, behind)) = mark_in(text) else {
        let _ = parse(alloc, text, &limits)?;
        let is_open = text.last().copied().unwrap_or(b'\n') != b'\n';
        return Err(ScriptFault::Bad {
            line: newlines(text)
                .wrapping_add(u64::from(is_open))
                .wrapping_add(1),
            kind: FaultKind::NoReport,
        });
    };
    let script = text.get(..front).unwrap_or(b"");
    let read = parse(alloc, script, &limits)?;
    match parse_report(alloc, text.get(behind..).unwrap_or(b""), 2) {
        Ok(report) => Ok((read.len(), report.replies.len())),
        Err(ReportFault::Bad { line }) => Err(ScriptFault::Bad {
            line: newlines(script).wrapping_add(1).wrapping_add(line),
            kind: FaultKind::BadReport,
        }),
        Err(ReportFault::OutOfMemory) => Err(ScriptFault::OutOfMemory),
    }
}

/// A text with a byte in the place of another.
fn with_byte(alloc: Global, text: &[u8], place: usize, byte: u8) -> Result<Vec<u8>, AllocError> {
    let mut changed = Vec::new(alloc);
    for (at, old) in text.iter().enumerate() {
        changed.push(if at == place { byte } else { *old })?;
    }
    Ok(changed)
}

/// Whether a text is read as a claim. Its parts read apart tell the same of it.
fn is_claim(rt: &impl Abort, alloc: Global, text: &[u8]) -> bool {
    let read = read_claim(alloc, text, &Limits::default());
    let counted = read.map(|claim| (claim.script.len(), claim.report.replies.len()));
    assert_eq!(rt; counted, read_apart(alloc, text));
    counted.is_ok()
}

const CLAIM: &[u8] =
    b"0 begin\n# a note\n0 insert 7 10 20\r\n0 sum 0\n0 commit\nphase\n1 begin\n1 scan\n1 commit\nreport\n0 begun 0\n0 ok\n0 sum 10\n0 committed 1\n1 begun 1\n1 rows 7:10,20\n1 ended 1\nhistory 1\n1 0 1 0\n";

#[test]
fn a_text_with_a_byte_changed_is_read_as_its_parts_are(rt: HostRuntime) -> Result<(), Fail> {
    let mut claims = 0u64;
    let mut faults = 0u64;
    for place in 0..CLAIM.len() {
        for byte in b" 9\nr1".as_slice() {
            let changed = with_byte(rt.alloc(), CLAIM, place, *byte)?;
            if is_claim(&rt, rt.alloc(), changed.as_slice()) {
                claims = claims.wrapping_add(1);
            } else {
                faults = faults.wrapping_add(1);
            }
        }
    }
    assert!(rt; claims > 100 && faults > 500);
    Ok(())
}
