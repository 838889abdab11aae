//! Reports that are read, and the first line of others that can't stand in its place.

use lst_replies::{ReportFault, parse_report, print_report};
use std::alloc::Global;
use std::process::Abort;
use std::test::Fail;

fn is_read_again(rt: &impl Abort, alloc: Global, text: &str) -> Result<(), Fail> {
    let report = match parse_report(alloc, text.as_bytes(), 2) {
        Ok(report) => report,
        Err(_) => return Err(Fail::from("the report was not read")),
    };
    let printed = print_report(alloc, &report)?;
    assert_eq!(rt; printed.as_bytes(), text.as_bytes());
    Ok(())
}

fn is_refused(rt: &impl Abort, alloc: Global, text: &str, wanted: u64) -> Result<(), Fail> {
    match parse_report(alloc, text.as_bytes(), 2) {
        Err(ReportFault::Bad { line }) => {
            assert_eq!(rt; line, wanted, "{text}");
            Ok(())
        }
        _ => Err(Fail::from("the report was not refused")),
    }
}

const REPORTS: [&str; 2] = [
    "history 0\n",
    "0 begun 0\n0 ok\n0 committed 1\n1 begun 1\n1 sum 10\n1 row 5 null\n1 rows 7:10,null 9:null,20\n1 conflict open 0 2\n1 conflict stale 1\nmerged 3\n1 ended 1\nhistory 1\n1 0 1 0\n",
];

#[test]
fn a_report_is_read_and_printed_again(rt: HostRuntime) -> Result<(), Fail> {
    for text in REPORTS.iter() {
        is_read_again(&rt, rt.alloc(), text)?;
    }
    Ok(())
}

/// Texts, each with the line that can't stand there.
const REFUSED: [(&str, u64); 7] = [
    ("", 1),
    ("0 begun 00\nhistory 0\n", 1),
    ("0 ok\n0 fine\nhistory 0\n", 2),
    ("0 row 5 nil\nhistory 0\n", 1),
    ("0 ok\n", 2),
    ("history 1\n", 2),
    ("history 0\n0 ok\n", 2),
];

#[test]
fn the_first_line_that_cannot_stand_is_named(rt: HostRuntime) -> Result<(), Fail> {
    for &(text, line) in REFUSED.iter() {
        is_refused(&rt, rt.alloc(), text, line)?;
    }
    Ok(())
}
