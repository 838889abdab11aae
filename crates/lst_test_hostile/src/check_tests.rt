//! Reports that are judged for their scripts.

use crate::calls::{SOUND, Wanted, comes_to, joined};
use lst_command::Status;
use lst_model::OutOfMemory;
use std::alloc::Global;
use std::process::Abort;
use std::sync::Wait;
use std::thread::Threads;

/// A report of one commit behind its script.
const ONE_COMMIT: &str =
    "0 begin\n0 insert 7 10 20\n0 commit\nreport\n0 begun 0\n0 ok\n0 committed 1\nhistory 1\n1 0 1 0\n";

/// An input is judged to be legal, or not.
fn judges(
    rt: &(impl Abort + Threads + Wait + Sync),
    alloc: Global,
    words: &str,
    input: &str,
    is_legal: bool,
) -> Result<(), OutOfMemory> {
    let (status, verdict) = if is_legal {
        (Status::Done, "legal\n")
    } else {
        (Status::Illegal, "illegal\n")
    };
    let wanted = Wanted {
        status,
        output: verdict.as_bytes(),
        message: b"",
    };
    comes_to(rt, alloc, 0, words, input.as_bytes(), &SOUND, wanted)
}

/// The words of a call, a script with its report, and whether that is legal.
const CLAIMS: &[(&str, &str, bool)] = &[
    ("check", "report\nhistory 0\n", true),
    ("check", ONE_COMMIT, true),
    (
        "check",
        "0 begin\n0 insert 7 10 20\n0 commit\nreport\n0 begun 0\n0 ok\n0 committed 2\nhistory 1\n1 0 1 0\n",
        false,
    ),
    (
        "check",
        "0 begin\n0 get 7\nreport\n0 begun 0\n0 row 1 2\nhistory 0\n",
        false,
    ),
    // Under options.
    (
        "check --txns 1",
        "0 begin\n0 commit\n0 begin\nreport\n0 begun 0\n0 ended 0\n0 refused spent\nhistory 0\n",
        true,
    ),
    (
        "check --txns 2",
        "0 begin\n0 commit\n0 begin\nreport\n0 begun 0\n0 ended 0\n0 refused spent\nhistory 0\n",
        false,
    ),
    (
        "check",
        "0 begin\n0 commit\n0 begin\nreport\n0 begun 0\n0 ended 0\n0 refused spent\nhistory 0\n",
        false,
    ),
    (
        "check --columns=1",
        "0 begin\n0 insert 7 5\n0 commit\nreport\n0 begun 0\n0 ok\n0 committed 1\nhistory 1\n1 0 1 0\n",
        true,
    ),
    // Of a sum.
    (
        "check",
        "0 begin\n0 insert 7 10 20\n0 commit\n1 begin\n1 sum 0\n1 commit\nreport\n0 begun 0\n0 ok\n0 committed 1\n1 begun 1\n1 sum 10\n1 ended 1\nhistory 1\n1 0 1 0\n",
        true,
    ),
    (
        "check",
        "0 begin\n0 insert 7 10 20\n0 commit\n1 begin\n1 sum 0\n1 commit\nreport\n0 begun 0\n0 ok\n0 committed 1\n1 begun 1\n1 sum 11\n1 ended 1\nhistory 1\n1 0 1 0\n",
        false,
    ),
    (
        "check",
        "0 begin\n0 insert 7 10 20\n0 commit\n1 begin\n1 sum 0\n1 commit\nreport\n0 begun 0\n0 ok\n0 committed 1\n1 begun 0\n1 sum 0\n1 ended 0\nhistory 1\n1 0 1 0\n",
        true,
    ),
    (
        "check",
        "0 begin\n0 insert 7 10 20\n0 commit\nphase\n1 begin\n1 sum 0\n1 commit\nreport\n0 begun 0\n0 ok\n0 committed 1\n1 begun 0\n1 sum 0\n1 ended 0\nhistory 1\n1 0 1 0\n",
        false,
    ),
];

#[test]
fn reports_are_judged(rt: HostRuntime) -> Result<(), OutOfMemory> {
    for &(words, input, is_legal) in CLAIMS {
        judges(&rt, rt.alloc(), words, input, is_legal)?;
    }
    Ok(())
}

/// A script with the front of its report, up to the last commit of two that have each read the row that the other writes.
const SKEW: &str =
    "2 begin\n2 insert 1 1 0\n2 insert 2 1 0\n2 commit\nphase\n0 begin\n0 get 1\n0 update 2 0 _\n0 commit\n1 begin\n1 get 2\n1 update 1 0 _\n1 commit\nreport\n2 begun 0\n2 ok\n2 ok\n2 committed 1\n0 begun 1\n0 row 1 0\n0 ok\n0 committed 2\n1 begun 1\n1 row 1 0\n1 ok\n";

/// A script with the front of its report: two sessions have each read the sum of all rows, and put in a row.
const SUMS: &str =
    "0 begin\n0 sum 0\n1 begin\n1 sum 0\n0 insert 1 5 0\n0 commit\n1 insert 2 5 0\n1 commit\nreport\n0 begun 0\n0 sum 0\n1 begun 0\n1 sum 0\n0 ok\n0 committed 1\n1 ok\n";

/// A script with the front of its report, the end of the report, and whether it is legal under snapshot isolation and at the serializable level.
const AT_LEVELS: &[(&str, &str, bool, bool)] = &[
    // Write skew is legal at level 1 alone.
    (
        SKEW,
        "1 committed 3\nhistory 3\n1 2 1 0\n2 0 1 1\n3 1 1 1\n",
        true,
        false,
    ),
    // A stale commit is legal at level 2 alone.
    (
        SKEW,
        "1 conflict stale 2\nhistory 2\n1 2 1 0\n2 0 1 1\n",
        false,
        true,
    ),
    (
        SKEW,
        "1 conflict stale 1\nhistory 2\n1 2 1 0\n2 0 1 1\n",
        false,
        false,
    ),
    (
        SKEW,
        "1 conflict stale 3\nhistory 2\n1 2 1 0\n2 0 1 1\n",
        false,
        false,
    ),
    (
        SUMS,
        "1 committed 2\nhistory 2\n1 0 1 0\n2 1 1 0\n",
        true,
        false,
    ),
    (
        SUMS,
        "1 conflict stale 1\nhistory 1\n1 0 1 0\n",
        false,
        true,
    ),
    (
        SUMS,
        "1 conflict stale 2\nhistory 1\n1 0 1 0\n",
        false,
        false,
    ),
];

/// A script with its report is legal under snapshot isolation, or isn't, and the same at the serializable level.
fn judged_at(
    rt: &(impl Abort + Threads + Wait + Sync),
    alloc: Global,
    front: &str,
    end: &str,
    at_snapshots: bool,
    at_serializable: bool,
) -> Result<(), OutOfMemory> {
    let whole = joined(alloc, front, end)?;
    let input = whole.as_str();
    judges(rt, alloc, "check", input, at_snapshots)?;
    judges(rt, alloc, "check --level 1", input, at_snapshots)?;
    judges(rt, alloc, "check --level=2", input, at_serializable)
}

#[test]
fn reports_are_judged_at_both_levels(rt: HostRuntime) -> Result<(), OutOfMemory> {
    for &(front, end, at_snapshots, at_serializable) in AT_LEVELS {
        judged_at(&rt, rt.alloc(), front, end, at_snapshots, at_serializable)?;
    }
    Ok(())
}
