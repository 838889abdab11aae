//! Legal reports, and for each rule a report that breaks it.

use arrayvec::ArrayVec;
use lst_layout::Limits;
use lst_legal::{are_sessions_below, legal};
use lst_model::{Call, Line, OutOfMemory, Row};
use lst_replies::{Report, parse_report};
use lst_script::parse;
use std::alloc::Global;
use std::process::Abort;
use std::test::Fail;

/// The limits of all rows but those that name their own.
pub(crate) const USUAL: Limits = Limits {
    columns: 2,
    ranges: 4,
    tails: 4096,
    sessions: 4,
    txns: 4096,
    spare: 8,
    indexed: 0,
};

/// The lines of a text.
pub(crate) fn read_lines(alloc: Global, limits: &Limits, text: &str) -> Result<Vec<Line>, Fail> {
    let mut lines = Vec::new(alloc);
    for line in text.lines() {
        lines.push(line_of(alloc, limits, line)?)?;
    }
    Ok(lines)
}

/// The line of a text. What no script has yet, merges and a null, is read here.
fn line_of(alloc: Global, limits: &Limits, text: &str) -> Result<Line, Fail> {
    if text == "phase" {
        Ok(Line::Phase)
    } else if text == "merge 0 1" {
        Ok(Line::Merge {
            range: 0,
            column: 1,
        })
    } else if text == "merge 3 0" {
        Ok(Line::Merge {
            range: 3,
            column: 0,
        })
    } else if text == "1 insert 7 null 20" {
        Ok(insert_of_null())
    } else {
        read_line(alloc, limits, text)
    }
}

fn insert_of_null() -> Line {
    let mut row = Row::of_numbers(ArrayVec::new());
    row.push(None);
    row.push(Some(20));
    Line::Call {
        session: 1,
        call: Call::Insert { key: 7, row },
    }
}

fn read_line(alloc: Global, limits: &Limits, text: &str) -> Result<Line, Fail> {
    if limits.check().is_err() {
        return Err(Fail::from("the limits are out of range"));
    }
    let script = match parse(alloc, text.as_bytes(), limits) {
        Ok(script) => script,
        Err(_) => return Err(Fail::from("the line was not read")),
    };
    if script.is_empty() {
        return Err(Fail::from("there is no line"));
    }
    Ok(script.line(0))
}

pub(crate) fn read_report(alloc: Global, text: &str) -> Result<Report, Fail> {
    match parse_report(alloc, text.as_bytes(), 2) {
        Ok(report) => Ok(report),
        Err(_) => Err(Fail::from("the report was not read")),
    }
}

fn are_lines_judged(
    rt: &impl Abort,
    alloc: Global,
    limits: &Limits,
    lines: &[Line],
    report: &str,
    wanted: bool,
) -> Result<(), Fail> {
    let read = read_report(alloc, report)?;
    if !are_sessions_below(limits.sessions, lines) {
        return Err(Fail::from("the script has another session"));
    }
    let judged = legal(alloc, limits, lines, &read)?;
    assert_eq!(rt; judged, wanted, "{report}");
    Ok(())
}

/// A script, a report, and whether the report is legal.
type Case<'a> = (&'a str, &'a str, bool);

fn are_judged(
    rt: &impl Abort,
    alloc: Global,
    limits: &Limits,
    cases: &[Case<'_>],
) -> Result<(), Fail> {
    for &(script, report, wanted) in cases {
        let lines = read_lines(alloc, limits, script)?;
        are_lines_judged(rt, alloc, limits, lines.as_slice(), report, wanted)?;
    }
    Ok(())
}

const SUMMED: &str = "0 begin\n0 insert 7 10 20\n0 commit\n1 begin\n1 sum 0\n1 commit\n";

const SUMS: [Case<'static>; 3] = [
    (
        SUMMED,
        "0 begun 0\n0 ok\n0 committed 1\n1 begun 1\n1 sum 10\n1 ended 1\nhistory 1\n1 0 1 0\n",
        true,
    ),
    (
        SUMMED,
        "0 begun 0\n0 ok\n0 committed 1\n1 begun 1\n1 sum 11\n1 ended 1\nhistory 1\n1 0 1 0\n",
        false,
    ),
    (
        SUMMED,
        "0 begun 0\n0 ok\n0 committed 1\n1 begun 0\n1 sum 0\n1 ended 0\nhistory 1\n1 0 1 0\n",
        true,
    ),
];

#[test]
fn a_sum_is_that_of_the_snapshot(rt: HostRuntime) -> Result<(), Fail> {
    are_judged(&rt, rt.alloc(), &USUAL, &SUMS)
}

const BELOW_THE_FLOOR: [Case<'static>; 1] = [(
    "0 begin\n0 insert 7 10 20\n0 commit\nphase\n1 begin\n1 sum 0\n1 commit\n",
    "0 begun 0\n0 ok\n0 committed 1\n1 begun 0\n1 sum 0\n1 ended 0\nhistory 1\n1 0 1 0\n",
    false,
)];

#[test]
fn a_begin_is_at_least_the_floor_behind_a_phase(rt: HostRuntime) -> Result<(), Fail> {
    are_judged(&rt, rt.alloc(), &USUAL, &BELOW_THE_FLOOR)
}

const OTHER_SESSION: [Case<'static>; 1] = [(
    SUMMED,
    "0 begun 0\n0 ok\n0 committed 1\n1 begun 1\n0 sum 10\n1 ended 1\nhistory 1\n1 0 1 0\n",
    false,
)];

#[test]
fn a_reply_has_the_session_of_its_line(rt: HostRuntime) -> Result<(), Fail> {
    are_judged(&rt, rt.alloc(), &USUAL, &OTHER_SESSION)
}

const OTHER_HISTORIES: [Case<'static>; 2] = [
    (
        SUMMED,
        "0 begun 0\n0 ok\n0 committed 1\n1 begun 1\n1 sum 10\n1 ended 1\nhistory 1\n1 0 2 0\n",
        false,
    ),
    (
        "0 begin\n1 begin\n0 insert 7 1 1\n1 insert 7 2 2\n0 commit\n1 commit\n",
        "0 begun 0\n1 begun 0\n0 ok\n1 ok\n0 committed 1\n1 committed 2\nhistory 2\n1 0 1 0\n2 1 1 0\n",
        false,
    ),
];

#[test]
fn the_history_names_the_commits_that_were_told(rt: HostRuntime) -> Result<(), Fail> {
    are_judged(&rt, rt.alloc(), &USUAL, &OTHER_HISTORIES)
}

const STATES: [Case<'static>; 2] = [
    ("0 count\n", "0 refused idle\nhistory 0\n", true),
    ("0 count\n", "0 count 0\nhistory 0\n", false),
];

#[test]
fn the_state_of_a_session_is_told(rt: HostRuntime) -> Result<(), Fail> {
    are_judged(&rt, rt.alloc(), &USUAL, &STATES)
}

const WRITES: [Case<'static>; 2] = [
    (
        "0 begin\n0 insert 7 1 1\n0 insert 7 1 1\n",
        "0 begun 0\n0 ok\n0 refused exists\nhistory 0\n",
        true,
    ),
    (
        "0 begin\n0 insert 7 1 1\n0 insert 7 1 1\n",
        "0 begun 0\n0 ok\n0 ok\nhistory 0\n",
        false,
    ),
];

#[test]
fn a_write_fits_what_is_seen(rt: HostRuntime) -> Result<(), Fail> {
    are_judged(&rt, rt.alloc(), &USUAL, &WRITES)
}

const CONFLICTS: [Case<'static>; 5] = [
    (
        "0 begin\n1 begin\n0 insert 7 1 1\n1 insert 7 2 2\n",
        "0 begun 0\n1 begun 0\n0 ok\n1 conflict latched\nhistory 0\n",
        true,
    ),
    (
        "0 begin\n1 begin\n0 insert 7 1 1\n1 insert 7 2 2\n",
        "0 begun 0\n1 begun 0\n0 ok\n1 conflict open 0 1\nhistory 0\n",
        true,
    ),
    (
        "0 begin\n1 begin\n0 insert 7 1 1\n1 insert 7 2 2\n",
        "0 begun 0\n1 begun 0\n0 ok\n1 conflict open 0 2\nhistory 0\n",
        false,
    ),
    (
        "0 begin\n0 insert 7 1 1\n",
        "0 begun 0\n0 conflict latched\nhistory 0\n",
        false,
    ),
    (
        "0 begin\n0 insert 7 1 1\n0 commit\n1 begin\n1 insert 8 1 1\n1 commit\n",
        "0 begun 0\n0 ok\n0 committed 1\n1 begun 0\n1 ok\n1 conflict stale 1\nhistory 1\n1 0 1 0\n",
        false,
    ),
];

#[test]
fn a_conflict_is_with_another_session(rt: HostRuntime) -> Result<(), Fail> {
    are_judged(&rt, rt.alloc(), &USUAL, &CONFLICTS)
}

/// The limits of a range of one tail.
const ONE_TAIL: Limits = Limits { tails: 1, ..USUAL };

#[test]
fn a_range_is_full_by_its_limit(rt: HostRuntime) -> Result<(), Fail> {
    let script = "0 begin\n0 insert 1 1 1\n0 insert 2 2 2\n0 commit\n";
    let report = "0 begun 0\n0 ok\n0 full tail\n0 committed 1\nhistory 1\n1 0 1 0\n";
    are_judged(&rt, rt.alloc(), &ONE_TAIL, &[(script, report, true)])?;
    are_judged(&rt, rt.alloc(), &USUAL, &[(script, report, false)])
}

const MERGES: [Case<'static>; 3] = [
    (
        "0 begin\n0 insert 7 10 20\nmerge 0 1\nmerge 0 1\n",
        "0 begun 0\n0 ok\nmerged 1\nidle 1\nhistory 0\n",
        true,
    ),
    (
        "0 begin\n0 insert 7 10 20\nmerge 0 1\nmerge 0 1\n",
        "0 begun 0\n0 ok\nmerged 2\nidle 2\nhistory 0\n",
        false,
    ),
    (
        "0 begin\n0 insert 7 10 20\nmerge 0 1\nmerge 0 1\n",
        "0 begun 0\n0 ok\nmerged 1\nidle 0\nhistory 0\n",
        false,
    ),
];

#[test]
fn no_more_is_merged_than_was_accepted(rt: HostRuntime) -> Result<(), Fail> {
    are_judged(&rt, rt.alloc(), &USUAL, &MERGES)
}

const SKEWED: [Case<'static>; 1] = [(
    "2 begin\n2 insert 1 1 0\n2 insert 2 1 0\n2 commit\nphase\n0 begin\n0 get 1\n0 update 2 0 _\n0 commit\n1 begin\n1 get 2\n1 update 1 0 _\n1 commit\n",
    "2 begun 0\n2 ok\n2 ok\n2 committed 1\n0 begun 1\n0 row 1 0\n0 ok\n0 committed 2\n1 begun 1\n1 row 1 0\n1 ok\n1 committed 3\nhistory 3\n1 2 1 0\n2 0 1 1\n3 1 1 1\n",
    true,
)];

#[test]
fn each_of_two_sessions_may_read_what_the_other_writes(rt: HostRuntime) -> Result<(), Fail> {
    are_judged(&rt, rt.alloc(), &USUAL, &SKEWED)
}

const EXPLAINED_LATER: [Case<'static>; 4] = [
    (
        "0 begin\nphase\n1 begin\n1 insert 7 1 1\n1 commit\n",
        "0 begun 1\n1 begun 0\n1 ok\n1 committed 1\nhistory 1\n1 1 1 0\n",
        true,
    ),
    (
        "0 begin\n0 insert 7 1 1\nphase\n1 begin\n1 insert 7 2 2\n1 abort\n",
        "0 begun 0\n0 conflict open 1 1\n1 begun 0\n1 ok\n1 aborted\nhistory 0\n",
        true,
    ),
    (
        "0 begin\n0 insert 7 1 1\nphase\n1 begin\n1 delete 7\n",
        "0 begun 0\n0 conflict latched\n1 begun 0\n1 refused missing\nhistory 0\n",
        true,
    ),
    (
        "merge 3 0\n0 begin\n0 insert 7 1 1\n",
        "merged 1\n0 begun 0\n0 ok\nhistory 0\n",
        true,
    ),
];

const NO_FRAME: [Case<'static>; 1] = [(
    "merge 3 0\nmerge 3 0\nphase\n0 begin\n0 insert 7 1 1\n3 asof 0\n",
    "merged 1\nnoframe 3\n0 begun 0\n0 ok\n3 begun 0\nhistory 0\n",
    true,
)];

#[test]
fn what_explains_a_reply_may_stand_later(rt: HostRuntime) -> Result<(), Fail> {
    let one_spare = Limits { spare: 1, ..USUAL };
    are_judged(&rt, rt.alloc(), &USUAL, &EXPLAINED_LATER)?;
    are_judged(&rt, rt.alloc(), &one_spare, &NO_FRAME)
}

const AS_OF: [Case<'static>; 2] = [
    (
        "0 begin\n0 insert 7 1 1\n0 commit\n0 asof 0\n",
        "0 begun 0\n0 ok\n0 committed 1\n0 begun 0\nhistory 1\n1 0 1 0\n",
        true,
    ),
    (
        "0 begin\n0 insert 7 1 1\n0 commit\n0 asof 0\n",
        "0 begun 0\n0 ok\n0 committed 1\n0 refused future 1\nhistory 1\n1 0 1 0\n",
        false,
    ),
];

#[test]
fn an_as_of_may_begin_below_the_floor(rt: HostRuntime) -> Result<(), Fail> {
    are_judged(&rt, rt.alloc(), &USUAL, &AS_OF)
}

const OFF_BY_ONE: [Case<'static>; 5] = [
    ("0 asof 0\n", "0 refused future 0\nhistory 0\n", false),
    ("merge 0 1\n", "merged 0\nhistory 0\n", false),
    (
        "0 begin\n0 insert 7 1 1\n0 commit\n",
        "0 begun 0\n0 ok\n0 committed 0\nhistory 0\n",
        false,
    ),
    (
        "0 begin\n0 insert 7 1 1\n0 commit\n1 begin\n1 update 7 2 _\n",
        "0 begun 0\n0 ok\n0 committed 1\n1 begun 1\n1 conflict newer 1\nhistory 1\n1 0 1 0\n",
        false,
    ),
    (
        "0 asof 0\n0 delete 7\n",
        "0 begun 0\n0 refused missing\nhistory 0\n",
        false,
    ),
];

#[test]
fn a_number_off_by_one_is_illegal(rt: HostRuntime) -> Result<(), Fail> {
    are_judged(&rt, rt.alloc(), &USUAL, &OFF_BY_ONE)
}

const ABSURD: [Case<'static>; 5] = [
    (
        "0 begin\n",
        "0 begun 18446744073709551615\nhistory 0\n",
        false,
    ),
    (
        "0 begin\n0 insert 7 1 1\n0 commit\n",
        "0 begun 0\n0 ok\n0 committed 18446744073709551615\nhistory 1\n1 0 1 0\n",
        false,
    ),
    (
        "0 begin\n0 insert 7 1 1\n",
        "0 begun 0\n0 conflict open 4000000000 1\nhistory 0\n",
        false,
    ),
    (
        "0 begin\n0 insert 7 1 1\n0 commit\n",
        "0 begun 0\n0 ok\n0 committed 1\nhistory 1\n1 4000000000 1 0\n",
        false,
    ),
    ("merge 0 1\n", "noframe 4000000000\nhistory 0\n", false),
];

#[test]
fn absurd_numbers_are_judged(rt: HostRuntime) -> Result<(), Fail> {
    are_judged(&rt, rt.alloc(), &USUAL, &ABSURD)
}

const ACCEPTED: [Case<'static>; 1] = [(
    "0 begin\n0 insert 1 1 1\n0 insert 2 2 2\n0 insert 3 3 3\n",
    "0 begun 0\n0 ok\n0 ok\n0 ok\nhistory 0\n",
    true,
)];

#[test]
fn more_writes_than_a_range_has_tails_may_be_accepted(rt: HostRuntime) -> Result<(), Fail> {
    are_judged(&rt, rt.alloc(), &ONE_TAIL, &ACCEPTED)
}

const GREAT_SUMS: [Case<'static>; 2] = [
    (
        "1 begin\n1 insert 1 18446744073709551615 0\n1 insert 2 18446744073709551615 0\n1 sum 0\n",
        "1 begun 0\n1 ok\n1 ok\n1 sum 36893488147419103230\nhistory 0\n",
        true,
    ),
    (
        "1 begin\n1 insert 1 18446744073709551615 0\n1 insert 2 18446744073709551615 0\n1 sum 0\n",
        "1 begun 0\n1 ok\n1 ok\n1 sum 18446744073709551614\nhistory 0\n",
        false,
    ),
];

#[test]
fn a_sum_does_not_wrap_at_a_word(rt: HostRuntime) -> Result<(), Fail> {
    are_judged(&rt, rt.alloc(), &USUAL, &GREAT_SUMS)
}

const NOT_INDEXED: [Case<'static>; 3] = [
    ("0 find 0 7\n", "0 refused noindex\nhistory 0\n", false),
    ("0 find 0 7\n", "0 refused idle\nhistory 0\n", true),
    (
        "0 begin\n0 find 0 7\n",
        "0 begun 0\n0 refused noindex\nhistory 0\n",
        true,
    ),
];

const INDEXED: [Case<'static>; 1] = [(
    "0 begin\n0 find 0 7\n",
    "0 begun 0\n0 refused noindex\nhistory 0\n",
    false,
)];

#[test]
fn a_missing_index_is_told_to_an_open_transaction(rt: HostRuntime) -> Result<(), Fail> {
    let indexed = Limits {
        indexed: 1,
        ..USUAL
    };
    are_judged(&rt, rt.alloc(), &USUAL, &NOT_INDEXED)?;
    are_judged(&rt, rt.alloc(), &indexed, &INDEXED)
}

const NULLS: [Case<'static>; 4] = [
    (
        "1 begin\n1 insert 7 0 20\n1 get 7\n",
        "1 begun 0\n1 ok\n1 row 0 20\nhistory 0\n",
        true,
    ),
    (
        "1 begin\n1 insert 7 0 20\n1 get 7\n",
        "1 begun 0\n1 ok\n1 row null 20\nhistory 0\n",
        false,
    ),
    (
        "1 begin\n1 insert 7 null 20\n1 get 7\n",
        "1 begun 0\n1 ok\n1 row null 20\nhistory 0\n",
        true,
    ),
    (
        "1 begin\n1 insert 7 null 20\n1 get 7\n",
        "1 begun 0\n1 ok\n1 row 0 20\nhistory 0\n",
        false,
    ),
];

#[test]
fn a_number_is_not_null(rt: HostRuntime) -> Result<(), Fail> {
    are_judged(&rt, rt.alloc(), &USUAL, &NULLS)
}

fn insert(session: u32, key: u64) -> Line {
    let mut cells = ArrayVec::new();
    cells.push(key);
    cells.push(key);
    Line::Call {
        session,
        call: Call::Insert {
            key,
            row: Row::of_numbers(cells),
        },
    }
}

fn ask(session: u32, call: Call) -> Line {
    Line::Call { session, call }
}

/// An insert of key 1000 by some session in an aborted transaction, this many inserts of other keys by session 0, and one of key 1000.
fn lines_filling(alloc: Global, inserts: u64, writer: u32) -> Result<Vec<Line>, OutOfMemory> {
    let mut lines = Vec::new(alloc);
    lines.push(ask(writer, Call::Begin))?;
    lines.push(insert(writer, 1000))?;
    lines.push(ask(writer, Call::Abort))?;
    lines.push(ask(0, Call::Begin))?;
    for key in 0..inserts {
        lines.push(insert(0, key))?;
    }
    lines.push(insert(0, 1000))?;
    Ok(lines)
}

/// A report of these lines, whose last insert is answered that the table is full.
fn report_filling(alloc: Global, inserts: u64, writer: u32) -> Result<String, OutOfMemory> {
    let mut report = String::from_str(
        alloc,
        match writer {
            0 => "0 begun 0\n0 ok\n0 aborted\n0 begun 0\n",
            _ => "1 begun 0\n1 ok\n1 aborted\n0 begun 0\n",
        },
    )?;
    for _ in 0..inserts {
        report.push_str("0 ok\n")?;
    }
    report.push_str("0 full table\nhistory 0\n")?;
    Ok(report)
}

fn is_full_behind(
    rt: &impl Abort,
    alloc: Global,
    inserts: u64,
    writer: u32,
    wanted: bool,
) -> Result<(), Fail> {
    let one_range = Limits { ranges: 1, ..USUAL };
    let lines = lines_filling(alloc, inserts, writer)?;
    let report = report_filling(alloc, inserts, writer)?;
    are_lines_judged(
        rt,
        alloc,
        &one_range,
        lines.as_slice(),
        report.as_str(),
        wanted,
    )
}

/// How many inserts of other keys, the session of the aborted one, and whether the table is full behind them.
const FILLINGS: [(u64, u32, bool); 4] = [
    // With the aborted one there are 256 inserts, or 255.
    (255, 1, true),
    (254, 1, false),
    // The session's own insert gave the key its record, although it was aborted.
    (255, 0, false),
    (300, 0, false),
];

#[test]
fn a_table_is_full_for_a_new_key_by_its_limit(rt: HostRuntime) -> Result<(), Fail> {
    for &(inserts, writer, wanted) in FILLINGS.iter() {
        is_full_behind(&rt, rt.alloc(), inserts, writer, wanted)?;
    }
    Ok(())
}
