//! Reports at the serializable level: what is legal there, and what under snapshot isolation.

use crate::legal_tests::{USUAL, read_lines, read_report};
use lst_layout::Limits;
use lst_legal::{are_sessions_below, legal, legal_serial};
use lst_model::OutOfMemory;
use std::alloc::Global;
use std::ops::Range;
use std::process::Abort;
use std::test::Fail;

/// Which levels have a report as legal.
#[derive(Clone, Copy, PartialEq, Eq, Debug)]
struct Legal {
    snapshot: bool,
    serializable: bool,
}

const BOTH: Legal = Legal {
    snapshot: true,
    serializable: true,
};

const SNAPSHOT: Legal = Legal {
    snapshot: true,
    serializable: false,
};

const SERIALIZABLE: Legal = Legal {
    snapshot: false,
    serializable: true,
};

const NEITHER: Legal = Legal {
    snapshot: false,
    serializable: false,
};

fn is_judged(
    rt: &impl Abort,
    alloc: Global,
    limits: &Limits,
    script: &str,
    report: &str,
    wanted: Legal,
) -> Result<(), Fail> {
    let lines = read_lines(alloc, limits, script)?;
    let read = read_report(alloc, report)?;
    if !are_sessions_below(limits.sessions, lines.as_slice()) {
        return Err(Fail::from("the script has another session"));
    }
    let judged = Legal {
        snapshot: legal(alloc, limits, lines.as_slice(), &read)?,
        serializable: legal_serial(alloc, limits, lines.as_slice(), &read)?,
    };
    assert_eq!(rt; judged, wanted, "{report}");
    Ok(())
}

/// The parts of a text, one behind the other.
fn joined(alloc: Global, parts: &[&str]) -> Result<String, OutOfMemory> {
    let mut text = String::new(alloc);
    for part in parts {
        text.push_str(part)?;
    }
    Ok(text)
}

/// Judges a script that ends so, and a report that does, behind those of a first commit of the keys 1 and 2 by session 2.
fn is_judged_behind(
    rt: &impl Abort,
    alloc: Global,
    rest: &str,
    replies: &str,
    wanted: Legal,
) -> Result<(), Fail> {
    let first = "2 begin\n2 insert 1 1 0\n2 insert 2 1 0\n2 commit\nphase\n";
    let script = joined(alloc, &[first, rest])?;
    let answered = "2 begun 0\n2 ok\n2 ok\n2 committed 1\n";
    let report = joined(alloc, &[answered, replies])?;
    is_judged(rt, alloc, &USUAL, script.as_str(), report.as_str(), wanted)
}

/// How a script ends, how its report does, and where that is legal.
type Case<'a> = (&'a str, &'a str, Legal);

fn are_judged_behind(rt: &impl Abort, alloc: Global, cases: &[Case<'_>]) -> Result<(), Fail> {
    for &(rest, replies, wanted) in cases {
        is_judged_behind(rt, alloc, rest, replies, wanted)?;
    }
    Ok(())
}

const SKEWED: &str =
    "0 begin\n0 get 1\n0 update 2 0 _\n0 commit\n1 begin\n1 get 2\n1 update 1 0 _\n1 commit\n";

const SKEWS: [Case<'static>; 6] = [
    (
        SKEWED,
        "0 begun 1\n0 row 1 0\n0 ok\n0 committed 2\n1 begun 1\n1 row 1 0\n1 ok\n1 committed 3\nhistory 3\n1 2 1 0\n2 0 1 1\n3 1 1 1\n",
        SNAPSHOT,
    ),
    (
        SKEWED,
        "0 begun 1\n0 row 1 0\n0 ok\n0 committed 2\n1 begun 1\n1 row 1 0\n1 ok\n1 conflict stale 2\nhistory 2\n1 2 1 0\n2 0 1 1\n",
        SERIALIZABLE,
    ),
    // The time is neither that of the begin nor one behind the last commit, and no commit of writes is told its begin.
    (
        SKEWED,
        "0 begun 1\n0 row 1 0\n0 ok\n0 committed 2\n1 begun 1\n1 row 1 0\n1 ok\n1 conflict stale 0\nhistory 2\n1 2 1 0\n2 0 1 1\n",
        NEITHER,
    ),
    (
        SKEWED,
        "0 begun 1\n0 row 1 0\n0 ok\n0 committed 2\n1 begun 1\n1 row 1 0\n1 ok\n1 conflict stale 1\nhistory 2\n1 2 1 0\n2 0 1 1\n",
        NEITHER,
    ),
    (
        SKEWED,
        "0 begun 1\n0 row 1 0\n0 ok\n0 committed 2\n1 begun 1\n1 row 1 0\n1 ok\n1 conflict stale 3\nhistory 2\n1 2 1 0\n2 0 1 1\n",
        NEITHER,
    ),
    (
        SKEWED,
        "0 begun 1\n0 row 1 0\n0 ok\n0 committed 2\n1 begun 1\n1 row 1 0\n1 ok\n1 ended 1\nhistory 2\n1 2 1 0\n2 0 1 1\n",
        NEITHER,
    ),
];

#[test]
fn of_two_sessions_that_read_what_the_other_writes_one_is_stale(
    rt: HostRuntime,
) -> Result<(), Fail> {
    are_judged_behind(&rt, rt.alloc(), &SKEWS)
}

const CAME_BACK: [Case<'static>; 1] = [(
    "1 begin\n1 get 2\n1 sum 0\n0 begin\n0 update 2 0 _\n0 commit\n0 begin\n0 update 2 1 _\n0 commit\n1 update 1 0 _\n1 commit\n",
    "1 begun 1\n1 row 1 0\n1 sum 2\n0 begun 1\n0 ok\n0 committed 2\n0 begun 2\n0 ok\n0 committed 3\n1 ok\n1 committed 4\nhistory 4\n1 2 1 0\n2 0 1 1\n3 0 2 2\n4 1 1 1\n",
    BOTH,
)];

#[test]
fn a_value_that_came_back_is_legal(rt: HostRuntime) -> Result<(), Fail> {
    are_judged_behind(&rt, rt.alloc(), &CAME_BACK)
}

const MISREAD: [Case<'static>; 3] = [
    (
        "1 begin\n1 insert 2 5 5\n0 begin\n0 delete 2\n0 commit\n1 update 1 0 _\n1 commit\n",
        "1 begun 1\n1 refused exists\n0 begun 1\n0 ok\n0 committed 2\n1 ok\n1 committed 3\nhistory 3\n1 2 1 0\n2 0 1 1\n3 1 1 1\n",
        SNAPSHOT,
    ),
    (
        "1 begin\n1 insert 2 5 5\n0 begin\n0 delete 2\n0 commit\n1 update 1 0 _\n1 commit\n",
        "1 begun 1\n1 refused exists\n0 begun 1\n0 ok\n0 committed 2\n1 ok\n1 conflict stale 2\nhistory 2\n1 2 1 0\n2 0 1 1\n",
        SERIALIZABLE,
    ),
    (
        "1 begin\n1 delete 3\n0 begin\n0 insert 3 5 5\n0 commit\n1 update 1 0 _\n1 commit\n",
        "1 begun 1\n1 refused missing\n0 begun 1\n0 ok\n0 committed 2\n1 ok\n1 committed 3\nhistory 3\n1 2 1 0\n2 0 1 1\n3 1 1 1\n",
        SNAPSHOT,
    ),
];

#[test]
fn exists_and_missing_are_reads(rt: HostRuntime) -> Result<(), Fail> {
    are_judged_behind(&rt, rt.alloc(), &MISREAD)
}

/// A transaction that asks so, and is answered so, and writes key 1, is told stale for the commit at time 2, which has written key 2.
fn is_stale_by(
    rt: &impl Abort,
    alloc: Global,
    call: &str,
    reply: &str,
    wanted: Legal,
) -> Result<(), Fail> {
    let behind = "\n1 update 1 0 _\n0 begin\n0 update 2 0 _\n0 commit\n1 commit\n";
    let rest = joined(alloc, &["1 begin\n1 ", call, behind])?;
    let answers =
        "\n1 ok\n0 begun 1\n0 ok\n0 committed 2\n1 conflict stale 2\nhistory 2\n1 2 1 0\n2 0 1 1\n";
    let replies = joined(alloc, &["1 begun 1\n1 ", reply, answers])?;
    is_judged_behind(rt, alloc, rest.as_str(), replies.as_str(), wanted)
}

/// A call, its reply, and where a stale commit behind it is legal.
const READS: [Case<'static>; 8] = [
    ("get 2", "row 1 0", SERIALIZABLE),
    ("insert 2 5 5", "refused exists", SERIALIZABLE),
    ("sum 1", "sum 0", SERIALIZABLE),
    ("count", "count 2", SERIALIZABLE),
    ("scan", "rows 1:1,0 2:1,0", SERIALIZABLE),
    // A key that was named and not found; and one that the other commit didn't write.
    ("get 3", "none", NEITHER),
    ("get 1", "row 1 0", NEITHER),
    // A find on a column without an index has read nothing.
    ("find 0 1", "refused noindex", NEITHER),
];

#[test]
fn a_stale_commit_has_read_what_the_other_wrote(rt: HostRuntime) -> Result<(), Fail> {
    for &(call, reply, wanted) in READS.iter() {
        is_stale_by(&rt, rt.alloc(), call, reply, wanted)?;
    }
    Ok(())
}

const ABSENT: [Case<'static>; 2] = [
    (
        "1 begin\n1 get 3\n1 update 1 0 _\n0 begin\n0 insert 3 5 5\n0 commit\n1 commit\n",
        "1 begun 1\n1 none\n1 ok\n0 begun 1\n0 ok\n0 committed 2\n1 conflict stale 2\nhistory 2\n1 2 1 0\n2 0 1 1\n",
        SERIALIZABLE,
    ),
    (
        "1 begin\n1 get 3\n1 update 1 0 _\n0 begin\n0 insert 3 5 5\n0 commit\n1 commit\n",
        "1 begun 1\n1 none\n1 ok\n0 begun 1\n0 ok\n0 committed 2\n1 committed 3\nhistory 3\n1 2 1 0\n2 0 1 1\n3 1 1 1\n",
        SNAPSHOT,
    ),
];

#[test]
fn a_get_of_an_absent_key_has_read_it(rt: HostRuntime) -> Result<(), Fail> {
    are_judged_behind(&rt, rt.alloc(), &ABSENT)
}

#[test]
fn a_find_on_an_indexed_column_reads_all(rt: HostRuntime) -> Result<(), Fail> {
    let indexed = Limits {
        indexed: 1,
        ..USUAL
    };
    is_judged(
        &rt,
        rt.alloc(),
        &indexed,
        "1 begin\n1 find 0 9\n1 insert 1 1 1\n0 begin\n0 insert 2 2 2\n0 commit\n1 commit\n",
        "1 begun 0\n1 keys\n1 ok\n0 begun 0\n0 ok\n0 committed 1\n1 conflict stale 1\nhistory 1\n1 0 1 0\n",
        SERIALIZABLE,
    )
}

const STAYS_OPEN: [Case<'static>; 3] = [
    // It sees its own write, and a second commit is stale, too.
    (
        "0 begin\n0 get 1\n0 update 2 0 _\n0 commit\n1 begin\n1 get 2\n1 update 1 0 _\n1 commit\n1 get 1\n1 commit\n",
        "0 begun 1\n0 row 1 0\n0 ok\n0 committed 2\n1 begun 1\n1 row 1 0\n1 ok\n1 conflict stale 2\n1 row 0 0\n1 conflict stale 2\nhistory 2\n1 2 1 0\n2 0 1 1\n",
        SERIALIZABLE,
    ),
    // It can't commit with what it has read.
    (
        "0 begin\n0 get 1\n0 update 2 0 _\n0 commit\n1 begin\n1 get 2\n1 update 1 0 _\n1 commit\n1 get 1\n1 commit\n",
        "0 begun 1\n0 row 1 0\n0 ok\n0 committed 2\n1 begun 1\n1 row 1 0\n1 ok\n1 conflict stale 2\n1 row 0 0\n1 committed 3\nhistory 3\n1 2 1 0\n2 0 1 1\n3 1 1 1\n",
        NEITHER,
    ),
    // It isn't idle.
    (
        "0 begin\n0 get 1\n0 update 2 0 _\n0 commit\n1 begin\n1 get 2\n1 update 1 0 _\n1 commit\n1 get 1\n1 commit\n",
        "0 begun 1\n0 row 1 0\n0 ok\n0 committed 2\n1 begun 1\n1 row 1 0\n1 ok\n1 conflict stale 2\n1 refused idle\n1 refused idle\nhistory 2\n1 2 1 0\n2 0 1 1\n",
        NEITHER,
    ),
];

#[test]
fn a_stale_transaction_stays_open(rt: HostRuntime) -> Result<(), Fail> {
    are_judged_behind(&rt, rt.alloc(), &STAYS_OPEN)
}

const READ_BEFORE: [Case<'static>; 1] = [(
    "1 begin\n1 get 2\n1 commit\n1 begin\n1 update 1 0 _\n0 begin\n0 update 2 0 _\n0 commit\n1 commit\n",
    "1 begun 1\n1 row 1 0\n1 ended 1\n1 begun 1\n1 ok\n0 begun 1\n0 ok\n0 committed 2\n1 conflict stale 2\nhistory 2\n1 2 1 0\n2 0 1 1\n",
    NEITHER,
)];

#[test]
fn what_was_read_before_the_begin_explains_nothing(rt: HostRuntime) -> Result<(), Fail> {
    are_judged_behind(&rt, rt.alloc(), &READ_BEFORE)
}

const READ_BEHIND: [Case<'static>; 2] = [
    (
        "0 begin\n0 update 2 0 _\n1 begin\n1 update 1 0 _\n1 commit\n0 get 1\n0 commit\n0 abort\n",
        "0 begun 1\n0 ok\n1 begun 1\n1 ok\n1 committed 2\n0 row 1 0\n0 conflict stale 2\n0 aborted\nhistory 2\n1 2 1 0\n2 1 1 1\n",
        SERIALIZABLE,
    ),
    (
        "0 begin\n0 update 2 0 _\n1 begin\n1 update 1 0 _\n1 commit\n0 commit\n0 get 1\n0 abort\n",
        "0 begun 1\n0 ok\n1 begun 1\n1 ok\n1 committed 2\n0 conflict stale 2\n0 row 1 0\n0 aborted\nhistory 2\n1 2 1 0\n2 1 1 1\n",
        NEITHER,
    ),
];

#[test]
fn what_is_read_behind_a_stale_commit_explains_nothing(rt: HostRuntime) -> Result<(), Fail> {
    are_judged_behind(&rt, rt.alloc(), &READ_BEHIND)
}

const BEGUN_AGAIN: [Case<'static>; 2] = [
    (
        "0 begin\n0 get 1\n0 update 2 0 _\n0 commit\n1 begin\n1 get 2\n1 update 1 0 _\n1 commit\n1 abort\n1 begin\n",
        "0 begun 1\n0 row 1 0\n0 ok\n0 committed 2\n1 begun 1\n1 row 1 0\n1 ok\n1 conflict stale 2\n1 aborted\n1 begun 1\nhistory 2\n1 2 1 0\n2 0 1 1\n",
        SERIALIZABLE,
    ),
    // The time of the first commit, in a phase that has ended, is a floor.
    (
        "0 begin\n0 get 1\n0 update 2 0 _\n0 commit\n1 begin\n1 get 2\n1 update 1 0 _\n1 commit\n1 abort\n1 begin\n",
        "0 begun 1\n0 row 1 0\n0 ok\n0 committed 2\n1 begun 1\n1 row 1 0\n1 ok\n1 conflict stale 2\n1 aborted\n1 begun 0\nhistory 2\n1 2 1 0\n2 0 1 1\n",
        NEITHER,
    ),
];

#[test]
fn a_stale_commit_raises_no_floor(rt: HostRuntime) -> Result<(), Fail> {
    are_judged_behind(&rt, rt.alloc(), &BEGUN_AGAIN)
}

/// A line for each key from one up to another: what stands before the key, the key, and what stands behind it.
fn lines_for(
    alloc: Global,
    before: &str,
    keys: Range<u64>,
    behind: &str,
) -> Result<String, OutOfMemory> {
    let mut text = String::new(alloc);
    for key in keys {
        text.push_str(format!(in alloc; "{before} {key}{behind}\n")?.as_str())?;
    }
    Ok(text)
}

/// A transaction that names the keys 10 to 21, a commit of the key `alone`, and one of the key `among` and thirty others.
fn naming_many(alloc: Global, keys: (u64, u64), rest: &str) -> Result<String, OutOfMemory> {
    let (alone, among) = keys;
    let gets = lines_for(alloc, "1 get", 10..22, "")?;
    let inserts = lines_for(alloc, "0 insert", 100..130, " 5 5")?;
    let first = format!(in alloc; "0 insert {alone} 5 5\n0 commit\n0 begin\n")?;
    let last = format!(in alloc; "0 insert {among} 5 5\n0 commit\n")?;
    let parts = [
        "1 begin\n",
        gets.as_str(),
        "1 update 1 0 _\n0 begin\n",
        first.as_str(),
        inserts.as_str(),
        last.as_str(),
        "1 commit\n1 commit\n1 commit\n1 commit\n1 abort\n",
        rest,
    ];
    joined(alloc, &parts)
}

/// What these are answered.
fn answers_to_many(alloc: Global, rest: &str) -> Result<String, OutOfMemory> {
    let nones = joined(alloc, &["1 none\n"; 12])?;
    let inserted = joined(alloc, &["0 ok\n"; 31])?;
    let parts = [
        "1 begun 1\n",
        nones.as_str(),
        "1 ok\n0 begun 1\n0 ok\n0 committed 2\n0 begun 2\n",
        inserted.as_str(),
        "0 committed 3\n1 conflict stale 2\n1 conflict stale 3\n1 conflict stale 2\n1 conflict stale 3\n1 aborted\n",
        rest,
        "history 3\n1 2 1 0\n2 0 1 1\n3 0 2 2\n",
    ];
    joined(alloc, &parts)
}

/// A transaction that has named the keys 10 to 21 is told stale twice for each of two commits: one that wrote this key alone, and one that wrote this
/// key and thirty others. Behind it the lines of another transaction of its session, and what they are answered.
fn is_stale_often(
    rt: &impl Abort,
    alloc: Global,
    keys: (u64, u64),
    behind: (&str, &str),
    wanted: Legal,
) -> Result<(), Fail> {
    let rest = naming_many(alloc, keys, behind.0)?;
    let replies = answers_to_many(alloc, behind.1)?;
    is_judged_behind(rt, alloc, rest.as_str(), replies.as_str(), wanted)
}

/// The two keys, and where a report of them is legal.
const KEYS: [((u64, u64), Legal); 6] = [
    ((10, 21), SERIALIZABLE),
    ((21, 10), SERIALIZABLE),
    ((15, 16), SERIALIZABLE),
    ((22, 15), NEITHER),
    ((15, 22), NEITHER),
    ((9, 9), NEITHER),
];

#[test]
fn a_stale_commit_of_many_keys_is_explained_by_one(rt: HostRuntime) -> Result<(), Fail> {
    for &(keys, wanted) in KEYS.iter() {
        is_stale_often(&rt, rt.alloc(), keys, ("", ""), wanted)?;
    }
    Ok(())
}

const STALE_BEHIND: [Case<'static>; 2] = [
    (
        "1 begin\n1 get 15\n1 update 1 0 _\n1 commit\n",
        "1 begun 1\n1 none\n1 ok\n1 conflict stale 2\n",
        SERIALIZABLE,
    ),
    (
        "1 begin\n1 get 14\n1 update 1 0 _\n1 commit\n",
        "1 begun 1\n1 none\n1 ok\n1 conflict stale 2\n",
        NEITHER,
    ),
];

#[test]
fn what_was_told_stale_before_the_begin_explains_nothing(rt: HostRuntime) -> Result<(), Fail> {
    for &(rest, replies, wanted) in STALE_BEHIND.iter() {
        is_stale_often(&rt, rt.alloc(), (15, 16), (rest, replies), wanted)?;
    }
    Ok(())
}
