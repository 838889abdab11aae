//! Texts with the scripts that they are, and each fault with its smallest line.

use crate::fault_tests::{expect_all_first, expect_first, has_length};
use crate::texts::{call, is_read_as, row, same};
use arrayvec::ArrayVec;
use lst_model::{Call, Line, OutOfMemory, Patch};
use lst_script::{FaultKind, ScriptFault};
use std::alloc::Global;
use std::process::Abort;

fn patch(first: Option<u64>, second: Option<u64>) -> Patch {
    let mut cells = ArrayVec::new();
    cells.push(first);
    cells.push(second);
    Patch::of_numbers(cells)
}

/// Looks whether each text is read as a script of no lines.
fn expect_all_without_lines(rt: &impl Abort, alloc: Global, texts: &[&[u8]]) {
    for &text in texts {
        has_length(rt, alloc, text, 0);
    }
}

/// A line of each kind.
fn built_lines() -> [Line; 13] {
    [
        call(0, Call::Begin),
        call(
            0,
            Call::Insert {
                key: 7,
                row: row(Some(10), Some(20)),
            },
        ),
        call(3, Call::Get { key: 7 }),
        call(1, Call::AsOf { time: 3 }),
        call(
            0,
            Call::Update {
                key: 7,
                patch: patch(None, Some(21)),
            },
        ),
        call(0, Call::Delete { key: u64::MAX }),
        call(0, Call::Sum { column: 1 }),
        call(1, Call::Count),
        call(2, Call::Scan),
        call(
            0,
            Call::Find {
                column: 1,
                value: u64::MAX,
            },
        ),
        call(0, Call::Commit),
        Line::Phase,
        call(2, Call::Abort),
    ]
}

#[test]
fn every_built_line_is_read(rt: HostRuntime) -> Result<(), ScriptFault> {
    let text =
        b"0 begin\n0 insert 7 10 20\r\n\n# note\n  3  get  007 \n1 asof 3\n0 update 7 _ 21\n0 delete 18446744073709551615\n0 sum 01\n1 count\n2 scan \r\n0 find 1 18446744073709551615\n0 commit\nphase\n2 abort";
    is_read_as(&rt, rt.alloc(), text, built_lines().as_slice())
}

#[test]
fn the_first_faulty_line_is_named(rt: HostRuntime) {
    expect_all_first(
        &rt,
        rt.alloc(),
        &[
            (b"0 begin\n0 fly\n0 get", 2, FaultKind::UnknownWord),
            (b"0 update 7 _ _", 1, FaultKind::NothingToSet),
            (b"0 update x _ _", 1, FaultKind::BadNumber),
            (b"0 update 7 _ __", 1, FaultKind::BadNumber),
            (b"0 update _ 1 1", 1, FaultKind::BadNumber),
            (b"0 insert 7 1", 1, FaultKind::BadCount),
            (b"0 insert 7 1 2 3", 1, FaultKind::BadCount),
            (b"0 insert 7 1 _", 1, FaultKind::BadNumber),
            (b"0 get x y", 1, FaultKind::BadCount),
            (b"0 get 18446744073709551616", 1, FaultKind::BadNumber),
            (b"0 get 000000000000000000007", 1, FaultKind::BadNumber),
            (b"0 get +7", 1, FaultKind::BadNumber),
            (b"4 begin", 1, FaultKind::BadSession),
            (b"4", 1, FaultKind::BadSession),
            (b"4 fly", 1, FaultKind::BadSession),
            (b"0", 1, FaultKind::BadCount),
            (b"0x begin", 1, FaultKind::BadNumber),
            (b"0\tbegin", 1, FaultKind::BadNumber),
            (b"\t0 begin", 1, FaultKind::UnknownWord),
            (b"0 begin now", 1, FaultKind::BadCount),
            (b"0 begin\r\r\n", 1, FaultKind::UnknownWord),
            (b"0 phase", 1, FaultKind::UnknownWord),
            (b"phase 0", 1, FaultKind::BadCount),
            (b"begin", 1, FaultKind::UnknownWord),
            (b"\xff\xfe", 1, FaultKind::UnknownWord),
            (b"0 \xc3\x28", 1, FaultKind::UnknownWord),
            (b"#\n\n \r\n0 asof", 4, FaultKind::BadCount),
        ],
    );
}

#[test]
fn a_scan_has_its_words_and_a_column_below_the_limit(rt: HostRuntime) {
    expect_all_first(
        &rt,
        rt.alloc(),
        &[
            (b"0 sum", 1, FaultKind::BadCount),
            (b"0 sum 0 1", 1, FaultKind::BadCount),
            (b"0 sum x y", 1, FaultKind::BadCount),
            (b"0 sum x", 1, FaultKind::BadNumber),
            (b"0 sum _", 1, FaultKind::BadNumber),
            (b"0 sum 18446744073709551616", 1, FaultKind::BadNumber),
            (b"0 sum 2", 1, FaultKind::BadColumn),
            (b"0 sum 4294967296", 1, FaultKind::BadColumn),
            (b"0 count 0", 1, FaultKind::BadCount),
            (b"0 scan 0", 1, FaultKind::BadCount),
            (b"0 find 0", 1, FaultKind::BadCount),
            (b"0 find 2 1 0", 1, FaultKind::BadCount),
            (b"0 find x 1", 1, FaultKind::BadNumber),
            (b"0 find 2 x", 1, FaultKind::BadNumber),
            (b"0 find 2 1", 1, FaultKind::BadColumn),
            (b"0 find 4294967297 1", 1, FaultKind::BadColumn),
            (b"4 sum 2", 1, FaultKind::BadSession),
            (b"0 sums 0", 1, FaultKind::UnknownWord),
            (b"sum 0", 1, FaultKind::UnknownWord),
        ],
    );
}

/// A merge of the last range and column, and of the first ones.
fn merges() -> [Line; 2] {
    [
        Line::Merge {
            range: 3,
            column: 1,
        },
        Line::Merge {
            range: 0,
            column: 0,
        },
    ]
}

#[test]
fn a_merge_has_a_range_and_a_column_below_their_limits(rt: HostRuntime) -> Result<(), ScriptFault> {
    let text = b"merge 3 01\r\nmerge  0 0";
    is_read_as(&rt, rt.alloc(), text, merges().as_slice())?;
    expect_all_first(
        &rt,
        rt.alloc(),
        &[
            (b"merge", 1, FaultKind::BadCount),
            (b"merge 0", 1, FaultKind::BadCount),
            (b"merge 4 2 0", 1, FaultKind::BadCount),
            (b"merge x 2", 1, FaultKind::BadNumber),
            (b"merge 4 x", 1, FaultKind::BadNumber),
            (b"merge _ 0", 1, FaultKind::BadNumber),
            (b"merge 0 18446744073709551616", 1, FaultKind::BadNumber),
            (b"merge 4 0", 1, FaultKind::BadRange),
            (b"merge 4 2", 1, FaultKind::BadRange),
            (b"merge 4294967296 0", 1, FaultKind::BadRange),
            (b"merge 3 2", 1, FaultKind::BadColumn),
            (b"merge 0 4294967296", 1, FaultKind::BadColumn),
            (b"merged 0 0", 1, FaultKind::UnknownWord),
            (b"0 merge 0 0", 1, FaultKind::UnknownWord),
        ],
    );
    Ok(())
}

#[test]
fn lines_without_words_and_comments_are_skipped(rt: HostRuntime) {
    expect_all_without_lines(
        &rt,
        rt.alloc(),
        &[
            b"",
            b"\n",
            b"\r",
            b"\n\n",
            b"   ",
            b"# 0 fly\n",
            b"  #\xff",
            b"\r\n #",
        ],
    );
}

/// A comment with this many bytes, and what follows it.
fn comment(alloc: Global, length: usize, end: &[u8]) -> Result<Vec<u8>, OutOfMemory> {
    let mut text = vec![in alloc; b'#'; length]?;
    text.extend_from_slice(end)?;
    Ok(text)
}

/// Looks whether comments of so many bytes, each with its end, are scripts of no lines.
fn expect_skipped(
    rt: &impl Abort,
    alloc: Global,
    length: usize,
    ends: &[&[u8]],
) -> Result<(), OutOfMemory> {
    for &end in ends {
        let text = comment(alloc, length, end)?;
        has_length(rt, alloc, text.as_slice(), 0);
    }
    Ok(())
}

/// Looks whether each comment, of so many bytes and with its end, is too long.
fn expect_refused(
    rt: &impl Abort,
    alloc: Global,
    texts: &[(usize, &[u8])],
) -> Result<(), OutOfMemory> {
    for &(length, end) in texts {
        let text = comment(alloc, length, end)?;
        expect_first(rt, alloc, text.as_slice(), 1, FaultKind::LineTooLong);
    }
    Ok(())
}

#[test]
fn a_line_has_at_most_1024_bytes(rt: HostRuntime) -> Result<(), OutOfMemory> {
    expect_skipped(&rt, rt.alloc(), 1024, &[b"", b"\r\n", b"\n", b"\r"])?;
    expect_refused(
        &rt,
        rt.alloc(),
        &[
            (1025, b""),
            (1025, b"\r\n"),
            (1024, b"\r\r\n"),
            (20000, b"\n0 fly"),
        ],
    )
}

/// Looks whether each kind of fault has its text.
fn expect_kind_texts(rt: &impl Abort, texts: &[(FaultKind, &str)]) {
    for &(kind, text) in texts {
        same(rt, kind.text(), text, kind);
    }
}

#[test]
fn a_fault_has_its_text(rt: HostRuntime) {
    expect_kind_texts(
        &rt,
        &[
            (FaultKind::LineTooLong, "line too long"),
            (FaultKind::UnknownWord, "unknown word"),
            (FaultKind::BadNumber, "bad number"),
            (FaultKind::BadSession, "no such session"),
            (FaultKind::BadCount, "wrong number of words"),
            (FaultKind::BadRange, "no such range"),
            (FaultKind::BadColumn, "no such column"),
            (FaultKind::NothingToSet, "nothing to set"),
            (FaultKind::BadVersion, "unknown version"),
            (FaultKind::BadName, "bad column name"),
            (FaultKind::BadPair, "bad pair"),
            (FaultKind::RepeatedColumn, "repeated column"),
            (FaultKind::NoReport, "no report"),
            (FaultKind::BadReport, "bad report line"),
        ],
    );
}
