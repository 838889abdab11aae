//! The order of a line's checks, each kind of fault before the next, and scripts with a header read by `parse`.

use crate::texts::same;
use lst_layout::Limits;
use lst_model::OutOfMemory;
use lst_script::{FaultKind, ScriptFault, parse};
use std::alloc::Global;
use std::process::Abort;

/// Looks whether a text has this first faulty line.
pub(crate) fn expect_first(
    rt: &impl Abort,
    alloc: Global,
    text: &[u8],
    line: u64,
    kind: FaultKind,
) {
    let found = parse(alloc, text, &Limits::default()).err();
    same(rt, found, Some(ScriptFault::Bad { line, kind }), text);
}

/// The same of each text.
pub(crate) fn expect_all_first(rt: &impl Abort, alloc: Global, texts: &[(&[u8], u64, FaultKind)]) {
    for &(text, line, kind) in texts {
        expect_first(rt, alloc, text, line, kind);
    }
}

/// Looks whether a text is read as a script of so many lines, under the limits that a store has by default.
pub(crate) fn has_length(rt: &impl Abort, alloc: Global, text: &[u8], lines: usize) {
    let found = parse(alloc, text, &Limits::default()).map(|script| script.len());
    same(rt, found, Ok(lines), text);
}

#[test]
fn a_script_with_a_header_is_read(rt: HostRuntime) {
    let text = b"# stock\n\nversion 2 qty price\n0 begin\n0 insert 1 qty=5\n1 get 7\n";
    has_length(&rt, rt.alloc(), text, 3);
}

#[test]
fn the_first_check_of_a_numbered_line_counts(rt: HostRuntime) {
    expect_all_first(
        &rt,
        rt.alloc(),
        &[
            (b"fly x", 1, FaultKind::UnknownWord),
            (b"0x", 1, FaultKind::BadNumber),
            (b"4", 1, FaultKind::BadSession),
            (b"4 fly", 1, FaultKind::BadSession),
            (b"0", 1, FaultKind::BadCount),
            (b"0 fly x", 1, FaultKind::UnknownWord),
            (b"0 get x y", 1, FaultKind::BadCount),
            (b"0 update x _ _", 1, FaultKind::BadNumber),
            (b"merge x 2", 1, FaultKind::BadNumber),
            (b"merge 4 2", 1, FaultKind::BadRange),
            (b"merge 3 2", 1, FaultKind::BadColumn),
            (b"0 update 1 _ _", 1, FaultKind::NothingToSet),
        ],
    );
}

#[test]
fn the_first_check_of_a_named_line_counts(rt: HostRuntime) {
    expect_all_first(
        &rt,
        rt.alloc(),
        &[
            (b"version 3 A", 1, FaultKind::BadVersion),
            (b"version 2 A", 1, FaultKind::BadCount),
            (b"version 2 a A\n4 fly", 1, FaultKind::BadName),
            (b"version 2 a b\n4 insert 1 x", 2, FaultKind::BadSession),
            (b"version 2 a b\n0 fly 1 x", 2, FaultKind::UnknownWord),
            (b"version 2 a b\n0 insert x x x x", 2, FaultKind::BadCount),
            (b"version 2 a b\n0 insert x x", 2, FaultKind::BadNumber),
            (b"version 2 a b\n0 insert 1 x", 2, FaultKind::BadPair),
            (b"version 2 a b\n0 insert 1 c=x", 2, FaultKind::BadColumn),
            (
                b"version 2 a b\n0 insert 1 a=1 a=x",
                2,
                FaultKind::RepeatedColumn,
            ),
            (b"version 2 a b\n0 insert 1 a=x b", 2, FaultKind::BadNumber),
            (b"version 2 a b\n0 update 1", 2, FaultKind::NothingToSet),
            (b"version 2 a b\n0 update x", 2, FaultKind::BadNumber),
            (
                b"version 2 a b\n0 update 1 a=1 b=2 x",
                2,
                FaultKind::BadCount,
            ),
            (b"version 2 a b\n0 find c", 2, FaultKind::BadCount),
            (b"version 2 a b\n0 find c x", 2, FaultKind::BadNumber),
            (b"version 2 a b\n0 find c 1", 2, FaultKind::BadColumn),
            (b"version 2 a b\nmerge 4", 2, FaultKind::BadCount),
            (b"version 2 a b\nmerge x c", 2, FaultKind::BadNumber),
            (b"version 2 a b\nmerge 4 c", 2, FaultKind::BadRange),
            (b"version 2 a b\nmerge 3 c", 2, FaultKind::BadColumn),
            (
                b"version 2 a b\n0 get 1\n0 fly\n4 fly",
                3,
                FaultKind::UnknownWord,
            ),
        ],
    );
}

/// A text with spaces behind it, 1,025 bytes in all.
fn long(alloc: Global, front: &[u8]) -> Result<Vec<u8>, OutOfMemory> {
    let mut text = front.to_vec(alloc)?;
    text.resize(1025, b' ')?;
    Ok(text)
}

/// Looks whether each text is too long with spaces behind it.
fn expect_too_long(rt: &impl Abort, alloc: Global, fronts: &[&[u8]]) -> Result<(), OutOfMemory> {
    for &front in fronts {
        let text = long(alloc, front)?;
        expect_first(rt, alloc, text.as_slice(), 1, FaultKind::LineTooLong);
    }
    Ok(())
}

#[test]
fn the_length_is_looked_at_first(rt: HostRuntime) -> Result<(), OutOfMemory> {
    expect_too_long(&rt, rt.alloc(), &[b"version 3", b"# x", b"fly", b"0 get x"])
}
