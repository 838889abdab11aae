//! Scripts with names, read and printed; each fault of a header and of a pair with its line; and drawn scripts, read by their bytes as by
//! their words.

ghost use Rattle.std.specs.Prelude.{◌<◌};

use crate::texts::{call, has_lines, names_of, next_drawn, row, same, with_byte};
use arrayvec::ArrayVec;
use lst_layout::Limits;
use lst_model::{Call, OutOfMemory, Patch, Row, Text};
use lst_script::{FaultKind, Named, Script, ScriptFault, parse_named, print2};
use std::alloc::Global;
use std::process::Abort;

/// The text of version 2 of a script.
fn printed(alloc: Global, script: &Named) -> Result<Vec<u8>, OutOfMemory> {
    let text = print2(alloc, script)?;
    Ok(text.as_bytes().to_vec(alloc)?)
}

/// The text of version 2 of what a text is read as.
fn migrated(alloc: Global, text: &[u8]) -> Result<Vec<u8>, ScriptFault> {
    let script = parse_named(alloc, text, &Limits::default())?;
    Ok(printed(alloc, &script)?)
}

/// Looks whether a text is printed so in version 2.
fn expect_migrated(
    rt: &impl Abort,
    alloc: Global,
    text: &[u8],
    printed: &[u8],
) -> Result<(), ScriptFault> {
    let found = migrated(alloc, text)?;
    same(rt, found.as_slice(), printed, text);
    Ok(())
}

/// Looks whether a text is printed so in version 2, and that again as itself.
fn expect_text(
    rt: &impl Abort,
    alloc: Global,
    text: &[u8],
    printed: &[u8],
) -> Result<(), ScriptFault> {
    expect_migrated(rt, alloc, text, printed)?;
    expect_migrated(rt, alloc, printed, printed)
}

/// The same of each text.
fn expect_texts(
    rt: &impl Abort,
    alloc: Global,
    texts: &[(&[u8], &[u8])],
) -> Result<(), ScriptFault> {
    for &(text, printed) in texts {
        expect_text(rt, alloc, text, printed)?;
    }
    Ok(())
}

#[test]
fn named_scripts_are_printed_and_read(rt: HostRuntime) -> Result<(), ScriptFault> {
    expect_texts(
        &rt,
        rt.alloc(),
        &[
            (
                b"0 begin\n0 insert 7 10 20\n0 update 7 _ 21\nmerge 0 1",
                b"version 2 c0 c1\n0 begin\n0 insert 7 c0=10 c1=20\n0 update 7 c1=21\nmerge 0 c1\n",
            ),
            (
                b"# stock\r\n\nversion 2 qty price\n0 insert 2 price=09 qty=null\n 0 update 1 price=7 qty=null\n0 find qty 3",
                b"version 2 qty price\n0 insert 2 price=9\n0 update 1 qty=null price=7\n0 find qty 3\n",
            ),
            (b"", b"version 2 c0 c1\n"),
        ],
    )
}

/// Looks whether a text has this first faulty line.
fn expect_fault(rt: &impl Abort, alloc: Global, text: &[u8], line: u64, kind: FaultKind) {
    let found = migrated(alloc, text).err();
    same(rt, found, Some(ScriptFault::Bad { line, kind }), text);
}

/// The same of each text.
fn expect_faults(rt: &impl Abort, alloc: Global, texts: &[(&[u8], u64, FaultKind)]) {
    for &(text, line, kind) in texts {
        expect_fault(rt, alloc, text, line, kind);
    }
}

#[test]
fn a_faulty_header_is_named(rt: HostRuntime) {
    expect_faults(
        &rt,
        rt.alloc(),
        &[
            (b"version 3 a b", 1, FaultKind::BadVersion),
            (b"version", 1, FaultKind::BadVersion),
            (b"version 02 a b", 1, FaultKind::BadVersion),
            (b"version 2 a", 1, FaultKind::BadCount),
            (b"version 2 A", 1, FaultKind::BadCount),
            (b"version 2 a b c", 1, FaultKind::BadCount),
            (b"version 2 a a", 1, FaultKind::BadName),
            (b"version 2 a 1b", 1, FaultKind::BadName),
            (b"\n# x\nversion 2 a b-c", 3, FaultKind::BadName),
            (b"version 2 a b\nversion 2 a b", 2, FaultKind::UnknownWord),
            (b"0 begin\nversion 2 a b", 2, FaultKind::UnknownWord),
        ],
    );
}

#[test]
fn a_faulty_pair_is_named(rt: HostRuntime) {
    expect_faults(
        &rt,
        rt.alloc(),
        &[
            (b"version 2 a b\n0 insert", 2, FaultKind::BadCount),
            (
                b"version 2 a b\n0 insert 1 a=1 b=2 a=3",
                2,
                FaultKind::BadCount,
            ),
            (b"version 2 a b\n0 insert x 5", 2, FaultKind::BadNumber),
            (b"version 2 a b\n0 insert 1 5", 2, FaultKind::BadPair),
            (b"version 2 a b\n0 insert 1 c=x", 2, FaultKind::BadColumn),
            (b"version 2 a b\n0 insert 1 =5", 2, FaultKind::BadColumn),
            (
                b"version 2 a b\n0 insert 1 a=1 a=x",
                2,
                FaultKind::RepeatedColumn,
            ),
            (b"version 2 a b\n0 insert 1 a=1=2", 2, FaultKind::BadNumber),
            (b"version 2 a b\n0 insert 1 a=_", 2, FaultKind::BadNumber),
            (b"version 2 a b\n0 update 1", 2, FaultKind::NothingToSet),
            (b"version 2 a b\nmerge 4 c", 2, FaultKind::BadRange),
            (b"version 2 a b\nmerge 0 1", 2, FaultKind::BadColumn),
            (b"version 2 a b\n0 find c x", 2, FaultKind::BadNumber),
        ],
    );
}

/// The next number that a state draws, below a limit.
fn draw(state: &mut u64, limit: u64) -> u64
    requires { 0 < limit }
    ensures { result < limit }
{
    *state = next_drawn(*state);
    (*state >> 33) % limit
}

/// A number of one digit, one of twenty, or null.
fn drawn_cell(state: &mut u64) -> Option<u64> {
    match draw(state, 4) {
        0 => None,
        1 => Some(u64::MAX - draw(state, 9)),
        _ => Some(draw(state, 10)),
    }
}

fn drawn_row(state: &mut u64) -> Row {
    let first = drawn_cell(state);
    let second = drawn_cell(state);
    row(first, second)
}

/// A patch that sets one column or both.
fn drawn_patch(state: &mut u64) -> Patch {
    let kind = draw(state, 3);
    let first = if kind == 0 {
        None
    } else {
        Some(drawn_cell(state))
    };
    let second = if kind == 1 {
        None
    } else {
        Some(drawn_cell(state))
    };
    let mut patch = Patch::of_numbers(ArrayVec::new());
    patch.push(first);
    patch.push(second);
    patch
}

fn drawn_call(state: &mut u64) -> Call {
    match draw(state, 12) {
        0 => Call::Begin,
        1 => Call::AsOf {
            time: draw(state, 100),
        },
        2 => Call::Get {
            key: u64::MAX - draw(state, 3),
        },
        3 | 4 => Call::Insert {
            key: draw(state, 100),
            row: drawn_row(state),
        },
        5 | 6 => Call::Update {
            key: draw(state, 100),
            patch: drawn_patch(state),
        },
        7 => Call::Delete {
            key: draw(state, 100),
        },
        8 => Call::Sum {
            column: draw(state, 2) as u32,
        },
        9 => Call::Find {
            column: draw(state, 2) as u32,
            value: draw(state, 1000),
        },
        10 => Call::Scan,
        _ => Call::Commit,
    }
}

/// A script of so many calls.
fn drawn_lines(alloc: Global, seed: u64, count: u32) -> Result<Script, OutOfMemory> {
    let mut script = Script::new(alloc);
    let mut state = seed;
    for _line in 0..count {
        let session = draw(&mut state, 4) as u32;
        script.push(call(session, drawn_call(&mut state)))?;
    }
    Ok(script)
}

/// The same with the names `a` and `ab`, the first of which the second begins with.
fn drawn_script(alloc: Global, seed: u64, count: u32) -> Result<Named, OutOfMemory> {
    let script = drawn_lines(alloc, seed, count)?;
    let names = names_of(alloc, &[b"a", b"ab"])?;
    Ok(Named { names, script })
}

/// Looks whether a text is read as the lines of this script.
fn is_read_as_script(
    rt: &impl Abort,
    alloc: Global,
    text: &[u8],
    script: &Script,
) -> Result<(), ScriptFault> {
    let lines = script.unpacked(alloc)?;
    let read = parse_named(alloc, text, &Limits::default())?;
    has_lines(rt, alloc, &read.script, lines.as_slice())?;
    Ok(())
}

/// Looks whether a drawn script is read of its text, which is printed again.
fn is_printed_and_read(rt: &impl Abort, alloc: Global, seed: u64) -> Result<(), ScriptFault> {
    let drawn = drawn_script(alloc, seed, 50)?;
    let text = printed(alloc, &drawn)?;
    is_read_as_script(rt, alloc, text.as_slice(), &drawn.script)?;
    expect_migrated(rt, alloc, text.as_slice(), text.as_slice())
}

#[test]
fn drawn_scripts_are_printed_and_read(rt: HostRuntime) -> Result<(), ScriptFault> {
    for seed in 0..20 {
        is_printed_and_read(&rt, rt.alloc(), seed)?;
    }
    Ok(())
}

/// A text with a space before each newline, so that no line is in its plainest form.
fn with_spaces(alloc: Global, text: &[u8]) -> Result<Vec<u8>, OutOfMemory> {
    let mut spaced = Vec::new(alloc);
    for byte in text {
        if *byte == b'\n' {
            spaced.push(b' ')?;
        }
        spaced.push(*byte)?;
    }
    Ok(spaced)
}

/// Looks whether a text is read by its bytes as it is by its words: as the same script, or with the same fault.
fn expect_as_by_words(rt: &impl Abort, alloc: Global, text: &[u8]) -> Result<(), OutOfMemory> {
    let spaced = with_spaces(alloc, text)?;
    let by_words = migrated(alloc, spaced.as_slice());
    same(rt, migrated(alloc, text), by_words, text);
    Ok(())
}

/// The same for a text with one of its bytes changed to each of some.
fn expect_changed_at(
    rt: &impl Abort,
    alloc: Global,
    text: &[u8],
    place: usize,
) -> Result<(), OutOfMemory> {
    for byte in b" \n=ab9_#".as_slice() {
        let other = with_byte(alloc, text, place, *byte)?;
        expect_as_by_words(rt, alloc, other.as_slice())?;
    }
    Ok(())
}

/// The same for a text with each of its bytes changed.
fn expect_changed_as_by_words(
    rt: &impl Abort,
    alloc: Global,
    text: &[u8],
) -> Result<(), OutOfMemory> {
    for place in 0..text.len() {
        expect_changed_at(rt, alloc, text, place)?;
    }
    Ok(())
}

/// The same for the text of a drawn script.
fn expect_drawn_as_by_words(rt: &impl Abort, alloc: Global, seed: u64) -> Result<(), OutOfMemory> {
    let drawn = drawn_script(alloc, seed, 12)?;
    let text = printed(alloc, &drawn)?;
    expect_changed_as_by_words(rt, alloc, text.as_slice())
}

#[test]
fn each_changed_byte_is_read_as_by_words(rt: HostRuntime) -> Result<(), OutOfMemory> {
    for seed in 0..3 {
        expect_drawn_as_by_words(&rt, rt.alloc(), seed)?;
    }
    expect_changed_as_by_words(
        &rt,
        rt.alloc(),
        b"0 begin\n0 insert 1 2 30\n0 update 1 _ 4\n1 find 1 7\n2 get 5\n3 sum 0\n0 asof 2\n0 delete 1\n2 scan\n0 commit\n",
    )
}

/// Looks whether a text has a fault, or is printed as a text that is printed as itself.
fn expect_fault_or_text(rt: &impl Abort, alloc: Global, text: &[u8]) -> Result<(), ScriptFault> {
    match migrated(alloc, text) {
        Ok(printed) => expect_text(rt, alloc, text, printed.as_slice()),
        Err(_) => Ok(()),
    }
}

#[test]
fn each_changed_byte_is_a_fault_or_printed_again(rt: HostRuntime) -> Result<(), ScriptFault> {
    let text =
        b"version 2 a b\n0 begin\n0 insert 1 b=3\n0 update 1 a=null b=4\n1 find a 7\nmerge 1 b\n";
    for place in 0..text.len() {
        for byte in b" \n=a1_#".as_slice() {
            let other = with_byte(rt.alloc(), text, place, *byte)?;
            expect_fault_or_text(&rt, rt.alloc(), other.as_slice())?;
        }
    }
    Ok(())
}
