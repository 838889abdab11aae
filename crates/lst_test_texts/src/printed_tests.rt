//! Scripts printed, read again, and generated.

use crate::texts::{call, is_read_as, row, same};
use arrayvec::ArrayVec;
use lst_layout::Limits;
use lst_model::{Call, Line, OutOfMemory, Patch};
use lst_script::{Script, ScriptFault, generate, parse, print};
use std::alloc::Global;
use std::process::Abort;

/// A script is printed so.
fn prints(
    rt: &impl Abort,
    alloc: Global,
    script: &Script,
    wanted: &str,
) -> Result<(), OutOfMemory> {
    let text = print(alloc, script)?;
    same(rt, text.as_bytes(), wanted.as_bytes(), wanted);
    Ok(())
}

/// What is printed of a text that was read, and that it is read as the same script.
fn expect_printed(
    rt: &impl Abort,
    alloc: Global,
    text: &str,
    wanted: &str,
) -> Result<(), ScriptFault> {
    let script = parse(alloc, text.as_bytes(), &Limits::default())?;
    prints(rt, alloc, &script, wanted)?;
    let lines = script.unpacked(alloc)?;
    is_read_as(rt, alloc, wanted.as_bytes(), lines.as_slice())
}

#[test]
fn a_printed_script_is_read_as_the_same_script(rt: HostRuntime) -> Result<(), ScriptFault> {
    expect_printed(&rt, rt.alloc(), "", "")?;
    expect_printed(&rt, rt.alloc(), "# none\n\n", "")?;
    expect_printed(&rt, rt.alloc(), "  3  get  007 ", "3 get 7\n")?;
    expect_printed(
        &rt,
        rt.alloc(),
        "00 begin\r\n0 insert 18446744073709551615 0 00\n0 update 7 _ 21\n1 asof 3\n0 delete 10\n0 commit\nphase\n2 abort",
        "0 begin\n0 insert 18446744073709551615 0 0\n0 update 7 _ 21\n1 asof 3\n0 delete 10\n0 commit\nphase\n2 abort\n",
    )
}

/// Leaves the first column, sets the second to 6 and the third to null.
fn mixed_patch() -> Patch {
    let mut patch = Patch::of_numbers(ArrayVec::new());
    patch.push(None);
    patch.push(Some(Some(6)));
    patch.push(Some(None));
    patch
}

/// Lines with a row, a patch and a column.
fn lines() -> [Line; 7] {
    [
        Line::Merge {
            range: 12,
            column: 1,
        },
        call(
            15,
            Call::Insert {
                key: 100,
                row: row(Some(5), None),
            },
        ),
        call(
            1,
            Call::Update {
                key: 0,
                patch: mixed_patch(),
            },
        ),
        call(0, Call::Sum { column: 3 }),
        call(0, Call::Count),
        call(0, Call::Scan),
        call(
            0,
            Call::Find {
                column: 1,
                value: 99,
            },
        ),
    ]
}

#[test]
fn every_line_has_its_text(rt: HostRuntime) -> Result<(), OutOfMemory> {
    let mut script = Script::new(rt.alloc());
    for line in lines() {
        script.push(line)?;
    }
    prints(
        &rt,
        rt.alloc(),
        &script,
        "merge 12 1\n15 insert 100 5 null\n1 update 0 _ 6 null\n0 sum 3\n0 count\n0 scan\n0 find 1 99\n",
    )
}

/// The text that a script begins with.
fn begins_with(
    rt: &impl Abort,
    alloc: Global,
    script: &Script,
    front: &str,
) -> Result<(), OutOfMemory> {
    let text = print(alloc, script)?;
    let found = text.as_bytes().starts_with(front.as_bytes());
    same(rt, found, true, front);
    Ok(())
}

/// The text that a script ends with.
fn ends_with(
    rt: &impl Abort,
    alloc: Global,
    script: &Script,
    end: &str,
) -> Result<(), OutOfMemory> {
    let text = print(alloc, script)?;
    let found = text.as_bytes().ends_with(end.as_bytes());
    same(rt, found, true, end);
    Ok(())
}

#[test]
fn the_script_of_two_keys_is_as_written(rt: HostRuntime) -> Result<(), OutOfMemory> {
    let script = generate(rt.alloc(), 1, 2, 1)?;
    let front =
        "0 begin\n0 insert 1 1000\n0 commit\n0 begin\n0 insert 2 1000\n0 commit\nphase\n0 begin\n0 update 1 995\n0 update 2 1005\n0 sum 0\n0 commit\n";
    begins_with(&rt, rt.alloc(), &script, front)?;
    let end = "phase\n0 begin\n0 count\n0 sum 0\n0 commit\n";
    ends_with(&rt, rt.alloc(), &script, end)
}

/// How many updates are among lines. Session 0 makes them all.
fn updates_in(rt: &impl Abort, lines: &[Line]) -> u32 {
    let mut updates = 0u32;
    for line in lines {
        if let Line::Call {
            session,
            call: Call::Update { .. },
        } = line
        {
            same(rt, *session, 0, "session");
            updates = updates.wrapping_add(1);
        }
    }
    updates
}

#[test]
fn a_session_without_a_second_key_moves_nothing(rt: HostRuntime) -> Result<(), OutOfMemory> {
    let script = generate(rt.alloc(), 7, 3, 2)?;
    // Session 1 owns the key 2 alone, so the second of the three steps has no lines.
    let lines = script.unpacked(rt.alloc())?;
    same(&rt, updates_in(&rt, lines.as_slice()), 4, "updates");
    let front = "0 begin\n0 insert 1 1000\n0 commit\n1 begin\n1 insert 2 1000\n";
    begins_with(&rt, rt.alloc(), &script, front)
}

/// The ranges of the merges among lines.
fn merged_in(alloc: Global, lines: &[Line]) -> Result<Vec<u32>, OutOfMemory> {
    let mut ranges = Vec::new(alloc);
    for line in lines {
        if let Line::Merge { range, .. } = line {
            ranges.push(*range)?;
        }
    }
    Ok(ranges)
}

/// A script merges these ranges, in this order.
fn merges(
    rt: &impl Abort,
    alloc: Global,
    script: &Script,
    wanted: &[u32],
) -> Result<(), OutOfMemory> {
    let lines = script.unpacked(alloc)?;
    let ranges = merged_in(alloc, lines.as_slice())?;
    same(rt, ranges.as_slice(), wanted, "merges");
    Ok(())
}

#[test]
fn a_merge_stands_behind_each_64_steps(rt: HostRuntime) -> Result<(), OutOfMemory> {
    let script = generate(rt.alloc(), 3, 600, 4)?;
    same(&rt, script.len(), 600 * 3 + 1 + 600 * 5 + 9 + 5, "lines");
    merges(&rt, rt.alloc(), &script, &[0, 1, 2, 0, 1, 2, 0, 1, 2])
}

/// How many newlines a text has.
fn newlines_in(text: &[u8]) -> usize {
    let mut lines = 0usize;
    for byte in text {
        if *byte == b'\n' {
            lines = lines.wrapping_add(1);
        }
    }
    lines
}

#[test]
fn the_largest_script_is_printed(rt: HostRuntime) -> Result<(), OutOfMemory> {
    let script = generate(rt.alloc(), 5, 4096, 16)?;
    same(&rt, script.len(), 4096 * 8 + 64 + 6, "lines");
    let text = print(rt.alloc(), &script)?;
    same(&rt, newlines_in(text.as_bytes()), script.len(), "newlines");
    Ok(())
}
