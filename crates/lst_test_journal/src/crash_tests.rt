//! Scripts that are crashed at each call of their disk, torn and not, and the text that each gives.
ghost use Rattle.std.specs.Prelude.{◌≤◌, All, IfOk};
ghost use Rattle.lst_layout.specs.Limits.{IsValid};
ghost use Rattle.lst_crash.specs.Crashes.{IsTaken, most_bytes};

use lst_crash::crash_lines;
use lst_layout::{Layout, Limits};
use lst_model::{OutOfMemory, Text};
use lst_script::{Script, ScriptFault, parse};
use std::alloc::Global;
use std::fmt::Debug;
use std::process::Abort;

/// A row is put.
const PUT: &[u8] = b"0 begin\n0 insert 7 10 20\n0 commit\n";

/// A row is put, and deleted.
const PUT_AND_DELETED: &[u8] =
    b"0 begin\n0 insert 7 10 20\n0 commit\n0 begin\n0 delete 7\n0 commit\n";

/// A stock of three items, of which two are sold while a session sums it.
const STOCK: &[u8] =
    b"0 begin\n0 insert 1001 40 250\n0 insert 1002 15 900\n0 insert 1003 8 1200\n0 commit\n2 begin\n2 sum 0\n1 begin\n1 update 1002 14 _\n1 update 1003 6 _\n1 commit\nmerge 0 0\nmerge 0 1\n2 sum 0\n2 commit\n2 begin\n2 sum 0\n2 scan\n2 commit\n";

/// What its lines are answered up to the first commit at which the disk stopped, up to the second one, and to their end.
const STOPPED: &[u8] = b"0 begun 0\n0 ok\n0 ok\n0 ok\n0 stopped\n";

const STOPPED_LATER: &[u8] =
    b"0 begun 0\n0 ok\n0 ok\n0 ok\n0 committed 1\n2 begun 1\n2 sum 63\n1 begun 1\n1 ok\n1 ok\n1 stopped\n";

const ANSWERED: &[u8] =
    b"0 begun 0\n0 ok\n0 ok\n0 ok\n0 committed 1\n2 begun 1\n2 sum 63\n1 begun 1\n1 ok\n1 ok\n1 committed 2\nmerged 5\nmerged 5\n2 sum 63\n2 ended 1\n2 begun 2\n2 sum 60\n2 rows 1001:40,250 1002:14,900 1003:6,1200\n2 ended 2\n";

/// What is recovered of it.
const NOTHING: &[u8] = b"recovered 0\nrows\n";

const STOCK_KEPT: &[u8] = b"recovered 1\nrows 1001:40,250 1002:15,900 1003:8,1200\n";

const SALE_KEPT: &[u8] = b"recovered 2\nrows 1001:40,250 1002:14,900 1003:6,1200\n";

/// What was found is what was wanted, at this place of a test.
fn same<T: PartialEq + Debug + Drop>(rt: &impl Abort, found: T, wanted: T, at: impl Debug + Drop) {
    assert_eq!(rt; found, wanted, "{at:?}");
}

/// The layout of a small store.
fn layout(rt: &impl Abort) -> Layout
    ensures { IsValid result.limits }
{
    let limits = Limits {
        ranges: 1,
        tails: 64,
        ..Limits::default()
    };
    match limits.check() {
        Ok(layout) => layout,
        Err(_) => panic!(rt; "the limits are out of range"),
    }
}

/// The lines of a text.
fn script_of(alloc: Global, text: &[u8], limits: &Limits) -> Result<Script, ScriptFault>
    requires { IsValid limits.now }
    ensures { IfOk result (λ script. All (IsTaken limits.now) script) }
{
    match parse(alloc, text, limits) {
        Ok(script) => Ok(script),
        Err(fault) => Err(fault),
    }
}

/// The text of a run of these lines over a disk of so many bytes that stops after so many calls.
fn crashed(
    alloc: Global,
    layout: &Layout,
    text: &[u8],
    bytes: u32,
    stop: u64,
    torn: bool,
) -> Result<Text, ScriptFault>
    requires bytes { bytes ≤ most_bytes }
    requires layout { IsValid layout.now.limits }
{
    let script = script_of(alloc, text, &layout.limits)?;
    Ok(crash_lines(alloc, &script, layout, bytes, stop, torn)?.text)
}

/// The same run has this text.
fn comes_to(
    rt: &impl Abort,
    alloc: Global,
    text: &[u8],
    bytes: u32,
    stop: u64,
    torn: bool,
    wanted: &[u8],
) -> Result<(), ScriptFault>
    requires { bytes ≤ most_bytes }
{
    let found = crashed(alloc, &layout(rt), text, bytes, stop, torn)?;
    same(rt, found.as_bytes(), wanted, (stop, torn));
    Ok(())
}

/// What is recovered of a row put.
const KEPT: &[u8] = b"0 begun 0\n0 ok\n0 committed 1\nrecovered 1\nrows 7:10,20\n";

const LOST: &[u8] = b"0 begun 0\n0 ok\n0 stopped\nrecovered 0\nrows\n";

const TORN: &[u8] = b"0 begun 0\n0 ok\n0 stopped\nrecovered 1\nrows 7:10,20\n";

const UNOPENED: &[u8] = b"stopped\nrecovered 0\nrows\n";

/// A row put is recovered where the fourth call of its commit was made, or its bytes were.
#[test]
fn a_commit_is_recovered_once_its_calls_are_made(rt: HostRuntime) -> Result<(), ScriptFault> {
    for &(stop, torn, wanted) in &[
        (5, false, KEPT),
        (1, false, LOST),
        (2, false, LOST),
        (3, false, LOST),
        (4, false, LOST),
        (1, true, LOST),
        (2, true, LOST),
        (3, true, LOST),
        (4, true, TORN),
        (0, true, UNOPENED),
    ] {
        comes_to(&rt, rt.alloc(), PUT, 1024, stop, torn, wanted)?;
    }
    Ok(())
}

/// A record of 48 bytes leaves no room for a second one in 64.
#[test]
fn a_full_disk_takes_no_commit(rt: HostRuntime) -> Result<(), ScriptFault> {
    let full =
        b"0 begun 0\n0 ok\n0 committed 1\n0 begun 1\n0 ok\n0 full journal\nrecovered 1\nrows 7:10,20\n";
    let text = PUT_AND_DELETED;
    comes_to(&rt, rt.alloc(), text, 64, 1000000, false, full.as_slice())
}

/// The table that is owed for the stock where so many calls of the disk count.
fn table_owed(calls: u64) -> &'static [u8] {
    if calls < 5 {
        NOTHING
    } else if calls < 9 {
        STOCK_KEPT
    } else {
        SALE_KEPT
    }
}

/// The answers that are owed where the disk stops after so many calls.
fn answers_owed(stop: u64) -> &'static [u8] {
    if stop == 0 {
        b"stopped\n"
    } else if stop < 5 {
        STOPPED
    } else if stop < 9 {
        STOPPED_LATER
    } else {
        ANSWERED
    }
}

/// What is owed for the stock, by the number of the disk's calls. The opening takes one and each of the two commits four; the last of these makes a
/// commit sure that a torn disk keeps without it.
fn owed(alloc: Global, stop: u64, torn: bool) -> Result<Vec<u8>, OutOfMemory> {
    let kept = if torn { stop.saturating_add(1) } else { stop };
    let mut text = answers_owed(stop).to_vec(alloc)?;
    text.extend_from_slice(table_owed(kept))?;
    Ok(text)
}

/// The stock is crashed after so many calls.
fn stock_is_crashed(
    rt: &impl Abort,
    alloc: Global,
    stop: u64,
    torn: bool,
) -> Result<(), ScriptFault> {
    let wanted = owed(alloc, stop, torn)?;
    comes_to(rt, alloc, STOCK, 1024, stop, torn, wanted.as_slice())
}

/// A stock is crashed at each call that its disk makes, torn and not.
#[test]
fn a_stock_is_crashed_at_each_call(rt: HostRuntime) -> Result<(), ScriptFault> {
    for stop in 0..10 {
        stock_is_crashed(&rt, rt.alloc(), stop, false)?;
        stock_is_crashed(&rt, rt.alloc(), stop, true)?;
    }
    Ok(())
}
