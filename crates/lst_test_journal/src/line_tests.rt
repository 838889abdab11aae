//! Lines through an open journal, and what they leave on its disk.

use crate::disks::{Cramped, blank, byte_at};
use crate::driving::{Step, opened, same};
use lst_disk::MemDisk;
use lst_model::{OutOfMemory, Reply};
use lst_redo::Kept;
use std::process::Abort;
use std::test::Fail;

/// Session 0 puts a row.
const PUTS: &[Step] = &[("0 begin", "begun 0"), ("0 insert 7 10 20", "ok")];

/// What session 1 finds where the commit is lost, and where it is kept.
const LOST: &[Step] = &[("1 begin", "begun 0"), ("1 get 7", "none")];

const KEPT: &[Step] = &[("1 begin", "begun 1"), ("1 get 7", "row 10 20")];

/// What the commit of a row was answered, through a journal over a disk that makes so many calls, and the disk behind its crash. The journal has failed where
/// that is the answer.
fn committed(
    rt: &(impl Abort + AllocGlobal),
    calls: u64,
    torn: bool,
) -> Result<(Kept, MemDisk), Fail> {
    let alloc = rt.alloc();
    let mut driven = opened(alloc, MemDisk::new(alloc, 1024, calls, torn)?)?;
    driven.play(rt, PUTS)?;
    let kept = driven.line(alloc, "0 commit")??;
    same(rt, driven.failed(), kept == Kept::DiskFault, calls);
    Ok((kept, driven.close().crash()))
}

/// Opens the disk of that commit again. What the commit was answered, and how many commits were recovered.
fn crashed(rt: &(impl Abort + AllocGlobal), calls: u64, torn: bool) -> Result<(Kept, usize), Fail> {
    let (kept, disk) = committed(rt, calls, torn)?;
    let mut driven = opened(rt.alloc(), disk)?;
    let recovered = driven.history(rt.alloc())?.len();
    driven.play(rt, if recovered == 0 { LOST } else { KEPT })?;
    Ok((kept, recovered))
}

/// Compares what `crashed` tells.
fn crashes(
    rt: &(impl Abort + AllocGlobal),
    calls: u64,
    torn: bool,
    wanted: (Kept, usize),
) -> Result<(), Fail> {
    let told = crashed(rt, calls, torn)?;
    same(rt, told, wanted, calls);
    Ok(())
}

/// An opening takes one call, and a commit four. A torn disk keeps a gate that was written.
#[test]
fn a_commit_is_kept_once_its_four_calls_are_made(rt: HostRuntime) -> Result<(), Fail> {
    for calls in 1..5 {
        let kept = (calls == 4) as usize;
        crashes(&rt, calls, false, (Kept::DiskFault, 0))?;
        crashes(&rt, calls, true, (Kept::DiskFault, kept))?;
    }
    for torn in [false, true] {
        let reply = Reply::Committed { time: 1 };
        crashes(&rt, 5, torn, (Kept::Reply { reply }, 1))?;
    }
    Ok(())
}

const FILLS: &[Step] = &[
    ("0 begin", "begun 0"),
    ("0 insert 7 10 20", "ok"),
    ("0 commit", "committed 1"),
    ("0 begin", "begun 1"),
    ("0 delete 7", "ok"),
    ("0 commit", "journal full"),
    ("0 get 7", "none"),
    ("0 abort", "aborted"),
];

/// Session 0 finds the row that it put.
const FINDS: &[Step] = &[("0 begin", "begun 1"), ("0 get 7", "row 10 20")];

/// The second record has no room on a disk of 64 bytes. Its transaction stays open, and can be aborted.
#[test]
fn a_full_journal_leaves_the_transaction_open(rt: HostRuntime) -> Result<(), Fail> {
    let disk = played(&rt, blank(rt.alloc(), 64)?, FILLS)?;
    let mut driven = opened(rt.alloc(), disk)?;
    driven.play(&rt, FINDS)
}

const ABORTS_ONE: &[Step] = &[
    ("0 begin", "begun 0"),
    ("0 abort", "aborted"),
    ("0 begin", "begun 0"),
    ("0 insert 7 10 20", "ok"),
    ("0 commit", "committed 1"),
];

const UPDATES: &[Step] = &[
    ("0 begin", "begun 1"),
    ("0 update 7 11 _", "ok"),
    ("0 commit", "committed 2"),
];

/// The disk of a journal that lines went through.
fn played(rt: &(impl Abort + AllocGlobal), disk: MemDisk, lines: &[Step]) -> Result<MemDisk, Fail> {
    let mut driven = opened(rt.alloc(), disk)?;
    driven.play(rt, lines)?;
    Ok(driven.close())
}

/// A transaction that was aborted has had a number, and leaves no record. Numbers start again with each opening.
#[test]
fn each_opening_numbers_its_transactions_from_1(rt: HostRuntime) -> Result<(), Fail> {
    let disk = played(&rt, blank(rt.alloc(), 256)?, ABORTS_ONE)?;
    let mut disk = played(&rt, disk, UPDATES)?;
    // the lowest byte of each record's number
    same(&rt, byte_at(&mut disk, 8)?, 2, 8);
    same(&rt, byte_at(&mut disk, 56)?, 2, 56);
    let mut driven = opened(rt.alloc(), disk)?;
    same(&rt, driven.history(rt.alloc())?.len(), 2, 0);
    Ok(())
}

const TRIES_AGAIN: &[Step] = &[
    ("0 get 7", "row 10 20"),
    ("0 update 7 11 _", "ok"),
    ("0 commit", "committed 1"),
];

/// Session 0 finds the row as it was updated.
const FINDS_UPDATED: &[Step] = &[("0 begin", "begun 1"), ("0 get 7", "row 11 20")];

/// A commit for which memory is wanting is made once there is some. It leaves one record.
#[test]
fn want_of_memory_leaves_the_transaction_open(rt: HostRuntime) -> Result<(), Fail> {
    let alloc = rt.alloc();
    // the opening asks for room once, and each commit once
    let mut driven = opened(alloc, Cramped::new(alloc, 1024, 1)?)?;
    driven.play(&rt, PUTS)?;
    same(&rt, driven.line(alloc, "0 commit")?, Err(OutOfMemory), 0);
    driven.play(&rt, TRIES_AGAIN)?;
    let mut driven = opened(alloc, driven.close())?;
    driven.play(&rt, FINDS_UPDATED)
}
