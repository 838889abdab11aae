//! A commit that is on the disk, one that isn't or may be, and images that are damaged.

use crate::checks::{is_so, same};
use arrayvec::ArrayVec;
use lst_disk::{Disk, MemDisk};
use lst_log::{AppendFault, LogCause, is_record, open};
use lst_model::{Act, Commit, Row, Write, Writes};
use std::alloc::Global;
use std::process::Abort;
use std::test::Fail;

/// The record of the transaction 1 of session 0, begun at 0, which puts 10 20 at key 7, and the byte behind it.
const RECORD: [u8; 49] = [
    1, 0, 0, 0, 0, 0, 0, 0, 1, 0, 0, 0, 0, 0, 0, 0, 0, 0, 0, 0, 1, 0, 0, 0, 0, 0, 0, 0, 7, 1, 3, 0,
    0, 0, 0, 0, 0, 0, 0, 10, 0, 0, 0, 0, 0, 0, 0, 20, 0,
];

fn first_commit(alloc: Global) -> Result<Commit, Fail> {
    let mut row = Row::of_numbers(ArrayVec::new());
    row.push(Some(10));
    row.push(Some(20));
    let mut writes = Writes::new(alloc);
    writes.push(Write {
        key: 7,
        act: Act::Put(row),
    })?;
    Ok(Commit {
        session: 0,
        number: 1,
        begin: 0,
        writes,
    })
}

/// What the commit is answered on an empty disk, and the disk behind it.
fn appended(alloc: Global, disk: MemDisk) -> Result<(MemDisk, Option<AppendFault>), Fail> {
    let commit = first_commit(alloc)?;
    let Ok((mut log, before)) = open(alloc, disk, 2) else {
        return Err("the disk was not opened".into());
    };
    if !before.is_empty() || !is_record(&commit, log.columns) {
        return Err("an empty disk has commits, or the commit has no record".into());
    }
    let answer = log.append(alloc, &commit).err();
    Ok((log.disk, answer))
}

/// How many commits a disk is opened with.
fn found(alloc: Global, disk: MemDisk) -> Result<usize, Fail> {
    match open(alloc, disk, 2) {
        Ok((_, found)) => Ok(found.len()),
        Err(_) => Err("the disk was not opened again".into()),
    }
}

/// A disk's size, how many calls it makes and whether it tears; what the commit is answered, and how many are found after a crash.
type Append = (u32, u64, bool, Option<AppendFault>, usize);

const APPENDS: [Append; 11] = [
    (64, 5, false, None, 1),
    (64, 1, false, Some(AppendFault::Disk), 0),
    (64, 1, true, Some(AppendFault::Disk), 0),
    (64, 2, false, Some(AppendFault::Disk), 0),
    (64, 2, true, Some(AppendFault::Disk), 0),
    (64, 3, false, Some(AppendFault::Disk), 0),
    (64, 3, true, Some(AppendFault::Disk), 0),
    (64, 4, false, Some(AppendFault::Disk), 0),
    (64, 4, true, Some(AppendFault::Disk), 1),
    (48, 5, false, Some(AppendFault::JournalFull), 0),
    (49, 5, false, None, 1),
];

/// Each of these appends is answered so, and found so.
fn are_kept(rt: &impl Abort, alloc: Global, appends: &[Append]) -> Result<(), Fail> {
    for &(size, stop, torn, answer, commits) in appends {
        let (disk, answered) = appended(alloc, MemDisk::new(alloc, size, stop, torn)?)?;
        let found = found(alloc, disk.crash())?;
        same(rt, (answered, found), (answer, commits), (size, stop, torn));
    }
    Ok(())
}

#[test]
fn a_commit_is_kept_where_it_is_acknowledged(rt: HostRuntime) -> Result<(), Fail> {
    are_kept(&rt, rt.alloc(), &APPENDS)
}

#[test]
fn a_record_has_these_bytes(rt: HostRuntime) -> Result<(), Fail> {
    let alloc = rt.alloc();
    let (mut disk, answer) = appended(alloc, MemDisk::new(alloc, 49, 100, false)?)?;
    same(&rt, answer, None, "appended");
    if disk.size() != 49 {
        return Err("the disk has another size".into());
    }
    let mut bytes = [9; 49];
    is_so(&rt, disk.read(0, &mut bytes).is_ok(), "read");
    is_so(&rt, bytes == RECORD, "bytes");
    Ok(())
}

/// Some bytes of the front of an image on a disk of some size, where one at a place is another; why it isn't opened, or None where it is.
type Image = (usize, u32, u64, u8, Option<LogCause>);

/// Of one record: an unknown kind; a record that ends with the disk; one that would end behind it.
const OF_ONE: [Image; 3] = [
    (49, 64, 29, 9, Some(LogCause::Damaged { at: 0 })),
    (48, 48, 0, 1, None),
    (47, 47, 0, 1, Some(LogCause::Damaged { at: 0 })),
];

/// Of two records: a second one that puts the key again; that of another key; one of an unknown kind; one behind a closed gate.
const OF_TWO: [Image; 4] = [
    (97, 98, 0, 1, Some(LogCause::Damaged { at: 48 })),
    (97, 98, 76, 8, None),
    (97, 98, 77, 9, Some(LogCause::Damaged { at: 48 })),
    (97, 98, 48, 0, None),
];

/// Writes bytes on a disk, from a place on.
fn write(disk: &mut MemDisk, at: u64, bytes: &[u8]) -> Result<(), Fail> {
    disk.room(bytes.len() as u64)?;
    let size = disk.size();
    if size < at || size - at < bytes.len() as u64 || disk.write_at(at, bytes).is_err() {
        return Err("the bytes were not written".into());
    }
    Ok(())
}

/// Why a disk of so many bytes isn't opened that has these at its front, with another byte at one place; None where it is opened.
fn refusal(
    alloc: Global,
    size: u32,
    bytes: &[u8],
    place: u64,
    byte: u8,
) -> Result<Option<LogCause>, Fail> {
    let mut disk = MemDisk::new(alloc, size, 100, false)?;
    write(&mut disk, 0, bytes)?;
    write(&mut disk, place, &[byte])?;
    match open(alloc, disk, 2) {
        Ok(_) => Ok(None),
        Err(refusal) => Ok(Some(refusal.cause)),
    }
}

/// Each of these images is opened or refused so.
fn are_told(rt: &impl Abort, alloc: Global, bytes: &[u8], images: &[Image]) -> Result<(), Fail> {
    for &(len, size, place, byte, wanted) in images {
        let Some(front) = bytes.get(..len) else {
            return Err("there are fewer bytes".into());
        };
        let found = refusal(alloc, size, front, place, byte)?;
        same(rt, found, wanted, (len, place, byte));
    }
    Ok(())
}

#[test]
fn the_first_record_that_is_none_is_named(rt: HostRuntime) -> Result<(), Fail> {
    let alloc = rt.alloc();
    are_told(&rt, alloc, &RECORD, &OF_ONE)?;
    let mut two = RECORD.to_vec(alloc)?;
    two.truncate(48);
    two.extend_from_slice(&RECORD)?;
    are_told(&rt, alloc, two.as_slice(), &OF_TWO)
}
