//! Disks that are opened with room for their commits, and without; one that is damaged, one that fails, and one for which memory is wanting.

use crate::disks::{Cramped, blank, put};
use crate::driving::{Driven, Step, layout_of, opened, same, tried};
use lst_disk::MemDisk;
use lst_layout::Limits;
use lst_redo::OpenCause;
use std::alloc::Global;
use std::process::Abort;
use std::test::Fail;

const THREE_COMMITS: &[Step] = &[
    ("0 begin", "begun 0"),
    ("1 begin", "begun 0"),
    ("0 insert 7 10 20", "ok"),
    ("0 commit", "committed 1"),
    ("1 insert 8 30 40", "ok"),
    ("1 commit", "committed 2"),
    ("0 begin", "begun 2"),
    ("0 delete 7", "ok"),
    ("0 commit", "committed 3"),
];

/// A disk with three commits, which fails after so many calls: session 0 puts key 7, session 1, which began before that, puts key 8, and session 0 deletes
/// key 7. Those take 13.
fn written(rt: &(impl Abort + AllocGlobal), calls: u64) -> Result<MemDisk, Fail> {
    let alloc = rt.alloc();
    let mut driven = opened(alloc, MemDisk::new(alloc, 256, calls, false)?)?;
    driven.play(rt, THREE_COMMITS)?;
    Ok(driven.close())
}

/// How many commits the journal of these limits has over that disk, or why it isn't opened.
fn recovered(
    rt: &(impl Abort + AllocGlobal),
    sessions: u32,
    txns: u32,
    tails: u32,
) -> Result<Result<usize, OpenCause>, Fail> {
    let limits = Limits {
        sessions,
        txns,
        tails,
        ..Limits::default()
    };
    let layout = layout_of(&limits)?;
    match tried(rt.alloc(), &layout, written(rt, 100)?) {
        Ok(mut driven) => Ok(Ok(driven.history(rt.alloc())?.len())),
        Err(refusal) => Ok(Err(refusal.cause)),
    }
}

/// Sessions, transactions and tail records; and how many commits there are then, or the time of the one that has no room.
const MET: &[(u32, u32, u32, Result<usize, u64>)] = &[
    (2, 2, 3, Ok(3)),
    (1, 2, 3, Err(2)),
    (2, 1, 3, Err(3)),
    (2, 2, 1, Err(2)),
    (2, 2, 2, Err(3)),
];

#[test]
fn each_limit_is_met_at_its_time(rt: HostRuntime) -> Result<(), Fail> {
    for (at, &(sessions, txns, tails, met)) in MET.iter().enumerate() {
        let wanted = met.map_err(|time| OpenCause::Full { time });
        same(
            &rt,
            recovered(&rt, sessions, txns, tails)?,
            wanted,
            at as u64,
        );
    }
    Ok(())
}

/// Why a disk isn't opened with room for one session.
fn cause_of(alloc: Global, disk: MemDisk) -> Result<OpenCause, Fail> {
    let limits = Limits {
        sessions: 1,
        ..Limits::default()
    };
    let layout = layout_of(&limits)?;
    match tried(alloc, &layout, disk) {
        Ok(_) => Err("the disk is refused".into()),
        Err(refusal) => Ok(refusal.cause),
    }
}

/// The same, compared.
fn causes(rt: &(impl Abort + AllocGlobal), disk: MemDisk, wanted: OpenCause) -> Result<(), Fail> {
    let cause = cause_of(rt.alloc(), disk)?;
    same(rt, cause, wanted, 0);
    Ok(())
}

#[test]
fn damage_is_told_before_a_full_store(rt: HostRuntime) -> Result<(), Fail> {
    causes(&rt, written(&rt, 100)?, OpenCause::Full { time: 2 })?;
    let mut disk = written(&rt, 100)?;
    // the kind of the third commit's write
    put(&mut disk, 125, &[9])?;
    causes(&rt, disk, OpenCause::Damaged { at: 96 })
}

/// An open gate, and a count of one write, of kind 9.
#[test]
fn a_write_of_no_kind_is_damage(rt: HostRuntime) -> Result<(), Fail> {
    let mut disk = blank(rt.alloc(), 64)?;
    put(&mut disk, 0, &[1])?;
    put(&mut disk, 20, &[1])?;
    put(&mut disk, 29, &[9])?;
    causes(&rt, disk, OpenCause::Damaged { at: 0 })
}

#[test]
fn a_disk_with_no_call_left_is_not_opened(rt: HostRuntime) -> Result<(), Fail> {
    causes(&rt, written(&rt, 13)?, OpenCause::Disk)?;
    let driven = opened(rt.alloc(), written(&rt, 14)?)?;
    assert!(rt; !driven.failed());
    Ok(())
}

#[test]
fn commits_are_run_again_by_their_sessions(rt: HostRuntime) -> Result<(), Fail> {
    let alloc = rt.alloc();
    let mut driven = opened(alloc, written(&rt, 100)?)?;
    let history = driven.history(alloc)?;
    let mut told = Vec::new(alloc);
    for commit in history.items() {
        told.push((commit.session, commit.number, commit.begin))?;
    }
    let wanted = [(0, 1, 0), (1, 1, 1), (0, 2, 2)];
    assert_eq!(rt; told.as_slice(), wanted.as_slice());
    let mut driven = opened(alloc, driven.close())?;
    same(&rt, driven.history(alloc)?.len(), 3, 0);
    Ok(())
}

/// The disk that is handed back is as it was, and is opened once there is memory.
#[test]
fn want_of_memory_hands_the_disk_back(rt: HostRuntime) -> Result<(), Fail> {
    let alloc = rt.alloc();
    let disk = Cramped::new(alloc, 64, 0)?;
    let layout = layout_of(&Limits::default())?;
    let Err(refusal) = tried(alloc, &layout, disk) else {
        return Err("the opening wants memory".into());
    };
    same(&rt, refusal.cause, OpenCause::OutOfMemory, 0);
    let mut driven: Driven<Cramped> = opened(alloc, refusal.disk)?;
    same(&rt, driven.history(alloc)?.len(), 0, 1);
    Ok(())
}
