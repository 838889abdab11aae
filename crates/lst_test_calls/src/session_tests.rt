//! A session by itself, on a new store: each call with its answer.

use crate::steps::{Step, open_one, play, take};
use lst_layout::Limits;
use lst_session::{BeginRefusal, CommitRefusal, NotBegun, Outcome, WriteRefusal};
use std::alloc::Global;
use std::process::Abort;
use std::test::Fail;

/// One range, with 16 tails.
const SMALL: Limits = Limits {
    columns: 2,
    ranges: 1,
    tails: 16,
    sessions: 2,
    txns: 8,
    spare: 1,
    indexed: 0,
};

/// Takes a script's steps on a store that opens, where a session may begin so many transactions.
fn run(rt: &impl Abort, alloc: Global, txns: u32, script: &[Step]) -> Result<(), Fail> {
    let mut on = open_one(alloc, &Limits { txns, ..SMALL })?;
    play(rt, &mut on, script);
    Ok(())
}

const READS_OWN: &[Step] = &[
    Step::Begin(Ok(0)),
    Step::Insert(7, Some(10), Some(20), Ok(())),
    Step::Get(7, Ok(Some((Some(10), Some(20))))),
    Step::IsIdle(false),
    Step::Commit(Ok(Outcome::Committed { time: 1 })),
    Step::IsIdle(true),
    Step::Seen(1),
    Step::Begin(Ok(1)),
    Step::Update(7, 11, Ok(())),
    Step::Get(7, Ok(Some((Some(11), Some(20))))),
    Step::Delete(7, Ok(())),
    Step::Get(7, Ok(None)),
    Step::Abort(Ok(())),
    Step::Begin(Ok(1)),
    Step::Get(7, Ok(Some((Some(10), Some(20))))),
];

#[test]
fn a_session_reads_what_it_has_written_and_committed(rt: HostRuntime) -> Result<(), Fail> {
    run(&rt, rt.alloc(), 8, READS_OWN)
}

const PAST_TIME: &[Step] = &[
    Step::Begin(Ok(0)),
    Step::Insert(7, Some(10), Some(20), Ok(())),
    Step::Commit(Ok(Outcome::Committed { time: 1 })),
    Step::AsOf(0, Ok(0)),
    Step::Get(7, Ok(None)),
    Step::Insert(7, Some(10), Some(20), Err(WriteRefusal::ReadOnly)),
    Step::Update(7, 11, Err(WriteRefusal::ReadOnly)),
    Step::Delete(7, Err(WriteRefusal::ReadOnly)),
    Step::Commit(Ok(Outcome::Ended { time: 0 })),
    Step::AsOf(9, Err(BeginRefusal::Future { clock: 1 })),
    Step::AsOf(1, Ok(1)),
    Step::Get(7, Ok(Some((Some(10), Some(20))))),
];

#[test]
fn a_past_time_is_read_only(rt: HostRuntime) -> Result<(), Fail> {
    run(&rt, rt.alloc(), 8, PAST_TIME)
}

const NOT_BEGUN: &[Step] = &[
    Step::Get(7, Err(NotBegun)),
    Step::Insert(7, Some(10), Some(20), Err(WriteRefusal::Idle)),
    Step::Update(7, 11, Err(WriteRefusal::Idle)),
    Step::Commit(Err(CommitRefusal::Idle)),
    Step::Abort(Err(NotBegun)),
    Step::Begin(Ok(0)),
    Step::Begin(Err(BeginRefusal::Active)),
    Step::Abort(Ok(())),
    Step::IsSpent(false),
    Step::Begin(Ok(0)),
    Step::Commit(Ok(Outcome::Ended { time: 0 })),
    Step::IsSpent(true),
    Step::Begin(Err(BeginRefusal::Spent)),
    Step::AsOf(0, Err(BeginRefusal::Spent)),
];

#[test]
fn what_is_not_begun_is_refused(rt: HostRuntime) -> Result<(), Fail> {
    run(&rt, rt.alloc(), 2, NOT_BEGUN)
}

const FULL: &[Step] = &[
    Step::Insert(256, Some(10), Some(20), Err(WriteRefusal::TableFull)),
    Step::Update(256, 11, Err(WriteRefusal::Missing)),
    Step::Insert(255, Some(10), Some(20), Err(WriteRefusal::Exists)),
    Step::Update(255, 11, Err(WriteRefusal::TailFull)),
    Step::Get(255, Ok(Some((Some(10), Some(20))))),
    Step::Commit(Ok(Outcome::Committed { time: 1 })),
];

#[test]
fn full_tables_and_ranges_are_told(rt: HostRuntime) -> Result<(), Fail> {
    // As many writes as records, of which there are 256.
    let mut on = open_one(
        rt.alloc(),
        &Limits {
            tails: 256,
            ..SMALL
        },
    )?;
    take(&rt, &mut on, Step::Begin(Ok(0)), 0);
    for key in 0..256u64 {
        take(
            &rt,
            &mut on,
            Step::Insert(key, Some(10), Some(20), Ok(())),
            key as usize,
        );
    }
    play(&rt, &mut on, FULL);
    Ok(())
}

const PINS: &[Step] = &[
    Step::Pinned(None),
    Step::Begin(Ok(0)),
    Step::Pinned(Some(0)),
    Step::Begin(Err(BeginRefusal::Active)),
    Step::Insert(7, Some(10), Some(20), Ok(())),
    Step::Get(7, Ok(Some((Some(10), Some(20))))),
    Step::Insert(7, Some(10), Some(20), Err(WriteRefusal::Exists)),
    Step::Pinned(Some(0)),
    Step::Commit(Ok(Outcome::Committed { time: 1 })),
    Step::Pinned(None),
    Step::AsOf(9, Err(BeginRefusal::Future { clock: 1 })),
    Step::Pinned(None),
    Step::AsOf(1, Ok(1)),
    Step::Pinned(Some(0)),
    Step::Abort(Ok(())),
    Step::Pinned(None),
    Step::Begin(Ok(1)),
    Step::Pinned(Some(0)),
    Step::Commit(Ok(Outcome::Ended { time: 1 })),
    Step::Pinned(None),
    Step::Begin(Err(BeginRefusal::Spent)),
    Step::Pinned(None),
];

#[test]
fn a_session_is_pinned_while_its_transaction_is_open(rt: HostRuntime) -> Result<(), Fail> {
    run(&rt, rt.alloc(), 3, PINS)
}
