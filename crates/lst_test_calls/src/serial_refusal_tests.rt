//! The refusals of each call in their order, and what the read set has after each.

use crate::serials::{Step, open_three};
use lst_serial::{SerialCommit, SerialEnd, SerialRead, SerialWrite};
use lst_session::{BeginRefusal, NotBegun, Outcome, WriteRefusal};
use std::test::Fail;

/// Without an open transaction each call but a begin is refused, and no key joins the read set.
const NONE_IS_OPEN: &[(u32, Step)] = &[
    (0, Step::Get(7, Err(SerialRead::Idle))),
    (
        0,
        Step::Insert(
            7,
            1,
            2,
            Err(SerialWrite::Refused {
                cause: WriteRefusal::Idle,
            }),
        ),
    ),
    (
        0,
        Step::Update(
            7,
            1,
            Err(SerialWrite::Refused {
                cause: WriteRefusal::Idle,
            }),
        ),
    ),
    (
        0,
        Step::Delete(
            7,
            Err(SerialWrite::Refused {
                cause: WriteRefusal::Idle,
            }),
        ),
    ),
    (0, Step::ReadAll(Err(NotBegun))),
    (0, Step::TryCommit(Err(SerialCommit::Idle))),
    (0, Step::Commit(Err(SerialEnd::Idle))),
    (0, Step::Abort(Err(NotBegun))),
    (0, Step::HasRead(7, false)),
    (0, Step::HasReadAll(false)),
    (0, Step::AsOf(1, Err(BeginRefusal::Future { clock: 0 }))),
];

/// A write that is refused lets its key join the read set all the same.
const REFUSED_KEYS_JOIN: &[(u32, Step)] = &[
    (0, Step::Begin(Ok(0))),
    (0, Step::Begin(Err(BeginRefusal::Active))),
    (0, Step::AsOf(9, Err(BeginRefusal::Active))),
    (0, Step::Insert(7, 1, 2, Ok(()))),
    (
        0,
        Step::Insert(
            7,
            3,
            4,
            Err(SerialWrite::Refused {
                cause: WriteRefusal::Exists,
            }),
        ),
    ),
    (1, Step::Begin(Ok(0))),
    (
        1,
        Step::Insert(
            7,
            3,
            4,
            Err(SerialWrite::Refused {
                cause: WriteRefusal::Unfinished {
                    session: 0,
                    number: 1,
                },
            }),
        ),
    ),
    (1, Step::HasRead(7, true)),
    (
        1,
        Step::Update(
            8,
            1,
            Err(SerialWrite::Refused {
                cause: WriteRefusal::Missing,
            }),
        ),
    ),
    (1, Step::HasRead(8, true)),
    (1, Step::HasRead(9, false)),
    (
        1,
        Step::Delete(
            9,
            Err(SerialWrite::Refused {
                cause: WriteRefusal::Missing,
            }),
        ),
    ),
    (1, Step::HasRead(9, true)),
    (1, Step::HasReadAll(false)),
];

/// A transaction without writes ends at its begin, also where what it read was changed since. A refused begin leaves the read set, another empties it.
const ENDS_WITHOUT_WRITES: &[(u32, Step)] = &[
    (0, Step::TryCommit(Ok(Outcome::Committed { time: 1 }))),
    (
        1,
        Step::Update(
            7,
            5,
            Err(SerialWrite::Refused {
                cause: WriteRefusal::Newer { time: 1 },
            }),
        ),
    ),
    (1, Step::Get(7, Ok(None))),
    (1, Step::TryCommit(Ok(Outcome::Ended { time: 0 }))),
    (1, Step::AsOf(9, Err(BeginRefusal::Future { clock: 1 }))),
    (1, Step::HasRead(7, true)),
    (1, Step::AsOf(1, Ok(1))),
    (1, Step::HasRead(7, false)),
    (
        1,
        Step::Insert(
            7,
            3,
            4,
            Err(SerialWrite::Refused {
                cause: WriteRefusal::ReadOnly,
            }),
        ),
    ),
    (
        1,
        Step::Update(
            7,
            3,
            Err(SerialWrite::Refused {
                cause: WriteRefusal::ReadOnly,
            }),
        ),
    ),
    (
        1,
        Step::Delete(
            8,
            Err(SerialWrite::Refused {
                cause: WriteRefusal::ReadOnly,
            }),
        ),
    ),
    (1, Step::HasRead(8, true)),
    (1, Step::Get(7, Ok(Some((Some(1), Some(2)))))),
    (1, Step::ReadAll(Ok(()))),
    (1, Step::Commit(Ok(Outcome::Ended { time: 1 }))),
];

/// After a read of all rows a commit is stale by any other commit above the begin, and the time is the one after the begin.
const ALL_ARE_READ: &[(u32, Step)] = &[
    (1, Step::HasReadAll(true)),
    (1, Step::Begin(Ok(1))),
    (1, Step::HasReadAll(false)),
    (1, Step::ReadAll(Ok(()))),
    (1, Step::Begin(Err(BeginRefusal::Active))),
    (1, Step::HasReadAll(true)),
    (1, Step::Update(7, 6, Ok(()))),
    (0, Step::Begin(Ok(1))),
    (0, Step::Insert(5, 1, 2, Ok(()))),
    (0, Step::TryCommit(Ok(Outcome::Committed { time: 2 }))),
    (0, Step::Begin(Ok(2))),
    (0, Step::Delete(5, Ok(()))),
    (0, Step::TryCommit(Ok(Outcome::Committed { time: 3 }))),
    (1, Step::TryCommit(Err(SerialCommit::Stale { time: 2 }))),
    (1, Step::Commit(Err(SerialEnd::Stale { time: 2 }))),
    (1, Step::Abort(Ok(()))),
];

/// No session may begin more transactions than the store has room for, and the read set stays.
const SPENT: &[(u32, Step)] = &[
    (1, Step::Begin(Err(BeginRefusal::Spent))),
    (1, Step::AsOf(9, Err(BeginRefusal::Spent))),
    (1, Step::HasReadAll(true)),
    (1, Step::HasRead(7, true)),
];

#[test]
fn each_call_is_refused_in_its_order(rt: HostRuntime) -> Result<(), Fail> {
    let mut on = open_three(rt.alloc(), 16, 3)?;
    on.play(&rt, NONE_IS_OPEN);
    on.play(&rt, REFUSED_KEYS_JOIN);
    on.play(&rt, ENDS_WITHOUT_WRITES);
    on.play(&rt, ALL_ARE_READ);
    on.play(&rt, SPENT);
    Ok(())
}

/// Session 0 reads two keys, of which session 1 changes the higher one and then the lower one twice.
const CHANGES_BOTH: &[(u32, Step)] = &[
    (2, Step::Begin(Ok(0))),
    (2, Step::Insert(4, 1, 2, Ok(()))),
    (2, Step::Insert(6, 1, 2, Ok(()))),
    (2, Step::TryCommit(Ok(Outcome::Committed { time: 1 }))),
    (0, Step::Begin(Ok(1))),
    (0, Step::Get(6, Ok(Some((Some(1), Some(2)))))),
    (
        0,
        Step::Insert(
            4,
            1,
            2,
            Err(SerialWrite::Refused {
                cause: WriteRefusal::Exists,
            }),
        ),
    ),
    (0, Step::Insert(9, 1, 2, Ok(()))),
    (1, Step::Begin(Ok(1))),
    (1, Step::Update(6, 3, Ok(()))),
    (1, Step::TryCommit(Ok(Outcome::Committed { time: 2 }))),
    (1, Step::Begin(Ok(2))),
    (1, Step::Update(4, 3, Ok(()))),
    (1, Step::TryCommit(Ok(Outcome::Committed { time: 3 }))),
    (1, Step::Begin(Ok(3))),
    (1, Step::Delete(4, Ok(()))),
    (1, Step::TryCommit(Ok(Outcome::Committed { time: 4 }))),
];

/// Then its commit is stale by the lower key, and by all once it has read them.
const TELLS_OF_BOTH: &[(u32, Step)] = &[
    (0, Step::TryCommit(Err(SerialCommit::Stale { time: 4 }))),
    (0, Step::ReadAll(Ok(()))),
    (0, Step::TryCommit(Err(SerialCommit::Stale { time: 2 }))),
    (0, Step::Seen(4)),
];

#[test]
fn stale_tells_of_the_least_key_when_it_was_last_changed(rt: HostRuntime) -> Result<(), Fail> {
    let mut on = open_three(rt.alloc(), 16, 4)?;
    on.play(&rt, CHANGES_BOTH);
    on.play(&rt, TELLS_OF_BOTH);
    Ok(())
}

/// Once each record is taken, and each tail record.
const ALL_IS_FULL: &[(u32, Step)] = &[
    (
        0,
        Step::Insert(
            256,
            1,
            2,
            Err(SerialWrite::Refused {
                cause: WriteRefusal::TableFull,
            }),
        ),
    ),
    (0, Step::HasRead(256, true)),
    (
        0,
        Step::Update(
            255,
            3,
            Err(SerialWrite::Refused {
                cause: WriteRefusal::TailFull,
            }),
        ),
    ),
    (0, Step::TryCommit(Ok(Outcome::Committed { time: 1 }))),
];

#[test]
fn full_tables_and_ranges_are_told(rt: HostRuntime) -> Result<(), Fail> {
    // As many writes as records, of which there are 256.
    let mut on = open_three(rt.alloc(), 256, 1)?;
    on.play(&rt, &[(0, Step::Begin(Ok(0)))]);
    for key in 0..256 {
        on.play(&rt, &[(0, Step::Insert(key, 1, 2, Ok(())))]);
    }
    on.play(&rt, ALL_IS_FULL);
    Ok(())
}
