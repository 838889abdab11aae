//! Two transactions, each of which writes the row that the other one has read.

use crate::serials::{Step, open_three};
use lst_serial::{SerialCommit, SerialEnd};
use lst_session::Outcome;
use std::test::Fail;

/// Session 2 puts the two rows.
const PUTS_BOTH: &[(u32, Step)] = &[
    (2, Step::Begin(Ok(0))),
    (2, Step::Insert(1, 1, 0, Ok(()))),
    (2, Step::Insert(2, 1, 0, Ok(()))),
    (2, Step::TryCommit(Ok(Outcome::Committed { time: 1 }))),
];

/// The sessions 0 and 1 each read one row and write the other one, by turns up to their commits.
const CROSSES: &[(u32, Step)] = &[
    (0, Step::Begin(Ok(1))),
    (1, Step::Begin(Ok(1))),
    (0, Step::Get(1, Ok(Some((Some(1), Some(0)))))),
    (1, Step::Get(2, Ok(Some((Some(1), Some(0)))))),
    (0, Step::Update(2, 0, Ok(()))),
    (1, Step::Update(1, 0, Ok(()))),
];

/// The one that commits first does, and the other one is stale.
const ONE_COMMITS: &[(u32, Step)] = &[
    (0, Step::TryCommit(Ok(Outcome::Committed { time: 2 }))),
    (1, Step::TryCommit(Err(SerialCommit::Stale { time: 2 }))),
    (1, Step::Seen(2)),
];

#[test]
fn of_two_that_read_what_the_other_writes_one_commits(rt: HostRuntime) -> Result<(), Fail> {
    let mut on = open_three(rt.alloc(), 16, 4)?;
    on.play(&rt, PUTS_BOTH);
    on.play(&rt, CROSSES);
    on.play(&rt, ONE_COMMITS);
    Ok(())
}

/// The stale one stays open, is aborted, and is made anew.
const STAYS_OPEN: &[(u32, Step)] = &[
    (0, Step::Commit(Ok(Outcome::Committed { time: 2 }))),
    (1, Step::Commit(Err(SerialEnd::Stale { time: 2 }))),
    (1, Step::Get(1, Ok(Some((Some(0), Some(0)))))),
    (1, Step::TryCommit(Err(SerialCommit::Stale { time: 2 }))),
    (1, Step::Abort(Ok(()))),
    (1, Step::Begin(Ok(2))),
    (1, Step::Get(2, Ok(Some((Some(0), Some(0)))))),
    (1, Step::Update(1, 5, Ok(()))),
    (1, Step::Commit(Ok(Outcome::Committed { time: 3 }))),
];

#[test]
fn a_stale_transaction_stays_open_till_it_is_aborted(rt: HostRuntime) -> Result<(), Fail> {
    let mut on = open_three(rt.alloc(), 16, 4)?;
    on.play(&rt, PUTS_BOTH);
    on.play(&rt, CROSSES);
    on.play(&rt, STAYS_OPEN);
    Ok(())
}
