//! Worked scripts on a store and its crew: each line with its reply.

use crate::scripts::{By, Crewed, Step, open, play, puts, row, run, same};
use lst_layout::Limits;
use lst_model::{Act, Commit, History, OutOfMemory, Write};
use std::alloc::Global;
use std::process::Abort;
use std::test::Fail;

/// One range, with 300 tails.
const SMALL: Limits = Limits {
    columns: 2,
    ranges: 1,
    tails: 300,
    sessions: 3,
    txns: 4,
    spare: 1,
    indexed: 0,
};

/// Session 0 commits a row.
const PUTS_A_ROW: &[Step] = &[
    ("0 begin", "0 begun 0"),
    ("0 insert 7 a=10 b=20", "0 ok"),
    ("0 commit", "0 committed 1"),
];

const READS: &[Step] = &[
    ("0 begin", "0 begun 0"),
    ("0 insert 7 a=10 b=20", "0 ok"),
    ("0 get 7", "0 row 10 20"),
    ("0 commit", "0 committed 1"),
    ("1 begin", "1 begun 1"),
    ("1 get 7", "1 row 10 20"),
];

#[test]
fn a_row_is_inserted_and_read(rt: HostRuntime) -> Result<(), Fail> {
    run(&rt, &SMALL, By::Crew, READS)
}

const NEWER: &[Step] = &[
    ("0 begin", "0 begun 0"),
    ("0 insert 7 a=10 b=20", "0 ok"),
    ("0 commit", "0 committed 1"),
    ("0 begin", "0 begun 1"),
    ("1 begin", "1 begun 1"),
    ("0 update 7 a=11", "0 ok"),
    ("0 commit", "0 committed 2"),
    ("1 get 7", "1 row 10 20"),
    ("1 update 7 b=21", "1 conflict newer 2"),
    ("1 commit", "1 ended 1"),
];

#[test]
fn a_newer_commit_is_a_conflict(rt: HostRuntime) -> Result<(), Fail> {
    run(&rt, &SMALL, By::Crew, NEWER)
}

const OPEN_WRITE: &[Step] = &[
    ("0 begin", "0 begun 0"),
    ("0 insert 7 a=10 b=20", "0 ok"),
    ("0 commit", "0 committed 1"),
    ("0 begin", "0 begun 1"),
    ("1 begin", "1 begun 1"),
    ("0 update 7 a=11", "0 ok"),
    ("1 update 7 b=21", "1 conflict open 0 2"),
    ("0 abort", "0 aborted"),
    ("1 update 7 b=21", "1 ok"),
    ("1 commit", "1 committed 2"),
    ("1 begin", "1 begun 2"),
    ("1 get 7", "1 row 10 21"),
];

#[test]
fn an_open_write_is_a_conflict_until_its_abort(rt: HostRuntime) -> Result<(), Fail> {
    run(&rt, &SMALL, By::Crew, OPEN_WRITE)
}

const EACH_TIME: &[Step] = &[
    ("0 begin", "0 begun 0"),
    ("0 insert 7 a=10 b=20", "0 ok"),
    ("0 commit", "0 committed 1"),
    ("0 begin", "0 begun 1"),
    ("0 delete 7", "0 ok"),
    ("0 commit", "0 committed 2"),
    ("0 begin", "0 begun 2"),
    ("0 insert 7 a=30 b=40", "0 ok"),
    ("0 commit", "0 committed 3"),
    ("1 asof 1", "1 begun 1"),
    ("1 get 7", "1 row 10 20"),
    ("1 commit", "1 ended 1"),
    ("1 asof 2", "1 begun 2"),
    ("1 get 7", "1 none"),
    ("1 commit", "1 ended 2"),
    ("1 begin", "1 begun 3"),
    ("1 get 7", "1 row 30 40"),
];

#[test]
fn each_time_has_its_row(rt: HostRuntime) -> Result<(), Fail> {
    run(&rt, &SMALL, By::Crew, EACH_TIME)
}

const MISFITS: &[Step] = &[
    ("0 begin", "0 begun 0"),
    ("0 insert 7 a=1 b=1", "0 ok"),
    ("0 insert 7 a=1 b=1", "0 refused exists"),
    ("0 update 9 a=1", "0 refused missing"),
    ("0 delete 7", "0 ok"),
    ("0 update 7 a=1", "0 refused missing"),
];

#[test]
fn a_write_that_does_not_fit_is_refused(rt: HostRuntime) -> Result<(), Fail> {
    run(&rt, &SMALL, By::Crew, MISFITS)
}

const IN_TURN: &[Step] = &[
    ("0 get 7", "0 refused idle"),
    ("0 commit", "0 refused idle"),
    ("0 begin", "0 begun 0"),
    ("0 begin", "0 refused active"),
    ("0 abort", "0 aborted"),
    ("0 asof 0", "0 begun 0"),
    ("0 insert 1 a=1 b=1", "0 refused readonly"),
    ("0 commit", "0 ended 0"),
    ("0 asof 1", "0 refused future 0"),
];

#[test]
fn transactions_open_and_end_in_turn(rt: HostRuntime) -> Result<(), Fail> {
    run(&rt, &SMALL, By::Crew, IN_TURN)
}

const SPENT: &[Step] = &[
    ("0 begin", "0 begun 0"),
    ("0 insert 7 a=10 b=20", "0 ok"),
    ("0 commit", "0 committed 1"),
    ("0 begin", "0 refused spent"),
];

#[test]
fn transactions_of_a_session_are_spent(rt: HostRuntime) -> Result<(), Fail> {
    run(&rt, &Limits { txns: 1, ..SMALL }, By::Crew, SPENT)
}

const TAIL_FULL: &[Step] = &[
    ("0 begin", "0 begun 0"),
    ("0 insert 1 a=1 b=1", "0 ok"),
    ("0 insert 2 a=2 b=2", "0 full tail"),
    ("0 commit", "0 committed 1"),
];

#[test]
fn a_range_is_full_of_writes(rt: HostRuntime) -> Result<(), Fail> {
    run(&rt, &Limits { tails: 1, ..SMALL }, By::Crew, TAIL_FULL)
}

const TABLE_FULL: &[Step] = &[("0 insert 257 a=1 b=1", "0 full table")];

#[test]
fn a_table_of_one_range_has_256_keys(rt: HostRuntime) -> Result<(), Fail> {
    let mut on = open(rt.alloc(), &SMALL, By::Crew)?;
    play(&rt, &mut on, &[("0 begin", "0 begun 0")])?;
    for key in 1..257 {
        puts(&rt, &mut on, key, Some(1), Some(1))?;
    }
    play(&rt, &mut on, TABLE_FULL)
}

fn history(alloc: Global, on: &mut Crewed) -> Result<History, OutOfMemory> {
    on.crew.history(alloc, &on.store)
}

/// The write puts that row.
fn is_the_write(rt: &impl Abort, write: &Write) {
    let act = Act::Put(row(Some(10), Some(20)));
    assert_eq!(rt; write.key, 7);
    assert_eq!(rt; &write.act, &act);
}

/// The commit is that of session 0, and has the one write.
fn is_the_commit(rt: &impl Abort, commit: &Commit) -> Result<(), Fail> {
    same(
        rt,
        (commit.session, commit.number, commit.begin),
        (0, 1, 0),
        0,
    );
    let [write] = commit.writes.items() else {
        return Err(Fail::from("the commit has one write"));
    };
    is_the_write(rt, write);
    Ok(())
}

#[test]
fn a_history_has_the_one_commit(rt: HostRuntime) -> Result<(), Fail> {
    let mut on = open(rt.alloc(), &SMALL, By::Crew)?;
    play(&rt, &mut on, PUTS_A_ROW)?;
    let all = history(rt.alloc(), &mut on)?;
    let [only] = all.items() else {
        return Err(Fail::from("the history has one commit"));
    };
    is_the_commit(&rt, only)
}

const MERGES_SETTLED: &[Step] = &[
    ("0 begin", "0 begun 0"),
    ("0 insert 7 a=10 b=20", "0 ok"),
    ("0 commit", "0 committed 1"),
    ("merge 0 b", "merged 1"),
    ("merge 0 b", "idle 1"),
    ("1 begin", "1 begun 1"),
    ("1 update 7 a=11", "1 ok"),
    // The write of an open transaction ends the run.
    ("merge 0 a", "merged 1"),
    ("merge 0 a", "idle 1"),
    ("1 get 7", "1 row 11 20"),
    ("1 commit", "1 committed 2"),
    ("merge 0 a", "merged 2"),
    ("merge 0 b", "merged 2"),
    ("2 begin", "2 begun 2"),
    ("2 get 7", "2 row 11 20"),
];

#[test]
fn a_merge_takes_in_the_settled_writes_of_a_range(rt: HostRuntime) -> Result<(), Fail> {
    run(&rt, &SMALL, By::Crew, MERGES_SETTLED)
}

const READS_MERGED: &[Step] = &[
    ("0 begin", "0 begun 0"),
    ("0 insert 7 a=10 b=20", "0 ok"),
    ("0 commit", "0 committed 1"),
    ("1 begin", "1 begun 1"),
    ("1 update 7 b=21", "1 ok"),
    ("1 insert 8 a=30 b=40", "1 ok"),
    ("1 commit", "1 committed 2"),
    ("2 begin", "2 begun 2"),
    ("2 delete 8", "2 ok"),
    ("2 commit", "2 committed 3"),
    ("merge 0 a", "merged 4"),
    ("merge 0 b", "merged 4"),
    ("0 begin", "0 begun 3"),
    ("0 get 7", "0 row 10 21"),
    ("0 get 8", "0 none"),
    // A begin below an entry's time is answered along the chain.
    ("1 asof 2", "1 begun 2"),
    ("1 get 7", "1 row 10 21"),
    ("1 get 8", "1 row 30 40"),
    ("2 asof 1", "2 begun 1"),
    ("2 get 7", "2 row 10 20"),
    ("2 get 8", "2 none"),
];

#[test]
fn merged_rows_are_read(rt: HostRuntime) -> Result<(), Fail> {
    run(&rt, &SMALL, By::Crew, READS_MERGED)
}

const HOLDS_THE_FRAME: &[Step] = &[
    ("0 begin", "0 begun 0"),
    ("0 insert 7 a=10 b=20", "0 ok"),
    ("0 commit", "0 committed 1"),
    ("1 begin", "1 begun 1"),
    ("merge 0 a", "merged 1"),
    ("merge 0 b", "noframe 1"),
    ("1 commit", "1 ended 1"),
    ("merge 0 b", "merged 1"),
];

#[test]
fn an_open_transaction_holds_the_one_spare_frame(rt: HostRuntime) -> Result<(), Fail> {
    run(&rt, &SMALL, By::Crew, HOLDS_THE_FRAME)
}
