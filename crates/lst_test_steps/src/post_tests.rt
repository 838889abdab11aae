//! Where the tails of two indexed columns are posted.
ghost use Rattle.std.specs.Prelude.{◌≡◌};
ghost use Rattle.lst_test_steps.specs.Idle.{IsPair};

use crate::read_tests::{Deed, SMALL, open_with, start, writes};
use lst_layout::Limits;
use lst_model::Key;
use lst_rule::{Seat, Store, load_posting};
use std::alloc::Global;
use std::process::Abort;
use std::test::Fail;

/// The word at a position of a column's postings, or None where the store has no such position.
fn posting(store: &Store, seat: &mut Seat, column: u32, position: u32) -> Option<u64>
    requires pair { IsPair store.now seat.old }
    ensures { IsPair store.now seat.new }
{
    if column >= 2 || !store.layout().limits.is_indexed(column) {
        return None;
    }
    if position as u64 >= store.layout().posting_positions() {
        return None;
    }
    Some(load_posting(store, seat, 0, column, position))
}

/// How many of a column's positions hold a tail.
fn postings(store: &Store, seat: &mut Seat, column: u32) -> u32
    requires pair { IsPair store.now seat.old }
    ensures { IsPair store.now seat.new }
{
    let mut position = 0;
    let mut taken = 0;
    while position < 32 {
        if posting(store, seat, column, position) != Some(0) {
            taken += 1;
        }
        position += 1;
    }
    taken
}

/// A write of session 0, or what the columns' positions hold then.
#[derive(Clone, Copy)]
pub(crate) enum Step {
    /// A write under a key, whose tail record has this number.
    Writes(Key, Deed, u32),
    /// A column, a position, and the word there.
    Posting(u32, u32, u64),
    /// A column, and how many of its positions hold a tail.
    Postings(u32, u32),
}

/// Whether the step comes to what it says.
fn takes(store: &Store, seat: &mut Seat, step: Step) -> bool
    requires pair { IsPair store.now seat.old }
    ensures { IsPair store.now seat.new }
{
    match step {
        Step::Writes(key, deed, tail) => writes(store, seat, 0, key, deed, tail),
        Step::Posting(column, position, word) => {
            posting(store, seat, column, position) == Some(word)
        }
        Step::Postings(column, count) => postings(store, seat, column) == count,
    }
}

/// Takes steps in order, each of which comes to what it says.
fn play(rt: &impl Abort, store: &Store, seat: &mut Seat, script: &[Step])
    requires pair { IsPair store.now seat.old }
{
    for (at, &step) in script.iter().enumerate() {
        assert!(rt; takes(store, seat, step), "at step {at}");
    }
}

/// The same in the first transaction of session 0, on a store that opens with these limits.
pub(crate) fn run(
    rt: &impl Abort,
    alloc: Global,
    limits: Limits,
    script: &[Step],
) -> Result<(), Fail>
    requires columns { limits.columns ≡ 2 }
    requires sessions { limits.sessions ≡ 2 }
{
    let (store, mut seat) = open_with(alloc, limits)?;
    assert_eq!(rt; start(&store, &mut seat, 0), Some(0));
    play(rt, &store, &mut seat, script);
    Ok(())
}

const POSTED_IN_BOTH: [Step; 5] = [
    Step::Writes(7, Deed::Put(10, 20), 1),
    Step::Posting(0, 5, 1),
    Step::Posting(1, 11, 1),
    Step::Postings(0, 1),
    Step::Postings(1, 1),
];

#[test]
fn a_put_is_posted_in_both_columns(rt: HostRuntime) -> Result<(), Fail> {
    run(&rt, rt.alloc(), SMALL, &POSTED_IN_BOTH)
}

const POSTED_ONCE: [Step; 9] = [
    Step::Writes(7, Deed::Put(10, 20), 1),
    Step::Writes(7, Deed::SetFirst(10), 2),
    Step::Postings(0, 1),
    Step::Writes(7, Deed::SetFirst(3), 3),
    Step::Posting(0, 27, 3),
    // The record had 10 before.
    Step::Writes(7, Deed::SetFirst(10), 4),
    Step::Posting(0, 5, 1),
    Step::Postings(0, 2),
    Step::Postings(1, 1),
];

#[test]
fn a_number_of_a_record_is_posted_once(rt: HostRuntime) -> Result<(), Fail> {
    run(&rt, rt.alloc(), SMALL, &POSTED_ONCE)
}

const ONE_NUMBER: [Step; 8] = [
    Step::Writes(7, Deed::Put(10, 20), 1),
    Step::Writes(8, Deed::Put(10, 3), 2),
    Step::Posting(0, 5, 1),
    Step::Posting(0, 6, 2),
    // The run of 31 begins there too.
    Step::Writes(7, Deed::SetFirst(31), 3),
    Step::Posting(0, 7, 3),
    Step::Writes(8, Deed::SetFirst(10), 4),
    Step::Postings(0, 3),
];

#[test]
fn two_records_with_one_number_stand_in_two_positions(rt: HostRuntime) -> Result<(), Fail> {
    run(&rt, rt.alloc(), SMALL, &ONE_NUMBER)
}

const LAST_AND_FIRST: [Step; 5] = [
    Step::Writes(7, Deed::Put(21, 20), 1),
    Step::Writes(8, Deed::Put(55, 20), 2),
    Step::Posting(0, 31, 1),
    Step::Posting(0, 0, 2),
    Step::Postings(0, 2),
];

#[test]
fn a_run_goes_on_at_the_first_position(rt: HostRuntime) -> Result<(), Fail> {
    run(&rt, rt.alloc(), SMALL, &LAST_AND_FIRST)
}

const NULLS: [Step; 8] = [
    Step::Writes(7, Deed::PutNullAnd(20), 1),
    Step::Postings(0, 0),
    Step::Postings(1, 1),
    // The number 0 is none.
    Step::Writes(7, Deed::SetFirst(0), 2),
    Step::Posting(0, 0, 2),
    // A delete holds no column.
    Step::Writes(7, Deed::Delete, 3),
    Step::Postings(0, 1),
    Step::Postings(1, 1),
];

#[test]
fn a_null_is_not_posted(rt: HostRuntime) -> Result<(), Fail> {
    run(&rt, rt.alloc(), SMALL, &NULLS)
}
