//! Which records are candidates of a number in an indexed column.
ghost use Rattle.std.specs.Prelude.{◌<◌};
ghost use Rattle.lst_test_steps.specs.Idle.{IsPair};

use crate::read_tests::{Deed, SMALL, Step, open_with, play};
use lst_layout::Limits;
use lst_rule::{RecordId, Seat, Store};
use lst_seat::open_store;
use lst_second::{CandidateFault, RecordList, candidates};
use std::alloc::Global;
use std::process::Abort;
use std::test::Fail;

/// The candidates that session 0 finds.
fn listed(
    alloc: Global,
    store: &Store,
    seat: &mut Seat,
    column: u32,
    value: u64,
) -> Result<RecordList, CandidateFault>
    requires pair { IsPair store.now seat.old }
    requires column { column < 2 }
    ensures { IsPair store.now seat.new }
{
    candidates(alloc, store, seat, 0, column, value)
}

/// Whether these records were listed.
fn are(answer: &Result<RecordList, CandidateFault>, records: &[RecordId]) -> bool {
    match answer {
        Ok(list) => list.as_slice() == records,
        Err(_) => false,
    }
}

const FIRST: RecordId = RecordId { number: 0 };

const SECOND: RecordId = RecordId { number: 1 };

const THIRD: RecordId = RecordId { number: 2 };

/// A column, a number, and the records that are its candidates.
pub(crate) type Listing<'a> = (u32, u64, &'a [RecordId]);

/// What is listed for session 0, compared.
pub(crate) fn list(
    rt: &impl Abort,
    alloc: Global,
    store: &Store,
    seat: &mut Seat,
    listings: &[Listing],
)
    requires pair { IsPair store.now seat.old }
    ensures { IsPair store.now seat.new }
{
    for &(column, value, records) in listings {
        assert!(rt; column < 2);
        assert!(rt;
            are(&listed(alloc, store, seat, column, value), records),
            "of {value} in column {column}"
        );
    }
}

/// Steps on a store that opens, and then what is listed.
fn run(
    rt: &impl Abort,
    alloc: Global,
    script: &[(u32, Step)],
    listings: &[Listing],
) -> Result<(), Fail> {
    let (store, mut seat) = open_with(alloc, SMALL)?;
    play(rt, &store, &mut seat, script);
    list(rt, alloc, &store, &mut seat, listings);
    Ok(())
}

#[test]
fn a_store_that_opens_has_no_candidates(rt: HostRuntime) -> Result<(), Fail> {
    run(&rt, rt.alloc(), &[], &[(0, 10, &[])])
}

const TWO_RECORDS: [(u32, Step); 5] = [
    (0, Step::Begins(0)),
    // The runs of 10 and of 31 begin at one position.
    (0, Step::Writes(7, Deed::Put(31, 10), 1)),
    (0, Step::Writes(8, Deed::Put(10, 20), 2)),
    (0, Step::Writes(9, Deed::Put(31, 20), 3)),
    (0, Step::Writes(7, Deed::SetFirst(10), 4)),
];

#[test]
fn a_number_of_two_records_has_both(rt: HostRuntime) -> Result<(), Fail> {
    run(
        &rt,
        rt.alloc(),
        &TWO_RECORDS,
        &[
            (0, 10, &[FIRST, SECOND]),
            (0, 31, &[FIRST, THIRD]),
            (0, 20, &[]),
            (1, 10, &[FIRST]),
            (1, 20, &[SECOND, THIRD]),
        ],
    )
}

const ONE_RECORD: [(u32, Step); 4] = [
    (0, Step::Begins(0)),
    (0, Step::Writes(7, Deed::Put(10, 20), 1)),
    (0, Step::Writes(7, Deed::SetFirst(3), 2)),
    (0, Step::Writes(7, Deed::SetFirst(10), 3)),
];

#[test]
fn a_record_is_listed_once(rt: HostRuntime) -> Result<(), Fail> {
    run(
        &rt,
        rt.alloc(),
        &ONE_RECORD,
        // A number that was replaced stays.
        &[(0, 10, &[FIRST]), (0, 3, &[FIRST])],
    )
}

const OTHERS: [(u32, Step); 6] = [
    (0, Step::Begins(0)),
    (1, Step::Begins(0)),
    (0, Step::Writes(7, Deed::Put(10, 20), 1)),
    (0, Step::Commits(1)),
    (1, Step::Writes(8, Deed::Put(10, 20), 2)),
    // That write is aborted.
    (1, Step::Closes),
];

#[test]
fn the_writes_of_others_are_listed(rt: HostRuntime) -> Result<(), Fail> {
    run(&rt, rt.alloc(), &OTHERS, &[(0, 10, &[FIRST, SECOND])])
}

const NULL: [(u32, Step); 3] = [
    (0, Step::Begins(0)),
    (0, Step::Writes(7, Deed::PutNullAnd(20), 1)),
    (0, Step::Writes(8, Deed::Put(0, 20), 2)),
];

#[test]
fn null_is_no_candidate(rt: HostRuntime) -> Result<(), Fail> {
    run(
        &rt,
        rt.alloc(),
        &NULL,
        &[(0, 0, &[SECOND]), (1, 20, &[FIRST, SECOND])],
    )
}

#[test]
fn a_column_without_an_index_has_none(rt: HostRuntime) -> Result<(), Fail> {
    let limits = Limits {
        columns: 2,
        ranges: 1,
        tails: 16,
        sessions: 2,
        txns: 8,
        spare: 1,
        indexed: 2,
    };
    let Ok(layout) = limits.check() else {
        return Err(Fail::from("the small limits are in range"));
    };
    let (store, mut seat) = open_store(rt.alloc(), &layout)?;
    let Err(CandidateFault::NotIndexed) = candidates(rt.alloc(), &store, &mut seat, 0, 0, 10) else {
        return Err(Fail::from("the first column has no index"));
    };
    Ok(())
}
