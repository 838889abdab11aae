//! Transactions of sessions that write nothing.
ghost use Rattle.std.specs.Prelude.{◌≡◌, true};
ghost use Rattle.lst_rule.specs.Rule.{hosts};
ghost use Rattle.lst_rule.specs.Stores.{IsSeatOf};

use crate::operations::{Answer, Operation};
use crate::tests::{Step, run};
use lst_layout::Limits;
use lst_rule::{Seat, Store, open_store};
use lst_txn::{BeginFault, TurnFault, begin};
use std::test::Fail;
use std::thread::{Threads, join_mut};

const SMALL: Limits = Limits {
    columns: 1,
    ranges: 1,
    tails: 1,
    sessions: 3,
    txns: 1,
    spare: 1,
    indexed: 0,
};

const BEGUN: Answer = Answer::Began { time: 0 };

const ACTIVE: Answer = Answer::NotBegun {
    fault: BeginFault::Active,
};

const TWO_BEGIN: [Step; 3] = [
    Step::Operation(0, Operation::Begin, BEGUN),
    Step::Operation(1, Operation::Begin, BEGUN),
    Step::Operation(0, Operation::Begin, ACTIVE),
];

#[test]
fn a_session_begins_as_often_as_it_may(rt: HostRuntime) -> Result<(), Fail> {
    run(&rt, rt.alloc(), 1, 1, 1, &TWO_BEGIN)
}

const SPENT: Answer = Answer::NotBegun {
    fault: BeginFault::Spent,
};

const CLOSED: [Step; 5] = [
    Step::Operation(1, Operation::Close, Answer::Idle),
    Step::Operation(1, Operation::Begin, BEGUN),
    Step::Operation(1, Operation::Close, Answer::Closed),
    Step::Operation(1, Operation::Close, Answer::Idle),
    Step::Operation(1, Operation::Begin, SPENT),
];

#[test]
fn a_closed_transaction_is_over(rt: HostRuntime) -> Result<(), Fail> {
    run(&rt, rt.alloc(), 1, 1, 1, &CLOSED)
}

const AS_OF: [Step; 3] = [
    Step::OpensAsOf(1, Err(BeginFault::Future { clock: 0 })),
    Step::OpensAsOf(0, Ok(0)),
    Step::OpensAsOf(0, Err(BeginFault::Active)),
];

#[test]
fn no_transaction_opens_as_of_a_time_to_come(rt: HostRuntime) -> Result<(), Fail> {
    run(&rt, rt.alloc(), 1, 1, 1, &AS_OF)
}

const IDLE: [Step; 1] = [Step::Operation(
    0,
    Operation::Commit,
    Answer::NotCommitted {
        fault: TurnFault::Idle,
    },
)];

#[test]
fn an_idle_session_takes_no_turn(rt: HostRuntime) -> Result<(), Fail> {
    run(&rt, rt.alloc(), 1, 1, 1, &IDLE)
}

/// Begins a transaction of session 0 in one thread, and reads the store's layout in another.
fn begin_beside<R: Threads + Sync>(rt: &R, store: &Store, seat: &mut Seat, words: &mut u64)
    requires seat { IsSeatOf store.now seat.old × (hosts seat.old.view 0 ≡ true) }
    ensures seat { IsSeatOf store.now seat.new }
{
    join_mut(
        rt,
        &mut || {
            let _ = begin(store, seat, 0);
        },
        &mut || {
            *words = store.layout().words;
        },
    );
}

#[test]
fn a_seat_and_its_store_cross_threads(rt: HostRuntime) -> Result<(), Fail> {
    let Ok(layout) = SMALL.check() else {
        return Err(Fail::from("the small limits are in range"));
    };
    let (store, mut seat) = open_store(rt.alloc(), &layout)?;
    let mut words = 0;
    begin_beside(&rt, &store, &mut seat, &mut words);
    assert_eq!(rt; words, layout.words);
    Ok(())
}
