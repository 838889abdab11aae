//! Two sessions write against each other.
//!
//! A script is a table of plain values, and one function takes its steps: the proof of a function grows faster than its calls.
ghost use Rattle.std.specs.Prelude.{◌≡◌, ◌<◌, IfOk};
ghost use Rattle.lst_model.specs.Lines.{IsPatch};
ghost use Rattle.lst_test_steps.specs.Driving.{HostsAll, ArePair, IsOpened};

use crate::machine::Machine;
use crate::operations::{Answer, Operation};
use crate::pairs::{load_word, open_pair, operate};
use crate::stages::{Pair, Stage};
use crate::turns::{commit_beside, open_as_of};
use crate::writes::put_set_and_delete;
use arrayvec::ArrayVec;
use lst_layout::Limits;
use lst_model::{Patch, Row, Time};
use lst_rule::{Seat, Store};
use lst_txn::{BeginFault, TurnFault};
use lst_write::JudgeFault;
use std::alloc::Global;
use std::process::Abort;
use std::test::Fail;

/// The default limits, but for the ranges, the tails of a range, and the transactions of a session.
fn open_table(
    alloc: Global,
    ranges: u32,
    tails: u32,
    txns: u32,
) -> Result<(Store, Seat, Pair), Fail>
    ensures { IfOk result (λ opened. IsOpened opened.0 opened.1 opened.2) }
{
    let limits = Limits {
        columns: 2,
        ranges,
        tails,
        sessions: 4,
        txns,
        spare: 1,
        indexed: 0,
    };
    let Ok(layout) = limits.check() else {
        return Err(Fail::from("the limits are in range"));
    };
    Ok(open_pair(alloc, &layout)?)
}

/// The word of a record's newest version, or None where the store has no such record.
fn head_word(store: &Store, seat: &mut Seat, pair: &Pair, rec: u32) -> Option<u64>
    requires table { IsOpened store.now seat.old pair.now }
    ensures table { IsOpened store.now seat.new pair.now }
{
    if rec as u64 >= store.layout().limits.record_count() {
        return None;
    }
    load_word(store, seat, pair, store.layout().indirection(rec))
}

/// The word at a place of the first tail, or None where there is no such place.
fn cell_word(store: &Store, seat: &mut Seat, pair: &Pair, place: u32) -> Option<u64>
    requires table { IsOpened store.now seat.old pair.now }
    ensures table { IsOpened store.now seat.new pair.now }
{
    if store.layout().limits.tail_count() == 0 || place >= 5 {
        return None;
    }
    load_word(store, seat, pair, store.layout().cell_address(1, place))
}

/// A step of sessions with its answer, or a word of the store.
#[derive(Clone, Copy)]
pub(crate) enum Step {
    /// An operation of the session 0 or 1.
    Operation(u32, Operation, Answer),
    /// Session 0 takes the turn, session 1 is refused it, and session 0 commits at this time.
    CommitsBeside(TurnFault, Time),
    /// A third session opens a transaction as of a time.
    OpensAsOf(Time, Result<Time, BeginFault>),
    /// The word of a record's newest version.
    Head(u32, u64),
    /// The word at a place of the first tail.
    Cell(u32, u64),
}

/// Whether the step comes to what it says.
fn takes(store: &Store, seat: &mut Seat, pair: &mut Pair, step: Step) -> bool
    requires table { IsOpened store.now seat.old pair.old }
    ensures table { IsOpened store.now seat.new pair.new }
{
    match step {
        Step::Operation(s, operation, answer) => {
            s < 2 && operate(store, seat, pair, s, operation) == answer
        }
        Step::CommitsBeside(fault, time) => {
            commit_beside(store, seat, pair) == Some((Some(fault), time))
        }
        Step::OpensAsOf(time, answer) => open_as_of(store, seat, pair, time) == answer,
        Step::Head(rec, word) => head_word(store, seat, pair, rec) == Some(word),
        Step::Cell(place, word) => cell_word(store, seat, pair, place) == Some(word),
    }
}

/// Takes steps in order, each of which comes to what it says.
fn play(rt: &impl Abort, store: &Store, seat: &mut Seat, pair: &mut Pair, script: &[Step])
    requires table { IsOpened store.now seat.old pair.old }
    ensures table { IsOpened store.now seat.new pair.new }
{
    for (at, &step) in script.iter().enumerate() {
        assert!(rt; takes(store, seat, pair, step), "at step {at}");
    }
}

/// The same on a store that opens.
pub(crate) fn run(
    rt: &impl Abort,
    alloc: Global,
    ranges: u32,
    tails: u32,
    txns: u32,
    script: &[Step],
) -> Result<(), Fail> {
    let (store, mut seat, mut pair) = open_table(alloc, ranges, tails, txns)?;
    play(rt, &store, &mut seat, &mut pair, script);
    Ok(())
}

const BEGUN: Answer = Answer::Began { time: 0 };

const LATCH: Operation = Operation::Latch { key: 7 };

const LATCH_OTHER: Operation = Operation::Latch { key: 8 };

const WRITTEN: [Step; 12] = [
    Step::Operation(0, Operation::Begin, BEGUN),
    Step::Operation(0, LATCH, Answer::Head { head: 0 }),
    Step::Operation(1, Operation::Begin, BEGUN),
    Step::Operation(1, LATCH, Answer::Latched),
    Step::Head(0, 1),
    Step::Operation(0, Operation::Judge, Answer::Judged),
    Step::Operation(0, Operation::Append, Answer::Tail { tail: 1 }),
    // Its start word, and its encoding word.
    Step::Cell(0, 33),
    Step::Cell(1, 259),
    Step::Head(0, 1),
    Step::Operation(0, Operation::Install, Answer::Installed),
    Step::Head(0, 2),
];

#[test]
fn a_write_leaves_its_words(rt: HostRuntime) -> Result<(), Fail> {
    run(&rt, rt.alloc(), 4, 4096, 4, &WRITTEN)
}

const UNFINISHED: Answer = Answer::NotJudged {
    fault: JudgeFault::Unfinished {
        session: 0,
        number: 1,
    },
};

const STOPPED: [Step; 16] = [
    Step::Operation(0, Operation::Begin, BEGUN),
    Step::Operation(1, Operation::Begin, BEGUN),
    Step::Operation(0, LATCH, Answer::Head { head: 0 }),
    Step::Operation(0, Operation::Judge, Answer::Judged),
    Step::Operation(0, Operation::Append, Answer::Tail { tail: 1 }),
    Step::Operation(0, Operation::Install, Answer::Installed),
    Step::Operation(1, LATCH, Answer::Head { head: 1 }),
    Step::Operation(1, Operation::Judge, UNFINISHED),
    Step::Operation(1, Operation::Release, Answer::Released),
    Step::Head(0, 2),
    // The one tail of the range is drawn.
    Step::Operation(1, LATCH_OTHER, Answer::Head { head: 0 }),
    Step::Operation(1, Operation::Judge, Answer::Judged),
    Step::Operation(1, Operation::Append, Answer::TailFull),
    Step::Head(1, 1),
    Step::Operation(1, Operation::Release, Answer::Released),
    Step::Head(1, 0),
];

#[test]
fn an_unfinished_version_stops_a_writer(rt: HostRuntime) -> Result<(), Fail> {
    run(&rt, rt.alloc(), 4, 1, 4, &STOPPED)
}

const IDLE: Answer = Answer::NotCommitted {
    fault: TurnFault::Idle,
};

const ACTIVE: Answer = Answer::NotBegun {
    fault: BeginFault::Active,
};

/// Both sessions write, each on a key of its own, and both would commit.
const ONE_AT_A_TIME: [Step; 17] = [
    Step::Operation(0, Operation::Begin, BEGUN),
    Step::Operation(1, Operation::Begin, BEGUN),
    Step::Operation(0, LATCH, Answer::Head { head: 0 }),
    Step::Operation(0, Operation::Judge, Answer::Judged),
    Step::Operation(0, Operation::Append, Answer::Tail { tail: 1 }),
    Step::Operation(0, Operation::Install, Answer::Installed),
    Step::Operation(1, LATCH_OTHER, Answer::Head { head: 0 }),
    Step::Operation(1, Operation::Judge, Answer::Judged),
    Step::Operation(1, Operation::Append, Answer::Tail { tail: 2 }),
    Step::Operation(1, Operation::Install, Answer::Installed),
    Step::CommitsBeside(TurnFault::Busy, 1),
    Step::Operation(1, Operation::Close, Answer::Closed),
    Step::Operation(1, Operation::Close, Answer::Idle),
    Step::Operation(1, Operation::Commit, IDLE),
    Step::Operation(1, Operation::Begin, Answer::Began { time: 1 }),
    Step::Operation(1, Operation::Begin, ACTIVE),
    Step::OpensAsOf(2, Err(BeginFault::Future { clock: 1 })),
];

#[test]
fn one_session_at_a_time_commits(rt: HostRuntime) -> Result<(), Fail> {
    run(&rt, rt.alloc(), 4, 4096, 4, &ONE_AT_A_TIME)
}

/// Sets the second column alone.
fn second_alone(cell: u64) -> Patch
    ensures { IsPatch 2 result }
{
    let mut cells = ArrayVec::new();
    cells.push(None);
    cells.push(Some(cell));
    Patch::of_numbers(cells)
}

#[test]
fn one_transaction_puts_sets_and_deletes_a_row(rt: HostRuntime) -> Result<(), Fail> {
    let (store, mut seat, pair) = open_table(rt.alloc(), 1, 3, 4)?;
    let mut cells = ArrayVec::new();
    cells.push(10);
    cells.push(20);
    let Stage::Out = pair.first else {
        return Err(Fail::from("the session has not begun"));
    };
    let time = put_set_and_delete(
        &store,
        &mut seat,
        0,
        7,
        Row::of_numbers(cells),
        second_alone(21),
    );
    assert_eq!(rt; time, Some(1));
    Ok(())
}

// The turns of a session: it begins, latches, judges, writes or releases, latches and judges again, and ends.
const BEGINS: [Operation; 1] = [Operation::Begin];

const LATCHES: [Operation; 1] = [Operation::Latch { key: 7 }];

const JUDGES: [Operation; 1] = [Operation::Judge];

const LATCHES_AND_JUDGES: [Operation; 2] = [Operation::Latch { key: 7 }, Operation::Judge];

const WRITES: [Operation; 3] = [Operation::Append, Operation::Install, Operation::Release];

const RELEASES: [Operation; 1] = [Operation::Release];

const COMMITS: [Operation; 3] = [Operation::Release, Operation::Commit, Operation::Close];

const CLOSES: [Operation; 2] = [Operation::Release, Operation::Close];

/// The operations of a session's turn; the plan says whether it writes, and whether it commits.
fn deeds_of(turn: u32, plan: u32) -> &'static [Operation] {
    match turn {
        0 => &BEGINS,
        1 => &LATCHES,
        2 => &JUDGES,
        3 => { if plan % 2 == 1 { &WRITES } else { &RELEASES } }
        4 => &LATCHES_AND_JUDGES,
        _ => { if plan / 2 % 2 == 1 { &COMMITS } else { &CLOSES } }
    }
}

/// Whether the operations of a session come to what they come to in the machine of one thread.
fn agree(
    store: &Store,
    seat: &mut Seat,
    pair: &mut Pair,
    machine: &mut Machine,
    s: u32,
    operations: &[Operation],
) -> bool
    requires table { IsOpened store.now seat.old pair.old }
    requires two { s < 2 }
    ensures table { IsOpened store.now seat.new pair.new }
{
    let mut turn = 0;
    let mut same = true;
    while turn < operations.len() {
        let operation = operations[turn];
        if operate(store, seat, pair, s, operation) != machine.step(s, operation) {
            same = false;
        }
        turn += 1;
    }
    same
}

/// Whether all answers agree in an order of 12 turns, of which bit i says whose the turn i is. The plan has two bits a session.
fn order_agrees(alloc: Global, order: u32, plan: u32) -> Result<bool, Fail> {
    let (store, mut seat, mut pair) = open_table(alloc, 1, 2, 4)?;
    let mut machine = Machine::new();
    let mut turns = [0u32, 0];
    let mut bits = order;
    let mut left = 12u32;
    while left > 0 {
        let s = bits % 2;
        let turn = turns[s as usize];
        let operations = deeds_of(turn, if s == 0 { plan % 4 } else { plan / 4 });
        if !agree(&store, &mut seat, &mut pair, &mut machine, s, operations) {
            return Ok(false);
        }
        turns[s as usize] = turn.wrapping_add(1);
        bits /= 2;
        left -= 1;
    }
    Ok(true)
}

/// The first order of twelve turns, six a session, and its plan, of which not all answers agree.
fn first_disagreement(alloc: Global) -> Result<Option<(u32, u32)>, Fail> {
    let mut order = 0u32;
    while order < 4096 {
        let mut plan = 0u32;
        while plan < 16 {
            if order.count_ones() == 6 && !order_agrees(alloc, order, plan)? {
                return Ok(Some((order, plan)));
            }
            plan += 1;
        }
        order += 1;
    }
    Ok(None)
}

#[test]
fn every_order_agrees_with_the_machine_of_one_thread(rt: HostRuntime) -> Result<(), Fail> {
    assert_eq!(rt; first_disagreement(rt.alloc())?, None);
    Ok(())
}
