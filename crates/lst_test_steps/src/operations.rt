//! Operations, each made where the session's stage allows it.
ghost use Rattle.std.specs.Prelude.{◌≡◌, [], ◌∷◌};
ghost use Rattle.lst_model.specs.declared.acts.Act.TheVariants.{Put};
ghost use Rattle.lst_test_steps.specs.Driving.{HostsAll, IsAtStage, MovesTo};

use crate::stages::Stage;
use arrayvec::ArrayVec;
use lst_index::place;
use lst_model::{Act, Key, Row, Time};
use lst_rule::{RecordId, Seat, Store};
use lst_second::post_all;
use lst_txn::{BeginFault, TurnFault, begin, close, take_turn};
use lst_write::{JudgeFault, append, install, judge, latch, release};

/// What a session does.
#[derive(Clone, Copy)]
pub(crate) enum Operation {
    Begin,
    /// It places a key, and tries once to latch the key's record.
    Latch { key: Key },
    Judge,
    /// It appends a put of 10 20, where its transaction began at 0 and has written nothing: then it sees no row of any key.
    Append,
    Install,
    Release,
    /// It takes the turn, and commits.
    Commit,
    Close,
}

/// What a session is answered.
#[derive(Clone, Copy, PartialEq, Eq)]
pub(crate) enum Answer {
    /// The operation is none for its stage.
    Skipped,
    /// Its transaction has begun at this time.
    Began { time: Time },
    NotBegun { fault: BeginFault },
    /// Each record is another key's.
    TableFull,
    /// The newest version has this number in its range.
    Head { head: u32 },
    /// Another session has the latch.
    Latched,
    /// The transaction may write.
    Judged,
    NotJudged { fault: JudgeFault },
    /// The tail with this number in its range is whole.
    Tail { tail: u32 },
    TailFull,
    Installed,
    Released,
    Committed { time: Time },
    NotCommitted { fault: TurnFault },
    Closed,
    /// No transaction was open.
    Idle,
}

fn begins(store: &Store, seat: &mut Seat, s: u32, stage: Stage) -> (Answer, Stage)
    requires crew { HostsAll store.now seat.old }
    requires driven { IsAtStage seat.old s stage }
    requires out { IsAtStage seat.old s Stage.Out }
    ensures { MovesTo store.now seat.old seat.new s result.1 }
{
    match begin(store, seat, s) {
        Ok(time) => (Answer::Began { time }, Stage::In),
        Err(fault) => (Answer::NotBegun { fault }, stage),
    }
}

fn latches(store: &Store, seat: &mut Seat, s: u32, key: Key) -> (Answer, Stage)
    requires crew { HostsAll store.now seat.old }
    requires driven { IsAtStage seat.old s Stage.In }
    ensures { MovesTo store.now seat.old seat.new s result.1 }
{
    let Ok(placed) = place(store, seat, s, key) else {
        return (Answer::TableFull, Stage::In);
    };
    let rec = placed.number;
    match latch(store, seat, s, placed) {
        Ok(head) => (Answer::Head { head }, Stage::Latching { rec, head }),
        Err(_) => (Answer::Latched, Stage::In),
    }
}

fn judges(store: &Store, seat: &mut Seat, s: u32, rec: u32, head: u32) -> (Answer, Stage)
    requires crew { HostsAll store.now seat.old }
    requires driven { IsAtStage seat.old s (Stage.Latching rec head) }
    ensures { MovesTo store.now seat.old seat.new s result.1 }
{
    match judge(store, seat, s, RecordId { number: rec }, head) {
        Ok(()) => (Answer::Judged, Stage::Judged { rec, head }),
        Err(fault) => (Answer::NotJudged { fault }, Stage::Latching { rec, head }),
    }
}

/// A put of 10 20.
fn a_put() -> Act
    ensures { result ≡ Put (Some 10 ∷ Some 20 ∷ []) }
{
    let mut cells = ArrayVec::new();
    cells.push(10);
    cells.push(20);
    Act::Put(Row::of_numbers(cells))
}

fn appends(store: &Store, seat: &mut Seat, s: u32, rec: u32, head: u32) -> (Answer, Stage)
    requires crew { HostsAll store.now seat.old }
    requires driven { IsAtStage seat.old s (Stage.Judged rec head) }
    ensures { MovesTo store.now seat.old seat.new s result.1 }
{
    seat.consider();
    if seat.begin(s) > 0 || seat.has_writes(s) {
        return (Answer::Skipped, Stage::Judged { rec, head });
    }
    match append(store, seat, s, RecordId { number: rec }, head, &a_put()) {
        Ok(tail) => (Answer::Tail { tail }, Stage::Whole { rec, tail }),
        Err(_) => (Answer::TailFull, Stage::Judged { rec, head }),
    }
}

fn installs(store: &Store, seat: &mut Seat, s: u32, rec: u32, tail: u32) -> (Answer, Stage)
    requires crew { HostsAll store.now seat.old }
    requires driven { IsAtStage seat.old s (Stage.Whole rec tail) }
    ensures { MovesTo store.now seat.old seat.new s result.1 }
{
    post_all(store, seat, s);
    install(store, seat, s, RecordId { number: rec }, tail);
    (Answer::Installed, Stage::In)
}

fn releases(store: &Store, seat: &mut Seat, s: u32, rec: u32, head: u32) -> (Answer, Stage)
    requires crew { HostsAll store.now seat.old }
    requires driven { IsAtStage seat.old s (Stage.Latching rec head) }
    ensures { MovesTo store.now seat.old seat.new s result.1 }
{
    release(store, seat, s, RecordId { number: rec }, head);
    (Answer::Released, Stage::In)
}

fn commits(store: &Store, seat: &mut Seat, s: u32, stage: Stage) -> (Answer, Stage)
    requires crew { HostsAll store.now seat.old }
    requires driven { IsAtStage seat.old s stage }
    requires out { IsAtStage seat.old s Stage.Out }
    ensures { MovesTo store.now seat.old seat.new s result.1 }
{
    if seat.is_open(s) && !seat.has_writes(s) {
        return (Answer::Skipped, stage);
    }
    match take_turn(store, seat, s) {
        Ok(turn) => {
            let time = turn.commit(store, seat);
            (Answer::Committed { time }, Stage::Out)
        }
        Err(fault) => (Answer::NotCommitted { fault }, Stage::Out),
    }
}

fn closes(store: &Store, seat: &mut Seat, s: u32) -> (Answer, Stage)
    requires crew { HostsAll store.now seat.old }
    requires out { IsAtStage seat.old s Stage.Out }
    ensures { MovesTo store.now seat.old seat.new s result.1 }
{
    match close(store, seat, s) {
        Ok(()) => (Answer::Closed, Stage::Out),
        Err(_) => (Answer::Idle, Stage::Out),
    }
}

/// Makes an operation of a session where its stage allows it, and answers what it came to, and the session's stage then.
pub(crate) fn step(
    store: &Store,
    seat: &mut Seat,
    s: u32,
    stage: Stage,
    operation: Operation,
) -> (Answer, Stage)
    requires crew { HostsAll store.now seat.old }
    requires driven { IsAtStage seat.old s stage }
    ensures { MovesTo store.now seat.old seat.new s result.1 }
{
    match (operation, stage) {
        (Operation::Begin, Stage::Out) => begins(store, seat, s, stage),
        (Operation::Begin, Stage::In) => begins(store, seat, s, stage),
        (Operation::Latch { key }, Stage::In) => latches(store, seat, s, key),
        (Operation::Judge, Stage::Latching { rec, head }) => judges(store, seat, s, rec, head),
        (Operation::Append, Stage::Judged { rec, head }) => appends(store, seat, s, rec, head),
        (Operation::Install, Stage::Whole { rec, tail }) => installs(store, seat, s, rec, tail),
        (Operation::Release, Stage::Latching { rec, head }) => releases(store, seat, s, rec, head),
        (Operation::Release, Stage::Judged { rec, head }) => releases(store, seat, s, rec, head),
        (Operation::Commit, Stage::Out) => commits(store, seat, s, stage),
        (Operation::Commit, Stage::In) => commits(store, seat, s, stage),
        (Operation::Close, Stage::Out) => closes(store, seat, s),
        (Operation::Close, Stage::In) => closes(store, seat, s),
        _ => (Answer::Skipped, stage),
    }
}
