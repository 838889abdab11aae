//! Two sessions of one store, hosted by one seat: what each sees of the other's writes, and of its own.
//!
//! A script is a table of plain values, and one function takes its steps: the proof of a function grows faster than its calls.
ghost use Rattle.std.specs.Prelude.{◌≡◌, ◌<◌, ◌≤◌, IfOk, IsTrue, length};
ghost use Rattle.lst_model.specs.Soundness.{Fits};
ghost use Rattle.lst_rule.specs.Rule.{knows};
ghost use Rattle.lst_write.specs.Cells.{IsActFor};
ghost use Rattle.lst_write.specs.Holding.{IsPlaced};
ghost use Rattle.lst_write.specs.Appending.{FitsSight};
ghost use Rattle.lst_test_steps.specs.Idle.{IsPair, MayWrite};

use arrayvec::ArrayVec;
use lst_index::{find, place};
use lst_layout::Limits;
use lst_model::{Act, Key, Patch, Row, Time};
use lst_rule::{RecordId, Seat, Store, load_cell};
use lst_seat::open_store;
use lst_second::post_all;
use lst_txn::{TurnFault, begin, close, take_turn};
use lst_walk::{column, row, stamp};
use lst_write::{append, install, judge, latch, release};
use std::alloc::Global;
use std::process::Abort;
use std::test::Fail;

/// One range, 16 tail records, and two indexed columns of 32 positions.
pub(crate) const SMALL: Limits = Limits {
    columns: 2,
    ranges: 1,
    tails: 16,
    sessions: 2,
    txns: 8,
    spare: 1,
    indexed: 3,
};

/// A store with these limits, and its seat.
pub(crate) fn open_with(alloc: Global, limits: Limits) -> Result<(Store, Seat), Fail>
    requires columns { limits.columns ≡ 2 }
    requires sessions { limits.sessions ≡ 2 }
    ensures { IfOk result (λ opened. IsPair opened.0 opened.1) }
{
    let Ok(layout) = limits.check() else {
        return Err(Fail::from("the limits are in range"));
    };
    Ok(open_store(alloc, &layout)?)
}

/// A row of two cells.
fn cells(first: u64, second: u64) -> Row
    ensures { length result ≡ 2 }
{
    let mut cells = ArrayVec::new();
    cells.push(first);
    cells.push(second);
    Row::of_numbers(cells)
}

fn put(first: u64, second: u64) -> Act
    ensures { IsActFor 2 result }
{
    Act::Put(cells(first, second))
}

fn set_first(cell: u64) -> Act
    ensures { IsActFor 2 result }
{
    let mut cells = ArrayVec::new();
    cells.push(Some(cell));
    cells.push(None);
    Act::Set(Patch::of_numbers(cells))
}

/// A set of the first column to null.
fn set_first_to_null() -> Act
    ensures { IsActFor 2 result }
{
    let mut patch = Patch::of_numbers(ArrayVec::new());
    patch.push(Some(None));
    patch.push(None);
    Act::Set(patch)
}

/// A row whose first cell is null.
fn null_and(second: u64) -> Row
    ensures { length result ≡ 2 }
{
    let mut row = Row::of_numbers(ArrayVec::new());
    row.push(None);
    row.push(Some(second));
    row
}

fn set_second(cell: u64) -> Act
    ensures { IsActFor 2 result }
{
    let mut cells = ArrayVec::new();
    cells.push(None);
    cells.push(Some(cell));
    Act::Set(Patch::of_numbers(cells))
}

/// Session s begins: the begin, or None where it may not.
pub(crate) fn start(store: &Store, seat: &mut Seat, s: u32) -> Option<Time>
    requires pair { IsPair store.now seat.old }
    requires session { s < 2 }
    ensures { IsPair store.now seat.new }
{
    match begin(store, seat, s) {
        Ok(time) => Some(time),
        Err(_) => None,
    }
}

/// Session s commits its writes: the commit's time, or None where it has none, or the turn is another's.
fn commit(store: &Store, seat: &mut Seat, s: u32) -> Option<Time>
    requires pair { IsPair store.now seat.old }
    requires session { s < 2 }
    ensures { IsPair store.now seat.new }
{
    if !seat.has_writes(s) {
        return None;
    }
    match take_turn(store, seat, s) {
        Ok(turn) => Some(turn.commit(store, seat)),
        Err(TurnFault::Idle) => None,
        Err(TurnFault::Busy) => None,
    }
}

/// Whether session s closes a transaction.
fn quit(store: &Store, seat: &mut Seat, s: u32) -> bool
    requires pair { IsPair store.now seat.old }
    requires session { s < 2 }
    ensures { IsPair store.now seat.new }
{
    match close(store, seat, s) {
        Ok(()) => true,
        Err(_) => false,
    }
}

/// Whether an act may be made on what is seen of a row.
fn may_act(seen: &Option<Row>, act: &Act) -> bool
    ensures { IsTrue result → Fits seen.now act.now }
{
    match seen {
        None => match act {
            Act::Put(_) => true,
            Act::Set(_) => false,
            Act::Del => false,
        },
        Some(_) => match act {
            Act::Put(_) => false,
            Act::Set(_) => true,
            Act::Del => true,
        },
    }
}

/// Session s writes on a record. The number of the tail record, or None where a call is refused.
fn write_on(store: &Store, seat: &mut Seat, s: u32, rec: RecordId, act: &Act) -> Option<u32>
    requires pair { IsPair store.now seat.old }
    requires session { s < 2 }
    requires may { MayWrite (knows seat.old.view s) }
    requires placed { IsPlaced (knows seat.old.view s) rec.number }
    requires act { IsActFor 2 act.now }
    requires fits { FitsSight (knows seat.old.view s) rec.number act.now }
    ensures { IsPair store.now seat.new }
{
    let Ok(head) = latch(store, seat, s, rec) else {
        return None;
    };
    let Ok(()) = judge(store, seat, s, rec, head) else {
        release(store, seat, s, rec, head);
        return None;
    };
    let Ok(tail) = append(store, seat, s, rec, head, act) else {
        release(store, seat, s, rec, head);
        return None;
    };
    post_all(store, seat, s);
    install(store, seat, s, rec, tail);
    Some(tail)
}

/// Session s writes under a key: as above, and None where it has no transaction open that may write, or the act doesn't fit the row
/// that it sees.
fn write(store: &Store, seat: &mut Seat, s: u32, key: Key, act: &Act) -> Option<u32>
    requires pair { IsPair store.now seat.old }
    requires session { s < 2 }
    requires act { IsActFor 2 act.now }
    ensures { IsPair store.now seat.new }
{
    if !seat.is_open(s) || seat.is_read_only(s) {
        return None;
    }
    let Ok(rec) = place(store, seat, s, key) else {
        return None;
    };
    seat.consider();
    let seen = row(store, seat, s, rec);
    if !may_act(&seen, act) {
        return None;
    }
    write_on(store, seat, s, rec, act)
}

/// The row that session s sees of a key that has a record.
fn see(store: &Store, seat: &mut Seat, s: u32, key: Key) -> Option<Option<Row>>
    requires pair { IsPair store.now seat.old }
    requires session { s < 2 }
    ensures { IsPair store.now seat.new }
{
    if !seat.is_open(s) {
        return None;
    }
    let Some(rec) = find(store, seat, s, key) else {
        return None;
    };
    Some(row(store, seat, s, rec))
}

/// A cell of it.
fn see_cell(store: &Store, seat: &mut Seat, s: u32, key: Key, c: u32) -> Option<Option<u64>>
    requires pair { IsPair store.now seat.old }
    requires session { s < 2 }
    requires column { c < 2 }
    ensures { IsPair store.now seat.new }
{
    if !seat.is_open(s) {
        return None;
    }
    let Some(rec) = find(store, seat, s, key) else {
        return None;
    };
    Some(column(store, seat, s, rec, c))
}

/// The row that session s sees of a record, if the store has the record.
fn read_record(store: &Store, seat: &mut Seat, s: u32, number: u32) -> Option<Option<Row>>
    requires pair { IsPair store.now seat.old }
    requires session { s < 2 }
    ensures { IsPair store.now seat.new }
{
    if !seat.is_open(s) || number as u64 >= store.layout().limits.record_count() {
        return None;
    }
    Some(row(store, seat, s, RecordId { number }))
}

/// What session s is answered where it stamps a tail record of the first range, if the range has it.
fn stamp_tail(store: &Store, seat: &mut Seat, s: u32, tail: u32) -> Option<bool>
    requires pair { IsPair store.now seat.old }
    requires session { s < 2 }
    ensures { IsPair store.now seat.new }
{
    if !seat.is_open(s) || tail == 0 || tail > store.layout().limits.tails {
        return None;
    }
    Some(stamp(store, seat, s, 0, tail))
}

/// The word at a place of a tail record, or None where the store has no such word.
fn cell_word(store: &Store, seat: &mut Seat, s: u32, tail: u32, place: u32) -> Option<u64>
    requires pair { IsPair store.now seat.old }
    requires session { s < 2 }
    ensures { IsPair store.now seat.new }
{
    if tail == 0 || tail as u64 > store.layout().limits.tail_count() || place >= 5 {
        return None;
    }
    Some(load_cell(store, seat, s, tail, place))
}

/// An act on a row, as a value that is copied.
#[derive(Clone, Copy)]
pub(crate) enum Deed {
    Put(u64, u64),
    /// A put of a row whose first cell is null.
    PutNullAnd(u64),
    SetFirst(u64),
    SetFirstToNull,
    SetSecond(u64),
    Delete,
}

fn act_of(deed: Deed) -> Act
    ensures { IsActFor 2 result }
{
    match deed {
        Deed::Put(first, second) => put(first, second),
        Deed::PutNullAnd(second) => Act::Put(null_and(second)),
        Deed::SetFirst(cell) => set_first(cell),
        Deed::SetFirstToNull => set_first_to_null(),
        Deed::SetSecond(cell) => set_second(cell),
        Deed::Delete => Act::Del,
    }
}

/// Whether session s writes under a key, and the tail record has this number.
pub(crate) fn writes(
    store: &Store,
    seat: &mut Seat,
    s: u32,
    key: Key,
    deed: Deed,
    tail: u32,
) -> bool
    requires pair { IsPair store.now seat.old }
    requires session { s < 2 }
    ensures { IsPair store.now seat.new }
{
    write(store, seat, s, key, &act_of(deed)) == Some(tail)
}

/// What is seen of a row, as a value that is copied.
#[derive(Clone, Copy)]
pub(crate) enum Seen {
    Nothing,
    Row(u64, u64),
    /// A row whose first cell is null.
    NullAnd(u64),
}

fn row_of(seen: Seen) -> Option<Row> {
    match seen {
        Seen::Nothing => None,
        Seen::Row(first, second) => Some(cells(first, second)),
        Seen::NullAnd(second) => Some(null_and(second)),
    }
}

/// What a session does, with its answer.
#[derive(Clone, Copy)]
pub(crate) enum Step {
    /// It begins at this time.
    Begins(Time),
    /// It writes under a key, and the tail record has this number.
    Writes(Key, Deed, u32),
    /// It commits at this time.
    Commits(Time),
    /// It closes its transaction.
    Closes,
    /// What it sees of the row of a key.
    Sees(Key, Seen),
    /// A cell of it, by its column. None where it sees no row.
    SeesCell(Key, u32, Option<u64>),
    /// What it sees of the row of a record.
    SeesRecord(u32, Seen),
    /// It stamps a tail record, and is answered this.
    Stamps(u32, bool),
    /// The start word of a tail record.
    StartWord(u32, u64),
    /// The word at a place of a tail record.
    Word(u32, u32, u64),
}

/// Whether session s takes the step, and is answered as it says.
fn takes(store: &Store, seat: &mut Seat, s: u32, step: Step) -> bool
    requires pair { IsPair store.now seat.old }
    requires session { s < 2 }
    ensures { IsPair store.now seat.new }
{
    match step {
        Step::Begins(time) => start(store, seat, s) == Some(time),
        Step::Writes(key, deed, tail) => writes(store, seat, s, key, deed, tail),
        Step::Commits(time) => commit(store, seat, s) == Some(time),
        Step::Closes => quit(store, seat, s),
        Step::Sees(key, seen) => see(store, seat, s, key) == Some(row_of(seen)),
        Step::SeesCell(key, c, cell) => c < 2 && see_cell(store, seat, s, key, c) == Some(cell),
        Step::SeesRecord(rec, seen) => read_record(store, seat, s, rec) == Some(row_of(seen)),
        Step::Stamps(tail, told) => stamp_tail(store, seat, s, tail) == Some(told),
        Step::StartWord(tail, word) => cell_word(store, seat, s, tail, 0) == Some(word),
        Step::Word(tail, place, word) => cell_word(store, seat, s, tail, place) == Some(word),
    }
}

/// Takes steps of sessions in order, each of which is answered as it says.
pub(crate) fn play(rt: &impl Abort, store: &Store, seat: &mut Seat, script: &[(u32, Step)])
    requires pair { IsPair store.now seat.old }
    ensures { IsPair store.now seat.new }
{
    for (at, &(s, step)) in script.iter().enumerate() {
        assert!(rt; s < 2 && takes(store, seat, s, step), "at step {at}");
    }
}

/// The same on a store that opens.
fn run(rt: &impl Abort, alloc: Global, script: &[(u32, Step)]) -> Result<(), Fail> {
    let (store, mut seat) = open_with(alloc, SMALL)?;
    play(rt, &store, &mut seat, script);
    Ok(())
}

const STAMPED: [(u32, Step); 10] = [
    (0, Step::Begins(0)),
    (0, Step::Writes(7, Deed::Put(10, 20), 1)),
    (0, Step::Commits(1)),
    (1, Step::Begins(1)),
    // The name of transaction 1 of session 0.
    (1, Step::StartWord(1, 33)),
    (1, Step::Stamps(1, true)),
    (1, Step::StartWord(1, 2)),
    (1, Step::Stamps(1, true)),
    (1, Step::StartWord(1, 2)),
    (1, Step::Sees(7, Seen::Row(10, 20))),
];

#[test]
fn a_stamp_has_the_time_of_a_commit(rt: HostRuntime) -> Result<(), Fail> {
    run(&rt, rt.alloc(), &STAMPED)
}

const UNSTAMPED: [(u32, Step); 12] = [
    (0, Step::Begins(0)),
    (0, Step::Writes(7, Deed::Put(10, 20), 1)),
    (1, Step::Begins(0)),
    (1, Step::Stamps(1, false)),
    (1, Step::Stamps(2, false)),
    (1, Step::StartWord(1, 33)),
    (1, Step::Sees(7, Seen::Nothing)),
    (0, Step::Sees(7, Seen::Row(10, 20))),
    (0, Step::Closes),
    (1, Step::Stamps(1, false)),
    (1, Step::StartWord(1, 33)),
    (1, Step::Sees(7, Seen::Nothing)),
];

#[test]
fn no_stamp_is_stored_for_open_and_closed_transactions(rt: HostRuntime) -> Result<(), Fail> {
    run(&rt, rt.alloc(), &UNSTAMPED)
}

const NEWEST_CELLS: [(u32, Step); 13] = [
    (0, Step::Begins(0)),
    (0, Step::Writes(7, Deed::Put(10, 20), 1)),
    (0, Step::Writes(7, Deed::SetFirst(11), 2)),
    (0, Step::Commits(1)),
    (0, Step::Begins(1)),
    (0, Step::Writes(7, Deed::SetFirst(12), 3)),
    (0, Step::Writes(7, Deed::SetSecond(22), 4)),
    (0, Step::Sees(7, Seen::Row(12, 22))),
    (1, Step::Begins(1)),
    (1, Step::Sees(7, Seen::Row(11, 20))),
    (1, Step::SeesCell(7, 0, Some(11))),
    (0, Step::SeesCell(7, 0, Some(12))),
    (0, Step::SeesCell(7, 1, Some(22))),
];

#[test]
fn a_row_has_the_newest_cell_of_each_column(rt: HostRuntime) -> Result<(), Fail> {
    run(&rt, rt.alloc(), &NEWEST_CELLS)
}

const OLD_SNAPSHOT: [(u32, Step); 14] = [
    (0, Step::Begins(0)),
    (0, Step::Writes(7, Deed::Put(10, 20), 1)),
    (0, Step::Commits(1)),
    (1, Step::Begins(1)),
    (0, Step::Begins(1)),
    (0, Step::Writes(7, Deed::SetSecond(21), 2)),
    (0, Step::Commits(2)),
    (1, Step::Sees(7, Seen::Row(10, 20))),
    (1, Step::SeesCell(7, 1, Some(20))),
    // The walk has stamped both.
    (1, Step::StartWord(1, 2)),
    (1, Step::StartWord(2, 4)),
    (1, Step::Closes),
    (1, Step::Begins(2)),
    (1, Step::Sees(7, Seen::Row(10, 21))),
];

#[test]
fn an_old_snapshot_stays(rt: HostRuntime) -> Result<(), Fail> {
    run(&rt, rt.alloc(), &OLD_SNAPSHOT)
}

const DELETED: [(u32, Step); 15] = [
    (0, Step::Begins(0)),
    (0, Step::Writes(7, Deed::Put(10, 20), 1)),
    (0, Step::Commits(1)),
    (1, Step::Begins(1)),
    (0, Step::Begins(1)),
    (0, Step::Writes(7, Deed::Delete, 2)),
    (0, Step::Sees(7, Seen::Nothing)),
    (0, Step::SeesCell(7, 0, None)),
    (0, Step::Commits(2)),
    (1, Step::Sees(7, Seen::Row(10, 20))),
    (1, Step::Closes),
    (1, Step::Begins(2)),
    (1, Step::Sees(7, Seen::Nothing)),
    (1, Step::Writes(7, Deed::Put(30, 40), 3)),
    (1, Step::Sees(7, Seen::Row(30, 40))),
];

#[test]
fn a_deleted_row_is_gone(rt: HostRuntime) -> Result<(), Fail> {
    run(&rt, rt.alloc(), &DELETED)
}

const COLUMN_READS: [(u32, Step); 10] = [
    (0, Step::Begins(0)),
    (0, Step::Writes(7, Deed::Put(10, 20), 1)),
    (0, Step::Writes(7, Deed::SetFirst(11), 2)),
    (0, Step::Commits(1)),
    (1, Step::Begins(1)),
    // The set decides the first column: the put below isn't looked at.
    (1, Step::SeesCell(7, 0, Some(11))),
    (1, Step::StartWord(2, 2)),
    (1, Step::StartWord(1, 33)),
    (1, Step::SeesCell(7, 1, Some(20))),
    (1, Step::StartWord(1, 2)),
];

#[test]
fn a_column_read_stamps_what_it_passes(rt: HostRuntime) -> Result<(), Fail> {
    run(&rt, rt.alloc(), &COLUMN_READS)
}

const UNSEEN_KEY: [(u32, Step); 6] = [
    (0, Step::Begins(0)),
    (0, Step::Writes(7, Deed::Put(10, 20), 1)),
    (1, Step::Begins(0)),
    (1, Step::SeesRecord(0, Seen::Nothing)),
    (1, Step::SeesRecord(1, Seen::Nothing)),
    (0, Step::SeesRecord(0, Seen::Row(10, 20))),
];

#[test]
fn a_record_without_a_seen_key_has_no_row(rt: HostRuntime) -> Result<(), Fail> {
    run(&rt, rt.alloc(), &UNSEEN_KEY)
}

const NULLS: [(u32, Step); 13] = [
    (0, Step::Begins(0)),
    (0, Step::Writes(7, Deed::PutNullAnd(20), 1)),
    // Mask 3, a put, slot 0, and the first column null; its value word is 0.
    (0, Step::Word(1, 1, 16_777_475)),
    (0, Step::Word(1, 3, 0)),
    (0, Step::Sees(7, Seen::NullAnd(20))),
    (0, Step::SeesCell(7, 0, Some(0))),
    (0, Step::Writes(7, Deed::SetFirst(11), 2)),
    (0, Step::Sees(7, Seen::Row(11, 20))),
    (0, Step::Writes(7, Deed::SetFirstToNull, 3)),
    // Mask 1, a set, slot 0, and the first column null.
    (0, Step::Word(3, 1, 16_777_729)),
    (0, Step::Sees(7, Seen::NullAnd(20))),
    (0, Step::SeesCell(7, 0, Some(0))),
    (0, Step::SeesCell(7, 1, Some(20))),
];

#[test]
fn a_null_is_read_and_set(rt: HostRuntime) -> Result<(), Fail> {
    run(&rt, rt.alloc(), &NULLS)
}
