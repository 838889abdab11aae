//! Worked scripts: each line with its reply, by the plain engine and by the machine that runs from its definition.
//!
//! A script is a table of plain values, and one function asks its lines: the proof of a function grows faster than its calls.
ghost use Rattle.std.specs.Prelude.{◌≡◌, ◌<◌, IsTrue};
ghost use Rattle.lst_model.specs.Lines.{CallFits};
ghost use Rattle.lst_plain.specs.Plains.{limits_of};
ghost use Rattle.lst_machine.specs.Machines.{limits_of as machine_limits};

use crate::rows::{patch, patch_of, row, row_of};
use lst_layout::Limits;
use lst_machine::Machine;
use lst_model::{
    Act, Call, Cause, Key, KeyList, Line, OutOfMemory, Patch, Reply, Row, RowList, Table, Time,
    Write, apply,
};
use lst_plain::Plain;
use std::alloc::Global;
use std::process::Abort;
use std::test::Fail;

/// The cells of a row of two: None is null.
type Cells = (Option<u64>, Option<u64>);

/// What two columns become: None leaves one as it is, and Some None makes it null.
type Changes = (Option<Option<u64>>, Option<Option<u64>>);

/// A session's call, as a value that is copied.
#[derive(Clone, Copy)]
enum Asked {
    Begin,
    AsOf(Time),
    Get(Key),
    Insert(Key, u64, u64),
    InsertCells(Key, Cells),
    Update(Key, Option<u64>, Option<u64>),
    UpdateCells(Key, Changes),
    Delete(Key),
    Sum(u32),
    Count,
    Scan,
    Find(u32, u64),
    Commit,
    Abort,
}

/// A reply, as a value that is copied.
#[derive(Clone, Copy)]
enum Told<'a> {
    Begun(Time),
    Done,
    Row(u64, u64),
    Cells(Cells),
    Absent,
    Committed(Time),
    Ended(Time),
    Aborted,
    Sum(u128),
    Count(u64),
    Rows(&'a [(Key, u64, u64)]),
    Keys(&'a [Key]),
    Refused(Cause),
    Merged(u32),
    NothingNew(u32),
    NoFrame(u32),
}

/// A line with its reply: a call with its session's number, or a merge of a range and a column.
#[derive(Clone, Copy)]
enum Step<'a> {
    Call(u32, Asked, Told<'a>),
    Merge(u32, u32, Told<'a>),
}

fn call_of(asked: Asked) -> Call {
    match asked {
        Asked::Begin => Call::Begin,
        Asked::AsOf(time) => Call::AsOf { time },
        Asked::Get(key) => Call::Get { key },
        Asked::Insert(key, first, second) => Call::Insert {
            key,
            row: row(first, second),
        },
        Asked::InsertCells(key, cells) => Call::Insert {
            key,
            row: row_of(cells.0, cells.1),
        },
        Asked::Update(key, first, second) => Call::Update {
            key,
            patch: patch(first, second),
        },
        Asked::UpdateCells(key, changes) => Call::Update {
            key,
            patch: patch_of(changes.0, changes.1),
        },
        Asked::Delete(key) => Call::Delete { key },
        Asked::Sum(column) => Call::Sum { column },
        Asked::Count => Call::Count,
        Asked::Scan => Call::Scan,
        Asked::Find(column, value) => Call::Find { column, value },
        Asked::Commit => Call::Commit,
        Asked::Abort => Call::Abort,
    }
}

fn rows(alloc: Global, entries: &[(Key, u64, u64)]) -> Result<Reply, OutOfMemory> {
    let mut list = RowList::new(alloc);
    for &(key, first, second) in entries {
        list.push(key, row(first, second))?;
    }
    Ok(Reply::Rows { list })
}

fn keys(alloc: Global, found: &[Key]) -> Result<Reply, OutOfMemory> {
    let mut list = KeyList::new(alloc);
    for &key in found {
        list.push(key)?;
    }
    Ok(Reply::Keys { list })
}

fn reply_of(alloc: Global, told: Told<'_>) -> Result<Reply, OutOfMemory> {
    Ok(match told {
        Told::Begun(time) => Reply::Begun { time },
        Told::Done => Reply::Done,
        Told::Row(first, second) => Reply::Row {
            row: row(first, second),
        },
        Told::Cells(cells) => Reply::Row {
            row: row_of(cells.0, cells.1),
        },
        Told::Absent => Reply::Absent,
        Told::Committed(time) => Reply::Committed { time },
        Told::Ended(time) => Reply::Ended { time },
        Told::Aborted => Reply::Aborted,
        Told::Sum(total) => Reply::Sum { total },
        Told::Count(rows) => Reply::Count { rows },
        Told::Rows(entries) => return rows(alloc, entries),
        Told::Keys(found) => return keys(alloc, found),
        Told::Refused(cause) => Reply::Refused { cause },
        Told::Merged(tps) => Reply::Merged { tps },
        Told::NothingNew(tps) => Reply::NothingNew { tps },
        Told::NoFrame(session) => Reply::NoFrame { session },
    })
}

/// Whether a call is of one of the sessions, and of the columns.
fn fits(limits: &Limits, session: u32, call: &Call) -> bool
    ensures { IsTrue result → (session < limits.now.sessions) × CallFits limits.now.columns call.now }
{
    if session >= limits.sessions {
        return false;
    }
    let columns = limits.columns as usize;
    match call {
        Call::Insert { row, .. } => row.len() == columns,
        Call::Update { patch, .. } => patch.len() == columns && patch.sets_some(),
        Call::Sum { column } | Call::Find { column, .. } => *column < limits.columns,
        _ => true,
    }
}

/// The two engines of one thread, which are asked alike.
#[derive(Drop)]
struct Both {
    limits: Limits,
    plain: Plain,
    machine: Machine,
    ghost own: { (limits_of plain ≡ limits) × (machine_limits machine ≡ limits) },
}

fn opened(alloc: Global, limits: Limits) -> Result<Both, Fail> {
    let Ok(layout) = limits.check() else {
        return Err(Fail::from("the limits are in range"));
    };
    let plain = Plain::new(alloc, &layout)?;
    let machine = Machine::new(alloc, &layout)?;
    Ok(Both {
        limits: layout.limits,
        plain,
        machine,
    })
}

/// The replies of both engines.
#[derive(Drop)]
struct Replies {
    plain: Reply,
    machine: Reply,
}

/// The replies to a session's call.
fn call(rt: &impl Abort, both: &mut Both, session: u32, call: Call) -> Result<Replies, Fail> {
    assert!(rt; fits(&both.limits, session, &call));
    let line = Line::Call { session, call };
    Ok(Replies {
        plain: both.plain.line(&line)?,
        machine: both.machine.line(&line)?,
    })
}

/// The replies to a merge.
fn merge(rt: &impl Abort, both: &mut Both, range: u32, column: u32) -> Result<Replies, Fail> {
    assert!(rt; range < both.limits.ranges && column < both.limits.columns);
    let line = Line::Merge { range, column };
    Ok(Replies {
        plain: both.plain.line(&line)?,
        machine: both.machine.line(&line)?,
    })
}

fn ask(rt: &impl Abort, both: &mut Both, step: Step<'_>) -> Result<Replies, Fail> {
    match step {
        Step::Call(session, asked, _) => call(rt, both, session, call_of(asked)),
        Step::Merge(range, column, _) => merge(rt, both, range, column),
    }
}

fn wanted_of(alloc: Global, step: Step<'_>) -> Result<Reply, OutOfMemory> {
    match step {
        Step::Call(_, _, told) | Step::Merge(_, _, told) => reply_of(alloc, told),
    }
}

/// Whether both engines replied so.
fn is_told(rt: &impl Abort, replies: &Replies, wanted: &Reply, at: usize) {
    for (engine, reply) in [("plain", &replies.plain), ("machine", &replies.machine)] {
        assert_eq!(rt; reply, wanted, "{engine} at step {at}");
    }
}

/// Asks the lines of a script, and compares the replies.
fn play(rt: &impl Abort, alloc: Global, both: &mut Both, script: &[Step<'_>]) -> Result<(), Fail> {
    for (at, &step) in script.iter().enumerate() {
        let replies = ask(rt, both, step)?;
        let wanted = wanted_of(alloc, step)?;
        is_told(rt, &replies, &wanted, at);
    }
    Ok(())
}

/// The same on new engines.
fn run(rt: &impl Abort, alloc: Global, limits: Limits, script: &[Step<'_>]) -> Result<(), Fail> {
    let mut both = opened(alloc, limits)?;
    play(rt, alloc, &mut both, script)
}

const INSERTED: [Step<'static>; 6] = [
    Step::Call(0, Asked::Begin, Told::Begun(0)),
    Step::Call(0, Asked::Insert(7, 10, 20), Told::Done),
    Step::Call(0, Asked::Get(7), Told::Row(10, 20)),
    Step::Call(0, Asked::Commit, Told::Committed(1)),
    Step::Call(1, Asked::Begin, Told::Begun(1)),
    Step::Call(1, Asked::Get(7), Told::Row(10, 20)),
];

#[test]
fn a_row_is_inserted_and_read(rt: HostRuntime) -> Result<(), Fail> {
    run(&rt, rt.alloc(), Limits::default(), &INSERTED)
}

const NULL_AND_NUMBER: [Step<'static>; 16] = [
    Step::Call(0, Asked::Begin, Told::Begun(0)),
    Step::Call(0, Asked::InsertCells(7, (None, Some(0))), Told::Done),
    Step::Call(0, Asked::Get(7), Told::Cells((None, Some(0)))),
    Step::Call(0, Asked::Commit, Told::Committed(1)),
    Step::Call(0, Asked::Begin, Told::Begun(1)),
    Step::Call(
        0,
        Asked::UpdateCells(7, (Some(Some(0)), Some(None))),
        Told::Done,
    ),
    Step::Call(0, Asked::Get(7), Told::Cells((Some(0), None))),
    Step::Call(0, Asked::Commit, Told::Committed(2)),
    Step::Call(0, Asked::Begin, Told::Begun(2)),
    Step::Call(0, Asked::UpdateCells(7, (Some(None), None)), Told::Done),
    Step::Call(0, Asked::Get(7), Told::Cells((None, None))),
    Step::Call(1, Asked::AsOf(1), Told::Begun(1)),
    Step::Call(1, Asked::Get(7), Told::Cells((None, Some(0)))),
    Step::Call(0, Asked::Abort, Told::Aborted),
    Step::Call(0, Asked::Begin, Told::Begun(2)),
    Step::Call(0, Asked::Get(7), Told::Cells((Some(0), None))),
];

#[test]
fn a_cell_is_null_then_a_number_then_null(rt: HostRuntime) -> Result<(), Fail> {
    run(&rt, rt.alloc(), Limits::default(), &NULL_AND_NUMBER)
}

const NEWER_COMMIT: [Step<'static>; 10] = [
    Step::Call(0, Asked::Begin, Told::Begun(0)),
    Step::Call(0, Asked::Insert(7, 10, 20), Told::Done),
    Step::Call(0, Asked::Commit, Told::Committed(1)),
    Step::Call(0, Asked::Begin, Told::Begun(1)),
    Step::Call(1, Asked::Begin, Told::Begun(1)),
    Step::Call(0, Asked::Update(7, Some(11), None), Told::Done),
    Step::Call(0, Asked::Commit, Told::Committed(2)),
    Step::Call(1, Asked::Get(7), Told::Row(10, 20)),
    Step::Call(
        1,
        Asked::Update(7, None, Some(21)),
        Told::Refused(Cause::Newer { time: 2 }),
    ),
    Step::Call(1, Asked::Commit, Told::Ended(1)),
];

#[test]
fn a_newer_commit_is_a_conflict(rt: HostRuntime) -> Result<(), Fail> {
    run(&rt, rt.alloc(), Limits::default(), &NEWER_COMMIT)
}

const OPEN_WRITE: [Step<'static>; 12] = [
    Step::Call(0, Asked::Begin, Told::Begun(0)),
    Step::Call(0, Asked::Insert(7, 10, 20), Told::Done),
    Step::Call(0, Asked::Commit, Told::Committed(1)),
    Step::Call(0, Asked::Begin, Told::Begun(1)),
    Step::Call(1, Asked::Begin, Told::Begun(1)),
    Step::Call(0, Asked::Update(7, Some(11), None), Told::Done),
    Step::Call(
        1,
        Asked::Update(7, None, Some(21)),
        Told::Refused(Cause::Unfinished {
            session: 0,
            number: 2,
        }),
    ),
    Step::Call(0, Asked::Abort, Told::Aborted),
    Step::Call(1, Asked::Update(7, None, Some(21)), Told::Done),
    Step::Call(1, Asked::Commit, Told::Committed(2)),
    Step::Call(1, Asked::Begin, Told::Begun(2)),
    Step::Call(1, Asked::Get(7), Told::Row(10, 21)),
];

#[test]
fn an_open_write_is_a_conflict_until_its_abort(rt: HostRuntime) -> Result<(), Fail> {
    run(&rt, rt.alloc(), Limits::default(), &OPEN_WRITE)
}

const EACH_TIME: [Step<'static>; 17] = [
    Step::Call(0, Asked::Begin, Told::Begun(0)),
    Step::Call(0, Asked::Insert(7, 10, 20), Told::Done),
    Step::Call(0, Asked::Commit, Told::Committed(1)),
    Step::Call(0, Asked::Begin, Told::Begun(1)),
    Step::Call(0, Asked::Delete(7), Told::Done),
    Step::Call(0, Asked::Commit, Told::Committed(2)),
    Step::Call(0, Asked::Begin, Told::Begun(2)),
    Step::Call(0, Asked::Insert(7, 30, 40), Told::Done),
    Step::Call(0, Asked::Commit, Told::Committed(3)),
    Step::Call(1, Asked::AsOf(1), Told::Begun(1)),
    Step::Call(1, Asked::Get(7), Told::Row(10, 20)),
    Step::Call(1, Asked::Commit, Told::Ended(1)),
    Step::Call(1, Asked::AsOf(2), Told::Begun(2)),
    Step::Call(1, Asked::Get(7), Told::Absent),
    Step::Call(1, Asked::Commit, Told::Ended(2)),
    Step::Call(1, Asked::Begin, Told::Begun(3)),
    Step::Call(1, Asked::Get(7), Told::Row(30, 40)),
];

#[test]
fn each_time_has_its_row(rt: HostRuntime) -> Result<(), Fail> {
    run(&rt, rt.alloc(), Limits::default(), &EACH_TIME)
}

const UNFIT_WRITES: [Step<'static>; 6] = [
    Step::Call(0, Asked::Begin, Told::Begun(0)),
    Step::Call(0, Asked::Insert(7, 1, 1), Told::Done),
    Step::Call(0, Asked::Insert(7, 1, 1), Told::Refused(Cause::Exists)),
    Step::Call(
        0,
        Asked::Update(9, Some(1), None),
        Told::Refused(Cause::Missing),
    ),
    Step::Call(0, Asked::Delete(7), Told::Done),
    Step::Call(
        0,
        Asked::Update(7, Some(1), None),
        Told::Refused(Cause::Missing),
    ),
];

#[test]
fn a_write_that_does_not_fit_is_refused(rt: HostRuntime) -> Result<(), Fail> {
    run(&rt, rt.alloc(), Limits::default(), &UNFIT_WRITES)
}

const IN_TURN: [Step<'static>; 9] = [
    Step::Call(0, Asked::Get(7), Told::Refused(Cause::Idle)),
    Step::Call(0, Asked::Commit, Told::Refused(Cause::Idle)),
    Step::Call(0, Asked::Begin, Told::Begun(0)),
    Step::Call(0, Asked::Begin, Told::Refused(Cause::Active)),
    Step::Call(0, Asked::Abort, Told::Aborted),
    Step::Call(0, Asked::AsOf(0), Told::Begun(0)),
    Step::Call(0, Asked::Insert(1, 1, 1), Told::Refused(Cause::ReadOnly)),
    Step::Call(0, Asked::Commit, Told::Ended(0)),
    Step::Call(0, Asked::AsOf(1), Told::Refused(Cause::Future { clock: 0 })),
];

#[test]
fn transactions_open_and_end_in_turn(rt: HostRuntime) -> Result<(), Fail> {
    run(&rt, rt.alloc(), Limits::default(), &IN_TURN)
}

const SPENT: [Step<'static>; 4] = [
    Step::Call(0, Asked::Begin, Told::Begun(0)),
    Step::Call(0, Asked::Insert(7, 10, 20), Told::Done),
    Step::Call(0, Asked::Commit, Told::Committed(1)),
    Step::Call(0, Asked::Begin, Told::Refused(Cause::Spent)),
];

#[test]
fn transactions_of_a_session_are_spent(rt: HostRuntime) -> Result<(), Fail> {
    let limits = Limits {
        txns: 1,
        ..Limits::default()
    };
    run(&rt, rt.alloc(), limits, &SPENT)
}

const RANGE_FULL: [Step<'static>; 4] = [
    Step::Call(0, Asked::Begin, Told::Begun(0)),
    Step::Call(0, Asked::Insert(1, 1, 1), Told::Done),
    Step::Call(0, Asked::Insert(2, 2, 2), Told::Refused(Cause::TailFull)),
    Step::Call(0, Asked::Commit, Told::Committed(1)),
];

#[test]
fn a_range_is_full_of_writes(rt: HostRuntime) -> Result<(), Fail> {
    let limits = Limits {
        tails: 1,
        ..Limits::default()
    };
    run(&rt, rt.alloc(), limits, &RANGE_FULL)
}

const BEGIN: Step<'static> = Step::Call(0, Asked::Begin, Told::Begun(0));

const BEYOND: Step<'static> = Step::Call(
    0,
    Asked::Insert(257, 1, 1),
    Told::Refused(Cause::TableFull),
);

/// Inserts the keys from 1 to below this one.
fn insert_up_to(rt: &impl Abort, alloc: Global, both: &mut Both, end: Key) -> Result<(), Fail> {
    for key in 1..end {
        let insert = Step::Call(0, Asked::Insert(key, 1, 1), Told::Done);
        play(rt, alloc, both, &[insert])?;
    }
    Ok(())
}

#[test]
fn a_table_of_one_range_has_256_keys(rt: HostRuntime) -> Result<(), Fail> {
    let limits = Limits {
        ranges: 1,
        ..Limits::default()
    };
    let alloc = rt.alloc();
    let mut both = opened(alloc, limits)?;
    play(&rt, alloc, &mut both, &[BEGIN])?;
    insert_up_to(&rt, alloc, &mut both, 257)?;
    play(&rt, alloc, &mut both, &[BEYOND])
}

/// The row of the key 7 in a table that these acts on it were applied to.
fn applied(alloc: Global, acts: [Act; 2]) -> Result<Option<Row>, OutOfMemory> {
    let mut table = Table::new(alloc);
    for act in acts {
        apply(&mut table, &Write { key: 7, act })?;
    }
    Ok(table.row(7))
}

const UPDATED: [Step<'static>; 8] = [
    Step::Call(0, Asked::Begin, Told::Begun(0)),
    Step::Call(0, Asked::Insert(7, 10, 20), Told::Done),
    Step::Call(0, Asked::Commit, Told::Committed(1)),
    Step::Call(0, Asked::Begin, Told::Begun(1)),
    Step::Call(0, Asked::Update(7, Some(11), None), Told::Done),
    Step::Call(0, Asked::Commit, Told::Committed(2)),
    Step::Call(1, Asked::Begin, Told::Begun(2)),
    Step::Call(1, Asked::Get(7), Told::Row(11, 20)),
];

#[test]
fn the_rows_are_those_of_a_table_that_the_writes_were_applied_to(
    rt: HostRuntime,
) -> Result<(), Fail> {
    run(&rt, rt.alloc(), Limits::default(), &UPDATED)?;
    let acts = [Act::Put(row(10, 20)), Act::Set(patch(Some(11), None))];
    let shown = applied(rt.alloc(), acts)?;
    assert_eq!(rt; shown, Some(row(11, 20)));
    Ok(())
}

const MOST: u64 = u64::MAX;

const ALL_ROWS: [Step<'static>; 14] = [
    Step::Call(0, Asked::Count, Told::Refused(Cause::Idle)),
    Step::Call(0, Asked::Begin, Told::Begun(0)),
    Step::Call(0, Asked::Scan, Told::Rows(&[])),
    Step::Call(0, Asked::Insert(9, MOST, 20), Told::Done),
    Step::Call(0, Asked::Insert(7, MOST, 20), Told::Done),
    Step::Call(0, Asked::Insert(8, 1, 20), Told::Done),
    Step::Call(0, Asked::Delete(8), Told::Done),
    Step::Call(0, Asked::Scan, Told::Rows(&[(7, MOST, 20), (9, MOST, 20)])),
    Step::Call(0, Asked::Sum(0), Told::Sum(36893488147419103230)),
    Step::Call(0, Asked::Count, Told::Count(2)),
    Step::Call(0, Asked::Find(1, 20), Told::Keys(&[7, 9])),
    Step::Call(0, Asked::Find(0, 1), Told::Refused(Cause::NotIndexed)),
    Step::Call(1, Asked::Begin, Told::Begun(0)),
    Step::Call(1, Asked::Sum(0), Told::Sum(0)),
];

#[test]
fn all_rows_are_summed_counted_scanned_and_found(rt: HostRuntime) -> Result<(), Fail> {
    let limits = Limits {
        indexed: 2,
        ..Limits::default()
    };
    run(&rt, rt.alloc(), limits, &ALL_ROWS)
}

const MERGE_STOPS: [Step<'static>; 13] = [
    Step::Call(0, Asked::Begin, Told::Begun(0)),
    Step::Call(1, Asked::Begin, Told::Begun(0)),
    Step::Call(2, Asked::Begin, Told::Begun(0)),
    Step::Call(0, Asked::Insert(0, 1, 1), Told::Done),
    Step::Call(1, Asked::Insert(1, 1, 1), Told::Done),
    Step::Call(2, Asked::Insert(2, 1, 1), Told::Done),
    Step::Call(0, Asked::Commit, Told::Committed(1)),
    Step::Call(2, Asked::Commit, Told::Committed(2)),
    Step::Merge(0, 0, Told::Merged(1)),
    Step::Call(1, Asked::Abort, Told::Aborted),
    Step::Merge(0, 0, Told::Merged(3)),
    Step::Merge(0, 0, Told::NothingNew(3)),
    Step::Merge(1, 0, Told::NothingNew(0)),
];

#[test]
fn a_merge_stops_at_an_open_write(rt: HostRuntime) -> Result<(), Fail> {
    run(&rt, rt.alloc(), Limits::default(), &MERGE_STOPS)
}

const MERGE_WAITS: [Step<'static>; 11] = [
    Step::Call(0, Asked::Begin, Told::Begun(0)),
    Step::Call(0, Asked::Insert(7, 10, 20), Told::Done),
    Step::Call(0, Asked::Commit, Told::Committed(1)),
    Step::Call(1, Asked::Begin, Told::Begun(1)),
    Step::Call(2, Asked::Begin, Told::Begun(1)),
    Step::Merge(0, 0, Told::Merged(1)),
    Step::Merge(0, 1, Told::NoFrame(1)),
    Step::Call(1, Asked::Commit, Told::Ended(1)),
    Step::Merge(0, 1, Told::NoFrame(2)),
    Step::Call(2, Asked::Abort, Told::Aborted),
    Step::Merge(0, 1, Told::Merged(1)),
];

#[test]
fn a_merge_waits_for_the_lowest_session_that_began_before(rt: HostRuntime) -> Result<(), Fail> {
    let limits = Limits {
        spare: 1,
        ..Limits::default()
    };
    run(&rt, rt.alloc(), limits, &MERGE_WAITS)
}
