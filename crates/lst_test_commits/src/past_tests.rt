//! Rows read from the blocks of worked scripts, and what the machine answers to a transaction as of each time.
ghost use Rattle.std.specs.Prelude.{◌<◌, IsTrue};
ghost use Rattle.lst_model.specs.Lines.{CallFits};

use crate::blocks::{self, block_of};
use crate::checks::{is_so, same};
use arrayvec::ArrayVec;
use lst_layout::Limits;
use lst_machine::Machine;
use lst_model::{Call, Cause, Key, Line, Patch, Reply, Row, Text, Time};
use std::alloc::Global;
use std::process::Abort;
use std::test::Fail;

/// A call of a session, or a merge of a column of the first range, as a value that is copied. An update is of the first column.
#[derive(Clone, Copy)]
enum Asked {
    Begin(u32),
    AsOf(u32, Time),
    Get(u32, Key),
    Insert(u32, Key, u64, u64),
    Update(u32, Key, u64),
    Delete(u32, Key),
    Sum(u32, u32),
    Scan(u32),
    Commit(u32),
    Merge(u32),
}

/// A row is put, deleted and put again.
const PUT_AGAIN: [Asked; 9] = [
    Asked::Begin(0),
    Asked::Insert(0, 7, 10, 20),
    Asked::Commit(0),
    Asked::Begin(0),
    Asked::Delete(0, 7),
    Asked::Commit(0),
    Asked::Begin(0),
    Asked::Insert(0, 7, 30, 40),
    Asked::Commit(0),
];

/// A stock of three articles, of which two are changed while a report is read, and merged.
const STOCK: [Asked; 19] = [
    Asked::Begin(0),
    Asked::Insert(0, 1001, 40, 250),
    Asked::Insert(0, 1002, 15, 900),
    Asked::Insert(0, 1003, 8, 1200),
    Asked::Commit(0),
    Asked::Begin(2),
    Asked::Sum(2, 0),
    Asked::Begin(1),
    Asked::Update(1, 1002, 14),
    Asked::Update(1, 1003, 6),
    Asked::Commit(1),
    Asked::Merge(0),
    Asked::Merge(1),
    Asked::Sum(2, 0),
    Asked::Commit(2),
    Asked::Begin(2),
    Asked::Sum(2, 0),
    Asked::Scan(2),
    Asked::Commit(2),
];

/// A row, and a change of its first column.
const CHANGED: [Asked; 6] = [
    Asked::Begin(0),
    Asked::Insert(0, 7, 10, 20),
    Asked::Commit(0),
    Asked::Begin(0),
    Asked::Update(0, 7, 11),
    Asked::Commit(0),
];

fn row(first: u64, second: u64) -> Row {
    let mut cells = ArrayVec::new();
    cells.push(first);
    cells.push(second);
    Row::of_numbers(cells)
}

fn patch(first: u64) -> Patch {
    let mut cells = ArrayVec::new();
    cells.push(Some(first));
    cells.push(None);
    Patch::of_numbers(cells)
}

fn line_of(asked: Asked) -> Line {
    let (session, call) = match asked {
        Asked::Begin(session) => (session, Call::Begin),
        Asked::AsOf(session, time) => (session, Call::AsOf { time }),
        Asked::Get(session, key) => (session, Call::Get { key }),
        Asked::Insert(session, key, first, second) => {
            let row = row(first, second);
            (session, Call::Insert { key, row })
        }
        Asked::Update(session, key, first) => {
            let patch = patch(first);
            (session, Call::Update { key, patch })
        }
        Asked::Delete(session, key) => (session, Call::Delete { key }),
        Asked::Sum(session, column) => (session, Call::Sum { column }),
        Asked::Scan(session) => (session, Call::Scan),
        Asked::Commit(session) => (session, Call::Commit),
        Asked::Merge(column) => return Line::Merge { range: 0, column },
    };
    Line::Call { session, call }
}

/// Whether a store with so many columns takes the call.
fn is_of(columns: u32, call: &Call) -> bool
    ensures { IsTrue result → CallFits columns call.now }
{
    match call {
        Call::Insert { row, .. } => row.len() == columns as usize,
        Call::Update { patch, .. } => patch.len() == columns as usize && patch.sets_some(),
        Call::Sum { column } | Call::Find { column, .. } => *column < columns,
        _ => true,
    }
}

/// The machine's reply.
fn answer(rt: &impl Abort, machine: &mut Machine, asked: Asked) -> Result<Reply, Fail> {
    let limits = machine.limits();
    let line = line_of(asked);
    match &line {
        Line::Phase => (),
        Line::Merge { range, column } => {
            assert!(rt; *range < limits.ranges && *column < limits.columns);
        }
        Line::Call { session, call } => {
            assert!(rt; *session < limits.sessions && is_of(limits.columns, call));
        }
    }
    Ok(machine.line(&line)?)
}

/// The row that a reply tells, or that the key is absent. None where it tells neither.
fn row_told(reply: &Reply) -> Option<Option<Row>> {
    match reply {
        Reply::Row { row } => Some(Some(row.copied())),
        Reply::Absent => Some(None),
        _ => None,
    }
}

/// The machine answers this to a call.
fn is_answered(
    rt: &impl Abort,
    machine: &mut Machine,
    asked: Asked,
    wanted: Reply,
    time: Time,
) -> Result<(), Fail> {
    let found = answer(rt, machine, asked)?;
    same(rt, found, wanted, time);
    Ok(())
}

/// What a transaction as of a time reads of a key.
fn seen(
    rt: &impl Abort,
    machine: &mut Machine,
    key: Key,
    time: Time,
) -> Result<Option<Option<Row>>, Fail> {
    is_answered(
        rt,
        machine,
        Asked::AsOf(3, time),
        Reply::Begun { time },
        time,
    )?;
    let told = row_told(&answer(rt, machine, Asked::Get(3, key))?);
    is_answered(rt, machine, Asked::Commit(3), Reply::Ended { time }, time)?;
    Ok(told)
}

/// The machine behind a script.
fn machine_behind(rt: &impl Abort, alloc: Global, script: &[Asked]) -> Result<Machine, Fail> {
    let Ok(layout) = Limits::default().check() else {
        return Err(Fail::from("the limits are in range"));
    };
    let mut machine = Machine::new(alloc, &layout)?;
    for line in script {
        let _ = answer(rt, &mut machine, *line)?;
    }
    Ok(machine)
}

/// The rows of keys in a block are those that are seen behind the script as of each time, up to the last one that there is.
fn rows_are_seen(
    rt: &impl Abort,
    alloc: Global,
    script: &[Asked],
    bytes: &[u8],
    keys: &[Key],
) -> Result<(), Fail> {
    let mut machine = machine_behind(rt, alloc, script)?;
    let block = block_of(alloc, bytes)?;
    let until = block.until();
    for time in 0..until.saturating_add(1) {
        for &key in keys {
            let told = seen(rt, &mut machine, key, time)?;
            is_so(rt, told.is_some(), (key, time));
            same(rt, block.row(key, time).ok(), told, (key, time));
        }
    }
    let late = until.saturating_add(1);
    let cause = Cause::Future { clock: until };
    is_answered(
        rt,
        &mut machine,
        Asked::AsOf(3, late),
        Reply::Refused { cause },
        late,
    )
}

#[test]
fn rows_of_a_row_that_is_put_again_are_seen(rt: HostRuntime) -> Result<(), Fail> {
    rows_are_seen(&rt, rt.alloc(), &PUT_AGAIN, &blocks::PUT_AGAIN, &[6, 7, 8])
}

#[test]
fn rows_of_a_stock_are_seen(rt: HostRuntime) -> Result<(), Fail> {
    let keys = [1000, 1001, 1002, 1003, 1004];
    rows_are_seen(&rt, rt.alloc(), &STOCK, &blocks::STOCK, &keys)
}

#[test]
fn rows_of_a_row_that_is_changed_are_seen(rt: HostRuntime) -> Result<(), Fail> {
    rows_are_seen(&rt, rt.alloc(), &CHANGED, &blocks::CHANGED, &[7])
}
