//! Worked snapshots, and random ones beside tables that are replayed.

use crate::rows::{patch, patch_of, row, row_of};
use lst_model::{Act, Commit, History, OutOfMemory, Patch, Row, Table, Write, Writes, apply};
use lst_snapshots::{Sight, Snapshots, Swept, snapshots_of};
use std::alloc::Global;
use std::fmt::Debug;
use std::process::Abort;

/// What was found is what was wanted, at this place.
fn same<T: PartialEq + Debug + Drop>(rt: &impl Abort, found: T, wanted: T, at: impl Debug + Drop) {
    assert_eq!(rt; found, wanted, "{at:?}");
}

/// The cells of a row of two: None is null.
type Cells = (Option<u64>, Option<u64>);

/// What becomes of a row, as a value that is copied.
#[derive(Clone, Copy)]
enum Change {
    Put(u64, u64),
    PutCells(Cells),
    Set(Option<u64>, Option<u64>),
    SetCells(Option<Option<u64>>, Option<Option<u64>>),
    Delete,
}

fn write(key: u64, change: Change) -> Write {
    let act = match change {
        Change::Put(first, second) => Act::Put(row(first, second)),
        Change::PutCells(cells) => Act::Put(row_of(cells.0, cells.1)),
        Change::Set(first, second) => Act::Set(patch(first, second)),
        Change::SetCells(first, second) => Act::Set(patch_of(first, second)),
        Change::Delete => Act::Del,
    };
    Write { key, act }
}

/// A commit of one write, as a value that is copied.
#[derive(Clone, Copy)]
struct Only {
    session: u32,
    number: u32,
    begin: u64,
    key: u64,
    change: Change,
}

/// The key 7 is put.
const PUT: Only = Only {
    session: 0,
    number: 1,
    begin: 0,
    key: 7,
    change: Change::Put(10, 20),
};

/// Another session sets its second column.
const SET: Only = Only {
    session: 1,
    number: 1,
    begin: 1,
    key: 7,
    change: Change::Set(None, Some(21)),
};

fn commit(alloc: Global, only: Only) -> Result<Commit, OutOfMemory> {
    let mut writes = Writes::new(alloc);
    writes.push(write(only.key, only.change))?;
    Ok(Commit {
        session: only.session,
        number: only.number,
        begin: only.begin,
        writes,
    })
}

fn swept_of(alloc: Global, commits: &[Only]) -> Result<Swept, OutOfMemory> {
    let mut snapshots = Snapshots::new(alloc);
    for &only in commits {
        snapshots.push(commit(alloc, only)?)?;
    }
    Swept::of(alloc, snapshots)
}

/// A write of a sight's own, or a question to it or to its snapshots, with the answer.
#[derive(Clone, Copy)]
enum Step<'a> {
    Write(u64, Change),
    Row(u64, Option<Cells>),
    Count(u128),
    Sum(u32, u128),
    Rows(&'a [(u64, Cells)], bool),
    Keys(&'a [u64], u32, u64, bool),
    IsWritten(u64, u64, bool),
    Wrote(u64, u64, bool),
}

/// A row of numbers where no cell is null.
fn row_with(cells: Cells) -> Row {
    match cells {
        (Some(first), Some(second)) => row(first, second),
        (first, second) => row_of(first, second),
    }
}

fn rows(alloc: Global, entries: &[(u64, Cells)]) -> Result<Vec<(u64, Row)>, OutOfMemory> {
    let mut rows = Vec::new(alloc);
    for &(key, cells) in entries {
        rows.push((key, row_with(cells)))?;
    }
    Ok(rows)
}

fn ask(
    rt: &impl Abort,
    alloc: Global,
    swept: &Swept,
    sight: &mut Sight,
    step: Step<'_>,
    at: (u64, usize),
) -> Result<(), OutOfMemory> {
    let snapshots = swept.snapshots();
    match step {
        Step::Write(key, change) => sight.write(snapshots, &write(key, change))?,
        Step::Row(key, cells) => same(rt, sight.row(snapshots, key), cells.map(row_with), at),
        Step::Count(count) => same(rt, sight.count(swept), count, at),
        Step::Sum(column, sum) => same(rt, sight.sum(swept, column), sum, at),
        Step::Rows(entries, is_told) => {
            let rows = rows(alloc, entries)?;
            same(rt, sight.tells_rows(swept, rows.as_slice()), is_told, at);
        }
        Step::Keys(keys, column, value, is_told) => {
            same(
                rt,
                sight.tells_keys(swept, keys, column, value),
                is_told,
                at,
            );
        }
        Step::IsWritten(key, time, wanted) => same(rt, snapshots.is_written(key, time), wanted, at),
        Step::Wrote(time, key, wanted) => same(rt, snapshots.wrote(time, key), wanted, at),
    }
    Ok(())
}

/// Makes the steps on a new sight of a time.
fn look(
    rt: &impl Abort,
    alloc: Global,
    swept: &Swept,
    time: u64,
    steps: &[Step<'_>],
) -> Result<(), OutOfMemory> {
    let mut sight = Sight::new(alloc, time);
    for (at, &step) in steps.iter().enumerate() {
        ask(rt, alloc, swept, &mut sight, step, (time, at))?;
    }
    Ok(())
}

/// The same at each of some times.
fn look_at(
    rt: &impl Abort,
    alloc: Global,
    commits: &[Only],
    looks: &[(u64, &[Step<'_>])],
) -> Result<(), OutOfMemory> {
    let swept = swept_of(alloc, commits)?;
    for &(time, steps) in looks {
        look(rt, alloc, &swept, time, steps)?;
    }
    Ok(())
}

const BEFORE_THE_PUT: [Step<'static>; 5] = [
    Step::Row(7, None),
    Step::Count(0),
    Step::Write(9, Change::Put(1, 2)),
    Step::Row(9, Some((Some(1), Some(2)))),
    Step::Count(1),
];

const BEHIND_THE_PUT: [Step<'static>; 11] = [
    Step::Row(7, Some((Some(10), Some(20)))),
    Step::Write(9, Change::Put(5, 20)),
    Step::Write(9, Change::Set(Some(6), None)),
    Step::Sum(0, 16),
    Step::Rows(&[(7, (Some(10), Some(20))), (9, (Some(6), Some(20)))], true),
    Step::Rows(
        &[(9, (Some(6), Some(20))), (7, (Some(10), Some(20)))],
        false,
    ),
    Step::Keys(&[7, 9], 1, 20, true),
    Step::Keys(&[7], 1, 20, false),
    Step::Write(7, Change::Delete),
    Step::Row(7, None),
    Step::Rows(&[(9, (Some(6), Some(20)))], true),
];

const BEHIND_THE_SET: [Step<'static>; 7] = [
    Step::Row(7, Some((Some(10), Some(21)))),
    Step::Keys(&[], 1, 20, true),
    Step::IsWritten(7, 0, false),
    Step::IsWritten(7, 1, true),
    Step::Wrote(2, 7, true),
    Step::Wrote(3, 7, false),
    Step::Wrote(1, 9, false),
];

const SHOWN: [(u64, &[Step<'static>]); 3] = [
    (0, &BEFORE_THE_PUT),
    (1, &BEHIND_THE_PUT),
    (2, &BEHIND_THE_SET),
];

#[test]
fn a_sight_shows_its_time_and_its_own_writes(rt: HostRuntime) -> Result<(), OutOfMemory> {
    look_at(&rt, rt.alloc(), &[PUT, SET], &SHOWN)
}

/// The key 7 is put with null in its first column.
const PUT_NULL: Only = Only {
    change: Change::PutCells((None, Some(20))),
    ..PUT
};

/// Its second column becomes null, too.
const SET_NULL: Only = Only {
    change: Change::SetCells(None, Some(None)),
    ..SET
};

const BESIDE_NULLS: [Step<'static>; 11] = [
    Step::Row(7, Some((None, None))),
    Step::Write(9, Change::Put(0, 5)),
    Step::Count(2),
    Step::Sum(0, 0),
    Step::Sum(1, 5),
    Step::Keys(&[9], 0, 0, true),
    Step::Keys(&[7, 9], 0, 0, false),
    Step::Rows(&[(7, (None, None)), (9, (Some(0), Some(5)))], true),
    Step::Rows(&[(7, (Some(0), Some(0))), (9, (Some(0), Some(5)))], false),
    Step::Write(7, Change::Set(Some(0), None)),
    Step::Keys(&[7, 9], 0, 0, true),
];

const BEFORE_THE_SECOND_NULL: [Step<'static>; 2] = [
    Step::Row(7, Some((None, Some(20)))),
    Step::Keys(&[7], 1, 20, true),
];

const NULLS: [(u64, &[Step<'static>]); 2] = [(2, &BESIDE_NULLS), (1, &BEFORE_THE_SECOND_NULL)];

#[test]
fn null_adds_nothing_and_is_never_found(rt: HostRuntime) -> Result<(), OutOfMemory> {
    look_at(&rt, rt.alloc(), &[PUT_NULL, SET_NULL], &NULLS)
}

/// A commit behind the put of the key 7, and whether the two are a sound history.
const SECONDS: [(Only, bool); 5] = [
    (SET, true),
    (OVERLAPPING, false),
    (NUMBERED_AGAIN, false),
    (ABSENT_DELETED, false),
    (BEGUN_LATER, false),
];

const OVERLAPPING: Only = Only {
    begin: 0,
    change: Change::Put(1, 2),
    ..SET
};

const NUMBERED_AGAIN: Only = Only {
    session: 0,
    key: 8,
    change: Change::Put(1, 2),
    ..SET
};

const ABSENT_DELETED: Only = Only {
    key: 8,
    change: Change::Delete,
    ..SET
};

const BEGUN_LATER: Only = Only {
    begin: 2,
    key: 8,
    change: Change::Put(1, 2),
    ..SET
};

fn is_sound(alloc: Global, commits: &[Only]) -> Result<bool, OutOfMemory> {
    let mut history = History::new(alloc);
    for &only in commits {
        history.push(commit(alloc, only)?)?;
    }
    Ok(snapshots_of(alloc, history)?.is_some())
}

#[test]
fn a_history_is_sound_or_not(rt: HostRuntime) -> Result<(), OutOfMemory> {
    for (at, &(second, wanted)) in SECONDS.iter().enumerate() {
        same(&rt, is_sound(rt.alloc(), &[PUT, second])?, wanted, at);
    }
    Ok(())
}

fn drawn(state: &mut u64) -> u64 {
    let next = state
        .wrapping_mul(6364136223846793005)
        .wrapping_add(1442695040888963407);
    *state = next;
    next >> 33
}

fn drawn_cell(state: &mut u64) -> Option<u64> {
    match drawn(state) % 5 {
        4 => None,
        number => Some(number),
    }
}

fn random_write(state: &mut u64) -> Write {
    let key = drawn(state) % 6;
    let cell = drawn_cell(state);
    let change = match drawn(state) % 4 {
        0 => Change::Delete,
        1 => Change::PutCells((cell, Some(1))),
        2 => Change::SetCells(Some(cell), None),
        _ => Change::SetCells(None, Some(cell)),
    };
    write(key, change)
}

/// The number of a row's first column, or None for null.
fn first_number(row: &Row) -> Option<u64> {
    if row.nulls() & 1 == 1 {
        None
    } else {
        row.numbers().first().copied()
    }
}

/// The keys below 6, rising, with this number in the first column.
fn holders(alloc: Global, table: &Table, number: u64) -> Result<Vec<u64>, OutOfMemory> {
    let mut keys = Vec::new(alloc);
    for key in 0..6u64 {
        if let Some(row) = table.row(key) {
            if first_number(&row) == Some(number) {
                keys.push(key)?;
            }
        }
    }
    Ok(keys)
}

/// The sum of the first column.
fn first_sum(table: &Table) -> u128 {
    let mut total = 0u128;
    for key in 0..6u64 {
        if let Some(row) = table.row(key) {
            total = total.wrapping_add(u128::from(first_number(&row).unwrap_or(0)));
        }
    }
    total
}

fn random_commit(alloc: Global, state: &mut u64) -> Result<Commit, OutOfMemory> {
    let mut writes = Writes::new(alloc);
    for _ in 0..3u32 {
        writes.push(random_write(state))?;
    }
    Ok(Commit {
        session: 0,
        number: 1,
        begin: 0,
        writes,
    })
}

fn random_snapshots(alloc: Global, state: &mut u64) -> Result<Swept, OutOfMemory> {
    let mut snapshots = Snapshots::new(alloc);
    for _ in 0..40u32 {
        snapshots.push(random_commit(alloc, state)?)?;
    }
    Swept::of(alloc, snapshots)
}

/// The table of the commits up to a time.
fn replayed(alloc: Global, commits: &[Commit], time: u64) -> Result<Table, OutOfMemory> {
    let mut table = Table::new(alloc);
    for commit in commits.iter().take(time as usize) {
        for write in commit.writes.items() {
            apply(&mut table, write)?;
        }
    }
    Ok(table)
}

/// Five writes on a sight, and on the table that it shows.
fn write_both(
    snapshots: &Snapshots,
    sight: &mut Sight,
    table: &mut Table,
    state: &mut u64,
) -> Result<(), OutOfMemory> {
    for _ in 0..5u32 {
        let own = random_write(state);
        apply(table, &own)?;
        sight.write(snapshots, &own)?;
    }
    Ok(())
}

/// Whether a sight tells all that stands in a table.
fn is_told(
    rt: &impl Abort,
    alloc: Global,
    swept: &Swept,
    sight: &Sight,
    table: &Table,
    time: u64,
) -> Result<(), OutOfMemory> {
    for key in 0..6u64 {
        same(
            rt,
            sight.row(swept.snapshots(), key),
            table.row(key),
            ("sight", time, key),
        );
    }
    let present = (0..6u64).filter(|key| table.row(*key).is_some()).count();
    same(rt, sight.count(swept), present as u128, ("count", time));
    same(rt, sight.sum(swept, 0), first_sum(table), ("sum", time));
    let zeros = holders(alloc, table, 0)?;
    same(
        rt,
        sight.tells_keys(swept, zeros.as_slice(), 0, 0),
        true,
        ("keys", time),
    );
    Ok(())
}

/// Compares what a time shows with the commits replayed, and then with five writes behind them.
fn compare_at(
    rt: &impl Abort,
    alloc: Global,
    swept: &Swept,
    time: u64,
    state: &mut u64,
) -> Result<(), OutOfMemory> {
    let mut table = replayed(alloc, swept.commits(), time)?;
    for key in 0..6u64 {
        same(
            rt,
            swept.snapshots().row(key, time),
            table.row(key),
            (time, key),
        );
    }
    let mut sight = Sight::new(alloc, time);
    write_both(swept.snapshots(), &mut sight, &mut table, state)?;
    is_told(rt, alloc, swept, &sight, &table, time)
}

#[test]
fn each_time_shows_the_table_replayed(rt: HostRuntime) -> Result<(), OutOfMemory> {
    let mut state = 7u64;
    let swept = random_snapshots(rt.alloc(), &mut state)?;
    for time in 0..41u64 {
        compare_at(&rt, rt.alloc(), &swept, time, &mut state)?;
    }
    Ok(())
}
