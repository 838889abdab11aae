//! Scans of one session, and of two by lines, on a new store.
ghost use Rattle.std.specs.Prelude.{◌≡◌, ℕ, ◌<◌, IfOk, IsTrue};
ghost use Rattle.std.specs.List.{All, Contains};

use crate::scripts::{
    By, Crewed, Step as Said, open, play as play_lines, replies, run as run_lines, same,
};
use crate::steps::{Opened, Step, open_one, play};
use lst_layout::Limits;
use lst_model::{KeyList, Line, OutOfMemory, Reply, RowList};
use lst_rule::{RecordId, Store};
use lst_scan::{FindRefusal, count, find, find_among, rows, sum, sum_part};
use lst_session::{Outcome, Reader};
use std::alloc::Global;
use std::process::Abort;
use std::test::Fail;

/// Two ranges, and an index on the second column.
pub(crate) const HALVES: Limits = Limits {
    columns: 2,
    ranges: 2,
    tails: 16,
    sessions: 2,
    txns: 8,
    spare: 1,
    indexed: 2,
};

/// The number of rows, or None where no transaction is open.
fn counted(on: &mut Opened) -> Option<u64> {
    if on.session.is_idle() {
        return None;
    }
    let s = on.session.number;
    let mut reader = Reader {
        seat: &mut on.session.seat,
        s,
    };
    Some(count(&on.store, &mut reader))
}

/// The sum of the second column.
fn total(on: &mut Opened) -> Option<u128> {
    if on.session.is_idle() {
        return None;
    }
    let s = on.session.number;
    let mut reader = Reader {
        seat: &mut on.session.seat,
        s,
    };
    Some(sum(&on.store, &mut reader, 1))
}

/// That over the ranges from `from` up to and without `to`, of which there are two.
fn part(on: &mut Opened, from: u32, to: u32) -> Option<u128> {
    if on.session.is_idle() || from > to || to > on.store.layout().limits.ranges {
        return None;
    }
    let s = on.session.number;
    let mut reader = Reader {
        seat: &mut on.session.seat,
        s,
    };
    Some(sum_part(&on.store, &mut reader, 1, from, to))
}

fn listed(alloc: Global, on: &mut Opened) -> Option<Result<RowList, OutOfMemory>> {
    if on.session.is_idle() {
        return None;
    }
    let s = on.session.number;
    let mut reader = Reader {
        seat: &mut on.session.seat,
        s,
    };
    Some(rows(alloc, &on.store, &mut reader))
}

/// All records of two ranges.
fn all_records(alloc: Global) -> Result<Vec<RecordId>, OutOfMemory>
    ensures low { IfOk result (λ list. All (λ rec. rec.number < 512) list.items) }
    ensures all { IfOk result (λ list. (rec : ℕ) → rec < 512 → Contains list.items record { number = rec }) }
{
    let mut records = Vec::new(alloc);
    for number in 0..512 {
        records.push(RecordId { number })?;
    }
    Ok(records)
}

/// Whether a store has as many ranges as `all_records` is for.
fn has_two_ranges(store: &Store) -> bool
    ensures { IsTrue result → store.now.layout.limits.ranges ≡ 2 }
{
    store.layout().limits.ranges == 2
}

/// The keys of the rows that have this number in the first column.
fn found(
    alloc: Global,
    on: &mut Opened,
    number: u64,
) -> Result<Option<Result<KeyList, OutOfMemory>>, OutOfMemory> {
    if !has_two_ranges(&on.store) {
        return Ok(None);
    }
    if on.session.is_idle() {
        return Ok(None);
    }
    let records = all_records(alloc)?;
    on.session.seat.consider();
    let s = on.session.number;
    let mut reader = Reader {
        seat: &mut on.session.seat,
        s,
    };
    Ok(Some(find_among(alloc, &on.store, &mut reader, 0, number, &records)))
}

/// The keys of the rows that have this number in the second column, by its index.
fn found_by_index(
    alloc: Global,
    on: &mut Opened,
    number: u64,
) -> Option<Result<KeyList, FindRefusal>> {
    if on.session.is_idle() {
        return None;
    }
    let s = on.session.number;
    let mut reader = Reader {
        seat: &mut on.session.seat,
        s,
    };
    Some(find(alloc, &on.store, &mut reader, 1, number))
}

/// Calls of the session, or a scan with what it shows.
#[derive(Clone, Copy)]
enum Look {
    Calls(&'static [Step]),
    Counted(Option<u64>),
    Total(Option<u128>),
    Part(u32, u32, Option<u128>),
    /// A list is made, whatever it shows, or is refused.
    AnyList,
    Lists(&'static str),
    /// The rows with this number in the first column, among all records.
    Finds(u64, &'static str),
    /// The rows with this number in the second column.
    FindsByIndex(u64, &'static str),
}

/// The text of a reply, compared.
fn shows(rt: &(impl Abort + AllocGlobal), reply: &Reply, wanted: &'static str) -> Result<(), Fail> {
    replies(rt, &Line::Phase, reply, (wanted, wanted))
}

/// The rows that are listed, compared.
fn lists(
    rt: &(impl Abort + AllocGlobal),
    on: &mut Opened,
    wanted: &'static str,
) -> Result<(), Fail> {
    let Some(Ok(list)) = listed(rt.alloc(), on) else {
        return Err(Fail::from("the rows are listed"));
    };
    shows(rt, &Reply::Rows { list }, wanted)
}

/// The keys that are found among all records, compared.
fn finds(
    rt: &(impl Abort + AllocGlobal),
    on: &mut Opened,
    number: u64,
    wanted: &'static str,
) -> Result<(), Fail> {
    let Some(Ok(list)) = found(rt.alloc(), on, number)? else {
        return Err(Fail::from("the keys are found"));
    };
    shows(rt, &Reply::Keys { list }, wanted)
}

/// The keys that are found by the index, compared.
fn finds_by_index(
    rt: &(impl Abort + AllocGlobal),
    on: &mut Opened,
    number: u64,
    wanted: &'static str,
) -> Result<(), Fail> {
    let Some(Ok(list)) = found_by_index(rt.alloc(), on, number) else {
        return Err(Fail::from("the keys are found"));
    };
    shows(rt, &Reply::Keys { list }, wanted)
}

/// Takes a look, at this place of a script.
fn take(rt: &(impl Abort + AllocGlobal), on: &mut Opened, look: Look, at: u64) -> Result<(), Fail> {
    match look {
        Look::Calls(script) => play(rt, on, script),
        Look::Counted(wanted) => same(rt, counted(on), wanted, at),
        Look::Total(wanted) => same(rt, total(on), wanted, at),
        Look::Part(from, to, wanted) => same(rt, part(on, from, to), wanted, at),
        Look::AnyList => same(rt, listed(rt.alloc(), on).is_some(), true, at),
        Look::Lists(wanted) => lists(rt, on, wanted)?,
        Look::Finds(number, wanted) => finds(rt, on, number, wanted)?,
        Look::FindsByIndex(number, wanted) => finds_by_index(rt, on, number, wanted)?,
    }
    Ok(())
}

/// Looks in order.
fn looks(rt: &(impl Abort + AllocGlobal), on: &mut Opened, script: &[Look]) -> Result<(), Fail> {
    for (at, &look) in script.iter().enumerate() {
        take(rt, on, look, at as u64)?;
    }
    Ok(())
}

/// The same on a new store.
fn run(rt: &(impl Abort + AllocGlobal), script: &[Look]) -> Result<(), Fail> {
    let mut on = open_one(rt.alloc(), &HALVES)?;
    looks(rt, &mut on, script)
}

const OWN_WRITES: &[Look] = &[
    Look::Counted(None),
    Look::Calls(&[Step::Begin(Ok(0))]),
    Look::Counted(Some(0)),
    Look::Calls(&[
        Step::Insert(9, Some(30), Some(20), Ok(())),
        Step::Insert(7, None, Some(u64::MAX), Ok(())),
        Step::Insert(8, Some(5), None, Ok(())),
    ]),
    Look::Counted(Some(3)),
    // The greatest number and 20.
    Look::Total(Some(18_446_744_073_709_551_635)),
    Look::Lists("rows 7:null,18446744073709551615 8:5,null 9:30,20"),
    Look::Calls(&[
        Step::Commit(Ok(Outcome::Committed { time: 1 })),
        Step::Begin(Ok(1)),
        Step::Delete(7, Ok(())),
        Step::Empty(9, Ok(())),
    ]),
    Look::Counted(Some(2)),
    Look::Total(Some(0)),
    Look::Calls(&[Step::Abort(Ok(())), Step::Begin(Ok(1))]),
    Look::Counted(Some(3)),
];

#[test]
fn own_writes_nulls_and_deletes_are_scanned(rt: HostRuntime) -> Result<(), Fail> {
    run(&rt, OWN_WRITES)
}

const FOUND: &[Look] = &[
    Look::Calls(&[
        Step::Begin(Ok(0)),
        Step::Insert(9, Some(30), Some(20), Ok(())),
        Step::Insert(7, Some(30), None, Ok(())),
        Step::Insert(8, Some(0), Some(30), Ok(())),
        Step::Insert(5, None, Some(30), Ok(())),
        Step::Insert(6, Some(30), Some(1), Ok(())),
        Step::Delete(6, Ok(())),
    ]),
    Look::Finds(30, "keys 7 9"),
    // Null is no number.
    Look::Finds(0, "keys 8"),
    Look::Finds(31, "keys"),
];

#[test]
fn rows_with_a_number_are_found(rt: HostRuntime) -> Result<(), Fail> {
    run(&rt, FOUND)
}

const FOUND_IN_THE_PAST: &[Look] = &[
    Look::Calls(&[
        Step::Begin(Ok(0)),
        Step::Insert(9, Some(30), Some(20), Ok(())),
        Step::Insert(7, Some(20), Some(0), Ok(())),
        Step::Insert(5, None, Some(20), Ok(())),
    ]),
    Look::FindsByIndex(20, "keys 5 9"),
    Look::Calls(&[
        Step::Commit(Ok(Outcome::Committed { time: 1 })),
        Step::Begin(Ok(1)),
        Step::Empty(9, Ok(())),
        Step::Delete(5, Ok(())),
    ]),
    Look::FindsByIndex(20, "keys"),
    // The number 0 is found, and the row with a null in its place isn't.
    Look::FindsByIndex(0, "keys 7"),
    Look::Calls(&[
        Step::Commit(Ok(Outcome::Committed { time: 2 })),
        Step::AsOf(1, Ok(1)),
    ]),
    Look::FindsByIndex(20, "keys 5 9"),
];

#[test]
fn rows_of_the_past_are_found_by_the_index(rt: HostRuntime) -> Result<(), Fail> {
    run(&rt, FOUND_IN_THE_PAST)
}

const REFUSED_LIST: &[Look] = &[
    Look::Calls(&[
        Step::Begin(Ok(0)),
        Step::Insert(9, Some(30), Some(20), Ok(())),
        Step::Insert(7, Some(10), Some(1), Ok(())),
    ]),
    Look::AnyList,
    Look::Counted(Some(2)),
    Look::Total(Some(21)),
    Look::Calls(&[
        Step::Delete(9, Ok(())),
        Step::Commit(Ok(Outcome::Committed { time: 1 })),
        Step::Begin(Ok(1)),
    ]),
    Look::Counted(Some(1)),
];

/// With `rt try --test --fail-alloc 6` the list is refused, and else it isn't. The transaction goes on as if it had not been asked for.
#[test]
fn a_refused_list_leaves_the_transaction(rt: HostRuntime) -> Result<(), Fail> {
    run(&rt, REFUSED_LIST)
}

const PAST_TIME: &[Look] = &[
    Look::Calls(&[
        Step::Begin(Ok(0)),
        Step::Insert(7, Some(10), Some(20), Ok(())),
        Step::Commit(Ok(Outcome::Committed { time: 1 })),
        Step::Begin(Ok(1)),
        Step::Insert(6, Some(1), Some(2), Ok(())),
        Step::Delete(7, Ok(())),
        Step::Commit(Ok(Outcome::Committed { time: 2 })),
        Step::AsOf(1, Ok(1)),
    ]),
    Look::Counted(Some(1)),
    Look::Total(Some(20)),
    Look::Lists("rows 7:10,20"),
    Look::Calls(&[Step::Abort(Ok(())), Step::AsOf(2, Ok(2))]),
    Look::Total(Some(2)),
    Look::Lists("rows 6:1,2"),
    Look::Calls(&[Step::Abort(Ok(())), Step::AsOf(0, Ok(0))]),
    Look::Counted(Some(0)),
    Look::Lists("rows"),
];

#[test]
fn a_past_time_is_scanned(rt: HostRuntime) -> Result<(), Fail> {
    run(&rt, PAST_TIME)
}

const PARTS: &[Look] = &[
    Look::Counted(Some(300)),
    Look::Part(0, 1, Some(32640)),
    Look::Part(1, 2, Some(12210)),
    Look::Part(1, 1, Some(0)),
    Look::Part(0, 2, Some(44850)),
    Look::Total(Some(44850)),
];

#[test]
fn parts_add_up_to_the_whole(rt: HostRuntime) -> Result<(), Fail> {
    let mut on = open_one(
        rt.alloc(),
        &Limits {
            tails: 300,
            ..HALVES
        },
    )?;
    play(&rt, &mut on, &[Step::Begin(Ok(0))]);
    // A range has 256 records, so the keys from 744 down to 701 are in the second one.
    for number in 0..300 {
        play(
            &rt,
            &mut on,
            &[Step::Insert(1000 - number, None, Some(number), Ok(()))],
        );
    }
    looks(&rt, &mut on, PARTS)
}

/// One range, for two sessions at one seat.
pub(crate) const PAIR: Limits = Limits {
    columns: 2,
    ranges: 1,
    tails: 16,
    sessions: 2,
    txns: 8,
    spare: 1,
    indexed: 0,
};

/// The sum of the second column that a session's transaction sees.
fn total_of(on: &mut Crewed, s: u32) -> Option<u128> {
    let limits = on.store.layout().limits;
    if limits.sessions <= s || limits.columns != 2 || !on.crew.seat.is_open(s) {
        return None;
    }
    let mut reader = Reader {
        seat: &mut on.crew.seat,
        s,
    };
    Some(sum(&on.store, &mut reader, 1))
}

/// The totals of both sessions, compared.
fn totals(rt: &impl Abort, on: &mut Crewed, first: Option<u128>, second: Option<u128>) {
    let both = (total_of(on, 0), total_of(on, 1));
    same(rt, both, (first, second), 0);
}

const BOTH_INSERT: &[Said] = &[
    ("0 begin", "0 begun 0"),
    ("1 begin", "1 begun 0"),
    ("0 insert 7 b=20", "0 ok"),
    ("1 insert 8 b=3", "1 ok"),
];

const BOTH_BEGIN: &[Said] = &[
    ("1 commit", "1 committed 2"),
    ("0 begin", "0 begun 2"),
    ("1 asof 1", "1 begun 1"),
];

#[test]
fn sessions_scan_what_each_sees(rt: HostRuntime) -> Result<(), Fail> {
    let mut on = open(rt.alloc(), &PAIR, By::CrewLine)?;
    play_lines(&rt, &mut on, BOTH_INSERT)?;
    totals(&rt, &mut on, Some(20), Some(3));
    play_lines(&rt, &mut on, &[("0 commit", "0 committed 1")])?;
    totals(&rt, &mut on, None, Some(3));
    play_lines(&rt, &mut on, BOTH_BEGIN)?;
    totals(&rt, &mut on, Some(23), Some(20));
    Ok(())
}

const LINES: &[Said] = &[
    // Whether a transaction is open is asked before the index.
    ("0 find b 3", "0 refused idle"),
    ("0 sum b", "0 refused idle"),
    ("0 begin", "0 begun 0"),
    ("1 begin", "1 begun 0"),
    ("0 insert 7 a=5", "0 ok"),
    ("0 insert 6 a=5 b=3", "0 ok"),
    ("0 sum b", "0 sum 3"),
    ("0 count", "0 count 2"),
    ("1 count", "1 count 0"),
    ("0 scan", "0 rows 6:5,3 7:5,null"),
    ("0 find a 5", "0 keys 6 7"),
    ("0 find b 3", "0 refused noindex"),
    ("0 commit", "0 committed 1"),
    ("0 count", "0 refused idle"),
    ("1 find a 5", "1 keys"),
];

#[test]
fn lines_are_answered(rt: HostRuntime) -> Result<(), Fail> {
    run_lines(&rt, &Limits { indexed: 1, ..PAIR }, By::CrewLine, LINES)
}

const TWO_ROWS: &[Said] = &[
    ("0 begin", "0 begun 0"),
    ("0 insert 9 b=20", "0 ok"),
    ("0 insert 7 b=20", "0 ok"),
    ("0 find b 20", "0 keys 7 9"),
    ("0 find a 10", "0 refused noindex"),
];

#[test]
fn two_rows_are_found_by_the_index(rt: HostRuntime) -> Result<(), Fail> {
    run_lines(&rt, &Limits { indexed: 2, ..PAIR }, By::CrewLine, TWO_ROWS)
}

const OLDER: &[Said] = &[
    ("0 begin", "0 begun 0"),
    ("0 insert 7 b=20", "0 ok"),
    ("0 commit", "0 committed 1"),
    ("1 begin", "1 begun 1"),
    ("0 begin", "0 begun 1"),
    ("0 update 7 b=21", "0 ok"),
    ("0 commit", "0 committed 2"),
    ("0 begin", "0 begun 2"),
    ("1 find b 20", "1 keys 7"),
    ("1 find b 21", "1 keys"),
    ("0 find b 20", "0 keys"),
    ("0 find b 21", "0 keys 7"),
];

#[test]
fn an_older_snapshot_finds_the_old_number(rt: HostRuntime) -> Result<(), Fail> {
    run_lines(&rt, &Limits { indexed: 2, ..PAIR }, By::CrewLine, OLDER)
}
