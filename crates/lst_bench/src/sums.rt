//! Sums of a column, by one session or by several side by side: over merged pages, or as of the first commit, along chains of later versions.
ghost use Rattle.std.specs.Prelude.{◌≤◌, ◌<◌, IfOk};
ghost use Rattle.std.specs.List.{All};
ghost use Rattle.lst_model.specs.Lines.{IsPatch};
ghost use Rattle.lst_session.specs.Crews.{IsCrewOf};
ghost use Rattle.lst_session.specs.Passes.{IsReady};
ghost use Rattle.lst_work.specs.ParSums.{HaveSeenAlike};

use arrayvec::ArrayVec;
use lst_layout::Limits;
use lst_model::{Key, OutOfMemory, Patch, Row, Time};
use lst_rule::Store;
use lst_session::{Crew, Sessions, open_crew};
use lst_work::{all_can_begin, all_have_seen, par_sum};
use std::alloc::Global;
use std::thread::Threads;

/// How many ranges the store has, as many as one may have, with a row on each record.
const RANGES: u32 = 64;

/// The limits of a store for so many sessions, in which each row is written so often.
fn limits_for(sessions: u32, writes: u32) -> Limits
    requires { writes ≤ 256 }
{
    Limits {
        columns: 1,
        ranges: RANGES,
        tails: 256 * writes,
        sessions,
        txns: 65_535,
        spare: 1,
        indexed: 0,
    }
}

/// Puts a row of a key, in the open transaction of session 0, and answers whether it was put.
fn put(store: &Store, crew: &mut Crew, key: Key) -> bool
    requires { IsCrewOf store.now crew.old }
    ensures { IsCrewOf store.now crew.new }
{
    let mut row = Row::of_numbers(Default::default());
    row.push(Some(key));
    let limits = crew.seat.limits();
    if limits.sessions == 0 || limits.columns as usize != row.len() {
        return false;
    }
    crew.insert(store, 0, key, &row).is_ok()
}

/// A patch of the only column.
fn patch(number: u64) -> Patch
    ensures { IsPatch 1 result }
{
    let mut cells = ArrayVec::new();
    cells.push(Some(number));
    Patch::of_numbers(cells)
}

/// Sets the number of a key's row, in the open transaction of session 0, and answers whether it was set.
fn set(store: &Store, crew: &mut Crew, key: Key, number: u64) -> bool
    requires { IsCrewOf store.now crew.old }
    ensures { IsCrewOf store.now crew.new }
{
    let patch = patch(number);
    let limits = crew.seat.limits();
    if limits.sessions == 0 || limits.columns != 1 {
        return false;
    }
    crew.update(store, 0, key, &patch).is_ok()
}

/// Writes the row on each record, by one transaction of session 0, and answers whether it was committed. Without a number the rows are put; with one, they
/// are set to it.
fn write_all(store: &Store, crew: &mut Crew, number: Option<u64>) -> bool
    requires { IsCrewOf store.now crew.old }
    ensures { IsCrewOf store.now crew.new }
{
    if crew.seat.limits().sessions == 0 || crew.begin(store, 0).is_err() {
        return false;
    }
    for key in 0..u64::from(256 * RANGES) {
        let is_done = match number {
            Some(number) => set(store, crew, key, number),
            None => put(store, crew, key),
        };
        if !is_done {
            return false;
        }
    }
    crew.seat.limits().sessions > 0 && crew.commit(store, 0).is_ok()
}

/// Sets the number of each row so often, and answers whether each time was committed.
fn rewrite(store: &Store, crew: &mut Crew, later: u32) -> bool
    requires { IsCrewOf store.now crew.old }
    ensures { IsCrewOf store.now crew.new }
{
    for number in 0..later {
        if !write_all(store, crew, Some(number.into())) {
            return false;
        }
    }
    true
}

/// Merges the page of each range and column.
pub(crate) fn merge_all(store: &Store, crew: &mut Crew)
    requires { IsCrewOf store.now crew.old }
    ensures { IsCrewOf store.now crew.new }
{
    for range in 0..store.layout().limits.ranges {
        for column in 0..store.layout().limits.columns {
            let limits = crew.seat.limits();
            if range < limits.ranges && column < limits.columns {
                crew.merge(store, range, column);
            }
        }
    }
}

/// Has each session come to know of what was committed, by a begin.
fn hear(store: &Store, crew: &mut Crew, sessions: u32)
    requires { IsCrewOf store.now crew.old }
    ensures { IsCrewOf store.now crew.new }
{
    for s in 0..sessions {
        if s < crew.seat.limits().sessions && crew.begin(store, s).is_ok() {
            end(store, crew, s);
        }
    }
}

/// Ends a transaction of a session.
fn end(store: &Store, crew: &mut Crew, s: u32)
    requires { IsCrewOf store.now crew.old }
    ensures { IsCrewOf store.now crew.new }
{
    if s < crew.seat.limits().sessions {
        let _ = crew.abort(store, s);
    }
}

/// The sessions of a crew that is parted, each of which has seen the commits up to this time.
fn parted(alloc: Global, store: &Store, crew: Crew, time: Time) -> Result<Sessions, OutOfMemory>
    requires { IsCrewOf store.now crew }
    ensures ready { IfOk result (λ sessions. All (IsReady store.now) sessions) }
    ensures alike { IfOk result (λ sessions. HaveSeenAlike time sessions) }
{
    if !all_have_seen(store, &crew, time) {
        return Err(OutOfMemory);
    }
    crew.seat.consider();
    match crew.part(alloc, store) {
        Ok((sessions, _)) => Ok(sessions),
        Err((_, OutOfMemory)) => Err(OutOfMemory),
    }
}

/// The sum of the column by these sessions side by side, or 0 where one of them may not begin a transaction.
fn total<R: Threads + Sync>(rt: &R, store: &Store, sessions: &mut Sessions, time: Time) -> u128
    requires ready { All (IsReady store.now) sessions.old }
    requires alike { HaveSeenAlike time sessions.old }
    ensures ready { All (IsReady store.now) sessions.new }
    ensures alike { HaveSeenAlike time sessions.new }
{
    if sessions.as_slice().is_empty()
        || store.layout().limits.columns == 0
        || !all_can_begin(store, sessions.as_slice(), time)
    {
        return 0;
    }
    par_sum(rt, store, sessions, time, 0)
}

/// Fills a store of so many sessions and merges its pages, sets the number of each row `later` times, has the sessions add up the column as of the first commit
/// `count` times, and answers the last sum.
pub fn sums<R: Threads + Sync>(
    rt: &R,
    alloc: Global,
    sessions: u32,
    later: u32,
    count: u32,
) -> Result<u64, OutOfMemory>
    requires { later < 256 }
{
    let limits = limits_for(sessions, later + 1);
    let Ok(layout) = limits.check() else {
        return Ok(0);
    };
    let (store, mut crew) = open_crew(alloc, &layout)?;
    if !write_all(&store, &mut crew, None) {
        return Ok(0);
    }
    merge_all(&store, &mut crew);
    if !rewrite(&store, &mut crew, later) {
        return Ok(0);
    }
    hear(&store, &mut crew, sessions);
    let mut summers = parted(alloc, &store, crew, 1)?;
    let mut sum = 0;
    for _ in 0..count {
        sum = total(rt, &store, &mut summers, 1);
    }
    Ok((sum % (1 << 64)) as u64)
}
