//! Two sessions with a seat each: both commit, and one tells the other what it has seen.
ghost use Rattle.std.specs.Prelude.{◌≡◌, ◌<◌, IfOk, length, true};
ghost use Rattle.lst_rule.specs.Rule.{hosts};
ghost use Rattle.lst_rule.specs.Stores.{IsSeatOf};
ghost use Rattle.lst_test_steps.specs.Parted.{HasOwn};
ghost use Rattle.lst_model.specs.Lines.{IsPatch};

use crate::writes::put_set_and_delete;
use arrayvec::ArrayVec;
use lst_layout::Limits;
use lst_model::{Key, Patch, Row, Time};
use lst_rule::{Seat, Store};
use lst_seat::{SeatList, gather, hear, open_store, part, tell};
use std::alloc::Global;
use std::process::Abort;
use std::test::Fail;

/// One range, with a tail record for each of six writes.
const SMALL: Limits = Limits {
    columns: 2,
    ranges: 1,
    tails: 6,
    sessions: 2,
    txns: 1,
    spare: 1,
    indexed: 0,
};

/// A store that opens, the seats of its two sessions, and the merger's.
fn open_two(alloc: Global) -> Result<(Store, (Seat, Seat), Seat), Fail>
    ensures columns { IfOk result (λ opened. opened.0.layout.limits.columns ≡ 2) }
    ensures sessions { IfOk result (λ opened. opened.0.layout.limits.sessions ≡ 2) }
    ensures first { IfOk result (λ opened. HasOwn opened.0 0 opened.1.0) }
    ensures second { IfOk result (λ opened. HasOwn opened.0 1 opened.1.1) }
    ensures merger { IfOk result (λ opened. IsSeatOf opened.0 opened.2) }
    ensures hosts { IfOk result (λ opened. hosts opened.2.view opened.2.view.limits.sessions ≡ true) }
{
    let limits = SMALL;
    let Ok(layout) = limits.check() else {
        return Err(Fail::from("the small limits are in range"));
    };
    let (store, seat) = open_store(alloc, &layout)?;
    let Ok((seats, merger)) = part(alloc, &store, seat) else {
        return Err(Fail::from("there is memory"));
    };
    let mut items = seats.into_vec();
    let (Some(second), Some(first)) = (items.pop(), items.pop()) else {
        return Err(Fail::from("there are two sessions"));
    };
    Ok((store, (first, second), merger))
}

fn row(first: u64, second: u64) -> Row
    ensures { length result ≡ 2 }
{
    let mut cells = ArrayVec::new();
    cells.push(first);
    cells.push(second);
    Row::of_numbers(cells)
}

/// Sets the first column alone.
fn patch(first: u64) -> Patch
    ensures { IsPatch 2 result }
{
    let mut cells = ArrayVec::new();
    cells.push(Some(first));
    cells.push(None);
    Patch::of_numbers(cells)
}

/// A transaction of three writes of one key. Its time, or None where a call is refused.
fn commit(store: &Store, seat: &mut Seat, s: u32, key: Key) -> Option<Time>
    requires columns { store.now.layout.limits.columns ≡ 2 }
    requires session { s < store.now.layout.limits.sessions }
    requires own { HasOwn store.now s seat.old }
    ensures { IsSeatOf store.now seat.new }
{
    put_set_and_delete(store, seat, s, key, row(10, 20), patch(11))
}

/// The same, and it is committed at this time.
fn commits(rt: &impl Abort, store: &Store, seat: &mut Seat, s: u32, key: Key, time: Time)
    requires columns { store.now.layout.limits.columns ≡ 2 }
    requires session { s < store.now.layout.limits.sessions }
    requires own { HasOwn store.now s seat.old }
    ensures { IsSeatOf store.now seat.new }
{
    assert_eq!(rt; commit(store, seat, s, key), Some(time));
}

/// The seat hosts the session, which has seen so many commits.
fn has_seen(rt: &impl Abort, seat: &Seat, s: u32, time: Time)
    ensures { hosts seat.now.view s ≡ true }
{
    assert!(rt; s < seat.limits().sessions && seat.hosts(s));
    assert_eq!(rt; seat.seen(s), time);
}

/// Gathers the seats of both sessions, the second one first.
fn gathered(
    alloc: Global,
    store: &Store,
    first: Seat,
    second: Seat,
    merger: Seat,
) -> Result<Seat, Fail>
    requires first { IsSeatOf store.now first }
    requires second { IsSeatOf store.now second }
    requires merger { IsSeatOf store.now merger }
    requires hosts { hosts merger.view merger.view.limits.sessions ≡ true }
{
    let mut items = Vec::new(alloc);
    items.push(second)?;
    items.push(first)?;
    match gather(store, SeatList::from_vec(items), merger) {
        Ok(seat) => Ok(seat),
        Err(_) => Err(Fail::from("no session is missing")),
    }
}

#[test]
fn commits_are_told_and_gathered(rt: HostRuntime) -> Result<(), Fail> {
    let (store, (mut first, mut second), merger) = open_two(rt.alloc())?;
    commits(&rt, &store, &mut first, 0, 7, 1);
    has_seen(&rt, &first, 0, 1);
    has_seen(&rt, &second, 1, 0);
    // Session 1 makes no load of its own: it hears of the commit.
    let note = tell(&store, &mut first);
    hear(&store, &mut second, note);
    has_seen(&rt, &second, 1, 1);
    commits(&rt, &store, &mut second, 1, 8, 2);
    has_seen(&rt, &first, 0, 1);
    let seat = gathered(rt.alloc(), &store, first, second, merger)?;
    has_seen(&rt, &seat, 0, 2);
    has_seen(&rt, &seat, 1, 2);
    Ok(())
}
