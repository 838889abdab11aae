//! A store of three sessions is parted, told and gathered.
ghost use Rattle.std.specs.Prelude.{◌≡◌, IfOk, All, length, true};
ghost use Rattle.lst_rule.specs.Rule.{hosts};
ghost use Rattle.lst_rule.specs.Stores.{IsSeatOf};
ghost use Rattle.lst_rule.specs.Surveys.{HostsAll};

use lst_layout::Limits;
use lst_rule::{Seat, Store};
use lst_seat::{SeatCause, SeatList, gather, hear, open_store, part, tell};
use std::alloc::Global;
use std::process::Abort;
use std::test::Fail;

const SMALL: Limits = Limits {
    columns: 1,
    ranges: 1,
    tails: 1,
    sessions: 3,
    txns: 1,
    spare: 1,
    indexed: 0,
};

/// Parts a seat. Where there is no memory for it the seat is handed back, and is parted at a second try.
fn part_at_last(alloc: Global, store: &Store, seat: Seat) -> Result<(SeatList, Seat), Fail>
    requires seat { IsSeatOf store.now seat }
    requires all { HostsAll seat.view }
    ensures seats { IfOk result (λ parted. All (IsSeatOf store.now) parted.0) }
    ensures count { IfOk result (λ parted. length parted.0 ≡ seat.view.limits.sessions) }
    ensures merger { IfOk result (λ parted. IsSeatOf store.now parted.1) }
    ensures hosts { IfOk result (λ parted. hosts parted.1.view seat.view.limits.sessions ≡ true) }
{
    let again = match part(alloc, store, seat) {
        Ok(parted) => return Ok(parted),
        Err((again, _)) => again,
    };
    let sessions = again.limits().sessions;
    if !again.hosts(0) || !again.hosts(sessions) {
        return Err(Fail::from("the seat is as it was"));
    }
    match part(alloc, store, again) {
        Ok(parted) => Ok(parted),
        Err(_) => Err(Fail::from("there is memory")),
    }
}

/// A store that opens, parted: the sessions' seats, and the merger's.
fn open_parted(alloc: Global) -> Result<(Store, SeatList, Seat), Fail>
    ensures sessions { IfOk result (λ opened. opened.0.layout.limits.sessions ≡ 3) }
    ensures seats { IfOk result (λ opened. All (IsSeatOf opened.0) opened.1) }
    ensures count { IfOk result (λ opened. length opened.1 ≡ 3) }
    ensures merger { IfOk result (λ opened. IsSeatOf opened.0 opened.2) }
    ensures hosts { IfOk result (λ opened. hosts opened.2.view opened.2.view.limits.sessions ≡ true) }
{
    let limits = SMALL;
    let Ok(layout) = limits.check() else {
        return Err(Fail::from("the small limits are in range"));
    };
    let (store, seat) = open_store(alloc, &layout)?;
    let (seats, merger) = part_at_last(alloc, &store, seat)?;
    Ok((store, seats, merger))
}

/// Whether the seat hosts a session, or the merger, whose number is that of the sessions; false where there is no such session.
fn is_host(seat: &Seat, s: u32) -> bool
    ensures { result ≡ true → hosts seat.now.view s ≡ true }
{
    s <= seat.limits().sessions && seat.hosts(s)
}

/// The seat hosts these of the three sessions and the merger, in order, and no other.
fn hosts_these(rt: &impl Abort, seat: &Seat, hosted: [bool; 4], at: &str) {
    assert_eq!(rt; seat.limits().sessions, 3);
    for s in 0..4 {
        assert_eq!(rt; is_host(seat, s), hosted[s as usize], "{at}: {s}");
    }
}

#[test]
fn parted_seats_are_gathered_in_any_order(rt: HostRuntime) -> Result<(), Fail> {
    let (store, seats, merger) = open_parted(rt.alloc())?;
    hosts_these(&rt, &merger, [false, false, false, true], "the merger's");
    let mut items = seats.into_vec();
    items.swap(0, 2);
    hosts_these(
        &rt,
        &items[0],
        [false, false, true, false],
        "the last one's",
    );
    let Ok(seat) = gather(&store, SeatList::from_vec(items), merger) else {
        return Err(Fail::from("no session is missing"));
    };
    hosts_these(&rt, &seat, [true, true, true, true], "gathered");
    assert_eq!(rt; seat.seen(1), 0);
    Ok(())
}

#[test]
fn the_least_session_that_is_missing_is_named(rt: HostRuntime) -> Result<(), Fail> {
    let (store, seats, merger) = open_parted(rt.alloc())?;
    let mut items = seats.into_vec();
    let (Some(last), Some(second)) = (items.pop(), items.pop()) else {
        return Err(Fail::from("there are three sessions"));
    };
    let Err(refusal) = gather(&store, SeatList::from_vec(items), merger) else {
        return Err(Fail::from("sessions 1 and 2 are missing"));
    };
    assert!(rt; matches!(refusal.cause, SeatCause::Gap { missing: 1 }));
    hosts_these(
        &rt,
        &refusal.merger,
        [false, false, false, true],
        "the merger's",
    );
    // All that was handed back is gathered with the two that were missing.
    let mut items = refusal.seats.into_vec();
    assert_eq!(rt; items.len(), 1);
    hosts_these(
        &rt,
        &items[0],
        [true, false, false, false],
        "the first one's",
    );
    items.push(last)?;
    items.push(second)?;
    assert!(rt; gather(&store, SeatList::from_vec(items), refusal.merger).is_ok());
    Ok(())
}

#[test]
fn a_note_is_told_and_heard(rt: HostRuntime) -> Result<(), Fail> {
    let (store, seats, _) = open_parted(rt.alloc())?;
    let mut items = seats.into_vec();
    let (Some(mut last), Some(mut second)) = (items.pop(), items.pop()) else {
        return Err(Fail::from("there are three sessions"));
    };
    if !is_host(&last, 2) || !is_host(&second, 1) {
        return Err(Fail::from("each seat hosts its session"));
    }
    let note = tell(&store, &mut second);
    hear(&store, &mut last, note);
    hosts_these(&rt, &last, [false, false, true, false], "the last one's");
    hosts_these(
        &rt,
        &second,
        [false, true, false, false],
        "the second one's",
    );
    Ok(())
}
