//! The sessions of a crew that is parted add up a column side by side.
ghost use Rattle.std.specs.Prelude.{◌<◌, ◌≤◌, ℕ, IfOk, length, slice_index_or};
ghost use Rattle.std.specs.List.{All};
ghost use Rattle.lst_session.specs.declared.session.Session.{Session};
ghost use Rattle.lst_session.specs.Crews.{IsCrewOf};
ghost use Rattle.lst_session.specs.Parting.{IsAlone, seen_at};
ghost use Rattle.lst_session.specs.Passes.{IsReady};
ghost use Rattle.lst_work.specs.ParSums.{HaveSeenAlike};

use lst_layout::Limits;
use lst_model::{Key, Row, Time};
use lst_rule::Store;
use lst_session::{Crew, Sessions, next_phase, open_crew};
use lst_work::{all_can_begin, all_have_seen, par_sum};
use std::alloc::Global;
use std::process::Abort;
use std::test::Fail;
use std::thread::Threads;

/// Two ranges, and two sessions.
const HALVES: Limits = Limits {
    columns: 1,
    ranges: 2,
    tails: 300,
    sessions: 2,
    txns: 400,
    spare: 1,
    indexed: 0,
};

/// Session 0 inserts a row with the one cell 1,000, and commits it.
fn commit(rt: &impl Abort, store: &Store, crew: &mut Crew, key: Key)
    requires { IsCrewOf store.now crew.old }
    ensures { IsCrewOf store.now crew.new }
{
    let mut row = Row::of_numbers(Default::default());
    row.push(Some(1_000));
    assert!(rt; crew.seat.limits().sessions == 2);
    assert!(rt; crew.begin(store, 0).is_ok());
    assert!(rt; crew.seat.limits().sessions == 2);
    assert!(rt; row.len() == crew.seat.limits().columns as usize);
    assert!(rt; crew.insert(store, 0, key, &row).is_ok());
    assert!(rt; crew.seat.limits().sessions == 2);
    assert!(rt; crew.commit(store, 0).is_ok());
}

/// Session 1 comes to know of what was committed, by a begin.
fn hear(rt: &impl Abort, store: &Store, crew: &mut Crew)
    requires { IsCrewOf store.now crew.old }
    ensures { IsCrewOf store.now crew.new }
{
    assert!(rt; crew.seat.limits().sessions == 2);
    assert!(rt; crew.begin(store, 1).is_ok());
    assert!(rt; crew.seat.limits().sessions == 2);
    assert!(rt; crew.abort(store, 1).is_ok());
}

/// The sessions of a crew that is parted, each of which has seen so many commits.
fn parted(alloc: Global, store: &Store, crew: Crew, time: Time) -> Result<Sessions, Fail>
    requires { IsCrewOf store.now crew }
    ensures ready { IfOk result (λ sessions. All (IsReady store.now) sessions) }
    ensures alike { IfOk result (λ sessions. (t : ℕ) → t ≤ time → HaveSeenAlike t sessions) }
{
    if !all_have_seen(store, &crew, time) {
        return Err(Fail::from("each has seen them"));
    }
    crew.seat.consider();
    match crew.part(alloc, store) {
        Ok((sessions, _)) => Ok(sessions),
        Err(_) => Err(Fail::from("there is memory")),
    }
}

/// The sessions hear of each other, as between two phases. The first one, at a seat of its own, had seen so many commits.
fn hear_the_first(store: &Store, sessions: &mut Sessions, time: Time)
    requires ready { All (IsReady store.now) sessions.old }
    requires some { 0 < length sessions.old }
    requires alone { (none : Session) → IsAlone (slice_index_or sessions.old 0 none) }
    requires seen { (none : Session) → time ≤ length (seen_at sessions.old 0 none) }
    ensures ready { All (IsReady store.now) sessions.new }
    ensures alike { (t : ℕ) → t ≤ time → HaveSeenAlike t sessions.new }
{
    let _ = time;
    sessions.as_slice()[0].seat.consider();
    next_phase(store, sessions);
}

/// The sessions of a crew that is parted, which then hear of each other. The first of them has seen so many commits.
fn parted_by_phase(alloc: Global, store: &Store, crew: Crew, time: Time) -> Result<Sessions, Fail>
    requires { IsCrewOf store.now crew }
    ensures ready { IfOk result (λ sessions. All (IsReady store.now) sessions) }
    ensures alike { IfOk result (λ sessions. (t : ℕ) → t ≤ time → HaveSeenAlike t sessions) }
{
    let count = crew.seat.seen(0);
    if count < time {
        return Err(Fail::from("the first session has seen them"));
    }
    match crew.part(alloc, store) {
        Ok((mut sessions, _)) => {
            hear_the_first(store, &mut sessions, time);
            Ok(sessions)
        }
        Err(_) => Err(Fail::from("there is memory")),
    }
}

/// What the sessions add up as of a time.
fn total(
    rt: &(impl Abort + Threads + Sync),
    store: &Store,
    sessions: &mut Sessions,
    time: Time,
    most: Time,
) -> u128
    requires ready { All (IsReady store.now) sessions.old }
    requires alike { (t : ℕ) → t ≤ most → HaveSeenAlike t sessions.old }
    requires time { time ≤ most }
    ensures ready { All (IsReady store.now) sessions.new }
    ensures alike { (t : ℕ) → t ≤ most → HaveSeenAlike t sessions.new }
{
    assert!(rt; store.layout().limits.columns == 1);
    assert!(rt; sessions.as_slice().len() == 2);
    assert!(rt; all_can_begin(store, sessions.as_slice(), time));
    par_sum(rt, store, sessions, time, 0)
}

#[test]
fn two_sessions_add_up_a_column_side_by_side(rt: HostRuntime) -> Result<(), Fail> {
    let alloc = rt.alloc();
    let limits = HALVES;
    let Ok(layout) = limits.check() else {
        return Err(Fail::from("the limits are in range"));
    };
    let (store, mut crew) = open_crew(alloc, &layout)?;
    for key in 1..=300 {
        commit(&rt, &store, &mut crew, key);
    }
    hear(&rt, &store, &mut crew);
    let mut sessions = parted(alloc, &store, crew, 300)?;
    assert_eq!(rt; total(&rt, &store, &mut sessions, 300, 300), 300_000);
    assert_eq!(rt; total(&rt, &store, &mut sessions, 0, 300), 0);
    assert_eq!(rt; total(&rt, &store, &mut sessions, 257, 300), 257_000);
    Ok(())
}

#[test]
fn sessions_that_heard_of_each_other_add_up_a_column(rt: HostRuntime) -> Result<(), Fail> {
    let alloc = rt.alloc();
    let limits = HALVES;
    let Ok(layout) = limits.check() else {
        return Err(Fail::from("the limits are in range"));
    };
    let (store, mut crew) = open_crew(alloc, &layout)?;
    commit(&rt, &store, &mut crew, 7);
    commit(&rt, &store, &mut crew, 300);
    let mut sessions = parted_by_phase(alloc, &store, crew, 2)?;
    assert_eq!(rt; total(&rt, &store, &mut sessions, 2, 2), 2_000);
    assert_eq!(rt; total(&rt, &store, &mut sessions, 1, 2), 1_000);
    Ok(())
}
