//! Two sessions of one store, hosted by one seat, that place keys against each other.
ghost use Rattle.std.specs.Prelude.{◌≡◌, ◌<◌, ◌+◌, IfOk, IfSome, IfNone, IsTrue, true, false};
ghost use Rattle.lst_core_state.specs.Index.{size, position_of};
ghost use Rattle.lst_rule.specs.Rule.{knows};
ghost use Rattle.lst_index.specs.Searches.{Passed};
ghost use Rattle.lst_index.specs.Visits.{HasOne};
ghost use Rattle.lst_index.specs.Pairs.{IsPair, IsIdle};

use crate::same::same;
use lst_index::{
    TableFull, draw, find, look, look_at_counter, place, position, settle, take_record, visit,
};
use lst_layout::Limits;
use lst_rule::{Seat, Store, open_store};
use std::alloc::Global;
use std::process::Abort;
use std::test::Fail;

/// One range: 256 records, and 512 positions.
const SMALL: Limits = Limits {
    columns: 1,
    ranges: 1,
    tails: 1,
    sessions: 2,
    txns: 1,
    spare: 1,
    indexed: 0,
};

/// Two keys whose run begins at the last position, 511.
const LAST: u64 = 377;

const LAST_TOO: u64 = 987;

fn open_pair(alloc: Global) -> Result<(Store, Seat), Fail>
    ensures pair { IfOk result (λ opened. IsPair opened.0 opened.1) }
    ensures idle { IfOk result (λ opened. IsIdle opened.1 0) }
{
    let limits = SMALL;
    let Ok(layout) = limits.check() else {
        return Err(Fail::from("the small limits are in range"));
    };
    Ok(open_store(alloc, &layout)?)
}

/// The record that `place` answers session 0, if the table isn't full.
fn put(store: &Store, seat: &mut Seat, key: u64) -> Option<u32>
    requires pair { IsPair store.now seat.old }
    requires idle { IsIdle seat.old 0 }
    ensures pair { IsPair store.now seat.new }
    ensures idle { IsIdle seat.new 0 }
{
    match place(store, seat, 0, key) {
        Ok(found) => Some(found.number),
        Err(TableFull) => None,
    }
}

/// The record that `find` answers session 0.
fn get(store: &Store, seat: &mut Seat, key: u64) -> Option<u32>
    requires pair { IsPair store.now seat.old }
    requires idle { IsIdle seat.old 0 }
    ensures pair { IsPair store.now seat.new }
    ensures idle { IsIdle seat.new 0 }
{
    match find(store, seat, 0, key) {
        Some(found) => Some(found.number),
        None => None,
    }
}

/// The record that `place` answers session 1, while session 0 is on its way.
fn overtake(store: &Store, seat: &mut Seat, key: u64) -> Option<u32>
    requires pair { IsPair store.now seat.old }
    ensures pair { IsPair store.now seat.new }
    ensures first { knows seat.new.view 0 ≡ knows seat.old.view 0 }
{
    match place(store, seat, 1, key) {
        Ok(found) => Some(found.number),
        Err(TableFull) => None,
    }
}

/// Whether session 0 places the keys from 1,000 on, as many, at the records from `first` on, one after the other.
fn puts(store: &Store, seat: &mut Seat, first: u32, count: u32) -> bool
    requires pair { IsPair store.now seat.old }
    requires idle { IsIdle seat.old 0 }
    requires first { first < 256 }
    requires count { count < 256 }
    ensures pair { IsPair store.now seat.new }
    ensures idle { IsIdle seat.new 0 }
{
    let mut done = 0;
    while done < count {
        if put(store, seat, 1000 + done as u64) != Some(first + done) {
            return false;
        }
        done += 1;
    }
    true
}

/// Session 0 finds the first position of the key's run free, and takes a record in hand. The position, if all goes well.
fn set_out(store: &Store, seat: &mut Seat, key: u64) -> Option<u32>
    requires pair { IsPair store.now seat.old }
    requires idle { IsIdle seat.old 0 }
    ensures pair { IsPair store.now seat.new }
    ensures has { IfSome result (λ at. HasOne (knows seat.new.view 0).placing key) }
    ensures at { IfSome result (λ at. (at ≡ position_of store.now.layout.limits key 0) × (at < size store.now.layout.limits)) }
{
    seat.consider();
    let at = position(store.layout(), key, 0);
    if let Some(_) = look(store, seat, 0, at) {
        return None;
    }
    let Ok(()) = take_record(store, seat, 0, key) else {
        return None;
    };
    Some(at)
}

/// Session 0 brings its record to the position. The record of the key, unless the position has another key.
fn arrive(store: &Store, seat: &mut Seat, key: u64, at: u32) -> Option<u32>
    requires pair { IsPair store.now seat.old }
    requires has { HasOne (knows seat.old.view 0).placing key }
    requires at { (at ≡ position_of store.now.layout.limits key 0) × (at < size store.now.layout.limits) }
    ensures pair { IsPair store.now seat.new }
    ensures idle { IfSome result (λ r. IsIdle seat.new 0) }
    ensures has { IfNone result (HasOne (knows seat.new.view 0).placing key × Passed store.now.layout.limits (knows seat.new.view 0).facts key 1) }
{
    match settle(store, seat, 0, key, 0, at) {
        Some(found) => Some(found.number),
        None => None,
    }
}

/// Session 0 brings its record to the second position of the run.
fn arrive_next(store: &Store, seat: &mut Seat, key: u64) -> Option<u32>
    requires pair { IsPair store.now seat.old }
    requires has { HasOne (knows seat.old.view 0).placing key }
    requires passed { Passed store.now.layout.limits (knows seat.old.view 0).facts key 1 }
    ensures pair { IsPair store.now seat.new }
    ensures idle { IfSome result (λ r. IsIdle seat.new 0) }
{
    let Ok(Some(found)) = visit(store, seat, 0, key, 1) else {
        return None;
    };
    Some(found.number)
}

/// Whether session 0 finds that a record is left.
fn record_is_left(store: &Store, seat: &mut Seat) -> bool
    requires pair { IsPair store.now seat.old }
    requires idle { IsIdle seat.old 0 }
    ensures pair { IsPair store.now seat.new }
    ensures idle { IsIdle seat.new 0 }
    ensures serves { IsTrue result → (knows seat.new.view 0).placing.counter.is_serving ≡ true }
{
    match look_at_counter(store, seat, 0) {
        Ok(()) => true,
        Err(TableFull) => false,
    }
}

/// Whether session 0 is refused when it draws.
fn draw_is_full(store: &Store, seat: &mut Seat, key: u64) -> bool
    requires pair { IsPair store.now seat.old }
    requires idle { IsIdle seat.old 0 }
    requires serves { (knows seat.old.view 0).placing.counter.is_serving ≡ true }
    ensures pair { IsPair store.now seat.new }
    ensures idle { IsTrue result → IsIdle seat.new 0 }
{
    seat.consider();
    match draw(store, seat, 0, key) {
        Ok(()) => false,
        Err(TableFull) => true,
    }
}

/// What a session does with a key, and the record that it is answered.
#[derive(Clone, Copy)]
enum Step {
    /// Session 0 places it.
    Puts(u64, Option<u32>),
    /// Session 0 finds it.
    Gets(u64, Option<u32>),
    /// Session 1 places it.
    Overtakes(u64, Option<u32>),
}

/// Whether the session is answered as the step says.
fn takes(store: &Store, seat: &mut Seat, step: Step) -> bool
    requires pair { IsPair store.now seat.old }
    requires idle { IsIdle seat.old 0 }
    ensures pair { IsPair store.now seat.new }
    ensures idle { IsIdle seat.new 0 }
{
    match step {
        Step::Puts(key, answer) => put(store, seat, key) == answer,
        Step::Gets(key, answer) => get(store, seat, key) == answer,
        Step::Overtakes(key, answer) => overtake(store, seat, key) == answer,
    }
}

/// Takes steps in order, each of which is answered as it says.
fn play(rt: &impl Abort, store: &Store, seat: &mut Seat, script: &[Step])
    requires pair { IsPair store.now seat.old }
    requires idle { IsIdle seat.old 0 }
{
    for (at, &step) in script.iter().enumerate() {
        assert!(rt; takes(store, seat, step), "at step {at}");
    }
}

const AFTER_THE_SAME_KEY: [Step; 3] = [
    // The record 0, drawn in vain, counts, and its key word finds it for nobody.
    Step::Puts(LAST_TOO, Some(2)),
    Step::Gets(LAST, Some(1)),
    Step::Puts(LAST, Some(1)),
];

#[test]
fn a_claim_is_lost_to_the_same_key(rt: HostRuntime) -> Result<(), Fail> {
    let (store, mut seat) = open_pair(rt.alloc())?;
    let Some(at) = set_out(&store, &mut seat, LAST) else {
        return Err(Fail::from("the table is empty"));
    };
    same(&rt, overtake(&store, &mut seat, LAST), Some(1), "overtaken");
    let Some(number) = arrive(&store, &mut seat, LAST, at) else {
        return Err(Fail::from("the key has a record"));
    };
    same(&rt, number, 1, "arrived");
    play(&rt, &store, &mut seat, &AFTER_THE_SAME_KEY);
    Ok(())
}

const AFTER_ANOTHER_KEY: [Step; 5] = [
    Step::Gets(LAST, Some(0)),
    Step::Gets(LAST_TOO, Some(1)),
    Step::Overtakes(LAST, Some(0)),
    Step::Puts(LAST_TOO, Some(1)),
    Step::Puts(7, Some(2)),
];

#[test]
fn a_claim_is_lost_to_another_key_of_the_run(rt: HostRuntime) -> Result<(), Fail> {
    let (store, mut seat) = open_pair(rt.alloc())?;
    let Some(at) = set_out(&store, &mut seat, LAST) else {
        return Err(Fail::from("the table is empty"));
    };
    same(&rt, at, 511, "set out");
    same(
        &rt,
        overtake(&store, &mut seat, LAST_TOO),
        Some(1),
        "overtaken",
    );
    let None = arrive(&store, &mut seat, LAST, at) else {
        return Err(Fail::from("the position has the other key"));
    };
    // The record in hand comes to the next position, which is the first.
    let Some(number) = arrive_next(&store, &mut seat, LAST) else {
        return Err(Fail::from("the next position is free"));
    };
    same(&rt, number, 0, "arrived");
    play(&rt, &store, &mut seat, &AFTER_ANOTHER_KEY);
    Ok(())
}

const FULL: [Step; 3] = [
    // Now a load finds it full.
    Step::Puts(8, None),
    Step::Puts(7, Some(255)),
    Step::Gets(8, None),
];

#[test]
fn the_last_record_is_drawn_by_another_session(rt: HostRuntime) -> Result<(), Fail> {
    let (store, mut seat) = open_pair(rt.alloc())?;
    same(&rt, puts(&store, &mut seat, 0, 255), true, "placed");
    let true = record_is_left(&store, &mut seat) else {
        return Err(Fail::from("one record is left"));
    };
    same(&rt, overtake(&store, &mut seat, 7), Some(255), "overtaken");
    // The load found the counter below its limit, and the draw finds it full.
    let true = draw_is_full(&store, &mut seat, 8) else {
        return Err(Fail::from("every record is drawn"));
    };
    play(&rt, &store, &mut seat, &FULL);
    Ok(())
}
