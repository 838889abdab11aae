//! Keys and their records, as a session places and finds them.
ghost use Rattle.std.specs.Prelude.{◌<◌};
ghost use Rattle.lst_test_steps.specs.Idle.{IsPair};

use crate::read_tests::{SMALL, open_with};
use lst_index::{find, place};
use lst_model::Key;
use lst_rule::{Seat, Store};
use std::process::Abort;
use std::test::Fail;

/// The record that `place` answers session 0, if the table isn't full.
fn put(store: &Store, seat: &mut Seat, key: Key) -> Option<u32>
    requires pair { IsPair store.now seat.old }
    ensures { IsPair store.now seat.new }
{
    match place(store, seat, 0, key) {
        Ok(found) => Some(found.number),
        Err(_) => None,
    }
}

/// The record that `find` answers session 0.
fn get(store: &Store, seat: &mut Seat, key: Key) -> Option<u32>
    requires pair { IsPair store.now seat.old }
    ensures { IsPair store.now seat.new }
{
    match find(store, seat, 0, key) {
        Some(found) => Some(found.number),
        None => None,
    }
}

/// Whether session 0 places the keys from 1,000 on, as many, at the records from `first` on, one after the other.
pub(crate) fn puts(store: &Store, seat: &mut Seat, first: u32, count: u32) -> bool
    requires pair { IsPair store.now seat.old }
    requires first { first < 512 }
    requires count { count < 512 }
    ensures { IsPair store.now seat.new }
{
    let mut done = 0;
    while done < count {
        if put(store, seat, 1000 + done as u64) != Some(first + done) {
            return false;
        }
        done += 1;
    }
    true
}

/// What session 0 does with a key, and the record that it is answered.
#[derive(Clone, Copy)]
enum Step {
    Puts(Key, Option<u32>),
    Gets(Key, Option<u32>),
}

/// Takes steps in order, each of which is answered as it says.
fn play(rt: &impl Abort, store: &Store, seat: &mut Seat, script: &[Step])
    requires pair { IsPair store.now seat.old }
    ensures { IsPair store.now seat.new }
{
    for (at, &step) in script.iter().enumerate() {
        let is_so = match step {
            Step::Puts(key, answer) => put(store, seat, key) == answer,
            Step::Gets(key, answer) => get(store, seat, key) == answer,
        };
        assert!(rt; is_so, "at step {at}");
    }
}

const FIRST_KEY: [Step; 3] = [
    Step::Gets(7, None),
    Step::Puts(7, Some(0)),
    Step::Puts(7, Some(0)),
];

const FULL: [Step; 4] = [
    Step::Puts(8, None),
    Step::Puts(7, Some(0)),
    Step::Gets(1254, Some(255)),
    Step::Gets(8, None),
];

#[test]
fn keys_come_to_their_records_until_the_table_is_full(rt: HostRuntime) -> Result<(), Fail> {
    let (store, mut seat) = open_with(rt.alloc(), SMALL)?;
    play(&rt, &store, &mut seat, &FIRST_KEY);
    assert!(rt; puts(&store, &mut seat, 1, 255));
    play(&rt, &store, &mut seat, &FULL);
    Ok(())
}
