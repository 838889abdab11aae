//! The core run on one worked transaction.

use lst_core::{Core, Event};
use lst_layout::{Layout, Limits};
use lst_probe::start;
use std::process::Abort;
use std::test::Fail;

const SMALL: Limits = Limits {
    columns: 2,
    ranges: 1,
    tails: 2,
    sessions: 2,
    txns: 3,
    spare: 1,
    indexed: 0,
};

const KEY: u64 = 7;

/// A step whose fields are within the limits: the word found, or None where it may not be made.
fn step(core: &mut Core, event: Event) -> Option<u64> {
    if core.is_within(event) {
        core.step(event).ok()
    } else {
        None
    }
}

/// The first of these steps that answers otherwise than is said of it.
fn first_wrong(core: &mut Core, steps: &[(Event, Option<u64>)]) -> Option<usize> {
    for (i, (event, wanted)) in steps.iter().enumerate() {
        if step(core, *event) != *wanted {
            return Some(i);
        }
    }
    None
}

/// Whether each of these steps answers as is said of it.
fn is_answered(rt: &impl Abort, core: &mut Core, steps: &[(Event, Option<u64>)], what: &str) {
    assert_eq!(rt; first_wrong(core, steps), None, "{what}");
}

fn layout_of(limits: Limits) -> Result<Layout, Fail> {
    match limits.check() {
        Ok(layout) => Ok(layout),
        Err(_) => Err(Fail::from("the small limits are in range")),
    }
}

fn look(session: u32, address: u64) -> Event {
    Event::Look { session, address }
}

fn store(place: u32, value: u64) -> Event {
    Event::StoreCell {
        session: 0,
        place,
        value,
    }
}

fn claim(position: u32) -> Event {
    Event::Claim {
        session: 0,
        position,
    }
}

const BEGIN: Event = Event::Begin {
    session: 0,
    begin: 0,
    read_only: false,
};

const STORE_KEY: Event = Event::StoreKey {
    session: 0,
    key: KEY,
};

const LATCH: Event = Event::Latch { session: 0, rec: 0 };

const DRAW_TAIL: Event = Event::DrawTail {
    session: 0,
    range: 0,
};

const STAMP: Event = Event::Stamp {
    session: 1,
    range: 0,
    number: 1,
};

/// The steps of a first insert: a record is drawn and placed, and latched once it is in the index.
fn placing(layout: &Layout) -> [(Event, Option<u64>); 9] {
    let position = start(KEY, 9);
    [
        // No load has served a draw yet.
        (Event::DrawRecord { session: 0 }, None),
        (look(0, layout.record_counter()), Some(0)),
        (Event::DrawRecord { session: 0 }, Some(0)),
        (STORE_KEY, Some(0)),
        (BEGIN, Some(0)),
        (LATCH, None),
        (claim(position ^ 1), None),
        (claim(position), Some(0)),
        (LATCH, Some(0)),
    ]
}

/// Its tail: a put of both columns at slot 0, whose start word comes last.
fn drafting(layout: &Layout) -> [(Event, Option<u64>); 8] {
    [
        (look(0, layout.tail_counters(0)), Some(0)),
        (DRAW_TAIL, Some(0)),
        (store(0, 33), None),
        (store(1, 3 + 256), Some(0)),
        (store(2, 0), Some(0)),
        (store(3, VALUE), Some(0)),
        (store(4, 20), Some(0)),
        (Event::Install { session: 0 }, None),
    ]
}

const WHOLE: [(Event, Option<u64>); 2] = [
    (
        Event::StoreCell {
            session: 0,
            place: 0,
            value: 33,
        },
        Some(0),
    ),
    (Event::Install { session: 0 }, Some(1)),
];

/// Its commit at time 1, after which another session stamps the tail.
fn committing(layout: &Layout) -> [(Event, Option<u64>); 10] {
    [
        (Event::Take { session: 0 }, Some(0)),
        (Event::Log { session: 0 }, None),
        (look(0, layout.clock()), Some(0)),
        (Event::Log { session: 0 }, Some(0)),
        (Event::State { session: 0 }, Some(0)),
        (STAMP, None),
        (Event::Clock { session: 0 }, Some(0)),
        (Event::Give { session: 0 }, Some(1)),
        (STAMP, Some(33)),
        (look(2, layout.clock()), Some(1)),
    ]
}

fn post(column: u32, position: u32) -> Event {
    Event::Post {
        session: 0,
        column,
        position,
    }
}

/// The number of column 0 in the tails of the first record.
const VALUE: u64 = 10;

/// A put whose number in column 0, which is indexed, is posted before the install.
fn posting() -> [(Event, Option<u64>); 7] {
    let first = start(VALUE, 2);
    [
        (store(0, 33), Some(0)),
        (Event::Install { session: 0 }, None),
        // An empty position isn't passed, and column 1 isn't indexed.
        (post(0, first ^ 1), None),
        (post(1, first), None),
        (post(0, first), Some(0)),
        (post(0, first), None),
        (Event::Install { session: 0 }, Some(1)),
    ]
}

/// A set of the same record's column 0 to the same number, which is posted already.
fn setting(layout: &Layout) -> [(Event, Option<u64>); 11] {
    let first = start(VALUE, 2);
    [
        (LATCH, Some(2)),
        (look(0, layout.tail_counters(0)), Some(1)),
        (DRAW_TAIL, Some(1)),
        (store(1, 1 + 512), Some(0)),
        (store(2, 1), Some(0)),
        (store(3, VALUE), Some(0)),
        (store(4, 0), Some(0)),
        (store(0, 33), Some(0)),
        (post(0, first ^ 1), None),
        (post(0, first), None),
        (Event::Install { session: 0 }, Some(3)),
    ]
}

#[test]
fn tails_of_a_record_with_one_number_have_one_posting(rt: HostRuntime) -> Result<(), Fail> {
    let limits = Limits {
        indexed: 1,
        ..SMALL
    };
    let layout = layout_of(limits)?;
    let mut core = Core::new(rt.alloc(), &layout)?;
    is_answered(&rt, &mut core, &placing(&layout), "placing");
    is_answered(&rt, &mut core, &drafting(&layout), "drafting");
    is_answered(&rt, &mut core, &posting(), "posting");
    is_answered(&rt, &mut core, &setting(&layout), "setting");
    Ok(())
}

#[test]
fn a_session_begins_once(rt: HostRuntime) -> Result<(), Fail> {
    let layout = layout_of(SMALL)?;
    let mut core = Core::new(rt.alloc(), &layout)?;
    let steps = [(BEGIN, Some(0)), (BEGIN, None)];
    is_answered(&rt, &mut core, &steps, "begins");
    Ok(())
}

#[test]
fn a_put_is_committed_in_single_steps(rt: HostRuntime) -> Result<(), Fail> {
    let layout = layout_of(SMALL)?;
    let mut core = Core::new(rt.alloc(), &layout)?;
    is_answered(&rt, &mut core, &placing(&layout), "placing");
    is_answered(&rt, &mut core, &drafting(&layout), "drafting");
    is_answered(&rt, &mut core, &WHOLE, "whole");
    is_answered(&rt, &mut core, &committing(&layout), "committing");
    Ok(())
}
