//! One atomic step of a seat, by its operation. Each is part of its caller, which knows the kind of step: so what a step stores, and which
//! numbers it changes, is looked up by nobody at run time.
ghost use Rattle.std.specs.Prelude.{◌≡◌, ◌<◌, ◌^◌, true};
ghost use Rattle.lst_core_state.specs.Step.{session_of, IsWithin, Enabled};
ghost use Rattle.lst_core_state.specs.Numbers.{place_for, written_of};
ghost use Rattle.lst_rule.specs.Rule.{knows, hosts};
ghost use Rattle.lst_rule.specs.Learned.{CanStand, Times, Made, Met};
ghost use Rattle.lst_rule.specs.Operations.{IsStore, IsExchange, IsDraw, IsLatch};
ghost use Rattle.lst_rule.specs.Seats.{told};
ghost use Rattle.lst_rule.specs.Stores.{IsSeatOf};

use crate::actions::Action;
use crate::seat::Seat;
use crate::store::Store;
use crate::{add_one, compare_exchange, set_lowest_bit, store_word};
use lst_core_state::{Event, advance, target, written};

/// A step that stores a word. A stamp stores the time.
#[inline(always)]
pub(crate) fn store_event(store: &Store, seat: &mut Seat, s: u32, event: Event, time: u64)
    requires seat { IsSeatOf store.now seat.old }
    requires host { hosts seat.old.view s ≡ true }
    requires own { s < seat.old.view.limits.sessions }
    requires session { session_of event ≡ s }
    requires kind { IsStore event }
    requires within { IsWithin seat.old.view.limits event }
    requires enabled { Enabled seat.old.view.limits (knows seat.old.view s) event }
    requires stands { CanStand seat.old.view event }
    requires time { time < 2 ^ 32 }
    requires times { Times seat.old.view event time }
    ensures seat { IsSeatOf store.now seat.new }
    ensures made { Made seat.old.view seat.new.view event (place_for seat.old.view.limits (told seat.old.view s) event) (written_of seat.old.view.limits (told seat.old.view s) time event 0) }
{
    let now = seat.numbers(s, event);
    let word = target(&store.layout, now, event) as usize;
    let new = written(&store.layout.limits, now, time, event, 0);
    store_word(
        &store.table.shared,
        &mut seat.place,
        Action::Core(event),
        word,
        new,
    );
    advance(&store.layout, &mut seat.numbers[s as usize], event, 0);
}

/// A step that exchanges 0 for another number, and answers what it found.
#[inline(always)]
pub(crate) fn exchange_event(store: &Store, seat: &mut Seat, s: u32, event: Event) -> u64
    requires seat { IsSeatOf store.now seat.old }
    requires host { hosts seat.old.view s ≡ true }
    requires own { s < seat.old.view.limits.sessions }
    requires session { session_of event ≡ s }
    requires kind { IsExchange event }
    requires within { IsWithin seat.old.view.limits event }
    requires enabled { Enabled seat.old.view.limits (knows seat.old.view s) event }
    requires stands { CanStand seat.old.view event }
    ensures seat { IsSeatOf store.now seat.new }
    ensures met { Met seat.old.view seat.new.view event (place_for seat.old.view.limits (told seat.old.view s) event) (written_of seat.old.view.limits (told seat.old.view s) 0 event result) result }
{
    let now = seat.numbers(s, event);
    let word = target(&store.layout, now, event) as usize;
    let new = written(&store.layout.limits, now, 0, event, 0);
    let found = compare_exchange(
        &store.table.shared,
        &mut seat.place,
        Action::Core(event),
        word,
        0,
        new,
    );
    advance(&store.layout, &mut seat.numbers[s as usize], event, found);
    found
}

/// A step that adds 1, and answers what it found.
#[inline(always)]
pub(crate) fn draw_event(store: &Store, seat: &mut Seat, s: u32, event: Event) -> u64
    requires seat { IsSeatOf store.now seat.old }
    requires host { hosts seat.old.view s ≡ true }
    requires own { s < seat.old.view.limits.sessions }
    requires session { session_of event ≡ s }
    requires kind { IsDraw event }
    requires within { IsWithin seat.old.view.limits event }
    requires enabled { Enabled seat.old.view.limits (knows seat.old.view s) event }
    requires stands { CanStand seat.old.view event }
    ensures seat { IsSeatOf store.now seat.new }
    ensures met { Met seat.old.view seat.new.view event (place_for seat.old.view.limits (told seat.old.view s) event) (written_of seat.old.view.limits (told seat.old.view s) 0 event result) result }
{
    let now = seat.numbers(s, event);
    let word = target(&store.layout, now, event) as usize;
    let found = add_one(
        &store.table.shared,
        &mut seat.place,
        Action::Core(event),
        word,
    );
    advance(&store.layout, &mut seat.numbers[s as usize], event, found);
    found
}

/// A step that sets the lowest bit, and answers what it found.
#[inline(always)]
pub(crate) fn latch_event(store: &Store, seat: &mut Seat, s: u32, event: Event) -> u64
    requires seat { IsSeatOf store.now seat.old }
    requires host { hosts seat.old.view s ≡ true }
    requires own { s < seat.old.view.limits.sessions }
    requires session { session_of event ≡ s }
    requires kind { IsLatch event }
    requires within { IsWithin seat.old.view.limits event }
    requires enabled { Enabled seat.old.view.limits (knows seat.old.view s) event }
    requires stands { CanStand seat.old.view event }
    ensures seat { IsSeatOf store.now seat.new }
    ensures met { Met seat.old.view seat.new.view event (place_for seat.old.view.limits (told seat.old.view s) event) (written_of seat.old.view.limits (told seat.old.view s) 0 event result) result }
{
    let now = seat.numbers(s, event);
    let word = target(&store.layout, now, event) as usize;
    let found = set_lowest_bit(
        &store.table.shared,
        &mut seat.place,
        Action::Core(event),
        word,
    );
    advance(&store.layout, &mut seat.numbers[s as usize], event, found);
    found
}
