//! The status of a version.
ghost use Rattle.std.specs.Prelude.{◌≡◌, ◌+◌, ◌<◌, ◌/◌, ◌%◌, true};
ghost use Rattle.lst_bits.specs.Starts.{start_of};
ghost use Rattle.lst_layout.specs.Addresses as layout;
ghost use Rattle.lst_layout.specs.declared.place.Place.TheVariants.{StateWord};
ghost use Rattle.lst_rule.specs.Rule.{hosts};
ghost use Rattle.lst_rule.specs.Stores.{IsSeatOf};
ghost use Rattle.lst_rule.specs.Statuses.{IsNamed, SaysCommitted, Answers, StatusOf, Asked};

use crate::loads::{load_clock, load_state};
use crate::seat::Seat;
use crate::store::Store;
use lst_bits::{Start, State, unpack_start, unpack_state};

/// The status of a version.
#[derive(Clone, Copy, PartialEq, Eq, Debug)]
pub enum Status {
    /// It isn't stored.
    Empty,
    /// Its transaction, the one with this number of this session, is neither closed nor committed by the clock.
    Unfinished { session: u32, number: u32 },
    /// Its transaction is closed.
    Closed,
    /// Its transaction is committed at this time, which the session has seen, or the version is stamped with it.
    Committed { time: u64 },
}

/// The status of a transaction whose state word was found committed at a time.
#[inline(always)]
fn commit_status(
    store: &Store,
    seat: &mut Seat,
    s: u32,
    session: u32,
    number: u32,
    time: u64,
) -> Status
    requires seat { IsSeatOf store.now seat.old }
    requires host { hosts seat.old.view s ≡ true }
    ensures seat { IsSeatOf store.now seat.new }
    ensures says { SaysCommitted seat.old.view seat.new.view s session number time result }
    ensures asked { Asked seat.old.view seat.new.view s }
{
    if time <= seat.seen(s) {
        return Status::Committed { time };
    }
    let clock = load_clock(store, seat, s);
    if time <= clock {
        Status::Committed { time }
    } else {
        Status::Unfinished { session, number }
    }
}

/// The status of a transaction, by its state word: of the one with this number, from 1 on, of this session, as the start words of its
/// versions name it. A commit at a time above what the session `s` has seen (the number of the sessions for the merger) is judged by a
/// clock loaded then: the transaction is unfinished where its time is above that too. The answer is never `Empty`.
#[inline(always)]
pub fn transaction_status(
    store: &Store,
    seat: &mut Seat,
    s: u32,
    session: u32,
    number: u32,
) -> Status
    requires seat { IsSeatOf store.now seat.old }
    requires host { hosts seat.old.view s ≡ true }
    requires place { layout.IsWithin seat.old.view.limits (StateWord session number) }
    ensures seat { IsSeatOf store.now seat.new }
    ensures hosted { seat.new.view.hosts ≡ seat.old.view.hosts }
    ensures status { Answers seat.old.view seat.new.view s session number result }
    ensures asked { Asked seat.old.view seat.new.view s }
{
    match unpack_state(load_state(store, seat, s, session, number)) {
        State::Active => Status::Unfinished { session, number },
        State::Closed => Status::Closed,
        State::Committed { time } => commit_status(store, seat, s, session, number, time),
    }
}

/// The status of the version that has a start word: empty, stamped with a commit time, or that of the transaction that the word names
/// (`transaction_status`).
#[inline(always)]
pub fn status_of(store: &Store, seat: &mut Seat, s: u32, start: u64) -> Status
    requires seat { IsSeatOf store.now seat.old }
    requires host { hosts seat.old.view s ≡ true }
    requires named { IsNamed seat.old.view.limits start }
    ensures seat { IsSeatOf store.now seat.new }
    ensures hosted { seat.new.view.hosts ≡ seat.old.view.hosts }
    ensures status { StatusOf (start_of start) seat.old.view seat.new.view s result }
    ensures asked { Asked seat.old.view seat.new.view s }
{
    seat.consider();
    match unpack_start(start) {
        Start::Empty => Status::Empty,
        Start::At { time } => Status::Committed { time },
        Start::By { session, number } => transaction_status(store, seat, s, session, number),
    }
}
