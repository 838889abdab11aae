//! How a version of a record stands to a transaction that is to write above it.
ghost use Rattle.std.specs.Prelude.{◌≡◌, ◌+◌, ◌*◌, ◌<◌, ◌≤◌, length, true};
ghost use Rattle.lst_rule.specs.Rule.{knows, hosts};
ghost use Rattle.lst_rule.specs.Stores.{IsSeatOf};
ghost use Rattle.lst_rule.specs.Watching.{Watched};
ghost use Rattle.lst_write.specs.Standings.{IsStamp, IsVersion, StandsAt, Stands, SettledAs, standing_at};

use lst_model::Time;
use lst_rule::{Resolution, Seat, Store, load_clock, resolve, step_stamp};

/// How a version stands to a transaction.
#[derive(Clone, Copy, PartialEq, Eq, Debug)]
pub(crate) enum Standing {
    /// The transaction sees it.
    Seen,
    /// Its own transaction is closed.
    Closed,
    /// It was committed at this time, above the transaction's begin.
    Newer { time: Time },
    /// Its own transaction, the one with this number of this other session, is neither closed nor committed by the clock.
    Unfinished { session: u32, number: u32 },
}

/// Loads the clock where a time is above what the session has seen, so that a stamp's time is seen.
fn look_until(store: &Store, seat: &mut Seat, s: u32, time: Time)
    requires seat { IsSeatOf store.now seat.old }
    requires host { hosts seat.old.view s ≡ true }
    requires stamp { IsStamp (knows seat.old.view s) time }
    ensures seat { IsSeatOf store.now seat.new }
    ensures watched { Watched seat.old.view seat.new.view s }
    ensures seen { time ≤ length (knows seat.new.view s).seen }
{
    if time > seat.seen(s) {
        let _ = load_clock(store, seat, s);
    }
}

/// How a version stands that was committed at a time which the session has seen.
fn committed_standing(seat: &Seat, s: u32, time: Time) -> Standing
    requires host { hosts seat.now.view s ≡ true }
    requires on { (knows seat.now.view s).is_open ≡ true }
    ensures { result ≡ standing_at (knows seat.now.view s).begin time }
{
    if time <= seat.begin(s) {
        Standing::Seen
    } else {
        Standing::Newer { time }
    }
}

/// How a version stands that is stamped with a time.
fn stamped_standing(store: &Store, seat: &mut Seat, s: u32, time: Time) -> Standing
    requires seat { IsSeatOf store.now seat.old }
    requires host { hosts seat.old.view s ≡ true }
    requires on { (knows seat.old.view s).is_open ≡ true }
    requires stamp { IsStamp (knows seat.old.view s) time }
    ensures seat { IsSeatOf store.now seat.new }
    ensures watched { Watched seat.old.view seat.new.view s }
    ensures stands { StandsAt seat.old.view seat.new.view s time result }
{
    look_until(store, seat, s, time);
    seat.consider();
    committed_standing(seat, s, time)
}

/// How a version stands, which is named by its tail record's identifier and by that one's number in its range. Where its transaction is found committed
/// and its start word has no time yet, the time is stored there.
pub(crate) fn standing_of(
    store: &Store,
    seat: &mut Seat,
    s: u32,
    range: u32,
    number: u32,
    tail: u32,
) -> Standing
    requires seat { IsSeatOf store.now seat.old }
    requires host { hosts seat.old.view s ≡ true }
    requires own { s < seat.old.view.limits.sessions }
    requires on { (knows seat.old.view s).is_open ≡ true }
    requires range { range < seat.old.view.limits.ranges }
    requires number { (0 < number) × (number ≤ seat.old.view.limits.tails) }
    requires tail { tail ≡ range * seat.old.view.limits.tails + number }
    requires version { IsVersion seat.old.view.limits (knows seat.old.view s) tail }
    ensures seat { IsSeatOf store.now seat.new }
    ensures watched { Watched seat.old.view seat.new.view s }
    ensures stands { Stands seat.old.view seat.new.view s tail result }
    ensures settled { SettledAs seat.new.view s tail result }
{
    let found = resolve(store, seat, s, tail);
    seat.consider();
    match found {
        Resolution::Empty => unreachable!(),
        Resolution::Stamped { time } => stamped_standing(store, seat, s, time),
        Resolution::Own => Standing::Seen,
        Resolution::Closed => Standing::Closed,
        Resolution::Committed { time } => {
            step_stamp(store, seat, s, range, number, time);
            seat.consider();
            committed_standing(seat, s, time)
        }
        Resolution::Unfinished { session, number } => Standing::Unfinished { session, number },
    }
}
