//! Seats are gathered into one.
ghost use Rattle.std.specs.Prelude.{◌≡◌, ◌+◌, ◌<◌, ◌≤◌, length, true, false, IfOk, IfErr, MatchOption, All};
ghost use Rattle.lst_rule.specs.Rule.{knows, hosts};
ghost use Rattle.lst_rule.specs.Stores.{IsSeatOf};
ghost use Rattle.lst_rule.specs.Surveys.{HostsAll};
ghost use Rattle.lst_seat.specs.Seats.{hosted_by, IsGap, AreAllHosted, Gathers, Unites, SeesAll};
ghost use Rattle.lst_seat.specs.declared.lists.SeatCause.TheVariants.{Gap, OutOfMemory};

use crate::lists::{SeatCause, SeatList, SeatRefusal};
use lst_rule::{Seat, Store, join_seat, load_clock, survey};

/// Whether one of the seats hosts a session, or the merger's does.
fn is_hosted(seats: &[Seat], merger: &Seat, s: u32) -> bool
    requires low { s ≤ merger.now.view.limits.sessions }
    requires limits { All (λ seat. seat.view.limits ≡ merger.now.view.limits) seats.now }
    ensures { result ≡ hosted_by seats.now merger.now.view s }
{
    for seat in seats {
        if seat.hosts(s) {
            return true;
        }
    }
    merger.hosts(s)
}

/// The least session that none of the seats hosts.
fn first_missing(seats: &[Seat], merger: &Seat) -> Option<u32>
    requires limits { All (λ seat. seat.view.limits ≡ merger.now.view.limits) seats.now }
    ensures { MatchOption result (AreAllHosted seats.now merger.now.view) (λ s. IsGap seats.now merger.now.view s) }
{
    let sessions = merger.limits().sessions;
    let mut s = 0;
    while s < sessions {
        if !is_hosted(seats, merger, s) {
            return Some(s);
        }
        s += 1;
    }
    None
}

/// Joins all seats to the merger's.
fn join_all(store: &Store, merger: &mut Seat, seats: SeatList)
    requires seats { All (IsSeatOf store.now) seats }
    requires seat { IsSeatOf store.now merger.old }
    requires merger { hosts merger.old.view merger.old.view.limits.sessions ≡ true }
    ensures seat { IsSeatOf store.now merger.new }
    ensures united { Unites seats merger.old.view merger.new.view }
{
    let mut items = seats.into_vec();
    while let Some(other) = items.pop() {
        join_seat(store, merger, other);
    }
}

/// Lets each session see the whole history, by one load of the clock each.
fn see_all(store: &Store, seat: &mut Seat)
    requires seat { IsSeatOf store.now seat.old }
    requires all { HostsAll seat.old.view }
    requires whole { seat.old.view.whole ≡ true }
    ensures seat { IsSeatOf store.now seat.new }
    ensures sees { SeesAll seat.old.view seat.new.view seat.old.view.limits.sessions }
{
    let sessions = seat.limits().sessions;
    let mut s = 0;
    while s < sessions {
        load_clock(store, seat, s);
        s += 1;
    }
}

/// Gathers seats, in any order, into one that hosts every session and the merger, and knows each word of the store. Each session has then seen
/// the whole history. Where a session is hosted by none of the seats the answer is `Gap`, with the least such session; then all seats
/// are handed back as they were. It takes no memory, since the merger's seat has room for all.
pub fn gather(store: &Store, seats: SeatList, merger: Seat) -> Result<Seat, SeatRefusal>
    requires seats { All (IsSeatOf store.now) seats }
    requires seat { IsSeatOf store.now merger }
    requires merger { hosts merger.view merger.view.limits.sessions ≡ true }
    ensures seat { IfOk result (λ seat. IsSeatOf store.now seat) }
    ensures gathers { IfOk result (λ seat. Gathers seats merger.view seat.view) }
    ensures all { IfOk result (λ _. AreAllHosted seats merger.view) }
    ensures untouched { IfErr result (λ refusal. (refusal.seats ≡ seats) × (refusal.merger ≡ merger)) }
    ensures gap { IfErr result (λ refusal. (s : _) × (refusal.cause ≡ Gap s) × IsGap seats merger.view s) }
{
    if let Some(missing) = first_missing(seats.items.as_slice(), &merger) {
        return Err(SeatRefusal {
            seats,
            merger,
            cause: SeatCause::Gap { missing },
        });
    }
    let mut seat = merger;
    join_all(store, &mut seat, seats);
    survey(store, &mut seat);
    see_all(store, &mut seat);
    Ok(seat)
}
