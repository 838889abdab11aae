//! A sum by several sessions side by side.
ghost use Rattle.std.specs.Prelude.{◌≡◌, ℕ, List, ◌+◌, ◌-◌, ◌*◌, ◌^◌, ◌<◌, ◌≤◌, ◌↔◌, length, true};
ghost use Rattle.std.specs.List.{All};
ghost use Rattle.std.specs.Thread.{IsSync};
ghost use Rattle.lst_model.specs.declared.commits.Commit.{Commit};
ghost use Rattle.lst_model.specs.Histories.{table_at};
ghost use Rattle.lst_model.specs.Tables.{sum_of};
ghost use Rattle.lst_rule.specs.Rule.{knows};
ghost use Rattle.lst_scan.specs.Scans.{table_seen, Places, between};
ghost use Rattle.lst_session.specs.declared.session.Session.{Session as SessionValue};
ghost use Rattle.lst_session.specs.Crews.{IsCrewOf};
ghost use Rattle.lst_session.specs.Calls.{Begins, Ends, OnlyLooks};
ghost use Rattle.lst_session.specs.Parting.{seen_at};
ghost use Rattle.lst_session.specs.Passes.{IsReady};
ghost use Rattle.lst_work.specs.ParSums.{CanBeginAsOf, HasSeenFirst, HaveSeenAlike, table_of, share_start, IsSumOf, CanShare, HaveShared, HasSummed, HaveSummed, PartedHaveSeenAlike, GatheredHaveSeenAlike, PhasesSeeAlike, PhaseLinesSeeAlike, TellersKnow, HearersKnow, KnowersHaveSeenAlike, SeenAlikeIsKept, HearersHaveGrown, SummersHaveGrown};

use lst_model::Time;
use lst_rule::Store;
use lst_scan::sum_part;
use lst_session::{Crew, Reader, Session, Sessions};
use std::thread::{Threads, join_mut};

/// Begins a transaction as of a time that the session has seen.
fn begin_as_of(store: &Store, session: &mut Session, time: Time)
    requires can { CanBeginAsOf store.now time session.old }
    ensures ready { IsReady store.now session.new }
    ensures session { session.new.number ≡ session.old.number }
    ensures begun { (clock : ℕ) × Begins session.old.seat.view session.new.seat.view session.old.number clock time true }
{
    match session.as_of(store, time) {
        Ok(_) => {}
        Err(_) => unreachable!(),
    }
}

/// Adds up a column over the ranges from `from` up to and without `to`, in the open transaction.
fn sum_ranges(store: &Store, session: &mut Session, column: u32, from: u32, to: u32) -> u128
    requires ready { IsReady store.now session.old }
    requires opened { (knows session.old.seat.view session.old.number).is_open ≡ true }
    requires column { column < store.now.layout.limits.columns }
    requires rises { from ≤ to }
    requires ranges { to ≤ store.now.layout.limits.ranges }
    ensures ready { IsReady store.now session.new }
    ensures session { session.new.number ≡ session.old.number }
    ensures looks { OnlyLooks session.old.seat.view session.new.seat.view session.old.number }
    ensures sum { (place : ℕ → ℕ) → Places (knows session.old.seat.view session.old.number) place → result ≡ sum_of (between place (256 * from) (256 * to) (table_seen (knows session.old.seat.view session.old.number))) column }
    ensures few { result ≤ (to - from) * 2 ^ 73 }
{
    let mut reader = Reader {
        seat: &mut session.seat,
        s: session.number,
    };
    sum_part(store, &mut reader, column, from, to)
}

/// Ends the open transaction.
fn end(store: &Store, session: &mut Session)
    requires ready { IsReady store.now session.old }
    requires opened { (knows session.old.seat.view session.old.number).is_open ≡ true }
    ensures ready { IsReady store.now session.new }
    ensures session { session.new.number ≡ session.old.number }
    ensures ends { Ends session.old.seat.view session.new.seat.view session.old.number }
{
    match session.abort(store) {
        Ok(()) => {}
        Err(_) => unreachable!(),
    }
}

/// Adds up a column over the ranges from `from` up to and without `to`, as of a time.
fn sum_as_of(
    store: &Store,
    session: &mut Session,
    time: Time,
    column: u32,
    from: u32,
    to: u32,
) -> u128
    requires can { CanBeginAsOf store.now time session.old }
    requires column { column < store.now.layout.limits.columns }
    requires rises { from ≤ to }
    requires ranges { to ≤ store.now.layout.limits.ranges }
    ensures sum { (commits : List Commit) (place : ℕ → ℕ) → length commits ≡ time → HasSeenFirst commits place session.old → result ≡ sum_of (between place (256 * from) (256 * to) (table_of commits)) column }
    ensures few { result ≤ (to - from) * 2 ^ 73 }
    ensures summed { HasSummed store.now session.old session.new }
{
    begin_as_of(store, session, time);
    let total = sum_ranges(store, session, column, from, to);
    end(store, session);
    total
}

/// Of so many shares of so many ranges, the first range of the share at a place.
fn share_start(ranges: u32, shares: usize, place: usize) -> u32
    requires some { 0 < shares }
    requires place { place ≤ shares }
    ensures start { result ≡ share_start ranges shares place }
    ensures most { result ≤ ranges }
{
    (place as u128 * u128::from(ranges) / shares as u128) as u32
}

/// The share at a place, by the one session that it falls to.
fn sum_share(
    store: &Store,
    session: &mut Session,
    time: Time,
    column: u32,
    place: usize,
    shares: usize,
) -> u128
    requires can { CanBeginAsOf store.now time session.old }
    requires column { column < store.now.layout.limits.columns }
    requires place { place < shares }
    ensures sum { (commits : List Commit) (place_of : ℕ → ℕ) → length commits ≡ time → HasSeenFirst commits place_of session.old → IsSumOf store.now.layout.limits.ranges shares place (place + 1) column place_of (table_of commits) result }
    ensures few { result ≤ (share_start store.now.layout.limits.ranges shares (place + 1) - share_start store.now.layout.limits.ranges shares place) * 2 ^ 73 }
    ensures summed { HasSummed store.now session.old session.new }
{
    let ranges = store.layout().limits.ranges;
    let from = share_start(ranges, shares, place);
    let to = share_start(ranges, shares, place + 1);
    sum_as_of(store, session, time, column, from, to)
}

/// The shares from a place on, one by each of the sessions, side by side. The last is made here, and each other one gets a thread from here: a thread that
/// is made by another one at the same time may be put where that one runs, and wait there.
#[cycle(shares)]
fn sum_shares<R: Threads + Sync>(
    rt: &R,
    store: &Store,
    sessions: &mut [Session],
    time: Time,
    column: u32,
    first: usize,
    shares: usize,
) -> u128
    requires { CanShare store.now time column first shares sessions.old }
    ensures { HaveShared store.now time column first shares sessions.old sessions.new result }
{
    if sessions.len() == 1 {
        return sum_share(store, &mut sessions[0], time, column, first, shares);
    }
    let (low, high) = sessions.split_at_mut(1);
    let middle = first + low.len();
    let (below, above) = sum_both(rt, store, low, high, time, column, first, middle, shares);
    below + above
}

/// The shares of the sessions of two lists, side by side: those of the second from the place `middle` on.
#[cycle(shares)]
fn sum_both<R: Threads + Sync>(
    rt: &R,
    store: &Store,
    low: &mut [Session],
    high: &mut [Session],
    time: Time,
    column: u32,
    first: usize,
    middle: usize,
    shares: usize,
) -> (u128, u128)
    requires low { CanShare store.now time column first shares low.old }
    requires high { CanShare store.now time column middle shares high.old }
    ensures low { HaveShared store.now time column first shares low.old low.new result.0 }
    ensures high { HaveShared store.now time column middle shares high.old high.new result.1 }
{
    let mut left = || -> u128
        requires { IsSync R.row × CanShare store.now time column first shares low.now }
        ensures { HaveShared store.entry.now time column first shares low.entry.now low.exit.now result }
    { sum_shares(rt, store, low, time, column, first, shares) };
    let mut right = || -> u128
        requires { IsSync R.row × CanShare store.now time column middle shares high.now }
        ensures { HaveShared store.entry.now time column middle shares high.entry.now high.exit.now result }
    { sum_shares(rt, store, high, time, column, middle, shares) };
    join_mut(rt, &mut left, &mut right)
}

/// Adds up a column over the table as of a time, by these sessions side by side, each in a thread of its own where one can be made: of n sessions the
/// one at the place i takes the ranges from i*R/n up to and without (i+1)*R/n, where R is the number of ranges. Each begins a read-only transaction as
/// of the time, and ends it. The answer is that of one session's `sum` as of the time: numbers are added with 0 for null, and the sum never wraps.
///
/// None of the sessions has a transaction open, and each may begin one more (`all_can_begin` tells). They have seen the commits up to the time, the same ones,
/// and know of the same records of their keys; `sessions_see_alike` says of which sessions that is so. Nothing here waits, and no memory is taken but for the threads.
pub fn par_sum<R: Threads + Sync>(
    rt: &R,
    store: &Store,
    sessions: &mut Sessions,
    time: Time,
    column: u32,
) -> u128
    requires some { 0 < length sessions.old }
    requires can { All (CanBeginAsOf store.now time) sessions.old }
    requires alike { HaveSeenAlike time sessions.old }
    requires column { column < store.now.layout.limits.columns }
    ensures sum { (i : ℕ) (none : SessionValue) → i < length sessions.old → result ≡ sum_of (table_at (seen_at sessions.old i none) time) column }
    ensures sessions { HaveSummed store.now sessions.old sessions.new }
{
    sum_all(rt, store, sessions.as_mut_slice(), time, column)
}

/// The same by the sessions of a slice.
fn sum_all<R: Threads + Sync>(
    rt: &R,
    store: &Store,
    sessions: &mut [Session],
    time: Time,
    column: u32,
) -> u128
    requires some { 0 < length sessions.old }
    requires can { All (CanBeginAsOf store.now time) sessions.old }
    requires alike { HaveSeenAlike time sessions.old }
    requires column { column < store.now.layout.limits.columns }
    ensures sum { (i : ℕ) (none : SessionValue) → i < length sessions.old → result ≡ sum_of (table_at (seen_at sessions.old i none) time) column }
    ensures sessions { HaveSummed store.now sessions.old sessions.new }
{
    sessions[0].seat.consider();
    let shares = sessions.len();
    sum_shares(rt, store, sessions, time, column, 0, shares)
}

/// Whether each session of a crew has seen the commits up to a time. If so, those that the crew is parted into have seen alike up to it, as
/// `sessions_see_alike` says.
pub fn all_have_seen(store: &Store, crew: &Crew, time: Time) -> bool
    requires { IsCrewOf store.now crew.now }
    ensures { (result ≡ true) ↔ ((s : ℕ) → s < crew.now.seat.view.limits.sessions → time ≤ length (knows crew.now.seat.view s).seen) }
{
    for s in 0..crew.seat.limits().sessions {
        if crew.seat.seen(s) < time {
            return false;
        }
    }
    true
}

/// Whether each of the sessions may begin a transaction as of a time, as `par_sum` asks: none has one open, each may begin one more, and has seen the
/// commits up to the time.
pub fn all_can_begin(store: &Store, sessions: &[Session], time: Time) -> bool
    requires { All (IsReady store.now) sessions.now }
    ensures { (result ≡ true) ↔ All (CanBeginAsOf store.now time) sessions.now }
{
    for i in 0..sessions.len() {
        let session = &sessions[i];
        if !session.is_idle() || session.is_spent() || session.seen() < time {
            return false;
        }
    }
    true
}

/// The sessions of a crew that is parted have seen alike up to each time that all of them had seen then; where the crew was gathered before, up to each time
/// of its history. So have those that `next_phase` let hear of each other, or a `phase` line, up to each time that one of them had seen before, each at a seat of
/// its own. So have the one that tells a note and those that hear it, up to each time that the note tells. It stays so where what each has seen and its
/// facts only grow; where the sessions hear of each other, as in `next_phase`, and where they add up a column, they only grow. A law: its contract holds
/// at all values, and its body does nothing.
pub fn sessions_see_alike()
    ensures parted { PartedHaveSeenAlike }
    ensures gathered { GatheredHaveSeenAlike }
    ensures phase { PhasesSeeAlike }
    ensures line { PhaseLinesSeeAlike }
    ensures teller { TellersKnow }
    ensures hearer { HearersKnow }
    ensures told { KnowersHaveSeenAlike }
    ensures kept { SeenAlikeIsKept }
    ensures heard { HearersHaveGrown }
    ensures summed { SummersHaveGrown }
{}
