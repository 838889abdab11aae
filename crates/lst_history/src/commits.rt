//! The commits, by the log, without their writes.
ghost use Rattle.std.specs.Prelude.{◌≡◌, ◌-◌, ◌<◌, ◌≤◌, [], IfOk};
ghost use Rattle.lst_layout.specs.Addresses as layout;
ghost use Rattle.lst_layout.specs.declared.place.Place.TheVariants.{BeginWord};
ghost use Rattle.lst_core_state.specs.State as state;
ghost use Rattle.lst_history.specs.Peeks.{words_in, IsReader, Reads};
ghost use Rattle.lst_history.specs.Commits.{gathered_until};

use crate::words::{begin_word, log_word};
use lst_bits::{Log, unpack_begin, unpack_log};
use lst_model::{Commit, OutOfMemory, Writes};
use lst_rule::{Seat, Store};
use std::alloc::Global;

/// The commits at the times from 1 to the clock, each without writes. It answers want of memory where the list finds none.
pub(crate) fn commits_until(
    alloc: Global,
    store: &Store,
    seat: &mut Seat,
    s: u32,
    clock: u64,
) -> Result<Vec<Commit>, OutOfMemory>
    requires reader { IsReader store.now seat.old s }
    requires clock { clock ≡ (words_in seat.old.view).clock }
    ensures reads { Reads store.now seat.old seat.new s }
    ensures ok { IfOk result (λ commits. commits.items ≡ gathered_until seat.old.view.limits (words_in seat.old.view) 0) }
{
    let mut commits = Vec::new(alloc);
    for done in 0..clock {
        commits.push(bare_commit(alloc, store, seat, s, done + 1))?;
    }
    Ok(commits)
}

/// The commit at a time, without writes.
fn bare_commit(alloc: Global, store: &Store, seat: &mut Seat, s: u32, time: u64) -> Commit
    requires reader { IsReader store.now seat.old s }
    requires time { (0 < time) × (time ≤ (words_in seat.old.view).clock) }
    ensures reads { Reads store.now seat.old seat.new s }
    ensures commit { result ≡ state.commit_at (words_in seat.old.view).log (words_in seat.old.view).begins (λ _. []) time }
{
    seat.consider();
    let Log::By { session, number } = unpack_log(log_word(store, seat, s, time)) else {
        unreachable!()
    };
    Commit {
        session,
        number,
        begin: begin_of(store, seat, s, session, number),
        writes: Writes::new(alloc),
    }
}

/// The begin of a transaction that has begun.
fn begin_of(store: &Store, seat: &mut Seat, s: u32, session: u32, number: u32) -> u64
    requires reader { IsReader store.now seat.old s }
    requires within { layout.IsWithin seat.old.view.limits (BeginWord session number) }
    ensures reads { Reads store.now seat.old seat.new s }
    ensures begin { result ≡ (words_in seat.old.view).begins session number - 1 }
{
    match unpack_begin(begin_word(store, seat, s, session, number)) {
        Some(begin) => begin,
        None => 0,
    }
}
