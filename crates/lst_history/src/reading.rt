//! The history.
ghost use Rattle.std.specs.Prelude.{◌≡◌, ◌+◌, ◌*◌, ◌<◌, IfOk, OnOk};
ghost use Rattle.lst_core_state.specs.Cells.{tail_count};
ghost use Rattle.lst_core_state.specs.State.{history_of, rank};
ghost use Rattle.lst_rule.specs.Rule.{knows};
ghost use Rattle.lst_rule.specs.Stores.{IsSeatOf};
ghost use Rattle.lst_rule.specs.Surveys.{HostsAll};
ghost use Rattle.lst_history.specs.Peeks.{words_in, IsReader, Reads, Recounts};
ghost use Rattle.lst_history.specs.Commits.{gathered_until};

use crate::commits::commits_until;
use crate::joins::enter;
use crate::sorting::sort_all;
use crate::tails::{commit_time, tail_write};
use crate::words::{clock, drawn_tails};
use lst_model::{Commit, History, OutOfMemory};
use lst_rule::{Seat, Store, survey, tail_of};
use std::alloc::Global;

/// The history of the store, as its log and its tail records have it: each commit at its time, with its writes by key. The seat hosts every
/// session and the merger. It first takes stock of all words, and the history is that of the words that it found; where it knew each word
/// before, it found those. Nothing is stored, and the session `s` has then seen the whole history. The session may have neither a record nor
/// the turn in hand. It answers want of memory where the list finds none.
pub fn history(
    alloc: Global,
    store: &Store,
    seat: &mut Seat,
    s: u32,
) -> Result<History, OutOfMemory>
    requires seat { IsSeatOf store.now seat.old }
    requires all { HostsAll seat.old.view }
    requires own { s < seat.old.view.limits.sessions }
    requires rec { (knows seat.old.view s).placing.hand ≡ 0 }
    requires turn { rank (knows seat.old.view s).turn ≡ 0 }
    ensures seat { IsSeatOf store.now seat.new }
    ensures ok { IfOk result (λ all. all ≡ history_of seat.new.view.limits (words_in seat.new.view)) }
    ensures looks { Recounts seat.old.view seat.new.view s }
    ensures seen { IfOk result (λ all. (knows seat.new.view s).seen ≡ history_of seat.new.view.limits (words_in seat.new.view)) }
{
    survey(store, seat);
    let all = recount(alloc, store, seat, s);
    seat.consider();
    all
}

/// The history of the words that the seat knows.
fn recount(alloc: Global, store: &Store, seat: &mut Seat, s: u32) -> Result<History, OutOfMemory>
    requires reader { IsReader store.now seat.old s }
    ensures reads { Reads store.now seat.old seat.new s }
    ensures ok { IfOk result (λ all. all ≡ history_of seat.old.view.limits (words_in seat.old.view)) }
    ensures seen { IfOk result (λ all. (knows seat.new.view s).seen ≡ history_of seat.old.view.limits (words_in seat.old.view)) }
{
    seat.consider();
    let clock = clock(store, seat, s);
    let ranges = store.layout().limits.ranges;
    let mut commits = commits_until(alloc, store, seat, s, clock)?;
    for range in 0..ranges {
        enter_range(store, seat, s, range, &mut commits)?;
    }
    sort_all(alloc, commits.as_mut_slice())?;
    seat.consider();
    Ok(History::from_items(commits))
}

/// Puts the writes of a range's tail records behind those of their commits. One that isn't drawn has no write, so the range's tail counter bounds the loop.
fn enter_range(
    store: &Store,
    seat: &mut Seat,
    s: u32,
    range: u32,
    commits: &mut Vec<Commit>,
) -> Result<(), OutOfMemory>
    requires reader { IsReader store.now seat.old s }
    requires range { range < seat.old.view.limits.ranges }
    requires commits { commits.old.items ≡ gathered_until seat.old.view.limits (words_in seat.old.view) (range * seat.old.view.limits.tails) }
    ensures reads { Reads store.now seat.old seat.new s }
    ensures ok { OnOk result (commits.new.items ≡ gathered_until seat.old.view.limits (words_in seat.old.view) ((range + 1) * seat.old.view.limits.tails)) }
{
    seat.consider();
    let drawn = drawn_tails(store, seat, s, range);
    for done in 0..drawn {
        let before = tail_of(store, range, done);
        enter_tail(store, seat, s, before, commits)?;
    }
    Ok(())
}

/// Puts the write of the next tail record behind those of its commit, where it has one. `done` counts the tail records before it.
fn enter_tail(
    store: &Store,
    seat: &mut Seat,
    s: u32,
    done: u32,
    commits: &mut Vec<Commit>,
) -> Result<(), OutOfMemory>
    requires reader { IsReader store.now seat.old s }
    requires done { done < tail_count seat.old.view.limits }
    requires commits { commits.old.items ≡ gathered_until seat.old.view.limits (words_in seat.old.view) done }
    ensures reads { Reads store.now seat.old seat.new s }
    ensures ok { OnOk result (commits.new.items ≡ gathered_until seat.old.view.limits (words_in seat.old.view) (done + 1)) }
{
    seat.consider();
    let tail = done + 1;
    match commit_time(store, seat, s, tail) {
        Some(time) => {
            let write = tail_write(store, seat, s, tail);
            enter(commits, time, write)
        }
        None => Ok(()),
    }
}
