//! The history without its writes.
ghost use Rattle.std.specs.Prelude.{◌≡◌, ◌<◌, IfOk, map};
ghost use Rattle.lst_core_state.specs.State.{history_of, rank};
ghost use Rattle.lst_rule.specs.Rule.{knows};
ghost use Rattle.lst_rule.specs.Stores.{IsSeatOf};
ghost use Rattle.lst_rule.specs.Surveys.{HostsAll};
ghost use Rattle.lst_history.specs.Peeks.{words_in, IsReader, Reads, Recounts};
ghost use Rattle.lst_history.specs.Commits.{without_writes};

use crate::commits::commits_until;
use crate::words::clock;
use lst_model::{History, OutOfMemory};
use lst_rule::{Seat, Store, survey};
use std::alloc::Global;

/// The commits of the store, each at its time without its writes. The seat takes stock of all words, and the session sees the whole history, as
/// `history` does; no tail record is read. It answers want of memory where the list finds none.
pub fn history_without_writes(
    alloc: Global,
    store: &Store,
    seat: &mut Seat,
    s: u32,
) -> Result<History, OutOfMemory>
    requires seat { IsSeatOf store.now seat.old }
    requires all { HostsAll seat.old.view }
    requires own { s < seat.old.view.limits.sessions }
    requires rec { (knows seat.old.view s).placing.hand ≡ 0 }
    requires turn { rank (knows seat.old.view s).turn ≡ 0 }
    ensures seat { IsSeatOf store.now seat.new }
    ensures ok { IfOk result (λ all. all ≡ map without_writes (history_of seat.new.view.limits (words_in seat.new.view))) }
    ensures looks { Recounts seat.old.view seat.new.view s }
    ensures seen { IfOk result (λ all. (knows seat.new.view s).seen ≡ history_of seat.new.view.limits (words_in seat.new.view)) }
{
    survey(store, seat);
    let all = recount_bare(alloc, store, seat, s);
    seat.consider();
    all
}

/// The commits of the words that the seat knows, without their writes.
fn recount_bare(
    alloc: Global,
    store: &Store,
    seat: &mut Seat,
    s: u32,
) -> Result<History, OutOfMemory>
    requires reader { IsReader store.now seat.old s }
    ensures reads { Reads store.now seat.old seat.new s }
    ensures ok { IfOk result (λ all. all ≡ map without_writes (history_of seat.old.view.limits (words_in seat.old.view))) }
    ensures seen { IfOk result (λ all. (knows seat.new.view s).seen ≡ history_of seat.old.view.limits (words_in seat.old.view)) }
{
    seat.consider();
    let clock = clock(store, seat, s);
    let commits = commits_until(alloc, store, seat, s, clock)?;
    seat.consider();
    Ok(History::from_items(commits))
}
