//! The turn, taken before it is known whether it is spent on a commit, and what may be asked while it is held.
ghost use Rattle.std.specs.Prelude.{◌≡◌, ◌↔◌, ℕ, ◌<◌, List, true, false, IfOk, Err, length};
ghost use Rattle.lst_core_state.specs.State.{rank};
ghost use Rattle.lst_core_state.specs.Step.{held_off};
ghost use Rattle.lst_rule.specs.Rule.{knows, hosts};
ghost use Rattle.lst_rule.specs.Learned.{Learns, Kept};
ghost use Rattle.lst_rule.specs.Stores.{IsSeatOf};
ghost use Rattle.lst_txn.specs.Transactions.{IsFree};
ghost use Rattle.lst_model.specs.declared.commits.Commit.{Commit};
ghost use Rattle.lst_changes.specs.Changes.{IsHolder, LastWrite, Changed};
ghost use Rattle.lst_session.specs.Traces.{Holds};
ghost use Rattle.lst_session.specs.Turns.{Takes, Asks, Spends, Returns};

use crate::kinds::CommitRefusal;
use lst_changes::last_commit;
use lst_index::find;
use lst_model::{Key, Time};
use lst_retire::unpin;
use lst_rule::{Seat, Store, load_clock};
use lst_txn::{Turn, TurnFault, take_turn};

/// Tries once to take the turn for the session's open transaction, which has writes, and loads the clock: then the session has seen the whole history,
/// and nobody else commits while it holds the turn. Idle comes exactly where no transaction is open; Busy where the commit word was found held.
pub(crate) fn take(store: &Store, seat: &mut Seat, s: u32) -> Result<Turn, CommitRefusal>
    requires seat { IsSeatOf store.now seat.old }
    requires host { hosts seat.old.view s ≡ true }
    requires own { s < seat.old.view.limits.sessions }
    requires writes { (knows seat.old.view s).is_open ≡ true → 0 < length (knows seat.old.view s).own }
    requires free { IsFree (knows seat.old.view s) }
    ensures seat { IsSeatOf store.now seat.new }
    ensures ok { IfOk result (λ turn. (turn.session ≡ s) × IsHolder store.now seat.new s × Takes seat.old.view seat.new.view s) }
    ensures idle { (result ≡ Err CommitRefusal.Idle) ↔ ((knows seat.old.view s).is_open ≡ false) }
    ensures still { result ≡ Err CommitRefusal.Idle → seat.new ≡ seat.old }
    ensures busy { result ≡ Err CommitRefusal.Busy → Holds seat.old.view seat.new.view s }
{
    match take_turn(store, seat, s) {
        Ok(turn) => {
            let _ = load_clock(store, seat, s);
            Ok(turn)
        }
        Err(TurnFault::Idle) => Err(CommitRefusal::Idle),
        Err(TurnFault::Busy) => Err(CommitRefusal::Busy),
    }
}

/// The time of the last commit above the begin that wrote the key. None comes exactly where none did.
pub(crate) fn changed(store: &Store, seat: &mut Seat, s: u32, key: Key) -> Option<Time>
    requires holder { IsHolder store.now seat.old s }
    ensures holder { IsHolder store.now seat.new s }
    ensures asks { Asks seat.old.view seat.new.view s }
    ensures changed { Changed (knows seat.new.view s).seen (knows seat.new.view s).begin key result }
{
    match find(store, seat, s, key) {
        Some(rec) => {
            let begin = seat.begin(s);
            let last = last_commit(store, seat, s, rec);
            above(begin, last)
        }
        None => None,
    }
}

/// The time of the last commit that wrote a key, where that is above a begin.
fn above(begin: Time, last: Option<Time>) -> Option<Time>
    ensures { (history : List Commit) (key : ℕ) → LastWrite history key last → Changed history begin key result }
{
    match last {
        Some(time) => { if time > begin { Some(time) } else { None } }
        None => None,
    }
}

/// Commits the transaction as the next commit of the history, all of which is seen, and gives the turn back. Then the session's pin is taken away.
pub(crate) fn commit(turn: Turn, store: &Store, seat: &mut Seat, s: u32) -> Time
    requires session { turn.session ≡ s }
    requires holder { IsHolder store.now seat.old s }
    requires pinned { 0 < (knows seat.old.view s).pages.session.pin }
    ensures seat { IsSeatOf store.now seat.new }
    ensures spends { Spends seat.old.view seat.new.view s result }
{
    let time = turn.commit(store, seat);
    unpin(store, seat, s);
    time
}

/// Gives the turn back. The transaction stays open.
pub(crate) fn give_back(turn: Turn, store: &Store, seat: &mut Seat, s: u32)
    requires session { turn.session ≡ s }
    requires holder { IsHolder store.now seat.old s }
    ensures seat { IsSeatOf store.now seat.new }
    ensures returns { Returns seat.old.view seat.new.view s }
{
    turn.give_back(store, seat);
}
