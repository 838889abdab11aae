//! The end of a transaction: it is committed or closed, and its session's pin taken away.
ghost use Rattle.std.specs.Prelude.{◌≡◌, ◌↔◌, ◌<◌, true, IfOk, OnErr, IsOk, Err};
ghost use Rattle.lst_rule.specs.Rule.{knows, hosts};
ghost use Rattle.lst_rule.specs.Stores.{IsSeatOf};
ghost use Rattle.lst_txn.specs.Transactions.{IsFree};
ghost use Rattle.lst_refinement.specs.Crews.{IsIdle, IsPinnedWhereOpen};
ghost use Rattle.lst_session.specs.Traces.{Closes, Ends, Holds};

use crate::kinds::{CommitRefusal, Outcome};
use lst_retire::unpin;
use lst_rule::{Seat, Store};
use lst_txn::{Idle, TurnFault, close, take_turn};

/// Closes the session's open transaction: its writes are never seen. Then its pin is taken away. It is refused exactly where none is open.
pub(crate) fn abort(store: &Store, seat: &mut Seat, s: u32) -> Result<(), Idle>
    requires seat { IsSeatOf store.now seat.old }
    requires host { hosts seat.old.view s ≡ true }
    requires own { s < seat.old.view.limits.sessions }
    requires free { IsFree (knows seat.old.view s) }
    requires pinned { IsPinnedWhereOpen (knows seat.old.view s) }
    ensures seat { IsSeatOf store.now seat.new }
    ensures hosted { seat.new.view.hosts ≡ seat.old.view.hosts }
    ensures ok { IfOk result (λ _. Closes seat.old.view seat.new.view s) }
    ensures idle { IsOk result ↔ ((knows seat.old.view s).is_open ≡ true) }
    ensures err { OnErr result (seat.new ≡ seat.old) }
{
    if let Err(Idle) = close(store, seat, s) {
        return Err(Idle);
    }
    unpin(store, seat, s);
    Ok(())
}

/// Commits the session's open transaction if it has writes, and else closes it. Then its pin is taken away, but not where the commit word was
/// found held.
pub(crate) fn end(store: &Store, seat: &mut Seat, s: u32) -> Result<Outcome, CommitRefusal>
    requires seat { IsSeatOf store.now seat.old }
    requires host { hosts seat.old.view s ≡ true }
    requires own { s < seat.old.view.limits.sessions }
    requires opened { (knows seat.old.view s).is_open ≡ true }
    requires idle { IsIdle (knows seat.old.view s) }
    requires pinned { IsPinnedWhereOpen (knows seat.old.view s) }
    ensures seat { IsSeatOf store.now seat.new }
    ensures ok { IfOk result (λ outcome. Ends seat.old.view seat.new.view s outcome) }
    ensures busy { result ≡ Err CommitRefusal.Busy → Holds seat.old.view seat.new.view s }
    ensures opened { ¬ (result ≡ Err CommitRefusal.Idle) }
{
    if !seat.has_writes(s) {
        let time = seat.begin(s);
        let Ok(()) = abort(store, seat, s) else {
            unreachable!()
        };
        return Ok(Outcome::Ended { time });
    }
    match take_turn(store, seat, s) {
        Ok(turn) => {
            let time = turn.commit(store, seat);
            unpin(store, seat, s);
            Ok(Outcome::Committed { time })
        }
        Err(TurnFault::Busy) => Err(CommitRefusal::Busy),
        Err(TurnFault::Idle) => unreachable!(),
    }
}
