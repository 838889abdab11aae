//! Commits that wait while the commit word is held.
ghost use Rattle.std.specs.Prelude.{◌≡◌, ◌↔◌, true, false, IfSome, IfNone, IfOk, IsErr, OnErr};
ghost use Rattle.lst_rule.specs.Rule.{knows};
ghost use Rattle.lst_session.specs.Calls.{FindsHeld};
ghost use Rattle.lst_session.specs.Passes.{IsReady};
ghost use Rattle.lst_session.specs.Waits.{Concludes, ConcludesAtLast};

use crate::kinds::{CommitRefusal, Outcome};
use crate::session::Session;
use lst_rule::Store;
use lst_txn::Idle as NotBegun;
use std::hint::spin_loop;
use std::sync::{Mutex, Wait};
use std::thread::yield_now;

/// How often a session tries to commit before it waits for the lock.
const TRIES: u32 = 64;

/// What a session holds while it tries again to commit, so that of those that wait one at a time tries. It guards nothing: that one commit at a
/// time is made is the commit word's doing.
#[derive(Drop)]
pub struct CommitLock {
    pub mutex: Mutex<()>,
}

impl CommitLock {
    /// A lock that nobody holds. It takes no memory.
    pub fn new() -> CommitLock {
        CommitLock {
            mutex: Mutex::new(()),
        }
    }
}

/// Tries to end the open transaction. None comes only where the commit word was found held.
fn try_to_end(store: &Store, session: &mut Session) -> Option<Outcome>
    requires ready { IsReady store.now session.old }
    requires opened { (knows session.old.seat.view session.old.number).is_open ≡ true }
    ensures ready { IsReady store.now session.new }
    ensures number { session.new.number ≡ session.old.number }
    ensures end { IfSome result (λ outcome. Concludes session.old.seat.view session.new.seat.view session.old.number outcome) }
    ensures held { IfNone result (FindsHeld session.old.seat.view session.new.seat.view session.old.number) }
{
    match session.try_commit(store) {
        Ok(outcome) => Some(outcome),
        Err(CommitRefusal::Busy) => None,
        Err(CommitRefusal::Idle) => unreachable!(),
    }
}

/// Ends the open transaction: tries at once, and where the commit word is held a few times more, since it is mostly held for a moment; then waits
/// for the lock and tries again and again.
fn end_at_last<R: Wait>(rt: &R, store: &Store, session: &mut Session, lock: &CommitLock) -> Outcome
    requires ready { IsReady store.now session.old }
    requires opened { (knows session.old.seat.view session.old.number).is_open ≡ true }
    ensures ready { IsReady store.now session.new }
    ensures number { session.new.number ≡ session.old.number }
    ensures end { ConcludesAtLast session.old.seat.view session.new.seat.view session.old.number result }
{
    for _ in 0..TRIES {
        if let Some(outcome) = try_to_end(store, session) {
            return outcome;
        }
        spin_loop();
    }
    let _held = lock.mutex.lock(rt);
    for _ in rt.forever() {
        if let Some(outcome) = try_to_end(store, session) {
            return outcome;
        }
        yield_now();
    }
    unreachable!()
}

impl Session {
    /// Commits the transaction, and answers its time; a transaction without writes only ends, and its begin is answered. The session's pin is
    /// taken away. It is refused exactly where none is open. Where the commit word is held, the session tries 63 times more, and then waits for
    /// the lock and tries on, till the word is free: what comes of the call is what comes of `try_commit`, but for Busy. `ConcludesAtLast` says of
    /// the tries in vain that each found the word held, and nothing else came of them. Nothing is promised of when it returns. A lock is for the
    /// sessions of one store.
    pub fn commit<R: Wait>(
        &mut self,
        rt: &R,
        store: &Store,
        lock: &CommitLock,
    ) -> Result<Outcome, NotBegun>
        requires ready { IsReady store.now self.old }
        ensures ready { IsReady store.now self.new }
        ensures number { self.new.number ≡ self.old.number }
        ensures ok { IfOk result (λ outcome. ConcludesAtLast self.old.seat.view self.new.seat.view self.old.number outcome) }
        ensures idle { IsErr result ↔ ((knows self.old.seat.view self.old.number).is_open ≡ false) }
        ensures still { OnErr result (self.new.seat.view ≡ self.old.seat.view) }
    {
        if !self.seat.is_open(self.number) {
            return Err(NotBegun);
        }
        Ok(end_at_last(rt, store, self, lock))
    }
}
