//! Commits at the serializable level that wait while the commit word is held.
ghost use Rattle.std.specs.Prelude.{◌≡◌, ◌↔◌, ℕ, [], true, false, IfSome, IfNone, Ok, Err};
ghost use Rattle.lst_rule.specs.Rule.{knows};
ghost use Rattle.lst_session.specs.Calls.{Ends, FindsHeld};
ghost use Rattle.lst_session.specs.Passes.{IsReady};
ghost use Rattle.lst_serial.specs.Serials.{CommitsInPlace, FindsStale};
ghost use Rattle.lst_serial.specs.Waits.{Concludes};

use crate::checks::try_end;
use crate::keys::KeySet;
use crate::kinds::{SerialCommit, SerialEnd};
use crate::serial::Serial;
use lst_rule::Store;
use lst_session::{CommitLock, Outcome, Session};
use std::hint::spin_loop;
use std::sync::Wait;
use std::thread::yield_now;

/// How often a session tries to commit before it waits for the lock.
const TRIES: u32 = 64;

/// Tries once to end the open transaction. None comes only where the commit word was found held.
fn try_to_end(
    session: &mut Session,
    store: &Store,
    keys: &KeySet,
    all: bool,
) -> Option<Result<Outcome, SerialEnd>>
    requires ready { IsReady store.now session.old }
    requires opened { (knows session.old.seat.view session.old.number).is_open ≡ true }
    ensures ready { IsReady store.now session.new }
    ensures number { session.new.number ≡ session.old.number }
    ensures end { IfSome result (λ end. Concludes session.old.seat.view session.new.seat.view session.old.number keys.now all end) }
    ensures held { IfNone result (FindsHeld session.old.seat.view session.new.seat.view session.old.number) }
{
    match try_end(session, store, keys, all) {
        Ok(outcome) => Some(Ok(outcome)),
        Err(SerialCommit::Stale { time }) => Some(Err(SerialEnd::Stale { time })),
        Err(SerialCommit::Busy) => None,
        Err(SerialCommit::Idle) => unreachable!(),
    }
}

/// Ends the open transaction of a session that has read these keys, or all, as `Serial::commit` does: tries at once, and where the commit word is held a few times
/// more, since it is mostly held for a moment; then waits for the lock and tries again and again. `Concludes` says what each answer tells; Stale
/// comes exactly where a commit above the begin changed what was read, and Idle never.
pub fn end_at_last<R: Wait>(
    rt: &R,
    session: &mut Session,
    store: &Store,
    lock: &CommitLock,
    keys: &KeySet,
    all: bool,
) -> Result<Outcome, SerialEnd>
    requires ready { IsReady store.now session.old }
    requires opened { (knows session.old.seat.view session.old.number).is_open ≡ true }
    ensures ready { IsReady store.now session.new }
    ensures number { session.new.number ≡ session.old.number }
    ensures end { Concludes session.old.seat.view session.new.seat.view session.old.number keys.now all result }
{
    for _ in 0..TRIES {
        if let Some(end) = try_to_end(session, store, keys, all) {
            return end;
        }
        spin_loop();
    }
    let _held = lock.mutex.lock(rt);
    for _ in rt.forever() {
        if let Some(end) = try_to_end(session, store, keys, all) {
            return end;
        }
        yield_now();
    }
    unreachable!()
}

impl Serial {
    /// Commits the transaction as `try_commit` does, but for Busy: where the commit word is held, the session waits as `Session::commit` does, and tries on.
    /// Nothing is promised of when it returns.
    pub fn commit<R: Wait>(
        &mut self,
        rt: &R,
        store: &Store,
        lock: &CommitLock,
    ) -> Result<Outcome, SerialEnd>
        requires ready { IsReady store.now self.old.session }
        ensures ready { IsReady store.now self.new.session }
        ensures number { self.new.session.number ≡ self.old.session.number }
        ensures committed { (time : ℕ) → result ≡ Ok (Outcome.Committed time) → CommitsInPlace self.old.session.seat.view self.new.session.seat.view self.old.session.number self.old.keys self.old.all time }
        ensures ended { (time : ℕ) → result ≡ Ok (Outcome.Ended time) → (time ≡ (knows self.old.session.seat.view self.old.session.number).begin) × ((knows self.old.session.seat.view self.old.session.number).own ≡ []) × Ends self.old.session.seat.view self.new.session.seat.view self.old.session.number }
        ensures stale { (time : ℕ) → result ≡ Err (SerialEnd.Stale time) → FindsStale self.old.session.seat.view self.new.session.seat.view self.old.session.number self.old.keys self.old.all time }
        ensures idle { (result ≡ Err SerialEnd.Idle) ↔ ((knows self.old.session.seat.view self.old.session.number).is_open ≡ false) }
        ensures still { result ≡ Err SerialEnd.Idle → self.new.session.seat.view ≡ self.old.session.seat.view }
        ensures reads { (self.new.keys ≡ self.old.keys) × (self.new.all ≡ self.old.all) }
    {
        if self.session.is_idle() {
            return Err(SerialEnd::Idle);
        }
        end_at_last(rt, &mut self.session, store, lock, &self.keys, self.all)
    }
}
