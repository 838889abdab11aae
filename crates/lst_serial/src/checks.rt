//! The check at a commit: what was read, and was it changed since the begin.
ghost use Rattle.std.specs.Prelude.{◌≡◌, ◌↔◌, ℕ, ◌<◌, [], true, false, Some, IfSome, IfNone, IfOk, IfErr, Ok, Err, length};
ghost use Rattle.lst_rule.specs.Rule.{knows, hosts};
ghost use Rattle.lst_changes.specs.Changes.{IsUnwrittenAfter, Changed};
ghost use Rattle.lst_session.specs.Calls.{Ends, FindsHeld};
ghost use Rattle.lst_session.specs.Held.{IsHeld, LooksStill};
ghost use Rattle.lst_session.specs.Passes.{IsReady};
ghost use Rattle.lst_serial.specs.Searches.{StaysLeast};
ghost use Rattle.lst_serial.specs.Serials.{FirstChanged, IsStaleAt, SpendsOnCommit, GivesBackStale, CommitsInPlace, FindsStale};

use crate::keys::KeySet;
use crate::kinds::SerialCommit;
use lst_model::{Key, Time};
use lst_rule::Store;
use lst_session::{CommitRefusal, Outcome, Session};
use lst_txn::Turn;

/// A key that was changed, with the last time at which it was.
#[derive(Clone, Copy)]
struct Change {
    key: Key,
    time: Time,
}

/// The change of a key, if there is one.
fn change_of(session: &mut Session, store: &Store, key: Key) -> Option<Change>
    requires held { IsHeld store.now session.old }
    ensures held { IsHeld store.now session.new }
    ensures number { session.new.number ≡ session.old.number }
    ensures looks { LooksStill session.old.seat.view session.new.seat.view session.old.number }
    ensures some { let k = knows session.old.seat.view session.old.number in IfSome result (λ change. (change.key ≡ key) × Changed k.seen k.begin key (Some change.time)) }
    ensures none { let k = knows session.old.seat.view session.old.number in IfNone result (IsUnwrittenAfter k.seen k.begin key) }
{
    match session.changed(store, key) {
        Some(time) => Some(Change { key, time }),
        None => None,
    }
}

/// The least change of some keys, and of one more, which isn't asked of where it isn't below.
fn least_with(
    session: &mut Session,
    store: &Store,
    least: Option<Change>,
    key: Key,
) -> Option<Change>
    requires held { IsHeld store.now session.old }
    ensures held { IsHeld store.now session.new }
    ensures number { session.new.number ≡ session.old.number }
    ensures looks { LooksStill session.old.seat.view session.new.seat.view session.old.number }
    ensures least { let k = knows session.old.seat.view session.old.number in StaysLeast k.seen k.begin key least result }
{
    let Some(change) = least else {
        return change_of(session, store, key);
    };
    if change.key <= key {
        return least;
    }
    match change_of(session, store, key) {
        Some(lower) => Some(lower),
        None => least,
    }
}

/// What `changed` tells of the least of the keys that a commit above the begin wrote. None comes exactly where none of them was written.
fn first_changed(session: &mut Session, store: &Store, keys: &KeySet) -> Option<Time>
    requires held { IsHeld store.now session.old }
    ensures held { IsHeld store.now session.new }
    ensures number { session.new.number ≡ session.old.number }
    ensures looks { LooksStill session.old.seat.view session.new.seat.view session.old.number }
    ensures stale { IsStaleAt (knows session.old.seat.view session.old.number) keys.now false result }
{
    session.seat.consider();
    let mut least = None;
    for key in keys.few.as_slice() {
        least = least_with(session, store, least, *key);
    }
    for other in keys.keys.iter() {
        least = least_with(session, store, least, *other);
    }
    match least {
        Some(change) => Some(change.time),
        None => None,
    }
}

/// The time after the begin, where the session has seen a commit above it.
fn first_above(session: &mut Session, keys: &KeySet) -> Option<Time>
    requires host { hosts session.old.seat.view session.old.number ≡ true }
    requires opened { (knows session.old.seat.view session.old.number).is_open ≡ true }
    ensures same { session.new ≡ session.old }
    ensures stale { IsStaleAt (knows session.old.seat.view session.old.number) keys.now true result }
{
    session.seat.consider();
    let begin = session.seat.begin(session.number);
    if session.seat.seen(session.number) > begin {
        Some(begin + 1)
    } else {
        None
    }
}

/// The time of a commit that changed what was read, if there is one.
fn stale_time(session: &mut Session, store: &Store, keys: &KeySet, all: bool) -> Option<Time>
    requires held { IsHeld store.now session.old }
    ensures held { IsHeld store.now session.new }
    ensures number { session.new.number ≡ session.old.number }
    ensures looks { LooksStill session.old.seat.view session.new.seat.view session.old.number }
    ensures stale { IsStaleAt (knows session.old.seat.view session.old.number) keys.now all result }
{
    if all {
        first_above(session, keys)
    } else {
        first_changed(session, store, keys)
    }
}

/// Spends the turn: commits where nothing that was read was changed, and answers the commit's time; and else gives it back, and answers the time of a commit
/// that changed what was read as the error.
fn settle(
    session: &mut Session,
    store: &Store,
    turn: Turn,
    keys: &KeySet,
    all: bool,
) -> Result<Time, Time>
    requires turn { turn.session ≡ session.old.number }
    requires held { IsHeld store.now session.old }
    ensures ready { IsReady store.now session.new }
    ensures number { session.new.number ≡ session.old.number }
    ensures ok { IfOk result (λ time. SpendsOnCommit session.old.seat.view session.new.seat.view session.old.number keys.now all time) }
    ensures stale { IfErr result (λ time. GivesBackStale session.old.seat.view session.new.seat.view session.old.number keys.now all time) }
{
    match stale_time(session, store, keys, all) {
        Some(time) => {
            session.give_back_turn(store, turn);
            Err(time)
        }
        None => Ok(session.commit_turn(store, turn)),
    }
}

/// Tries to commit a transaction with writes.
fn try_to_settle(
    session: &mut Session,
    store: &Store,
    keys: &KeySet,
    all: bool,
) -> Result<Outcome, SerialCommit>
    requires ready { IsReady store.now session.old }
    requires opened { (knows session.old.seat.view session.old.number).is_open ≡ true }
    requires writes { 0 < length (knows session.old.seat.view session.old.number).own }
    ensures ready { IsReady store.now session.new }
    ensures number { session.new.number ≡ session.old.number }
    ensures committed { (time : ℕ) → result ≡ Ok (Outcome.Committed time) → CommitsInPlace session.old.seat.view session.new.seat.view session.old.number keys.now all time }
    ensures stale { (time : ℕ) → result ≡ Err (SerialCommit.Stale time) → FindsStale session.old.seat.view session.new.seat.view session.old.number keys.now all time }
    ensures busy { result ≡ Err SerialCommit.Busy → FindsHeld session.old.seat.view session.new.seat.view session.old.number }
    ensures others { (¬ (result ≡ Err SerialCommit.Idle)) × ((time : ℕ) → ¬ (result ≡ Ok (Outcome.Ended time))) }
{
    match session.take_turn(store) {
        Ok(turn) => match settle(session, store, turn, keys, all) {
            Ok(time) => Ok(Outcome::Committed { time }),
            Err(time) => Err(SerialCommit::Stale { time }),
        },
        Err(CommitRefusal::Busy) => Err(SerialCommit::Busy),
        Err(CommitRefusal::Idle) => unreachable!(),
    }
}

/// Tries once to end the open transaction, which has read these keys, or all. `Serial::try_commit` says what it answers.
pub(crate) fn try_end(
    session: &mut Session,
    store: &Store,
    keys: &KeySet,
    all: bool,
) -> Result<Outcome, SerialCommit>
    requires ready { IsReady store.now session.old }
    requires opened { (knows session.old.seat.view session.old.number).is_open ≡ true }
    ensures ready { IsReady store.now session.new }
    ensures number { session.new.number ≡ session.old.number }
    ensures committed { (time : ℕ) → result ≡ Ok (Outcome.Committed time) → CommitsInPlace session.old.seat.view session.new.seat.view session.old.number keys.now all time }
    ensures ended { (time : ℕ) → result ≡ Ok (Outcome.Ended time) → (time ≡ (knows session.old.seat.view session.old.number).begin) × ((knows session.old.seat.view session.old.number).own ≡ []) × Ends session.old.seat.view session.new.seat.view session.old.number }
    ensures stale { (time : ℕ) → result ≡ Err (SerialCommit.Stale time) → FindsStale session.old.seat.view session.new.seat.view session.old.number keys.now all time }
    ensures busy { result ≡ Err SerialCommit.Busy → FindsHeld session.old.seat.view session.new.seat.view session.old.number }
    ensures opened { ¬ (result ≡ Err SerialCommit.Idle) }
{
    if session.seat.has_writes(session.number) {
        return try_to_settle(session, store, keys, all);
    }
    match session.try_commit(store) {
        Ok(outcome) => Ok(outcome),
        Err(_) => unreachable!(),
    }
}
