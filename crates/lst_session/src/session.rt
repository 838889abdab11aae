//! One session's pass.
ghost use Rattle.std.specs.Prelude.{◌≡◌, ◌⊎◌, ◌↔◌, ℕ, ◌≤◌, true, false, IfOk, IfErr, OnOk, OnErr, Err, [], length};
ghost use Rattle.lst_model.specs.declared.acts.Act.TheVariants.{Put, Set, Del};
ghost use Rattle.lst_model.specs.Lines.{IsPatch};
ghost use Rattle.lst_rule.specs.Rule.{knows, hosts};
ghost use Rattle.lst_session.specs.Calls.{Begins, IsAhead, Gets, Accepts, Refuses, Cause, Commits, Ends, FindsHeld};
ghost use Rattle.lst_session.specs.Passes.{IsReady};

use crate::begins::{as_of, begin};
use crate::commits::{abort, end};
use crate::kinds::{CommitRefusal, Outcome, WriteRefusal};
use crate::reads::read;
use crate::writes::{change, insert};
use lst_model::{Act, Key, Patch, Row, Time};
use lst_rule::{Seat, Store};
use lst_txn::{BeginFault as BeginRefusal, Idle as NotBegun};

/// A session at a seat that hosts it, by its number. It may go to another thread.
///
/// What is dropped can't be had again: a transaction that is open then stays so for good, with its pin, and its writes stay unfinished. A latch or the turn that
/// it has in hand stays held for good as well; between two calls here it has none. `gather` then answers that this session is missing.
#[derive(Drop)]
pub struct Session {
    pub seat: Seat,
    pub number: u32,
}

impl Session {
    /// Begins the next transaction, and answers its begin: a clock that is loaded in this call. The session is pinned, at an epoch that
    /// is loaded in this call before the clock. Active comes exactly where a transaction is open; Spent exactly where none is and the session has begun as
    /// many as it may; Future never. Where it is refused no pin is set.
    pub fn begin(&mut self, store: &Store) -> Result<Time, BeginRefusal>
        requires ready { IsReady store.now self.old }
        ensures ready { IsReady store.now self.new }
        ensures number { self.new.number ≡ self.old.number }
        ensures ok { IfOk result (λ b. Begins self.old.seat.view self.new.seat.view self.old.number b b false) }
        ensures active { (result ≡ Err BeginRefusal.Active) ↔ ((knows self.old.seat.view self.old.number).is_open ≡ true) }
        ensures spent { (result ≡ Err BeginRefusal.Spent) ↔ (((knows self.old.seat.view self.old.number).is_open ≡ false) × ((knows self.old.seat.view self.old.number).number ≡ self.old.seat.view.limits.txns)) }
        ensures future { (clock : ℕ) → ¬ (result ≡ Err (BeginRefusal.Future clock)) }
        ensures err { OnErr result (self.new.seat.view ≡ self.old.seat.view) }
    {
        begin(store, &mut self.seat, self.number)
    }

    /// Opens a read-only transaction as of a time, which is its begin, with the session pinned. Active and Spent come as of `begin`; Future
    /// comes exactly where the clock that is loaded in this call is below the time. Where it is refused no pin is set.
    pub fn as_of(&mut self, store: &Store, time: Time) -> Result<Time, BeginRefusal>
        requires ready { IsReady store.now self.old }
        ensures ready { IsReady store.now self.new }
        ensures number { self.new.number ≡ self.old.number }
        ensures ok { IfOk result (λ b. (b ≡ time) × ((clock : ℕ) × Begins self.old.seat.view self.new.seat.view self.old.number clock time true)) }
        ensures active { (result ≡ Err BeginRefusal.Active) ↔ ((knows self.old.seat.view self.old.number).is_open ≡ true) }
        ensures spent { (result ≡ Err BeginRefusal.Spent) ↔ (((knows self.old.seat.view self.old.number).is_open ≡ false) × ((knows self.old.seat.view self.old.number).number ≡ self.old.seat.view.limits.txns)) }
        ensures future { (clock : ℕ) → result ≡ Err (BeginRefusal.Future clock) → IsAhead self.old.seat.view self.new.seat.view self.old.number clock time }
        ensures never { time ≤ length (knows self.old.seat.view self.old.number).seen → (clock : ℕ) → ¬ (result ≡ Err (BeginRefusal.Future clock)) }
        ensures still { (result ≡ Err BeginRefusal.Active) ⊎ (result ≡ Err BeginRefusal.Spent) → self.new.seat.view ≡ self.old.seat.view }
    {
        as_of(store, &mut self.seat, self.number, time)
    }

    /// The row of a key in the transaction's snapshot with its own writes on it; None exactly where there is none. It is refused exactly
    /// where no transaction is open.
    pub fn get(&mut self, store: &Store, key: Key) -> Result<Option<Row>, NotBegun>
        requires ready { IsReady store.now self.old }
        ensures ready { IsReady store.now self.new }
        ensures number { self.new.number ≡ self.old.number }
        ensures ok { IfOk result (λ row. ((knows self.old.seat.view self.old.number).is_open ≡ true) × Gets self.old.seat.view self.new.seat.view self.old.number key row) }
        ensures err { OnErr result (((knows self.old.seat.view self.old.number).is_open ≡ false) × (self.new.seat.view ≡ self.old.seat.view)) }
    {
        if !self.is_open() {
            return Err(NotBegun);
        }
        self.seat.consider();
        Ok(read(store, &mut self.seat, self.number, key))
    }

    /// Puts a row of a key of which the transaction sees none. Its refusals, in order: Idle, ReadOnly, TableFull, Latched, Newer, Unfinished,
    /// Exists, TailFull; `Cause` says when each comes.
    pub fn insert(&mut self, store: &Store, key: Key, row: &Row) -> Result<(), WriteRefusal>
        requires ready { IsReady store.now self.old }
        requires row { length row.now ≡ self.old.seat.view.limits.columns }
        ensures ready { IsReady store.now self.new }
        ensures number { self.new.number ≡ self.old.number }
        ensures ok { OnOk result (Accepts self.old.seat.view self.new.seat.view self.old.number key 1 (Put row.now)) }
        ensures err { IfErr result (λ refusal. Refuses self.old.seat.view self.new.seat.view self.old.number key 1 × Cause self.old.seat.view self.new.seat.view self.old.number key (Put row.now) refusal) }
    {
        self.seat.consider();
        let act = Act::Put(row.copied());
        insert(store, &mut self.seat, self.number, key, &act)
    }

    /// Sets cells of a row that the transaction sees. Its refusals, in order: Idle, ReadOnly, Missing where the key has no record, Latched,
    /// Newer, Unfinished, Missing where the transaction sees no row, TailFull; `Cause` says when each comes.
    pub fn update(&mut self, store: &Store, key: Key, patch: &Patch) -> Result<(), WriteRefusal>
        requires ready { IsReady store.now self.old }
        requires patch { IsPatch self.old.seat.view.limits.columns patch.now }
        ensures ready { IsReady store.now self.new }
        ensures number { self.new.number ≡ self.old.number }
        ensures ok { OnOk result (Accepts self.old.seat.view self.new.seat.view self.old.number key 0 (Set patch.now)) }
        ensures err { IfErr result (λ refusal. Refuses self.old.seat.view self.new.seat.view self.old.number key 0 × Cause self.old.seat.view self.new.seat.view self.old.number key (Set patch.now) refusal) }
    {
        self.seat.consider();
        let act = Act::Set(patch.copied());
        change(store, &mut self.seat, self.number, key, &act)
    }

    /// Deletes a row that the transaction sees. Its refusals are those of `update`.
    pub fn delete(&mut self, store: &Store, key: Key) -> Result<(), WriteRefusal>
        requires ready { IsReady store.now self.old }
        ensures ready { IsReady store.now self.new }
        ensures number { self.new.number ≡ self.old.number }
        ensures ok { OnOk result (Accepts self.old.seat.view self.new.seat.view self.old.number key 0 Del) }
        ensures err { IfErr result (λ refusal. Refuses self.old.seat.view self.new.seat.view self.old.number key 0 × Cause self.old.seat.view self.new.seat.view self.old.number key Del refusal) }
    {
        self.seat.consider();
        change(store, &mut self.seat, self.number, key, &Act::Del)
    }

    /// Commits the transaction, and answers its time; a transaction without writes only ends, and its begin is answered. The session's pin is
    /// taken away. Idle comes exactly where none is open. Busy comes only where the commit word was found held, and never without writes; the
    /// transaction stays open then, and its session pinned.
    pub fn try_commit(&mut self, store: &Store) -> Result<Outcome, CommitRefusal>
        requires ready { IsReady store.now self.old }
        ensures ready { IsReady store.now self.new }
        ensures number { self.new.number ≡ self.old.number }
        ensures committed { (time : ℕ) → result ≡ Ok (Outcome.Committed time) → Commits self.old.seat.view self.new.seat.view self.old.number time }
        ensures ended { (time : ℕ) → result ≡ Ok (Outcome.Ended time) → (time ≡ (knows self.old.seat.view self.old.number).begin) × ((knows self.old.seat.view self.old.number).own ≡ []) × Ends self.old.seat.view self.new.seat.view self.old.number }
        ensures busy { result ≡ Err CommitRefusal.Busy → FindsHeld self.old.seat.view self.new.seat.view self.old.number }
        ensures idle { (result ≡ Err CommitRefusal.Idle) ↔ ((knows self.old.seat.view self.old.number).is_open ≡ false) }
        ensures still { result ≡ Err CommitRefusal.Idle → self.new.seat.view ≡ self.old.seat.view }
    {
        if !self.is_open() {
            return Err(CommitRefusal::Idle);
        }
        end(store, &mut self.seat, self.number)
    }

    /// Ends the transaction without a commit, and takes the session's pin away. It is refused exactly where none is open.
    pub fn abort(&mut self, store: &Store) -> Result<(), NotBegun>
        requires ready { IsReady store.now self.old }
        ensures ready { IsReady store.now self.new }
        ensures number { self.new.number ≡ self.old.number }
        ensures ok { OnOk result (((knows self.old.seat.view self.old.number).is_open ≡ true) × Ends self.old.seat.view self.new.seat.view self.old.number) }
        ensures err { OnErr result (((knows self.old.seat.view self.old.number).is_open ≡ false) × (self.new.seat.view ≡ self.old.seat.view)) }
    {
        abort(store, &mut self.seat, self.number)
    }

    /// How many commits the session has seen, which is also the time of the last one.
    pub fn seen(&self) -> Time
        requires { hosts self.now.seat.view self.now.number ≡ true }
        ensures { result ≡ length (knows self.now.seat.view self.now.number).seen }
    {
        self.seat.seen(self.number)
    }

    /// Whether no transaction is open.
    pub fn is_idle(&self) -> bool
        requires { hosts self.now.seat.view self.now.number ≡ true }
        ensures { (result ≡ true) ↔ ((knows self.now.seat.view self.now.number).is_open ≡ false) }
    {
        !self.is_open()
    }

    /// Whether the session has begun as many transactions as it may.
    pub fn is_spent(&self) -> bool
        requires { hosts self.now.seat.view self.now.number ≡ true }
        ensures { (result ≡ true) ↔ ((knows self.now.seat.view self.now.number).number ≡ self.now.seat.view.limits.txns) }
    {
        self.seat.number(self.number) == self.seat.limits().txns
    }

    /// Whether a transaction is open.
    fn is_open(&self) -> bool
        requires { hosts self.now.seat.view self.now.number ≡ true }
        ensures { result ≡ (knows self.now.seat.view self.now.number).is_open }
    {
        self.seat.is_open(self.number)
    }
}
