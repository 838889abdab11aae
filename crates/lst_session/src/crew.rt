//! The crew and its calls.
ghost use Rattle.std.specs.Prelude.{◌≡◌, ◌⊎◌, ◌↔◌, ℕ, ◌<◌, ◌≤◌, true, false, IfOk, IfErr, OnOk, OnErr, IsErr, Err, [], length};
ghost use Rattle.lst_model.specs.declared.acts.Act.TheVariants.{Put, Set, Del};
ghost use Rattle.lst_model.specs.Lines.{IsPatch};
ghost use Rattle.lst_model.specs.declared.lines.Call.TheVariants as call;
ghost use Rattle.lst_machine.specs.State.{opening};
ghost use Rattle.lst_rule.specs.Rule.{knows, crew};
ghost use Rattle.lst_session.specs.Calls.{Begins, IsAhead, Gets, Accepts, Refuses, Cause, Commits, Ends};
ghost use Rattle.lst_session.specs.Crews.{IsCrewOf, TellsState, Answers, SavesTails, state_told};
ghost use Rattle.lst_session.specs.Replies.{begin_reply, get_reply, write_reply, commit_reply, abort_reply};

use crate::begins::{as_of, begin};
use crate::commits::{abort, end};
use crate::kinds::{CommitRefusal, Outcome, WriteRefusal};
use crate::reads::read;
use crate::writes::{change, insert};
use lst_layout::Layout;
use lst_model::{Act, Key, OutOfMemory, Patch, Row, Time};
use lst_retire::opening_spares;
use lst_rule::{Seat, Spares, Store};
use lst_seat::open_store;
use lst_txn::{BeginFault as BeginRefusal, Idle as NotBegun};
use std::alloc::Global;

/// All sessions of a store and its merger, at one seat, with the spare frames.
#[derive(Drop)]
pub struct Crew {
    pub seat: Seat,
    pub spares: Spares,
}

/// Opens a store, with the crew that hosts all its sessions. All memory of the store is taken here.
pub fn open_crew(alloc: Global, layout: &Layout) -> Result<(Store, Crew), OutOfMemory>
    ensures store { IfOk result (λ both. both.0.layout ≡ layout.now) }
    ensures crew { IfOk result (λ both. IsCrewOf both.0 both.1) }
    ensures view { IfOk result (λ both. both.1.seat.view ≡ crew layout.now.limits) }
    ensures limits { IfOk result (λ both. both.1.seat.view.limits ≡ layout.now.limits) }
    ensures tells { IfOk result (λ both. TellsState both.1.seat.view) }
    ensures opening { IfOk result (λ both. state_told both.1.seat.view ≡ opening) }
{
    let (store, seat) = open_store(alloc, layout)?;
    let spares = opening_spares(&layout.limits);
    Ok((store, Crew { seat, spares }))
}

impl Crew {
    /// Begins a session's next transaction, and answers its begin, which is the clock, loaded in this call; the session is pinned before. Active
    /// comes exactly where one is open; Spent exactly where none is and the session has begun as many as it may; Future never.
    pub fn begin(&mut self, store: &Store, s: u32) -> Result<Time, BeginRefusal>
        requires crew { IsCrewOf store.now self.old }
        requires session { s < self.old.seat.view.limits.sessions }
        ensures crew { IsCrewOf store.now self.new }
        ensures machine { TellsState self.old.seat.view → TellsState self.new.seat.view × Answers self.old.seat.view self.new.seat.view s call.Begin (begin_reply result) }
        ensures ok { IfOk result (λ b. Begins self.old.seat.view self.new.seat.view s b b false) }
        ensures active { (result ≡ Err BeginRefusal.Active) ↔ ((knows self.old.seat.view s).is_open ≡ true) }
        ensures spent { (result ≡ Err BeginRefusal.Spent) ↔ (((knows self.old.seat.view s).is_open ≡ false) × ((knows self.old.seat.view s).number ≡ self.old.seat.view.limits.txns)) }
        ensures future { (clock : ℕ) → ¬ (result ≡ Err (BeginRefusal.Future clock)) }
        ensures err { OnErr result (self.new.seat.view ≡ self.old.seat.view) }
    {
        self.seat.consider();
        begin(store, &mut self.seat, s)
    }

    /// Opens a session's next transaction, read-only, as of a time. Active and Spent come as of `begin`; Future comes exactly where the clock,
    /// loaded in this call, is below the time.
    pub fn as_of(&mut self, store: &Store, s: u32, time: Time) -> Result<Time, BeginRefusal>
        requires crew { IsCrewOf store.now self.old }
        requires session { s < self.old.seat.view.limits.sessions }
        ensures crew { IsCrewOf store.now self.new }
        ensures machine { TellsState self.old.seat.view → TellsState self.new.seat.view × Answers self.old.seat.view self.new.seat.view s (call.AsOf time) (begin_reply result) }
        ensures ok { IfOk result (λ b. (b ≡ time) × ((clock : ℕ) × Begins self.old.seat.view self.new.seat.view s clock time true)) }
        ensures active { (result ≡ Err BeginRefusal.Active) ↔ ((knows self.old.seat.view s).is_open ≡ true) }
        ensures spent { (result ≡ Err BeginRefusal.Spent) ↔ (((knows self.old.seat.view s).is_open ≡ false) × ((knows self.old.seat.view s).number ≡ self.old.seat.view.limits.txns)) }
        ensures future { (clock : ℕ) → result ≡ Err (BeginRefusal.Future clock) → IsAhead self.old.seat.view self.new.seat.view s clock time }
        ensures never { time ≤ length (knows self.old.seat.view s).seen → (clock : ℕ) → ¬ (result ≡ Err (BeginRefusal.Future clock)) }
        ensures still { (result ≡ Err BeginRefusal.Active) ⊎ (result ≡ Err BeginRefusal.Spent) → self.new.seat.view ≡ self.old.seat.view }
    {
        self.seat.consider();
        as_of(store, &mut self.seat, s, time)
    }

    /// The row of a key that a session's open transaction sees. It is refused exactly where none is open. Where the crew tells a state of the
    /// machine in which the pages of all columns have folded every accepted write on the key, each ended by the transaction's begin, no word of a tail
    /// record is loaded.
    pub fn get(&mut self, store: &Store, s: u32, key: Key) -> Result<Option<Row>, NotBegun>
        requires crew { IsCrewOf store.now self.old }
        requires session { s < self.old.seat.view.limits.sessions }
        ensures crew { IsCrewOf store.now self.new }
        ensures machine { TellsState self.old.seat.view → TellsState self.new.seat.view × Answers self.old.seat.view self.new.seat.view s (call.Get key) (get_reply result) }
        ensures ok { IfOk result (λ row. ((knows self.old.seat.view s).is_open ≡ true) × Gets self.old.seat.view self.new.seat.view s key row) }
        ensures saves { SavesTails self.old.seat.view self.new.seat.view s key }
        ensures err { OnErr result (((knows self.old.seat.view s).is_open ≡ false) × (self.new.seat.view ≡ self.old.seat.view)) }
    {
        self.seat.consider();
        if !self.seat.is_open(s) {
            return Err(NotBegun);
        }
        Ok(read(store, &mut self.seat, s, key))
    }

    /// Puts a row of a key of which the session's transaction sees none. `Cause` says when each refusal comes; Latched never does.
    pub fn insert(&mut self, store: &Store, s: u32, key: Key, row: &Row) -> Result<(), WriteRefusal>
        requires crew { IsCrewOf store.now self.old }
        requires session { s < self.old.seat.view.limits.sessions }
        requires row { length row.now ≡ self.old.seat.view.limits.columns }
        ensures crew { IsCrewOf store.now self.new }
        ensures machine { TellsState self.old.seat.view → TellsState self.new.seat.view × Answers self.old.seat.view self.new.seat.view s (call.Insert key row.now) (write_reply result) }
        ensures ok { OnOk result (Accepts self.old.seat.view self.new.seat.view s key 1 (Put row.now)) }
        ensures err { IfErr result (λ refusal. Refuses self.old.seat.view self.new.seat.view s key 1 × Cause self.old.seat.view self.new.seat.view s key (Put row.now) refusal) }
        ensures never { ¬ (result ≡ Err WriteRefusal.Latched) }
    {
        self.seat.consider();
        insert(store, &mut self.seat, s, key, &Act::Put(row.copied()))
    }

    /// Sets cells of the row of a key that the session's transaction sees. `Cause` says when each refusal comes; Latched never does.
    pub fn update(
        &mut self,
        store: &Store,
        s: u32,
        key: Key,
        patch: &Patch,
    ) -> Result<(), WriteRefusal>
        requires crew { IsCrewOf store.now self.old }
        requires session { s < self.old.seat.view.limits.sessions }
        requires patch { IsPatch self.old.seat.view.limits.columns patch.now }
        ensures crew { IsCrewOf store.now self.new }
        ensures machine { TellsState self.old.seat.view → TellsState self.new.seat.view × Answers self.old.seat.view self.new.seat.view s (call.Update key patch.now) (write_reply result) }
        ensures ok { OnOk result (Accepts self.old.seat.view self.new.seat.view s key 0 (Set patch.now)) }
        ensures err { IfErr result (λ refusal. Refuses self.old.seat.view self.new.seat.view s key 0 × Cause self.old.seat.view self.new.seat.view s key (Set patch.now) refusal) }
        ensures never { ¬ (result ≡ Err WriteRefusal.Latched) }
    {
        self.seat.consider();
        change(store, &mut self.seat, s, key, &Act::Set(patch.copied()))
    }

    /// Deletes the row of a key that the session's transaction sees. Its refusals are those of `update`.
    pub fn delete(&mut self, store: &Store, s: u32, key: Key) -> Result<(), WriteRefusal>
        requires crew { IsCrewOf store.now self.old }
        requires session { s < self.old.seat.view.limits.sessions }
        ensures crew { IsCrewOf store.now self.new }
        ensures machine { TellsState self.old.seat.view → TellsState self.new.seat.view × Answers self.old.seat.view self.new.seat.view s (call.Delete key) (write_reply result) }
        ensures ok { OnOk result (Accepts self.old.seat.view self.new.seat.view s key 0 Del) }
        ensures err { IfErr result (λ refusal. Refuses self.old.seat.view self.new.seat.view s key 0 × Cause self.old.seat.view self.new.seat.view s key Del refusal) }
        ensures never { ¬ (result ≡ Err WriteRefusal.Latched) }
    {
        self.seat.consider();
        change(store, &mut self.seat, s, key, &Act::Del)
    }

    /// Commits a session's transaction, and answers its time; one without writes only ends, and its begin is answered. It never waits, and is
    /// refused exactly where no transaction is open.
    pub fn commit(&mut self, store: &Store, s: u32) -> Result<Outcome, NotBegun>
        requires crew { IsCrewOf store.now self.old }
        requires session { s < self.old.seat.view.limits.sessions }
        ensures crew { IsCrewOf store.now self.new }
        ensures machine { TellsState self.old.seat.view → TellsState self.new.seat.view × Answers self.old.seat.view self.new.seat.view s call.Commit (commit_reply result) }
        ensures committed { (time : ℕ) → result ≡ Ok (Outcome.Committed time) → Commits self.old.seat.view self.new.seat.view s time }
        ensures ended { (time : ℕ) → result ≡ Ok (Outcome.Ended time) → (time ≡ (knows self.old.seat.view s).begin) × ((knows self.old.seat.view s).own ≡ []) × Ends self.old.seat.view self.new.seat.view s }
        ensures idle { IsErr result ↔ ((knows self.old.seat.view s).is_open ≡ false) }
        ensures still { OnErr result (self.new.seat.view ≡ self.old.seat.view) }
    {
        self.seat.consider();
        if !self.seat.is_open(s) {
            return Err(NotBegun);
        }
        match end(store, &mut self.seat, s) {
            Ok(outcome) => Ok(outcome),
            Err(CommitRefusal::Busy) => unreachable!(),
            Err(CommitRefusal::Idle) => unreachable!(),
        }
    }

    /// Ends a session's transaction without a commit: its writes are never seen. It is refused exactly where none is open.
    pub fn abort(&mut self, store: &Store, s: u32) -> Result<(), NotBegun>
        requires crew { IsCrewOf store.now self.old }
        requires session { s < self.old.seat.view.limits.sessions }
        ensures crew { IsCrewOf store.now self.new }
        ensures machine { TellsState self.old.seat.view → TellsState self.new.seat.view × Answers self.old.seat.view self.new.seat.view s call.Abort (abort_reply result) }
        ensures ok { OnOk result (((knows self.old.seat.view s).is_open ≡ true) × Ends self.old.seat.view self.new.seat.view s) }
        ensures err { OnErr result (((knows self.old.seat.view s).is_open ≡ false) × (self.new.seat.view ≡ self.old.seat.view)) }
    {
        self.seat.consider();
        abort(store, &mut self.seat, s)
    }
}
