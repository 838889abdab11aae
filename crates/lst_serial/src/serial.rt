//! A session at the serializable level.
ghost use Rattle.std.specs.Prelude.{◌≡◌, ◌≢◌, ◌⊎◌, ◌↔◌, ℕ, ◌≤◌, [], true, false, IfOk, IfErr, OnOk, OnErr, Ok, Err, length};
ghost use Rattle.lst_model.specs.declared.acts.Act.TheVariants.{Put, Set, Del};
ghost use Rattle.lst_model.specs.Lines.{IsPatch};
ghost use Rattle.lst_rule.specs.Rule.{knows, hosts};
ghost use Rattle.lst_session.specs.Calls.{Begins, IsAhead, Gets, Accepts, Refuses, Cause, Ends, FindsHeld};
ghost use Rattle.lst_session.specs.Passes.{IsReady};
ghost use Rattle.lst_serial.specs.Keys.{has, Joins, SameKeys};
ghost use Rattle.lst_serial.specs.Serials.{JoinsWhereOpen, CommitsInPlace, FindsStale};

use crate::checks::try_end;
use crate::keys::KeySet;
use crate::kinds::{SerialCommit, SerialRead, SerialWrite};
use lst_model::{Key, OutOfMemory, Patch, Row, Time};
use lst_rule::Store;
use lst_session::{BeginRefusal, NotBegun, Outcome, Session, WriteRefusal};
use std::alloc::Global;

/// A session whose transactions are serializable, with its read set: the keys that its open transaction has read, or that it has read all.
#[derive(Drop)]
pub struct Serial {
    pub(crate) session: Session,
    pub(crate) keys: KeySet,
    pub(crate) all: bool,
}

impl Serial {
    /// An idle session at the serializable level. The read set takes its memory from the allocator, and none yet.
    pub fn new(alloc: Global, session: Session) -> Serial
        requires idle { (knows session.seat.view session.number).is_open ≡ false }
        ensures session { result.session ≡ session }
        ensures empty { (key : ℕ) → has result.keys key ≡ false }
        ensures some { result.all ≡ false }
    {
        Serial {
            session,
            keys: KeySet::new(alloc),
            all: false,
        }
    }

    /// Gives the session back.
    pub fn give(self) -> Session
        ensures { result ≡ self.session }
    {
        let Serial { session, .. } = self;
        session
    }

    /// Begins the next transaction as `Session::begin` does, with the same answers. Then the read set is empty; where it is refused the read set stays.
    pub fn begin(&mut self, store: &Store) -> Result<Time, BeginRefusal>
        requires ready { IsReady store.now self.old.session }
        ensures ready { IsReady store.now self.new.session }
        ensures number { self.new.session.number ≡ self.old.session.number }
        ensures ok { IfOk result (λ b. Begins self.old.session.seat.view self.new.session.seat.view self.old.session.number b b false) }
        ensures active { (result ≡ Err BeginRefusal.Active) ↔ ((knows self.old.session.seat.view self.old.session.number).is_open ≡ true) }
        ensures spent { (result ≡ Err BeginRefusal.Spent) ↔ (((knows self.old.session.seat.view self.old.session.number).is_open ≡ false) × ((knows self.old.session.seat.view self.old.session.number).number ≡ self.old.session.seat.view.limits.txns)) }
        ensures future { (clock : ℕ) → ¬ (result ≡ Err (BeginRefusal.Future clock)) }
        ensures err { OnErr result ((self.new.session.seat.view ≡ self.old.session.seat.view) × (self.new.keys ≡ self.old.keys) × (self.new.all ≡ self.old.all)) }
        ensures empty { OnOk result (((key : ℕ) → has self.new.keys key ≡ false) × (self.new.all ≡ false)) }
    {
        match self.session.begin(store) {
            Ok(begin) => {
                self.forget();
                Ok(begin)
            }
            Err(refusal) => Err(refusal),
        }
    }

    /// Opens a read-only transaction as of a time as `Session::as_of` does, with the same answers. Then the read set is empty; where it is refused the read
    /// set stays.
    pub fn as_of(&mut self, store: &Store, time: Time) -> Result<Time, BeginRefusal>
        requires ready { IsReady store.now self.old.session }
        ensures ready { IsReady store.now self.new.session }
        ensures number { self.new.session.number ≡ self.old.session.number }
        ensures ok { IfOk result (λ b. (b ≡ time) × ((clock : ℕ) × Begins self.old.session.seat.view self.new.session.seat.view self.old.session.number clock time true)) }
        ensures active { (result ≡ Err BeginRefusal.Active) ↔ ((knows self.old.session.seat.view self.old.session.number).is_open ≡ true) }
        ensures spent { (result ≡ Err BeginRefusal.Spent) ↔ (((knows self.old.session.seat.view self.old.session.number).is_open ≡ false) × ((knows self.old.session.seat.view self.old.session.number).number ≡ self.old.session.seat.view.limits.txns)) }
        ensures future { (clock : ℕ) → result ≡ Err (BeginRefusal.Future clock) → IsAhead self.old.session.seat.view self.new.session.seat.view self.old.session.number clock time }
        ensures never { time ≤ length (knows self.old.session.seat.view self.old.session.number).seen → (clock : ℕ) → ¬ (result ≡ Err (BeginRefusal.Future clock)) }
        ensures still { (result ≡ Err BeginRefusal.Active) ⊎ (result ≡ Err BeginRefusal.Spent) → self.new.session.seat.view ≡ self.old.session.seat.view }
        ensures empty { OnOk result (((key : ℕ) → has self.new.keys key ≡ false) × (self.new.all ≡ false)) }
        ensures kept { OnErr result ((self.new.keys ≡ self.old.keys) × (self.new.all ≡ self.old.all)) }
    {
        match self.session.as_of(store, time) {
            Ok(begin) => {
                self.forget();
                Ok(begin)
            }
            Err(refusal) => Err(refusal),
        }
    }

    /// The row of a key, as `Session::get` answers it. Where a transaction is open the key joins the read set. Idle comes exactly where none is open;
    /// OutOfMemory only where one is, and nothing has changed then.
    pub fn get(&mut self, store: &Store, key: Key) -> Result<Option<Row>, SerialRead>
        requires ready { IsReady store.now self.old.session }
        ensures ready { IsReady store.now self.new.session }
        ensures number { self.new.session.number ≡ self.old.session.number }
        ensures ok { IfOk result (λ row. Gets self.old.session.seat.view self.new.session.seat.view self.old.session.number key row) }
        ensures joins { OnOk result (Joins self.old.keys self.new.keys key) }
        ensures all { self.new.all ≡ self.old.all }
        ensures idle { (result ≡ Err SerialRead.Idle) ↔ ((knows self.old.session.seat.view self.old.session.number).is_open ≡ false) }
        ensures err { OnErr result ((self.new.session.seat.view ≡ self.old.session.seat.view) × SameKeys self.old.keys self.new.keys) }
    {
        if self.session.is_idle() {
            return Err(SerialRead::Idle);
        }
        if let Err(OutOfMemory) = self.keys.insert(key) {
            return Err(SerialRead::OutOfMemory);
        }
        match self.session.get(store, key) {
            Ok(row) => Ok(row),
            Err(NotBegun) => unreachable!(),
        }
    }

    /// Puts a row of a key as `Session::insert` does, each refusal of which comes as Refused. Where a transaction is open the key joins the read set first.
    /// OutOfMemory comes only where one is open, and nothing has changed then.
    pub fn insert(&mut self, store: &Store, key: Key, row: &Row) -> Result<(), SerialWrite>
        requires ready { IsReady store.now self.old.session }
        requires row { length row.now ≡ self.old.session.seat.view.limits.columns }
        ensures ready { IsReady store.now self.new.session }
        ensures number { self.new.session.number ≡ self.old.session.number }
        ensures ok { OnOk result (Accepts self.old.session.seat.view self.new.session.seat.view self.old.session.number key 1 (Put row.now)) }
        ensures refused { (cause : WriteRefusal) → result ≡ Err (SerialWrite.Refused cause) → Refuses self.old.session.seat.view self.new.session.seat.view self.old.session.number key 1 × Cause self.old.session.seat.view self.new.session.seat.view self.old.session.number key (Put row.now) cause }
        ensures joins { ¬ (result ≡ Err SerialWrite.OutOfMemory) → JoinsWhereOpen (knows self.old.session.seat.view self.old.session.number) self.old.keys self.new.keys key }
        ensures memory { result ≡ Err SerialWrite.OutOfMemory → ((knows self.old.session.seat.view self.old.session.number).is_open ≡ true) × (self.new.session ≡ self.old.session) × SameKeys self.old.keys self.new.keys }
        ensures all { self.new.all ≡ self.old.all }
    {
        if let Err(OutOfMemory) = self.join(key) {
            return Err(SerialWrite::OutOfMemory);
        }
        match self.session.insert(store, key, row) {
            Ok(()) => Ok(()),
            Err(cause) => Err(SerialWrite::Refused { cause }),
        }
    }

    /// Sets cells of a row as `Session::update` does, with the rules of `insert`.
    pub fn update(&mut self, store: &Store, key: Key, patch: &Patch) -> Result<(), SerialWrite>
        requires ready { IsReady store.now self.old.session }
        requires patch { IsPatch self.old.session.seat.view.limits.columns patch.now }
        ensures ready { IsReady store.now self.new.session }
        ensures number { self.new.session.number ≡ self.old.session.number }
        ensures ok { OnOk result (Accepts self.old.session.seat.view self.new.session.seat.view self.old.session.number key 0 (Set patch.now)) }
        ensures refused { (cause : WriteRefusal) → result ≡ Err (SerialWrite.Refused cause) → Refuses self.old.session.seat.view self.new.session.seat.view self.old.session.number key 0 × Cause self.old.session.seat.view self.new.session.seat.view self.old.session.number key (Set patch.now) cause }
        ensures joins { ¬ (result ≡ Err SerialWrite.OutOfMemory) → JoinsWhereOpen (knows self.old.session.seat.view self.old.session.number) self.old.keys self.new.keys key }
        ensures memory { result ≡ Err SerialWrite.OutOfMemory → ((knows self.old.session.seat.view self.old.session.number).is_open ≡ true) × (self.new.session ≡ self.old.session) × SameKeys self.old.keys self.new.keys }
        ensures all { self.new.all ≡ self.old.all }
    {
        if let Err(OutOfMemory) = self.join(key) {
            return Err(SerialWrite::OutOfMemory);
        }
        match self.session.update(store, key, patch) {
            Ok(()) => Ok(()),
            Err(cause) => Err(SerialWrite::Refused { cause }),
        }
    }

    /// Deletes a row as `Session::delete` does, with the rules of `insert`.
    pub fn delete(&mut self, store: &Store, key: Key) -> Result<(), SerialWrite>
        requires ready { IsReady store.now self.old.session }
        ensures ready { IsReady store.now self.new.session }
        ensures number { self.new.session.number ≡ self.old.session.number }
        ensures ok { OnOk result (Accepts self.old.session.seat.view self.new.session.seat.view self.old.session.number key 0 Del) }
        ensures refused { (cause : WriteRefusal) → result ≡ Err (SerialWrite.Refused cause) → Refuses self.old.session.seat.view self.new.session.seat.view self.old.session.number key 0 × Cause self.old.session.seat.view self.new.session.seat.view self.old.session.number key Del cause }
        ensures joins { ¬ (result ≡ Err SerialWrite.OutOfMemory) → JoinsWhereOpen (knows self.old.session.seat.view self.old.session.number) self.old.keys self.new.keys key }
        ensures memory { result ≡ Err SerialWrite.OutOfMemory → ((knows self.old.session.seat.view self.old.session.number).is_open ≡ true) × (self.new.session ≡ self.old.session) × SameKeys self.old.keys self.new.keys }
        ensures all { self.new.all ≡ self.old.all }
    {
        if let Err(OutOfMemory) = self.join(key) {
            return Err(SerialWrite::OutOfMemory);
        }
        match self.session.delete(store, key) {
            Ok(()) => Ok(()),
            Err(cause) => Err(SerialWrite::Refused { cause }),
        }
    }

    /// Tries once to commit the transaction, and answers its time; a transaction without writes only ends, and its begin is answered. A commit is made where no
    /// commit above the begin changed what was read, so that it is at its serial place. Idle comes exactly where none is open. Busy comes only where the
    /// commit word was found held, and never without writes. Stale comes of a transaction with writes, and exactly where a commit above the begin changed what was read, in the
    /// history that was seen while the commit word was held. After Busy and Stale the transaction stays open.
    pub fn try_commit(&mut self, store: &Store) -> Result<Outcome, SerialCommit>
        requires ready { IsReady store.now self.old.session }
        ensures ready { IsReady store.now self.new.session }
        ensures number { self.new.session.number ≡ self.old.session.number }
        ensures committed { (time : ℕ) → result ≡ Ok (Outcome.Committed time) → CommitsInPlace self.old.session.seat.view self.new.session.seat.view self.old.session.number self.old.keys self.old.all time }
        ensures ended { (time : ℕ) → result ≡ Ok (Outcome.Ended time) → (time ≡ (knows self.old.session.seat.view self.old.session.number).begin) × ((knows self.old.session.seat.view self.old.session.number).own ≡ []) × Ends self.old.session.seat.view self.new.session.seat.view self.old.session.number }
        ensures stale { (time : ℕ) → result ≡ Err (SerialCommit.Stale time) → FindsStale self.old.session.seat.view self.new.session.seat.view self.old.session.number self.old.keys self.old.all time }
        ensures busy { result ≡ Err SerialCommit.Busy → FindsHeld self.old.session.seat.view self.new.session.seat.view self.old.session.number }
        ensures idle { (result ≡ Err SerialCommit.Idle) ↔ ((knows self.old.session.seat.view self.old.session.number).is_open ≡ false) }
        ensures still { result ≡ Err SerialCommit.Idle → self.new.session.seat.view ≡ self.old.session.seat.view }
        ensures reads { (self.new.keys ≡ self.old.keys) × (self.new.all ≡ self.old.all) }
    {
        if self.session.is_idle() {
            return Err(SerialCommit::Idle);
        }
        try_end(&mut self.session, store, &self.keys, self.all)
    }

    /// Ends the transaction without a commit, as `Session::abort` does.
    pub fn abort(&mut self, store: &Store) -> Result<(), NotBegun>
        requires ready { IsReady store.now self.old.session }
        ensures ready { IsReady store.now self.new.session }
        ensures number { self.new.session.number ≡ self.old.session.number }
        ensures ok { OnOk result (((knows self.old.session.seat.view self.old.session.number).is_open ≡ true) × Ends self.old.session.seat.view self.new.session.seat.view self.old.session.number) }
        ensures err { OnErr result (((knows self.old.session.seat.view self.old.session.number).is_open ≡ false) × (self.new.session.seat.view ≡ self.old.session.seat.view)) }
        ensures reads { (self.new.keys ≡ self.old.keys) × (self.new.all ≡ self.old.all) }
    {
        self.session.abort(store)
    }

    /// Whether the read set names this key. It doesn't name the keys that were read with all others.
    pub fn has_read(&self, key: Key) -> bool
        ensures { result ≡ has self.now.keys key }
    {
        self.keys.contains(key)
    }

    /// Whether the open transaction has read all keys at once.
    pub fn has_read_all(&self) -> bool
        ensures { result ≡ self.now.all }
    {
        self.all
    }

    /// How many commits the session has seen, which is also the time of the last one.
    pub fn seen(&self) -> Time
        requires { hosts self.now.session.seat.view self.now.session.number ≡ true }
        ensures { result ≡ length (knows self.now.session.seat.view self.now.session.number).seen }
    {
        self.session.seen()
    }

    /// Empties the read set.
    fn forget(&mut self)
        ensures session { self.new.session ≡ self.old.session }
        ensures empty { (key : ℕ) → has self.new.keys key ≡ false }
        ensures some { self.new.all ≡ false }
    {
        self.keys.clear();
        self.all = false;
    }

    /// Lets a key join the read set where a transaction is open.
    fn join(&mut self, key: Key) -> Result<(), OutOfMemory>
        requires host { hosts self.old.session.seat.view self.old.session.number ≡ true }
        ensures session { self.new.session ≡ self.old.session }
        ensures all { self.new.all ≡ self.old.all }
        ensures ok { OnOk result (JoinsWhereOpen (knows self.old.session.seat.view self.old.session.number) self.old.keys self.new.keys key) }
        ensures err { OnErr result (((knows self.old.session.seat.view self.old.session.number).is_open ≡ true) × SameKeys self.old.keys self.new.keys) }
    {
        if self.session.is_idle() {
            return Ok(());
        }
        self.keys.insert(key)
    }
}
