//! The calls of a session.
ghost use Rattle.std.specs.Prelude.{◌≡◌, ℕ, ◌+◌, ◌<◌, ◌≤◌, IfOk, OnErr, Some, None, slice_index, slice_index_or, length, map, true, IsTrue};
ghost use Rattle.std.specs.List.{Contains};
ghost use Rattle.lst_layout.specs.declared.limits.Limits.{Limits};
ghost use Rattle.lst_model.specs.Lines.{CallFits};
ghost use Rattle.lst_machine.specs.State.{Store};
ghost use Rattle.lst_machine.specs.Calls.{call_reply};
ghost use Rattle.lst_plain.specs.Rows.{Kept, newest, is_held, settled};
ghost use Rattle.lst_plain.specs.Engines.{session_of, is_open};
ghost use Rattle.lst_plain.specs.Steps.{refusal_of_begin, with_transaction, with_end};
ghost use Rattle.lst_plain.specs.Telling.{StoreTells};
ghost use Rattle.lst_plain.specs.EngineOf.{engine_of, AnswersCall};

use crate::engine::Engine;
use crate::records::Records;
use lst_machine::{Transaction, refused};
use lst_model::{Act, Call, Cause, Key, OutOfMemory, Reply, Time};

impl Engine {
    /// The answer to a session's call.
    pub(crate) fn call(&mut self, session: u32, call: &Call) -> Result<Reply, OutOfMemory>
        requires within { session < self.old.limits.sessions }
        requires fits { CallFits self.old.limits.columns call.now }
        ensures limits { self.new.limits ≡ self.old.limits }
        ensures ok { IfOk result (λ reply. AnswersCall self.old self.new session call.now reply) }
        ensures err { OnErr result (engine_of self.new ≡ engine_of self.old) }
    {
        match call {
            Call::Begin => Ok(self.begin(session)),
            Call::AsOf { time } => Ok(self.as_of(session, *time)),
            Call::Get { key } => Ok(self.get(session, *key)),
            Call::Insert { key, row } => self.insert(session, *key, row),
            Call::Update { key, patch } => self.change(session, *key, &Act::Set(patch.copied())),
            Call::Delete { key } => self.change(session, *key, &Act::Del),
            Call::Commit => Ok(self.commit(session)),
            Call::Abort => Ok(self.abort(session)),
            Call::Sum { .. } | Call::Count | Call::Scan | Call::Find { .. } => {
                self.scan(session, call)
            }
        }
    }

    /// The open transaction of a session.
    pub(crate) fn transaction(&self, session: u32) -> Option<Transaction>
        requires { session < self.now.limits.sessions }
        ensures { result ≡ (session_of (engine_of self.now) session).transaction }
    {
        self.sessions[session as usize].transaction()
    }

    fn begin_refusal(&self, session: u32) -> Option<Cause>
        requires { session < self.now.limits.sessions }
        ensures { result ≡ refusal_of_begin (engine_of self.now) session }
    {
        let state = &self.sessions[session as usize];
        if state.transaction().is_some() {
            return Some(Cause::Active);
        }
        if state.begins() >= self.limits.txns {
            return Some(Cause::Spent);
        }
        None
    }

    fn begin(&mut self, session: u32) -> Reply
        requires { session < self.old.limits.sessions }
        ensures limits { self.new.limits ≡ self.old.limits }
        ensures answers { AnswersCall self.old self.new session Call.Begin result }
    {
        if let Some(cause) = self.begin_refusal(session) {
            return refused(cause);
        }
        let time = self.clock;
        self.open(session, time, false);
        Reply::Begun { time }
    }

    fn as_of(&mut self, session: u32, time: Time) -> Reply
        requires { session < self.old.limits.sessions }
        ensures limits { self.new.limits ≡ self.old.limits }
        ensures answers { AnswersCall self.old self.new session (Call.AsOf time) result }
    {
        if let Some(cause) = self.begin_refusal(session) {
            return refused(cause);
        }
        if self.clock < time {
            return refused(Cause::Future { clock: self.clock });
        }
        self.open(session, time, true);
        Reply::Begun { time }
    }

    /// Opens the next transaction of a session.
    fn open(&mut self, session: u32, begin: Time, read_only: bool)
        requires within { session < self.old.limits.sessions }
        requires free { refusal_of_begin (engine_of self.old) session ≡ None }
        ensures { engine_of self.new ≡ with_transaction (engine_of self.old) session (record { begin = begin; read_only = read_only }) }
    {
        self.sessions[session as usize].open(Transaction { begin, read_only });
    }

    fn get(&self, session: u32, key: Key) -> Reply
        requires { session < self.now.limits.sessions }
        ensures { (limits : Limits) (store : Store) → StoreTells (engine_of self.now) limits store → result ≡ call_reply limits store session (Call.Get key) }
    {
        let Some(transaction) = self.transaction(session) else {
            return refused(Cause::Idle);
        };
        let Some(place) = self.records.place(key) else {
            return Reply::Absent;
        };
        match self.records.at(place).row(session, transaction.begin) {
            Some(row) => Reply::Row { row },
            None => Reply::Absent,
        }
    }

    fn commit(&mut self, session: u32) -> Reply
        requires { session < self.old.limits.sessions }
        ensures limits { self.new.limits ≡ self.old.limits }
        ensures answers { AnswersCall self.old self.new session Call.Commit result }
    {
        let Some(transaction) = self.transaction(session) else {
            return refused(Cause::Idle);
        };
        if self.sessions[session as usize].written().is_empty() {
            self.end(session, None);
            return Reply::Ended {
                time: transaction.begin,
            };
        }
        let time = self.clock + 1;
        self.end(session, Some(time));
        Reply::Committed { time }
    }

    fn abort(&mut self, session: u32) -> Reply
        requires { session < self.old.limits.sessions }
        ensures limits { self.new.limits ≡ self.old.limits }
        ensures answers { AnswersCall self.old self.new session Call.Abort result }
    {
        let Some(_transaction) = self.transaction(session) else {
            return refused(Cause::Idle);
        };
        self.end(session, None);
        Reply::Aborted
    }

    /// Ends the open transaction of a session, with a commit at this time or without one.
    fn end(&mut self, session: u32, time: Option<Time>)
        requires within { session < self.old.limits.sessions }
        requires opened { IsTrue (is_open (session_of (engine_of self.old) session)) }
        requires next { (t : ℕ) → time ≡ Some t → t ≡ self.old.clock + 1 }
        ensures { engine_of self.new ≡ with_end (engine_of self.old) session time }
    {
        let state = &mut self.sessions[session as usize];
        settle_all(&mut self.records, state.written(), session, time);
        state.close();
        self.clock = time.unwrap_or(self.clock);
    }
}

/// Ends what a session's transaction has made of the rows at these places, which are all that it has made.
fn settle_all(records: &mut Records, places: &[usize], session: u32, time: Option<Time>)
    requires within { (place : ℕ) → Contains places.now place → place < length records.old }
    requires noted { (place : ℕ) (kept : Kept) → place < length records.old → is_held (slice_index_or records.old place kept).pending session ≡ true → Contains places.now place }
    requires early { (t place : ℕ) (kept : Kept) → time ≡ Some t → place < length records.old → newest (slice_index_or records.old place kept).versions ≤ t }
    ensures { records.new ≡ map (settled time session) records.old }
{
    for place in places {
        records.settle(*place, session, time);
    }
}
