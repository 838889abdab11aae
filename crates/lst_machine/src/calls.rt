//! The calls of a session.
ghost use Rattle.std.specs.Prelude.{◌≡◌, ◌<◌, IfOk, OnErr, OnOk, None, length};
ghost use Rattle.lst_model.specs.Lines.{CallFits};
ghost use Rattle.lst_machine.specs.Calls.{begin_refusal, call_reply, with_opened, with_closed};
ghost use Rattle.lst_machine.specs.Merges.{begun_unless};
ghost use Rattle.lst_machine.specs.Scans.{IsScan};
ghost use Rattle.lst_machine.specs.Transactions.{opened_as};
ghost use Rattle.lst_machine.specs.Machines.{store_of, state_of, opens, closes, AnswersLine};

use crate::answers::{Transaction, answer_from_rows, lacks_index, refused};
use crate::machine::Machine;
use lst_model::{Act, Call, Cause, Commit, Key, Line, OutOfMemory, Reply, Time, Writes};

impl Machine {
    /// The answer to a session's call.
    pub(crate) fn call(&mut self, session: u32, call: &Call) -> Result<Reply, OutOfMemory>
        requires within { session < self.old.limits.sessions }
        requires fits { CallFits self.old.limits.columns call.now }
        ensures limits { self.new.limits ≡ self.old.limits }
        ensures ok { IfOk result (λ reply. AnswersLine self.old self.new (Line.Call session call.now) reply) }
        ensures err { OnErr result (state_of self.new ≡ state_of self.old) }
    {
        match call {
            Call::Begin => Ok(self.begin(session)),
            Call::AsOf { time } => Ok(self.as_of(session, *time)),
            Call::Get { key } => self.get(session, *key),
            Call::Insert { key, row } => self.insert(session, *key, row),
            Call::Update { key, patch } => self.change(session, *key, &Act::Set(patch.copied())),
            Call::Delete { key } => self.change(session, *key, &Act::Del),
            Call::Commit => self.commit(session),
            Call::Abort => self.abort(session),
            Call::Sum { .. } | Call::Count | Call::Scan | Call::Find { .. } => self.scan(
                session, call,
            ),
        }
    }

    /// The number of commits.
    fn clock(&self) -> Time
        ensures { result ≡ length (store_of self.now).history }
    {
        self.history.len() as u64
    }

    /// The open transaction of a session.
    pub(crate) fn transaction(&self, session: u32) -> Option<Transaction>
        requires { session < self.now.limits.sessions }
        ensures { opened_as result ≡ (store_of self.now).opened session }
    {
        self.sessions[session as usize].transaction()
    }

    fn begin_refusal(&self, session: u32) -> Option<Cause>
        requires { session < self.now.limits.sessions }
        ensures { result ≡ begin_refusal self.now.limits (store_of self.now) session }
    {
        let state = &self.sessions[session as usize];
        if state.is_open() {
            return Some(Cause::Active);
        }
        if state.begins() >= self.limits.txns {
            return Some(Cause::Spent);
        }
        None
    }

    fn begin(&mut self, session: u32) -> Reply
        requires { session < self.old.limits.sessions }
        ensures limits { self.new.limits ≡ self.old.limits }
        ensures answers { AnswersLine self.old self.new (Line.Call session Call.Begin) result }
    {
        if let Some(cause) = self.begin_refusal(session) {
            return refused(cause);
        }
        let time = self.clock();
        self.open(session, time, false);
        Reply::Begun { time }
    }

    fn as_of(&mut self, session: u32, time: Time) -> Reply
        requires { session < self.old.limits.sessions }
        ensures limits { self.new.limits ≡ self.old.limits }
        ensures answers { AnswersLine self.old self.new (Line.Call session (Call.AsOf time)) result }
    {
        if let Some(cause) = self.begin_refusal(session) {
            return refused(cause);
        }
        let clock = self.clock();
        if clock < time {
            return refused(Cause::Future { clock });
        }
        self.open(session, time, true);
        Reply::Begun { time }
    }

    /// Opens the next transaction of a session.
    fn open(&mut self, session: u32, begin: Time, read_only: bool)
        requires within { session < self.old.limits.sessions }
        requires free { begin_refusal self.old.limits (store_of self.old) session ≡ None }
        ensures limits { self.new.limits ≡ self.old.limits }
        ensures opens { state_of self.new ≡ opens (state_of self.old) session begin read_only }
    {
        let swaps = self.swaps.len() as u64;
        self.sessions[session as usize].open(Transaction { begin, read_only }, swaps);
    }

    fn get(&self, session: u32, key: Key) -> Result<Reply, OutOfMemory>
        requires { session < self.now.limits.sessions }
        ensures { IfOk result (λ reply. reply ≡ call_reply self.now.limits (store_of self.now) session (Call.Get key)) }
    {
        let Some(transaction) = self.transaction(session) else {
            return Ok(refused(Cause::Idle));
        };
        let sight = self.sight(session, transaction.begin)?;
        match sight.row(key) {
            Some(row) => Ok(Reply::Row { row }),
            None => Ok(Reply::Absent),
        }
    }

    /// The answer to a sum, a count, a scan or a find.
    fn scan(&self, session: u32, call: &Call) -> Result<Reply, OutOfMemory>
        requires within { session < self.now.limits.sessions }
        requires scan { IsScan call.now }
        ensures { IfOk result (λ reply. reply ≡ call_reply self.now.limits (store_of self.now) session call.now) }
    {
        let Some(transaction) = self.transaction(session) else {
            return Ok(refused(Cause::Idle));
        };
        if lacks_index(&self.limits, call) {
            return Ok(refused(Cause::NotIndexed));
        }
        let sight = self.sight(session, transaction.begin)?;
        let rows = sight.rows()?;
        answer_from_rows(self.alloc, call, rows)
    }

    fn commit(&mut self, session: u32) -> Result<Reply, OutOfMemory>
        requires { session < self.old.limits.sessions }
        ensures limits { self.new.limits ≡ self.old.limits }
        ensures ok { IfOk result (λ reply. AnswersLine self.old self.new (Line.Call session Call.Commit) reply) }
        ensures err { OnErr result (state_of self.new ≡ state_of self.old) }
    {
        let Some(transaction) = self.transaction(session) else {
            return Ok(refused(Cause::Idle));
        };
        let writes = self.own_writes(session)?;
        if writes.is_empty() {
            self.close(session)?;
            return Ok(Reply::Ended {
                time: transaction.begin,
            });
        }
        self.history.push(Commit {
            session,
            number: self.sessions[session as usize].begins(),
            begin: transaction.begin,
            writes: Writes::from_items(writes),
        })?;
        self.sessions[session as usize].commit();
        Ok(Reply::Committed { time: self.clock() })
    }

    fn abort(&mut self, session: u32) -> Result<Reply, OutOfMemory>
        requires { session < self.old.limits.sessions }
        ensures limits { self.new.limits ≡ self.old.limits }
        ensures ok { IfOk result (λ reply. AnswersLine self.old self.new (Line.Call session Call.Abort) reply) }
        ensures err { OnErr result (state_of self.new ≡ state_of self.old) }
    {
        let Some(_transaction) = self.transaction(session) else {
            return Ok(refused(Cause::Idle));
        };
        self.close(session)?;
        Ok(Reply::Aborted)
    }

    /// Ends the open transaction of a session without a commit. For want of memory the state is as before.
    fn close(&mut self, session: u32) -> Result<(), OutOfMemory>
        requires { session < self.old.limits.sessions }
        ensures limits { self.new.limits ≡ self.old.limits }
        ensures ok { OnOk result (state_of self.new ≡ closes (state_of self.old) session) }
        ensures err { OnErr result (state_of self.new ≡ state_of self.old) }
    {
        self.sessions[session as usize].close()
    }
}
