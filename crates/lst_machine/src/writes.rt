//! Inserts, updates and deletes.
ghost use Rattle.std.specs.Prelude.{◌≡◌, ◌*◌, ◌<◌, IfOk, OnErr, None, length};
ghost use Rattle.lst_machine.specs.Writes.{place_of};
ghost use Rattle.lst_machine.specs.Changes.{IsChange};
ghost use Rattle.lst_machine.specs.Machines.{store_of, state_of, AnswersLine, AnswersChange, AnswersWrite, AnswersFirst};

use crate::answers::{refused, row_misfit};
use crate::machine::Machine;
use crate::parts::AcceptedWrite;
use lst_layout::RANGE_RECORDS;
use lst_model::{Act, Call, Cause, Key, Line, OutOfMemory, Reply, Row, Time, Write};

impl Machine {
    /// Inserts the row of a key.
    pub(crate) fn insert(&mut self, session: u32, key: Key, row: &Row) -> Result<Reply, OutOfMemory>
        requires { session < self.old.limits.sessions }
        ensures limits { self.new.limits ≡ self.old.limits }
        ensures ok { IfOk result (λ reply. AnswersLine self.old self.new (Line.Call session (Call.Insert key row.now)) reply) }
        ensures err { OnErr result (state_of self.new ≡ state_of self.old) }
    {
        let Some(transaction) = self.transaction(session) else {
            return Ok(refused(Cause::Idle));
        };
        if transaction.read_only {
            return Ok(refused(Cause::ReadOnly));
        }
        let act = Act::Put(row.copied());
        if self.place(key).is_some() {
            return self.write(session, transaction.begin, key, &act);
        }
        if self.placed.len() >= self.limits.ranges as usize * RANGE_RECORDS as usize {
            return Ok(refused(Cause::TableFull));
        }
        self.write_first(session, transaction.begin, key, &act)
    }

    /// Changes or deletes the row of a key.
    pub(crate) fn change(&mut self, session: u32, key: Key, act: &Act) -> Result<Reply, OutOfMemory>
        requires within { session < self.old.limits.sessions }
        requires changes { IsChange act.now }
        ensures limits { self.new.limits ≡ self.old.limits }
        ensures ok { IfOk result (λ reply. AnswersChange self.old self.new session key act.now reply) }
        ensures err { OnErr result (state_of self.new ≡ state_of self.old) }
    {
        let Some(transaction) = self.transaction(session) else {
            return Ok(refused(Cause::Idle));
        };
        if transaction.read_only {
            return Ok(refused(Cause::ReadOnly));
        }
        if self.place(key).is_none() {
            return Ok(refused(Cause::Missing));
        }
        self.write(session, transaction.begin, key, act)
    }

    /// Writes to a key that has no record yet. It gets one, which it keeps where the write is refused.
    fn write_first(
        &mut self,
        session: u32,
        begin: Time,
        key: Key,
        act: &Act,
    ) -> Result<Reply, OutOfMemory>
        requires within { session < self.old.limits.sessions }
        requires absent { place_of self.old.placed.items key ≡ None }
        requires room { length self.old.placed.items < 256 * self.old.limits.ranges }
        ensures limits { self.new.limits ≡ self.old.limits }
        ensures ok { IfOk result (λ reply. AnswersFirst self.old self.new session begin key act.now reply) }
        ensures err { OnErr result (state_of self.new ≡ state_of self.old) }
    {
        self.placed.push(key)?;
        match self.write(session, begin, key, act) {
            Ok(reply) => Ok(reply),
            Err(error) => {
                let _ = self.placed.pop();
                Err(error)
            }
        }
    }

    /// Writes to a key, in the range of its record.
    fn write(
        &mut self,
        session: u32,
        begin: Time,
        key: Key,
        act: &Act,
    ) -> Result<Reply, OutOfMemory>
        requires { session < self.old.limits.sessions }
        ensures limits { self.new.limits ≡ self.old.limits }
        ensures ok { IfOk result (λ reply. AnswersWrite self.old self.new session begin key act.now reply) }
        ensures err { OnErr result (state_of self.new ≡ state_of self.old) }
    {
        if let Some(cause) = self.conflict(session, begin, key) {
            return Ok(refused(cause));
        }
        let sight = self.sight(session, begin)?;
        if let Some(cause) = row_misfit(&sight.row(key), act) {
            return Ok(refused(cause));
        }
        let range = self.range_of(key);
        if self.ranges[range].items().len() >= self.limits.tails as usize {
            return Ok(refused(Cause::TailFull));
        }
        let number = self.sessions[session as usize].begins();
        let write = Write {
            key,
            act: act.copied(),
        };
        self.ranges[range].push(AcceptedWrite::new(session, number, write))?;
        Ok(Reply::Done)
    }
}
