//! Inserts, updates and deletes.
ghost use Rattle.std.specs.Prelude.{◌≡◌, ℕ, ◌+◌, ◌*◌, ◌/◌, ◌<◌, ◌≤◌, IfOk, OnOk, OnErr, Some, None, Option, slice_index, length};
ghost use Rattle.lst_machine.specs.Writes.{place_of};
ghost use Rattle.lst_machine.specs.Changes.{IsChange};
ghost use Rattle.lst_plain.specs.Rows.{keys_of, conflict_in};
ghost use Rattle.lst_plain.specs.Engines.{session_of, is_open};
ghost use Rattle.lst_plain.specs.Steps.{refusal_of_write, with_write, kept_at, reply_to_write, after_write, reply_to_first, after_first};
ghost use Rattle.lst_plain.specs.EngineOf.{engine_of, AnswersCall, AnswersChange};

use crate::engine::Engine;
use crate::versions::{Pending, row_changed};
use lst_layout::RANGE_RECORDS;
use lst_machine::{refused, row_misfit};
use lst_model::{Act, Call, Cause, Key, OutOfMemory, Reply, Row, Time};

impl Engine {
    /// Inserts the row of a key.
    pub(crate) fn insert(&mut self, session: u32, key: Key, row: &Row) -> Result<Reply, OutOfMemory>
        requires { session < self.old.limits.sessions }
        ensures limits { self.new.limits ≡ self.old.limits }
        ensures ok { IfOk result (λ reply. AnswersCall self.old self.new session (Call.Insert key row.now) reply) }
        ensures err { OnErr result (engine_of self.new ≡ engine_of self.old) }
    {
        let Some(transaction) = self.transaction(session) else {
            return Ok(refused(Cause::Idle));
        };
        if transaction.read_only {
            return Ok(refused(Cause::ReadOnly));
        }
        let act = Act::Put(row.copied());
        match self.records.place(key) {
            Some(place) => self.write(session, transaction.begin, place, &act),
            None => self.write_first(session, transaction.begin, key, &act),
        }
    }

    /// Changes or deletes the row of a key.
    pub(crate) fn change(&mut self, session: u32, key: Key, act: &Act) -> Result<Reply, OutOfMemory>
        requires within { session < self.old.limits.sessions }
        requires changes { IsChange act.now }
        ensures limits { self.new.limits ≡ self.old.limits }
        ensures ok { IfOk result (λ reply. AnswersChange self.old self.new session key act.now reply) }
        ensures err { OnErr result (engine_of self.new ≡ engine_of self.old) }
    {
        let Some(transaction) = self.transaction(session) else {
            return Ok(refused(Cause::Idle));
        };
        if transaction.read_only {
            return Ok(refused(Cause::ReadOnly));
        }
        match self.records.place(key) {
            Some(place) => self.write(session, transaction.begin, place, act),
            None => Ok(refused(Cause::Missing)),
        }
    }

    /// Writes to a key that has no record yet. It gets one, which it keeps where the write is refused.
    fn write_first(
        &mut self,
        session: u32,
        begin: Time,
        key: Key,
        act: &Act,
    ) -> Result<Reply, OutOfMemory>
        requires within { session < self.old.limits.sessions }
        requires absent { place_of (keys_of self.old.records) key ≡ None }
        ensures limits { self.new.limits ≡ self.old.limits }
        ensures ok { IfOk result (λ reply. (reply ≡ reply_to_first (engine_of self.old) session begin key act.now) × (engine_of self.new ≡ after_first (engine_of self.old) session begin key act.now)) }
        ensures err { OnErr result (engine_of self.new ≡ engine_of self.old) }
    {
        let place = self.records.len();
        if place >= self.limits.ranges as usize * RANGE_RECORDS as usize {
            return Ok(refused(Cause::TableFull));
        }
        self.records.add(key)?;
        match self.write(session, begin, place, act) {
            Ok(reply) => Ok(reply),
            Err(error) => {
                self.records.take_back(key);
                Err(error)
            }
        }
    }

    /// Writes to the record at a place.
    fn write(
        &mut self,
        session: u32,
        begin: Time,
        place: usize,
        act: &Act,
    ) -> Result<Reply, OutOfMemory>
        requires within { session < self.old.limits.sessions }
        requires place { place < length self.old.records }
        ensures limits { self.new.limits ≡ self.old.limits }
        ensures ok { IfOk result (λ reply. (reply ≡ reply_to_write (engine_of self.old) session begin place act.now) × (engine_of self.new ≡ after_write (engine_of self.old) session begin place act.now)) }
        ensures err { OnErr result (engine_of self.new ≡ engine_of self.old) }
    {
        if let Some(cause) = self.refusal(session, begin, place, act) {
            return Ok(refused(cause));
        }
        let row = self.records.at(place).row(session, begin);
        self.accept(session, begin, place, row_changed(row, act))?;
        Ok(Reply::Done)
    }

    /// Why a write to the record at a place is refused, or None.
    fn refusal(&self, session: u32, begin: Time, place: usize, act: &Act) -> Option<Cause>
        requires { place < length self.now.records }
        ensures { result ≡ refusal_of_write (engine_of self.now) session begin place act.now }
    {
        let record = self.records.at(place);
        if let Some(cause) = record.conflict(session, begin) {
            return Some(cause);
        }
        if let Some(cause) = row_misfit(&record.row(session, begin), act) {
            return Some(cause);
        }
        if self.accepted[place / RANGE_RECORDS as usize] >= self.limits.tails {
            return Some(Cause::TailFull);
        }
        None
    }

    /// Accepts a write that makes this row, where nothing is in its way. For want of memory the engine stays as it is.
    fn accept(
        &mut self,
        session: u32,
        begin: Time,
        place: usize,
        row: Option<Row>,
    ) -> Result<(), OutOfMemory>
        requires within { session < self.old.limits.sessions }
        requires place { place < length self.old.records }
        requires free { conflict_in (kept_at (engine_of self.old) place) session begin ≡ None }
        requires few { slice_index self.old.accepted.items (place / 256) < self.old.limits.tails }
        ensures ok { OnOk result (engine_of self.new ≡ with_write (engine_of self.old) session place row) }
        ensures err { OnErr result (engine_of self.new ≡ engine_of self.old) }
    {
        let state = &mut self.sessions[session as usize];
        let number = state.begins();
        let is_held = self.records.at(place).is_held(session);
        self.records.hold(
            place,
            Pending {
                session,
                number,
                row,
            },
        )?;
        if state.note(place, is_held).is_err() {
            self.records.settle(place, session, None);
            return Err(OutOfMemory);
        }
        self.accepted[place / RANGE_RECORDS as usize] += 1;
        Ok(())
    }
}
