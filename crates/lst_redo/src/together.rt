//! Lists of lines, whose commits are written together.
ghost use Rattle.std.specs.Prelude.{◌≡◌, ◌↔◌, ◌<◌, ◌≤◌, ◌+◌, ℕ, List, [], length, true, false, Err, IfOk, vec_len, vec_capacity};
ghost use Rattle.std.specs.List.{AllByRecursion};
ghost use Rattle.lst_model.specs.declared.commits.Commit.{Commit as CommitValue};
ghost use Rattle.lst_model.specs.declared.lines.Call.TheVariants.{Commit as CommitCall};
ghost use Rattle.lst_model.specs.declared.lines.Line.TheVariants.{Call as CallLine};
ghost use Rattle.lst_model.specs.Faults.{Rose};
ghost use Rattle.lst_model.specs.Lines.{LineFits};
ghost use Rattle.lst_log.specs.Logs.{IsOpen, AreStaged};
ghost use Rattle.lst_rule.specs.Rule.{knows};
ghost use Rattle.lst_session.specs.Crews.{IsCrewOf};
ghost use Rattle.lst_redo.specs.Journals.{view_of, IsOpenJournal, HasCrew};
ghost use Rattle.lst_redo.specs.declared.journal.Kept.{Kept as KeptValue};
ghost use Rattle.lst_redo.specs.Answers.{CommitsWrites};
ghost use Rattle.lst_redo.specs.Ahead.{AreRun, HasRun, IsAhead, GoesAhead};

use crate::journal::{Kept, Redo};
use lst_disk::{Disk, DiskFailed};
use lst_log::StageFault;
use lst_model::{Commit, Line, OutOfMemory, Reply};
use lst_session::Outcome;
use lst_snapshots::same_writes_may_be_followed;
use std::alloc::Global;

/// Why no line of a list was answered.
#[derive(Clone, Copy, Debug, PartialEq, Eq)]
pub enum RunFault {
    /// The disk failed while the list's commits were written: it has all of them or none. Open it again.
    Disk,
    /// No line was run.
    OutOfMemory,
}

impl<D: Disk> Redo<D> {
    /// Answers lines, one after another, with what `line` answers each, but for the disk: all commits of the list are written together at its end, by the four
    /// calls that one takes, and none of the answers is given before they last. Where no line commits writes, no call of the disk is made. Each record is made, and
    /// has its room on the disk and in memory, before the crew makes its commit, so that `JournalFull` comes for a line exactly where the records of the list so far,
    /// its own or the byte behind them pass the disk's end; its transaction stays open, and the lines behind it are run.
    ///
    /// Where fewer answers are given than lines, memory was wanting for the next: it changed nothing, and those behind it were not run.
    ///
    /// From the call's begin until the next call a crash leaves an image that stands for the commits of the journal, or for these and all that the list
    /// made, never for a part of them. At `Disk` the crew has commits that may not last: no line is answered, and none may follow.
    pub fn lines(&mut self, alloc: Global, lines: &[Line]) -> Result<Vec<Kept>, RunFault>
        requires journal { IsOpenJournal D.content D.images self.old }
        requires fits { AllByRecursion (LineFits (view_of self.old).limits.sessions (view_of self.old).limits.ranges (view_of self.old).limits.columns) lines.now }
        requires sound { self.old.failed ≡ false }
        ensures ran { ¬ (result ≡ Err RunFault.OutOfMemory) → (answers : List KeptValue) × (made : List CommitValue) × IfOk result (λ kept. kept.items ≡ answers)
            × HasRun D.content D.images D.clock D.images_since D.calls_left self.old self.new lines.now answers made result }
        ensures memory { result ≡ Err RunFault.OutOfMemory → self.new ≡ self.old }
        ensures failed { (self.new.failed ≡ true) ↔ (result ≡ Err RunFault.Disk) }
        ensures fault { result ≡ Err RunFault.Disk → Rose (D.faults self.old.log.disk) (D.faults self.new.log.disk) }
        ensures faults { D.faults self.old.log.disk ≤ D.faults self.new.log.disk }
        ensures store { self.new.store ≡ self.old.store }
        ensures crew { IsCrewOf self.new.store self.new.crew }
    {
        let Ok(mut answers) = Vec::with_capacity(alloc, lines.len()) else {
            return Err(RunFault::OutOfMemory);
        };
        let mut batch = Vec::new(alloc);
        self.run(alloc, lines, &mut batch, &mut answers);
        let waiting = batch.len();
        if waiting == 0 {
            return Ok(answers);
        }
        match self.log.write_staged(batch.as_slice()) {
            Ok(()) => Ok(answers),
            Err(DiskFailed) => {
                self.failed = true;
                Err(RunFault::Disk)
            }
        }
    }

    /// Runs lines, and stages the commits that they make.
    fn run(&mut self, alloc: Global, lines: &[Line], batch: &mut Vec<u8>, answers: &mut Vec<Kept>)
        requires journal { IsOpenJournal D.content D.images self.old }
        requires fits { AllByRecursion (LineFits (view_of self.old).limits.sessions (view_of self.old).limits.ranges (view_of self.old).limits.columns) lines.now }
        requires batch { batch.old.items ≡ [] }
        requires answers { answers.old.items ≡ [] }
        requires capacity { length lines.now ≤ vec_capacity answers.old }
        ensures { (made : List CommitValue)
            × AreRun self.old.log.columns self.old.log.end (length (D.content self.old.log.disk)) (view_of self.old) [] lines.now answers.new.items (view_of self.new) made
            × IsAhead D.content D.images D.clock D.images_since D.room_calls D.room_bytes D.calls_left D.faults self.old self.new made batch.new.items }
    {
        for line in lines {
            match self.line_ahead(alloc, line, batch) {
                Ok(kept) => {
                    let Ok(()) = answers.push(kept) else {
                        unreachable!()
                    };
                }
                Err(OutOfMemory) => return,
            }
        }
    }

    /// Answers a line. A commit with writes is staged before the crew makes it.
    fn line_ahead(
        &mut self,
        alloc: Global,
        line: &Line,
        batch: &mut Vec<u8>,
    ) -> Result<Kept, OutOfMemory>
        requires open { IsOpen D.content D.images self.old.log }
        requires crew { HasCrew self.old }
        requires fits { LineFits (view_of self.old).limits.sessions (view_of self.old).limits.ranges (view_of self.old).limits.columns line.now }
        requires staged { (made : List CommitValue) × AreStaged D.content D.room_calls D.room_bytes made batch.old.items self.old.log }
        ensures { (made : List CommitValue) → AreStaged D.content D.room_calls D.room_bytes made batch.old.items self.old.log
            → GoesAhead D.content D.images D.clock D.images_since D.room_calls D.room_bytes D.calls_left D.faults self.old self.new made batch.new.items line.now result }
    {
        match self.commits_writes(line) {
            Some(session) => self.commit_ahead(alloc, line, session, batch),
            None => self.by_crew(alloc, line),
        }
    }

    /// Commits the writes of a session's open transaction: staged, and then made by the crew.
    fn commit_ahead(
        &mut self,
        alloc: Global,
        line: &Line,
        session: u32,
        batch: &mut Vec<u8>,
    ) -> Result<Kept, OutOfMemory>
        requires open { IsOpen D.content D.images self.old.log }
        requires crew { HasCrew self.old }
        requires line { line.now ≡ CallLine session CommitCall }
        requires session { session < (view_of self.old).limits.sessions }
        requires is_open { (knows (view_of self.old) session).is_open ≡ true }
        requires writes { 0 < length (knows (view_of self.old) session).own }
        requires staged { (made : List CommitValue) × AreStaged D.content D.room_calls D.room_bytes made batch.old.items self.old.log }
        ensures { (made : List CommitValue) → AreStaged D.content D.room_calls D.room_bytes made batch.old.items self.old.log
            → GoesAhead D.content D.images D.clock D.images_since D.room_calls D.room_bytes D.calls_left D.faults self.old self.new made batch.new.items line.now result }
    {
        same_writes_may_be_followed();
        self.crew.seat.consider();
        let commit = Commit {
            session,
            number: self.crew.seat.number(session),
            begin: self.crew.seat.begin(session),
            writes: self.own.take(alloc, session),
        };
        let staged = self.log.stage(alloc, batch, &commit);
        self.own.put(session, commit.writes);
        match staged {
            Ok(()) => match self.crew.commit(&self.store, session) {
                Ok(Outcome::Committed { time }) => Ok(Kept::Reply {
                    reply: Reply::Committed { time },
                }),
                _ => unreachable!(),
            },
            Err(fault) => match fault {
                StageFault::JournalFull => Ok(Kept::JournalFull),
                StageFault::OutOfMemory => Err(OutOfMemory),
            },
        }
    }
}
