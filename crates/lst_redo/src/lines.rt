//! The lines of a journal.
ghost use Rattle.std.specs.Prelude.{◌≡◌, ◌↔◌, ◌<◌, ◌≤◌, ℕ, List, length, true, false, Ok, Some, OnErr, IfOk, IfSome, IfNone};
ghost use Rattle.lst_model.specs.declared.commits.Commit.{Commit as CommitValue};
ghost use Rattle.lst_model.specs.declared.lines.Call.{Call as CallValue};
ghost use Rattle.lst_model.specs.declared.lines.Call.TheVariants.{Commit as CommitCall};
ghost use Rattle.lst_model.specs.declared.lines.Line.TheVariants.{Call as CallLine};
ghost use Rattle.lst_model.specs.Faults.{Rose};
ghost use Rattle.lst_model.specs.Lines.{LineFits};
ghost use Rattle.lst_disk.specs.Disk.{LeavesOnly, tears};
ghost use Rattle.lst_log.specs.Format.{IsWrite};
ghost use Rattle.lst_replies.specs.Runs as runs;
ghost use Rattle.lst_rule.specs.Rule.{knows};
ghost use Rattle.lst_scan.specs.Lines.{KeepsState, LineLooks};
ghost use Rattle.lst_session.specs.Crews.{IsCrewOf};
ghost use Rattle.lst_redo.specs.Journals.{view_of, IsJournalOf, IsOpenJournal, HasCrew};
ghost use Rattle.lst_redo.specs.Owns.{MakesNone};
ghost use Rattle.lst_redo.specs.Answers.{CommitsWrites, MayLeave, StopsAt, IsAnswered, commits_after, HasRoomAfter, LacksRoom, CountsLine, IsWritten, CrewAnswers};

use crate::fits::{follow, settle, write_of};
use crate::journal::{Kept, Redo};
use lst_disk::Disk;
use lst_log::AppendFault;
use lst_model::{Call, Commit, Line, OutOfMemory, Reply, Write};
use lst_scan::crew_line;
use lst_session::Outcome;
use lst_snapshots::same_writes_may_be_followed;
use std::alloc::Global;

impl<D: Disk> Redo<D> {
    /// Answers a line. A commit with writes is written to the disk and synced before the crew makes it; every other line is answered by the crew
    /// alone, with the machine's reply, and makes no call of the disk. All memory is taken before anything changes: where it is wanting, the crew tells the same
    /// state. A list and a find in an indexed column have then only looked, other lines have left all as it was, and a sum or a count never wants any.
    ///
    /// From the call's begin until the next call a crash leaves an image that stands for the commits of the journal, and where the line commits
    /// writes for these or for these and its commit. Once that is answered `Committed`, the journal stands for it too.
    ///
    /// `JournalFull` comes exactly where a commit with writes needs a place past the disk's end for its record or for the byte behind it; its
    /// transaction stays open. `DiskFault` comes only where the disk's count of faults rose, and on a disk that tells its calls exactly where fewer
    /// than four are left; no line may follow it. Where the disk tells both how many calls it will make and how a crash turns out, what it has written then stands for
    /// the line's commit too exactly where three were left, and what it has synced never does.
    ///
    /// At `Committed` the record stands behind an open gate where the records ended, with a byte 0 behind it, and nothing else of the disk changed. Where
    /// nothing is committed, and at `JournalFull`, the log is as it was.
    ///
    /// Limits like the crew's, with a tail for each write, have room for the commits with the one that the line makes.
    pub fn line(&mut self, alloc: Global, line: &Line) -> Result<Kept, OutOfMemory>
        requires journal { IsOpenJournal D.content D.images self.old }
        requires fits { LineFits (view_of self.old).limits.sessions (view_of self.old).limits.ranges (view_of self.old).limits.columns line.now }
        requires sound { self.old.failed ≡ false }
        ensures answered { IfOk result (λ kept. IsAnswered (view_of self.old) (view_of self.new) line.now kept) }
        ensures journal { (commits : List CommitValue) → IsJournalOf D.content D.images commits self.old → IfOk result (λ kept. ¬ (kept ≡ Kept.DiskFault) → IsJournalOf D.content D.images (commits_after (view_of self.old) commits line.now kept) self.new) }
        ensures any_moment { (commits : List CommitValue) → IsJournalOf D.content D.images commits self.old → LeavesOnly D.clock D.images_since self.old.log.disk self.new.log.disk (MayLeave self.old.log.columns (view_of self.old) commits line.now) }
        ensures full { (result ≡ Ok Kept.JournalFull) ↔ LacksRoom (view_of self.old) line.now self.old.log.columns self.old.log.end (length (D.content self.old.log.disk)) }
        ensures room { (commits : List CommitValue) → IsJournalOf D.content D.images commits self.old → CommitsWrites (view_of self.old) line.now → HasRoomAfter (view_of self.old) commits line.now }
        ensures size { IfOk result (λ kept. ¬ (kept ≡ Kept.DiskFault) → length (D.content self.new.log.disk) ≡ length (D.content self.old.log.disk)) }
        ensures memory { OnErr result (KeepsState (view_of self.old) (view_of self.new)) }
        ensures looks { OnErr result (LineLooks (view_of self.old) (view_of self.new) line.now) }
        ensures memory_journal { OnErr result ((commits : List CommitValue) → IsJournalOf D.content D.images commits self.old → IsJournalOf D.content D.images commits self.new) }
        ensures failed { (self.new.failed ≡ true) ↔ (result ≡ Ok Kept.DiskFault) }
        ensures fault { result ≡ Ok Kept.DiskFault → Rose (D.faults self.old.log.disk) (D.faults self.new.log.disk) }
        ensures faults { D.faults self.old.log.disk ≤ D.faults self.new.log.disk }
        ensures calls { IfOk result (CountsLine (view_of self.old) line.now (D.calls_left self.old.log.disk) (D.calls_left self.new.log.disk)) }
        ensures unspent { OnErr result ((D.content self.new.log.disk ≡ D.content self.old.log.disk) × (D.calls_left self.new.log.disk ≡ D.calls_left self.old.log.disk) × (D.faults self.new.log.disk ≡ D.faults self.old.log.disk)) }
        ensures still { ¬ CommitsWrites (view_of self.old) line.now → self.new.log ≡ self.old.log }
        ensures refused { result ≡ Ok Kept.JournalFull → self.new.log ≡ self.old.log }
        ensures written { IfOk result (IsWritten (view_of self.old) line.now self.old.log.columns self.old.log.end (D.content self.old.log.disk) (D.content self.new.log.disk)) }
        ensures stopped { result ≡ Ok Kept.DiskFault → (commits : List CommitValue) → IsJournalOf D.content D.images commits self.old
            → StopsAt self.old.log.columns (view_of self.old) commits line.now (D.calls_left self.old.log.disk) (D.content self.new.log.disk) (D.outcome self.new.log.disk) }
        ensures torn { tears (D.outcome self.new.log.disk) ≡ tears (D.outcome self.old.log.disk) }
        ensures store { self.new.store ≡ self.old.store }
        ensures crew { IsCrewOf self.new.store self.new.crew }
    {
        match self.commits_writes(line) {
            Some(session) => self.commit(alloc, line, session),
            None => self.by_crew(alloc, line),
        }
    }

    /// The session whose open transaction, with writes, a line commits.
    pub(crate) fn commits_writes(&self, line: &Line) -> Option<u32>
        requires crew { HasCrew self.now }
        requires fits { LineFits (view_of self.now).limits.sessions (view_of self.now).limits.ranges (view_of self.now).limits.columns line.now }
        ensures commits { IfSome result (λ s. (line.now ≡ CallLine s CommitCall) × (s < (view_of self.now).limits.sessions) × ((knows (view_of self.now) s).is_open ≡ true) × (0 < length (knows (view_of self.now) s).own)) }
        ensures none { IfNone result (¬ CommitsWrites (view_of self.now) line.now) }
    {
        match line {
            Line::Call {
                session,
                call: Call::Commit,
            } => {
                if self.crew.seat.is_open(*session) && self.crew.seat.has_writes(*session) {
                    Some(*session)
                } else {
                    None
                }
            }
            _ => None,
        }
    }

    /// Commits the writes of a session's open transaction: to the disk, and then by the crew.
    fn commit(&mut self, alloc: Global, line: &Line, session: u32) -> Result<Kept, OutOfMemory>
        requires journal { IsOpenJournal D.content D.images self.old }
        requires line { line.now ≡ CallLine session CommitCall }
        requires session { session < (view_of self.old).limits.sessions }
        requires is_open { (knows (view_of self.old) session).is_open ≡ true }
        requires writes { 0 < length (knows (view_of self.old) session).own }
        requires sound { self.old.failed ≡ false }
        ensures answered { IfOk result (λ kept. IsAnswered (view_of self.old) (view_of self.new) line.now kept) }
        ensures journal { (commits : List CommitValue) → IsJournalOf D.content D.images commits self.old → IfOk result (λ kept. ¬ (kept ≡ Kept.DiskFault) → IsJournalOf D.content D.images (commits_after (view_of self.old) commits line.now kept) self.new) }
        ensures any_moment { (commits : List CommitValue) → IsJournalOf D.content D.images commits self.old → LeavesOnly D.clock D.images_since self.old.log.disk self.new.log.disk (MayLeave self.old.log.columns (view_of self.old) commits line.now) }
        ensures full { (result ≡ Ok Kept.JournalFull) ↔ LacksRoom (view_of self.old) line.now self.old.log.columns self.old.log.end (length (D.content self.old.log.disk)) }
        ensures room { (commits : List CommitValue) → IsJournalOf D.content D.images commits self.old → CommitsWrites (view_of self.old) line.now → HasRoomAfter (view_of self.old) commits line.now }
        ensures size { IfOk result (λ kept. ¬ (kept ≡ Kept.DiskFault) → length (D.content self.new.log.disk) ≡ length (D.content self.old.log.disk)) }
        ensures memory { OnErr result (KeepsState (view_of self.old) (view_of self.new)) }
        ensures looks { OnErr result (LineLooks (view_of self.old) (view_of self.new) line.now) }
        ensures memory_journal { OnErr result ((commits : List CommitValue) → IsJournalOf D.content D.images commits self.old → IsJournalOf D.content D.images commits self.new) }
        ensures failed { (self.new.failed ≡ true) ↔ (result ≡ Ok Kept.DiskFault) }
        ensures fault { result ≡ Ok Kept.DiskFault → Rose (D.faults self.old.log.disk) (D.faults self.new.log.disk) }
        ensures faults { D.faults self.old.log.disk ≤ D.faults self.new.log.disk }
        ensures calls { IfOk result (CountsLine (view_of self.old) line.now (D.calls_left self.old.log.disk) (D.calls_left self.new.log.disk)) }
        ensures unspent { OnErr result ((D.content self.new.log.disk ≡ D.content self.old.log.disk) × (D.calls_left self.new.log.disk ≡ D.calls_left self.old.log.disk) × (D.faults self.new.log.disk ≡ D.faults self.old.log.disk)) }
        ensures still { ¬ CommitsWrites (view_of self.old) line.now → self.new.log ≡ self.old.log }
        ensures refused { result ≡ Ok Kept.JournalFull → self.new.log ≡ self.old.log }
        ensures written { IfOk result (IsWritten (view_of self.old) line.now self.old.log.columns self.old.log.end (D.content self.old.log.disk) (D.content self.new.log.disk)) }
        ensures stopped { result ≡ Ok Kept.DiskFault → (commits : List CommitValue) → IsJournalOf D.content D.images commits self.old
            → StopsAt self.old.log.columns (view_of self.old) commits line.now (D.calls_left self.old.log.disk) (D.content self.new.log.disk) (D.outcome self.new.log.disk) }
        ensures torn { tears (D.outcome self.new.log.disk) ≡ tears (D.outcome self.old.log.disk) }
        ensures store { self.new.store ≡ self.old.store }
        ensures crew { IsCrewOf self.new.store self.new.crew }
    {
        same_writes_may_be_followed();
        self.crew.seat.consider();
        let commit = Commit {
            session,
            number: self.crew.seat.number(session),
            begin: self.crew.seat.begin(session),
            writes: self.own.take(alloc, session),
        };
        let appended = self.log.append(alloc, &commit);
        self.own.put(session, commit.writes);
        match appended {
            Ok(()) => match self.crew.commit(&self.store, session) {
                Ok(Outcome::Committed { time }) => Ok(Kept::Reply {
                    reply: Reply::Committed { time },
                }),
                _ => unreachable!(),
            },
            Err(fault) => match fault {
                AppendFault::JournalFull => Ok(Kept::JournalFull),
                AppendFault::Disk => {
                    self.failed = true;
                    Ok(Kept::DiskFault)
                }
                AppendFault::OutOfMemory => Err(OutOfMemory),
            },
        }
    }

    /// A line that the crew answers alone.
    pub(crate) fn by_crew(&mut self, alloc: Global, line: &Line) -> Result<Kept, OutOfMemory>
        requires crew { HasCrew self.old }
        requires fits { LineFits (view_of self.old).limits.sessions (view_of self.old).limits.ranges (view_of self.old).limits.columns line.now }
        requires none { ¬ CommitsWrites (view_of self.old) line.now }
        ensures { CrewAnswers self.old self.new line.now result }
    {
        match line {
            Line::Call { session, call } => match write_of(call, self.log.columns) {
                Some(write) => self.write(alloc, line, *session, write),
                None => self.pass(alloc, line),
            },
            _ => self.pass(alloc, line),
        }
    }

    /// One that makes no write.
    fn pass(&mut self, alloc: Global, line: &Line) -> Result<Kept, OutOfMemory>
        requires crew { HasCrew self.old }
        requires fits { LineFits (view_of self.old).limits.sessions (view_of self.old).limits.ranges (view_of self.old).limits.columns line.now }
        requires none { ¬ CommitsWrites (view_of self.old) line.now }
        requires makes { MakesNone line.now }
        ensures { CrewAnswers self.old self.new line.now result }
    {
        let reply = crew_line(alloc, &self.store, &mut self.crew, line)?;
        follow(&mut self.own, alloc, line, &reply);
        Ok(Kept::Reply { reply })
    }

    /// One that makes a write, which joins the session's others before the crew makes it: no memory is wanted behind it. Where it is refused it is
    /// taken away again.
    fn write(
        &mut self,
        alloc: Global,
        line: &Line,
        session: u32,
        write: Write,
    ) -> Result<Kept, OutOfMemory>
        requires crew { HasCrew self.old }
        requires fits { LineFits (view_of self.old).limits.sessions (view_of self.old).limits.ranges (view_of self.old).limits.columns line.now }
        requires none { ¬ CommitsWrites (view_of self.old) line.now }
        requires call { (call : CallValue) × (line.now ≡ CallLine session call) × (runs.write_of call ≡ Some write) }
        requires write { IsWrite self.old.log.columns write }
        ensures { CrewAnswers self.old self.new line.now result }
    {
        if self.own.count(session) >= u32::MAX as usize {
            return Err(OutOfMemory);
        }
        let place = self.own.join(alloc, session, write)?;
        match crew_line(alloc, &self.store, &mut self.crew, line) {
            Ok(reply) => {
                settle(&mut self.own, alloc, session, place, &reply);
                Ok(Kept::Reply { reply })
            }
            Err(OutOfMemory) => {
                self.own.part(alloc, session, place);
                Err(OutOfMemory)
            }
        }
    }
}
