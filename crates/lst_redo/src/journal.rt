//! An open journal, and the calls that only look at it.
ghost use Rattle.std.specs.Prelude.{◌≡◌, ℕ, List, IfOk};
ghost use Rattle.lst_model.specs.declared.commits.Commit.{Commit as CommitValue};
ghost use Rattle.lst_replay_laws.specs.Again.{writes_in};
ghost use Rattle.lst_replay_laws.specs.Counts.{SameCommits};
ghost use Rattle.lst_replay_laws.specs.Rests.{HasRoomFor, with_tails};
ghost use Rattle.lst_scan.specs.Lines.{KeepsState};
ghost use Rattle.lst_session.specs.Crews.{IsCrewOf, TellsState, store_told};
ghost use Rattle.lst_redo.specs.Journals.{view_of, IsJournalOf};

use crate::own::OwnWrites;
use lst_disk::Disk;
use lst_log::Log;
use lst_model::{History, OutOfMemory, Reply};
use lst_rule::Store;
use lst_session::Crew;
use std::alloc::Global;

/// What a line is answered.
#[derive(Debug, Drop, PartialEq)]
pub enum Kept {
    /// The machine's reply.
    Reply { reply: Reply },
    /// The disk has no room for the commit's record. Its transaction stays open.
    JournalFull,
    /// The disk failed while the commit was written: it has the commit, or hasn't. Open it again.
    DiskFault,
}

/// A store with its crew, the log of its commits on a disk, and the writes of each session's open transaction, which its record will hold.
#[derive(Drop)]
pub struct Redo<D: Disk> {
    pub log: Log<D>,
    pub store: Store,
    pub crew: Crew,
    pub(crate) own: OwnWrites,
    pub(crate) failed: bool,
}

impl<D: Disk> Redo<D> {
    /// Whether a line was answered that the disk failed while its commit was written. No line may follow it.
    pub fn failed(&self) -> bool
        ensures { result ≡ self.now.failed }
    {
        self.failed
    }

    /// The commits of the crew, each at its time: of the same sessions and with the same writes as those that the journal stands for, and with
    /// the numbers and begins that they have in the crew. It may be asked after a disk fault too. The crew tells the same state afterwards and the journal
    /// stands for the same commits, also where memory is wanting, and no call of the disk is made.
    pub fn history(&mut self, alloc: Global) -> Result<History, OutOfMemory>
        requires crew { IsCrewOf self.old.store self.old.crew }
        requires tells { TellsState (view_of self.old) }
        ensures told { IfOk result (λ history. history ≡ (store_told (view_of self.old)).history) }
        ensures same { (commits : List CommitValue) → IsJournalOf D.content D.images commits self.old → IfOk result (λ history. SameCommits history commits) }
        ensures journal { (commits : List CommitValue) → IsJournalOf D.content D.images commits self.old → IsJournalOf D.content D.images commits self.new }
        ensures state { KeepsState (view_of self.old) (view_of self.new) }
        ensures crew { IsCrewOf self.new.store self.new.crew }
        ensures log { self.new.log ≡ self.old.log }
        ensures store { self.new.store ≡ self.old.store }
        ensures failed { self.new.failed ≡ self.old.failed }
    {
        self.crew.history(alloc, &self.store)
    }

    /// The disk, for another opening. Limits like the crew's, with a tail for each write, have room for what it stands for.
    pub fn close(self) -> D
        ensures disk { result ≡ self.log.disk }
        ensures room { (commits : List CommitValue) → IsJournalOf D.content D.images commits self → HasRoomFor (with_tails (view_of self).limits (writes_in commits)) commits }
    {
        self.log.disk
    }
}
