//! A log of commits on a disk.
ghost use Rattle.std.specs.Prelude.{◌≡◌, ◌↔◌, ◌+◌, ◌-◌, ◌*◌, ◌≤◌, ◌<◌, ◌^◌, ◌++◌, [], ◌∷◌, List, ℕ, length, Some, OnOk, OnErr, IsErr, Err};
ghost use Rattle.std.specs.List.{AllByRecursion};
ghost use Rattle.lst_model.specs.declared.commits.Commit.{Commit as CommitValue};
ghost use Rattle.lst_model.specs.Faults.{Rose, HasCause};
ghost use Rattle.lst_disk.specs.Disk.{overwritten, LeavesOnly, tears};
ghost use Rattle.lst_log.specs.Format.{body, journal, record_of, HasRecord, IsPieceOf};
ghost use Rattle.lst_snapshots.specs.Replays.{MayFollow};
ghost use Rattle.lst_log.specs.Journals.{AllMayFollow, StandsFor, StandsForOrOneMore, StandsForOrAll};
ghost use Rattle.lst_log.specs.Stores.{CountsCalls, opened};
ghost use Rattle.lst_log.specs.Logs.{Keeps, IsOpen, Appends, StopsSo, AreStaged, MakesRoom};

use crate::store::store_gated;
use crate::write::{piece_of, push_next, record_size, records_of, size_within};
use lst_disk::{Disk, DiskFailed};
use lst_model::Commit;
use std::alloc::{AllocError, Global};

/// Why a commit was not appended.
#[derive(Clone, Copy, Debug, PartialEq, Eq)]
pub enum AppendFault {
    /// A record, or the byte behind the last one, passes the disk's end. The log is as it was, its disk too.
    JournalFull,
    /// A call of the disk failed, and its count of faults rose. The disk has the commits or hasn't: open it again.
    Disk,
    /// Want of memory, before anything was written. The log stands for the commits that it stood for.
    OutOfMemory,
}

/// Why a commit was not added to a batch.
#[derive(Clone, Copy, Debug, PartialEq, Eq)]
pub enum StageFault {
    /// A record of the batch, the commit's, or the byte behind it passes the disk's end. The log is as it was, and the batch has the commits that it had.
    JournalFull,
    /// Want of memory, in the disk's own record or for the batch, which has the commits that it had.
    OutOfMemory,
}

/// A log over a disk, for a table of so many columns. Its records end at `end`.
#[derive(Drop)]
pub struct Log<D: Disk> {
    pub disk: D,
    pub columns: u32,
    pub end: u64,
}

impl<D: Disk> Log<D> {
    /// Appends a commit. At Ok its record stands behind an open gate where the records ended, with a byte 0 behind it. One that may
    /// stand behind those so far is acknowledged then: from then on each crash leaves an image that has it. At any moment of its call
    /// a crash leaves an image that stands for the commits so far, or for these and this one. `JournalFull` comes exactly where the
    /// record or the byte behind it passes the disk's end, `OutOfMemory` before anything is written; after `Disk`, where the count of
    /// faults rose, open the disk again.
    pub fn append(&mut self, alloc: Global, commit: &Commit) -> Result<(), AppendFault>
        requires open { IsOpen D.content D.images self.old }
        requires columns { self.old.columns ≤ 8 }
        requires record { HasRecord self.old.columns commit.now }
        ensures kept { (commits : List CommitValue) → Keeps D.content D.images commits self.old → MayFollow commits commit.now
            → OnOk result (Keeps D.content D.images (commits ++ commit.now ∷ []) self.new) }
        ensures any_moment { (commits : List CommitValue) → Keeps D.content D.images commits self.old → MayFollow commits commit.now
            → LeavesOnly D.clock D.images_since self.old.disk self.new.disk (StandsForOrOneMore self.old.columns commits commit.now) }
        ensures written { OnOk result (D.content self.new.disk ≡ opened (D.content self.old.disk) self.old.end (body self.old.columns commit.now ++ 0 ∷ [])) }
        ensures full { (result ≡ Err AppendFault.JournalFull) ↔ (length (D.content self.old.disk) < self.old.end + length (record_of self.old.columns commit.now) + 1) }
        ensures refused { (result ≡ Err AppendFault.JournalFull) → self.new ≡ self.old }
        ensures memory { (result ≡ Err AppendFault.OutOfMemory) → (commits : List CommitValue) → Keeps D.content D.images commits self.old → Keeps D.content D.images commits self.new }
        ensures unspent { (result ≡ Err AppendFault.OutOfMemory) → (D.content self.new.disk ≡ D.content self.old.disk) × (D.calls_left self.new.disk ≡ D.calls_left self.old.disk) × (D.faults self.new.disk ≡ D.faults self.old.disk) }
        ensures faults { D.faults self.old.disk ≤ D.faults self.new.disk }
        ensures fault { (result ≡ Err AppendFault.Disk) → Rose (D.faults self.old.disk) (D.faults self.new.disk) }
        ensures left { ¬ (result ≡ Err AppendFault.OutOfMemory) → ¬ (result ≡ Err AppendFault.JournalFull) → CountsCalls 4 (D.calls_left self.old.disk) (D.calls_left self.new.disk) result }
        ensures stopped { (result ≡ Err AppendFault.Disk) → (commits : List CommitValue) → Keeps D.content D.images commits self.old → MayFollow commits commit.now
            → StopsSo self.old.columns commits (commit.now ∷ []) (D.calls_left self.old.disk) (D.content self.new.disk) (D.outcome self.new.disk) }
        ensures torn { tears (D.outcome self.new.disk) ≡ tears (D.outcome self.old.disk) }
        ensures columns { self.new.columns ≡ self.old.columns }
    {
        let size = record_size(commit, self.columns);
        let whole = self.disk.size();
        if whole < self.end || whole - self.end < size + 1 {
            return Err(AppendFault::JournalFull);
        }
        self.append_within(alloc, commit)
    }

    /// The same, where the record and the byte behind it are within the disk.
    fn append_within(&mut self, alloc: Global, commit: &Commit) -> Result<(), AppendFault>
        requires open { IsOpen D.content D.images self.old }
        requires columns { self.old.columns ≤ 8 }
        requires record { HasRecord self.old.columns commit.now }
        requires within { self.old.end + length (record_of self.old.columns commit.now) + 1 ≤ length (D.content self.old.disk) }
        requires place { length (D.content self.old.disk) < 2 ^ 64 }
        ensures { Appends D.content D.images D.clock D.images_since D.calls_left D.outcome D.faults self.old self.new (commit.now ∷ []) result }
    {
        let Ok(piece) = piece_of(alloc, commit, self.columns) else {
            return Err(AppendFault::OutOfMemory);
        };
        self.append_piece(piece.as_slice())
    }

    /// Appends some commits with the four calls that one takes. At Ok their records stand one after another where the records ended, with a byte 0
    /// behind them, and the log stands for all of them: from then on each crash leaves an image that has them. At any moment of the call a crash leaves
    /// an image that stands for the commits so far, or for these and all of the others, never for a part of them. `JournalFull` comes exactly where the
    /// records or the byte behind them pass the disk's end, and then nothing is written; `OutOfMemory` before anything is written; after `Disk`, where the
    /// count of faults rose, open the disk again.
    pub fn append_all(&mut self, alloc: Global, commits: &[Commit]) -> Result<(), AppendFault>
        requires open { IsOpen D.content D.images self.old }
        requires columns { self.old.columns ≤ 8 }
        requires some { 0 < length commits.now }
        requires records { AllByRecursion (HasRecord self.old.columns) commits.now }
        ensures kept { (so_far : List CommitValue) → Keeps D.content D.images so_far self.old → AllMayFollow so_far commits.now
            → OnOk result (Keeps D.content D.images (so_far ++ commits.now) self.new) }
        ensures any_moment { (so_far : List CommitValue) → Keeps D.content D.images so_far self.old → AllMayFollow so_far commits.now
            → LeavesOnly D.clock D.images_since self.old.disk self.new.disk (StandsForOrAll self.old.columns so_far commits.now) }
        ensures written { OnOk result (D.content self.new.disk ≡ overwritten (D.content self.old.disk) self.old.end (journal self.old.columns commits.now ++ 0 ∷ [])) }
        ensures full { (result ≡ Err AppendFault.JournalFull) ↔ (length (D.content self.old.disk) < self.old.end + length (journal self.old.columns commits.now) + 1) }
        ensures refused { (result ≡ Err AppendFault.JournalFull) → self.new ≡ self.old }
        ensures memory { (result ≡ Err AppendFault.OutOfMemory) → (so_far : List CommitValue) → Keeps D.content D.images so_far self.old → Keeps D.content D.images so_far self.new }
        ensures unspent { (result ≡ Err AppendFault.OutOfMemory) → (D.content self.new.disk ≡ D.content self.old.disk) × (D.calls_left self.new.disk ≡ D.calls_left self.old.disk) × (D.faults self.new.disk ≡ D.faults self.old.disk) }
        ensures faults { D.faults self.old.disk ≤ D.faults self.new.disk }
        ensures fault { (result ≡ Err AppendFault.Disk) → Rose (D.faults self.old.disk) (D.faults self.new.disk) }
        ensures left { ¬ (result ≡ Err AppendFault.OutOfMemory) → ¬ (result ≡ Err AppendFault.JournalFull) → CountsCalls 4 (D.calls_left self.old.disk) (D.calls_left self.new.disk) result }
        ensures columns { self.new.columns ≡ self.old.columns }
    {
        let room = self.disk.size().saturating_sub(self.end);
        let Some(size) = size_within(commits, self.columns, room) else {
            return Err(AppendFault::JournalFull);
        };
        self.append_all_within(alloc, commits, size)
    }

    /// The same, where the records, of so many bytes, and the byte behind them are within the disk.
    fn append_all_within(
        &mut self,
        alloc: Global,
        commits: &[Commit],
        size: u64,
    ) -> Result<(), AppendFault>
        requires open { IsOpen D.content D.images self.old }
        requires columns { self.old.columns ≤ 8 }
        requires some { 0 < length commits.now }
        requires records { AllByRecursion (HasRecord self.old.columns) commits.now }
        requires size { size ≡ length (journal self.old.columns commits.now) }
        requires within { self.old.end + size + 1 ≤ length (D.content self.old.disk) }
        requires place { length (D.content self.old.disk) < 2 ^ 64 }
        ensures { Appends D.content D.images D.clock D.images_since D.calls_left D.outcome D.faults self.old self.new commits.now result }
    {
        let Ok(records) = records_of(alloc, commits, self.columns, size) else {
            return Err(AppendFault::OutOfMemory);
        };
        self.append_piece(&records.as_slice()[1..])
    }

    /// Appends what is stored behind the closed gate for some commits, where it and a byte before it are within the disk.
    fn append_piece(&mut self, piece: &[u8]) -> Result<(), AppendFault>
        requires open { IsOpen D.content D.images self.old }
        requires within { self.old.end + length piece.now + 1 ≤ length (D.content self.old.disk) }
        requires place { length (D.content self.old.disk) < 2 ^ 64 }
        ensures { (commits : List CommitValue) → IsPieceOf self.old.columns commits piece.now → Appends D.content D.images D.clock D.images_since D.calls_left D.outcome D.faults self.old self.new commits result }
    {
        let Ok(()) = self.disk.room(piece.len() as u64 + 1) else {
            return Err(AppendFault::OutOfMemory);
        };
        match self.write_piece(piece) {
            Ok(()) => Ok(()),
            Err(DiskFailed) => Err(AppendFault::Disk),
        }
    }

    /// Adds a commit to a batch, which is written by `write_staged`, and makes room for it in the disk's own record. Nothing is written. `JournalFull` comes
    /// exactly where the records of the batch, the commit's or the byte behind them pass the disk's end, `OutOfMemory` before the batch changes.
    pub fn stage(
        &mut self,
        alloc: Global,
        batch: &mut Vec<u8>,
        commit: &Commit,
    ) -> Result<(), StageFault>
        requires open { IsOpen D.content D.images self.old }
        requires columns { self.old.columns ≤ 8 }
        requires record { HasRecord self.old.columns commit.now }
        requires staged { (commits : List CommitValue) × AreStaged D.content D.room_calls D.room_bytes commits batch.old.items self.old }
        ensures staged { (commits : List CommitValue) → AreStaged D.content D.room_calls D.room_bytes commits batch.old.items self.old
            → OnOk result (AreStaged D.content D.room_calls D.room_bytes (commits ++ commit.now ∷ []) batch.new.items self.new) }
        ensures unstaged { (commits : List CommitValue) → AreStaged D.content D.room_calls D.room_bytes commits batch.old.items self.old
            → OnErr result (AreStaged D.content D.room_calls D.room_bytes commits batch.new.items self.new) }
        ensures full { (commits : List CommitValue) → AreStaged D.content D.room_calls D.room_bytes commits batch.old.items self.old
            → ((result ≡ Err StageFault.JournalFull) ↔ (length (D.content self.old.disk) < self.old.end + length (journal self.old.columns commits) + length (record_of self.old.columns commit.now) + 1)) }
        ensures refused { (result ≡ Err StageFault.JournalFull) → self.new ≡ self.old }
        ensures kept { (so_far : List CommitValue) → Keeps D.content D.images so_far self.old → Keeps D.content D.images so_far self.new }
        ensures room { MakesRoom D.content D.images D.clock D.images_since D.calls_left D.faults self.old.disk self.new.disk }
        ensures columns { self.new.columns ≡ self.old.columns }
        ensures end { self.new.end ≡ self.old.end }
    {
        let size = record_size(commit, self.columns);
        let whole = self.disk.size();
        let used = self.end + batch.len() as u64;
        if whole - used < size + 1 {
            return Err(StageFault::JournalFull);
        }
        let Ok(()) = self.disk.room(batch.len() as u64 + size + 1) else {
            return Err(StageFault::OutOfMemory);
        };
        match push_next(batch, alloc, commit, self.columns) {
            Ok(()) => Ok(()),
            Err(AllocError) => Err(StageFault::OutOfMemory),
        }
    }

    /// Writes the commits of a batch, with the four calls that one takes, and all or none of them last. Where it fails, open the disk again.
    pub fn write_staged(&mut self, batch: &[u8]) -> Result<(), DiskFailed>
        requires open { IsOpen D.content D.images self.old }
        requires some { 0 < length batch.now }
        requires staged { (commits : List CommitValue) × AreStaged D.content D.room_calls D.room_bytes commits batch.now self.old }
        ensures kept { (so_far commits : List CommitValue) → Keeps D.content D.images so_far self.old → AreStaged D.content D.room_calls D.room_bytes commits batch.now self.old → AllMayFollow so_far commits
            → OnOk result (Keeps D.content D.images (so_far ++ commits) self.new) }
        ensures any_moment { (so_far commits : List CommitValue) → Keeps D.content D.images so_far self.old → AreStaged D.content D.room_calls D.room_bytes commits batch.now self.old → AllMayFollow so_far commits
            → LeavesOnly D.clock D.images_since self.old.disk self.new.disk (StandsForOrAll self.old.columns so_far commits) }
        ensures written { (commits : List CommitValue) → AreStaged D.content D.room_calls D.room_bytes commits batch.now self.old
            → OnOk result (D.content self.new.disk ≡ overwritten (D.content self.old.disk) self.old.end (journal self.old.columns commits ++ 0 ∷ [])) }
        ensures left { CountsCalls 4 (D.calls_left self.old.disk) (D.calls_left self.new.disk) result }
        ensures cause { HasCause (D.faults self.old.disk) (D.faults self.new.disk) result }
        ensures columns { self.new.columns ≡ self.old.columns }
    {
        let _whole = self.disk.size();
        self.write_piece(batch)
    }

    /// The same, where the disk has room in its own record too.
    fn write_piece(&mut self, piece: &[u8]) -> Result<(), DiskFailed>
        requires open { IsOpen D.content D.images self.old }
        requires within { self.old.end + length piece.now + 1 ≤ length (D.content self.old.disk) }
        requires place { length (D.content self.old.disk) < 2 ^ 64 }
        requires calls { 4 ≤ D.room_calls self.old.disk }
        requires bytes { length piece.now + 1 ≤ D.room_bytes self.old.disk }
        ensures kept { (so_far commits : List CommitValue) → Keeps D.content D.images so_far self.old → IsPieceOf self.old.columns commits piece.now → AllMayFollow so_far commits
            → OnOk result (Keeps D.content D.images (so_far ++ commits) self.new) }
        ensures any_moment { (so_far commits : List CommitValue) → Keeps D.content D.images so_far self.old → IsPieceOf self.old.columns commits piece.now → AllMayFollow so_far commits
            → LeavesOnly D.clock D.images_since self.old.disk self.new.disk (StandsForOrAll self.old.columns so_far commits) }
        ensures written { OnOk result (D.content self.new.disk ≡ overwritten (D.content self.old.disk) self.old.end (1 ∷ piece.now)) }
        ensures left { CountsCalls 4 (D.calls_left self.old.disk) (D.calls_left self.new.disk) result }
        ensures cause { HasCause (D.faults self.old.disk) (D.faults self.new.disk) result }
        ensures stopped { (so_far commits : List CommitValue) → Keeps D.content D.images so_far self.old → IsPieceOf self.old.columns commits piece.now → AllMayFollow so_far commits
            → OnErr result (StopsSo self.old.columns so_far commits (D.calls_left self.old.disk) (D.content self.new.disk) (D.outcome self.new.disk)) }
        ensures torn { tears (D.outcome self.new.disk) ≡ tears (D.outcome self.old.disk) }
        ensures columns { self.new.columns ≡ self.old.columns }
    {
        store_gated(&mut self.disk, self.end, piece)?;
        self.end += piece.len() as u64;
        Ok(())
    }
}
