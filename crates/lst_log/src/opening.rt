//! A log, opened over a disk that a crash may have left.
ghost use Rattle.std.specs.Prelude.{◌≡◌, ◌≢◌, ◌≤◌, ◌<◌, ◌+◌, ◌^◌, ◌↔◌, ℕ, List, length, drop, IfOk, IfErr, OnOk, Err, Some, IfSome, ◌-◌, ◌⊎◌};
ghost use Rattle.lst_model.specs.declared.commits.Commit.{Commit as CommitValue};
ghost use Rattle.lst_model.specs.Faults.{Rose, HasCause};
ghost use Rattle.lst_disk.specs.Disk.{Only, LeavesOnly, tears};
ghost use Rattle.lst_log.specs.Format.{journal};
ghost use Rattle.lst_snapshots.specs.Replays.{numbered_from};
ghost use Rattle.lst_log.specs.Journals.{StandsFor, IsDamagedAt};
ghost use Rattle.lst_log.specs.Stores.{LastsSince, OnlyReads, MakesNoCall, MakesOneSync};
ghost use Rattle.lst_log.specs.Logs.{Keeps};

use crate::load::{byte_at, load_record};
use crate::log::Log;
use lst_disk::Disk;
use lst_model::Commit;
use lst_snapshots::Snapshots;
use std::alloc::Global;

/// Why a log was not opened.
#[derive(Clone, Copy, Debug, PartialEq, Eq)]
pub enum LogCause {
    Disk,
    Damaged { at: u64 },
    OutOfMemory,
}

/// A log that was not opened, with its disk.
#[derive(Drop)]
pub struct LogRefusal<D: Disk> {
    pub disk: D,
    pub cause: LogCause,
}

/// Makes room for a sync in the disk's own record, and syncs.
fn settle<D: Disk>(disk: &mut D) -> Result<(), LogCause>
    ensures content { D.content disk.new ≡ D.content disk.old }
    ensures lasts { OnOk result (Only (D.content disk.old) (D.images disk.new)) }
    ensures before { LeavesOnly D.clock D.images_since disk.old disk.new (D.images disk.old) }
    ensures after { OnOk result (LastsSince D.content D.clock D.images_since disk.old disk.new) }
    ensures fault { result ≡ Err LogCause.Disk → Rose (D.faults disk.old) (D.faults disk.new) }
    ensures told { IfSome (D.calls_left disk.old) (λ left. (result ≡ Err LogCause.Disk → left ≡ 0) × (OnOk result (left ≢ 0))) }
    ensures one { ¬ (result ≡ Err LogCause.OutOfMemory) → IfSome (D.calls_left disk.old) (λ left. D.calls_left disk.new ≡ Some (left - 1)) }
    ensures wanting { result ≡ Err LogCause.OutOfMemory → MakesNoCall D.images D.calls_left D.faults disk.old disk.new }
    ensures torn { tears (D.outcome disk.new) ≡ tears (D.outcome disk.old) }
    ensures faults { D.faults disk.old ≤ D.faults disk.new }
    ensures never { (at : ℕ) → ¬ (result ≡ Err (LogCause.Damaged at)) }
{
    let Ok(()) = disk.room(0) else {
        return Err(LogCause::OutOfMemory);
    };
    let Ok(()) = disk.sync() else {
        return Err(LogCause::Disk);
    };
    Ok(())
}

/// The commits that a disk's content stands for, each with its time as its number, and where their records end. It is read as far as the gates lead.
fn scan<D: Disk>(alloc: Global, columns: u32, disk: &mut D) -> Result<(Snapshots, u64), LogCause>
    requires { columns ≤ 8 }
    ensures found { IfOk result (λ x. (commits : List CommitValue) × StandsFor columns (D.content disk.old) commits × (x.0 ≡ numbered_from 1 commits) × (x.1 ≡ length (journal columns commits))) }
    ensures damaged { (at : ℕ) → result ≡ Err (LogCause.Damaged at) → IsDamagedAt columns (D.content disk.old) at }
    ensures reads { OnlyReads D.content D.images D.clock D.images_since D.calls_left D.outcome D.faults disk.old disk.new (result ≡ Err LogCause.Disk) }
{
    let size = disk.size();
    let mut snapshots = Snapshots::new(alloc);
    let mut bytes = Vec::new(alloc);
    let mut own = Vec::new(alloc);
    let mut at = 0;
    while at < size {
        let Ok(gate) = byte_at(disk, at) else {
            return Err(LogCause::Disk);
        };
        if gate != 1 {
            return Ok((snapshots, at));
        }
        let read = match load_record(alloc, columns, disk, at + 1, &mut bytes, &mut own) {
            Ok(read) => read,
            Err(cause) => return Err(cause),
        };
        let Some((commit, len)) = read else {
            return Err(LogCause::Damaged { at });
        };
        if snapshots.len() >= u32::MAX as usize {
            return Err(LogCause::OutOfMemory);
        }
        let numbered = Commit {
            session: commit.session,
            number: snapshots.len() as u32 + 1,
            begin: commit.begin,
            writes: commit.writes,
        };
        if !snapshots.follows(&numbered) {
            return Err(LogCause::Damaged { at });
        }
        let Ok(()) = snapshots.push(numbered) else {
            return Err(LogCause::OutOfMemory);
        };
        at += 1 + len as u64;
    }
    Ok((snapshots, at))
}

/// Opens a log over a disk, for a table of so many columns: syncs it, reads it as far as the gates lead, a record at a time, and answers the commits that its
/// content stands for, each with its time as its number. `Damaged` names the place of the first record that isn't in the format, in bytes from the disk's
/// front; `Disk` comes only where the disk's count of faults rose. Memory is wanting before the sync, and then the disk has made no call, or behind it. A
/// refusal hands the disk back.
pub fn open<D: Disk>(
    alloc: Global,
    disk: D,
    columns: u32,
) -> Result<(Log<D>, Snapshots), LogRefusal<D>>
    requires { columns ≤ 8 }
    ensures ok { IfOk result (λ x. (commits : List CommitValue) × StandsFor columns (D.content disk) commits × Keeps D.content D.images commits x.0 × (x.1 ≡ numbered_from 1 commits)) }
    ensures columns { IfOk result (λ x. x.0.columns ≡ columns) }
    ensures before { IfOk result (λ x. LeavesOnly D.clock D.images_since disk x.0.disk (D.images disk)) }
    ensures before_err { IfErr result (λ e. LeavesOnly D.clock D.images_since disk e.disk (D.images disk)) }
    ensures after { IfOk result (λ x. LastsSince D.content D.clock D.images_since disk x.0.disk) }
    ensures after_err { IfErr result (λ e. (at : ℕ) → e.cause ≡ LogCause.Damaged at → LastsSince D.content D.clock D.images_since disk e.disk) }
    ensures wanting { IfErr result (λ e. e.cause ≡ LogCause.OutOfMemory → MakesNoCall D.images D.calls_left D.faults disk e.disk ⊎ MakesOneSync D.content D.clock D.images_since D.calls_left disk e.disk) }
    ensures content { IfErr result (λ e. D.content e.disk ≡ D.content disk) }
    ensures damaged { IfErr result (λ e. (at : ℕ) → e.cause ≡ LogCause.Damaged at → IsDamagedAt columns (D.content disk) at) }
    ensures fault { IfErr result (λ e. e.cause ≡ LogCause.Disk → Rose (D.faults disk) (D.faults e.disk)) }
    ensures told { IfSome (D.calls_left disk) (λ left. IfOk result (λ x. (left ≢ 0) × (D.calls_left x.0.disk ≡ Some (left - 1)))) }
    ensures told_err { IfSome (D.calls_left disk) (λ left. IfErr result (λ e. ¬ (e.cause ≡ LogCause.OutOfMemory) → ((e.cause ≡ LogCause.Disk) ↔ (left ≡ 0)) × (D.calls_left e.disk ≡ Some (left - 1)))) }
    ensures told_memory { IfSome (D.calls_left disk) (λ left. IfErr result (λ e. e.cause ≡ LogCause.OutOfMemory → (D.calls_left e.disk ≡ Some left) ⊎ (D.calls_left e.disk ≡ Some (left - 1)))) }
    ensures torn { IfOk result (λ x. tears (D.outcome x.0.disk) ≡ tears (D.outcome disk)) }
    ensures torn_err { IfErr result (λ e. tears (D.outcome e.disk) ≡ tears (D.outcome disk)) }
    ensures faults { IfOk result (λ x. D.faults disk ≤ D.faults x.0.disk) }
    ensures faults_err { IfErr result (λ e. D.faults disk ≤ D.faults e.disk) }
{
    let mut disk = disk;
    match settle(&mut disk) {
        Ok(()) => match scan(alloc, columns, &mut disk) {
            Ok((snapshots, end)) => Ok((Log { disk, columns, end }, snapshots)),
            Err(cause) => Err(LogRefusal { disk, cause }),
        },
        Err(cause) => Err(LogRefusal { disk, cause }),
    }
}
