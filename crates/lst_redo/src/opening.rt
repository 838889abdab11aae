//! A journal, opened over a disk that a crash may have left.
ghost use Rattle.std.specs.Prelude.{◌≡◌, ◌≢◌, ◌≤◌, ◌⊎◌, ◌↔◌, ◌-◌, ℕ, List, [], replicate, IfOk, IfErr, IfSome, Some, Err, false};
ghost use Rattle.std.specs.List.{AllByRecursion};
ghost use Rattle.lst_model.specs.declared.commits.Commit.{Commit as CommitValue};
ghost use Rattle.lst_model.specs.Faults.{Rose};
ghost use Rattle.lst_disk.specs.Disk.{LeavesOnly, tears};
ghost use Rattle.lst_log.specs.Journals.{StandsFor, IsDamagedAt};
ghost use Rattle.lst_log.specs.Stores.{LastsSince, MakesNoCall, MakesOneSync};
ghost use Rattle.lst_replay_laws.specs.Rests.{HasRoomFor};
ghost use Rattle.lst_replay_laws.specs.Runs.{HasWrites, IsFullAt};
ghost use Rattle.lst_redo.specs.Recoveries.{HasRunAgain};
ghost use Rattle.lst_snapshots.specs.Replays.{IsRecovered};
ghost use Rattle.lst_redo.specs.Openings.{HasOpened, IsTooFull};

use crate::journal::Redo;
use crate::own::OwnWrites;
use crate::recovery::{RecoveryFault, recover};
use lst_disk::Disk;
use lst_layout::Layout;
use lst_log::{LogCause, LogRefusal, image_has_one_history, open};
use lst_model::{Commit, OutOfMemory, Time};
use lst_rule::Store;
use lst_session::Crew;
use std::alloc::Global;

/// Why a journal was not opened.
#[derive(Clone, Copy, Debug, PartialEq, Eq)]
pub enum OpenCause {
    /// The disk failed.
    Disk,
    /// The image isn't in the format: this is the place of the first record that isn't, in bytes from the disk's front.
    Damaged { at: u64 },
    /// The commit at this time meets a limit of the layout.
    Full { time: Time },
    OutOfMemory,
}

/// A journal that was not opened, with its disk.
#[derive(Drop)]
pub struct OpenRefusal<D: Disk> {
    pub disk: D,
    pub cause: OpenCause,
}

/// Opens a journal over a disk: syncs it, reads it, and runs the commits that its content stands for again on a new crew, each by its own
/// session, with the same writes at the same time. Until the sync has succeeded a crash leaves what it could have left before, and from then on the
/// content alone. `Damaged` comes exactly where the content isn't in the format, and is asked before `Full`, which comes exactly where a commit meets a
/// limit of the layout: a session's number, the number of a session's transactions, a full table or a full range. `Disk` comes only where the disk's count
/// of faults rose. Memory is wanting before the sync, and then the disk has made no call, or behind it. A refusal hands the disk back.
///
/// The crew tells the machine's state behind the lines that run the commits again: that of an opening, where there are none.
pub fn open_redo<D: Disk>(
    alloc: Global,
    layout: &Layout,
    disk: D,
) -> Result<Redo<D>, OpenRefusal<D>>
    ensures opened { IfOk result (λ redo. (commits : List CommitValue) × HasOpened D.content D.images layout.now.limits disk commits redo) }
    ensures layout { IfOk result (λ redo. redo.store.layout ≡ layout.now) }
    ensures failed { IfOk result (λ redo. redo.failed ≡ false) }
    ensures before { IfOk result (λ redo. LeavesOnly D.clock D.images_since disk redo.log.disk (D.images disk)) }
    ensures before_err { IfErr result (λ e. LeavesOnly D.clock D.images_since disk e.disk (D.images disk)) }
    ensures after { IfOk result (λ redo. LastsSince D.content D.clock D.images_since disk redo.log.disk) }
    ensures after_err { IfErr result (λ e. (at : ℕ) → (e.cause ≡ OpenCause.Damaged at) ⊎ (e.cause ≡ OpenCause.Full at) → LastsSince D.content D.clock D.images_since disk e.disk) }
    ensures wanting { IfErr result (λ e. e.cause ≡ OpenCause.OutOfMemory → MakesNoCall D.images D.calls_left D.faults disk e.disk ⊎ MakesOneSync D.content D.clock D.images_since D.calls_left disk e.disk) }
    ensures content { IfErr result (λ e. D.content e.disk ≡ D.content disk) }
    ensures damaged { IfErr result (λ e. (at : ℕ) → e.cause ≡ OpenCause.Damaged at → IsDamagedAt layout.now.limits.columns (D.content disk) at) }
    ensures full { IfErr result (λ e. (time : ℕ) → e.cause ≡ OpenCause.Full time → IsTooFull layout.now.limits (D.content disk) time) }
    ensures never { (commits : List CommitValue) → StandsFor layout.now.limits.columns (D.content disk) commits → HasRoomFor layout.now.limits commits → IfErr result (λ e. (time : ℕ) → ¬ (e.cause ≡ OpenCause.Full time)) }
    ensures fault { IfErr result (λ e. e.cause ≡ OpenCause.Disk → Rose (D.faults disk) (D.faults e.disk)) }
    ensures told { IfSome (D.calls_left disk) (λ left. IfOk result (λ redo. (left ≢ 0) × (D.calls_left redo.log.disk ≡ Some (left - 1)))) }
    ensures told_err { IfSome (D.calls_left disk) (λ left. IfErr result (λ e. ¬ (e.cause ≡ OpenCause.OutOfMemory) → ((e.cause ≡ OpenCause.Disk) ↔ (left ≡ 0)) × (D.calls_left e.disk ≡ Some (left - 1)))) }
    ensures told_memory { IfSome (D.calls_left disk) (λ left. IfErr result (λ e. e.cause ≡ OpenCause.OutOfMemory → (D.calls_left e.disk ≡ Some left) ⊎ (D.calls_left e.disk ≡ Some (left - 1)))) }
    ensures torn { IfOk result (λ redo. tears (D.outcome redo.log.disk) ≡ tears (D.outcome disk)) }
    ensures torn_err { IfErr result (λ e. tears (D.outcome e.disk) ≡ tears (D.outcome disk)) }
    ensures faults { IfOk result (λ redo. D.faults disk ≤ D.faults redo.log.disk) }
    ensures faults_err { IfErr result (λ e. D.faults disk ≤ D.faults e.disk) }
{
    image_has_one_history();
    match open(alloc, disk, layout.limits.columns) {
        Ok((log, snapshots)) => match recovered(alloc, layout, snapshots.commits()) {
            Ok((store, crew, own)) => Ok(Redo {
                log,
                store,
                crew,
                own,
                failed: false,
            }),
            Err(fault) => Err(OpenRefusal {
                disk: log.disk,
                cause: cause_of(fault),
            }),
        },
        Err(refusal) => Err(refused(refusal)),
    }
}

/// A store with its crew, recovered from commits, and no writes for each of its sessions.
fn recovered(
    alloc: Global,
    layout: &Layout,
    commits: &[Commit],
) -> Result<(Store, Crew, OwnWrites), RecoveryFault>
    requires recovered { IsRecovered commits.now }
    requires writes { AllByRecursion (HasWrites layout.now.limits.columns) commits.now }
    ensures store { IfOk result (λ x. x.0.layout ≡ layout.now) }
    ensures crew { IfOk result (λ x. HasRunAgain x.0 layout.now.limits commits.now x.1) }
    ensures own { IfOk result (λ x. x.2 ≡ replicate layout.now.limits.sessions []) }
    ensures full { (time : ℕ) → result ≡ Err (RecoveryFault.Full time) → IsFullAt layout.now.limits commits.now time }
    ensures never { HasRoomFor layout.now.limits commits.now → (time : ℕ) → ¬ (result ≡ Err (RecoveryFault.Full time)) }
{
    let (store, crew) = recover(alloc, layout, commits)?;
    match OwnWrites::new(alloc, layout.limits.sessions) {
        Ok(own) => Ok((store, crew, own)),
        Err(OutOfMemory) => Err(RecoveryFault::OutOfMemory),
    }
}

/// The same cause, of the journal.
fn cause_of(fault: RecoveryFault) -> OpenCause
    ensures full { (time : ℕ) → (result ≡ OpenCause.Full time) ↔ (fault ≡ RecoveryFault.Full time) }
    ensures memory { (result ≡ OpenCause.OutOfMemory) ↔ (fault ≡ RecoveryFault.OutOfMemory) }
    ensures disk { ¬ (result ≡ OpenCause.Disk) }
    ensures damaged { (at : ℕ) → ¬ (result ≡ OpenCause.Damaged at) }
{
    match fault {
        RecoveryFault::Full { time } => OpenCause::Full { time },
        RecoveryFault::OutOfMemory => OpenCause::OutOfMemory,
    }
}

/// The same refusal, of the journal.
fn refused<D: Disk>(refusal: LogRefusal<D>) -> OpenRefusal<D>
    ensures disk { result.disk ≡ refusal.disk }
    ensures same { (result.cause ≡ OpenCause.Disk) ↔ (refusal.cause ≡ LogCause.Disk) }
    ensures damaged { (at : ℕ) → (result.cause ≡ OpenCause.Damaged at) ↔ (refusal.cause ≡ LogCause.Damaged at) }
    ensures memory { (result.cause ≡ OpenCause.OutOfMemory) ↔ (refusal.cause ≡ LogCause.OutOfMemory) }
    ensures never { (time : ℕ) → ¬ (result.cause ≡ OpenCause.Full time) }
{
    let cause = match refusal.cause {
        LogCause::Disk => OpenCause::Disk,
        LogCause::Damaged { at } => OpenCause::Damaged { at },
        LogCause::OutOfMemory => OpenCause::OutOfMemory,
    };
    OpenRefusal {
        disk: refusal.disk,
        cause,
    }
}
