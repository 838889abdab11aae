//! A script that is run through a journal, and crashed.
ghost use Rattle.std.specs.Prelude.{◌≡◌, ◌≤◌, ℕ, List, All, IfOk};
ghost use Rattle.lst_model.specs.declared.commits.Commit.{Commit};
ghost use Rattle.lst_layout.specs.Limits.{IsValid};
ghost use Rattle.lst_disk.specs.Disk.{left_by};
ghost use Rattle.lst_disk.specs.Memory.{disk_content, disk_outcome};
ghost use Rattle.lst_crash.specs.Crashes.{IsTaken, limits_again, most_bytes};
ghost use Rattle.lst_crash.specs.Recovering.{IsCrashed, IsRecoverable, HasRecovered};

use crate::recovered::push_recovered;
use crate::running::{Stopped, run_to_stop};
use lst_disk::MemDisk;
use lst_layout::{Layout, Limits};
use lst_log::image_has_one_history;
use lst_model::{OutOfMemory, Text};
use lst_redo::{OpenCause, open_redo};
use lst_rule::Store;
use lst_script::Script;
use lst_session::Crew;
use std::alloc::Global;

/// How many tails each range has when the disk is opened again: more than the disk holds writes.
const TAILS_AGAIN: u32 = 16_384;

/// The text of a run and of what was recovered behind its crash, and the store with its crew that were opened last.
#[derive(Drop)]
pub struct Crashed {
    pub text: Text,
    pub left: (Store, Crew),
}

/// Runs the lines of a script in order through a journal, on a disk in memory of so many bytes, all 0, that makes `stop` calls and fails then. At
/// the first line at which the disk fails, or behind the last one, the disk crashes: it keeps what was synced, or where it is `torn` all
/// that was written. It is opened again, and the text goes on with how many commits were recovered and the table that they make: those that were acknowledged,
/// and the one at which the disk failed exactly where the disk is torn and three of its calls were left for it, so that its record's gate was opened.
///
/// Where `stop` is 0 the first opening fails, and the text begins with `stopped`. The only error is want of memory: no disk is found damaged, and no limit
/// is met when the commits are run again.
pub fn crash_lines(
    alloc: Global,
    script: &Script,
    layout: &Layout,
    bytes: u32,
    stop: u64,
    torn: bool,
) -> Result<Crashed, OutOfMemory>
    requires few { bytes ≤ most_bytes }
    requires valid { IsValid layout.now.limits }
    requires taken { All (IsTaken layout.now.limits) script.now }
    ensures { IfOk result (λ crashed. IsCrashed layout.now.limits bytes stop torn script.now crashed.text crashed.left) }
{
    let disk = MemDisk::new(alloc, bytes, stop, torn)?;
    let stopped = run_to_stop(alloc, script, layout, disk)?;
    recover(alloc, layout, stopped)
}

/// Crashes the disk of a run and opens it again, with room for all writes that it may hold; appends how many commits were recovered, and the table that
/// they make. The only error is want of memory.
fn recover(alloc: Global, layout: &Layout, stopped: Stopped) -> Result<Crashed, OutOfMemory>
    requires valid { IsValid layout.now.limits }
    requires recoverable { (commits : List Commit) × IsRecoverable layout.now.limits commits (left_by (disk_outcome stopped.disk) (disk_content stopped.disk)) }
    ensures { IfOk result (λ crashed. HasRecovered layout.now.limits stopped.disk stopped.text crashed.text crashed.left) }
{
    image_has_one_history();
    let mut text = stopped.text;
    match open_redo(alloc, &layout_again(layout), stopped.disk.crash()) {
        Ok(mut redo) => {
            let history = redo.history(alloc)?;
            redo.crew.seat.consider();
            push_recovered(alloc, &mut text, &history, layout.limits.columns)?;
            Ok(Crashed {
                text,
                left: (redo.store, redo.crew),
            })
        }
        Err(refusal) => match refusal.cause {
            OpenCause::OutOfMemory => Err(OutOfMemory),
            OpenCause::Disk => unreachable!(),
            OpenCause::Damaged { .. } => unreachable!(),
            OpenCause::Full { .. } => unreachable!(),
        },
    }
}

/// The same layout, but for the tails of its ranges.
fn layout_again(layout: &Layout) -> Layout
    requires { IsValid layout.now.limits }
    ensures { result.limits ≡ limits_again layout.now.limits }
{
    let limits = Limits {
        tails: TAILS_AGAIN,
        ..layout.limits
    };
    let Ok(layout) = limits.check() else {
        unreachable!()
    };
    layout
}
