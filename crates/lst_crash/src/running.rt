//! A run through a journal, up to its end or to the call at which the disk stops.
ghost use Rattle.std.specs.Prelude.{◌≡◌, ◌≤◌, ℕ, List, ◌∷◌, [], All, IfOk, OnOk, length, replicate, false};
ghost use Rattle.lst_model.specs.declared.commits.Commit.{Commit as CommitValue};
ghost use Rattle.lst_model.specs.declared.lines.Line.{Line as ScriptLine};
ghost use Rattle.lst_layout.specs.Limits.{IsValid};
ghost use Rattle.lst_layout.specs.declared.limits.Limits.{Limits as LimitsOf};
ghost use Rattle.lst_disk.specs.Disk.{Only};
ghost use Rattle.lst_disk.specs.Memory.{disk_content, disk_images, disk_left, disk_torn};
ghost use Rattle.lst_redo.specs.Journals.{view_of, IsOpenJournal};
ghost use Rattle.lst_crash.specs.Crashes.{Ending, IsTaken, most_bytes};
ghost use Rattle.lst_crash.specs.Recovering.{IsStopped, IsRunning, HasEnded, GoesOn};

use crate::words::push_kept;
use lst_disk::MemDisk;
use lst_layout::Layout;
use lst_log::image_has_one_history;
use lst_model::{Line, OutOfMemory, Text};
use lst_redo::{OpenCause, Redo, open_redo};
use lst_script::Script;
use std::alloc::Global;

/// The text of what the lines of a run were answered, and its disk, before the crash.
#[derive(Drop)]
pub(crate) struct Stopped {
    pub text: Text,
    pub disk: MemDisk,
}

/// Runs the lines of a script through a journal over a disk of zeros, up to the line at which the disk fails, or the last one.
pub(crate) fn run_to_stop(
    alloc: Global,
    script: &Script,
    layout: &Layout,
    disk: MemDisk,
) -> Result<Stopped, OutOfMemory>
    requires valid { IsValid layout.now.limits }
    requires few { length (disk_content disk) ≤ most_bytes }
    requires zeros { disk_content disk ≡ replicate (length (disk_content disk)) 0 }
    requires lasts { Only (disk_content disk) (disk_images disk) }
    requires taken { All (IsTaken layout.now.limits) script.now }
    ensures ended { IfOk result (λ stopped. IsStopped layout.now.limits (length (disk_content disk)) (disk_left disk) script.now stopped.text stopped.disk) }
    ensures torn { IfOk result (λ stopped. disk_torn stopped.disk ≡ disk_torn disk) }
{
    image_has_one_history();
    let mut text = Text::new(alloc);
    match open_redo(alloc, layout, disk) {
        Ok(mut redo) => {
            run_lines(alloc, &mut text, &mut redo, script)?;
            Ok(Stopped {
                text,
                disk: redo.close(),
            })
        }
        Err(refusal) => match refusal.cause {
            OpenCause::Disk => {
                text.push_bytes(b"stopped\n")?;
                Ok(Stopped {
                    text,
                    disk: refusal.disk,
                })
            }
            OpenCause::OutOfMemory => Err(OutOfMemory),
            OpenCause::Damaged { .. } => unreachable!(),
            OpenCause::Full { .. } => unreachable!(),
        },
    }
}

/// Runs the lines of a script in order, up to the one at which the disk fails.
fn run_lines(
    alloc: Global,
    text: &mut Text,
    redo: &mut Redo<MemDisk>,
    script: &Script,
) -> Result<(), OutOfMemory>
    requires running { (limits : LimitsOf) × (bytes : ℕ) × (ending : Ending) × IsRunning limits bytes redo.old text.old script.now ending }
    requires valid { IsValid (view_of redo.old).limits }
    requires taken { All (IsTaken (view_of redo.old).limits) script.now }
    ensures ended { OnOk result ((limits : LimitsOf) (bytes : ℕ) (ending : Ending) → IsRunning limits bytes redo.old text.old script.now ending → HasEnded limits redo.new.log.disk text.new ending) }
    ensures torn { OnOk result (disk_torn redo.new.log.disk ≡ disk_torn redo.old.log.disk) }
{
    for place in 0..script.len() {
        if answer(alloc, text, redo, &script.line(place))? {
            return Ok(());
        }
    }
    Ok(())
}

/// Answers a line, adds the text of what it is answered, and tells whether the disk failed at it.
fn answer(
    alloc: Global,
    text: &mut Text,
    redo: &mut Redo<MemDisk>,
    line: &Line,
) -> Result<bool, OutOfMemory>
    requires journal { IsOpenJournal disk_content disk_images redo.old }
    requires sound { redo.old.failed ≡ false }
    requires valid { IsValid (view_of redo.old).limits }
    requires taken { IsTaken (view_of redo.old).limits line.now }
    ensures goes { IfOk result (λ failed. (limits : LimitsOf) (bytes : ℕ) (rest : List ScriptLine) (ending : Ending) → IsRunning limits bytes redo.old text.old (line.now ∷ rest) ending → GoesOn failed limits bytes redo.new text.new rest ending) }
    ensures torn { disk_torn redo.new.log.disk ≡ disk_torn redo.old.log.disk }
{
    redo.crew.seat.consider();
    let kept = redo.line(alloc, line)?;
    push_kept(text, line, &kept)?;
    Ok(redo.failed())
}
