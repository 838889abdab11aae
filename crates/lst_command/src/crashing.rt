//! A script run through a journal and crashed.
ghost use Rattle.std.specs.Prelude.{◌≡◌, ◌≤◌, IfOk, IfErr};
ghost use Rattle.lst_layout.specs.Limits.{IsValid};
ghost use Rattle.lst_options.specs.Options.{IsDisk};
ghost use Rattle.lst_command.specs.declared.command.Task.{Task as TaskOf};
ghost use Rattle.lst_command.specs.Outputs.{IsOutputFor, IsRefusalFor};

use crate::execution::layout;
use crate::output::{Output, of_fault};
use crate::status::Status;
use lst_crash::crash_lines;
use lst_layout::Limits;
use lst_model::{OutOfMemory, Text};
use lst_options::DiskOptions;
use lst_script::parse;
use std::alloc::Global;

/// The output of a run that is crashed.
#[tactic(auto, using(crate::proofs::Crashes::crash_fault))]
pub(crate) fn crash_input(
    alloc: Global,
    limits: &Limits,
    disk: DiskOptions,
    input: &Text,
) -> Result<Output, Status>
    requires valid { IsValid limits.now }
    requires disk { IsDisk disk }
    ensures output { IfOk result (IsOutputFor (TaskOf.Crash disk) limits.now input.now) }
    ensures refusal { IfErr result (IsRefusalFor (TaskOf.Crash disk) limits.now input.now) }
{
    let script = match parse(alloc, input.as_bytes(), limits) {
        Ok(script) => script,
        Err(fault) => return Err(of_fault(fault)),
    };
    let stop = u64::from(disk.stop);
    match crash_lines(alloc, &script, &layout(limits), disk.bytes, stop, disk.torn) {
        Ok(crashed) => Ok(Output {
            text: crashed.text,
            status: Status::Done,
            both: None,
        }),
        Err(OutOfMemory) => Err(Status::OutOfMemory),
    }
}
