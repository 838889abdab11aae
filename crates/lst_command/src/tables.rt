//! What an import and a dump make of their inputs.
ghost use Rattle.std.specs.Prelude.{◌≡◌, IfOk, IfErr};
ghost use Rattle.lst_layout.specs.Limits.{IsValid};
ghost use Rattle.lst_command.specs.declared.command.Task.{Task as TaskOf};
ghost use Rattle.lst_command.specs.declared.status.Status.{Status as StatusOf};
ghost use Rattle.lst_command.specs.Outputs.{HasSaid, IsOutputFor, IsRefusalFor};
ghost use Rattle.lst_command.specs.Statuses.{refusal_status};

use crate::dumping::dump;
use crate::output::{Output, of_fault, output_of};
use crate::status::Status;
use lst_csv::{TableRefusal, import_text};
use lst_layout::Limits;
use lst_model::{OutOfMemory, Text};
use lst_script::parse_named;
use std::alloc::Global;

/// The output of an import: the script that stands for the table.
#[tactic(auto, using(crate::proofs::Dumps::import_output, crate::proofs::Dumps::import_refusal))]
pub(crate) fn import_input(alloc: Global, limits: &Limits, input: &Text) -> Result<Output, Status>
    requires { IsValid limits.now }
    ensures output { IfOk result (IsOutputFor TaskOf.Import limits.now input.now) }
    ensures refusal { IfErr result (IsRefusalFor TaskOf.Import limits.now input.now) }
{
    match import_text(alloc, input.as_bytes(), limits.columns) {
        Ok(text) => Ok(output_alone(text)),
        Err(refusal) => Err(of_refusal(refusal)),
    }
}

/// An output of this text alone.
fn output_alone(text: Text) -> Output
    ensures { HasSaid text StatusOf.Done result }
{
    Output {
        text,
        status: Status::Done,
        both: None,
    }
}

/// The status of an input that is no table, or for which memory was wanting.
fn of_refusal(refusal: TableRefusal) -> Status
    ensures { result ≡ refusal_status refusal }
{
    match refusal {
        TableRefusal::Bad { place, kind } => Status::BadTable { place, kind },
        TableRefusal::OutOfMemory => Status::OutOfMemory,
    }
}

/// The output of a dump: the table that the commits of a run make.
#[tactic(auto, using(crate::proofs::Dumps::dump_fault))]
pub(crate) fn dump_input(alloc: Global, limits: &Limits, input: &Text) -> Result<Output, Status>
    requires { IsValid limits.now }
    ensures output { IfOk result (IsOutputFor TaskOf.Dump limits.now input.now) }
    ensures refusal { IfErr result (IsRefusalFor TaskOf.Dump limits.now input.now) }
{
    let named = match parse_named(alloc, input.as_bytes(), limits) {
        Ok(named) => named,
        Err(fault) => return Err(of_fault(fault)),
    };
    match dump(alloc, &named.names, &named.script, limits) {
        Ok(ran) => Ok(output_of(ran)),
        Err(OutOfMemory) => Err(Status::OutOfMemory),
    }
}
