//! What a command makes, before any of it is written.
ghost use Rattle.std.specs.Prelude.{◌≡◌};
ghost use Rattle.lst_command.specs.Outputs.{HasMade};
ghost use Rattle.lst_command.specs.Statuses.{fault_status};

use crate::execution::Ran;
use crate::status::Status;
use lst_model::Text;
use lst_rule::Store;
use lst_script::ScriptFault;
use lst_session::Crew;

/// The text that is owed, the status that it has once it is written, and the store with the crew that are left, if the command works on one.
#[derive(Drop)]
pub(crate) struct Output {
    pub text: Text,
    pub status: Status,
    pub both: Option<(Store, Crew)>,
}

/// The output of what was run.
pub(crate) fn output_of(ran: Ran) -> Output
    ensures { HasMade ran.text ran.left result }
{
    Output {
        text: ran.text,
        status: Status::Done,
        both: Some(ran.left),
    }
}

/// The status of an input that isn't in order, or for which memory was wanting.
pub(crate) fn of_fault(fault: ScriptFault) -> Status
    ensures { result ≡ fault_status fault }
{
    match fault {
        ScriptFault::Bad { line, kind } => Status::BadScript { line, kind },
        ScriptFault::OutOfMemory => Status::OutOfMemory,
    }
}
