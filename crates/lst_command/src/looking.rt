//! A script run on the store, and a past table told of it.
ghost use Rattle.std.specs.Prelude.{◌≡◌, ◌≤◌, All, IfOk};
ghost use Rattle.lst_layout.specs.Limits.{IsValid};
ghost use Rattle.lst_past.specs.Past.{past_text};
ghost use Rattle.lst_session.specs.Crews.{IsCrewOf, TellsState, state_told};
ghost use Rattle.lst_command.specs.Owed.{as_of_text};
ghost use Rattle.lst_command.specs.Runs.{IsTaken, LeftBy};

use crate::execution::{Ran, execute};
use lst_layout::Limits;
use lst_model::{OutOfMemory, Text, Time};
use lst_past::print_past;
use lst_rule::Store;
use lst_script::Script;
use lst_session::Crew;
use std::alloc::Global;

/// Runs the lines of a script in order, as `execute` does, and tells the table as of a time from the block of the history that they leave.
pub(crate) fn look_back(
    alloc: Global,
    script: &Script,
    limits: &Limits,
    time: Time,
) -> Result<Ran, OutOfMemory>
    requires valid { IsValid limits.now }
    requires taken { All (IsTaken limits.now) script.now }
    ensures text { IfOk result (λ ran. ran.text ≡ as_of_text limits.now script.now time) }
    ensures left { IfOk result (λ ran. LeftBy limits.now script.now ran.left) }
{
    let ran = execute(alloc, script, limits)?;
    let (store, mut crew) = ran.left;
    let text = past_of(alloc, &store, &mut crew, limits.columns, time)?;
    Ok(Ran {
        text,
        left: (store, crew),
    })
}

/// The text of the table as of a time, from the block of a crew's history.
fn past_of(
    alloc: Global,
    store: &Store,
    crew: &mut Crew,
    columns: u32,
    time: Time,
) -> Result<Text, OutOfMemory>
    requires some { 1 ≤ columns }
    requires few { columns ≤ 8 }
    requires crew { IsCrewOf store.now crew.old }
    requires tells { TellsState crew.old.seat.view }
    requires width { crew.old.seat.view.limits.columns ≡ columns }
    ensures crew { IsCrewOf store.now crew.new }
    ensures tells { TellsState crew.new.seat.view }
    ensures limits { crew.new.seat.view.limits ≡ crew.old.seat.view.limits }
    ensures told { state_told crew.new.seat.view ≡ state_told crew.old.seat.view }
    ensures text { IfOk result (λ text. text ≡ past_text columns (state_told crew.old.seat.view).store.history time) }
{
    let history = crew.history(alloc, store)?;
    crew.seat.consider();
    print_past(alloc, &history, columns, time)
}
