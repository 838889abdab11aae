//! A script run on the store, and the table that its commits make.
ghost use Rattle.std.specs.Prelude.{◌≡◌, All, IfOk};
ghost use Rattle.lst_layout.specs.Limits.{IsValid};
ghost use Rattle.lst_csv.specs.Writing.{history_text};
ghost use Rattle.lst_session.specs.Crews.{IsCrewOf, TellsState, state_told};
ghost use Rattle.lst_command.specs.Owed.{dump_of};
ghost use Rattle.lst_command.specs.Runs.{IsTaken, LeftBy};

use crate::execution::{Ran, execute};
use lst_csv::dump_history;
use lst_layout::Limits;
use lst_model::{OutOfMemory, Text};
use lst_rule::Store;
use lst_script::{Names, Script};
use lst_session::Crew;
use std::alloc::Global;

/// Runs the lines of a script in order, as `execute` does, and writes the table of the history that they leave, under the names of its columns.
pub(crate) fn dump(
    alloc: Global,
    names: &Names,
    script: &Script,
    limits: &Limits,
) -> Result<Ran, OutOfMemory>
    requires valid { IsValid limits.now }
    requires taken { All (IsTaken limits.now) script.now }
    ensures text { IfOk result (λ ran. ran.text ≡ dump_of limits.now names.now script.now) }
    ensures left { IfOk result (λ ran. LeftBy limits.now script.now ran.left) }
{
    let ran = execute(alloc, script, limits)?;
    let (store, mut crew) = ran.left;
    let text = table_told(alloc, &store, &mut crew, names)?;
    Ok(Ran {
        text,
        left: (store, crew),
    })
}

/// The text of the table that a crew's history makes.
fn table_told(
    alloc: Global,
    store: &Store,
    crew: &mut Crew,
    names: &Names,
) -> Result<Text, OutOfMemory>
    requires crew { IsCrewOf store.now crew.old }
    requires tells { TellsState crew.old.seat.view }
    ensures crew { IsCrewOf store.now crew.new }
    ensures tells { TellsState crew.new.seat.view }
    ensures limits { crew.new.seat.view.limits ≡ crew.old.seat.view.limits }
    ensures told { state_told crew.new.seat.view ≡ state_told crew.old.seat.view }
    ensures text { IfOk result (λ text. text ≡ history_text names.now (state_told crew.old.seat.view).store.history) }
{
    let history = crew.history(alloc, store)?;
    dump_history(alloc, names, &history)
}
