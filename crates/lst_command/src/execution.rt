//! A script run on the store.
ghost use Rattle.std.specs.Prelude.{◌≡◌, ℕ, List, ◌∷◌, All, IfOk, OnOk};
ghost use Rattle.lst_model.specs.declared.lines.Line.{Line as ScriptLine};
ghost use Rattle.lst_machine.specs.State.{State};
ghost use Rattle.lst_session.specs.Crews.{IsCrewOf, TellsState};
ghost use Rattle.lst_command.specs.Runs.{IsTaken, HasRun, LeftBy};
ghost use Rattle.lst_layout.specs.Limits.{IsValid};
ghost use Rattle.lst_layout.specs.declared.limits.Limits.{Limits as LimitsOf};
ghost use Rattle.lst_command.specs.Owed.{run_text};

use lst_layout::{Layout, Limits};
use lst_model::{Line, OutOfMemory, Text};
use lst_report::push_line;
use lst_rule::Store;
use lst_scan::crew_line;
use lst_script::Script;
use lst_session::{Crew, open_crew};
use std::alloc::Global;

/// What a run comes to: the text of what each line is answered, and the store with the crew that made the run.
#[derive(Drop)]
pub(crate) struct Ran {
    pub text: Text,
    pub left: (Store, Crew),
}

/// Runs the lines of a script in order, on a store with these limits that is opened for them.
pub(crate) fn execute(alloc: Global, script: &Script, limits: &Limits) -> Result<Ran, OutOfMemory>
    requires valid { IsValid limits.now }
    requires taken { All (IsTaken limits.now) script.now }
    ensures text { IfOk result (λ ran. ran.text ≡ run_text limits.now script.now) }
    ensures left { IfOk result (λ ran. LeftBy limits.now script.now ran.left) }
{
    let (store, mut crew) = open_crew(alloc, &layout(limits))?;
    let mut text = Text::new(alloc);
    let mut line = Line::Phase;
    for place in 0..script.len() {
        script.put_line(place, &mut line);
        answer(alloc, &store, &mut crew, &mut text, &line)?;
    }
    Ok(Ran {
        text,
        left: (store, crew),
    })
}

/// Runs a line, and adds the text of what it is answered.
#[inline(always)]
fn answer(
    alloc: Global,
    store: &Store,
    crew: &mut Crew,
    text: &mut Text,
    line: &Line,
) -> Result<(), OutOfMemory>
    requires crew { IsCrewOf store.now crew.old }
    requires tells { TellsState crew.old.seat.view }
    requires taken { IsTaken crew.old.seat.view.limits line.now }
    ensures crew { IsCrewOf store.now crew.new }
    ensures tells { OnOk result (TellsState crew.new.seat.view) }
    ensures limits { OnOk result (crew.new.seat.view.limits ≡ crew.old.seat.view.limits) }
    ensures run { OnOk result ((limits : LimitsOf) (rest : List ScriptLine) (whole : List ℕ) (last : State) → crew.old.seat.view.limits ≡ limits → HasRun limits crew.old.seat.view text.old (line.now ∷ rest) whole last → HasRun limits crew.new.seat.view text.new rest whole last) }
{
    let reply = crew_line(alloc, store, crew, line)?;
    push_line(text, line, &reply)?;
    Ok(())
}

/// The layout of a store with these limits.
pub(crate) fn layout(limits: &Limits) -> Layout
    requires { IsValid limits.now }
    ensures { result.limits ≡ limits.now }
{
    let Ok(layout) = limits.check() else {
        unreachable!()
    };
    layout
}
