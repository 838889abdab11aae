//! A script that is cut off at each of its bytes.
ghost use Rattle.std.specs.Prelude.{◌<◌, IsTrue};
ghost use Rattle.lst_model.specs.Lines.{CallFits, LineFits};

use crate::calls::{SOUND, Wanted, comes_to, same};
use crate::rows::STOCK;
use lst_command::Status;
use lst_layout::Limits;
use lst_machine::Machine;
use lst_model::{Call, Line, OutOfMemory, Text};
use lst_report::push_line;
use lst_script::{FaultKind, Script, ScriptFault, parse};
use std::alloc::Global;
use std::process::Abort;
use std::sync::Wait;
use std::thread::Threads;

/// Whether a store with so many columns takes the call.
fn call_fits(columns: u32, call: &Call) -> bool
    ensures { IsTrue result → CallFits columns call.now }
{
    match call {
        Call::Insert { row, .. } => row.len() == columns as usize,
        Call::Update { patch, .. } => { patch.len() == columns as usize && patch.sets_some() }
        Call::Sum { column } => *column < columns,
        Call::Find { column, .. } => *column < columns,
        _ => true,
    }
}

/// Whether a store with these limits takes the line.
pub(crate) fn line_fits(limits: &Limits, line: &Line) -> bool
    ensures { IsTrue result → LineFits limits.now.sessions limits.now.ranges limits.now.columns line.now }
{
    match line {
        Line::Phase => true,
        Line::Merge { range, column } => *range < limits.ranges && *column < limits.columns,
        Line::Call { session, call } => {
            *session < limits.sessions && call_fits(limits.columns, call)
        }
    }
}

/// What the machine of one thread answers to the lines.
fn answers_of_machine(rt: &impl Abort, alloc: Global, lines: &[Line]) -> Result<Text, OutOfMemory> {
    let limits = Limits::default();
    let Ok(layout) = limits.check() else {
        panic!(rt; "the limits are in range");
    };
    let mut machine = Machine::new(alloc, &layout)?;
    let mut text = Text::new(alloc);
    for line in lines {
        if !line_fits(&machine.limits(), line) {
            panic!(rt; "each line fits the limits");
        }
        let reply = machine.line(line)?;
        push_line(&mut text, line, &reply)?;
    }
    Ok(text)
}

/// A script is answered as the machine answers its lines.
fn is_answered_as_by_machine(
    rt: &(impl Abort + Threads + Wait + Sync),
    alloc: Global,
    text: &[u8],
    script: &Script,
) -> Result<(), OutOfMemory> {
    let lines = script.unpacked(alloc)?;
    let answers = answers_of_machine(rt, alloc, lines.as_slice())?;
    let wanted = Wanted {
        status: Status::Done,
        output: answers.as_bytes(),
        message: b"",
    };
    comes_to(rt, alloc, text.len() as u64, "run", text, &SOUND, wanted)
}

/// The first faulty line of a text is named.
fn is_named(
    rt: &(impl Abort + Threads + Wait + Sync),
    alloc: Global,
    text: &[u8],
    line: u64,
    kind: FaultKind,
) -> Result<(), OutOfMemory> {
    let fault = kind.text();
    let message = format!(in alloc; "lstore: line {line}: {fault}\n")?;
    let wanted = Wanted {
        status: Status::BadScript { line, kind },
        output: b"",
        message: message.as_str().as_bytes(),
    };
    comes_to(rt, alloc, text.len() as u64, "run", text, &SOUND, wanted)
}

/// A front of a script is answered as the machine answers its lines, or its first faulty line is named. 1 where it is answered, else 0.
fn answered(
    rt: &(impl Abort + Threads + Wait + Sync),
    alloc: Global,
    front: &[u8],
) -> Result<u64, OutOfMemory> {
    match parse(alloc, front, &Limits::default()) {
        Ok(script) => {
            is_answered_as_by_machine(rt, alloc, front, &script)?;
            Ok(1)
        }
        Err(ScriptFault::Bad { line, kind }) => {
            is_named(rt, alloc, front, line, kind)?;
            Ok(0)
        }
        Err(ScriptFault::OutOfMemory) => Err(OutOfMemory),
    }
}

#[test]
fn each_front_of_a_script_is_answered_or_its_fault_is_named(
    rt: HostRuntime,
) -> Result<(), OutOfMemory> {
    let whole = STOCK.input.as_bytes();
    let mut scripts = 0u64;
    for end in 0..whole.len().wrapping_add(1) {
        let front = whole.get(..end).unwrap_or(b"0 fly");
        scripts = scripts.wrapping_add(answered(&rt, rt.alloc(), front)?);
    }
    same(&rt, scripts > 40 && scripts < 180, true, scripts);
    Ok(())
}
