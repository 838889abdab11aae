//! Lines with what they are answered, and the crew that answers them.
//!
//! A script is a table of texts that stands as a constant, and one function takes its lines: so the proof of a test stays short.
ghost use Rattle.std.specs.Prelude.{◌≡◌, false, IsTrue, length};
ghost use Rattle.lst_model.specs.Lines.{CallFits, LineFits};
ghost use Rattle.lst_session.specs.Crews.{IsCrewOf};
ghost use Rattle.lst_session.specs.Replies.{IsCrewLine};

use arrayvec::ArrayVec;
use lst_layout::Limits;
use lst_model::{Call, Key, Line, Reply, Row, Text};
use lst_replies::print_line;
use lst_rule::Store;
use lst_scan::crew_line;
use lst_script::parse;
use lst_session::{Crew, open_crew};
use std::alloc::Global;
use std::fmt::Debug;
use std::process::Abort;
use std::test::Fail;

/// A line, whose columns are a and b, and its reply.
pub(crate) type Step = (&'static str, &'static str);

/// What was found is what was wanted, at this place.
pub(crate) fn same<T: PartialEq + Debug + Drop>(rt: &impl Abort, found: T, wanted: T, at: u64) {
    assert_eq!(rt; found, wanted, "at {at}");
}

/// A row of two cells, None for null.
pub(crate) fn row(first: Option<u64>, second: Option<u64>) -> Row
    ensures { length result ≡ 2 }
{
    let mut row = Row::of_numbers(ArrayVec::new());
    row.push(first);
    row.push(second);
    row
}

/// Whether a store with so many columns takes the call.
pub(crate) fn call_fits(columns: u32, call: &Call) -> bool
    ensures { IsTrue result → CallFits columns call.now }
{
    match call {
        Call::Insert { row, .. } => row.len() == columns as usize,
        Call::Update { patch, .. } => { patch.len() == columns as usize && patch.sets_some() }
        Call::Sum { column } => *column < columns,
        Call::Find { column, .. } => *column < columns,
        _ => true,
    }
}

/// Whether a store with these limits takes the line.
fn fits(limits: &Limits, line: &Line) -> bool
    ensures { IsTrue result → LineFits limits.now.sessions limits.now.ranges limits.now.columns line.now }
{
    match line {
        Line::Phase => true,
        Line::Merge { range, column } => *range < limits.ranges && *column < limits.columns,
        Line::Call { session, call } => {
            *session < limits.sessions && call_fits(limits.columns, call)
        }
    }
}

/// Whether a line is a scan, which a crew doesn't take by itself.
fn is_scan(line: &Line) -> bool
    ensures { result ≡ false → IsCrewLine line.now }
{
    match line {
        Line::Call { call, .. } => match call {
            Call::Sum { .. } | Call::Count | Call::Scan | Call::Find { .. } => true,
            _ => false,
        },
        _ => false,
    }
}

/// The line of a text.
pub(crate) fn line_of(alloc: Global, store: &Store, text: &str) -> Result<Line, Fail> {
    let mut script = Text::new(alloc);
    script.push_bytes(b"version 2 a b\n")?;
    script.push_bytes(text.as_bytes())?;
    let Ok(script) = parse(alloc, script.as_bytes(), &store.layout().limits) else {
        return Err(Fail::from("the text is a line"));
    };
    if script.is_empty() {
        return Err(Fail::from("there is a line"));
    }
    Ok(script.line(0))
}

/// The text of the reply to a line, compared.
pub(crate) fn replies(
    rt: &(impl Abort + AllocGlobal),
    line: &Line,
    reply: &Reply,
    step: Step,
) -> Result<(), Fail> {
    let told = print_line(rt.alloc(), line, reply)?;
    let told = told.as_bytes().strip_suffix(b"\n");
    assert_eq!(rt; told, Some(step.1.as_bytes()), "{}", step.0);
    Ok(())
}

/// Who answers the lines of a script.
#[derive(Clone, Copy)]
pub(crate) enum By {
    /// The crew itself, which takes no scans.
    Crew,
    /// `crew_line`, which takes each line.
    CrewLine,
}

/// A store of two columns with its crew.
#[derive(Drop)]
pub(crate) struct Crewed {
    pub(crate) store: Store,
    pub(crate) crew: Crew,
    by: By,
    ghost own: { IsCrewOf store crew },
}

/// Opens such a store.
pub(crate) fn open(alloc: Global, limits: &Limits, by: By) -> Result<Crewed, Fail> {
    let Ok(layout) = limits.check() else {
        return Err(Fail::from("the limits are in range"));
    };
    let (store, crew) = open_crew(alloc, &layout)?;
    Ok(Crewed { store, crew, by })
}

/// The reply to a line.
pub(crate) fn answer(alloc: Global, on: &mut Crewed, line: &Line) -> Result<Reply, Fail> {
    if !fits(on.crew.seat.limits(), line) {
        return Err(Fail::from("the line fits the limits"));
    }
    if let By::CrewLine = on.by {
        return Ok(crew_line(alloc, &on.store, &mut on.crew, line)?);
    }
    if is_scan(line) {
        return Err(Fail::from("the crew takes the line"));
    }
    Ok(on.crew.line(&on.store, line)?)
}

/// Lines in order, and their replies compared.
pub(crate) fn play(
    rt: &(impl Abort + AllocGlobal),
    on: &mut Crewed,
    script: &[Step],
) -> Result<(), Fail> {
    for &step in script {
        let line = line_of(rt.alloc(), &on.store, step.0)?;
        let reply = answer(rt.alloc(), on, &line)?;
        replies(rt, &line, &reply, step)?;
    }
    Ok(())
}

/// The same on a new store.
pub(crate) fn run(
    rt: &(impl Abort + AllocGlobal),
    limits: &Limits,
    by: By,
    script: &[Step],
) -> Result<(), Fail> {
    let mut on = open(rt.alloc(), limits, by)?;
    play(rt, &mut on, script)
}

/// The reply to a line, compared.
pub(crate) fn answers(
    rt: &(impl Abort + AllocGlobal),
    on: &mut Crewed,
    line: &Line,
    wanted: &Reply,
) -> Result<(), Fail> {
    let reply = answer(rt.alloc(), on, line)?;
    assert_eq!(rt; &reply, wanted, "{line:?}");
    Ok(())
}

/// Session 0 inserts a row.
pub(crate) fn puts(
    rt: &(impl Abort + AllocGlobal),
    on: &mut Crewed,
    key: Key,
    first: Option<u64>,
    second: Option<u64>,
) -> Result<(), Fail> {
    let row = row(first, second);
    let call = Call::Insert { key, row };
    answers(rt, on, &Line::Call { session: 0, call }, &Reply::Done)
}
