//! The lines of a script, with their scans.
ghost use Rattle.std.specs.Prelude.{◌≡◌, ◌<◌, IfOk, OnErr, true};
ghost use Rattle.lst_machine.specs.Calls.{is_indexed};
ghost use Rattle.lst_model.specs.Lines.{LineFits};
ghost use Rattle.lst_model.specs.declared.lines.Call.TheVariants as call;
ghost use Rattle.lst_session.specs.Crews.{IsCrewOf, TellsState, Answers, AnswersLine};
ghost use Rattle.lst_scan.specs.Savings.{SavesSum};
ghost use Rattle.lst_scan.specs.Lines.{KeepsState, HasScanned, SumLeaves, CountLeaves, ScanLeaves, FindLeaves, EachLineLeaves, LineLooks};

use crate::finds::{FindRefusal, find};
use crate::lists::rows;
use crate::sums::{count, sum};
use lst_model::{Call, Cause, Line, OutOfMemory, Reply};
use lst_rule::Store;
use lst_session::Crew;
use std::alloc::Global;

/// The answer to a line: a scan is made by the session's open transaction, and all other lines by the crew. It promises of the session that
/// calls, and of the merger, what the call itself promises. Where the crew tells a state of the machine, the answer is the machine's, and the
/// crew then tells the next one; and of tail records a sum then loads words of those alone whose record the column's page doesn't tell, and a count of those that
/// the first column's doesn't: of none, where the pages have folded every accepted write, each ended by its transaction's begin. Memory may be wanted for a list of rows and for a find in an indexed column, with a transaction open: then the
/// session has only looked, and the crew tells the same state.
#[inline(always)]
pub fn crew_line(
    alloc: Global,
    store: &Store,
    crew: &mut Crew,
    line: &Line,
) -> Result<Reply, OutOfMemory>
    requires crew { IsCrewOf store.now crew.old }
    requires fits { LineFits crew.old.seat.view.limits.sessions crew.old.seat.view.limits.ranges crew.old.seat.view.limits.columns line.now }
    ensures crew { IsCrewOf store.now crew.new }
    ensures machine { TellsState crew.old.seat.view → IfOk result (λ reply. TellsState crew.new.seat.view × AnswersLine crew.old.seat.view crew.new.seat.view line.now reply) }
    ensures session { IfOk result (λ reply. EachLineLeaves crew.old.seat.view crew.new.seat.view line.now reply) }
    ensures looks { OnErr result (LineLooks crew.old.seat.view crew.new.seat.view line.now) }
    ensures state { OnErr result (KeepsState crew.old.seat.view crew.new.seat.view) }
{
    match line {
        Line::Call { session, call } => match call {
            Call::Sum { column } => Ok(sum_call(store, crew, *session, *column)),
            Call::Count => Ok(count_call(store, crew, *session)),
            Call::Scan => scan_call(alloc, store, crew, *session),
            Call::Find { column, value } => find_call(
                alloc, store, crew, *session, *column, *value,
            ),
            _ => crew.line(store, line),
        },
        _ => crew.line(store, line),
    }
}

/// The reply to a call while no transaction is open.
pub(crate) fn idle() -> Reply
    ensures { result ≡ Reply.Refused Cause.Idle }
{
    Reply::Refused { cause: Cause::Idle }
}

/// The answer to a sum. Where the crew tells a state of the machine, words are loaded of those tail records alone whose record the column's page doesn't tell:
/// of none, where the pages have folded every accepted write, each ended by the transaction's begin.
fn sum_call(store: &Store, crew: &mut Crew, s: u32, column: u32) -> Reply
    requires crew { IsCrewOf store.now crew.old }
    requires session { s < crew.old.seat.view.limits.sessions }
    requires column { column < crew.old.seat.view.limits.columns }
    ensures crew { IsCrewOf store.now crew.new }
    ensures machine { TellsState crew.old.seat.view → TellsState crew.new.seat.view × Answers crew.old.seat.view crew.new.seat.view s (call.Sum column) result }
    ensures session { SumLeaves crew.old.seat.view crew.new.seat.view s column result }
    ensures saves { SavesSum crew.old.seat.view crew.new.seat.view s column }
{
    crew.seat.consider();
    if !crew.seat.is_open(s) {
        return idle();
    }
    let total = sum(store, &mut crew.seat, s, column);
    Reply::Sum { total }
}

/// The answer to a count. It saves what a sum of the first column saves.
fn count_call(store: &Store, crew: &mut Crew, s: u32) -> Reply
    requires crew { IsCrewOf store.now crew.old }
    requires session { s < crew.old.seat.view.limits.sessions }
    ensures crew { IsCrewOf store.now crew.new }
    ensures machine { TellsState crew.old.seat.view → TellsState crew.new.seat.view × Answers crew.old.seat.view crew.new.seat.view s call.Count result }
    ensures session { CountLeaves crew.old.seat.view crew.new.seat.view s result }
    ensures saves { SavesSum crew.old.seat.view crew.new.seat.view s 0 }
{
    crew.seat.consider();
    if !crew.seat.is_open(s) {
        return idle();
    }
    let rows = count(store, &mut crew.seat, s);
    Reply::Count { rows }
}

/// The answer to a scan of all rows.
fn scan_call(alloc: Global, store: &Store, crew: &mut Crew, s: u32) -> Result<Reply, OutOfMemory>
    requires crew { IsCrewOf store.now crew.old }
    requires session { s < crew.old.seat.view.limits.sessions }
    ensures crew { IsCrewOf store.now crew.new }
    ensures machine { TellsState crew.old.seat.view → IfOk result (λ reply. TellsState crew.new.seat.view × Answers crew.old.seat.view crew.new.seat.view s call.Scan reply) }
    ensures session { IfOk result (λ reply. ScanLeaves crew.old.seat.view crew.new.seat.view s reply) }
    ensures looks { OnErr result (HasScanned crew.old.seat.view crew.new.seat.view s) }
    ensures state { OnErr result (KeepsState crew.old.seat.view crew.new.seat.view) }
{
    crew.seat.consider();
    if !crew.seat.is_open(s) {
        return Ok(idle());
    }
    match rows(alloc, store, &mut crew.seat, s) {
        Ok(list) => Ok(Reply::Rows { list }),
        Err(OutOfMemory) => Err(OutOfMemory),
    }
}

/// The answer to a find.
fn find_call(
    alloc: Global,
    store: &Store,
    crew: &mut Crew,
    s: u32,
    column: u32,
    number: u64,
) -> Result<Reply, OutOfMemory>
    requires crew { IsCrewOf store.now crew.old }
    requires session { s < crew.old.seat.view.limits.sessions }
    requires column { column < crew.old.seat.view.limits.columns }
    ensures crew { IsCrewOf store.now crew.new }
    ensures machine { TellsState crew.old.seat.view → IfOk result (λ reply. TellsState crew.new.seat.view × Answers crew.old.seat.view crew.new.seat.view s (call.Find column number) reply) }
    ensures session { IfOk result (λ reply. FindLeaves crew.old.seat.view crew.new.seat.view s column number reply) }
    ensures looks { OnErr result ((is_indexed crew.old.seat.view.limits column ≡ true) × HasScanned crew.old.seat.view crew.new.seat.view s) }
    ensures state { OnErr result (KeepsState crew.old.seat.view crew.new.seat.view) }
{
    crew.seat.consider();
    if !crew.seat.is_open(s) {
        return Ok(idle());
    }
    match find(alloc, store, &mut crew.seat, s, column, number) {
        Ok(list) => Ok(Reply::Keys { list }),
        Err(FindRefusal::NotIndexed) => Ok(Reply::Refused {
            cause: Cause::NotIndexed,
        }),
        Err(FindRefusal::OutOfMemory) => Err(OutOfMemory),
    }
}
