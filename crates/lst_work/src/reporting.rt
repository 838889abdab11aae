//! A script on which all sessions of a new store work, and the report of it.
ghost use Rattle.std.specs.Prelude.{◌≡◌, IfOk, map};
ghost use Rattle.std.specs.List.{All};
ghost use Rattle.lst_model.specs.Lines.{LineFits};
ghost use Rattle.lst_replies.specs.Legal.{stamp_of};
ghost use Rattle.lst_session.specs.Crews.{IsCrewOf};
ghost use Rattle.lst_session.specs.Parting.{IsMergerOf, IsGathered};
ghost use Rattle.lst_work_laws.specs.Legal.{HaveDoneNothing};
ghost use Rattle.lst_work_laws.specs.Whole.{AreAll};
ghost use Rattle.lst_work_laws.specs.Worked.{HaveSeenTheHistory, IsWorked, IsWorkedAt, IsWorkedSerial};
ghost use Rattle.lst_work.specs.Reporting.{KnowTheOpening, IsReported};

use crate::gates::Gate;
use crate::working::work_on_at;
use lst_layout::Layout;
use lst_legal_runs::Level;
use lst_model::{History, OutOfMemory};
use lst_replies::{Replies, Report, Stamp, Stamps};
use lst_rule::Store;
use lst_script::Script;
use lst_session::{Crew, GatherCause, Merger, Sessions, gather, open_crew};
use std::alloc::Global;
use std::sync::Wait;
use std::thread::Threads;

/// A new store with its sessions, in order, and its merger.
fn opened(alloc: Global, layout: &Layout) -> Result<(Store, Sessions, Merger), OutOfMemory>
    ensures layout { IfOk result (λ opened. opened.0.layout ≡ layout.now) }
    ensures nothing { IfOk result (λ opened. HaveDoneNothing opened.0 opened.1 opened.2.seat.view) }
    ensures merger { IfOk result (λ opened. IsMergerOf opened.0 opened.2) }
    ensures opening { IfOk result (λ opened. KnowTheOpening layout.now.limits opened.1 opened.2.seat.view) }
{
    let (store, crew) = open_crew(alloc, layout)?;
    match crew.part(alloc, &store) {
        Ok((sessions, merger)) => Ok((store, sessions, merger)),
        Err((_, OutOfMemory)) => Err(OutOfMemory),
    }
}

/// The crew of all sessions of a store and its merger. None of them is missing.
pub(crate) fn gathered(
    alloc: Global,
    store: &Store,
    sessions: Sessions,
    merger: Merger,
) -> Result<Crew, OutOfMemory>
    requires all { AreAll store.now sessions }
    requires merger { IsMergerOf store.now merger }
    ensures crew { IfOk result (IsCrewOf store.now) }
    ensures gathered { IfOk result (λ crew. IsGathered sessions merger.seat.view crew.seat.view) }
{
    let refusal = match gather(alloc, store, sessions, merger) {
        Ok(crew) => return Ok(crew),
        Err(refusal) => refusal,
    };
    match refusal.cause {
        GatherCause::Gap { .. } => unreachable!(),
        GatherCause::OutOfMemory => Err(OutOfMemory),
    }
}

/// The commits without their writes.
fn stamps_of(alloc: Global, history: &History) -> Result<Stamps, OutOfMemory>
    ensures { IfOk result (λ stamps. stamps ≡ map stamp_of history.now) }
{
    let mut stamps = Stamps::new(alloc);
    for commit in history.items() {
        stamps.push(Stamp {
            session: commit.session,
            number: commit.number,
            begin: commit.begin,
        })?;
    }
    Ok(stamps)
}

/// The report of these replies, and of the commits of a store.
fn reported(
    alloc: Global,
    store: &Store,
    crew: Crew,
    replies: Replies,
) -> Result<(Report, Crew), OutOfMemory>
    requires { IsCrewOf store.now crew }
    ensures reported { IfOk result (λ reported. IsReported store.now replies crew reported.0 reported.1) }
    ensures seen { IfOk result (λ reported. HaveSeenTheHistory crew.seat.view → HaveSeenTheHistory reported.1.seat.view) }
{
    let mut crew = crew;
    let commits = crew.commits(alloc, store)?;
    crew.seat.consider();
    let history = stamps_of(alloc, &commits)?;
    Ok((Report { replies, history }, crew))
}

/// Runs a script by all sessions of a new store and its merger, at a level of isolation, and gathers them: the report, the store, and its crew. It does what
/// `work` does under snapshot isolation, and what `work_serial` does at the serializable level, so the report is legal for the script at the level.
/// The only error is want of memory. Nothing is promised of when the call returns.
pub fn work_at<R: Threads + Wait + Sync, G: Gate + Sync>(
    rt: &R,
    alloc: Global,
    level: Level,
    layout: &Layout,
    script: &Script,
    gate: &G,
) -> Result<(Report, Store, Crew), OutOfMemory>
    requires fits { All (LineFits layout.now.limits.sessions layout.now.limits.ranges layout.now.limits.columns) script.now }
    ensures { IfOk result (λ done. IsWorkedAt level layout.now script.now done.0 done.1 done.2) }
{
    let (store, sessions, mut merger) = opened(alloc, layout)?;
    let (sessions, replies) = work_on_at(
        rt,
        alloc,
        &store,
        level,
        sessions,
        &mut merger,
        script,
        gate,
    )?;
    let crew = gathered(alloc, &store, sessions, merger)?;
    let (report, crew) = reported(alloc, &store, crew, replies)?;
    Ok((report, store, crew))
}

/// Runs a script by all sessions of a new store and its merger, as `work_on` does. Answers the report, the store, and its crew, which is gathered
/// again.
///
/// The report is legal for the script, whatever the sessions' steps between each other: it is so under the history that the store then has, and that
/// each session has seen.
/// The only error is want of memory. Nothing is promised of when the call returns.
pub fn work<R: Threads + Wait + Sync, G: Gate + Sync>(
    rt: &R,
    alloc: Global,
    layout: &Layout,
    script: &Script,
    gate: &G,
) -> Result<(Report, Store, Crew), OutOfMemory>
    requires fits { All (LineFits layout.now.limits.sessions layout.now.limits.ranges layout.now.limits.columns) script.now }
    ensures { IfOk result (λ done. IsWorked layout.now script.now done.0 done.1 done.2) }
{
    work_at(rt, alloc, Level::Snapshot, layout, script, gate)
}

/// Runs a script as `work` does, by sessions at the serializable level. A commit of a transaction with writes is told stale only where another commit
/// changed what the transaction had read, and the transaction stays open.
///
/// The report is legal for the script at the serializable level: the calls of each transaction that commits writes are answered as if it had run alone
/// at its commit's time, and each stale commit has its reason. The only error is want of memory. Nothing is promised of when the call returns.
pub fn work_serial<R: Threads + Wait + Sync, G: Gate + Sync>(
    rt: &R,
    alloc: Global,
    layout: &Layout,
    script: &Script,
    gate: &G,
) -> Result<(Report, Store, Crew), OutOfMemory>
    requires fits { All (LineFits layout.now.limits.sessions layout.now.limits.ranges layout.now.limits.columns) script.now }
    ensures { IfOk result (λ done. IsWorkedSerial layout.now script.now done.0 done.1 done.2) }
{
    work_at(rt, alloc, Level::Serializable, layout, script, gate)
}
