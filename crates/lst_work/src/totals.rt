//! A script on which all sessions of a new store work, and the sum of a column behind it.
ghost use Rattle.std.specs.Prelude.{◌≡◌, ℕ, ◌<◌, ◌≤◌, IfOk, MatchOption, length};
ghost use Rattle.std.specs.List.{All};
ghost use Rattle.lst_model.specs.Histories.{table_at};
ghost use Rattle.lst_model.specs.Lines.{LineFits};
ghost use Rattle.lst_model.specs.Tables.{sum_of};
ghost use Rattle.lst_rule.specs.Rule.{knows};
ghost use Rattle.lst_session.specs.declared.session.Session.{Session as SessionValue};
ghost use Rattle.lst_session.specs.Crews.{IsCrewOf};
ghost use Rattle.lst_session.specs.Parting.{seen_at, IsMergerOf, IsParted};
ghost use Rattle.lst_work_laws.specs.Whole.{AreAll};
ghost use Rattle.lst_work.specs.ParSums.{CanBeginAsOf, HaveSeenAlike, HaveSummed};
ghost use Rattle.lst_work_laws.specs.Worked.{HaveSeenTheHistory};
ghost use Rattle.lst_work.specs.Totals.{MayAllBegin, IsHeldUp, IsSummed, HasTotal, IsWorkedTotal};

use crate::gates::Gate;
use crate::par_sums::par_sum;
use crate::reporting::{gathered, work_at};
use lst_layout::Layout;
use lst_legal_runs::Level;
use lst_model::{OutOfMemory, Time};
use lst_replies::Report;
use lst_rule::Store;
use lst_script::Script;
use lst_session::{Crew, Merger, Sessions};
use std::alloc::Global;
use std::sync::Wait;
use std::thread::Threads;

/// The first session of a crew that has a transaction open, or has begun as many as it may.
fn first_held_up(store: &Store, crew: &Crew) -> Option<u32>
    requires { IsCrewOf store.now crew.now }
    ensures { MatchOption result (MayAllBegin crew.now.seat.view) (IsHeldUp crew.now.seat.view) }
{
    let limits = crew.seat.limits();
    for s in 0..limits.sessions {
        if crew.seat.is_open(s) || crew.seat.number(s) == limits.txns {
            return Some(s);
        }
    }
    None
}

/// The sessions of a crew, in order, and its merger.
fn parted(alloc: Global, store: &Store, crew: Crew) -> Result<(Sessions, Merger), OutOfMemory>
    requires { IsCrewOf store.now crew }
    ensures parted { IfOk result (λ parted. IsParted store.now crew.seat.view parted.0 parted.1) }
    ensures all { IfOk result (λ parted. AreAll store.now parted.0) }
    ensures merger { IfOk result (λ parted. IsMergerOf store.now parted.1) }
    ensures alike { IfOk result (λ parted. (time : ℕ) → ((s : ℕ) → s < crew.seat.view.limits.sessions → time ≤ length (knows crew.seat.view s).seen) → HaveSeenAlike time parted.0) }
{
    crew.seat.consider();
    match crew.part(alloc, store) {
        Ok(parted) => Ok(parted),
        Err((_, OutOfMemory)) => Err(OutOfMemory),
    }
}

/// Adds up a column over the table as of a time, by these sessions side by side.
fn summed_as_of<R: Threads + Sync>(
    rt: &R,
    store: &Store,
    sessions: Sessions,
    time: Time,
    column: u32,
) -> (u128, Sessions)
    requires some { 0 < length sessions }
    requires can { All (CanBeginAsOf store.now time) sessions }
    requires alike { HaveSeenAlike time sessions }
    requires column { column < store.now.layout.limits.columns }
    ensures sum { (i : ℕ) (none : SessionValue) → i < length sessions → result.0 ≡ sum_of (table_at (seen_at sessions i none) time) column }
    ensures sessions { HaveSummed store.now sessions result.1 }
{
    let mut sessions = sessions;
    let total = par_sum(rt, store, &mut sessions, time, column);
    (total, sessions)
}

/// Adds up a column by all sessions of a crew, side by side, over the table that the store's commits make.
fn summed<R: Threads + Sync>(
    rt: &R,
    alloc: Global,
    store: &Store,
    crew: Crew,
    column: u32,
) -> Result<(u128, Crew), OutOfMemory>
    requires crew { IsCrewOf store.now crew }
    requires seen { HaveSeenTheHistory crew.seat.view }
    requires may { MayAllBegin crew.seat.view }
    requires column { column < store.now.layout.limits.columns }
    ensures { IfOk result (λ summed. IsSummed store.now column crew summed.0 summed.1) }
{
    let time = crew.seat.seen(0);
    let (sessions, merger) = parted(alloc, store, crew)?;
    let (total, sessions) = summed_as_of(rt, store, sessions, time, column);
    let crew = gathered(alloc, store, sessions, merger)?;
    crew.seat.consider();
    Ok((total, crew))
}

/// The sum of a column, if each session of the crew may begin one more transaction.
fn total_of<R: Threads + Sync>(
    rt: &R,
    alloc: Global,
    store: &Store,
    crew: Crew,
    column: u32,
) -> Result<(Option<u128>, Crew), OutOfMemory>
    requires crew { IsCrewOf store.now crew }
    requires seen { HaveSeenTheHistory crew.seat.view }
    requires column { column < store.now.layout.limits.columns }
    ensures { IfOk result (λ done. HasTotal store.now column crew done.0 done.1) }
{
    if first_held_up(store, &crew).is_some() {
        return Ok((None, crew));
    }
    let (total, crew) = summed(rt, alloc, store, crew, column)?;
    Ok((Some(total), crew))
}

/// Runs a script by all sessions of a new store and its merger, as `work` does, and then adds up a column over the table that the store's commits make, by
/// all sessions side by side, as `par_sum` does. Answers the report, the sum, the store, and its crew, which is gathered again.
///
/// The report is that of the script alone, and legal for it. There is no sum exactly where a session has a transaction open behind the script, or has
/// begun as many as it may, as the report's replies tell it; then the crew is as `work` gives it. With a sum each session has begun one transaction more,
/// and ended it without a write; the history is the same. The only error is want of memory. Nothing is promised of when the call returns.
pub fn work_total<R: Threads + Wait + Sync, G: Gate + Sync>(
    rt: &R,
    alloc: Global,
    layout: &Layout,
    script: &Script,
    gate: &G,
    column: u32,
) -> Result<(Report, Option<u128>, Store, Crew), OutOfMemory>
    requires fits { All (LineFits layout.now.limits.sessions layout.now.limits.ranges layout.now.limits.columns) script.now }
    requires column { column < layout.now.limits.columns }
    ensures { IfOk result (λ done. IsWorkedTotal layout.now script.now column done.0 done.1 done.2 done.3) }
{
    let (report, store, crew) = work_at(rt, alloc, Level::Snapshot, layout, script, gate)?;
    crew.seat.consider();
    let (total, crew) = total_of(rt, alloc, &store, crew, column)?;
    Ok((report, total, store, crew))
}
