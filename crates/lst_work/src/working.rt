//! A script, run by sessions side by side.
ghost use Rattle.std.specs.Prelude.{◌≡◌, IfOk};
ghost use Rattle.std.specs.List.{All};
ghost use Rattle.lst_model.specs.Lines.{LineFits};
ghost use Rattle.lst_session.specs.Parting.{IsMergerOf};
ghost use Rattle.lst_replies.specs.Runs.{run_of};
ghost use Rattle.lst_legal_runs.specs.declared.levels.Level.TheVariants.{Snapshot};
ghost use Rattle.lst_work_laws.specs.Keeping.{EachEnds};
ghost use Rattle.lst_work_laws.specs.Phases.{HaveRunThrough};
ghost use Rattle.lst_work_laws.specs.Whole.{AreAll};
ghost use Rattle.lst_work_laws.specs.Works.{Works};

use crate::gates::Gate;
use crate::scripts::run_script;
use lst_legal_runs::Level;
use lst_model::OutOfMemory;
use lst_replies::Replies;
use lst_rule::Store;
use lst_script::Script;
use lst_session::{Merger, Sessions};
use std::alloc::Global;
use std::sync::Wait;
use std::thread::Threads;

/// Runs a script by the sessions of a store and its merger. In each phase a worker of each session runs its lines in order, and a merge worker the
/// merges in order. Between any two phases the sessions hear of each other. The list has every session of the store, in order.
/// No clause says that the workers go beside each other, that a merge is made once all sessions have come past it, or that the gate is called before and
/// after each line.
///
/// Answers the sessions and the replies, in the order of the script's lines. `Works` says what the replies tell, by those rules of a legal report
/// that speak of one session or of the merger, and what the lines leave of what each of them knows; `HaveRunThrough` says of each line what its
/// session or the merger knew before and after it. `EachEnds` says that each session's transactions end as under snapshot isolation: none is told stale. For want of memory the sessions are given up,
/// and what their lines did stands. A commit waits while another session commits, and a merge for the lines before it; nothing is promised of when the
/// call returns.
pub fn work_on<R: Threads + Wait + Sync, G: Gate + Sync>(
    rt: &R,
    alloc: Global,
    store: &Store,
    sessions: Sessions,
    merger: &mut Merger,
    script: &Script,
    gate: &G,
) -> Result<(Sessions, Replies), OutOfMemory>
    requires all { AreAll store.now sessions }
    requires merger { IsMergerOf store.now merger.old }
    requires fits { All (LineFits store.now.layout.limits.sessions store.now.layout.limits.ranges store.now.layout.limits.columns) script.now }
    ensures merger { IsMergerOf store.now merger.new }
    ensures all { IfOk result (λ done. AreAll store.now done.0) }
    ensures run { IfOk result (λ done. HaveRunThrough store.now script.now sessions done.0 merger.old.seat.view merger.new.seat.view done.1) }
    ensures works { IfOk result (λ done. Works store.now script.now sessions done.0 merger.old.seat.view merger.new.seat.view done.1) }
    ensures ends { IfOk result (λ done. EachEnds Snapshot (run_of script.now done.1) sessions done.0) }
{
    work_on_at(
        rt,
        alloc,
        store,
        Level::Snapshot,
        sessions,
        merger,
        script,
        gate,
    )
}

/// Runs a script as `work_on` does, at a level of isolation, where no session has kept what it read before.
pub(crate) fn work_on_at<R: Threads + Wait + Sync, G: Gate + Sync>(
    rt: &R,
    alloc: Global,
    store: &Store,
    level: Level,
    sessions: Sessions,
    merger: &mut Merger,
    script: &Script,
    gate: &G,
) -> Result<(Sessions, Replies), OutOfMemory>
    requires all { AreAll store.now sessions }
    requires merger { IsMergerOf store.now merger.old }
    requires fits { All (LineFits store.now.layout.limits.sessions store.now.layout.limits.ranges store.now.layout.limits.columns) script.now }
    ensures merger { IsMergerOf store.now merger.new }
    ensures all { IfOk result (λ done. AreAll store.now done.0) }
    ensures run { IfOk result (λ done. HaveRunThrough store.now script.now sessions done.0 merger.old.seat.view merger.new.seat.view done.1) }
    ensures works { IfOk result (λ done. Works store.now script.now sessions done.0 merger.old.seat.view merger.new.seat.view done.1) }
    ensures ends { IfOk result (λ done. EachEnds level (run_of script.now done.1) sessions done.0) }
{
    let lines = script.unpacked(alloc)?;
    let (passes, replies) = run_script(
        rt,
        alloc,
        store,
        gate,
        level,
        lines.as_slice(),
        sessions.into_vec(),
        merger,
    )?;
    Ok((Sessions::from_vec(passes), Replies::from_items(replies)))
}
