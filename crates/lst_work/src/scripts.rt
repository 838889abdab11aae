//! The phases of a script, one after another.
ghost use Rattle.std.specs.Prelude.{◌≡◌, ◌+◌, ◌<◌, ◌≤◌, ◌^◌, ◌++◌, length, replicate, OnOk, IfOk, slice_range};
ghost use Rattle.std.specs.List.{All, list_any};
ghost use Rattle.lst_model.specs.Lines.{LineFits};
ghost use Rattle.lst_session.specs.Parting.{IsMergerOf};
ghost use Rattle.lst_work.specs.Merges.{MergedBlocks};
ghost use Rattle.lst_replies.specs.Runs.{is_phase, run_of};
ghost use Rattle.lst_work.specs.Orders.{GrowsBy, placeholder};
ghost use Rattle.lst_work.specs.Blocks.{blocks_of};
ghost use Rattle.lst_work.specs.Parts.{AreWithin, EndsAt, IsPhaseAt, IsPart, AreUnread};
ghost use Rattle.lst_work_laws.specs.Keeping.{EachEnds};
ghost use Rattle.lst_work_laws.specs.Phases.{HaveRunThrough};
ghost use Rattle.lst_work_laws.specs.Whole.{AreAll};
ghost use Rattle.lst_work_laws.specs.Runs.{CanRun};
ghost use Rattle.lst_work.specs.Workers.{AreReady, HaveRun};

use crate::blocks::order_phase;
use crate::gates::Gate;
use crate::hearing::heard;
use crate::hiring::{dismissed, hired};
use crate::merging::{MergeQueue, empty_queue};
use crate::phases::run_phase;
use crate::reads::Reads;
use crate::workers::Worker;
use lst_legal_runs::Level;
use lst_model::{Line, OutOfMemory, Reply};
use lst_rule::Store;
use lst_session::{CommitLock, Merger, Session};
use std::alloc::Global;
use std::sync::Wait;
use std::thread::Threads;

/// Whether a worker has given up.
fn has_any_failed(workers: &[Worker]) -> bool
    ensures { result ≡ list_any (λ worker. worker.has_failed) workers.now }
{
    workers.iter().any(|worker| worker.has_failed)
}

/// Runs a phase, and makes room for its replies behind the earlier ones, unless memory runs out.
fn try_phase<R: Threads + Wait + Sync, G: Gate + Sync>(
    rt: &R,
    alloc: Global,
    store: &Store,
    lock: &CommitLock,
    gate: &G,
    first: u64,
    lines: &[Line],
    workers: &mut [Worker],
    merger: &mut Merger,
    queue: &mut MergeQueue,
    replies: &mut Vec<(Option<u32>, Reply)>,
) -> Result<(), OutOfMemory>
    requires ready { AreReady store.now workers.old }
    requires merger { IsMergerOf store.now merger.old }
    requires can { All (CanRun store.now.layout.limits) lines.now }
    requires places { first + length lines.now < 2 ^ 64 }
    ensures ready { AreReady store.now workers.new }
    ensures merger { IsMergerOf store.now merger.new }
    ensures ran { OnOk result (HaveRun lines.now workers.old workers.new) }
    ensures merged { OnOk result (MergedBlocks (blocks_of lines.now) merger.old merger.new queue.old queue.new) }
    ensures room { OnOk result (replies.new.items ≡ replies.old.items ++ replicate (length lines.now) placeholder) }
{
    run_phase(
        rt, alloc, store, lock, gate, first, lines, workers, merger, queue, replies,
    );
    if queue.has_failed || has_any_failed(workers) {
        return Err(OutOfMemory);
    }
    Ok(())
}

/// Runs a phase: each session's lines in a thread of its own, where one can be made, and the merges beside them. The list has every session of
/// the store, in order, and what each keeps of its reads. Puts the replies behind others, in the order of the lines, and answers the sessions, and what they
/// keep of their reads.
fn phase_onto<R: Threads + Wait + Sync, G: Gate + Sync>(
    rt: &R,
    alloc: Global,
    store: &Store,
    lock: &CommitLock,
    gate: &G,
    first: u64,
    level: Level,
    lines: &[Line],
    sessions: Vec<Session>,
    reads: Vec<Reads>,
    merger: &mut Merger,
    replies: &mut Vec<(Option<u32>, Reply)>,
) -> Result<(Vec<Session>, Vec<Reads>), OutOfMemory>
    requires all { AreAll store.now sessions.items }
    requires long { length reads.items ≡ length sessions.items }
    requires merger { IsMergerOf store.now merger.old }
    requires can { All (CanRun store.now.layout.limits) lines.now }
    requires places { first + length lines.now < 2 ^ 64 }
    ensures merger { IsMergerOf store.now merger.new }
    ensures all { IfOk result (λ done. AreAll store.now done.0.items) }
    ensures long { IfOk result (λ done. length done.1.items ≡ length done.0.items) }
    ensures phase { IfOk result (λ done. GrowsBy (IsPhaseAt level lines.now sessions.items done.0.items reads.items done.1.items merger.old.seat.view merger.new.seat.view) replies.old.items replies.new.items) }
{
    let count = store.layout().limits.sessions;
    let earlier = replies.len();
    let mut workers = hired(alloc, level, sessions, reads)?;
    let mut queue = empty_queue(alloc);
    try_phase(
        rt,
        alloc,
        store,
        lock,
        gate,
        first,
        lines,
        workers.as_mut_slice(),
        merger,
        &mut queue,
        replies,
    )?;
    let (sessions, reads, blocks) = dismissed(alloc, workers, queue.parts)?;
    order_phase(rt, count, lines, blocks, earlier, replies);
    Ok((sessions, reads))
}

/// Whether a line is the end of a phase.
fn ends_phase(line: &Line) -> bool
    ensures { result ≡ is_phase line.now }
{
    match line {
        Line::Phase => true,
        _ => false,
    }
}

/// The place of the first end of a phase from a place on, or how many lines there are.
fn phase_end(lines: &[Line], start: usize) -> usize
    requires { start ≤ length lines.now }
    ensures from { start ≤ result }
    ensures most { result ≤ length lines.now }
    ensures within { AreWithin lines.now start result }
    ensures end { result < length lines.now → EndsAt lines.now result }
{
    for i in start..lines.len() {
        if ends_phase(&lines[i]) {
            return i;
        }
    }
    lines.len()
}

/// The lines between two places.
fn lines_between(lines: &[Line], start: usize, end: usize) -> &[Line]
    requires up { start ≤ end }
    requires most { end ≤ length lines.now }
    ensures { result.now ≡ slice_range lines.now start end }
{
    &lines[start..end]
}

/// A phase that was run: the place where it ends, the sessions after it, and what they keep of their reads.
#[derive(Drop)]
struct Part {
    end: usize,
    sessions: Vec<Session>,
    reads: Vec<Reads>,
}

/// Runs the phase that begins at a place of a script, and puts the replies to its lines behind those to earlier ones.
fn run_part<R: Threads + Wait + Sync, G: Gate + Sync>(
    rt: &R,
    alloc: Global,
    store: &Store,
    lock: &CommitLock,
    gate: &G,
    level: Level,
    lines: &[Line],
    start: usize,
    sessions: Vec<Session>,
    reads: Vec<Reads>,
    merger: &mut Merger,
    replies: &mut Vec<(Option<u32>, Reply)>,
) -> Result<Part, OutOfMemory>
    requires all { AreAll store.now sessions.items }
    requires merger { IsMergerOf store.now merger.old }
    requires fits { All (LineFits store.now.layout.limits.sessions store.now.layout.limits.ranges store.now.layout.limits.columns) lines.now }
    requires start { start ≤ length lines.now }
    requires long { length reads.items ≡ length sessions.items }
    ensures merger { IsMergerOf store.now merger.new }
    ensures long { IfOk result (λ part. length part.reads.items ≡ length part.sessions.items) }
    ensures part { IfOk result (λ part. GrowsBy (IsPart store.now level lines.now start part.end sessions.items part.sessions.items reads.items part.reads.items merger.old.seat.view merger.new.seat.view) replies.old.items replies.new.items) }
{
    let end = phase_end(lines, start);
    let phase = lines_between(lines, start, end);
    let place = start as u64 + 1;
    let (sessions, reads) = phase_onto(
        rt, alloc, store, lock, gate, place, level, phase, sessions, reads, merger, replies,
    )?;
    Ok(Part {
        end,
        sessions,
        reads,
    })
}

/// As many sessions have read nothing.
fn nothing_read(alloc: Global, sessions: usize) -> Result<Vec<Reads>, OutOfMemory>
    ensures long { IfOk result (λ reads. length reads.items ≡ sessions) }
    ensures none { IfOk result (λ reads. AreUnread reads.items) }
{
    let mut reads = Vec::new(alloc);
    for _ in 0..sessions {
        reads.push(Reads::new(alloc))?;
    }
    Ok(reads)
}

/// Runs the phases of a script one after another, as `run_script` does, by sessions that have kept no reads.
fn run_phases<R: Threads + Wait + Sync, G: Gate + Sync>(
    rt: &R,
    alloc: Global,
    store: &Store,
    gate: &G,
    level: Level,
    lines: &[Line],
    sessions: Vec<Session>,
    reads: Vec<Reads>,
    merger: &mut Merger,
) -> Result<(Vec<Session>, Vec<(Option<u32>, Reply)>), OutOfMemory>
    requires all { AreAll store.now sessions.items }
    requires merger { IsMergerOf store.now merger.old }
    requires fits { All (LineFits store.now.layout.limits.sessions store.now.layout.limits.ranges store.now.layout.limits.columns) lines.now }
    requires long { length reads.items ≡ length sessions.items }
    requires none { AreUnread reads.items }
    ensures merger { IsMergerOf store.now merger.new }
    ensures all { IfOk result (λ done. AreAll store.now done.0.items) }
    ensures run { IfOk result (λ done. HaveRunThrough store.now lines.now sessions.items done.0.items merger.old.seat.view merger.new.seat.view done.1.items) }
    ensures ends { IfOk result (λ done. EachEnds level (run_of lines.now done.1.items) sessions.items done.0.items) }
{
    let lock = CommitLock::new();
    let mut replies = Vec::new(alloc);
    let first = run_part(
        rt,
        alloc,
        store,
        &lock,
        gate,
        level,
        lines,
        0,
        sessions,
        reads,
        merger,
        &mut replies,
    )?;
    let mut end = first.end;
    let mut passes = first.sessions;
    let mut kept = first.reads;
    while end < lines.len() {
        let told = heard(store, passes);
        let part = run_part(
            rt,
            alloc,
            store,
            &lock,
            gate,
            level,
            lines,
            end + 1,
            told,
            kept,
            merger,
            &mut replies,
        )?;
        end = part.end;
        passes = part.sessions;
        kept = part.reads;
    }
    Ok((passes, replies))
}

/// Runs a script: its phases one after another, and lets the sessions hear of each other between any two. The list has every session of the store,
/// in order, and their transactions are at this level of isolation. Answers the sessions, and the replies in the order of the lines. The gate is called before and after each line, with the line's
/// place in the script, from 1 on.
pub(crate) fn run_script<R: Threads + Wait + Sync, G: Gate + Sync>(
    rt: &R,
    alloc: Global,
    store: &Store,
    gate: &G,
    level: Level,
    lines: &[Line],
    sessions: Vec<Session>,
    merger: &mut Merger,
) -> Result<(Vec<Session>, Vec<(Option<u32>, Reply)>), OutOfMemory>
    requires all { AreAll store.now sessions.items }
    requires merger { IsMergerOf store.now merger.old }
    requires fits { All (LineFits store.now.layout.limits.sessions store.now.layout.limits.ranges store.now.layout.limits.columns) lines.now }
    ensures merger { IsMergerOf store.now merger.new }
    ensures all { IfOk result (λ done. AreAll store.now done.0.items) }
    ensures run { IfOk result (λ done. HaveRunThrough store.now lines.now sessions.items done.0.items merger.old.seat.view merger.new.seat.view done.1.items) }
    ensures ends { IfOk result (λ done. EachEnds level (run_of lines.now done.1.items) sessions.items done.0.items) }
{
    let reads = nothing_read(alloc, sessions.len())?;
    run_phases(
        rt, alloc, store, gate, level, lines, sessions, reads, merger,
    )
}
