//! A worker runs the lines of its session, one after the other.
ghost use Rattle.std.specs.Prelude.{◌≡◌, ◌+◌, ◌<◌, ◌^◌, length, OnOk, [], ◌∷◌};
ghost use Rattle.std.specs.List.{All};
ghost use Rattle.lst_session.specs.Passes.{IsReady};
ghost use Rattle.lst_work_laws.specs.Runs.{CanRun};
ghost use Rattle.lst_work.specs.Workers.{Ran, RanBlocks, HasWorked};
ghost use Rattle.lst_work.specs.Blocks.{blocks_of};

use crate::blocks::first_block;
use crate::gates::Gate;
use crate::paces::Pace;
use crate::reads::Reads;
use crate::serials::level_line;
use lst_legal_runs::Level;
use lst_model::{Call, Line, OutOfMemory};
use lst_reply_queue::ReplyQueue;
use lst_rule::Store;
use lst_session::{CommitLock, Session};
use std::alloc::Global;
use std::mem;
use std::sync::Wait;

/// One session's pass, with the replies to the lines that it has run, in order and by block.
#[derive(Drop)]
pub(crate) struct Worker {
    pub(crate) session: Session,
    /// What its open transaction has read, where its level asks for it.
    pub(crate) reads: Reads,
    /// The level of isolation of its transactions.
    pub(crate) level: Level,
    /// The replies to the lines of the block at hand.
    pub(crate) replies: ReplyQueue,
    /// Those to the lines of each block before it.
    pub(crate) parts: Vec<ReplyQueue>,
    /// Memory ran out, and the rest of the lines was given up.
    pub(crate) has_failed: bool,
}

impl Worker {
    ghost use Rattle.std.specs.Prelude.{◌≡◌, [], false};

    /// A worker that has run nothing yet.
    pub(crate) fn new(alloc: Global, level: Level, session: Session, reads: Reads) -> Worker
        ensures session { result.session ≡ session }
        ensures reads { result.reads ≡ reads }
        ensures level { result.level ≡ level }
        ensures none { result.parts.items ≡ [] }
        ensures ready { result.has_failed ≡ false }
    {
        Worker {
            session,
            reads,
            level,
            replies: ReplyQueue::new(alloc),
            parts: Vec::new(alloc),
            has_failed: false,
        }
    }
}

/// Runs a call of the session, and keeps the reply.
fn run_call<R: Wait>(
    rt: &R,
    alloc: Global,
    store: &Store,
    lock: &CommitLock,
    worker: &mut Worker,
    call: &Call,
) -> Result<(), OutOfMemory>
    requires ready { IsReady store.now worker.old.session }
    requires can { CanRun store.now.layout.limits (Line.Call worker.old.session.number call.now) }
    ensures ready { IsReady store.now worker.new.session }
    ensures number { worker.new.session.number ≡ worker.old.session.number }
    ensures ran { OnOk result (Ran (Line.Call worker.old.session.number call.now ∷ []) worker.old worker.new) }
{
    let reply = level_line(
        rt,
        alloc,
        store,
        worker.level,
        &mut worker.session,
        &mut worker.reads,
        lock,
        call,
    )?;
    worker.replies.push(reply)?;
    Ok(())
}

/// Runs a line if it is the session's. Where it is a merge, the session has come past it.
fn run_line<R: Wait, G: Gate>(
    rt: &R,
    alloc: Global,
    store: &Store,
    lock: &CommitLock,
    pace: &Pace,
    gate: &G,
    place: u64,
    line: &Line,
    worker: &mut Worker,
) -> Result<(), OutOfMemory>
    requires ready { IsReady store.now worker.old.session }
    requires can { CanRun store.now.layout.limits line.now }
    ensures ready { IsReady store.now worker.new.session }
    ensures number { worker.new.session.number ≡ worker.old.session.number }
    ensures ran { OnOk result (Ran (line.now ∷ []) worker.old worker.new) }
{
    match line {
        Line::Call { session, call } => {
            if *session != worker.session.number {
                return Ok(());
            }
            gate.at(*session, place, false);
            run_call(rt, alloc, store, lock, worker, call)?;
            gate.at(*session, place, true);
        }
        Line::Merge { .. } => pace.pass(rt, worker.session.number),
        Line::Phase => {}
    }
    Ok(())
}

/// Runs the session's lines among these. The first of them has the place `first` in the script.
fn run_lines<R: Wait, G: Gate>(
    rt: &R,
    alloc: Global,
    store: &Store,
    lock: &CommitLock,
    pace: &Pace,
    gate: &G,
    first: u64,
    lines: &[Line],
    worker: &mut Worker,
) -> Result<(), OutOfMemory>
    requires ready { IsReady store.now worker.old.session }
    requires can { All (CanRun store.now.layout.limits) lines.now }
    requires places { first + length lines.now < 2 ^ 64 }
    ensures ready { IsReady store.now worker.new.session }
    ensures number { worker.new.session.number ≡ worker.old.session.number }
    ensures ran { OnOk result (Ran lines.now worker.old worker.new) }
{
    for i in 0..lines.len() {
        let place = first + i as u64;
        run_line(rt, alloc, store, lock, pace, gate, place, &lines[i], worker)?;
    }
    Ok(())
}

/// Runs the session's lines of a block, and puts their replies behind those to the blocks before it.
fn run_block<R: Wait, G: Gate>(
    rt: &R,
    alloc: Global,
    store: &Store,
    lock: &CommitLock,
    pace: &Pace,
    gate: &G,
    first: u64,
    block: &[Line],
    worker: &mut Worker,
) -> Result<(), OutOfMemory>
    requires ready { IsReady store.now worker.old.session }
    requires can { All (CanRun store.now.layout.limits) block.now }
    requires places { first + length block.now < 2 ^ 64 }
    ensures ready { IsReady store.now worker.new.session }
    ensures number { worker.new.session.number ≡ worker.old.session.number }
    ensures ran { OnOk result (RanBlocks (block.now ∷ []) worker.old worker.new) }
{
    worker.replies = ReplyQueue::new(alloc);
    run_lines(rt, alloc, store, lock, pace, gate, first, block, worker)?;
    let replies = mem::replace(&mut worker.replies, ReplyQueue::new(alloc));
    worker.parts.push(replies)?;
    Ok(())
}

/// Runs the session's lines among these, block by block.
fn run_blocks<R: Wait, G: Gate>(
    rt: &R,
    alloc: Global,
    store: &Store,
    lock: &CommitLock,
    pace: &Pace,
    gate: &G,
    first: u64,
    lines: &[Line],
    worker: &mut Worker,
) -> Result<(), OutOfMemory>
    requires ready { IsReady store.now worker.old.session }
    requires can { All (CanRun store.now.layout.limits) lines.now }
    requires places { first + length lines.now < 2 ^ 64 }
    ensures ready { IsReady store.now worker.new.session }
    ensures number { worker.new.session.number ≡ worker.old.session.number }
    ensures ran { OnOk result (RanBlocks (blocks_of lines.now) worker.old worker.new) }
{
    let mut rest = lines;
    let mut place = first;
    while !rest.is_empty() {
        let (block, after) = first_block(rest);
        run_block(rt, alloc, store, lock, pace, gate, place, block, worker)?;
        place += block.len() as u64;
        rest = after;
    }
    Ok(())
}

/// Runs the session's lines among these, unless memory runs out.
pub(crate) fn work_phase<R: Wait, G: Gate>(
    rt: &R,
    alloc: Global,
    store: &Store,
    lock: &CommitLock,
    pace: &Pace,
    gate: &G,
    first: u64,
    lines: &[Line],
    worker: &mut Worker,
)
    requires ready { IsReady store.now worker.old.session }
    requires can { All (CanRun store.now.layout.limits) lines.now }
    requires places { first + length lines.now < 2 ^ 64 }
    ensures { HasWorked store.now lines.now worker.old worker.new }
{
    if run_blocks(rt, alloc, store, lock, pace, gate, first, lines, worker).is_err() {
        worker.has_failed = true;
    }
    pace.leave(rt, worker.session.number);
}
