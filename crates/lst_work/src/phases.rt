//! A phase: the lines of all sessions and the merges, side by side.
ghost use Rattle.std.specs.Prelude.{◌≡◌, ◌+◌, ◌<◌, ◌^◌, ◌++◌, length, replicate, false};
ghost use Rattle.std.specs.List.{All};
ghost use Rattle.std.specs.Thread.{IsSync};
ghost use Rattle.lst_session.specs.Parting.{IsMergerOf};
ghost use Rattle.lst_work.specs.Merges.{HasMerged};
ghost use Rattle.lst_work.specs.Orders.{placeholder};
ghost use Rattle.lst_work_laws.specs.Runs.{CanRun};
ghost use Rattle.lst_session.specs.Passes.{IsReady};
ghost use Rattle.lst_work.specs.Workers.{AreReady, AllHaveWorked, HasWorked};

use crate::gates::Gate;
use crate::merging::{MergeQueue, run_merges};
use crate::orders::make_room;
use crate::paces::Pace;
use crate::workers::{Worker, work_phase};
use lst_model::{Line, Reply};
use lst_rule::Store;
use lst_session::{CommitLock, Merger};
use std::alloc::Global;
use std::sync::Wait;
use std::thread::{Threads, join_mut};

/// Each worker runs its session's lines. The last one does so here, and each other one in a thread that is made here, where one can be made: a thread that
/// is made by another one at the same time may be put where that one runs, and wait there.
#[cycle(workers)]
fn run_workers<R: Threads + Wait + Sync, G: Gate + Sync>(
    rt: &R,
    alloc: Global,
    store: &Store,
    lock: &CommitLock,
    pace: &Pace,
    gate: &G,
    first: u64,
    lines: &[Line],
    workers: &mut [Worker],
)
    requires ready { AreReady store.now workers.old }
    requires can { All (CanRun store.now.layout.limits) lines.now }
    requires places { first + length lines.now < 2 ^ 64 }
    ensures count { length workers.new ≡ length workers.old }
    ensures worked { AllHaveWorked store.now lines.now workers.old workers.new }
{
    let Some((worker, others)) = workers.split_first_mut() else {
        return;
    };
    if others.is_empty() {
        work_phase(rt, alloc, store, lock, pace, gate, first, lines, worker);
    } else {
        run_beside(
            rt, alloc, store, lock, pace, gate, first, lines, worker, others,
        );
    }
}

/// A worker runs its session's lines, and others run theirs beside it.
#[cycle(workers)]
fn run_beside<R: Threads + Wait + Sync, G: Gate + Sync>(
    rt: &R,
    alloc: Global,
    store: &Store,
    lock: &CommitLock,
    pace: &Pace,
    gate: &G,
    first: u64,
    lines: &[Line],
    worker: &mut Worker,
    others: &mut [Worker],
)
    requires ready { IsReady store.now worker.old.session }
    requires others { AreReady store.now others.old }
    requires can { All (CanRun store.now.layout.limits) lines.now }
    requires places { first + length lines.now < 2 ^ 64 }
    ensures worked { HasWorked store.now lines.now worker.old worker.new }
    ensures count { length others.new ≡ length others.old }
    ensures others { AllHaveWorked store.now lines.now others.old others.new }
{
    let mut one = ||
        requires { IsReady store.now worker.now.session × All (CanRun store.now.layout.limits) lines.now × (first + length lines.now < 2 ^ 64) }
        ensures { HasWorked store.entry.now lines.entry.now worker.entry.now worker.exit.now }
    { work_phase(rt, alloc, store, lock, pace, gate, first, lines, worker) };
    let mut rest = ||
        requires { IsSync R.row × IsSync G.row × AreReady store.now others.now × All (CanRun store.now.layout.limits) lines.now × (first + length lines.now < 2 ^ 64) }
        ensures { (length others.exit.now ≡ length others.entry.now) × AllHaveWorked store.entry.now lines.entry.now others.entry.now others.exit.now }
    { run_workers(rt, alloc, store, lock, pace, gate, first, lines, others) };
    join_mut(rt, &mut one, &mut rest);
}

/// Makes room for the replies to these lines, behind those to earlier ones, and then the merges among the lines, unless memory runs out.
fn make_room_and_merge<R: Wait, G: Gate>(
    rt: &R,
    alloc: Global,
    store: &Store,
    pace: &Pace,
    gate: &G,
    first: u64,
    lines: &[Line],
    merger: &mut Merger,
    queue: &mut MergeQueue,
    replies: &mut Vec<(Option<u32>, Reply)>,
)
    requires merger { IsMergerOf store.now merger.old }
    requires can { All (CanRun store.now.layout.limits) lines.now }
    requires places { first + length lines.now < 2 ^ 64 }
    ensures merges { HasMerged store.now lines.now merger.old merger.new queue.old queue.new }
    ensures room { queue.new.has_failed ≡ false → replies.new.items ≡ replies.old.items ++ replicate (length lines.now) placeholder }
{
    if make_room(replies, lines.len()).is_err() {
        queue.has_failed = true;
        return;
    }
    run_merges(rt, alloc, store, pace, gate, first, lines, merger, queue);
}

/// The workers run their sessions' lines beside each other, and beside them the merge worker makes room behind the replies to earlier lines, and the
/// merges, each once all sessions have come past it. It has a thread of its own where one can be made, and goes last otherwise.
pub(crate) fn run_phase<R: Threads + Wait + Sync, G: Gate + Sync>(
    rt: &R,
    alloc: Global,
    store: &Store,
    lock: &CommitLock,
    gate: &G,
    first: u64,
    lines: &[Line],
    workers: &mut [Worker],
    merger: &mut Merger,
    queue: &mut MergeQueue,
    replies: &mut Vec<(Option<u32>, Reply)>,
)
    requires ready { AreReady store.now workers.old }
    requires merger { IsMergerOf store.now merger.old }
    requires can { All (CanRun store.now.layout.limits) lines.now }
    requires places { first + length lines.now < 2 ^ 64 }
    ensures sessions { AllHaveWorked store.now lines.now workers.old workers.new }
    ensures merges { HasMerged store.now lines.now merger.old merger.new queue.old queue.new }
    ensures room { queue.new.has_failed ≡ false → replies.new.items ≡ replies.old.items ++ replicate (length lines.now) placeholder }
{
    let pace = Pace::new(workers.len());
    join_mut(
        rt,
        &mut ||
            requires merger { IsMergerOf store.now merger.now }
            requires can { All (CanRun store.now.layout.limits) lines.now }
            requires places { first + length lines.now < 2 ^ 64 }
        {
            make_room_and_merge(
                rt, alloc, store, &pace, gate, first, lines, merger, queue, replies,
            )
        },
        &mut ||
            requires ready { AreReady store.now workers.now }
            requires can { All (CanRun store.now.layout.limits) lines.now }
            requires places { first + length lines.now < 2 ^ 64 }
        { run_workers(rt, alloc, store, lock, &pace, gate, first, lines, workers) },
    );
}
