//! The merge worker: it makes the merges of a phase, beside the sessions.
ghost use Rattle.std.specs.Prelude.{◌≡◌, ◌+◌, ◌<◌, ◌^◌, length, OnOk, [], ◌∷◌, false};
ghost use Rattle.std.specs.List.{All};
ghost use Rattle.lst_session.specs.Parting.{IsMergerOf};
ghost use Rattle.lst_work.specs.Merges.{Merged, MergedBlocks, HasMerged};
ghost use Rattle.lst_work.specs.Blocks.{blocks_of};
ghost use Rattle.lst_work_laws.specs.Runs.{CanRun};

use crate::blocks::first_block;
use crate::gates::Gate;
use crate::paces::Pace;
use lst_model::{Line, OutOfMemory};
use lst_reply_queue::ReplyQueue;
use lst_rule::Store;
use lst_session::{Merger, merge_reply};
use std::alloc::Global;
use std::mem;
use std::sync::Wait;

/// The replies to the merges that were made, in order and by block.
#[derive(Drop)]
pub(crate) struct MergeQueue {
    /// The replies to the merges of the block at hand.
    pub(crate) replies: ReplyQueue,
    /// Those to the merges of each block before it.
    pub(crate) parts: Vec<ReplyQueue>,
    /// How many merges were made.
    pub(crate) made: u64,
    /// Memory ran out, and the rest of the lines was given up.
    pub(crate) has_failed: bool,
}

/// A queue of no replies.
pub(crate) fn empty_queue(alloc: Global) -> MergeQueue
    ensures none { result.parts.items ≡ [] }
    ensures ready { result.has_failed ≡ false }
{
    MergeQueue {
        replies: ReplyQueue::new(alloc),
        parts: Vec::new(alloc),
        made: 0,
        has_failed: false,
    }
}

/// Merges the page of a range and a column, and keeps the reply.
fn merge_page(
    store: &Store,
    range: u32,
    column: u32,
    merger: &mut Merger,
    queue: &mut MergeQueue,
) -> Result<(), OutOfMemory>
    requires merger { IsMergerOf store.now merger.old }
    requires can { CanRun store.now.layout.limits (Line.Merge range column) }
    ensures merger { IsMergerOf store.now merger.new }
    ensures merged { OnOk result (Merged (Line.Merge range column ∷ []) merger.old merger.new queue.old queue.new) }
{
    let answer = merger.merge(store, range, column);
    queue.replies.push(merge_reply(answer))?;
    queue.made = queue.made.saturating_add(1);
    Ok(())
}

/// Runs a line if it is a merge, once each session has come past it. The merge worker has the number of the sessions.
fn merge_line<R: Wait, G: Gate>(
    rt: &R,
    store: &Store,
    pace: &Pace,
    gate: &G,
    place: u64,
    line: &Line,
    merger: &mut Merger,
    queue: &mut MergeQueue,
) -> Result<(), OutOfMemory>
    requires merger { IsMergerOf store.now merger.old }
    requires can { CanRun store.now.layout.limits line.now }
    ensures merger { IsMergerOf store.now merger.new }
    ensures merged { OnOk result (Merged (line.now ∷ []) merger.old merger.new queue.old queue.new) }
{
    let Line::Merge { range, column } = line else {
        return Ok(());
    };
    pace.wait_for_all(rt, queue.made.saturating_add(1));
    let number = store.layout().limits.sessions;
    gate.at(number, place, false);
    merge_page(store, *range, *column, merger, queue)?;
    gate.at(number, place, true);
    Ok(())
}

/// Makes the merges among these lines. The first of them has the place `first` in the script.
fn merge_lines<R: Wait, G: Gate>(
    rt: &R,
    store: &Store,
    pace: &Pace,
    gate: &G,
    first: u64,
    lines: &[Line],
    merger: &mut Merger,
    queue: &mut MergeQueue,
) -> Result<(), OutOfMemory>
    requires merger { IsMergerOf store.now merger.old }
    requires can { All (CanRun store.now.layout.limits) lines.now }
    requires places { first + length lines.now < 2 ^ 64 }
    ensures merger { IsMergerOf store.now merger.new }
    ensures merged { OnOk result (Merged lines.now merger.old merger.new queue.old queue.new) }
{
    for i in 0..lines.len() {
        let place = first + i as u64;
        merge_line(rt, store, pace, gate, place, &lines[i], merger, queue)?;
    }
    Ok(())
}

/// Makes the merges of a block, and puts their replies behind those to the blocks before it.
fn merge_block<R: Wait, G: Gate>(
    rt: &R,
    alloc: Global,
    store: &Store,
    pace: &Pace,
    gate: &G,
    first: u64,
    block: &[Line],
    merger: &mut Merger,
    queue: &mut MergeQueue,
) -> Result<(), OutOfMemory>
    requires merger { IsMergerOf store.now merger.old }
    requires can { All (CanRun store.now.layout.limits) block.now }
    requires places { first + length block.now < 2 ^ 64 }
    ensures merger { IsMergerOf store.now merger.new }
    ensures merged { OnOk result (MergedBlocks (block.now ∷ []) merger.old merger.new queue.old queue.new) }
{
    queue.replies = ReplyQueue::new(alloc);
    merge_lines(rt, store, pace, gate, first, block, merger, queue)?;
    let replies = mem::replace(&mut queue.replies, ReplyQueue::new(alloc));
    queue.parts.push(replies)?;
    Ok(())
}

/// Makes the merges among these lines, block by block.
fn merge_blocks<R: Wait, G: Gate>(
    rt: &R,
    alloc: Global,
    store: &Store,
    pace: &Pace,
    gate: &G,
    first: u64,
    lines: &[Line],
    merger: &mut Merger,
    queue: &mut MergeQueue,
) -> Result<(), OutOfMemory>
    requires merger { IsMergerOf store.now merger.old }
    requires can { All (CanRun store.now.layout.limits) lines.now }
    requires places { first + length lines.now < 2 ^ 64 }
    ensures merger { IsMergerOf store.now merger.new }
    ensures merged { OnOk result (MergedBlocks (blocks_of lines.now) merger.old merger.new queue.old queue.new) }
{
    let mut rest = lines;
    let mut place = first;
    while !rest.is_empty() {
        let (block, after) = first_block(rest);
        merge_block(rt, alloc, store, pace, gate, place, block, merger, queue)?;
        place += block.len() as u64;
        rest = after;
    }
    Ok(())
}

/// Makes the merges among these lines, unless memory runs out.
pub(crate) fn run_merges<R: Wait, G: Gate>(
    rt: &R,
    alloc: Global,
    store: &Store,
    pace: &Pace,
    gate: &G,
    first: u64,
    lines: &[Line],
    merger: &mut Merger,
    queue: &mut MergeQueue,
)
    requires merger { IsMergerOf store.now merger.old }
    requires can { All (CanRun store.now.layout.limits) lines.now }
    requires places { first + length lines.now < 2 ^ 64 }
    ensures { HasMerged store.now lines.now merger.old merger.new queue.old queue.new }
{
    if merge_blocks(rt, alloc, store, pace, gate, first, lines, merger, queue).is_err() {
        queue.has_failed = true;
    }
}
