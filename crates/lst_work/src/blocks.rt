//! The lines of a phase in blocks, whose replies are put in order side by side.
ghost use Rattle.std.specs.Prelude.{◌≡◌, ◌+◌, ℕ, length, take, drop};
ghost use Rattle.std.specs.List.{All};
ghost use Rattle.std.specs.Thread.{IsSync};
ghost use Rattle.lst_model.specs.Lines.{LineFits};
ghost use Rattle.lst_work.specs.Orders.{queue_at, lines_from, AreInOrder, GrowsBy};
ghost use Rattle.lst_work.specs.Blocks.{block_length, queues_of, AreAsLong, AreInBlockOrder};

use crate::orders::put_in_order;
use lst_model::{Line, Reply};
use lst_reply_queue::ReplyQueue;
use std::sync::Wait;
use std::thread::{Threads, join_mut};

/// A block has so many lines, and the last one of a phase may have fewer.
const BLOCK: usize = 32_768;

/// The replies to the lines of a block: each session's stand in the queue with its number, and those to other lines in the last one.
#[derive(Drop)]
pub(crate) struct Block {
    pub(crate) queues: Vec<ReplyQueue>,
}

/// The first block of these lines, and the lines after it.
pub(crate) fn first_block(lines: &[Line]) -> (&[Line], &[Line])
    ensures first { result.0.now ≡ take block_length lines.now }
    ensures rest { result.1.now ≡ drop block_length lines.now }
{
    lines.split_at(BLOCK.min(lines.len()))
}

/// Puts the replies to the lines of a block into these places, in the order of the lines, and lets its queues go.
fn order_block(
    sessions: u32,
    lines: &[Line],
    block: &mut Block,
    places: &mut [(Option<u32>, Reply)],
)
    requires wide { length block.old.queues.items ≡ sessions + 1 }
    requires fits { (ranges columns : ℕ) × All (LineFits sessions ranges columns) lines.now }
    requires long { (queue : ℕ) → length (queue_at (queues_of block.old) queue) ≡ lines_from sessions queue lines.now }
    requires room { length places.old ≡ length lines.now }
    ensures room { length places.new ≡ length places.old }
    ensures order { AreInOrder sessions lines.now (queues_of block.old) places.new }
{
    put_in_order(sessions, lines, block.queues.as_mut_slice(), places);
    block.queues.clear();
}

/// Puts the replies to the lines of these blocks into these places, in the order of the lines. The last block's are put here, and each other one's in a
/// thread of its own, where one can be made.
#[cycle(blocks)]
fn order_blocks<R: Threads + Wait + Sync>(
    rt: &R,
    sessions: u32,
    lines: &[Line],
    blocks: &mut [Block],
    places: &mut [(Option<u32>, Reply)],
)
    requires wide { All (λ block. length block.queues.items ≡ sessions + 1) blocks.old }
    requires fits { (ranges columns : ℕ) × All (LineFits sessions ranges columns) lines.now }
    requires long { AreAsLong sessions lines.now blocks.old }
    requires room { length places.old ≡ length lines.now }
    ensures room { length places.new ≡ length places.old }
    ensures order { AreInBlockOrder sessions lines.now blocks.old places.new }
{
    let Some((block, others)) = blocks.split_first_mut() else {
        return;
    };
    let (here, after) = first_block(lines);
    let (first, rest) = places.split_at_mut(here.len());
    if others.is_empty() {
        order_block(sessions, here, block, first);
    } else {
        order_beside(rt, sessions, here, after, block, others, first, rest);
    }
}

/// Puts the replies to the lines of a block in order, and beside it those of the blocks after it.
#[cycle(blocks)]
fn order_beside<R: Threads + Wait + Sync>(
    rt: &R,
    sessions: u32,
    here: &[Line],
    after: &[Line],
    block: &mut Block,
    others: &mut [Block],
    first: &mut [(Option<u32>, Reply)],
    rest: &mut [(Option<u32>, Reply)],
)
    requires wide { length block.old.queues.items ≡ sessions + 1 }
    requires fits { (ranges columns : ℕ) × All (LineFits sessions ranges columns) here.now }
    requires long { (queue : ℕ) → length (queue_at (queues_of block.old) queue) ≡ lines_from sessions queue here.now }
    requires room { length first.old ≡ length here.now }
    requires others_wide { All (λ block. length block.queues.items ≡ sessions + 1) others.old }
    requires others_fit { (ranges columns : ℕ) × All (LineFits sessions ranges columns) after.now }
    requires others_long { AreAsLong sessions after.now others.old }
    requires others_room { length rest.old ≡ length after.now }
    ensures room { length first.new ≡ length first.old }
    ensures order { AreInOrder sessions here.now (queues_of block.old) first.new }
    ensures others_room { length rest.new ≡ length rest.old }
    ensures others_order { AreInBlockOrder sessions after.now others.old rest.new }
{
    let mut one = ||
        requires wide { length block.now.queues.items ≡ sessions + 1 }
        requires fits { (ranges columns : ℕ) × All (LineFits sessions ranges columns) here.now }
        requires long { (queue : ℕ) → length (queue_at (queues_of block.now) queue) ≡ lines_from sessions queue here.now }
        requires room { length first.now ≡ length here.now }
        ensures { (length first.exit.now ≡ length first.entry.now) × AreInOrder sessions here.entry.now (queues_of block.entry.now) first.exit.now }
    { order_block(sessions, here, block, first) };
    let mut more = ||
        requires { IsSync R.row × All (λ block. length block.queues.items ≡ sessions + 1) others.now × ((ranges columns : ℕ) × All (LineFits sessions ranges columns) after.now) × AreAsLong sessions after.now others.now × (length rest.now ≡ length after.now) }
        ensures { (length rest.exit.now ≡ length rest.entry.now) × AreInBlockOrder sessions after.entry.now others.entry.now rest.exit.now }
    { order_blocks(rt, sessions, after, others, rest) };
    join_mut(rt, &mut one, &mut more);
}

/// Puts the replies to these lines into the places behind the earlier ones, of which there are so many, in the order of the lines.
pub(crate) fn order_phase<R: Threads + Wait + Sync>(
    rt: &R,
    sessions: u32,
    lines: &[Line],
    blocks: Vec<Block>,
    earlier: usize,
    replies: &mut Vec<(Option<u32>, Reply)>,
)
    requires wide { All (λ block. length block.queues.items ≡ sessions + 1) blocks.items }
    requires fits { (ranges columns : ℕ) × All (LineFits sessions ranges columns) lines.now }
    requires long { AreAsLong sessions lines.now blocks.items }
    requires room { length replies.old.items ≡ earlier + length lines.now }
    ensures { GrowsBy (AreInBlockOrder sessions lines.now blocks.items) (take earlier replies.old.items) replies.new.items }
{
    let mut blocks = blocks;
    let (_, places) = replies.as_mut_slice().split_at_mut(earlier);
    order_blocks(rt, sessions, lines, blocks.as_mut_slice(), places);
}
