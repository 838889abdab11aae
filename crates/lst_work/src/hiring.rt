//! Workers made of sessions for a phase, and sessions and blocks of replies made of workers after it.
ghost use Rattle.std.specs.Prelude.{◌≡◌, ◌+◌, ◌<◌, ℕ, length, map, slice_index_or, IfOk, OnOk};
ghost use Rattle.std.specs.List.{All};
ghost use Rattle.lst_work.specs.Blocks.{parts_at};
ghost use Rattle.lst_work.specs.Hiring.{AreHired, AreFirst, HaveSaid, sessions_of, reads_of, said_in};
ghost use Rattle.lst_work.specs.Workers.{parts_of};

use crate::blocks::Block;
use crate::reads::Reads;
use crate::workers::Worker;
use lst_legal_runs::Level;
use lst_model::OutOfMemory;
use lst_reply_queue::ReplyQueue;
use lst_session::Session;
use std::alloc::Global;

/// A new worker at this level for each session, in order, with what it keeps of its reads.
pub(crate) fn hired(
    alloc: Global,
    level: Level,
    sessions: Vec<Session>,
    reads: Vec<Reads>,
) -> Result<Vec<Worker>, OutOfMemory>
    requires long { length reads.items ≡ length sessions.items }
    ensures { IfOk result (λ workers. AreHired level sessions.items reads.items workers.items) }
{
    let mut rest = sessions;
    let mut kept = reads;
    let mut workers = Vec::new(alloc);
    while !rest.is_empty() {
        workers.push(Worker::new(alloc, level, rest.remove(0), kept.remove(0)))?;
    }
    Ok(workers)
}

/// The queues of the next block: the first part that each worker has said, and those to merges last.
fn next_queues(
    alloc: Global,
    workers: &mut Vec<Worker>,
    merges: ReplyQueue,
) -> Result<Vec<ReplyQueue>, OutOfMemory>
    requires some { (i : ℕ) (d : Worker) → i < length workers.old.items → 0 < length (parts_of (slice_index_or workers.old.items i d)) }
    ensures { IfOk result (λ queues. AreFirst workers.old.items workers.new.items merges queues.items) }
{
    let mut queues = Vec::new(alloc);
    for i in 0..workers.len() {
        let part = workers[i].parts.remove(0);
        queues.push(part)?;
    }
    queues.push(merges)?;
    Ok(queues)
}

/// Takes what the workers have said, and answers it by block, with the replies to merges last.
fn blocks_said(
    alloc: Global,
    workers: &mut Vec<Worker>,
    merges: Vec<ReplyQueue>,
) -> Result<Vec<Block>, OutOfMemory>
    requires said { HaveSaid workers.old.items (length merges.items) }
    ensures sessions { OnOk result (sessions_of workers.new.items ≡ sessions_of workers.old.items) }
    ensures reads { OnOk result (reads_of workers.new.items ≡ reads_of workers.old.items) }
    ensures wide { IfOk result (λ blocks. All (λ block. length block.queues.items ≡ length workers.old.items + 1) blocks.items) }
    ensures parts { IfOk result (λ blocks. (queue : ℕ) → parts_at blocks.items queue ≡ said_in workers.old.items merges.items queue) }
{
    let mut rest = merges;
    let mut blocks = Vec::new(alloc);
    while !rest.is_empty() {
        let queues = next_queues(alloc, workers, rest.remove(0))?;
        blocks.push(Block { queues })?;
    }
    Ok(blocks)
}

/// The sessions of workers, and what they keep of their reads.
fn sessions_back(
    alloc: Global,
    workers: Vec<Worker>,
) -> Result<(Vec<Session>, Vec<Reads>), OutOfMemory>
    ensures sessions { IfOk result (λ back. back.0.items ≡ sessions_of workers.items) }
    ensures reads { IfOk result (λ back. back.1.items ≡ reads_of workers.items) }
{
    let mut rest = workers;
    let mut sessions = Vec::new(alloc);
    let mut kept = Vec::new(alloc);
    while !rest.is_empty() {
        let Worker { session, reads, .. } = rest.remove(0);
        sessions.push(session)?;
        kept.push(reads)?;
    }
    Ok((sessions, kept))
}

/// The workers' sessions, what they keep of their reads, and by block what they have said, with the replies to merges last.
pub(crate) fn dismissed(
    alloc: Global,
    workers: Vec<Worker>,
    merges: Vec<ReplyQueue>,
) -> Result<(Vec<Session>, Vec<Reads>, Vec<Block>), OutOfMemory>
    requires said { HaveSaid workers.items (length merges.items) }
    ensures sessions { IfOk result (λ parted. parted.0.items ≡ sessions_of workers.items) }
    ensures reads { IfOk result (λ parted. parted.1.items ≡ reads_of workers.items) }
    ensures wide { IfOk result (λ parted. All (λ block. length block.queues.items ≡ length workers.items + 1) parted.2.items) }
    ensures parts { IfOk result (λ parted. (queue : ℕ) → parts_at parted.2.items queue ≡ said_in workers.items merges.items queue) }
{
    let mut workers = workers;
    let blocks = blocks_said(alloc, &mut workers, merges)?;
    let (sessions, reads) = sessions_back(alloc, workers)?;
    Ok((sessions, reads, blocks))
}
