//! The replies of all workers, put into the order of the lines.
ghost use Rattle.std.specs.Prelude.{◌≡◌, ◌≢◌, ◌+◌, ◌<◌, ◌∷◌, ◌++◌, length, map, replicate, OnOk, ℕ};
ghost use Rattle.std.specs.List.{All};
ghost use Rattle.lst_model.specs.Lines.{LineFits};
ghost use Rattle.lst_replies.specs.Runs.{speaker_of};
ghost use Rattle.lst_work.specs.Orders.{queue_at, lines_from, placeholder, AreInOrder};
ghost use Rattle.lst_work_laws.specs.Orders.{queue_of};

use lst_model::{Line, OutOfMemory, Reply};
use lst_reply_queue::ReplyQueue;

/// Takes the first reply from a queue.
fn taken(queues: &mut [ReplyQueue], queue: usize) -> Reply
    requires inside { queue < length queues.old }
    requires some { 0 < length (queue_at queues.old queue) }
    ensures wide { length queues.new ≡ length queues.old }
    ensures first { queue_at queues.old queue ≡ result ∷ queue_at queues.new queue }
    ensures others { (other : ℕ) → other ≢ queue → queue_at queues.new other ≡ queue_at queues.old other }
{
    let Some(reply) = queues[queue].pop() else {
        unreachable!();
    };
    reply
}

/// The session that a line is of, or None where it is a merge.
fn speaker(line: &Line) -> Option<u32>
    ensures { result ≡ speaker_of line.now }
{
    match line {
        Line::Call { session, .. } => Some(*session),
        _ => None,
    }
}

/// Puts so many placeholders behind these replies: so the process has the memory when the replies are put there.
pub(crate) fn make_room(
    replies: &mut Vec<(Option<u32>, Reply)>,
    more: usize,
) -> Result<(), OutOfMemory>
    ensures { OnOk result (replies.new.items ≡ replies.old.items ++ replicate more placeholder) }
{
    replies.reserve(more)?;
    for _ in 0..more {
        replies.push((None, Reply::Silent))?;
    }
    Ok(())
}

/// Puts the replies to these lines into as many places, in the order of the lines. Each session's stand in the queue with its number, and those to
/// other lines in the last one.
pub(crate) fn put_in_order(
    sessions: u32,
    lines: &[Line],
    queues: &mut [ReplyQueue],
    places: &mut [(Option<u32>, Reply)],
)
    requires wide { length queues.old ≡ sessions + 1 }
    requires fits { (ranges columns : ℕ) × All (LineFits sessions ranges columns) lines.now }
    requires long { (queue : ℕ) → length (queue_at queues.old queue) ≡ lines_from sessions queue lines.now }
    requires room { length places.old ≡ length lines.now }
    ensures room { length places.new ≡ length places.old }
    ensures order { AreInOrder sessions lines.now queues.old places.new }
{
    for i in 0..lines.len() {
        let speaker = speaker(&lines[i]);
        let reply = taken(queues, speaker.unwrap_or(sessions) as usize);
        places[i] = (speaker, reply);
    }
}
