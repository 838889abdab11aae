//! Merge replies are consistent: merged numbers rise by range and column, no more is merged than was accepted, and a frame is
//! wanting only where all spare ones were swapped in, for a session that begins a transaction.
ghost use Rattle.std.specs.Prelude.{◌≡◌, ◌↔◌, ℕ, ◌+◌, ◌<◌, ◌-◌, ◌^◌, cond, List, [], ◌∷◌, ◌++◌, ◌&&◌, length, map, IsTrue, IfOk, OnOk};
ghost use Rattle.std.specs.List.{count_by, list_any};
ghost use Rattle.lst_replies.specs.Runs.{Answered, AtEachMerge, is_accepted, is_merged, is_begun, is_by, is_done, names};
ghost use Rattle.lst_replies.specs.Seen.{seen};
ghost use Rattle.lst_replies.specs.Explained.{MergeIsAnswered};
ghost use Rattle.lst_legal_runs.specs.Places.{run_at, seen_at};
ghost use Rattle.lst_legal_runs.specs.Merges.{AreMerges, AreBeginners, TellsMerge};

use crate::marks::Marks;
use crate::outlines::is_write;
use crate::places::Place;
use lst_layout::Limits;
use lst_model::{OutOfMemory, Reply};
use lst_replies::Answer;
use std::alloc::Global;

/// By range and column: the number last merged; and how many merges there were.
#[derive(Drop)]
pub(crate) struct Merges {
    last: Marks,
    count: u64,
}

/// Whether a run's replies to merges are consistent.
pub fn are_merges_consistent(
    alloc: Global,
    limits: &Limits,
    places: &[Place],
) -> Result<bool, OutOfMemory>
    ensures { IfOk result (λ b. IsTrue b ↔ AtEachMerge (λ before range column reply. MergeIsAnswered limits.now (run_at places.now) before range column reply) (run_at places.now)) }
{
    let accepted = accepted_count(places);
    let beginners = beginners(alloc, places)?;
    let mut merges = Merges::new(alloc);
    for place in places {
        if !tells_merge(limits, accepted, &beginners, &merges, place) {
            return Ok(false);
        }
        merges.pass(&place.answer)?;
    }
    Ok(true)
}

/// How many writes were accepted.
pub(crate) fn accepted_count(places: &[Place]) -> u64
    ensures { result ≡ count_by is_accepted (run_at places.now) }
{
    let mut count = 0;
    for place in places {
        if is_accepted(&place.answer) {
            count += 1;
        }
    }
    count
}

pub(crate) fn is_accepted(answer: &Answer) -> bool
    ensures { result ≡ is_accepted (seen answer.now) }
{
    match answer {
        Answer::Phase => false,
        Answer::Merge { .. } => false,
        Answer::Call { call, reply, .. } => is_write(call) && is_done(reply),
    }
}

pub(crate) fn is_done(reply: &Reply) -> bool
    ensures { result ≡ is_done reply.now }
{
    match reply {
        Reply::Done => true,
        _ => false,
    }
}

/// The sessions that have begun a transaction, marked.
fn beginners(alloc: Global, places: &[Place]) -> Result<Marks, OutOfMemory>
    ensures { IfOk result (λ marks. AreBeginners marks (run_at places.now)) }
{
    let mut marks = Marks::new(alloc);
    for place in places {
        if let Some(session) = beginner(&place.answer) {
            marks.set(u64::from(session), 0, 0, 1)?;
        }
    }
    Ok(marks)
}

fn beginner(answer: &Answer) -> Option<u32>
    ensures { (session : ℕ) → (is_by session (seen answer.now) && is_begun (seen answer.now).reply) ≡ names session result }
{
    match answer {
        Answer::Phase => None,
        Answer::Merge { .. } => None,
        Answer::Call { session, reply, .. } => match reply {
            Reply::Begun { .. } => Some(*session),
            _ => None,
        },
    }
}

fn tells_merge(
    limits: &Limits,
    accepted: u64,
    beginners: &Marks,
    merges: &Merges,
    place: &Place,
) -> bool
    ensures { (run before : List Answered) → accepted ≡ count_by is_accepted run → AreBeginners beginners.now run → AreMerges merges.now before → (IsTrue result ↔ TellsMerge limits.now run before (seen_at place.now)) }
{
    match place.answer {
        Answer::Phase => true,
        Answer::Call { .. } => true,
        Answer::Merge {
            range,
            column,
            reply,
        } => {
            let last = merges.last.number(u64::from(range), u64::from(column), 0);
            match reply {
                Reply::Merged { tps } => last < u64::from(*tps) && u64::from(*tps) <= accepted,
                Reply::NothingNew { tps } => u64::from(*tps) == last,
                Reply::NoFrame { session } => {
                    u64::from(limits.spare) <= merges.count
                        && 0 < beginners.number(u64::from(*session), 0, 0)
                }
                _ => true,
            }
        }
    }
}

impl Merges {
    fn new(alloc: Global) -> Merges
        ensures { AreMerges result [] }
    {
        Merges {
            last: Marks::new(alloc),
            count: 0,
        }
    }

    /// Passes a line by.
    fn pass(&mut self, answer: &Answer) -> Result<(), OutOfMemory>
        requires { self.old.count < 2 ^ 64 - 1 }
        ensures { OnOk result ((front : List Answered) → AreMerges self.old front → AreMerges self.new (front ++ seen answer.now ∷ [])) }
    {
        match answer {
            Answer::Phase => Ok(()),
            Answer::Merge {
                range,
                column,
                reply,
            } => match reply {
                Reply::Merged { tps } => {
                    self.count += 1;
                    self.last
                        .set(u64::from(*range), u64::from(*column), 0, u64::from(*tps))?;
                    Ok(())
                }
                _ => Ok(()),
            },
            Answer::Call { reply, .. } => {
                if is_merged(reply) {
                    self.count += 1;
                }
                Ok(())
            }
        }
    }
}

fn is_merged(reply: &Reply) -> bool
    ensures { result ≡ is_merged reply.now }
{
    match reply {
        Reply::Merged { .. } => true,
        _ => false,
    }
}
