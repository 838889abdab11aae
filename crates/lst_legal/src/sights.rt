//! Reads answer their snapshot, and write replies fit it.
ghost use Rattle.std.specs.Prelude.{◌≡◌, ◌↔◌, ℕ, ◌<◌, List, [], ◌∷◌, ◌++◌, Option, Some, None, length, replicate, slice_index_or, IsTrue, IfSome, IfOk, OnOk};
ghost use Rattle.lst_model.specs.declared.commits.Commit.{Commit};
ghost use Rattle.lst_replies.specs.declared.states.SessionState.{SessionState};
ghost use Rattle.lst_replies.specs.declared.states.Transaction.{Transaction};
ghost use Rattle.lst_replies.specs.Runs.{Answered, AtEachCall, speaker_of, write_of};
ghost use Rattle.lst_replies.specs.States.{state_of, after_call, sight_of};
ghost use Rattle.lst_replies.specs.Explained.{ReadIsAnswered, WriteIsAnswered};
ghost use Rattle.lst_replies.specs.Legal.{AtEachWrite};
ghost use Rattle.lst_legal_runs.specs.Outlines.{outline_of, outline_of_open};
ghost use Rattle.lst_legal_runs.specs.Places.{AreTraced, AreWithin, IfCall, outline_at, run_at, seen_at};
ghost use Rattle.lst_replies.specs.Seen.{seen as seen_answer};
ghost use Rattle.lst_snapshots.specs.Sights.{seen};
ghost use Rattle.lst_legal.specs.Sights.{ShowsAt, from_begin, IsSightOf, AreSights, begun_time, Opens, TellsSeen};

use crate::reads::{is_not_indexed_reply, tells_sight};
use crate::writes::is_write_answered;
use lst_layout::Limits;
use lst_legal_runs::{OpenOutline, Place, write_of};
use lst_machine::lacks_index;
use lst_model::{Call, OutOfMemory, Reply, Time};
use lst_replies::Answer;
use lst_snapshots::{Sight, Swept};
use std::alloc::Global;

/// Whether the replies of a run tell what its transactions see, under a history, and those to writes fit it. The run's
/// sessions are below this number.
pub fn are_sights_told(
    alloc: Global,
    limits: &Limits,
    sessions: u32,
    snapshots: &Swept,
    places: &[Place],
) -> Result<bool, OutOfMemory>
    requires within { AreWithin sessions (run_at places.now) }
    requires traced { AreTraced places.now }
    ensures { IfOk result (λ b. IsTrue b ↔ (AtEachCall (λ before session call reply. ReadIsAnswered limits.now snapshots.now (state_of session before).current call reply) (run_at places.now) × AtEachWrite (λ before session transaction write reply. WriteIsAnswered snapshots.now transaction write reply) (run_at places.now))) }
{
    let mut sights = no_sights(alloc, sessions)?;
    are_told_with(alloc, limits, snapshots, &mut sights, places)
}

fn are_told_with(
    alloc: Global,
    limits: &Limits,
    snapshots: &Swept,
    sights: &mut [Option<Sight>],
    places: &[Place],
) -> Result<bool, OutOfMemory>
    requires within { AreWithin (length sights.old) (run_at places.now) }
    requires traced { AreTraced places.now }
    requires opening { AreSights snapshots.now (λ session. from_begin) sights.old [] }
    ensures { IfOk result (λ b. IsTrue b ↔ (AtEachCall (λ before session call reply. ReadIsAnswered limits.now snapshots.now (state_of session before).current call reply) (run_at places.now) × AtEachWrite (λ before session transaction write reply. WriteIsAnswered snapshots.now transaction write reply) (run_at places.now))) }
{
    for place in places {
        if !tells_seen(limits, snapshots, sights, place) {
            return Ok(false);
        }
        let opening = begun_time(&place.answer);
        pass(alloc, snapshots, sights, opening, &place.answer)?;
    }
    Ok(true)
}

/// The begin that the reply to a call tells.
fn begun_time(answer: &Answer) -> Option<Time>
    ensures { IfCall (λ session call reply. result ≡ begun_time reply) (seen_answer answer.now).line (seen_answer answer.now).reply }
{
    match answer {
        Answer::Call {
            reply: Reply::Begun { time },
            ..
        } => Some(*time),
        _ => None,
    }
}

/// By session: nothing is looked at yet.
pub(crate) fn no_sights(alloc: Global, sessions: u32) -> Result<Vec<Option<Sight>>, OutOfMemory>
    ensures { IfOk result (λ sights. sights.items ≡ replicate sessions None) }
{
    let mut sights = Vec::new(alloc);
    for _ in 0..sessions {
        sights.push(None)?;
    }
    Ok(sights)
}

fn tells_seen(limits: &Limits, snapshots: &Swept, sights: &[Option<Sight>], place: &Place) -> bool
    requires { IfSome (speaker_of (seen_at place.now).line) (λ session. session < length sights.now) }
    ensures { (before : List Answered) → AreSights snapshots.now (λ session. from_begin) sights.now before → place.now.outline ≡ outline_at before (speaker_of (seen_at place.now).line) → (IsTrue result ↔ TellsSeen limits.now snapshots.now before (seen_at place.now)) }
{
    match place.answer {
        Answer::Phase => true,
        Answer::Merge { .. } => true,
        Answer::Call {
            session,
            call,
            reply,
        } => tells_call(
            limits,
            snapshots,
            &sights[session as usize],
            &place.outline.current,
            call,
            reply,
        ),
    }
}

fn tells_call(
    limits: &Limits,
    snapshots: &Swept,
    sight: &Option<Sight>,
    current: &Option<OpenOutline>,
    call: &Call,
    reply: &Reply,
) -> bool
    ensures { (state : SessionState) → IsSightOf snapshots.now from_begin sight.now state → current.now ≡ (outline_of state).current → (IsTrue result ↔ (ReadIsAnswered limits.now snapshots.now state.current call.now reply.now × IfSome state.current (λ transaction. IfSome (write_of call.now) (λ write. WriteIsAnswered snapshots.now transaction write reply.now)))) }
{
    let Some(current) = current else {
        return !is_not_indexed_reply(reply);
    };
    let Some(sight) = sight else {
        return false;
    };
    is_open_answered(limits, snapshots, sight, current.begin, call, reply)
}

/// Whether a reply to a call in an open transaction tells what it sees.
fn is_open_answered(
    limits: &Limits,
    snapshots: &Swept,
    sight: &Sight,
    begin: Time,
    call: &Call,
    reply: &Reply,
) -> bool
    ensures { (transaction : Transaction) → seen snapshots.now sight.now ≡ sight_of snapshots.now transaction → begin ≡ transaction.begin → (IsTrue result ↔ (ReadIsAnswered limits.now snapshots.now (Some transaction) call.now reply.now × IfSome (write_of call.now) (λ write. WriteIsAnswered snapshots.now transaction write reply.now))) }
{
    if is_not_indexed_reply(reply) != lacks_index(limits, call) {
        return false;
    }
    if !tells_sight(snapshots, sight, call, reply) {
        return false;
    }
    is_write_answered(snapshots.snapshots(), sight, begin, call, reply)
}

/// Passes a line by. Where it begins a transaction, that is looked at as of this time, or not at all.
pub(crate) fn pass(
    alloc: Global,
    snapshots: &Swept,
    sights: &mut [Option<Sight>],
    opening: Option<Time>,
    answer: &Answer,
) -> Result<(), OutOfMemory>
    requires { IfSome (speaker_of (seen_answer answer.now).line) (λ session. session < length sights.old) }
    ensures { OnOk result ((at : ℕ → ℕ → ℕ → Option ℕ) (front : List Answered) → IfCall (λ session call reply. Opens (at session) (state_of session front) reply opening) (seen_answer answer.now).line (seen_answer answer.now).reply → AreSights snapshots.now at sights.old front → AreSights snapshots.now at sights.new (front ++ seen_answer answer.now ∷ [])) }
{
    match answer {
        Answer::Phase => Ok(()),
        Answer::Merge { .. } => Ok(()),
        Answer::Call {
            session,
            call,
            reply,
        } => {
            pass_call(
                alloc,
                snapshots,
                &mut sights[*session as usize],
                opening,
                call,
                reply,
            )?;
            Ok(())
        }
    }
}

/// What a session's open transaction sees behind a call.
fn pass_call(
    alloc: Global,
    snapshots: &Swept,
    sight: &mut Option<Sight>,
    opening: Option<Time>,
    call: &Call,
    reply: &Reply,
) -> Result<(), OutOfMemory>
    ensures { OnOk result ((at : ℕ → ℕ → Option ℕ) (state : SessionState) → Opens at state reply.now opening → IsSightOf snapshots.now at sight.old state → IsSightOf snapshots.now at sight.new (after_call call.now reply.now state)) }
{
    match reply {
        Reply::Begun { .. } => {
            *sight = opened(alloc, opening);
            Ok(())
        }
        Reply::Done => {
            let Some(write) = write_of(call) else {
                return Ok(());
            };
            let Some(sight) = sight else {
                return Ok(());
            };
            sight.write(snapshots.snapshots(), &write)?;
            Ok(())
        }
        _ => Ok(()),
    }
}

/// What a transaction without writes sees as of a time.
fn opened(alloc: Global, time: Option<Time>) -> Option<Sight>
    ensures { (history : List Commit) → ShowsAt history result [] time }
{
    match time {
        Some(time) => Some(Sight::new(alloc, time)),
        None => None,
    }
}
