//! The places of a run: each line with its reply, and an outline of the state in which its session comes to it.
ghost use Rattle.std.specs.Prelude.{◌≡◌, ℕ, ◌<◌, ◌-◌, ◌^◌, List, [], ◌∷◌, ◌++◌, length, slice_index_or, IfOk, IfSome};
ghost use Rattle.lst_replies.specs.Runs.{Answered, speaker_of};
ghost use Rattle.lst_replies.specs.Seen.{seen, seen_all};
ghost use Rattle.lst_legal_runs.specs.declared.outlines.StateOutline.{StateOutline as Outline};
ghost use Rattle.lst_legal_runs.specs.Places.{AreWithin, AreOutlines, outline_at, run_at, AreTraced};

use crate::outlines::StateOutline;
use lst_model::OutOfMemory;
use lst_replies::Answer;
use std::alloc::Global;

/// A line with its reply, and the outline of the state in which its session comes to it: that of a session that has
/// begun nothing where it is no call.
#[derive(Clone, Copy)]
pub struct Place<'a> {
    pub answer: Answer<'a>,
    pub outline: StateOutline,
}

/// The places of a run, in order. Its sessions are below this number.
pub fn trace<'a>(
    alloc: Global,
    sessions: u32,
    run: &[Answer<'a>],
) -> Result<Vec<Place<'a>>, OutOfMemory>
    requires { AreWithin sessions (seen_all run.now) }
    ensures run { IfOk result (λ places. run_at places.items ≡ seen_all run.now) }
    ensures outlines { IfOk result (λ places. AreTraced places.items) }
{
    let mut outlines = vec![in alloc; UNBEGUN; sessions as usize]?;
    trace_with(alloc, &mut outlines, run)
}

/// The places of a run, by the outlines of the sessions that have begun nothing yet.
fn trace_with<'a>(
    alloc: Global,
    outlines: &mut [StateOutline],
    run: &[Answer<'a>],
) -> Result<Vec<Place<'a>>, OutOfMemory>
    requires within { AreWithin (length outlines.old) (seen_all run.now) }
    requires opening { AreOutlines outlines.old [] }
    ensures run { IfOk result (λ places. run_at places.items ≡ seen_all run.now) }
    ensures outlines { IfOk result (λ places. AreTraced places.items) }
{
    let mut places = Vec::new(alloc);
    for answer in run {
        let outline = pass(outlines, answer);
        places.push(Place {
            answer: *answer,
            outline,
        })?;
    }
    Ok(places)
}

/// A session that has begun nothing.
const UNBEGUN: StateOutline = StateOutline {
    begun: 0,
    current: None,
};

/// Passes a line by: the outlines are then those behind it. What is answered is the one of its session before it.
fn pass(outlines: &mut [StateOutline], answer: &Answer) -> StateOutline
    requires within { IfSome (speaker_of (seen answer.now).line) (λ session. session < length outlines.old) }
    requires few { (session : ℕ) (none : Outline) → session < length outlines.old → (slice_index_or outlines.old session none).begun < 2 ^ 64 - 1 }
    ensures after { (front : List Answered) → AreOutlines outlines.old front → AreOutlines outlines.new (front ++ seen answer.now ∷ []) }
    ensures before { (front : List Answered) → AreOutlines outlines.old front → result ≡ outline_at front (speaker_of (seen answer.now).line) }
{
    match answer {
        Answer::Call {
            session,
            call,
            reply,
        } => {
            let place = *session as usize;
            let outline = outlines[place];
            outlines[place] = outline.after(call, reply);
            outline
        }
        Answer::Phase => UNBEGUN,
        Answer::Merge { .. } => UNBEGUN,
    }
}
