//! State refusals are exact: Idle, Active, ReadOnly and Spent are answered exactly where the session's state refuses the
//! call for this cause, and a transaction with writes ends with a commit time, one without with its begin. At the serializable level a
//! commit of writes may be told stale instead.
ghost use Rattle.std.specs.Prelude.{◌≡◌, ◌↔◌, IsTrue, List, Option, option_map};
ghost use Rattle.lst_replies.specs.declared.states.SessionState.{SessionState};
ghost use Rattle.lst_replies.specs.declared.states.Transaction.{Transaction};
ghost use Rattle.lst_replies.specs.Runs.{Answered, AtEachCall, speaker_of};
ghost use Rattle.lst_replies.specs.States.{state_of};
ghost use Rattle.lst_replies.specs.Explained.{state_cause, begin_cause, open_cause, cause_by_state, EndsBy, EndIsExact};
ghost use Rattle.lst_replies.specs.Levels.{EndsOrStaysBy, EndIsAllowed};
ghost use Rattle.lst_legal_runs.specs.Outlines.{outline_of, outline_of_open};
ghost use Rattle.lst_legal_runs.specs.Places.{AreTraced, outline_at, run_at, seen_at};
ghost use Rattle.lst_legal_runs.specs.Rules.{StateIsToldAt, CommitsOrStays, TellsState};

use crate::levels::Level;
use crate::outlines::{OpenOutline, StateOutline, is_write};
use crate::places::Place;
use lst_layout::Limits;
use lst_model::{Call, Cause, Reply};
use lst_replies::Answer;

/// Whether the replies of a run tell the refusals by the sessions' states, and the ends, exactly as the level has them.
pub fn are_refusals_exact(level: Level, limits: &Limits, places: &[Place]) -> bool
    requires { AreTraced places.now }
    ensures { IsTrue result ↔ AtEachCall (λ before session call reply. StateIsToldAt level limits.now (state_of session before) call reply) (run_at places.now) }
{
    for place in places {
        if !tells_state(level, limits, place) {
            return false;
        }
    }
    true
}

fn tells_state(level: Level, limits: &Limits, place: &Place) -> bool
    ensures { (before : List Answered) → place.now.outline ≡ outline_at before (speaker_of (seen_at place.now).line) → (IsTrue result ↔ TellsState level limits.now before (seen_at place.now)) }
{
    match place.answer {
        Answer::Phase => true,
        Answer::Merge { .. } => true,
        Answer::Call { call, reply, .. } => {
            is_state_told(level, limits, &place.outline, call, reply)
        }
    }
}

fn is_state_told(
    level: Level,
    limits: &Limits,
    outline: &StateOutline,
    call: &Call,
    reply: &Reply,
) -> bool
    ensures { (state : SessionState) → outline.now ≡ outline_of state → (IsTrue result ↔ StateIsToldAt level limits.now state call.now reply.now) }
{
    if !is_refusal_exact(limits, outline, call, reply) {
        return false;
    }
    match level {
        Level::Snapshot => is_end_exact(&outline.current, call, reply),
        Level::Serializable => is_end_allowed(&outline.current, call, reply),
    }
}

fn is_refusal_exact(limits: &Limits, outline: &StateOutline, call: &Call, reply: &Reply) -> bool
    ensures { (state : SessionState) → outline.now ≡ outline_of state → (IsTrue result ↔ (state_cause reply.now ≡ cause_by_state limits.now state call.now)) }
{
    is_cause_told(cause_by_state(limits, outline, call), reply)
}

fn is_cause_told(cause: Option<Cause>, reply: &Reply) -> bool
    ensures { IsTrue result ↔ (state_cause reply.now ≡ cause) }
{
    match reply {
        Reply::Refused { cause: told } => match told {
            Cause::Idle => matches!(cause, Some(Cause::Idle)),
            Cause::Active => matches!(cause, Some(Cause::Active)),
            Cause::ReadOnly => matches!(cause, Some(Cause::ReadOnly)),
            Cause::Spent => matches!(cause, Some(Cause::Spent)),
            _ => cause.is_none(),
        },
        _ => cause.is_none(),
    }
}

/// The cause for which the session's state alone refuses a call.
fn cause_by_state(limits: &Limits, outline: &StateOutline, call: &Call) -> Option<Cause>
    ensures { (state : SessionState) → outline.now ≡ outline_of state → result ≡ cause_by_state limits.now state call.now }
{
    match call {
        Call::Begin => begin_cause(limits, outline),
        Call::AsOf { .. } => begin_cause(limits, outline),
        _ => open_cause(is_write(call), &outline.current),
    }
}

fn begin_cause(limits: &Limits, outline: &StateOutline) -> Option<Cause>
    ensures { (state : SessionState) → outline.now ≡ outline_of state → result ≡ begin_cause limits.now state }
{
    if outline.current.is_some() {
        return Some(Cause::Active);
    }
    if u64::from(limits.txns) <= outline.begun {
        return Some(Cause::Spent);
    }
    None
}

fn open_cause(writes: bool, current: &Option<OpenOutline>) -> Option<Cause>
    ensures { (transaction : Option Transaction) → current.now ≡ option_map outline_of_open transaction → result ≡ open_cause writes transaction }
{
    let Some(current) = current else {
        return Some(Cause::Idle);
    };
    if writes && current.read_only {
        return Some(Cause::ReadOnly);
    }
    None
}

fn is_end_exact(current: &Option<OpenOutline>, call: &Call, reply: &Reply) -> bool
    ensures { (transaction : Option Transaction) → current.now ≡ option_map outline_of_open transaction → (IsTrue result ↔ EndIsExact transaction call.now reply.now) }
{
    let Some(current) = current else {
        return true;
    };
    match call {
        Call::Commit => ends_transaction(current, reply),
        _ => true,
    }
}

/// Whether a reply is what an end of this transaction is answered.
fn ends_transaction(current: &OpenOutline, reply: &Reply) -> bool
    ensures { (transaction : Transaction) → current.now ≡ outline_of_open transaction → (IsTrue result ↔ EndsBy transaction.begin transaction.writes reply.now) }
{
    if current.has_writes {
        return matches!(reply, Reply::Committed { .. });
    }
    match reply {
        Reply::Ended { time } => *time == current.begin,
        _ => false,
    }
}

fn is_end_allowed(current: &Option<OpenOutline>, call: &Call, reply: &Reply) -> bool
    ensures { (transaction : Option Transaction) → current.now ≡ option_map outline_of_open transaction → (IsTrue result ↔ EndIsAllowed transaction call.now reply.now) }
{
    let Some(current) = current else {
        return true;
    };
    match call {
        Call::Commit => ends_or_stays(current, reply),
        _ => true,
    }
}

/// Whether a reply is what an end of this transaction is answered, or says that it is stale and stays open.
fn ends_or_stays(current: &OpenOutline, reply: &Reply) -> bool
    ensures { (transaction : Transaction) → current.now ≡ outline_of_open transaction → (IsTrue result ↔ EndsOrStaysBy transaction.begin transaction.writes reply.now) }
{
    if current.has_writes {
        return commits_or_stays(reply);
    }
    match reply {
        Reply::Ended { time } => *time == current.begin,
        _ => false,
    }
}

fn commits_or_stays(reply: &Reply) -> bool
    ensures { IsTrue result ↔ CommitsOrStays reply.now }
{
    match reply {
        Reply::Committed { .. } => true,
        Reply::Refused { cause } => matches!(cause, Cause::Stale { .. }),
        _ => false,
    }
}
