//! Committed transactions are at their serial places: their calls are answered by the table as of the time before the commit.
ghost use Rattle.std.specs.Prelude.{◌≡◌, ◌↔◌, ℕ, ◌+◌, ◌<◌, ◌-◌, ◌^◌, List, [], Option, None, is_some, length, IsTrue, IfSome, IfOk};
ghost use Rattle.lst_model.specs.Tables.{row_of};
ghost use Rattle.lst_model.specs.Soundness.{IsSound};
ghost use Rattle.lst_replies.specs.declared.states.SessionState.{SessionState};
ghost use Rattle.lst_replies.specs.Runs.{Answered, AtEachCall, speaker_of, write_of};
ghost use Rattle.lst_replies.specs.States.{state_of};
ghost use Rattle.lst_legal_runs.specs.Firsts.{AreFirstNumbers};
ghost use Rattle.lst_legal_runs.specs.Places.{AreTraced, AreWithin, IfCall, outline_at, run_at, seen_at};
ghost use Rattle.lst_snapshots.specs.Sights.{seen};
ghost use Rattle.lst_legal.specs.Sights.{IsSightOf, AreSights};
ghost use Rattle.lst_serial_laws.specs.Answers.{TellsKey, IsAnsweredBy};
ghost use Rattle.lst_serial_laws.specs.Legal.{IsAtSerialPlace};
ghost use Rattle.lst_legal.specs.Serials.{time_before, from_place, IsSeenAt, TellsPlace};

use crate::reads::tells_sight;
use crate::sights::{no_sights, pass};
use lst_legal_runs::{Marks, Place, first_numbers};
use lst_model::{Call, Cause, Key, OutOfMemory, Reply, Time};
use lst_replies::Answer;
use lst_snapshots::{Sight, Snapshots, Swept};
use std::alloc::Global;

/// Whether the calls of a run's committed transactions are answered at their serial places, under a sound history. The run's
/// sessions are below this number.
pub fn are_commits_in_place(
    alloc: Global,
    sessions: u32,
    snapshots: &Swept,
    places: &[Place],
) -> Result<bool, OutOfMemory>
    requires within { AreWithin sessions (run_at places.now) }
    requires traced { AreTraced places.now }
    requires sound { IsSound snapshots.now }
    ensures { IfOk result (λ b. IsTrue b ↔ AtEachCall (λ before session call reply. IsAtSerialPlace snapshots.now session (state_of session before).current call reply) (run_at places.now)) }
{
    let firsts = first_numbers(alloc, snapshots.commits())?;
    let mut sights = no_sights(alloc, sessions)?;
    are_placed_with(alloc, snapshots, &firsts, &mut sights, places)
}

fn are_placed_with(
    alloc: Global,
    snapshots: &Swept,
    firsts: &Marks,
    sights: &mut [Option<Sight>],
    places: &[Place],
) -> Result<bool, OutOfMemory>
    requires within { AreWithin (length sights.old) (run_at places.now) }
    requires traced { AreTraced places.now }
    requires sound { IsSound snapshots.now }
    requires named { AreFirstNumbers firsts.now snapshots.now }
    requires opening { AreSights snapshots.now (from_place firsts.now) sights.old [] }
    ensures { IfOk result (λ b. IsTrue b ↔ AtEachCall (λ before session call reply. IsAtSerialPlace snapshots.now session (state_of session before).current call reply) (run_at places.now)) }
{
    for place in places {
        if !tells_place(snapshots, sights, place) {
            return Ok(false);
        }
        let opening = opening_time(firsts, place);
        pass(alloc, snapshots, sights, opening, &place.answer)?;
    }
    Ok(true)
}

/// The time before the commit of the transaction that a line begins.
fn opening_time(firsts: &Marks, place: &Place) -> Option<Time>
    requires { place.now.outline.begun < 2 ^ 64 - 1 }
    ensures { IfCall (λ session call reply. result ≡ from_place firsts.now session (place.now.outline.begun + 1) 0) (seen_at place.now).line (seen_at place.now).reply }
{
    match place.answer {
        Answer::Call { session, .. } => {
            time_before(firsts.number(u64::from(session), place.outline.begun + 1, 0))
        }
        _ => None,
    }
}

/// The time before a commit's time, or none for 0, which is no commit's.
fn time_before(time: Time) -> Option<Time>
    ensures { result ≡ time_before time }
{
    if time == 0 { None } else { Some(time - 1) }
}

fn tells_place(snapshots: &Swept, sights: &[Option<Sight>], place: &Place) -> bool
    requires { IfSome (speaker_of (seen_at place.now).line) (λ session. session < length sights.now) }
    ensures { (at : ℕ → ℕ → ℕ → Option ℕ) (before : List Answered) → AreSights snapshots.now at sights.now before → place.now.outline ≡ outline_at before (speaker_of (seen_at place.now).line) → (IsTrue result ↔ TellsPlace snapshots.now at before (seen_at place.now)) }
{
    match place.answer {
        Answer::Phase => true,
        Answer::Merge { .. } => true,
        Answer::Call {
            session,
            call,
            reply,
        } => is_in_place(
            snapshots,
            &sights[session as usize],
            place.outline.current.is_some(),
            call,
            reply,
        ),
    }
}

/// Whether a call is answered as it is seen, where a transaction is open and is looked at.
fn is_in_place(
    snapshots: &Swept,
    sight: &Option<Sight>,
    is_open: bool,
    call: &Call,
    reply: &Reply,
) -> bool
    ensures { (at : ℕ → ℕ → Option ℕ) (state : SessionState) → IsSightOf snapshots.now at sight.now state → is_open ≡ is_some state.current → (IsTrue result ↔ IsSeenAt snapshots.now at state.current call.now reply.now) }
{
    if !is_open {
        return true;
    }
    let Some(sight) = sight else {
        return true;
    };
    is_answered_by(snapshots, sight, call, reply)
}

/// Whether a reply tells what its call has read as it is seen.
fn is_answered_by(snapshots: &Swept, sight: &Sight, call: &Call, reply: &Reply) -> bool
    ensures { IsTrue result ↔ IsAnsweredBy (seen snapshots.now sight.now) call.now reply.now }
{
    tells_sight(snapshots, sight, call, reply)
        && tells_written(snapshots.snapshots(), sight, call, reply)
}

/// Whether a refused write's key is there, or isn't, as the reply says.
fn tells_written(snapshots: &Snapshots, sight: &Sight, call: &Call, reply: &Reply) -> bool
    ensures { IsTrue result ↔ IfSome (write_of call.now) (λ write. TellsKey (row_of (seen snapshots.now sight.now) write.key) reply.now) }
{
    match call {
        Call::Insert { key, .. } | Call::Update { key, .. } | Call::Delete { key } => {
            tells_key(snapshots, sight, *key, reply)
        }
        _ => true,
    }
}

fn tells_key(snapshots: &Snapshots, sight: &Sight, key: Key, reply: &Reply) -> bool
    ensures { IsTrue result ↔ TellsKey (row_of (seen snapshots.now sight.now) key) reply.now }
{
    match reply {
        Reply::Refused { cause } => match cause {
            Cause::Exists => sight.row(snapshots, key).is_some(),
            Cause::Missing => sight.row(snapshots, key).is_none(),
            _ => true,
        },
        _ => true,
    }
}
