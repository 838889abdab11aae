//! Time bounds: what a session is told of times is at least its floor, and no later than the last commit.
ghost use Rattle.std.specs.Prelude.{◌≡◌, ◌↔◌, ℕ, ◌<◌, ◌-◌, ◌^◌, max, List, [], ◌∷◌, ◌++◌, length, IsTrue, IfOk, OnOk};
ghost use Rattle.lst_model.specs.declared.commits.Commit.{Commit as CommitTold};
ghost use Rattle.lst_replies.specs.Runs.{Answered, AtEachCall, commit_time};
ghost use Rattle.lst_replies.specs.Seen.{seen};
ghost use Rattle.lst_replies.specs.States.{time_told, floor_of};
ghost use Rattle.lst_replies.specs.Explained.{TimeIsBounded};
ghost use Rattle.lst_legal_runs.specs.Places.{run_at, seen_at};
ghost use Rattle.lst_legal_runs.specs.Floors.{AreFloors, TellsTime, IsTold, max_with};

use crate::marks::Marks;
use crate::places::Place;
use lst_model::{Call, Cause, Commit, OutOfMemory, Reply, Time};
use lst_replies::Answer;
use std::alloc::Global;

/// By session: the greatest time that was told to it; and the greatest time of a commit in the phases that have ended,
/// and in all.
#[derive(Drop)]
pub(crate) struct Floors {
    told: Marks,
    ended: Time,
    latest: Time,
}

/// Whether the times that a run's replies tell are in bounds, under a history.
pub fn are_times_bounded(
    alloc: Global,
    history: &[Commit],
    places: &[Place],
) -> Result<bool, OutOfMemory>
    ensures { IfOk result (λ b. IsTrue b ↔ AtEachCall (λ before session call reply. TimeIsBounded history.now (floor_of session before) call reply) (run_at places.now)) }
{
    let mut floors = Floors::new(alloc);
    for place in places {
        if !tells_time(history, &floors, place) {
            return Ok(false);
        }
        floors.pass(&place.answer)?;
    }
    Ok(true)
}

fn tells_time(history: &[Commit], floors: &Floors, place: &Place) -> bool
    ensures { (before : List Answered) → AreFloors floors.now before → (IsTrue result ↔ TellsTime history.now before (seen_at place.now)) }
{
    match place.answer {
        Answer::Phase => true,
        Answer::Merge { .. } => true,
        Answer::Call {
            session,
            call,
            reply,
        } => is_time_bounded(history, floors.floor(session), call, reply),
    }
}

fn is_time_bounded(history: &[Commit], floor: Time, call: &Call, reply: &Reply) -> bool
    ensures { IsTrue result ↔ TimeIsBounded history.now floor call.now reply.now }
{
    let last = history.len() as u64;
    match call {
        Call::Begin => is_begin_bounded(last, floor, reply),
        Call::AsOf { time } => is_as_of_bounded(last, floor, *time, reply),
        _ => is_commit_bounded(floor, reply),
    }
}

fn is_begin_bounded(last: Time, floor: Time, reply: &Reply) -> bool
    ensures { (history : List CommitTold) → last ≡ length history → (IsTrue result ↔ TimeIsBounded history floor Call.Begin reply.now) }
{
    match reply {
        Reply::Begun { time } => floor <= *time && *time <= last,
        Reply::Committed { time } => floor < *time,
        _ => true,
    }
}

fn is_as_of_bounded(last: Time, floor: Time, named: Time, reply: &Reply) -> bool
    ensures { (history : List CommitTold) → last ≡ length history → (IsTrue result ↔ TimeIsBounded history floor (Call.AsOf named) reply.now) }
{
    match reply {
        Reply::Begun { time } => *time == named && *time <= last,
        Reply::Refused { cause } => match cause {
            Cause::Future { clock } => floor <= *clock && *clock <= last && *clock < named,
            _ => true,
        },
        Reply::Committed { time } => floor < *time,
        _ => true,
    }
}

fn is_commit_bounded(floor: Time, reply: &Reply) -> bool
    ensures { (history : List CommitTold) → IsTrue result ↔ TimeIsBounded history floor Call.Commit reply.now }
{
    match reply {
        Reply::Committed { time } => floor < *time,
        _ => true,
    }
}

impl Floors {
    fn new(alloc: Global) -> Floors
        ensures { AreFloors result [] }
    {
        Floors {
            told: Marks::new(alloc),
            ended: 0,
            latest: 0,
        }
    }

    /// The least time that a session can be told next.
    fn floor(&self, session: u32) -> Time
        ensures { (front : List Answered) → AreFloors self.now front → result ≡ floor_of session front }
    {
        later(self.told.number(u64::from(session), 0, 0), self.ended)
    }

    /// Passes a line by.
    fn pass(&mut self, answer: &Answer) -> Result<(), OutOfMemory>
        ensures { OnOk result ((front : List Answered) → AreFloors self.old front → AreFloors self.new (front ++ seen answer.now ∷ [])) }
    {
        match answer {
            Answer::Phase => {
                self.ended = self.latest;
                Ok(())
            }
            Answer::Merge { reply, .. } => {
                self.latest = later_commit(self.latest, reply);
                Ok(())
            }
            Answer::Call { session, reply, .. } => {
                self.latest = later_commit(self.latest, reply);
                self.tell(*session, reply)?;
                Ok(())
            }
        }
    }

    fn tell(&mut self, session: u32, reply: &Reply) -> Result<(), OutOfMemory>
        ensures { OnOk result (IsTold self.old self.new session (time_told reply.now)) }
    {
        let Some(time) = time_told(reply) else {
            return Ok(());
        };
        let session = u64::from(session);
        let told = self.told.number(session, 0, 0);
        self.told.set(session, 0, 0, later(told, time))
    }
}

fn later(one: Time, other: Time) -> Time
    ensures { result ≡ max one other }
{
    if one < other { other } else { one }
}

/// The later one of this time and that of a commit.
fn later_commit(latest: Time, reply: &Reply) -> Time
    ensures { result ≡ max_with latest (commit_time reply.now) }
{
    match reply {
        Reply::Committed { time } => later(latest, *time),
        _ => latest,
    }
}

fn time_told(reply: &Reply) -> Option<Time>
    ensures { result ≡ time_told reply.now }
{
    match reply {
        Reply::Begun { time } => Some(*time),
        Reply::Committed { time } => Some(*time),
        Reply::Ended { time } => Some(*time),
        Reply::Refused { cause } => match cause {
            Cause::Newer { time } => Some(*time),
            Cause::Future { clock } => Some(*clock),
            _ => None,
        },
        _ => None,
    }
}
