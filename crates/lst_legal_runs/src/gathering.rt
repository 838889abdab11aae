//! The history that the replies of a run tell.
ghost use Rattle.std.specs.Prelude.{◌≡◌, ◌↔◌, ℕ, ◌<◌, List, [], ◌∷◌, ◌++◌, length, map, slice_index_or, IsTrue, IfOk, IfSome, IfNone, IsOk, IsSomeAnd, Some, None, All, option_map, replicate, slice_set, ◌+◌, ◌-◌, MatchBool};
ghost use Rattle.lst_model.specs.declared.commits.Commit.{Commit as CommitTold};
ghost use Rattle.lst_model.specs.Histories.{AreByKey};
ghost use Rattle.lst_replies.specs.Runs.{Answered, speaker_of, write_of, commit_time};
ghost use Rattle.lst_legal_runs.specs.Places.{AreTraced, AreWithin, run_at, seen_at};
ghost use Rattle.lst_legal_runs.specs.Gathering.{IsTold, CommitsNothing, ArePending, AreGathered, AreFilled, CanEnter, pending_after, IsNext, IsStep};
ghost use Rattle.lst_replies.specs.declared.reports.Stamp.{Stamp as StampTold};

use crate::outlines::OpenOutline;
use crate::places::Place;
use lst_model::{Act, Call, Commit, History, OutOfMemory, Reply, Time, Write, Writes};
use lst_replies::{Answer, Stamp};
use std::alloc::Global;
use std::mem;

/// The history that matches the committed replies of a run, but for its soundness, or none where no history does: the
/// stamps name its commits, and each is told to its session exactly once, as its session's state has it. There is no
/// other such history. The run's sessions are below this number.
pub fn gather(
    alloc: Global,
    sessions: u32,
    stamps: &[Stamp],
    places: &[Place],
) -> Result<Option<History>, OutOfMemory>
    requires within { AreWithin sessions (run_at places.now) }
    requires calls { All CommitsNothing (run_at places.now) }
    requires traced { AreTraced places.now }
    ensures told { IfOk result (λ found. IfSome found (λ history. IsTold (run_at places.now) stamps.now history)) }
    ensures ordered { IfOk result (λ found. IfSome found (λ history. AreByKey history)) }
    ensures only { IfOk result (λ found. (history : List CommitTold) → IsTold (run_at places.now) stamps.now history → found ≡ Some history) }
{
    let Some(slots) = fill(alloc, sessions, stamps, places)? else {
        return Ok(None);
    };
    let Some(commits) = filled(alloc, slots)? else {
        return Ok(None);
    };
    Ok(Some(History::from_items(commits)))
}

/// The items, where none is missing.
fn filled(alloc: Global, slots: Vec<Option<Commit>>) -> Result<Option<Vec<Commit>>, OutOfMemory>
    ensures { IfOk result (λ commits. AreFilled slots.items (option_map (λ commits. commits.items) commits)) }
{
    let mut commits = Vec::new(alloc);
    for slot in slots {
        match slot {
            Some(commit) => commits.push(commit)?,
            None => return Ok(None),
        }
    }
    Ok(Some(commits))
}

/// The commits that a run tells, by their times, or none where some of them stands in no history.
fn fill(
    alloc: Global,
    sessions: u32,
    stamps: &[Stamp],
    places: &[Place],
) -> Result<Option<Vec<Option<Commit>>>, OutOfMemory>
    requires within { AreWithin sessions (run_at places.now) }
    requires calls { All CommitsNothing (run_at places.now) }
    requires traced { AreTraced places.now }
    ensures some { IfOk result (λ found. IfSome found (λ slots. AreGathered (run_at places.now) stamps.now slots.items (run_at places.now))) }
    ensures none { IfOk result (λ found. IfNone found ((history : List CommitTold) → ¬ (IsTold (run_at places.now) stamps.now history))) }
{
    let mut pending = no_writes(alloc, sessions)?;
    let mut slots = no_commits(alloc, stamps.len())?;
    if fill_all(alloc, &mut pending, &mut slots, stamps, places)? {
        return Ok(Some(slots));
    }
    Ok(None)
}

/// Fills in the commits that a run tells, and says whether all of them can stand in a history.
fn fill_all(
    alloc: Global,
    pending: &mut [Writes],
    slots: &mut [Option<Commit>],
    stamps: &[Stamp],
    places: &[Place],
) -> Result<bool, OutOfMemory>
    requires within { AreWithin (length pending.old) (run_at places.now) }
    requires calls { All CommitsNothing (run_at places.now) }
    requires traced { AreTraced places.now }
    requires opening { ArePending pending.old [] }
    requires empty { AreGathered (run_at places.now) stamps.now slots.old [] }
    ensures { IfOk result (λ b. MatchBool b (AreGathered (run_at places.now) stamps.now slots.new (run_at places.now)) ((history : List CommitTold) → ¬ (IsTold (run_at places.now) stamps.now history))) }
{
    for place in places {
        if !step(alloc, pending, slots, stamps, place)? {
            return Ok(false);
        }
    }
    Ok(true)
}

/// No writes yet, for each session.
fn no_writes(alloc: Global, sessions: u32) -> Result<Vec<Writes>, OutOfMemory>
    ensures { IfOk result (λ pending. pending.items ≡ replicate sessions []) }
{
    let mut pending = Vec::new(alloc);
    for _ in 0..sessions {
        pending.push(Writes::new(alloc))?;
    }
    Ok(pending)
}

/// No commits yet, at so many times.
fn no_commits(alloc: Global, count: usize) -> Result<Vec<Option<Commit>>, OutOfMemory>
    ensures { IfOk result (λ slots. slots.items ≡ replicate count None) }
{
    let mut slots = Vec::new(alloc);
    for _ in 0..count {
        slots.push(None)?;
    }
    Ok(slots)
}

/// Passes a line by: enters its commit, if it tells one, or says that no history has it.
fn step(
    alloc: Global,
    pending: &mut [Writes],
    slots: &mut [Option<Commit>],
    stamps: &[Stamp],
    place: &Place,
) -> Result<bool, OutOfMemory>
    requires within { IfSome (speaker_of (seen_at place.now).line) (λ session. session < length pending.old) }
    requires size { length slots.old ≡ length stamps.now }
    ensures { IfOk result (λ b. (run front rest : List Answered) → IsNext run stamps.now pending.old slots.old front place.now rest → IsStep b run stamps.now pending.new slots.new (front ++ seen_at place.now ∷ [])) }
{
    match place.answer {
        Answer::Phase => Ok(true),
        Answer::Merge { .. } => Ok(true),
        Answer::Call {
            session,
            call,
            reply,
        } => {
            match pend(alloc, &mut pending[session as usize], call, reply)? {
                None => Ok(true),
                Some((time, writes)) => {
                    let writes = writes.by_key()?;
                    Ok(enter(slots, stamps, session, time, &place.outline.current, writes))
                }
            }
        }
    }
}

/// Adds a call's write to those of the open transaction; what is answered is the time and the writes of a commit.
fn pend(
    alloc: Global,
    pending: &mut Writes,
    call: &Call,
    reply: &Reply,
) -> Result<Option<(Time, Writes)>, OutOfMemory>
    ensures pending { IsOk result → pending.new ≡ pending_after call.now reply.now pending.old }
    ensures ended { IfOk result (λ ended. ended ≡ option_map (λ time. (time, pending.old)) (commit_time reply.now)) }
{
    match reply {
        Reply::Begun { .. } => {
            *pending = Writes::new(alloc);
            Ok(None)
        }
        Reply::Done => {
            if let Some(write) = write_of(call) {
                pending.push(write)?;
            }
            Ok(None)
        }
        Reply::Committed { time } => {
            let writes = mem::replace(pending, Writes::new(alloc));
            Ok(Some((*time, writes)))
        }
        _ => Ok(None),
    }
}

/// The write that a call asks for, or none. It takes no memory.
pub fn write_of(call: &Call) -> Option<Write>
    ensures { result ≡ write_of call.now }
{
    match call {
        Call::Insert { key, row } => Some(Write {
            key: *key,
            act: Act::Put(row.copied()),
        }),
        Call::Update { key, patch } => Some(Write {
            key: *key,
            act: Act::Set(patch.copied()),
        }),
        Call::Delete { key } => Some(Write {
            key: *key,
            act: Act::Del,
        }),
        _ => None,
    }
}

/// Enters the commit of a session's open transaction at a time, and says whether it could.
fn enter(
    slots: &mut [Option<Commit>],
    stamps: &[Stamp],
    session: u32,
    time: Time,
    current: &Option<OpenOutline>,
    writes: Writes,
) -> bool
    requires { length slots.old ≡ length stamps.now }
    ensures can { IsTrue result ↔ IsSomeAnd current.now (λ current. CanEnter slots.old stamps.now time (record { session = session; number = current.number; begin = current.begin })) }
    ensures entered { IsTrue result → IfSome current.now (λ current. slots.new ≡ slice_set slots.old (time - 1) (Some (record { session = session; number = current.number; begin = current.begin; writes = writes }))) }
{
    let Some(current) = current else {
        return false;
    };
    let Some(place) = free_place(slots, stamps, session, time, current) else {
        return false;
    };
    slots[place] = Some(Commit {
        session,
        number: stamps[place].number,
        begin: current.begin,
        writes,
    });
    true
}

/// The place of a time, where it is free and has the name of this transaction.
fn free_place(
    slots: &[Option<Commit>],
    stamps: &[Stamp],
    session: u32,
    time: Time,
    current: &OpenOutline,
) -> Option<usize>
    requires { length slots.now ≡ length stamps.now }
    ensures some { IfSome result (λ place. (time ≡ place + 1) × (place < length stamps.now) × (slice_index_or slots.now place None ≡ None) × ((none : StampTold) → slice_index_or stamps.now place none ≡ record { session = session; number = current.now.number; begin = current.now.begin })) }
    ensures none { IfNone result (¬ (CanEnter slots.now stamps.now time (record { session = session; number = current.now.number; begin = current.now.begin }))) }
{
    if time == 0 || stamps.len() as u64 <= time - 1 {
        return None;
    }
    let place = (time - 1) as usize;
    let stamp = &stamps[place];
    if stamp.session != session
        || u64::from(stamp.number) != current.number
        || stamp.begin != current.begin
        || slots[place].is_some()
    {
        return None;
    }
    Some(place)
}
