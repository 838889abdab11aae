//! Latch and open-transaction conflicts are explained: another session may have held the latch somewhere in the run, or its
//! transaction has an accepted write on the key and has not committed by the begin.
ghost use Rattle.std.specs.Prelude.{◌≡◌, ◌↔◌, ℕ, ◌<◌, ◌+◌, ◌-◌, ◌^◌, ◌&&◌, not, List, [], ◌∷◌, ◌++◌, Option, length, option_map, IfSome, IsTrue, IfOk, OnOk};
ghost use Rattle.std.specs.List.{count_by, list_any};
ghost use Rattle.lst_model.specs.declared.acts.Write.{Write as WriteTold};
ghost use Rattle.lst_model.specs.declared.commits.Commit.{Commit as CommitTold};
ghost use Rattle.lst_replies.specs.declared.states.Transaction.{Transaction};
ghost use Rattle.lst_replies.specs.Runs.{Answered, speaker_of, key_of, write_of, is_by, may_take_latch, takes_no_latch};
ghost use Rattle.lst_replies.specs.Seen.{seen};
ghost use Rattle.lst_replies.specs.Explained.{ConflictIsExplained, IsInTheWay};
ghost use Rattle.lst_replies.specs.Legal.{AtEachWrite};
ghost use Rattle.lst_legal_runs.specs.Outlines.{outline_of_open};
ghost use Rattle.lst_legal_runs.specs.Places.{AreTraced, outline_at, run_at, seen_at};
ghost use Rattle.lst_legal_runs.specs.Conflicts.{AreTakers, takes_latch, numbered_write, IsAcceptedAt, AreAccepted, IsConflictsOf, TellsConflict};

use crate::firsts::first_numbers;
use crate::fullness::key_written;
use crate::marks::Marks;
use crate::merges::is_done;
use crate::outlines::OpenOutline;
use crate::places::Place;
use lst_model::{Cause, Commit, Key, OutOfMemory, Reply, Time};
use lst_replies::Answer;
use std::alloc::Global;

/// By key: a session that may have taken its latch, plus one, and whether another has; by session, number and key:
/// whether there is an accepted write; by session and number: the time of the commit.
#[derive(Drop)]
pub(crate) struct Conflicts {
    takers: Marks,
    accepted: Marks,
    firsts: Marks,
}

/// Whether a run's replies of conflicts are explained, under a history.
pub fn are_conflicts_explained(
    alloc: Global,
    history: &[Commit],
    places: &[Place],
) -> Result<bool, OutOfMemory>
    requires { AreTraced places.now }
    ensures { IfOk result (λ b. IsTrue b ↔ AtEachWrite (λ before session transaction write reply. ConflictIsExplained history.now (run_at places.now) session transaction write reply) (run_at places.now)) }
{
    let conflicts = conflicts_of(alloc, history, places)?;
    for place in places {
        if !tells_conflict(&conflicts, place) {
            return Ok(false);
        }
    }
    Ok(true)
}

fn conflicts_of(
    alloc: Global,
    history: &[Commit],
    places: &[Place],
) -> Result<Conflicts, OutOfMemory>
    requires { AreTraced places.now }
    ensures { IfOk result (λ conflicts. IsConflictsOf conflicts history.now (run_at places.now)) }
{
    Ok(Conflicts {
        takers: takers(alloc, places)?,
        accepted: accepted_writes(alloc, places)?,
        firsts: first_numbers(alloc, history)?,
    })
}

/// By key: which sessions may have taken its latch.
fn takers(alloc: Global, places: &[Place]) -> Result<Marks, OutOfMemory>
    ensures { IfOk result (λ marks. AreTakers marks (run_at places.now)) }
{
    let mut marks = Marks::new(alloc);
    for place in places {
        note_taker(&mut marks, &place.answer)?;
    }
    Ok(marks)
}

fn note_taker(marks: &mut Marks, answer: &Answer) -> Result<(), OutOfMemory>
    ensures { OnOk result ((front : List Answered) → AreTakers marks.old front → AreTakers marks.new (front ++ seen answer.now ∷ [])) }
{
    let Some((session, key)) = taker(answer) else {
        return Ok(());
    };
    let taker = u64::from(session) + 1;
    let first = marks.number(key, 0, 0);
    if first == 0 {
        marks.set(key, 0, 0, taker)?;
    } else if first != taker {
        marks.set(key, 1, 0, 1)?;
    }
    Ok(())
}

/// The session and the key of a write that may have held the latch of its record.
fn taker(answer: &Answer) -> Option<(u32, Key)>
    ensures { (session key : ℕ) → (not (is_by session (seen answer.now)) && may_take_latch key (seen answer.now)) ≡ takes_latch session key result }
{
    match answer {
        Answer::Phase => None,
        Answer::Merge { .. } => None,
        Answer::Call {
            session,
            call,
            reply,
        } => {
            if takes_no_latch(reply) {
                return None;
            }
            match key_written(call) {
                Some(key) => Some((*session, key)),
                None => None,
            }
        }
    }
}

fn takes_no_latch(reply: &Reply) -> bool
    ensures { result ≡ takes_no_latch reply.now }
{
    match reply {
        Reply::Refused { cause } => match cause {
            Cause::Latched | Cause::Idle | Cause::ReadOnly | Cause::TableFull => true,
            _ => false,
        },
        _ => false,
    }
}

/// By session, number and key: whether there is an accepted write.
fn accepted_writes(alloc: Global, places: &[Place]) -> Result<Marks, OutOfMemory>
    requires { AreTraced places.now }
    ensures { IfOk result (λ marks. AreAccepted marks (run_at places.now)) }
{
    let mut marks = Marks::new(alloc);
    for place in places {
        note_accepted(&mut marks, place)?;
    }
    Ok(marks)
}

fn note_accepted(marks: &mut Marks, place: &Place) -> Result<(), OutOfMemory>
    ensures { OnOk result ((front : List Answered) → place.now.outline ≡ outline_at front (speaker_of (seen_at place.now).line) → AreAccepted marks.old front → AreAccepted marks.new (front ++ seen_at place.now ∷ [])) }
{
    if let Some((session, number, key)) = accepted_write(place) {
        marks.set(u64::from(session), number, key, 1)?;
    }
    Ok(())
}

fn accepted_write(place: &Place) -> Option<(u32, u64, Key)>
    ensures { (before : List Answered) → place.now.outline ≡ outline_at before (speaker_of (seen_at place.now).line) → IsAcceptedAt before (seen_at place.now) result }
{
    match place.answer {
        Answer::Phase => None,
        Answer::Merge { .. } => None,
        Answer::Call {
            session,
            call,
            reply,
        } => numbered_write(
            session,
            &place.outline.current,
            key_written(call),
            is_done(reply),
        ),
    }
}

fn numbered_write(
    session: u32,
    current: &Option<OpenOutline>,
    key: Option<Key>,
    done: bool,
) -> Option<(u32, u64, Key)>
    ensures { result ≡ numbered_write session current.now key done }
{
    let Some(current) = current else {
        return None;
    };
    let Some(key) = key else {
        return None;
    };
    if !done {
        return None;
    }
    Some((session, current.number, key))
}

fn tells_conflict(conflicts: &Conflicts, place: &Place) -> bool
    ensures { (history : List CommitTold) (run before : List Answered) → IsConflictsOf conflicts.now history run → place.now.outline ≡ outline_at before (speaker_of (seen_at place.now).line) → (IsTrue result ↔ TellsConflict history run before (seen_at place.now)) }
{
    match place.answer {
        Answer::Phase => true,
        Answer::Merge { .. } => true,
        Answer::Call {
            session,
            call,
            reply,
        } => conflicts.explains_write(session, &place.outline.current, key_written(call), reply),
    }
}

impl Conflicts {
    /// Whether a reply is explained, where a transaction is open and the call asks for a write.
    fn explains_write(
        &self,
        session: u32,
        current: &Option<OpenOutline>,
        key: Option<Key>,
        reply: &Reply,
    ) -> bool
        ensures { (history : List CommitTold) (run : List Answered) (current_told : Option Transaction) (write_told : Option WriteTold) → IsConflictsOf self.now history run → current.now ≡ option_map outline_of_open current_told → key ≡ key_of write_told → (IsTrue result ↔ IfSome current_told (λ transaction. IfSome write_told (λ write. ConflictIsExplained history run session transaction write reply.now))) }
    {
        let Some(current) = current else {
            return true;
        };
        let Some(key) = key else {
            return true;
        };
        self.explains(session, current, key, reply)
    }

    fn explains(&self, session: u32, current: &OpenOutline, key: Key, reply: &Reply) -> bool
        ensures { (history : List CommitTold) (run : List Answered) (transaction : Transaction) (write : WriteTold) → IsConflictsOf self.now history run → current.now ≡ outline_of_open transaction → key ≡ write.key → (IsTrue result ↔ ConflictIsExplained history run session transaction write reply.now) }
    {
        match reply {
            Reply::Refused { cause } => match cause {
                Cause::Latched => self.may_have_taken(session, key),
                Cause::Unfinished {
                    session: other,
                    number,
                } => self.is_in_the_way(session, current.begin, key, *other, *number),
                _ => true,
            },
            _ => true,
        }
    }

    /// Whether another session may have taken the latch of a key.
    fn may_have_taken(&self, session: u32, key: Key) -> bool
        ensures { (history : List CommitTold) (run : List Answered) → IsConflictsOf self.now history run → result ≡ list_any (λ one. not (is_by session one) && may_take_latch key one) run }
    {
        let first = self.takers.number(key, 0, 0);
        if first == 0 {
            return false;
        }
        first != u64::from(session) + 1 || 0 < self.takers.number(key, 1, 0)
    }

    /// Whether another session's transaction has an accepted write on a key and has not committed by a begin.
    fn is_in_the_way(&self, session: u32, begin: Time, key: Key, other: u32, number: u32) -> bool
        ensures { (history : List CommitTold) (run : List Answered) → IsConflictsOf self.now history run → (IsTrue result ↔ IsInTheWay history run session key begin other number) }
    {
        let commit = self.firsts.number(u64::from(other), u64::from(number), 0);
        other != session
            && 0 < self
                .accepted
                .number(u64::from(other), u64::from(number), key)
            && (commit == 0 || begin < commit)
    }
}
