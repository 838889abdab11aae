//! Full table and full range are explained: as many inserts may have taken a record as the table has, and the key is new;
//! as many writes were accepted as a range has tail records.
ghost use Rattle.std.specs.Prelude.{◌≡◌, ◌↔◌, ℕ, ◌<◌, ◌&&◌, List, [], ◌∷◌, ◌++◌, Option, length, option_map, IfSome, IsTrue, IfOk, OnOk};
ghost use Rattle.std.specs.List.{count_by, list_any};
ghost use Rattle.lst_model.specs.declared.acts.Write.{Write as WriteTold};
ghost use Rattle.lst_model.specs.declared.commits.Commit.{Commit as CommitTold};
ghost use Rattle.lst_replies.specs.declared.states.Transaction.{Transaction};
ghost use Rattle.lst_replies.specs.Runs.{Answered, speaker_of, key_of, write_of, is_by, is_accepted_on, may_take_record, is_insert_call, takes_no_record};
ghost use Rattle.lst_replies.specs.Seen.{seen};
ghost use Rattle.lst_replies.specs.Explained.{IsNewKey, FullnessIsExplained};
ghost use Rattle.lst_replies.specs.Legal.{AtEachWrite};
ghost use Rattle.lst_legal_runs.specs.Outlines.{outline_of_open};
ghost use Rattle.lst_legal_runs.specs.Places.{AreTraced, outline_at, run_at, seen_at};
ghost use Rattle.lst_legal_runs.specs.Fullness.{names_both, AreWritten, IsFullnessOf, TellsFullness};

use crate::firsts::first_writes;
use crate::marks::Marks;
use crate::merges::{accepted_count, is_done};
use crate::outlines::OpenOutline;
use crate::places::Place;
use lst_layout::Limits;
use lst_model::{Call, Cause, Commit, Key, OutOfMemory, Reply};
use lst_replies::Answer;
use std::alloc::Global;

/// How many inserts may have taken a record, and how many writes were accepted; by key, the time of the first commit with
/// a write on it.
#[derive(Drop)]
pub(crate) struct Fullness {
    takers: u64,
    accepted: u64,
    firsts: Marks,
}

/// Whether a run's replies of a full table or range are explained, under a history.
pub fn is_fullness_explained(
    alloc: Global,
    limits: &Limits,
    history: &[Commit],
    places: &[Place],
) -> Result<bool, OutOfMemory>
    requires { AreTraced places.now }
    ensures { IfOk result (λ b. IsTrue b ↔ AtEachWrite (λ before session transaction write reply. FullnessIsExplained limits.now history.now (run_at places.now) before session transaction write reply) (run_at places.now)) }
{
    let fullness = fullness_of(alloc, history, places)?;
    let mut written = Marks::new(alloc);
    for place in places {
        if !tells_fullness(limits, &fullness, &written, place) {
            return Ok(false);
        }
        note_write(&mut written, &place.answer)?;
    }
    Ok(true)
}

fn fullness_of(alloc: Global, history: &[Commit], places: &[Place]) -> Result<Fullness, OutOfMemory>
    ensures { IfOk result (λ fullness. IsFullnessOf fullness history.now (run_at places.now)) }
{
    Ok(Fullness {
        takers: taker_count(places),
        accepted: accepted_count(places),
        firsts: first_writes(alloc, history)?,
    })
}

/// How many inserts may have taken a record.
fn taker_count(places: &[Place]) -> u64
    ensures { result ≡ count_by may_take_record (run_at places.now) }
{
    let mut count = 0;
    for place in places {
        if may_take_record(&place.answer) {
            count += 1;
        }
    }
    count
}

fn may_take_record(answer: &Answer) -> bool
    ensures { result ≡ may_take_record (seen answer.now) }
{
    match answer {
        Answer::Phase => false,
        Answer::Merge { .. } => false,
        Answer::Call { call, reply, .. } => is_insert(call) && !takes_no_record(reply),
    }
}

fn is_insert(call: &Call) -> bool
    ensures { result ≡ is_insert_call call.now }
{
    match call {
        Call::Insert { .. } => true,
        _ => false,
    }
}

pub(crate) fn takes_no_record(reply: &Reply) -> bool
    ensures { result ≡ takes_no_record reply.now }
{
    match reply {
        Reply::Refused { cause } => match cause {
            Cause::Idle | Cause::ReadOnly | Cause::TableFull => true,
            _ => false,
        },
        _ => false,
    }
}

/// The key on which a call asks for a write.
pub(crate) fn key_written(call: &Call) -> Option<Key>
    ensures { result ≡ key_of (write_of call.now) }
{
    match call {
        Call::Insert { key, .. } => Some(*key),
        Call::Update { key, .. } => Some(*key),
        Call::Delete { key } => Some(*key),
        _ => None,
    }
}

/// Marks the session and the key of an accepted write.
fn note_write(written: &mut Marks, answer: &Answer) -> Result<(), OutOfMemory>
    ensures { OnOk result ((front : List Answered) → AreWritten written.old front → AreWritten written.new (front ++ seen answer.now ∷ [])) }
{
    if let Some((session, key)) = accepted_write(answer) {
        written.set(u64::from(session), key, 0, 1)?;
    }
    Ok(())
}

/// The session and the key of an accepted write.
fn accepted_write(answer: &Answer) -> Option<(u32, Key)>
    ensures { (session key : ℕ) → (is_by session (seen answer.now) && is_accepted_on key (seen answer.now)) ≡ names_both session key result }
{
    match answer {
        Answer::Phase => None,
        Answer::Merge { .. } => None,
        Answer::Call {
            session,
            call,
            reply,
        } => {
            if !is_done(reply) {
                return None;
            }
            match key_written(call) {
                Some(key) => Some((*session, key)),
                None => None,
            }
        }
    }
}

fn tells_fullness(limits: &Limits, fullness: &Fullness, written: &Marks, place: &Place) -> bool
    ensures { (history : List CommitTold) (run before : List Answered) → IsFullnessOf fullness.now history run → AreWritten written.now before → place.now.outline ≡ outline_at before (speaker_of (seen_at place.now).line) → (IsTrue result ↔ TellsFullness limits.now history run before (seen_at place.now)) }
{
    match place.answer {
        Answer::Phase => true,
        Answer::Merge { .. } => true,
        Answer::Call {
            session,
            call,
            reply,
        } => {
            fullness.explains_write(
                limits,
                written,
                session,
                &place.outline.current,
                key_written(call),
                reply,
            )
        }
    }
}

impl Fullness {
    /// Whether a reply is explained, where a transaction is open and the call asks for a write.
    fn explains_write(
        &self,
        limits: &Limits,
        written: &Marks,
        session: u32,
        current: &Option<OpenOutline>,
        key: Option<Key>,
        reply: &Reply,
    ) -> bool
        ensures { (history : List CommitTold) (run before : List Answered) (current_told : Option Transaction) (write_told : Option WriteTold) → IsFullnessOf self.now history run → AreWritten written.now before → current.now ≡ option_map outline_of_open current_told → key ≡ key_of write_told → (IsTrue result ↔ IfSome current_told (λ transaction. IfSome write_told (λ write. FullnessIsExplained limits.now history run before session transaction write reply.now))) }
    {
        let Some(current) = current else {
            return true;
        };
        let Some(key) = key else {
            return true;
        };
        self.explains(limits, written, session, current, key, reply)
    }

    fn explains(
        &self,
        limits: &Limits,
        written: &Marks,
        session: u32,
        current: &OpenOutline,
        key: Key,
        reply: &Reply,
    ) -> bool
        ensures { (history : List CommitTold) (run before : List Answered) (transaction : Transaction) (write : WriteTold) → IsFullnessOf self.now history run → AreWritten written.now before → current.now ≡ outline_of_open transaction → key ≡ write.key → (IsTrue result ↔ FullnessIsExplained limits.now history run before session transaction write reply.now) }
    {
        match reply {
            Reply::Refused { cause } => match cause {
                Cause::TableFull => {
                    self.is_new_key(written, session, current, key)
                        && 256 * u64::from(limits.ranges) <= self.takers
                }
                Cause::TailFull => u64::from(limits.tails) <= self.accepted,
                _ => true,
            },
            _ => true,
        }
    }

    /// Whether neither a commit by the transaction's begin nor an accepted write of the session has written the key.
    fn is_new_key(&self, written: &Marks, session: u32, current: &OpenOutline, key: Key) -> bool
        ensures { (history : List CommitTold) (run before : List Answered) → IsFullnessOf self.now history run → AreWritten written.now before → (IsTrue result ↔ IsNewKey history before session current.now.begin key) }
    {
        let first = self.firsts.number(key, 0, 0);
        (first == 0 || current.begin < first) && written.number(u64::from(session), key, 0) == 0
    }
}
