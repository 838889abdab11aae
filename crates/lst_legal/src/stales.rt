//! Stale commits are explained: since its begin the transaction has read the whole table, or named a key that the commit at the time wrote.
ghost use Rattle.std.specs.Prelude.{◌≡◌, ◌↔◌, ℕ, ◌<◌, ◌≤◌, List, [], ◌∷◌, ◌++◌, ◌||◌, false, cond, length, IsTrue, IfSome, IfOk, OnOk};
ghost use Rattle.std.specs.List.{list_any, filter_map};
ghost use Rattle.lst_model.specs.declared.acts.Write.{Write as WriteOf};
ghost use Rattle.lst_model.specs.declared.commits.Commit.{Commit};
ghost use Rattle.lst_model.specs.declared.lines.Line.TheVariants as lines;
ghost use Rattle.lst_replies.specs.declared.states.SessionState.{SessionState};
ghost use Rattle.lst_replies.specs.Runs.{Answered, AtEachCall, answered, is_begun, speaker_of};
ghost use Rattle.lst_replies.specs.States.{state_of};
ghost use Rattle.lst_replies.specs.Explained.{commit_at};
ghost use Rattle.lst_replies.specs.Levels.{stale_time};
ghost use Rattle.lst_legal_runs.specs.Outlines.{outline_of};
ghost use Rattle.lst_legal_runs.specs.Places.{AreTraced, AreWithin, outline_at, run_at, seen_at};
ghost use Rattle.lst_serial_laws.specs.Legal.{key_of_call, reads_table, MayBeStale, StaleIsExplained, lines_since_begin};
ghost use Rattle.lst_legal.specs.Serials.{has_number, has_written, AreNamed, AreReadsOf, AreReads, NamesAsMuch, StayReads, TellsStale};

use lst_legal_runs::{OpenOutline, Place};
use lst_model::{Call, Cause, Key, OutOfMemory, Reply, Time, Write};
use lst_replies::Answer;
use lst_serial_laws::{key_of_call, reads_table};
use lst_snapshots::Snapshots;
use std::alloc::Global;
use std::collections::BTreeSet;

/// What a session's lines since its last begin have read: the keys that they name, and whether one was answered off the whole table.
#[derive(Drop)]
pub(crate) struct Reads {
    /// The keys, as they were named.
    pub keys: Vec<Key>,
    /// The same keys, to look for one.
    pub named: BTreeSet<Key>,
    /// Times of commits that were found to have a write on one of them.
    pub told: BTreeSet<Time>,
    pub whole: bool,
}

impl Reads {
    /// A session that has read nothing.
    fn new(alloc: Global) -> Reads
        ensures { (history : List Commit) → AreReadsOf history result [] }
    {
        Reads {
            keys: Vec::new(alloc),
            named: BTreeSet::new(alloc),
            told: BTreeSet::new(alloc),
            whole: false,
        }
    }

    /// Whether a reply is explained, if it is stale; the call is passed by.
    fn goes_on(
        &mut self,
        snapshots: &Snapshots,
        current: &Option<OpenOutline>,
        call: &Call,
        reply: &Reply,
    ) -> Result<bool, OutOfMemory>
        ensures explained { IfOk result (λ b. (before : List Answered) (session : ℕ) (state : SessionState) → AreReadsOf snapshots.now self.old (lines_since_begin session before) → current.now ≡ (outline_of state).current → (IsTrue b ↔ StaleIsExplained snapshots.now before session state.current reply.now)) }
        ensures passed { OnOk result ((session : ℕ) (front : List Answered) → AreReadsOf snapshots.now self.old front → AreReadsOf snapshots.now self.new (cond (is_begun reply.now) [] (front ++ answered (lines.Call session call.now) reply.now ∷ []))) }
    {
        let is_explained = self.explain(snapshots, current, reply)?;
        self.pass(call, reply)?;
        Ok(is_explained)
    }

    /// Passes a call of the session by.
    fn pass(&mut self, call: &Call, reply: &Reply) -> Result<(), OutOfMemory>
        ensures { OnOk result ((history : List Commit) (session : ℕ) (front : List Answered) → AreReadsOf history self.old front → AreReadsOf history self.new (cond (is_begun reply.now) [] (front ++ answered (lines.Call session call.now) reply.now ∷ []))) }
    {
        if is_begun(reply) {
            self.forget();
            return Ok(());
        }
        self.note(key_of_call(call), reads_table(reply))?;
        Ok(())
    }

    fn forget(&mut self)
        ensures keys { self.new.keys.items ≡ [] }
        ensures named { self.new.named.keys ≡ [] }
        ensures told { self.new.told.keys ≡ [] }
        ensures whole { self.new.whole ≡ false }
    {
        self.keys.clear();
        self.named.clear();
        self.told.clear();
        self.whole = false;
    }

    fn note(&mut self, key: Option<Key>, whole: bool) -> Result<(), OutOfMemory>
        ensures keys { OnOk result (self.new.keys.items ≡ self.old.keys.items ++ filter_map (λ k. k) (key ∷ [])) }
        ensures named { OnOk result (NamesAsMuch self.old self.new) }
        ensures told { OnOk result (self.new.told.keys ≡ self.old.told.keys) }
        ensures whole { OnOk result (self.new.whole ≡ (self.old.whole || whole)) }
    {
        self.whole = self.whole || whole;
        if let Some(key) = key {
            self.name(key)?;
        }
        Ok(())
    }

    /// One key more is named.
    fn name(&mut self, key: Key) -> Result<(), OutOfMemory>
        ensures keys { OnOk result (self.new.keys.items ≡ self.old.keys.items ++ key ∷ []) }
        ensures named { OnOk result (NamesAsMuch self.old self.new) }
        ensures told { self.new.told.keys ≡ self.old.told.keys }
        ensures whole { self.new.whole ≡ self.old.whole }
    {
        self.named.insert(key)?;
        self.keys.push(key)?;
        Ok(())
    }

    /// Whether a reply is explained, if it is stale.
    fn explain(
        &mut self,
        snapshots: &Snapshots,
        current: &Option<OpenOutline>,
        reply: &Reply,
    ) -> Result<bool, OutOfMemory>
        ensures explained { IfOk result (λ b. (before : List Answered) (session : ℕ) (state : SessionState) → AreReadsOf snapshots.now self.old (lines_since_begin session before) → current.now ≡ (outline_of state).current → (IsTrue b ↔ StaleIsExplained snapshots.now before session state.current reply.now)) }
        ensures stay { OnOk result (StayReads snapshots.now self.old self.new) }
    {
        let Some(current) = current else {
            return Ok(true);
        };
        let Some(time) = stale_time(reply) else {
            return Ok(true);
        };
        self.may_be_stale(snapshots, current.begin, time)
    }

    /// Whether a transaction that has read this may be told stale for the commit at a time.
    fn may_be_stale(
        &mut self,
        snapshots: &Snapshots,
        begin: Time,
        time: Time,
    ) -> Result<bool, OutOfMemory>
        ensures explained { IfOk result (λ b. (front : List Answered) → AreReadsOf snapshots.now self.old front → (IsTrue b ↔ MayBeStale snapshots.now begin time front)) }
        ensures stay { OnOk result (StayReads snapshots.now self.old self.new) }
    {
        if time <= begin {
            return Ok(false);
        }
        if (snapshots.len() as u64) < time {
            return Ok(false);
        }
        if self.whole {
            return Ok(true);
        }
        self.is_told(snapshots, time)
    }

    /// Whether the commit at a time has a write on one of the keys. It is looked for once for each time.
    fn is_told(&mut self, snapshots: &Snapshots, time: Time) -> Result<bool, OutOfMemory>
        requires some { 0 < time }
        requires past { time ≤ length snapshots.now }
        ensures wrote { IfOk result (λ b. (front : List Answered) → AreReadsOf snapshots.now self.old front → b ≡ list_any (has_written (commit_at snapshots.now time)) self.old.keys.items) }
        ensures stay { OnOk result (StayReads snapshots.now self.old self.new) }
    {
        if self.told.contains(&time) {
            return Ok(true);
        }
        if !self.is_written(snapshots, time) {
            return Ok(false);
        }
        self.told.insert(time)?;
        Ok(true)
    }

    /// Whether the commit at a time has a write on one of the keys, in the time of the shorter list of both.
    fn is_written(&self, snapshots: &Snapshots, time: Time) -> bool
        requires some { 0 < time }
        requires past { time ≤ length snapshots.now }
        ensures { AreNamed self.now → result ≡ list_any (has_written (commit_at snapshots.now time)) self.now.keys.items }
    {
        let commit = &snapshots.commits()[time as usize - 1];
        let is_shorter = commit.writes.items().len() < self.keys.len();
        if is_shorter {
            self.names_any(commit.writes.items())
        } else {
            has_written_any(snapshots, time, &self.keys)
        }
    }

    /// Whether one of these writes is on one of the keys.
    fn names_any(&self, writes: &[Write]) -> bool
        ensures { result ≡ list_any (λ (write : WriteOf). has_number self.now.named.keys write.key) writes.now }
    {
        writes.iter().any(|write| self.names(write.key))
    }

    fn names(&self, key: Key) -> bool
        ensures { result ≡ has_number self.now.named.keys key }
    {
        self.named.contains(&key)
    }
}

fn is_begun(reply: &Reply) -> bool
    ensures { result ≡ is_begun reply.now }
{
    matches!(reply, Reply::Begun { .. })
}

/// Whether the stale commits of a run are explained, under a history. The run's sessions are below this number.
pub fn are_stales_explained(
    alloc: Global,
    sessions: u32,
    snapshots: &Snapshots,
    places: &[Place],
) -> Result<bool, OutOfMemory>
    requires within { AreWithin sessions (run_at places.now) }
    requires traced { AreTraced places.now }
    ensures { IfOk result (λ b. IsTrue b ↔ AtEachCall (λ before session call reply. StaleIsExplained snapshots.now before session (state_of session before).current reply) (run_at places.now)) }
{
    let mut reads = no_reads(alloc, sessions)?;
    are_explained_with(snapshots, &mut reads, places)
}

/// By session: nothing was read yet.
fn no_reads(alloc: Global, sessions: u32) -> Result<Vec<Reads>, OutOfMemory>
    ensures all { IfOk result (λ reads. length reads.items ≡ sessions) }
    ensures none { IfOk result (λ reads. (history : List Commit) → AreReads history reads.items []) }
{
    let mut reads = Vec::new(alloc);
    for _ in 0..sessions {
        reads.push(Reads::new(alloc))?;
    }
    Ok(reads)
}

fn are_explained_with(
    snapshots: &Snapshots,
    reads: &mut [Reads],
    places: &[Place],
) -> Result<bool, OutOfMemory>
    requires within { AreWithin (length reads.old) (run_at places.now) }
    requires traced { AreTraced places.now }
    requires opening { AreReads snapshots.now reads.old [] }
    ensures { IfOk result (λ b. IsTrue b ↔ AtEachCall (λ before session call reply. StaleIsExplained snapshots.now before session (state_of session before).current reply) (run_at places.now)) }
{
    for place in places {
        if !pass(snapshots, reads, place)? {
            return Ok(false);
        }
    }
    Ok(true)
}

/// Whether a line is explained, if it is a stale commit; it is passed by.
fn pass(snapshots: &Snapshots, reads: &mut [Reads], place: &Place) -> Result<bool, OutOfMemory>
    requires { IfSome (speaker_of (seen_at place.now).line) (λ session. session < length reads.old) }
    ensures explained { IfOk result (λ b. (before : List Answered) → AreReads snapshots.now reads.old before → place.now.outline ≡ outline_at before (speaker_of (seen_at place.now).line) → (IsTrue b ↔ TellsStale snapshots.now before (seen_at place.now))) }
    ensures passed { OnOk result ((front : List Answered) → AreReads snapshots.now reads.old front → AreReads snapshots.now reads.new (front ++ seen_at place.now ∷ [])) }
{
    match place.answer {
        Answer::Phase => Ok(true),
        Answer::Merge { .. } => Ok(true),
        Answer::Call {
            session,
            call,
            reply,
        } => reads[session as usize].goes_on(snapshots, &place.outline.current, call, reply),
    }
}

/// The time of the commit that made another one stale, or none where a reply tells none.
fn stale_time(reply: &Reply) -> Option<Time>
    ensures { result ≡ stale_time reply.now }
{
    match reply {
        Reply::Refused { cause } => match cause {
            Cause::Stale { time } => Some(*time),
            _ => None,
        },
        _ => None,
    }
}

/// Whether there is a commit at a time, and it has a write on one of these keys.
fn has_written_any(snapshots: &Snapshots, time: Time, keys: &[Key]) -> bool
    ensures { result ≡ list_any (has_written (commit_at snapshots.now time)) keys.now }
{
    keys.iter().any(|key| has_written(snapshots, time, *key))
}

/// Whether there is a commit at a time, and it has a write on a key.
fn has_written(snapshots: &Snapshots, time: Time, key: Key) -> bool
    ensures { result ≡ has_written (commit_at snapshots.now time) key }
{
    snapshots.wrote(time, key)
}
