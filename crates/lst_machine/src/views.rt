//! What the machine says of accepted writes, and of what a session sees.
ghost use Rattle.std.specs.Prelude.{◌≡◌, ◌<◌, ◌≤◌, ◌++◌, ◌∷◌, ◌==◌, ◌&&◌, not, if◌then◌else◌, Some, None, IfOk, OnOk, length, take, drop, option_map};
ghost use Rattle.lst_model.specs.Histories.{joined};
ghost use Rattle.lst_model.specs.declared.acts.Write.{Write};
ghost use Rattle.lst_machine.specs.Writes.{place_of, range_of, time_of, rival_of, conflict_of, gathered, own_writes, sight_of};
ghost use Rattle.lst_machine.specs.Parts.{author_of};
ghost use Rattle.lst_machine.specs.Machines.{store_of};

use crate::machine::Machine;
use crate::parts::{AcceptedWrite, Author};
use crate::sight::Sight;
use lst_layout::RANGE_RECORDS;
use lst_model::{Cause, Commit, Key, OutOfMemory, Time, Write};

impl Machine {
    /// The place of a key among the placed ones.
    pub(crate) fn place(&self, key: Key) -> Option<usize>
        ensures { result ≡ place_of self.now.placed.items key }
    {
        self.placed.iter().position(|other| *other == key)
    }

    /// The range of a placed key, and 0 for any other.
    pub(crate) fn range_of(&self, key: Key) -> usize
        ensures range { result ≡ range_of self.now.placed.items key }
        ensures low { result < length self.now.ranges.items }
    {
        self.place(key).unwrap_or(0) / RANGE_RECORDS as usize
    }

    /// Whether a transaction ended without a commit.
    pub(crate) fn is_closed(&self, author: Author) -> bool
        ensures { result ≡ (store_of self.now).closed author.session author.number }
    {
        match self.sessions.get(author.session as usize) {
            Some(session) => session.is_closed(author.number),
            None => false,
        }
    }

    /// The last accepted write on a key whose transaction isn't closed.
    fn rival(&self, key: Key) -> Option<Author>
        ensures { result ≡ option_map author_of (rival_of (store_of self.now) key) }
    {
        let mut rival = None;
        for write in self.ranges[self.range_of(key)].items() {
            rival = self.rival_after(rival, write, key);
        }
        rival
    }

    /// The rival on a key, once a write stands behind those that leave this one.
    fn rival_after(&self, rival: Option<Author>, write: &AcceptedWrite, key: Key) -> Option<Author>
        ensures { result ≡ (if write.now.write.key == key && not ((store_of self.now).closed write.now.session write.now.number) then Some (author_of write.now) else rival) }
    {
        let author = write.author();
        if write.key() == key && !self.is_closed(author) {
            return Some(author);
        }
        rival
    }

    /// What is in the way of a write of a session's transaction that began at this time.
    pub(crate) fn conflict(&self, session: u32, begin: Time, key: Key) -> Option<Cause>
        ensures { result ≡ conflict_of (store_of self.now) session begin key }
    {
        let Some(rival) = self.rival(key) else {
            return None;
        };
        let Some(time) = time_of(self.history.items(), rival) else {
            return unfinished(session, rival);
        };
        if begin < time {
            return Some(Cause::Newer { time });
        }
        None
    }

    /// The own writes of a session's open transaction, by key.
    pub(crate) fn own_writes(&self, session: u32) -> Result<Vec<Write>, OutOfMemory>
        requires { session < self.now.limits.sessions }
        ensures { IfOk result (λ writes. writes.items ≡ own_writes self.now.limits (store_of self.now) session) }
    {
        let number = self.sessions[session as usize].begins();
        let mut own = Vec::new(self.alloc);
        for range in &self.ranges {
            gather(&mut own, range.items(), Author { session, number })?;
        }
        Ok(own)
    }

    /// What a session's open transaction sees that began at this time.
    pub(crate) fn sight(&self, session: u32, begin: Time) -> Result<Sight, OutOfMemory>
        requires { session < self.now.limits.sessions }
        ensures { IfOk result (λ sight. sight.table ≡ sight_of self.now.limits (store_of self.now) session begin) }
    {
        let mut sight = Sight::new(self.alloc);
        sight.replay(commits_by(self.history.items(), begin))?;
        let own = self.own_writes(session)?;
        sight.apply(own.as_slice())?;
        Ok(sight)
    }
}

/// What a transaction that is open puts in the way of a session.
fn unfinished(session: u32, rival: Author) -> Option<Cause>
    ensures { result ≡ (if rival.session == session then None else Some (Cause.Unfinished rival.session rival.number)) }
{
    if rival.session == session {
        return None;
    }
    Some(Cause::Unfinished {
        session: rival.session,
        number: rival.number,
    })
}

/// The commits up to a time.
fn commits_by(history: &[Commit], time: Time) -> &[Commit]
    ensures { result.now ≡ take time history.now }
{
    if time >= history.len() as u64 {
        return history;
    }
    &history[..time as usize]
}

/// The time at which a transaction was committed.
pub(crate) fn time_of(history: &[Commit], author: Author) -> Option<Time>
    ensures { result ≡ time_of history.now author.session author.number }
{
    for place in 0..history.len() {
        let commit = &history[place];
        if is_of(commit, author) {
            return Some(place as u64 + 1);
        }
    }
    None
}

/// Whether a commit is of this transaction.
fn is_of(commit: &Commit, author: Author) -> bool
    ensures { result ≡ (commit.now.session == author.session && commit.now.number == author.number) }
{
    commit.session == author.session && commit.number == author.number
}

/// Adds the writes of one transaction among accepted ones to others, by rising key and, of one key, in order.
fn gather(
    own: &mut Vec<Write>,
    accepted: &[AcceptedWrite],
    author: Author,
) -> Result<(), OutOfMemory>
    ensures { OnOk result (own.new.items ≡ gathered author.session author.number own.old.items accepted.now) }
{
    for write in accepted {
        gather_one(own, write, author)?;
    }
    Ok(())
}

/// Adds an accepted write to others, where it is of this transaction.
fn gather_one(
    own: &mut Vec<Write>,
    write: &AcceptedWrite,
    author: Author,
) -> Result<(), OutOfMemory>
    ensures { OnOk result (own.new.items ≡ (if write.now.session == author.session && write.now.number == author.number then joined own.old.items write.now.write else own.old.items)) }
{
    if !write.is_by(author) {
        return Ok(());
    }
    join(own, write.write())
}

/// Adds a write to others that stand by rising key, behind those of its key.
fn join(writes: &mut Vec<Write>, new: Write) -> Result<(), OutOfMemory>
    ensures { OnOk result (writes.new.items ≡ joined writes.old.items new) }
{
    let place = place_behind(writes.as_slice(), new.key);
    writes.insert(place, new)?;
    Ok(())
}

/// The place behind the writes of keys up to this one.
fn place_behind(writes: &[Write], key: Key) -> usize
    ensures within { result ≤ length writes.now }
    ensures joins { (new : Write) → new.key ≡ key → joined writes.now new ≡ take result writes.now ++ new ∷ drop result writes.now }
{
    for place in 0..writes.len() {
        if key < writes[place].key {
            return place;
        }
    }
    writes.len()
}
