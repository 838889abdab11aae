//! Lists of writes, one for each session.
ghost use Rattle.std.specs.Prelude.{◌≡◌, ◌<◌, ◌≤◌, ◌+◌, ◌++◌, ◌∷◌, [], List, length, take, drop, get_or, set, replicate, IfOk, OnErr};
ghost use Rattle.std.specs.List.{remove};
ghost use Rattle.lst_model.specs.declared.acts.Write.{Write as WriteValue};
ghost use Rattle.lst_model.specs.Histories.{StandByKey, joined};

use lst_model::{Key, OutOfMemory, Write, Writes};
use std::alloc::Global;
use std::marker::Model;
use std::mem;

/// For each session a list of writes. A contract sees the lists, in the order of the sessions.
#[derive(Drop)]
pub struct OwnWrites {
    lists: Vec<Writes>,
}

impl Model for OwnWrites {
    ghost use Rattle.std.specs.Prelude.{List};
    ghost use Rattle.lst_model.specs.declared.acts.Write.{Write};

    ghost Value = { List (List Write) };

    ghost view = { λ o. o.lists.items };
}

impl OwnWrites {
    /// No writes, for so many sessions.
    pub fn new(alloc: Global, sessions: u32) -> Result<OwnWrites, OutOfMemory>
        ensures { IfOk result (λ own. own ≡ replicate sessions []) }
    {
        let mut lists = Vec::new(alloc);
        for _ in 0..sessions {
            lists.push(Writes::new(alloc))?;
        }
        Ok(OwnWrites { lists })
    }

    /// The number of a session's writes.
    pub fn count(&self, session: u32) -> usize
        requires { session < length self.now }
        ensures { result ≡ length (get_or self.now session []) }
    {
        self.lists[session as usize].items().len()
    }

    /// Leaves a session without writes, and keeps the memory of those that it had for its next ones.
    pub fn clear(&mut self, alloc: Global, session: u32)
        requires { session < length self.old }
        ensures { self.new ≡ set self.old session [] }
    {
        let mut items = self.take(alloc, session).into_items();
        items.clear();
        self.put(session, Writes::from_items(items));
    }

    /// A session's writes, which leaves it without any. It takes no memory.
    pub fn take(&mut self, alloc: Global, session: u32) -> Writes
        requires { session < length self.old }
        ensures taken { result ≡ get_or self.old session [] }
        ensures left { self.new ≡ set self.old session [] }
    {
        mem::replace(&mut self.lists[session as usize], Writes::new(alloc))
    }

    /// Gives a session these writes, in place of those that it has.
    pub fn put(&mut self, session: u32, writes: Writes)
        requires { session < length self.old }
        ensures { self.new ≡ set self.old session writes }
    {
        self.lists[session as usize] = writes;
    }

    /// Adds a write to a session's, behind those of keys up to its own, and answers its place. For want of memory all stays as it was.
    pub fn join(&mut self, alloc: Global, session: u32, write: Write) -> Result<usize, OutOfMemory>
        requires session { session < length self.old }
        requires order { StandByKey (get_or self.old session []) }
        ensures joined { IfOk result (λ place. self.new ≡ set self.old session (joined (get_or self.old session []) write)) }
        ensures place { IfOk result (λ place. place < length (joined (get_or self.old session []) write)) }
        ensures back { IfOk result (λ place. remove (joined (get_or self.old session []) write) place ≡ get_or self.old session []) }
        ensures err { OnErr result (self.new ≡ self.old) }
    {
        let mut items = self.take(alloc, session).into_items();
        let place = place_behind(items.as_slice(), write.key);
        let answer = items.insert(place, write);
        self.put(session, Writes::from_items(items));
        match answer {
            Ok(()) => Ok(place),
            Err(_) => Err(OutOfMemory),
        }
    }

    /// Takes the write at a place of a session's away. It takes no memory.
    pub fn part(&mut self, alloc: Global, session: u32, place: usize)
        requires session { session < length self.old }
        requires place { place < length (get_or self.old session []) }
        ensures { self.new ≡ set self.old session (remove (get_or self.old session []) place) }
    {
        let mut items = self.take(alloc, session).into_items();
        let _ = items.remove(place);
        self.put(session, Writes::from_items(items));
    }
}

/// The place behind the writes of keys up to this one. Where keys rise it is the end, which is looked at first.
fn place_behind(writes: &[Write], key: Key) -> usize
    requires { StandByKey writes.now }
    ensures within { result ≤ length writes.now }
    ensures joins { (new : WriteValue) → new.key ≡ key → joined writes.now new ≡ take result writes.now ++ new ∷ drop result writes.now }
{
    let mut place = writes.len();
    while place > 0 && key < writes[place - 1].key {
        place -= 1;
    }
    place
}
