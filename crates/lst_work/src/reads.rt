//! What a session at work keeps of its reads.
ghost use Rattle.std.specs.Prelude.{◌≡◌, ℕ, ◌||◌, cond, false, OnOk, OnErr};
ghost use Rattle.lst_replies.specs.Runs.{names, is_begun};
ghost use Rattle.lst_serial_laws.specs.Legal.{key_of_call, reads_table};
ghost use Rattle.lst_serial.specs.Keys.{has, Joins};

use lst_model::{Call, OutOfMemory, Reply};
use lst_serial::KeySet;
use lst_serial_laws::{key_of_call, reads_table};
use std::alloc::Global;

/// What the lines of a session since its last begin have read: the keys that they name, and whether one was answered off the whole table.
#[derive(Drop)]
pub(crate) struct Reads {
    pub(crate) keys: KeySet,
    pub(crate) all: bool,
}

impl Reads {
    /// Nothing. It takes no memory yet.
    pub(crate) fn new(alloc: Global) -> Reads
        ensures keys { (key : ℕ) → has result.keys key ≡ false }
        ensures all { result.all ≡ false }
    {
        Reads {
            keys: KeySet::new(alloc),
            all: false,
        }
    }

    /// Lets the key that a call names join. For want of memory the call isn't made.
    pub(crate) fn join(&mut self, call: &Call) -> Result<(), OutOfMemory>
        ensures keys { OnOk result ((key : ℕ) → has self.new.keys key ≡ (has self.old.keys key || names key (key_of_call call.now))) }
        ensures all { self.new.all ≡ self.old.all }
    {
        match key_of_call(call) {
            Some(key) => self.keys.insert(key),
            None => Ok(()),
        }
    }

    /// Passes a reply by: a begin empties it, and a reply that was read off the whole table joins all keys.
    pub(crate) fn pass(&mut self, reply: &Reply)
        ensures keys { (key : ℕ) → has self.new.keys key ≡ cond (is_begun reply.now) false (has self.old.keys key) }
        ensures all { self.new.all ≡ cond (is_begun reply.now) false (self.old.all || reads_table reply.now) }
    {
        if let Reply::Begun { .. } = reply {
            self.keys.clear();
            self.all = false;
        } else if reads_table(reply) {
            self.all = true;
        }
    }
}
