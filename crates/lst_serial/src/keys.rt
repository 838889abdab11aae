//! A set of keys.
ghost use Rattle.std.specs.Prelude.{◌≡◌, ℕ, false, OnOk, OnErr};
ghost use Rattle.std.specs.List.{list_any};
ghost use Rattle.std.specs.Ordering.{nat_cmp};
ghost use Rattle.std.specs.BTreeMap.{is_at};
ghost use Rattle.lst_serial.specs.Keys.{has, Joins, SameKeys};

use arrayvec::ArrayVec;
use lst_model::{Key, OutOfMemory};
use std::alloc::Global;
use std::collections::BTreeSet;

/// How many keys a set has before it takes memory.
const FEW: usize = 8;

/// A set of keys, of which the contracts ask which keys it has.
#[derive(Drop)]
pub struct KeySet {
    /// The keys that were added first, in that order. They take no memory.
    pub(crate) few: ArrayVec<Key, FEW>,
    /// The others.
    pub(crate) keys: BTreeSet<Key>,
}

/// Whether a key is one of these.
fn is_among(keys: &[Key], key: Key) -> bool
    ensures { result ≡ list_any (is_at (nat_cmp key)) keys.now }
{
    for other in keys {
        if *other == key {
            return true;
        }
    }
    false
}

impl KeySet {
    /// The empty set.
    pub fn new(alloc: Global) -> KeySet
        ensures { (key : ℕ) → has result key ≡ false }
    {
        KeySet {
            few: ArrayVec::new(),
            keys: BTreeSet::new(alloc),
        }
    }

    /// Adds a key; the other keys stay. Want of memory leaves the set as it was.
    pub fn insert(&mut self, key: Key) -> Result<(), OutOfMemory>
        ensures ok { OnOk result (Joins self.old self.new key) }
        ensures err { OnErr result (SameKeys self.old self.new) }
    {
        if is_among(self.few.as_slice(), key) {
            return Ok(());
        }
        if !self.few.is_full() {
            self.few.push(key);
            return Ok(());
        }
        match self.keys.insert(key) {
            Ok(_) => Ok(()),
            Err(_) => Err(OutOfMemory),
        }
    }

    /// Whether the set has a key.
    pub fn contains(&self, key: Key) -> bool
        ensures { result ≡ has self.now key }
    {
        is_among(self.few.as_slice(), key) || self.keys.contains(&key)
    }

    /// Empties the set.
    pub fn clear(&mut self)
        ensures { (key : ℕ) → has self.new key ≡ false }
    {
        self.few = ArrayVec::new();
        self.keys.clear();
    }
}
