//! The keys of the rows so far.
ghost use Rattle.std.specs.Prelude.{◌≡◌, ℕ, false, true, not, cond, IfOk, OnOk, ◌==◌};
ghost use Rattle.lst_csv.specs.Keys.{has_key};

use lst_model::{Key, OutOfMemory};
use std::alloc::Global;
use std::collections::BTreeSet;

/// Keys, each once. The lowest have a flag each, which tells at once whether they are there; the others are in a set.
#[derive(Drop)]
pub(crate) struct Keys {
    flags: Vec<bool>,
    others: BTreeSet<u64>,
}

impl Keys {
    /// No keys, of which so many have a flag. The only error is want of memory.
    #[tactic(auto, using(crate::proofs::Noted::none_noted))]
    pub(crate) fn new(alloc: Global, count: usize) -> Result<Keys, OutOfMemory>
        ensures { IfOk result (λ keys. (key : ℕ) → has_key keys key ≡ false) }
    {
        Ok(Keys {
            flags: vec![in alloc; false; count]?,
            others: BTreeSet::new(alloc),
        })
    }

    /// Adds a key, and says whether it wasn't there. The only error is want of memory.
    #[tactic(auto, using(crate::proofs::Noted::flag_set, crate::proofs::Noted::set_more))]
    pub(crate) fn insert(&mut self, key: Key) -> Result<bool, OutOfMemory>
        ensures added { IfOk result (λ added. added ≡ not (has_key self.old key)) }
        ensures more { OnOk result ((other : ℕ) → has_key self.new other ≡ cond (key == other) true (has_key self.old other)) }
    {
        let place = key as usize;
        if place < self.flags.len() {
            let is_new = !self.flags[place];
            self.flags[place] = true;
            return Ok(is_new);
        }
        Ok(self.others.insert(key)?)
    }
}
