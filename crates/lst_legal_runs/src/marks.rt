//! Numbers kept by triples of numbers.
ghost use Rattle.std.specs.Prelude.{◌≡◌, ℕ, cond, IfOk, OnOk};
ghost use Rattle.lst_legal_runs.specs.Marks.{are_same, number_at};

use lst_model::OutOfMemory;
use std::alloc::Global;
use std::collections::BTreeMap;

/// A number by three numbers: 0 where nothing was set.
#[derive(Drop)]
pub struct Marks {
    numbers: BTreeMap<(u64, u64, u64), u64>,
}

impl Marks {
    /// All numbers are 0.
    pub fn new(alloc: Global) -> Marks
        ensures { (a b c : ℕ) → number_at result a b c ≡ 0 }
    {
        Marks {
            numbers: BTreeMap::new(alloc),
        }
    }

    /// The number at a triple.
    pub fn number(&self, first: u64, second: u64, third: u64) -> u64
        ensures { result ≡ number_at self.now first second third }
    {
        match self.numbers.get(&(first, second, third)) {
            Some(number) => *number,
            None => 0,
        }
    }

    /// Sets the number at a triple.
    pub fn set(
        &mut self,
        first: u64,
        second: u64,
        third: u64,
        number: u64,
    ) -> Result<(), OutOfMemory>
        ensures { OnOk result ((a b c : ℕ) → number_at self.new a b c ≡ cond (are_same first second third a b c) number (number_at self.old a b c)) }
    {
        self.numbers.insert((first, second, third), number)?;
        Ok(())
    }
}
