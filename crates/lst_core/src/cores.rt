//! The executable core.
ghost use Rattle.std.specs.Prelude.{◌≡◌, ℕ, ◌+◌, ◌<◌, ◌≤◌, length, replicate, ◌↔◌, IsOk, IfOk, OnErr, IsTrue};
ghost use Rattle.lst_layout.specs.Limits.{IsValid};
ghost use Rattle.lst_layout.specs.Areas.{words_of};
ghost use Rattle.lst_layout.specs.Words.{IsOpening, opening_at};
ghost use Rattle.lst_core_state.specs.Numbers.{newcomer_numbers};
ghost use Rattle.lst_core_state.specs.Runs.{opening};
ghost use Rattle.lst_core_state.specs.Sound.{Sound};
ghost use Rattle.lst_core_state.specs.State as state;
ghost use Rattle.lst_core_state.specs.Step as step;
ghost use Rattle.lst_core.specs.Machine.{Holds, IsCore, Steps};

use crate::allowed::{is_within, session_of, stands, time};
use crate::numbers::{after, allows};
use lst_core_state::{Event, Numbers, newcomers, target, written};
use lst_layout::{Layout, opening_words};
use lst_model::OutOfMemory;
use std::alloc::Global;
use std::marker::Model;

/// The step isn't enabled.
#[derive(Clone, Copy, Debug, PartialEq, Eq)]
pub struct NotEnabled;

/// The words of a store, and the numbers of what each session and the merger know.
#[derive(Drop)]
pub struct Core {
    layout: Layout,
    words: Vec<u64>,
    numbers: Vec<Numbers>,
}

impl Model for Core {
    ghost use Rattle.lst_core.specs.Machine.{Cells, IsCore};

    ghost Value = { Cells };

    ghost view = { λ c. record { limits = c.layout.limits; words = c.words.items; numbers = c.numbers.items } };

    ghost invariant = { λ c. IsCore record { limits = c.layout.limits; words = c.words.items; numbers = c.numbers.items } };
}

impl Core {
    /// The core of a store that opens. Its memory is taken here.
    pub fn new(alloc: Global, layout: &Layout) -> Result<Core, OutOfMemory>
        ensures limits { IfOk result (λ core. core.limits ≡ layout.now.limits) }
        ensures opens { IfOk result (λ core. Holds core (opening layout.now.limits)) }
    {
        let words = opening_words(alloc, layout)?;
        let numbers = newcomers(alloc, layout.limits.sessions + 1)?;
        Ok(Core {
            layout: *layout,
            words,
            numbers,
        })
    }

    /// Whether the fields of an event are within the limits.
    pub fn is_within(&self, event: Event) -> bool
        ensures { IsTrue result ↔ step.IsWithin self.now.limits event }
    {
        is_within(&self.layout, event)
    }

    /// The words of the store.
    pub fn words(&self) -> &[u64]
        ensures { result.now ≡ self.now.words }
    {
        self.words.as_slice()
    }

    /// Makes a step, and answers the word that it found. A step that isn't enabled changes nothing.
    pub fn step(&mut self, event: Event) -> Result<u64, NotEnabled>
        requires { step.IsWithin self.old.limits event }
        ensures limits { self.new.limits ≡ self.old.limits }
        ensures steps { Steps self.old self.new event result }
        ensures not { OnErr result (self.new ≡ self.old) }
    {
        let session = session_of(event) as usize;
        let now = self.numbers[session];
        if !allows(&self.layout.limits, &now, event) {
            return Err(NotEnabled);
        }
        if !stands(&self.layout, self.words.as_slice(), &now, event) {
            return Err(NotEnabled);
        }
        let time = time(&self.layout, self.words.as_slice(), event);
        let address = target(&self.layout, &now, event) as usize;
        let found = self.words[address];
        self.words[address] = written(&self.layout.limits, &now, time, event, found);
        self.numbers[session] = after(&self.layout, now, event, found);
        Ok(found)
    }
}
