//! A list of calls that only clauses read. It takes no memory.
ghost use Rattle.std.specs.Prelude.{◌≡◌, List, [], ◌∷◌};
ghost use Rattle.std.specs.Borrow.{ftrue};
ghost use Rattle.lst_file.specs.Events.{Event, event_of};

use std::marker::{Model, PhantomData};

/// The calls that were noted, the newest first.
#[derive(Drop)]
pub struct Record {
    marker: PhantomData<u8>,
    pub ghost events: { List Event },
}

impl Model for Record {
    ghost also_owns = { λ _. ftrue };
}

impl Record {
    /// No calls.
    pub fn new() -> Record
        ensures { result.events ≡ [] }
    {
        Record {
            marker: PhantomData,
        }
    }

    /// Notes a call. The numbers are those of an `Event`: which call, and a place or a number of bytes.
    pub fn note(&mut self, _numbers: &[u64], _bytes: &[u8])
        ensures { self.new.events ≡ event_of _numbers.now _bytes.now ∷ self.old.events }
    {}
}
