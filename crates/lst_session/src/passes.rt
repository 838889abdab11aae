//! What a crew is parted into: its sessions and its merger.
ghost use Rattle.std.specs.Prelude.{◌≡◌};
ghost use Rattle.std.specs.Borrow.{sem};
ghost use Rattle.lst_session.specs.Lending.{LendsSessions};

use crate::session::Session;
use lst_rule::{Seat, Spares};
use std::marker::Model;

/// Sessions of one store. A crew that is parted gives them in order.
#[derive(Drop)]
pub struct Sessions {
    pub(crate) items: Vec<Session>,
}

impl Model for Sessions {
    ghost use Rattle.std.specs.Prelude.{List};
    ghost use Rattle.lst_session.specs.declared.session.Session.{Session};

    ghost Value = { List Session };

    ghost view = { λ s. s.items.items };
}

impl Sessions {
    /// The sessions of a vector.
    pub fn from_vec(items: Vec<Session>) -> Sessions
        ensures { result ≡ items.items }
    {
        Sessions { items }
    }

    /// The sessions.
    pub fn as_slice(&self) -> &[Session]
        ensures { result.now ≡ self.now }
    {
        self.items.as_slice()
    }

    /// The sessions, for writing. Afterwards they are as they were left.
    pub fn as_mut_slice(&mut self) -> &mut [Session]
        ensures* lends { sem 𝓛 (LendsSessions self.entry result) }
        ensures sessions { result.now ≡ self.old }
    {
        self.items.as_mut_slice()
    }

    /// The vector of the sessions.
    pub fn into_vec(self) -> Vec<Session>
        ensures { result.items ≡ self }
    {
        self.items
    }
}

/// The one merge pass of a store, at a seat that hosts it, with the spare frames.
#[derive(Drop)]
pub struct Merger {
    pub seat: Seat,
    pub spares: Spares,
}

/// Why sessions were not gathered.
#[derive(Drop)]
pub enum GatherCause {
    /// None of the sessions has this number, the least one.
    Gap { missing: u32 },
    OutOfMemory,
}

/// Sessions and a merger that were not gathered, as they were.
#[derive(Drop)]
pub struct GatherRefusal {
    pub sessions: Sessions,
    pub merger: Merger,
    pub cause: GatherCause,
}
