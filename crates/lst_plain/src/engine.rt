//! The store part of the engine.
ghost use Rattle.lst_plain.specs.Engines.{IsWhole};

use crate::records::Records;
use crate::session::Session;
use lst_layout::{Layout, Limits};
use lst_model::{OutOfMemory, Time};
use std::alloc::Global;

/// What answers the calls of sessions: the rows of each key as a list of versions.
#[derive(Drop)]
pub(crate) struct Engine {
    /// The limits of its store.
    pub(crate) limits: Limits,
    /// The number of commits.
    pub(crate) clock: Time,
    pub(crate) sessions: Vec<Session>,
    pub(crate) records: Records,
    /// By range: how many writes were accepted.
    pub(crate) accepted: Vec<u32>,
    ghost whole: { IsWhole (record { limits = limits; clock = clock; sessions = sessions.items; records = records; accepted = accepted.items }) },
}

impl Engine {
    ghost use Rattle.std.specs.Prelude.{◌≡◌, IfOk};
    ghost use Rattle.lst_machine.specs.State.{opening_store};
    ghost use Rattle.lst_plain.specs.Telling.{StoreTells};
    ghost use Rattle.lst_plain.specs.EngineOf.{engine_of};

    /// An engine for stores of this layout, without commits, keys or open transactions.
    pub fn new(alloc: Global, layout: &Layout) -> Result<Engine, OutOfMemory>
        ensures limits { IfOk result (λ engine. engine.limits ≡ layout.now.limits) }
        ensures opening { IfOk result (λ engine. StoreTells (engine_of engine) layout.now.limits opening_store) }
    {
        let limits = layout.limits;
        let sessions = new_sessions(alloc, limits.sessions)?;
        let accepted = vec![in alloc; 0; limits.ranges as usize]?;
        Ok(Engine {
            limits,
            clock: 0,
            sessions,
            records: Records::new(alloc),
            accepted,
        })
    }
}

ghost use Rattle.std.specs.Prelude.{◌≡◌, IfOk, replicate};
ghost use Rattle.lst_plain.specs.Sessions.{new_session};

/// As many sessions, none of which has begun anything.
fn new_sessions(alloc: Global, count: u32) -> Result<Vec<Session>, OutOfMemory>
    ensures { IfOk result (λ sessions. sessions.items ≡ replicate count new_session) }
{
    let mut sessions = Vec::new(alloc);
    for _ in 0..count {
        sessions.push(Session::new(alloc))?;
    }
    Ok(sessions)
}

/// The last tail of a range: its number is how many writes the range has accepted.
#[derive(Clone, Copy)]
pub(crate) struct Tail {
    pub range: usize,
    pub number: u32,
}
