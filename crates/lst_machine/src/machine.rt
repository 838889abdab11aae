//! The machine and its lines.
ghost use Rattle.lst_machine.specs.Parts.{IsWhole};

use crate::parts::{RangeWrites, Session, Swap};
use lst_layout::{Layout, Limits};
use lst_model::{History, Key, Line, OutOfMemory, Reply};
use std::alloc::Global;

/// The machine of one thread, run from its definition: it keeps the lists that the definition names, and walks them.
#[derive(Drop)]
pub struct Machine {
    pub(crate) alloc: Global,
    /// The limits of its store.
    pub(crate) limits: Limits,
    pub(crate) history: History,
    /// The keys that have a record, in the order in which they got it.
    pub(crate) placed: Vec<Key>,
    pub(crate) ranges: Vec<RangeWrites>,
    pub(crate) sessions: Vec<Session>,
    /// The swaps of pages, in order.
    pub(crate) swaps: Vec<Swap>,
    ghost whole: { IsWhole limits (record { history = history; placed = placed.items; ranges = ranges.items; sessions = sessions.items; swaps = swaps.items }) },
}

impl Machine {
    ghost use Rattle.std.specs.Prelude.{◌≡◌, IfOk, OnErr};
    ghost use Rattle.lst_model.specs.Lines.{LineFits};
    ghost use Rattle.lst_machine.specs.State.{opening};
    ghost use Rattle.lst_machine.specs.Machines.{limits_of, state_of, AnswersLine};

    /// The machine of a store with this layout, in its opening state.
    pub fn new(alloc: Global, layout: &Layout) -> Result<Machine, OutOfMemory>
        ensures limits { IfOk result (λ machine. limits_of machine ≡ layout.now.limits) }
        ensures opening { IfOk result (λ machine. state_of machine ≡ opening) }
    {
        let limits = layout.limits;
        let ranges = new_ranges(alloc, limits.ranges)?;
        let sessions = new_sessions(alloc, limits.sessions)?;
        Ok(Machine {
            alloc,
            limits,
            history: History::new(alloc),
            placed: Vec::new(alloc),
            ranges,
            sessions,
            swaps: Vec::new(alloc),
        })
    }

    /// The limits of its store.
    pub fn limits(&self) -> Limits
        ensures { result ≡ limits_of self.now }
    {
        self.limits
    }

    /// The reply to a line. The state becomes the next one. For want of memory it is as before.
    pub fn line(&mut self, line: &Line) -> Result<Reply, OutOfMemory>
        requires { LineFits (limits_of self.old).sessions (limits_of self.old).ranges (limits_of self.old).columns line.now }
        ensures limits { limits_of self.new ≡ limits_of self.old }
        ensures ok { IfOk result (λ reply. AnswersLine self.old self.new line.now reply) }
        ensures err { OnErr result (state_of self.new ≡ state_of self.old) }
    {
        match line {
            Line::Phase => Ok(Reply::Silent),
            Line::Merge { range, column } => self.merge(*range, *column),
            Line::Call { session, call } => self.call(*session, call),
        }
    }
}

ghost use Rattle.std.specs.Prelude.{◌≡◌, IfOk, [], replicate};
ghost use Rattle.lst_machine.specs.Parts.{new_session};

/// As many ranges without writes.
fn new_ranges(alloc: Global, count: u32) -> Result<Vec<RangeWrites>, OutOfMemory>
    ensures { IfOk result (λ ranges. ranges.items ≡ replicate count []) }
{
    let mut ranges = Vec::new(alloc);
    for _ in 0..count {
        ranges.push(RangeWrites::new(alloc))?;
    }
    Ok(ranges)
}

/// As many sessions, none of which has begun anything.
fn new_sessions(alloc: Global, count: u32) -> Result<Vec<Session>, OutOfMemory>
    ensures { IfOk result (λ sessions. sessions.items ≡ replicate count new_session) }
{
    let mut sessions = Vec::new(alloc);
    for _ in 0..count {
        sessions.push(Session::new(alloc))?;
    }
    Ok(sessions)
}
