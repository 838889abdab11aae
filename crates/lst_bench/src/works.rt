//! Scripts on which sessions work side by side, each on keys of its own, or all on one key.
ghost use Rattle.std.specs.Prelude.{◌≡◌, ◌<◌, IfOk, OnOk};
ghost use Rattle.std.specs.List.{All};
ghost use Rattle.lst_model.specs.Lines.{CallFits, LineFits};

use crate::engines::{drawn, patch, row};
use lst_layout::Limits;
use lst_model::{Call, Line, OutOfMemory};
use lst_script::Script;
use lst_work::{FreeGate, work};
use std::alloc::Global;
use std::io;
use std::sync::Wait;
use std::thread::Threads;
use std::time::{Clock, Instant};

/// Each has a row from the first commit on. They are put in order, so 256 of them are in each range of records.
const KEYS: u64 = 1024;

/// The limits of a store that has the size which a script of at most 200,000 lines behind its first phase takes, by so many sessions.
fn limits_for(sessions: u32, lines: u32) -> Limits
    requires { 0 < sessions }
    ensures sessions { result.sessions ≡ sessions }
    ensures ranges { result.ranges ≡ 4 }
    ensures columns { result.columns ≡ 2 }
{
    Limits {
        columns: 2,
        ranges: 4,
        tails: 9_216,
        sessions,
        txns: lines / 6 / sessions + 2,
        spare: 8,
        indexed: 0,
    }
}

/// What is done with a script, and what it comes to.
#[derive(Clone, Copy)]
enum Deed {
    /// It is drawn: how many lines it has.
    Draw,
    /// The sessions work on it: how many commits there were.
    Work,
    /// The same: how many nanoseconds it took from the call of `work` to its answer, or 0 where the clock can't be read.
    Time,
}

/// Which script is drawn, and what is done with it.
#[derive(Clone, Copy)]
pub struct Task {
    /// How many sessions work.
    sessions: u32,
    /// How many keys each session has. Sessions have different keys, unless this is 1: then all have the one key.
    keys: u64,
    deed: Deed,
    ghost some: { 0 < sessions },
}

/// The task of a kind of run, which is named for what is done and for how many sessions work, as `works_4`; or None where there is none of this name.
pub fn task_of(kind: &str) -> Option<Task> {
    let (name, sessions) = kind.split_once('_')?;
    let (sessions, own) = match sessions {
        "1" => (1, KEYS),
        "2" => (2, KEYS / 2),
        "4" => (4, KEYS / 4),
        _ => return None,
    };
    let (keys, deed) = match name {
        "lines" => (own, Deed::Draw),
        "works" => (own, Deed::Work),
        "times" => (own, Deed::Time),
        "rivals" => (1, Deed::Work),
        _ => return None,
    };
    Some(Task {
        sessions,
        keys,
        deed,
    })
}

/// A script that is being drawn.
#[derive(Drop)]
struct Drawing {
    lines: Script,
    seed: u64,
    /// Of how many sessions the lines are.
    sessions: u32,
}

impl Drawing {
    /// Adds a call of a session.
    fn ask(&mut self, session: u32, call: Call) -> Result<(), OutOfMemory>
        requires call { (session < self.old.sessions) × CallFits 2 call }
        requires fits { All (LineFits self.old.sessions 4 2) self.old.lines }
        ensures fits { OnOk result (All (LineFits self.old.sessions 4 2) self.new.lines) }
        ensures same { self.new.sessions ≡ self.old.sessions }
    {
        self.lines.push(Line::Call { session, call })?;
        Ok(())
    }

    /// The first phase, which puts each key.
    fn fill(&mut self) -> Result<(), OutOfMemory>
        requires some { 0 < self.old.sessions }
        requires fits { All (LineFits self.old.sessions 4 2) self.old.lines }
        ensures fits { OnOk result (All (LineFits self.old.sessions 4 2) self.new.lines) }
        ensures same { self.new.sessions ≡ self.old.sessions }
    {
        self.ask(0, Call::Begin)?;
        for key in 0..KEYS {
            self.ask(
                0,
                Call::Insert {
                    key,
                    row: row(key, 0),
                },
            )?;
        }
        self.ask(0, Call::Commit)?;
        self.lines.push(Line::Phase)?;
        Ok(())
    }

    /// A key of a session.
    fn key(&mut self, session: u32, keys: u64) -> u64
        ensures lines { self.new.lines ≡ self.old.lines }
        ensures same { self.new.sessions ≡ self.old.sessions }
    {
        let first = if keys == 1 { 0 } else { u64::from(session) };
        first
            .wrapping_mul(keys)
            .wrapping_add(drawn(&mut self.seed, keys))
    }

    /// A transaction of six lines. One in ten is rolled back.
    fn transact(&mut self, session: u32, keys: u64) -> Result<(), OutOfMemory>
        requires session { session < self.old.sessions }
        requires fits { All (LineFits self.old.sessions 4 2) self.old.lines }
        ensures fits { OnOk result (All (LineFits self.old.sessions 4 2) self.new.lines) }
        ensures same { self.new.sessions ≡ self.old.sessions }
    {
        self.ask(session, Call::Begin)?;
        let key = self.key(session, keys);
        let patch = patch(key);
        self.ask(session, Call::Update { key, patch })?;
        for _ in 0..3 {
            let key = self.key(session, keys);
            self.ask(session, Call::Get { key })?;
        }
        if drawn(&mut self.seed, 10) == 0 {
            return self.ask(session, Call::Abort);
        }
        self.ask(session, Call::Commit)
    }
}

/// The script of a task, with about so many lines behind its first phase.
fn script(alloc: Global, task: Task, lines: u32) -> Result<Script, OutOfMemory>
    ensures { IfOk result (All (LineFits task.sessions 4 2)) }
{
    let mut drawing = Drawing {
        lines: Script::new(alloc),
        seed: 1,
        sessions: task.sessions,
    };
    drawing.fill()?;
    let mut session = 0;
    for _ in 0..lines / 6 {
        drawing.transact(session, task.keys)?;
        session = if session + 1 < task.sessions {
            session + 1
        } else {
            0
        };
    }
    Ok(drawing.lines)
}

/// How many nanoseconds there are from one time to another, or 0 where either is missing.
fn between(start: io::Result<Instant>, end: io::Result<Instant>) -> u64 {
    match (start, end) {
        (Ok(start), Ok(end)) => u64::try_from(end.duration_since(start).as_nanos()).unwrap_or(
            u64::MAX,
        ),
        _ => 0,
    }
}

/// Draws the script of a task, with about so many lines behind its first phase, and does with it what `Deed` says, which says what is answered too. Each
/// session has a thread of its own. A store that can't have the limits answers 0.
pub fn works<R: Threads + Wait + Sync + Clock>(
    rt: &R,
    alloc: Global,
    task: Task,
    lines: u32,
) -> Result<u64, OutOfMemory> {
    let Ok(layout) = limits_for(task.sessions, lines).check() else {
        return Ok(0);
    };
    let script = script(alloc, task, lines)?;
    if let Deed::Draw = task.deed {
        return Ok(script.len() as u64);
    }
    let start = Instant::now(rt);
    let (report, _, _) = work(rt, alloc, &layout, &script, &FreeGate)?;
    let end = Instant::now(rt);
    Ok(match task.deed {
        Deed::Time => between(start, end),
        _ => report.history.len() as u64,
    })
}
