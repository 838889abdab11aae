//! Drawn scripts on the store, on the plain engine and on the machine that runs from its definition: each line is answered alike.
ghost use Rattle.std.specs.Prelude.{◌≡◌, ◌<◌, IfOk};
ghost use Rattle.lst_model.specs.Lines.{CallFits, IsPatch, LineFits};
ghost use Rattle.lst_plain.specs.Plains.{limits_of};
ghost use Rattle.lst_machine.specs.Machines.{limits_of as machine_limits};
ghost use Rattle.lst_session.specs.Crews.{IsCrewOf};

use crate::calls::same;
use arrayvec::ArrayVec;
use lst_layout::Limits;
use lst_machine::Machine;
use lst_model::{Call, Line, OutOfMemory, Patch, Reply, Row};
use lst_plain::Plain;
use lst_rule::Store;
use lst_scan::crew_line;
use lst_session::{Crew, open_crew};
use std::alloc::Global;
use std::process::Abort;

/// Limits that drawn scripts come to: a range of few tails, few transactions. The second column has an index.
const NARROW: Limits = Limits {
    columns: 2,
    ranges: 1,
    tails: 24,
    sessions: 3,
    txns: 12,
    spare: 1,
    indexed: 2,
};

/// The same with more spare frames, so that fewer merges lack one, and with an index on each column.
const SPARE: Limits = Limits {
    columns: 2,
    ranges: 1,
    tails: 24,
    sessions: 3,
    txns: 12,
    spare: 8,
    indexed: 3,
};

/// Limits at which records run out first. No column has an index.
const WIDE: Limits = Limits {
    columns: 2,
    ranges: 1,
    tails: 600,
    sessions: 3,
    txns: 400,
    spare: 1,
    indexed: 0,
};

/// Limits of two ranges, with an index on the second column.
const BROAD: Limits = Limits {
    columns: 2,
    ranges: 2,
    tails: 500,
    sessions: 3,
    txns: 600,
    spare: 2,
    indexed: 2,
};

/// Draws numbers, and calls of two columns, from a seed.
#[derive(Drop)]
pub(crate) struct Drawer {
    pub(crate) seed: u64,
    pub(crate) keys: u64,
}

/// Sets the first column, to null where there is no number, and the second where there is a cell for it.
fn first_and(first: Option<u64>, second: Option<Option<u64>>) -> Patch
    ensures { IsPatch 2 result }
{
    let mut patch = Patch::of_numbers(ArrayVec::new());
    patch.push(Some(first));
    patch.push(second);
    patch
}

/// Sets the second column alone.
fn second_alone(second: Option<u64>) -> Patch
    ensures { IsPatch 2 result }
{
    let mut patch = Patch::of_numbers(ArrayVec::new());
    patch.push(None);
    patch.push(Some(second));
    patch
}

impl Drawer {
    /// A number below this one, or 0.
    fn draw(&mut self, below: u64) -> u64 {
        self.seed = self
            .seed
            .wrapping_mul(6364136223846793005)
            .wrapping_add(1442695040888963407);
        if below == 0 {
            0
        } else {
            (self.seed >> 33) % below
        }
    }

    fn draw_session(&mut self) -> u32
        ensures { result < 3 }
    {
        match self.draw(3) {
            0 => 0,
            1 => 1,
            _ => 2,
        }
    }

    fn draw_key(&mut self) -> u64 {
        let keys = self.keys;
        self.draw(keys)
    }

    fn draw_row(&mut self) -> Row
        ensures { CallFits 2 (Call.Insert 0 result) }
    {
        let mut row = Row::of_numbers(ArrayVec::new());
        row.push(self.draw_cell());
        row.push(self.draw_cell());
        row
    }

    /// A number below 9, or null.
    fn draw_cell(&mut self) -> Option<u64> {
        match self.draw(10) {
            9 => None,
            number => Some(number),
        }
    }

    fn draw_patch(&mut self) -> Patch
        ensures { CallFits 2 (Call.Update 0 result) }
    {
        let cell = self.draw_cell();
        match self.draw(3) {
            0 => first_and(cell, None),
            1 => second_alone(cell),
            _ => first_and(cell, Some(Some(9))),
        }
    }

    fn draw_column(&mut self) -> u32
        ensures { result < 2 }
    {
        if self.draw(2) == 0 { 0 } else { 1 }
    }

    pub(crate) fn draw_call(&mut self) -> Call
        ensures { CallFits 2 result }
    {
        match self.draw(24) {
            0 | 1 | 2 => Call::Begin,
            3 => Call::AsOf {
                time: self.draw(12),
            },
            4 | 5 | 6 => Call::Get {
                key: self.draw_key(),
            },
            7 | 8 | 9 | 10 => Call::Insert {
                key: self.draw_key(),
                row: self.draw_row(),
            },
            11 | 12 | 13 => Call::Update {
                key: self.draw_key(),
                patch: self.draw_patch(),
            },
            14 | 15 => Call::Delete {
                key: self.draw_key(),
            },
            16 => Call::Abort,
            17 => Call::Sum {
                column: self.draw_column(),
            },
            18 => Call::Count,
            19 => Call::Scan,
            20 => Call::Find {
                column: self.draw_column(),
                value: self.draw(9),
            },
            _ => Call::Commit,
        }
    }

    /// One of two ranges, or the one that there is.
    fn draw_range(&mut self, ranges: u32) -> u32
        requires { 0 < ranges }
        ensures { result < ranges }
    {
        if ranges > 1 && self.draw(2) == 1 {
            1
        } else {
            0
        }
    }

    /// A call of one of three sessions, a merge, or the end of a phase.
    fn draw_line(&mut self, ranges: u32) -> Line
        requires { 0 < ranges }
        ensures { LineFits 3 ranges 2 result }
    {
        match self.draw(45) {
            0 => Line::Phase,
            1 | 2 | 3 | 4 | 5 => Line::Merge {
                range: self.draw_range(ranges),
                column: self.draw_column(),
            },
            _ => Line::Call {
                session: self.draw_session(),
                call: self.draw_call(),
            },
        }
    }
}

/// The answers to one line: the store's, the plain engine's and the machine's.
#[derive(Drop)]
struct Answered {
    line: Line,
    stored: Reply,
    plain: Reply,
    machine: Reply,
}

impl Answered {
    /// All three answers are the same.
    fn agree(&self, rt: &impl Abort, seed: u64) {
        same(rt, &self.plain, &self.machine, (seed, &self.line));
        same(rt, &self.stored, &self.plain, (seed, &self.line));
    }
}

/// Asks all three for the answer to a drawn line.
fn answers(
    alloc: Global,
    store: &Store,
    crew: &mut Crew,
    plain: &mut Plain,
    machine: &mut Machine,
    ranges: u32,
    drawer: &mut Drawer,
) -> Result<Answered, OutOfMemory>
    requires some { 0 < ranges }
    requires crew { IsCrewOf store.now crew.old }
    requires sessions { (crew.old.seat.view.limits.sessions ≡ 3) × (crew.old.seat.view.limits.ranges ≡ ranges) × (crew.old.seat.view.limits.columns ≡ 2) }
    requires plain { ((limits_of plain.old).sessions ≡ 3) × ((limits_of plain.old).ranges ≡ ranges) × ((limits_of plain.old).columns ≡ 2) }
    requires machine { ((machine_limits machine.old).sessions ≡ 3) × ((machine_limits machine.old).ranges ≡ ranges) × ((machine_limits machine.old).columns ≡ 2) }
    ensures crew { IsCrewOf store.now crew.new }
    ensures sessions { IfOk result (λ _. (crew.new.seat.view.limits.sessions ≡ 3) × (crew.new.seat.view.limits.ranges ≡ ranges) × (crew.new.seat.view.limits.columns ≡ 2)) }
    ensures plain { ((limits_of plain.new).sessions ≡ 3) × ((limits_of plain.new).ranges ≡ ranges) × ((limits_of plain.new).columns ≡ 2) }
    ensures machine { ((machine_limits machine.new).sessions ≡ 3) × ((machine_limits machine.new).ranges ≡ ranges) × ((machine_limits machine.new).columns ≡ 2) }
{
    let line = drawer.draw_line(ranges);
    let stored = crew_line(alloc, store, crew, &line)?;
    let plain = plain.line(&line)?;
    let machine = machine.line(&line)?;
    Ok(Answered {
        line,
        stored,
        plain,
        machine,
    })
}

/// What the replies to drawn scripts have been.
#[derive(Drop)]
struct Counts {
    refused: u32,
    rows: u32,
    keys: u32,
    merged: u32,
    merged_beyond: u32,
    no_frame: u32,
}

impl Counts {
    fn new() -> Counts {
        Counts {
            refused: 0,
            rows: 0,
            keys: 0,
            merged: 0,
            merged_beyond: 0,
            no_frame: 0,
        }
    }

    fn count(&mut self, line: &Line, reply: &Reply) {
        let kind = match (line, reply) {
            (_, Reply::Refused { .. }) => &mut self.refused,
            (_, Reply::Rows { .. }) => &mut self.rows,
            (_, Reply::Keys { .. }) => &mut self.keys,
            (Line::Merge { range: 1, .. }, Reply::Merged { .. }) => &mut self.merged_beyond,
            (_, Reply::Merged { .. }) => &mut self.merged,
            (_, Reply::NoFrame { .. }) => &mut self.no_frame,
            _ => return,
        };
        *kind = kind.wrapping_add(1);
    }
}

/// Compares the three over a drawn script of this many lines, and counts the replies.
fn compare(
    rt: &(impl Abort + AllocGlobal),
    limits: &Limits,
    keys: u64,
    seed: u64,
    lines: u32,
    counts: &mut Counts,
) -> Result<(), OutOfMemory>
    requires { (limits.now.sessions ≡ 3) × (0 < limits.now.ranges) × (limits.now.columns ≡ 2) }
{
    let Ok(layout) = limits.check() else {
        panic!(rt; "the limits are in range");
    };
    let (store, mut crew) = open_crew(rt.alloc(), &layout)?;
    let mut plain = Plain::new(rt.alloc(), &layout)?;
    let mut machine = Machine::new(rt.alloc(), &layout)?;
    let mut drawer = Drawer { seed, keys };
    for _ in 0..lines {
        let answers = answers(
            rt.alloc(),
            &store,
            &mut crew,
            &mut plain,
            &mut machine,
            limits.ranges,
            &mut drawer,
        )?;
        answers.agree(rt, seed);
        counts.count(&answers.line, &answers.stored);
    }
    Ok(())
}

#[test]
fn drawn_scripts_are_answered_as_the_engines_of_one_thread_answer_them(
    rt: HostRuntime,
) -> Result<(), OutOfMemory> {
    let mut counts = Counts::new();
    for seed in 0..200u64 {
        compare(&rt, &NARROW, 6, seed, 90, &mut counts)?;
    }
    for seed in 200..300u64 {
        compare(&rt, &SPARE, 6, seed, 90, &mut counts)?;
    }
    let is_varied = counts.refused > 3000 && counts.rows > 0 && counts.keys > 0;
    same(&rt, is_varied, true, "replies");
    same(
        &rt,
        counts.merged > 0 && counts.no_frame > 0,
        true,
        "merges",
    );
    Ok(())
}

#[test]
fn drawn_scripts_fill_the_table(rt: HostRuntime) -> Result<(), OutOfMemory> {
    for seed in 0..6u64 {
        let mut counts = Counts::new();
        compare(&rt, &WIDE, 400, seed, 2400, &mut counts)?;
        same(&rt, counts.refused > 200, true, seed);
    }
    Ok(())
}

#[test]
fn drawn_scripts_go_beyond_one_range(rt: HostRuntime) -> Result<(), OutOfMemory> {
    let mut counts = Counts::new();
    for seed in 0..2u64 {
        compare(&rt, &BROAD, 500, seed, 7000, &mut counts)?;
    }
    let is_varied = counts.merged > 0 && counts.merged_beyond > 0 && counts.keys > 0;
    same(&rt, is_varied, true, "merges");
    Ok(())
}
