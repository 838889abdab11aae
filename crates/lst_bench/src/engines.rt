//! Scripts on the plain engine: transactions of one update and three gets, and one line in a hundred that asks about all rows.
ghost use Rattle.std.specs.Prelude.{◌≡◌, ◌<◌};
ghost use Rattle.lst_model.specs.Lines.{CallFits, IsPatch};
ghost use Rattle.lst_plain.specs.Plains.{limits_of};

use arrayvec::ArrayVec;
use lst_layout::{Layout, Limits};
use lst_model::{Call, Key, Line, OutOfMemory, Patch, Reply, Row};
use lst_plain::Plain;
use std::alloc::Global;

/// Each has a row from the first commit on.
const KEYS: u64 = 1000;

/// The first cell of a row is below it.
const VALUES: u64 = 100;

/// Half of the lines are gets: of so many, one gives way to a call that asks about all rows.
const GETS: u64 = 50;

/// The limits of the engine.
const LIMITS: Limits = Limits {
    columns: 2,
    ranges: 4,
    tails: 16_384,
    sessions: 4,
    txns: 65_535,
    spare: 8,
    indexed: 1,
};

/// The next number of a seed, below this one.
pub(crate) fn drawn(seed: &mut u64, below: u64) -> u64 {
    *seed = seed
        .wrapping_mul(6364136223846793005)
        .wrapping_add(1442695040888963407);
    if below == 0 { 0 } else { (*seed >> 33) % below }
}

/// Asks an engine for the answers to drawn lines, or draws the lines alone.
#[derive(Drop)]
struct Asker {
    plain: Plain,
    answers: bool,
    seed: u64,
    lines: u32,
    gets: u64,
    done: u64,
    ghost sized: { ((limits_of plain).sessions ≡ 4) × ((limits_of plain).ranges ≡ 4) × ((limits_of plain).columns ≡ 2) },
}

/// A row of a number and its key.
pub(crate) fn row(key: Key, value: u64) -> Row
    ensures { CallFits 2 (Call.Insert key result) }
{
    let mut cells = ArrayVec::new();
    cells.push(value);
    cells.push(key);
    Row::of_numbers(cells)
}

/// The patch of a row's first cell.
pub(crate) fn patch(value: u64) -> Patch
    ensures { IsPatch 2 result }
{
    let mut cells = ArrayVec::new();
    cells.push(Some(value));
    cells.push(None);
    Patch::of_numbers(cells)
}

impl Asker {
    /// A number below this one.
    fn draw(&mut self, below: u64) -> u64 {
        drawn(&mut self.seed, below)
    }

    /// Passes a call of a session, and asks for its answer if the engine is to answer.
    fn ask(&mut self, session: u32, call: Call) -> Result<(), OutOfMemory>
        requires { (session < 4) × CallFits 2 call }
    {
        self.lines = self.lines.wrapping_add(1);
        if !self.answers {
            return Ok(());
        }
        match self.plain.line(&Line::Call { session, call })? {
            Reply::Refused { .. } => {}
            _ => self.done = self.done.wrapping_add(1),
        }
        Ok(())
    }

    /// The first commit, which inserts each key.
    fn fill(&mut self) -> Result<(), OutOfMemory> {
        self.ask(0, Call::Begin)?;
        for key in 0..KEYS {
            let value = self.draw(VALUES);
            let row = row(key, value);
            self.ask(0, Call::Insert { key, row })?;
        }
        self.ask(0, Call::Commit)
    }

    /// A get, or in its place a call that asks about all rows: a sum, a count, a scan and a find in turn.
    fn look(&mut self, session: u32) -> Result<(), OutOfMemory>
        requires { session < 4 }
    {
        self.gets = self.gets.wrapping_add(1);
        if self.gets % GETS > 0 {
            let key = self.draw(KEYS);
            return self.ask(session, Call::Get { key });
        }
        match self.gets / GETS % 4 {
            0 => self.ask(session, Call::Sum { column: 0 }),
            1 => self.ask(session, Call::Count),
            2 => self.ask(session, Call::Scan),
            _ => {
                let value = self.draw(VALUES);
                self.ask(session, Call::Find { column: 0, value })
            }
        }
    }

    /// A transaction of six lines. One in ten is rolled back.
    fn transact(&mut self, session: u32) -> Result<(), OutOfMemory>
        requires { session < 4 }
    {
        self.ask(session, Call::Begin)?;
        let key = self.draw(KEYS);
        let value = self.draw(VALUES);
        let patch = patch(value);
        self.ask(session, Call::Update { key, patch })?;
        for _ in 0..3 {
            self.look(session)?;
        }
        if self.draw(10) == 0 {
            return self.ask(session, Call::Abort);
        }
        self.ask(session, Call::Commit)
    }
}

/// Draws a script of about so many lines, at least those that fill the rows, and answers how many lines it has; or how many of them the
/// plain engine didn't refuse.
pub fn engine(alloc: Global, answers: bool, lines: u32) -> Result<u64, OutOfMemory> {
    let Ok(layout) = LIMITS.check() else {
        return Ok(0);
    };
    let mut asker = open(alloc, &layout, answers)?;
    asker.fill()?;
    for turn in 0..lines / 6 {
        if asker.lines >= lines {
            break;
        }
        asker.transact(turn % 4)?;
    }
    Ok(if answers {
        asker.done
    } else {
        u64::from(asker.lines)
    })
}

fn open(alloc: Global, layout: &Layout, answers: bool) -> Result<Asker, OutOfMemory>
    requires { (layout.now.limits.sessions ≡ 4) × (layout.now.limits.ranges ≡ 4) × (layout.now.limits.columns ≡ 2) }
{
    Ok(Asker {
        plain: Plain::new(alloc, layout)?,
        answers,
        seed: 1,
        lines: 0,
        gets: 0,
        done: 0,
    })
}
