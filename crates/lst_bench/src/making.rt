//! Scripts with their reports, made without a store: three sessions write in turn, and a fourth reads what it saw when it began.

use arrayvec::ArrayVec;
use lst_model::{Call, Key, KeyList, Line, OutOfMemory, Patch, Reply, Row, RowList, Time};
use lst_report::{Replies, Report, Stamp, Stamps};
use std::alloc::Global;

/// Each has a row from the first commit on.
const KEYS: u64 = 1000;

/// The first cell of a row is below it.
const VALUES: u64 = 100;

/// So many sessions write. The one behind them reads.
const WRITERS: u32 = 3;

/// So many rounds the reader sees one snapshot.
const ROUNDS: u32 = 50;

/// A script and a report that a store may give to it.
#[derive(Drop)]
pub struct Made {
    pub lines: Vec<Line>,
    pub report: Report,
}

/// A script with its report up to some line, and the first cells of the rows by key: after the last commit, and as the reader sees them.
#[derive(Drop)]
struct Making {
    lines: Vec<Line>,
    replies: Replies,
    history: Stamps,
    clock: Time,
    now: Vec<u64>,
    begin: Time,
    seen: Vec<u64>,
    seed: u64,
}

fn row(key: Key, value: u64) -> Row {
    let mut cells = ArrayVec::new();
    cells.push(value);
    cells.push(key);
    Row::of_numbers(cells)
}

/// The patch of a row's first cell.
fn patch(value: u64) -> Patch {
    let mut cells = ArrayVec::new();
    cells.push(Some(value));
    cells.push(None);
    Patch::of_numbers(cells)
}

/// What a get of the key is answered, where the rows have these first cells.
fn got(values: &[u64], key: Key) -> Reply {
    match values.get(key as usize) {
        Some(value) => Reply::Row {
            row: row(key, *value),
        },
        None => Reply::Absent,
    }
}

fn total(values: &[u64]) -> u128 {
    let mut total = 0u128;
    for value in values {
        total = total.wrapping_add(u128::from(*value));
    }
    total
}

fn all_rows(alloc: Global, values: &[u64]) -> Result<RowList, OutOfMemory> {
    let mut list = RowList::new(alloc);
    for (key, value) in values.iter().enumerate() {
        list.push(key as u64, row(key as u64, *value))?;
    }
    Ok(list)
}

fn keys_with(alloc: Global, values: &[u64], wanted: u64) -> Result<KeyList, OutOfMemory> {
    let mut list = KeyList::new(alloc);
    for (key, value) in values.iter().enumerate() {
        if *value == wanted {
            list.push(key as u64)?;
        }
    }
    Ok(list)
}

fn copy(alloc: Global, values: &[u64]) -> Result<Vec<u64>, OutOfMemory> {
    let mut copied = Vec::new(alloc);
    for value in values {
        copied.push(*value)?;
    }
    Ok(copied)
}

impl Making {
    /// A number below this one.
    fn draw(&mut self, below: u64) -> u64 {
        self.seed = self
            .seed
            .wrapping_mul(6364136223846793005)
            .wrapping_add(1442695040888963407);
        if below == 0 {
            0
        } else {
            (self.seed >> 33) % below
        }
    }

    /// Adds a line of a session, and what it is answered.
    fn add(&mut self, session: u32, call: Call, reply: Reply) -> Result<(), OutOfMemory> {
        self.lines.push(Line::Call { session, call })?;
        self.replies.push(Some(session), reply)
    }

    fn get(&mut self, session: u32, key: Key) -> Result<(), OutOfMemory> {
        let reply = got(
            if session == WRITERS {
                self.seen.as_slice()
            } else {
                self.now.as_slice()
            },
            key,
        );
        self.add(session, Call::Get { key }, reply)
    }

    fn begin(&mut self, session: u32) -> Result<(), OutOfMemory> {
        let time = self.clock;
        self.add(session, Call::Begin, Reply::Begun { time })
    }

    /// A commit of a session's transaction with this number, which began at the last commit.
    fn commit(&mut self, session: u32, number: u32) -> Result<(), OutOfMemory> {
        let begin = self.clock;
        self.clock = begin.wrapping_add(1);
        self.history.push(Stamp {
            session,
            number,
            begin,
        })?;
        let time = self.clock;
        self.add(session, Call::Commit, Reply::Committed { time })
    }

    /// The first commit, which inserts each key.
    fn fill(&mut self) -> Result<(), OutOfMemory> {
        self.begin(0)?;
        for key in 0..KEYS {
            let value = self.draw(VALUES);
            self.now.push(value)?;
            let call = Call::Insert {
                key,
                row: row(key, value),
            };
            self.add(0, call, Reply::Done)?;
        }
        self.commit(0, 1)
    }

    /// Five lines of a writer, with one update.
    fn write(&mut self, session: u32, number: u32) -> Result<(), OutOfMemory> {
        self.begin(session)?;
        let other = self.draw(KEYS);
        self.get(session, other)?;
        let key = self.draw(KEYS);
        let value = self.draw(VALUES);
        let call = Call::Update {
            key,
            patch: patch(value),
        };
        self.add(session, call, Reply::Done)?;
        if let Some(cell) = self.now.get_mut(key as usize) {
            *cell = value;
        }
        self.get(session, key)?;
        self.commit(session, number)
    }

    /// One read of all rows: a sum, a count or a find, and now and then a scan.
    fn look(&mut self, alloc: Global, turn: u32) -> Result<(), OutOfMemory> {
        let value = self.draw(VALUES);
        let (call, reply) = match turn % 16 {
            0 => {
                let list = all_rows(alloc, self.seen.as_slice())?;
                (Call::Scan, Reply::Rows { list })
            }
            1 | 4 | 7 | 10 | 13 => {
                let total = total(self.seen.as_slice());
                (Call::Sum { column: 0 }, Reply::Sum { total })
            }
            2 | 5 | 8 | 11 | 14 => (Call::Count, Reply::Count { rows: KEYS }),
            _ => {
                let list = keys_with(alloc, self.seen.as_slice(), value)?;
                (Call::Find { column: 0, value }, Reply::Keys { list })
            }
        };
        self.add(WRITERS, call, reply)
    }

    /// The reader ends its transaction, if there is one, and begins another, which sees the rows as they are.
    fn refresh(&mut self, alloc: Global, turn: u32) -> Result<(), OutOfMemory> {
        if turn > 0 {
            let time = self.begin;
            self.add(WRITERS, Call::Commit, Reply::Ended { time })?;
        }
        self.begin(WRITERS)?;
        self.begin = self.clock;
        self.seen = copy(alloc, self.now.as_slice())?;
        Ok(())
    }

    /// Ten lines: a transaction of a writer, and reads of which one is of all rows.
    fn round(&mut self, alloc: Global, turn: u32) -> Result<(), OutOfMemory> {
        if turn % ROUNDS == 0 {
            self.refresh(alloc, turn)?;
        }
        let session = turn % WRITERS;
        let earlier = if session == 0 { 2 } else { 1 };
        self.write(session, turn / WRITERS + earlier)?;
        for _ in 0..4 {
            let key = self.draw(KEYS + 20);
            self.get(WRITERS, key)?;
        }
        self.look(alloc, turn)
    }
}

/// A script that fills the rows, and then has about so many lines, and its report.
pub fn make(alloc: Global, lines: u32) -> Result<Made, OutOfMemory> {
    let mut making = Making {
        lines: Vec::new(alloc),
        replies: Replies::new(alloc),
        history: Stamps::new(alloc),
        clock: 0,
        now: Vec::new(alloc),
        begin: 0,
        seen: Vec::new(alloc),
        seed: 1,
    };
    making.fill()?;
    for turn in 0..lines / 10 {
        making.round(alloc, turn)?;
    }
    let Making {
        lines,
        replies,
        history,
        ..
    } = making;
    Ok(Made {
        lines,
        report: Report { replies, history },
    })
}
