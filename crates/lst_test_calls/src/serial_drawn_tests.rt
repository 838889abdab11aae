//! Drawn calls of three sessions by turns, against a plain recomputation: each commit is answered as of the time before it, and each one that is refused as
//! stale has its reason.

use crate::serials::{Opened, Step, open_three};
use crate::steps::Cells;
use lst_model::{Key, Time};
use lst_serial::{SerialCommit, SerialRead, SerialWrite};
use lst_session::{BeginRefusal, NotBegun, Outcome, WriteRefusal};
use std::alloc::Global;
use std::process::Abort;
use std::sync::Wait;
use std::test::Fail;

/// The keys are those below it.
const KEYS: u64 = 6;

/// The rows by key.
type Table = [Option<Cells>; 6];

/// What a transaction was told of a row, or did to it.
#[derive(Clone, Copy)]
enum Deed {
    /// The row that it was told.
    Saw(Option<Cells>),
    /// Whether there is one.
    Found(bool),
    /// How it left the row.
    Left(Option<Cells>),
}

/// A session's transaction.
#[derive(Drop)]
struct Doing {
    is_open: bool,
    begin: Time,
    deeds: Vec<(Key, Deed)>,
    /// Which keys it has read.
    keys: [bool; 6],
    all: bool,
}

/// The table as of each time, and which keys each commit wrote.
#[derive(Drop)]
struct Past {
    tables: Vec<Table>,
    wrote: Vec<[bool; 6]>,
}

/// The table after the deeds, or None where one of them isn't as it was told.
fn replayed(table: Table, deeds: &[(Key, Deed)]) -> Option<Table> {
    let mut table = table;
    for &(key, deed) in deeds {
        let at = (key % 6) as usize;
        match deed {
            Deed::Saw(row) if table[at] != row => return None,
            Deed::Found(is_there) if table[at].is_some() != is_there => return None,
            Deed::Left(row) => table[at] = row,
            _ => {}
        }
    }
    Some(table)
}

impl Past {
    fn clock(&self) -> Time {
        self.wrote.len() as u64
    }

    fn table_at(&self, time: Time) -> Table {
        self.tables.get(time as usize).copied().unwrap_or([None; 6])
    }

    /// The last time above the begin at which a commit wrote the key.
    fn changed(&self, key: Key, begin: Time) -> Option<Time> {
        let mut last = None;
        let mut time = 0u64;
        for keys in self.wrote.iter() {
            time = time.wrapping_add(1);
            if time > begin && keys[(key % 6) as usize] {
                last = Some(time);
            }
        }
        last
    }

    /// The time of a commit that changed what was read, if there is one.
    fn stale(&self, doing: &Doing) -> Option<Time> {
        if doing.all {
            return if self.clock() > doing.begin {
                Some(doing.begin.wrapping_add(1))
            } else {
                None
            };
        }
        for key in 0..6 {
            if doing.keys[key] {
                if let Some(time) = self.changed(key as u64, doing.begin) {
                    return Some(time);
                }
            }
        }
        None
    }
}

impl Doing {
    /// What the deeds wrote.
    fn wrote(&self) -> [bool; 6] {
        let mut wrote = [false; 6];
        for &(key, deed) in self.deeds.iter() {
            if let Deed::Left(_) = deed {
                wrote[(key % 6) as usize] = true;
            }
        }
        wrote
    }

    /// The row as the transaction sees it.
    fn row(&self, past: &Past, key: Key) -> Option<Cells> {
        match replayed(past.table_at(self.begin), self.deeds.as_slice()) {
            Some(table) => table[(key % 6) as usize],
            None => None,
        }
    }

    /// A write of a row that has to be there, or not: what it was answered tells whether there is one.
    fn write(
        &mut self,
        key: Key,
        there: bool,
        left: Option<Cells>,
        answer: Result<(), SerialWrite>,
    ) -> Result<(), Fail> {
        match answer {
            Ok(()) => {
                self.deeds.push((key, Deed::Found(there)))?;
                self.deeds.push((key, Deed::Left(left)))?;
            }
            Err(
                SerialWrite::Refused {
                    cause: WriteRefusal::Exists,
                },
            ) => self.deeds.push((key, Deed::Found(true)))?,
            Err(
                SerialWrite::Refused {
                    cause: WriteRefusal::Missing,
                },
            ) => self.deeds.push((key, Deed::Found(false)))?,
            Err(_) => {}
        }
        Ok(())
    }
}

/// Three sessions with their transactions.
#[derive(Drop)]
struct Drawing {
    on: Opened,
    past: Past,
    doings: Vec<Doing>,
    seed: u64,
    /// How many commits were refused as stale.
    stale: u64,
}

/// The next number of a seed, below this one.
fn drawn(seed: &mut u64, below: u64) -> u64 {
    *seed = seed
        .wrapping_mul(6364136223846793005)
        .wrapping_add(1442695040888963407);
    if below == 0 { 0 } else { (*seed >> 33) % below }
}

/// A call that is drawn, without its answer.
fn drawn_call(seed: &mut u64, is_open: bool) -> Step {
    let key = drawn(seed, KEYS);
    let value = drawn(seed, 100);
    let kind = drawn(seed, 40);
    if !is_open {
        return Step::Begin(Ok(0));
    }
    match kind {
        0..=13 => Step::Get(key, Err(SerialRead::Idle)),
        14..=18 => Step::Insert(key, value, value, Ok(())),
        19..=24 => Step::Update(key, value, Ok(())),
        25..=28 => Step::Delete(key, Ok(())),
        29 => Step::ReadAll(Err(NotBegun)),
        30..=33 => Step::Abort(Ok(())),
        _ => Step::TryCommit(Err(SerialCommit::Idle)),
    }
}

impl Doing {
    /// It begins, with the clock for its begin, and has read nothing.
    fn starts(&mut self, rt: &impl Abort, past: &Past, answer: Result<Time, BeginRefusal>) {
        assert_eq!(rt; answer, Ok(past.clock()));
        self.is_open = true;
        self.begin = past.clock();
        self.deeds.clear();
        self.keys = [false; 6];
        self.all = false;
    }

    /// What its commit is to be answered.
    fn end(&self, past: &Past) -> Result<Outcome, SerialCommit> {
        if self.wrote() == [false; 6] {
            return Ok(Outcome::Ended { time: self.begin });
        }
        match past.stale(self) {
            Some(time) => Err(SerialCommit::Stale { time }),
            None => Ok(Outcome::Committed {
                time: past.clock().wrapping_add(1),
            }),
        }
    }
}

impl Past {
    /// A commit. What it was told is so as of the time before it.
    fn commit(&mut self, doing: &Doing) -> Result<(), Fail> {
        let before = self.table_at(self.clock());
        let Some(table) = replayed(before, doing.deeds.as_slice()) else {
            return Err(Fail::from("the commit is at its serial place"));
        };
        self.tables.push(table)?;
        self.wrote.push(doing.wrote())?;
        Ok(())
    }
}

/// The answer to a commit is the one that is to come, and what was told before is so as of the begin.
fn ends(
    rt: &impl Abort,
    past: &mut Past,
    doing: &mut Doing,
    answer: Result<Outcome, SerialCommit>,
) -> Result<(), Fail> {
    assert_eq!(rt; answer, doing.end(past));
    assert!(rt; replayed(past.table_at(doing.begin), doing.deeds.as_slice()).is_some());
    match answer {
        Ok(Outcome::Committed { .. }) => past.commit(doing)?,
        Ok(Outcome::Ended { .. }) => {}
        Err(_) => return Ok(()),
    }
    doing.is_open = false;
    Ok(())
}

/// The key that a call reads.
fn key_of(step: Step) -> Option<Key> {
    match step {
        Step::Get(key, _) => Some(key),
        Step::Insert(key, ..) => Some(key),
        Step::Update(key, ..) => Some(key),
        Step::Delete(key, _) => Some(key),
        _ => None,
    }
}

/// What was answered to a read or a write.
fn heeds(past: &Past, doing: &mut Doing, told: Step) -> Result<(), Fail> {
    match told {
        Step::Get(key, Ok(row)) => doing.deeds.push((key, Deed::Saw(row)))?,
        Step::Insert(key, first, second, answer) => {
            doing.write(key, false, Some((Some(first), Some(second))), answer)?;
        }
        Step::Update(key, first, answer) => {
            let left = match doing.row(past, key) {
                Some((_, second)) => Some((Some(first), second)),
                None => None,
            };
            doing.write(key, true, left, answer)?;
        }
        Step::Delete(key, answer) => doing.write(key, true, None, answer)?,
        Step::ReadAll(Ok(())) => doing.all = true,
        Step::Abort(Ok(())) => doing.is_open = false,
        _ => return Err(Fail::from("a transaction is open")),
    }
    Ok(())
}

/// What a call of the session was answered.
fn note(rt: &impl Abort, past: &mut Past, doing: &mut Doing, told: Step) -> Result<(), Fail> {
    if let Some(key) = key_of(told) {
        doing.keys[(key % 6) as usize] = true;
    }
    match told {
        Step::Begin(answer) => {
            doing.starts(rt, past, answer);
            Ok(())
        }
        Step::TryCommit(answer) => ends(rt, past, doing, answer),
        _ => heeds(past, doing, told),
    }
}

impl Drawing {
    /// One call of a session.
    fn turn(&mut self, rt: &(impl Abort + Wait), session: u32) -> Result<(), Fail> {
        let Some(doing) = self.doings.get_mut(session as usize) else {
            return Err(Fail::from("there are three sessions"));
        };
        let call = drawn_call(&mut self.seed, doing.is_open);
        let told = self.on.ask(rt, session, call);
        if let Step::TryCommit(Err(_)) = told {
            self.stale = self.stale.wrapping_add(1);
        }
        note(rt, &mut self.past, doing, told)
    }
}

/// Three sessions without a transaction, on an empty store.
fn three_idle(alloc: Global) -> Result<Drawing, Fail> {
    let mut tables = Vec::new(alloc);
    tables.push([None; 6])?;
    let mut doings = Vec::new(alloc);
    for _ in 0..3 {
        doings.push(Doing {
            is_open: false,
            begin: 0,
            deeds: Vec::new(alloc),
            keys: [false; 6],
            all: false,
        })?;
    }
    Ok(Drawing {
        on: open_three(alloc, 4096, 1000)?,
        past: Past {
            tables,
            wrote: Vec::new(alloc),
        },
        doings,
        seed: 1,
        stale: 0,
    })
}

#[test]
fn each_drawn_commit_is_at_its_serial_place(rt: HostRuntime) -> Result<(), Fail> {
    let mut drawing = three_idle(rt.alloc())?;
    for turn in 0..6000 {
        drawing.turn(&rt, turn % 3)?;
    }
    let commits = drawing.past.clock();
    let stale = drawing.stale;
    assert!(rt; commits > 150, "{commits} commits");
    assert!(rt; stale > 50, "{stale} are stale");
    Ok(())
}
