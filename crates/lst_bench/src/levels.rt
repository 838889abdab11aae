//! Transactions of one session at both levels, each of one update and three gets.
ghost use Rattle.std.specs.Prelude.{◌≡◌, IfSome};
ghost use Rattle.std.specs.List.{All};
ghost use Rattle.lst_session.specs.Crews.{IsCrewOf};
ghost use Rattle.lst_session.specs.Passes.{IsReady};

use crate::engines::{drawn, patch};
use crate::reads::put;
use crate::sums::merge_all;
use lst_layout::Limits;
use lst_model::{Key, OutOfMemory};
use lst_rule::Store;
use lst_serial::Serial;
use lst_session::{Crew, Session, Sessions, open_crew};
use std::alloc::Global;

/// Each has a row from the first commit on.
const KEYS: u64 = 1024;

/// A store of one session and four ranges, with a row of two columns on each of its records.
const LIMITS: Limits = Limits {
    columns: 2,
    ranges: 4,
    tails: 4096,
    sessions: 1,
    txns: 65_535,
    spare: 8,
    indexed: 0,
};

/// The level of the transactions.
#[derive(Clone, Copy)]
pub(crate) enum Level {
    /// Of a session.
    Snapshot,
    /// Of a session at the serializable level.
    Serializable,
}

/// How a kind of run goes: the level of its transactions, and whether the pages are merged before them.
#[derive(Clone, Copy)]
pub(crate) struct Course {
    level: Level,
    merged: bool,
}

/// The course of a kind of run of this name, or None where there is none.
pub(crate) fn course_of(kind: &str) -> Option<Course> {
    let (level, merged) = match kind {
        "snapshot" => (Level::Snapshot, false),
        "serializable" => (Level::Serializable, false),
        "snapshot_merged" => (Level::Snapshot, true),
        "serializable_merged" => (Level::Serializable, true),
        _ => return None,
    };
    Some(Course { level, merged })
}

/// A session on its store. Each call tells whether it was done.
trait Hosts {
    fn begin(&mut self) -> bool;

    fn update(&mut self, key: Key) -> bool;

    fn get(&mut self, key: Key) -> bool;

    fn commit(&mut self) -> bool;
}

/// A store of two columns, and its session.
#[derive(Drop)]
struct Opened {
    store: Store,
    session: Session,
    ghost own: { IsReady store session × (store.layout.limits.columns ≡ 2) },
}

impl Hosts for Opened {
    fn begin(&mut self) -> bool {
        self.session.begin(&self.store).is_ok()
    }

    fn update(&mut self, key: Key) -> bool {
        self.session.update(&self.store, key, &patch(key)).is_ok()
    }

    fn get(&mut self, key: Key) -> bool {
        self.session.get(&self.store, key).is_ok()
    }

    fn commit(&mut self) -> bool {
        self.session.try_commit(&self.store).is_ok()
    }
}

/// A store of two columns, and its session at the serializable level.
#[derive(Drop)]
struct OpenedSerial {
    store: Store,
    serial: Serial,
    ghost own: { IsReady store serial.session × (store.layout.limits.columns ≡ 2) },
}

impl Hosts for OpenedSerial {
    fn begin(&mut self) -> bool {
        self.serial.begin(&self.store).is_ok()
    }

    fn update(&mut self, key: Key) -> bool {
        self.serial.update(&self.store, key, &patch(key)).is_ok()
    }

    fn get(&mut self, key: Key) -> bool {
        self.serial.get(&self.store, key).is_ok()
    }

    fn commit(&mut self) -> bool {
        self.serial.try_commit(&self.store).is_ok()
    }
}

/// One transaction, on keys that are drawn. Whether it was committed.
fn transact<H: Hosts>(hosts: &mut H, seed: &mut u64) -> bool {
    if !hosts.begin() || !hosts.update(drawn(seed, KEYS)) {
        return false;
    }
    for _ in 0..3 {
        if !hosts.get(drawn(seed, KEYS)) {
            return false;
        }
    }
    hosts.commit()
}

/// So many transactions, and how many of them were committed.
fn transact_all<H: Hosts>(hosts: &mut H, count: u32) -> u64 {
    let mut seed = 1;
    let mut committed = 0u64;
    for _ in 0..count {
        committed = committed.wrapping_add(transact(hosts, &mut seed) as u64);
    }
    committed
}

/// Puts a row of each key by one transaction of session 0, and answers whether it was committed.
fn fill(store: &Store, crew: &mut Crew) -> bool
    requires { IsCrewOf store.now crew.old }
    ensures { IsCrewOf store.now crew.new }
{
    if crew.seat.limits().sessions == 0 || crew.begin(store, 0).is_err() {
        return false;
    }
    for key in 0..KEYS {
        if !put(store, crew, key, key, 0) {
            return false;
        }
    }
    crew.seat.limits().sessions > 0 && crew.commit(store, 0).is_ok()
}

/// The last session of a list.
fn last(store: &Store, sessions: Sessions) -> Option<Session>
    requires { All (IsReady store.now) sessions }
    ensures { IfSome result (IsReady store.now) }
{
    let mut items = sessions.into_vec();
    match items.pop() {
        Some(session) => Some(session),
        None => None,
    }
}

/// Makes so many transactions, and answers how many were committed.
fn run(alloc: Global, store: Store, session: Session, level: Level, count: u32) -> u64
    requires ready { IsReady store session }
    requires columns { store.layout.limits.columns ≡ 2 }
{
    match level {
        Level::Snapshot => {
            let mut opened = Opened { store, session };
            transact_all(&mut opened, count)
        }
        Level::Serializable => {
            if !session.is_idle() {
                return 0;
            }
            let serial = Serial::new(alloc, session);
            let mut opened = OpenedSerial { store, serial };
            transact_all(&mut opened, count)
        }
    }
}

/// Fills a store, merges its pages where that is asked, makes so many transactions of its session, and answers how many were committed.
pub(crate) fn levels(alloc: Global, course: Course, count: u32) -> Result<u64, OutOfMemory> {
    let limits = LIMITS;
    let Ok(layout) = limits.check() else {
        return Ok(0);
    };
    let (store, mut crew) = open_crew(alloc, &layout)?;
    if !fill(&store, &mut crew) {
        return Ok(0);
    }
    if course.merged {
        merge_all(&store, &mut crew);
    }
    let Ok((sessions, _)) = crew.part(alloc, &store) else {
        return Err(OutOfMemory);
    };
    match last(&store, sessions) {
        Some(session) => Ok(run(alloc, store, session, course.level, count)),
        None => Ok(0),
    }
}
