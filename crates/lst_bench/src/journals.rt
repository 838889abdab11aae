//! Commits of one write of two columns: through a journal, and by its crew alone; the calls of the disk that such commits make; and a journal that is
//! opened again.
ghost use Rattle.std.specs.Prelude.{◌≡◌, ◌<◌, IfSome, IsTrue, false};
ghost use Rattle.lst_model.specs.Lines.{CallFits};
ghost use Rattle.lst_disk.specs.Memory.{disk_content, disk_images};
ghost use Rattle.lst_redo.specs.Journals.{IsOpenJournal};

use crate::engines::{drawn, row};
use arrayvec::ArrayVec;
use lst_disk::{Disk, MemDisk};
use lst_layout::{Layout, Limits};
use lst_model::{Call, Key, Line, OutOfMemory, Patch, Reply};
use lst_redo::{Kept, Redo, open_redo};
use lst_rule::Store;
use lst_scan::crew_line;
use lst_session::{Crew, open_crew};
use std::alloc::Global;

/// Each has a row from the first commit on.
const KEYS: u64 = 256;

/// A store of one session and one range.
const LIMITS: Limits = Limits {
    columns: 2,
    ranges: 1,
    tails: 8_192,
    sessions: 1,
    txns: 65_535,
    spare: 1,
    indexed: 0,
};

/// The greatest number of commits behind the first.
const MOST: u32 = 4_000;

/// The size of a record of one write of two columns, in bytes.
const RECORD: u32 = 48;

/// The size of the disk, in bytes: it has room for the first commit and for that many behind it.
const BYTES: u32 = 8_192 + MOST * RECORD;

/// By whom commits are kept.
#[derive(Clone, Copy)]
pub(crate) enum Keeping {
    /// By a journal over a disk in memory.
    Journal,
    /// By such a journal, whose disk is opened again in the end.
    JournalAgain,
    /// By a crew without a journal.
    Crew,
    /// By a disk in memory alone, which is called as a journal calls it.
    Disk,
}

/// By whom commits of a kind of this name are kept, or None where there is none.
pub(crate) fn keeping_of(kind: &str) -> Option<Keeping> {
    match kind {
        "journaled" => Some(Keeping::Journal),
        "journaled_again" => Some(Keeping::JournalAgain),
        "unjournaled" => Some(Keeping::Crew),
        "disk_alone" => Some(Keeping::Disk),
        _ => None,
    }
}

/// Whether a call of session 0 is one of a store with these limits.
fn fits(limits: &Limits, call: &Call) -> bool
    ensures session { IsTrue result → 0 < limits.now.sessions }
    ensures call { IsTrue result → CallFits limits.now.columns call.now }
{
    limits.sessions > 0 && call_fits(limits.columns, call)
}

/// Whether a call is one of a table of so many columns.
fn call_fits(columns: u32, call: &Call) -> bool
    ensures { IsTrue result → CallFits columns call.now }
{
    let columns = columns as usize;
    match call {
        Call::Insert { row, .. } => row.len() == columns,
        Call::Update { patch, .. } => patch.len() == columns && patch.sets_some(),
        Call::Sum { .. } | Call::Find { .. } => false,
        _ => true,
    }
}

/// The patch of both cells of a row.
fn both(value: u64) -> Patch {
    let mut cells = ArrayVec::new();
    cells.push(Some(value));
    cells.push(Some(value));
    Patch::of_numbers(cells)
}

/// Whether a session was answered other than by a refusal.
fn is_done(reply: &Reply) -> bool {
    !matches!(reply, Reply::Refused { .. })
}

/// Whether a line was answered other than by a refusal, a full journal or a fault.
fn is_kept(kept: &Kept) -> bool {
    match kept {
        Kept::Reply { reply } => is_done(reply),
        Kept::JournalFull | Kept::DiskFault => false,
    }
}

/// What answers the calls of session 0.
trait Answers {
    /// That it answers calls, which each call keeps.
    ghost ready: { Self → Type 0 };

    /// Answers a call, and tells whether it was done.
    fn ask(&mut self, alloc: Global, call: Call) -> bool
        requires { ready self.old }
        ensures { ready self.new };
}

/// A journal over a disk in memory.
#[derive(Drop)]
struct Journaled {
    redo: Redo<MemDisk>,
}

impl Answers for Journaled {
    ghost use Rattle.std.specs.Prelude.{◌≡◌, false};
    ghost use Rattle.lst_disk.specs.Memory.{disk_content, disk_images};
    ghost use Rattle.lst_redo.specs.Journals.{IsOpenJournal};

    ghost ready = { λ j. j.redo.failed ≡ false → IsOpenJournal disk_content disk_images j.redo };

    fn ask(&mut self, alloc: Global, call: Call) -> bool {
        let limits = *self.redo.crew.seat.limits();
        if self.redo.failed() {
            return false;
        }
        if !fits(&limits, &call) {
            return false;
        }
        match self.redo.line(alloc, &Line::Call { session: 0, call }) {
            Ok(kept) => is_kept(&kept),
            Err(OutOfMemory) => false,
        }
    }
}

/// A store with its crew.
#[derive(Drop)]
struct Unjournaled {
    store: Store,
    crew: Crew,
}

impl Answers for Unjournaled {
    ghost use Rattle.lst_session.specs.Crews.{IsCrewOf};

    ghost ready = { λ u. IsCrewOf u.store u.crew };

    fn ask(&mut self, alloc: Global, call: Call) -> bool {
        let limits = *self.crew.seat.limits();
        if !fits(&limits, &call) {
            return false;
        }
        let line = Line::Call { session: 0, call };
        match crew_line(alloc, &self.store, &mut self.crew, &line) {
            Ok(reply) => is_done(&reply),
            Err(OutOfMemory) => false,
        }
    }
}

/// Puts a row of each key by one transaction. Whether it was committed.
fn fill<A: Answers>(alloc: Global, answers: &mut A) -> bool
    requires { A.ready answers.old }
    ensures { A.ready answers.new }
{
    if !answers.ask(alloc, Call::Begin) {
        return false;
    }
    for key in 0..KEYS {
        let row = row(key, key);
        if !answers.ask(alloc, Call::Insert { key, row }) {
            return false;
        }
    }
    answers.ask(alloc, Call::Commit)
}

/// Sets both cells of a key's row to a number by one transaction. Whether it was committed.
fn transact<A: Answers>(alloc: Global, answers: &mut A, key: Key, value: u64) -> bool
    requires { A.ready answers.old }
    ensures { A.ready answers.new }
{
    if !answers.ask(alloc, Call::Begin) {
        return false;
    }
    let patch = both(value);
    if !answers.ask(alloc, Call::Update { key, patch }) {
        return false;
    }
    answers.ask(alloc, Call::Commit)
}

/// Puts a row of each key, makes so many commits behind that, each of a new number on a key that is drawn, and answers how many there were.
fn commits<A: Answers>(alloc: Global, answers: &mut A, count: u32) -> u64
    requires { A.ready answers.old }
    ensures { A.ready answers.new }
{
    if !fill(alloc, answers) {
        return 0;
    }
    let mut seed = 1;
    for turn in 0..count {
        let key = drawn(&mut seed, KEYS);
        if !transact(alloc, answers, key, KEYS + u64::from(turn)) {
            return u64::from(turn);
        }
    }
    u64::from(count)
}

/// A journal over a disk, or None where it isn't opened.
fn opened(alloc: Global, layout: &Layout, disk: MemDisk) -> Option<Journaled>
    ensures { IfSome result (λ j. j.redo.failed ≡ false → IsOpenJournal disk_content disk_images j.redo) }
{
    match open_redo(alloc, layout, disk) {
        Ok(redo) => Some(Journaled { redo }),
        Err(_) => None,
    }
}

/// Makes so many commits through a journal over a disk, and answers how many there were; with one more where the disk is then opened again.
fn through_journal(alloc: Global, layout: &Layout, disk: MemDisk, count: u32, again: bool) -> u64 {
    let Some(mut journaled) = opened(alloc, layout, disk) else {
        return 0;
    };
    let committed = commits(alloc, &mut journaled, count);
    if again && opened(alloc, layout, journaled.redo.close()).is_some() {
        return committed.wrapping_add(1);
    }
    committed
}

/// Makes the calls of one commit: a piece behind a gate is written and synced, and then the gate. Whether none failed.
fn store_record(disk: &mut MemDisk, gate: u64, piece: &[u8; 48]) -> bool {
    if disk.size() < 49 || gate > disk.size() - 49 {
        return false;
    }
    let Ok(()) = disk.room(49) else {
        return false;
    };
    let Ok(()) = disk.write_at(gate + 1, piece) else {
        return false;
    };
    let Ok(()) = disk.sync() else {
        return false;
    };
    let Ok(()) = disk.write_at(gate, &[1]) else {
        return false;
    };
    disk.sync().is_ok()
}

/// Makes the calls of so many commits, and answers how many didn't fail.
fn stored(disk: &mut MemDisk, count: u32) -> u64 {
    let piece = [0u8; 48];
    let mut gate = 0u64;
    let mut kept = 0u64;
    for _ in 0..count {
        if !store_record(disk, gate, &piece) {
            return kept;
        }
        gate = gate.wrapping_add(u64::from(RECORD));
        kept = kept.wrapping_add(1);
    }
    kept
}

/// Makes so many commits, 4,000 at the most, and answers how many were kept.
pub(crate) fn journals(alloc: Global, keeping: Keeping, count: u32) -> Result<u64, OutOfMemory> {
    let Ok(layout) = LIMITS.check() else {
        return Ok(0);
    };
    let count = count.min(MOST);
    let mut disk = MemDisk::new(alloc, BYTES, u64::MAX, false)?;
    Ok(match keeping {
        Keeping::Journal => through_journal(alloc, &layout, disk, count, false),
        Keeping::JournalAgain => through_journal(alloc, &layout, disk, count, true),
        Keeping::Crew => {
            let (store, crew) = open_crew(alloc, &layout)?;
            let mut unjournaled = Unjournaled { store, crew };
            commits(alloc, &mut unjournaled, count)
        }
        Keeping::Disk => stored(&mut disk, count),
    })
}
