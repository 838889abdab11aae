//! One session on a new store, and scripts of its calls with their answers.
//!
//! A script is a table of plain values that stands as a constant, and one function takes its steps: so the proof of a test stays short.
ghost use Rattle.std.specs.Prelude.{◌≡◌, length};
ghost use Rattle.lst_model.specs.Lines.{IsPatch};
ghost use Rattle.lst_session.specs.Passes.{IsReady};

use crate::scripts::row;
use arrayvec::ArrayVec;
use lst_layout::Limits;
use lst_model::{Key, Patch, Row, Time};
use lst_rule::Store;
use lst_seat::open_store;
use lst_session::{BeginRefusal, CommitRefusal, NotBegun, Outcome, Session, WriteRefusal};
use std::alloc::Global;
use std::process::Abort;
use std::test::Fail;

/// A store with two columns, and its session 1.
#[derive(Drop)]
pub(crate) struct Opened {
    pub(crate) store: Store,
    pub(crate) session: Session,
    ghost own: { IsReady store session × (store.layout.limits.columns ≡ 2) },
}

/// Opens such a store, of two sessions. The other limits are these.
pub(crate) fn open_one(alloc: Global, limits: &Limits) -> Result<Opened, Fail> {
    let limits = Limits {
        columns: 2,
        sessions: 2,
        ..*limits
    };
    let Ok(layout) = limits.check() else {
        return Err(Fail::from("the limits are in range"));
    };
    let (store, seat) = open_store(alloc, &layout)?;
    let session = Session { seat, number: 1 };
    Ok(Opened { store, session })
}

/// The cells of a row of two.
pub(crate) type Cells = (Option<u64>, Option<u64>);

/// A call of the session with its answer, or what the session tells of itself.
#[derive(Clone, Copy, Debug, PartialEq)]
pub(crate) enum Step {
    Begin(Result<Time, BeginRefusal>),
    AsOf(Time, Result<Time, BeginRefusal>),
    Get(Key, Result<Option<Cells>, NotBegun>),
    Insert(Key, Option<u64>, Option<u64>, Result<(), WriteRefusal>),
    /// It sets the first column alone.
    Update(Key, u64, Result<(), WriteRefusal>),
    /// It makes the second column null.
    Empty(Key, Result<(), WriteRefusal>),
    Delete(Key, Result<(), WriteRefusal>),
    Commit(Result<Outcome, CommitRefusal>),
    Abort(Result<(), NotBegun>),
    Seen(Time),
    IsIdle(bool),
    IsSpent(bool),
    /// The epoch that the session has pinned.
    Pinned(Option<u64>),
}

/// Sets the first column alone.
pub(crate) fn patch(first: u64) -> Patch
    ensures { IsPatch 2 result }
{
    let mut cells = ArrayVec::new();
    cells.push(Some(first));
    cells.push(None);
    Patch::of_numbers(cells)
}

/// Makes the second column null.
fn emptying() -> Patch
    ensures { IsPatch 2 result }
{
    let mut patch = Patch::of_numbers(ArrayVec::new());
    patch.push(None);
    patch.push(Some(None));
    patch
}

pub(crate) fn cells(rt: &impl Abort, row: &Row) -> Cells {
    assert!(rt; row.len() == 2);
    (row.get(0), row.get(1))
}

fn get(rt: &impl Abort, on: &mut Opened, key: Key) -> Result<Option<Cells>, NotBegun> {
    match on.session.get(&on.store, key) {
        Ok(Some(row)) => Ok(Some(cells(rt, &row))),
        Ok(None) => Ok(None),
        Err(cause) => Err(cause),
    }
}

fn insert(
    on: &mut Opened,
    key: Key,
    first: Option<u64>,
    second: Option<u64>,
) -> Result<(), WriteRefusal> {
    on.session.insert(&on.store, key, &row(first, second))
}

fn update(on: &mut Opened, key: Key, patch: &Patch) -> Result<(), WriteRefusal>
    requires { IsPatch 2 patch.now }
{
    on.session.update(&on.store, key, patch)
}

fn pinned(on: &Opened) -> Option<u64> {
    on.session.seat.pinned(on.session.number)
}

/// What the session tells of itself now, or another step as it is.
fn told(on: &Opened, step: Step) -> Step {
    match step {
        Step::Seen(_) => Step::Seen(on.session.seen()),
        Step::IsIdle(_) => Step::IsIdle(on.session.is_idle()),
        Step::IsSpent(_) => Step::IsSpent(on.session.is_spent()),
        Step::Pinned(_) => Step::Pinned(pinned(on)),
        step => step,
    }
}

/// A write with what is answered now, or another step with what is told.
fn written(on: &mut Opened, step: Step) -> Step {
    match step {
        Step::Insert(key, first, second, _) => {
            Step::Insert(key, first, second, insert(on, key, first, second))
        }
        Step::Update(key, first, _) => Step::Update(key, first, update(on, key, &patch(first))),
        Step::Empty(key, _) => Step::Empty(key, update(on, key, &emptying())),
        Step::Delete(key, _) => Step::Delete(key, on.session.delete(&on.store, key)),
        step => told(on, step),
    }
}

/// The step with what is answered now.
fn taken(rt: &impl Abort, on: &mut Opened, step: Step) -> Step {
    match step {
        Step::Begin(_) => Step::Begin(on.session.begin(&on.store)),
        Step::AsOf(time, _) => Step::AsOf(time, on.session.as_of(&on.store, time)),
        Step::Get(key, _) => Step::Get(key, get(rt, on, key)),
        Step::Commit(_) => Step::Commit(on.session.try_commit(&on.store)),
        Step::Abort(_) => Step::Abort(on.session.abort(&on.store)),
        step => written(on, step),
    }
}

/// Takes a step, which is answered as it says. It is named by its place.
pub(crate) fn take(rt: &impl Abort, on: &mut Opened, step: Step, at: usize) {
    assert_eq!(rt; taken(rt, on, step), step, "at step {at}");
}

/// Takes steps in order.
pub(crate) fn play(rt: &impl Abort, on: &mut Opened, script: &[Step]) {
    for (at, &step) in script.iter().enumerate() {
        take(rt, on, step, at);
    }
}
