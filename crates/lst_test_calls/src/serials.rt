//! A store on one thread with three sessions at the serializable level, and scripts of their calls with the answers.
//!
//! A script is a table of plain values, and one function takes its steps: the proof of a function grows faster than its calls.
ghost use Rattle.std.specs.Prelude.{◌≡◌, IfOk};
ghost use Rattle.std.specs.List.{All};
ghost use Rattle.lst_session.specs.Passes.{IsReady};
ghost use Rattle.lst_rule.specs.Watching.{Watched};

use crate::scripts::row;
use crate::steps::{Cells, cells, patch};
use lst_layout::Limits;
use lst_model::{Key, Time};
use lst_rule::Store;
use lst_serial::{Serial, SerialCommit, SerialEnd, SerialRead, SerialWrite};
use lst_session::{
    BeginRefusal, CommitLock, NotBegun, Outcome, Reader, Reads, Session, Sessions, open_crew,
};
use std::alloc::Global;
use std::process::Abort;
use std::sync::Wait;
use std::test::Fail;

/// A store of one range with two columns, and its three sessions.
#[derive(Drop)]
pub(crate) struct Opened {
    store: Store,
    first: Serial,
    second: Serial,
    third: Serial,
    lock: CommitLock,
    ghost own: { IsReady store first.session × IsReady store second.session × IsReady store third.session × (store.layout.limits.columns ≡ 2) },
}

/// The three sessions of a list, in order.
fn three(store: &Store, sessions: Sessions) -> Result<(Session, Session, Session), Fail>
    requires { All (IsReady store.now) sessions }
    ensures first { IfOk result (λ all. IsReady store.now all.0) }
    ensures second { IfOk result (λ all. IsReady store.now all.1) }
    ensures third { IfOk result (λ all. IsReady store.now all.2) }
{
    let mut items = sessions.into_vec();
    let (Some(third), Some(second), Some(first)) = (items.pop(), items.pop(), items.pop()) else {
        return Err(Fail::from("there are three sessions"));
    };
    Ok((first, second, third))
}

/// A session at the serializable level, of an idle one.
fn serial(alloc: Global, store: &Store, session: Session) -> Result<Serial, Fail>
    requires { IsReady store.now session }
    ensures { IfOk result (λ serial. IsReady store.now serial.session) }
{
    if !session.is_idle() {
        return Err(Fail::from("no transaction is open"));
    }
    Ok(Serial::new(alloc, session))
}

/// The store has room for so many writes, and a session may begin so many transactions.
pub(crate) fn open_three(alloc: Global, tails: u32, txns: u32) -> Result<Opened, Fail> {
    let limits = Limits {
        columns: 2,
        ranges: 1,
        tails,
        sessions: 3,
        txns,
        spare: 1,
        indexed: 0,
    };
    let Ok(layout) = limits.check() else {
        return Err(Fail::from("the limits are in range"));
    };
    let (store, crew) = open_crew(alloc, &layout)?;
    let Ok((sessions, _)) = crew.part(alloc, &store) else {
        return Err(Fail::from("there is memory"));
    };
    let (first, second, third) = three(&store, sessions)?;
    let first = serial(alloc, &store, first)?;
    let second = serial(alloc, &store, second)?;
    let third = serial(alloc, &store, third)?;
    Ok(Opened {
        store,
        first,
        second,
        third,
        lock: CommitLock::new(),
    })
}

/// A read of all rows that looks at none.
#[derive(Drop)]
struct Glance;

impl Reads for Glance {
    type Answer = ();

    ghost can_read = { λ glance store. Unit {0} };

    ghost answers = { λ glance v w s answer. Unit {0} };

    fn read(self, _store: &Store, _reader: &mut Reader<'_>) {}
}

/// A call of a session with its answer, or what its read set has.
#[derive(Clone, Copy, Debug, PartialEq)]
pub(crate) enum Step {
    Begin(Result<Time, BeginRefusal>),
    AsOf(Time, Result<Time, BeginRefusal>),
    Get(Key, Result<Option<Cells>, SerialRead>),
    Insert(Key, u64, u64, Result<(), SerialWrite>),
    /// It sets the first cell alone.
    Update(Key, u64, Result<(), SerialWrite>),
    Delete(Key, Result<(), SerialWrite>),
    ReadAll(Result<(), NotBegun>),
    TryCommit(Result<Outcome, SerialCommit>),
    Commit(Result<Outcome, SerialEnd>),
    Abort(Result<(), NotBegun>),
    /// Whether the key is in the read set.
    HasRead(Key, bool),
    HasReadAll(bool),
    Seen(Time),
}

fn get(
    rt: &impl Abort,
    store: &Store,
    serial: &mut Serial,
    key: Key,
) -> Result<Option<Cells>, SerialRead>
    requires { IsReady store.now serial.old.session }
    ensures { IsReady store.now serial.new.session }
{
    match serial.get(store, key) {
        Ok(Some(row)) => Ok(Some(cells(rt, &row))),
        Ok(None) => Ok(None),
        Err(cause) => Err(cause),
    }
}

/// What a call that writes is answered, or another one as it is.
fn written(store: &Store, serial: &mut Serial, step: Step) -> Step
    requires ready { IsReady store.now serial.old.session }
    requires columns { store.now.layout.limits.columns ≡ 2 }
    ensures { IsReady store.now serial.new.session }
{
    match step {
        Step::Insert(key, first, second, _) => {
            Step::Insert(
                key,
                first,
                second,
                serial.insert(store, key, &row(Some(first), Some(second))),
            )
        }
        Step::Update(key, first, _) => {
            Step::Update(key, first, serial.update(store, key, &patch(first)))
        }
        Step::Delete(key, _) => Step::Delete(key, serial.delete(store, key)),
        step => step,
    }
}

/// What a call that ends a transaction is answered, or another step with what the session tells of itself.
fn ended(rt: &impl Wait, store: &Store, lock: &CommitLock, serial: &mut Serial, step: Step) -> Step
    requires { IsReady store.now serial.old.session }
    ensures { IsReady store.now serial.new.session }
{
    match step {
        Step::TryCommit(_) => Step::TryCommit(serial.try_commit(store)),
        Step::Commit(_) => Step::Commit(serial.commit(rt, store, lock)),
        Step::Abort(_) => Step::Abort(serial.abort(store)),
        Step::HasRead(key, _) => Step::HasRead(key, serial.has_read(key)),
        Step::HasReadAll(_) => Step::HasReadAll(serial.has_read_all()),
        Step::Seen(_) => Step::Seen(serial.seen()),
        step => step,
    }
}

/// The step with what is answered now.
fn answered(
    rt: &(impl Abort + Wait),
    store: &Store,
    lock: &CommitLock,
    serial: &mut Serial,
    step: Step,
) -> Step
    requires ready { IsReady store.now serial.old.session }
    requires columns { store.now.layout.limits.columns ≡ 2 }
    ensures { IsReady store.now serial.new.session }
{
    match step {
        Step::Begin(_) => Step::Begin(serial.begin(store)),
        Step::AsOf(time, _) => Step::AsOf(time, serial.as_of(store, time)),
        Step::Get(key, _) => Step::Get(key, get(rt, store, serial, key)),
        Step::Insert(..) | Step::Update(..) | Step::Delete(..) => written(store, serial, step),
        Step::ReadAll(_) => Step::ReadAll(serial.read(store, Glance)),
        _ => ended(rt, store, lock, serial, step),
    }
}

impl Opened {
    /// The step of the session of this number, of which there are 0 to 2, with what is answered now.
    pub(crate) fn ask(&mut self, rt: &(impl Abort + Wait), session: u32, step: Step) -> Step {
        if session == 0 {
            return answered(rt, &self.store, &self.lock, &mut self.first, step);
        }
        if session == 1 {
            return answered(rt, &self.store, &self.lock, &mut self.second, step);
        }
        answered(rt, &self.store, &self.lock, &mut self.third, step)
    }

    /// Takes steps in order, each of which is answered as it says.
    pub(crate) fn play(&mut self, rt: &(impl Abort + Wait), script: &[(u32, Step)]) {
        for (at, &(session, step)) in script.iter().enumerate() {
            assert_eq!(rt; self.ask(rt, session, step), step, "at step {at}");
        }
    }
}
