//! A commit, run again by its own session.
ghost use Rattle.std.specs.Prelude.{◌≡◌, ◌<◌, ◌∷◌, ◌++◌, [], OnOk, OnErr};
ghost use Rattle.lst_model.specs.Lines.{CallFits};
ghost use Rattle.lst_machine.specs.Machine.{state_after};
ghost use Rattle.lst_replay_laws.specs.Again.{call_of, after_again};
ghost use Rattle.lst_replay_laws.specs.Rests.{MeetsLimit};
ghost use Rattle.lst_replay_laws.specs.Runs.{HasWrites};
ghost use Rattle.lst_session.specs.Crews.{IsCrewOf, TellsState, Answers, store_told, state_told};
ghost use Rattle.lst_session.specs.Replies.{write_reply};
ghost use Rattle.lst_redo.specs.Recoveries.{MayRun, IsMaking, WritesFindFull};
ghost use Rattle.lst_redo.specs.Scripts.{lines_of_writes, lines_of};

use lst_model::{Act, Commit, Write};
use lst_replay_laws::commits_run_again;
use lst_rule::Store;
use lst_session::{Crew, WriteRefusal};

/// A commit meets a limit of the store.
#[derive(Clone, Copy, Debug, PartialEq, Eq)]
pub(crate) struct Full;

/// Runs a commit again: its session begins, makes its writes and commits them. It is refused exactly where it meets a limit.
pub(crate) fn run_again(store: &Store, crew: &mut Crew, commit: &Commit) -> Result<(), Full>
    requires crew { IsCrewOf store.now crew.old }
    requires may { MayRun crew.old.seat.view commit.now }
    ensures crew { OnOk result (IsCrewOf store.now crew.new) }
    ensures tells { OnOk result (TellsState crew.new.seat.view) }
    ensures limits { OnOk result (crew.new.seat.view.limits ≡ crew.old.seat.view.limits) }
    ensures again { OnOk result (store_told crew.new.seat.view ≡ after_again crew.old.seat.view.limits (store_told crew.old.seat.view) commit.now) }
    ensures state { OnOk result (state_told crew.new.seat.view ≡ state_after crew.old.seat.view.limits (state_told crew.old.seat.view) (lines_of commit.now)) }
    ensures free { OnOk result (¬ MeetsLimit crew.old.seat.view.limits (store_told crew.old.seat.view) commit.now) }
    ensures full { OnErr result (MeetsLimit crew.old.seat.view.limits (store_told crew.old.seat.view) commit.now) }
{
    commits_run_again();
    if commit.session >= store.layout().limits.sessions {
        return Err(Full);
    }
    let Ok(_) = crew.begin(store, commit.session) else {
        return Err(Full);
    };
    make_all(store, crew, commit)?;
    let Ok(_) = crew.commit(store, commit.session) else {
        unreachable!()
    };
    Ok(())
}

/// Makes all writes of a commit whose session has begun. It is refused exactly where one finds the table or its key's range full.
fn make_all(store: &Store, crew: &mut Crew, commit: &Commit) -> Result<(), Full>
    requires crew { IsCrewOf store.now crew.old }
    requires begun { IsMaking crew.old.seat.view (store_told crew.old.seat.view) commit.now [] }
    requires writes { HasWrites crew.old.seat.view.limits.columns commit.now }
    ensures crew { OnOk result (IsCrewOf store.now crew.new) }
    ensures made { OnOk result (IsMaking crew.new.seat.view (store_told crew.old.seat.view) commit.now commit.now.writes) }
    ensures limits { OnOk result (crew.new.seat.view.limits ≡ crew.old.seat.view.limits) }
    ensures state { OnOk result (state_told crew.new.seat.view ≡ state_after crew.old.seat.view.limits (state_told crew.old.seat.view) (lines_of_writes commit.now.session commit.now.writes)) }
    ensures full { OnErr result (WritesFindFull crew.old.seat.view.limits (store_told crew.old.seat.view) commit.now.session commit.now.writes) }
{
    commits_run_again();
    for write in commit.writes.items() {
        let Ok(()) = make(store, crew, commit.session, write) else {
            return Err(Full);
        };
    }
    Ok(())
}

/// Makes a write.
fn make(store: &Store, crew: &mut Crew, session: u32, write: &Write) -> Result<(), WriteRefusal>
    requires crew { IsCrewOf store.now crew.old }
    requires session { session < crew.old.seat.view.limits.sessions }
    requires fits { CallFits crew.old.seat.view.limits.columns (call_of write.now) }
    ensures crew { IsCrewOf store.now crew.new }
    ensures machine { TellsState crew.old.seat.view → TellsState crew.new.seat.view × Answers crew.old.seat.view crew.new.seat.view session (call_of write.now) (write_reply result) }
{
    match &write.act {
        Act::Put(row) => crew.insert(store, session, write.key, row),
        Act::Set(patch) => crew.update(store, session, write.key, patch),
        Act::Del => crew.delete(store, session, write.key),
    }
}
