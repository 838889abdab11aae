//! A store and its crew, recovered from commits.
ghost use Rattle.std.specs.Prelude.{◌≡◌, ℕ, [], IfOk, IfErr, OnOk, Err};
ghost use Rattle.std.specs.List.{AllByRecursion};
ghost use Rattle.lst_snapshots.specs.Replays.{IsRecovered};
ghost use Rattle.lst_replay_laws.specs.Rests.{HasRoomFor};
ghost use Rattle.lst_replay_laws.specs.Runs.{HasWrites, IsFullAt};
ghost use Rattle.lst_redo.specs.Recoveries.{HasRunAgain};

use crate::again::run_again;
use lst_layout::Layout;
use lst_model::{Commit, OutOfMemory, Time};
use lst_replay_laws::{commits_run_again, histories_run_again};
use lst_rule::Store;
use lst_session::{Crew, open_crew};
use std::alloc::Global;

/// Why a store was not recovered.
#[derive(Clone, Copy, Debug, PartialEq, Eq)]
pub enum RecoveryFault {
    /// The commit at this time meets a limit of the layout.
    Full { time: Time },
    OutOfMemory,
}

/// Opens a store, with the crew that hosts its sessions, and runs commits again on it, each by its own session. At Ok the store has the same
/// sessions and writes at the same times: the crew tells the machine's state behind the lines of these calls, and its store rests. So what any later
/// line is answered follows from the machine. `Full` comes exactly where a
/// commit meets a limit when those before it were run again: a session's number, the number of a session's transactions, a full table or a full
/// range. It names the first such commit by its time, and never comes where the limits have room for all commits.
pub fn recover(
    alloc: Global,
    layout: &Layout,
    commits: &[Commit],
) -> Result<(Store, Crew), RecoveryFault>
    requires recovered { IsRecovered commits.now }
    requires writes { AllByRecursion (HasWrites layout.now.limits.columns) commits.now }
    ensures store { IfOk result (λ both. both.0.layout ≡ layout.now) }
    ensures crew { IfOk result (λ both. HasRunAgain both.0 layout.now.limits commits.now both.1) }
    ensures full { (time : ℕ) → result ≡ Err (RecoveryFault.Full time) → IsFullAt layout.now.limits commits.now time }
    ensures never { HasRoomFor layout.now.limits commits.now → (time : ℕ) → ¬ (result ≡ Err (RecoveryFault.Full time)) }
{
    histories_run_again();
    let Ok((store, mut crew)) = open_crew(alloc, layout) else {
        return Err(RecoveryFault::OutOfMemory);
    };
    match run_all(&store, &mut crew, commits) {
        Ok(()) => Ok((store, crew)),
        Err(time) => Err(RecoveryFault::Full { time }),
    }
}

/// Runs all commits again on a new crew, or answers the time of the first that meets a limit.
fn run_all(store: &Store, crew: &mut Crew, commits: &[Commit]) -> Result<(), Time>
    requires new { HasRunAgain store.now store.now.layout.limits [] crew.old }
    requires recovered { IsRecovered commits.now }
    requires writes { AllByRecursion (HasWrites store.now.layout.limits.columns) commits.now }
    ensures run { OnOk result (HasRunAgain store.now store.now.layout.limits commits.now crew.new) }
    ensures full { IfErr result (λ time. IsFullAt store.now.layout.limits commits.now time) }
{
    commits_run_again();
    let mut time = 0;
    for commit in commits {
        time += 1;
        let Ok(()) = run_again(store, crew, commit) else {
            return Err(time);
        };
    }
    Ok(())
}
