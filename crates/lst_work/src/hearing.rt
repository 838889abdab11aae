//! Between two phases the sessions hear of each other.
ghost use Rattle.std.specs.Prelude.{◌≡◌};
ghost use Rattle.lst_work_laws.specs.Phases.{HaveHeard};
ghost use Rattle.lst_work_laws.specs.Whole.{AreAll};

use lst_rule::Store;
use lst_session::{Session, Sessions, next_phase};

/// Lets each session hear of all others. Nothing else of it is changed.
pub(crate) fn heard(store: &Store, sessions: Vec<Session>) -> Vec<Session>
    requires all { AreAll store.now sessions.items }
    ensures all { AreAll store.now result.items }
    ensures heard { HaveHeard sessions.items result.items }
{
    let mut passes = Sessions::from_vec(sessions);
    next_phase(store, &mut passes);
    passes.into_vec()
}
