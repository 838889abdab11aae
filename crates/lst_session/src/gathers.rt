//! Sessions and the merger are gathered into a crew.
ghost use Rattle.std.specs.Prelude.{◌≡◌, [], ◌≤◌, All, IfOk, IfErr, MatchOption, length, map, vec_len, vec_capacity};
ghost use Rattle.lst_rule.specs.Stores.{IsSeatOf};
ghost use Rattle.lst_rule.specs.Spares.{AreSpares};
ghost use Rattle.lst_session.specs.Crews.{IsCrewOf};
ghost use Rattle.lst_session.specs.Parting.{IsPass, IsMergerOf, has_number, AreAllThere, IsMissing, IsGathered};
ghost use Rattle.lst_session.specs.Passes.{IsReady};
ghost use Rattle.lst_session.specs.declared.passes.GatherCause.TheVariants.{Gap, OutOfMemory};

use crate::crew::Crew;
use crate::passes::{GatherCause, GatherRefusal, Merger, Sessions};
use crate::session::Session;
use lst_rule::{Seat, Store};
use lst_seat::SeatList;
use std::alloc::Global;

/// Whether one of the sessions has a number.
fn has_number(sessions: &[Session], s: u32) -> bool
    ensures { result ≡ has_number sessions.now s }
{
    for session in sessions {
        if session.number == s {
            return true;
        }
    }
    false
}

/// The least number below the count that none of the sessions has.
fn first_missing(sessions: &[Session], count: u32) -> Option<u32>
    ensures { MatchOption result (AreAllThere sessions.now count) (λ s. IsMissing sessions.now count s) }
{
    let mut s = 0;
    while s < count {
        if !has_number(sessions, s) {
            return Some(s);
        }
        s += 1;
    }
    None
}

/// The seats of the sessions, in the memory that was taken.
fn seats_of(sessions: Sessions, mut seats: Vec<Seat>) -> SeatList
    requires none { seats.items ≡ [] }
    requires empty { vec_len seats ≡ 0 }
    requires wide { length sessions ≤ vec_capacity seats }
    ensures { result ≡ map (λ session. session.seat) sessions }
{
    for session in sessions.into_vec() {
        seats.push_reserved(session.seat);
    }
    SeatList::from_vec(seats)
}

/// Gathers the sessions of a store, in any order, and its merger into a crew. The crew's history is then the whole history of the store: it extends
/// what each session had seen, each session's commits in it are those that the session had seen, in their order, and each session has
/// seen all of it. Beside that only facts and finds are added to what a session knew, so an open transaction goes on. What a session has in hand stays so too; the
/// crew's calls ask that none has.
///
/// `Gap` comes exactly where a session's number isn't among those of the sessions given, and names the least one. So a session that was
/// dropped leaves a gap for good; a latch or the turn that it had in hand stays held for good. The gap is looked for first; then memory is taken, before anything is gathered. At each refusal the sessions and
/// the merger are handed back as they were.
pub fn gather(
    alloc: Global,
    store: &Store,
    sessions: Sessions,
    merger: Merger,
) -> Result<Crew, GatherRefusal>
    requires sessions { All (IsPass store.now) sessions }
    requires merger { IsMergerOf store.now merger }
    ensures seat { IfOk result (λ crew. IsSeatOf store.now crew.seat) }
    ensures spares { IfOk result (λ crew. AreSpares crew.seat.view crew.spares.items) }
    ensures gathered { IfOk result (λ crew. IsGathered sessions merger.seat.view crew.seat.view) }
    ensures crew { IfOk result (λ crew. All (IsReady store.now) sessions → IsCrewOf store.now crew) }
    ensures all { IfOk result (λ _. AreAllThere sessions merger.seat.view.limits.sessions) }
    ensures untouched { IfErr result (λ refusal. (refusal.sessions ≡ sessions) × (refusal.merger ≡ merger)) }
    ensures gap { IfErr result (λ refusal. (missing : _) → refusal.cause ≡ Gap missing → IsMissing sessions merger.seat.view.limits.sessions missing) }
    ensures memory { IfErr result (λ refusal. refusal.cause ≡ OutOfMemory → AreAllThere sessions merger.seat.view.limits.sessions) }
{
    let count = merger.seat.limits().sessions;
    if let Some(missing) = first_missing(sessions.items.as_slice(), count) {
        return Err(GatherRefusal {
            sessions,
            merger,
            cause: GatherCause::Gap { missing },
        });
    }
    let seats = match Vec::with_capacity(alloc, sessions.items.len()) {
        Ok(seats) => seats,
        Err(_) => {
            return Err(GatherRefusal {
                sessions,
                merger,
                cause: GatherCause::OutOfMemory,
            });
        }
    };
    let Merger { seat, spares } = merger;
    match lst_seat::gather(store, seats_of(sessions, seats), seat) {
        Ok(seat) => Ok(Crew { seat, spares }),
        Err(_) => unreachable!(),
    }
}
