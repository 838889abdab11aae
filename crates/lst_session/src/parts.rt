//! A crew is parted.
ghost use Rattle.std.specs.Prelude.{◌≡◌, [], ◌<◌, ◌≤◌, ◌^◌, All, IfOk, IfErr, length, vec_len, vec_capacity};
ghost use Rattle.lst_rule.specs.Stores.{IsSeatOf};
ghost use Rattle.lst_rule.specs.Surveys.{HostsAll};
ghost use Rattle.lst_rule.specs.Spares.{AreSpares};
ghost use Rattle.lst_session.specs.Crews.{IsCrewOf};
ghost use Rattle.lst_session.specs.Parting.{IsParted, IsMergerOf, are_numbered};
ghost use Rattle.lst_session.specs.Passes.{IsReady};

use crate::crew::Crew;
use crate::passes::{Merger, Sessions};
use crate::session::Session;
use lst_model::OutOfMemory;
use lst_rule::Store;
use lst_seat::{SeatList, part};
use std::alloc::Global;

/// The sessions at these seats, numbered in order, in the memory that was taken.
fn numbered(seats: SeatList, mut passes: Vec<Session>) -> Sessions
    requires few { length seats < 2 ^ 32 }
    requires none { passes.items ≡ [] }
    requires empty { vec_len passes ≡ 0 }
    requires wide { length seats ≤ vec_capacity passes }
    ensures { result ≡ are_numbered seats }
{
    let mut number = 0;
    for seat in seats.into_vec() {
        passes.push_reserved(Session { seat, number });
        number += 1;
    }
    Sessions { items: passes }
}

impl Crew {
    /// Parts the crew: its sessions, in order, each at a seat of its own that may go to a thread of its own, and the merger. Each knows what it
    /// knew: its number, its open transaction with its begin, its kind and its own writes, its pin, what it drew, latched and wrote, and what
    /// it found; the merger gets the spare frames. All memory is taken first; where it is refused, the crew is handed back as it was.
    pub fn part(
        self,
        alloc: Global,
        store: &Store,
    ) -> Result<(Sessions, Merger), (Crew, OutOfMemory)>
        requires seat { IsSeatOf store.now self.seat }
        requires all { HostsAll self.seat.view }
        requires spares { AreSpares self.seat.view self.spares.items }
        ensures parted { IfOk result (λ both. IsParted store.now self.seat.view both.0 both.1) }
        ensures merger { IfOk result (λ both. IsMergerOf store.now both.1) }
        ensures ready { IfOk result (λ both. IsCrewOf store.now self → All (IsReady store.now) both.0) }
        ensures refused { IfErr result (λ refusal. refusal.0 ≡ self) }
    {
        let passes = match Vec::with_capacity(alloc, self.seat.limits().sessions as usize) {
            Ok(passes) => passes,
            Err(_) => return Err((self, OutOfMemory)),
        };
        let Crew { seat, spares } = self;
        match part(alloc, store, seat) {
            Ok((seats, seat)) => Ok((numbered(seats, passes), Merger { seat, spares })),
            Err((seat, OutOfMemory)) => Err((Crew { seat, spares }, OutOfMemory)),
        }
    }
}
