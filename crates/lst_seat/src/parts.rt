//! A seat that hosts every session and the merger is parted.
ghost use Rattle.std.specs.Prelude.{◌≡◌, length, IfOk, IfErr};
ghost use Rattle.lst_rule.specs.Stores.{IsSeatOf};
ghost use Rattle.lst_rule.specs.Surveys.{HostsAll};
ghost use Rattle.lst_seat.specs.Rooms.{AreRooms, IsEnough};
ghost use Rattle.lst_seat.specs.Seats.{Parts};

use crate::lists::SeatList;
use lst_model::OutOfMemory;
use lst_rule::{Room, Seat, Store, room_for, split_off};
use std::alloc::Global;

/// The memory of the seats of the sessions, the last first, and of their list.
struct Memory {
    rooms: Vec<Room>,
    seats: Vec<Seat>,
}

/// Takes the memory of one seat for each session, the last first.
fn rooms_for(alloc: Global, seat: &Seat) -> Result<Vec<Room>, OutOfMemory>
    requires { HostsAll seat.now.view }
    ensures count { IfOk result (λ rooms. length rooms.items ≡ seat.now.view.limits.sessions) }
    ensures serve { IfOk result (λ rooms. AreRooms seat.now.view rooms.items) }
{
    let mut rooms = Vec::new(alloc);
    let mut s = seat.limits().sessions;
    while s > 0 {
        s -= 1;
        let room = room_for(alloc, seat, s)?;
        rooms.push(room)?;
    }
    Ok(rooms)
}

/// Takes all memory that the parting of a seat wants.
fn memory_for(alloc: Global, seat: &Seat) -> Result<Memory, OutOfMemory>
    requires { HostsAll seat.now.view }
    ensures memory { IfOk result (λ memory. IsEnough seat.now.view memory) }
{
    let rooms = rooms_for(alloc, seat)?;
    let seats = Vec::with_capacity(alloc, seat.limits().sessions as usize)?;
    Ok(Memory { rooms, seats })
}

/// Splits off a seat for each session, with the memory that was taken.
fn split_all(store: &Store, seat: &mut Seat, memory: Memory) -> SeatList
    requires seat { IsSeatOf store.now seat.old }
    requires all { HostsAll seat.old.view }
    requires memory { IsEnough seat.old.view memory }
    ensures { Parts store.now seat.old.view result seat.new }
{
    let Memory {
        mut rooms,
        mut seats,
    } = memory;
    let mut s = 0;
    while let Some(room) = rooms.pop() {
        let own = split_off(store, seat, s, room);
        seats.push_reserved(own);
        s += 1;
    }
    SeatList { items: seats }
}

/// Parts a seat that hosts every session and the merger: one seat for each session, in order, and one for the merger. All memory is taken
/// first; where it is refused, the seat is handed back as it was.
pub fn part(
    alloc: Global,
    store: &Store,
    seat: Seat,
) -> Result<(SeatList, Seat), (Seat, OutOfMemory)>
    requires seat { IsSeatOf store.now seat }
    requires all { HostsAll seat.view }
    ensures parts { IfOk result (λ parted. Parts store.now seat.view parted.0 parted.1) }
    ensures refused { IfErr result (λ refusal. refusal.0 ≡ seat) }
{
    let memory = match memory_for(alloc, &seat) {
        Ok(memory) => memory,
        Err(OutOfMemory) => return Err((seat, OutOfMemory)),
    };
    let mut rest = seat;
    let seats = split_all(store, &mut rest, memory);
    Ok((seats, rest))
}
