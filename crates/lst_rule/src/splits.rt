//! A seat is split: a seat of its own for a session, or a note of what a session has seen.
ghost use Rattle.std.specs.Prelude.{◌≡◌, ◌+◌, ◌<◌, ◌≤◌, [], length, true, false, replicate, slice_set, IfOk};
ghost use Rattle.lst_core_state.specs.declared.numbers.Numbers.{Numbers as numbers};
ghost use Rattle.lst_rule.specs.Rule.{knows, hosts};
ghost use Rattle.lst_rule.specs.Joins.{without, alone, only, noted, Serves};
ghost use Rattle.lst_rule.specs.Stores.{IsSeatOf};

use crate::seat::Seat;
use crate::store::Store;
use crate::table_seats::{note_seat, split_seat};
use lst_core_state::Numbers;
use lst_model::OutOfMemory;
use std::alloc::Global;

/// The memory of a seat that is to be split off.
#[derive(Drop)]
pub struct Room {
    pub(crate) hosted: Vec<bool>,
    pub(crate) numbers: Vec<Numbers>,
}

fn hosts_only(alloc: Global, count: u32, s: u32) -> Result<Vec<bool>, OutOfMemory>
    requires { s < count }
    ensures { IfOk result (λ hosted. hosted.items ≡ slice_set (replicate count false) s true) }
{
    let mut hosted = vec![in alloc; false; count as usize]?;
    hosted[s as usize] = true;
    Ok(hosted)
}

fn copied(alloc: Global, numbers: &[Numbers]) -> Result<Vec<Numbers>, OutOfMemory>
    ensures { IfOk result (λ copy. copy.items ≡ numbers.now) }
{
    Ok(Vec::from_slice(alloc, numbers)?)
}

/// Takes the memory of a seat for one session, or for the merger.
pub fn room_for(alloc: Global, seat: &Seat, s: u32) -> Result<Room, OutOfMemory>
    requires host { hosts seat.now.view s ≡ true }
    ensures serves { IfOk result (λ room. Serves room seat.now.view s) }
{
    let hosted = hosts_only(alloc, seat.limits.sessions + 1, s)?;
    let numbers = copied(alloc, seat.numbers.as_slice())?;
    Ok(Room { hosted, numbers })
}

/// Splits off a seat that hosts this session alone, or the merger alone. The memory was taken for it.
pub fn split_off(store: &Store, seat: &mut Seat, s: u32, room: Room) -> Seat
    requires seat { IsSeatOf store.now seat.old }
    requires host { hosts seat.old.view s ≡ true }
    requires room { Serves room seat.old.view s }
    ensures old { IsSeatOf store.now seat.new }
    ensures rest { seat.new.view ≡ without s seat.old.view }
    ensures new { IsSeatOf store.now result }
    ensures session { result.view ≡ alone s seat.old.view }
{
    let place = split_seat(&store.table.shared, &mut seat.place, s);
    seat.hosted[s as usize] = false;
    Seat {
        place,
        limits: seat.limits,
        hosted: room.hosted,
        numbers: room.numbers,
        note_time: seat.note_time,
    }
}

/// Copies what a session of the seat has seen, with its facts, into a seat that hosts nobody. The seat stays as it is. Takes no memory.
pub fn note_of(store: &Store, seat: &mut Seat, s: u32) -> Seat
    requires seat { IsSeatOf store.now seat.old }
    requires host { hosts seat.old.view s ≡ true }
    ensures old { seat.new ≡ seat.old }
    ensures new { IsSeatOf store.now result }
    ensures note { result.view ≡ noted s seat.old.view }
    ensures time { result.note_time ≡ length result.view.note }
{
    let alloc = *seat.hosted.allocator();
    let place = note_seat(&store.table.shared, &mut seat.place, s);
    let hosted = Vec::new(alloc);
    let numbers = Vec::new(alloc);
    Seat {
        place,
        limits: seat.limits,
        hosted,
        numbers,
        note_time: seat.numbers[s as usize].seen,
    }
}
