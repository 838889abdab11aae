//! A note is heard, and a seat is joined to another.
ghost use Rattle.std.specs.Prelude.{◌≡◌, ◌⊎◌, ◌+◌, ◌<◌, ◌≤◌, [], length, map, cond, nat_lt, true, false};
ghost use Rattle.lst_rule.specs.Rule.{knows, hosts};
ghost use Rattle.lst_rule.specs.Joins.{united, Heard, overlap, united_lists, hears_numbers};
ghost use Rattle.lst_rule.specs.Stores.{IsSeatOf};

use crate::seat::Seat;
use crate::store::Store;
use crate::table_seats::{confirm, hear_told, unite_seats};
use lst_core_state::Numbers;

/// The numbers of what a session knows, once it has heard a note of this many commits.
fn lengthened(one: &Numbers, time: u64) -> Numbers
    ensures { result ≡ hears_numbers time one.now }
{
    let mut now = *one;
    if now.seen < time {
        now.seen = time;
    }
    now
}

/// Lengthens what was seen to this many commits.
fn lengthen(numbers: &mut Vec<Numbers>, time: u64)
    ensures { numbers.new.items ≡ map (hears_numbers time) numbers.old.items }
{
    let mut s = 0;
    while s < numbers.len() {
        numbers[s] = lengthened(&numbers[s], time);
        s += 1;
    }
}

/// Lets all that the seat hosts hear a note, which hosts nobody: afterwards each has seen the longer history of the two, and has the facts of
/// both. One move joins the note's seat, whose note this one has then, and one load lets all hear it.
pub fn hear_note(store: &Store, seat: &mut Seat, note: Seat)
    requires seat { IsSeatOf store.now seat.old }
    requires note { IsSeatOf store.now note }
    requires bare { note.view.hosts ≡ [] }
    requires time { note.note_time ≡ length note.view.note }
    ensures seat { IsSeatOf store.now seat.new }
    ensures heard { Heard (united seat.old.view note.view) seat.new.view }
{
    let time = note.note_time;
    unite_seats(
        &store.table.shared,
        &mut seat.place,
        &store.layout.limits,
        note.place,
    );
    hear_told(&store.table.shared, &mut seat.place);
    seat.note_time = time;
    lengthen(&mut seat.numbers, time);
}

/// The shortest of three lengths.
fn shortest(a: usize, b: usize, c: usize) -> usize
    ensures low { (result ≤ a) × (result ≤ b) × (result ≤ c) }
    ensures is { (result ≡ a) ⊎ (result ≡ b) ⊎ (result ≡ c) }
{
    let two = if a < b { a } else { b };
    if two < c { two } else { c }
}

/// Whether one of two is so.
fn one_of(first: bool, second: bool) -> bool
    ensures { result ≡ cond first first second }
{
    first || second
}

/// Adds to the hosts of a seat those of another.
fn unite_hosts(hosted: &mut Vec<bool>, others: &[bool])
    ensures { hosted.new.items ≡ united_lists others.now hosted.old.items others.now }
{
    let end = shortest(hosted.len(), others.len(), others.len());
    let mut s = 0;
    while s < end {
        hosted[s] = one_of(others[s], hosted[s]);
        s += 1;
    }
}

/// The second numbers where they are taken, and else the first.
fn chosen(is_taken: bool, ours: &Numbers, theirs: &Numbers) -> Numbers
    ensures { result ≡ cond is_taken theirs.now ours.now }
{
    if is_taken { *theirs } else { *ours }
}

/// Takes over the numbers of those that another seat hosts.
fn unite_numbers(numbers: &mut Vec<Numbers>, hosted: &[bool], others: &[Numbers])
    ensures { numbers.new.items ≡ united_lists hosted.now numbers.old.items others.now }
{
    let end = shortest(numbers.len(), hosted.len(), others.len());
    let mut s = 0;
    while s < end {
        numbers[s] = chosen(hosted[s], &numbers[s], &others[s]);
        s += 1;
    }
}

/// Joins another seat to the merger's: afterwards this one hosts what both did, each with all that it knew. No session was hosted by
/// both. One move joins the seat, and one load confirms what both knew. Takes no memory: the merger's seat has room for all.
pub fn join_seat(store: &Store, seat: &mut Seat, other: Seat)
    requires seat { IsSeatOf store.now seat.old }
    requires other { IsSeatOf store.now other }
    requires merger { hosts seat.old.view seat.old.view.limits.sessions ≡ true }
    ensures seat { IsSeatOf store.now seat.new }
    ensures united { seat.new.view ≡ united seat.old.view other.view }
    ensures apart { overlap seat.old.view.hosts other.view.hosts ≡ false }
{
    unite_seats(
        &store.table.shared,
        &mut seat.place,
        &store.layout.limits,
        other.place,
    );
    confirm(&store.table.shared, &mut seat.place);
    let others = other.hosted.as_slice();
    let theirs = other.numbers.as_slice();
    unite_hosts(&mut seat.hosted, others);
    unite_numbers(&mut seat.numbers, others, theirs);
}
