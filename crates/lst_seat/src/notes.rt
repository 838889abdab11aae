//! Notes: a copy of what a seat's sessions have seen, told by one seat and heard by another.
ghost use Rattle.std.specs.Prelude.{◌≡◌, ℕ, ◌≤◌, [], length, true, false};
ghost use Rattle.lst_rule.specs.Rule.{knows, hosts};
ghost use Rattle.lst_rule.specs.Stores.{IsSeatOf};
ghost use Rattle.lst_seat.specs.Seats.{HostsSome, Tells, Hears};

use lst_rule::{Seat, Store, hear_note, note_of};

/// What a session has seen, for others to hear. Its seat hosts nobody.
#[derive(Drop)]
pub struct Note {
    pub(crate) seat: Seat,
    ghost bare: { seat.view.hosts ≡ [] },
    ghost time: { seat.note_time ≡ length seat.view.note },
}

/// Whether a session is hosted and has seen more than another, or the other isn't hosted.
fn tells_more(seat: &Seat, s: u32, other: u32) -> bool
    requires low { (s ≤ seat.now.view.limits.sessions) × (other ≤ seat.now.view.limits.sessions) }
    ensures more { result ≡ true → (hosts seat.now.view s ≡ true) × (hosts seat.now.view other ≡ true → length (knows seat.now.view other).seen ≤ length (knows seat.now.view s).seen) }
    ensures less { result ≡ false → hosts seat.now.view s ≡ true → (hosts seat.now.view other ≡ true) × (length (knows seat.now.view s).seen ≤ length (knows seat.now.view other).seen) }
{
    if !seat.hosts(s) {
        return false;
    }
    if !seat.hosts(other) {
        return true;
    }
    seat.seen(other) < seat.seen(s)
}

/// The session of the seat that has seen most, or the merger.
fn best_teller(seat: &Seat) -> u32
    requires some { HostsSome seat.now.view }
    ensures hosted { hosts seat.now.view result ≡ true }
    ensures most { (s : ℕ) → s ≤ seat.now.view.limits.sessions → hosts seat.now.view s ≡ true → length (knows seat.now.view s).seen ≤ length (knows seat.now.view result).seen }
{
    let limit = seat.limits().sessions;
    let mut teller = limit;
    let mut s = limit;
    while s > 0 {
        s -= 1;
        if tells_more(seat, s, teller) {
            teller = s;
        }
    }
    seat.consider();
    teller
}

/// Copies what the sessions of a seat have seen into a note: the longest history that one of them has seen. Of a seat with one session it is
/// what that session has seen. The seat stays as it is. Takes no memory.
pub fn tell(store: &Store, seat: &mut Seat) -> Note
    requires seat { IsSeatOf store.now seat.old }
    requires some { HostsSome seat.old.view }
    ensures seat { seat.new ≡ seat.old }
    ensures note { Tells store.now seat.old.view result.seat }
{
    seat.consider();
    let teller = best_teller(seat);
    let seat = note_of(store, seat, teller);
    Note { seat }
}

/// Lets the sessions of a seat hear a note: afterwards all that the teller had seen is a front of what each of them has seen. Nothing else
/// of the seat changes.
pub fn hear(store: &Store, seat: &mut Seat, note: Note)
    requires seat { IsSeatOf store.now seat.old }
    requires note { IsSeatOf store.now note.seat }
    ensures seat { IsSeatOf store.now seat.new }
    ensures hears { Hears seat.old.view seat.new.view note.seat.view }
{
    hear_note(store, seat, note.seat);
}
