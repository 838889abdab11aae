//! The last commit that wrote a key.
ghost use Rattle.std.specs.Prelude.{◌≡◌, ℕ, ◌+◌, ◌*◌, ◌/◌, ◌<◌, ◌≤◌, true};
ghost use Rattle.lst_layout.specs.Addresses as layout;
ghost use Rattle.lst_layout.specs.declared.place.Place.TheVariants.{StateWord};
ghost use Rattle.lst_core_state.specs.Cells.{record_count};
ghost use Rattle.lst_core_state.specs.State.{name_of};
ghost use Rattle.lst_rule.specs.Rule.{knows};
ghost use Rattle.lst_rule.specs.Copies.{IsLinked};
ghost use Rattle.lst_rule.specs.Loads.{IsBack};
ghost use Rattle.lst_rule.specs.Seen.{HasKey};
ghost use Rattle.lst_changes.specs.Changes.{IsHolder, Steady, IsVersion, NameTime, TailTime, LastWrite, Walk};

use lst_bits::{Start, unpack_head, unpack_start};
use lst_model::Time;
use lst_rule::{RecordId, Seat, Store, is_own, load_cell, load_head, load_state, tail_of};

/// The commit time of a transaction, by its state word. None comes where it isn't committed.
fn written_time(store: &Store, seat: &mut Seat, s: u32, session: u32, number: u32) -> Option<Time>
    requires holder { IsHolder store.now seat.old s }
    requires place { layout.IsWithin seat.old.view.limits (StateWord session number) }
    ensures holder { IsHolder store.now seat.new s }
    ensures steady { Steady seat.old.view seat.new.view s }
    ensures time { NameTime (knows seat.new.view s) (name_of session number) result }
{
    let state = load_state(store, seat, s, session, number);
    if state > 1 { Some(state - 1) } else { None }
}

/// The commit time of a version's transaction. None comes where it isn't committed.
fn time_of(store: &Store, seat: &mut Seat, s: u32, tail: u32) -> Option<Time>
    requires holder { IsHolder store.now seat.old s }
    requires version { IsVersion seat.old.view.limits (knows seat.old.view s) tail }
    ensures holder { IsHolder store.now seat.new s }
    ensures steady { Steady seat.old.view seat.new.view s }
    ensures time { TailTime seat.old.view.limits (knows seat.old.view s) (knows seat.new.view s) tail result }
{
    let start = load_cell(store, seat, s, tail, 0);
    seat.consider();
    match unpack_start(start) {
        Start::Empty => unreachable!(),
        Start::At { time } => Some(time),
        Start::By { session, number } => {
            if is_own(seat, s, session, number) {
                return None;
            }
            written_time(store, seat, s, session, number)
        }
    }
}

/// The number in its range of the version below one, or 0.
fn below(store: &Store, seat: &mut Seat, s: u32, tail: u32) -> u32
    requires holder { IsHolder store.now seat.old s }
    requires version { IsLinked seat.old.view.limits (knows seat.old.view s).facts tail }
    ensures holder { IsHolder store.now seat.new s }
    ensures steady { Steady seat.old.view seat.new.view s }
    ensures back { IsBack seat.old.view.limits (knows seat.old.view s).facts tail result }
{
    load_cell(store, seat, s, tail, 2) as u32
}

/// The number in its range of a record's newest version, or 0.
fn head(store: &Store, seat: &mut Seat, s: u32, rec: RecordId) -> u32
    requires holder { IsHolder store.now seat.old s }
    requires rec { rec.number < record_count store.now.layout.limits }
    ensures holder { IsHolder store.now seat.new s }
    ensures walk { Walk store.now seat.old.view seat.new s rec.number result }
{
    unpack_head(load_head(store, seat, s, rec.number)).0
}

/// The time of the last commit that wrote the key of a record. None comes exactly where no commit did. The session holds the turn, so no commit comes
/// in between. The walk goes from the newest version to the first one that is committed.
pub fn last_commit(store: &Store, seat: &mut Seat, s: u32, rec: RecordId) -> Option<Time>
    requires holder { IsHolder store.now seat.old s }
    requires rec { rec.number < record_count store.now.layout.limits }
    ensures holder { IsHolder store.now seat.new s }
    ensures steady { Steady seat.old.view seat.new.view s }
    ensures last { (key : ℕ) → HasKey (knows seat.old.view s).facts rec.number key → LastWrite (knows seat.new.view s).seen key result }
{
    let range = rec.number / 256;
    let mut number = head(store, seat, s, rec);
    while number > 0 {
        let tail = tail_of(store, range, number);
        match time_of(store, seat, s, tail) {
            Some(time) => {
                seat.consider();
                return Some(time);
            }
            None => number = below(store, seat, s, tail),
        }
    }
    None
}
