//! Loads.
ghost use Rattle.std.specs.Prelude.{◌≡◌, ◌<◌, ◌≤◌, true};
ghost use Rattle.lst_layout.specs.Addresses as layout;
ghost use Rattle.lst_layout.specs.declared.place.Place.TheVariants.{ClockWord, RecordCounter, StateWord, KeyWord, IndexWord, HeadWord, TailCounter, CellWord};
ghost use Rattle.lst_rule.specs.Rule.{hosts};
ghost use Rattle.lst_rule.specs.Operations.{IsQuiet};
ghost use Rattle.lst_rule.specs.Stores.{IsSeatOf, Looked, Clocked};

use crate::actions::Action;
use crate::load_word;
use crate::runs::later;
use crate::seat::Seat;
use crate::store::Store;
use lst_core_state::{Event, look};
use lst_layout::Place;

/// A load that changes no number of the session.
pub(crate) fn load_quietly(
    store: &Store,
    seat: &mut Seat,
    s: u32,
    place: Place,
    address: u64,
) -> u64
    requires seat { IsSeatOf store.now seat.old }
    requires host { hosts seat.old.view s ≡ true }
    requires place { layout.IsWithin seat.old.view.limits place }
    requires address { address ≡ layout.address seat.old.view.limits place }
    requires quiet { IsQuiet place }
    ensures seat { IsSeatOf store.now seat.new }
    ensures looked { Looked seat.old.view seat.new.view s place result }
{
    let _ = place;
    let event = Event::Look {
        session: s,
        address,
    };
    load_word(
        &store.table.shared,
        &mut seat.place,
        Action::Core(event),
        address as usize,
    )
}

/// A load of any word. Part of its caller, which knows the place: so what the load changes is looked up by nobody at run time.
#[inline(always)]
pub(crate) fn load_noted(store: &Store, seat: &mut Seat, s: u32, place: Place, address: u64) -> u64
    requires seat { IsSeatOf store.now seat.old }
    requires host { hosts seat.old.view s ≡ true }
    requires place { layout.IsWithin seat.old.view.limits place }
    requires address { address ≡ layout.address seat.old.view.limits place }
    ensures seat { IsSeatOf store.now seat.new }
    ensures looked { Looked seat.old.view seat.new.view s place result }
{
    let event = Event::Look {
        session: s,
        address,
    };
    let found = load_word(
        &store.table.shared,
        &mut seat.place,
        Action::Core(event),
        address as usize,
    );
    look(
        &store.layout.limits,
        &mut seat.numbers[s as usize],
        place,
        found,
    );
    found
}

/// Loads the clock.
pub fn load_clock(store: &Store, seat: &mut Seat, s: u32) -> u64
    requires seat { IsSeatOf store.now seat.old }
    requires host { hosts seat.old.view s ≡ true }
    ensures seat { IsSeatOf store.now seat.new }
    ensures clocked { Clocked seat.old.view seat.new.view s result }
{
    load_noted(store, seat, s, Place::ClockWord, store.layout.clock())
}

/// Loads the number of records drawn.
pub fn load_record_counter(store: &Store, seat: &mut Seat, s: u32) -> u64
    requires seat { IsSeatOf store.now seat.old }
    requires host { hosts seat.old.view s ≡ true }
    ensures seat { IsSeatOf store.now seat.new }
    ensures looked { Looked seat.old.view seat.new.view s (RecordCounter) result }
{
    let address = store.layout.record_counter();
    load_noted(store, seat, s, Place::RecordCounter, address)
}

/// Loads the key word of a record.
pub fn load_key(store: &Store, seat: &mut Seat, s: u32, rec: u32) -> u64
    requires seat { IsSeatOf store.now seat.old }
    requires host { hosts seat.old.view s ≡ true }
    requires place { layout.IsWithin seat.old.view.limits (KeyWord rec) }
    ensures seat { IsSeatOf store.now seat.new }
    ensures looked { Looked seat.old.view seat.new.view s (KeyWord rec) result }
{
    let address = store.layout.keys(rec);
    load_noted(store, seat, s, Place::KeyWord { rec }, address)
}

/// Loads the word at a position of the primary index.
pub fn load_index(store: &Store, seat: &mut Seat, s: u32, position: u32) -> u64
    requires seat { IsSeatOf store.now seat.old }
    requires host { hosts seat.old.view s ≡ true }
    requires place { layout.IsWithin seat.old.view.limits (IndexWord position) }
    ensures seat { IsSeatOf store.now seat.new }
    ensures looked { Looked seat.old.view seat.new.view s (IndexWord position) result }
{
    let address = store.layout.index(position);
    load_noted(store, seat, s, Place::IndexWord { position }, address)
}

/// Loads the number of tails drawn in a range.
pub fn load_tail_counter(store: &Store, seat: &mut Seat, s: u32, range: u32) -> u64
    requires seat { IsSeatOf store.now seat.old }
    requires host { hosts seat.old.view s ≡ true }
    requires place { layout.IsWithin seat.old.view.limits (TailCounter range) }
    ensures seat { IsSeatOf store.now seat.new }
    ensures looked { Looked seat.old.view seat.new.view s (TailCounter range) result }
{
    let address = store.layout.tail_counters(range);
    load_noted(store, seat, s, Place::TailCounter { range }, address)
}

/// Loads the state word of a transaction.
pub fn load_state(store: &Store, seat: &mut Seat, s: u32, session: u32, number: u32) -> u64
    requires seat { IsSeatOf store.now seat.old }
    requires host { hosts seat.old.view s ≡ true }
    requires place { layout.IsWithin seat.old.view.limits (StateWord session number) }
    ensures seat { IsSeatOf store.now seat.new }
    ensures looked { Looked seat.old.view seat.new.view s (StateWord session number) result }
{
    let address = store.layout.transactions(session, number, 1);
    load_quietly(
        store,
        seat,
        s,
        Place::StateWord { session, number },
        address,
    )
}

/// Loads the indirection word of a record.
pub fn load_head(store: &Store, seat: &mut Seat, s: u32, rec: u32) -> u64
    requires seat { IsSeatOf store.now seat.old }
    requires host { hosts seat.old.view s ≡ true }
    requires place { layout.IsWithin seat.old.view.limits (HeadWord rec) }
    ensures seat { IsSeatOf store.now seat.new }
    ensures looked { Looked seat.old.view seat.new.view s (HeadWord rec) result }
{
    let address = store.layout.indirection(rec);
    load_quietly(store, seat, s, Place::HeadWord { rec }, address)
}

/// Loads a word of a tail, which is named by its identifier. Place 0 is its start word, 1 its encoding word, 2
/// its back word, and 3 + c the value of column c.
pub fn load_cell(store: &Store, seat: &mut Seat, s: u32, tail: u32, place: u32) -> u64
    requires seat { IsSeatOf store.now seat.old }
    requires host { hosts seat.old.view s ≡ true }
    requires place { layout.IsWithin seat.old.view.limits (CellWord tail place) }
    ensures seat { IsSeatOf store.now seat.new }
    ensures looked { Looked seat.old.view seat.new.view s (CellWord tail place) result }
{
    let address = store.layout.cell_address(tail, place);
    load_quietly(store, seat, s, Place::CellWord { tail, place }, address)
}

/// Loads a word of a tail, whose first word has this address. Does what `load_cell` does, without making the address up anew.
#[inline(always)]
pub fn load_cell_from(
    store: &Store,
    seat: &mut Seat,
    s: u32,
    tail: u32,
    first: u64,
    place: u32,
) -> u64
    requires seat { IsSeatOf store.now seat.old }
    requires host { hosts seat.old.view s ≡ true }
    requires place { layout.IsWithin seat.old.view.limits (CellWord tail place) }
    requires first { first ≡ layout.address store.now.layout.limits (CellWord tail 0) }
    ensures seat { IsSeatOf store.now seat.new }
    ensures looked { Looked seat.old.view seat.new.view s (CellWord tail place) result }
{
    let address = later(store.layout.words, first, place);
    load_quietly(store, seat, s, Place::CellWord { tail, place }, address)
}
