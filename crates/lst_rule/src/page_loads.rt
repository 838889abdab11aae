//! Loads of the words that pages are made of.
ghost use Rattle.std.specs.Prelude.{◌≡◌, ◌<◌, true};
ghost use Rattle.std.specs.List.{Contains};
ghost use Rattle.lst_layout.specs.Addresses as layout;
ghost use Rattle.lst_layout.specs.declared.place.Place.TheVariants.{EpochWord, DirectoryWord, FrameWord, PostingWord};
ghost use Rattle.lst_core_state.specs.declared.facts.Fact.TheVariants.{EpochAtLeast};
ghost use Rattle.lst_rule.specs.Rule.{knows, hosts};
ghost use Rattle.lst_rule.specs.PageSteps.{FrameLoaded};
ghost use Rattle.lst_rule.specs.Stores.{IsSeatOf, Looked};

use crate::loads::load_quietly;
use crate::seat::Seat;
use crate::store::Store;
use lst_layout::Place;

/// Loads the epoch word. The session knows afterwards that the epoch is at least this.
pub fn load_epoch(store: &Store, seat: &mut Seat, s: u32) -> u64
    requires seat { IsSeatOf store.now seat.old }
    requires host { hosts seat.old.view s ≡ true }
    ensures seat { IsSeatOf store.now seat.new }
    ensures looked { Looked seat.old.view seat.new.view s (EpochWord) result }
    ensures least { Contains (knows seat.new.view s).facts (EpochAtLeast result) }
{
    let address = store.layout.epoch();
    load_quietly(store, seat, s, Place::EpochWord, address)
}

/// Loads the directory word of a page, without taking its frame in hand.
pub fn load_directory(store: &Store, seat: &mut Seat, s: u32, range: u32, column: u32) -> u64
    requires seat { IsSeatOf store.now seat.old }
    requires host { hosts seat.old.view s ≡ true }
    requires place { layout.IsWithin seat.old.view.limits (DirectoryWord range column) }
    ensures seat { IsSeatOf store.now seat.new }
    ensures looked { Looked seat.old.view seat.new.view s (DirectoryWord range column) result }
{
    let address = store.layout.directory(range, column);
    load_quietly(
        store,
        seat,
        s,
        Place::DirectoryWord { range, column },
        address,
    )
}

/// Loads a word of a frame. Of a frame in hand of a session it is the word that was kept with it.
pub fn load_frame(store: &Store, seat: &mut Seat, s: u32, frame: u32, place: u32) -> u64
    requires seat { IsSeatOf store.now seat.old }
    requires host { hosts seat.old.view s ≡ true }
    requires place { layout.IsWithin seat.old.view.limits (FrameWord frame place) }
    ensures seat { IsSeatOf store.now seat.new }
    ensures loaded { FrameLoaded seat.old.view seat.new.view s frame place result }
{
    let address = store.layout.frames(frame, place);
    load_quietly(store, seat, s, Place::FrameWord { frame, place }, address)
}

/// Loads a word of the postings of an indexed column.
pub fn load_posting(store: &Store, seat: &mut Seat, s: u32, column: u32, position: u32) -> u64
    requires seat { IsSeatOf store.now seat.old }
    requires host { hosts seat.old.view s ≡ true }
    requires place { layout.IsWithin seat.old.view.limits (PostingWord column position) }
    ensures seat { IsSeatOf store.now seat.new }
    ensures looked { Looked seat.old.view seat.new.view s (PostingWord column position) result }
{
    let address = store.layout.postings(column, position);
    load_quietly(
        store,
        seat,
        s,
        Place::PostingWord { column, position },
        address,
    )
}
