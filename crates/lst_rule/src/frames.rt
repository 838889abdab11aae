//! All words of a frame, loaded or stored by one call.
ghost use Rattle.std.specs.Prelude.{◌≡◌, ℕ, ◌+◌, ◌<◌, Some, true, slice_index};
ghost use Rattle.lst_layout.specs.declared.TheConstants.{FRAME_WORDS};
ghost use Rattle.lst_layout.specs.declared.place.Place.TheVariants.{FrameWord};
ghost use Rattle.lst_layout.specs.Addresses as addresses;
ghost use Rattle.lst_layout.specs.Areas.{frame_count};
ghost use Rattle.lst_pages.specs.declared.events.PageEvent.TheVariants.{StoreFrame};
ghost use Rattle.lst_pages.specs.Known.{PageEnabled};
ghost use Rattle.lst_rule.specs.Frames.{FrameFound, LoadsFrame, FrameStored, StoresWords};
ghost use Rattle.lst_rule.specs.Rule.{knows, hosts};
ghost use Rattle.lst_rule.specs.PageSteps.{stock_of, FrameLoaded};
ghost use Rattle.lst_rule.specs.Stores.{IsSeatOf};

use crate::actions::Action;
use crate::loads::load_quietly;
use crate::page_steps::step_store_frame;
use crate::runs::later;
use crate::seat::Seat;
use crate::store::Store;
use crate::store_word;
use lst_layout::{FRAME_WORDS, Place};
use lst_pages::PageEvent;

const WORDS: usize = FRAME_WORDS as usize;

/// How many words are loaded a turn: all of them in 37 turns.
const LOADED: u32 = 14;

/// How many words are stored a turn: all but the first in 47 turns.
const STORED: u32 = 11;

/// Loads a word of a frame, whose first word has this address, as `load_frame` does.
#[inline(always)]
pub fn load_frame_from(
    store: &Store,
    seat: &mut Seat,
    s: u32,
    frame: u32,
    first: u64,
    place: u32,
) -> u64
    requires seat { IsSeatOf store.now seat.old }
    requires host { hosts seat.old.view s ≡ true }
    requires frame { frame < frame_count seat.old.view.limits }
    requires place { place < FRAME_WORDS }
    requires first { first ≡ addresses.address store.now.layout.limits (FrameWord frame 0) }
    ensures seat { IsSeatOf store.now seat.new }
    ensures loaded { FrameLoaded seat.old.view seat.new.view s frame place result }
{
    let address = later(store.layout.words, first, place);
    load_quietly(store, seat, s, Place::FrameWord { frame, place }, address)
}

/// Loads all words of a frame into an array. Does what as many calls of `load_frame` do, in order. Their address is made up once, and fourteen
/// are loaded a turn: the compiler unrolls the inner loop.
pub fn load_frame_words(store: &Store, seat: &mut Seat, s: u32, frame: u32, out: &mut [u64; WORDS])
    requires seat { IsSeatOf store.now seat.old }
    requires host { hosts seat.old.view s ≡ true }
    requires frame { frame < frame_count seat.old.view.limits }
    ensures seat { IsSeatOf store.now seat.new }
    ensures loads { LoadsFrame seat.old.view seat.new.view s frame FRAME_WORDS (slice_index out.new) }
    ensures found { FrameFound seat.old.view seat.new.view s frame FRAME_WORDS (slice_index out.new) }
{
    let first = store.layout.frames(frame, 0);
    for turn in 0..FRAME_WORDS / LOADED {
        for place in 0..LOADED {
            let word = LOADED * turn + place;
            out[word as usize] = load_frame_from(store, seat, s, frame, first, word);
        }
    }
}

/// Stores a word into the frame that is being built, whose first word has this address. No number of the merger changes.
#[inline(always)]
fn store_frame_from(store: &Store, seat: &mut Seat, frame: u32, first: u64, place: u32, value: u64)
    requires seat { IsSeatOf store.now seat.old }
    requires host { hosts seat.old.view seat.old.view.limits.sessions ≡ true }
    requires frame { frame < frame_count seat.old.view.limits }
    requires place { place < FRAME_WORDS }
    requires first { first ≡ addresses.address store.now.layout.limits (FrameWord frame 0) }
    requires enabled { PageEnabled seat.old.view.limits (knows seat.old.view seat.old.view.limits.sessions).pages (StoreFrame frame place value) }
    requires built { (stock_of seat.old.view).built ≡ Some frame }
    ensures seat { IsSeatOf store.now seat.new }
    ensures stored { FrameStored seat.old.view seat.new.view frame place value }
{
    let word = later(store.layout.words, first, place) as usize;
    let event = PageEvent::StoreFrame {
        frame,
        place,
        value,
    };
    store_word(
        &store.table.shared,
        &mut seat.place,
        Action::Page(event),
        word,
        value,
    );
}

/// Stores all words of a frame. Allowed where a word of it may be stored: for the oldest retired frame, once every session's pin was found
/// not to hold it. The frame is being built afterwards. Does what as many calls of `step_store_frame` do, in order: the first stores the
/// first word, and eleven are stored a turn after it.
pub fn store_frame_words(store: &Store, seat: &mut Seat, frame: u32, words: &[u64; WORDS])
    requires seat { IsSeatOf store.now seat.old }
    requires host { hosts seat.old.view seat.old.view.limits.sessions ≡ true }
    requires frame { frame < frame_count seat.old.view.limits }
    requires enabled { (place value : ℕ) → PageEnabled seat.old.view.limits (knows seat.old.view seat.old.view.limits.sessions).pages (StoreFrame frame place value) }
    ensures seat { IsSeatOf store.now seat.new }
    ensures stores { StoresWords seat.old.view seat.new.view frame FRAME_WORDS (slice_index words.now) }
{
    let first = store.layout.frames(frame, 0);
    step_store_frame(store, seat, frame, 0, words[0]);
    for turn in 0..FRAME_WORDS / STORED {
        for place in 0..STORED {
            let word = 1 + STORED * turn + place;
            store_frame_from(store, seat, frame, first, word, words[word as usize]);
        }
    }
}
