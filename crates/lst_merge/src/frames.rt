//! Words of frames, loaded and stored.
ghost use Rattle.std.specs.Prelude.{◌≡◌, ℕ, ◌<◌, true, slice_index};
ghost use Rattle.lst_layout.specs.declared.TheConstants.{FRAME_WORDS};
ghost use Rattle.lst_layout.specs.Areas.{frame_count};
ghost use Rattle.lst_pages.specs.Runs.{frame_known, page_known};
ghost use Rattle.lst_pages.specs.Sound.{IsPage};
ghost use Rattle.lst_rule.specs.Rule.{hosts};
ghost use Rattle.lst_rule.specs.Learned.{Learns, Kept};
ghost use Rattle.lst_rule.specs.PageSteps.{stock_of, StockIs};
ghost use Rattle.lst_rule.specs.Stores.{IsSeatOf, Looked};
ghost use Rattle.lst_layout.specs.declared.place.Place.TheVariants.{DirectoryWord};
ghost use Rattle.lst_merge.specs.Builds.{IsFree, StoresFrame};

use lst_layout::FRAME_WORDS;
use lst_rule::{Seat, Store, load_directory, load_frame_words, store_frame_words};

const WORDS: usize = FRAME_WORDS as usize;

/// The frame of a page, by its directory word.
pub(crate) fn page_frame(store: &Store, seat: &mut Seat, range: u32, column: u32) -> u32
    requires seat { IsSeatOf store.now seat.old }
    requires host { hosts seat.old.view seat.old.view.limits.sessions ≡ true }
    requires page { IsPage seat.old.view.limits range column }
    ensures seat { IsSeatOf store.now seat.new }
    ensures looked { Looked seat.old.view seat.new.view seat.old.view.limits.sessions (DirectoryWord range column) result }
    ensures frame { result ≡ page_known (stock_of seat.old.view) range column }
    ensures low { result < frame_count seat.old.view.limits }
{
    let merger = store.layout().limits.sessions;
    load_directory(store, seat, merger, range, column) as u32
}

/// Loads the words of a frame. They are those that the merger knows.
pub(crate) fn load_words(store: &Store, seat: &mut Seat, frame: u32, words: &mut [u64; WORDS])
    requires seat { IsSeatOf store.now seat.old }
    requires host { hosts seat.old.view seat.old.view.limits.sessions ≡ true }
    requires frame { frame < frame_count seat.old.view.limits }
    ensures seat { IsSeatOf store.now seat.new }
    ensures view { StockIs seat.old.view seat.new.view (stock_of seat.old.view) }
    ensures kept { Kept seat.old.view seat.new.view }
    ensures words { (place : ℕ) → place < FRAME_WORDS → slice_index words.new place ≡ frame_known (stock_of seat.old.view) frame place }
{
    let merger = store.layout().limits.sessions;
    load_frame_words(store, seat, merger, frame, words);
}

/// Stores words into a free frame, one after another.
pub(crate) fn store_words(store: &Store, seat: &mut Seat, frame: u32, words: &[u64; WORDS])
    requires seat { IsSeatOf store.now seat.old }
    requires host { hosts seat.old.view seat.old.view.limits.sessions ≡ true }
    requires frame { frame < frame_count seat.old.view.limits }
    requires free { IsFree seat.old.view frame }
    ensures seat { IsSeatOf store.now seat.new }
    ensures stores { StoresFrame seat.old.view seat.new.view frame FRAME_WORDS (slice_index words.now) }
{
    store_frame_words(store, seat, frame, words);
}
