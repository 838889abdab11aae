//! The steps on pins, pages and frames, one call for each kind.
ghost use Rattle.std.specs.Prelude.{◌≡◌, ◌+◌, ◌<◌, true};
ghost use Rattle.lst_layout.specs.Addresses as addresses;
ghost use Rattle.lst_layout.specs.declared.place.Place.TheVariants.{EpochWord, DirectoryWord, FrameWord, PinWord};
ghost use Rattle.lst_pages.specs.declared.events.PageEvent.TheVariants.{Pin, Unpin, LookPage, LookPin, StoreFrame, Swap, Raise};
ghost use Rattle.lst_pages.specs.Known.{PageEnabled};
ghost use Rattle.lst_pages.specs.Step.{IsWithin};
ghost use Rattle.lst_rule.specs.Rule.{knows, hosts};
ghost use Rattle.lst_rule.specs.Learned.{Learns, PageCanStand, PageMade};
ghost use Rattle.lst_rule.specs.PageSteps.{pinned_at, unpinned, PageLooked, PinLooked, frame_stored, stock_of, StockIs, Swapped, raised};
ghost use Rattle.lst_rule.specs.Stores.{IsSeatOf};

use crate::page_acts::{load_page, store_page};
use crate::runs::later;
use crate::seat::Seat;
use crate::store::Store;
use lst_pages::PageEvent;

/// Stores the session's pin word: the epoch plus one. Allowed where it has no pin, for an epoch that the epoch word has reached, as a
/// session knows that has loaded it. No frame is in hand afterwards.
pub fn step_pin(store: &Store, seat: &mut Seat, s: u32, epoch: u64)
    requires seat { IsSeatOf store.now seat.old }
    requires host { hosts seat.old.view s ≡ true }
    requires own { s < seat.old.view.limits.sessions }
    requires enabled { PageEnabled seat.old.view.limits (knows seat.old.view s).pages (Pin s epoch) }
    requires stands { PageCanStand seat.old.view (Pin s epoch) }
    ensures seat { IsSeatOf store.now seat.new }
    ensures view { Learns seat.old.view seat.new.view s (pinned_at seat.old.view.limits (knows seat.old.view s) epoch) }
    ensures made { PageMade seat.old.view seat.new.view (Pin s epoch) (PinWord s) (epoch + 1) }
{
    store_page(store, seat, s, PageEvent::Pin { session: s, epoch });
}

/// Stores 0 into the session's pin word. Allowed where it has a pin. No frame is in hand afterwards.
pub fn step_unpin(store: &Store, seat: &mut Seat, s: u32)
    requires seat { IsSeatOf store.now seat.old }
    requires host { hosts seat.old.view s ≡ true }
    requires own { s < seat.old.view.limits.sessions }
    requires enabled { PageEnabled seat.old.view.limits (knows seat.old.view s).pages (Unpin s) }
    ensures seat { IsSeatOf store.now seat.new }
    ensures view { Learns seat.old.view seat.new.view s (unpinned seat.old.view.limits (knows seat.old.view s)) }
    ensures made { PageMade seat.old.view seat.new.view (Unpin s) (PinWord s) (0) }
{
    store_page(store, seat, s, PageEvent::Unpin { session: s });
}

/// Loads the directory word of a page, and answers the frame that it names. Allowed where the session has a pin. The frame is in hand
/// afterwards, with the words of a right page, and no word of it changes while it is in hand.
pub fn step_look_page(store: &Store, seat: &mut Seat, s: u32, range: u32, column: u32) -> u64
    requires seat { IsSeatOf store.now seat.old }
    requires host { hosts seat.old.view s ≡ true }
    requires own { s < seat.old.view.limits.sessions }
    requires within { IsWithin seat.old.view.limits (LookPage s range column) }
    requires enabled { PageEnabled seat.old.view.limits (knows seat.old.view s).pages (LookPage s range column) }
    ensures seat { IsSeatOf store.now seat.new }
    ensures looked { PageLooked seat.old.view seat.new.view s range column result }
{
    let first = store.layout.directory(range, 0);
    step_look_page_from(store, seat, s, range, column, first)
}

/// What `step_look_page` does, where the directory word of the range's first page has this address.
#[inline(always)]
pub fn step_look_page_from(
    store: &Store,
    seat: &mut Seat,
    s: u32,
    range: u32,
    column: u32,
    first: u64,
) -> u64
    requires seat { IsSeatOf store.now seat.old }
    requires host { hosts seat.old.view s ≡ true }
    requires own { s < seat.old.view.limits.sessions }
    requires within { IsWithin seat.old.view.limits (LookPage s range column) }
    requires enabled { PageEnabled seat.old.view.limits (knows seat.old.view s).pages (LookPage s range column) }
    requires first { first ≡ addresses.address store.now.layout.limits (DirectoryWord range 0) }
    ensures seat { IsSeatOf store.now seat.new }
    ensures looked { PageLooked seat.old.view seat.new.view s range column result }
{
    let event = PageEvent::LookPage {
        session: s,
        range,
        column,
    };
    let address = later(store.layout.words, first, column);
    load_page(store, seat, event, address)
}

/// Loads a session's pin word as the merger, and answers it. Allowed while no frame waits to be retired. Afterwards the merger knows
/// that the session has the oldest retired frame not in hand, or the look is counted as one that found it held.
pub fn step_look_pin(store: &Store, seat: &mut Seat, session: u32) -> u64
    requires seat { IsSeatOf store.now seat.old }
    requires host { hosts seat.old.view seat.old.view.limits.sessions ≡ true }
    requires within { IsWithin seat.old.view.limits (LookPin session) }
    requires enabled { PageEnabled seat.old.view.limits (knows seat.old.view seat.old.view.limits.sessions).pages (LookPin session) }
    ensures seat { IsSeatOf store.now seat.new }
    ensures looked { PinLooked seat.old.view seat.new.view session result }
{
    let address = store.layout.pins(session);
    load_page(store, seat, PageEvent::LookPin { session }, address)
}

/// Stores a word of a frame. Allowed for the oldest retired frame, once every session's pin was found not to hold it. The frame is being
/// built afterwards.
pub fn step_store_frame(store: &Store, seat: &mut Seat, frame: u32, place: u32, value: u64)
    requires seat { IsSeatOf store.now seat.old }
    requires host { hosts seat.old.view seat.old.view.limits.sessions ≡ true }
    requires within { IsWithin seat.old.view.limits (StoreFrame frame place value) }
    requires enabled { PageEnabled seat.old.view.limits (knows seat.old.view seat.old.view.limits.sessions).pages (StoreFrame frame place value) }
    ensures seat { IsSeatOf store.now seat.new }
    ensures view { StockIs seat.old.view seat.new.view (frame_stored (stock_of seat.old.view) frame place value) }
    ensures made { PageMade seat.old.view seat.new.view (StoreFrame frame place value) (FrameWord frame place) (value) }
{
    let merger = store.layout.limits.sessions;
    store_page(
        store,
        seat,
        merger,
        PageEvent::StoreFrame {
            frame,
            place,
            value,
        },
    );
}

/// Stores the frame that was built into the directory word of a page. Allowed where that frame is a right page of this range and column,
/// of more tails than the page that it replaces. The frame before waits to be retired, and every pin has to be found anew.
pub fn step_swap(store: &Store, seat: &mut Seat, range: u32, column: u32)
    requires seat { IsSeatOf store.now seat.old }
    requires host { hosts seat.old.view seat.old.view.limits.sessions ≡ true }
    requires within { IsWithin seat.old.view.limits (Swap range column) }
    requires enabled { PageEnabled seat.old.view.limits (knows seat.old.view seat.old.view.limits.sessions).pages (Swap range column) }
    requires stands { PageCanStand seat.old.view (Swap range column) }
    ensures seat { IsSeatOf store.now seat.new }
    ensures swapped { Swapped seat.old.view seat.new.view range column }
{
    let merger = store.layout.limits.sessions;
    store_page(store, seat, merger, PageEvent::Swap { range, column });
}

/// Stores the epoch word, one higher. Allowed where a frame waits to be retired, so directly after a swap. That frame is retired at
/// this epoch.
pub fn step_raise(store: &Store, seat: &mut Seat)
    requires seat { IsSeatOf store.now seat.old }
    requires host { hosts seat.old.view seat.old.view.limits.sessions ≡ true }
    requires enabled { PageEnabled seat.old.view.limits (knows seat.old.view seat.old.view.limits.sessions).pages Raise }
    ensures seat { IsSeatOf store.now seat.new }
    ensures view { StockIs seat.old.view seat.new.view (raised (stock_of seat.old.view)) }
    ensures made { PageMade seat.old.view seat.new.view Raise EpochWord ((stock_of seat.old.view).epoch + 1) }
{
    let merger = store.layout.limits.sessions;
    store_page(store, seat, merger, PageEvent::Raise);
}
