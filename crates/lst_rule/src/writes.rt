//! The steps of a session's writes, one call for each kind.
ghost use Rattle.std.specs.Prelude.{◌≡◌, ◌+◌, ◌-◌, ◌*◌, ◌/◌, ◌%◌, ◌^◌, ◌<◌, ◌≤◌, true, cond, eqb};
ghost use Rattle.lst_layout.specs.declared.place.Place.TheVariants.{RecordCounter, KeyWord, IndexWord, HeadWord, TailCounter, CellWord, PostingWord};
ghost use Rattle.lst_core_state.specs.declared.events.Event.TheVariants.{DrawRecord, StoreKey, Claim, Latch, DrawTail, StoreCell, Install, Release, Stamp, Post};
ghost use Rattle.lst_core_state.specs.Step.{IsWithin, Enabled, number_in};
ghost use Rattle.lst_rule.specs.Rule.{knows, hosts};
ghost use Rattle.lst_rule.specs.Learned.{CanStand, Times, Made, Met};
ghost use Rattle.lst_rule.specs.Stores.{IsSeatOf};

use crate::acts::{draw_event, exchange_event, latch_event, store_event};
use crate::seat::Seat;
use crate::store::Store;
use lst_core_state::Event;

/// Adds one to the record counter, and answers the record drawn, or a number at the limit or above. Allowed with no record in hand, once
/// a load has found the counter below its limit since the last draw.
pub fn step_draw_record(store: &Store, seat: &mut Seat, s: u32) -> u64
    requires seat { IsSeatOf store.now seat.old }
    requires host { hosts seat.old.view s ≡ true }
    requires own { s < seat.old.view.limits.sessions }
    requires enabled { Enabled seat.old.view.limits (knows seat.old.view s) (DrawRecord s) }
    ensures seat { IsSeatOf store.now seat.new }
    ensures met { Met seat.old.view seat.new.view (DrawRecord s) (RecordCounter) ((result + 1) % 2 ^ 64) result }
{
    draw_event(store, seat, s, Event::DrawRecord { session: s })
}

/// Stores the key word of the record in hand. Allowed with a record in hand.
pub fn step_store_key(store: &Store, seat: &mut Seat, s: u32, key: u64)
    requires seat { IsSeatOf store.now seat.old }
    requires host { hosts seat.old.view s ≡ true }
    requires own { s < seat.old.view.limits.sessions }
    requires enabled { Enabled seat.old.view.limits (knows seat.old.view s) (StoreKey s key) }
    ensures seat { IsSeatOf store.now seat.new }
    ensures made { Made seat.old.view seat.new.view (StoreKey s key) (KeyWord ((knows seat.old.view s).placing.hand - 1)) (key) }
{
    store_event(store, seat, s, Event::StoreKey { session: s, key }, 0);
}

/// Exchanges a position of the primary index from 0 to the record in hand plus one, and answers what it found. Allowed once the key is
/// stored, where all positions of the key's run before this one are known to hold other keys.
pub fn step_claim(store: &Store, seat: &mut Seat, s: u32, position: u32) -> u64
    requires seat { IsSeatOf store.now seat.old }
    requires host { hosts seat.old.view s ≡ true }
    requires own { s < seat.old.view.limits.sessions }
    requires within { IsWithin seat.old.view.limits (Claim s position) }
    requires enabled { Enabled seat.old.view.limits (knows seat.old.view s) (Claim s position) }
    requires stands { CanStand seat.old.view (Claim s position) }
    ensures seat { IsSeatOf store.now seat.new }
    ensures met { Met seat.old.view seat.new.view (Claim s position) (IndexWord position) (cond (eqb result 0) (knows seat.old.view s).placing.hand result) result }
{
    exchange_event(
        store,
        seat,
        s,
        Event::Claim {
            session: s,
            position,
        },
    )
}

/// Sets the latch bit of a record's indirection word, and answers what it found: the latch is in hand where the bit was not set. Allowed
/// in a transaction that may write, with no latch and no turn, for a record that is known to be in the index.
pub fn step_latch(store: &Store, seat: &mut Seat, s: u32, rec: u32) -> u64
    requires seat { IsSeatOf store.now seat.old }
    requires host { hosts seat.old.view s ≡ true }
    requires own { s < seat.old.view.limits.sessions }
    requires within { IsWithin seat.old.view.limits (Latch s rec) }
    requires enabled { Enabled seat.old.view.limits (knows seat.old.view s) (Latch s rec) }
    requires stands { CanStand seat.old.view (Latch s rec) }
    ensures seat { IsSeatOf store.now seat.new }
    ensures met { Met seat.old.view seat.new.view (Latch s rec) (HeadWord rec) (2 * (result / 2) + 1) result }
{
    latch_event(store, seat, s, Event::Latch { session: s, rec })
}

/// Adds one to the tail counter of the latched record's range, and answers one less than the number drawn, or a number at the limit or
/// above. Allowed with no tail in hand, once a load has found the counter below its limit since the last draw, where the chain is
/// judged.
pub fn step_draw_tail(store: &Store, seat: &mut Seat, s: u32, range: u32) -> u64
    requires seat { IsSeatOf store.now seat.old }
    requires host { hosts seat.old.view s ≡ true }
    requires own { s < seat.old.view.limits.sessions }
    requires within { IsWithin seat.old.view.limits (DrawTail s range) }
    requires enabled { Enabled seat.old.view.limits (knows seat.old.view s) (DrawTail s range) }
    requires stands { CanStand seat.old.view (DrawTail s range) }
    ensures seat { IsSeatOf store.now seat.new }
    ensures met { Met seat.old.view seat.new.view (DrawTail s range) (TailCounter range) ((result + 1) % 2 ^ 64) result }
{
    draw_event(store, seat, s, Event::DrawTail { session: s, range })
}

/// Stores a word of the tail in hand: place 0 is its start word, 1 its encoding word, 2 its back word, and 3 + c the value of column c.
/// Allowed until the start word is stored. The start word comes last, and names the open transaction; the other words are then known to
/// be those of a write that fits.
pub fn step_store_cell(store: &Store, seat: &mut Seat, s: u32, place: u32, value: u64)
    requires seat { IsSeatOf store.now seat.old }
    requires host { hosts seat.old.view s ≡ true }
    requires own { s < seat.old.view.limits.sessions }
    requires within { IsWithin seat.old.view.limits (StoreCell s place value) }
    requires enabled { Enabled seat.old.view.limits (knows seat.old.view s) (StoreCell s place value) }
    requires stands { CanStand seat.old.view (StoreCell s place value) }
    ensures seat { IsSeatOf store.now seat.new }
    ensures made { Made seat.old.view seat.new.view (StoreCell s place value) (CellWord (knows seat.old.view s).hold.tail place) (value) }
{
    store_event(
        store,
        seat,
        s,
        Event::StoreCell {
            session: s,
            place,
            value,
        },
        0,
    );
}

/// Exchanges a position of an indexed column's postings from 0 to the tail in hand, and answers what it found: the tail is posted where
/// that is 0. Allowed once the tail is whole, for a column that it holds with a number and that isn't posted yet, where all positions of
/// the number's run before this one are known to be taken.
pub fn step_post(store: &Store, seat: &mut Seat, s: u32, column: u32, position: u32) -> u64
    requires seat { IsSeatOf store.now seat.old }
    requires host { hosts seat.old.view s ≡ true }
    requires own { s < seat.old.view.limits.sessions }
    requires within { IsWithin seat.old.view.limits (Post s column position) }
    requires enabled { Enabled seat.old.view.limits (knows seat.old.view s) (Post s column position) }
    requires stands { CanStand seat.old.view (Post s column position) }
    ensures seat { IsSeatOf store.now seat.new }
    ensures met { Met seat.old.view seat.new.view (Post s column position) (PostingWord column position) (cond (eqb result 0) (knows seat.old.view s).hold.tail result) result }
{
    exchange_event(
        store,
        seat,
        s,
        Event::Post {
            session: s,
            column,
            position,
        },
    )
}

/// Stores the number of the tail in hand, within its range, into the indirection word of the latched record, without the latch bit.
/// Allowed once the start word of the tail is stored.
pub fn step_install(store: &Store, seat: &mut Seat, s: u32)
    requires seat { IsSeatOf store.now seat.old }
    requires host { hosts seat.old.view s ≡ true }
    requires own { s < seat.old.view.limits.sessions }
    requires enabled { Enabled seat.old.view.limits (knows seat.old.view s) (Install s) }
    requires stands { CanStand seat.old.view (Install s) }
    ensures seat { IsSeatOf store.now seat.new }
    ensures made { Made seat.old.view seat.new.view (Install s) (HeadWord ((knows seat.old.view s).hold.latch - 1)) (2 * number_in seat.old.view.limits ((knows seat.old.view s).hold.latch - 1) (knows seat.old.view s).hold.tail) }
{
    store_event(store, seat, s, Event::Install { session: s }, 0);
}

/// Stores the indirection word of the latched record as it was before the latch. Allowed with no tail in hand.
pub fn step_release(store: &Store, seat: &mut Seat, s: u32)
    requires seat { IsSeatOf store.now seat.old }
    requires host { hosts seat.old.view s ≡ true }
    requires own { s < seat.old.view.limits.sessions }
    requires enabled { Enabled seat.old.view.limits (knows seat.old.view s) (Release s) }
    ensures seat { IsSeatOf store.now seat.new }
    ensures made { Made seat.old.view seat.new.view (Release s) (HeadWord ((knows seat.old.view s).hold.latch - 1)) (2 * (knows seat.old.view s).hold.head) }
{
    store_event(store, seat, s, Event::Release { session: s }, 0);
}

/// Stores the commit time of a tail's transaction into its start word. The tail is named by its number within the range, from 1 on, and not
/// by its identifier. Allowed where the transaction is known to be committed, at this time.
pub fn step_stamp(store: &Store, seat: &mut Seat, s: u32, range: u32, tail: u32, time: u64)
    requires seat { IsSeatOf store.now seat.old }
    requires host { hosts seat.old.view s ≡ true }
    requires own { s < seat.old.view.limits.sessions }
    requires within { IsWithin seat.old.view.limits (Stamp s range tail) }
    requires stands { CanStand seat.old.view (Stamp s range tail) }
    requires time { time < 2 ^ 32 }
    requires times { Times seat.old.view (Stamp s range tail) time }
    ensures seat { IsSeatOf store.now seat.new }
    ensures made { Made seat.old.view seat.new.view (Stamp s range tail) (CellWord (range * seat.old.view.limits.tails + tail) 0) (2 * time) }
{
    store_event(
        store,
        seat,
        s,
        Event::Stamp {
            session: s,
            range,
            number: tail,
        },
        time,
    );
}
