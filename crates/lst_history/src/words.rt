//! Single words of a store, as a seat reads them that knows each.
ghost use Rattle.std.specs.Prelude.{◌≡◌, ◌<◌, ◌≤◌};
ghost use Rattle.lst_layout.specs.Addresses as layout;
ghost use Rattle.lst_layout.specs.declared.place.Place.TheVariants.{BeginWord, KeyWord, CellWord};
ghost use Rattle.lst_history.specs.Commits.{IsDrawn};
ghost use Rattle.lst_core_state.specs.State.{history_of};
ghost use Rattle.lst_rule.specs.Rule.{knows};
ghost use Rattle.lst_history.specs.Peeks.{words_in, IsReader, Reads};

use lst_rule::{Seat, Store, load, load_cell, load_clock, load_key, load_tail_counter};

/// The number of commits. The session has then seen each of them.
pub(crate) fn clock(store: &Store, seat: &mut Seat, s: u32) -> u64
    requires reader { IsReader store.now seat.old s }
    ensures reads { Reads store.now seat.old seat.new s }
    ensures word { result ≡ (words_in seat.old.view).clock }
    ensures seen { (knows seat.new.view s).seen ≡ history_of seat.old.view.limits (words_in seat.old.view) }
{
    load_clock(store, seat, s)
}

/// The log's word of a time.
pub(crate) fn log_word(store: &Store, seat: &mut Seat, s: u32, time: u64) -> u64
    requires reader { IsReader store.now seat.old s }
    requires time { (0 < time) × (time ≤ (words_in seat.old.view).clock) }
    ensures reads { Reads store.now seat.old seat.new s }
    ensures word { result ≡ (words_in seat.old.view).log time }
{
    seat.consider();
    let address = store.layout().log(time);
    load(store, seat, s, address)
}

/// The begin word of a transaction.
pub(crate) fn begin_word(store: &Store, seat: &mut Seat, s: u32, session: u32, number: u32) -> u64
    requires reader { IsReader store.now seat.old s }
    requires within { layout.IsWithin seat.old.view.limits (BeginWord session number) }
    ensures reads { Reads store.now seat.old seat.new s }
    ensures word { result ≡ (words_in seat.old.view).begins session number }
{
    let address = store.layout().transactions(session, number, 0);
    load(store, seat, s, address)
}

/// The key of a record.
pub(crate) fn key_word(store: &Store, seat: &mut Seat, s: u32, rec: u32) -> u64
    requires reader { IsReader store.now seat.old s }
    requires within { layout.IsWithin seat.old.view.limits (KeyWord rec) }
    ensures reads { Reads store.now seat.old seat.new s }
    ensures word { result ≡ (words_in seat.old.view).keys rec }
{
    load_key(store, seat, s, rec)
}

/// A word of a tail record.
pub(crate) fn cell_word(store: &Store, seat: &mut Seat, s: u32, tail: u32, place: u32) -> u64
    requires reader { IsReader store.now seat.old s }
    requires within { layout.IsWithin seat.old.view.limits (CellWord tail place) }
    ensures reads { Reads store.now seat.old seat.new s }
    ensures word { result ≡ (words_in seat.old.view).cells tail place }
{
    load_cell(store, seat, s, tail, place)
}

/// How many tail records of a range are drawn. The range's tail counter may have passed the limit.
pub(crate) fn drawn_tails(store: &Store, seat: &mut Seat, s: u32, range: u32) -> u32
    requires reader { IsReader store.now seat.old s }
    requires range { range < seat.old.view.limits.ranges }
    ensures reads { Reads store.now seat.old seat.new s }
    ensures drawn { IsDrawn seat.old.view.limits (words_in seat.old.view) range result }
{
    let tails = store.layout().limits.tails;
    let counter = load_tail_counter(store, seat, s, range);
    if counter < tails as u64 {
        counter as u32
    } else {
        tails
    }
}
