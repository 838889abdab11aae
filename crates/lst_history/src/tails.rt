//! The write of a tail record, and the commit that it is of.
ghost use Rattle.std.specs.Prelude.{◌≡◌, ◌<◌, ◌≤◌, MatchOption};
ghost use Rattle.lst_core_state.specs.Cells.{tail_count};
ghost use Rattle.lst_history.specs.Peeks.{words_in, IsReader, Reads};
ghost use Rattle.lst_history.specs.Commits.{write_at, IsOfCommit, IsOfNone};

use crate::acts::act;
use crate::words::{cell_word, key_word};
use lst_bits::unpack_encoding;
use lst_model::Write;
use lst_rule::{Seat, Status, Store, status_of};

/// The time of the commit that a tail record has a write of. None comes where it isn't stored, or its transaction isn't committed.
pub(crate) fn commit_time(store: &Store, seat: &mut Seat, s: u32, tail: u32) -> Option<u64>
    requires reader { IsReader store.now seat.old s }
    requires tail { (0 < tail) × (tail ≤ tail_count seat.old.view.limits) }
    ensures reads { Reads store.now seat.old seat.new s }
    ensures time { MatchOption result (IsOfNone (words_in seat.old.view) tail) (λ time. IsOfCommit (words_in seat.old.view) tail time) }
{
    seat.consider();
    let start = cell_word(store, seat, s, tail, 0);
    match status_of(store, seat, s, start) {
        Status::Committed { time } => Some(time),
        Status::Closed => None,
        Status::Unfinished { .. } => None,
        Status::Empty => None,
    }
}

/// The write of a tail record that is stored.
pub(crate) fn tail_write(store: &Store, seat: &mut Seat, s: u32, tail: u32) -> Write
    requires reader { IsReader store.now seat.old s }
    requires tail { (0 < tail) × (tail ≤ tail_count seat.old.view.limits) }
    requires stored { 0 < (words_in seat.old.view).cells tail 0 }
    ensures reads { Reads store.now seat.old seat.new s }
    ensures write { result ≡ write_at seat.old.view.limits (words_in seat.old.view) tail }
{
    seat.consider();
    let tails = seat.limits().tails;
    let encoding = unpack_encoding(cell_word(store, seat, s, tail, 1));
    let rec = 256 * ((tail - 1) / tails) + encoding.slot as u32;
    Write {
        key: key_word(store, seat, s, rec),
        act: act(store, seat, s, tail, encoding),
    }
}
