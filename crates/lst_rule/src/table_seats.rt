//! A seat at the table is split, and two seats are joined: one move each.
ghost use Rattle.std.specs.Prelude.{◌≡◌, ◌<◌, [], true};
ghost use Rattle.lst_rule.specs.Rule.{hosts};
ghost use Rattle.lst_rule.specs.Joins.{without, alone, noted, united, Heard};
ghost use Rattle.lst_rule.specs.Learned.{Possible};

use crate::moves::{SharedWords, TableSeat};
use crate::parts::{Binds, Chooses, Confirms, Hears, Notes, Parts, Unites};
use lst_layout::Limits;
use std::marker::Brand;

fn split_seat_as<E: Chooses>(words: &SharedWords, seat: &mut TableSeat, _s: u32) -> TableSeat
    requires table { (seat.old.table_id ≡ words.now.table_id) × (0 < words.now.table_id.words) }
    requires host { hosts seat.old.me.0 E.session ≡ true }
    ensures old { (seat.new.table_id ≡ seat.old.table_id) × (seat.new.id ≡ seat.old.id) × (seat.new.me ≡ (without E.session seat.old.me.0, seat.old.me.1)) }
    ensures new { (result.table_id ≡ seat.old.table_id) × (result.me ≡ (alone E.session seat.old.me.0, [])) }
{
    words.split_seat::<Parts<E>>(seat)
}

/// Splits off a seat that hosts this session alone, or the merger alone.
pub fn split_seat(words: &SharedWords, seat: &mut TableSeat, s: u32) -> TableSeat
    requires table { (seat.old.table_id ≡ words.now.table_id) × (0 < words.now.table_id.words) }
    requires host { hosts seat.old.me.0 s ≡ true }
    ensures old { (seat.new.table_id ≡ seat.old.table_id) × (seat.new.id ≡ seat.old.id) × (seat.new.me ≡ (without s seat.old.me.0, seat.old.me.1)) }
    ensures new { (result.table_id ≡ seat.old.table_id) × (result.me ≡ (alone s seat.old.me.0, [])) }
{
    split_seat_as::<Brand>(words, seat, s)
}

fn note_seat_as<E: Chooses>(words: &SharedWords, seat: &mut TableSeat, _s: u32) -> TableSeat
    requires table { (seat.old.table_id ≡ words.now.table_id) × (0 < words.now.table_id.words) }
    requires host { hosts seat.old.me.0 E.session ≡ true }
    ensures old { (seat.new.table_id ≡ seat.old.table_id) × (seat.new.id ≡ seat.old.id) × (seat.new.me ≡ seat.old.me) }
    ensures new { (result.table_id ≡ seat.old.table_id) × (result.me ≡ (noted E.session seat.old.me.0, [])) }
{
    words.split_seat::<Notes<E>>(seat)
}

/// Splits off a seat that hosts nobody, with a copy of what this session has seen. The seat that is split stays as it is.
pub fn note_seat(words: &SharedWords, seat: &mut TableSeat, s: u32) -> TableSeat
    requires table { (seat.old.table_id ≡ words.now.table_id) × (0 < words.now.table_id.words) }
    requires host { hosts seat.old.me.0 s ≡ true }
    ensures old { (seat.new.table_id ≡ seat.old.table_id) × (seat.new.id ≡ seat.old.id) × (seat.new.me ≡ seat.old.me) }
    ensures new { (result.table_id ≡ seat.old.table_id) × (result.me ≡ (noted s seat.old.me.0, [])) }
{
    note_seat_as::<Brand>(words, seat, s)
}

fn unite_seats_as<E: Binds>(
    words: &SharedWords,
    seat: &mut TableSeat,
    _limits: &Limits,
    other: TableSeat,
)
    requires table { (seat.old.table_id ≡ words.now.table_id) × (other.table_id ≡ words.now.table_id) × (0 < words.now.table_id.words) × (other.me.1 ≡ []) }
    requires limits { words.now.key ≡ E.limits }
    ensures { (seat.new.table_id ≡ seat.old.table_id) × (seat.new.id ≡ seat.old.id) × (seat.new.me ≡ (united seat.old.me.0 other.me.0, seat.old.me.1)) }
{
    words.join_seat::<Unites<E>>(seat, other);
}

/// Joins a seat to another, which hosts what both did then, and has the note of the one that was joined.
pub fn unite_seats(words: &SharedWords, seat: &mut TableSeat, limits: &Limits, other: TableSeat)
    requires table { (seat.old.table_id ≡ words.now.table_id) × (other.table_id ≡ words.now.table_id) × (0 < words.now.table_id.words) × (other.me.1 ≡ []) }
    requires limits { words.now.key ≡ limits.now }
    ensures { (seat.new.table_id ≡ seat.old.table_id) × (seat.new.id ≡ seat.old.id) × (seat.new.me ≡ (united seat.old.me.0 other.me.0, seat.old.me.1)) }
{
    unite_seats_as::<Brand>(words, seat, limits, other);
}

/// Loads word 0 and leaves the view as it is: so the view is possible, in the state that was met.
pub fn confirm(words: &SharedWords, seat: &mut TableSeat)
    requires table { (seat.old.table_id ≡ words.now.table_id) × (0 < words.now.table_id.words) }
    ensures table { (seat.new.table_id ≡ seat.old.table_id) × (seat.new.id ≡ seat.old.id) × (seat.new.me ≡ seat.old.me) }
    ensures possible { Possible seat.new.me.0 }
{
    words.load::<Confirms>(seat, 0);
}

/// Loads word 0, and all that the seat hosts have heard the seat's note then.
pub fn hear_told(words: &SharedWords, seat: &mut TableSeat)
    requires table { (seat.old.table_id ≡ words.now.table_id) × (0 < words.now.table_id.words) }
    ensures table { (seat.new.table_id ≡ seat.old.table_id) × (seat.new.id ≡ seat.old.id) × (seat.new.me.1 ≡ seat.old.me.1) }
    ensures heard { Heard seat.old.me.0 seat.new.me.0 }
{
    words.load::<Hears>(seat, 0);
}
