//! The row of a key.
ghost use Rattle.std.specs.Prelude.{◌≡◌, ◌<◌, [], true};
ghost use Rattle.lst_rule.specs.Rule.{knows, hosts};
ghost use Rattle.lst_rule.specs.Stores.{IsSeatOf};
ghost use Rattle.lst_session.specs.Traces.{Reads};
ghost use Rattle.lst_walk.specs.Whole.{row_where};

use arrayvec::ArrayVec;
use lst_index::find;
use lst_model::{Key, Row};
use lst_rule::{Seat, Store};
use lst_walk::put_row;

/// The row of a key that the session's open transaction sees.
#[inline(always)]
pub(crate) fn read(store: &Store, seat: &mut Seat, s: u32, key: Key) -> Option<Row>
    requires seat { IsSeatOf store.now seat.old }
    requires host { hosts seat.old.view s ≡ true }
    requires own { s < seat.old.view.limits.sessions }
    requires opened { (knows seat.old.view s).is_open ≡ true }
    ensures seat { IsSeatOf store.now seat.new }
    ensures reads { Reads seat.old.view seat.new.view s key result }
{
    let mut row = Row::of_numbers(ArrayVec::new());
    if put_read(store, seat, s, key, &mut row) {
        Some(row)
    } else {
        None
    }
}

/// What `read` answers, put into a row that has no cells. Whether there is a row is answered.
#[inline(always)]
fn put_read(store: &Store, seat: &mut Seat, s: u32, key: Key, row: &mut Row) -> bool
    requires seat { IsSeatOf store.now seat.old }
    requires host { hosts seat.old.view s ≡ true }
    requires own { s < seat.old.view.limits.sessions }
    requires opened { (knows seat.old.view s).is_open ≡ true }
    requires empty { row.old ≡ [] }
    ensures seat { IsSeatOf store.now seat.new }
    ensures reads { Reads seat.old.view seat.new.view s key (row_where result row.new) }
{
    match find(store, seat, s, key) {
        Some(rec) => put_row(store, seat, s, rec, row),
        None => false,
    }
}
