//! The posting of a tail in hand.
ghost use Rattle.std.specs.Prelude.{◌≡◌, ◌+◌, ◌<◌, true, IfSome, IfNone};
ghost use Rattle.lst_layout.specs.Areas.{IsIndexed};
ghost use Rattle.lst_rule.specs.Rule.{knows, hosts};
ghost use Rattle.lst_rule.specs.Stores.{IsSeatOf};
ghost use Rattle.lst_rule.specs.Shown.{IsShown};
ghost use Rattle.lst_rule.specs.Posting.{HasTail, ColumnIsPosted, AllPosted, Posts};
ghost use Rattle.lst_second.specs.Visits.{IsEntry, Visits, Columns};

use crate::visits::{Entry, visit};
use lst_bits::holds_number;
use lst_rule::{Seat, Store, load_cell};

/// What is to be posted in an indexed column, if the tail in hand holds it with a number.
fn entry(store: &Store, seat: &mut Seat, s: u32, column: u32) -> Option<Entry>
    requires seat { IsSeatOf store.now seat.old }
    requires host { hosts seat.old.view s ≡ true }
    requires own { s < seat.old.view.limits.sessions }
    requires tail { HasTail (knows seat.old.view s) }
    requires column { column < seat.old.view.limits.columns }
    requires indexed { IsIndexed seat.old.view.limits column }
    ensures posts { Posts seat.old.view seat.new.view s }
    ensures seat { IsSeatOf store.now seat.new }
    ensures some { IfSome result (λ e. (e.column ≡ column) × Visits store.now seat.new s e 0) }
    ensures none { IfNone result (ColumnIsPosted seat.new.view.limits (knows seat.new.view s) column) }
{
    seat.consider();
    let Some(tail) = seat.tail(s) else {
        unreachable!()
    };
    let Some(rec) = seat.latch(s) else {
        unreachable!()
    };
    let encoding = load_cell(store, seat, s, tail, 1);
    if !holds_number(encoding, column) {
        return None;
    }
    let value = load_cell(store, seat, s, tail, 3 + column);
    Some(Entry { column, rec, value })
}

/// Goes along the number's run until the entry is posted.
fn post_entry(store: &Store, seat: &mut Seat, s: u32, entry: Entry)
    requires visits { Visits store.now seat.old s entry 0 }
    ensures posts { Posts seat.old.view seat.new.view s }
    ensures seat { IsSeatOf store.now seat.new }
    ensures posted { ColumnIsPosted seat.new.view.limits (knows seat.new.view s) entry.column }
{
    let all = store.layout().posting_positions() as u32;
    let mut offset = 0;
    while offset < all {
        if visit(store, seat, s, entry, offset) {
            return;
        }
        offset += 1;
    }
    seat.consider();
    unreachable!()
}

/// Makes sure that the tail in hand, which is whole, is posted in an indexed column: where it holds the column with a number, a tail of its
/// record with that number stands in the number's run afterwards, with no empty position before it. Where there is none, the tail in hand
/// is put into the run's first empty position. A null isn't posted.
///
/// To a view that knows every word, only postings change.
pub fn post(store: &Store, seat: &mut Seat, s: u32, column: u32)
    requires seat { IsSeatOf store.now seat.old }
    requires host { hosts seat.old.view s ≡ true }
    requires own { s < seat.old.view.limits.sessions }
    requires tail { HasTail (knows seat.old.view s) }
    requires column { column < seat.old.view.limits.columns }
    requires indexed { IsIndexed seat.old.view.limits column }
    ensures seat { IsSeatOf store.now seat.new }
    ensures posts { Posts seat.old.view seat.new.view s }
    ensures posted { ColumnIsPosted seat.new.view.limits (knows seat.new.view s) column }
{
    if let Some(entry) = entry(store, seat, s, column) {
        post_entry(store, seat, s, entry);
    }
}

/// Posts the tail in hand in a column, if the column is indexed.
fn post_if_indexed(store: &Store, seat: &mut Seat, s: u32, column: u32)
    requires columns { Columns store.now seat.old s column }
    requires column { column < store.now.layout.limits.columns }
    ensures posts { Posts seat.old.view seat.new.view s }
    ensures columns { Columns store.now seat.new s (column + 1) }
{
    if store.layout().limits.is_indexed(column) {
        post(store, seat, s, column);
    }
}

/// Makes sure that the tail in hand, which is whole, is posted in each indexed column that it holds with a number, as `post` does. A store
/// with no indexed column takes no step.
pub fn post_all(store: &Store, seat: &mut Seat, s: u32)
    requires seat { IsSeatOf store.now seat.old }
    requires host { hosts seat.old.view s ≡ true }
    requires own { s < seat.old.view.limits.sessions }
    requires tail { HasTail (knows seat.old.view s) }
    ensures seat { IsSeatOf store.now seat.new }
    ensures posts { Posts seat.old.view seat.new.view s }
    ensures posted { AllPosted seat.new.view.limits (knows seat.new.view s) }
{
    if store.layout().limits.indexed == 0 {
        return;
    }
    let mut column = 0;
    while column < store.layout().limits.columns {
        post_if_indexed(store, seat, s, column);
        column += 1;
    }
}
