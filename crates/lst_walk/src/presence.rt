//! Whether a record has a row.
ghost use Rattle.std.specs.Prelude.{◌≡◌, ℕ, ◌<◌, true};
ghost use Rattle.lst_rule.specs.Rule.{knows, hosts};
ghost use Rattle.lst_rule.specs.Stores.{IsSeatOf};
ghost use Rattle.lst_rule.specs.Copies.{Version};
ghost use Rattle.lst_rule.specs.Seen.{act_by};
ghost use Rattle.lst_rule.specs.Watching.{Watched};
ghost use Rattle.lst_rule.specs.TailLoads.{LoadsTail};
ghost use Rattle.lst_walk.specs.Readers.{IsReader, IsAt, HasVersion};
ghost use Rattle.lst_walk.specs.Newest as newest;
ghost use Rattle.lst_walk.specs.Newest.{IsNewest, HasRow, LoadsNewest};

use crate::placed::encoding_from;
use lst_bits::Kind;
use lst_rule::{RecordId, Seat, Store};

/// Whether the open transaction sees a row of a record: of the snapshot at its begin, with its own writes on it. The caller knows the newest version that
/// it sees, by the identifier of its tail record, or that it sees none. That version alone is asked, whatever stands below: words of its tail
/// record alone are loaded, and without a version none.
pub fn has_row(store: &Store, seat: &mut Seat, s: u32, rec: RecordId, newest: Option<u32>) -> bool
    requires seat { IsSeatOf store.now seat.old }
    requires host { hosts seat.old.view s ≡ true }
    requires own { s < seat.old.view.limits.sessions }
    requires opened { (knows seat.old.view s).is_open ≡ true }
    requires newest { IsNewest seat.old.view s rec.number newest }
    ensures seat { IsSeatOf store.now seat.new }
    ensures watched { Watched seat.old.view seat.new.view s }
    ensures row { HasRow seat.old.view s rec.number result }
    ensures loads { LoadsNewest seat.old.view seat.new.view s newest }
{
    seat.consider();
    let _ = rec;
    match newest {
        Some(tail) => leaves_row(store, seat, s, tail),
        None => false,
    }
}

/// Whether a version that is seen leaves a row: where it puts one or sets columns of one, and not where it deletes it.
fn leaves_row(store: &Store, seat: &mut Seat, s: u32, tail: u32) -> bool
    requires reader { IsReader store.now seat.old s }
    requires version { HasVersion seat.old.view s tail }
    ensures reader { IsReader store.now seat.new s }
    ensures watched { Watched seat.old.view seat.new.view s }
    ensures loads { LoadsTail seat.old.view seat.new.view s tail }
    ensures leaves { (c : Version) → IsAt seat.old.view s tail c → result ≡ newest.leaves_row (act_by c) }
{
    let first = store.layout().cell_address(tail, 0);
    match encoding_from(store, seat, s, tail, first).kind {
        Kind::Put | Kind::Set => true,
        Kind::Del => false,
    }
}
