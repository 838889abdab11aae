//! A version by the number of its tail record.
ghost use Rattle.std.specs.Prelude.{◌≡◌, ◌+◌, ◌*◌, ◌<◌, ◌≤◌, ◌↔◌, IsTrue, true};
ghost use Rattle.lst_rule.specs.Rule.{knows, hosts};
ghost use Rattle.lst_rule.specs.Stores.{IsSeatOf};
ghost use Rattle.lst_rule.specs.Copies.{IsLinked};
ghost use Rattle.lst_rule.specs.Loads.{IsBack};
ghost use Rattle.lst_rule.specs.TailLoads.{LoadsTail};
ghost use Rattle.lst_rule.specs.Watching.{Watched};

use crate::loads::load_cell;
use crate::seat::Seat;
use crate::store::Store;

/// The identifier of a range's tail record, which has this number in the range.
pub fn tail_of(store: &Store, range: u32, number: u32) -> u32
    requires range { range < store.now.layout.limits.ranges }
    requires number { number ≤ store.now.layout.limits.tails }
    ensures { result ≡ range * store.now.layout.limits.tails + number }
{
    range * store.layout().limits.tails + number
}

/// Whether a transaction, the one with this number of this session, is the last one that the session `s` began.
pub fn is_own(seat: &Seat, s: u32, session: u32, number: u32) -> bool
    requires { hosts seat.now.view s ≡ true }
    ensures { IsTrue result ↔ (session ≡ s) × (number ≡ (knows seat.now.view s).number) }
{
    session == s && number == seat.number(s)
}

/// The number in its range of the version below one, or 0. The version is named by the identifier of its tail record.
pub fn version_below(store: &Store, seat: &mut Seat, s: u32, tail: u32) -> u32
    requires seat { IsSeatOf store.now seat.old }
    requires host { hosts seat.old.view s ≡ true }
    requires version { IsLinked seat.old.view.limits (knows seat.old.view s).facts tail }
    ensures seat { IsSeatOf store.now seat.new }
    ensures watched { Watched seat.old.view seat.new.view s }
    ensures loads { LoadsTail seat.old.view seat.new.view s tail }
    ensures back { IsBack seat.old.view.limits (knows seat.old.view s).facts tail result }
{
    load_cell(store, seat, s, tail, 2) as u32
}
