//! A session's pin.
ghost use Rattle.std.specs.Prelude.{◌≡◌, ◌<◌, true};
ghost use Rattle.lst_rule.specs.Rule.{knows, hosts};
ghost use Rattle.lst_rule.specs.Stores.{IsSeatOf};
ghost use Rattle.lst_retire.specs.Pins.{Pins, Unpins};

use lst_rule::{Seat, Store, load_epoch, step_pin, step_unpin};

/// Pins the session, which has no pin, at the epoch that is loaded in this call. Pages may be taken in hand afterwards.
pub fn pin(store: &Store, seat: &mut Seat, s: u32)
    requires seat { IsSeatOf store.now seat.old }
    requires host { hosts seat.old.view s ≡ true }
    requires own { s < seat.old.view.limits.sessions }
    requires free { (knows seat.old.view s).pages.session.pin ≡ 0 }
    ensures seat { IsSeatOf store.now seat.new }
    ensures pins { Pins seat.old.view seat.new.view s }
{
    let epoch = load_epoch(store, seat, s);
    step_pin(store, seat, s, epoch);
}

/// Takes the session's pin away, and with it the pages in hand.
pub fn unpin(store: &Store, seat: &mut Seat, s: u32)
    requires seat { IsSeatOf store.now seat.old }
    requires host { hosts seat.old.view s ≡ true }
    requires own { s < seat.old.view.limits.sessions }
    requires pinned { 0 < (knows seat.old.view s).pages.session.pin }
    ensures seat { IsSeatOf store.now seat.new }
    ensures unpins { Unpins seat.old.view seat.new.view s }
{
    step_unpin(store, seat, s);
}
