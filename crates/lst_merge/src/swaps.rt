//! A page takes the place of another one.
ghost use Rattle.std.specs.Prelude.{◌≡◌, true};
ghost use Rattle.lst_pages.specs.Sound.{IsPage};
ghost use Rattle.lst_rule.specs.Rule.{hosts};
ghost use Rattle.lst_rule.specs.Spares.{AreSpares};
ghost use Rattle.lst_rule.specs.Stores.{IsSeatOf};
ghost use Rattle.lst_merge.specs.Builds.{MayReplace};
ghost use Rattle.lst_merge.specs.Swaps.{latest_epoch, Swaps};

use crate::frames::page_frame;
use lst_core_state::Retired;
use lst_rule::{Seat, Spares, Store, step_raise, step_swap};

/// Puts the page that was built in this frame, the first of the spares, in the place of the page of a range and a column, and raises the
/// epoch by one. The frame is no spare then, and the one that it replaces is the last of them, retired at the new epoch.
///
/// Of the words of the store only the page's directory word and the epoch change.
pub fn swap(
    store: &Store,
    seat: &mut Seat,
    spares: &mut Spares,
    frame: u32,
    range: u32,
    column: u32,
)
    requires seat { IsSeatOf store.now seat.old }
    requires host { hosts seat.old.view seat.old.view.limits.sessions ≡ true }
    requires spares { AreSpares seat.old.view spares.old.items }
    requires page { IsPage seat.old.view.limits range column }
    requires ready { MayReplace seat.old.view range column frame }
    ensures seat { IsSeatOf store.now seat.new }
    ensures swaps { Swaps seat.old.view seat.new.view range column frame }
    ensures spares { AreSpares seat.new.view spares.new.items }
{
    let _ = frame;
    seat.consider();
    let epoch = last_epoch(spares) + 1;
    let old = page_frame(store, seat, range, column);
    step_swap(store, seat, range, column);
    step_raise(store, seat);
    spares.remove(0);
    spares.push(Retired { frame: old, epoch });
}

/// The epoch at which the last of the spares was retired.
fn last_epoch(spares: &Spares) -> u64
    ensures { result ≡ latest_epoch spares.now.items }
{
    match spares.last().copied() {
        Some(last) => last.epoch,
        None => 0,
    }
}
