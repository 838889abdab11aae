//! A load of any word.
ghost use Rattle.std.specs.Prelude.{◌≡◌, ◌<◌, true};
ghost use Rattle.lst_layout.specs.Addresses.{place_of};
ghost use Rattle.lst_layout.specs.Areas.{words_of};
ghost use Rattle.lst_rule.specs.Rule.{hosts};
ghost use Rattle.lst_rule.specs.Operations.{IsQuiet};
ghost use Rattle.lst_rule.specs.Stores.{IsSeatOf, Looked};

use crate::loads::{load_noted, load_quietly};
use crate::seat::Seat;
use crate::store::Store;
use lst_layout::Layout;

/// Whether a load of the word surely changes no number of a session: it is neither the clock nor a counter, and no word of the keys or
/// the index.
fn is_quiet(layout: &Layout, address: u64) -> bool
    requires { address < words_of layout.now.limits }
    ensures { result ≡ true → IsQuiet (place_of layout.now.limits address) }
{
    if address < layout.keys(0) {
        if address == layout.clock() {
            return false;
        }
        return address != layout.record_counter();
    }
    if address < layout.indirection(0) {
        return false;
    }
    let counters = layout.tail_counters(0);
    if address < counters {
        return true;
    }
    address - counters >= layout.limits.ranges as u64
}

/// Loads the word at an address. A load of any word but the clock, a counter, a key word and an index word changes no number of the
/// seat, and is the atomic load and nothing else.
pub fn load(store: &Store, seat: &mut Seat, s: u32, address: u64) -> u64
    requires seat { IsSeatOf store.now seat.old }
    requires host { hosts seat.old.view s ≡ true }
    requires address { address < words_of seat.old.view.limits }
    ensures seat { IsSeatOf store.now seat.new }
    ensures looked { Looked seat.old.view seat.new.view s (place_of seat.old.view.limits address) result }
{
    if is_quiet(&store.layout, address) {
        load_quietly(store, seat, s, store.layout.place(address), address)
    } else {
        load_noted(store, seat, s, store.layout.place(address), address)
    }
}
