//! The load by which a seat takes stock of all words.
ghost use Rattle.lst_rule.specs.Stores.{IsSeatOf};
ghost use Rattle.lst_rule.specs.Surveys.{HostsAll, Surveyed, surveys};

use crate::seat::Seat;
use crate::store::Store;
use crate::view::View;
use atomic_table::Play;

/// A load that takes stock.
struct Surveys;

impl Play<(), View> for Surveys {
    ghost then = { surveys };
}

/// Takes stock of all words, for a seat that hosts every session and the merger: it knows each word afterwards, as the store had it at one
/// moment of this call. It makes one load, and what its sessions know stays.
pub fn survey(store: &Store, seat: &mut Seat)
    requires seat { IsSeatOf store.now seat.old }
    requires all { HostsAll seat.old.view }
    ensures seat { IsSeatOf store.now seat.new }
    ensures surveyed { Surveyed seat.old.view seat.new.view }
{
    let word = store.layout.clock() as usize;
    store.table.shared.load::<Surveys>(&mut seat.place, word);
}
