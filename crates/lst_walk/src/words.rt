//! A record's indirection word.
ghost use Rattle.std.specs.Prelude.{◌≡◌, ℕ, ◌/◌, ◌<◌};
ghost use Rattle.lst_layout.specs.declared.place.Place.TheVariants.{HeadWord};
ghost use Rattle.lst_core_state.specs.Cells.{record_count};
ghost use Rattle.lst_rule.specs.Rule.{knows};
ghost use Rattle.lst_rule.specs.Learned.{Possible};
ghost use Rattle.lst_rule.specs.Stores.{Looked};
ghost use Rattle.lst_rule.specs.Loads.{ChainFound};
ghost use Rattle.lst_rule.specs.Watching.{Watched};
ghost use Rattle.lst_walk.specs.Readers.{IsReader};

use lst_bits::unpack_head;
use lst_rule::{RecordId, Seat, Store, load_head};

/// The number in its range of a record's newest version, or 0.
#[inline(always)]
pub(crate) fn head(store: &Store, seat: &mut Seat, s: u32, rec: RecordId) -> u32
    requires reader { IsReader store.now seat.old s }
    requires rec { rec.number < record_count store.now.layout.limits }
    ensures reader { IsReader store.now seat.new s }
    ensures watched { Watched seat.old.view seat.new.view s }
    ensures possible { Possible seat.new.view }
    ensures chain { ChainFound store.now.layout.limits (knows seat.new.view s) s rec.number result }
    ensures looked { (word : ℕ) × Looked seat.old.view seat.new.view s (HeadWord rec.number) word × (result ≡ word / 2) }
{
    unpack_head(load_head(store, seat, s, rec.number)).0
}
