//! What stands at one position of the index.
ghost use Rattle.std.specs.Prelude.{◌≡◌, ◌≢◌, ℕ, ◌+◌, ◌<◌, [], true, Contains, IfSome, IfNone};
ghost use Rattle.lst_layout.specs.Words.{shown};
ghost use Rattle.lst_core_state.specs.declared.facts.Fact.TheVariants.{IndexAt};
ghost use Rattle.lst_core_state.specs.Cells.{record_count};
ghost use Rattle.lst_core_state.specs.Index.{size};
ghost use Rattle.lst_rule.specs.Rule.{knows, hosts};
ghost use Rattle.lst_rule.specs.Learned.{Kept};
ghost use Rattle.lst_rule.specs.Stores.{IsSeatOf};
ghost use Rattle.lst_index.specs.Searches.{IsPlaced, Works, Keeps};
ghost use Rattle.lst_index.specs.Placings.{HasRecord};
ghost use Rattle.lst_index.specs.Visits.{Holds, Shows, Ends};

use lst_bits::unpack_index;
use lst_model::Key;
use lst_rule::{RecordId, Seat, Store, load_index, load_key};

/// The record at a position of the index, if there is one.
pub fn look(store: &Store, seat: &mut Seat, s: u32, position: u32) -> Option<u32>
    requires seat { IsSeatOf store.now seat.old }
    requires host { hosts seat.old.view s ≡ true }
    requires position { position < size store.now.layout.limits }
    ensures seat { IsSeatOf store.now seat.new }
    ensures works { Works seat.old.view seat.new.view s [] }
    ensures kept { Kept seat.old.view seat.new.view }
    ensures placing { (knows seat.new.view s).placing ≡ (knows seat.old.view s).placing }
    ensures some { IfSome result (λ r. (r < record_count store.now.layout.limits) × Shows (knows seat.new.view s) position r) }
    ensures free { IfNone result (seat.old.view.whole ≡ true → (shown seat.old.view.limits seat.old.view.words).index position ≡ 0) }
    ensures none { IfNone result (Ends store.now.layout.limits seat.old.view seat.new.view s position) }
{
    let word = load_index(store, seat, s, position);
    unpack_index(word)
}

/// The record, which stands at a position of the index, if it has this key. A record in hand for the key is given up then.
pub(crate) fn compare(
    store: &Store,
    seat: &mut Seat,
    s: u32,
    key: Key,
    position: u32,
    number: u32,
) -> Option<RecordId>
    requires seat { IsSeatOf store.now seat.old }
    requires host { hosts seat.old.view s ≡ true }
    requires own { s < seat.old.view.limits.sessions }
    requires number { number < record_count store.now.layout.limits }
    requires shows { Shows (knows seat.old.view s) position number }
    ensures seat { IsSeatOf store.now seat.new }
    ensures works { Works seat.old.view seat.new.view s [] }
    ensures kept { Kept seat.old.view seat.new.view }
    ensures keeps { Keeps (knows seat.old.view s).placing (knows seat.new.view s).placing }
    ensures same { IfSome result (λ r. (r.number ≡ number) × IsPlaced (knows seat.new.view s) number key × (Holds (knows seat.old.view s).placing key → (knows seat.new.view s).placing.hand ≡ 0)) }
    ensures had { IfSome result (λ r. seat.old.view.whole ≡ true → HasRecord seat.old.view.limits seat.old.view.words key r.number) }
    ensures other { IfNone result (((k : ℕ) × Contains (knows seat.new.view s).facts (IndexAt position number k) × (k ≢ key)) × (Holds (knows seat.old.view s).placing key → (knows seat.new.view s).placing ≡ (knows seat.old.view s).placing)) }
{
    let _ = position;
    if load_key(store, seat, s, number) == key {
        return Some(RecordId { number });
    }
    None
}
