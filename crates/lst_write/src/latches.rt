//! The latch of a record.
ghost use Rattle.std.specs.Prelude.{◌≡◌, ◌≢◌, ℕ, ◌+◌, ◌*◌, ◌<◌, true, IfOk, OnErr, IsOk};
ghost use Rattle.lst_layout.specs.declared.place.Place.TheVariants.{HeadWord};
ghost use Rattle.lst_core_state.specs.declared.events.Event.TheVariants.{Latch, Release};
ghost use Rattle.lst_core_state.specs.State.{no_hold};
ghost use Rattle.lst_rule.specs.Rule.{knows, hosts};
ghost use Rattle.lst_rule.specs.Learned.{Learns, Kept, Made};
ghost use Rattle.lst_rule.specs.Stores.{IsSeatOf};
ghost use Rattle.lst_write.specs.Holding.{MayLatch, IsPlaced, HasLatch, Latches, FindsLatched};

use lst_bits::unpack_head;
use lst_rule::{RecordId, Seat, Store, step_latch, step_release};

/// Another session has the record's latch.
#[derive(Clone, Copy, PartialEq, Eq, Debug)]
pub struct Latched;

/// Tries once to latch a record that is in the index, and answers the number in its range of its newest version, or 0. The facts
/// then have a copy of the record's whole chain.
///
/// Latched comes only where the record was found latched in this call: never to a seat that hosts every session while none of them has
/// this latch in hand. Nothing else has changed then, and no word.
pub fn latch(store: &Store, seat: &mut Seat, s: u32, rec: RecordId) -> Result<u32, Latched>
    requires seat { IsSeatOf store.now seat.old }
    requires host { hosts seat.old.view s ≡ true }
    requires own { s < seat.old.view.limits.sessions }
    requires free { MayLatch (knows seat.old.view s) }
    requires placed { IsPlaced (knows seat.old.view s) rec.number }
    ensures seat { IsSeatOf store.now seat.new }
    ensures ok { IfOk result (λ head. Latches seat.old.view seat.new.view s rec.number head) }
    ensures word { IfOk result (λ head. Made seat.old.view seat.new.view (Latch s rec.number) (HeadWord rec.number) (2 * head + 1)) }
    ensures err { OnErr result (FindsLatched seat.old.view seat.new.view s rec.number) }
    ensures kept { OnErr result (Kept seat.old.view seat.new.view) }
    ensures crew { ((t : ℕ) → t < seat.old.view.limits.sessions → (hosts seat.old.view t ≡ true) × ((knows seat.old.view t).hold.latch ≢ rec.number + 1)) → IsOk result }
{
    seat.consider();
    let (head, latched) = unpack_head(step_latch(store, seat, s, rec.number));
    if latched { Err(Latched) } else { Ok(head) }
}

/// Gives the latch of a record back, with no tail in hand: the record's newest version is the one that it was.
pub fn release(store: &Store, seat: &mut Seat, s: u32, rec: RecordId, head: u32)
    requires seat { IsSeatOf store.now seat.old }
    requires host { hosts seat.old.view s ≡ true }
    requires own { s < seat.old.view.limits.sessions }
    requires latch { HasLatch (knows seat.old.view s) rec.number head }
    ensures seat { IsSeatOf store.now seat.new }
    ensures view { Learns seat.old.view seat.new.view s (record (knows seat.old.view s) { hold = no_hold }) }
    ensures free { MayLatch (knows seat.new.view s) }
    ensures word { Made seat.old.view seat.new.view (Release s) (HeadWord rec.number) (2 * head) }
{
    let _ = (rec, head);
    step_release(store, seat, s);
}
