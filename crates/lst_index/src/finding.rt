//! The record of a key.
ghost use Rattle.std.specs.Prelude.{◌≡◌, ◌<◌, [], true, IfSome, IfNone};
ghost use Rattle.lst_core_state.specs.Cells.{record_count};
ghost use Rattle.lst_rule.specs.Rule.{knows, hosts};
ghost use Rattle.lst_rule.specs.Learned.{Kept};
ghost use Rattle.lst_rule.specs.Stores.{IsSeatOf};
ghost use Rattle.lst_index.specs.Searches.{Ended, EndedSince, IsPlaced, IsUnseen, Works, Keeps};

use crate::positions::position;
use crate::visits::{compare, look};
use lst_model::Key;
use lst_rule::{RecordId, Seat, Store};

/// No index has more positions.
const MOST: u32 = 1 << 21;

/// The record of a key. None comes exactly where the last index word that the session loaded was empty, and what it then knows allows a state in which
/// the key's run ends there, without it: then no commit that the session has seen wrote the key, and its open transaction sees nothing of it. That the word
/// was loaded in this call is read in the body.
///
/// A record that the session has in hand is given up where its key shows on the record that is found.
#[inline(always)]
pub fn find(store: &Store, seat: &mut Seat, s: u32, key: Key) -> Option<RecordId>
    requires seat { IsSeatOf store.now seat.old }
    requires host { hosts seat.old.view s ≡ true }
    requires own { s < seat.old.view.limits.sessions }
    ensures seat { IsSeatOf store.now seat.new }
    ensures works { Works seat.old.view seat.new.view s [] }
    ensures kept { Kept seat.old.view seat.new.view }
    ensures keeps { Keeps (knows seat.old.view s).placing (knows seat.new.view s).placing }
    ensures some { IfSome result (λ r. (r.number < record_count store.now.layout.limits) × IsPlaced (knows seat.new.view s) r.number key) }
    ensures none { IfNone result (Ended seat.new.view s key) }
    ensures since { IfNone result (EndedSince seat.old.view seat.new.view s key) }
    ensures unseen { IfNone result (IsUnseen (knows seat.new.view s) key) }
{
    let mut offset = 0;
    while offset < MOST {
        let at = position(store.layout(), key, offset);
        let Some(number) = look(store, seat, s, at) else {
            return None;
        };
        if let Some(found) = compare(store, seat, s, key, at, number) {
            return Some(found);
        }
        seat.consider();
        offset += 1;
    }
    unreachable!()
}
