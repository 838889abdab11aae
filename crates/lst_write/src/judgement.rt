//! Whether a transaction may write on a record.
ghost use Rattle.std.specs.Prelude.{◌≡◌, ◌+◌, ◌*◌, ◌<◌, ◌≤◌, ◌/◌, true, IfOk, IfErr, IfSome};
ghost use Rattle.lst_core_state.specs.Cells.{record_count};
ghost use Rattle.lst_rule.specs.Rule.{knows, hosts};
ghost use Rattle.lst_rule.specs.Stores.{IsSeatOf};
ghost use Rattle.lst_rule.specs.Laws.{KeptBy};
ghost use Rattle.lst_rule.specs.Watching.{Watched};
ghost use Rattle.lst_write.specs.Holding.{HasLatch};
ghost use Rattle.lst_write.specs.Judgements.{HasChain, HasJudged, StopsAt, FaultIs};
ghost use Rattle.lst_write.specs.Standings.{IsSettled};

use crate::standing::{Standing, standing_of};
use lst_model::Time;
use lst_rule::{RecordId, Seat, Store, tail_of, version_below};

/// Why a transaction may not write on a record.
#[derive(Clone, Copy, PartialEq, Eq, Debug)]
pub enum JudgeFault {
    /// A write on the record was committed at this time, after the transaction's begin.
    Newer { time: Time },
    /// The transaction with this number of this other session has written on the record, and isn't finished.
    Unfinished { session: u32, number: u32 },
}

/// Looks whether the session may write on a record whose latch it has: it walks from the newest version past closed ones to the first other
/// one, which has to be of its own transaction, or committed by its begin. It answers the identifier of that version's tail record, or None where
/// each version is closed. Where that version is committed and has no time yet in its start word, its commit time is stored there.
///
/// Newer names the commit time of that version, which is above the begin; the session has then seen that commit. Unfinished names that
/// version's transaction, and comes only where it was found unfinished in this call. Nothing else changes than what the session has found
/// and seen, and start words that got their times.
pub fn judged_version(
    store: &Store,
    seat: &mut Seat,
    s: u32,
    rec: RecordId,
    head: u32,
) -> Result<Option<u32>, JudgeFault>
    requires seat { IsSeatOf store.now seat.old }
    requires host { hosts seat.old.view s ≡ true }
    requires own { s < seat.old.view.limits.sessions }
    requires latch { HasLatch (knows seat.old.view s) rec.number head }
    requires chain { HasChain seat.old.view.limits (knows seat.old.view s) rec.number head }
    ensures seat { IsSeatOf store.now seat.new }
    ensures watched { Watched seat.old.view seat.new.view s }
    ensures keeps { KeptBy (knows seat.old.view s) (knows seat.new.view s) }
    ensures turn { (knows seat.new.view s).turn ≡ (knows seat.old.view s).turn }
    ensures ok { IfOk result (λ newest. StopsAt seat.new.view.limits (knows seat.new.view s) s rec.number head newest) }
    ensures settled { IfOk result (λ newest. IfSome newest (λ tail. IsSettled seat.new.view s tail)) }
    ensures err { IfErr result (λ fault. FaultIs seat.old.view seat.new.view s rec.number head fault) }
{
    seat.consider();
    let range = rec.number / 256;
    let mut number = head;
    while number > 0 {
        let tail = tail_of(store, range, number);
        match standing_of(store, seat, s, range, number, tail) {
            Standing::Seen => return Ok(Some(tail)),
            Standing::Closed => number = version_below(store, seat, s, tail),
            Standing::Newer { time } => {
                seat.consider();
                return Err(JudgeFault::Newer { time });
            }
            Standing::Unfinished { session, number } => {
                return Err(JudgeFault::Unfinished { session, number });
            }
        }
    }
    Ok(None)
}

/// The same for a caller that doesn't ask at which version it stopped.
pub fn judge(
    store: &Store,
    seat: &mut Seat,
    s: u32,
    rec: RecordId,
    head: u32,
) -> Result<(), JudgeFault>
    requires seat { IsSeatOf store.now seat.old }
    requires host { hosts seat.old.view s ≡ true }
    requires own { s < seat.old.view.limits.sessions }
    requires latch { HasLatch (knows seat.old.view s) rec.number head }
    requires chain { HasChain seat.old.view.limits (knows seat.old.view s) rec.number head }
    ensures seat { IsSeatOf store.now seat.new }
    ensures watched { Watched seat.old.view seat.new.view s }
    ensures keeps { KeptBy (knows seat.old.view s) (knows seat.new.view s) }
    ensures turn { (knows seat.new.view s).turn ≡ (knows seat.old.view s).turn }
    ensures ok { IfOk result (λ _. HasJudged seat.new.view.limits (knows seat.new.view s) s rec.number head) }
    ensures err { IfErr result (λ fault. FaultIs seat.old.view seat.new.view s rec.number head fault) }
{
    match judged_version(store, seat, s, rec, head) {
        Ok(_) => Ok(()),
        Err(fault) => Err(fault),
    }
}
