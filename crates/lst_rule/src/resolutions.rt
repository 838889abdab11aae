//! How a version stands to a session.
ghost use Rattle.std.specs.Prelude.{◌≡◌, true};
ghost use Rattle.lst_layout.specs.Addresses as layout;
ghost use Rattle.lst_layout.specs.declared.place.Place.TheVariants.{CellWord, StateWord};
ghost use Rattle.lst_rule.specs.Rule.{hosts};
ghost use Rattle.lst_rule.specs.Stores.{IsSeatOf};
ghost use Rattle.lst_rule.specs.Statuses.{Asked};
ghost use Rattle.lst_rule.specs.Resolutions.{AnswersAs, Resolved};

use crate::loads::load_cell_from;
use crate::seat::Seat;
use crate::status::{Status, transaction_status};
use crate::store::Store;
use crate::versions::is_own;
use lst_bits::{Start, unpack_start};

/// How a version stands to a session.
#[derive(Clone, Copy, PartialEq, Eq, Debug)]
pub enum Resolution {
    /// It isn't stored.
    Empty,
    /// Its start word has the time of its commit.
    Stamped { time: u64 },
    /// Its transaction is the last one that the session began.
    Own,
    /// Its transaction is closed.
    Closed,
    /// Its transaction is committed at this time, which the session has seen. The start word has no time yet.
    Committed { time: u64 },
    /// Its transaction, the one with this number of this session, is neither closed nor committed by the clock.
    Unfinished { session: u32, number: u32 },
}

/// How a version stands to the session `s` (the number of the sessions for the merger), which is named by the identifier of its tail record: by its
/// start word, and where this names a transaction that isn't the session's last one, by the status of that (`transaction_status`).
#[inline(always)]
pub fn resolve(store: &Store, seat: &mut Seat, s: u32, tail: u32) -> Resolution
    requires seat { IsSeatOf store.now seat.old }
    requires host { hosts seat.old.view s ≡ true }
    requires place { layout.IsWithin seat.old.view.limits (CellWord tail 0) }
    ensures seat { IsSeatOf store.now seat.new }
    ensures resolved { Resolved seat.old.view seat.new.view s tail result }
{
    let first = store.layout().cell_address(tail, 0);
    resolve_from(store, seat, s, tail, first)
}

/// The same of a version whose tail record's first word has this address.
#[inline(always)]
pub fn resolve_from(store: &Store, seat: &mut Seat, s: u32, tail: u32, first: u64) -> Resolution
    requires seat { IsSeatOf store.now seat.old }
    requires host { hosts seat.old.view s ≡ true }
    requires place { layout.IsWithin seat.old.view.limits (CellWord tail 0) }
    requires first { first ≡ layout.address store.now.layout.limits (CellWord tail 0) }
    ensures seat { IsSeatOf store.now seat.new }
    ensures resolved { Resolved seat.old.view seat.new.view s tail result }
{
    let start = load_cell_from(store, seat, s, tail, first, 0);
    match unpack_start(start) {
        Start::Empty => Resolution::Empty,
        Start::At { time } => Resolution::Stamped { time },
        Start::By { session, number } => {
            if is_own(seat, s, session, number) {
                return Resolution::Own;
            }
            resolve_other(store, seat, s, session, number)
        }
    }
}

/// How the versions of a transaction stand that isn't the session's last one.
#[inline(always)]
fn resolve_other(store: &Store, seat: &mut Seat, s: u32, session: u32, number: u32) -> Resolution
    requires seat { IsSeatOf store.now seat.old }
    requires host { hosts seat.old.view s ≡ true }
    requires place { layout.IsWithin seat.old.view.limits (StateWord session number) }
    ensures seat { IsSeatOf store.now seat.new }
    ensures asked { Asked seat.old.view seat.new.view s }
    ensures answers { AnswersAs seat.old.view seat.new.view s session number result }
{
    match transaction_status(store, seat, s, session, number) {
        Status::Empty => unreachable!(),
        Status::Unfinished { .. } => Resolution::Unfinished { session, number },
        Status::Closed => Resolution::Closed,
        Status::Committed { time } => Resolution::Committed { time },
    }
}
