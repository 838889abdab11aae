//! The records that may hold a number in an indexed column.
ghost use Rattle.std.specs.Prelude.{◌≡◌, ◌<◌, true, IfOk, IfErr};
ghost use Rattle.lst_layout.specs.Areas.{IsIndexed};
ghost use Rattle.lst_rule.specs.Rule.{hosts};
ghost use Rattle.lst_rule.specs.Stores.{IsSeatOf};
ghost use Rattle.lst_second.specs.Candidates.{IsRising, AreHolders, Probes, IsRefused};

use crate::gathering::{Sought, gather};
use crate::lists::RecordList;
use lst_model::OutOfMemory;
use lst_rule::{Seat, Store};
use std::alloc::Global;

/// Why no candidates were listed: the column has no index, or memory is wanting.
#[derive(Clone, Copy, Debug, PartialEq, Eq)]
pub enum CandidateFault {
    NotIndexed,
    OutOfMemory,
}

/// The records, rising, that have a version with the value, a number, in the column, by the column's index. Each record is among them that was
/// given the number by an act that the session has seen committed, or by an own one; a record whose number was replaced since stays one of
/// them, and so does one whose writer was aborted.
///
/// `NotIndexed` comes exactly where the layout names no index on the column. Only looks are made.
pub fn candidates(
    alloc: Global,
    store: &Store,
    seat: &mut Seat,
    s: u32,
    column: u32,
    value: u64,
) -> Result<RecordList, CandidateFault>
    requires seat { IsSeatOf store.now seat.old }
    requires host { hosts seat.old.view s ≡ true }
    requires own { s < seat.old.view.limits.sessions }
    requires column { column < store.now.layout.limits.columns }
    ensures seat { IsSeatOf store.now seat.new }
    ensures probes { Probes seat.old.view seat.new.view s }
    ensures indexed { IfOk result (λ records. IsIndexed store.now.layout.limits column) }
    ensures rising { IfOk result (λ records. IsRising store.now.layout.limits records) }
    ensures holders { IfOk result (λ records. AreHolders seat.new.view s column value records) }
    ensures fault { IfErr result (λ fault. IsRefused store.now.layout.limits seat.old seat.new column fault) }
{
    if !store.layout().limits.is_indexed(column) {
        return Err(CandidateFault::NotIndexed);
    }
    match gather(alloc, store, seat, s, Sought { column, value }) {
        Ok(records) => Ok(RecordList::rising(records)),
        Err(OutOfMemory) => Err(CandidateFault::OutOfMemory),
    }
}
