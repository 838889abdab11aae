//! The walk along a number's run that gathers the records of the tails there.
ghost use Rattle.std.specs.Prelude.{◌≡◌, ◌+◌, ◌<◌, ◌≤◌, [], ◌∷◌, IfSome, IfNone, IfOk, OnOk};
ghost use Rattle.std.specs.List.{All};
ghost use Rattle.lst_core_state.specs.Cells.{record_count, tail_count};
ghost use Rattle.lst_core_state.specs.Postings.{postings_size, value_position};
ghost use Rattle.lst_rule.specs.Rule.{knows};
ghost use Rattle.lst_rule.specs.Stores.{IsSeatOf};
ghost use Rattle.lst_rule.specs.Shown.{StandsAt};
ghost use Rattle.lst_second.specs.Candidates.{KnownToHold, AreHolders, Probes};
ghost use Rattle.lst_second.specs.Gathers.{IsCounted, Seeks, Gathers, EndsAt};

use crate::positions::{position, record_of};
use lst_bits::unpack_posting;
use lst_model::OutOfMemory;
use lst_rule::{RecordId, Seat, Store, load_cell, load_posting};
use std::alloc::Global;

/// A number that is looked for in an indexed column.
#[derive(Clone, Copy)]
pub(crate) struct Sought {
    pub(crate) column: u32,
    pub(crate) value: u64,
}

/// The tail at a position of the number's run, if there is one. None comes where the run ends there.
fn tail_at(store: &Store, seat: &mut Seat, s: u32, sought: Sought, offset: u32) -> Option<u32>
    requires seeks { Seeks store.now seat.old s sought }
    requires offset { offset < postings_size store.now.layout.limits }
    ensures probes { Probes seat.old.view seat.new.view s }
    ensures seeks { Seeks store.now seat.new s sought }
    ensures some { IfSome result (λ tail. (0 < tail) × (tail ≤ tail_count store.now.layout.limits) × StandsAt store.now.layout.limits (knows seat.new.view s).facts sought.column sought.value offset tail) }
    ensures none { IfNone result (EndsAt seat.new.view sought.column sought.value offset) }
{
    let at = position(store.layout(), sought.value, offset);
    let word = load_posting(store, seat, s, sought.column, at);
    unpack_posting(word)
}

/// The record of a tail that stands at a position of the number's run, where the tail's number in the column is the one that is looked for. Its
/// encoding word is only loaded then.
fn holder(
    store: &Store,
    seat: &mut Seat,
    s: u32,
    sought: Sought,
    offset: u32,
    tail: u32,
) -> Option<RecordId>
    requires seeks { Seeks store.now seat.old s sought }
    requires some { 0 < tail }
    requires few { tail ≤ tail_count store.now.layout.limits }
    requires stands { StandsAt store.now.layout.limits (knows seat.old.view s).facts sought.column sought.value offset tail }
    ensures probes { Probes seat.old.view seat.new.view s }
    ensures seeks { Seeks store.now seat.new s sought }
    ensures some { IfSome result (λ rec. KnownToHold store.now.layout.limits (knows seat.new.view s).facts sought.column sought.value rec.number × IsCounted store.now.layout.limits (knows seat.new.view s).facts sought.column sought.value (rec ∷ []) tail) }
    ensures none { IfNone result (IsCounted store.now.layout.limits (knows seat.new.view s).facts sought.column sought.value [] tail) }
{
    let _ = offset;
    if load_cell(store, seat, s, tail, 3 + sought.column) != sought.value {
        return None;
    }
    let encoding = load_cell(store, seat, s, tail, 1);
    Some(RecordId {
        number: record_of(store.layout(), tail, encoding),
    })
}

/// Passes a position of the number's run, at which a tail stands: its record is added where the tail holds the number.
fn pass(
    store: &Store,
    seat: &mut Seat,
    s: u32,
    sought: Sought,
    offset: u32,
    tail: u32,
    records: &mut Vec<RecordId>,
) -> Result<(), OutOfMemory>
    requires gathers { Gathers store.now seat.old s sought records.old.items offset }
    requires some { 0 < tail }
    requires few { tail ≤ tail_count store.now.layout.limits }
    requires stands { StandsAt store.now.layout.limits (knows seat.old.view s).facts sought.column sought.value offset tail }
    ensures probes { Probes seat.old.view seat.new.view s }
    ensures seat { IsSeatOf store.now seat.new }
    ensures ok { OnOk result (Gathers store.now seat.new s sought records.new.items (offset + 1)) }
{
    if let Some(rec) = holder(store, seat, s, sought, offset, tail) {
        records.push(rec)?;
    }
    Ok(())
}

/// The records of the tails in the number's run that hold it, in the order of the run. A record of several such tails comes several times.
pub(crate) fn gather(
    alloc: Global,
    store: &Store,
    seat: &mut Seat,
    s: u32,
    sought: Sought,
) -> Result<Vec<RecordId>, OutOfMemory>
    requires seeks { Seeks store.now seat.old s sought }
    ensures probes { Probes seat.old.view seat.new.view s }
    ensures seat { IsSeatOf store.now seat.new }
    ensures low { IfOk result (λ records. All (λ rec. rec.number < record_count store.now.layout.limits) records.items) }
    ensures holders { IfOk result (λ records. AreHolders seat.new.view s sought.column sought.value records.items) }
{
    let all = store.layout().posting_positions() as u32;
    let mut records = Vec::new(alloc);
    let mut offset = 0;
    while offset < all {
        let Some(tail) = tail_at(store, seat, s, sought, offset) else {
            seat.consider();
            return Ok(records);
        };
        pass(store, seat, s, sought, offset, tail, &mut records)?;
        offset += 1;
    }
    seat.consider();
    unreachable!()
}
