//! A row of which the pages tell every column at the record's newest version.
ghost use Rattle.std.specs.Prelude.{◌≡◌, ◌/◌, ◌<◌, [], IfSome, true};
ghost use Rattle.lst_layout.specs.declared.place.Place.TheVariants.{DirectoryWord};
ghost use Rattle.lst_layout.specs.Addresses.{address};
ghost use Rattle.lst_core_state.specs.Cells.{record_count};
ghost use Rattle.lst_rule.specs.declared.view.View.{View};
ghost use Rattle.lst_rule.specs.Rule.{knows};
ghost use Rattle.lst_walk.specs.Readers.{IsReader};
ghost use Rattle.lst_walk.specs.Packed.{Skims};
ghost use Rattle.lst_walk.specs.Whole.{TellsCell, PagedRow, PagedBy};

use crate::pages::{look, numbered_cell};
use lst_bits::unpack_time;
use lst_model::Row;
use lst_rule::{RecordId, Seat, Store};

/// The cell that the page of a column tells of a record at the number of a version, where there is a row. None comes where the page doesn't tell it to
/// the open transaction, which has this begin. The directory word of the range's first page has the address `pages`.
#[inline(always)]
fn page_cell(
    store: &Store,
    seat: &mut Seat,
    s: u32,
    rec: RecordId,
    number: u32,
    column: u32,
    pages: u64,
    begin: u64,
) -> Option<Option<u64>>
    requires reader { IsReader store.now seat.old s }
    requires pinned { 0 < (knows seat.old.view s).pages.session.pin }
    requires rec { rec.number < record_count store.now.layout.limits }
    requires number { 0 < number }
    requires column { column < store.now.layout.limits.columns }
    requires pages { pages ≡ address store.now.layout.limits (DirectoryWord (rec.number / 256) 0) }
    requires begin { begin ≡ (knows seat.old.view s).begin }
    ensures reader { IsReader store.now seat.new s }
    ensures skims { Skims seat.old.view seat.new.view s }
    ensures told { IfSome result (λ cell. TellsCell seat.old.view seat.new.view s rec.number number column cell) }
{
    let found = look(store, seat, s, rec, column, pages);
    let (time, is_present) = unpack_time(found.stamp);
    if number as u64 <= found.tps && is_present && time <= begin {
        let slot = rec.number % 256;
        Some(numbered_cell(store, seat, s, found.frame, found.first, slot))
    } else {
        None
    }
}

/// Whether the pages of all columns tell of a record at the number of its newest version that there is a row. Its cells are added to `row`, which
/// has none. No word of a tail record is loaded.
#[inline(always)]
pub(crate) fn paged(
    store: &Store,
    seat: &mut Seat,
    s: u32,
    rec: RecordId,
    number: u32,
    row: &mut Row,
) -> bool
    requires reader { IsReader store.now seat.old s }
    requires rec { rec.number < record_count store.now.layout.limits }
    requires number { 0 < number }
    requires empty { row.old ≡ [] }
    requires walk { (v : View) × PagedRow store.now v seat.old s rec.number number 0 [] }
    ensures reader { IsReader store.now seat.new s }
    ensures skims { Skims seat.old.view seat.new.view s }
    ensures told { result ≡ true → (v : View) → PagedRow store.now v seat.old s rec.number number 0 [] → PagedBy v seat.new.view s rec.number row.new }
{
    if seat.pinned(s).is_none() {
        return false;
    }
    let begin = seat.begin(s);
    let pages = store.layout().directory(rec.number / 256, 0);
    for column in 0..store.layout().limits.columns {
        match page_cell(store, seat, s, rec, number, column, pages, begin) {
            Some(cell) => row.push(cell),
            None => return false,
        }
    }
    true
}
