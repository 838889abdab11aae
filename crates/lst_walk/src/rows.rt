//! A record's row.
ghost use Rattle.std.specs.Prelude.{◌≡◌, ◌↔◌, bit_or, ℕ, ◌+◌, ◌*◌, ◌<◌, ◌≤◌, [], true, length, map, slice_index, unwrap_or, is_some, None, Bool};
ghost use Rattle.std.specs.List.{list_all};
ghost use Rattle.lst_model.specs.Cells.{overlaid, cell_of, cells_of, patched};
ghost use Rattle.lst_bits.specs.Encodings.{IsEncodingWord, encoding_of};
ghost use Rattle.lst_bits.specs.declared.encodings.Kind.TheVariants.{Set};
ghost use Rattle.lst_layout.specs.declared.place.Place.TheVariants.{CellWord};
ghost use Rattle.lst_layout.specs.Addresses.{address};
ghost use Rattle.lst_core_state.specs.Cells.{record_count};
ghost use Rattle.lst_rule.specs.declared.view.View.{View};
ghost use Rattle.lst_rule.specs.Rule.{knows, hosts};
ghost use Rattle.lst_rule.specs.Stores.{IsSeatOf};
ghost use Rattle.lst_rule.specs.Copies.{Version};
ghost use Rattle.lst_rule.specs.Watching.{Watched};
ghost use Rattle.lst_rule.specs.TailLoads.{LoadsTail};
ghost use Rattle.lst_walk.specs.Readers.{IsReader, IsAt, HasVersion, Resolves};
ghost use Rattle.lst_walk.specs.Patches.{merged, AreSet};
ghost use Rattle.lst_walk.specs.Packed.{Skims};
ghost use Rattle.lst_walk.specs.Taking.{entry_at};
ghost use Rattle.lst_walk.specs.Pages.{touches_by, is_told, SavesRow};
ghost use Rattle.lst_walk.specs.Walks.{IsRowOf, WalksRow, Visited, Acted, Leaves};
ghost use Rattle.lst_walk.specs.Whole.{PagedRow, RowBy, row_where};
ghost use Rattle.lst_walk.specs.Filling.{RowPages, GoesOn, Fills, SetsAll, FillsColumn, SetsColumn};

use crate::pages::{Entry, cell_of, newest, put_entries};
use crate::placed::{below_from, cell_from, first_after, first_word, is_seen_from, word_from};
use crate::whole::paged;
use crate::words::head;
use arrayvec::ArrayVec;
use lst_bits::{Encoding, Kind, has_column, unpack_encoding};
use lst_model::Row;
use lst_rule::{RecordId, Seat, Store, tail_of};

/// What a visit of a version comes to.
pub(crate) enum Visit {
    /// The row is that of the version's values, null where the bits say so, with the patch on it.
    Row { nulls: u8 },
    /// There is no row.
    NoRow,
    /// The row is that of the older versions, with the patch on it.
    Older,
}

/// What the pages' entries that may be used at a number come to.
pub(crate) enum Filled {
    /// There is no row.
    Absent,
    /// The patch sets each column of the row.
    Whole,
    /// The row is that of the older versions, with the patch on it.
    Partly,
}

/// The row of a record that the open transaction sees: that of the snapshot at its begin, with its own writes on it. None comes exactly where
/// it sees no row, of a record without a seen key too. The walk goes along the chain from the newest version, to the first put or delete that is
/// seen or until each column is set. It resolves each version that it passes, this last one included: where it finds the transaction committed
/// and the start word not stamped, it stores the commit time there. Where the session has a pin, the pages of all columns are taken in hand first,
/// and at each number that the walk comes to, each column that isn't set yet is filled by its page's entry, if the number is at most the
/// page's TPS, and the entry's time at most the begin. Where that holds of every column at the head, no word of a tail record is loaded. Of a record
/// without a version no page is looked at.
#[inline(always)]
pub fn row(store: &Store, seat: &mut Seat, s: u32, rec: RecordId) -> Option<Row>
    requires seat { IsSeatOf store.now seat.old }
    requires host { hosts seat.old.view s ≡ true }
    requires own { s < seat.old.view.limits.sessions }
    requires opened { (knows seat.old.view s).is_open ≡ true }
    requires rec { rec.number < record_count store.now.layout.limits }
    ensures seat { IsSeatOf store.now seat.new }
    ensures watched { Watched seat.old.view seat.new.view s }
    ensures row { IsRowOf seat.old.view s rec.number result }
    ensures walk { WalksRow seat.old.view seat.new.view s rec.number result }
    ensures saves { 0 < (knows seat.old.view s).pages.session.pin → SavesRow seat.old.view seat.new.view s rec.number }
{
    let mut told = Row::of_numbers(ArrayVec::new());
    if put_row(store, seat, s, rec, &mut told) {
        Some(told)
    } else {
        None
    }
}

/// What `row` answers, put into a row that has no cells. Whether there is a row is answered.
#[inline(always)]
pub fn put_row(store: &Store, seat: &mut Seat, s: u32, rec: RecordId, row: &mut Row) -> bool
    requires seat { IsSeatOf store.now seat.old }
    requires host { hosts seat.old.view s ≡ true }
    requires own { s < seat.old.view.limits.sessions }
    requires opened { (knows seat.old.view s).is_open ≡ true }
    requires rec { rec.number < record_count store.now.layout.limits }
    requires empty { row.old ≡ [] }
    ensures seat { IsSeatOf store.now seat.new }
    ensures watched { Watched seat.old.view seat.new.view s }
    ensures row { IsRowOf seat.old.view s rec.number (row_where result row.new) }
    ensures walk { WalksRow seat.old.view seat.new.view s rec.number (row_where result row.new) }
    ensures saves { 0 < (knows seat.old.view s).pages.session.pin → SavesRow seat.old.view seat.new.view s rec.number }
{
    seat.consider();
    let number = head(store, seat, s, rec);
    if number == 0 {
        return false;
    }
    if paged(store, seat, s, rec, number, row) {
        return true;
    }
    put_walked(store, seat, s, rec, number, row)
}

/// The row of a record, by a walk from the number of its newest version on, put into a row. Whether there is a row is answered. Apart from `put_row`,
/// whose frame is small without its arrays.
#[inline(never)]
fn put_walked(
    store: &Store,
    seat: &mut Seat,
    s: u32,
    rec: RecordId,
    number: u32,
    row: &mut Row,
) -> bool
    requires reader { IsReader store.now seat.old s }
    requires rec { rec.number < record_count store.now.layout.limits }
    requires walk { (v : View) × PagedRow store.now v seat.old s rec.number number 0 [] }
    ensures reader { IsReader store.now seat.new s }
    ensures told { (v : View) → PagedRow store.now v seat.old s rec.number number 0 [] → RowBy v seat.new.view s rec.number (row_where result row.new) }
{
    let range = rec.number / 256;
    let mut number = number;
    let mut cells = [None; 8];
    let patch = &mut cells[..store.layout().limits.columns as usize];
    let mut set = 0;
    let mut entries = [Entry {
        frame: 0,
        until: 0,
        is_present: false,
    }; 8];
    put_entries(store, seat, s, rec, &mut entries);
    let last = newest(&entries);
    let start = first_word(store, range, 1);
    let words = store.layout().limits.cell_words();
    while number > 0 {
        match fill(store, seat, s, rec, number, &entries, last, patch, &mut set) {
            Filled::Absent => return false,
            Filled::Whole => {
                *row = row_of(patch);
                return true;
            }
            Filled::Partly => {}
        }
        let tail = tail_of(store, range, number);
        let first = first_after(store, range, number, start, words);
        match look(store, seat, s, range, number, first, patch, &mut set) {
            Visit::Row { nulls } => {
                *row = row_under(store, seat, s, tail, first, nulls, patch);
                return true;
            }
            Visit::NoRow => return false,
            Visit::Older => number = below_from(store, seat, s, tail, first),
        }
    }
    false
}

/// Fills each column that the patch doesn't set by the entry of its page, where that may be used at this number. None may be above `last`. Bit c of `set` is
/// set only where the patch sets column c, before and after; where a page may be used, no bit is set after.
fn fill(
    store: &Store,
    seat: &mut Seat,
    s: u32,
    rec: RecordId,
    number: u32,
    entries: &[Entry; 8],
    last: u64,
    patch: &mut [Option<Option<u64>>],
    set: &mut u8,
) -> Filled
    requires reader { IsReader store.now seat.old s }
    requires number { 0 < number }
    requires last { (column : ℕ) → (entry_at entries.now column).until ≤ last }
    requires wide { length patch.old ≡ store.now.layout.limits.columns }
    requires walk { (v : View) × RowPages store.now v seat.old s rec.number number entries.now patch.old }
    ensures reader { IsReader store.now seat.new s }
    ensures skims { Skims seat.old.view seat.new.view s }
    ensures wide { length patch.new ≡ length patch.old }
    ensures filled { (v : View) → RowPages store.now v seat.old s rec.number number entries.now patch.old → Fills store.now v seat.new s rec.number number entries.now patch.new result }
    ensures sets { SetsAll store.now.layout.limits.columns number entries.now patch.old patch.new result }
    ensures set { AreSet set.old patch.old → AreSet set.new patch.new }
{
    if number as u64 > last {
        return Filled::Partly;
    }
    *set = 0;
    let mut is_used = false;
    for column in 0..store.layout().limits.columns {
        match fill_column(store, seat, s, rec, number, entries, column, patch) {
            None => return Filled::Absent,
            Some(used) => is_used |= used,
        }
    }
    if is_used && is_whole(patch) {
        Filled::Whole
    } else {
        Filled::Partly
    }
}

/// Fills one column, if the patch doesn't set it and the entry of its page may be used, and answers whether it did. None comes where the entry
/// says that there is no row.
fn fill_column(
    store: &Store,
    seat: &mut Seat,
    s: u32,
    rec: RecordId,
    number: u32,
    entries: &[Entry; 8],
    column: u32,
    patch: &mut [Option<Option<u64>>],
) -> Option<bool>
    requires reader { IsReader store.now seat.old s }
    requires number { 0 < number }
    requires wide { length patch.old ≡ store.now.layout.limits.columns }
    requires column { column < store.now.layout.limits.columns }
    requires walk { (v : View) × RowPages store.now v seat.old s rec.number number entries.now patch.old }
    ensures reader { IsReader store.now seat.new s }
    ensures skims { Skims seat.old.view seat.new.view s }
    ensures filled { (v : View) (was : Bool) → GoesOn store.now v seat.old s rec.number number entries.now patch.old was → FillsColumn store.now v seat.new s rec.number number entries.now patch.new was result }
    ensures sets { SetsColumn number entries.now column patch.old patch.new result }
{
    let entry = entries[column as usize];
    if number as u64 <= entry.until && patch[column as usize].is_none() {
        match cell_of(store, seat, s, rec, entry) {
            None => None,
            Some(cell) => {
                patch[column as usize] = Some(cell);
                Some(true)
            }
        }
    } else {
        Some(false)
    }
}

/// The row of a patch that sets each column.
fn row_of(patch: &[Option<Option<u64>>]) -> Row
    requires few { length patch.now ≤ 8 }
    ensures { result ≡ map (λ cell. unwrap_or cell None) patch.now }
{
    let mut row = Row::of_numbers(ArrayVec::new());
    for column in 0..patch.len() {
        row.push(patch[column].unwrap_or(None));
    }
    row
}

/// Looks at a version of a range, by the number of its tail record, under a patch of newer versions. Bit c of `set` is set only where the patch sets column
/// c, before and after. The tail record's first word has the address `first`.
fn look(
    store: &Store,
    seat: &mut Seat,
    s: u32,
    range: u32,
    number: u32,
    first: u64,
    patch: &mut [Option<Option<u64>>],
    set: &mut u8,
) -> Visit
    requires reader { IsReader store.now seat.old s }
    requires range { range < store.now.layout.limits.ranges }
    requires number { (0 < number) × (number ≤ store.now.layout.limits.tails) }
    requires version { HasVersion seat.old.view s (range * store.now.layout.limits.tails + number) }
    requires first { first ≡ address store.now.layout.limits (CellWord (range * store.now.layout.limits.tails + number) 0) }
    requires wide { length patch.old ≡ store.now.layout.limits.columns }
    requires set { AreSet set.old patch.old }
    ensures reader { IsReader store.now seat.new s }
    ensures watched { Watched seat.old.view seat.new.view s }
    ensures loads { LoadsTail seat.old.view seat.new.view s (range * store.now.layout.limits.tails + number) }
    ensures visited { (c : Version) → IsAt seat.old.view s (range * store.now.layout.limits.tails + number) c → Visited (knows seat.old.view s) s c store.now.layout.limits.columns patch.old patch.new result }
    ensures leaves { (c : Version) → IsAt seat.old.view s (range * store.now.layout.limits.tails + number) c → Leaves (λ column. is_told (knows seat.old.view s) s column c) patch.old patch.new result }
    ensures resolved { Resolves seat.old.view seat.new.view s range number }
    ensures set { AreSet set.new patch.new }
{
    if is_seen_from(store, seat, s, range, number, first) {
        acted(
            store,
            seat,
            s,
            tail_of(store, range, number),
            first,
            patch,
            set,
        )
    } else {
        Visit::Older
    }
}

/// Looks at a version that is seen, under a patch of newer versions. Bit c of `set` is set only where the patch sets column c, before and after: a set of
/// columns that all have their bits there adds nothing. The tail record's first word has the address `first`.
fn acted(
    store: &Store,
    seat: &mut Seat,
    s: u32,
    tail: u32,
    first: u64,
    patch: &mut [Option<Option<u64>>],
    set: &mut u8,
) -> Visit
    requires reader { IsReader store.now seat.old s }
    requires version { HasVersion seat.old.view s tail }
    requires first { first ≡ address store.now.layout.limits (CellWord tail 0) }
    requires wide { length patch.old ≡ store.now.layout.limits.columns }
    requires set { AreSet set.old patch.old }
    ensures reader { IsReader store.now seat.new s }
    ensures watched { Watched seat.old.view seat.new.view s }
    ensures loads { LoadsTail seat.old.view seat.new.view s tail }
    ensures acted { (c : Version) → IsAt seat.old.view s tail c → Acted c store.now.layout.limits.columns patch.old patch.new result }
    ensures leaves { (c : Version) → IsAt seat.old.view s tail c → Leaves (λ column. touches_by column c.encoding) patch.old patch.new result }
    ensures set { AreSet set.new patch.new }
{
    let word = word_from(store, seat, s, tail, first, 1);
    if sets_none(word, *set) {
        return Visit::Older;
    }
    let encoding = unpack_encoding(word);
    match encoding.kind {
        Kind::Put => Visit::Row {
            nulls: encoding.nulls,
        },
        Kind::Set => {
            set_under(store, seat, s, tail, first, encoding, patch);
            *set |= encoding.mask;
            if is_whole(patch) {
                Visit::Row {
                    nulls: encoding.nulls,
                }
            } else {
                Visit::Older
            }
        }
        Kind::Del => Visit::NoRow,
    }
}

/// Whether a version with this encoding word is a set of columns that all have their bits in `set`.
fn sets_none(word: u64, set: u8) -> bool
    requires { IsEncodingWord word }
    ensures { (result ≡ true) ↔ (((encoding_of word).kind ≡ Set) × (bit_or (encoding_of word).mask set ≡ set)) }
{
    let encoding = unpack_encoding(word);
    match encoding.kind {
        Kind::Set => encoding.mask | set == set,
        Kind::Put | Kind::Del => false,
    }
}

/// Whether a patch sets each column.
fn is_whole(patch: &[Option<Option<u64>>]) -> bool
    ensures { result ≡ list_all is_some patch.now }
{
    patch.iter().all(|cell| cell.is_some())
}

/// The row of a version's values, null where the bits say so, with a patch of newer versions on it. The tail record's first word has the address `first`.
fn row_under(
    store: &Store,
    seat: &mut Seat,
    s: u32,
    tail: u32,
    first: u64,
    nulls: u8,
    patch: &[Option<Option<u64>>],
) -> Row
    requires reader { IsReader store.now seat.old s }
    requires version { HasVersion seat.old.view s tail }
    requires first { first ≡ address store.now.layout.limits (CellWord tail 0) }
    requires wide { length patch.now ≡ store.now.layout.limits.columns }
    ensures reader { IsReader store.now seat.new s }
    ensures watched { Watched seat.old.view seat.new.view s }
    ensures loads { LoadsTail seat.old.view seat.new.view s tail }
    ensures row { (c : Version) → IsAt seat.old.view s tail c → result ≡ overlaid (cells_of nulls 0 c.values) patch.now }
{
    let mut row = Row::of_numbers(ArrayVec::new());
    for column in 0..store.layout().limits.columns {
        let newer = patch[column as usize];
        row.push(cell_under(store, seat, s, tail, first, nulls, column, newer));
    }
    row
}

/// The cell of a column of a version, under the bits of its null columns, or the cell of newer versions, where there is one. The tail record's first word
/// has the address `first`.
fn cell_under(
    store: &Store,
    seat: &mut Seat,
    s: u32,
    tail: u32,
    first: u64,
    nulls: u8,
    column: u32,
    newer: Option<Option<u64>>,
) -> Option<u64>
    requires reader { IsReader store.now seat.old s }
    requires version { HasVersion seat.old.view s tail }
    requires first { first ≡ address store.now.layout.limits (CellWord tail 0) }
    requires column { column < store.now.layout.limits.columns }
    ensures reader { IsReader store.now seat.new s }
    ensures watched { Watched seat.old.view seat.new.view s }
    ensures loads { LoadsTail seat.old.view seat.new.view s tail }
    ensures cell { (c : Version) → IsAt seat.old.view s tail c → result ≡ unwrap_or newer (cell_of nulls column (slice_index c.values column)) }
{
    match newer {
        Some(newer) => newer,
        None => cell_from(store, seat, s, tail, first, nulls, column),
    }
}

/// Puts the cells of a set with this encoding under those of a patch of newer versions. The tail record's first word has the address `first`.
fn set_under(
    store: &Store,
    seat: &mut Seat,
    s: u32,
    tail: u32,
    first: u64,
    encoding: Encoding,
    patch: &mut [Option<Option<u64>>],
)
    requires reader { IsReader store.now seat.old s }
    requires version { HasVersion seat.old.view s tail }
    requires first { first ≡ address store.now.layout.limits (CellWord tail 0) }
    requires wide { length patch.old ≡ store.now.layout.limits.columns }
    ensures reader { IsReader store.now seat.new s }
    ensures watched { Watched seat.old.view seat.new.view s }
    ensures loads { LoadsTail seat.old.view seat.new.view s tail }
    ensures patch { (c : Version) → IsAt seat.old.view s tail c → patch.new ≡ merged patch.old (patched encoding.mask 0 (cells_of encoding.nulls 0 c.values)) }
{
    for column in 0..store.layout().limits.columns {
        if has_column(encoding.mask, column) && patch[column as usize].is_none() {
            patch[column as usize] = Some(cell_from(
                store,
                seat,
                s,
                tail,
                first,
                encoding.nulls,
                column,
            ));
        }
    }
}
