//! Base pages: the entry of a record in a page that is in hand.
ghost use Rattle.std.specs.Prelude.{◌≡◌, ℕ, ◌/◌, ◌%◌, ◌<◌, ◌≤◌, List, Some, None, cond, nat_le, slice_index};
ghost use Rattle.lst_layout.specs.declared.place.Place.TheVariants.{DirectoryWord, FrameWord};
ghost use Rattle.lst_layout.specs.Addresses.{address};
ghost use Rattle.lst_layout.specs.Areas.{frame_count};
ghost use Rattle.lst_pack.specs.Forms.{Packs, IsPacked};
ghost use Rattle.lst_core_state.specs.Cells.{record_count};
ghost use Rattle.lst_rule.specs.Rule.{knows};
ghost use Rattle.lst_walk.specs.Readers.{IsReader};
ghost use Rattle.lst_walk.specs.Packed.{packed_words, Skims};
ghost use Rattle.lst_walk.specs.Pages.{Takes, LooksAt};
ghost use Rattle.lst_walk.specs.Taking.{TakesAll, entry_at, no_entries};
ghost use Rattle.lst_rule.specs.Watching.{HasInHand};
ghost use Rattle.lst_model.specs.Cells.{has_bit, number_of};
ghost use Rattle.lst_layout.specs.Frames.{null_place, null_bit};
ghost use Rattle.lst_pages.specs.Frames.{cell_in};

use crate::packed::Packed;
use lst_bits::unpack_time;
use lst_layout::{FRAME_NULLS, FRAME_TIMES};
use lst_pack::get_from;
use lst_rule::{RecordId, Seat, Store, load_frame, load_frame_from, step_look_page_from};

/// What a page says of a record in a column.
#[derive(Clone, Copy)]
pub(crate) struct Entry {
    /// The page's frame, which is in hand.
    pub frame: u32,
    /// The newest tail record, by its number, from which on the entry tells of the column: the page's TPS. 0 where there is no page, and
    /// where the entry's time is above the begin.
    pub until: u64,
    /// Whether there is a row.
    pub is_present: bool,
}

/// What was loaded of a page that was taken in hand.
#[derive(Clone, Copy)]
pub(crate) struct Looks {
    /// The page's frame.
    pub frame: u32,
    /// The address of the frame's first word.
    pub first: u64,
    /// The page's TPS.
    pub tps: u64,
    /// The time word of a record's entry.
    pub stamp: u64,
}

/// The entry of a record in the page of a column, which is taken in hand where the session has a pin.
pub(crate) fn entry_of(store: &Store, seat: &mut Seat, s: u32, rec: RecordId, column: u32) -> Entry
    requires reader { IsReader store.now seat.old s }
    requires rec { rec.number < record_count store.now.layout.limits }
    requires column { column < store.now.layout.limits.columns }
    ensures reader { IsReader store.now seat.new s }
    ensures skims { Skims seat.old.view seat.new.view s }
    ensures takes { 0 < (knows seat.old.view s).pages.session.pin → Takes seat.old.view seat.new.view s rec.number column result }
    ensures none { (knows seat.old.view s).pages.session.pin ≡ 0 → result.until ≡ 0 }
{
    if seat.pinned(s).is_some() {
        let begin = seat.begin(s);
        let pages = store.layout().directory(rec.number / 256, 0);
        taken(store, seat, s, rec, column, pages, begin)
    } else {
        Entry {
            frame: 0,
            until: 0,
            is_present: false,
        }
    }
}

/// The same of a session with a pin, whose open transaction has this begin, where the directory word of the range's first page has the address
/// `pages`.
#[inline(always)]
pub(crate) fn taken(
    store: &Store,
    seat: &mut Seat,
    s: u32,
    rec: RecordId,
    column: u32,
    pages: u64,
    begin: u64,
) -> Entry
    requires reader { IsReader store.now seat.old s }
    requires pinned { 0 < (knows seat.old.view s).pages.session.pin }
    requires rec { rec.number < record_count store.now.layout.limits }
    requires column { column < store.now.layout.limits.columns }
    requires pages { pages ≡ address store.now.layout.limits (DirectoryWord (rec.number / 256) 0) }
    requires begin { begin ≡ (knows seat.old.view s).begin }
    ensures reader { IsReader store.now seat.new s }
    ensures skims { Skims seat.old.view seat.new.view s }
    ensures takes { Takes seat.old.view seat.new.view s rec.number column result }
{
    let found = look(store, seat, s, rec, column, pages);
    let (time, is_present) = unpack_time(found.stamp);
    Entry {
        frame: found.frame,
        until: until(found.tps, time, begin),
        is_present,
    }
}

/// Takes the page of a column in hand, of a session with a pin, and loads its TPS and the time word of a record's entry. The directory word of the
/// range's first page has the address `pages`.
#[inline(always)]
pub(crate) fn look(
    store: &Store,
    seat: &mut Seat,
    s: u32,
    rec: RecordId,
    column: u32,
    pages: u64,
) -> Looks
    requires reader { IsReader store.now seat.old s }
    requires pinned { 0 < (knows seat.old.view s).pages.session.pin }
    requires rec { rec.number < record_count store.now.layout.limits }
    requires column { column < store.now.layout.limits.columns }
    requires pages { pages ≡ address store.now.layout.limits (DirectoryWord (rec.number / 256) 0) }
    ensures reader { IsReader store.now seat.new s }
    ensures skims { Skims seat.old.view seat.new.view s }
    ensures looks { LooksAt seat.old.view seat.new.view s rec.number column result.frame result.tps result.stamp }
    ensures first { result.first ≡ address store.now.layout.limits (FrameWord result.frame 0) }
{
    let frame = step_look_page_from(store, seat, s, rec.number / 256, column, pages) as u32;
    let first = store.layout().frames(frame, 0);
    let tps = load_frame_from(store, seat, s, frame, first, 0);
    let place = FRAME_TIMES + rec.number % 256;
    let stamp = load_frame_from(store, seat, s, frame, first, place);
    Looks {
        frame,
        first,
        tps,
        stamp,
    }
}

/// The TPS, where the time is at most the begin, and else 0.
fn until(tps: u64, time: u64, begin: u64) -> u64
    ensures { result ≡ cond (nat_le time begin) tps 0 }
{
    if time <= begin { tps } else { 0 }
}

/// The number that an entry tells of the column, 0 for null, or None where there is no row.
pub(crate) fn number_of(
    store: &Store,
    seat: &mut Seat,
    s: u32,
    rec: RecordId,
    entry: Entry,
) -> Option<u64>
    requires reader { IsReader store.now seat.old s }
    requires frame { entry.frame < frame_count seat.old.view.limits }
    requires packed { IsPacked (packed_words seat.old.view s entry.frame) }
    ensures reader { IsReader store.now seat.new s }
    ensures skims { Skims seat.old.view seat.new.view s }
    ensures number { (values : List ℕ) → Packs (packed_words seat.old.view s entry.frame) values → result ≡ cond entry.is_present (Some (slice_index values (rec.number % 256))) None }
{
    if entry.is_present {
        Some(value(store, seat, s, entry.frame, rec.number % 256))
    } else {
        None
    }
}

/// Puts the entries of a record in the pages of all columns where none stood; the pages are taken in hand where the session has a pin, and else none is.
/// They are put where the caller keeps them, since an array that is handed back is copied.
pub(crate) fn put_entries(
    store: &Store,
    seat: &mut Seat,
    s: u32,
    rec: RecordId,
    entries: &mut [Entry; 8],
)
    requires reader { IsReader store.now seat.old s }
    requires rec { rec.number < record_count store.now.layout.limits }
    requires blank { entries.old ≡ no_entries }
    ensures reader { IsReader store.now seat.new s }
    ensures takes { TakesAll store.now seat.old.view seat.new s rec.number store.now.layout.limits.columns entries.new }
{
    if seat.pinned(s).is_none() {
        return;
    }
    let begin = seat.begin(s);
    let pages = store.layout().directory(rec.number / 256, 0);
    for column in 0..store.layout().limits.columns {
        entries[column as usize] = taken(store, seat, s, rec, column, pages, begin);
    }
}

/// The newest tail record, by its number, from which on an entry tells of its column.
pub(crate) fn newest(entries: &[Entry; 8]) -> u64
    ensures { (column : ℕ) → (entry_at entries.now column).until ≤ result }
{
    let mut last = 0;
    for column in 0..8 {
        last = entries[column].until.max(last);
    }
    last
}

/// The cell that an entry tells of the column, or None where there is no row.
pub(crate) fn cell_of(
    store: &Store,
    seat: &mut Seat,
    s: u32,
    rec: RecordId,
    entry: Entry,
) -> Option<Option<u64>>
    requires reader { IsReader store.now seat.old s }
    requires frame { entry.frame < frame_count seat.old.view.limits }
    requires packed { IsPacked (packed_words seat.old.view s entry.frame) }
    ensures reader { IsReader store.now seat.new s }
    ensures skims { Skims seat.old.view seat.new.view s }
    ensures cell { (words : ℕ → ℕ) → HasInHand (knows seat.old.view s).pages.session entry.frame words → (values : List ℕ) → Packs (packed_words seat.old.view s entry.frame) values → result ≡ cond entry.is_present (Some (cell_in words (slice_index values (rec.number % 256)) (rec.number % 256))) None }
{
    if entry.is_present {
        Some(present_cell(store, seat, s, entry.frame, rec.number % 256))
    } else {
        None
    }
}

/// The cell at a slot of the page in a frame that is in hand: null where the slot's null bit is set.
pub(crate) fn present_cell(
    store: &Store,
    seat: &mut Seat,
    s: u32,
    frame: u32,
    slot: u32,
) -> Option<u64>
    requires reader { IsReader store.now seat.old s }
    requires frame { frame < frame_count seat.old.view.limits }
    requires packed { IsPacked (packed_words seat.old.view s frame) }
    requires slot { slot < 256 }
    ensures reader { IsReader store.now seat.new s }
    ensures skims { Skims seat.old.view seat.new.view s }
    ensures cell { (words : ℕ → ℕ) → HasInHand (knows seat.old.view s).pages.session frame words → (values : List ℕ) → Packs (packed_words seat.old.view s frame) values → result ≡ cell_in words (slice_index values slot) slot }
{
    let nulls = load_frame(store, seat, s, frame, FRAME_NULLS + slot / 64);
    if is_bit(nulls, slot % 64) {
        None
    } else {
        Some(value(store, seat, s, frame, slot))
    }
}

/// The same where the page has the number 0 for null: the null word is loaded only where the number is 0. The frame's first word has the address
/// `first`.
#[inline(always)]
pub(crate) fn numbered_cell(
    store: &Store,
    seat: &mut Seat,
    s: u32,
    frame: u32,
    first: u64,
    slot: u32,
) -> Option<u64>
    requires reader { IsReader store.now seat.old s }
    requires frame { frame < frame_count seat.old.view.limits }
    requires packed { IsPacked (packed_words seat.old.view s frame) }
    requires first { first ≡ address store.now.layout.limits (FrameWord frame 0) }
    requires slot { slot < 256 }
    ensures reader { IsReader store.now seat.new s }
    ensures skims { Skims seat.old.view seat.new.view s }
    ensures cell { (words : ℕ → ℕ) → HasInHand (knows seat.old.view s).pages.session frame words → (values : List ℕ) → Packs (packed_words seat.old.view s frame) values → slice_index values slot ≡ number_of (cell_in words (slice_index values slot) slot) → result ≡ cell_in words (slice_index values slot) slot }
{
    let number = value_from(store, seat, s, frame, first, slot);
    if number > 0 {
        return Some(number);
    }
    if is_null(store, seat, s, frame, slot) {
        None
    } else {
        Some(0)
    }
}

/// Whether the null bit of a slot is set, of the page in a frame that is in hand.
#[inline(never)]
fn is_null(store: &Store, seat: &mut Seat, s: u32, frame: u32, slot: u32) -> bool
    requires reader { IsReader store.now seat.old s }
    requires frame { frame < frame_count seat.old.view.limits }
    requires slot { slot < 256 }
    ensures reader { IsReader store.now seat.new s }
    ensures skims { Skims seat.old.view seat.new.view s }
    ensures same { knows seat.new.view s ≡ knows seat.old.view s }
    ensures null { (words : ℕ → ℕ) → HasInHand (knows seat.old.view s).pages.session frame words → result ≡ has_bit (words (null_place slot)) (null_bit slot) }
{
    let nulls = load_frame(store, seat, s, frame, FRAME_NULLS + slot / 64);
    is_bit(nulls, slot % 64)
}

/// Whether a bit of a word is set.
fn is_bit(word: u64, bit: u32) -> bool
    requires { bit < 64 }
    ensures { result ≡ has_bit word bit }
{
    (word >> bit) % 2 == 1
}

/// The value at a slot of the page in a frame that is in hand.
#[inline(always)]
pub(crate) fn value(store: &Store, seat: &mut Seat, s: u32, frame: u32, slot: u32) -> u64
    requires reader { IsReader store.now seat.old s }
    requires frame { frame < frame_count seat.old.view.limits }
    requires packed { IsPacked (packed_words seat.old.view s frame) }
    requires slot { slot < 256 }
    ensures reader { IsReader store.now seat.new s }
    ensures skims { Skims seat.old.view seat.new.view s }
    ensures same { knows seat.new.view s ≡ knows seat.old.view s }
    ensures value { (values : List ℕ) → Packs (packed_words seat.old.view s frame) values → result ≡ slice_index values slot }
{
    let first = store.layout().frames(frame, 0);
    value_from(store, seat, s, frame, first, slot)
}

/// The same of a frame whose first word has this address.
#[inline(always)]
fn value_from(store: &Store, seat: &mut Seat, s: u32, frame: u32, first: u64, slot: u32) -> u64
    requires reader { IsReader store.now seat.old s }
    requires frame { frame < frame_count seat.old.view.limits }
    requires packed { IsPacked (packed_words seat.old.view s frame) }
    requires first { first ≡ address store.now.layout.limits (FrameWord frame 0) }
    requires slot { slot < 256 }
    ensures reader { IsReader store.now seat.new s }
    ensures skims { Skims seat.old.view seat.new.view s }
    ensures same { knows seat.new.view s ≡ knows seat.old.view s }
    ensures value { (values : List ℕ) → Packs (packed_words seat.old.view s frame) values → result ≡ slice_index values slot }
{
    let mut words = Packed {
        store,
        seat,
        s,
        frame,
        first,
    };
    get_from(&mut words, slot)
}
