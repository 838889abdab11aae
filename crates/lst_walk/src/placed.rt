//! The words of versions by the address of the first of them, which is made up once a version.
ghost use Rattle.std.specs.Prelude.{◌≡◌, ◌⊎◌, ℕ, ◌+◌, ◌*◌, ◌/◌, ◌%◌, ◌<◌, ◌≤◌, slice_index, true, IfSome, None, nat_le};
ghost use Rattle.lst_layout.specs.declared.place.Place.TheVariants.{CellWord};
ghost use Rattle.lst_layout.specs.Addresses.{address};
ghost use Rattle.lst_layout.specs.Areas.{cell_words};
ghost use Rattle.lst_core_state.specs.Cells.{act_with, nulls_of};
ghost use Rattle.lst_rule.specs.Rule.{knows, hosts};
ghost use Rattle.lst_rule.specs.Stores.{IsSeatOf};
ghost use Rattle.lst_rule.specs.Copies.{Version, IsLinked};
ghost use Rattle.lst_rule.specs.Seen.{act_by, sees};
ghost use Rattle.lst_rule.specs.Loads.{WordFound, IsBack};
ghost use Rattle.lst_rule.specs.Watching.{Watched};
ghost use Rattle.lst_rule.specs.TailLoads.{LoadsTail};
ghost use Rattle.lst_walk.specs.Readers.{IsReader, IsAt, HasVersion, Resolves};
ghost use Rattle.lst_walk.specs.Stamping.{sees_by, TimedAs};
ghost use Rattle.lst_walk.specs.Chains.{AreTailsOf};
ghost use Rattle.lst_bits.specs.Encodings.{kind_code, encoding_of};
ghost use Rattle.lst_model.specs.Cells.{cell_of, cells_of};

use crate::stamps::{is_seen_at, unstamped};
use lst_bits::{Encoding, has_column, unpack_encoding};
use lst_rule::{Resolution, Seat, Store, load_cell_from, resolve_from, step_stamp, tail_of};

/// The address of the first word of a range's tail record, which has this number from 1 on.
#[inline(always)]
pub(crate) fn first_word(store: &Store, range: u32, number: u32) -> u64
    requires range { range < store.now.layout.limits.ranges }
    requires number { (0 < number) × (number ≤ store.now.layout.limits.tails) }
    ensures { result ≡ address store.now.layout.limits (CellWord (range * store.now.layout.limits.tails + number) 0) }
{
    store
        .layout()
        .cell_address(tail_of(store, range, number), 0)
}

/// Where the tail records of a range stand.
#[derive(Clone, Copy)]
pub struct TailPlaces {
    /// The address of the first word of the first one.
    pub start: u64,
    /// How many words each has.
    pub words: u64,
}

/// Where the tail records of a range stand, for walks that make no address up anew (`column_from`).
#[inline(always)]
pub fn tails_of(store: &Store, range: u32) -> TailPlaces
    requires { range < store.now.layout.limits.ranges }
    ensures { AreTailsOf store.now.layout.limits range result }
{
    TailPlaces {
        start: first_word(store, range, 1),
        words: store.layout().limits.cell_words(),
    }
}

/// What `first_word` answers, by the address of the first word of the range's first tail record, and by how many words each has.
#[inline(always)]
pub(crate) fn first_after(store: &Store, range: u32, number: u32, start: u64, words: u64) -> u64
    requires range { range < store.now.layout.limits.ranges }
    requires number { (0 < number) × (number ≤ store.now.layout.limits.tails) }
    requires start { start ≡ address store.now.layout.limits (CellWord (range * store.now.layout.limits.tails + 1) 0) }
    requires words { words ≡ cell_words store.now.layout.limits }
    ensures { result ≡ address store.now.layout.limits (CellWord (range * store.now.layout.limits.tails + number) 0) }
{
    let _ = range;
    later(store.layout().words, start, (number as u64 - 1) * words)
}

/// The address so many words after another one, in a store of so many words.
#[inline(always)]
fn later(most: u64, start: u64, passed: u64) -> u64
    requires { start + passed < most }
    ensures { result ≡ start + passed }
{
    let _ = most;
    start + passed
}

/// A word of a version, not its start word. The tail record's first word has the address `first`.
#[inline(always)]
pub(crate) fn word_from(
    store: &Store,
    seat: &mut Seat,
    s: u32,
    tail: u32,
    first: u64,
    place: u32,
) -> u64
    requires reader { IsReader store.now seat.old s }
    requires version { HasVersion seat.old.view s tail }
    requires first { first ≡ address store.now.layout.limits (CellWord tail 0) }
    requires place { (0 < place) × (place < 3 + store.now.layout.limits.columns) }
    ensures reader { IsReader store.now seat.new s }
    ensures watched { Watched seat.old.view seat.new.view s }
    ensures loads { LoadsTail seat.old.view seat.new.view s tail }
    ensures word { (c : Version) → IsAt seat.old.view s tail c → WordFound store.now.layout.limits c place result }
{
    load_cell_from(store, seat, s, tail, first, place)
}

/// What a version does, by its encoding word. The tail record's first word has the address `first`.
#[inline(always)]
pub(crate) fn encoding_from(
    store: &Store,
    seat: &mut Seat,
    s: u32,
    tail: u32,
    first: u64,
) -> Encoding
    requires reader { IsReader store.now seat.old s }
    requires version { HasVersion seat.old.view s tail }
    requires first { first ≡ address store.now.layout.limits (CellWord tail 0) }
    ensures reader { IsReader store.now seat.new s }
    ensures watched { Watched seat.old.view seat.new.view s }
    ensures loads { LoadsTail seat.old.view seat.new.view s tail }
    ensures act { (c : Version) → IsAt seat.old.view s tail c → act_by c ≡ act_with (kind_code result.kind) result.mask (cells_of result.nulls 0 c.values) }
    ensures nulls { (c : Version) → IsAt seat.old.view s tail c → result.nulls ≡ nulls_of c.encoding }
    ensures is { (c : Version) → IsAt seat.old.view s tail c → result ≡ encoding_of c.encoding }
{
    unpack_encoding(word_from(store, seat, s, tail, first, 1))
}

/// The value word of a column of a version. The tail record's first word has the address `first`.
#[inline(always)]
pub(crate) fn value_from(
    store: &Store,
    seat: &mut Seat,
    s: u32,
    tail: u32,
    first: u64,
    column: u32,
) -> u64
    requires reader { IsReader store.now seat.old s }
    requires version { HasVersion seat.old.view s tail }
    requires first { first ≡ address store.now.layout.limits (CellWord tail 0) }
    requires column { column < store.now.layout.limits.columns }
    ensures reader { IsReader store.now seat.new s }
    ensures watched { Watched seat.old.view seat.new.view s }
    ensures loads { LoadsTail seat.old.view seat.new.view s tail }
    ensures value { (c : Version) → IsAt seat.old.view s tail c → result ≡ slice_index c.values column }
{
    word_from(store, seat, s, tail, first, 3 + column)
}

/// The cell of a column of a version, under the bits of its null columns: a null's value word isn't loaded. The tail record's first word has the address
/// `first`.
pub(crate) fn cell_from(
    store: &Store,
    seat: &mut Seat,
    s: u32,
    tail: u32,
    first: u64,
    nulls: u8,
    column: u32,
) -> Option<u64>
    requires reader { IsReader store.now seat.old s }
    requires version { HasVersion seat.old.view s tail }
    requires first { first ≡ address store.now.layout.limits (CellWord tail 0) }
    requires column { column < store.now.layout.limits.columns }
    ensures reader { IsReader store.now seat.new s }
    ensures watched { Watched seat.old.view seat.new.view s }
    ensures loads { LoadsTail seat.old.view seat.new.view s tail }
    ensures cell { (c : Version) → IsAt seat.old.view s tail c → result ≡ cell_of nulls column (slice_index c.values column) }
{
    if has_column(nulls, column) {
        None
    } else {
        Some(value_from(store, seat, s, tail, first, column))
    }
}

/// The number in its range of the version below one, or 0. Does what `version_below` does, without making the address up anew.
#[inline(always)]
pub(crate) fn below_from(store: &Store, seat: &mut Seat, s: u32, tail: u32, first: u64) -> u32
    requires seat { IsSeatOf store.now seat.old }
    requires host { hosts seat.old.view s ≡ true }
    requires version { IsLinked seat.old.view.limits (knows seat.old.view s).facts tail }
    requires first { first ≡ address store.now.layout.limits (CellWord tail 0) }
    ensures seat { IsSeatOf store.now seat.new }
    ensures watched { Watched seat.old.view seat.new.view s }
    ensures loads { LoadsTail seat.old.view seat.new.view s tail }
    ensures back { IsBack seat.old.view.limits (knows seat.old.view s).facts tail result }
{
    load_cell_from(store, seat, s, tail, first, 2) as u32
}

/// Whether the open transaction sees a version of a range, by the number of its tail record. It stamps the version where it finds it
/// committed. The tail record's first word has the address `first`.
#[inline(always)]
pub(crate) fn is_seen_from(
    store: &Store,
    seat: &mut Seat,
    s: u32,
    range: u32,
    tail: u32,
    first: u64,
) -> bool
    requires reader { IsReader store.now seat.old s }
    requires range { range < store.now.layout.limits.ranges }
    requires tail { (0 < tail) × (tail ≤ store.now.layout.limits.tails) }
    requires version { HasVersion seat.old.view s (range * store.now.layout.limits.tails + tail) }
    requires first { first ≡ address store.now.layout.limits (CellWord (range * store.now.layout.limits.tails + tail) 0) }
    ensures reader { IsReader store.now seat.new s }
    ensures watched { Watched seat.old.view seat.new.view s }
    ensures loads { LoadsTail seat.old.view seat.new.view s (range * store.now.layout.limits.tails + tail) }
    ensures seen { (c : Version) → IsAt seat.old.view s (range * store.now.layout.limits.tails + tail) c → result ≡ sees (knows seat.old.view s) s c.writer }
    ensures resolved { Resolves seat.old.view seat.new.view s range tail }
{
    seat.consider();
    match time_from(store, seat, s, range, tail, first) {
        Some(time) => time <= seat.begin(s),
        None => is_seen_untimed(store, seat, s, range, tail, first),
    }
}

/// The same of a version whose start word was found without a time. The word is loaded anew. Apart, since most versions have their times.
#[inline(never)]
fn is_seen_untimed(
    store: &Store,
    seat: &mut Seat,
    s: u32,
    range: u32,
    tail: u32,
    first: u64,
) -> bool
    requires reader { IsReader store.now seat.old s }
    requires range { range < store.now.layout.limits.ranges }
    requires tail { (0 < tail) × (tail ≤ store.now.layout.limits.tails) }
    requires version { HasVersion seat.old.view s (range * store.now.layout.limits.tails + tail) }
    requires first { first ≡ address store.now.layout.limits (CellWord (range * store.now.layout.limits.tails + tail) 0) }
    ensures reader { IsReader store.now seat.new s }
    ensures watched { Watched seat.old.view seat.new.view s }
    ensures loads { LoadsTail seat.old.view seat.new.view s (range * store.now.layout.limits.tails + tail) }
    ensures seen { (c : Version) → IsAt seat.old.view s (range * store.now.layout.limits.tails + tail) c → result ≡ sees (knows seat.old.view s) s c.writer }
    ensures resolved { Resolves seat.old.view seat.new.view s range tail }
{
    let found = resolve_stamped_from(store, seat, s, range, tail, first);
    is_seen_at(found, seat.begin(s))
}

/// The commit time in the start word of a range's version, by the number of its tail record, or None where the word has none. The tail record's first word
/// has the address `first`.
#[inline(always)]
fn time_from(
    store: &Store,
    seat: &mut Seat,
    s: u32,
    range: u32,
    tail: u32,
    first: u64,
) -> Option<u64>
    requires reader { IsReader store.now seat.old s }
    requires range { range < store.now.layout.limits.ranges }
    requires tail { (0 < tail) × (tail ≤ store.now.layout.limits.tails) }
    requires first { first ≡ address store.now.layout.limits (CellWord (range * store.now.layout.limits.tails + tail) 0) }
    ensures reader { IsReader store.now seat.new s }
    ensures watched { Watched seat.old.view seat.new.view s }
    ensures loads { LoadsTail seat.old.view seat.new.view s (range * store.now.layout.limits.tails + tail) }
    ensures seen { (c : Version) → IsAt seat.old.view s (range * store.now.layout.limits.tails + tail) c → IfSome result (λ time. nat_le time (knows seat.new.view s).begin ≡ sees (knows seat.old.view s) s c.writer) }
    ensures resolved { IfSome result (λ time. Resolves seat.old.view seat.new.view s range tail) }
{
    let start = load_cell_from(store, seat, s, tail_of(store, range, tail), first, 0);
    seat.consider();
    time_in(start)
}

/// Whether a version's start word has a commit time of at most the open transaction's begin, which sees the version then. No says nothing of it. The tail
/// record's first word has the address `first`.
#[inline(always)]
pub(crate) fn is_seen_early(
    store: &Store,
    seat: &mut Seat,
    s: u32,
    range: u32,
    tail: u32,
    first: u64,
    begin: u64,
) -> bool
    requires reader { IsReader store.now seat.old s }
    requires range { range < store.now.layout.limits.ranges }
    requires tail { (0 < tail) × (tail ≤ store.now.layout.limits.tails) }
    requires first { first ≡ address store.now.layout.limits (CellWord (range * store.now.layout.limits.tails + tail) 0) }
    requires begin { begin ≡ (knows seat.old.view s).begin }
    ensures reader { IsReader store.now seat.new s }
    ensures watched { Watched seat.old.view seat.new.view s }
    ensures loads { LoadsTail seat.old.view seat.new.view s (range * store.now.layout.limits.tails + tail) }
    ensures seen { result ≡ true → (c : Version) → IsAt seat.old.view s (range * store.now.layout.limits.tails + tail) c → sees (knows seat.old.view s) s c.writer ≡ true }
    ensures resolved { result ≡ true → Resolves seat.old.view seat.new.view s range tail }
{
    let start = load_cell_from(store, seat, s, tail_of(store, range, tail), first, 0);
    seat.consider();
    is_time_until(start, begin)
}

/// Whether a start word has a time that is at most this one.
#[inline(always)]
fn is_time_until(start: u64, begin: u64) -> bool
    ensures { result ≡ true → (0 < start / 2) × (start ≡ 2 * (start / 2)) × (start / 2 ≤ begin) }
{
    start % 2 == 0 && (start / 2).wrapping_sub(1) < begin
}

/// The time that a start word has.
#[inline(always)]
fn time_in(start: u64) -> Option<u64>
    ensures some { IfSome result (λ time. (0 < time) × (start ≡ 2 * time)) }
    ensures none { result ≡ None → (start ≡ 0) ⊎ (start % 2 ≡ 1) }
{
    if start % 2 == 0 && start > 0 {
        Some(start / 2)
    } else {
        None
    }
}

/// How a version of a range stands to the open transaction. Where its transaction is found committed, and the start word has no time yet, the time is
/// stored there. The tail record's first word has the address `first`.
#[inline(always)]
pub(crate) fn resolve_stamped_from(
    store: &Store,
    seat: &mut Seat,
    s: u32,
    range: u32,
    tail: u32,
    first: u64,
) -> Resolution
    requires reader { IsReader store.now seat.old s }
    requires range { range < store.now.layout.limits.ranges }
    requires tail { (0 < tail) × (tail ≤ store.now.layout.limits.tails) }
    requires first { first ≡ address store.now.layout.limits (CellWord (range * store.now.layout.limits.tails + tail) 0) }
    ensures reader { IsReader store.now seat.new s }
    ensures watched { Watched seat.old.view seat.new.view s }
    ensures loads { LoadsTail seat.old.view seat.new.view s (range * store.now.layout.limits.tails + tail) }
    ensures timed { TimedAs seat.old.view seat.new.view s range tail result }
    ensures seen { (c : Version) → IsAt seat.old.view s (range * store.now.layout.limits.tails + tail) c → sees_by (knows seat.new.view s).begin result ≡ sees (knows seat.old.view s) s c.writer }
{
    let found = resolve_from(store, seat, s, tail_of(store, range, tail), first);
    seat.consider();
    if let Some(time) = unstamped(found) {
        step_stamp(store, seat, s, range, tail, time);
        return found;
    }
    found
}
