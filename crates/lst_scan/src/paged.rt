//! Sums and counts over the records of a range by the page of a column: of its words those are loaded that its form takes, and its time words by
//! one call, and the indirection words of the range by another. The page tells of each record whose newest version is at most its TPS, where the
//! entry's time is at most the begin. The other records are walked along their chains, without another look at the page.
ghost use Rattle.std.specs.Prelude.{◌≡◌, ℕ, ◌+◌, ◌*◌, ◌/◌, ◌%◌, ◌^◌, ◌<◌, ◌≤◌, ◌↔◌, List, IfSome, None, length, slice_index, true};
ghost use Rattle.lst_model.specs.Tables.{sum_of, count_of};
ghost use Rattle.lst_bits.specs.Times.{time_of};
ghost use Rattle.lst_layout.specs.Areas.{frame_count};
ghost use Rattle.lst_pack.specs.declared.forms.Form.{Form};
ghost use Rattle.lst_pack.specs.Forms.{Packs, IsPacked, form_word, form_words};
ghost use Rattle.lst_rule.specs.Rule.{knows};
ghost use Rattle.lst_rule.specs.Watching.{Watched};
ghost use Rattle.lst_walk.specs.Readers.{IsReader};
ghost use Rattle.lst_walk.specs.Packed.{Skims, packed_words};
ghost use Rattle.lst_scan.specs.Savings.{SavesPart, TellsFrame, TellsNone, TellsStamps};
ghost use Rattle.lst_scan.specs.Scans.{table_seen, Places, between};
ghost use Rattle.lst_scan.specs.Paged.{IsInHand, HasPage, HasValues, AddsAll, IsLastWord, entries_add};
ghost use Rattle.lst_kernel.specs.Entries.{is_seen};

use crate::records::tails_apart;
use lst_bits::unpack_head;
use lst_kernel::{count_where, sum_all, sum_where};
use lst_layout::FRAME_VALUES;
use lst_pack::unpack;
use lst_rule::{RecordId, Seat, Store, load_frame, load_heads, load_times, step_look_page};
use lst_walk::column_from;

/// The greatest number that half a word can be.
const LAST: u64 = u64::MAX / 2;

/// What a sum loads of a range, and makes of that. One serves range after range, since an array is cleared where it is made.
#[derive(Drop)]
pub(crate) struct Sheet {
    /// The packed words of a page.
    packed: [u64; 257],
    /// Its values, with 0 at the records that are walked.
    values: [u64; 256],
    /// Its time words, with 0 at the records that are walked.
    times: [u64; 256],
    /// The indirection words of the range.
    heads: [u64; 256],
}

impl Sheet {
    /// A sheet of zeros.
    pub(crate) fn blank() -> Self {
        Self {
            packed: [0; 257],
            values: [0; 256],
            times: [0; 256],
            heads: [0; 256],
        }
    }
}

/// The frame of the page of a range and a column, which is taken in hand. None comes where the session has no pin, and where no tail record
/// is merged into the page.
pub(crate) fn frame_of(store: &Store, seat: &mut Seat, s: u32, range: u32, c: u32) -> Option<u32>
    requires reader { IsReader store.now seat.old s }
    requires range { range < store.now.layout.limits.ranges }
    requires column { c < store.now.layout.limits.columns }
    ensures reader { IsReader store.now seat.new s }
    ensures skims { Skims seat.old.view seat.new.view s }
    ensures frame { IfSome result (λ frame. IsInHand seat.new.view s range c frame) }
    ensures told { IfSome result (λ frame. TellsFrame seat.new.view s range c frame) }
    ensures none { result ≡ None → TellsNone seat.new.view s range c }
{
    if seat.pinned(s).is_none() {
        return None;
    }
    let frame = step_look_page(store, seat, s, range, c) as u32;
    let tps = load_frame(store, seat, s, frame, 0);
    if tps > 0 { Some(frame) } else { None }
}

/// How many words a packed page takes, by its first word.
fn words_for(first: u64) -> u32
    requires form { (form : Form) × (first ≡ form_word form) × (form_words form ≤ 257) }
    ensures { (form : Form) → first ≡ form_word form → result ≡ form_words form }
{
    let number = (first / 8) as u32;
    match first % 8 {
        1 => 2,
        2 => 17 + number,
        3 => 1 + 2 * number,
        4 => 2 + 4 * number,
        _ => 257,
    }
}

/// Loads those packed words of a frame in hand that its form takes.
fn load_packed(store: &Store, seat: &mut Seat, s: u32, frame: u32, out: &mut [u64; 257])
    requires reader { IsReader store.now seat.old s }
    requires frame { frame < frame_count seat.old.view.limits }
    requires packed { IsPacked (packed_words seat.old.view s frame) }
    ensures reader { IsReader store.now seat.new s }
    ensures skims { Skims seat.old.view seat.new.view s }
    ensures same { knows seat.new.view s ≡ knows seat.old.view s }
    ensures packed { (values : List ℕ) → Packs (packed_words seat.old.view s frame) values → Packs out.new values }
{
    let first = load_frame(store, seat, s, frame, FRAME_VALUES);
    out[0] = first;
    for place in 1..words_for(first) {
        out[place as usize] = load_frame(store, seat, s, frame, FRAME_VALUES + place);
    }
}

/// Unpacks the values of the page in this frame, which is in hand, and loads its time words. Its TPS is given back.
fn open_page(
    store: &Store,
    seat: &mut Seat,
    s: u32,
    c: u32,
    range: u32,
    frame: u32,
    sheet: &mut Sheet,
) -> u64
    requires reader { IsReader store.now seat.old s }
    requires frame { IsInHand seat.old.view s range c frame }
    requires told { TellsFrame seat.old.view s range c frame }
    ensures reader { IsReader store.now seat.new s }
    ensures skims { Skims seat.old.view seat.new.view s }
    ensures told { TellsStamps seat.new.view s range c result sheet.new.times }
    ensures page { (page : HasPage seat.new.view s range c result sheet.new.times) × HasValues page sheet.new.values }
{
    seat.consider();
    load_packed(store, seat, s, frame, &mut sheet.packed);
    unpack(&sheet.packed, &mut sheet.values);
    let tps = load_frame(store, seat, s, frame, 0);
    load_times(store, seat, s, frame, &mut sheet.times);
    tps
}

/// The greatest word of which half is at most this number: whether a word's half is, a comparison with it tells alone.
fn last_word(half: u64) -> u64
    ensures { IsLastWord half result }
{
    half.min(LAST) * 2 + 1
}

/// Whether a page tells of a record, by its indirection word and the time word of its entry, with the last words that `last_word` gives for the page's TPS
/// and for the begin.
fn is_told(head: u64, stamp: u64, last_head: u64, last_stamp: u64) -> bool
    ensures { (tps : ℕ) (begin : ℕ) → IsLastWord tps last_head → IsLastWord begin last_stamp → (result ≡ true) ↔ ((head / 2 ≤ tps) × (time_of stamp ≤ begin)) }
{
    head <= last_head && stamp <= last_stamp
}

/// How many records are looked at between two branches.
const BLOCK: usize = 32;

/// What is known of records of a range once their indirection words and the time words of a page's entries were looked at.
#[derive(Clone, Copy)]
struct Survey {
    /// The page tells of all of them.
    all_told: bool,
    /// All entries that were looked at are present.
    all_present: bool,
}

/// Looks at the indirection words of a range and the time words of a page, with the last words that `last_word` gives for the page's TPS and for the begin.
/// No word is looked at behind the first block with a record that the page doesn't tell.
#[inline(never)]
fn surveyed(heads: &[u64; 256], times: &[u64; 256], last_head: u64, last_stamp: u64) -> Survey
    ensures told { (tps : ℕ) (begin : ℕ) → IsLastWord tps last_head → IsLastWord begin last_stamp → (result.all_told ≡ true) ↔ ((i : ℕ) → i < 256 → (slice_index heads.now i / 2 ≤ tps) × (time_of (slice_index times.now i) ≤ begin)) }
    ensures present { result.all_told ≡ true → (result.all_present ≡ true) ↔ ((i : ℕ) → i < 256 → slice_index times.now i % 2 ≡ 1) }
{
    let mut all_present = true;
    for block in 0..256 / BLOCK {
        let known = block_surveyed(heads, times, BLOCK * block, last_head, last_stamp);
        all_present &= known.all_present;
        if !known.all_told {
            return Survey {
                all_told: false,
                all_present,
            };
        }
    }
    Survey {
        all_told: true,
        all_present,
    }
}

/// Looks at those of the block from `start` on, without a branch, so at several at once.
fn block_surveyed(
    heads: &[u64; 256],
    times: &[u64; 256],
    start: usize,
    last_head: u64,
    last_stamp: u64,
) -> Survey
    requires inside { start + 32 ≤ 256 }
    ensures told { (tps : ℕ) (begin : ℕ) → IsLastWord tps last_head → IsLastWord begin last_stamp → (result.all_told ≡ true) ↔ ((i : ℕ) → start ≤ i → i < start + 32 → (slice_index heads.now i / 2 ≤ tps) × (time_of (slice_index times.now i) ≤ begin)) }
    ensures present { (result.all_present ≡ true) ↔ ((i : ℕ) → start ≤ i → i < start + 32 → slice_index times.now i % 2 ≡ 1) }
{
    let mut late = 0;
    let mut present = 1;
    for turn in 0..BLOCK {
        let slot = start + turn;
        let head = room_taken(heads[slot], last_head);
        let time = room_taken(times[slot], last_stamp);
        late |= head | time;
        present &= times[slot];
    }
    Survey {
        all_told: late <= LAST,
        all_present: present % 2 == 1,
    }
}

/// Half of a word, with the room added that half of the last word has below 2^63: a word behind the last one comes to 2^63 or more.
fn room_taken(word: u64, last: u64) -> u64
    ensures { (half : ℕ) → IsLastWord half last → (result < 2 ^ 63) ↔ (word / 2 ≤ half) }
{
    word / 2 + (LAST - last / 2)
}

/// Whether all entries of a page are present, by their time words.
fn are_present(times: &[u64; 256]) -> bool
    ensures { (result ≡ true) ↔ ((i : ℕ) → i < 256 → slice_index times.now i % 2 ≡ 1) }
{
    let mut present = 1;
    for slot in 0..256 {
        present &= times[slot];
    }
    present % 2 == 1
}

/// What a walk of the records that a page doesn't tell came to.
#[derive(Clone, Copy)]
struct Walked<N> {
    /// The sum over them, or their number.
    total: N,
    /// A reader sees each entry of the page but theirs.
    sees_others: bool,
}

/// The numbers of a column, 0 for null, added over the rows of one range, by the page in this frame, which is in hand.
pub(crate) fn sum_by_page(
    store: &Store,
    seat: &mut Seat,
    s: u32,
    c: u32,
    range: u32,
    frame: u32,
    sheet: &mut Sheet,
) -> u128
    requires reader { IsReader store.now seat.old s }
    requires range { range < store.now.layout.limits.ranges }
    requires column { c < store.now.layout.limits.columns }
    requires frame { IsInHand seat.old.view s range c frame }
    requires told { TellsFrame seat.old.view s range c frame }
    ensures reader { IsReader store.now seat.new s }
    ensures watched { Watched seat.old.view seat.new.view s }
    ensures sum { (place : ℕ → ℕ) → Places (knows seat.old.view s) place → result ≡ sum_of (between place (256 * range) (256 * (range + 1)) (table_seen (knows seat.old.view s))) c }
    ensures saves { SavesPart seat.old.view seat.new.view s c (256 * range) (256 * (range + 1)) }
    ensures few { result ≤ 2 ^ 73 }
{
    seat.consider();
    let tps = open_page(store, seat, s, c, range, frame, sheet);
    let walked = sum_untold(
        store,
        seat,
        s,
        c,
        range,
        tps,
        &mut sheet.heads,
        &mut sheet.times,
        &mut sheet.values,
    );
    with_entries(walked, &sheet.values, &sheet.times, seat.begin(s))
}

/// A sum, with that of the values of a page's entries that a reader sees who began at this time. Where the reader sees all but some, those have the value 0.
fn with_entries(walked: Walked<u128>, values: &[u64; 256], times: &[u64; 256], begin: u64) -> u128
    requires few { walked.total ≤ 2 ^ 72 }
    requires others { walked.sees_others ≡ true → AddsAll begin values.now times.now }
    ensures sum { result ≡ walked.total + entries_add begin (slice_index values.now) times.now 256 }
    ensures few { result ≤ 2 ^ 73 }
{
    let entries = if walked.sees_others {
        sum_all(values)
    } else {
        sum_where(values, times, begin)
    };
    walked.total + entries
}

/// The same over the rows of those records alone that the page doesn't tell, by its TPS and its time words. At the records that are walked the time words
/// and the values become 0. The indirection words of the range are loaded into `heads`.
fn sum_untold(
    store: &Store,
    seat: &mut Seat,
    s: u32,
    c: u32,
    range: u32,
    tps: u64,
    heads: &mut [u64; 256],
    times: &mut [u64; 256],
    values: &mut [u64; 256],
) -> Walked<u128>
    requires reader { IsReader store.now seat.old s }
    requires range { range < store.now.layout.limits.ranges }
    requires column { c < store.now.layout.limits.columns }
    requires page { HasPage seat.old.view s range c tps times.old }
    requires told { TellsStamps seat.old.view s range c tps times.old }
    ensures reader { IsReader store.now seat.new s }
    ensures watched { Watched seat.old.view seat.new.view s }
    ensures sum { (page : HasPage seat.old.view s range c tps times.old) → HasValues page values.old → (place : ℕ → ℕ) → Places (knows seat.old.view s) place → result.total + entries_add (knows seat.old.view s).begin (slice_index values.new) times.new 256 ≡ sum_of (between place (256 * range) (256 * range + 256) (table_seen (knows seat.old.view s))) c }
    ensures saves { SavesPart seat.old.view seat.new.view s c (256 * range) (256 * range + 256) }
    ensures others { result.sees_others ≡ true → AddsAll (knows seat.old.view s).begin values.new times.new }
    ensures present { ((i : ℕ) → i < 256 → slice_index times.old i % 2 ≡ 1) → result.sees_others ≡ true }
    ensures few { result.total ≤ 2 ^ 72 }
{
    seat.consider();
    load_heads(store, seat, s, range, heads);
    let begin = seat.begin(s);
    let last_head = last_word(tps);
    let last_stamp = last_word(begin);
    let known = surveyed(heads, times, last_head, last_stamp);
    if known.all_told {
        return Walked {
            total: 0,
            sees_others: known.all_present,
        };
    }
    let all_present = are_present(times);
    let tails = tails_apart(store, range);
    let mut total: u128 = 0;
    for slot in 0..256 {
        if !is_told(
            heads[slot as usize],
            times[slot as usize],
            last_head,
            last_stamp,
        ) {
            times[slot as usize] = 0;
            values[slot as usize] = 0;
            let rec = RecordId {
                number: 256 * range + slot,
            };
            let newest = unpack_head(heads[slot as usize]).0;
            let found = column_from(store, seat, s, rec, newest, tails, begin, c);
            total += u128::from(found.unwrap_or(0));
        }
    }
    Walked {
        total,
        sees_others: all_present,
    }
}

/// The number of rows of one range, by the page of the first column in this frame, which is in hand. Its time words are loaded into `times`, and
/// the indirection words of the range into `heads`.
pub(crate) fn count_by_page(
    store: &Store,
    seat: &mut Seat,
    s: u32,
    range: u32,
    frame: u32,
    heads: &mut [u64; 256],
    times: &mut [u64; 256],
) -> u64
    requires reader { IsReader store.now seat.old s }
    requires range { range < store.now.layout.limits.ranges }
    requires frame { IsInHand seat.old.view s range 0 frame }
    requires told { TellsFrame seat.old.view s range 0 frame }
    ensures reader { IsReader store.now seat.new s }
    ensures watched { Watched seat.old.view seat.new.view s }
    ensures saves { SavesPart seat.old.view seat.new.view s 0 (256 * range) (256 * (range + 1)) }
    ensures count { (place : ℕ → ℕ) → Places (knows seat.old.view s) place → result ≡ count_of (between place (256 * range) (256 * (range + 1)) (table_seen (knows seat.old.view s))) }
    ensures few { result ≤ 512 }
{
    seat.consider();
    let tps = load_frame(store, seat, s, frame, 0);
    load_times(store, seat, s, frame, times);
    let walked = count_untold(store, seat, s, range, tps, heads, times);
    with_rows(walked, times, seat.begin(s))
}

/// A count, with that of a page's entries that a reader sees who began at this time.
fn with_rows(walked: Walked<u64>, times: &[u64; 256], begin: u64) -> u64
    requires few { walked.total ≤ 256 }
    requires others { walked.sees_others ≡ true → (i : ℕ) → i < 256 → is_seen begin (slice_index times.now i) ≡ true }
    ensures rows { result ≡ walked.total + entries_add begin (λ slot. 1) times.now 256 }
    ensures few { result ≤ 512 }
{
    let entries = if walked.sees_others {
        256
    } else {
        u64::from(count_where(times, begin))
    };
    walked.total + entries
}

/// The number of rows on those records alone that the page doesn't tell, by its TPS and its time words. At the records that are walked the time
/// words become 0. The indirection words of the range are loaded into `heads`.
fn count_untold(
    store: &Store,
    seat: &mut Seat,
    s: u32,
    range: u32,
    tps: u64,
    heads: &mut [u64; 256],
    times: &mut [u64; 256],
) -> Walked<u64>
    requires reader { IsReader store.now seat.old s }
    requires range { range < store.now.layout.limits.ranges }
    requires page { HasPage seat.old.view s range 0 tps times.old }
    requires told { TellsStamps seat.old.view s range 0 tps times.old }
    ensures reader { IsReader store.now seat.new s }
    ensures watched { Watched seat.old.view seat.new.view s }
    ensures saves { SavesPart seat.old.view seat.new.view s 0 (256 * range) (256 * range + 256) }
    ensures count { (place : ℕ → ℕ) → Places (knows seat.old.view s) place → result.total + entries_add (knows seat.old.view s).begin (λ slot. 1) times.new 256 ≡ count_of (between place (256 * range) (256 * range + 256) (table_seen (knows seat.old.view s))) }
    ensures others { result.sees_others ≡ true → (i : ℕ) → i < 256 → is_seen (knows seat.old.view s).begin (slice_index times.new i) ≡ true }
    ensures few { result.total ≤ 256 }
{
    seat.consider();
    load_heads(store, seat, s, range, heads);
    let begin = seat.begin(s);
    let last_head = last_word(tps);
    let last_stamp = last_word(begin);
    let known = surveyed(heads, times, last_head, last_stamp);
    if known.all_told {
        return Walked {
            total: 0,
            sees_others: known.all_present,
        };
    }
    let tails = tails_apart(store, range);
    let mut total: u64 = 0;
    for slot in 0..256 {
        if !is_told(
            heads[slot as usize],
            times[slot as usize],
            last_head,
            last_stamp,
        ) {
            times[slot as usize] = 0;
            let rec = RecordId {
                number: 256 * range + slot,
            };
            let newest = unpack_head(heads[slot as usize]).0;
            if column_from(store, seat, s, rec, newest, tails, begin, 0).is_some() {
                total += 1;
            }
        }
    }
    Walked {
        total,
        sees_others: false,
    }
}
