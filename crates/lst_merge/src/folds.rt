//! Tails folded into a page in hand.
ghost use Rattle.std.specs.Prelude.{◌≡◌, ◌+◌, ◌*◌, ◌<◌, ◌≤◌, ◌^◌, true, slice_index};
ghost use Rattle.lst_pages.specs.Sound.{IsPage};
ghost use Rattle.lst_pages.specs.declared.tails.PageTail.{PageTail};
ghost use Rattle.lst_rule.specs.Rule.{hosts};
ghost use Rattle.lst_rule.specs.Stores.{IsSeatOf};
ghost use Rattle.lst_merge.specs.Inspections.{merger_of, Inspects};
ghost use Rattle.lst_merge.specs.Runs.{KnowsSettled, HasSettled, SettledAt, AreSettled};
ghost use Rattle.lst_merge.specs.Pages.{entry_of, AreNumbers, Folds, FoldsRun};
ghost use Rattle.lst_merge.specs.Tails.{IsTail};

use crate::entries::put_entry;
use crate::runs::Run;
use crate::tails::{Tail, encoding_of, number_in, tail_at, time_of};
use lst_bits::{Kind, has_column};
use lst_layout::FRAME_WORDS;
use lst_pages::Entry;
use lst_rule::{Seat, Store};

const WORDS: usize = FRAME_WORDS as usize;

/// Folds the tails of a run into a page in hand of a column, one after another.
pub(crate) fn fold_run(
    store: &Store,
    seat: &mut Seat,
    range: u32,
    column: u32,
    run: &Run,
    words: &mut [u64; WORDS],
    values: &mut [u64; 256],
)
    requires seat { IsSeatOf store.now seat.old }
    requires host { hosts seat.old.view seat.old.view.limits.sessions ≡ true }
    requires page { IsPage seat.old.view.limits range column }
    requires from { run.now.tps ≤ run.now.end }
    requires few { run.now.end ≤ seat.old.view.limits.tails }
    requires settled { AreSettled seat.old.view.limits (merger_of seat.old.view) range run.now.tps run.now.end }
    requires numbers { AreNumbers (slice_index words.old) values.old }
    ensures seat { IsSeatOf store.now seat.new }
    ensures inspects { Inspects seat.old.view seat.new.view seat.old.view.limits.sessions }
    ensures folds { FoldsRun seat.old.view.limits (merger_of seat.new.view) range column run.now.tps run.now.end (entry_of (slice_index words.old) values.old) (entry_of (slice_index words.new) values.new) }
    ensures numbers { AreNumbers (slice_index words.new) values.new }
{
    let layout = *store.layout();
    let mut number = run.tps;
    while number < run.end {
        number += 1;
        let tail = tail_at(&layout, range, number);
        fold_tail(store, seat, tail, column, words, values);
    }
}

/// Folds a settled tail into a page in hand of a column.
#[inline(always)]
fn fold_tail(
    store: &Store,
    seat: &mut Seat,
    tail: Tail,
    column: u32,
    words: &mut [u64; WORDS],
    values: &mut [u64; 256],
)
    requires seat { IsSeatOf store.now seat.old }
    requires host { hosts seat.old.view seat.old.view.limits.sessions ≡ true }
    requires tail { IsTail store.now.layout.limits tail }
    requires column { column < store.now.layout.limits.columns }
    requires settled { HasSettled (merger_of seat.old.view) tail.identifier }
    requires numbers { AreNumbers (slice_index words.old) values.old }
    ensures seat { IsSeatOf store.now seat.new }
    ensures inspects { Inspects seat.old.view seat.new.view seat.old.view.limits.sessions }
    ensures folds { (t : PageTail) → KnowsSettled (merger_of seat.old.view) tail.identifier t → Folds column t (entry_of (slice_index words.old) values.old) (entry_of (slice_index words.new) values.new) }
    ensures numbers { AreNumbers (slice_index words.new) values.new }
{
    let Some(time) = time_of(store, seat, tail) else {
        unreachable!()
    };
    seat.consider();
    if time > 0 {
        fold_committed(store, seat, tail, time, column, words, values);
    }
}

/// Folds a tail that was committed at this time into a page in hand of a column.
#[inline(always)]
fn fold_committed(
    store: &Store,
    seat: &mut Seat,
    tail: Tail,
    time: u64,
    column: u32,
    words: &mut [u64; WORDS],
    values: &mut [u64; 256],
)
    requires seat { IsSeatOf store.now seat.old }
    requires host { hosts seat.old.view seat.old.view.limits.sessions ≡ true }
    requires tail { IsTail store.now.layout.limits tail }
    requires column { column < store.now.layout.limits.columns }
    requires time { (0 < time) × (time < 2 ^ 63) }
    requires settled { SettledAt (merger_of seat.old.view) tail.identifier time }
    requires numbers { AreNumbers (slice_index words.old) values.old }
    ensures seat { IsSeatOf store.now seat.new }
    ensures inspects { Inspects seat.old.view seat.new.view seat.old.view.limits.sessions }
    ensures folds { (t : PageTail) → KnowsSettled (merger_of seat.old.view) tail.identifier t → Folds column t (entry_of (slice_index words.old) values.old) (entry_of (slice_index words.new) values.new) }
    ensures numbers { AreNumbers (slice_index words.new) values.new }
{
    seat.consider();
    let encoding = encoding_of(store, seat, tail);
    let slot = encoding.slot as usize;
    if !has_column(encoding.mask, column) {
        match encoding.kind {
            Kind::Del => put_entry(words, values, slot, Entry { cell: None, time }),
            Kind::Put | Kind::Set => {}
        }
    } else if has_column(encoding.nulls, column) {
        seat.consider();
        let cell = Some(None);
        put_entry(words, values, slot, Entry { cell, time });
    } else {
        let number = number_in(store, seat, tail, encoding, column);
        let cell = Some(Some(number));
        put_entry(words, values, slot, Entry { cell, time });
    }
}
