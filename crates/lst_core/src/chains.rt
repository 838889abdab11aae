//! The versions of a record, read off the words of a sound state.
ghost use Rattle.std.specs.Prelude.{◌≡◌, ◌⊎◌, ◌≢◌, ℕ, ◌+◌, ◌-◌, ◌*◌, ◌/◌, ◌%◌, ◌<◌, ◌≤◌, length, slice_index, ◌↔◌, IsTrue, None, not, eqb};
ghost use Rattle.lst_layout.specs.Addresses as addresses;
ghost use Rattle.lst_layout.specs.Areas.{words_of};
ghost use Rattle.lst_layout.specs.Words.{shown};
ghost use Rattle.lst_layout.specs.declared.place.Place.TheVariants.{StateWord};
ghost use Rattle.lst_model.specs.Histories.{row_from};
ghost use Rattle.lst_core_state.specs.Lists.{Judged, acts};
ghost use Rattle.lst_core_state.specs.Cells.{tail_count, record_count};
ghost use Rattle.lst_core_state.specs.State.{entry, writer_at, state_at, line, head_of, back_in, act_in};
ghost use Rattle.lst_core_state.specs.Step.{IsCommitted};
ghost use Rattle.lst_core.specs.Reading.{IsRead, IsPresent};

use crate::reads::{cell, clock, head, log, state};
use lst_layout::Layout;

/// The name of the transaction that stored a tail.
pub(crate) fn writer(layout: &Layout, words: &[u64], tail: u32) -> u64
    requires read { IsRead layout.now.limits words.now }
    requires tail { (0 < tail) × (tail ≤ tail_count layout.now.limits) }
    requires stored { 0 < (shown layout.now.limits words.now).cells tail 0 }
    ensures writer { result ≡ writer_at (shown layout.now.limits words.now) tail }
    ensures within { addresses.IsWithin layout.now.limits (StateWord (result % 16) (result / 16)) }
{
    let start = cell(layout, words, tail, 0);
    if start % 2 == 1 {
        start / 2
    } else {
        log(layout, words, start / 2)
    }
}

/// The state word of the transaction of this name.
pub(crate) fn state_of(layout: &Layout, words: &[u64], name: u64) -> u64
    requires wide { length words.now ≡ words_of layout.now.limits }
    requires within { addresses.IsWithin layout.now.limits (StateWord (name % 16) (name / 16)) }
    ensures { result ≡ entry (shown layout.now.limits words.now).states name }
{
    state(layout, words, (name % 16) as u32, (name / 16) as u32)
}

/// Whether a tail is stored and its transaction is committed by the clock.
pub(crate) fn is_committed(layout: &Layout, words: &[u64], tail: u32) -> bool
    requires read { IsRead layout.now.limits words.now }
    requires tail { (0 < tail) × (tail ≤ tail_count layout.now.limits) }
    ensures { IsTrue result ↔ IsCommitted (shown layout.now.limits words.now) tail }
{
    if cell(layout, words, tail, 0) == 0 {
        return false;
    }
    let state = state_of(layout, words, writer(layout, words, tail));
    1 < state && state - 1 <= clock(layout, words)
}

/// The newest tail of a record, or 0.
pub(crate) fn newest(layout: &Layout, words: &[u64], rec: u32) -> u32
    requires read { IsRead layout.now.limits words.now }
    requires rec { rec < record_count layout.now.limits }
    ensures { result ≡ head_of layout.now.limits rec ((shown layout.now.limits words.now).heads rec) }
{
    let number = head(layout, words, rec) / 2;
    if number == 0 {
        0
    } else {
        ((rec / 256 * layout.limits.tails) as u64 + number) as u32
    }
}

/// The tail before a tail of a chain, or 0.
pub(crate) fn older(layout: &Layout, words: &[u64], tail: u32) -> u32
    requires wide { length words.now ≡ words_of layout.now.limits }
    requires tail { (0 < tail) × (tail ≤ tail_count layout.now.limits) }
    requires falls { back_in layout.now.limits (shown layout.now.limits words.now).cells tail < tail }
    ensures { result ≡ back_in layout.now.limits (shown layout.now.limits words.now).cells tail }
{
    let number = cell(layout, words, tail, 2);
    if number == 0 {
        0
    } else {
        (((tail - 1) / layout.limits.tails * layout.limits.tails) as u64 + number) as u32
    }
}

/// Whether a version of the transaction `name` may lie under one of the transaction `own` with this begin.
fn is_under(name: u64, own: u64, state: u64, begin: u64) -> bool
    ensures { IsTrue result ↔ (name ≡ own) ⊎ ((1 < state) × (state ≤ begin + 1)) }
{
    name == own || (1 < state && state - 1 <= begin)
}

/// Whether the first version of the record's chain that isn't closed is of the transaction of this name, or was committed
/// by its begin.
pub(crate) fn is_judged(layout: &Layout, words: &[u64], own: u64, begin: u64, rec: u32) -> bool
    requires read { IsRead layout.now.limits words.now }
    requires rec { rec < record_count layout.now.limits }
    requires begin { entry (shown layout.now.limits words.now).begins own ≡ begin + 1 }
    ensures { IsTrue result ↔ Judged (entry (shown layout.now.limits words.now).states) (entry (shown layout.now.limits words.now).begins) (writer_at (shown layout.now.limits words.now)) own (line layout.now.limits (shown layout.now.limits words.now) rec) }
{
    let mut tail = newest(layout, words, rec);
    while tail > 0 {
        let name = writer(layout, words, tail);
        let state = state_of(layout, words, name);
        if state != 1 {
            return is_under(name, own, state, begin);
        }
        tail = older(layout, words, tail);
    }
    true
}

/// Whether the record's versions that aren't closed leave a row.
pub(crate) fn has_row(layout: &Layout, words: &[u64], rec: u32) -> bool
    requires read { IsRead layout.now.limits words.now }
    requires rec { rec < record_count layout.now.limits }
    ensures { IsTrue result ↔ IsPresent (row_from None (acts (λ t. not (eqb (state_at (shown layout.now.limits words.now) t) 1)) (act_in layout.now.limits (shown layout.now.limits words.now).cells) (line layout.now.limits (shown layout.now.limits words.now) rec))) }
{
    let mut tail = newest(layout, words, rec);
    while tail > 0 {
        let state = state_of(layout, words, writer(layout, words, tail));
        if state != 1 {
            return cell(layout, words, tail, 1) / 256 % 256 != 3;
        }
        tail = older(layout, words, tail);
    }
    false
}
