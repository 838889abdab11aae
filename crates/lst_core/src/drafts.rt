//! The words of a tail in hand.
ghost use Rattle.std.specs.Prelude.{◌≡◌, ◌⊎◌, ℕ, ◌+◌, ◌-◌, ◌*◌, ◌/◌, ◌%◌, ◌^◌, ◌<◌, ◌≤◌, length, ◌↔◌, IsTrue, true, false};
ghost use Rattle.lst_layout.specs.Areas.{words_of};
ghost use Rattle.lst_layout.specs.Words.{shown};
ghost use Rattle.lst_core_state.specs.Cells.{record_count, tail_count, has_bit, kind_of, mask_of, slot_of, nulls_of, IsColumn, IsCell};
ghost use Rattle.lst_core_state.specs.State.{record_in};
ghost use Rattle.lst_core.specs.Reading.{IsRead, IsKind};

use crate::reads::cell;
use lst_layout::Layout;

/// Whether an encoding word has a kind with a mask that fits it.
fn is_kind(columns: u32, word: u64) -> bool
    requires { columns ≤ 8 }
    ensures { IsTrue result ↔ IsKind columns word }
{
    let mask = word % 256;
    let kind = word / 256 % 256;
    let end = 1u64 << columns;
    if kind == 1 {
        mask == end - 1
    } else if kind == 2 {
        0 < mask && mask < end
    } else {
        kind == 3 && mask == 0
    }
}

/// Whether the value of a column is one that an encoding word allows: 0 where the column is null or isn't in the mask. A null
/// column has to be in the mask.
fn is_column(word: u64, column: u32, value: u64) -> bool
    requires { column < 8 }
    ensures { IsTrue result ↔ IsColumn word column value }
{
    let is_named = word % 256 / (1u64 << column) % 2 == 1;
    let is_null = word / 16777216 / (1u64 << column) % 2 == 1;
    if is_named {
        !is_null || value == 0
    } else {
        !is_null && value == 0
    }
}

/// Whether the words of a tail are those of a write.
pub(crate) fn is_cell(layout: &Layout, words: &[u64], tail: u32) -> bool
    requires wide { length words.now ≡ words_of layout.now.limits }
    requires tail { (0 < tail) × (tail ≤ tail_count layout.now.limits) }
    ensures { IsTrue result ↔ IsCell layout.now.limits.columns ((shown layout.now.limits words.now).cells tail 1) (λ c. (shown layout.now.limits words.now).cells tail (3 + c)) }
{
    let word = cell(layout, words, tail, 1);
    let columns = layout.limits.columns;
    if word / 16777216 >= 1u64 << columns || !is_kind(columns, word) {
        return false;
    }
    let mut column = 0;
    while column < columns {
        if !is_column(word, column, cell(layout, words, tail, 3 + column)) {
            return false;
        }
        column += 1;
    }
    true
}

/// Whether a tail is of this record.
pub(crate) fn is_of(layout: &Layout, words: &[u64], tail: u32, rec: u32) -> bool
    requires wide { length words.now ≡ words_of layout.now.limits }
    requires tail { (0 < tail) × (tail ≤ tail_count layout.now.limits) }
    ensures { IsTrue result ↔ record_in layout.now.limits (shown layout.now.limits words.now).cells tail ≡ rec }
{
    let range = (tail - 1) / layout.limits.tails;
    let slot = cell(layout, words, tail, 1) / 65536 % 256;
    256 * range as u64 + slot == rec as u64
}
