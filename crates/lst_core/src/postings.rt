//! The run of a value through a column's postings, in a sound state.
ghost use Rattle.std.specs.Prelude.{◌≡◌, ℕ, ◌+◌, ◌/◌, ◌%◌, ◌^◌, ◌<◌, ◌≤◌, length, ◌↔◌, IsTrue, true};
ghost use Rattle.lst_layout.specs.Addresses as addresses;
ghost use Rattle.lst_layout.specs.Areas.{IsIndexed, posting_positions, words_of};
ghost use Rattle.lst_layout.specs.declared.place.Place.TheVariants.{PostingWord};
ghost use Rattle.lst_layout.specs.Words.{shown};
ghost use Rattle.lst_core_state.specs.Cells.{record_count, tail_count, has_number};
ghost use Rattle.lst_core_state.specs.Postings.{postings_size, value_first, value_position, IsAlike, IsPosted, ArePosted};
ghost use Rattle.lst_probe.specs.Run.{IsReachable};
ghost use Rattle.lst_core.specs.Reading.{IsRead};
ghost use Rattle.lst_core.specs.Seeks.{IsSettled};

use crate::drafts::is_of;
use crate::reads::{cell, posting};
use lst_layout::Layout;
use lst_probe::start;

/// A position of a value's run.
fn position(layout: &Layout, value: u64, offset: u64) -> u32
    requires { offset < posting_positions layout.now.limits }
    ensures position { result ≡ value_position layout.now.limits value offset }
    ensures below { result < posting_positions layout.now.limits }
{
    let first = start(value, layout.posting_bits()) as u64;
    ((first + offset) % layout.posting_positions()) as u32
}

/// Whether the postings of a column have this position.
pub(crate) fn is_position(layout: &Layout, position: u32) -> bool
    ensures { IsTrue result ↔ position < postings_size layout.now.limits }
{
    (position as u64) < layout.posting_positions()
}

/// The tail at a position of a column's postings, or 0.
#[tactic(auto, using(crate::proofs::ValueRuns::tail_few))]
fn tail_there(layout: &Layout, words: &[u64], column: u32, position: u32) -> u32
    requires read { IsRead layout.now.limits words.now }
    requires place { addresses.IsWithin layout.now.limits (PostingWord column position) }
    ensures tail { result ≡ (shown layout.now.limits words.now).postings column position }
    ensures few { result ≤ tail_count layout.now.limits }
{
    posting(layout, words, column, position) as u32
}

/// Whether an encoding word sets the column, to a number.
pub(crate) fn has_number(word: u64, column: u32) -> bool
    requires { column < 8 }
    ensures { IsTrue result ↔ has_number word column ≡ true }
{
    let is_named = word % 256 / (1u64 << column) % 2 == 1;
    let is_null = word / 16777216 / (1u64 << column) % 2 == 1;
    is_named && !is_null
}

/// Whether a tail is of the record, and has the value in the column.
fn is_alike(layout: &Layout, words: &[u64], tail: u32, column: u32, rec: u32, value: u64) -> bool
    requires wide { length words.now ≡ words_of layout.now.limits }
    requires tail { (0 < tail) × (tail ≤ tail_count layout.now.limits) }
    requires column { column < layout.now.limits.columns }
    ensures { IsTrue result ↔ IsAlike layout.now.limits (shown layout.now.limits words.now).cells column rec value tail }
{
    is_of(layout, words, tail, rec) && cell(layout, words, tail, 3 + column) == value
}

/// Whether the value's run has a tail of the record with the value, with no empty position before it.
pub(crate) fn is_posted(layout: &Layout, words: &[u64], column: u32, rec: u32, value: u64) -> bool
    requires read { IsRead layout.now.limits words.now }
    requires column { column < layout.now.limits.columns }
    requires indexed { IsIndexed layout.now.limits column }
    ensures { IsTrue result ↔ IsPosted layout.now.limits (shown layout.now.limits words.now).cells ((shown layout.now.limits words.now).postings column) column rec value }
{
    let size = layout.posting_positions();
    let mut offset = 0;
    while offset < size {
        let tail = tail_there(layout, words, column, position(layout, value, offset));
        if tail == 0 {
            return false;
        }
        if is_alike(layout, words, tail, column, rec, value) {
            return true;
        }
        offset += 1;
    }
    false
}

/// Whether the position is in the value's run, and none before it is empty.
pub(crate) fn reaches(layout: &Layout, words: &[u64], column: u32, value: u64, goal: u32) -> bool
    requires wide { length words.now ≡ words_of layout.now.limits }
    requires column { column < layout.now.limits.columns }
    requires indexed { IsIndexed layout.now.limits column }
    ensures { IsTrue result ↔ IsReachable ((shown layout.now.limits words.now).postings column) (postings_size layout.now.limits) (value_first layout.now.limits value) goal }
{
    let size = layout.posting_positions();
    let mut offset = 0;
    while offset < size {
        let position = position(layout, value, offset);
        if position == goal {
            return true;
        }
        if posting(layout, words, column, position) == 0 {
            return false;
        }
        offset += 1;
    }
    false
}

/// Whether a column is indexed and an encoding word sets it to a number.
fn is_due(layout: &Layout, word: u64, column: u32) -> bool
    requires { column < layout.now.limits.columns }
    ensures { IsTrue result ↔ (IsIndexed layout.now.limits column × (has_number word column ≡ true)) }
{
    layout.limits.is_indexed(column) && has_number(word, column)
}

/// Whether a column isn't indexed, or a tail of the record doesn't hold it with a number, or it is posted.
fn is_settled(layout: &Layout, words: &[u64], column: u32, rec: u32, tail: u32) -> bool
    requires read { IsRead layout.now.limits words.now }
    requires tail { (0 < tail) × (tail ≤ tail_count layout.now.limits) }
    requires column { column < layout.now.limits.columns }
    ensures { IsTrue result ↔ IsSettled layout.now.limits (shown layout.now.limits words.now) rec tail column }
{
    let word = cell(layout, words, tail, 1);
    if !is_due(layout, word, column) {
        return true;
    }
    let value = cell(layout, words, tail, 3 + column);
    is_posted(layout, words, column, rec, value)
}

/// Whether each indexed column that a tail of the record holds with a number is posted.
pub(crate) fn are_posted(layout: &Layout, words: &[u64], rec: u32, tail: u32) -> bool
    requires read { IsRead layout.now.limits words.now }
    requires tail { (0 < tail) × (tail ≤ tail_count layout.now.limits) }
    ensures { IsTrue result ↔ ArePosted layout.now.limits (shown layout.now.limits words.now).cells (shown layout.now.limits words.now).postings rec tail }
{
    let columns = layout.limits.columns;
    let mut column = 0;
    while column < columns {
        if !is_settled(layout, words, column, rec, tail) {
            return false;
        }
        column += 1;
    }
    true
}
