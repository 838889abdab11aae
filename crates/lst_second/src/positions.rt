//! The positions of a number's run through the postings of a column, and what an encoding word says of a tail.
ghost use Rattle.std.specs.Prelude.{◌≡◌, ◌<◌, ◌≤◌, ◌^◌};
ghost use Rattle.lst_core_state.specs.Cells.{record_of, tail_count};
ghost use Rattle.lst_core_state.specs.Postings.{postings_size, value_position};

use lst_bits::slot;
use lst_layout::Layout;
use lst_probe::start;

/// A position of a value's run, from 0.
pub(crate) fn position(layout: &Layout, value: u64, offset: u32) -> u32
    requires { offset < postings_size layout.now.limits }
    ensures position { result ≡ value_position layout.now.limits value offset }
    ensures below { result < postings_size layout.now.limits }
{
    let first = start(value, layout.posting_bits()) as u64;
    ((first + offset as u64) % layout.posting_positions()) as u32
}

/// The record of a tail, by its identifier and its encoding word.
pub(crate) fn record_of(layout: &Layout, tail: u32, encoding: u64) -> u32
    requires some { 0 < tail }
    requires few { tail ≤ tail_count layout.now.limits }
    ensures { result ≡ record_of layout.now.limits.tails tail encoding }
{
    (tail - 1) / layout.limits.tails * 256 + slot(encoding)
}
