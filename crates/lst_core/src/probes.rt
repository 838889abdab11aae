//! The run of a key through the index of a sound state.
ghost use Rattle.std.specs.Prelude.{◌≡◌, ℕ, ◌+◌, ◌*◌, ◌<◌, ◌≤◌, length, ◌↔◌, IsTrue, true};
ghost use Rattle.lst_layout.specs.Areas.{index_positions};
ghost use Rattle.lst_layout.specs.Words.{shown};
ghost use Rattle.lst_core_state.specs.Cells.{record_count};
ghost use Rattle.lst_core_state.specs.Index as spec;
ghost use Rattle.lst_core_state.specs.Index.{Reaches, position_of};
ghost use Rattle.lst_core.specs.Reading.{IsRead};

use crate::reads::{index, key};
use lst_layout::Layout;
use lst_probe::start;

/// A position of a key's run.
fn position(layout: &Layout, key: u64, offset: u64) -> u32
    requires { offset < index_positions layout.now.limits }
    ensures position { result ≡ position_of layout.now.limits key offset }
    ensures below { result < index_positions layout.now.limits }
{
    let first = start(key, layout.index_bits()) as u64;
    ((first + offset) % layout.index_positions()) as u32
}

/// Whether a record is in the index. The run of its key finds it.
pub(crate) fn is_placed(layout: &Layout, words: &[u64], rec: u32) -> bool
    requires read { IsRead layout.now.limits words.now }
    requires rec { rec < record_count layout.now.limits }
    ensures { IsTrue result ↔ spec.is_placed layout.now.limits (shown layout.now.limits words.now).index rec ≡ true }
{
    let key = key(layout, words, rec);
    let size = layout.index_positions();
    let mut offset = 0;
    while offset < size {
        let word = index(layout, words, position(layout, key, offset));
        if word == rec as u64 + 1 {
            return true;
        }
        if word == 0 {
            return false;
        }
        offset += 1;
    }
    false
}

/// Whether the run of a key comes to the position, past records of other keys alone.
pub(crate) fn reaches(layout: &Layout, words: &[u64], sought: u64, goal: u32) -> bool
    requires read { IsRead layout.now.limits words.now }
    ensures { IsTrue result ↔ Reaches layout.now.limits (shown layout.now.limits words.now).keys (shown layout.now.limits words.now).index sought goal }
{
    let size = layout.index_positions();
    let mut offset = 0;
    while offset < size {
        let position = position(layout, sought, offset);
        if position == goal {
            return true;
        }
        let word = index(layout, words, position);
        if word == 0 {
            return false;
        }
        if key(layout, words, (word - 1) as u32) == sought {
            return false;
        }
        offset += 1;
    }
    false
}
