//! The positions of a key's run.
ghost use Rattle.std.specs.Prelude.{◌≡◌, ◌<◌};
ghost use Rattle.lst_layout.specs.Areas.{index_positions};
ghost use Rattle.lst_core_state.specs.Index.{size, position_of};

use lst_layout::Layout;
use lst_probe::start;

/// A position of a key's run, from 0.
pub fn position(layout: &Layout, key: u64, offset: u32) -> u32
    requires { offset < size layout.now.limits }
    ensures position { result ≡ position_of layout.now.limits key offset }
    ensures below { result < size layout.now.limits }
{
    let first = start(key, layout.index_bits());
    if offset == 0 {
        return first;
    }
    ((first as u64 + offset as u64) % layout.index_positions()) as u32
}
