//! The spare frames of a store that opens.
ghost use Rattle.std.specs.Prelude.{◌≡◌};
ghost use Rattle.lst_layout.specs.Limits.{IsValid};
ghost use Rattle.lst_core_state.specs.Pages as pages;
ghost use Rattle.lst_rule.specs.Rule.{crew};
ghost use Rattle.lst_rule.specs.Spares.{AreSpares};

use arrayvec::ArrayVec;
use lst_core_state::Retired;
use lst_layout::Limits;
use lst_rule::Spares;

/// The spares of a store that opens: the frames that no page has, retired at epoch 0. They are those that the merger knows then.
pub fn opening_spares(limits: &Limits) -> Spares
    requires { IsValid limits.now }
    ensures spares { result.items ≡ (pages.opening_merger limits.now).retired }
    ensures crew { AreSpares (crew limits.now) result.items }
{
    let first = limits.page_count() as u32;
    let mut spares = ArrayVec::new();
    for k in 0..limits.spare {
        spares.push(Retired {
            frame: first + k,
            epoch: 0,
        });
    }
    spares
}
