//! The opening of a store.
ghost use Rattle.std.specs.Prelude.{◌≡◌, ◌+◌, IfOk, replicate, true};
ghost use Rattle.lst_layout.specs.Words.{IsOpening};
ghost use Rattle.lst_core_state.specs.Numbers.{newcomer_numbers};
ghost use Rattle.lst_rule.specs.Rule.{crew};
ghost use Rattle.lst_rule.specs.Stores.{IsSeatOf};

use crate::seat::Seat;
use crate::store::Store;
use atomic_table::Table;
use lst_core_state::newcomers;
use lst_layout::{Layout, opening_words};
use lst_model::OutOfMemory;
use std::alloc::Global;

/// A seat that hosts each of this many.
fn all_hosted(alloc: Global, count: u32) -> Result<Vec<bool>, OutOfMemory>
    ensures { IfOk result (λ hosted. hosted.items ≡ replicate count true) }
{
    Ok(vec![in alloc; true; count as usize]?)
}

/// A store that opens, and the seat that hosts its sessions and its merger. All memory of the store's words is taken here; where
/// it is refused, nothing is left.
pub fn open_store(alloc: Global, layout: &Layout) -> Result<(Store, Seat), OutOfMemory>
    ensures store { IfOk result (λ opened. opened.0.layout ≡ layout.now) }
    ensures seat { IfOk result (λ opened. IsSeatOf opened.0 opened.1) }
    ensures crew { IfOk result (λ opened. opened.1.view ≡ crew layout.now.limits) }
{
    let words = opening_words(alloc, layout)?;
    let count = layout.limits.sessions + 1;
    let hosted = all_hosted(alloc, count)?;
    let numbers = newcomers(alloc, count)?;
    let (table, place) = Table::of_words(alloc, words.as_slice(), &layout.limits)?;
    let store = Store {
        table,
        layout: *layout,
    };
    let seat = Seat {
        place,
        limits: layout.limits,
        hosted,
        numbers,
        note_time: 0,
    };
    Ok((store, seat))
}
