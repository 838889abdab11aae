//! What a second opening finds.
ghost use Rattle.std.specs.Prelude.{◌≡◌, ◌≤◌, ◌++◌, IfOk, OnOk};
ghost use Rattle.lst_model.specs.Soundness.{IsSound};
ghost use Rattle.lst_historic.specs.Blocks.{AreWide};
ghost use Rattle.lst_crash.specs.Crashes.{recovered_text};

use lst_historic::{TableRefused, build};
use lst_model::{History, Line, OutOfMemory, Reply, Text};
use lst_past::push_number_line;
use lst_replies::push_line;
use std::alloc::Global;

/// Appends how many commits a history has, and the table that they make, as a scan is answered. Its rows and patches have so many columns, from 1 to 8.
/// The only error is want of memory.
pub(crate) fn push_recovered(
    alloc: Global,
    text: &mut Text,
    history: &History,
    columns: u32,
) -> Result<(), OutOfMemory>
    requires some { 1 ≤ columns }
    requires few { columns ≤ 8 }
    requires sound { IsSound history.now }
    requires wide { AreWide columns history.now }
    ensures { OnOk result (text.new ≡ text.old ++ recovered_text history.now) }
{
    let block = build(alloc, history, columns)?;
    push_number_line(text, b"recovered ", history.len() as u128)?;
    match block.table(alloc, history.len() as u64) {
        Ok(list) => push_line(text, &Line::Phase, &Reply::Rows { list }),
        Err(TableRefused::OutOfMemory) => Err(OutOfMemory),
        Err(TableRefused::Late { .. }) => unreachable!(),
    }
}
