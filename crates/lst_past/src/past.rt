//! A past table, told from the block of a history.
ghost use Rattle.std.specs.Prelude.{◌≡◌, ◌≤◌, ◌++◌, ℕ, List, length, codes, IfOk, OnOk};
ghost use Rattle.lst_model.specs.declared.commits.Commit.{Commit};
ghost use Rattle.lst_model.specs.Soundness.{IsSound};
ghost use Rattle.lst_historic.specs.Blocks.{AreWide};
ghost use Rattle.lst_historic.specs.Places.{HasBlock, IsSomeBlock};
ghost use Rattle.lst_past.specs.Past.{number_line, table_line, past_text};

use crate::lines::{push_number_line, push_rows_line};
use lst_historic::{BlockFault, Historic, TableRefused, build, open_block};
use lst_model::{History, OutOfMemory, Text, Time};
use std::alloc::Global;

/// The text of a past table: the number of bytes of the history's block, and the table as of a time, which is read from the block once its bytes were
/// opened again, or `future` with the length of the history where the time is above it. The history's rows and patches have so many columns, from
/// 1 to 8. The only error is want of memory.
pub fn print_past(
    alloc: Global,
    history: &History,
    columns: u32,
    time: Time,
) -> Result<Text, OutOfMemory>
    requires some { 1 ≤ columns }
    requires few { columns ≤ 8 }
    requires sound { IsSound history.now }
    requires wide { AreWide columns history.now }
    ensures { IfOk result (λ text. text ≡ past_text columns history.now time) }
{
    let built = build(alloc, history, columns)?;
    let block = opened(alloc, &built)?;
    let mut text = Text::new(alloc);
    push_number_line(&mut text, b"bytes ", block.bytes().len() as u128)?;
    push_table(alloc, &mut text, &block, time)?;
    Ok(text)
}

/// A block opened again from its bytes.
fn opened(alloc: Global, built: &Historic) -> Result<Historic, OutOfMemory>
    requires { IsSomeBlock built.now }
    ensures { IfOk result (λ block. block ≡ built.now) }
{
    let mut bytes = Text::new(alloc);
    bytes.push_bytes(built.bytes())?;
    match open_block(alloc, bytes) {
        Ok(block) => Ok(block),
        Err(BlockFault::OutOfMemory) => Err(OutOfMemory),
        Err(BlockFault::BadBlock) => unreachable!(),
    }
}

/// Appends the line of the table as of a time.
fn push_table(
    alloc: Global,
    text: &mut Text,
    block: &Historic,
    time: Time,
) -> Result<(), OutOfMemory>
    ensures { OnOk result ((columns : ℕ) (history : List Commit) → HasBlock columns history block.now → text.new ≡ text.old ++ table_line history time) }
{
    match block.table(alloc, time) {
        Ok(rows) => push_rows_line(text, rows),
        Err(TableRefused::Late { until }) => {
            push_number_line(text, b"future ", u128::from(until))
        }
        Err(TableRefused::OutOfMemory) => Err(OutOfMemory),
    }
}
