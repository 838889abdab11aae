//! What a load writes.
ghost use Rattle.std.specs.Prelude.{◌≡◌, IfOk};
ghost use Rattle.lst_command.specs.Owed.{load_text};

use lst_model::{OutOfMemory, Text};
use lst_past::push_number_line;
use lst_work::Loaded;
use std::alloc::Global;

/// The text of what a load tells: how many rows there are, and what they add up to.
pub(crate) fn print_loaded(alloc: Global, loaded: &Loaded) -> Result<Text, OutOfMemory>
    ensures { IfOk result (λ text. text ≡ load_text loaded.now.rows loaded.now.total) }
{
    let mut text = Text::new(alloc);
    push_number_line(&mut text, b"rows ", u128::from(loaded.rows))?;
    push_number_line(&mut text, b"total ", loaded.total)?;
    Ok(text)
}
