//! Lines of the text.
ghost use Rattle.std.specs.Prelude.{◌≡◌, ◌++◌, OnOk, decimal};
ghost use Rattle.lst_past.specs.Past.{number_line, rows_line};

use itoa::Buffer;
use lst_model::{Line, OutOfMemory, Reply, RowList, Text};
use lst_replies::push_line;

/// Appends a line of a word with a number behind it. The only error is want of memory.
pub fn push_number_line(text: &mut Text, word: &[u8], number: u128) -> Result<(), OutOfMemory>
    ensures { OnOk result (text.new ≡ text.old ++ number_line word.now number) }
{
    text.push_bytes(word)?;
    push_number(text, number)?;
    text.push_bytes(b"\n")
}

/// Appends the decimal digits of a number.
fn push_number(text: &mut Text, number: u128) -> Result<(), OutOfMemory>
    ensures { OnOk result (text.new ≡ text.old ++ decimal number) }
{
    let mut buffer = Buffer::new();
    text.push_bytes(buffer.format(number).as_bytes())
}

/// Appends the line of a table's rows, as a scan is answered, with no session before it.
pub(crate) fn push_rows_line(text: &mut Text, rows: RowList) -> Result<(), OutOfMemory>
    ensures { OnOk result (text.new ≡ text.old ++ rows_line rows) }
{
    push_line(text, &Line::Phase, &Reply::Rows { list: rows })
}
