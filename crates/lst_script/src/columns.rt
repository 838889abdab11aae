//! What a script calls the columns of its table.
ghost use Rattle.std.specs.Prelude.{◌≡◌, ◌≤◌, ◌<◌, IfSome, length};
ghost use Rattle.lst_script.specs.Columns.{count_of, column_named, column_read};
ghost use Rattle.lst_script.specs.Heads.{columns_of};

use crate::numbers::number;
use lst_model::Text;

/// What a script calls its columns: their numbers in version 1, their names in version 2.
#[derive(Clone, Copy)]
pub enum Heads<'a> {
    /// So many columns, by their numbers.
    Numbered(u32),
    /// These columns, by their names.
    Named(&'a [Text]),
}

/// The column with this name.
pub fn column_with_name(names: &[Text], word: &[u8]) -> Option<usize>
    ensures is { result ≡ column_named names.now word.now }
    ensures within { IfSome result (λ column. column < length names.now) }
{
    names.iter().position(|name| name.as_bytes() == word)
}

/// The column that a word says: None where it has to be a number and is none, and `Some(None)` where there is no such column.
pub fn read_column(word: &[u8], heads: Heads<'_>) -> Option<Option<u32>>
    requires { count_of (columns_of heads) ≤ 8 }
    ensures { result ≡ column_read (columns_of heads.entry) word.now }
{
    match heads {
        Heads::Numbered(count) => {
            let column = number(word)?;
            if column < u64::from(count) {
                Some(Some(column as u32))
            } else {
                Some(None)
            }
        }
        Heads::Named(names) => match column_with_name(names, word) {
            Some(column) => Some(Some(column as u32)),
            None => Some(None),
        },
    }
}
