//! Pairs of a column and what it gets.
ghost use Rattle.std.specs.Prelude.{◌≡◌, ◌≤◌, length, position};
ghost use Rattle.lst_script.specs.Texts.{texts};
ghost use Rattle.lst_script.specs.Pairs.{is_equals, cell_of_value, nothing_set, filled};
ghost use Rattle.lst_script.specs.Reading.{ReadsPairs, SetsPair};

use crate::columns::column_with_name;
use crate::faults::FaultKind;
use crate::numbers::number;
use arrayvec::ArrayVec;
use lst_model::{Patch, Row, Text};

/// What becomes of each column: None where it stays as it is, `Some(None)` where it becomes null.
pub type Changes = ArrayVec<Option<Option<u64>>, 8>;

/// The cell that a value is: a number, or null. None where it is neither.
pub fn value(word: &[u8]) -> Option<Option<u64>>
    ensures { result ≡ cell_of_value word.now }
{
    if word == b"null".as_slice() {
        return Some(None);
    }
    number(word).map(Some)
}

/// The place of the first `=`.
fn equals_in(word: &[u8]) -> Option<usize>
    ensures { result ≡ position is_equals word.now }
{
    word.iter().position(|byte| *byte == b'=')
}

/// So many columns, none of which gets something.
pub fn unset(count: usize) -> Changes
    requires { count ≤ 8 }
    ensures { result.items ≡ nothing_set count }
{
    let mut changes = ArrayVec::new();
    for _column in 0..count {
        changes.push(None);
    }
    changes
}

/// Sets the column of a pair.
fn set_pair(word: &[u8], names: &[Text], changes: &mut Changes) -> Result<(), FaultKind>
    requires { length changes.old.items ≡ length names.now }
    ensures { SetsPair names.now word.now changes.old.items changes.new.items result }
{
    let Some(end) = equals_in(word) else {
        return Err(FaultKind::BadPair);
    };
    let Some(column) = column_with_name(names, &word[..end]) else {
        return Err(FaultKind::BadColumn);
    };
    let slots = changes.as_mut_slice();
    if slots[column].is_some() {
        return Err(FaultKind::RepeatedColumn);
    }
    let Some(cell) = value(&word[end + 1..]) else {
        return Err(FaultKind::BadNumber);
    };
    slots[column] = Some(cell);
    Ok(())
}

/// What pairs make of the columns with these names.
pub fn read_pairs(words: &[&[u8]], names: &[Text]) -> Result<Changes, FaultKind>
    requires { length names.now ≤ 8 }
    ensures { ReadsPairs names.now (texts words.now) result }
{
    let mut changes = unset(names.len());
    for word in words {
        set_pair(word, names, &mut changes)?;
    }
    Ok(changes)
}

/// The patch of these changes.
pub fn patch_from(changes: &[Option<Option<u64>>]) -> Patch
    requires { length changes.now ≤ 8 }
    ensures { result ≡ changes.now }
{
    let mut patch = Patch::of_numbers(ArrayVec::new());
    for change in changes {
        patch.push(*change);
    }
    patch
}

/// The row of these changes, in which a column that gets nothing is null.
pub fn row_from(changes: &[Option<Option<u64>>]) -> Row
    requires { length changes.now ≤ 8 }
    ensures { result ≡ filled changes.now }
{
    let mut row = Row::of_numbers(ArrayVec::new());
    for change in changes {
        row.push(change.unwrap_or(None));
    }
    row
}
