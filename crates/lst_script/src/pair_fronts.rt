//! Columns by their names, and pairs, in the plainest form of a line.
ghost use Rattle.std.specs.Prelude.{◌≡◌, ◌≤◌, ◌<◌, [], ◌++◌, ◌∷◌, true, length, IfSome};
ghost use Rattle.lst_names.specs.Names.{are_names};
ghost use Rattle.lst_script.specs.Columns.{named};
ghost use Rattle.lst_script.specs.Pairs.{filled, nothing_set};
ghost use Rattle.lst_script.specs.Fronts.{BeginsWithColumn, BeginsWithValue, GoesOnWithPair, SetsNextPair, GoesOnWithPairs, GoesOnWithCells, GoesOnWithChanges};

use crate::fronts::{behind_byte, behind_word, number_in_front};
use lst_line_list::PackedPatch;
use lst_model::Text;

/// What follows a name and this byte, with which a text begins.
#[inline(always)]
fn behind_name<'a>(text: &'a [u8], name: &[u8], end: u8) -> Option<&'a [u8]>
    ensures { IfSome result (λ rest. text.now ≡ name.now ++ end ∷ rest.now) }
{
    if text.len() < name.len() {
        return None;
    }
    let (front, behind) = text.split_at(name.len());
    let rest = behind_byte(behind, end)?;
    if front == name { Some(rest) } else { None }
}

/// A column by its name, with this byte behind it.
#[inline(always)]
pub fn named_column_in_front<'a>(text: &'a [u8], names: &[Text], end: u8) -> Option<(u32, &'a [u8])>
    requires narrow { length names.now ≤ 8 }
    requires proper { are_names (length names.now) names.now ≡ true }
    ensures { IfSome result (λ found. BeginsWithColumn (named names.now) text.now found.0 end found.1.now) }
{
    for column in 0..names.len() {
        if let Some(rest) = behind_name(text, names[column].as_bytes(), end) {
            return Some((column as u32, rest));
        }
    }
    None
}

/// The cell that a pair's value is.
#[inline(always)]
fn value_in_front(text: &[u8]) -> Option<(Option<u64>, &[u8])>
    ensures { IfSome result (λ found. BeginsWithValue text.now found.0 found.1.now) }
{
    if let Some((number, rest)) = number_in_front(text) {
        return Some((Some(number), rest));
    }
    let rest = behind_word(text, b"null")?;
    Some((None, rest))
}

/// A pair behind a space.
#[inline(always)]
fn pair_behind_space<'a>(text: &'a [u8], names: &[Text]) -> Option<(u32, Option<u64>, &'a [u8])>
    requires narrow { length names.now ≤ 8 }
    requires proper { are_names (length names.now) names.now ≡ true }
    ensures pair { IfSome result (λ found. GoesOnWithPair names.now text.now (found.0, found.1) found.2.now) }
    ensures within { IfSome result (λ found. found.0 < length names.now) }
{
    let pair = behind_byte(text, b' ')?;
    let (column, word) = named_column_in_front(pair, names, b'=')?;
    let (cell, rest) = value_in_front(word)?;
    Some((column, cell, rest))
}

/// Sets the column of the pair behind a space, where no pair before it did.
#[inline(always)]
fn set_next_pair<'a>(text: &'a [u8], names: &[Text], changes: &mut PackedPatch) -> Option<&'a [u8]>
    requires narrow { length names.now ≤ 8 }
    requires proper { are_names (length names.now) names.now ≡ true }
    requires wide { length changes.old ≡ length names.now }
    ensures { SetsNextPair names.now text.now changes.old changes.new result }
{
    let (column, cell, rest) = pair_behind_space(text, names)?;
    if changes.is_set(column) {
        return None;
    }
    changes.set(column, cell);
    Some(rest)
}

/// Makes a patch of no column one of so many, none of which is set.
#[inline(always)]
fn leave_all(count: usize, changes: &mut PackedPatch)
    requires few { count ≤ 8 }
    requires none { changes.old ≡ [] }
    ensures { changes.new ≡ nothing_set count }
{
    for _column in 0..count {
        changes.push(None);
    }
}

/// Puts what pairs make of the columns with these names into a patch of no column.
#[inline(always)]
fn pairs_in_front<'a>(text: &'a [u8], names: &[Text], changes: &mut PackedPatch) -> Option<&'a [u8]>
    requires narrow { length names.now ≤ 8 }
    requires proper { are_names (length names.now) names.now ≡ true }
    requires none { changes.old ≡ [] }
    ensures { IfSome result (λ rest. GoesOnWithPairs names.now text.now changes.new rest.now) }
{
    leave_all(names.len(), changes);
    let mut rest = text;
    for _pair in 0..names.len() {
        if let Some(behind) = behind_byte(rest, b'\n') {
            return Some(behind);
        }
        rest = set_next_pair(rest, names, changes)?;
    }
    let behind = behind_byte(rest, b'\n')?;
    Some(behind)
}

/// Puts the cells of a row, each by the name of its column, into one of no column.
#[inline(always)]
pub fn named_cells_in_front<'a>(
    text: &'a [u8],
    names: &[Text],
    row: &mut PackedPatch,
) -> Option<&'a [u8]>
    requires narrow { length names.now ≤ 8 }
    requires proper { are_names (length names.now) names.now ≡ true }
    requires none { row.old ≡ [] }
    ensures { IfSome result (λ rest. GoesOnWithCells (named names.now) text.now (filled row.new) rest.now) }
{
    let rest = pairs_in_front(text, names, row)?;
    Some(rest)
}

/// Puts the changes of a patch, which sets a column, each by the name of its column, into one of no column.
#[inline(always)]
pub fn named_changes_in_front<'a>(
    text: &'a [u8],
    names: &[Text],
    patch: &mut PackedPatch,
) -> Option<&'a [u8]>
    requires narrow { length names.now ≤ 8 }
    requires proper { are_names (length names.now) names.now ≡ true }
    requires none { patch.old ≡ [] }
    ensures { IfSome result (λ rest. GoesOnWithChanges (named names.now) text.now patch.new rest.now) }
{
    let rest = pairs_in_front(text, names, patch)?;
    if patch.sets_some() { Some(rest) } else { None }
}
