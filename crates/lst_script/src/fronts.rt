//! Lines of sessions in their plainest form, read as their bytes are met: one space between each two words, and a newline at once behind
//! the last. A line in any other form, or with a fault, is left to the reader of words.
ghost use Rattle.std.specs.Prelude.{◌≡◌, ◌≤◌, ◌<◌, ◌-◌, [], ◌∷◌, ◌++◌, ℕ, List, Some, true, IfOk, IfSome, length};
ghost use Rattle.std.specs.Char.{is_ascii_digit};
ghost use Rattle.lst_model.specs.declared.lines.Call.TheVariants as calls;
ghost use Rattle.lst_script.specs.Columns.{Columns, numbered, count_of, AreProper};
ghost use Rattle.lst_script.specs.Heads.{columns_of};
ghost use Rattle.lst_script.specs.Pairs.{filled};
ghost use Rattle.lst_script.specs.Table.{session_forms, form_named};
ghost use Rattle.lst_script.specs.Grammar.{IsNumber, form_of_call, AreArguments};
ghost use Rattle.lst_script.specs.Fronts.{BeginsWithNumber, GoesOnWithNumber, GoesOnWithOne, changed, GoesOnWithChange, GoesOnWithCells, GoesOnWithChanges, BeginsWithColumn, BeginsWithCall, AddsCall, AddsLine};

use crate::columns::Heads;
use crate::pair_fronts::{named_cells_in_front, named_changes_in_front, named_column_in_front};
use lst_layout::Limits;
use lst_line_list::{LineList, PackedPatch};
use lst_model::{Call, Line, OutOfMemory};

/// The most digits of a number that is read here: each such number fits 64 bits.
const FEW_DIGITS: usize = 19;

/// The digit that a byte is, or a number above 9 where it is none.
#[inline(always)]
fn digit_of(byte: u8) -> u64
    ensures digit { result < 10 → is_ascii_digit byte ≡ true }
    ensures value { is_ascii_digit byte ≡ true → result ≡ byte - 48 }
{
    u64::from(byte).wrapping_sub(u64::from(b'0'))
}

/// The number that a text begins with, and what follows it.
#[inline(always)]
pub fn number_in_front(text: &[u8]) -> Option<(u64, &[u8])>
    ensures { IfSome result (λ found. BeginsWithNumber text.now found.0 found.1.now) }
{
    let end = text.len().min(FEW_DIGITS);
    let mut value: u64 = 0;
    let mut count: usize = 0;
    while count < end && digit_of(text[count]) < 10 {
        value = value * 10 + digit_of(text[count]);
        count += 1;
    }
    if count == 0 {
        return None;
    }
    Some((value, &text[count..]))
}

/// What follows this byte, with which a text begins.
#[inline(always)]
pub fn behind_byte(text: &[u8], byte: u8) -> Option<&[u8]>
    ensures { IfSome result (λ rest. text.now ≡ byte ∷ rest.now) }
{
    match text {
        [first, rest @ ..] if *first == byte => Some(rest),
        _ => None,
    }
}

/// The number behind a space, and what follows it.
#[inline(always)]
pub fn number_behind_space(text: &[u8]) -> Option<(u64, &[u8])>
    ensures { IfSome result (λ found. GoesOnWithNumber text.now found.0 found.1.now) }
{
    number_in_front(behind_byte(text, b' ')?)
}

/// What follows a word that a text begins with, whose length is tested once. Where the word is a constant, the compiler makes a comparison of each of its
/// bytes.
#[inline(always)]
pub fn behind_word<'a>(text: &'a [u8], word: &[u8]) -> Option<&'a [u8]>
    ensures { IfSome result (λ rest. text.now ≡ word.now ++ rest.now) }
{
    if text.len() < word.len() {
        return None;
    }
    for place in 0..word.len() {
        if text[place] != word[place] {
            return None;
        }
    }
    Some(&text[word.len()..])
}

/// What follows a word and this byte, with which a text begins. Where the text is too short for both, nothing is compared.
#[inline(always)]
fn behind_ended<'a>(text: &'a [u8], word: &[u8], end: u8) -> Option<&'a [u8]>
    ensures { IfSome result (λ rest. text.now ≡ word.now ++ end ∷ rest.now) }
{
    if text.len() <= word.len() {
        return None;
    }
    let behind = behind_word(text, word)?;
    let rest = behind_byte(behind, end)?;
    Some(rest)
}

/// A number as one below this limit.
#[inline(always)]
fn below(number: u64, limit: u32) -> Option<u32>
    ensures is { IfSome result (λ small. small ≡ number) }
    ensures within { IfSome result (λ small. small < limit) }
{
    if number < u64::from(limit) {
        Some(number as u32)
    } else {
        None
    }
}

/// The number behind the name of a call that has one number.
#[inline(always)]
fn number_behind_name<'a>(text: &'a [u8], name: &[u8]) -> Option<(u64, &'a [u8])>
    ensures { IfSome result (λ found. (arguments : List ℕ) × (text.now ≡ name.now ++ arguments) × GoesOnWithOne arguments found.0 found.1.now) }
{
    let argument = behind_ended(text, name, b' ')?;
    let (number, after) = number_in_front(argument)?;
    let rest = behind_byte(after, b'\n')?;
    Some((number, rest))
}

/// A column of so many, by its number, with this byte behind it.
#[inline(always)]
fn numbered_column_in_front(text: &[u8], count: u32, end: u8) -> Option<(u32, &[u8])>
    ensures { IfSome result (λ found. BeginsWithColumn (numbered count) text.now found.0 end found.1.now) }
{
    let (number, after) = number_in_front(text)?;
    let column = below(number, count)?;
    Some((column, behind_byte(after, end)?))
}

/// A column with this byte behind it.
#[inline(always)]
fn column_in_front<'a>(text: &'a [u8], heads: Heads<'_>, end: u8) -> Option<(u32, &'a [u8])>
    requires narrow { count_of (columns_of heads) ≤ 8 }
    requires proper { AreProper (columns_of heads) }
    ensures { IfSome result (λ found. BeginsWithColumn (columns_of heads.entry) text.now found.0 end found.1.now) }
{
    match heads {
        Heads::Numbered(count) => numbered_column_in_front(text, count, end),
        Heads::Named(names) => named_column_in_front(text, names, end),
    }
}

/// Puts the cells of a row of so many columns into one of none.
#[inline(always)]
fn cells_in_front<'a>(text: &'a [u8], count: u32, row: &mut PackedPatch) -> Option<&'a [u8]>
    requires few { count ≤ 8 }
    requires none { row.old ≡ [] }
    ensures { IfSome result (λ rest. GoesOnWithCells (numbered count) text.now (filled row.new) rest.now) }
{
    let mut rest = text;
    for _column in 0..count {
        let (number, after) = number_behind_space(rest)?;
        row.push(Some(Some(number)));
        rest = after;
    }
    let behind = behind_byte(rest, b'\n')?;
    Some(behind)
}

/// What becomes of a column, behind a space: None where it stays as it is.
#[inline(always)]
fn change_behind_space(text: &[u8]) -> Option<(Option<u64>, &[u8])>
    ensures { IfSome result (λ found. GoesOnWithChange text.now found.0 found.1.now) }
{
    let change = behind_byte(text, b' ')?;
    if let Some(rest) = behind_byte(change, b'_') {
        return Some((None, rest));
    }
    let (number, rest) = number_in_front(change)?;
    Some((Some(number), rest))
}

/// The same as a patch has it.
#[inline(always)]
fn as_set(change: Option<u64>) -> Option<Option<u64>>
    ensures { result ≡ changed change }
{
    match change {
        None => None,
        Some(number) => Some(Some(number)),
    }
}

/// Puts the changes of a patch of so many columns, which sets one of them, into one of none.
#[inline(always)]
fn changes_in_front<'a>(text: &'a [u8], count: u32, patch: &mut PackedPatch) -> Option<&'a [u8]>
    requires few { count ≤ 8 }
    requires none { patch.old ≡ [] }
    ensures { IfSome result (λ rest. GoesOnWithChanges (numbered count) text.now patch.new rest.now) }
{
    let mut rest = text;
    for _column in 0..count {
        let (change, after) = change_behind_space(rest)?;
        patch.push(as_set(change));
        rest = after;
    }
    let behind = behind_byte(rest, b'\n')?;
    if patch.sets_some() {
        Some(behind)
    } else {
        None
    }
}

/// Puts the cells of a row into one of no column.
#[inline(always)]
fn row_in_front<'a>(text: &'a [u8], heads: Heads<'_>, row: &mut PackedPatch) -> Option<&'a [u8]>
    requires narrow { count_of (columns_of heads) ≤ 8 }
    requires proper { AreProper (columns_of heads) }
    requires none { row.old ≡ [] }
    ensures { IfSome result (λ rest. GoesOnWithCells (columns_of heads.entry) text.now (filled row.new) rest.now) }
{
    match heads {
        Heads::Numbered(count) => cells_in_front(text, count, row),
        Heads::Named(names) => named_cells_in_front(text, names, row),
    }
}

/// Puts the changes of a patch, which sets a column, into one of no column.
#[inline(always)]
fn patch_in_front<'a>(text: &'a [u8], heads: Heads<'_>, patch: &mut PackedPatch) -> Option<&'a [u8]>
    requires narrow { count_of (columns_of heads) ≤ 8 }
    requires proper { AreProper (columns_of heads) }
    requires none { patch.old ≡ [] }
    ensures { IfSome result (λ rest. GoesOnWithChanges (columns_of heads.entry) text.now patch.new rest.now) }
{
    match heads {
        Heads::Numbered(count) => changes_in_front(text, count, patch),
        Heads::Named(names) => named_changes_in_front(text, names, patch),
    }
}

/// A call that has nothing behind its name, where the text begins with it.
#[inline(always)]
fn plain_in_front<'a>(text: &'a [u8], name: &[u8], call: Call) -> Option<(Call, &'a [u8])>
    requires named { form_named session_forms name.now ≡ Some (form_of_call call) }
    requires plain { (columns : Columns) → AreArguments columns call [] }
    ensures { (columns : Columns) → IfSome result (λ found. BeginsWithCall columns text.now found.0 found.1.now) }
{
    let rest = behind_ended(text, name, b'\n')?;
    Some((call, rest))
}

/// A `get`.
#[inline(always)]
fn get_in_front(text: &[u8]) -> Option<(Call, &[u8])>
    ensures { (columns : Columns) → IfSome result (λ found. BeginsWithCall columns text.now found.0 found.1.now) }
{
    let (key, rest) = number_behind_name(text, b"get")?;
    Some((Call::Get { key }, rest))
}

/// A `delete`.
#[inline(always)]
fn delete_in_front(text: &[u8]) -> Option<(Call, &[u8])>
    ensures { (columns : Columns) → IfSome result (λ found. BeginsWithCall columns text.now found.0 found.1.now) }
{
    let (key, rest) = number_behind_name(text, b"delete")?;
    Some((Call::Delete { key }, rest))
}

/// An `asof`.
#[inline(always)]
fn as_of_in_front(text: &[u8]) -> Option<(Call, &[u8])>
    ensures { (columns : Columns) → IfSome result (λ found. BeginsWithCall columns text.now found.0 found.1.now) }
{
    let (time, rest) = number_behind_name(text, b"asof")?;
    Some((Call::AsOf { time }, rest))
}

/// A `sum`.
#[inline(always)]
fn sum_in_front<'a>(text: &'a [u8], heads: Heads<'_>) -> Option<(Call, &'a [u8])>
    requires narrow { count_of (columns_of heads) ≤ 8 }
    requires proper { AreProper (columns_of heads) }
    ensures { IfSome result (λ found. BeginsWithCall (columns_of heads.entry) text.now found.0 found.1.now) }
{
    let arguments = behind_ended(text, b"sum", b' ')?;
    let (column, rest) = column_in_front(arguments, heads, b'\n')?;
    Some((Call::Sum { column }, rest))
}

/// A `commit` or a `count`.
#[inline(always)]
fn commit_or_count_in_front(text: &[u8]) -> Option<(Call, &[u8])>
    ensures { (columns : Columns) → IfSome result (λ found. BeginsWithCall columns text.now found.0 found.1.now) }
{
    match plain_in_front(text, b"commit", Call::Commit) {
        Some(found) => Some(found),
        None => plain_in_front(text, b"count", Call::Count),
    }
}

/// A `sum` or a `scan`.
#[inline(always)]
fn sum_or_scan_in_front<'a>(text: &'a [u8], heads: Heads<'_>) -> Option<(Call, &'a [u8])>
    requires narrow { count_of (columns_of heads) ≤ 8 }
    requires proper { AreProper (columns_of heads) }
    ensures { IfSome result (λ found. BeginsWithCall (columns_of heads.entry) text.now found.0 found.1.now) }
{
    match sum_in_front(text, heads) {
        Some(found) => Some(found),
        None => plain_in_front(text, b"scan", Call::Scan),
    }
}

/// An `abort` or an `asof`.
#[inline(always)]
fn abort_or_as_of_in_front(text: &[u8]) -> Option<(Call, &[u8])>
    ensures { (columns : Columns) → IfSome result (λ found. BeginsWithCall columns text.now found.0 found.1.now) }
{
    match plain_in_front(text, b"abort", Call::Abort) {
        Some(found) => Some(found),
        None => as_of_in_front(text),
    }
}

/// A `find`.
#[inline(always)]
fn find_in_front<'a>(text: &'a [u8], heads: Heads<'_>) -> Option<(Call, &'a [u8])>
    requires narrow { count_of (columns_of heads) ≤ 8 }
    requires proper { AreProper (columns_of heads) }
    ensures { IfSome result (λ found. BeginsWithCall (columns_of heads.entry) text.now found.0 found.1.now) }
{
    let arguments = behind_ended(text, b"find", b' ')?;
    let (column, word) = column_in_front(arguments, heads, b' ')?;
    let (value, after) = number_in_front(word)?;
    let rest = behind_byte(after, b'\n')?;
    Some((Call::Find { column, value }, rest))
}

/// The key of an `insert`, whose columns are put into a row of none.
#[inline(always)]
fn insert_in_front<'a>(
    text: &'a [u8],
    heads: Heads<'_>,
    row: &mut PackedPatch,
) -> Option<(u64, &'a [u8])>
    requires narrow { count_of (columns_of heads) ≤ 8 }
    requires proper { AreProper (columns_of heads) }
    requires none { row.old ≡ [] }
    ensures { IfSome result (λ found. BeginsWithCall (columns_of heads.entry) text.now (calls.Insert found.0 (filled row.new)) found.1.now) }
{
    let arguments = behind_ended(text, b"insert", b' ')?;
    let (key, middle) = number_in_front(arguments)?;
    let rest = row_in_front(middle, heads, row)?;
    Some((key, rest))
}

/// Adds the `insert` that a text begins with.
#[inline(always)]
fn push_insert<'a>(
    text: &'a [u8],
    heads: Heads<'_>,
    session: u32,
    lines: &mut LineList,
) -> Result<Option<&'a [u8]>, OutOfMemory>
    requires narrow { count_of (columns_of heads) ≤ 8 }
    requires proper { AreProper (columns_of heads) }
    ensures { IfOk result (AddsCall (columns_of heads.entry) session text.now lines.old lines.new) }
{
    let mut row = PackedPatch::new();
    let Some((key, rest)) = insert_in_front(text, heads, &mut row) else {
        return Ok(None);
    };
    lines.push_insert(session, key, &row)?;
    Ok(Some(rest))
}

/// The key of an `update`, whose columns are put into a patch of none.
#[inline(always)]
fn update_in_front<'a>(
    text: &'a [u8],
    heads: Heads<'_>,
    patch: &mut PackedPatch,
) -> Option<(u64, &'a [u8])>
    requires narrow { count_of (columns_of heads) ≤ 8 }
    requires proper { AreProper (columns_of heads) }
    requires none { patch.old ≡ [] }
    ensures { IfSome result (λ found. BeginsWithCall (columns_of heads.entry) text.now (calls.Update found.0 patch.new) found.1.now) }
{
    let arguments = behind_ended(text, b"update", b' ')?;
    let (key, middle) = number_in_front(arguments)?;
    let rest = patch_in_front(middle, heads, patch)?;
    Some((key, rest))
}

/// Adds the `update` that a text begins with.
#[inline(always)]
fn push_update<'a>(
    text: &'a [u8],
    heads: Heads<'_>,
    session: u32,
    lines: &mut LineList,
) -> Result<Option<&'a [u8]>, OutOfMemory>
    requires narrow { count_of (columns_of heads) ≤ 8 }
    requires proper { AreProper (columns_of heads) }
    ensures { IfOk result (AddsCall (columns_of heads.entry) session text.now lines.old lines.new) }
{
    let mut patch = PackedPatch::new();
    let Some((key, rest)) = update_in_front(text, heads, &mut patch) else {
        return Ok(None);
    };
    lines.push_update(session, key, &patch)?;
    Ok(Some(rest))
}

/// Adds a call that was found in front of a text, if one was.
#[inline(always)]
fn push_found<'a>(
    found: Option<(Call, &'a [u8])>,
    session: u32,
    lines: &mut LineList,
) -> Result<Option<&'a [u8]>, OutOfMemory>
    ensures { (columns : Columns) (text : List ℕ) → IfSome found.entry (λ call. BeginsWithCall columns text call.0 call.1.now) → IfOk result (AddsCall columns session text lines.old lines.new) }
{
    let Some((call, rest)) = found else {
        return Ok(None);
    };
    lines.push(Line::Call { session, call })?;
    Ok(Some(rest))
}

/// Adds the call that a text begins with.
#[inline(always)]
fn push_call<'a>(
    text: &'a [u8],
    heads: Heads<'_>,
    session: u32,
    lines: &mut LineList,
) -> Result<Option<&'a [u8]>, OutOfMemory>
    requires narrow { count_of (columns_of heads) ≤ 8 }
    requires proper { AreProper (columns_of heads) }
    ensures { IfOk result (AddsCall (columns_of heads.entry) session text.now lines.old lines.new) }
{
    match text {
        [b'g', ..] => push_found(get_in_front(text), session, lines),
        [b'u', ..] => push_update(text, heads, session, lines),
        [b'b', ..] => push_found(plain_in_front(text, b"begin", Call::Begin), session, lines),
        [b'c', ..] => push_found(commit_or_count_in_front(text), session, lines),
        [b'i', ..] => push_insert(text, heads, session, lines),
        [b's', ..] => push_found(sum_or_scan_in_front(text, heads), session, lines),
        [b'f', ..] => push_found(find_in_front(text, heads), session, lines),
        [b'a', ..] => push_found(abort_or_as_of_in_front(text), session, lines),
        [b'd', ..] => push_found(delete_in_front(text), session, lines),
        _ => Ok(None),
    }
}

/// The session of one digit that a text begins with, below this number, and what follows the space behind it. Where nothing follows, no line is read here.
#[inline(always)]
fn short_session_in_front(text: &[u8], sessions: u32) -> Option<(u32, &[u8])>
    ensures { IfSome result (λ found. (word : List ℕ) × IsNumber word found.0 × (found.0 < sessions) × (text.now ≡ word ++ 32 ∷ found.1.now)) }
{
    if text.len() < 3 {
        return None;
    }
    let (byte, rest) = text.split_first()?;
    let digit = digit_of(*byte);
    if digit >= 10 {
        return None;
    }
    let session = below(digit, sessions)?;
    let call = behind_byte(rest, b' ')?;
    Some((session, call))
}

/// The same of one with any number of digits.
#[inline(always)]
fn long_session_in_front(text: &[u8], sessions: u32) -> Option<(u32, &[u8])>
    ensures { IfSome result (λ found. (word : List ℕ) × IsNumber word found.0 × (found.0 < sessions) × (text.now ≡ word ++ 32 ∷ found.1.now)) }
{
    let (number, rest) = number_in_front(text)?;
    let session = below(number, sessions)?;
    let call = behind_byte(rest, b' ')?;
    Some((session, call))
}

/// The session that a text begins with, below this number, and what follows the space behind it. Most have one digit, which needs no loop.
#[inline(always)]
fn session_in_front(text: &[u8], sessions: u32) -> Option<(u32, &[u8])>
    ensures { IfSome result (λ found. (word : List ℕ) × IsNumber word found.0 × (found.0 < sessions) × (text.now ≡ word ++ 32 ∷ found.1.now)) }
{
    if let Some(found) = short_session_in_front(text, sessions) {
        return Some(found);
    }
    long_session_in_front(text, sessions)
}

/// Adds the line that a text begins with, and answers what follows it; or None, and adds nothing, where this line is in another form
/// than is read here.
#[inline(always)]
pub fn push_front<'a>(
    text: &'a [u8],
    heads: Heads<'_>,
    limits: &Limits,
    lines: &mut LineList,
) -> Result<Option<&'a [u8]>, OutOfMemory>
    requires narrow { count_of (columns_of heads) ≤ 8 }
    requires proper { AreProper (columns_of heads) }
    ensures { IfOk result (AddsLine limits.now (columns_of heads.entry) text.now lines.old lines.new) }
{
    let Some((session, call)) = session_in_front(text, limits.sessions) else {
        return Ok(None);
    };
    push_call(call, heads, session, lines)
}
