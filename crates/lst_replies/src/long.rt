//! Replies with rows and keys.
ghost use Rattle.std.specs.Prelude.{◌≡◌, ◌≤◌, IfOk, position};
ghost use Rattle.lst_replies.specs.Reading.{texts, is_colon, number64, cell_of, cells_of, entry_of, read_all, list_reply, call_reply, told_by, reply_of};

use crate::numbers::{read_u32, read_u64};
use crate::short::{merge_reply, short_reply};
use crate::words::{split_cells, split_words};
use arrayvec::ArrayVec;
use lst_model::{Key, KeyList, OutOfMemory, Reply, Row, RowList};
use std::alloc::Global;

/// The word for null.
const NULL: &[u8] = b"null";

/// A number, or the word for null.
fn read_cell(word: &[u8]) -> Option<Option<u64>>
    ensures { result ≡ cell_of word.now }
{
    if word == NULL {
        return Some(None);
    }
    read_u64(word).map(Some)
}

/// A row with a cell for each column, one a word.
fn read_cells(words: &[&[u8]], columns: usize) -> Option<Row>
    requires { columns ≤ 8 }
    ensures { result ≡ cells_of columns (texts words.now) }
{
    if words.len() != columns {
        return None;
    }
    let mut row = Row::of_numbers(ArrayVec::new());
    for word in words {
        row.push(read_cell(word)?);
    }
    Some(row)
}

/// Keys, one a word.
fn read_keys(alloc: Global, words: &[&[u8]]) -> Result<Option<KeyList>, OutOfMemory>
    ensures { IfOk result (λ keys. keys ≡ read_all number64 (texts words.now)) }
{
    let mut keys = KeyList::new(alloc);
    for word in words {
        let Some(key) = read_u64(word) else {
            return Ok(None);
        };
        keys.push(key)?;
    }
    Ok(Some(keys))
}

/// The place of the first colon.
fn colon_in(word: &[u8]) -> Option<usize>
    ensures { result ≡ position is_colon word.now }
{
    word.iter().position(|byte| *byte == b':')
}

/// A key, a colon, and the cells of its row with commas between them. `parts` is room that is written over.
fn read_entry<'a>(
    word: &'a [u8],
    columns: usize,
    parts: &mut Vec<&'a [u8]>,
) -> Result<Option<(Key, Row)>, OutOfMemory>
    requires { columns ≤ 8 }
    ensures { IfOk result (λ entry. entry ≡ entry_of columns word.now) }
{
    let Some(colon) = colon_in(word) else {
        return Ok(None);
    };
    split_cells(&word[colon + 1..], parts)?;
    let Some(key) = read_u64(&word[..colon]) else {
        return Ok(None);
    };
    let Some(row) = read_cells(parts, columns) else {
        return Ok(None);
    };
    Ok(Some((key, row)))
}

/// Keys with their rows, one a word.
fn read_rows<'a>(
    alloc: Global,
    words: &[&'a [u8]],
    columns: usize,
) -> Result<Option<RowList>, OutOfMemory>
    requires { columns ≤ 8 }
    ensures { IfOk result (λ rows. rows ≡ read_all (entry_of columns) (texts words.now)) }
{
    let mut rows = RowList::new(alloc);
    let mut parts = Vec::new(alloc);
    for word in words {
        let Some((key, row)) = read_entry(word, columns, &mut parts)? else {
            return Ok(None);
        };
        rows.push(key, row)?;
    }
    Ok(Some(rows))
}

/// A reply of a word and a list.
fn list_reply(alloc: Global, words: &[&[u8]], columns: usize) -> Result<Option<Reply>, OutOfMemory>
    requires { columns ≤ 8 }
    ensures { IfOk result (λ reply. reply ≡ list_reply columns (texts words.now)) }
{
    let Some((name, rest)) = words.split_first() else {
        return Ok(None);
    };
    if *name == b"row".as_slice() {
        return Ok(read_cells(rest, columns).map(|row| Reply::Row { row }));
    }
    if *name == b"rows".as_slice() {
        let rows = read_rows(alloc, rest, columns)?;
        return Ok(rows.map(|list| Reply::Rows { list }));
    }
    if *name == b"keys".as_slice() {
        let keys = read_keys(alloc, rest)?;
        return Ok(keys.map(|list| Reply::Keys { list }));
    }
    Ok(None)
}

/// A reply to a call of a session, without the session.
fn call_reply(alloc: Global, words: &[&[u8]], columns: usize) -> Result<Option<Reply>, OutOfMemory>
    requires { columns ≤ 8 }
    ensures { IfOk result (λ reply. reply ≡ call_reply columns (texts words.now)) }
{
    match short_reply(words) {
        Some(reply) => Ok(Some(reply)),
        None => list_reply(alloc, words, columns),
    }
}

/// A reply with its session, or with None where it answers a merge.
fn told_by(
    alloc: Global,
    words: &[&[u8]],
    columns: usize,
) -> Result<Option<(Option<u32>, Reply)>, OutOfMemory>
    requires { columns ≤ 8 }
    ensures { IfOk result (λ told. told ≡ told_by columns (texts words.now)) }
{
    if let Some(reply) = merge_reply(words) {
        return Ok(Some((None, reply)));
    }
    let Some((first, rest)) = words.split_first() else {
        return Ok(None);
    };
    let Some(session) = read_u32(first) else {
        return Ok(None);
    };
    match call_reply(alloc, rest, columns)? {
        Some(reply) => Ok(Some((Some(session), reply))),
        None => Ok(None),
    }
}

/// The reply that a line is, or None where it is none. `words` is room that is written over.
pub(crate) fn read_reply<'a>(
    alloc: Global,
    line: &'a [u8],
    columns: usize,
    words: &mut Vec<&'a [u8]>,
) -> Result<Option<(Option<u32>, Reply)>, OutOfMemory>
    requires { columns ≤ 8 }
    ensures { IfOk result (λ told. told ≡ reply_of columns line.now) }
{
    split_words(line, words)?;
    told_by(alloc, words, columns)
}
