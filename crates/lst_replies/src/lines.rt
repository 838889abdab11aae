//! The text of the reply to one line.
ghost use Rattle.std.specs.Prelude.{◌≡◌, ◌≤◌, ◌+◌, ◌*◌, ◌++◌, ◌∷◌, [], IfOk, OnOk, codes, flat_map, length};
ghost use Rattle.lst_replies.specs.Texts.{IsShort, line_text, speaker_text, is_silent, cells_text, entry_text, key_text};
ghost use Rattle.lst_replies.specs.ReportTexts.{session_text, told_text};

use crate::backward::{
    write_byte, write_cells, write_number, write_reply, write_session, write_word,
};
use lst_model::{Key, Line, OutOfMemory, Reply, Row, Text};
use std::alloc::Global;

/// The text of a reply to a line, with its newline: the session's number and a space stand first where the line is a call.
/// A silent reply has the empty text. The only error is want of memory.
pub fn print_line(alloc: Global, script_line: &Line, reply: &Reply) -> Result<Text, OutOfMemory>
    ensures { IfOk result (λ text. text ≡ line_text script_line.now reply.now) }
{
    let mut text = Text::new(alloc);
    push_line(&mut text, script_line, reply)?;
    Ok(text)
}

/// Adds the text of a reply to a line at the end of a text, as `print_line` makes it. The only error is want of memory,
/// after which the text has some part of it.
pub fn push_line(text: &mut Text, script_line: &Line, reply: &Reply) -> Result<(), OutOfMemory>
    ensures { OnOk result (text.new ≡ text.old ++ line_text script_line.now reply.now) }
{
    if is_silent(reply) {
        return Ok(());
    }
    push_told(text, speaker_of(script_line), reply)
}

#[inline(always)]
fn is_silent(reply: &Reply) -> bool
    ensures { result ≡ is_silent reply.now }
{
    match reply {
        Reply::Silent => true,
        _ => false,
    }
}

#[inline(always)]
fn speaker_of(script_line: &Line) -> Option<u32>
    ensures { session_text result ≡ speaker_text script_line.now }
{
    match script_line {
        Line::Call { session, .. } => Some(*session),
        _ => None,
    }
}

/// Adds the line of a reply, with its newline: the number of the session that it was given to stands first, if there is one.
pub(crate) fn push_told(
    text: &mut Text,
    session: Option<u32>,
    reply: &Reply,
) -> Result<(), OutOfMemory>
    ensures { OnOk result (text.new ≡ text.old ++ told_text (session, reply.now)) }
{
    match reply {
        Reply::Row { row } => push_row(text, session, row),
        Reply::Rows { list } => {
            push_head(text, session, b"rows")?;
            push_rows(text, list.items())?;
            text.push_bytes(b"\n")
        }
        Reply::Keys { list } => {
            push_head(text, session, b"keys")?;
            push_keys(text, list.items())?;
            text.push_bytes(b"\n")
        }
        _ => push_short(text, session, reply),
    }
}

fn push_short(text: &mut Text, session: Option<u32>, reply: &Reply) -> Result<(), OutOfMemory>
    requires { IsShort reply.now }
    ensures { OnOk result (text.new ≡ text.old ++ told_text (session, reply.now)) }
{
    let mut buffer = [0; 64];
    let at = write_byte(&mut buffer, 64, b'\n');
    let at = write_reply(&mut buffer, at, reply);
    let at = write_session(&mut buffer, at, session);
    text.push_bytes(&buffer[at..])
}

fn push_row(text: &mut Text, session: Option<u32>, row: &Row) -> Result<(), OutOfMemory>
    ensures { OnOk result (text.new ≡ text.old ++ (session_text session ++ (codes "row " ++ (cells_text 32 row.now ++ 10 ∷ [])))) }
{
    if row.len() <= 5 {
        push_row_in(text, session, row, &mut [0; 128])
    } else {
        push_row_in(text, session, row, &mut [0; 192])
    }
}

/// Adds the line of a row by way of a buffer with room for it. A short one is cleared by a few stores.
#[inline(always)]
fn push_row_in(
    text: &mut Text,
    session: Option<u32>,
    row: &Row,
    buffer: &mut [u8],
) -> Result<(), OutOfMemory>
    requires { 21 * length row.now + 16 ≤ length buffer.old }
    ensures { OnOk result (text.new ≡ text.old ++ (session_text session ++ (codes "row " ++ (cells_text 32 row.now ++ 10 ∷ [])))) }
{
    let at = write_byte(buffer, buffer.len(), b'\n');
    let at = write_cells(buffer, at, b' ', row);
    let at = write_word(buffer, at, b"row ");
    let at = write_session(buffer, at, session);
    text.push_bytes(&buffer[at..])
}

fn push_head(text: &mut Text, session: Option<u32>, word: &[u8; 4]) -> Result<(), OutOfMemory>
    ensures { OnOk result (text.new ≡ text.old ++ (session_text session ++ word.now)) }
{
    let mut buffer = [0; 16];
    let at = write_word(&mut buffer, 16, word);
    let at = write_session(&mut buffer, at, session);
    text.push_bytes(&buffer[at..])
}

fn push_rows(text: &mut Text, rows: &[(Key, Row)]) -> Result<(), OutOfMemory>
    ensures { OnOk result (text.new ≡ text.old ++ flat_map entry_text rows.now) }
{
    for entry in rows {
        push_entry(text, entry.0, &entry.1)?;
    }
    Ok(())
}

fn push_entry(text: &mut Text, key: Key, row: &Row) -> Result<(), OutOfMemory>
    ensures { OnOk result (text.new ≡ text.old ++ entry_text (key, row.now)) }
{
    if row.len() <= 5 {
        push_entry_in(text, key, row, &mut [0; 128])
    } else {
        push_entry_in(text, key, row, &mut [0; 192])
    }
}

/// Adds a row with its key by way of a buffer with room for both.
#[inline(always)]
fn push_entry_in(text: &mut Text, key: Key, row: &Row, buffer: &mut [u8]) -> Result<(), OutOfMemory>
    requires { 21 * length row.now + 22 ≤ length buffer.old }
    ensures { OnOk result (text.new ≡ text.old ++ entry_text (key, row.now)) }
{
    let at = write_cells(buffer, buffer.len(), b',', row);
    let at = write_byte(buffer, at, b':');
    let at = write_number(buffer, at, key);
    let at = write_byte(buffer, at, b' ');
    text.push_bytes(&buffer[at..])
}

fn push_keys(text: &mut Text, keys: &[Key]) -> Result<(), OutOfMemory>
    ensures { OnOk result (text.new ≡ text.old ++ flat_map key_text keys.now) }
{
    for key in keys {
        push_key(text, *key)?;
    }
    Ok(())
}

fn push_key(text: &mut Text, key: Key) -> Result<(), OutOfMemory>
    ensures { OnOk result (text.new ≡ text.old ++ key_text key) }
{
    let mut buffer = [0; 32];
    let at = write_number(&mut buffer, 32, key);
    let at = write_byte(&mut buffer, at, b' ');
    text.push_bytes(&buffer[at..])
}
