//! Texts written from their last byte to their first, so that a whole line is made in one array.
//!
//! Each call writes its text so that it ends where `end` says, and gives the place where it begins. What stands from `end` on
//! stays, so the texts of a line are written one before the other, the last one first.
ghost use Rattle.std.specs.Prelude.{◌≡◌, ◌+◌, ◌*◌, ◌++◌, ◌∷◌, ◌<◌, ◌≤◌, codes, decimal, drop, flat_map, length};
ghost use Rattle.lst_replies.specs.Texts.{IsShort, reply_word, reply_rest, cause_words, cause_numbers, cell_text, cells_text};
ghost use Rattle.lst_replies.specs.ReportTexts.{session_text};

use itoa::write_digits;
use lst_model::{Cause, Reply, Row};

/// Writes one byte.
#[inline(always)]
pub(crate) fn write_byte(buffer: &mut [u8], end: usize, byte: u8) -> usize
    requires { (1 ≤ end) × (end ≤ length buffer.old) }
    ensures start { result + 1 ≡ end }
    ensures written { drop result buffer.new ≡ byte ∷ drop end buffer.old }
{
    buffer[end - 1] = byte;
    end - 1
}

/// Writes some bytes. Where the caller names them they are few stores.
#[inline(always)]
pub(crate) fn write_word(buffer: &mut [u8], end: usize, word: &[u8]) -> usize
    requires { (length word.now ≤ end) × (end ≤ length buffer.old) }
    ensures start { result + length word.now ≡ end }
    ensures written { drop result buffer.new ≡ word.now ++ drop end buffer.old }
{
    let start = end - word.len();
    buffer[start..end].copy_from_slice(word);
    start
}

/// Writes the digits of a number.
#[inline]
pub(crate) fn write_number(buffer: &mut [u8], end: usize, number: u64) -> usize
    requires { (20 ≤ end) × (end ≤ length buffer.old) }
    ensures room { (result ≤ end) × (end ≤ result + 20) }
    ensures written { drop result buffer.new ≡ decimal number ++ drop end buffer.old }
{
    write_digits(number, buffer, end)
}

/// Writes the digits of a number of 32 bits, as those of sessions.
#[inline]
pub(crate) fn write_few(buffer: &mut [u8], end: usize, number: u32) -> usize
    requires { (10 ≤ end) × (end ≤ length buffer.old) }
    ensures room { (result ≤ end) × (end ≤ result + 10) }
    ensures written { drop result buffer.new ≡ decimal number ++ drop end buffer.old }
{
    if number < 10 {
        return write_byte(buffer, end, b'0' + number as u8);
    }
    write_digits(u64::from(number), buffer, end)
}

/// Writes a number behind some bytes.
#[inline(always)]
fn write_numbered(buffer: &mut [u8], end: usize, word: &[u8], number: u64) -> usize
    requires { (length word.now + 20 ≤ end) × (end ≤ length buffer.old) }
    ensures room { (result ≤ end) × (end ≤ result + (length word.now + 20)) }
    ensures written { drop result buffer.new ≡ word.now ++ (decimal number ++ drop end buffer.old) }
{
    let at = write_number(buffer, end, number);
    write_word(buffer, at, word)
}

/// Writes a session's number and a space, or nothing for a line without a session.
#[inline(always)]
pub(crate) fn write_session(buffer: &mut [u8], end: usize, session: Option<u32>) -> usize
    requires { (11 ≤ end) × (end ≤ length buffer.old) }
    ensures room { (result ≤ end) × (end ≤ result + 11) }
    ensures written { drop result buffer.new ≡ session_text session ++ drop end buffer.old }
{
    match session {
        Some(session) => {
            let at = write_byte(buffer, end, b' ');
            write_few(buffer, at, session)
        }
        None => end,
    }
}

/// Writes the words of a reply that is neither a row nor a list.
pub(crate) fn write_reply(buffer: &mut [u8], end: usize, reply: &Reply) -> usize
    requires { IsShort reply.now × ((44 ≤ end) × (end ≤ length buffer.old)) }
    ensures room { (result ≤ end) × (end ≤ result + 44) }
    ensures written { drop result buffer.new ≡ (reply_word reply.now ++ reply_rest reply.now) ++ drop end buffer.old }
{
    match reply {
        Reply::Begun { time } => write_numbered(buffer, end, b"begun ", *time),
        Reply::Done => write_word(buffer, end, b"ok"),
        Reply::Absent => write_word(buffer, end, b"none"),
        Reply::Committed { time } => write_numbered(buffer, end, b"committed ", *time),
        Reply::Ended { time } => write_numbered(buffer, end, b"ended ", *time),
        Reply::Aborted => write_word(buffer, end, b"aborted"),
        Reply::Sum { total } => write_sum(buffer, end, *total),
        Reply::Count { rows } => write_numbered(buffer, end, b"count ", *rows),
        Reply::Refused { cause } => write_cause(buffer, end, cause),
        Reply::Merged { tps } => write_numbered(buffer, end, b"merged ", u64::from(*tps)),
        Reply::NothingNew { tps } => write_numbered(buffer, end, b"idle ", u64::from(*tps)),
        Reply::NoFrame { session } => write_numbered(buffer, end, b"noframe ", u64::from(*session)),
        Reply::Silent => end,
        Reply::Row { .. } | Reply::Rows { .. } | Reply::Keys { .. } => unreachable!(),
    }
}

/// Writes a sum, which may have more than 64 bits.
fn write_sum(buffer: &mut [u8], end: usize, total: u128) -> usize
    requires { (44 ≤ end) × (end ≤ length buffer.old) }
    ensures room { (result ≤ end) × (end ≤ result + 44) }
    ensures written { drop result buffer.new ≡ codes "sum " ++ (decimal total ++ drop end buffer.old) }
{
    if total < 1 << 64 {
        return write_numbered(buffer, end, b"sum ", total as u64);
    }
    let mut digits = itoa::Buffer::new();
    let at = write_word(buffer, end, digits.format(total).as_bytes());
    write_word(buffer, at, b"sum ")
}

fn write_cause(buffer: &mut [u8], end: usize, cause: &Cause) -> usize
    requires { (35 ≤ end) × (end ≤ length buffer.old) }
    ensures room { (result ≤ end) × (end ≤ result + 35) }
    ensures written { drop result buffer.new ≡ (cause_words cause.now ++ cause_numbers cause.now) ++ drop end buffer.old }
{
    match cause {
        Cause::Idle => write_word(buffer, end, b"refused idle"),
        Cause::Active => write_word(buffer, end, b"refused active"),
        Cause::ReadOnly => write_word(buffer, end, b"refused readonly"),
        Cause::Spent => write_word(buffer, end, b"refused spent"),
        Cause::Future { clock } => write_numbered(buffer, end, b"refused future ", *clock),
        Cause::Missing => write_word(buffer, end, b"refused missing"),
        Cause::Exists => write_word(buffer, end, b"refused exists"),
        Cause::TableFull => write_word(buffer, end, b"full table"),
        Cause::Latched => write_word(buffer, end, b"conflict latched"),
        Cause::Newer { time } => write_numbered(buffer, end, b"conflict newer ", *time),
        Cause::Unfinished { session, number } => write_unfinished(buffer, end, *session, *number),
        Cause::TailFull => write_word(buffer, end, b"full tail"),
        Cause::NotIndexed => write_word(buffer, end, b"refused noindex"),
        Cause::Stale { time } => write_numbered(buffer, end, b"conflict stale ", *time),
    }
}

fn write_unfinished(buffer: &mut [u8], end: usize, session: u32, number: u32) -> usize
    requires { (35 ≤ end) × (end ≤ length buffer.old) }
    ensures room { (result ≤ end) × (end ≤ result + 35) }
    ensures written { drop result buffer.new ≡ codes "conflict open " ++ (decimal session ++ 32 ∷ (decimal number ++ drop end buffer.old)) }
{
    let at = write_few(buffer, end, number);
    let at = write_byte(buffer, at, b' ');
    let at = write_few(buffer, at, session);
    write_word(buffer, at, b"conflict open ")
}

/// Writes the cells of a row, with one byte between two of them.
#[inline(always)]
pub(crate) fn write_cells(buffer: &mut [u8], end: usize, between: u8, row: &Row) -> usize
    requires { (21 * length row.now ≤ end) × (end ≤ length buffer.old) }
    ensures room { (result ≤ end) × (end ≤ result + 21 * length row.now) }
    ensures written { drop result buffer.new ≡ cells_text between row.now ++ drop end buffer.old }
{
    if row.len() == 0 {
        return end;
    }
    let at = write_further(buffer, end, between, row);
    write_cell(buffer, at, row.cell(0))
}

/// Writes the cells behind the first, each behind one byte.
#[inline(always)]
fn write_further(buffer: &mut [u8], end: usize, between: u8, row: &Row) -> usize
    requires { (0 < length row.now) × ((21 * length row.now ≤ end) × (end ≤ length buffer.old)) }
    ensures room { (result ≤ end) × (end + 21 ≤ result + 21 * length row.now) }
    ensures written { drop result buffer.new ≡ flat_map (λ cell. between ∷ cell_text cell) (drop 1 row.now) ++ drop end buffer.old }
{
    let mut column = row.len();
    let mut at = end;
    while column > 1 {
        column -= 1;
        at = write_cell(buffer, at, row.cell(column as u32));
        at = write_byte(buffer, at, between);
    }
    at
}

#[inline(always)]
fn write_cell(buffer: &mut [u8], end: usize, cell: Option<u64>) -> usize
    requires { (20 ≤ end) × (end ≤ length buffer.old) }
    ensures room { (result ≤ end) × (end ≤ result + 20) }
    ensures written { drop result buffer.new ≡ cell_text cell ++ drop end buffer.old }
{
    match cell {
        Some(number) => write_number(buffer, end, number),
        None => write_word(buffer, end, b"null"),
    }
}
