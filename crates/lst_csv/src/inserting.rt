//! The text of the script that makes a table. The lines of the rows are written as their records are read: no script is made of them first.
ghost use Rattle.std.specs.Prelude.{◌≡◌, ◌≤◌, ◌+◌, ◌++◌, ◌∷◌, [], Some, IfOk, IfSome, OnOk, decimal, is_some, length, true, map, vec_len, vec_capacity};
ghost use Rattle.csv.specs.Records.{fields_of};
ghost use Rattle.lst_model.specs.declared.lines.Line.TheVariants as lines;
ghost use Rattle.lst_model.specs.declared.lines.Call.TheVariants.{Begin as BeginOf};
ghost use Rattle.lst_script.specs.Canonical.{named_text};
ghost use Rattle.lst_script.specs.Numbers.{number_of};
ghost use Rattle.lst_csv.specs.Importing.{cell_text, head_of as head_text, record_line};
ghost use Rattle.lst_csv.specs.Reading.{ReadsKey};
ghost use Rattle.lst_csv.specs.Tables.{cell_at, cell_of_field};

use crate::faults::TableFault;
use crate::fields::field;
use csv::ByteRecord;
use lst_model::{Call, Key, Line, OutOfMemory, Text};
use lst_names::Names;
use lst_script::{Named, Script, number, print2, push_number};
use std::alloc::{AllocError, Global};

/// So many digits are a number of 64 bits, whichever they are.
const SAFE_DIGITS: usize = 19;

/// The bytes of the header of version 2 with these names, and of the line that begins a transaction of session 0.
pub(crate) fn begun(alloc: Global, names: Names) -> Result<Vec<u8>, OutOfMemory>
    ensures { IfOk result (λ bytes. bytes.items ≡ named_text names (lines.Call 0 BeginOf ∷ [])) }
{
    let named = Named {
        names,
        script: beginning(alloc)?,
    };
    let text = print2(alloc, &named)?;
    let bytes = text.as_bytes().to_vec(alloc)?;
    Ok(bytes)
}

/// The line that begins a transaction of session 0.
fn beginning(alloc: Global) -> Result<Script, OutOfMemory>
    ensures { IfOk result (λ script. script ≡ lines.Call 0 BeginOf ∷ []) }
{
    let mut script = Script::new(alloc);
    script.push(Line::Call {
        session: 0,
        call: Call::Begin,
    })?;
    Ok(script)
}

/// What stands in front of the cell of each column.
pub(crate) fn heads_of(alloc: Global, names: &[Text]) -> Result<Names, OutOfMemory>
    ensures { IfOk result (λ heads. heads ≡ map head_text names.now) }
{
    let mut heads = Names::new(alloc);
    for name in names {
        heads.push(head_of(alloc, name.as_bytes())?)?;
    }
    Ok(heads)
}

/// What stands in front of the cell of a column with this name.
fn head_of(alloc: Global, name: &[u8]) -> Result<Text, OutOfMemory>
    ensures { IfOk result (λ head. head ≡ head_text name.now) }
{
    let mut head = Vec::new(alloc);
    head.push(b' ')?;
    head.extend_from_slice(name)?;
    head.push(b'=')?;
    Ok(Text::from_bytes(head))
}

/// Puts the line that inserts the row of a record behind a text, and answers the key, or what is wrong with its fields: then the text may have got a
/// part of the line.
#[inline]
pub(crate) fn push_record(
    bytes: &mut Vec<u8>,
    heads: &[Text],
    fields: &ByteRecord,
) -> Result<Result<Key, TableFault>, AllocError>
    ensures read { IfOk result (λ read. ReadsKey (length heads.now) (fields_of fields.now) read) }
    ensures text { IfOk result (λ read. IfOk read (λ key. bytes.new.items ≡ bytes.old.items ++ record_line heads.now (fields_of fields.now))) }
{
    if fields.len() != heads.len() + 1 {
        return Ok(Err(TableFault::BadLength));
    }
    bytes.extend_from_slice(b"0 insert ")?;
    let Some(key) = push_field(bytes, field(fields, 0))? else {
        return Ok(Err(TableFault::BadField));
    };
    for column in 0..heads.len() {
        if !push_pair(bytes, heads[column].as_bytes(), field(fields, column + 1))? {
            return Ok(Err(TableFault::BadField));
        }
    }
    bytes.push(b'\n')?;
    Ok(Ok(key))
}

/// Puts the cell that a field is behind a text, with what stands in front of it, and tells whether it is one. Null has no text.
#[inline(always)]
fn push_pair(bytes: &mut Vec<u8>, head: &[u8], field: &[u8]) -> Result<bool, AllocError>
    ensures read { IfOk result (λ read. read ≡ is_some (cell_of_field field.now)) }
    ensures text { IfOk result (λ read. read ≡ true → bytes.new.items ≡ bytes.old.items ++ cell_text head.now (cell_at field.now)) }
{
    if field.is_empty() {
        return Ok(true);
    }
    bytes.extend_from_slice(head)?;
    Ok(push_field(bytes, field)?.is_some())
}

/// Puts the number that a field is behind a text, and answers it. None where it is none: then the text may have got a part of it. A field is
/// copied as it stands where it has neither a zero in front nor so many digits that they might be too large a number.
#[inline(always)]
fn push_field(bytes: &mut Vec<u8>, field: &[u8]) -> Result<Option<u64>, AllocError>
    ensures read { IfOk result (λ found. found ≡ number_of field.now) }
    ensures text { IfOk result (λ found. IfSome found (λ number. bytes.new.items ≡ bytes.old.items ++ decimal number)) }
{
    if field.is_empty() || field.len() > SAFE_DIGITS || field[0] == b'0' {
        return push_parsed(bytes, field);
    }
    make_room(bytes, field.len())?;
    let mut value: u64 = 0;
    for byte in field {
        if !byte.is_ascii_digit() {
            return Ok(None);
        }
        value = value * 10 + u64::from(*byte - b'0');
        bytes.push_reserved(*byte);
    }
    Ok(Some(value))
}

/// Puts the number that a field is behind a text, without zeros in front, and answers it. None where it is none.
fn push_parsed(bytes: &mut Vec<u8>, field: &[u8]) -> Result<Option<u64>, AllocError>
    ensures read { IfOk result (λ found. found ≡ number_of field.now) }
    ensures text { IfOk result (λ found. IfSome found (λ number. bytes.new.items ≡ bytes.old.items ++ decimal number)) }
{
    let Some(value) = number(field) else {
        return Ok(None);
    };
    push_number(bytes, value)?;
    Ok(Some(value))
}

/// Makes room behind a text for so many bytes more. The test whether there is some stands here, and not in a call.
#[inline(always)]
fn make_room(bytes: &mut Vec<u8>, more: usize) -> Result<(), AllocError>
    ensures same { bytes.new.items ≡ bytes.old.items }
    ensures room { OnOk result (vec_len bytes.new + more ≤ vec_capacity bytes.new) }
{
    if bytes.capacity() - bytes.len() >= more {
        return Ok(());
    }
    bytes.reserve(more)
}
