//! A table as records.
ghost use Rattle.std.specs.Prelude.{◌≡◌, ℕ, List, [], ◌∷◌, ◌++◌, Some, IfOk, OnOk, map, decimal};
ghost use Rattle.csv.specs.Records.{fields_of};
ghost use Rattle.csv.specs.Writing.{default_writer, field_text, fields_text, row_text};
ghost use Rattle.lst_csv.specs.Records.{text_of_records};
ghost use Rattle.lst_csv.specs.Writing.{HasWritten, field_of_cell, header_of, record_of_row, rows_text as rows_text_of, table_text};

use csv::{ByteRecord, Writer, WriterBuilder};
use lst_model::{Key, OutOfMemory, Row, RowList, Table, Text};
use lst_names::Names;
use std::alloc::{AllocError, Global};

/// The text of a table as comma-separated values: a record of the word `key` and the names of the columns, and then a record for each row by rising key,
/// with its key and its cells, each a number or, where it is null, the empty field. Each record ends with a newline.
/// `written_table_is_read_again` says of which tables the text is read as the same table. The only error is want of memory.
pub fn dump_text(alloc: Global, names: &Names, table: &Table) -> Result<Text, OutOfMemory>
    ensures { IfOk result (λ text. text ≡ table_text names.now table.now) }
{
    let rows = table.rows(alloc)?;
    rows_text(alloc, names, &rows)
}

/// The text of rows: the record of the word `key` and the names, and then a record for each row, in their order. The only error is want of memory.
pub(crate) fn rows_text(alloc: Global, names: &Names, rows: &RowList) -> Result<Text, OutOfMemory>
    ensures { IfOk result (λ text. text ≡ rows_text_of names.now rows.now) }
{
    let mut bytes = header_bytes(alloc, names.items())?;
    push_rows(&mut bytes, rows.items())?;
    Ok(Text::from_bytes(bytes))
}

/// The bytes of the header's record.
fn header_bytes(alloc: Global, names: &[Text]) -> Result<Vec<u8>, OutOfMemory>
    ensures { IfOk result (λ bytes. bytes.items ≡ row_text default_writer (header_of names.now)) }
{
    let mut writer = writer_of(alloc);
    let mut fields = ByteRecord::new(alloc);
    set_header(&mut fields, names)?;
    write(&mut writer, &fields)?;
    bytes_in(writer)
}

/// A writer with the defaults into memory.
fn writer_of(alloc: Global) -> Writer<Vec<u8>>
    ensures { HasWritten result (λ bytes. Some bytes.items) [] }
{
    WriterBuilder::new().from_writer(Vec::new(alloc))
}

/// Writes a record. The only error is want of memory, since a vector takes all bytes else.
fn write(writer: &mut Writer<Vec<u8>>, fields: &ByteRecord) -> Result<(), OutOfMemory>
    ensures { (text : List ℕ) → HasWritten writer.old (λ bytes. Some bytes.items) text → OnOk result (HasWritten writer.new (λ bytes. Some bytes.items) (text ++ row_text default_writer (fields_of fields.now))) }
{
    match writer.write_byte_record(fields) {
        Ok(()) => Ok(()),
        Err(_) => Err(OutOfMemory),
    }
}

/// The bytes that were written.
fn bytes_in(writer: Writer<Vec<u8>>) -> Result<Vec<u8>, OutOfMemory>
    ensures { IfOk result (λ bytes. (written : List ℕ) → HasWritten writer (λ bytes. Some bytes.items) written → bytes.items ≡ written) }
{
    match writer.into_inner() {
        Ok(bytes) => Ok(bytes),
        Err(_) => Err(OutOfMemory),
    }
}

/// Makes the fields those of the header.
fn set_header(fields: &mut ByteRecord, names: &[Text]) -> Result<(), AllocError>
    ensures { OnOk result (fields_of fields.new ≡ header_of names.now) }
{
    fields.clear();
    fields.push_field(b"key")?;
    for name in names {
        fields.push_field(name.as_bytes())?;
    }
    Ok(())
}

/// Puts the records of rows behind a text, as the writer writes them: no field of theirs needs quotes.
fn push_rows(bytes: &mut Vec<u8>, rows: &[(Key, Row)]) -> Result<(), AllocError>
    ensures { OnOk result (bytes.new.items ≡ bytes.old.items ++ text_of_records (map record_of_row rows.now)) }
{
    for (key, row) in rows {
        push_row(bytes, *key, row)?;
    }
    Ok(())
}

/// Puts the record of a row behind a text.
fn push_row(bytes: &mut Vec<u8>, key: Key, row: &Row) -> Result<(), AllocError>
    ensures { OnOk result (bytes.new.items ≡ bytes.old.items ++ row_text default_writer (record_of_row (key, row.now))) }
{
    push_number(bytes, key)?;
    for column in 0..row.len() {
        push_cell(bytes, row.cell(column as u32))?;
    }
    bytes.push(b'\n')?;
    Ok(())
}

/// Puts a comma and a cell behind a text: a number, or nothing for null.
fn push_cell(bytes: &mut Vec<u8>, cell: Option<u64>) -> Result<(), AllocError>
    ensures { OnOk result (bytes.new.items ≡ bytes.old.items ++ fields_text default_writer (field_of_cell cell ∷ [])) }
{
    bytes.push(b',')?;
    match cell {
        Some(number) => push_number(bytes, number),
        None => Ok(()),
    }
}

/// Puts a number behind a text, as a field, which needs no quotes.
#[inline]
fn push_number(bytes: &mut Vec<u8>, number: u64) -> Result<(), AllocError>
    ensures { OnOk result (bytes.new.items ≡ bytes.old.items ++ field_text default_writer (decimal number)) }
{
    lst_script::push_number(bytes, number)
}
