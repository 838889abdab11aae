//! Drawn tables, whole and with each byte changed, against a plain reader.

use crate::texts::{next_drawn, same, with_byte};
use lst_csv::{TableFault, TableRefusal, import_text};
use lst_model::OutOfMemory;
use std::alloc::Global;
use std::mem::replace;
use std::process::Abort;

/// The fields of a record, and the records of a text.
type Fields = Vec<Vec<u8>>;

/// Where the plain reader is.
#[derive(Clone, Copy, PartialEq, Eq)]
enum At {
    Record,
    Field,
    Bare,
    Quoted,
    Quote,
}

/// What the plain reader has read: the records, the fields of the next one, the bytes of its next field, and where it is.
#[derive(Drop)]
struct Reader {
    records: Vec<Fields>,
    record: Fields,
    field: Vec<u8>,
    at: At,
}

impl Reader {
    fn new(alloc: Global) -> Reader {
        Reader {
            records: Vec::new(alloc),
            record: Vec::new(alloc),
            field: Vec::new(alloc),
            at: At::Record,
        }
    }

    fn end_field(&mut self, alloc: Global) -> Result<(), OutOfMemory> {
        let field = replace(&mut self.field, Vec::new(alloc));
        self.record.push(field)?;
        Ok(())
    }

    fn end_record(&mut self, alloc: Global) -> Result<(), OutOfMemory> {
        self.end_field(alloc)?;
        let record = replace(&mut self.record, Vec::new(alloc));
        self.records.push(record)?;
        Ok(())
    }

    /// Reads a byte, and tells where the reader is behind it.
    fn read(&mut self, alloc: Global, byte: u8) -> Result<At, OutOfMemory> {
        match (self.at, byte) {
            (At::Quoted, b'"') => Ok(At::Quote),
            (At::Quote, b'"') | (At::Quoted, _) => {
                self.field.push(byte)?;
                Ok(At::Quoted)
            }
            (At::Record, b'\n' | b'\r') => Ok(At::Record),
            (_, b',') => {
                self.end_field(alloc)?;
                Ok(At::Field)
            }
            (_, b'\n' | b'\r') => {
                self.end_record(alloc)?;
                Ok(At::Record)
            }
            (At::Record | At::Field, b'"') => Ok(At::Quoted),
            _ => {
                self.field.push(byte)?;
                Ok(At::Bare)
            }
        }
    }
}

/// The records of a text, byte by byte.
fn records(alloc: Global, text: &[u8]) -> Result<Vec<Fields>, OutOfMemory> {
    let mut reader = Reader::new(alloc);
    for byte in text {
        reader.at = reader.read(alloc, *byte)?;
    }
    if reader.at != At::Record {
        reader.end_record(alloc)?;
    }
    Ok(reader.records)
}

/// The number that digits are.
fn number(field: &[u8]) -> Option<u64> {
    if field.is_empty() || field.len() > 20 {
        return None;
    }
    let mut value = 0u128;
    for byte in field {
        if !byte.is_ascii_digit() {
            return None;
        }
        value = value
            .wrapping_mul(10)
            .wrapping_add(u128::from(byte.wrapping_sub(b'0')));
    }
    if value <= u128::from(u64::MAX) {
        Some(value as u64)
    } else {
        None
    }
}

/// Whether a field is the name of a column.
fn is_name(field: &[u8]) -> bool {
    let is_formed = field
        .iter()
        .all(|byte| matches!(*byte, b'a'..=b'z' | b'0'..=b'9' | b'_'));
    is_formed && field.len() <= 16 && matches!(field, [b'a'..=b'z', ..])
}

/// Whether a record names two columns.
fn is_header(record: &[Vec<u8>]) -> bool {
    match record {
        [key, first, second] => {
            key.as_slice() == b"key".as_slice()
                && is_name(first.as_slice())
                && is_name(second.as_slice())
                && first.as_slice() != second.as_slice()
        }
        _ => false,
    }
}

/// What is wrong with a record, whose key stands behind the keys before it.
fn fault_in(record: &[Vec<u8>], keys: &mut Vec<u64>) -> Result<Option<TableFault>, OutOfMemory> {
    let [key, first, second] = record else {
        return Ok(Some(TableFault::BadLength));
    };
    let Some(key) = number(key.as_slice()) else {
        return Ok(Some(TableFault::BadField));
    };
    for cell in [first, second] {
        if !cell.is_empty() && number(cell.as_slice()).is_none() {
            return Ok(Some(TableFault::BadField));
        }
    }
    if keys.iter().any(|other| *other == key) {
        return Ok(Some(TableFault::RepeatedKey));
    }
    keys.push(key)?;
    Ok(None)
}

/// The first faulty record among rows, which stand behind a header, and its fault.
fn fault_among(alloc: Global, rows: &[Fields]) -> Result<Option<(u64, TableFault)>, OutOfMemory> {
    let mut keys = Vec::new(alloc);
    let mut place = 2u64;
    for row in rows {
        if let Some(kind) = fault_in(row.as_slice(), &mut keys)? {
            return Ok(Some((place, kind)));
        }
        place = place.wrapping_add(1);
    }
    Ok(None)
}

/// The first faulty record of a text, and its fault.
fn plain_fault(alloc: Global, text: &[u8]) -> Result<Option<(u64, TableFault)>, OutOfMemory> {
    let records = records(alloc, text)?;
    match records.as_slice() {
        [header, rows @ ..] if is_header(header.as_slice()) => fault_among(alloc, rows),
        _ => Ok(Some((1, TableFault::BadHeader))),
    }
}

/// The first faulty record that `import_text` names.
fn fault_told(alloc: Global, text: &[u8]) -> Result<Option<(u64, TableFault)>, OutOfMemory> {
    match import_text(alloc, text, 2) {
        Ok(_) => Ok(None),
        Err(TableRefusal::Bad { place, kind }) => Ok(Some((place, kind))),
        Err(TableRefusal::OutOfMemory) => Err(OutOfMemory),
    }
}

/// A cell in one of several spellings.
fn cell_of(drawn: u64) -> &'static str {
    match (drawn >> 40) % 8 {
        0 | 1 => "",
        2 => "5",
        3 => "\"17\"",
        4 => "007",
        5 => "\"\"",
        6 => "18446744073709551615",
        _ => "340",
    }
}

/// The end of a record in one of several spellings.
fn end_of(drawn: u64) -> &'static str {
    match (drawn >> 40) % 4 {
        0 => "\r\n",
        1 => "\r",
        2 => "\n\n",
        _ => "\n",
    }
}

/// Adds a record of this key to a table, with two cells and an end that are drawn.
fn push_drawn(table: &mut Vec<u8>, key: &str, drawn: &mut u64) -> Result<(), OutOfMemory> {
    table.extend_from_slice(key.as_bytes())?;
    for _ in 0..2 {
        *drawn = next_drawn(*drawn);
        table.push(b',')?;
        table.extend_from_slice(cell_of(*drawn).as_bytes())?;
    }
    *drawn = next_drawn(*drawn);
    table.extend_from_slice(end_of(*drawn).as_bytes())?;
    Ok(())
}

/// A table of three rows from a seed.
fn drawn_table(alloc: Global, seed: u64) -> Result<Vec<u8>, OutOfMemory> {
    let mut table = b"key,qty,price\n".to_vec(alloc)?;
    let mut drawn = seed;
    for key in ["1", "22", "\"3\""] {
        push_drawn(&mut table, key, &mut drawn)?;
    }
    Ok(table)
}

/// A table whose first faulty record is named as the plain reader finds it.
fn is_read_plainly(
    rt: &impl Abort,
    alloc: Global,
    table: &[u8],
    at: (u64, usize, u8),
) -> Result<(), OutOfMemory> {
    let plain = plain_fault(alloc, table)?;
    same(rt, fault_told(alloc, table)?, plain, at);
    Ok(())
}

#[test]
fn drawn_tables_have_no_fault(rt: HostRuntime) -> Result<(), OutOfMemory> {
    for seed in 0..64 {
        let table = drawn_table(rt.alloc(), seed)?;
        let plain = plain_fault(rt.alloc(), table.as_slice())?;
        same(&rt, plain, None, seed);
        let told = fault_told(rt.alloc(), table.as_slice())?;
        same(&rt, told, None, seed);
    }
    Ok(())
}

/// A table from a seed is read plainly with this byte at a place.
fn is_changed_and_read(
    rt: &impl Abort,
    alloc: Global,
    table: &[u8],
    at: (u64, usize, u8),
) -> Result<(), OutOfMemory> {
    let text = with_byte(alloc, table, at.1, at.2)?;
    is_read_plainly(rt, alloc, text.as_slice(), at)
}

#[test]
fn drawn_tables_with_a_byte_changed_are_read_plainly(rt: HostRuntime) -> Result<(), OutOfMemory> {
    for seed in 0..4 {
        let table = drawn_table(rt.alloc(), seed)?;
        for place in 0..table.len() {
            for byte in b",\"\n\r05aA \xef".as_slice() {
                let at = (seed, place, *byte);
                is_changed_and_read(&rt, rt.alloc(), table.as_slice(), at)?;
            }
        }
    }
    Ok(())
}
