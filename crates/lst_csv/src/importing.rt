//! The script of a table, which is read from its records.
ghost use Rattle.std.specs.Prelude.{◌≡◌, ℕ, ◌≤◌, List, [], None, IfOk, IfErr, OnOk, length};
ghost use Rattle.lst_csv.specs.Importing.{import_of};
ghost use Rattle.lst_csv.specs.Records.{records_of};
ghost use Rattle.lst_csv.specs.Reading.{IsReading, HasHeader, HasLines};
ghost use Rattle.lst_csv.specs.Tables.{Explains, ExplainsRest, table_fault};

use crate::faults::{TableFault, TableRefusal};
use crate::fields::{is_header, names_behind};
use crate::inserting::{begun, heads_of, push_record};
use crate::keys::Keys;
use crate::reading::{next, reader_over};
use csv::{ByteRecord, Reader};
use lst_model::Text;
use lst_names::Names;
use std::alloc::Global;

/// The place of the record that makes too many rows.
const TOO_FAR: u64 = 16_386;

/// How many keys have a flag each, by which they are found again.
const FLAGS: usize = 65_536;

/// The script that a table of this many columns stands for: the header of version 2 with its names, and one transaction of session 0 with an insert
/// for each record, in their order. A table is the record of the word `key` and the names of the columns, and then a record for each row, with
/// its key and its cells, the empty one null.
///
/// `Bad` comes exactly where some record is faulty. It has the place of the first such record, counted from 1, and what is wrong with it. A text
/// without a record has a bad header. `OutOfMemory` may be answered for any bytes, and says nothing of them.
pub fn import_text(alloc: Global, bytes: &[u8], columns: u32) -> Result<Text, TableRefusal>
    requires { columns ≤ 8 }
    ensures ok { IfOk result (λ text. (table_fault columns (records_of bytes.now) ≡ None) × (text ≡ import_of (records_of bytes.now))) }
    ensures bad { IfErr result (Explains columns (records_of bytes.now)) }
{
    let mut reader = reader_over(alloc, bytes);
    let mut fields = ByteRecord::new(alloc);
    let names = match read_header(alloc, &mut reader, &mut fields, columns) {
        Ok(names) => names,
        Err(refusal) => return Err(refusal),
    };
    let heads = heads_of(alloc, names.items())?;
    let mut script = begun(alloc, names)?;
    match push_lines(alloc, &mut script, heads.items(), &mut reader, &mut fields) {
        Ok(()) => {}
        Err(refusal) => return Err(refusal),
    }
    script.extend_from_slice(b"0 commit\n")?;
    Ok(Text::from_bytes(script))
}

/// The names that the first record has.
fn read_header(
    alloc: Global,
    reader: &mut Reader<&[u8]>,
    fields: &mut ByteRecord,
    columns: u32,
) -> Result<Names, TableRefusal>
    ensures ok { IfOk result (λ names. (records : List (List (List ℕ))) → IsReading reader.old records → HasHeader columns records names reader.new) }
    ensures bad { IfErr result (λ refusal. (records : List (List (List ℕ))) → IsReading reader.old records → Explains columns records refusal) }
{
    if !next(reader, fields)? {
        return Err(TableRefusal::Bad {
            place: 1,
            kind: TableFault::BadHeader,
        });
    }
    let names = names_behind(alloc, fields)?;
    if !is_header(fields, names.items(), columns) {
        return Err(TableRefusal::Bad {
            place: 1,
            kind: TableFault::BadHeader,
        });
    }
    Ok(names)
}

/// Puts the lines that insert the rows of the records behind the header behind a text, each as its record is read.
fn push_lines(
    alloc: Global,
    bytes: &mut Vec<u8>,
    heads: &[Text],
    reader: &mut Reader<&[u8]>,
    fields: &mut ByteRecord,
) -> Result<(), TableRefusal>
    ensures ok { OnOk result ((records : List (List (List ℕ))) → IsReading reader.old records → HasLines heads.now records bytes.old.items bytes.new.items) }
    ensures bad { IfErr result (λ refusal. (records : List (List (List ℕ))) → IsReading reader.old records → ExplainsRest (length heads.now) 2 [] records refusal) }
{
    let mut keys = Keys::new(alloc, FLAGS)?;
    for place in 2..TOO_FAR {
        if !next(reader, fields)? {
            return Ok(());
        }
        let key = match push_record(bytes, heads, fields)? {
            Ok(key) => key,
            Err(kind) => return Err(TableRefusal::Bad { place, kind }),
        };
        if !keys.insert(key)? {
            return Err(TableRefusal::Bad {
                place,
                kind: TableFault::RepeatedKey,
            });
        }
    }
    if next(reader, fields)? {
        return Err(TableRefusal::Bad {
            place: TOO_FAR,
            kind: TableFault::TooManyRows,
        });
    }
    Ok(())
}
