//! The fields of a record, and those of a header as names.
ghost use Rattle.std.specs.Prelude.{◌≡◌, drop, IfOk};
ghost use Rattle.csv.specs.Records.{fields_of};
ghost use Rattle.lst_csv.specs.Tables.{field_at, is_header as is_header_of};

use csv::ByteRecord;
use lst_model::{OutOfMemory, Text};
use lst_names::{Names, are_names};
use std::alloc::Global;

/// The field at a place, which is empty where there is none.
pub(crate) fn field(fields: &ByteRecord, place: usize) -> &[u8]
    ensures { result.now ≡ field_at (fields_of fields.now) place }
{
    match fields.get(place) {
        Some(field) => field,
        None => &[],
    }
}

/// The fields behind the first, as names.
pub(crate) fn names_behind(alloc: Global, fields: &ByteRecord) -> Result<Names, OutOfMemory>
    ensures { IfOk result (λ names. names ≡ drop 1 (fields_of fields.now)) }
{
    let mut names = Names::new(alloc);
    for place in 1..fields.len() {
        let name = field(fields, place).to_vec(alloc)?;
        names.push(Text::from_bytes(name))?;
    }
    Ok(names)
}

/// Whether the fields are a header: the word `key`, and names of this many columns.
pub(crate) fn is_header(fields: &ByteRecord, names: &[Text], columns: u32) -> bool
    requires { names.now ≡ drop 1 (fields_of fields.now) }
    ensures { result ≡ is_header_of columns (fields_of fields.now) }
{
    !fields.is_empty() && field(fields, 0) == b"key".as_slice() && are_names(names, columns)
}
