//! The first line of a script of version 2, which names the columns.
ghost use Rattle.std.specs.Prelude.{◌≡◌, ◌∷◌, ◌++◌, Err, IfOk, codes, bytes_eq, decimal};
ghost use Rattle.lst_script.specs.Texts.{texts};
ghost use Rattle.lst_script.specs.Headers.{default_names as default_names_of};
ghost use Rattle.lst_script.specs.Reading.{ReadsHeader};

use crate::faults::{FaultKind, ScriptFault};
use lst_model::{OutOfMemory, Text};
use lst_names::{Names, are_names};
use std::alloc::Global;

/// Whether a word opens a header.
pub fn opens_header(word: &[u8]) -> bool
    ensures { result ≡ bytes_eq word.now (codes "version") }
{
    word == b"version".as_slice()
}

/// Whether a word is the number of the version whose scripts have a header.
fn is_version(word: &[u8]) -> bool
    ensures { result ≡ bytes_eq word.now (codes "2") }
{
    word == b"2".as_slice()
}

/// The names of a header, from the words behind its first one, for a table with so many columns. The header is the line with this
/// number, counted from 1.
pub fn read_header(
    alloc: Global,
    words: &[&[u8]],
    number: u64,
    columns: u32,
) -> Result<Names, ScriptFault>
    ensures { ReadsHeader number columns (codes "version" ∷ texts words.now) result }
{
    let Some((version, names)) = words.split_first() else {
        return bad(number, FaultKind::BadVersion);
    };
    if !is_version(version) {
        return bad(number, FaultKind::BadVersion);
    }
    if names.len() != columns as usize {
        return bad(number, FaultKind::BadCount);
    }
    let found = names_of(alloc, names)?;
    if !are_names(found.items(), columns) {
        return bad(number, FaultKind::BadName);
    }
    Ok(found)
}

/// The fault of a header.
fn bad(line: u64, kind: FaultKind) -> Result<Names, ScriptFault>
    ensures { result ≡ Err (ScriptFault.Bad line kind) }
{
    Err(ScriptFault::Bad { line, kind })
}

/// Words as names.
fn names_of(alloc: Global, words: &[&[u8]]) -> Result<Names, OutOfMemory>
    ensures { IfOk result (λ names. names ≡ texts words.now) }
{
    let mut names = Names::new(alloc);
    for word in words {
        let mut name = Text::new(alloc);
        name.push_bytes(word)?;
        names.push(name)?;
    }
    Ok(names)
}

/// The names of so many columns in a script that gives them none: c0, c1 and so on.
pub fn default_names(alloc: Global, columns: u32) -> Result<Names, OutOfMemory>
    ensures { IfOk result (λ names. names ≡ default_names_of columns) }
{
    let mut names = Names::new(alloc);
    for column in 0..columns {
        let name = default_name(alloc, column)?;
        names.push(name)?;
    }
    Ok(names)
}

/// The name of a column in a script that gives it none.
fn default_name(alloc: Global, column: u32) -> Result<Text, OutOfMemory>
    ensures { IfOk result (λ name. name ≡ codes "c" ++ decimal column) }
{
    let mut name = Text::new(alloc);
    let mut buffer = itoa::Buffer::new();
    name.push_bytes(b"c")?;
    name.push_bytes(buffer.format(column).as_bytes())?;
    Ok(name)
}
