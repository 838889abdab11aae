//! The names of a table's columns.
ghost use Rattle.std.specs.Prelude.{◌≡◌, ◌==◌, List, [], ◌∷◌, ◌++◌, length, OnOk, OnErr, slice_index, bytes_eq};
ghost use Rattle.std.specs.List.{list_all, list_any};
ghost use Rattle.lst_names.specs.Names.{is_letter, is_name_byte, is_name as is_name_of, are_names as are_names_of, are_different as are_different_of};

use lst_model::{OutOfMemory, Text};
use std::alloc::Global;
use std::marker::Model;

/// The names of a table's columns, in their order. A contract sees the list of them.
#[derive(Drop)]
pub struct Names {
    items: Vec<Text>,
}

impl Model for Names {
    ghost use Rattle.std.specs.Prelude.{List, ℕ};

    ghost Value = { List (List ℕ) };

    ghost view = { λ n. n.items.items };
}

impl Names {
    /// No names.
    pub fn new(alloc: Global) -> Names
        ensures { result ≡ [] }
    {
        Names {
            items: Vec::new(alloc),
        }
    }

    /// These names.
    pub fn from_items(items: Vec<Text>) -> Names
        ensures { result ≡ items.items }
    {
        Names { items }
    }

    /// The names, which take no memory anew.
    pub fn into_items(self) -> Vec<Text>
        ensures { result.items ≡ self }
    {
        self.items
    }

    /// The names, in order.
    pub fn items(&self) -> &[Text]
        ensures { result.now ≡ self.now }
    {
        self.items.as_slice()
    }

    /// The number of names.
    pub fn len(&self) -> usize
        ensures { result ≡ length self.now }
    {
        self.items.len()
    }

    /// Whether there is none.
    pub fn is_empty(&self) -> bool
        ensures { result ≡ (length self.now == 0) }
    {
        self.items.is_empty()
    }

    /// Adds a name at the end. For want of memory the names stay as they are.
    pub fn push(&mut self, name: Text) -> Result<(), OutOfMemory>
        ensures ok { OnOk result (self.new ≡ self.old ++ name ∷ []) }
        ensures err { OnErr result (self.new ≡ self.old) }
    {
        self.items.push(name)?;
        Ok(())
    }
}

/// Whether a word has the form of a name: 1 to 16 letters from a to z, digits and `_`, the first a letter.
pub fn is_name(word: &[u8]) -> bool
    ensures { result ≡ is_name_of word.now }
{
    begins_with_letter(word) && word.len() <= 16 && has_name_bytes(word)
}

/// Whether a name may have each of the bytes.
fn has_name_bytes(word: &[u8]) -> bool
    ensures { result ≡ list_all is_name_byte word.now }
{
    word.iter().all(|byte| is_of_name(*byte))
}

/// Whether the first byte is a letter.
fn begins_with_letter(word: &[u8]) -> bool
    ensures { result ≡ is_letter (slice_index word.now 0) }
{
    matches!(word, [b'a'..=b'z', ..])
}

/// Whether a name may have the byte.
fn is_of_name(byte: u8) -> bool
    ensures { result ≡ is_name_byte byte }
{
    byte.is_ascii_lowercase() || byte.is_ascii_digit() || byte == b'_'
}

/// Whether these are the names of a table with this many columns: as many, each in the form of a name, and no two the same.
pub fn are_names(names: &[Text], columns: u32) -> bool
    ensures { result ≡ are_names_of columns names.now }
{
    names.len() == columns as usize && are_formed(names) && are_different(names)
}

/// Whether each has the form of a name.
fn are_formed(names: &[Text]) -> bool
    ensures { result ≡ list_all is_name_of names.now }
{
    names.iter().all(|name| is_name(name.as_bytes()))
}

/// Whether no two are the same.
fn are_different(names: &[Text]) -> bool
    ensures { result ≡ are_different_of names.now }
{
    match names {
        [] => true,
        [name, rest @ ..] => !is_among(name.as_bytes(), rest) && are_different(rest),
    }
}

/// Whether a name is one of these.
fn is_among(name: &[u8], names: &[Text]) -> bool
    ensures { result ≡ list_any (λ other. bytes_eq other name.now) names.now }
{
    names.iter().any(|other| other.as_bytes() == name)
}
