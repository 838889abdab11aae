//! The encoding word of a tail record.
ghost use Rattle.std.specs.Prelude.{◌≡◌, ◌<◌, ◌≤◌, ◌-◌, ◌^◌, ◌↔◌, IsTrue};
ghost use Rattle.lst_bits.specs.Encodings.{encoding_word, encoding_of, IsEncoding, IsEncodingWord, HasColumn, AreWithin, slot_of, has_number, EncodingsArePacked};

/// What kind of write a tail record holds.
#[derive(Clone, Copy, PartialEq, Eq, Debug)]
pub enum Kind {
    /// The whole row.
    Put,
    /// Some columns of the row.
    Set,
    /// The row is deleted.
    Del,
}

/// What the encoding word of a tail record says.
#[derive(Clone, Copy, PartialEq, Eq, Debug)]
pub struct Encoding {
    /// Bit c is set where the tail record holds column c.
    pub mask: u8,
    pub kind: Kind,
    /// The record's slot in its range.
    pub slot: u8,
    /// Bit c is set where column c is null. The mask holds each of these.
    pub nulls: u8,
}

/// The encoding word: 8 bits each of mask, kind (1 put, 2 set, 3 delete), slot and nulls, lowest first.
pub fn pack_encoding(e: Encoding) -> u64
    requires { AreWithin e.nulls e.mask }
    ensures word { result ≡ encoding_word e }
    ensures image { IsEncodingWord result }
{
    let code = match e.kind {
        Kind::Put => 1,
        Kind::Set => 2,
        Kind::Del => 3,
    };
    e.mask as u64 + 256 * code + 65_536 * e.slot as u64 + 16_777_216 * e.nulls as u64
}

/// What an encoding word says.
pub fn unpack_encoding(word: u64) -> Encoding
    requires { IsEncodingWord word }
    ensures encoding { result ≡ encoding_of word }
    ensures range { IsEncoding result }
    ensures word { encoding_word result ≡ word }
{
    let kind = match word / 256 % 256 {
        1 => Kind::Put,
        2 => Kind::Set,
        _ => Kind::Del,
    };
    Encoding {
        mask: (word % 256) as u8,
        kind,
        slot: (word / 65_536 % 256) as u8,
        nulls: (word / 16_777_216) as u8,
    }
}

/// The mask that holds each of this many columns.
pub fn full_mask(columns: u32) -> u8
    requires { columns ≤ 8 }
    ensures { result ≡ 2 ^ columns - 1 }
{
    ((1u32 << columns) - 1) as u8
}

/// Whether a mask holds this column.
pub fn has_column(mask: u8, column: u32) -> bool
    requires { column < 8 }
    ensures { IsTrue result ↔ HasColumn mask column }
{
    mask >> column & 1 == 1
}

/// The slot that an encoding word tells.
#[inline(always)]
pub fn slot(word: u64) -> u32
    ensures { result ≡ slot_of word }
{
    (word / 65_536 % 256) as u32
}

/// Whether a tail record with this encoding word holds a column with a number: its mask has the column, which isn't null.
#[inline(always)]
pub fn holds_number(word: u64, column: u32) -> bool
    requires { column < 8 }
    ensures { result ≡ has_number word column }
{
    (word % 256) >> column & 1 == 1 && (word / 16_777_216) >> column & 1 != 1
}

/// Packing and unpacking undo one another.
pub fn encodings_are_packed()
    ensures { EncodingsArePacked }
{}
