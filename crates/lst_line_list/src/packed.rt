//! What an insert or an update sets, in little room.
ghost use Rattle.std.specs.Prelude.{◌≡◌, ◌<◌, ◌≤◌, [], ◌∷◌, ◌++◌, Some, None, false, length, map, is_some, unwrap_or, slice_index_or, slice_set};
ghost use Rattle.std.specs.List.{list_any};
ghost use Rattle.lst_model.specs.Cells.{null_bits, bits_to_null, bits_set, changed_number};

use arrayvec::ArrayVec;
use std::marker::Model;

/// What becomes of the columns, one after the other, at most eight: None leaves a column as it is, Some None makes it null, and Some of a number sets that
/// number. A contract sees the list of these. Each column has a number, and bit c of the two masks stands for column c.
#[derive(Drop)]
pub struct PackedPatch {
    numbers: ArrayVec<u64, 8>,
    set: u8,
    nulls: u8,
}

impl Model for PackedPatch {
    ghost use Rattle.std.specs.Prelude.{List, Option, ℕ};

    ghost Value = { List (Option (Option ℕ)) };

    ghost use Rattle.lst_line_list.specs.Packed.{patch_of, ArePacked};

    ghost view = { λ p. patch_of p.set p.nulls p.numbers.items };

    ghost invariant = { λ p. ArePacked p.set p.nulls p.numbers.items (patch_of p.set p.nulls p.numbers.items) };
}

impl PackedPatch {
    /// A patch of no column.
    #[inline(always)]
    pub fn new() -> PackedPatch
        ensures { result ≡ [] }
    {
        PackedPatch {
            numbers: ArrayVec::new(),
            set: 0,
            nulls: 0,
        }
    }

    /// Adds what one more column becomes, behind the others.
    #[inline(always)]
    pub fn push(&mut self, change: Option<Option<u64>>)
        requires { length self.old < 8 }
        ensures { self.new ≡ self.old ++ change ∷ [] }
    {
        match change {
            None => self.numbers.push(0),
            Some(None) => {
                self.set += 1 << self.numbers.len();
                self.nulls += 1 << self.numbers.len();
                self.numbers.push(0);
            }
            Some(Some(number)) => {
                self.set += 1 << self.numbers.len();
                self.numbers.push(number);
            }
        }
    }

    /// Whether a column is set, counted from 0.
    #[inline(always)]
    pub fn is_set(&self, column: u32) -> bool
        requires { column < length self.now }
        ensures { result ≡ is_some (slice_index_or self.now column None) }
    {
        self.set >> column & 1 == 1
    }

    /// Sets a column that isn't set: to a number, or to null where it is None.
    #[inline(always)]
    pub fn set(&mut self, column: u32, cell: Option<u64>)
        requires within { column < length self.old }
        requires free { is_some (slice_index_or self.old column None) ≡ false }
        ensures { self.new ≡ slice_set self.old column (Some cell) }
    {
        self.set = self.set + (1 << column);
        match cell {
            Some(number) => self.numbers.as_mut_slice()[column as usize] = number,
            None => self.nulls += 1 << column,
        }
    }

    /// Whether some column is set.
    #[inline(always)]
    pub fn sets_some(&self) -> bool
        ensures { result ≡ list_any is_some self.now }
    {
        self.set != 0
    }

    /// The numbers of the columns: 0 where a column stays as it is or becomes null.
    #[inline(always)]
    pub(crate) fn numbers(&self) -> &[u64]
        ensures numbers { result.now ≡ map changed_number self.now }
        ensures few { length result.now ≤ 8 }
    {
        self.numbers.as_slice()
    }

    /// The bits of the columns that are set.
    #[inline(always)]
    pub(crate) fn set_bits(&self) -> u8
        ensures { result ≡ bits_set self.now }
    {
        self.set
    }

    /// The bits of the columns that become null.
    #[inline(always)]
    pub(crate) fn null_bits(&self) -> u8
        ensures { result ≡ bits_to_null self.now }
    {
        self.nulls
    }

    /// The bits of the null columns of a row of these, in which a column that isn't set is null.
    #[inline(always)]
    pub(crate) fn row_null_bits(&self) -> u8
        ensures { result ≡ null_bits (map (λ change. unwrap_or change None) self.now) }
    {
        let columns = (1u32 << self.numbers.len()) - 1;
        (columns - u32::from(self.set) + u32::from(self.nulls)) as u8
    }
}
