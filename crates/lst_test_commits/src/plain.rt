//! A plain decoder of blocks, which keeps every version.

use lst_historic::BlockFault;
use lst_model::Row;
use std::alloc::Global;

/// The cells of a row, and None behind its last column.
type Cells = [Option<u64>; 8];

/// A version of a key: its cells, or None where the key is absent.
#[derive(Clone, Copy)]
pub(crate) struct Version {
    pub key: u64,
    pub time: u64,
    cells: Option<Cells>,
}

/// What is read of a block.
#[derive(Drop)]
pub(crate) struct Plain {
    columns: usize,
    pub until: u64,
    pub versions: Vec<Version>,
}

/// Bytes, and how many of them were read.
#[derive(Drop)]
struct Reader<'a> {
    bytes: &'a [u8],
    place: usize,
}

impl Reader<'_> {
    /// The next byte.
    fn byte(&mut self) -> Result<u8, BlockFault> {
        match self.bytes.get(self.place) {
            Some(byte) => {
                self.place = self.place.wrapping_add(1);
                Ok(*byte)
            }
            None => Err(BlockFault::BadBlock),
        }
    }

    /// The next number.
    fn number(&mut self) -> Result<u64, BlockFault> {
        let mut number = 0u128;
        let mut scale = 1u128;
        for count in 0..10u32 {
            let byte = self.byte()?;
            number = number.wrapping_add(u128::from(byte % 128).wrapping_mul(scale));
            scale = scale.wrapping_mul(128);
            if byte < 128 {
                return match u64::try_from(number) {
                    Ok(number) if byte > 0 || count == 0 => Ok(number),
                    _ => Err(BlockFault::BadBlock),
                };
            }
        }
        Err(BlockFault::BadBlock)
    }

    /// The next number that is above 0, and no more than this.
    fn gap(&mut self, most: u64) -> Result<u64, BlockFault> {
        let gap = self.number()?;
        if gap == 0 || gap > most {
            return Err(BlockFault::BadBlock);
        }
        Ok(gap)
    }

    /// The cell behind an old one. Its column may be in the mask and among the nulls.
    fn cell(
        &mut self,
        old: Option<u64>,
        masked: bool,
        null: bool,
    ) -> Result<Option<u64>, BlockFault> {
        let new = match (masked, null) {
            (false, false) => return Ok(old),
            (false, true) => return Err(BlockFault::BadBlock),
            (true, true) => None,
            (true, false) => Some(moved(old.unwrap_or(0), self.number()?)),
        };
        if new == old {
            return Err(BlockFault::BadBlock);
        }
        Ok(new)
    }

    /// The cells of the next version, behind those of the one before it.
    fn cells(&mut self, columns: usize, last: Option<Cells>) -> Result<Option<Cells>, BlockFault> {
        let tag = self.number()?;
        if tag == 0 {
            return Ok(None);
        }
        let mut mask = tag.wrapping_sub(1) % 256;
        let mut nulls = tag.wrapping_sub(1) / 256;
        let last = last.unwrap_or([Some(0); 8]);
        let mut cells = [None; 8];
        for column in 0..columns.min(8) {
            cells[column] = self.cell(last[column], mask % 2 == 1, nulls % 2 == 1)?;
            mask /= 2;
            nulls /= 2;
        }
        if mask > 0 || nulls > 0 {
            return Err(BlockFault::BadBlock);
        }
        Ok(Some(cells))
    }
}

/// The number whose difference from another has this code.
fn moved(old: u64, code: u64) -> u64 {
    if code % 2 == 0 {
        old.wrapping_add(code / 2)
    } else {
        old.wrapping_sub(code / 2).wrapping_sub(1)
    }
}

/// Reads the versions of a key.
fn read_key(reader: &mut Reader<'_>, plain: &mut Plain, key: u64) -> Result<(), BlockFault> {
    let count = reader.number()?;
    if count == 0 {
        return Err(BlockFault::BadBlock);
    }
    let mut time = 0u64;
    let mut cells = None;
    for _ in 0..count {
        time = time.wrapping_add(reader.gap(plain.until.saturating_sub(time))?);
        cells = reader.cells(plain.columns, cells)?;
        if plain.versions.push(Version { key, time, cells }).is_err() {
            return Err(BlockFault::OutOfMemory);
        }
    }
    Ok(())
}

/// Reads all keys.
fn read_keys(reader: &mut Reader<'_>, plain: &mut Plain) -> Result<(), BlockFault> {
    let count = reader.number()?;
    let mut key = 0u64;
    for index in 0..count {
        let gap = reader.number()?;
        if index > 0 && gap == 0 || gap > u64::MAX.wrapping_sub(key) {
            return Err(BlockFault::BadBlock);
        }
        key = key.wrapping_add(gap);
        read_key(reader, plain, key)?;
    }
    Ok(())
}

/// All versions of a block.
pub(crate) fn decoded(alloc: Global, bytes: &[u8]) -> Result<Plain, BlockFault> {
    let mut reader = Reader { bytes, place: 0 };
    let columns = reader.gap(8)? as usize;
    let mut plain = Plain {
        columns,
        until: reader.number()?,
        versions: Vec::new(alloc),
    };
    read_keys(&mut reader, &mut plain)?;
    if reader.place < bytes.len() {
        return Err(BlockFault::BadBlock);
    }
    Ok(plain)
}

impl Plain {
    /// The cells of a key as of a time, which are those of its last version by then.
    fn cells(&self, key: u64, time: u64) -> Option<Cells> {
        let mut cells = None;
        for version in &self.versions {
            if version.key == key && version.time <= time {
                cells = version.cells;
            }
        }
        cells
    }

    /// Whether this is a key's row as of a time.
    pub(crate) fn has(&self, key: u64, time: u64, row: &Option<Row>) -> bool {
        match (self.cells(key, time), row) {
            (None, None) => true,
            (Some(cells), Some(row)) => self.is_row(&cells, row),
            _ => false,
        }
    }

    /// Whether a row has these cells.
    fn is_row(&self, cells: &Cells, row: &Row) -> bool {
        row.len() == self.columns
            && (0..8u32)
                .zip(cells)
                .all(|(column, cell)| row.get(column) == *cell)
    }
}
