//! Blocks in which one byte is changed: refused, or read as a plain decoder reads them.

use crate::blocks::{NULLS, PUT_AGAIN, STOCK, opened};
use crate::checks::{is_so, same};
use crate::plain::{Plain, Version, decoded};
use lst_historic::{BlockFault, Historic};
use lst_model::OutOfMemory;
use std::alloc::Global;
use std::process::Abort;
use std::test::Fail;

/// A key's row is read from the block as the plain decoder has it, as of a time.
fn is_read(rt: &impl Abort, plain: &Plain, block: &Historic, key: u64, time: u64) {
    let is_as_decoded = match block.row(key, time) {
        Ok(row) => plain.has(key, time, &row),
        Err(_) => false,
    };
    is_so(rt, is_as_decoded, (key, time));
}

/// A version's key, and the one above it, are read at the times around it.
fn are_read_around(rt: &impl Abort, plain: &Plain, block: &Historic, version: Version) {
    for time in [0, version.time.wrapping_sub(1), version.time, plain.until] {
        for key in [version.key, version.key.wrapping_add(1)] {
            is_read(rt, plain, block, key, time);
        }
    }
}

/// The bytes, of which one is another.
fn changed(alloc: Global, bytes: &[u8], place: usize, byte: u8) -> Result<Vec<u8>, OutOfMemory> {
    let mut changed = bytes.to_vec(alloc)?;
    if let Some(old) = changed.get_mut(place) {
        *old = byte;
    }
    Ok(changed)
}

/// Each version that the plain decoder read is read from the block.
fn are_read(rt: &impl Abort, plain: &Plain, block: &Historic) {
    same(rt, block.until(), plain.until, "until");
    for version in &plain.versions {
        are_read_around(rt, plain, block, *version);
    }
}

/// Bytes are refused as the plain decoder refuses them, or read as it reads them. Tells whether they are a block.
fn is_block(rt: &impl Abort, alloc: Global, bytes: &[u8]) -> Result<bool, Fail> {
    match (opened(alloc, bytes)?, decoded(alloc, bytes)) {
        (Err(BlockFault::BadBlock), Err(BlockFault::BadBlock)) => Ok(false),
        (Ok(block), Ok(plain)) => {
            are_read(rt, &plain, &block);
            Ok(true)
        }
        _ => Err(Fail::from("the bytes are a block for one of the two")),
    }
}

/// How many of the blocks with the byte at a place changed to each other one are blocks again.
fn blocks_changed_at(
    rt: &impl Abort,
    alloc: Global,
    bytes: &[u8],
    place: usize,
) -> Result<usize, Fail> {
    let mut blocks = 0usize;
    for byte in 0..=255u8 {
        let changed = changed(alloc, bytes, place, byte)?;
        if is_block(rt, alloc, changed.as_slice())? {
            blocks = blocks.wrapping_add(1);
        }
    }
    Ok(blocks)
}

/// A block with each byte changed to each other one: some are blocks again, and others are not.
fn changed_bytes_are_told(rt: &impl Abort, alloc: Global, bytes: &[u8]) -> Result<(), Fail> {
    is_so(rt, is_block(rt, alloc, bytes)?, "unchanged");
    let mut blocks = 0usize;
    for place in 0..bytes.len() {
        blocks = blocks.wrapping_add(blocks_changed_at(rt, alloc, bytes, place)?);
    }
    is_so(rt, blocks > bytes.len(), blocks);
    is_so(rt, blocks < bytes.len().wrapping_mul(256), blocks);
    Ok(())
}

#[test]
fn changed_bytes_of_a_row_are_told(rt: HostRuntime) -> Result<(), Fail> {
    changed_bytes_are_told(&rt, rt.alloc(), &PUT_AGAIN)
}

#[test]
fn changed_bytes_of_nulls_are_told(rt: HostRuntime) -> Result<(), Fail> {
    changed_bytes_are_told(&rt, rt.alloc(), &NULLS)
}

#[test]
fn changed_bytes_of_three_keys_are_told(rt: HostRuntime) -> Result<(), Fail> {
    changed_bytes_are_told(&rt, rt.alloc(), &STOCK)
}
