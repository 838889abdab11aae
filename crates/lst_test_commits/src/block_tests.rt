//! Blocks of worked histories, read at each time, and texts that are no blocks.

use crate::blocks::{CHANGED, NULLS, block_of, opened};
use crate::checks::same;
use arrayvec::ArrayVec;
use lst_historic::{BlockFault, Historic, Late, TableRefused};
use lst_model::{OutOfMemory, Row};
use std::alloc::Global;
use std::process::Abort;
use std::test::Fail;

/// What is wrong with a text, and the text.
const FAULTS: [(&str, &[u8]); 20] = [
    ("there are no bytes", &[]),
    ("1 is spelled in two bytes", &[2, 129, 0, 0]),
    (
        "the built time has 65 bits",
        &[2, 128, 128, 128, 128, 128, 128, 128, 128, 128, 2, 0],
    ),
    (
        "the second key has 65 bits",
        &[
            2, 1, 2, 255, 255, 255, 255, 255, 255, 255, 255, 255, 1, 1, 1, 0, 1, 1, 1, 0,
        ],
    ),
    ("there are no columns", &[0, 0, 0]),
    ("there are nine columns", &[9, 0, 0]),
    ("the keys don't rise", &[2, 1, 2, 7, 1, 1, 0, 0, 1, 1, 0]),
    ("a key has no version", &[2, 1, 1, 7, 0]),
    ("a time is 0", &[2, 1, 1, 7, 1, 0, 0]),
    ("a time doesn't rise", &[2, 2, 1, 7, 2, 1, 0, 0, 0]),
    ("a time is behind the built one", &[2, 1, 1, 7, 1, 2, 0]),
    ("the mask has a third column", &[2, 1, 1, 7, 1, 1, 5, 20]),
    ("a null isn't in the mask", &[2, 1, 1, 7, 1, 1, 130, 4, 20]),
    ("a null is in a third column", &[2, 1, 1, 7, 1, 1, 129, 8]),
    (
        "a number in the mask doesn't differ",
        &[2, 1, 1, 7, 1, 1, 2, 0],
    ),
    (
        "a null in the mask was null",
        &[2, 2, 1, 7, 2, 1, 130, 2, 1, 130, 2],
    ),
    ("a key is wanting", &[2, 1, 1]),
    ("a version is wanting", &[2, 2, 1, 7, 2, 1, 0]),
    ("a code is wanting", &[2, 1, 1, 7, 1, 1, 4, 20]),
    ("a byte is left over", &[2, 0, 0, 0]),
];

/// The two cells of a row, or None where the key is absent.
type Cells = Option<(Option<u64>, Option<u64>)>;

/// The row of two cells.
fn row(cells: (Option<u64>, Option<u64>)) -> Row {
    let mut row = Row::of_numbers(ArrayVec::new());
    row.push(cells.0);
    row.push(cells.1);
    row
}

/// Each of these texts is refused.
fn are_refused(alloc: Global, faults: &[(&str, &[u8])]) -> Result<(), Fail> {
    for &(fault, bytes) in faults {
        if !matches!(opened(alloc, bytes)?, Err(BlockFault::BadBlock)) {
            return Err(Fail::from(fault));
        }
    }
    Ok(())
}

#[test]
fn text_with_each_fault_is_refused(rt: HostRuntime) -> Result<(), Fail> {
    are_refused(rt.alloc(), &FAULTS)
}

/// Keys have these cells as of these times.
fn rows_are(rt: &impl Abort, block: &Historic, rows: &[(u64, u64, Cells)]) {
    for &(key, time, cells) in rows {
        same(rt, block.row(key, time), Ok(cells.map(row)), (key, time));
    }
}

/// Of `CHANGED`, a key and a time each.
const CHANGED_ROWS: [(u64, u64, Cells); 5] = [
    (7, 0, None),
    (7, 1, Some((Some(10), Some(20)))),
    (7, 2, Some((Some(11), Some(20)))),
    (8, 2, None),
    (6, 2, None),
];

/// Of `NULLS`, a key and a time each.
const NULLS_ROWS: [(u64, u64, Cells); 6] = [
    (7, 1, Some((Some(10), None))),
    (7, 2, Some((Some(9), Some(0)))),
    (7, 3, Some((Some(9), Some(0)))),
    (7, 4, None),
    (3, 1, None),
    (3, 2, None),
];

#[test]
fn rows_are_read_at_each_time(rt: HostRuntime) -> Result<(), Fail> {
    let block = block_of(rt.alloc(), &CHANGED)?;
    same(&rt, block.until(), 2, "until");
    rows_are(&rt, &block, &CHANGED_ROWS);
    same(&rt, block.row(7, 3), Err(Late { until: 2 }), "late");
    Ok(())
}

#[test]
fn nulls_and_deletes_are_read_at_each_time(rt: HostRuntime) -> Result<(), Fail> {
    let block = block_of(rt.alloc(), &NULLS)?;
    rows_are(&rt, &block, &NULLS_ROWS);
    Ok(())
}

/// How many rows a table has as of a time.
fn rows_at(block: &Historic, alloc: Global, time: u64) -> Result<usize, TableRefused> {
    let table = block.table(alloc, time)?;
    Ok(table.items().len())
}

/// As of a time the three columns, of which the last isn't there, have these sums, and the table so many rows.
fn totals_are(
    rt: &impl Abort,
    alloc: Global,
    block: &Historic,
    time: u64,
    sums: (u128, u128),
    rows: usize,
) {
    same(rt, block.sum(0, time), Ok(sums.0), (0, time));
    same(rt, block.sum(1, time), Ok(sums.1), (1, time));
    same(rt, block.sum(2, time), Ok(0), (2, time));
    same(rt, rows_at(block, alloc, time), Ok(rows), time);
}

#[test]
fn sums_and_tables_are_of_each_time(rt: HostRuntime) -> Result<(), Fail> {
    let block = block_of(rt.alloc(), &CHANGED)?;
    for (time, sums, rows) in [(0, (0, 0), 0), (1, (10, 20), 1), (2, (11, 20), 1)] {
        totals_are(&rt, rt.alloc(), &block, time, sums, rows);
    }
    same(&rt, block.sum(0, 3), Err(Late { until: 2 }), (0, 3));
    let late = Err(TableRefused::Late { until: 2 });
    same(&rt, rows_at(&block, rt.alloc(), 3), late, 3);
    Ok(())
}

/// The block of a thousand keys with so many versions each, of which each adds a small number to the first column.
fn thousand_keys(alloc: Global, versions: u8) -> Result<Vec<u8>, OutOfMemory> {
    let mut bytes = Vec::new(alloc);
    bytes.extend_from_slice(&[2, versions, 232, 7])?;
    for key in 0..1000u32 {
        bytes.extend_from_slice(&[1, versions])?;
        for _ in 0..versions {
            bytes.extend_from_slice(&[1, 2, (key % 50) as u8 * 2 + 2])?;
        }
    }
    Ok(bytes)
}

/// How many columns the rows of keys in turn have together, at the built time.
fn columns_found(block: &Historic, turns: u64) -> u64 {
    let mut found = 0u64;
    for turn in 0..turns {
        if let Ok(Some(row)) = block.row(turn % 1000 + 1, block.until()) {
            found = found.wrapping_add(row.len() as u64);
        }
    }
    found
}

/// The rows of keys in turn, at the built time: each is found, with two columns.
fn rows_are_found(rt: &impl Abort, alloc: Global, versions: u8, turns: u64) -> Result<(), Fail> {
    let block = block_of(alloc, thousand_keys(alloc, versions)?.as_slice())?;
    let found = columns_found(&block, turns);
    same(rt, found, turns.wrapping_mul(2), versions);
    Ok(())
}

#[test]
fn keys_of_4_versions_are_found(rt: HostRuntime) -> Result<(), Fail> {
    rows_are_found(&rt, rt.alloc(), 4, 1000)
}

#[test]
fn keys_of_4_versions_are_found_twice(rt: HostRuntime) -> Result<(), Fail> {
    rows_are_found(&rt, rt.alloc(), 4, 2000)
}

#[test]
fn keys_of_16_versions_are_found(rt: HostRuntime) -> Result<(), Fail> {
    rows_are_found(&rt, rt.alloc(), 16, 1000)
}

#[test]
fn keys_of_16_versions_are_found_twice(rt: HostRuntime) -> Result<(), Fail> {
    rows_are_found(&rt, rt.alloc(), 16, 2000)
}
