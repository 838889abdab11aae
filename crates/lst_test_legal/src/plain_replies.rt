//! What a reply may be to a call, and what it tells of a table, for the plain checker.

use crate::plain::KEYS;
use lst_layout::Limits;
use lst_model::{Call, Cause, Reply, Row, Table};

/// The key of the write that a call asks for, or None.
pub(crate) fn key_of(call: &Call) -> Option<u64> {
    match call {
        Call::Insert { key, .. } | Call::Update { key, .. } | Call::Delete { key } => Some(*key),
        _ => None,
    }
}

pub(crate) fn can_answer(call: &Call, reply: &Reply) -> bool {
    match reply {
        Reply::Begun { .. } => matches!(call, Call::Begin | Call::AsOf { .. }),
        Reply::Done => key_of(call).is_some(),
        Reply::Row { .. } | Reply::Absent => matches!(call, Call::Get { .. }),
        Reply::Committed { .. } | Reply::Ended { .. } => matches!(call, Call::Commit),
        Reply::Aborted => matches!(call, Call::Abort),
        Reply::Sum { .. } => matches!(call, Call::Sum { .. }),
        Reply::Count { .. } => matches!(call, Call::Count),
        Reply::Rows { .. } => matches!(call, Call::Scan),
        Reply::Keys { .. } => matches!(call, Call::Find { .. }),
        Reply::Refused { cause } => can_refuse(call, cause),
        _ => false,
    }
}

fn can_refuse(call: &Call, cause: &Cause) -> bool {
    let begins = matches!(call, Call::Begin | Call::AsOf { .. });
    let inserts = matches!(call, Call::Insert { .. });
    let writes = key_of(call).is_some();
    match cause {
        Cause::Active | Cause::Spent => begins,
        Cause::Future { .. } => matches!(call, Call::AsOf { .. }),
        Cause::Idle => !begins,
        Cause::ReadOnly
        | Cause::Latched
        | Cause::Newer { .. }
        | Cause::Unfinished { .. }
        | Cause::TailFull => writes,
        Cause::Exists | Cause::TableFull => inserts,
        Cause::Missing => writes && !inserts,
        Cause::NotIndexed => matches!(call, Call::Find { .. }),
        Cause::Stale { .. } => matches!(call, Call::Commit),
    }
}

/// Whether a call is a find on a column without an index.
pub(crate) fn lacks_index(limits: &Limits, call: &Call) -> bool {
    match call {
        Call::Find { column, value: _ } => (limits.indexed as u32 >> (*column % 8)) % 2 == 0,
        _ => false,
    }
}

/// The number of a column, or None where it is null.
fn cell(row: &Row, column: u32) -> Option<u64> {
    if (row.nulls() as u32 >> (column % 8)) % 2 == 1 {
        return None;
    }
    row.numbers().get(column as usize).copied()
}

pub(crate) fn sum_of(sight: &Table, column: u32) -> u128 {
    let mut total = 0u128;
    for key in 0..KEYS {
        if let Some(row) = sight.row(key) {
            total = total.wrapping_add(u128::from(cell(&row, column).unwrap_or(0)));
        }
    }
    total
}

pub(crate) fn count_of(sight: &Table) -> u64 {
    let mut count = 0u64;
    for key in 0..KEYS {
        if sight.row(key).is_some() {
            count = count.wrapping_add(1);
        }
    }
    count
}

pub(crate) fn holds(row: &Row, column: u32, value: u64) -> bool {
    cell(row, column) == Some(value)
}

fn are_rows(sight: &Table, list: &[(u64, Row)]) -> bool {
    let mut told = 0usize;
    for key in 0..KEYS {
        if let Some(row) = sight.row(key) {
            match list.get(told) {
                Some(entry) if entry.0 == key && entry.1 == row => told = told.wrapping_add(1),
                _ => return false,
            }
        }
    }
    told == list.len()
}

fn are_keys(sight: &Table, column: u32, value: u64, list: &[u64]) -> bool {
    let mut told = 0usize;
    for key in 0..KEYS {
        if let Some(row) = sight.row(key) {
            if holds(&row, column, value) {
                if list.get(told).copied() != Some(key) {
                    return false;
                }
                told = told.wrapping_add(1);
            }
        }
    }
    told == list.len()
}

/// Whether a reply with rows, keys or numbers tells what is seen.
pub(crate) fn tells(sight: &Table, call: &Call, reply: &Reply) -> bool {
    match (call, reply) {
        (Call::Get { key }, Reply::Row { row }) => match sight.row(*key) {
            Some(found) => found == *row,
            None => false,
        },
        (Call::Get { key }, Reply::Absent) => sight.row(*key).is_none(),
        (Call::Sum { column }, Reply::Sum { total }) => *total == sum_of(sight, *column),
        (Call::Count, Reply::Count { rows }) => *rows == count_of(sight),
        (Call::Scan, Reply::Rows { list }) => are_rows(sight, list.items()),
        (Call::Find { column, value }, Reply::Keys { list }) => {
            are_keys(sight, *column, *value, list.items())
        }
        _ => true,
    }
}
