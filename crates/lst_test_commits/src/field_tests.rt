//! Each field of a record at its edges, and bytes that are no record.

use crate::checks::{is_so, same};
use lst_log::read_record;
use lst_model::Act;
use std::alloc::Global;
use std::process::Abort;
use std::test::Fail;

/// Session, number, begin and count of writes; key, kind, mask, nulls and two numbers of a write.
type Fields = (u32, u32, u64, u32, u64, u8, u8, u8, u64, u64);

const LAST_U32: u32 = u32::MAX;

const LAST_U64: u64 = u64::MAX;

/// What stands behind the gate of a record with these fields.
fn spelled(alloc: Global, fields: Fields) -> Result<Vec<u8>, Fail> {
    let (session, number, begin, count, key, kind, mask, nulls, first, second) = fields;
    let mut bytes = Vec::new(alloc);
    bytes.extend_from_slice(&session.to_be_bytes())?;
    bytes.extend_from_slice(&number.to_be_bytes())?;
    bytes.extend_from_slice(&begin.to_be_bytes())?;
    bytes.extend_from_slice(&count.to_be_bytes())?;
    bytes.extend_from_slice(&key.to_be_bytes())?;
    bytes.extend_from_slice(&[kind, mask, nulls])?;
    bytes.extend_from_slice(&first.to_be_bytes())?;
    bytes.extend_from_slice(&second.to_be_bytes())?;
    Ok(bytes)
}

/// Kind, mask, nulls and two numbers of an act on two columns.
fn parts(act: &Act) -> (u8, u8, u8, u64, u64) {
    match act {
        Act::Put(row) => {
            let first = row.numbers().first().copied();
            let second = row.numbers().get(1).copied();
            let both = (first.unwrap_or(0), second.unwrap_or(0));
            (1, 3, row.nulls(), both.0, both.1)
        }
        Act::Set(patch) => {
            let first = patch.numbers().first().copied().flatten();
            let second = patch.numbers().get(1).copied().flatten();
            let both = (first.unwrap_or(0), second.unwrap_or(0));
            let mask = first.is_some() as u8 + 2 * second.is_some() as u8;
            (2, mask, patch.nulls(), both.0, both.1)
        }
        Act::Del => (3, 0, 0, 0, 0),
    }
}

/// The fields of the record that is read at the front of these bytes, if one stands there.
fn read_fields(alloc: Global, bytes: &[u8]) -> Result<Option<Fields>, Fail> {
    let Some((commit, size)) = read_record(alloc, 2, &mut Vec::new(alloc), bytes)? else {
        return Ok(None);
    };
    let Some(write) = commit.writes.items().first() else {
        return Ok(None);
    };
    if size != bytes.len() {
        return Ok(None);
    }
    let count = commit.writes.items().len() as u32;
    let (kind, mask, nulls, first, second) = parts(&write.act);
    Ok(Some((
        commit.session,
        commit.number,
        commit.begin,
        count,
        write.key,
        kind,
        mask,
        nulls,
        first,
        second,
    )))
}

/// Records, of which each has fields at their edges.
const AT_EDGES: [Fields; 13] = [
    (0, 1, 0, 1, 7, 1, 3, 0, 10, 20),
    (LAST_U32, 1, 0, 1, 7, 1, 3, 0, 10, 20),
    (0, 0, 0, 1, 7, 1, 3, 0, 10, 20),
    (0, LAST_U32, 0, 1, 7, 1, 3, 0, 10, 20),
    (0, 1, LAST_U64, 1, 7, 1, 3, 0, 10, 20),
    (0, 1, 0, 1, 0, 1, 3, 0, 10, 20),
    (0, 1, 0, 1, LAST_U64, 1, 3, 0, 10, 20),
    (0, 1, 0, 1, 7, 1, 3, 0, LAST_U64, LAST_U64),
    (0, 1, 0, 1, 7, 1, 3, 3, 0, 0),
    (0, 1, 0, 1, 7, 2, 3, 0, 10, 20),
    (0, 1, 0, 1, 7, 2, 2, 2, 0, 0),
    (0, 1, 0, 1, 7, 2, 1, 0, LAST_U64, 0),
    (0, 1, 0, 1, 7, 3, 0, 0, 0, 0),
];

/// Counts; kinds; masks of a put; masks and numbers of a set; nulls; a delete that holds something.
const NEXT_TO_A_RECORD: [Fields; 17] = [
    (0, 1, 0, 0, 7, 1, 3, 0, 10, 20),
    (0, 1, 0, 2, 7, 1, 3, 0, 10, 20),
    (0, 1, 0, LAST_U32, 7, 1, 3, 0, 10, 20),
    (0, 1, 0, 1, 7, 0, 3, 0, 10, 20),
    (0, 1, 0, 1, 7, 4, 3, 0, 10, 20),
    (0, 1, 0, 1, 7, 9, 3, 0, 10, 20),
    (0, 1, 0, 1, 7, 1, 1, 0, 10, 0),
    (0, 1, 0, 1, 7, 1, 7, 0, 10, 20),
    (0, 1, 0, 1, 7, 2, 0, 0, 0, 0),
    (0, 1, 0, 1, 7, 2, 4, 0, 0, 0),
    (0, 1, 0, 1, 7, 2, 1, 0, 10, 20),
    (0, 1, 0, 1, 7, 1, 3, 1, 10, 20),
    (0, 1, 0, 1, 7, 1, 3, 4, 10, 20),
    (0, 1, 0, 1, 7, 2, 1, 2, 10, 0),
    (0, 1, 0, 1, 7, 3, 1, 0, 0, 0),
    (0, 1, 0, 1, 7, 3, 0, 1, 0, 0),
    (0, 1, 0, 1, 7, 3, 0, 0, 1, 0),
];

/// What is read at the front of bytes that spell these fields.
fn read_again(alloc: Global, fields: Fields) -> Result<Option<Fields>, Fail> {
    let bytes = spelled(alloc, fields)?;
    read_fields(alloc, bytes.as_slice())
}

/// Each of these is read as the record that it is.
fn are_read(rt: &impl Abort, alloc: Global, records: &[Fields]) -> Result<(), Fail> {
    for fields in records {
        same(rt, read_again(alloc, *fields)?, Some(*fields), *fields);
    }
    Ok(())
}

/// None of these is read as a record.
fn are_none(rt: &impl Abort, alloc: Global, others: &[Fields]) -> Result<(), Fail> {
    for fields in others {
        same(rt, read_again(alloc, *fields)?, None, *fields);
    }
    Ok(())
}

#[test]
fn each_field_is_read_at_its_edges(rt: HostRuntime) -> Result<(), Fail> {
    are_read(&rt, rt.alloc(), &AT_EDGES)
}

#[test]
fn bytes_next_to_a_record_are_none(rt: HostRuntime) -> Result<(), Fail> {
    are_none(&rt, rt.alloc(), &NEXT_TO_A_RECORD)
}

#[test]
fn the_front_of_a_record_is_none(rt: HostRuntime) -> Result<(), Fail> {
    let alloc = rt.alloc();
    let bytes = spelled(alloc, (0, 1, 0, 1, 7, 1, 3, 0, 10, 20))?;
    for len in 0..bytes.len() {
        same(&rt, read_fields(alloc, &bytes[..len])?, None, len);
    }
    Ok(())
}

/// Whether two writes, on these keys in this order, are a record.
fn are_two_a_record(alloc: Global, first: u64, second: u64) -> Result<bool, Fail> {
    let mut bytes = spelled(alloc, (0, 1, 0, 2, first, 1, 3, 0, 10, 20))?;
    let other = spelled(alloc, (0, 1, 0, 2, second, 2, 3, 0, 10, 20))?;
    let Some(write) = other.get(20..) else {
        return Ok(false);
    };
    bytes.extend_from_slice(write)?;
    Ok(read_record(alloc, 2, &mut Vec::new(alloc), bytes.as_slice())?.is_some())
}

#[test]
fn writes_stand_by_key(rt: HostRuntime) -> Result<(), Fail> {
    let alloc = rt.alloc();
    is_so(&rt, are_two_a_record(alloc, 7, 8)?, "rising keys");
    is_so(&rt, are_two_a_record(alloc, 7, 7)?, "one key");
    is_so(&rt, !are_two_a_record(alloc, 8, 7)?, "falling keys");
    Ok(())
}
