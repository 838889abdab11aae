//! The records of a journal, read from left to right.
ghost use Rattle.std.specs.Prelude.{◌≡◌, ◌≤◌, ◌<◌, ◌+◌, ◌*◌, ◌^◌, ◌++◌, ℕ, List, length, get_or, take, drop, None, IfOk, IfSome, IfNone, IsTrue, ◌↔◌};
ghost use Rattle.std.specs.Int.{w32, w64};
ghost use Rattle.std.specs.List.{AllByRecursion};
ghost use Rattle.lst_model.specs.declared.acts.Act.TheVariants.{Put, Set, Del};
ghost use Rattle.lst_model.specs.declared.commits.Commit.{Commit as CommitValue};
ghost use Rattle.lst_model.specs.Lines.{IsPatch};
ghost use Rattle.lst_log.specs.Format.{body, FitsTable, IsOfTable, IsCell, IsChange, IsWrite, HasRecord};
ghost use Rattle.lst_log.specs.Reading.{Gives, number_at, many_at, act_at, act_with, write_at, head_at, body_at};

use crate::write::push_body;
use arrayvec::ArrayVec;
use lst_model::{Act, Commit, OutOfMemory, Patch, Row, Write, Writes};
use lst_snapshots::stands_by_key;
use std::alloc::Global;

fn u32_at(bytes: &[u8]) -> Option<(u32, &[u8])>
    ensures { Gives (λ x. (x.0, x.1.now)) result (number_at w32 bytes.now) }
{
    if bytes.len() < 4 {
        return None;
    }
    let (front, rest) = bytes.split_at(4);
    let number = u32::from_be_bytes([front[0], front[1], front[2], front[3]]);
    Some((number, rest))
}

fn u64_at(bytes: &[u8]) -> Option<(u64, &[u8])>
    ensures { Gives (λ x. (x.0, x.1.now)) result (number_at w64 bytes.now) }
{
    if bytes.len() < 8 {
        return None;
    }
    let (front, rest) = bytes.split_at(8);
    let number = u64::from_be_bytes([
        front[0], front[1], front[2], front[3], front[4], front[5], front[6], front[7],
    ]);
    Some((number, rest))
}

fn numbers_of(count: u32, bytes: &[u8]) -> Option<(ArrayVec<u64, 8>, &[u8])>
    requires { count ≤ 8 }
    ensures { Gives (λ x. (x.0.items, x.1.now)) result (many_at (number_at w64) count bytes.now) }
{
    let mut numbers = ArrayVec::new();
    let mut rest = bytes;
    for _ in 0..count {
        match u64_at(rest) {
            Some((number, after)) => {
                numbers.push(number);
                rest = after;
            }
            None => return None,
        }
    }
    Some((numbers, rest))
}

/// An act of these parts.
fn made(kind: u8, mask: u8, nulls: u8, numbers: &[u64]) -> Act
    requires { length numbers.now ≤ 8 }
    ensures { result ≡ act_with kind mask nulls numbers.now }
{
    if kind == 1 {
        Act::Put(Row::of_bits(nulls, numbers))
    } else if kind == 2 {
        Act::Set(Patch::of_bits(mask, nulls, numbers))
    } else {
        Act::Del
    }
}

#[tactic(auto, unfolding(crate::specs::Reading::act_at))]
fn act_of(columns: u32, bytes: &[u8]) -> Option<(Act, &[u8])>
    requires { columns ≤ 8 }
    ensures { Gives (λ x. (x.0, x.1.now)) result (act_at columns bytes.now) }
{
    match bytes {
        [kind, mask, nulls, rest @ ..] => {
            let (numbers, rest) = numbers_of(columns, rest)?;
            Some((made(*kind, *mask, *nulls, numbers.as_slice()), rest))
        }
        _ => None,
    }
}

#[tactic(auto, unfolding(crate::specs::Reading::write_at))]
fn write_of(columns: u32, bytes: &[u8]) -> Option<(Write, &[u8])>
    requires { columns ≤ 8 }
    ensures { Gives (λ x. (x.0, x.1.now)) result (write_at columns bytes.now) }
{
    let (key, rest) = u64_at(bytes)?;
    let (act, rest) = act_of(columns, rest)?;
    Some((Write { key, act }, rest))
}

/// So many writes, or as many as these bytes can hold, where they are fewer.
fn most_writes(columns: u32, count: u32, bytes: &[u8]) -> usize
    requires { columns ≤ 8 }
    ensures few { result ≤ count }
    ensures held { result * (11 + 8 * columns) ≤ length bytes.now }
{
    (count as usize).min(bytes.len() / (11 + 8 * columns as usize))
}

fn writes_of(
    alloc: Global,
    columns: u32,
    count: u32,
    bytes: &[u8],
) -> Result<Option<(Vec<Write>, &[u8])>, OutOfMemory>
    requires { columns ≤ 8 }
    ensures { IfOk result (λ read. Gives (λ x. (x.0.items, x.1.now)) read (many_at (write_at columns) count bytes.now)) }
{
    let mut writes = Vec::with_capacity(alloc, most_writes(columns, count, bytes))?;
    let mut rest = bytes;
    for _ in 0..count {
        match write_of(columns, rest) {
            Some((write, after)) => {
                writes.push(write)?;
                rest = after;
            }
            None => return Ok(None),
        }
    }
    Ok(Some((writes, rest)))
}

#[tactic(auto, unfolding(crate::specs::Reading::head_at))]
pub(crate) fn head_of(bytes: &[u8]) -> Option<((u32, u32, u64, u32), &[u8])>
    ensures { Gives (λ x. (x.0, x.1.now)) result (head_at bytes.now) }
{
    let (session, rest) = u32_at(bytes)?;
    let (number, rest) = u32_at(rest)?;
    let (begin, rest) = u64_at(rest)?;
    let (count, rest) = u32_at(rest)?;
    Some(((session, number, begin, count), rest))
}

#[tactic(auto, unfolding(crate::specs::Reading::body_at))]
fn body_of(
    alloc: Global,
    columns: u32,
    bytes: &[u8],
) -> Result<Option<(Commit, &[u8])>, OutOfMemory>
    requires { columns ≤ 8 }
    ensures { IfOk result (λ read. Gives (λ x. (x.0, x.1.now)) read (body_at columns bytes.now)) }
{
    let Some(((session, number, begin, count), rest)) = head_of(bytes) else {
        return Ok(None);
    };
    let Some((writes, rest)) = writes_of(alloc, columns, count, rest)? else {
        return Ok(None);
    };
    let writes = Writes::from_items(writes);
    let commit = Commit {
        session,
        number,
        begin,
        writes,
    };
    Ok(Some((commit, rest)))
}

/// Whether there are so many numbers. Each is of 64 bits.
fn is_width(numbers: &[u64], columns: u32) -> bool
    ensures width { IsTrue result ↔ (length numbers.now ≡ columns) }
    ensures low { (i : ℕ) → get_or numbers.now i 0 < 2 ^ 64 }
{
    numbers.len() == columns as usize
}

/// Whether there are so many changes. Each number is of 64 bits.
fn is_patch_width(changes: &[Option<u64>], columns: u32) -> bool
    ensures width { IsTrue result ↔ (length changes.now ≡ columns) }
    ensures low { (i : ℕ) → i < length changes.now → IfSome (get_or changes.now i None) (λ number. number < 2 ^ 64) }
{
    for change in changes {
        is_of_64_bits(*change);
    }
    changes.len() == columns as usize
}

/// That a number is of 64 bits is said by its type, which a slice of options doesn't tell.
fn is_of_64_bits(change: Option<u64>)
    ensures { IfSome change (λ number. number < 2 ^ 64) }
{
    if let Some(number) = change {
        let _ = number;
    }
}

/// Whether an act is one of a table of so many columns.
fn fits_table(act: &Act, columns: u32) -> bool
    ensures { IsTrue result ↔ FitsTable columns act.now }
{
    match act {
        Act::Put(row) => is_width(row.numbers(), columns),
        Act::Set(patch) => fits_patch(patch, columns),
        Act::Del => true,
    }
}

/// Whether a patch has so many columns, and sets one.
fn fits_patch(patch: &Patch, columns: u32) -> bool
    ensures { IsTrue result ↔ (IsPatch columns patch.now × AllByRecursion IsChange patch.now) }
{
    if !is_patch_width(patch.numbers(), columns) {
        return false;
    }
    patch.sets_some()
}

/// Whether a write is one of such a table.
fn write_fits(key: u64, act: &Act, columns: u32) -> bool
    ensures { IsTrue result ↔ IsWrite columns (record { key = key; act = act.now }) }
{
    let _ = key;
    fits_table(act, columns)
}

/// That a write of a table of so many columns has a place in a record: its numbers are of 64 bits, which their types say.
pub fn has_place(key: u64, act: &Act, columns: u32)
    requires { IsOfTable columns act.now }
    ensures { IsWrite columns (record { key = key; act = act.now }) }
{
    let _ = key;
    match act {
        Act::Put(row) => {
            is_width(row.numbers(), columns);
        }
        Act::Set(patch) => {
            is_patch_width(patch.numbers(), columns);
        }
        Act::Del => {}
    }
}

fn all_fit(writes: &[Write], columns: u32) -> bool
    ensures { IsTrue result ↔ AllByRecursion (IsWrite columns) writes.now }
{
    for write in writes {
        if !write_fits(write.key, &write.act, columns) {
            return false;
        }
    }
    true
}

/// Whether a commit of these parts has a record.
fn has_record(session: u32, number: u32, begin: u64, writes: &[Write], columns: u32) -> bool
    ensures { IsTrue result ↔ HasRecord columns (record { session = session; number = number; begin = begin; writes = writes.now }) }
{
    let _ = (session, number, begin);
    if writes.is_empty() {
        return false;
    }
    if writes.len() > u32::MAX as usize {
        return false;
    }
    if !stands_by_key(writes) {
        return false;
    }
    all_fit(writes, columns)
}

/// Whether a commit has a record in the journal of a table of so many columns.
pub fn is_record(commit: &Commit, columns: u32) -> bool
    ensures { IsTrue result ↔ HasRecord columns commit.now }
{
    has_record(
        commit.session,
        commit.number,
        commit.begin,
        commit.writes.items(),
        columns,
    )
}

/// Whether bytes begin with others.
fn starts_with(bytes: &[u8], front: &[u8]) -> bool
    ensures { IsTrue result ↔ (take (length front.now) bytes.now ≡ front.now) }
{
    if bytes.len() < front.len() {
        return false;
    }
    &bytes[..front.len()] == front
}

/// The commit whose record stands behind an open gate, and the number of its bytes there; None exactly where no record stands there.
/// The commit's bytes are put together in a list that the caller keeps, so that a record after another takes no memory for them.
pub fn read_record(
    alloc: Global,
    columns: u32,
    own: &mut Vec<u8>,
    behind: &[u8],
) -> Result<Option<(Commit, usize)>, OutOfMemory>
    requires { columns ≤ 8 }
    ensures found { IfOk result (λ read. IfSome read (λ x. HasRecord columns x.0 × (x.1 ≡ length (body columns x.0)) × (behind.now ≡ body columns x.0 ++ drop x.1 behind.now))) }
    ensures none { IfOk result (λ read. IfNone read ((c : CommitValue) (rest : List ℕ) → HasRecord columns c → ¬ (behind.now ≡ body columns c ++ rest))) }
{
    let Some((commit, _)) = body_of(alloc, columns, behind)? else {
        return Ok(None);
    };
    if !has_record(
        commit.session,
        commit.number,
        commit.begin,
        commit.writes.items(),
        columns,
    ) {
        return Ok(None);
    }
    own.clear();
    push_body(own, &commit, columns)?;
    if !starts_with(behind, own.as_slice()) {
        return Ok(None);
    }
    Ok(Some((commit, own.len())))
}
