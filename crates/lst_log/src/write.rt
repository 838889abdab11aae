//! The bytes of a record.
ghost use Rattle.std.specs.Prelude.{◌≡◌, ◌≤◌, ◌<◌, ◌+◌, ◌-◌, ◌^◌, ◌++◌, [], ◌∷◌, ℕ, length, map, replicate, unwrap_or, None, OnOk, OnErr, IfOk, IfSome, ◌↔◌, List};
ghost use Rattle.lst_model.specs.declared.commits.Commit.{Commit as CommitValue};
ghost use Rattle.std.specs.List.{flat_map, AllByRecursion};
ghost use Rattle.std.specs.Int.{w32, to_be_bytes};
ghost use Rattle.lst_model.specs.declared.acts.Act.TheVariants.{Put, Set, Del};
ghost use Rattle.lst_model.specs.Cells.{changed_number};
ghost use Rattle.lst_log.specs.Format.{word, write_bytes, body, record_of, journal, FitsTable, IsWrite, HasRecord, IsBatchOf, kind_of, mask_of, nulls_of, numbers_of};

use lst_bits::full_mask;
use lst_model::{Act, Commit, Key, Patch, Row, Write};
use std::alloc::{AllocError, Global};

/// The number of bytes of a record.
pub(crate) fn record_size(commit: &Commit, columns: u32) -> u64
    requires columns { columns ≤ 8 }
    requires record { HasRecord columns commit.now }
    ensures size { result ≡ length (record_of columns commit.now) }
    ensures small { result < 2 ^ 40 }
{
    21 + commit.writes.items().len() as u64 * (11 + 8 * columns as u64)
}

/// The number of bytes of these records, where they and a byte behind them have room in so many.
pub(crate) fn size_within(commits: &[Commit], columns: u32, room: u64) -> Option<u64>
    requires columns { columns ≤ 8 }
    requires records { AllByRecursion (HasRecord columns) commits.now }
    ensures size { IfSome result (λ size. size ≡ length (journal columns commits.now)) }
    ensures none { (result ≡ None) ↔ (room < length (journal columns commits.now) + 1) }
{
    if room == 0 {
        return None;
    }
    let mut left = room - 1;
    for commit in commits {
        let size = record_size(commit, columns);
        if left < size {
            return None;
        }
        left -= size;
    }
    Some(room - 1 - left)
}

/// Adds what stands behind a record's gate.
pub(crate) fn push_body(text: &mut Vec<u8>, commit: &Commit, columns: u32) -> Result<(), AllocError>
    requires columns { columns ≤ 8 }
    requires record { HasRecord columns commit.now }
    ensures { OnOk result (text.new.items ≡ text.old.items ++ body columns commit.now) }
{
    let count = commit.writes.items().len() as u32;
    text.extend_from_slice(&head_bytes(commit.session, commit.number, commit.begin, count))?;
    push_writes(text, commit.writes.items(), columns)?;
    Ok(())
}

/// What stands behind a gate before a record's writes, whose count this is.
fn head_bytes(session: u32, number: u32, begin: u64, count: u32) -> [u8; 20]
    ensures { result ≡ to_be_bytes w32 session ++ (to_be_bytes w32 number ++ (word begin ++ to_be_bytes w32 count)) }
{
    let session = session.to_be_bytes();
    let number = number.to_be_bytes();
    let begin = begin.to_be_bytes();
    let count = count.to_be_bytes();
    [
        session[0], session[1], session[2], session[3], number[0], number[1], number[2], number[3],
        begin[0], begin[1], begin[2], begin[3], begin[4], begin[5], begin[6], begin[7], count[0],
        count[1], count[2], count[3],
    ]
}

/// What is stored behind a record's closed gate: its bytes there, and a closed gate behind them.
pub(crate) fn piece_of(alloc: Global, commit: &Commit, columns: u32) -> Result<Vec<u8>, AllocError>
    requires columns { columns ≤ 8 }
    requires record { HasRecord columns commit.now }
    ensures { IfOk result (λ piece. piece.items ≡ body columns commit.now ++ 0 ∷ []) }
{
    let mut piece = Vec::with_capacity(alloc, record_size(commit, columns) as usize)?;
    push_body(&mut piece, commit, columns)?;
    piece.push(0)?;
    Ok(piece)
}

/// Adds a commit to a batch: the closed gate behind the records so far becomes its own, and is opened. Where memory is wanting, the batch is as it was.
pub(crate) fn push_next(
    batch: &mut Vec<u8>,
    alloc: Global,
    commit: &Commit,
    columns: u32,
) -> Result<(), AllocError>
    requires columns { columns ≤ 8 }
    requires record { HasRecord columns commit.now }
    ensures batch { (commits : List CommitValue) → IsBatchOf columns commits batch.old.items → OnOk result (IsBatchOf columns (commits ++ commit.now ∷ []) batch.new.items) }
    ensures len { OnOk result (length batch.new.items ≡ length batch.old.items + length (record_of columns commit.now)) }
    ensures memory { OnErr result (batch.new.items ≡ batch.old.items) }
{
    let piece = piece_of(alloc, commit, columns)?;
    let before = batch.len();
    batch.extend_from_slice(piece.as_slice())?;
    if before == 0 {
        return Ok(());
    }
    batch[before - 1] = 1;
    Ok(())
}

/// The records of commits, with open gates, and a closed gate behind them.
pub(crate) fn records_of(
    alloc: Global,
    commits: &[Commit],
    columns: u32,
    size: u64,
) -> Result<Vec<u8>, AllocError>
    requires columns { columns ≤ 8 }
    requires records { AllByRecursion (HasRecord columns) commits.now }
    requires size { size + 1 < 2 ^ 64 }
    ensures { IfOk result (λ records. records.items ≡ journal columns commits.now ++ 0 ∷ []) }
{
    let mut records = Vec::with_capacity(alloc, size as usize + 1)?;
    push_records(&mut records, commits, columns)?;
    records.push(0)?;
    Ok(records)
}

fn push_records(text: &mut Vec<u8>, commits: &[Commit], columns: u32) -> Result<(), AllocError>
    requires columns { columns ≤ 8 }
    requires records { AllByRecursion (HasRecord columns) commits.now }
    ensures { OnOk result (text.new.items ≡ text.old.items ++ journal columns commits.now) }
{
    for commit in commits {
        push_record(text, commit, columns)?;
    }
    Ok(())
}

/// Adds a record, with an open gate.
fn push_record(text: &mut Vec<u8>, commit: &Commit, columns: u32) -> Result<(), AllocError>
    requires columns { columns ≤ 8 }
    requires record { HasRecord columns commit.now }
    ensures { OnOk result (text.new.items ≡ text.old.items ++ record_of columns commit.now) }
{
    text.push(1)?;
    push_body(text, commit, columns)?;
    Ok(())
}

fn push_writes(text: &mut Vec<u8>, writes: &[Write], columns: u32) -> Result<(), AllocError>
    requires columns { columns ≤ 8 }
    requires writes { AllByRecursion (IsWrite columns) writes.now }
    ensures { OnOk result (text.new.items ≡ text.old.items ++ flat_map (write_bytes columns) writes.now) }
{
    for write in writes {
        push_write(text, write, columns)?;
    }
    Ok(())
}

fn push_write(text: &mut Vec<u8>, write: &Write, columns: u32) -> Result<(), AllocError>
    requires columns { columns ≤ 8 }
    requires act { FitsTable columns write.now.act }
    ensures { OnOk result (text.new.items ≡ text.old.items ++ write_bytes columns write.now) }
{
    let (kind, mask, nulls) = kind_mask_nulls(&write.act, columns);
    text.extend_from_slice(&write_head(write.key, kind, mask, nulls))?;
    push_numbers(text, &write.act, columns)?;
    Ok(())
}

/// A key, and the kind of its act, with the columns that the act holds and those that are null.
fn write_head(key: Key, kind: u8, mask: u8, nulls: u8) -> [u8; 11]
    ensures { result ≡ word key ++ (kind ∷ mask ∷ nulls ∷ []) }
{
    let key = key.to_be_bytes();
    [
        key[0], key[1], key[2], key[3], key[4], key[5], key[6], key[7], kind, mask, nulls,
    ]
}

/// The kind of an act, the columns that it holds, and those of them that are null.
fn kind_mask_nulls(act: &Act, columns: u32) -> (u8, u8, u8)
    requires columns { columns ≤ 8 }
    requires act { FitsTable columns act.now }
    ensures { result ≡ (kind_of act.now, mask_of columns act.now, nulls_of act.now) }
{
    match act {
        Act::Put(row) => (1, full_mask(columns), row.nulls()),
        Act::Set(patch) => (2, patch.set_bits(), patch.nulls()),
        Act::Del => (3, 0, 0),
    }
}

fn push_numbers(text: &mut Vec<u8>, act: &Act, columns: u32) -> Result<(), AllocError>
    requires act { FitsTable columns act.now }
    ensures { OnOk result (text.new.items ≡ text.old.items ++ flat_map word (numbers_of columns act.now)) }
{
    match act {
        Act::Put(row) => push_words(text, row.numbers()),
        Act::Set(patch) => push_changes(text, patch),
        Act::Del => push_zeros(text, columns),
    }
}

fn push_words(text: &mut Vec<u8>, numbers: &[u64]) -> Result<(), AllocError>
    ensures { OnOk result (text.new.items ≡ text.old.items ++ flat_map word numbers.now) }
{
    for number in numbers {
        text.extend_from_slice(&number.to_be_bytes())?;
    }
    Ok(())
}

fn push_changes(text: &mut Vec<u8>, patch: &Patch) -> Result<(), AllocError>
    ensures { OnOk result (text.new.items ≡ text.old.items ++ flat_map word (map changed_number patch.now)) }
{
    push_settings(text, patch.numbers())
}

fn push_settings(text: &mut Vec<u8>, changes: &[Option<u64>]) -> Result<(), AllocError>
    ensures { OnOk result (text.new.items ≡ text.old.items ++ flat_map (λ change. word (unwrap_or change 0)) changes.now) }
{
    for change in changes {
        text.extend_from_slice(&change.unwrap_or(0).to_be_bytes())?;
    }
    Ok(())
}

fn push_zeros(text: &mut Vec<u8>, columns: u32) -> Result<(), AllocError>
    ensures { OnOk result (text.new.items ≡ text.old.items ++ flat_map word (replicate columns 0)) }
{
    for _ in 0..columns {
        text.extend_from_slice(&0u64.to_be_bytes())?;
    }
    Ok(())
}
