//! How a line is kept.
ghost use Rattle.std.specs.Prelude.{◌≡◌, suc, ◌+◌, ◌≤◌, [], ◌∷◌, ◌++◌, map, length, unwrap_or, vec_len, vec_capacity, IfOk, OnOk, OnErr};
ghost use Rattle.std.specs.List.{flat_map};
ghost use Rattle.lst_model.specs.Cells.{changed_number};
ghost use Rattle.lst_model.specs.declared.lines.Line.TheVariants as line;
ghost use Rattle.lst_model.specs.declared.lines.Call.TheVariants as call;
ghost use Rattle.lst_line_list.specs.Kinds.{width, told, AreOf, Keeps, KeepsCall};

use crate::kinds::{Kept, Kind};
use lst_model::{Call, Key, Line, OutOfMemory, Patch, Row};

/// The most numbers that a line has: a key, and one for each of eight columns.
const MOST_NUMBERS: usize = 9;

/// Makes room in a list for so many more. The test whether there is some stands here, and not in a call.
#[inline(always)]
pub(crate) fn make_room<T>(list: &mut Vec<T>, more: usize) -> Result<(), OutOfMemory>
    ensures same { list.new.items ≡ list.old.items }
    ensures room { OnOk result (vec_len list.new + more ≤ vec_capacity list.new) }
{
    if list.capacity() - list.len() >= more {
        return Ok(());
    }
    list.reserve(more)?;
    Ok(())
}

/// Keeps a line: its numbers behind these. Answers the rest of it. For want of memory, and where the place of its numbers has more than 32 bits, the
/// numbers stay as they are.
#[tactic(auto, using(crate::proofs::Behind::keeps))]
#[inline(always)]
pub(crate) fn keep(line: Line, numbers: &mut Vec<u64>) -> Result<Kept, OutOfMemory>
    ensures ok { IfOk result (λ kept. Keeps kept line numbers.old.items numbers.new.items) }
    ensures err { OnErr result (numbers.new.items ≡ numbers.old.items) }
{
    if numbers.len() > u32::MAX as usize {
        return Err(OutOfMemory);
    }
    let start = numbers.len() as u32;
    make_room(numbers, MOST_NUMBERS)?;
    let (session, kind) = keep_line(line, numbers);
    Ok(Kept {
        start,
        session,
        kind,
    })
}

/// Keeps a call of a session that has a key and a number for each column. As `keep`, it leaves the numbers as they are where it can't.
#[tactic(auto, using(crate::proofs::Behind::columns_kept))]
#[inline(always)]
pub(crate) fn keep_columns(
    session: u32,
    kind: Kind,
    key: Key,
    columns: &[u64],
    numbers: &mut Vec<u64>,
) -> Result<Kept, OutOfMemory>
    requires wide { width kind ≡ suc (length columns.now) }
    requires few { length columns.now ≤ 8 }
    requires are { AreOf kind (key ∷ columns.now) }
    ensures ok { IfOk result (λ kept. Keeps kept (told session kind (key ∷ columns.now)) numbers.old.items numbers.new.items) }
    ensures err { OnErr result (numbers.new.items ≡ numbers.old.items) }
{
    if numbers.len() > u32::MAX as usize {
        return Err(OutOfMemory);
    }
    let start = numbers.len() as u32;
    make_room(numbers, MOST_NUMBERS)?;
    numbers.push_reserved(key);
    push_columns(columns, numbers);
    Ok(Kept {
        start,
        session,
        kind,
    })
}

/// Puts these numbers behind the others.
#[inline(always)]
fn push_columns(columns: &[u64], numbers: &mut Vec<u64>)
    requires { vec_len numbers.old + length columns.now ≤ vec_capacity numbers.old }
    ensures { numbers.new.items ≡ numbers.old.items ++ columns.now }
{
    for column in columns {
        numbers.push_reserved(*column);
    }
}

/// The session and the kind of a line, whose numbers are put behind these.
#[inline(always)]
fn keep_line(line: Line, numbers: &mut Vec<u64>) -> (u32, Kind)
    requires { vec_len numbers.old + 9 ≤ vec_capacity numbers.old }
    ensures { KeepsCall result.0 result.1 line numbers.old.items numbers.new.items }
{
    match line {
        Line::Phase => (0, Kind::Phase),
        Line::Merge { range, column } => {
            numbers.push_reserved(u64::from(range));
            numbers.push_reserved(u64::from(column));
            (0, Kind::Merge)
        }
        Line::Call { session, call } => (session, keep_call(session, call, numbers)),
    }
}

/// The kind of a session's call, whose numbers are put behind these.
#[inline(always)]
fn keep_call(session: u32, call: Call, numbers: &mut Vec<u64>) -> Kind
    requires { vec_len numbers.old + 9 ≤ vec_capacity numbers.old }
    ensures { KeepsCall session result (line.Call session call) numbers.old.items numbers.new.items }
{
    match call {
        Call::Begin => Kind::Begin,
        Call::AsOf { time } => {
            numbers.push_reserved(time);
            Kind::AsOf
        }
        Call::Get { key } => {
            numbers.push_reserved(key);
            Kind::Get
        }
        Call::Insert { key, row } => keep_insert(session, key, row, numbers),
        Call::Update { key, patch } => keep_update(session, key, patch, numbers),
        Call::Delete { key } => {
            numbers.push_reserved(key);
            Kind::Delete
        }
        Call::Sum { column } => {
            numbers.push_reserved(u64::from(column));
            Kind::Sum
        }
        Call::Count => Kind::Count,
        Call::Scan => Kind::Scan,
        Call::Find { column, value } => {
            numbers.push_reserved(u64::from(column));
            numbers.push_reserved(value);
            Kind::Find
        }
        Call::Commit => Kind::Commit,
        Call::Abort => Kind::Abort,
    }
}

/// The kind of an insert, whose numbers are put behind these.
#[inline(always)]
fn keep_insert(session: u32, key: Key, row: Row, numbers: &mut Vec<u64>) -> Kind
    requires { vec_len numbers.old + 9 ≤ vec_capacity numbers.old }
    ensures { KeepsCall session result (line.Call session (call.Insert key row)) numbers.old.items numbers.new.items }
{
    let _ = session;
    numbers.push_reserved(key);
    let Ok(()) = numbers.extend_from_slice(row.numbers()) else {
        unreachable!()
    };
    Kind::Insert {
        cells: row.len() as u8,
        nulls: row.nulls(),
    }
}

/// The kind of an update, whose numbers are put behind these.
#[inline(always)]
fn keep_update(session: u32, key: Key, patch: Patch, numbers: &mut Vec<u64>) -> Kind
    requires { vec_len numbers.old + 9 ≤ vec_capacity numbers.old }
    ensures { KeepsCall session result (line.Call session (call.Update key patch)) numbers.old.items numbers.new.items }
{
    let _ = session;
    numbers.push_reserved(key);
    push_changes(&patch, numbers);
    Kind::Update {
        cells: patch.len() as u8,
        set: patch.set_bits(),
        nulls: patch.nulls(),
    }
}

/// Puts the numbers of a patch behind these: 0 where it leaves a column as it is or makes it null.
#[inline(always)]
fn push_changes(patch: &Patch, numbers: &mut Vec<u64>)
    requires { vec_len numbers.old + 8 ≤ vec_capacity numbers.old }
    ensures { numbers.new.items ≡ numbers.old.items ++ map changed_number patch.now }
{
    push_settings(patch.numbers(), numbers);
}

/// Puts the numbers of these changes behind these.
#[inline(always)]
fn push_settings(changes: &[Option<u64>], numbers: &mut Vec<u64>)
    requires { vec_len numbers.old + length changes.now ≤ vec_capacity numbers.old }
    ensures { numbers.new.items ≡ numbers.old.items ++ flat_map (λ change. unwrap_or change 0 ∷ []) changes.now }
{
    for change in changes {
        numbers.push_reserved(change.unwrap_or(0));
    }
}
