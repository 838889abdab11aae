//! What is kept of a reply.
ghost use Rattle.std.specs.Prelude.{◌≡◌, ◌≤◌, length, IfOk, OnErr};
ghost use Rattle.lst_model.specs.Cells.{cells_of, AreNull};
ghost use Rattle.lst_reply_queue.specs.Kinds.{width, told, IsWhole, Keeps};

use arrayvec::ArrayVec;
use lst_model::{OutOfMemory, Reply, Row};
use std::collections::VecDeque;

/// What is kept of a reply beside its numbers: a time, or the cells of a row, 0 for null.
#[derive(Clone, Copy)]
pub(crate) enum Kind {
    Begun,
    Done,
    /// A row of so many columns; bit c of `nulls` is set where column c is null.
    Row { cells: u8, nulls: u8 },
    Absent,
    Committed,
    Ended,
    Aborted,
    /// The reply stands whole among the others.
    Other,
}

/// How many numbers there are of a reply of a kind.
pub(crate) fn width(kind: Kind) -> usize
    ensures { result ≡ width kind }
{
    match kind {
        Kind::Begun | Kind::Committed | Kind::Ended => 1,
        Kind::Row { cells, .. } => cells as usize,
        _ => 0,
    }
}

/// The reply of a kind with these numbers, or None where it stands among the others.
pub(crate) fn told(kind: Kind, numbers: &[u64]) -> Option<Reply>
    requires wide { length numbers.now ≡ width kind }
    requires whole { IsWhole kind numbers.now }
    ensures { result ≡ told kind numbers.now }
{
    match kind {
        Kind::Begun => Some(Reply::Begun { time: numbers[0] }),
        Kind::Done => Some(Reply::Done),
        Kind::Row { nulls, .. } => Some(Reply::Row {
            row: row_of(numbers, nulls),
        }),
        Kind::Absent => Some(Reply::Absent),
        Kind::Committed => Some(Reply::Committed { time: numbers[0] }),
        Kind::Ended => Some(Reply::Ended { time: numbers[0] }),
        Kind::Aborted => Some(Reply::Aborted),
        Kind::Other => None,
    }
}

/// Keeps a reply: its numbers behind these, or the whole of it behind the others. Answers its kind. For want of memory nothing is kept.
pub(crate) fn keep(
    reply: Reply,
    numbers: &mut Vec<u64>,
    others: &mut VecDeque<Reply>,
) -> Result<Kind, OutOfMemory>
    ensures ok { IfOk result (λ kind. Keeps kind reply numbers.old.items numbers.new.items others.old.items others.new.items) }
    ensures err { OnErr result ((numbers.new.items ≡ numbers.old.items) × (others.new.items ≡ others.old.items)) }
{
    Ok(match reply {
        Reply::Begun { time } => {
            numbers.push(time)?;
            Kind::Begun
        }
        Reply::Done => Kind::Done,
        Reply::Row { row } => {
            numbers.extend_from_slice(row.numbers())?;
            Kind::Row {
                cells: row.len() as u8,
                nulls: row.nulls(),
            }
        }
        Reply::Absent => Kind::Absent,
        Reply::Committed { time } => {
            numbers.push(time)?;
            Kind::Committed
        }
        Reply::Ended { time } => {
            numbers.push(time)?;
            Kind::Ended
        }
        Reply::Aborted => Kind::Aborted,
        other => {
            others.push_back(other)?;
            Kind::Other
        }
    })
}

/// The row of these numbers, in the order of the columns, where bit c of `nulls` makes column c null. A null column's number is 0.
fn row_of(numbers: &[u64], nulls: u8) -> Row
    requires few { length numbers.now ≤ 8 }
    requires null { AreNull 0 nulls numbers.now }
    ensures { result ≡ cells_of nulls 0 numbers.now }
{
    let Ok(cells) = ArrayVec::try_from(numbers) else {
        unreachable!()
    };
    Row::new(cells, nulls)
}
