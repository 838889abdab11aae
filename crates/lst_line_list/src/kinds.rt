//! What is kept of a line.
ghost use Rattle.std.specs.Prelude.{◌≡◌, ◌+◌, ◌≤◌, ◌<◌, length, drop};
ghost use Rattle.lst_model.specs.Cells.{cells_of, patched, AreNull};
ghost use Rattle.lst_model.specs.declared.lines.Line.TheVariants as lines;
ghost use Rattle.lst_model.specs.declared.lines.Call.TheVariants as calls;
ghost use Rattle.lst_line_list.specs.Kinds.{width, first, told, AreOf, own, line_of};

use arrayvec::ArrayVec;
use lst_model::{Call, Line, Patch, Row};

/// What is kept of a line beside its session and its numbers. Bits stand for columns, bit c for column c.
#[derive(Clone, Copy)]
pub(crate) enum Kind {
    Phase,
    Merge,
    Begin,
    AsOf,
    Get,
    /// A row of so many columns, and those that are null.
    Insert { cells: u8, nulls: u8 },
    /// A patch of so many columns, those that it sets, and those of them that become null.
    Update { cells: u8, set: u8, nulls: u8 },
    Delete,
    Sum,
    Count,
    Scan,
    Find,
    Commit,
    Abort,
}

/// What is kept of a line: the place of its first number among those of all lines, its session, which is 0 where it has none, and its kind.
#[derive(Clone, Copy)]
pub(crate) struct Kept {
    pub(crate) start: u32,
    pub(crate) session: u32,
    pub(crate) kind: Kind,
}

/// How many numbers a line of a kind has.
fn width(kind: Kind) -> usize
    ensures { result ≡ width kind }
{
    match kind {
        Kind::AsOf | Kind::Get | Kind::Delete | Kind::Sum => 1,
        Kind::Merge | Kind::Find => 2,
        Kind::Insert { cells, .. } | Kind::Update { cells, .. } => 1 + cells as usize,
        _ => 0,
    }
}

/// Makes this the line that is kept, with its numbers among these.
#[inline(always)]
pub(crate) fn put_line(numbers: &[u64], kept: Kept, line: &mut Line)
    requires within { kept.start + width kept.kind ≤ length numbers.now }
    requires are { AreOf kept.kind (own numbers.now kept) }
    ensures { line.new ≡ line_of numbers.now kept }
{
    let start = kept.start as usize;
    let end = start + width(kept.kind);
    tell(kept.session, kept.kind, &numbers[start..end], line);
}

/// Makes this the line of a session and a kind with these numbers. It is made where it stands: a line that is handed over by value is copied at each
/// function that it comes through.
#[inline(always)]
fn tell(session: u32, kind: Kind, numbers: &[u64], line: &mut Line)
    requires wide { length numbers.now ≡ width kind }
    requires are { AreOf kind numbers.now }
    ensures { line.new ≡ told session kind numbers.now }
{
    match kind {
        Kind::Phase => *line = Line::Phase,
        Kind::Merge => {
            *line = Line::Merge {
                range: numbers[0] as u32,
                column: numbers[1] as u32,
            };
        }
        Kind::Begin => put_call(session, Call::Begin, line),
        Kind::AsOf => put_call(session, Call::AsOf { time: numbers[0] }, line),
        Kind::Get => put_call(session, Call::Get { key: numbers[0] }, line),
        Kind::Insert { nulls, .. } => tell_insert(session, nulls, numbers, line),
        Kind::Update { set, nulls, .. } => tell_update(session, set, nulls, numbers, line),
        Kind::Delete => put_call(session, Call::Delete { key: numbers[0] }, line),
        Kind::Sum => {
            let column = numbers[0] as u32;
            put_call(session, Call::Sum { column }, line);
        }
        Kind::Count => put_call(session, Call::Count, line),
        Kind::Scan => put_call(session, Call::Scan, line),
        Kind::Find => {
            let call = Call::Find {
                column: numbers[0] as u32,
                value: numbers[1],
            };
            put_call(session, call, line);
        }
        Kind::Commit => put_call(session, Call::Commit, line),
        Kind::Abort => put_call(session, Call::Abort, line),
    }
}

/// Makes this a call of a session.
#[inline(always)]
fn put_call(session: u32, call: Call, line: &mut Line)
    ensures { line.new ≡ lines.Call session call }
{
    *line = Line::Call { session, call };
}

/// Makes this the insert of a session with these numbers: a key, and one for each column. It is a function of its own, so that other lines needn't clear a
/// row.
#[inline(never)]
fn tell_insert(session: u32, nulls: u8, numbers: &[u64], line: &mut Line)
    requires some { 0 < length numbers.now }
    requires few { length numbers.now ≤ 9 }
    requires null { AreNull 0 nulls (drop 1 numbers.now) }
    ensures { line.new ≡ lines.Call session (calls.Insert (first numbers.now) (cells_of nulls 0 (drop 1 numbers.now))) }
{
    *line = Line::Call {
        session,
        call: Call::Insert {
            key: numbers[0],
            row: row_of(nulls, &numbers[1..]),
        },
    };
}

/// Makes this the update of a session with these numbers: a key, and one for each column. It is a function of its own, so that other lines needn't clear a
/// patch, which is filled where it stands.
#[inline(never)]
fn tell_update(session: u32, set: u8, nulls: u8, numbers: &[u64], line: &mut Line)
    requires some { 0 < length numbers.now }
    requires few { length numbers.now ≤ 9 }
    ensures { line.new ≡ lines.Call session (calls.Update (first numbers.now) (patched set 0 (cells_of nulls 0 (drop 1 numbers.now)))) }
{
    *line = Line::Call {
        session,
        call: Call::Update {
            key: numbers[0],
            patch: Patch::of_numbers(ArrayVec::new()),
        },
    };
    if let Line::Call {
        call: Call::Update { patch, .. },
        ..
    } = line
    {
        patch.fill(set, nulls, &numbers[1..]);
    }
}

/// The row of these numbers, in the order of the columns, where those of the null bits are null. A null column's number is 0.
fn row_of(nulls: u8, numbers: &[u64]) -> Row
    requires few { length numbers.now ≤ 8 }
    requires null { AreNull 0 nulls numbers.now }
    ensures { result ≡ cells_of nulls 0 numbers.now }
{
    let Ok(cells) = ArrayVec::try_from(numbers) else {
        unreachable!()
    };
    Row::new(cells, nulls)
}
