//! Rows with nulls, whose lines no text of a script names: what a crew answers, as it is printed, before merges and behind them.
ghost use Rattle.lst_session.specs.Crews.{IsCrewOf};

use crate::calls::same;
use crate::prefix_tests::line_fits;
use arrayvec::ArrayVec;
use lst_layout::Limits;
use lst_model::{Call, Key, Line, OutOfMemory, Row, Text};
use lst_report::push_line;
use lst_rule::Store;
use lst_scan::crew_line;
use lst_session::{Crew, open_crew};
use std::alloc::Global;
use std::process::Abort;

/// The usual limits, with an index on the second column.
const INDEXED: Limits = Limits {
    columns: 2,
    ranges: 4,
    tails: 4096,
    sessions: 4,
    txns: 4096,
    spare: 8,
    indexed: 2,
};

/// A line of session 0.
fn said(call: Call) -> Line {
    Line::Call { session: 0, call }
}

/// Puts a row of two cells, each a number or null.
fn insert(key: Key, first: Option<u64>, second: Option<u64>) -> Line {
    let mut row = Row::of_numbers(ArrayVec::new());
    row.push(first);
    row.push(second);
    said(Call::Insert { key, row })
}

/// The lines that put rows.
fn put() -> [Line; 3] {
    [
        said(Call::Begin),
        insert(1, Some(5), None),
        insert(2, None, Some(0)),
    ]
}

/// The lines that ask for them.
fn ask() -> [Line; 5] {
    [
        said(Call::Sum { column: 0 }),
        said(Call::Sum { column: 1 }),
        said(Call::Count),
        said(Call::Find {
            column: 1,
            value: 0,
        }),
        said(Call::Get { key: 1 }),
    ]
}

/// The lines that commit them and merge both columns, up to the next begin.
fn merge() -> [Line; 4] {
    [
        said(Call::Commit),
        Line::Merge {
            range: 0,
            column: 0,
        },
        Line::Merge {
            range: 0,
            column: 1,
        },
        said(Call::Begin),
    ]
}

/// A store with all its sessions at one seat, and what they have answered.
#[derive(Drop)]
struct Crewed {
    store: Store,
    crew: Crew,
    text: Text,
    ghost own: { IsCrewOf store crew },
}

impl Crewed {
    /// A store that opens.
    fn open(rt: &impl Abort, alloc: Global) -> Result<Crewed, OutOfMemory> {
        let limits = INDEXED;
        let Ok(layout) = limits.check() else {
            panic!(rt; "the limits are in range");
        };
        let (store, crew) = open_crew(alloc, &layout)?;
        Ok(Crewed {
            store,
            crew,
            text: Text::new(alloc),
        })
    }

    /// Adds the text of the reply to a line.
    fn answer(&mut self, rt: &impl Abort, alloc: Global, line: &Line) -> Result<(), OutOfMemory> {
        if !line_fits(&self.crew.seat.limits(), line) {
            panic!(rt; "the line fits the limits");
        }
        let reply = crew_line(alloc, &self.store, &mut self.crew, line)?;
        push_line(&mut self.text, line, &reply)?;
        Ok(())
    }

    /// The same of each line.
    fn answer_all(
        &mut self,
        rt: &impl Abort,
        alloc: Global,
        lines: &[Line],
    ) -> Result<(), OutOfMemory> {
        for line in lines {
            self.answer(rt, alloc, line)?;
        }
        Ok(())
    }
}

#[test]
fn nulls_are_printed_before_merges_and_behind_them(rt: HostRuntime) -> Result<(), OutOfMemory> {
    let mut on = Crewed::open(&rt, rt.alloc())?;
    on.answer_all(&rt, rt.alloc(), put().as_slice())?;
    on.answer_all(&rt, rt.alloc(), ask().as_slice())?;
    on.answer_all(&rt, rt.alloc(), merge().as_slice())?;
    on.answer_all(&rt, rt.alloc(), ask().as_slice())?;
    let wanted =
        "0 begun 0\n0 ok\n0 ok\n0 sum 5\n0 sum 0\n0 count 2\n0 keys 2\n0 row 5 null\n0 committed 1\nmerged 2\nmerged 2\n0 begun 1\n0 sum 5\n0 sum 0\n0 count 2\n0 keys 2\n0 row 5 null\n";
    same(&rt, on.text.as_bytes(), wanted.as_bytes(), "replies");
    Ok(())
}
