//! The lines of replies.

use arrayvec::ArrayVec;
use lst_model::{Call, Cause, KeyList, Line, OutOfMemory, Reply, Row, RowList};
use lst_replies::print_line;
use std::alloc::Global;
use std::process::Abort;

fn text_is(
    rt: &impl Abort,
    alloc: Global,
    line: &Line,
    reply: &Reply,
    wanted: &str,
) -> Result<(), OutOfMemory> {
    let text = print_line(alloc, line, reply)?;
    assert_eq!(rt; text.as_bytes(), wanted.as_bytes());
    Ok(())
}

fn row() -> Row {
    let mut cells = ArrayVec::new();
    cells.push(10);
    cells.push(18446744073709551615);
    Row::of_numbers(cells)
}

fn row_with_null() -> Row {
    let mut row = Row::of_numbers(ArrayVec::new());
    row.push(Some(5));
    row.push(None);
    row
}

/// Whether a reply to a call of session 3 has this text.
fn is_told(rt: &impl Abort, alloc: Global, reply: Reply, wanted: &str) -> Result<(), OutOfMemory> {
    let line = Line::Call {
        session: 3,
        call: Call::Count,
    };
    text_is(rt, alloc, &line, &reply, wanted)
}

fn are_rows_told(rt: &impl Abort, alloc: Global) -> Result<(), OutOfMemory> {
    let mut list = RowList::new(alloc);
    list.push(7, row())?;
    list.push(9, row_with_null())?;
    let wanted = "3 rows 7:10,18446744073709551615 9:5,null\n";
    is_told(rt, alloc, Reply::Rows { list }, wanted)
}

fn are_keys_told(rt: &impl Abort, alloc: Global) -> Result<(), OutOfMemory> {
    let mut list = KeyList::new(alloc);
    list.push(7)?;
    list.push(9)?;
    is_told(rt, alloc, Reply::Keys { list }, "3 keys 7 9\n")
}

fn is_merge_told(rt: &impl Abort, alloc: Global) -> Result<(), OutOfMemory> {
    let line = Line::Merge {
        range: 0,
        column: 1,
    };
    text_is(rt, alloc, &line, &Reply::Merged { tps: 5 }, "merged 5\n")
}

#[test]
fn replies_are_printed_as_the_format_says(rt: HostRuntime) -> Result<(), OutOfMemory> {
    let alloc = rt.alloc();
    let row = Reply::Row { row: row() };
    is_told(&rt, alloc, row, "3 row 10 18446744073709551615\n")?;
    are_rows_told(&rt, alloc)?;
    are_keys_told(&rt, alloc)?;
    let cause = Cause::Unfinished {
        session: 0,
        number: 2,
    };
    let refused = Reply::Refused { cause };
    is_told(&rt, alloc, refused, "3 conflict open 0 2\n")?;
    let total = 36893488147419103230;
    is_told(
        &rt,
        alloc,
        Reply::Sum { total },
        "3 sum 36893488147419103230\n",
    )?;
    is_merge_told(&rt, alloc)?;
    text_is(&rt, alloc, &Line::Phase, &Reply::Silent, "")
}
