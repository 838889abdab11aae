//! What is put into a list comes out of it, and a part of the list has the lines of its places.

use crate::rows::row;
use crate::same::same;
use arrayvec::ArrayVec;
use lst_line_list::{LineList, LineSlice, PackedPatch};
use lst_model::{Call, Line, Patch, Row};
use std::process::Abort;
use std::test::Fail;

/// A patch of so many columns: the first one stays as it is, the next becomes null, the next gets a number, and so on.
fn patch(columns: usize) -> Patch {
    let mut patch = Patch::of_numbers(ArrayVec::new());
    for column in 0..columns {
        if patch.len() < 8 {
            patch.push(match column % 3 {
                0 => None,
                1 => Some(None),
                _ => Some(Some(u64::MAX)),
            });
        }
    }
    patch
}

/// A line by its number: each kind of line, then rows and patches of each number of columns.
fn line(number: usize) -> Line {
    let call = match number {
        0 => return Line::Phase,
        1 => {
            return Line::Merge {
                range: u32::MAX,
                column: 7,
            };
        }
        2 => Call::Begin,
        3 => Call::AsOf { time: 7 },
        4 => Call::Get { key: u64::MAX },
        5 => Call::Delete { key: 0 },
        6 => Call::Sum { column: u32::MAX },
        7 => Call::Count,
        8 => Call::Scan,
        9 => Call::Find {
            column: 1,
            value: 9,
        },
        10 => Call::Commit,
        11 => Call::Abort,
        12..=20 => Call::Insert {
            key: 5,
            row: row(number - 12),
        },
        _ => Call::Update {
            key: 6,
            patch: patch((number - 21) % 9),
        },
    };
    Line::Call {
        session: u32::MAX,
        call,
    }
}

/// The line of a list at a place, or None behind its end.
fn line_at(list: &LineSlice<'_>, place: usize) -> Option<Line> {
    if place < list.len() {
        Some(list.line(place))
    } else {
        None
    }
}

/// With `rt try --test --fail-alloc N` memory is refused the Nth time; the lines that were put before and after that come back all the same.
#[test]
fn each_kind_of_line_comes_back_at_its_place(rt: HostRuntime) {
    let mut list = LineList::new(rt.alloc());
    let mut placed = [None; 30];
    for number in 0..30usize {
        let place = list.len();
        if list.push(line(number)).is_ok() {
            placed[number] = Some(place);
        }
    }
    for number in 0..30usize {
        if let Some(place) = placed[number] {
            same(
                &rt,
                line_at(&list.slice(), place),
                Some(line(number)),
                number,
            );
        }
    }
}

/// A packed patch of three columns, which sets the third one alone.
fn packed_patch(rt: &impl Abort) -> PackedPatch {
    let mut set = PackedPatch::new();
    set.push(None);
    set.push(Some(None));
    set.push(None);
    set.set(2, Some(u64::MAX));
    same(rt, set.sets_some(), true, "sets some");
    same(rt, set.is_set(0), false, "column 0");
    set
}

/// The row that is null in its first two columns.
fn inserted() -> Row {
    let mut row = Row::of_numbers(ArrayVec::new());
    row.push(None);
    row.push(None);
    row.push(Some(u64::MAX));
    row
}

/// With `rt try --test --fail-alloc N` memory is refused the Nth time; a line that isn't put in then leaves the others at their places.
#[test]
fn what_a_packed_patch_sets_comes_back(rt: HostRuntime) {
    let set = packed_patch(&rt);
    let mut list = LineList::new(rt.alloc());
    let update = list.push_update(3, 6, &set).is_ok();
    let insert = list.push_insert(3, 7, &set).is_ok();
    if update {
        let patch = patch(3);
        let call = Call::Update { key: 6, patch };
        let line = Line::Call { session: 3, call };
        same(&rt, line_at(&list.slice(), 0), Some(line), "update");
    }
    if insert {
        let row = inserted();
        let call = Call::Insert { key: 7, row };
        let line = Line::Call { session: 3, call };
        same(
            &rt,
            line_at(&list.slice(), update as usize),
            Some(line),
            "insert",
        );
    }
}

/// Puts the lines 0 to 29 into a list.
fn put_thirty(list: &mut LineList) -> Result<(), Fail> {
    for number in 0..30usize {
        list.push(line(number))?;
    }
    Ok(())
}

/// Lines 10 to 19, and the last of them.
fn has_ten(rt: &impl Abort, part: &LineSlice<'_>) {
    same(rt, part.len(), 10, "lines");
    if part.len() == 10 {
        same(rt, part.line(0), line(10), "first line");
        let last = part.part(9, 10);
        same(rt, last.len(), 1, "last");
        same(rt, line_at(&last, 0), Some(line(19)), "last line");
        same(rt, part.part(4, 4).is_empty(), true, "empty part");
    }
}

#[test]
fn a_part_has_the_lines_of_its_places(rt: HostRuntime) -> Result<(), Fail> {
    let mut list = LineList::with_capacity(rt.alloc(), 3)?;
    same(&rt, list.is_empty(), true, "new");
    put_thirty(&mut list)?;
    let whole = list.slice();
    same(&rt, whole.len(), 30, "whole");
    if whole.len() < 30 {
        return Ok(());
    }
    let part = whole.part(10, 20);
    has_ten(&rt, &part);
    let lines = part.unpacked(rt.alloc())?;
    same(&rt, lines.len(), 10, "unpacked");
    for (place, one) in lines.iter().enumerate() {
        same(&rt, one, &line(10 + place), place);
    }
    Ok(())
}
