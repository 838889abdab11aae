//! Pages of worked tails.

use arrayvec::ArrayVec;
use lst_bits::Kind;
use lst_layout::{FRAME_NULLS, FRAME_TIMES, FRAME_VALUES, FRAME_WORDS};
use lst_model::{OutOfMemory, Row};
use lst_pages::{PageTail, entry_in, is_right};
use std::alloc::Global;
use std::process::Abort;

const WORDS: usize = FRAME_WORDS as usize;

/// The first word of the packed values, which names their form.
const FORM: usize = FRAME_VALUES as usize;

/// The first value in plain form.
const VALUES: usize = FORM + 1;

const TIMES: usize = FRAME_TIMES as usize;

const NULLS: usize = FRAME_NULLS as usize;

/// Words that are stored in a page, whether the page is right with them, and of what that tells.
type Step<'a> = (&'a [(usize, u64)], bool, &'a str);

/// Stores the words of each step, and judges the page for a column behind it.
fn is_judged(
    rt: &impl Abort,
    tails: &[PageTail],
    column: u32,
    words: &mut [u64; WORDS],
    steps: &[Step<'_>],
) {
    assert!(rt; column < 8);
    for &(stored, wanted, what) in steps {
        for &(place, word) in stored {
            assert!(rt; place < WORDS);
            words[place] = word;
        }
        assert_eq!(rt; is_right(tails, column, words), wanted, "{what}");
    }
}

const LAST_COMMITS: [Step<'static>; 4] = [
    (
        &[
            (0, 3),
            (VALUES, 1),
            (VALUES + 2, 3),
            (TIMES, 3),
            (TIMES + 2, 5),
        ],
        true,
        "each record has its last commit",
    ),
    (
        &[(VALUES + 1, 7)],
        true,
        "the value of an absent entry is not read",
    ),
    (&[(0, 2)], false, "record 2 has no tail up to 2"),
    (&[(0, 7)], false, "there is no tail 7"),
];

#[test]
fn a_page_holds_the_last_commit_of_each_record(rt: HostRuntime) -> Result<(), OutOfMemory> {
    let tails = worked_tails(rt.alloc())?;
    is_judged(&rt, tails.as_slice(), 0, &mut [0; WORDS], &LAST_COMMITS);
    Ok(())
}

const DELETED: [Step<'static>; 3] = [
    (
        &[
            (0, 5),
            (VALUES, 20),
            (VALUES + 2, 4),
            (TIMES, 7),
            (TIMES + 2, 8),
        ],
        true,
        "record 2 is absent at its time",
    ),
    (&[(TIMES + 2, 9)], false, "record 2 is deleted"),
    (
        &[(TIMES + 2, 8), (TIMES, 3)],
        false,
        "record 0 was set at time 3",
    ),
];

#[test]
fn a_delete_leaves_an_absent_entry_at_its_time(rt: HostRuntime) -> Result<(), OutOfMemory> {
    let tails = worked_tails(rt.alloc())?;
    is_judged(&rt, tails.as_slice(), 1, &mut [0; WORDS], &DELETED);
    Ok(())
}

const NULL: [Step<'static>; 2] = [
    (
        &[
            (0, 6),
            (VALUES, 20),
            (TIMES, 7),
            (TIMES + 2, 8),
            (TIMES + 70, 11),
        ],
        false,
        "record 70 is null, and not 0",
    ),
    (&[(NULLS + 1, 64)], true, "record 70 is null"),
];

#[test]
fn a_null_is_a_present_entry_whose_value_is_0(rt: HostRuntime) -> Result<(), OutOfMemory> {
    let tails = worked_tails(rt.alloc())?;
    let mut words = [0; WORDS];
    is_judged(&rt, tails.as_slice(), 1, &mut words, &NULL);
    assert!(rt; is_right(tails.as_slice(), 1, &words));
    assert_eq!(rt; entry_in(&words, 70).cell, Some(None));
    let not_0: [Step<'static>; 1] = [(&[(VALUES + 70, 8)], false, "the value of a null is 0")];
    is_judged(&rt, tails.as_slice(), 1, &mut words, &not_0);
    Ok(())
}

const OTHER_FORMS: [Step<'static>; 2] = [
    (
        &[(0, 1), (FORM, 1), (FORM + 1, 2), (FORM + 2, 5), (TIMES, 3)],
        true,
        "all values are one",
    ),
    (&[(FORM, 9)], false, "no packed page begins with 9"),
];

#[test]
fn values_may_stand_in_another_form_than_plain(rt: HostRuntime) -> Result<(), OutOfMemory> {
    let tails = worked_tails(rt.alloc())?;
    is_judged(&rt, tails.as_slice(), 1, &mut [0; WORDS], &OTHER_FORMS);
    Ok(())
}

/// A settled tail of two columns: its slot, kind, mask, cells and time.
type Tail = (u8, Kind, u8, [Option<u64>; 2], u64);

/// Record 0 is put at time 1, record 1 by a closed transaction, record 2 at time 2; column 1 of record 0 is set at time 3,
/// record 2 is deleted at time 4, and record 70 is put at time 5, with null in column 1.
const TAILS: [Tail; 6] = [
    (0, Kind::Put, 3, [Some(1), Some(2)], 1),
    (1, Kind::Put, 3, [Some(8), Some(8)], 0),
    (2, Kind::Put, 3, [Some(3), Some(4)], 2),
    (0, Kind::Set, 2, [Some(0), Some(20)], 3),
    (2, Kind::Del, 0, [Some(0), Some(0)], 4),
    (70, Kind::Put, 3, [Some(6), None], 5),
];

fn worked_tails(alloc: Global) -> Result<Vec<PageTail>, OutOfMemory> {
    let mut tails = Vec::new(alloc);
    for &tail in TAILS.iter() {
        tails.push(tail_of(tail))?;
    }
    Ok(tails)
}

fn tail_of(tail: Tail) -> PageTail {
    let (slot, kind, mask, cells, time) = tail;
    let mut values = Row::of_numbers(ArrayVec::new());
    values.push(cells[0]);
    values.push(cells[1]);
    PageTail {
        slot,
        kind,
        mask,
        values,
        time,
    }
}
