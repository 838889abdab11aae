//! The positions of a number's run, the record of a tail, and what an encoding word says.

use crate::candidate_tests::list;
use crate::index_tests::puts;
use crate::post_tests;
use crate::read_tests::{Deed, Step, open_with, play};
use lst_bits::holds_number;
use lst_layout::Limits;
use lst_rule::RecordId;
use std::test::Fail;

/// One range of 4 tails, and 8 positions a column.
const FEW: Limits = Limits {
    columns: 2,
    ranges: 1,
    tails: 4,
    sessions: 2,
    txns: 4,
    spare: 1,
    indexed: 3,
};

/// The run of 3 has the positions 6, 7 and 0.
const LAST_AND_FIRST: [post_tests::Step; 6] = [
    post_tests::Step::Writes(7, Deed::Put(3, 20), 1),
    post_tests::Step::Writes(8, Deed::Put(3, 20), 2),
    post_tests::Step::Writes(9, Deed::Put(3, 20), 3),
    post_tests::Step::Posting(0, 6, 1),
    post_tests::Step::Posting(0, 7, 2),
    post_tests::Step::Posting(0, 0, 3),
];

#[test]
fn a_run_goes_on_at_the_first_position(rt: HostRuntime) -> Result<(), Fail> {
    post_tests::run(&rt, rt.alloc(), FEW, &LAST_AND_FIRST)
}

/// The last tail of the first range has slot 9, and so has the first of the second.
const SLOT_9: [(u32, Step); 6] = [
    (0, Step::Begins(0)),
    (0, Step::Writes(1000, Deed::Put(1, 20), 1)),
    (0, Step::Writes(1001, Deed::Put(1, 20), 2)),
    (0, Step::Writes(1002, Deed::Put(1, 20), 3)),
    (0, Step::Writes(1009, Deed::Put(4, 20), 4)),
    (0, Step::Writes(1265, Deed::Put(5, 20), 1)),
];

#[test]
fn a_tail_tells_its_record(rt: HostRuntime) -> Result<(), Fail> {
    let (store, mut seat) = open_with(rt.alloc(), Limits { ranges: 2, ..FEW })?;
    assert!(rt; puts(&store, &mut seat, 0, 266));
    play(&rt, &store, &mut seat, &SLOT_9);
    list(
        &rt,
        rt.alloc(),
        &store,
        &mut seat,
        &[
            (0, 4, &[RecordId { number: 9 }]),
            (0, 5, &[RecordId { number: 265 }]),
        ],
    );
    Ok(())
}

#[test]
fn a_null_is_no_number(rt: HostRuntime) {
    // A set of columns 0 and 1, the second to null.
    let encoding = 3 + 512 + 16_777_216 * 2;
    for column in 0..3 {
        assert_eq!(rt; holds_number(encoding, column), column == 0, "{column}");
    }
}
