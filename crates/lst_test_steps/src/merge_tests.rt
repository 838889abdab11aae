//! The run of a merge, on a store without tails.
ghost use Rattle.std.specs.Prelude.{◌<◌, IfOk};
ghost use Rattle.lst_test_steps.specs.Merging.{HasTwoPages};

use lst_layout::Limits;
use lst_merge::{Run, run_end};
use lst_rule::{Seat, Store, open_store};
use std::alloc::Global;
use std::test::Fail;

/// Two pages, whose frames are 0 and 1, and a spare frame.
const SMALL: Limits = Limits {
    columns: 1,
    ranges: 2,
    tails: 1,
    sessions: 1,
    txns: 1,
    spare: 1,
    indexed: 0,
};

fn open_two_pages(alloc: Global) -> Result<(Store, Seat), Fail>
    ensures { IfOk result (λ opened. HasTwoPages opened.0 opened.1) }
{
    let limits = SMALL;
    let Ok(layout) = limits.check() else {
        return Err(Fail::from("the small limits are in range"));
    };
    Ok(open_store(alloc, &layout)?)
}

/// Whether the run of the page of a range has no tail.
fn is_empty(store: &Store, seat: &mut Seat, range: u32) -> bool
    requires pages { HasTwoPages store.now seat.old }
    requires low { range < 2 }
    ensures { HasTwoPages store.now seat.new }
{
    run_end(store, seat, range, 0) == Run { tps: 0, end: 0 }
}

#[test]
fn a_range_without_tails_has_an_empty_run(rt: HostRuntime) -> Result<(), Fail> {
    let (store, mut seat) = open_two_pages(rt.alloc())?;
    let first = is_empty(&store, &mut seat, 0);
    let second = is_empty(&store, &mut seat, 1);
    assert_eq!(rt; (first, second), (true, true));
    Ok(())
}
