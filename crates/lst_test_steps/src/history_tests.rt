//! The history of a store that opens.

use lst_history::history;
use lst_layout::Limits;
use lst_rule::open_store;
use std::test::Fail;

const SMALL: Limits = Limits {
    columns: 1,
    ranges: 1,
    tails: 2,
    sessions: 2,
    txns: 1,
    spare: 1,
    indexed: 0,
};

#[test]
fn a_store_that_opens_has_no_commits(rt: HostRuntime) -> Result<(), Fail> {
    let Ok(layout) = SMALL.check() else {
        return Err(Fail::from("the small limits are in range"));
    };
    let (store, mut seat) = open_store(rt.alloc(), &layout)?;
    let all = history(rt.alloc(), &store, &mut seat, 1)?;
    assert!(rt; all.is_empty());
    Ok(())
}
