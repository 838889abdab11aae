//! The greatest store.

use lst_layout::Limits;
use lst_rule::open_store;
use std::test::Fail;

const GREATEST: Limits = Limits {
    columns: 8,
    ranges: 64,
    tails: 16_384,
    sessions: 16,
    txns: 65_535,
    spare: 64,
    indexed: 255,
};

#[test]
fn a_store_of_31_821_732_words_opens_and_closes(rt: HostRuntime) -> Result<(), Fail> {
    let Ok(layout) = GREATEST.check() else {
        return Err(Fail::from("the greatest limits are in range"));
    };
    let (store, seat) = open_store(rt.alloc(), &layout)?;
    assert_eq!(rt; store.layout().words, 31_821_732);
    assert!(rt; seat.hosts(16));
    Ok(())
}
