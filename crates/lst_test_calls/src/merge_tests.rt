//! The parts of a merge called by hand on a crew's seat: the run, a free frame, the page that is built there, and the swap.
ghost use Rattle.std.specs.Prelude.{◌≡◌, ◌<◌, true, IfOk};
ghost use Rattle.lst_pages.specs.Sound.{IsPage};
ghost use Rattle.lst_rule.specs.Rule.{hosts};
ghost use Rattle.lst_rule.specs.Stores.{IsSeatOf};
ghost use Rattle.lst_session.specs.Crews.{IsCrewOf};

use crate::scripts::{By, Crewed, Step, open, play, same};
use lst_core_state::Retired;
use lst_layout::{FRAME_TIMES, FRAME_VALUES, Limits};
use lst_merge::{Run, build, run_end, swap};
use lst_retire::{Held, free_frame};
use lst_rule::{Seat, Store, load};
use lst_session::{Crew, Merge};
use std::alloc::Global;
use std::process::Abort;
use std::test::Fail;

/// Eight pages, whose frames are 0 to 7, and one spare frame.
const LIMITS: Limits = Limits {
    columns: 2,
    ranges: 4,
    tails: 4096,
    sessions: 4,
    txns: 16,
    spare: 1,
    indexed: 0,
};

fn opened(alloc: Global) -> Result<Crewed, Fail> {
    open(alloc, &LIMITS, By::Crew)
}

/// The run of the first page.
fn run_of(rt: &impl Abort, on: &mut Crewed) -> Run {
    let limits = on.crew.seat.limits();
    assert!(rt; 0 < limits.ranges && 0 < limits.columns);
    run_by_hand(&on.store, &mut on.crew)
}

/// The same, compared.
fn runs(rt: &impl Abort, on: &mut Crewed, tps: u32, end: u32) {
    let run = run_of(rt, on);
    same(rt, run, Run { tps, end }, u64::from(end));
}

fn run_by_hand(store: &Store, crew: &mut Crew) -> Run
    requires crew { IsCrewOf store.now crew.old }
    requires page { IsPage crew.old.seat.view.limits 0 0 }
    ensures crew { IsCrewOf store.now crew.new }
{
    run_end(store, &mut crew.seat, 0, 0)
}

/// The frame that is free to be built in, or the session that holds it, compared.
fn frees(rt: &impl Abort, on: &mut Crewed, wanted: Result<u32, Held>) {
    let freed = free_by_hand(&on.store, &mut on.crew);
    same(rt, freed, wanted, 0);
}

fn free_by_hand(store: &Store, crew: &mut Crew) -> Result<u32, Held>
    requires crew { IsCrewOf store.now crew.old }
    ensures crew { IsCrewOf store.now crew.new }
{
    free_frame(store, &mut crew.seat, &mut crew.spares)
}

/// Merges the first page, and tells its run, and the frame that it has then. None where there is nothing to merge, or no frame.
fn merged(rt: &impl Abort, on: &mut Crewed) -> Option<(Run, u32)> {
    let limits = on.crew.seat.limits();
    assert!(rt; 0 < limits.ranges && 0 < limits.columns);
    merged_by_hand(&on.store, &mut on.crew)
}

/// The same, compared: the run begins behind no tail.
fn merges(rt: &impl Abort, on: &mut Crewed, end: u32, frame: u32) {
    let run = Run { tps: 0, end };
    let merged = merged(rt, on);
    same(rt, merged, Some((run, frame)), u64::from(end));
}

fn merged_by_hand(store: &Store, crew: &mut Crew) -> Option<(Run, u32)>
    requires crew { IsCrewOf store.now crew.old }
    requires page { IsPage crew.old.seat.view.limits 0 0 }
    ensures crew { IsCrewOf store.now crew.new }
{
    crew.seat.consider();
    let run = run_end(store, &mut crew.seat, 0, 0);
    if run.end == run.tps {
        return None;
    }
    match free_frame(store, &mut crew.seat, &mut crew.spares) {
        Err(_) => None,
        Ok(frame) => {
            build(store, &mut crew.seat, frame, 0, 0, &run);
            swap(store, &mut crew.seat, &mut crew.spares, frame, 0, 0);
            Some((run, frame))
        }
    }
}

/// A merge of the first page comes to nothing new.
fn is_idle(rt: &impl Abort, on: &mut Crewed, at: u64) {
    let limits = on.crew.seat.limits();
    assert!(rt; 0 < limits.ranges && 0 < limits.columns);
    let merge = on.crew.merge(&on.store, 0, 0);
    same(rt, merge, Merge::Idle { tps: 0 }, at);
}

/// Builds the first page anew in a free frame; tells whether there was one.
fn built_by_hand(store: &Store, crew: &mut Crew) -> bool
    requires crew { IsCrewOf store.now crew.old }
    requires page { IsPage crew.old.seat.view.limits 0 0 }
{
    crew.seat.consider();
    let run = run_end(store, &mut crew.seat, 0, 0);
    match free_frame(store, &mut crew.seat, &mut crew.spares) {
        Err(_) => false,
        Ok(frame) => {
            build(store, &mut crew.seat, frame, 0, 0, &run);
            true
        }
    }
}

/// The word at an address, or None where the store has no such word.
fn word(store: &Store, seat: &mut Seat, address: u64) -> Option<u64>
    requires seat { IsSeatOf store.now seat.old }
    requires host { hosts seat.old.view 0 ≡ true }
    ensures seat { IsSeatOf store.now seat.new }
    ensures host { hosts seat.new.view 0 ≡ true }
{
    if address >= store.layout().words {
        return None;
    }
    Some(load(store, seat, 0, address))
}

/// Whether these are the words from an address on.
fn words_are(store: &Store, seat: &mut Seat, first: u64, wanted: &[u64]) -> bool
    requires seat { IsSeatOf store.now seat.old }
    requires host { hosts seat.old.view 0 ≡ true }
    ensures seat { IsSeatOf store.now seat.new }
    ensures host { hosts seat.new.view 0 ≡ true }
{
    let mut same = true;
    let mut i = 0;
    while i < wanted.len() {
        if word(store, seat, first.saturating_add(i as u64)) != Some(wanted[i]) {
            same = false;
        }
        i += 1;
    }
    same
}

/// Where the spare frame begins.
fn spare_frame(store: &Store) -> Option<u64> {
    let layout = store.layout();
    if layout.limits.frame_count() > 8 {
        Some(layout.frames(8, 0))
    } else {
        None
    }
}

/// Words behind an address, each at a distance, compared.
fn words_at(
    rt: &impl Abort,
    store: &Store,
    seat: &mut Seat,
    from: u64,
    areas: &[(u32, &'static [u64])],
)
    requires seat { IsSeatOf store.now seat.old }
    requires host { hosts seat.old.view 0 ≡ true }
    ensures seat { IsSeatOf store.now seat.new }
    ensures host { hosts seat.new.view 0 ≡ true }
{
    for &(distance, wanted) in areas {
        let first = from.saturating_add(u64::from(distance));
        assert!(rt;
            words_are(store, seat, first, wanted),
            "from word {first} on"
        );
    }
}

#[test]
fn an_opening_store_has_nothing_to_merge(rt: HostRuntime) -> Result<(), Fail> {
    let mut on = opened(rt.alloc())?;
    runs(&rt, &mut on, 0, 0);
    is_idle(&rt, &mut on, 1);
    is_idle(&rt, &mut on, 2);
    let first = Retired { frame: 8, epoch: 0 };
    same(&rt, on.crew.spares.len(), 1, 3);
    same(&rt, on.crew.spares.first().copied(), Some(first), 4);
    Ok(())
}

#[test]
fn a_page_without_tails_is_built_in_a_spare_frame(rt: HostRuntime) -> Result<(), Fail> {
    let Crewed {
        store,
        mut crew,
        ..
    } = opened(rt.alloc())?;
    let limits = crew.seat.limits();
    assert!(rt; 0 < limits.ranges && 0 < limits.columns);
    assert!(rt; built_by_hand(&store, &mut crew));
    Ok(())
}

/// The second of three writes isn't finished.
const ONE_IS_OPEN: &[Step] = &[
    ("0 begin", "0 begun 0"),
    ("1 begin", "1 begun 0"),
    ("2 begin", "2 begun 0"),
    ("0 insert 1 a=1 b=1", "0 ok"),
    ("1 insert 2 a=2 b=2", "1 ok"),
    ("2 insert 3 a=3 b=3", "2 ok"),
    ("0 commit", "0 committed 1"),
    ("2 commit", "2 committed 2"),
];

/// The words of the frame that the three writes are merged into.
const FRAME: &[(u32, &[u64])] = &[
    (0, &[3]),
    // Four runs of values: 1 at the first record, 0 at the second, 3 at the third, and 0 from there on.
    (FRAME_VALUES, &[35, 1, 1, 0, 2, 3, 3, 0, 256]),
    (FRAME_TIMES, &[3, 0, 5, 0]),
];

/// The words of the store once the three writes are merged.
fn has_merged_words(rt: &impl Abort, on: Crewed) -> Result<(), Fail> {
    let Crewed { store, crew, .. } = on;
    let Crew { mut seat, .. } = crew;
    let layout = store.layout();
    let (directory, epoch) = (layout.directory(0, 0), layout.epoch());
    let Some(frame) = spare_frame(&store) else {
        return Err(Fail::from("there are nine frames"));
    };
    words_at(rt, &store, &mut seat, directory, &[(0, &[8])]);
    words_at(rt, &store, &mut seat, epoch, &[(0, &[1])]);
    words_at(rt, &store, &mut seat, frame, FRAME);
    Ok(())
}

#[test]
fn a_run_ends_before_the_first_unfinished_tail(rt: HostRuntime) -> Result<(), Fail> {
    let mut on = opened(rt.alloc())?;
    play(&rt, &mut on, ONE_IS_OPEN)?;
    runs(&rt, &mut on, 0, 1);
    play(&rt, &mut on, &[("1 abort", "1 aborted")])?;
    runs(&rt, &mut on, 0, 3);
    merges(&rt, &mut on, 3, 8);
    runs(&rt, &mut on, 3, 3);
    has_merged_words(&rt, on)
}

/// Session 1 begins between two commits of session 0.
const TWO_COMMITS: &[Step] = &[
    ("0 begin", "0 begun 0"),
    ("0 insert 7 a=10 b=20", "0 ok"),
    ("0 commit", "0 committed 1"),
    ("1 begin", "1 begun 1"),
    ("0 begin", "0 begun 1"),
    ("0 update 7 a=11 b=21", "0 ok"),
    ("0 commit", "0 committed 2"),
];

/// Each session reads its own row.
const OLD_AND_NEW: &[Step] = &[
    ("1 get 7", "1 row 10 20"),
    ("0 begin", "0 begun 2"),
    ("0 get 7", "0 row 11 21"),
];

#[test]
fn a_merge_by_hand_leaves_old_readers_their_row(rt: HostRuntime) -> Result<(), Fail> {
    let mut on = opened(rt.alloc())?;
    play(&rt, &mut on, TWO_COMMITS)?;
    merges(&rt, &mut on, 2, 8);
    play(&rt, &mut on, OLD_AND_NEW)
}

/// Session 1 has a transaction open behind a commit.
const PINS: &[Step] = &[
    ("0 begin", "0 begun 0"),
    ("0 insert 7 a=10 b=20", "0 ok"),
    ("0 commit", "0 committed 1"),
    ("1 begin", "1 begun 1"),
];

#[test]
fn a_pin_holds_a_frame_until_it_is_gone(rt: HostRuntime) -> Result<(), Fail> {
    let mut on = opened(rt.alloc())?;
    play(&rt, &mut on, PINS)?;
    merges(&rt, &mut on, 1, 8);
    frees(&rt, &mut on, Err(Held { session: 1 }));
    play(&rt, &mut on, &[("1 commit", "1 ended 1")])?;
    // The frame that the page had before.
    frees(&rt, &mut on, Ok(0));
    Ok(())
}
