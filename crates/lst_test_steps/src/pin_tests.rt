//! Pins and free frames of three sessions and the merger, which one seat hosts.
ghost use Rattle.std.specs.Prelude.{◌<◌, IfOk};
ghost use Rattle.lst_retire.specs.Trios.{IsTrio};

use lst_layout::Limits;
use lst_retire::{Held, first_holder, free_frame, opening_spares, pin, unpin};
use lst_rule::{Seat, Spares, Store, open_store};
use std::alloc::Global;
use std::test::Fail;

/// Two pages, whose frames are 0 and 1, and two spare frames.
const SMALL: Limits = Limits {
    columns: 1,
    ranges: 2,
    tails: 1,
    sessions: 3,
    txns: 1,
    spare: 2,
    indexed: 0,
};

fn open_trio(alloc: Global) -> Result<(Store, Seat, Spares), Fail>
    ensures { IfOk result (λ opened. IsTrio opened.0 opened.1 opened.2.items) }
{
    let limits = SMALL;
    let Ok(layout) = limits.check() else {
        return Err(Fail::from("the small limits are in range"));
    };
    let spares = opening_spares(&layout.limits);
    let (store, seat) = open_store(alloc, &layout)?;
    Ok((store, seat, spares))
}

/// Whether the session gets a pin, which it doesn't where it has one.
fn gets_pin(store: &Store, seat: &mut Seat, spares: &Spares, s: u32) -> bool
    requires trio { IsTrio store.now seat.old spares.now.items }
    requires low { s < 3 }
    ensures trio { IsTrio store.now seat.new spares.now.items }
{
    let _ = spares;
    let may_pin = seat.pinned(s).is_none();
    if may_pin {
        pin(store, seat, s);
    }
    may_pin
}

/// Whether the session's pin is taken away, where it has one.
fn loses_pin(store: &Store, seat: &mut Seat, spares: &Spares, s: u32) -> bool
    requires trio { IsTrio store.now seat.old spares.now.items }
    requires low { s < 3 }
    ensures trio { IsTrio store.now seat.new spares.now.items }
{
    let _ = spares;
    let has_pin = seat.pinned(s).is_some();
    if has_pin {
        unpin(store, seat, s);
    }
    has_pin
}

/// The first session whose pin holds a frame that was retired at this epoch.
fn holder(store: &Store, seat: &mut Seat, spares: &Spares, epoch: u64) -> Option<u32>
    requires trio { IsTrio store.now seat.old spares.now.items }
    ensures trio { IsTrio store.now seat.new spares.now.items }
{
    let _ = spares;
    first_holder(store, seat, epoch)
}

/// The frame that may be built in, if it isn't held.
fn freed(store: &Store, seat: &mut Seat, spares: &mut Spares) -> Result<u32, Held>
    requires trio { IsTrio store.now seat.old spares.old.items }
    ensures trio { IsTrio store.now seat.new spares.new.items }
{
    free_frame(store, seat, spares)
}

#[test]
fn the_oldest_spare_frame_is_given_until_it_is_used(rt: HostRuntime) -> Result<(), Fail> {
    let (store, mut seat, mut spares) = open_trio(rt.alloc())?;
    assert_eq!(rt; freed(&store, &mut seat, &mut spares), Ok(2));
    assert!(rt; gets_pin(&store, &mut seat, &spares, 1));
    assert_eq!(rt; seat.pinned(1), Some(0));
    assert_eq!(rt; freed(&store, &mut seat, &mut spares), Ok(2));
    assert_eq!(rt; spares.len(), 2);
    Ok(())
}

#[test]
fn a_pin_holds_what_is_retired_above_it(rt: HostRuntime) -> Result<(), Fail> {
    let (store, mut seat, spares) = open_trio(rt.alloc())?;
    assert_eq!(rt; holder(&store, &mut seat, &spares, 1), None);
    assert!(rt; gets_pin(&store, &mut seat, &spares, 1));
    assert!(rt; !gets_pin(&store, &mut seat, &spares, 1));
    assert_eq!(rt; holder(&store, &mut seat, &spares, 0), None);
    assert_eq!(rt; holder(&store, &mut seat, &spares, 1), Some(1));
    Ok(())
}

#[test]
fn each_session_is_looked_at_in_order(rt: HostRuntime) -> Result<(), Fail> {
    let (store, mut seat, spares) = open_trio(rt.alloc())?;
    assert!(rt; gets_pin(&store, &mut seat, &spares, 2));
    assert_eq!(rt; holder(&store, &mut seat, &spares, 1), Some(2));
    assert!(rt; gets_pin(&store, &mut seat, &spares, 0));
    assert_eq!(rt; holder(&store, &mut seat, &spares, 1), Some(0));
    assert!(rt; loses_pin(&store, &mut seat, &spares, 0));
    assert!(rt; loses_pin(&store, &mut seat, &spares, 2));
    assert!(rt; !loses_pin(&store, &mut seat, &spares, 2));
    assert_eq!(rt; holder(&store, &mut seat, &spares, 1), None);
    Ok(())
}
