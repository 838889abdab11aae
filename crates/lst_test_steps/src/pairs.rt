//! Two sessions, driven against each other.
ghost use Rattle.std.specs.Prelude.{◌≡◌, ℕ, ◌<◌, ◌≤◌, IfOk};
ghost use Rattle.lst_layout.specs.Limits.{IsValid};
ghost use Rattle.lst_test_steps.specs.Driving.{HostsAll, ArePair};

use crate::operations::{Answer, Operation, step};
use crate::stages::{Pair, Stage};
use lst_layout::Layout;
use lst_model::OutOfMemory;
use lst_rule::{Seat, Store, load};
use lst_seat::open_store;
use std::alloc::Global;

/// A store with a layout of two columns and at least two sessions, and its seat.
pub(crate) fn open_pair(alloc: Global, layout: &Layout) -> Result<(Store, Seat, Pair), OutOfMemory>
    requires columns { layout.now.limits.columns ≡ 2 }
    requires sessions { 2 ≤ layout.now.limits.sessions }
    ensures layout { IfOk result (λ opened. opened.0.layout ≡ layout.now) }
    ensures crew { IfOk result (λ opened. HostsAll opened.0 opened.1) }
    ensures pair { IfOk result (λ opened. ArePair opened.1 opened.2) }
{
    let (store, seat) = open_store(alloc, layout)?;
    let pair = Pair {
        first: Stage::Out,
        second: Stage::Out,
    };
    Ok((store, seat, pair))
}

/// Makes an operation of one of the two.
pub(crate) fn operate(
    store: &Store,
    seat: &mut Seat,
    pair: &mut Pair,
    s: u32,
    operation: Operation,
) -> Answer
    requires crew { HostsAll store.now seat.old }
    requires pair { ArePair seat.old pair.old }
    requires two { s < 2 }
    ensures crew { HostsAll store.now seat.new }
    ensures pair { ArePair seat.new pair.new }
{
    if s == 0 {
        let (answer, stage) = step(store, seat, 0, pair.first, operation);
        pair.first = stage;
        answer
    } else {
        let (answer, stage) = step(store, seat, 1, pair.second, operation);
        pair.second = stage;
        answer
    }
}

/// The word at an address, loaded by a third session, or None where the store has no such word.
pub(crate) fn load_word(store: &Store, seat: &mut Seat, pair: &Pair, address: u64) -> Option<u64>
    requires crew { HostsAll store.now seat.old }
    requires pair { ArePair seat.old pair.now }
    requires three { 2 < store.now.layout.limits.sessions }
    ensures crew { HostsAll store.now seat.new }
    ensures pair { ArePair seat.new pair.now }
{
    let _ = pair;
    if address >= store.layout().words {
        return None;
    }
    Some(load(store, seat, 2, address))
}
