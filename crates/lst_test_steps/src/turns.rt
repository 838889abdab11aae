//! A session that tries for the turn while another has it.
ghost use Rattle.std.specs.Prelude.{◌≡◌, ◌<◌, length};
ghost use Rattle.lst_rule.specs.Rule.{knows};
ghost use Rattle.lst_rule.specs.Stores.{IsSeatOf};
ghost use Rattle.lst_test_steps.specs.Driving.{HostsAll, IsAtStage, ArePair, Rests};

use crate::stages::{Pair, Stage};
use lst_model::Time;
use lst_rule::{Seat, Store};
use lst_txn::{BeginFault, TurnFault, as_of, take_turn};

/// A session that has something to commit, or no open transaction, tries for the turn, and gives it back. Why it was refused, or None.
fn try_turn(store: &Store, seat: &mut Seat, s: u32) -> Option<TurnFault>
    requires crew { HostsAll store.now seat.old }
    requires out { IsAtStage seat.old s Stage.Out }
    requires writes { 0 < length (knows seat.old.view s).own }
    ensures seat { IsSeatOf store.now seat.new }
    ensures out { Rests seat.old.view seat.new.view s }
{
    match take_turn(store, seat, s) {
        Ok(turn) => {
            turn.give_back(store, seat);
            None
        }
        Err(fault) => Some(fault),
    }
}

/// Session 0 takes the turn, session 1 tries for it, and then session 0 commits. Why session 1 was refused, and the commit's time; None where
/// one of the two has nothing to commit, or session 0 doesn't get the turn.
pub(crate) fn commit_beside(
    store: &Store,
    seat: &mut Seat,
    pair: &mut Pair,
) -> Option<(Option<TurnFault>, Time)>
    requires crew { HostsAll store.now seat.old }
    requires pair { ArePair seat.old pair.old }
    ensures crew { HostsAll store.now seat.new }
    ensures pair { ArePair seat.new pair.new }
{
    let (Stage::In, Stage::In) = (pair.first, pair.second) else {
        return None;
    };
    pair.first = Stage::Out;
    pair.second = Stage::Out;
    if !seat.has_writes(0) || !seat.has_writes(1) {
        return None;
    }
    let Ok(turn) = take_turn(store, seat, 0) else {
        return None;
    };
    let fault = try_turn(store, seat, 1);
    Some((fault, turn.commit(store, seat)))
}

/// A third session opens a transaction as of a time.
pub(crate) fn open_as_of(
    store: &Store,
    seat: &mut Seat,
    pair: &Pair,
    time: Time,
) -> Result<Time, BeginFault>
    requires crew { HostsAll store.now seat.old }
    requires pair { ArePair seat.old pair.now }
    requires three { 2 < store.now.layout.limits.sessions }
    ensures crew { HostsAll store.now seat.new }
    ensures pair { ArePair seat.new pair.now }
{
    let _ = pair;
    match as_of(store, seat, 2, time) {
        Ok(begin) => Ok(begin),
        Err(BeginFault::Active) => Err(BeginFault::Active),
        Err(BeginFault::Spent) => Err(BeginFault::Spent),
        Err(BeginFault::Future { clock }) => Err(BeginFault::Future { clock }),
    }
}
