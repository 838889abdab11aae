//! A transaction that puts, sets and deletes one row.
ghost use Rattle.std.specs.Prelude.{◌≡◌, ℕ, ◌<◌, List, [], ◌∷◌, ◌++◌, true, length, IfSome};
ghost use Rattle.lst_model.specs.declared.acts.Act.{Act};
ghost use Rattle.lst_model.specs.Lines.{IsPatch};
ghost use Rattle.lst_rule.specs.Rule.{knows, hosts};
ghost use Rattle.lst_rule.specs.Stores.{IsSeatOf};
ghost use Rattle.lst_txn.specs.Transactions.{IsFree};
ghost use Rattle.lst_write.specs.Cells.{IsActFor};
ghost use Rattle.lst_write.specs.Holding.{MayLatch, IsPlaced};
ghost use Rattle.lst_write.specs.Appending.{FitsSight};
ghost use Rattle.lst_test_steps.specs.Driving.{SeesActs, Writes};

use lst_index::{RecordId, find, place};
use lst_model::{Act, Key, Patch, Row, Time};
use lst_rule::{Seat, Store};
use lst_second::post_all;
use lst_txn::{begin, take_turn};
use lst_write::{append, install, judge, latch, release};

/// Writes an act on a record, above its newest version. Whether it did: where it may not, the latch is given back.
fn write(store: &Store, seat: &mut Seat, s: u32, rec: RecordId, act: &Act) -> Option<u32>
    requires seat { IsSeatOf store.now seat.old }
    requires host { hosts seat.old.view s ≡ true }
    requires own { s < seat.old.view.limits.sessions }
    requires free { MayLatch (knows seat.old.view s) }
    requires placed { IsPlaced (knows seat.old.view s) rec.number }
    requires act { IsActFor seat.old.view.limits.columns act.now }
    requires fits { FitsSight (knows seat.old.view s) rec.number act.now }
    ensures seat { IsSeatOf store.now seat.new }
    ensures writes { IfSome result (λ _. Writes seat.old.view seat.new.view s rec.number act.now) }
{
    let Ok(head) = latch(store, seat, s, rec) else {
        return None;
    };
    let Ok(()) = judge(store, seat, s, rec, head) else {
        release(store, seat, s, rec, head);
        return None;
    };
    let Ok(tail) = append(store, seat, s, rec, head, act) else {
        release(store, seat, s, rec, head);
        return None;
    };
    post_all(store, seat, s);
    install(store, seat, s, rec, tail);
    Some(tail)
}

/// Session s puts a row under a key that it doesn't see, sets some of its columns, deletes it, and commits all three as one transaction.
/// The commit's time, or None where a call is refused.
pub(crate) fn put_set_and_delete(
    store: &Store,
    seat: &mut Seat,
    s: u32,
    key: Key,
    row: Row,
    patch: Patch,
) -> Option<Time>
    requires seat { IsSeatOf store.now seat.old }
    requires host { hosts seat.old.view s ≡ true }
    requires own { s < seat.old.view.limits.sessions }
    requires free { IsFree (knows seat.old.view s) }
    requires hand { (knows seat.old.view s).placing.hand ≡ 0 }
    requires row { length row ≡ seat.old.view.limits.columns }
    requires patch { IsPatch seat.old.view.limits.columns patch }
    ensures seat { IsSeatOf store.now seat.new }
{
    let Ok(_) = begin(store, seat, s) else {
        return None;
    };
    let None = find(store, seat, s, key) else {
        return None;
    };
    let Ok(rec) = place(store, seat, s, key) else {
        return None;
    };
    let Some(_) = write(store, seat, s, rec, &Act::Put(row)) else {
        return None;
    };
    let Some(_) = write(store, seat, s, rec, &Act::Set(patch)) else {
        return None;
    };
    let Some(_) = write(store, seat, s, rec, &Act::Del) else {
        return None;
    };
    let Ok(turn) = take_turn(store, seat, s) else {
        return None;
    };
    Some(turn.commit(store, seat))
}
