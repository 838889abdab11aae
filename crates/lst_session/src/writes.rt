//! A write on the record of a key: under its latch the chain is judged and asked for a row, and then the write is installed, or the latch is
//! given back.
ghost use Rattle.std.specs.Prelude.{◌≡◌, ◌⊎◌, ◌↔◌, ◌<◌, true, false, Err, OnOk, IfErr};
ghost use Rattle.lst_rule.specs.Rule.{knows, hosts};
ghost use Rattle.lst_rule.specs.Stores.{IsSeatOf};
ghost use Rattle.lst_rule.specs.Seen.{HasKey};
ghost use Rattle.lst_rule.specs.Loads.{ChainFound};
ghost use Rattle.lst_refinement.specs.Crews.{IsIdle};
ghost use Rattle.lst_write.specs.Cells.{IsActFor};
ghost use Rattle.lst_write.specs.Holding.{HasLatch};
ghost use Rattle.lst_walk.specs.Newest.{IsNewest};
ghost use Rattle.lst_session.specs.Traces as traces;
ghost use Rattle.lst_session.specs.Traces.{misfit_of, Agrees, Prepares, Tries, Inserts, Changes};

use crate::kinds::WriteRefusal;
use lst_index::{find, place};
use lst_model::{Act, Key};
use lst_rule::{RecordId, Seat, Store};
use lst_second::post_all;
use lst_walk::has_row;
use lst_write::{JudgeFault, append, install, judged_version, latch, release};

/// Whether an act fits the row of a record that the transaction sees: a put where there is none, any other where there is one. The newest version that it
/// sees is named by its tail record.
fn agree(
    store: &Store,
    seat: &mut Seat,
    s: u32,
    rec: RecordId,
    newest: Option<u32>,
    key: Key,
    act: &Act,
) -> Result<(), WriteRefusal>
    requires seat { IsSeatOf store.now seat.old }
    requires host { hosts seat.old.view s ≡ true }
    requires own { s < seat.old.view.limits.sessions }
    requires opened { (knows seat.old.view s).is_open ≡ true }
    requires newest { IsNewest seat.old.view s rec.number newest }
    requires placed { HasKey (knows seat.old.view s).facts rec.number key }
    ensures seat { IsSeatOf store.now seat.new }
    ensures agrees { Agrees seat.old.view seat.new.view s key act.now result }
{
    let _ = key;
    let is_there = has_row(store, seat, s, rec, newest);
    if is_there == is_put(act) {
        return Err(misfit(act));
    }
    Ok(())
}

/// Whether an act puts a row.
fn is_put(act: &Act) -> bool
    ensures { result ≡ traces.is_put act.now }
{
    matches!(act, Act::Put(_))
}

/// How an act is refused that doesn't fit.
fn misfit(act: &Act) -> WriteRefusal
    ensures { result ≡ misfit_of act.now }
{
    match act {
        Act::Put(_) => WriteRefusal::Exists,
        _ => WriteRefusal::Missing,
    }
}

/// Makes a tail with the act, which is then in hand and posted, where the session may write it on a record whose latch it has.
fn prepare(
    store: &Store,
    seat: &mut Seat,
    s: u32,
    rec: RecordId,
    head: u32,
    key: Key,
    act: &Act,
) -> Result<u32, WriteRefusal>
    requires seat { IsSeatOf store.now seat.old }
    requires host { hosts seat.old.view s ≡ true }
    requires own { s < seat.old.view.limits.sessions }
    requires opened { (knows seat.old.view s).is_open ≡ true }
    requires latch { HasLatch (knows seat.old.view s) rec.number head }
    requires chain { ChainFound seat.old.view.limits (knows seat.old.view s) s rec.number head }
    requires placed { HasKey (knows seat.old.view s).facts rec.number key }
    requires act { IsActFor seat.old.view.limits.columns act.now }
    ensures seat { IsSeatOf store.now seat.new }
    ensures prepares { Prepares seat.old.view seat.new.view s rec.number head key act.now result }
{
    seat.consider();
    let newest = match judged_version(store, seat, s, rec, head) {
        Ok(newest) => newest,
        Err(JudgeFault::Newer { time }) => return Err(WriteRefusal::Newer { time }),
        Err(JudgeFault::Unfinished { session, number }) => {
            return Err(WriteRefusal::Unfinished { session, number });
        }
    };
    seat.consider();
    if let Err(refusal) = agree(store, seat, s, rec, newest, key, act) {
        return Err(refusal);
    }
    seat.consider();
    match append(store, seat, s, rec, head, act) {
        Ok(tail) => {
            post_all(store, seat, s);
            Ok(tail)
        }
        Err(_) => Err(WriteRefusal::TailFull),
    }
}

/// Tries to write the act on the record of the key.
fn try_write(
    store: &Store,
    seat: &mut Seat,
    s: u32,
    rec: RecordId,
    key: Key,
    act: &Act,
) -> Result<(), WriteRefusal>
    requires seat { IsSeatOf store.now seat.old }
    requires host { hosts seat.old.view s ≡ true }
    requires own { s < seat.old.view.limits.sessions }
    requires opened { (knows seat.old.view s).is_open ≡ true }
    requires writes { (knows seat.old.view s).read_only ≡ false }
    requires idle { IsIdle (knows seat.old.view s) }
    requires placed { HasKey (knows seat.old.view s).facts rec.number key }
    requires act { IsActFor seat.old.view.limits.columns act.now }
    ensures seat { IsSeatOf store.now seat.new }
    ensures tries { Tries seat.old.view seat.new.view s rec.number key act.now result }
{
    let Ok(head) = latch(store, seat, s, rec) else {
        return Err(WriteRefusal::Latched);
    };
    match prepare(store, seat, s, rec, head, key, act) {
        Ok(tail) => {
            install(store, seat, s, rec, tail);
            Ok(())
        }
        Err(refusal) => {
            release(store, seat, s, rec, head);
            Err(refusal)
        }
    }
}

/// Whether the session has a transaction open that may write.
fn may_write(seat: &Seat, s: u32) -> Result<(), WriteRefusal>
    requires { hosts seat.now.view s ≡ true }
    ensures idle { (result ≡ Err WriteRefusal.Idle) ↔ ((knows seat.now.view s).is_open ≡ false) }
    ensures read_only { (result ≡ Err WriteRefusal.ReadOnly) ↔ (((knows seat.now.view s).is_open ≡ true) × ((knows seat.now.view s).read_only ≡ true)) }
    ensures ok { OnOk result (((knows seat.now.view s).is_open ≡ true) × ((knows seat.now.view s).read_only ≡ false)) }
    ensures err { IfErr result (λ refusal. (refusal ≡ WriteRefusal.Idle) ⊎ (refusal ≡ WriteRefusal.ReadOnly)) }
{
    if !seat.is_open(s) {
        return Err(WriteRefusal::Idle);
    }
    if seat.is_read_only(s) {
        return Err(WriteRefusal::ReadOnly);
    }
    Ok(())
}

/// Puts a row where the transaction sees none of the key.
pub(crate) fn insert(
    store: &Store,
    seat: &mut Seat,
    s: u32,
    key: Key,
    act: &Act,
) -> Result<(), WriteRefusal>
    requires seat { IsSeatOf store.now seat.old }
    requires host { hosts seat.old.view s ≡ true }
    requires own { s < seat.old.view.limits.sessions }
    requires idle { IsIdle (knows seat.old.view s) }
    requires act { IsActFor seat.old.view.limits.columns act.now }
    ensures seat { IsSeatOf store.now seat.new }
    ensures inserts { Inserts seat.old.view seat.new.view s key act.now result }
{
    if let Err(refusal) = may_write(seat, s) {
        return Err(refusal);
    }
    match place(store, seat, s, key) {
        Ok(rec) => try_write(store, seat, s, rec, key, act),
        Err(_) => Err(WriteRefusal::TableFull),
    }
}

/// Changes or deletes the row of a key that the transaction sees.
pub(crate) fn change(
    store: &Store,
    seat: &mut Seat,
    s: u32,
    key: Key,
    act: &Act,
) -> Result<(), WriteRefusal>
    requires seat { IsSeatOf store.now seat.old }
    requires host { hosts seat.old.view s ≡ true }
    requires own { s < seat.old.view.limits.sessions }
    requires idle { IsIdle (knows seat.old.view s) }
    requires act { IsActFor seat.old.view.limits.columns act.now }
    ensures seat { IsSeatOf store.now seat.new }
    ensures changes { Changes seat.old.view seat.new.view s key act.now result }
{
    if let Err(refusal) = may_write(seat, s) {
        return Err(refusal);
    }
    match find(store, seat, s, key) {
        Some(rec) => try_write(store, seat, s, rec, key, act),
        None => Err(WriteRefusal::Missing),
    }
}
