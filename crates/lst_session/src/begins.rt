//! A transaction begins, with its session pinned.
ghost use Rattle.std.specs.Prelude.{◌≡◌, ◌⊎◌, ℕ, ◌↔◌, ◌<◌, ◌≤◌, true, false, IfOk, OnErr, Err, length};
ghost use Rattle.lst_rule.specs.Rule.{knows, hosts};
ghost use Rattle.lst_rule.specs.Stores.{IsSeatOf};
ghost use Rattle.lst_txn.specs.Transactions.{Sees};
ghost use Rattle.lst_refinement.specs.Crews.{IsPinnedWhereOpen};
ghost use Rattle.lst_session.specs.Traces.{Begins, BeginsAsOf};

use lst_model::Time;
use lst_retire::pin;
use lst_rule::{Seat, Store, load_clock};
use lst_txn::{BeginFault, may_begin, open};

/// Pins the session at an epoch that is loaded in this call, begins its next transaction, and answers its begin: a clock that is loaded after
/// that. Active comes exactly where a transaction of the session is open; Spent, where none is and the session has begun as many as it may;
/// Future never. No word is loaded, and no pin set, where it is refused.
pub(crate) fn begin(store: &Store, seat: &mut Seat, s: u32) -> Result<Time, BeginFault>
    requires seat { IsSeatOf store.now seat.old }
    requires host { hosts seat.old.view s ≡ true }
    requires own { s < seat.old.view.limits.sessions }
    requires pinned { IsPinnedWhereOpen (knows seat.old.view s) }
    ensures seat { IsSeatOf store.now seat.new }
    ensures hosted { seat.new.view.hosts ≡ seat.old.view.hosts }
    ensures ok { IfOk result (λ b. Begins seat.old.view seat.new.view s b b false) }
    ensures active { (result ≡ Err BeginFault.Active) ↔ ((knows seat.old.view s).is_open ≡ true) }
    ensures spent { (result ≡ Err BeginFault.Spent) ↔ (((knows seat.old.view s).is_open ≡ false) × ((knows seat.old.view s).number ≡ seat.old.view.limits.txns)) }
    ensures future { (clock : ℕ) → ¬ (result ≡ Err (BeginFault.Future clock)) }
    ensures err { OnErr result (seat.new ≡ seat.old) }
{
    if let Err(fault) = may_begin(seat, s) {
        return Err(fault);
    }
    pin(store, seat, s);
    let begin = load_clock(store, seat, s);
    open(store, seat, s, begin, false);
    Ok(begin)
}

/// Opens a read-only transaction as of a time, which is its begin, with its session pinned. Active and Spent come as of `begin`, before any
/// word is loaded; Future, where the clock that is loaded in this call is below the time. No pin is set where it is refused.
///
/// The clock is loaded before the epoch, and once more when the transaction opens; it never falls.
pub(crate) fn as_of(store: &Store, seat: &mut Seat, s: u32, time: Time) -> Result<Time, BeginFault>
    requires seat { IsSeatOf store.now seat.old }
    requires host { hosts seat.old.view s ≡ true }
    requires own { s < seat.old.view.limits.sessions }
    requires pinned { IsPinnedWhereOpen (knows seat.old.view s) }
    ensures seat { IsSeatOf store.now seat.new }
    ensures hosted { seat.new.view.hosts ≡ seat.old.view.hosts }
    ensures ok { IfOk result (λ b. (b ≡ time) × ((clock : ℕ) × BeginsAsOf seat.old.view seat.new.view s clock time)) }
    ensures active { (result ≡ Err BeginFault.Active) ↔ ((knows seat.old.view s).is_open ≡ true) }
    ensures spent { (result ≡ Err BeginFault.Spent) ↔ (((knows seat.old.view s).is_open ≡ false) × ((knows seat.old.view s).number ≡ seat.old.view.limits.txns)) }
    ensures future { (clock : ℕ) → result ≡ Err (BeginFault.Future clock) → (clock < time) × Sees seat.old.view seat.new.view s clock }
    ensures never { time ≤ length (knows seat.old.view s).seen → (clock : ℕ) → ¬ (result ≡ Err (BeginFault.Future clock)) }
    ensures still { (result ≡ Err BeginFault.Active) ⊎ (result ≡ Err BeginFault.Spent) → seat.new ≡ seat.old }
{
    if let Err(fault) = may_begin(seat, s) {
        return Err(fault);
    }
    let clock = load_clock(store, seat, s);
    if clock < time {
        return Err(BeginFault::Future { clock });
    }
    pin(store, seat, s);
    let _ = load_clock(store, seat, s);
    open(store, seat, s, time, true);
    Ok(time)
}
