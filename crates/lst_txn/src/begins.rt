//! A transaction begins.
ghost use Rattle.std.specs.Prelude.{◌≡◌, ◌≢◌, ◌⊎◌, ℕ, ◌↔◌, ◌<◌, ◌≤◌, true, false, IfOk, OnOk, OnErr, Err, length};
ghost use Rattle.lst_rule.specs.declared.view.View.{View};
ghost use Rattle.lst_rule.specs.Rule.{knows, hosts};
ghost use Rattle.lst_rule.specs.Stores.{IsSeatOf, Clocked};
ghost use Rattle.lst_txn.specs.Transactions.{Sees, Opens};

use lst_model::Time;
use lst_rule::{Seat, Store, load_clock, step_begin};

/// Why no transaction begins.
#[derive(Clone, Copy, PartialEq, Eq, Debug)]
pub enum BeginFault {
    /// A transaction is open.
    Active,
    /// The session has begun as many transactions as it may.
    Spent,
    /// The clock was found below the time that was asked for.
    Future { clock: Time },
}

/// Whether the session may begin another transaction: none is open, and it has begun fewer than it may.
pub fn may_begin(seat: &Seat, s: u32) -> Result<(), BeginFault>
    requires { hosts seat.now.view s ≡ true }
    ensures ok { OnOk result (((knows seat.now.view s).is_open ≡ false) × ((knows seat.now.view s).number ≢ seat.now.view.limits.txns)) }
    ensures active { (result ≡ Err BeginFault.Active) ↔ ((knows seat.now.view s).is_open ≡ true) }
    ensures spent { (result ≡ Err BeginFault.Spent) ↔ (((knows seat.now.view s).is_open ≡ false) × ((knows seat.now.view s).number ≡ seat.now.view.limits.txns)) }
    ensures future { (clock : ℕ) → ¬ (result ≡ Err (BeginFault.Future clock)) }
{
    if seat.is_open(s) {
        return Err(BeginFault::Active);
    }
    if seat.number(s) == seat.limits().txns {
        return Err(BeginFault::Spent);
    }
    Ok(())
}

/// Opens the session's next transaction with this begin, behind a load of the clock that found no less. Nothing is asked: the caller knows that the session
/// may begin another one (`may_begin`).
pub fn open(store: &Store, seat: &mut Seat, s: u32, begin: Time, read_only: bool)
    requires seat { IsSeatOf store.now seat.old }
    requires host { hosts seat.old.view s ≡ true }
    requires own { s < seat.old.view.limits.sessions }
    requires closed { (knows seat.old.view s).is_open ≡ false }
    requires more { (knows seat.old.view s).number ≢ seat.old.view.limits.txns }
    requires early { begin ≤ length (knows seat.old.view s).seen }
    ensures seat { IsSeatOf store.now seat.new }
    ensures hosted { seat.new.view.hosts ≡ seat.old.view.hosts }
    ensures opens { (v : View) (clock : ℕ) → Clocked v seat.old.view s clock → begin ≤ clock → Opens v seat.new.view s clock begin read_only }
{
    seat.consider();
    step_begin(store, seat, s, begin, read_only);
}

/// Begins the session's next transaction, and answers its begin: a clock that is loaded in this call. Active comes exactly where a
/// transaction of the session is open; Spent, where none is and the session has begun as many as it may; Future never.
pub fn begin(store: &Store, seat: &mut Seat, s: u32) -> Result<Time, BeginFault>
    requires seat { IsSeatOf store.now seat.old }
    requires host { hosts seat.old.view s ≡ true }
    requires own { s < seat.old.view.limits.sessions }
    ensures seat { IsSeatOf store.now seat.new }
    ensures hosted { seat.new.view.hosts ≡ seat.old.view.hosts }
    ensures ok { IfOk result (λ b. Opens seat.old.view seat.new.view s b b false) }
    ensures active { (result ≡ Err BeginFault.Active) ↔ ((knows seat.old.view s).is_open ≡ true) }
    ensures spent { (result ≡ Err BeginFault.Spent) ↔ (((knows seat.old.view s).is_open ≡ false) × ((knows seat.old.view s).number ≡ seat.old.view.limits.txns)) }
    ensures future { (clock : ℕ) → ¬ (result ≡ Err (BeginFault.Future clock)) }
    ensures err { OnErr result (seat.new ≡ seat.old) }
{
    if let Err(fault) = may_begin(seat, s) {
        return Err(fault);
    }
    let begin = load_clock(store, seat, s);
    open(store, seat, s, begin, false);
    Ok(begin)
}

/// Opens a read-only transaction as of a time, which is its begin. Active comes exactly where a transaction of the session is open; Spent,
/// where none is and the session has begun as many as it may; Future, where the clock that is loaded in this call is below the time.
pub fn as_of(store: &Store, seat: &mut Seat, s: u32, time: Time) -> Result<Time, BeginFault>
    requires seat { IsSeatOf store.now seat.old }
    requires host { hosts seat.old.view s ≡ true }
    requires own { s < seat.old.view.limits.sessions }
    ensures seat { IsSeatOf store.now seat.new }
    ensures hosted { seat.new.view.hosts ≡ seat.old.view.hosts }
    ensures ok { IfOk result (λ b. (b ≡ time) × ((clock : ℕ) × Opens seat.old.view seat.new.view s clock time true)) }
    ensures active { (result ≡ Err BeginFault.Active) ↔ ((knows seat.old.view s).is_open ≡ true) }
    ensures spent { (result ≡ Err BeginFault.Spent) ↔ (((knows seat.old.view s).is_open ≡ false) × ((knows seat.old.view s).number ≡ seat.old.view.limits.txns)) }
    ensures future { (clock : ℕ) → result ≡ Err (BeginFault.Future clock) → (clock < time) × Sees seat.old.view seat.new.view s clock }
    ensures never { time ≤ length (knows seat.old.view s).seen → (clock : ℕ) → ¬ (result ≡ Err (BeginFault.Future clock)) }
    ensures still { (result ≡ Err BeginFault.Active) ⊎ (result ≡ Err BeginFault.Spent) → seat.new ≡ seat.old }
{
    if let Err(fault) = may_begin(seat, s) {
        return Err(fault);
    }
    let clock = load_clock(store, seat, s);
    if clock < time {
        return Err(BeginFault::Future { clock });
    }
    open(store, seat, s, time, true);
    Ok(time)
}
