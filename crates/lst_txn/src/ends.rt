//! A transaction ends: it is committed with the turn, or closed.
ghost use Rattle.std.specs.Prelude.{◌≡◌, ℕ, ◌↔◌, ◌+◌, ◌<◌, [], true, false, IfOk, OnErr, IsOk, Err, length, slice_set};
ghost use Rattle.lst_layout.specs.Addresses.{address};
ghost use Rattle.lst_layout.specs.declared.place.Place.TheVariants.{CommitWord, StateWord};
ghost use Rattle.lst_core_state.specs.declared.events.Event.TheVariants.{Take, Give};
ghost use Rattle.lst_core_state.specs.declared.known.Stage.TheVariants.{Away};
ghost use Rattle.lst_core_state.specs.State.{rank};
ghost use Rattle.lst_core_state.specs.Step.{took, held_off};
ghost use Rattle.lst_rule.specs.Rule.{knows, hosts};
ghost use Rattle.lst_rule.specs.Learned.{Learns, Kept, Made};
ghost use Rattle.lst_rule.specs.Stores.{IsSeatOf};
ghost use Rattle.lst_txn.specs.Transactions.{IsFree, HoldsTurn, Commits};

use lst_model::Time;
use lst_rule::{
    Seat, Store, load_clock, step_clock, step_close, step_give, step_log, step_state, step_take,
};

/// No transaction is open.
#[derive(Clone, Copy, PartialEq, Eq, Debug)]
pub struct Idle;

/// Why the turn isn't taken.
#[derive(Clone, Copy, PartialEq, Eq, Debug)]
pub enum TurnFault {
    /// No transaction is open.
    Idle,
    /// The commit word was found held.
    Busy,
}

/// The turn to commit. It has to be spent, by `commit` or by `give_back`, and nothing else makes or unmakes one but `take_turn`. Where the seat that
/// has the turn is dropped, the commit word stays held for good.
pub struct Turn {
    pub(crate) session: u32,
}

/// Tries once to take the turn for the session's open transaction, which has writes. Idle comes exactly where none is open. Busy
/// says that the commit word was found held: never to a seat that hosts every session while none of them has the turn.
pub fn take_turn(store: &Store, seat: &mut Seat, s: u32) -> Result<Turn, TurnFault>
    requires seat { IsSeatOf store.now seat.old }
    requires host { hosts seat.old.view s ≡ true }
    requires own { s < seat.old.view.limits.sessions }
    requires writes { (knows seat.old.view s).is_open ≡ true → 0 < length (knows seat.old.view s).own }
    requires free { IsFree (knows seat.old.view s) }
    ensures seat { IsSeatOf store.now seat.new }
    ensures hosted { seat.new.view.hosts ≡ seat.old.view.hosts }
    ensures ok { IfOk result (λ turn. (turn.session ≡ s) × Learns seat.old.view seat.new.view s (took (knows seat.old.view s))) }
    ensures words { IfOk result (λ _. seat.new.view.words ≡ slice_set seat.old.view.words (address seat.old.view.limits CommitWord) (s + 1)) }
    ensures made { IfOk result (λ _. Made seat.old.view seat.new.view (Take s) CommitWord (s + 1)) }
    ensures idle { (result ≡ Err TurnFault.Idle) ↔ ((knows seat.old.view s).is_open ≡ false) }
    ensures still { result ≡ Err TurnFault.Idle → seat.new ≡ seat.old }
    ensures busy { result ≡ Err TurnFault.Busy → Learns seat.old.view seat.new.view s (held_off (knows seat.old.view s)) × Kept seat.old.view seat.new.view }
    ensures crew { ((t : ℕ) → t < seat.old.view.limits.sessions → (hosts seat.old.view t ≡ true) × (rank (knows seat.old.view t).turn ≡ 0)) → ¬ (result ≡ Err TurnFault.Busy) }
{
    if !seat.is_open(s) {
        return Err(TurnFault::Idle);
    }
    if step_take(store, seat, s) == 0 {
        Ok(Turn { session: s })
    } else {
        Err(TurnFault::Busy)
    }
}

impl Turn {
    /// Commits the transaction that took the turn, and answers its time: the one after the clock that is loaded in this call. It
    /// gives the turn back.
    pub fn commit(self, store: &Store, seat: &mut Seat) -> Time
        requires seat { IsSeatOf store.now seat.old }
        requires host { hosts seat.old.view self.session ≡ true }
        requires own { self.session < seat.old.view.limits.sessions }
        requires turn { HoldsTurn (knows seat.old.view self.session) }
        ensures seat { IsSeatOf store.now seat.new }
        ensures commits { Commits seat.old.view seat.new.view self.session result }
    {
        let Turn { session: s } = self;
        let clock = load_clock(store, seat, s);
        step_log(store, seat, s);
        step_state(store, seat, s);
        step_clock(store, seat, s);
        step_give(store, seat, s);
        clock + 1
    }

    /// Gives the turn back. The transaction stays open.
    pub fn give_back(self, store: &Store, seat: &mut Seat)
        requires seat { IsSeatOf store.now seat.old }
        requires host { hosts seat.old.view self.session ≡ true }
        requires own { self.session < seat.old.view.limits.sessions }
        requires turn { HoldsTurn (knows seat.old.view self.session) }
        ensures seat { IsSeatOf store.now seat.new }
        ensures view { Learns seat.old.view seat.new.view self.session (record (knows seat.old.view self.session) { turn = Away }) }
        ensures words { seat.new.view.words ≡ slice_set seat.old.view.words (address seat.old.view.limits CommitWord) 0 }
        ensures made { Made seat.old.view seat.new.view (Give self.session) CommitWord 0 }
    {
        let Turn { session } = self;
        step_give(store, seat, session);
    }
}

/// Closes the session's open transaction: its writes are never seen.
pub fn close(store: &Store, seat: &mut Seat, s: u32) -> Result<(), Idle>
    requires seat { IsSeatOf store.now seat.old }
    requires host { hosts seat.old.view s ≡ true }
    requires own { s < seat.old.view.limits.sessions }
    requires free { IsFree (knows seat.old.view s) }
    ensures seat { IsSeatOf store.now seat.new }
    ensures hosted { seat.new.view.hosts ≡ seat.old.view.hosts }
    ensures ok { IfOk result (λ _. Learns seat.old.view seat.new.view s (record (knows seat.old.view s) { is_open = false; own = [] })) }
    ensures words { IfOk result (λ _. seat.new.view.words ≡ slice_set seat.old.view.words (address seat.old.view.limits (StateWord s (knows seat.old.view s).number)) 1) }
    ensures idle { IsOk result ↔ ((knows seat.old.view s).is_open ≡ true) }
    ensures err { OnErr result (seat.new ≡ seat.old) }
{
    if !seat.is_open(s) {
        return Err(Idle);
    }
    step_close(store, seat, s);
    Ok(())
}
