//! The turn to commit, held by a session while it finds out what has changed since its transaction began.
ghost use Rattle.std.specs.Prelude.{◌≡◌, ◌↔◌, ◌+◌, ◌<◌, true, false, IfOk, IfErr, Err, length};
ghost use Rattle.std.specs.Borrow.{sem, RestsIfErr};
ghost use Rattle.lst_layout.specs.declared.place.Place.TheVariants.{CommitWord};
ghost use Rattle.lst_core_state.specs.declared.events.Event.TheVariants.{Give};
ghost use Rattle.lst_rule.specs.Rule.{knows, hosts};
ghost use Rattle.lst_rule.specs.Learned.{Made};
ghost use Rattle.lst_changes.specs.Changes.{Changed};
ghost use Rattle.lst_session.specs.Calls.{FindsHeld};
ghost use Rattle.lst_session.specs.Held.{IsHeld, HasSeenHistory, LooksStill, TakesTurn, CommitsNext};
ghost use Rattle.lst_session.specs.Lent.{HoldsTurn, IsRefusedTurn};
ghost use Rattle.lst_session.specs.contracts.session.Session.{the_row as session_row};
ghost use Rattle.lst_session.specs.Passes.{IsReady};

use crate::kinds::CommitRefusal;
use crate::session::Session;
use crate::turns::{changed, commit, give_back, take};
use lst_model::{Key, Time};
use lst_rule::Store;
use lst_txn::Turn;

impl Session {
    /// Tries once to take the turn to commit for the open transaction, which has writes. While the session holds it, what it has seen is the whole
    /// history, and nobody else commits. Idle comes exactly where no transaction is open. Busy comes only where the commit word was found held. The turn has
    /// to be spent, by `commit_turn` or `give_back_turn`. It neither waits nor takes memory.
    pub fn take_turn(&mut self, store: &Store) -> Result<Turn, CommitRefusal>
        requires ready { IsReady store.now self.old }
        requires writes { (knows self.old.seat.view self.old.number).is_open ≡ true → 0 < length (knows self.old.seat.view self.old.number).own }
        ensures number { self.new.number ≡ self.old.number }
        ensures ok { IfOk result (λ turn. (turn.session ≡ self.old.number) × IsHeld store.now self.new × TakesTurn self.old.seat.view self.new.seat.view self.old.number) }
        ensures history { IfOk result (λ _. HasSeenHistory self.new.seat.view self.old.number) }
        ensures ready { IfErr result (λ _. IsReady store.now self.new) }
        ensures busy { result ≡ Err CommitRefusal.Busy → FindsHeld self.old.seat.view self.new.seat.view self.old.number }
        ensures idle { (result ≡ Err CommitRefusal.Idle) ↔ ((knows self.old.seat.view self.old.number).is_open ≡ false) }
        ensures still { result ≡ Err CommitRefusal.Idle → self.new.seat.view ≡ self.old.seat.view }
    {
        take(store, &mut self.seat, self.number)
    }

    /// The last time above the begin at which a commit wrote the key, while the session holds the turn. None comes exactly where there is none. It neither
    /// waits nor takes memory.
    pub fn changed(&mut self, store: &Store, key: Key) -> Option<Time>
        requires held { IsHeld store.now self.old }
        ensures held { IsHeld store.now self.new }
        ensures number { self.new.number ≡ self.old.number }
        ensures looks { LooksStill self.old.seat.view self.new.seat.view self.old.number }
        ensures history { HasSeenHistory self.new.seat.view self.old.number }
        ensures changed { Changed (knows self.new.seat.view self.old.number).seen (knows self.new.seat.view self.old.number).begin key result }
    {
        changed(store, &mut self.seat, self.number, key)
    }

    /// Spends the turn on the commit of the transaction, and answers its time, which is the next one. The session's pin is taken away.
    pub fn commit_turn(&mut self, store: &Store, turn: Turn) -> Time
        requires turn { turn.session ≡ self.old.number }
        requires held { IsHeld store.now self.old }
        ensures ready { IsReady store.now self.new }
        ensures number { self.new.number ≡ self.old.number }
        ensures commits { CommitsNext self.old.seat.view self.new.seat.view self.old.number result }
    {
        commit(turn, store, &mut self.seat, self.number)
    }

    /// Gives the turn back. The transaction stays open, and its session pinned.
    pub fn give_back_turn(&mut self, store: &Store, turn: Turn)
        requires turn { turn.session ≡ self.old.number }
        requires held { IsHeld store.now self.old }
        ensures ready { IsReady store.now self.new }
        ensures number { self.new.number ≡ self.old.number }
        ensures looks { LooksStill self.old.seat.view self.new.seat.view self.old.number }
        ensures gives { Made self.old.seat.view self.new.seat.view (Give self.old.number) CommitWord 0 }
    {
        give_back(turn, store, &mut self.seat, self.number);
    }
}

/// The turn to commit, which a session holds. It has to be spent, by `commit` or `give_back`.
pub struct Held<'a> {
    pub session: &'a mut Session,
    pub turn: Turn,
}

impl Session {
    /// Tries once to take the turn to commit for the open transaction, which has writes, as `take_turn` does, and lends the session with it.
    pub fn take(&mut self, store: &Store) -> Result<Held<'_>, CommitRefusal>
        requires ready { IsReady store.now self.old }
        requires writes { (knows self.old.seat.view self.old.number).is_open ≡ true → 0 < length (knows self.old.seat.view self.old.number).own }
        ensures* refused { sem 𝓛 (RestsIfErr session_row self.entry (λ held. held.session.ghost_name) result (IsRefusedTurn store.now self.old result)) }
        ensures same_reference { IfOk result (λ held. held.session.ghost_name ≡ self.entry.ghost_name) }
        ensures turn { IfOk result (λ held. HoldsTurn store.now held.session.now held.turn) }
        ensures takes { IfOk result (λ held. (held.session.now.number ≡ self.old.number) × TakesTurn self.old.seat.view held.session.now.seat.view self.old.number) }
        ensures history { IfOk result (λ held. HasSeenHistory held.session.now.seat.view self.old.number) }
        ensures idle { (result ≡ Err CommitRefusal.Idle) ↔ ((knows self.old.seat.view self.old.number).is_open ≡ false) }
    {
        match self.take_turn(store) {
            Ok(turn) => Ok(Held {
                session: self,
                turn,
            }),
            Err(refusal) => Err(refusal),
        }
    }
}

impl Held<'_> {
    /// The clock: how many commits the whole history has, which is what the session has seen.
    pub fn clock(&self) -> Time
        requires { hosts self.now.session.now.seat.view self.now.session.now.number ≡ true }
        ensures { result ≡ length (knows self.now.session.now.seat.view self.now.session.now.number).seen }
    {
        self.session.seen()
    }

    /// The last time above the begin at which a commit wrote the key. None comes exactly where there is none.
    pub fn changed(&mut self, store: &Store, key: Key) -> Option<Time>
        requires turn { HoldsTurn store.now self.old.session.now self.old.turn }
        ensures same_reference { self.new.session.ghost_name ≡ self.old.session.ghost_name }
        ensures turn { HoldsTurn store.now self.new.session.now self.new.turn }
        ensures number { self.new.session.now.number ≡ self.old.session.now.number }
        ensures looks { LooksStill self.old.session.now.seat.view self.new.session.now.seat.view self.old.session.now.number }
        ensures history { HasSeenHistory self.new.session.now.seat.view self.old.session.now.number }
        ensures changed { Changed (knows self.new.session.now.seat.view self.old.session.now.number).seen (knows self.new.session.now.seat.view self.old.session.now.number).begin key result }
    {
        self.session.changed(store, key)
    }

    /// Commits the transaction, and answers its time, which is the clock and one.
    pub fn commit(self, store: &Store) -> Time
        requires turn { HoldsTurn store.now self.session.now self.turn }
        ensures ready { IsReady store.now self.exit.0.now }
        ensures number { self.exit.0.now.number ≡ self.entry.session.now.number }
        ensures commits { CommitsNext self.entry.session.now.seat.view self.exit.0.now.seat.view self.entry.session.now.number result }
    {
        let Held { session, turn } = self;
        session.commit_turn(store, turn)
    }

    /// Gives the turn back. The transaction stays open.
    pub fn give_back(self, store: &Store)
        requires turn { HoldsTurn store.now self.session.now self.turn }
        ensures ready { IsReady store.now self.exit.0.now }
        ensures number { self.exit.0.now.number ≡ self.entry.session.now.number }
        ensures looks { LooksStill self.entry.session.now.seat.view self.exit.0.now.seat.view self.entry.session.now.number }
        ensures gives { Made self.entry.session.now.seat.view self.exit.0.now.seat.view (Give self.entry.session.now.number) CommitWord 0 }
    {
        let Held { session, turn } = self;
        session.give_back_turn(store, turn);
    }
}
