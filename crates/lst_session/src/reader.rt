//! An open transaction, lent to those who read it.
ghost use Rattle.std.specs.Prelude.{◌≡◌, ◌↔◌, ◌<◌, ℕ, IfOk, OnErr, IsOk, true, false};
ghost use Rattle.std.specs.Borrow.{sem};
ghost use Rattle.lst_rule.specs.declared.store.Store.{Store as StoreValue};
ghost use Rattle.lst_rule.specs.declared.view.View.{View};
ghost use Rattle.lst_rule.specs.Rule.{knows, hosts};
ghost use Rattle.lst_rule.specs.Stores.{IsSeatOf};
ghost use Rattle.lst_rule.specs.Watching.{Watched};
ghost use Rattle.lst_session.specs.Crews.{IsCrewOf, TellsState, state_told};
ghost use Rattle.lst_session.specs.Lending.{IsLent, LendsSeat, LendsCrewSeat};
ghost use Rattle.lst_session.specs.Passes.{IsReady};

use crate::crew::Crew;
use crate::session::Session;
use lst_rule::{Seat, Store};
use lst_txn::Idle as NotBegun;

/// The open transaction of a session, by its number, at a seat that hosts it. The seat is lent while the reader lives.
#[derive(Drop)]
pub struct Reader<'a> {
    pub seat: &'a mut Seat,
    pub s: u32,
}

/// What is done with an open transaction, by a reader that is lent for it.
pub trait Reads {
    /// What comes of it.
    type Answer;

    /// When it can be done on a store.
    ghost can_read: { Self → StoreValue → Type 0 };

    /// How the answer stands to what is known before the reads and after them, by the session's number.
    ghost answers: { Self → View → View → ℕ → Self.Answer → Type 0 };

    /// Reads, by looks alone. The reader keeps its session and its seat.
    fn read(self, store: &Store, reader: &mut Reader<'_>) -> Self::Answer
        requires can { can_read self store.now }
        requires reader { IsLent store.now reader.old.seat.now reader.old.s }
        ensures seat { IsSeatOf store.now reader.new.seat.now }
        ensures session { reader.new.s ≡ reader.old.s }
        ensures lent { reader.new.seat.ghost_name ≡ reader.old.seat.ghost_name }
        ensures watched { Watched reader.old.seat.now.view reader.new.seat.now.view reader.old.s }
        ensures answers { answers self reader.old.seat.now.view reader.new.seat.now.view reader.old.s result };
}

impl Session {
    /// Reads by a reader of the open transaction, and answers what comes of that. It is refused exactly where none is open, and the session is as it was
    /// then. Either way it has the same number, holds the seat as the reader left it, and is ready for its next call.
    pub fn read<F: Reads + Drop>(&mut self, store: &Store, reads: F) -> Result<F::Answer, NotBegun>
        requires ready { IsReady store.now self.old }
        requires can { F.can_read reads store.now }
        ensures ready { IsReady store.now self.new }
        ensures number { self.new.number ≡ self.old.number }
        ensures ok { IfOk result (λ answer. ((knows self.old.seat.view self.old.number).is_open ≡ true) × Watched self.old.seat.view self.new.seat.view self.old.number × F.answers reads self.old.seat.view self.new.seat.view self.old.number answer) }
        ensures err { OnErr result (((knows self.old.seat.view self.old.number).is_open ≡ false) × (self.new ≡ self.old)) }
    {
        if !self.seat.is_open(self.number) {
            return Err(NotBegun);
        }
        let number = self.number;
        let mut reader = Reader {
            seat: &mut self.seat,
            s: number,
        };
        Ok(reads.read(store, &mut reader))
    }

    /// A reader of the open transaction. It is refused exactly where none is open.
    pub fn reader(&mut self) -> Result<Reader<'_>, NotBegun>
        requires { hosts self.old.seat.view self.old.number ≡ true }
        ensures ok { IsOk result ↔ ((knows self.old.seat.view self.old.number).is_open ≡ true) }
        ensures seat { IfOk result (λ r. r.seat.now ≡ self.old.seat) }
        ensures session { IfOk result (λ r. r.s ≡ self.old.number) }
    {
        let s = self.number;
        let seat = self.open_seat()?;
        Ok(Reader { seat, s })
    }

    /// Lends the seat where a transaction is open, and is refused exactly where none is. Afterwards the session holds the seat as it was left.
    pub fn open_seat(&mut self) -> Result<&mut Seat, NotBegun>
        requires { hosts self.old.seat.view self.old.number ≡ true }
        ensures* lends { sem 𝓛 (LendsSeat self.entry result) }
        ensures ok { IsOk result ↔ ((knows self.old.seat.view self.old.number).is_open ≡ true) }
        ensures seat { IfOk result (λ r. r.now ≡ self.old.seat) }
    {
        if !self.seat.is_open(self.number) {
            return Err(NotBegun);
        }
        Ok(&mut self.seat)
    }
}

impl Crew {
    /// Reads by a reader of a session's open transaction, and answers what comes of that. It is refused exactly where none is open, and the crew is as it
    /// was then. Either way the crew holds the seat as the reader left it, and is between two calls again; where it told a state of the machine, it
    /// tells the same one.
    pub fn read<F: Reads + Drop>(
        &mut self,
        store: &Store,
        s: u32,
        reads: F,
    ) -> Result<F::Answer, NotBegun>
        requires crew { IsCrewOf store.now self.old }
        requires session { s < self.old.seat.view.limits.sessions }
        requires can { F.can_read reads store.now }
        ensures crew { IsCrewOf store.now self.new }
        ensures state { TellsState self.old.seat.view → TellsState self.new.seat.view × (state_told self.new.seat.view ≡ state_told self.old.seat.view) }
        ensures ok { IfOk result (λ answer. ((knows self.old.seat.view s).is_open ≡ true) × Watched self.old.seat.view self.new.seat.view s × F.answers reads self.old.seat.view self.new.seat.view s answer) }
        ensures err { OnErr result (((knows self.old.seat.view s).is_open ≡ false) × (self.new ≡ self.old)) }
    {
        if !self.seat.is_open(s) {
            return Err(NotBegun);
        }
        let mut reader = Reader {
            seat: &mut self.seat,
            s,
        };
        Ok(reads.read(store, &mut reader))
    }

    /// A reader of a session's open transaction. It is refused exactly where none is open.
    pub fn reader(&mut self, s: u32) -> Result<Reader<'_>, NotBegun>
        requires { hosts self.old.seat.view s ≡ true }
        ensures ok { IsOk result ↔ ((knows self.old.seat.view s).is_open ≡ true) }
        ensures seat { IfOk result (λ r. r.seat.now ≡ self.old.seat) }
        ensures session { IfOk result (λ r. r.s ≡ s) }
    {
        let seat = self.open_seat(s)?;
        Ok(Reader { seat, s })
    }

    /// Lends the seat where the session's transaction is open, and is refused exactly where none is. Afterwards the crew holds the seat as it
    /// was left.
    pub fn open_seat(&mut self, s: u32) -> Result<&mut Seat, NotBegun>
        requires { hosts self.old.seat.view s ≡ true }
        ensures* lends { sem 𝓛 (LendsCrewSeat self.entry result) }
        ensures ok { IsOk result ↔ ((knows self.old.seat.view s).is_open ≡ true) }
        ensures seat { IfOk result (λ r. r.now ≡ self.old.seat) }
    {
        if !self.seat.is_open(s) {
            return Err(NotBegun);
        }
        Ok(&mut self.seat)
    }
}
