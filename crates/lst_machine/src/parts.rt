//! The parts of a machine: accepted writes, sessions and swaps of pages.
ghost use Rattle.std.specs.Prelude.{◌≡◌, ◌+◌, ◌<◌, ◌^◌, [], ◌∷◌, ◌++◌, Bool, ◌&&◌, ◌==◌, is_some, Some, None, OnOk, OnErr};
ghost use Rattle.lst_machine.specs.Parts.{new_session, has_number, author_of};
ghost use Rattle.lst_machine.specs.Transactions.{opened_as};

use crate::answers::Transaction;
use lst_model::{Key, OutOfMemory, Write};
use std::alloc::Global;
use std::marker::Model;

/// A transaction: its session, and its number there.
#[derive(Clone, Copy)]
pub(crate) struct Author {
    pub session: u32,
    pub number: u32,
}

/// A write that was accepted, with the transaction that made it.
#[derive(Drop)]
pub(crate) struct AcceptedWrite {
    session: u32,
    number: u32,
    write: Write,
}

impl Model for AcceptedWrite {
    ghost use Rattle.lst_machine.specs.State.{Accepted};

    ghost Value = { Accepted };

    ghost view = { λ w. record { session = w.session; number = w.number; write = w.write } };
}

impl AcceptedWrite {
    /// A write of a session's transaction with this number.
    pub fn new(session: u32, number: u32, write: Write) -> AcceptedWrite
        ensures { result ≡ record { session = session; number = number; write = write } }
    {
        AcceptedWrite {
            session,
            number,
            write,
        }
    }

    /// Who made it.
    pub fn author(&self) -> Author
        ensures { result ≡ author_of self.now }
    {
        Author {
            session: self.session,
            number: self.number,
        }
    }

    /// Whether a transaction made it.
    pub fn is_by(&self, author: Author) -> bool
        ensures { result ≡ (self.now.session == author.session && self.now.number == author.number) }
    {
        self.session == author.session && self.number == author.number
    }

    /// The key.
    pub fn key(&self) -> Key
        ensures { result ≡ self.now.write.key }
    {
        self.write.key
    }

    /// The write.
    pub fn write(&self) -> Write
        ensures { result ≡ self.now.write }
    {
        self.write.copied()
    }
}

/// The accepted writes of a range, in order.
#[derive(Drop)]
pub(crate) struct RangeWrites {
    items: Vec<AcceptedWrite>,
}

impl Model for RangeWrites {
    ghost use Rattle.std.specs.Prelude.{List};
    ghost use Rattle.lst_machine.specs.State.{Accepted};

    ghost Value = { List Accepted };

    ghost view = { λ r. r.items.items };
}

impl RangeWrites {
    /// No writes.
    pub fn new(alloc: Global) -> RangeWrites
        ensures { result ≡ [] }
    {
        RangeWrites {
            items: Vec::new(alloc),
        }
    }

    /// The writes, in order.
    pub fn items(&self) -> &[AcceptedWrite]
        ensures { result.now ≡ self.now }
    {
        self.items.as_slice()
    }

    /// Adds a write behind the others. For want of memory they stay as they are.
    pub fn push(&mut self, write: AcceptedWrite) -> Result<(), OutOfMemory>
        ensures ok { OnOk result (self.new ≡ self.old ++ write ∷ []) }
        ensures err { OnErr result (self.new ≡ self.old) }
    {
        self.items.push(write)?;
        Ok(())
    }
}

/// A page was swapped for one with this TPS.
#[derive(Drop)]
pub(crate) struct Swap {
    pub range: u32,
    pub column: u32,
    pub tps: u32,
}

/// How many transactions a session has begun, the open one, the number of swaps when that began, and the numbers of those that
/// ended without a commit.
#[derive(Drop)]
pub(crate) struct Session {
    begins: u32,
    transaction: Option<Transaction>,
    swaps_at_begin: u64,
    closed: Vec<u32>,
}

impl Model for Session {
    ghost use Rattle.lst_machine.specs.Parts.{SessionState};
    ghost use Rattle.lst_machine.specs.Transactions.{opened_as};

    ghost Value = { SessionState };

    ghost view = { λ s. record { begins = s.begins; opened = opened_as s.transaction; swaps_at_begin = s.swaps_at_begin; closed = s.closed.items } };
}

impl Session {
    /// A session that has begun nothing.
    pub fn new(alloc: Global) -> Session
        ensures { result ≡ new_session }
    {
        Session {
            begins: 0,
            transaction: None,
            swaps_at_begin: 0,
            closed: Vec::new(alloc),
        }
    }

    /// How many transactions it has begun, which is the number of the last one.
    pub fn begins(&self) -> u32
        ensures { result ≡ self.now.begins }
    {
        self.begins
    }

    /// The open transaction, or None.
    pub fn transaction(&self) -> Option<Transaction>
        ensures { opened_as result ≡ self.now.opened }
    {
        self.transaction
    }

    /// Whether a transaction is open.
    pub fn is_open(&self) -> bool
        ensures { result ≡ is_some self.now.opened }
    {
        match self.transaction {
            Some(_) => true,
            None => false,
        }
    }

    /// The number of swaps when the open transaction began.
    pub fn swaps_at_begin(&self) -> u64
        ensures { result ≡ self.now.swaps_at_begin }
    {
        self.swaps_at_begin
    }

    /// Whether the transaction with this number ended without a commit.
    pub fn is_closed(&self, number: u32) -> bool
        ensures { result ≡ has_number number self.now.closed }
    {
        self.closed.iter().any(|other| *other == number)
    }

    /// Opens the next transaction, after so many swaps.
    pub fn open(&mut self, transaction: Transaction, swaps: u64)
        requires { self.old.begins + 1 < 2 ^ 32 }
        ensures { self.new ≡ record self.old { begins = self.old.begins + 1; opened = Some (record { begin = transaction.begin; read_only = transaction.read_only }); swaps_at_begin = swaps } }
    {
        self.begins += 1;
        self.transaction = Some(transaction);
        self.swaps_at_begin = swaps;
    }

    /// Ends the open transaction with a commit.
    pub fn commit(&mut self)
        ensures { self.new ≡ record self.old { opened = None; swaps_at_begin = 0 } }
    {
        self.transaction = None;
        self.swaps_at_begin = 0;
    }

    /// Ends the open transaction without a commit. For want of memory the session stays as it is.
    pub fn close(&mut self) -> Result<(), OutOfMemory>
        ensures ok { OnOk result (self.new ≡ record self.old { opened = None; swaps_at_begin = 0; closed = self.old.closed ++ self.old.begins ∷ [] }) }
        ensures err { OnErr result (self.new ≡ self.old) }
    {
        self.closed.push(self.begins)?;
        self.transaction = None;
        self.swaps_at_begin = 0;
        Ok(())
    }
}
