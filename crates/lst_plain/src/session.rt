//! What the engine keeps of a session.
ghost use Rattle.std.specs.Prelude.{◌≡◌, ◌+◌, ◌<◌, ◌^◌, [], false, OnOk, OnErr, Some, None};
ghost use Rattle.lst_plain.specs.Sessions.{new_session, noted_places};

use lst_machine::Transaction;
use lst_model::OutOfMemory;
use std::alloc::Global;
use std::marker::Model;

/// How many transactions a session has begun, the open one, and the places of the records that have a row that it
/// made.
#[derive(Drop)]
pub(crate) struct Session {
    begins: u32,
    transaction: Option<Transaction>,
    written: Vec<usize>,
}

impl Model for Session {
    ghost use Rattle.lst_plain.specs.Sessions.{SessionState};

    ghost Value = { SessionState };

    ghost view = { λ s. record { begins = s.begins; transaction = s.transaction; written = s.written.items } };
}

impl Session {
    /// A session that has begun nothing.
    pub fn new(alloc: Global) -> Session
        ensures { result ≡ new_session }
    {
        Session {
            begins: 0,
            transaction: None,
            written: Vec::new(alloc),
        }
    }

    /// How many transactions it has begun, which is the number of the last one.
    pub fn begins(&self) -> u32
        ensures { result ≡ self.now.begins }
    {
        self.begins
    }

    /// The open transaction, or None.
    pub fn transaction(&self) -> Option<Transaction>
        ensures { result ≡ self.now.transaction }
    {
        self.transaction
    }

    /// The places of the records with a row that the open transaction made.
    pub fn written(&self) -> &[usize]
        ensures { result.now ≡ self.now.written }
    {
        self.written.as_slice()
    }

    /// Opens the next transaction.
    pub fn open(&mut self, transaction: Transaction)
        requires { self.old.begins + 1 < 2 ^ 32 }
        ensures { self.new ≡ record self.old { begins = self.old.begins + 1; transaction = Some transaction } }
    {
        self.begins += 1;
        self.transaction = Some(transaction);
    }

    /// Adds the place of a record, unless it is held already. For want of memory the session stays as it is.
    pub fn note(&mut self, place: usize, is_held: bool) -> Result<(), OutOfMemory>
        ensures ok { OnOk result (self.new ≡ record self.old { written = noted_places is_held self.old.written place }) }
        ensures err { OnErr result (self.new ≡ self.old) }
        ensures new { OnErr result (is_held ≡ false) }
    {
        if is_held {
            return Ok(());
        }
        self.written.push(place)?;
        Ok(())
    }

    /// Ends the open transaction.
    pub fn close(&mut self)
        ensures { self.new ≡ record self.old { transaction = None; written = [] } }
    {
        self.transaction = None;
        self.written.clear();
    }
}
