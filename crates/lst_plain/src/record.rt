//! The record of a key.
ghost use Rattle.std.specs.Prelude.{◌≡◌, ℕ, ◌≤◌, OnOk, OnErr, Some};
ghost use Rattle.lst_plain.specs.Rows.{fresh, newest, row_seen, conflict_in, with_pending, settled, is_held};

use crate::versions::{Pending, Version, copied, row_as_of};
use lst_model::{Cause, Key, OutOfMemory, Row, Time};
use std::alloc::Global;
use std::marker::Model;

/// A key with its committed rows, the newest last, and the row that an open transaction has made. Where there is such
/// a row, there is room for it among the committed ones, so a commit takes no memory.
#[derive(Drop)]
pub(crate) struct Record {
    key: Key,
    versions: Vec<Version>,
    pending: Option<Pending>,
}

impl Model for Record {
    ghost use Rattle.lst_plain.specs.Rows.{Kept};

    ghost Value = { Kept };

    ghost use Rattle.lst_plain.specs.Kept.{kept_in, IsKept};

    ghost view = { kept_in };

    ghost invariant = { IsKept };
}

impl Record {
    /// The record of a key without rows.
    pub fn new(alloc: Global, key: Key) -> Record
        ensures { result ≡ fresh key }
    {
        Record {
            key,
            versions: Vec::new(alloc),
            pending: None,
        }
    }

    /// The key.
    pub fn key(&self) -> Key
        ensures { result ≡ self.now.key }
    {
        self.key
    }

    /// The time of the newest committed row, or 0 where there is none.
    fn newest(&self) -> Time
        ensures { result ≡ newest self.now.versions }
    {
        match self.versions.last() {
            Some(version) => version.time,
            None => 0,
        }
    }

    /// Whether a session's open transaction has made the pending row.
    pub fn is_held(&self, session: u32) -> bool
        ensures { result ≡ is_held self.now.pending session }
    {
        match &self.pending {
            Some(pending) => pending.session == session,
            None => false,
        }
    }

    /// The row that a session's open transaction sees that began at this time.
    pub fn row(&self, session: u32, begin: Time) -> Option<Row>
        ensures { result ≡ row_seen self.now session begin }
    {
        match &self.pending {
            Some(pending) if pending.session == session => copied(&pending.row),
            _ => row_as_of(&self.versions, begin),
        }
    }

    /// What is in the way of a write by a session's open transaction that began at this time.
    pub fn conflict(&self, session: u32, begin: Time) -> Option<Cause>
        ensures { result ≡ conflict_in self.now session begin }
    {
        match &self.pending {
            Some(pending) => {
                if pending.session == session {
                    return None;
                }
                Some(Cause::Unfinished {
                    session: pending.session,
                    number: pending.number,
                })
            }
            None => {
                let time = self.newest();
                if begin < time {
                    return Some(Cause::Newer { time });
                }
                None
            }
        }
    }

    /// Makes this row the pending one. For want of memory the record stays as it is.
    pub fn hold(&mut self, pending: Pending) -> Result<(), OutOfMemory>
        ensures ok { OnOk result (self.new ≡ with_pending self.old pending) }
        ensures err { OnErr result (self.new ≡ self.old) }
        ensures key { self.new.key ≡ self.old.key }
    {
        self.versions.reserve(1)?;
        self.pending = Some(pending);
        Ok(())
    }

    /// Ends what a session's transaction has made of the row: it becomes the version of a time, or is dropped where there
    /// is no time. The pending row of another session stays.
    pub fn settle(&mut self, session: u32, time: Option<Time>)
        requires { (t : ℕ) → time ≡ Some t → newest self.old.versions ≤ t }
        ensures { self.new ≡ settled time session self.old }
    {
        match self.pending.take() {
            Some(pending) => {
                if pending.session != session {
                    self.pending = Some(pending);
                    return;
                }
                if let Some(time) = time {
                    let row = pending.row;
                    let Ok(()) = self.versions.push(Version { time, row }) else {
                        unreachable!()
                    };
                }
            }
            None => {}
        }
    }
}
