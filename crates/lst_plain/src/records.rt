//! The records of the keys.
ghost use Rattle.std.specs.Prelude.{◌≡◌, ℕ, List, ◌+◌, ◌<◌, ◌≤◌, [], ◌∷◌, ◌++◌, length, IfOk, OnOk, OnErr, Some, None, slice_index_or, slice_set};
ghost use Rattle.lst_model.specs.Tables.{Rows, row_of, scan_of};
ghost use Rattle.lst_machine.specs.Writes.{place_of};
ghost use Rattle.lst_plain.specs.Rows.{Kept, fresh, newest, keys_of, kept_of, row_seen, with_pending, settled};
ghost use Rattle.lst_plain.specs.Places.{IsIndexed};

use crate::record::Record;
use crate::versions::Pending;
use lst_machine::list_row;
use lst_model::{Key, OutOfMemory, Row, RowList, Time};
use std::alloc::Global;
use std::collections::BTreeMap;
use std::marker::Model;

/// The records in the order in which their keys got them, with a map from each key to its record's place. A contract
/// sees the list of the records.
#[derive(Drop)]
pub(crate) struct Records {
    alloc: Global,
    places: BTreeMap<Key, usize>,
    items: Vec<Record>,
}

impl Model for Records {
    ghost use Rattle.std.specs.Prelude.{List};
    ghost use Rattle.lst_plain.specs.Rows.{Kept};

    ghost Value = { List Kept };

    ghost use Rattle.lst_plain.specs.Places.{IsIndexed};

    ghost view = { λ r. r.items.items };

    ghost invariant = { λ r. IsIndexed r.places r.items.items };
}

impl Records {
    /// No records.
    pub fn new(alloc: Global) -> Records
        ensures { result ≡ [] }
    {
        Records {
            alloc,
            places: BTreeMap::new(alloc),
            items: Vec::new(alloc),
        }
    }

    /// The allocator.
    pub(crate) fn alloc(&self) -> Global {
        self.alloc
    }

    /// The number of records.
    pub fn len(&self) -> usize
        ensures { result ≡ length self.now }
    {
        self.items.len()
    }

    /// The place of a key's record, counted from 0, or None where it has none.
    pub fn place(&self, key: Key) -> Option<usize>
        ensures { result ≡ place_of (keys_of self.now) key }
    {
        self.places.get(&key).copied()
    }

    /// The record at a place.
    pub fn at(&self, place: usize) -> &Record
        requires { place < length self.now }
        ensures { result.now ≡ slice_index_or self.now place result.now }
    {
        &self.items[place]
    }

    /// The rows that a session's open transaction sees that began at this time, by rising key.
    pub fn rows(&self, session: u32, begin: Time) -> Result<RowList, OutOfMemory>
        ensures { IfOk result (λ rows. (table : Rows) → ((key : ℕ) → row_of table key ≡ row_seen (kept_of self.now key) session begin) → rows ≡ scan_of table) }
    {
        rows_in(
            self.alloc,
            &self.places,
            self.items.as_slice(),
            session,
            begin,
        )
    }

    /// Adds the record of a key that has none. For want of memory the records stay as they are.
    pub fn add(&mut self, key: Key) -> Result<(), OutOfMemory>
        requires { place_of (keys_of self.old) key ≡ None }
        ensures ok { OnOk result (self.new ≡ self.old ++ fresh key ∷ []) }
        ensures err { OnErr result (self.new ≡ self.old) }
    {
        let place = self.items.len();
        self.items.push(Record::new(self.alloc, key))?;
        if self.places.insert(key, place).is_err() {
            let _ = self.items.pop();
            return Err(OutOfMemory);
        }
        Ok(())
    }

    /// Takes back the last record, which was added for this key.
    pub fn take_back(&mut self, key: Key)
        requires { (front : List Kept) × (self.old ≡ front ++ fresh key ∷ []) × (place_of (keys_of front) key ≡ None) }
        ensures { self.new ++ fresh key ∷ [] ≡ self.old }
    {
        let _ = self.items.pop();
        self.places.remove(&key);
    }

    /// Makes a row the pending one of the record at a place. For want of memory the records stay as they are.
    pub fn hold(&mut self, place: usize, pending: Pending) -> Result<(), OutOfMemory>
        requires { place < length self.old }
        ensures ok { OnOk result (self.new ≡ slice_set self.old place (with_pending (slice_index_or self.old place (fresh 0)) pending)) }
        ensures err { OnErr result (self.new ≡ self.old) }
    {
        self.items[place].hold(pending)
    }

    /// Ends what a session's transaction has made of the row at a place: it becomes the version of a time, or is dropped
    /// where there is no time.
    pub fn settle(&mut self, place: usize, session: u32, time: Option<Time>)
        requires within { place < length self.old }
        requires later { (t : ℕ) → time ≡ Some t → newest (slice_index_or self.old place (fresh 0)).versions ≤ t }
        ensures { self.new ≡ slice_set self.old place (settled time session (slice_index_or self.old place (fresh 0))) }
    {
        self.items[place].settle(session, time);
    }
}

/// The rows of all keys that a session's open transaction sees that began at this time, by rising key.
fn rows_in(
    alloc: Global,
    places: &BTreeMap<Key, usize>,
    records: &[Record],
    session: u32,
    begin: Time,
) -> Result<RowList, OutOfMemory>
    requires { IsIndexed places.now records.now }
    ensures { IfOk result (λ rows. (table : Rows) → ((key : ℕ) → row_of table key ≡ row_seen (kept_of records.now key) session begin) → rows ≡ scan_of table) }
{
    let mut rows = RowList::new(alloc);
    for key in places.keys() {
        let row = row_in(places, records, *key, session, begin);
        list_row(&mut rows, *key, row)?;
    }
    Ok(rows)
}

fn row_in(
    places: &BTreeMap<Key, usize>,
    records: &[Record],
    key: Key,
    session: u32,
    begin: Time,
) -> Option<Row>
    requires { IsIndexed places.now records.now }
    ensures { result ≡ row_seen (kept_of records.now key) session begin }
{
    match places.get(&key) {
        Some(place) => records[*place].row(session, begin),
        None => None,
    }
}
