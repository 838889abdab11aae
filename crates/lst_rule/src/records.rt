//! The name of a record.

/// A record of a store: its number through all ranges, from 0 on, 256 records a range.
#[derive(Clone, Copy, Debug, PartialEq, Eq)]
pub struct RecordId {
    pub number: u32,
}
