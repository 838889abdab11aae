//! The isolation that the transactions of a report are to have.

/// Under snapshot isolation each read is as of its transaction's begin, and a commit with writes is never refused. At the serializable
/// level each transaction that commits is as if it stood alone at its commit's time, and a commit may be told stale.
#[derive(Clone, Copy)]
pub enum Level {
    Snapshot,
    Serializable,
}
