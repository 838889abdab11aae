//! Why calls of a session at the serializable level are refused.
use lst_model::Time;
use lst_session::WriteRefusal;

/// Why a read isn't made.
#[derive(Clone, Copy, PartialEq, Eq, Debug)]
pub enum SerialRead {
    /// No transaction is open.
    Idle,
    /// There was no memory to keep that the key was read.
    OutOfMemory,
}

/// Why a write isn't made.
#[derive(Clone, Copy, PartialEq, Eq, Debug)]
pub enum SerialWrite {
    /// The session refuses it.
    Refused { cause: WriteRefusal },
    /// There was no memory to keep that the key was read.
    OutOfMemory,
}

/// Why a commit isn't made, where it is tried once.
#[derive(Clone, Copy, PartialEq, Eq, Debug)]
pub enum SerialCommit {
    /// No transaction is open.
    Idle,
    /// The commit word was found held by another session.
    Busy,
    /// The commit at this time changed what was read.
    Stale { time: Time },
}

/// Why a commit isn't made, where it is tried till the commit word is free.
#[derive(Clone, Copy, PartialEq, Eq, Debug)]
pub enum SerialEnd {
    /// No transaction is open.
    Idle,
    /// The commit at this time changed what was read.
    Stale { time: Time },
}
