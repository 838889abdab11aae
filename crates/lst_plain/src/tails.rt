//! The last tail of the range of a key.
ghost use Rattle.std.specs.Prelude.{◌≡◌};
ghost use Rattle.lst_plain.specs.EngineOf.{engine_of};
ghost use Rattle.lst_plain.specs.Tails.{key_of, tail_of};

use crate::engine::{Engine, Tail};
use lst_layout::RANGE_RECORDS;
use lst_model::{Call, Key};

impl Engine {
    /// The last tail of the range of the key that a call writes.
    pub(crate) fn newest_tail(&self, call: &Call) -> Option<Tail>
        ensures { result ≡ tail_of (engine_of self.now) (key_of call.now) }
    {
        let key = written_key(call)?;
        let place = self.records.place(key)?;
        let range = place / RANGE_RECORDS as usize;
        Some(Tail {
            range,
            number: self.accepted[range],
        })
    }
}

/// The key that a call writes.
fn written_key(call: &Call) -> Option<Key>
    ensures { result ≡ key_of call.now }
{
    match call {
        Call::Insert { key, .. } => Some(*key),
        Call::Update { key, .. } => Some(*key),
        Call::Delete { key } => Some(*key),
        _ => None,
    }
}
