//! What a line reads.
ghost use Rattle.std.specs.Prelude.{◌≡◌};
ghost use Rattle.lst_serial_laws.specs.Legal.{key_of_call, reads_table};

use lst_model::{Call, Key, Reply};

/// The key that a call names, if it is a get or a write.
pub fn key_of_call(call: &Call) -> Option<Key>
    ensures { result ≡ key_of_call call.now }
{
    match call {
        Call::Get { key } => Some(*key),
        Call::Insert { key, .. } => Some(*key),
        Call::Update { key, .. } => Some(*key),
        Call::Delete { key } => Some(*key),
        _ => None,
    }
}

/// Whether a reply was read off the whole table.
pub fn reads_table(reply: &Reply) -> bool
    ensures { result ≡ reads_table reply.now }
{
    match reply {
        Reply::Sum { .. } | Reply::Count { .. } | Reply::Rows { .. } | Reply::Keys { .. } => true,
        _ => false,
    }
}
