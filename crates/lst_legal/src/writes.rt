//! Replies to the writes of open transactions.
ghost use Rattle.std.specs.Prelude.{◌≡◌, ◌↔◌, IsTrue, IfSome};
ghost use Rattle.lst_model.specs.Tables.{row_of};
ghost use Rattle.lst_replies.specs.declared.states.Transaction.{Transaction};
ghost use Rattle.lst_replies.specs.Runs.{write_of};
ghost use Rattle.lst_replies.specs.States.{sight_of};
ghost use Rattle.lst_replies.specs.Explained.{WriteIsAnswered};
ghost use Rattle.lst_snapshots.specs.Sights.{seen};
ghost use Rattle.lst_legal.specs.Sights.{IsKeyAnswered};

use lst_model::{Call, Cause, Key, Reply, Time};
use lst_snapshots::{Sight, Snapshots};

/// Whether a reply to a write fits what its transaction sees: an accepted write fits, the key is there, or isn't, or a
/// newer commit wrote it.
pub(crate) fn is_write_answered(
    snapshots: &Snapshots,
    sight: &Sight,
    begin: Time,
    call: &Call,
    reply: &Reply,
) -> bool
    ensures { (transaction : Transaction) → seen snapshots.now sight.now ≡ sight_of snapshots.now transaction → begin ≡ transaction.begin → (IsTrue result ↔ IfSome (write_of call.now) (λ write. WriteIsAnswered snapshots.now transaction write reply.now)) }
{
    match call {
        Call::Insert { key, .. } => is_key_answered(snapshots, sight, begin, *key, false, reply),
        Call::Update { key, .. } => is_key_answered(snapshots, sight, begin, *key, true, reply),
        Call::Delete { key } => is_key_answered(snapshots, sight, begin, *key, true, reply),
        _ => true,
    }
}

/// The same of a write on a key that has to be there, or not.
fn is_key_answered(
    snapshots: &Snapshots,
    sight: &Sight,
    begin: Time,
    key: Key,
    wanted: bool,
    reply: &Reply,
) -> bool
    ensures { IsTrue result ↔ IsKeyAnswered snapshots.now (row_of (seen snapshots.now sight.now) key) begin key wanted reply.now }
{
    match reply {
        Reply::Done => sight.row(snapshots, key).is_some() == wanted,
        Reply::Refused { cause } => match cause {
            Cause::Exists => sight.row(snapshots, key).is_some(),
            Cause::Missing => sight.row(snapshots, key).is_none(),
            Cause::Newer { time } => begin < *time && snapshots.wrote(*time, key),
            _ => true,
        },
        _ => true,
    }
}
