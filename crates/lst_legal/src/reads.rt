//! Replies that tell what a transaction sees.
ghost use Rattle.std.specs.Prelude.{◌≡◌, ◌↔◌, IsTrue};
ghost use Rattle.lst_model.specs.Tables.{row_of, sum_of, count_of};
ghost use Rattle.lst_replies.specs.Explained.{TellsSight, is_not_indexed_reply};
ghost use Rattle.lst_snapshots.specs.Sights.{seen};

use lst_model::{Call, Cause, Key, Reply};
use lst_snapshots::{Sight, Swept};

/// Whether a reply with rows, keys or numbers tells what a transaction sees.
pub(crate) fn tells_sight(snapshots: &Swept, sight: &Sight, call: &Call, reply: &Reply) -> bool
    ensures { IsTrue result ↔ TellsSight (seen snapshots.now sight.now) call.now reply.now }
{
    match call {
        Call::Get { key } => tells_row(snapshots, sight, *key, reply),
        Call::Sum { column } => match reply {
            Reply::Sum { total } => *total == sight.sum(snapshots, *column),
            _ => true,
        },
        Call::Count => match reply {
            Reply::Count { rows } => u128::from(*rows) == sight.count(snapshots),
            _ => true,
        },
        Call::Scan => match reply {
            Reply::Rows { list } => sight.tells_rows(snapshots, list.items()),
            _ => true,
        },
        Call::Find { column, value } => match reply {
            Reply::Keys { list } => sight.tells_keys(snapshots, list.items(), *column, *value),
            _ => true,
        },
        _ => true,
    }
}

fn tells_row(snapshots: &Swept, sight: &Sight, key: Key, reply: &Reply) -> bool
    ensures { IsTrue result ↔ TellsSight (seen snapshots.now sight.now) (Call.Get key) reply.now }
{
    match reply {
        Reply::Row { row } => match sight.row(snapshots.snapshots(), key) {
            Some(found) => found.is_same(row),
            None => false,
        },
        Reply::Absent => sight.row(snapshots.snapshots(), key).is_none(),
        _ => true,
    }
}

pub(crate) fn is_not_indexed_reply(reply: &Reply) -> bool
    ensures { result ≡ is_not_indexed_reply reply.now }
{
    match reply {
        Reply::Refused { cause } => match cause {
            Cause::NotIndexed => true,
            _ => false,
        },
        _ => false,
    }
}
