//! How versions stand to the open transaction, and commit times in start words.
ghost use Rattle.std.specs.Prelude.{◌≡◌, ◌⊎◌, ℕ, ◌+◌, ◌*◌, ◌<◌, ◌≤◌, true, false};
ghost use Rattle.lst_rule.specs.Rule.{knows, hosts};
ghost use Rattle.lst_rule.specs.Stores.{IsSeatOf};
ghost use Rattle.lst_rule.specs.Copies.{Version};
ghost use Rattle.lst_rule.specs.Seen.{sees};
ghost use Rattle.lst_rule.specs.TailLoads.{LoadsTail};
ghost use Rattle.lst_rule.specs.Watching.{Watched};
ghost use Rattle.lst_walk.specs.Readers.{IsReader, IsAt, HasVersion, Timed, Untimed, OwnFound, Resolves};
ghost use Rattle.lst_walk.specs.Stamping.{unstamped_of, is_timed_by, sees_by, TimedAs};

use crate::placed::{first_word, resolve_stamped_from};
use lst_rule::{Resolution, Seat, Store};

/// Whether this call found or stored a commit time in the start word of a range's tail record, which has this number from 1 on. It
/// answers no where it found the start word empty, its transaction closed or unfinished, or the session's own.
pub fn stamp(store: &Store, seat: &mut Seat, s: u32, range: u32, tail: u32) -> bool
    requires seat { IsSeatOf store.now seat.old }
    requires host { hosts seat.old.view s ≡ true }
    requires own { s < seat.old.view.limits.sessions }
    requires opened { (knows seat.old.view s).is_open ≡ true }
    requires range { range < store.now.layout.limits.ranges }
    requires tail { (0 < tail) × (tail ≤ store.now.layout.limits.tails) }
    ensures seat { IsSeatOf store.now seat.new }
    ensures watched { Watched seat.old.view seat.new.view s }
    ensures yes { result ≡ true → Timed seat.old.view seat.new.view s range tail }
    ensures no { result ≡ false → Untimed seat.old.view seat.new.view s range tail ⊎ OwnFound seat.old.view seat.new.view s range tail }
{
    is_timed(resolve_stamped(store, seat, s, range, tail))
}

/// How a version of a range stands to the open transaction. Where its transaction is found committed, and the start word has no time yet, the time is
/// stored there.
#[inline(always)]
fn resolve_stamped(store: &Store, seat: &mut Seat, s: u32, range: u32, tail: u32) -> Resolution
    requires reader { IsReader store.now seat.old s }
    requires range { range < store.now.layout.limits.ranges }
    requires tail { (0 < tail) × (tail ≤ store.now.layout.limits.tails) }
    ensures reader { IsReader store.now seat.new s }
    ensures watched { Watched seat.old.view seat.new.view s }
    ensures loads { LoadsTail seat.old.view seat.new.view s (range * store.now.layout.limits.tails + tail) }
    ensures timed { TimedAs seat.old.view seat.new.view s range tail result }
    ensures seen { (c : Version) → IsAt seat.old.view s (range * store.now.layout.limits.tails + tail) c → sees_by (knows seat.new.view s).begin result ≡ sees (knows seat.old.view s) s c.writer }
{
    let first = first_word(store, range, tail);
    resolve_stamped_from(store, seat, s, range, tail, first)
}

/// The time that is to be stored in the start word of a version that stands so.
pub(crate) fn unstamped(found: Resolution) -> Option<u64>
    ensures { result ≡ unstamped_of found }
{
    match found {
        Resolution::Committed { time } => Some(time),
        _ => None,
    }
}

/// Whether the start word of a version that stands so has its commit time then.
fn is_timed(found: Resolution) -> bool
    ensures { result ≡ is_timed_by found }
{
    match found {
        Resolution::Stamped { .. } | Resolution::Committed { .. } => true,
        _ => false,
    }
}

/// Whether a transaction with this begin sees a version that stands so to it.
pub(crate) fn is_seen_at(found: Resolution, begin: u64) -> bool
    ensures { result ≡ sees_by begin found }
{
    match found {
        Resolution::Stamped { time } | Resolution::Committed { time } => time <= begin,
        Resolution::Own => true,
        Resolution::Empty | Resolution::Closed | Resolution::Unfinished { .. } => false,
    }
}
