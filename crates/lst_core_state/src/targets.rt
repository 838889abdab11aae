//! A step on the numbers of a session and on one word.
ghost use Rattle.std.specs.Prelude.{◌≡◌, ◌+◌, ◌-◌, ◌*◌, ◌/◌, ◌<◌, ◌≤◌, ◌^◌, cond, nat_lt, eqb, false, slice_index_or, slice_set};
ghost use Rattle.lst_layout.specs.Addresses as addresses;
ghost use Rattle.lst_layout.specs.Addresses.{address};
ghost use Rattle.lst_layout.specs.Areas.{words_of};
ghost use Rattle.lst_layout.specs.Limits.{IsValid};
ghost use Rattle.lst_core_state.specs.Cells.{record_count};
ghost use Rattle.lst_core_state.specs.Step as step;
ghost use Rattle.lst_core_state.specs.State as state;
ghost use Rattle.lst_core_state.specs.Numbers as spec;
ghost use Rattle.lst_core_state.specs.Bounds.{IsWritable};
ghost use Rattle.lst_bits.specs.Heads.{head_word};

use crate::Event;
use crate::numbers::Numbers;
use lst_bits::{
    Log, Start, State, latched, pack_begin, pack_head, pack_index, pack_log, pack_posting,
    pack_start, pack_state, pack_turn,
};
use lst_layout::{Layout, Limits};

/// The address of the word that a step is on.
#[inline(always)]
pub fn target(layout: &Layout, now: &Numbers, event: Event) -> u64
    requires within { step.IsWithin layout.now.limits event }
    requires place { addresses.IsWithin layout.now.limits (spec.place_for layout.now.limits now.now event) }
    ensures address { result ≡ address layout.now.limits (spec.place_for layout.now.limits now.now event) }
    ensures below { result < words_of layout.now.limits }
{
    match event {
        Event::Look {
            session: _,
            address,
        } => address,
        Event::Begin {
            session,
            begin: _,
            read_only: _,
        } => layout.transactions(session, now.number + 1, 0),
        Event::Take { session: _ } | Event::Give { session: _ } => layout.commit_word(),
        Event::Log { session: _ } => layout.log(now.seen + 1),
        Event::State { session } | Event::Close { session } => layout.transactions(
            session, now.number, 1,
        ),
        Event::Clock { session: _ } => layout.clock(),
        Event::DrawRecord { session: _ } => layout.record_counter(),
        Event::StoreKey { session: _, key: _ } => layout.keys(now.hand.saturating_sub(1)),
        Event::Claim {
            session: _,
            position,
        } => layout.index(position),
        Event::Latch { session: _, rec } => layout.indirection(rec),
        Event::DrawTail { session: _, range } => layout.tail_counters(range),
        Event::StoreCell {
            session: _,
            place,
            value: _,
        } => layout.cell_address(now.hold.tail, place),
        Event::Install { session: _ } | Event::Release { session: _ } => layout.indirection(
            now.hold.latch.saturating_sub(1),
        ),
        Event::Stamp {
            session: _,
            range,
            number,
        } => layout.tail_cells(range, number, 0),
        Event::Post {
            session: _,
            column,
            position,
        } => layout.postings(column, position),
    }
}

/// What a step makes of the word that it finds. A stamp stores `time`.
#[inline(always)]
pub fn written(limits: &Limits, now: &Numbers, time: u64, event: Event, found: u64) -> u64
    requires sized { IsValid limits.now }
    requires within { step.IsWithin limits.now event }
    requires writable { IsWritable limits.now now.now event }
    requires time { time < 2 ^ 32 }
    ensures { result ≡ spec.written_of limits.now now.now time event found }
{
    match event {
        Event::Look {
            session: _,
            address: _,
        } => found,
        Event::Begin {
            session: _,
            begin,
            read_only: _,
        } => pack_begin(Some(begin)),
        Event::Take { session } => {
            if found == 0 {
                pack_turn(Some(session))
            } else {
                found
            }
        }
        Event::Log { session } => pack_log(Log::By {
            session,
            number: now.number,
        }),
        Event::State { session: _ } => pack_state(State::Committed { time: now.seen + 1 }),
        Event::Clock { session: _ } => now.seen + 1,
        Event::Give { session: _ } => pack_turn(None),
        Event::Close { session: _ } => pack_state(State::Closed),
        Event::DrawRecord { session: _ }
        | Event::DrawTail {
            session: _,
            range: _,
        } => found.wrapping_add(1),
        Event::StoreKey { session: _, key } => key,
        Event::Claim {
            session: _,
            position: _,
        } => {
            if found == 0 {
                pack_index(now.hand.checked_sub(1))
            } else {
                found
            }
        }
        Event::Latch { session: _, rec: _ } => latched(found),
        Event::StoreCell {
            session: _,
            place: _,
            value,
        } => value,
        Event::Install { session: _ } => installed(limits, now),
        Event::Release { session: _ } => pack_head(now.hold.head, false),
        Event::Stamp {
            session: _,
            range: _,
            number: _,
        } => pack_start(Start::At { time }),
        Event::Post {
            session: _,
            column: _,
            position: _,
        } => {
            if found == 0 {
                pack_posting(Some(now.hold.tail))
            } else {
                found
            }
        }
    }
}

/// The indirection word with the tail in hand, without a latch bit.
fn installed(limits: &Limits, now: &Numbers) -> u64
    requires sized { IsValid limits.now }
    requires hold { (0 < now.now.hold.latch) × (now.now.hold.latch ≤ record_count limits.now) }
    requires above { (now.now.hold.latch - 1) / 256 * limits.now.tails < now.now.hold.tail }
    ensures { result ≡ head_word (step.number_in limits.now (now.now.hold.latch - 1) now.now.hold.tail) false }
{
    let range = (now.hold.latch - 1) / 256;
    pack_head((now.hold.tail - range * limits.tails) as u64, false)
}
