//! What the numbers of a session allow, and what its steps leave of them.
ghost use Rattle.std.specs.Prelude.{◌≡◌, ◌+◌, ◌-◌, ◌*◌, ◌<◌, ◌^◌, false, ◌↔◌, ◌/◌, true, IsTrue, slice_index_or};
ghost use Rattle.lst_layout.specs.Limits.{IsValid};
ghost use Rattle.lst_core_state.specs.Step as step;
ghost use Rattle.lst_core_state.specs.State as state;
ghost use Rattle.lst_core_state.specs.Bounds.{IsWritable};
ghost use Rattle.lst_core_state.specs.Numbers as spec;

use lst_core_state::{Event, Numbers, Stage, advance};
use lst_layout::{Layout, Limits};

/// The range of a record.
fn range_of(rec: u32) -> u32
    ensures { result ≡ rec / 256 }
{
    rec / 256
}

/// How far a session is with its turn.
pub fn rank(turn: Stage) -> u8
    ensures { result ≡ state.rank turn }
{
    match turn {
        Stage::Away => 0,
        Stage::Taken => 1,
        Stage::Fresh => 2,
        Stage::Logged => 3,
        Stage::Stated => 4,
        Stage::Done => 5,
    }
}

/// Whether what the session knows allows the step.
pub fn allows(limits: &Limits, now: &Numbers, event: Event) -> bool
    requires sized { IsValid limits.now }
    requires within { step.IsWithin limits.now event }
    ensures { IsTrue result ↔ spec.Allows limits.now now.now event }
{
    let rank = rank(now.turn);
    let is_free = rank == 0 && now.hold.latch == 0;
    match event {
        Event::Look {
            session: _,
            address: _,
        }
        | Event::Stamp {
            session: _,
            range: _,
            number: _,
        } => true,
        Event::Begin {
            session: _,
            begin,
            read_only: _,
        } => !now.is_open && now.number < limits.txns && begin <= now.seen,
        Event::Take { session: _ } => now.is_open && is_free && now.has_writes,
        Event::Log { session: _ } => rank == 2,
        Event::State { session: _ } => rank == 3,
        Event::Clock { session: _ } => rank == 4,
        Event::Give { session: _ } => rank > 0 && rank != 3 && rank != 4,
        Event::Close { session: _ } => now.is_open && is_free,
        Event::DrawRecord { session: _ } => now.hand == 0 && now.is_serving,
        Event::StoreKey { session: _, key: _ } => now.hand > 0,
        Event::Claim {
            session: _,
            position: _,
        } => now.has_key,
        Event::Latch { session: _, rec: _ } => now.is_open && !now.read_only && is_free,
        Event::DrawTail { session: _, range } => allows_tail(now, range),
        Event::StoreCell {
            session,
            place,
            value,
        } => allows_word(limits, now, session, place, value),
        Event::Install { session: _ } => now.hold.is_whole,
        Event::Release { session: _ } => now.hold.latch > 0 && now.hold.tail == 0,
        Event::Post {
            session: _,
            column,
            position: _,
        } => now.hold.is_whole && limits.is_indexed(column),
    }
}

/// Whether a tail of the range may be drawn.
fn allows_tail(now: &Numbers, range: u32) -> bool
    requires { range < 64 }
    ensures { IsTrue result ↔ (0 < now.now.hold.latch) × ((now.now.hold.latch - 1) / 256 ≡ range) × (now.now.hold.tail ≡ 0) × (slice_index_or now.now.served range false ≡ true) }
{
    now.hold.latch > 0
        && range_of(now.hold.latch - 1) == range
        && now.hold.tail == 0
        && now.served[range as usize]
}

/// Whether a word of the tail in hand may be stored: the start word after all others, with the name of the transaction.
fn allows_word(limits: &Limits, now: &Numbers, session: u32, place: u32, value: u64) -> bool
    requires sized { IsValid limits.now }
    requires session { session < limits.now.sessions }
    ensures { IsTrue result ↔ (0 < now.now.hold.tail) × (now.now.hold.is_whole ≡ false) × (place ≡ 0 → (now.now.stored ≡ 2 ^ (3 + limits.now.columns) - 2) × (value ≡ 1 + 2 * (16 * now.now.number + session))) }
{
    if now.hold.tail == 0 || now.hold.is_whole {
        return false;
    }
    if place > 0 {
        return true;
    }
    now.stored == (1u32 << (3 + limits.columns)) - 2
        && value == 1 + 2 * (16 * now.number as u64 + session as u64)
}

/// The numbers of a session after its step on a word, where it found this.
pub fn after(layout: &Layout, now: Numbers, event: Event, found: u64) -> Numbers
    requires within { step.IsWithin layout.now.limits event }
    requires writable { IsWritable layout.now.limits now event }
    ensures { result ≡ spec.numbers_after layout.now.limits event found now }
{
    let mut next = now;
    advance(layout, &mut next, event, found);
    next
}
