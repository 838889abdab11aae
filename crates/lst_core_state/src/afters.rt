//! The numbers of a session after its step. They are changed in place, since a step changes few of them.
ghost use Rattle.std.specs.Prelude.{◌≡◌, ◌+◌, ◌-◌, ◌*◌, ◌/◌, ◌%◌, ◌<◌, ◌≤◌, ◌^◌, cond, nat_lt, eqb, false, true, slice_index_or, slice_set, bit_or};
ghost use Rattle.lst_layout.specs.Addresses as addresses;
ghost use Rattle.lst_layout.specs.Areas.{words_of};
ghost use Rattle.lst_layout.specs.Limits.{IsValid};
ghost use Rattle.lst_core_state.specs.Cells.{record_count};
ghost use Rattle.lst_core_state.specs.Step as step;
ghost use Rattle.lst_core_state.specs.State as state;
ghost use Rattle.lst_core_state.specs.Numbers as spec;
ghost use Rattle.lst_core_state.specs.Bounds.{IsWritable};

use crate::numbers::Numbers;
use crate::{Event, Hold, Stage};
use lst_layout::{Layout, Limits, Place};

/// Nothing in hand.
const NO_HOLD: Hold = Hold {
    latch: 0,
    head: 0,
    tail: 0,
    is_whole: false,
};

/// The stage of a turn after a load of the clock.
fn refreshed(turn: Stage) -> Stage
    ensures { result ≡ step.refreshed turn }
{
    match turn {
        Stage::Taken => Stage::Fresh,
        other => other,
    }
}

/// Whether the record in hand is given up by a load that found this in a record's key word.
fn gives_up(now: &Numbers, rec: u32, found: u64) -> bool
    ensures { result ≡ spec.gives_up now.now rec found }
{
    if now.has_key {
        let named = rec as u64 + 1;
        found == now.key && now.index == named && now.hand as u64 != named
    } else {
        false
    }
}

/// Changes the numbers as a load of the word at a place does, which found this.
pub fn look(limits: &Limits, now: &mut Numbers, place: Place, found: u64)
    requires sized { IsValid limits.now }
    requires place { addresses.IsWithin limits.now place }
    ensures { now.new ≡ spec.numbers_look limits.now found now.old place }
{
    match place {
        Place::ClockWord => {
            now.seen = found;
            now.turn = refreshed(now.turn);
        }
        Place::RecordCounter => {
            now.is_serving = now.is_serving || found < 256 * limits.ranges as u64;
        }
        Place::KeyWord { rec } => {
            if gives_up(now, rec, found) {
                now.hand = 0;
                now.has_key = false;
            }
        }
        Place::IndexWord { position: _ } => now.index = found,
        Place::TailCounter { range } => {
            let is_served = now.served[range as usize] || found < limits.tails as u64;
            now.served[range as usize] = is_served;
        }
        Place::CommitWord
        | Place::EpochWord
        | Place::LogWord { time: _ }
        | Place::BeginWord {
            session: _,
            number: _,
        }
        | Place::StateWord {
            session: _,
            number: _,
        }
        | Place::HeadWord { rec: _ }
        | Place::CellWord { tail: _, place: _ }
        | Place::DirectoryWord {
            range: _,
            column: _,
        }
        | Place::FrameWord { frame: _, place: _ }
        | Place::PinWord { session: _ }
        | Place::PostingWord {
            column: _,
            position: _,
        } => {}
    }
}

/// A draw of a record that found this number.
fn draw_record(limits: &Limits, now: &mut Numbers, found: u64)
    requires sized { IsValid limits.now }
    ensures { now.new ≡ cond (nat_lt found (record_count limits.now)) (record now.old { hand = found + 1; has_key = false; is_serving = false }) (record now.old { is_serving = false }) }
{
    now.is_serving = false;
    if found < 256 * limits.ranges as u64 {
        now.hand = found as u32 + 1;
        now.has_key = false;
    }
}

/// A draw of a tail that found this number.
#[tactic(auto, using(crate::proofs::Bounds::tail_few))]
fn draw_tail(limits: &Limits, now: &mut Numbers, range: u32, found: u64)
    requires sized { IsValid limits.now }
    requires range { range < limits.now.ranges }
    ensures { now.new ≡ cond (nat_lt found limits.now.tails) (record now.old { hold = record now.old.hold { tail = range * limits.now.tails + found + 1 }; stored = 0; served = slice_set now.old.served range false }) (record now.old { served = slice_set now.old.served range false }) }
{
    now.served[range as usize] = false;
    if found < limits.tails as u64 {
        now.hold.tail = range * limits.tails + found as u32 + 1;
        now.stored = 0;
    }
}

/// A latch that found this indirection word.
fn latch(now: &mut Numbers, rec: u32, found: u64)
    requires { rec < 2 ^ 31 }
    ensures { now.new ≡ cond (eqb (found % 2) 0) (record now.old { hold = record state.no_hold { latch = rec + 1; head = found / 2 } }) now.old }
{
    if found % 2 == 0 {
        now.hold = Hold {
            latch: rec + 1,
            head: found / 2,
            ..NO_HOLD
        };
    }
}

/// A store of a word of the tail in hand.
fn store_word(now: &mut Numbers, place: u32)
    requires { place < 11 }
    ensures { now.new ≡ cond (eqb place 0) (record now.old { hold = record now.old.hold { is_whole = true } }) (record now.old { stored = bit_or now.old.stored (2 ^ place) }) }
{
    if place == 0 {
        now.hold.is_whole = true;
    } else {
        now.stored |= 1u32 << place;
    }
}

/// Changes the numbers of a session as its step on a word does, which found this.
#[inline(always)]
pub fn advance(layout: &Layout, now: &mut Numbers, event: Event, found: u64)
    requires within { step.IsWithin layout.now.limits event }
    requires writable { IsWritable layout.now.limits now.old event }
    ensures { now.new ≡ spec.numbers_after layout.now.limits event found now.old }
{
    let limits = &layout.limits;
    match event {
        Event::Look {
            session: _,
            address,
        } => look(limits, now, layout.place(address), found),
        Event::Begin {
            session: _,
            begin,
            read_only,
        } => {
            now.number += 1;
            now.begin = begin;
            now.read_only = read_only;
            now.is_open = true;
            now.has_writes = false;
        }
        Event::Take { session: _ } => {
            if found == 0 {
                now.turn = Stage::Taken;
            }
        }
        Event::Log { session: _ } => now.turn = Stage::Logged,
        Event::State { session: _ } => now.turn = Stage::Stated,
        Event::Clock { session: _ } => {
            now.is_open = false;
            now.turn = Stage::Done;
            now.has_writes = false;
            now.seen += 1;
        }
        Event::Give { session: _ } => now.turn = Stage::Away,
        Event::Close { session: _ } => {
            now.is_open = false;
            now.has_writes = false;
        }
        Event::DrawRecord { session: _ } => draw_record(limits, now, found),
        Event::StoreKey { session: _, key } => {
            now.key = key;
            now.has_key = true;
        }
        Event::Claim {
            session: _,
            position: _,
        } => {
            if found == 0 {
                now.hand = 0;
                now.has_key = false;
            } else {
                now.index = found;
            }
        }
        Event::Latch { session: _, rec } => latch(now, rec, found),
        Event::DrawTail { session: _, range } => draw_tail(limits, now, range, found),
        Event::StoreCell {
            session: _,
            place,
            value: _,
        } => store_word(now, place),
        Event::Install { session: _ } => {
            now.hold = NO_HOLD;
            now.has_writes = true;
        }
        Event::Release { session: _ } => now.hold = NO_HOLD,
        Event::Stamp {
            session: _,
            range: _,
            number: _,
        }
        | Event::Post {
            session: _,
            column: _,
            position: _,
        } => {}
    }
}
