//! Whether the words allow a step.
ghost use Rattle.std.specs.Prelude.{◌≡◌, ◌+◌, ◌-◌, ◌*◌, ◌<◌, ◌≤◌, ◌^◌, length, ◌↔◌, IsTrue};
ghost use Rattle.lst_layout.specs.Areas.{IsIndexed, words_of};
ghost use Rattle.lst_layout.specs.Words.{shown};
ghost use Rattle.lst_core_state.specs.Step as step;
ghost use Rattle.lst_core_state.specs.Postings.{IsPut, IsPostable};
ghost use Rattle.lst_core_state.specs.Step.{session_of};
ghost use Rattle.lst_core_state.specs.Numbers as spec;
ghost use Rattle.lst_core_state.specs.Targets.{time_for};
ghost use Rattle.lst_core.specs.Reading.{IsRead, IsTold, StandsIn, IsHeld, IsWhole, IsStampable};

use crate::chains::{has_row, is_committed, is_judged, state_of, writer};
use crate::drafts::{is_cell, is_of};
use crate::postings;
use crate::postings::{are_posted, has_number, is_position, is_posted};
use crate::probes::{is_placed, reaches};
use crate::reads::cell;
use lst_core_state::{Event, Hold, Numbers};
use lst_layout::Layout;

/// The session that makes a step.
pub fn session_of(event: Event) -> u32
    ensures { result ≡ step.session_of event }
{
    match event {
        Event::Look {
            session,
            address: _,
        }
        | Event::Begin {
            session,
            begin: _,
            read_only: _,
        }
        | Event::Take { session }
        | Event::Log { session }
        | Event::State { session }
        | Event::Clock { session }
        | Event::Give { session }
        | Event::Close { session }
        | Event::DrawRecord { session }
        | Event::StoreKey { session, key: _ }
        | Event::Claim {
            session,
            position: _,
        }
        | Event::Latch { session, rec: _ }
        | Event::DrawTail { session, range: _ }
        | Event::StoreCell {
            session,
            place: _,
            value: _,
        }
        | Event::Install { session }
        | Event::Release { session }
        | Event::Stamp {
            session,
            range: _,
            number: _,
        }
        | Event::Post {
            session,
            column: _,
            position: _,
        } => session,
    }
}

/// Whether the fields of an event are within the limits.
pub fn is_within(layout: &Layout, event: Event) -> bool
    ensures { IsTrue result ↔ step.IsWithin layout.now.limits event }
{
    let session = session_of(event);
    let limits = &layout.limits;
    match event {
        Event::Look { session, address } => session <= limits.sessions && address < layout.words,
        Event::Claim { session, position } => {
            session < limits.sessions && (position as u64) < layout.index_positions()
        }
        Event::Latch { session, rec } => {
            session < limits.sessions && (rec as u64) < layout.limits.record_count()
        }
        Event::DrawTail { session, range } => session < limits.sessions && range < limits.ranges,
        Event::StoreCell {
            session,
            place,
            value: _,
        } => session < limits.sessions && place < 3 + limits.columns,
        Event::Stamp {
            session,
            range,
            number,
        } => {
            session < limits.sessions
                && range < limits.ranges
                && 0 < number
                && number <= limits.tails
        }
        Event::Post {
            session,
            column,
            position,
        } => {
            session < limits.sessions && column < limits.columns && is_position(layout, position)
        }
        _ => session < limits.sessions,
    }
}

/// Whether the words of the tail in hand are those of a write on the latched record that fits what its transaction sees.
fn is_drafted(layout: &Layout, words: &[u64], hold: Hold) -> bool
    requires told { IsHeld layout.now.limits words.now hold }
    ensures { IsTrue result ↔ IsWhole layout.now.limits words.now hold }
{
    let rec = hold.latch - 1;
    if !is_cell(layout, words, hold.tail) {
        return false;
    }
    if !is_of(layout, words, hold.tail, rec) {
        return false;
    }
    let present = has_row(layout, words, rec);
    if cell(layout, words, hold.tail, 1) / 256 % 256 == 1 {
        !present
    } else {
        present
    }
}

/// Whether the tail in hand leads to the head that was found, and its columns are posted.
fn is_installable(layout: &Layout, words: &[u64], hold: Hold) -> bool
    requires told { IsHeld layout.now.limits words.now hold }
    ensures { IsTrue result ↔ IsPut layout.now.limits (shown layout.now.limits words.now) hold }
{
    cell(layout, words, hold.tail, 2) == hold.head
        && are_posted(layout, words, hold.latch - 1, hold.tail)
}

/// Whether the tail in hand holds the column with a number, isn't posted there yet, and no position of its run before this one is empty.
fn is_postable(layout: &Layout, words: &[u64], hold: Hold, column: u32, position: u32) -> bool
    requires told { IsHeld layout.now.limits words.now hold }
    requires column { column < layout.now.limits.columns }
    requires indexed { IsIndexed layout.now.limits column }
    ensures { IsTrue result ↔ IsPostable layout.now.limits (shown layout.now.limits words.now) hold column position }
{
    let value = cell(layout, words, hold.tail, 3 + column);
    has_number(cell(layout, words, hold.tail, 1), column)
        && postings::reaches(layout, words, column, value, position)
        && !is_posted(layout, words, column, hold.latch - 1, value)
}

/// Whether the words allow a step that the session's numbers allow.
pub(crate) fn stands(layout: &Layout, words: &[u64], now: &Numbers, event: Event) -> bool
    requires told { IsTold layout.now.limits words.now now.now event }
    requires within { step.IsWithin layout.now.limits event }
    requires allowed { spec.Allows layout.now.limits now.now event }
    ensures { StandsIn layout.now.limits words.now now.now event result }
{
    match event {
        Event::Claim {
            session: _,
            position,
        } => reaches(layout, words, now.key, position),
        Event::Latch { session: _, rec } => is_placed(layout, words, rec),
        Event::DrawTail { session, range: _ } => is_judged(
            layout,
            words,
            16 * now.number as u64 + session as u64,
            now.begin,
            now.hold.latch - 1,
        ),
        Event::StoreCell {
            session: _,
            place,
            value: _,
        } => place != 0 || is_drafted(layout, words, now.hold),
        Event::Install { session: _ } => is_installable(layout, words, now.hold),
        Event::Stamp {
            session: _,
            range,
            number,
        } => is_committed(layout, words, range * layout.limits.tails + number),
        Event::Post {
            session: _,
            column,
            position,
        } => is_postable(layout, words, now.hold, column, position),
        _ => true,
    }
}

/// The time that a stamp stores: that of the tail's transaction.
pub(crate) fn time(layout: &Layout, words: &[u64], event: Event) -> u64
    requires read { IsRead layout.now.limits words.now }
    requires within { step.IsWithin layout.now.limits event }
    requires committed { IsStampable (shown layout.now.limits words.now) layout.now.limits event }
    ensures { result ≡ time_for layout.now.limits (shown layout.now.limits words.now) event }
{
    if let Event::Stamp {
        session: _,
        range,
        number,
    } = event
    {
        let tail = range * layout.limits.tails + number;
        state_of(layout, words, writer(layout, words, tail)) - 1
    } else {
        0
    }
}
