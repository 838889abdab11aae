//! A seat at a store's table, with the numbers of what its sessions know.
ghost use Rattle.std.specs.Prelude.{◌≡◌, ◌+◌, MatchOption};

use crate::TableSeat;
use lst_bits::unpack_pin;
use lst_core_state::{Event, Numbers};
use lst_layout::Limits;
use lst_pages::{MergerNumbers, PageEvent};
use std::marker::Model;

/// A seat at the table of a store. It hosts sessions, and for each keeps the numbers of what that session knows.
#[derive(Drop)]
pub struct Seat {
    pub(crate) place: TableSeat,
    pub(crate) limits: Limits,
    pub(crate) hosted: Vec<bool>,
    pub(crate) numbers: Vec<Numbers>,
    /// Of a note: how many commits it tells of.
    pub(crate) note_time: u64,
}

impl Model for Seat {
    ghost use Rattle.std.specs.Prelude.{◌≡◌, []};
    ghost use Rattle.lst_rule.specs.Seats.{Sitting, Tells};

    ghost Value = { Sitting };

    ghost view = { λ s. record { table = s.place.table_id; view = s.place.me.0; note_time = s.note_time } };

    ghost invariant = { λ s. (s.place.me.1 ≡ []) × (s.limits ≡ s.place.me.0.limits) × (s.hosted.items ≡ s.place.me.0.hosts) × Tells s.place.me.0 s.numbers.items };
}

impl Seat {
    ghost use Rattle.std.specs.Prelude.{◌≡◌, ◌+◌, ◌-◌, ◌<◌, ◌≤◌, ◌^◌, true, eqb, length, MatchOption, nat_lt};
    ghost use Rattle.lst_layout.specs.Addresses as layout;
    ghost use Rattle.lst_layout.specs.Limits.{IsValid};
    ghost use Rattle.lst_core_state.specs.Step.{session_of, Enabled, IsWithin};
    ghost use Rattle.lst_core_state.specs.Numbers.{numbers_of, place_for};
    ghost use Rattle.lst_core_state.specs.Bounds.{IsWritable};
    ghost use Rattle.lst_pages.specs.Known.{stepper, PageEnabled};
    ghost use Rattle.lst_pages.specs.Numbers as page_numbers;
    ghost use Rattle.lst_pages.specs.Step as page_step;
    ghost use Rattle.lst_rule.specs.Actions.{stock_numbers};
    ghost use Rattle.lst_rule.specs.Rule.{knows, hosts};
    ghost use Rattle.lst_rule.specs.Learned.{Possible, PageCanStand};

    /// The numbers of a session that is to make a step.
    pub(crate) fn numbers(&self, s: u32, event: Event) -> &Numbers
        requires host { hosts self.now.view s ≡ true }
        requires own { s < self.now.view.limits.sessions }
        requires session { session_of event ≡ s }
        requires within { IsWithin self.now.view.limits event }
        requires enabled { Enabled self.now.view.limits (knows self.now.view s) event }
        ensures is { result.now ≡ numbers_of (knows self.now.view s) }
        ensures valid { IsValid self.now.view.limits }
        ensures place { layout.IsWithin self.now.view.limits (place_for self.now.view.limits result.now event) }
        ensures writable { IsWritable self.now.view.limits result.now event }
    {
        &self.numbers[s as usize]
    }

    /// The numbers of the stock of frames, of whoever is to make a step on pages.
    pub(crate) fn stock(&self, s: u32, event: PageEvent) -> MergerNumbers
        requires actor { stepper self.now.view.limits event ≡ s }
        requires host { hosts self.now.view (stepper self.now.view.limits event) ≡ true }
        requires within { page_step.IsWithin self.now.view.limits event }
        requires enabled { PageEnabled self.now.view.limits (knows self.now.view (stepper self.now.view.limits event)).pages event }
        requires stands { PageCanStand self.now.view event }
        ensures is { result ≡ stock_numbers (numbers_of (knows self.now.view (stepper self.now.view.limits event))) }
        ensures fits { page_numbers.IsWritable result event }
    {
        let now = &self.numbers[s as usize];
        MergerNumbers {
            epoch: now.epoch,
            built: now.built,
        }
    }

    /// The limits of the store.
    pub fn limits(&self) -> &Limits
        ensures { result.now ≡ self.now.view.limits }
    {
        &self.limits
    }

    /// Whether the seat hosts a session.
    pub fn hosts(&self, s: u32) -> bool
        requires { s ≤ self.now.view.limits.sessions }
        ensures { result ≡ hosts self.now.view s }
    {
        let s = s as usize;
        s < self.hosted.len() && self.hosted[s]
    }

    /// The number of the transaction that a session began last, or 0.
    pub fn number(&self, s: u32) -> u32
        requires { hosts self.now.view s ≡ true }
        ensures is { result ≡ (knows self.now.view s).number }
        ensures few { s < self.now.view.limits.sessions → result ≤ self.now.view.limits.txns }
    {
        self.numbers[s as usize].number
    }

    /// The begin of a session's open transaction.
    pub fn begin(&self, s: u32) -> u64
        requires host { hosts self.now.view s ≡ true }
        requires is_open { (knows self.now.view s).is_open ≡ true }
        ensures { result ≡ (knows self.now.view s).begin }
    {
        self.numbers[s as usize].begin
    }

    /// Whether a session's last transaction is read-only.
    pub fn is_read_only(&self, s: u32) -> bool
        requires { hosts self.now.view s ≡ true }
        ensures { result ≡ (knows self.now.view s).read_only }
    {
        self.numbers[s as usize].read_only
    }

    /// Whether a session's transaction is open.
    pub fn is_open(&self, s: u32) -> bool
        requires { hosts self.now.view s ≡ true }
        ensures { result ≡ (knows self.now.view s).is_open }
    {
        self.numbers[s as usize].is_open
    }

    /// Whether a session's open transaction has writes.
    pub fn has_writes(&self, s: u32) -> bool
        requires { hosts self.now.view s ≡ true }
        ensures { result ≡ nat_lt 0 (length (knows self.now.view s).own) }
    {
        self.numbers[s as usize].has_writes
    }

    /// How many commits a session has seen, which is also the time of the last one.
    pub fn seen(&self, s: u32) -> u64
        requires { hosts self.now.view s ≡ true }
        ensures is { result ≡ length (knows self.now.view s).seen }
        ensures few { result < 2 ^ 32 }
    {
        self.numbers[s as usize].seen
    }

    /// The epoch that a session has pinned.
    pub fn pinned(&self, s: u32) -> Option<u64>
        requires { hosts self.now.view s ≡ true }
        ensures { MatchOption result ((knows self.now.view s).pages.session.pin ≡ 0) (λ epoch. (knows self.now.view s).pages.session.pin ≡ epoch + 1) }
    {
        unpack_pin(self.numbers[s as usize].pin)
    }

    /// The record in hand of a session.
    pub fn rec(&self, s: u32) -> Option<u32>
        requires { hosts self.now.view s ≡ true }
        ensures { MatchOption result ((knows self.now.view s).placing.hand ≡ 0) (λ r. (knows self.now.view s).placing.hand ≡ r + 1) }
    {
        one_less(self.numbers[s as usize].hand)
    }

    /// The record whose latch is in hand of a session.
    pub fn latch(&self, s: u32) -> Option<u32>
        requires { hosts self.now.view s ≡ true }
        ensures { MatchOption result ((knows self.now.view s).hold.latch ≡ 0) (λ r. (knows self.now.view s).hold.latch ≡ r + 1) }
    {
        one_less(self.numbers[s as usize].hold.latch)
    }

    /// The tail in hand of a session, by its identifier: its number within the range, from 1 on, after the tails of all ranges
    /// before it.
    pub fn tail(&self, s: u32) -> Option<u32>
        requires { hosts self.now.view s ≡ true }
        ensures { MatchOption result ((knows self.now.view s).hold.tail ≡ 0) (λ t. (0 < t) × ((knows self.now.view s).hold.tail ≡ t)) }
    {
        let tail = self.numbers[s as usize].hold.tail;
        if tail == 0 { None } else { Some(tail) }
    }

    /// What the seat knows is so in some state of the store.
    pub fn consider(&self)
        ensures { Possible self.now.view }
    {
        let _ = &self.place;
    }
}

/// The number before a number that isn't 0.
fn one_less(number: u32) -> Option<u32>
    ensures { MatchOption result (number ≡ 0) (λ less. number ≡ less + 1) }
{
    number.checked_sub(1)
}
