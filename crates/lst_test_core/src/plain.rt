//! A plain recomputation of the core: an array an area, and each step's conditions written down anew.

use lst_core::{Event, session_of};
use lst_layout::Place;
use lst_probe::start;

pub(crate) const SESSIONS: u64 = 2;

pub(crate) const TXNS: u64 = 15;

pub(crate) const TAILS: u64 = 8;

pub(crate) const RECORDS: u64 = 256;

pub(crate) const POSITIONS: u64 = 512;

/// Positions of one column's postings.
pub(crate) const POSTINGS: u64 = 16;

/// What the recomputation keeps of a session, and of the merger.
#[derive(Clone, Copy)]
pub(crate) struct Seat {
    pub(crate) number: u64,
    pub(crate) begin: u64,
    pub(crate) is_read_only: bool,
    pub(crate) is_open: bool,
    /// 0 without the turn, 1 with it, 2 with a fresh clock, 3 and 4 after the log and the state word, 5 once published.
    pub(crate) turn: u64,
    pub(crate) seen: u64,
    pub(crate) has_writes: bool,
    pub(crate) hand: Option<u64>,
    pub(crate) key: Option<u64>,
    pub(crate) may_draw_record: bool,
    pub(crate) may_draw_tail: bool,
    pub(crate) latch: Option<u64>,
    pub(crate) head: u64,
    pub(crate) tail: Option<u64>,
    pub(crate) is_whole: bool,
    /// The stored places of the tail in hand, but its first.
    pub(crate) encoding: bool,
    pub(crate) back: bool,
    pub(crate) left: bool,
    pub(crate) right: bool,
    /// The index word that was loaded last.
    pub(crate) index: u64,
}

const NOBODY: Seat = Seat {
    number: 0,
    begin: 0,
    is_read_only: false,
    is_open: false,
    turn: 0,
    seen: 0,
    has_writes: false,
    hand: None,
    key: None,
    may_draw_record: false,
    may_draw_tail: false,
    latch: None,
    head: 0,
    tail: None,
    is_whole: false,
    encoding: false,
    back: false,
    left: false,
    right: false,
    index: 0,
};

impl Seat {
    fn is_free(&self) -> bool {
        self.is_open && self.turn == 0 && self.latch.is_none()
    }

    pub(crate) fn is_drafted(&self) -> bool {
        self.encoding && self.back && self.left && self.right
    }

    fn store(&mut self, place: u32) {
        match place {
            0 => self.is_whole = true,
            1 => self.encoding = true,
            2 => self.back = true,
            3 => self.left = true,
            _ => self.right = true,
        }
    }

    /// Nothing in hand but the record.
    fn let_go(&mut self) {
        self.latch = None;
        self.tail = None;
        self.is_whole = false;
    }

    fn put_away(&mut self) {
        self.hand = None;
        self.key = None;
    }
}

pub(crate) fn at(words: &[u64], place: u64) -> u64 {
    words.get(place as usize).copied().unwrap_or(0)
}

fn put(words: &mut [u64], place: u64, value: u64) -> u64 {
    let mut found = 0;
    if let Some(word) = words.get_mut(place as usize) {
        found = *word;
        *word = value;
    }
    found
}

/// The words of a store by area, and what each session keeps.
#[derive(Drop)]
pub(crate) struct Plain {
    pub(crate) clock: u64,
    pub(crate) turn: u64,
    pub(crate) records: u64,
    pub(crate) tails: u64,
    pub(crate) log: [u64; 64],
    pub(crate) begins: [u64; 64],
    pub(crate) states: [u64; 64],
    pub(crate) keys: [u64; RECORDS as usize],
    pub(crate) index: [u64; POSITIONS as usize],
    pub(crate) heads: [u64; RECORDS as usize],
    pub(crate) cells: [u64; 128],
    pub(crate) postings: [u64; 32],
    pub(crate) indexed: [bool; 2],
    pub(crate) seats: [Seat; 3],
}

impl Plain {
    pub(crate) fn new(indexed: [bool; 2]) -> Plain {
        Plain {
            clock: 0,
            turn: 0,
            records: 0,
            tails: 0,
            log: [0; 64],
            begins: [0; 64],
            states: [0; 64],
            keys: [0; RECORDS as usize],
            index: [0; POSITIONS as usize],
            heads: [0; RECORDS as usize],
            cells: [0; 128],
            postings: [0; 32],
            indexed,
            seats: [NOBODY; 3],
        }
    }

    pub(crate) fn seat(&self, session: u32) -> Seat {
        self.seats.get(session as usize).copied().unwrap_or(NOBODY)
    }

    fn sit(&mut self, session: u32, seat: Seat) {
        if let Some(old) = self.seats.get_mut(session as usize) {
            *old = seat;
        }
    }

    pub(crate) fn cell(&self, tail: u64, place: u32) -> u64 {
        at(&self.cells, (tail % 16) * 8 + place as u64)
    }

    /// The transaction that a start word names.
    fn writer(&self, start: u64) -> u64 {
        if start % 2 == 1 {
            start / 2
        } else {
            at(&self.log, start / 2)
        }
    }

    fn state_of(&self, name: u64) -> u64 {
        at(&self.states, (name % 16) * 16 + name / 16 % 16)
    }

    pub(crate) fn name(session: u32, seat: &Seat) -> u64 {
        (seat.number % 16) * 16 + session as u64
    }

    fn transaction(session: u32, number: u64) -> u64 {
        session as u64 * 16 + number % 16
    }

    pub(crate) fn word(&self, place: Place) -> u64 {
        match place {
            Place::ClockWord => self.clock,
            Place::CommitWord => self.turn,
            Place::RecordCounter => self.records,
            Place::TailCounter { range: _ } => self.tails,
            Place::LogWord { time } => at(&self.log, time),
            Place::BeginWord { session, number } => at(
                &self.begins,
                Plain::transaction(session, number as u64),
            ),
            Place::StateWord { session, number } => at(
                &self.states,
                Plain::transaction(session, number as u64),
            ),
            Place::KeyWord { rec } => at(&self.keys, rec as u64),
            Place::IndexWord { position } => at(&self.index, position as u64),
            Place::HeadWord { rec } => at(&self.heads, rec as u64),
            Place::CellWord { tail, place } => self.cell(tail as u64, place),
            Place::DirectoryWord { range, column } => range as u64 * 2 + column as u64,
            Place::EpochWord
            | Place::FrameWord { frame: _, place: _ }
            | Place::PinWord { session: _ } => 0,
            Place::PostingWord { column, position } => self.posting(column, position as u64),
        }
    }

    // ---- what the words say

    fn is_placed(&self, rec: u64) -> bool {
        self.index.contains(&rec.wrapping_add(1))
    }

    /// Whether the key's run comes to the position before it ends.
    fn reaches(&self, key: u64, goal: u64) -> bool {
        let first = start(key, 9) as u64;
        for turn in 0..POSITIONS {
            let position = (first + turn) % POSITIONS;
            if position == goal {
                return true;
            }
            let word = at(&self.index, position);
            if word == 0 || at(&self.keys, word - 1) == key {
                return false;
            }
        }
        false
    }

    /// The position at which the key's run ends.
    pub(crate) fn run_end(&self, key: u64) -> u64 {
        let first = start(key, 9) as u64;
        for turn in 0..POSITIONS {
            let position = (first + turn) % POSITIONS;
            let word = at(&self.index, position);
            if word == 0 || at(&self.keys, word - 1) == key {
                return position;
            }
        }
        0
    }

    fn is_early(state: u64, begin: u64) -> bool {
        state > 1 && state - 1 <= begin
    }

    /// Whether the newest version that isn't closed is one that the transaction may write on.
    fn is_judged(&self, rec: u64, own: u64, begin: u64) -> bool {
        let mut tail = at(&self.heads, rec) / 2;
        for _ in 0..TAILS {
            if tail == 0 {
                return true;
            }
            let name = self.writer(self.cell(tail, 0));
            let state = self.state_of(name);
            if state != 1 {
                return name == own || Plain::is_early(state, begin);
            }
            tail = self.cell(tail, 2);
        }
        true
    }

    /// Whether the transaction sees a row of the record: by the newest version that is its own or was committed by its begin.
    pub(crate) fn has_row(&self, rec: u64, own: u64, begin: u64) -> bool {
        let mut tail = at(&self.heads, rec) / 2;
        for _ in 0..TAILS {
            if tail == 0 {
                return false;
            }
            let name = self.writer(self.cell(tail, 0));
            if name == own || Plain::is_early(self.state_of(name), begin) {
                return self.cell(tail, 1) / 256 % 256 != 3;
            }
            tail = self.cell(tail, 2);
        }
        false
    }

    /// Whether the words of the tail but the first are those of a write on the record that fits the row there.
    pub(crate) fn is_cell(&self, tail: u64, rec: u64, is_present: bool) -> bool {
        let encoding = self.cell(tail, 1);
        let mask = encoding % 256;
        let nulls = encoding >> 24;
        let is_right = match encoding / 256 % 256 {
            1 => mask == 3 && !is_present,
            2 => mask > 0 && mask < 4 && is_present,
            3 => mask == 0 && is_present,
            _ => false,
        };
        let numbers = mask & !nulls;
        is_right
            && encoding / 65536 % 256 == rec
            && nulls & !mask == 0
            && (numbers & 1 == 1 || self.cell(tail, 3) == 0)
            && (numbers & 2 == 2 || self.cell(tail, 4) == 0)
    }

    fn posting(&self, column: u32, position: u64) -> u64 {
        at(&self.postings, Plain::posting_place(column, position))
    }

    fn posting_place(column: u32, position: u64) -> u64 {
        (column % 2) as u64 * POSTINGS + position % POSTINGS
    }

    fn value(&self, tail: u64, column: u32) -> u64 {
        self.cell(tail, 3 + column % 2)
    }

    /// Whether the column is indexed, and the tail sets it to a number.
    fn is_due(&self, tail: u64, column: u32) -> bool {
        let encoding = self.cell(tail, 1);
        let numbers = encoding & !(encoding >> 24);
        let is_number = if column == 0 {
            numbers & 1 == 1
        } else {
            numbers & 2 == 2
        };
        is_number && self.indexed.get(column as usize) == Some(&true)
    }

    /// How far the run of the tail's value goes: to a tail of its record with the value, or to an empty position.
    fn turns(&self, tail: u64, column: u32) -> u64 {
        let value = self.value(tail, column);
        let slot = self.cell(tail, 1) / 65536 % 256;
        let first = start(value, 4) as u64;
        for turn in 0..POSTINGS {
            let other = self.posting(column, first + turn);
            let is_alike = self.cell(other, 1) / 65536 % 256 == slot
                && self.value(other, column) == value;
            if other == 0 || is_alike {
                return turn;
            }
        }
        POSTINGS
    }

    /// Where the run of the tail's value ends.
    pub(crate) fn posting_end(&self, tail: u64, column: u32) -> u64 {
        let first = start(self.value(tail, column), 4) as u64;
        (first + self.turns(tail, column) % POSTINGS) % POSTINGS
    }

    /// A column that has to be posted yet.
    pub(crate) fn unposted(&self, tail: u64) -> Option<(u32, u64)> {
        for column in 0..2u32 {
            let position = self.posting_end(tail, column);
            if self.is_due(tail, column) && self.posting(column, position) == 0 {
                return Some((column, position));
            }
        }
        None
    }

    /// How many postings there are.
    pub(crate) fn posted(&self) -> u64 {
        let mut count = 0u64;
        for word in self.postings {
            if word != 0 {
                count = count.wrapping_add(1);
            }
        }
        count
    }

    /// How many stored tails have a null column.
    pub(crate) fn null_tails(&self) -> u64 {
        let mut count = 0u64;
        for tail in 1..TAILS + 1 {
            if self.cell(tail, 0) != 0 && self.cell(tail, 1) >> 24 != 0 {
                count = count.wrapping_add(1);
            }
        }
        count
    }

    // ---- steps: each answers the word found, or none where it may not be made

    fn is_within(&self, event: Event, place: Option<Place>) -> bool {
        let inside = SESSIONS as u32;
        match event {
            Event::Look {
                session,
                address: _,
            } => session <= inside && place.is_some(),
            Event::Claim { session, position } => {
                session < inside && (position as u64) < POSITIONS
            }
            Event::Latch { session, rec } => session < inside && (rec as u64) < RECORDS,
            Event::DrawTail { session, range } => session < inside && range < 1,
            Event::StoreCell {
                session,
                place: word,
                value: _,
            } => session < inside && word < 5,
            Event::Stamp {
                session,
                range,
                number,
            } => session < inside && range < 1 && number > 0 && (number as u64) <= TAILS,
            Event::Post {
                session,
                column,
                position,
            } => { session < inside && column < 2 && (position as u64) < POSTINGS }
            other => session_of(other) < inside,
        }
    }

    pub(crate) fn step(&mut self, event: Event, place: Option<Place>) -> Option<u64> {
        if !self.is_within(event, place) {
            return None;
        }
        match event {
            Event::Look {
                session,
                address: _,
            } => self.look(session, place?),
            Event::Begin {
                session,
                begin,
                read_only,
            } => self.begin(session, begin, read_only),
            Event::Take { session } => self.take(session),
            Event::Log { session } => self.store_log(session),
            Event::State { session } => self.store_state(session),
            Event::Clock { session } => self.publish(session),
            Event::Give { session } => self.give(session),
            Event::Close { session } => self.close(session),
            Event::DrawRecord { session } => self.draw_record(session),
            Event::StoreKey { session, key } => self.store_key(session, key),
            Event::Claim { session, position } => self.claim(session, position as u64),
            Event::Latch { session, rec } => self.take_latch(session, rec as u64),
            Event::DrawTail { session, range: _ } => self.draw_tail(session),
            Event::StoreCell {
                session,
                place: word,
                value,
            } => self.store_cell(session, word, value),
            Event::Install { session } => self.install(session),
            Event::Release { session } => self.release(session),
            Event::Stamp {
                session: _,
                range: _,
                number,
            } => self.stamp(number as u64),
            Event::Post {
                session,
                column,
                position,
            } => self.post(session, column, position as u64),
        }
    }

    fn look(&mut self, session: u32, place: Place) -> Option<u64> {
        let found = self.word(place);
        let mut seat = self.seat(session);
        match place {
            Place::ClockWord => {
                seat.seen = found;
                if seat.turn == 1 {
                    seat.turn = 2;
                }
            }
            Place::RecordCounter => {
                if found < RECORDS {
                    seat.may_draw_record = true;
                }
            }
            Place::TailCounter { range: _ } => {
                if found < TAILS {
                    seat.may_draw_tail = true;
                }
            }
            Place::KeyWord { rec } => {
                let is_other = seat.hand != Some(rec as u64) && seat.key == Some(found);
                if is_other && seat.index == rec as u64 + 1 {
                    seat.put_away();
                }
            }
            Place::IndexWord { position: _ } => seat.index = found,
            _ => (),
        }
        self.sit(session, seat);
        Some(found)
    }

    fn begin(&mut self, session: u32, begin: u64, read_only: bool) -> Option<u64> {
        let mut seat = self.seat(session);
        if seat.is_open || seat.number >= TXNS || begin > seat.seen {
            return None;
        }
        seat.number += 1;
        seat.begin = begin;
        seat.is_read_only = read_only;
        seat.is_open = true;
        seat.has_writes = false;
        self.sit(session, seat);
        let place = Plain::transaction(session, seat.number);
        Some(put(&mut self.begins, place, begin.wrapping_add(1)))
    }

    fn take(&mut self, session: u32) -> Option<u64> {
        let mut seat = self.seat(session);
        if !seat.is_free() || !seat.has_writes {
            return None;
        }
        let found = self.turn;
        if found == 0 {
            self.turn = session as u64 + 1;
            seat.turn = 1;
            self.sit(session, seat);
        }
        Some(found)
    }

    fn store_log(&mut self, session: u32) -> Option<u64> {
        let mut seat = self.seat(session);
        if seat.turn != 2 {
            return None;
        }
        seat.turn = 3;
        self.sit(session, seat);
        let time = self.clock.wrapping_add(1);
        Some(put(&mut self.log, time, Plain::name(session, &seat)))
    }

    fn store_state(&mut self, session: u32) -> Option<u64> {
        let mut seat = self.seat(session);
        if seat.turn != 3 {
            return None;
        }
        seat.turn = 4;
        self.sit(session, seat);
        let place = Plain::transaction(session, seat.number);
        Some(put(&mut self.states, place, self.clock.wrapping_add(2)))
    }

    fn publish(&mut self, session: u32) -> Option<u64> {
        let mut seat = self.seat(session);
        if seat.turn != 4 {
            return None;
        }
        let found = self.clock;
        self.clock = found.wrapping_add(1);
        seat.turn = 5;
        seat.is_open = false;
        seat.has_writes = false;
        seat.seen = self.clock;
        self.sit(session, seat);
        Some(found)
    }

    fn give(&mut self, session: u32) -> Option<u64> {
        let mut seat = self.seat(session);
        if seat.turn != 1 && seat.turn != 2 && seat.turn != 5 {
            return None;
        }
        seat.turn = 0;
        self.sit(session, seat);
        let found = self.turn;
        self.turn = 0;
        Some(found)
    }

    fn close(&mut self, session: u32) -> Option<u64> {
        let mut seat = self.seat(session);
        if !seat.is_free() {
            return None;
        }
        seat.is_open = false;
        seat.has_writes = false;
        self.sit(session, seat);
        let place = Plain::transaction(session, seat.number);
        Some(put(&mut self.states, place, 1))
    }

    fn draw_record(&mut self, session: u32) -> Option<u64> {
        let mut seat = self.seat(session);
        if seat.hand.is_some() || !seat.may_draw_record {
            return None;
        }
        let found = self.records;
        self.records = found.wrapping_add(1);
        seat.may_draw_record = false;
        if found < RECORDS {
            seat.hand = Some(found);
            seat.key = None;
        }
        self.sit(session, seat);
        Some(found)
    }

    fn store_key(&mut self, session: u32, key: u64) -> Option<u64> {
        let mut seat = self.seat(session);
        let rec = seat.hand?;
        seat.key = Some(key);
        self.sit(session, seat);
        Some(put(&mut self.keys, rec, key))
    }

    fn claim(&mut self, session: u32, position: u64) -> Option<u64> {
        let mut seat = self.seat(session);
        let rec = seat.hand?;
        let key = seat.key?;
        if !self.reaches(key, position) {
            return None;
        }
        let found = at(&self.index, position);
        if found == 0 {
            put(&mut self.index, position, rec.wrapping_add(1));
            seat.put_away();
        } else {
            seat.index = found;
        }
        self.sit(session, seat);
        Some(found)
    }

    fn take_latch(&mut self, session: u32, rec: u64) -> Option<u64> {
        let mut seat = self.seat(session);
        if !seat.is_free() || seat.is_read_only || !self.is_placed(rec) {
            return None;
        }
        let found = at(&self.heads, rec);
        if found % 2 == 0 {
            put(&mut self.heads, rec, found.wrapping_add(1));
            seat.let_go();
            seat.latch = Some(rec);
            seat.head = found / 2;
            self.sit(session, seat);
        }
        Some(found)
    }

    fn draw_tail(&mut self, session: u32) -> Option<u64> {
        let mut seat = self.seat(session);
        let rec = seat.latch?;
        if seat.tail.is_some() || !seat.may_draw_tail {
            return None;
        }
        if !self.is_judged(rec, Plain::name(session, &seat), seat.begin) {
            return None;
        }
        let found = self.tails;
        self.tails = found.wrapping_add(1);
        seat.may_draw_tail = false;
        if found < TAILS {
            seat.tail = Some(found + 1);
            seat.encoding = false;
            seat.back = false;
            seat.left = false;
            seat.right = false;
        }
        self.sit(session, seat);
        Some(found)
    }

    fn store_cell(&mut self, session: u32, place: u32, value: u64) -> Option<u64> {
        let mut seat = self.seat(session);
        let rec = seat.latch?;
        let tail = seat.tail?;
        if seat.is_whole {
            return None;
        }
        if place == 0 {
            let own = Plain::name(session, &seat);
            let is_present = self.has_row(rec, own, seat.begin);
            let is_right = seat.is_drafted() && self.is_cell(tail, rec, is_present);
            if !is_right || value / 2 != own || value % 2 != 1 {
                return None;
            }
        }
        seat.store(place);
        self.sit(session, seat);
        let cell = (tail % 16) * 8 + place as u64;
        Some(put(&mut self.cells, cell, value))
    }

    fn install(&mut self, session: u32) -> Option<u64> {
        let mut seat = self.seat(session);
        let rec = seat.latch?;
        let tail = seat.tail?;
        if !seat.is_whole || self.cell(tail, 2) != seat.head || self.unposted(tail).is_some() {
            return None;
        }
        seat.let_go();
        seat.has_writes = true;
        self.sit(session, seat);
        Some(put(&mut self.heads, rec, (tail % 16) * 2))
    }

    fn post(&mut self, session: u32, column: u32, position: u64) -> Option<u64> {
        let seat = self.seat(session);
        let tail = seat.tail?;
        let end = self.posting_end(tail, column);
        if !seat.is_whole || !self.is_due(tail, column) || self.posting(column, end) != 0 {
            return None;
        }
        let first = start(self.value(tail, column), 4) as u64;
        if (POSTINGS + position % POSTINGS - first) % POSTINGS > self.turns(tail, column) {
            return None;
        }
        let found = self.posting(column, position);
        if found == 0 {
            put(
                &mut self.postings,
                Plain::posting_place(column, position),
                tail,
            );
        }
        Some(found)
    }

    fn release(&mut self, session: u32) -> Option<u64> {
        let mut seat = self.seat(session);
        let rec = seat.latch?;
        if seat.tail.is_some() {
            return None;
        }
        let head = seat.head.wrapping_mul(2);
        seat.let_go();
        self.sit(session, seat);
        Some(put(&mut self.heads, rec, head))
    }

    fn stamp(&mut self, tail: u64) -> Option<u64> {
        let start = self.cell(tail, 0);
        let state = self.state_of(self.writer(start));
        if start == 0 || !Plain::is_early(state, self.clock) {
            return None;
        }
        let time = state.wrapping_sub(1);
        Some(put(&mut self.cells, (tail % 16) * 8, time.wrapping_mul(2)))
    }
}
