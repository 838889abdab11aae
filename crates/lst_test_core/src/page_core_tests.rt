//! The page core run on worked steps, and on drawn ones beside a plain recomputation.
ghost use Rattle.std.specs.Prelude.{◌≡◌, ◌<◌};
ghost use Rattle.lst_pages.specs.Step.{IsWithin};

use arrayvec::ArrayVec;
use lst_bits::Kind;
use lst_core_pages::{NotEnabled, PageCore};
use lst_layout::{FRAME_NULLS, FRAME_TIMES, FRAME_VALUES, FRAME_WORDS, Limits, RANGE_RECORDS};
use lst_model::{OutOfMemory, Row};
use lst_pages::{PageEvent, PageTail};
use std::alloc::Global;
use std::process::Abort;
use std::test::Fail;

/// What a step found is what was wanted.
fn same(
    rt: &impl Abort,
    found: Result<u64, NotEnabled>,
    wanted: Result<u64, NotEnabled>,
    at: &str,
) {
    assert_eq!(rt; found, wanted, "{at}");
}

#[test]
fn a_session_reads_a_page_only_while_it_is_pinned(rt: HostRuntime) -> Result<(), Fail> {
    let Ok(layout) = Limits::default().check() else {
        return Err(Fail::from("the default limits are in range"));
    };
    let look = PageEvent::LookPage {
        session: 0,
        range: 0,
        column: 0,
    };
    let mut core = PageCore::new(rt.alloc(), &layout)?;
    let pin = PageEvent::Pin {
        session: 0,
        epoch: 0,
    };
    let unpin = PageEvent::Unpin { session: 0 };
    same(&rt, core.step(unpin), Err(NotEnabled), "unpinned");
    same(&rt, core.step(pin), Ok(0), "pinned");
    same(&rt, core.step(look), Ok(0), "read");
    same(&rt, core.step(unpin), Ok(1), "unpinned again");
    same(&rt, core.step(look), Err(NotEnabled), "not read");
    let tail = Tail {
        slot: 0,
        kind: Kind::Put,
        mask: 3,
        cells: [Some(10), None],
        time: 1,
    };
    assert!(rt; core.settle(0, tail.settled()).is_ok());
    Ok(())
}

#[test]
fn drawn_steps_find_what_a_plain_recomputation_finds(rt: HostRuntime) -> Result<(), Fail> {
    let Ok(layout) = SMALL.check() else {
        return Err(Fail::from("the small limits are in range"));
    };
    for seed in 1..3 {
        let mut core = PageCore::new(rt.alloc(), &layout)?;
        let mut plain = Plain::new(rt.alloc(), seed)?;
        for _ in 0..10_000 {
            if plain.draw(100) == 0 {
                let range = plain.draw(RANGES) as u32;
                let tail = plain.draw_tail();
                plain.settle(range, tail)?;
                core.settle(range, tail.settled())?;
            }
            let event = plain.draw_event();
            let expected = plain.step(event)?;
            assert_eq!(rt; core.step(event), expected.ok_or(NotEnabled), "{seed}");
        }
        assert!(rt; plain.epoch > 2 * SPARE);
        assert!(rt; plain.held > 10);
    }
    Ok(())
}

const RANGES: u64 = 2;

const COLUMNS: u64 = 2;

const SESSIONS: u64 = 3;

const SPARE: u64 = 2;

const FRAMES: u64 = 6;

const TAILS: u64 = 40;

const VALUES: u64 = FRAME_VALUES as u64;

const TIMES: u64 = FRAME_TIMES as u64;

const NULLS: u64 = FRAME_NULLS as u64;

const SMALL: Limits = Limits {
    columns: 2,
    ranges: 2,
    tails: 40,
    sessions: 3,
    txns: 1,
    spare: 2,
    indexed: 0,
};

/// A settled tail of two columns.
#[derive(Clone, Copy)]
struct Tail {
    slot: u8,
    kind: Kind,
    mask: u8,
    cells: [Option<u64>; 2],
    time: u64,
}

impl Tail {
    fn settled(&self) -> PageTail {
        let mut values = Row::of_numbers(ArrayVec::new());
        values.push(self.cells[0]);
        values.push(self.cells[1]);
        PageTail {
            slot: self.slot,
            kind: self.kind,
            mask: self.mask,
            values,
            time: self.time,
        }
    }

    fn is_on(&self, column: u64) -> bool {
        self.time > 0 && (self.kind != Kind::Set || (self.mask as u64 >> (column % 2)) & 1 == 1)
    }
}

/// The same state, kept as plain lists and searched through afresh at each question.
#[derive(Drop)]
struct Plain {
    alloc: Global,
    seed: u64,
    epoch: u64,
    pins: Vec<u64>,
    directory: Vec<u64>,
    frames: Vec<Vec<u64>>,
    tails: Vec<Vec<Tail>>,
    retired: Vec<(u64, u64)>,
    clear: Vec<u64>,
    waiting: Option<u64>,
    built: Option<u64>,
    held: u64,
    time: u64,
}

impl Plain {
    fn new(alloc: Global, seed: u64) -> Result<Plain, OutOfMemory> {
        let mut frames = Vec::new(alloc);
        for _ in 0..FRAMES {
            frames.push(vec![in alloc; 0; FRAME_WORDS as usize]?)?;
        }
        let mut tails = Vec::new(alloc);
        for _ in 0..RANGES {
            tails.push(Vec::new(alloc))?;
        }
        let mut directory = Vec::new(alloc);
        for page in 0..RANGES * COLUMNS {
            directory.push(page)?;
        }
        let mut retired = Vec::new(alloc);
        for spare in 0..SPARE {
            retired.push((RANGES * COLUMNS + spare, 0))?;
        }
        Ok(Plain {
            alloc,
            seed,
            epoch: 0,
            pins: vec![in alloc; 0; SESSIONS as usize]?,
            directory,
            frames,
            tails,
            retired,
            clear: Vec::new(alloc),
            waiting: None,
            built: None,
            held: 0,
            time: 0,
        })
    }

    /// A number below this one.
    fn draw(&mut self, below: u64) -> u64
        requires { 0 < below }
        ensures { result < below }
    {
        self.seed = self
            .seed
            .wrapping_mul(6364136223846793005)
            .wrapping_add(1442695040888963407);
        (self.seed >> 33) % below
    }

    fn draw_tail(&mut self) -> Tail {
        let kind = match self.draw(4) {
            0 => Kind::Del,
            1 | 2 => Kind::Set,
            _ => Kind::Put,
        };
        let mask = match kind {
            Kind::Put => 3,
            Kind::Set => 1 + self.draw(3) as u8,
            Kind::Del => 0,
        };
        self.time = self.time.wrapping_add(1);
        Tail {
            slot: self.draw(3) as u8,
            kind,
            mask,
            cells: [self.draw_cell(), self.draw_cell()],
            time: if self.draw(5) == 0 { 0 } else { self.time },
        }
    }

    fn draw_cell(&mut self) -> Option<u64> {
        match self.draw(4) {
            0 => None,
            _ => Some(self.draw(1000)),
        }
    }

    fn settle(&mut self, range: u32, tail: Tail) -> Result<(), OutOfMemory> {
        if let Some(list) = self.tails.get_mut(range as usize) {
            list.push(tail)?;
        }
        Ok(())
    }

    /// A step that the merger or a session may well make next.
    fn draw_event(&mut self) -> PageEvent
        ensures { IsWithin SMALL result }
    {
        let session = self.draw(SESSIONS) as u32;
        let range = self.draw(RANGES) as u32;
        let column = self.draw(COLUMNS) as u32;
        match self.draw(16) {
            0 => PageEvent::Pin {
                session,
                epoch: self.draw(self.epoch.saturating_add(2)),
            },
            1 => PageEvent::Unpin { session },
            2 | 3 => PageEvent::LookPage {
                session,
                range,
                column,
            },
            4 | 5 | 6 => PageEvent::LookPin { session },
            7 => PageEvent::Swap { range, column },
            8 | 9 => PageEvent::Raise,
            10 => PageEvent::StoreFrame {
                frame: self.draw(FRAMES) as u32,
                place: self.draw(FRAME_WORDS as u64) as u32,
                value: self.draw(9),
            },
            _ => self.draw_build(range, column),
        }
    }

    /// The store of a word that the oldest retired frame lacks to be a page of all settled tails, or the swap.
    fn draw_build(&self, range: u32, column: u32) -> PageEvent
        requires range { range < 2 }
        requires column { column < 2 }
        ensures { IsWithin SMALL result }
    {
        let frame = self.retired.first().map_or(0, |r| r.0);
        for place in 0..FRAME_WORDS {
            let value = self.page_word(range, column as u64, place as u64);
            if value != self.word(frame, place as u64) {
                return PageEvent::StoreFrame {
                    frame: (frame % FRAMES) as u32,
                    place,
                    value,
                };
            }
        }
        PageEvent::Swap { range, column }
    }

    fn word(&self, frame: u64, place: u64) -> u64 {
        match self.frames.get(frame as usize) {
            Some(words) => words.get(place as usize).copied().unwrap_or(0),
            None => 0,
        }
    }

    fn page_of(range: u32, column: u64) -> usize {
        (range as usize % 2) * 2 + column as usize % 2
    }

    fn tail_count(&self, range: u32) -> u64 {
        self.tails
            .get(range as usize)
            .map_or(0, |list| list.len() as u64)
    }

    /// The word that a page of all settled tails has there, with its values in plain form.
    fn page_word(&self, range: u32, column: u64, place: u64) -> u64 {
        let tails = self.tail_count(range);
        if place == 0 {
            return tails;
        }
        if place < TIMES {
            let slot = place.wrapping_sub(VALUES + 1);
            let (_, cell) = self.entry(range, column, slot, tails);
            return cell.flatten().unwrap_or(0);
        }
        if place < NULLS {
            let (time, cell) = self.entry(range, column, place - TIMES, tails);
            return time.wrapping_mul(2).wrapping_add(cell.is_some() as u64);
        }
        let mut nulls = 0;
        for bit in 0..64 {
            let slot = (place - NULLS).wrapping_mul(64).wrapping_add(bit);
            if self.entry(range, column, slot, tails).1 == Some(None) {
                nulls |= 1 << bit;
            }
        }
        nulls
    }

    /// The last tail up to this one that is committed, of this slot and touches the column.
    fn entry(&self, range: u32, column: u64, slot: u64, tps: u64) -> (u64, Option<Option<u64>>) {
        let mut entry = (0, None);
        if let Some(list) = self.tails.get(range as usize) {
            for (number, tail) in list.iter().enumerate() {
                if (number as u64) < tps && tail.slot as u64 == slot && tail.is_on(column) {
                    let cell = match tail.kind {
                        Kind::Del => None,
                        Kind::Put | Kind::Set => Some(tail.cells[(column % 2) as usize]),
                    };
                    entry = (tail.time, cell);
                }
            }
        }
        entry
    }

    /// The value at a slot, where the values stand in plain form or are all one.
    fn value(&self, frame: u64, slot: u64) -> Option<u64> {
        match self.word(frame, VALUES) {
            0 => Some(self.word(frame, VALUES.wrapping_add(1).wrapping_add(slot))),
            1 => Some(self.word(frame, VALUES.wrapping_add(1))),
            _ => None,
        }
    }

    /// Whether the frame is right. No drawn word names a form but the plain one and that of one value.
    fn is_right(&self, frame: u64, range: u32, column: u64) -> bool {
        let tps = self.word(frame, 0);
        if tps > self.tail_count(range) {
            return false;
        }
        for slot in 0..RANGE_RECORDS as u64 {
            let Some(value) = self.value(frame, slot) else {
                return false;
            };
            let (time, cell) = self.entry(range, column, slot, tps);
            let nulls = self.word(frame, NULLS.wrapping_add(slot / 64));
            let stamp = time.wrapping_mul(2).wrapping_add(cell.is_some() as u64);
            if self.word(frame, TIMES.wrapping_add(slot)) != stamp {
                return false;
            }
            if let Some(cell) = cell {
                let is_null = nulls >> (slot % 64) & 1 == 1;
                if is_null != cell.is_none() || value != cell.unwrap_or(0) {
                    return false;
                }
            }
        }
        true
    }

    fn is_clear(&self) -> bool {
        for session in 0..SESSIONS {
            if !self.clear.contains(&session) {
                return false;
            }
        }
        true
    }

    /// Makes a step, and answers the word found before it, or none where it may not be made.
    fn step(&mut self, event: PageEvent) -> Result<Option<u64>, OutOfMemory> {
        match event {
            PageEvent::Pin { session, epoch } => Ok(self.pin(
                session,
                0,
                epoch.wrapping_add(1),
                epoch <= self.epoch,
            )),
            PageEvent::Unpin { session } => {
                let pin = self.pin_of(session);
                Ok(self.pin(session, pin, 0, pin != 0))
            }
            PageEvent::LookPage {
                session,
                range,
                column,
            } => {
                let page = Plain::page_of(range, column as u64);
                let is_pinned = self.pin_of(session) != 0;
                Ok(self.directory.get(page).copied().filter(|_| is_pinned))
            }
            PageEvent::LookPin { session } => self.look(session),
            PageEvent::StoreFrame {
                frame,
                place,
                value,
            } => Ok(self.store(frame as u64, place, value)),
            PageEvent::Swap { range, column } => Ok(self.swap(range, column as u64)),
            PageEvent::Raise => self.raise(),
        }
    }

    fn pin_of(&self, session: u32) -> u64 {
        self.pins.get(session as usize).copied().unwrap_or(0)
    }

    fn pin(&mut self, session: u32, old: u64, new: u64, may: bool) -> Option<u64> {
        if !may || self.pin_of(session) != old {
            return None;
        }
        if let Some(pin) = self.pins.get_mut(session as usize) {
            *pin = new;
        }
        Some(old)
    }

    fn look(&mut self, session: u32) -> Result<Option<u64>, OutOfMemory> {
        if self.waiting.is_some() {
            return Ok(None);
        }
        let pin = self.pin_of(session);
        let epoch = self.retired.first().map_or(0, |r| r.1);
        if pin == 0 || pin - 1 >= epoch {
            self.clear.push(session as u64)?;
        } else {
            self.held = self.held.wrapping_add(1);
        }
        Ok(Some(pin))
    }

    fn store(&mut self, frame: u64, place: u32, value: u64) -> Option<u64> {
        let oldest = self.retired.first().map(|r| r.0);
        if oldest != Some(frame) || !self.is_clear() {
            return None;
        }
        let old = self.word(frame, place as u64);
        if let Some(words) = self.frames.get_mut(frame as usize) {
            if let Some(word) = words.get_mut(place as usize) {
                *word = value;
            }
        }
        self.built = Some(frame);
        Some(old)
    }

    fn swap(&mut self, range: u32, column: u64) -> Option<u64> {
        let new = self.built?;
        let page = Plain::page_of(range, column);
        let old = self.directory.get(page).copied()?;
        let tps = self.word(new, 0);
        if tps <= self.word(old, 0) || tps > TAILS || !self.is_right(new, range, column) {
            return None;
        }
        if let Some(frame) = self.directory.get_mut(page) {
            *frame = new;
        }
        if !self.retired.is_empty() {
            self.retired.remove(0);
        }
        self.clear.clear();
        self.waiting = Some(old);
        self.built = None;
        Some(old)
    }

    fn raise(&mut self) -> Result<Option<u64>, OutOfMemory> {
        let Some(frame) = self.waiting else {
            return Ok(None);
        };
        let old = self.epoch;
        self.epoch = old.wrapping_add(1);
        self.retired.push((frame, self.epoch))?;
        self.waiting = None;
        Ok(Some(old))
    }
}
