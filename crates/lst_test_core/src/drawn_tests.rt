//! Drawn steps, against a plain recomputation.

use crate::plain::{POSITIONS, POSTINGS, Plain, SESSIONS, TAILS, at};
use lst_core::{Core, Event};
use lst_layout::{Layout, Limits, Place};
use lst_model::OutOfMemory;
use std::alloc::Global;
use std::test::Fail;

const SMALL: Limits = Limits {
    columns: 2,
    ranges: 1,
    tails: 8,
    sessions: 2,
    txns: 15,
    spare: 1,
    indexed: 0,
};

const KEYS: u64 = 5;

/// Draws steps from a seed.
#[derive(Clone, Copy)]
struct Drawer {
    seed: u64,
}

impl Drawer {
    /// A number below this one.
    fn draw(&mut self, below: u64) -> u64 {
        self.seed = self
            .seed
            .wrapping_mul(6364136223846793005)
            .wrapping_add(1442695040888963407);
        if below == 0 {
            0
        } else {
            (self.seed >> 33) % below
        }
    }

    fn pick(&mut self, below: u64) -> u32 {
        (self.draw(below) % 4096) as u32
    }

    fn draw_event(&mut self, plain: &Plain, layout: &Layout) -> Event {
        let session = self.pick(SESSIONS);
        match self.draw(9) {
            0 => self.draw_any(session, plain.clock, layout.words),
            1 => self.draw_look(layout),
            _ => self.draw_next(plain, session, layout),
        }
    }

    fn draw_look(&mut self, layout: &Layout) -> Event {
        Event::Look {
            session: self.pick(SESSIONS + 2),
            address: match self.draw(4) {
                0 => layout.clock(),
                1 => layout.record_counter(),
                _ => self.draw(layout.words.wrapping_add(2)),
            },
        }
    }

    /// Any step, which mostly may not be made.
    fn draw_any(&mut self, session: u32, clock: u64, words: u64) -> Event {
        match self.draw(18) {
            0 => Event::Look {
                session,
                address: self.draw(words),
            },
            1 => Event::Begin {
                session,
                begin: self.draw(clock.wrapping_add(2)),
                read_only: self.draw(3) == 0,
            },
            2 => Event::Take { session },
            3 => Event::Log { session },
            4 => Event::State { session },
            5 => Event::Clock { session },
            6 => Event::Give { session },
            7 => Event::Close { session },
            8 => Event::DrawRecord { session },
            9 => Event::StoreKey {
                session,
                key: self.draw(KEYS),
            },
            10 => Event::Claim {
                session,
                position: self.pick(POSITIONS + 9),
            },
            11 => Event::Latch {
                session,
                rec: self.pick(9),
            },
            12 => Event::DrawTail {
                session,
                range: self.pick(2),
            },
            13 => Event::StoreCell {
                session,
                place: self.pick(6),
                value: self.draw(99),
            },
            14 => Event::Install { session },
            15 => Event::Release { session },
            16 => Event::Stamp {
                session,
                range: 0,
                number: self.pick(TAILS + 2),
            },
            _ => Event::Post {
                session,
                column: self.pick(3),
                position: self.pick(POSTINGS + 1),
            },
        }
    }

    /// A step that the session may well make next.
    fn draw_next(&mut self, plain: &Plain, session: u32, layout: &Layout) -> Event {
        let seat = plain.seat(session);
        let clock = Event::Look {
            session,
            address: layout.clock(),
        };
        match seat.turn {
            1 => clock,
            2 => Event::Log { session },
            3 => Event::State { session },
            4 if self.draw(3) == 0 => self.draw_stamp(session),
            4 => Event::Clock { session },
            5 => Event::Give { session },
            _ => match (seat.is_open, self.draw(6)) {
                (false, 0) => clock,
                (false, 1) => self.draw_placing(plain, session, layout),
                (false, _) => Event::Begin {
                    session,
                    begin: seat.seen,
                    read_only: self.draw(8) == 0,
                },
                (true, 0) => self.draw_stamp(session),
                (true, _) => self.draw_write(plain, session, layout),
            },
        }
    }

    fn draw_stamp(&mut self, session: u32) -> Event {
        Event::Stamp {
            session,
            range: 0,
            number: self.pick(TAILS).wrapping_add(1),
        }
    }

    /// A step to place a record.
    fn draw_placing(&mut self, plain: &Plain, session: u32, layout: &Layout) -> Event {
        let seat = plain.seat(session);
        if seat.hand.is_none() {
            return if seat.may_draw_record {
                Event::DrawRecord { session }
            } else {
                Event::Look {
                    session,
                    address: layout.record_counter(),
                }
            };
        }
        let Some(key) = seat.key else {
            return Event::StoreKey {
                session,
                key: self.draw(KEYS),
            };
        };
        let position = plain.run_end(key);
        let word = at(&plain.index, position);
        if word == 0 || (seat.index != word && self.draw(2) == 0) {
            return Event::Claim {
                session,
                position: (position % POSITIONS) as u32,
            };
        }
        let address = if seat.index == word {
            layout.keys(0).wrapping_add(word.wrapping_sub(1))
        } else {
            layout.index(0).wrapping_add(position)
        };
        Event::Look { session, address }
    }

    /// A step to write, or to end the transaction.
    fn draw_write(&mut self, plain: &Plain, session: u32, layout: &Layout) -> Event {
        let seat = plain.seat(session);
        let Some(rec) = seat.latch else {
            return match self.draw(9) {
                0 => Event::Close { session },
                1 | 2 | 3 if seat.has_writes => Event::Take { session },
                1 | 2 => self.draw_placing(plain, session, layout),
                _ => Event::Latch {
                    session,
                    rec: self.pick(plain.records),
                },
            };
        };
        match (seat.tail, seat.is_whole, seat.may_draw_tail) {
            (Some(tail), true, _) => self.draw_end(plain, session, tail),
            (Some(tail), false, _) => self.draw_word(plain, session, rec, tail),
            (None, _, may) => match self.draw(5) {
                0 => Event::Release { session },
                _ if may => Event::DrawTail { session, range: 0 },
                _ => Event::Look {
                    session,
                    address: layout.tail_counters(0),
                },
            },
        }
    }

    /// A step that posts the whole tail in hand, or installs it.
    fn draw_end(&mut self, plain: &Plain, session: u32, tail: u64) -> Event {
        match (plain.unposted(tail), self.draw(9)) {
            (_, 0 | 1) => self.draw_post(plain, session, tail),
            (Some((column, position)), 2..8) => Event::Post {
                session,
                column,
                position: (position % POSTINGS) as u32,
            },
            _ => Event::Install { session },
        }
    }

    /// A post that mostly may not be made: where the value's run ends, just before, or just past that, in a column that is due or not.
    fn draw_post(&mut self, plain: &Plain, session: u32, tail: u64) -> Event {
        let column = self.pick(2);
        let before = plain.posting_end(tail, column).wrapping_add(POSTINGS - 1);
        Event::Post {
            session,
            column,
            position: (before.wrapping_add(self.draw(3)) % POSTINGS) as u32,
        }
    }

    /// A store of a word of the tail in hand.
    fn draw_word(&mut self, plain: &Plain, session: u32, rec: u64, tail: u64) -> Event {
        let seat = plain.seat(session);
        let own = Plain::name(session, &seat);
        let is_present = plain.has_row(rec, own, seat.begin);
        let is_linked = plain.cell(tail, 2) == seat.head || self.draw(20) == 0;
        let is_right = is_linked && plain.is_cell(tail, rec, is_present);
        let place = if seat.is_drafted() && is_right && self.draw(6) != 0 {
            0
        } else {
            self.pick(5)
        };
        let encoding = plain.cell(tail, 1);
        let numbers = encoding & !(encoding >> 24);
        let value = match place {
            0 => own.wrapping_mul(2).wrapping_add(1),
            1 => self.draw_encoding(rec, is_present),
            2 => seat.head.wrapping_add((self.draw(12) == 0) as u64),
            3 if numbers & 1 == 0 => (self.draw(9) == 0) as u64,
            4 if numbers & 2 == 0 => (self.draw(9) == 0) as u64,
            _ => self.draw(3),
        };
        Event::StoreCell {
            session,
            place,
            value,
        }
    }

    fn draw_encoding(&mut self, rec: u64, is_present: bool) -> u64 {
        let draft = match (is_present, self.draw(5)) {
            (false, 0) => 3 * 256,
            (false, _) => 256 + 3,
            (true, 0) => 256 + 3,
            (true, 1) => 3 * 256,
            (true, _) => 2 * 256 + 1 + self.draw(3) % 3,
        };
        // The null columns are mostly those of the mask.
        let nulls = match self.draw(6) {
            0 => self.draw(5),
            1 | 2 => self.draw(4) & draft % 256,
            _ => 0,
        };
        let slot = (rec % 256) + (self.draw(12) == 0) as u64;
        nulls << 24 | slot << 16 | draft
    }
}

/// What some drawn steps came to: how many could be made, the commits, the stored tails with null columns, the postings, the posts
/// that couldn't be made, and the first step that differs, if any.
#[derive(Clone, Copy)]
struct Outcome {
    made: u64,
    commits: u64,
    null_tails: u64,
    posted: u64,
    refused: u64,
    differs: Option<u64>,
}

/// A step whose fields are within the limits.
fn step(core: &mut Core, event: Event) -> Option<u64> {
    if core.is_within(event) {
        core.step(event).ok()
    } else {
        None
    }
}

fn place_of(layout: &Layout, event: Event) -> Option<Place> {
    match event {
        Event::Look {
            session: _,
            address,
        } if address < layout.words => Some(layout.place(address)),
        _ => None,
    }
}

/// Whether each word is as the recomputation has it.
fn is_same(layout: &Layout, core: &Core, plain: &Plain) -> bool {
    let words = core.words();
    for address in 0..layout.words {
        if at(words, address) != plain.word(layout.place(address)) {
            return false;
        }
    }
    words.len() as u64 == layout.words
}

/// Steps drawn from a seed, on a core and on a recomputation.
fn run(alloc: Global, layout: &Layout, seed: u64, count: u64) -> Result<Outcome, OutOfMemory> {
    let mut core = Core::new(alloc, layout)?;
    let limits = &layout.limits;
    let mut plain = Plain::new([limits.is_indexed(0), limits.is_indexed(1)]);
    let mut drawer = Drawer { seed };
    let mut made = 0u64;
    let mut refused = 0u64;
    let mut differs = None;
    for i in 0..count {
        let event = drawer.draw_event(&plain, layout);
        let wanted = plain.step(event, place_of(layout, event));
        let found = step(&mut core, event);
        match (found, event) {
            (Some(_), _) => made = made.wrapping_add(1),
            (None, Event::Post { .. }) => refused = refused.wrapping_add(1),
            _ => (),
        }
        // All words are looked up now and then, since a step changes one at most.
        let is_due = i % 16 == 15;
        if found != wanted || (is_due && !is_same(layout, &core, &plain)) {
            differs = Some(i);
            break;
        }
    }
    Ok(Outcome {
        made,
        commits: plain.clock,
        null_tails: plain.null_tails(),
        posted: plain.posted(),
        refused,
        differs,
    })
}

/// What drawn steps came to, from some seeds, in a store with these indexed columns.
fn run_all(alloc: Global, indexed: u8) -> Result<Outcome, Fail> {
    let limits = Limits { indexed, ..SMALL };
    let Ok(layout) = limits.check() else {
        return Err(Fail::from("the small limits are in range"));
    };
    let mut all = Outcome {
        made: 0,
        commits: 0,
        null_tails: 0,
        posted: 0,
        refused: 0,
        differs: None,
    };
    for seed in 1..6u64 {
        let outcome = run(alloc, &layout, seed, 496)?;
        all.made = all.made.wrapping_add(outcome.made);
        all.commits = all.commits.wrapping_add(outcome.commits);
        all.null_tails = all.null_tails.wrapping_add(outcome.null_tails);
        all.posted = all.posted.wrapping_add(outcome.posted);
        all.refused = all.refused.wrapping_add(outcome.refused);
        all.differs = all.differs.or(outcome.differs);
    }
    Ok(all)
}

#[test]
fn drawn_steps_find_what_a_plain_recomputation_finds(rt: HostRuntime) -> Result<(), Fail> {
    // No column is indexed, one is, and both are. Each tail has at most one posting in an indexed column.
    for (indexed, least, most) in [(0, 0, 0), (2, 15, 40), (3, 30, 80)] {
        let all = run_all(rt.alloc(), indexed)?;
        assert_eq!(rt; all.differs, None);
        // Of all 2480 steps, some that may be made and some that may not were drawn, and transactions came to their end.
        assert!(rt; all.made > 1200 && all.made < 1700);
        assert!(rt; all.commits > 9);
        assert!(rt; all.null_tails > 5);
        assert!(rt; all.posted >= least && all.posted <= most);
        assert!(rt; all.refused > 40);
    }
    Ok(())
}
