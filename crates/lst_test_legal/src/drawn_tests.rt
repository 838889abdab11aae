//! Drawn scripts with reports, judged by the checker and by the plain one.

use crate::plain::{KEYS, Opened, Run};
use crate::plain_replies::{count_of, holds, lacks_index, sum_of};
use arrayvec::ArrayVec;
use lst_layout::Limits;
use lst_legal::{are_sessions_below, legal, legal_serial};
use lst_legal_runs::Level;
use lst_model::{Call, Cause, KeyList, Line, OutOfMemory, Patch, Reply, Row, RowList, Table};
use lst_replies::{Replies, Report, ReportFault, Stamp, Stamps, parse_report, print_report};
use std::alloc::Global;
use std::process::Abort;
use std::test::Fail;

const SESSIONS: u64 = 3;

/// Draws numbers, lines and replies from a seed.
#[derive(Clone, Copy)]
struct Drawer {
    seed: u64,
}

impl Drawer {
    /// A number below this one.
    fn draw(&mut self, below: u64) -> u64 {
        self.seed = self
            .seed
            .wrapping_mul(6364136223846793005)
            .wrapping_add(1442695040888963407);
        if below == 0 {
            0
        } else {
            (self.seed >> 33) % below
        }
    }

    fn pick(&mut self, below: u64) -> u32 {
        (self.draw(below) % 4096) as u32
    }

    fn draw_limits(&mut self) -> Limits {
        Limits {
            columns: 2,
            ranges: 1,
            tails: self.pick(6).wrapping_add(3),
            sessions: SESSIONS as u32,
            txns: self.pick(3).wrapping_add(2),
            spare: 1,
            indexed: (self.draw(4) % 4) as u8,
        }
    }

    fn draw_number(&mut self) -> u64 {
        match self.draw(12) {
            0 => 18446744073709551615,
            _ => self.draw(3),
        }
    }

    /// A number, or None for null.
    fn draw_cell(&mut self) -> Option<u64> {
        match self.draw(5) {
            0 => None,
            _ => Some(self.draw_number()),
        }
    }

    fn draw_row(&mut self) -> Row {
        let mut row = Row::of_numbers(ArrayVec::new());
        row.push(self.draw_cell());
        row.push(self.draw_cell());
        row
    }

    fn draw_patch(&mut self) -> Patch {
        let mut patch = Patch::of_numbers(ArrayVec::new());
        let first = match self.draw(2) {
            0 => None,
            _ => Some(self.draw_cell()),
        };
        patch.push(first);
        patch.push(Some(self.draw_cell()));
        patch
    }

    fn draw_begin(&mut self) -> Call {
        match self.draw(5) {
            0 => Call::AsOf { time: self.draw(4) },
            _ => Call::Begin,
        }
    }

    fn draw_write(&mut self) -> Call {
        let key = self.draw(KEYS);
        match self.draw(4) {
            0 => Call::Delete { key },
            1 => Call::Update {
                key,
                patch: self.draw_patch(),
            },
            _ => Call::Insert {
                key,
                row: self.draw_row(),
            },
        }
    }

    fn draw_read(&mut self) -> Call {
        match self.draw(6) {
            0 => Call::Sum {
                column: self.pick(2),
            },
            1 => Call::Count,
            2 => Call::Scan,
            3 => Call::Find {
                column: self.pick(2),
                value: self.draw_number(),
            },
            _ => Call::Get {
                key: self.draw(KEYS),
            },
        }
    }

    fn draw_call(&mut self, is_open: bool) -> Call {
        if !is_open && self.draw(9) != 0 {
            return self.draw_begin();
        }
        match self.draw(16) {
            0 => self.draw_begin(),
            1 => Call::Abort,
            2 | 3 | 4 => Call::Commit,
            5 | 6 | 7 | 8 => self.draw_read(),
            _ => self.draw_write(),
        }
    }

    fn draw_line(&mut self, run: &Run<'_>) -> Line {
        match self.draw(14) {
            0 => Line::Phase,
            1 => Line::Merge {
                range: 0,
                column: self.pick(2),
            },
            _ => {
                let session = self.pick(SESSIONS);
                let is_open = run.opened(session, run.lines.len()).is_some();
                Line::Call {
                    session,
                    call: self.draw_call(is_open),
                }
            }
        }
    }

    fn draw_cause(&mut self) -> Cause {
        match self.draw(14) {
            0 => Cause::Idle,
            1 => Cause::Active,
            2 => Cause::ReadOnly,
            3 => Cause::Spent,
            4 => Cause::Future {
                clock: self.draw(4),
            },
            5 => Cause::Missing,
            6 => Cause::Exists,
            7 => Cause::TableFull,
            8 => Cause::Latched,
            9 => Cause::Newer { time: self.draw(4) },
            10 => Cause::TailFull,
            11 => Cause::NotIndexed,
            12 => Cause::Stale { time: self.draw(4) },
            _ => Cause::Unfinished {
                session: self.pick(SESSIONS + 1),
                number: self.pick(4),
            },
        }
    }

    fn draw_reply(&mut self) -> Reply {
        match self.draw(15) {
            0 => Reply::Done,
            1 => Reply::Row {
                row: self.draw_row(),
            },
            2 => Reply::Absent,
            3 => Reply::Committed { time: self.draw(4) },
            4 => Reply::Ended { time: self.draw(4) },
            5 => Reply::Begun { time: self.draw(4) },
            6 => Reply::Sum {
                total: u128::from(self.draw(6)),
            },
            7 => Reply::Count { rows: self.draw(4) },
            8 => Reply::Merged { tps: self.pick(5) },
            9 => Reply::NothingNew { tps: self.pick(5) },
            10 => Reply::NoFrame {
                session: self.pick(SESSIONS + 1),
            },
            _ => Reply::Refused {
                cause: self.draw_cause(),
            },
        }
    }

    /// A reply near to this one.
    fn nearby(&mut self, reply: &Reply) -> Reply {
        let other = self.draw(5);
        match reply {
            Reply::Begun { time: _ } => Reply::Begun { time: other },
            Reply::Committed { time: _ } => Reply::Committed { time: other },
            Reply::Ended { time: _ } => Reply::Ended { time: other },
            Reply::Row { row: _ } => Reply::Row {
                row: self.draw_row(),
            },
            Reply::Sum { total } => Reply::Sum {
                total: total.wrapping_add(1),
            },
            Reply::Count { rows } => Reply::Count {
                rows: rows.wrapping_add(1),
            },
            Reply::Merged { tps: _ } => Reply::Merged { tps: self.pick(6) },
            Reply::Done | Reply::Refused { .. } => Reply::Refused {
                cause: self.draw_near_cause(),
            },
            _ => self.draw_reply(),
        }
    }

    /// A cause that a write in the way of another may have.
    fn draw_near_cause(&mut self) -> Cause {
        match self.draw(4) {
            0 => Cause::Latched,
            1 => Cause::Newer { time: self.draw(4) },
            2 => Cause::Unfinished {
                session: self.pick(SESSIONS),
                number: self.pick(2).wrapping_add(1),
            },
            _ => self.draw_cause(),
        }
    }
}

// ---- one thread's answers

/// The first transaction of another session that is open and wrote on a key.
fn in_the_way(run: &Run<'_>, session: u32, key: u64) -> Option<Cause> {
    let place = run.lines.len();
    for other in 0..SESSIONS as u32 {
        if other != session {
            if let Some(opened) = run.opened(other, place) {
                if run.has_written(other, opened.place, place, Some(key)) {
                    return Some(Cause::Unfinished {
                        session: other,
                        number: (opened.number % 4096) as u32,
                    });
                }
            }
        }
    }
    None
}

/// The first commit behind a begin that wrote on a key.
fn newer(run: &Run<'_>, begin: u64, key: u64) -> Option<Cause> {
    for earlier in 0..run.stamps.len() as u64 {
        let time = earlier.wrapping_add(1);
        if begin < time && run.commit_wrote(time, key) {
            return Some(Cause::Newer { time });
        }
    }
    None
}

fn answer_write(
    run: &Run<'_>,
    limits: &Limits,
    session: u32,
    begin: u64,
    is_there: bool,
    call: &Call,
) -> Reply {
    let (key, inserts) = match call {
        Call::Insert { key, .. } => (*key, true),
        Call::Update { key, .. } | Call::Delete { key } => (*key, false),
        _ => return Reply::Done,
    };
    if let Some(cause) = in_the_way(run, session, key) {
        return Reply::Refused { cause };
    }
    if let Some(cause) = newer(run, begin, key) {
        return Reply::Refused { cause };
    }
    if inserts && is_there {
        return Reply::Refused {
            cause: Cause::Exists,
        };
    }
    if !inserts && !is_there {
        return Reply::Refused {
            cause: Cause::Missing,
        };
    }
    if u64::from(limits.tails) <= run.accepted(run.lines.len()) {
        return Reply::Refused {
            cause: Cause::TailFull,
        };
    }
    Reply::Done
}

fn rows_of(alloc: Global, sight: &Table) -> Result<RowList, OutOfMemory> {
    let mut list = RowList::new(alloc);
    for key in 0..KEYS {
        if let Some(row) = sight.row(key) {
            list.push(key, row)?;
        }
    }
    Ok(list)
}

fn keys_of(alloc: Global, sight: &Table, column: u32, value: u64) -> Result<KeyList, OutOfMemory> {
    let mut list = KeyList::new(alloc);
    for key in 0..KEYS {
        if let Some(row) = sight.row(key) {
            if holds(&row, column, value) {
                list.push(key)?;
            }
        }
    }
    Ok(list)
}

fn answer_read(alloc: Global, sight: &Table, call: &Call) -> Result<Reply, OutOfMemory> {
    let reply = match call {
        Call::Get { key } => match sight.row(*key) {
            Some(row) => Reply::Row { row },
            None => Reply::Absent,
        },
        Call::Sum { column } => Reply::Sum {
            total: sum_of(sight, *column),
        },
        Call::Count => Reply::Count {
            rows: count_of(sight),
        },
        Call::Scan => Reply::Rows {
            list: rows_of(alloc, sight)?,
        },
        Call::Find { column, value } => Reply::Keys {
            list: keys_of(alloc, sight, *column, *value)?,
        },
        _ => Reply::Aborted,
    };
    Ok(reply)
}

/// The first time for which a transaction may be told stale behind the lines of a run. One in four is not told so.
fn stale_for(
    run: &Run<'_>,
    level: Level,
    session: u32,
    opened: &Opened,
    drawn: u64,
) -> Option<Cause> {
    match level {
        Level::Serializable if drawn % 4 != 0 => {
            for earlier in 0..run.stamps.len() as u64 {
                let time = earlier.wrapping_add(1);
                if run.may_be_stale(session, opened, run.lines.len(), time) {
                    return Some(Cause::Stale { time });
                }
            }
            None
        }
        _ => None,
    }
}

/// The reply to a call behind the lines of a run. A begin may be told any time from the floor on.
fn answer_call(
    alloc: Global,
    level: Level,
    limits: &Limits,
    run: &Run<'_>,
    session: u32,
    call: &Call,
    drawn: u64,
) -> Result<Reply, OutOfMemory> {
    let place = run.lines.len();
    let last = run.stamps.len() as u64;
    if let Some(cause) = run.state_cause(limits, session, place, call) {
        return Ok(Reply::Refused { cause });
    }
    let Some(opened) = run.opened(session, place) else {
        return Ok(match call {
            Call::AsOf { time } if *time > last => Reply::Refused {
                cause: Cause::Future { clock: last },
            },
            Call::AsOf { time } => Reply::Begun { time: *time },
            _ => Reply::Begun {
                time: begin_from(run.floor(session, place), last, drawn),
            },
        });
    };
    let sight = run.sight(alloc, session, place, &opened)?;
    match call {
        Call::Commit if run.has_written(session, opened.place, place, None) => {
            Ok(match stale_for(run, level, session, &opened, drawn) {
                Some(cause) => Reply::Refused { cause },
                None => Reply::Committed {
                    time: last.wrapping_add(1),
                },
            })
        }
        Call::Commit => Ok(Reply::Ended { time: opened.begin }),
        Call::Insert { key, .. } | Call::Update { key, .. } | Call::Delete { key } => {
            let is_there = sight.row(*key).is_some();
            Ok(answer_write(run, limits, session, opened.begin, is_there, call))
        }
        Call::Find { .. } if lacks_index(limits, call) => Ok(Reply::Refused {
            cause: Cause::NotIndexed,
        }),
        _ => answer_read(alloc, &sight, call),
    }
}

/// A time from a floor to the last one, mostly the last.
fn begin_from(floor: u64, last: u64, drawn: u64) -> u64 {
    if drawn < last && floor <= drawn {
        drawn
    } else {
        last
    }
}

fn answer_merge(run: &Run<'_>, range: u32, column: u32) -> Reply {
    let last = run.last_merged(range, column, run.lines.len());
    let tps = (run.accepted(run.lines.len()) % 4096) as u32;
    if tps > last {
        Reply::Merged { tps }
    } else {
        Reply::NothingNew { tps: last }
    }
}

// ---- drawn reports

/// A script with a report.
#[derive(Drop)]
struct Drawn {
    lines: Vec<Line>,
    replies: Vec<(Option<u32>, Reply)>,
    stamps: Vec<Stamp>,
}

impl Drawn {
    fn run(&self) -> Run<'_> {
        Run {
            lines: self.lines.as_slice(),
            replies: self.replies.as_slice(),
            stamps: self.stamps.as_slice(),
        }
    }

    /// Adds the stamp of a commit of the session behind the lines.
    fn stamp(&mut self, session: u32) -> Result<(), OutOfMemory> {
        let opened = self.run().opened(session, self.lines.len());
        if let Some(opened) = opened {
            self.stamps.push(Stamp {
                session,
                number: (opened.number % 4096) as u32,
                begin: opened.begin,
            })?;
        }
        Ok(())
    }

    /// Adds a line, and one thread's answer to it.
    fn add(
        &mut self,
        alloc: Global,
        level: Level,
        limits: &Limits,
        line: Line,
        drawn: u64,
    ) -> Result<(), OutOfMemory> {
        match &line {
            Line::Phase => (),
            Line::Merge { range, column } => {
                let reply = answer_merge(&self.run(), *range, *column);
                self.replies.push((None, reply))?;
            }
            Line::Call { session, call } => {
                let reply = answer_call(alloc, level, limits, &self.run(), *session, call, drawn)?;
                if let Reply::Committed { .. } = &reply {
                    self.stamp(*session)?;
                }
                self.replies.push((Some(*session), reply))?;
            }
        }
        self.lines.push(line)?;
        Ok(())
    }

    /// Changes something of the report.
    fn change(&mut self, drawer: &mut Drawer) -> Result<(), OutOfMemory> {
        let place = drawer.draw(self.replies.len() as u64) as usize;
        match drawer.draw(12) {
            0 => {
                let at = drawer.draw(self.stamps.len() as u64) as usize;
                if let Some(stamp) = self.stamps.get_mut(at) {
                    stamp.begin = drawer.draw(4);
                }
            }
            1 => {
                let at = drawer.draw(self.stamps.len() as u64) as usize;
                if let Some(stamp) = self.stamps.get_mut(at) {
                    stamp.number = drawer.pick(4);
                }
            }
            2 => {
                let _ = self.replies.pop();
            }
            3 => self.replies.push((Some(0), drawer.draw_reply()))?,
            4 | 5 => {
                if let Some(answer) = self.replies.get_mut(place) {
                    answer.1 = drawer.draw_reply();
                }
            }
            _ => {
                if let Some(answer) = self.replies.get_mut(place) {
                    answer.1 = drawer.nearby(&answer.1);
                }
            }
        }
        Ok(())
    }
}

fn draw(
    alloc: Global,
    level: Level,
    limits: &Limits,
    drawer: &mut Drawer,
) -> Result<Drawn, OutOfMemory> {
    let mut drawn = Drawn {
        lines: Vec::new(alloc),
        replies: Vec::new(alloc),
        stamps: Vec::new(alloc),
    };
    for _ in 0..6 + drawer.draw(20) % 20 {
        let line = drawer.draw_line(&drawn.run());
        let begin = drawer.draw(6);
        drawn.add(alloc, level, limits, line, begin)?;
    }
    for _ in 0..drawer.draw(3) {
        drawn.change(drawer)?;
    }
    Ok(drawn)
}

/// What the two checkers say of a drawn report.
#[derive(Clone, Copy, PartialEq, Eq, Debug)]
struct Verdicts {
    plain: bool,
    fast: bool,
}

/// Whether a report is legal at a level.
fn is_legal(
    alloc: Global,
    level: Level,
    limits: &Limits,
    lines: &[Line],
    report: &Report,
) -> Result<Option<bool>, OutOfMemory> {
    if !are_sessions_below(limits.sessions, lines) {
        return Ok(None);
    }
    let is_legal = match level {
        Level::Snapshot => legal(alloc, limits, lines, report)?,
        Level::Serializable => legal_serial(alloc, limits, lines, report)?,
    };
    Ok(Some(is_legal))
}

fn judge(alloc: Global, drawn_at: Level, level: Level, seed: u64) -> Result<Verdicts, OutOfMemory> {
    let mut drawer = Drawer { seed };
    let limits = drawer.draw_limits();
    let drawn = draw(alloc, drawn_at, &limits, &mut drawer)?;
    let plain = drawn.run().is_legal(alloc, level, &limits)?;
    let Drawn {
        lines,
        replies,
        stamps,
    } = drawn;
    let report = Report {
        replies: Replies::from_items(replies),
        history: Stamps::from_items(stamps),
    };
    match is_legal(alloc, level, &limits, lines.as_slice(), &report)? {
        Some(fast) => Ok(Verdicts { plain, fast }),
        None => Ok(Verdicts {
            plain,
            fast: !plain,
        }),
    }
}

/// How many drawn reports were judged legal, and how many not.
fn judge_drawn(
    rt: &impl Abort,
    alloc: Global,
    drawn_at: Level,
    level: Level,
    reports: u64,
) -> Result<(u64, u64), OutOfMemory> {
    let mut legal_ones = 0u64;
    let mut others = 0u64;
    for seed in 1..reports.wrapping_add(1) {
        let verdicts = judge(alloc, drawn_at, level, seed.wrapping_mul(7919))?;
        assert_eq!(rt; verdicts.plain, verdicts.fast);
        if verdicts.fast {
            legal_ones = legal_ones.wrapping_add(1);
        } else {
            others = others.wrapping_add(1);
        }
    }
    Ok((legal_ones, others))
}

#[test]
fn drawn_reports_are_judged_as_the_plain_checker_judges(rt: HostRuntime) -> Result<(), Fail> {
    let snapshot = Level::Snapshot;
    let (legal_ones, others) = judge_drawn(&rt, rt.alloc(), snapshot, snapshot, 400)?;
    // Both verdicts occur often.
    assert!(rt; legal_ones > 100 && others > 65);
    Ok(())
}

#[test]
fn drawn_serializable_reports_are_judged_as_the_plain_checker_judges(
    rt: HostRuntime,
) -> Result<(), Fail> {
    let serializable = Level::Serializable;
    let (legal_ones, others) = judge_drawn(&rt, rt.alloc(), serializable, serializable, 200)?;
    assert!(rt; legal_ones > 25 && others > 25);
    Ok(())
}

#[test]
fn drawn_reports_are_judged_at_the_other_level(rt: HostRuntime) -> Result<(), Fail> {
    let alloc = rt.alloc();
    // Some reports of snapshot isolation are serializable, too, and some are not; one with a stale commit is none.
    let (legal_ones, others) = judge_drawn(&rt, alloc, Level::Snapshot, Level::Serializable, 100)?;
    assert!(rt; legal_ones > 10 && others > 10);
    let (legal_ones, others) = judge_drawn(&rt, alloc, Level::Serializable, Level::Snapshot, 100)?;
    assert!(rt; legal_ones > 10 && others > 10);
    Ok(())
}

/// A text with a byte in the place of another.
fn with_byte(alloc: Global, text: &[u8], place: usize, byte: u8) -> Result<Vec<u8>, OutOfMemory> {
    let mut changed = Vec::new(alloc);
    for (at, old) in text.iter().enumerate() {
        changed.push(if at == place { byte } else { *old })?;
    }
    Ok(changed)
}

/// What the two checkers say of a text, or None where it is no report.
fn judge_text(
    alloc: Global,
    level: Level,
    limits: &Limits,
    lines: &[Line],
    text: &[u8],
) -> Result<Option<Verdicts>, OutOfMemory> {
    let report = match parse_report(alloc, text, 2) {
        Ok(report) => report,
        Err(ReportFault::Bad { .. }) => return Ok(None),
        Err(ReportFault::OutOfMemory) => return Err(OutOfMemory),
    };
    let run = Run {
        lines,
        replies: report.replies.items(),
        stamps: report.history.items(),
    };
    let plain = run.is_legal(alloc, level, limits)?;
    match is_legal(alloc, level, limits, lines, &report)? {
        Some(fast) => Ok(Some(Verdicts { plain, fast })),
        None => Ok(None),
    }
}

/// How many texts with one byte changed were read as reports, and how many of these are legal.
#[derive(Clone, Copy)]
struct Changed {
    read: u64,
    legal: u64,
}

impl Changed {
    /// Judges a text with each byte changed in turn, to a digit, a space, a newline, or a byte of the text.
    fn judge_all(
        &mut self,
        rt: &impl Abort,
        alloc: Global,
        level: Level,
        limits: &Limits,
        lines: &[Line],
        text: &[u8],
        drawer: &mut Drawer,
    ) -> Result<(), OutOfMemory> {
        for place in 0..text.len() {
            let byte = match drawer.draw(6) {
                0 => b' ',
                1 => b'\n',
                2 => b'9',
                3 => b'0',
                4 => b'1',
                _ => *text
                    .get(drawer.draw(text.len() as u64) as usize)
                    .unwrap_or(&b'2'),
            };
            let changed = with_byte(alloc, text, place, byte)?;
            if let Some(verdicts) = judge_text(alloc, level, limits, lines, changed.as_slice())? {
                assert_eq!(rt; verdicts.plain, verdicts.fast);
                self.read = self.read.wrapping_add(1);
                self.legal = self.legal.wrapping_add(u64::from(verdicts.fast));
            }
        }
        Ok(())
    }
}

/// Draws reports, and judges the texts of the legal ones with each byte changed in turn. It answers how many were legal.
fn judge_changed(
    rt: &impl Abort,
    alloc: Global,
    level: Level,
    counts: &mut Changed,
) -> Result<u64, OutOfMemory> {
    let mut legal_ones = 0u64;
    for seed in 1..31u64 {
        let mut drawer = Drawer {
            seed: seed.wrapping_mul(104729),
        };
        let limits = drawer.draw_limits();
        let drawn = draw(alloc, level, &limits, &mut drawer)?;
        let Drawn {
            lines,
            replies,
            stamps,
        } = drawn;
        let report = Report {
            replies: Replies::from_items(replies),
            history: Stamps::from_items(stamps),
        };
        let text = print_report(alloc, &report)?;
        let is_legal = Some(Verdicts {
            plain: true,
            fast: true,
        });
        if judge_text(alloc, level, &limits, lines.as_slice(), text.as_bytes())? == is_legal {
            legal_ones = legal_ones.wrapping_add(1);
            counts.judge_all(
                rt,
                alloc,
                level,
                &limits,
                lines.as_slice(),
                text.as_bytes(),
                &mut drawer,
            )?;
        }
    }
    Ok(legal_ones)
}

#[test]
fn legal_drawn_reports_with_one_byte_changed_are_judged_as_the_plain_checker_judges(
    rt: HostRuntime,
) -> Result<(), Fail> {
    for level in [Level::Snapshot, Level::Serializable] {
        let mut counts = Changed { read: 0, legal: 0 };
        let legal_ones = judge_changed(&rt, rt.alloc(), level, &mut counts)?;
        // Some changes leave a report, some of these a legal one, and some an illegal one.
        assert!(rt;
            legal_ones > 5 && counts.legal > 50 && counts.read > counts.legal.wrapping_add(50)
        );
    }
    Ok(())
}
