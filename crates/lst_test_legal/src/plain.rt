//! A plain, slow checker of reports: each rule is written down anew, with no maps. A table is folded from the start at each
//! read, and each condition walks the whole run.

use crate::plain_replies::{can_answer, key_of, lacks_index, tells};
use lst_layout::Limits;
use lst_legal_runs::Level;
use lst_model::{Act, Call, Cause, Line, OutOfMemory, Reply, Table, Time, Write, apply};
use lst_replies::Stamp;
use std::alloc::Global;

/// The keys of a drawn script are below this.
pub(crate) const KEYS: u64 = 4;

/// The lines of a script, and a report. A place is the number of lines before a line.
#[derive(Clone, Copy)]
pub(crate) struct Run<'a> {
    pub(crate) lines: &'a [Line],
    pub(crate) replies: &'a [(Option<u32>, Reply)],
    pub(crate) stamps: &'a [Stamp],
}

/// An open transaction: where it was begun, its number and its begin, and whether it is read-only.
#[derive(Clone, Copy)]
pub(crate) struct Opened {
    pub(crate) place: usize,
    pub(crate) number: u64,
    pub(crate) begin: Time,
    pub(crate) is_read_only: bool,
}

/// The write that a call asks for, or None.
pub(crate) fn write_of(call: &Call) -> Option<Write> {
    match call {
        Call::Insert { key, row } => Some(Write {
            key: *key,
            act: Act::Put(row.copied()),
        }),
        Call::Update { key, patch } => Some(Write {
            key: *key,
            act: Act::Set(patch.copied()),
        }),
        Call::Delete { key } => Some(Write {
            key: *key,
            act: Act::Del,
        }),
        _ => None,
    }
}

/// A time of the history that a reply tells.
fn time_told(reply: &Reply) -> Option<Time> {
    match reply {
        Reply::Begun { time } | Reply::Committed { time } | Reply::Ended { time } => Some(*time),
        Reply::Refused { cause } => match cause {
            Cause::Newer { time } => Some(*time),
            Cause::Future { clock } => Some(*clock),
            _ => None,
        },
        _ => None,
    }
}

pub(crate) fn cause_of(reply: &Reply) -> Option<Cause> {
    match reply {
        Reply::Refused { cause } => Some(*cause),
        _ => None,
    }
}

impl<'a> Run<'a> {
    // ---- what stands at a place

    pub(crate) fn line(&self, place: usize) -> Option<&'a Line> {
        self.lines.get(place)
    }

    pub(crate) fn is_phase(&self, place: usize) -> bool {
        match self.line(place) {
            Some(Line::Phase) => true,
            _ => false,
        }
    }

    pub(crate) fn call(&self, place: usize) -> Option<&'a Call> {
        match self.line(place) {
            Some(Line::Call { session: _, call }) => Some(call),
            _ => None,
        }
    }

    pub(crate) fn speaker(&self, place: usize) -> Option<u32> {
        match self.line(place) {
            Some(Line::Call { session, call: _ }) => Some(*session),
            _ => None,
        }
    }

    pub(crate) fn is_by(&self, session: u32, place: usize) -> bool {
        match self.speaker(place) {
            Some(other) => other == session,
            None => false,
        }
    }

    /// The reply to a line; the end of a phase has none.
    pub(crate) fn reply(&self, place: usize) -> Option<&'a Reply> {
        if self.is_phase(place) || place >= self.lines.len() {
            return None;
        }
        let mut told = 0usize;
        for before in 0..place {
            if !self.is_phase(before) {
                told = told.wrapping_add(1);
            }
        }
        match self.replies.get(told) {
            Some(answer) => Some(&answer.1),
            None => None,
        }
    }

    fn write(&self, place: usize) -> Option<Write> {
        write_of(self.call(place)?)
    }

    pub(crate) fn key(&self, place: usize) -> Option<u64> {
        key_of(self.call(place)?)
    }

    fn is_on(&self, key: u64, place: usize) -> bool {
        match self.key(place) {
            Some(other) => other == key,
            None => false,
        }
    }

    fn is_accepted(&self, place: usize) -> bool {
        let is_done = match self.reply(place) {
            Some(Reply::Done) => true,
            _ => false,
        };
        is_done && self.key(place).is_some()
    }

    pub(crate) fn commit_time(&self, place: usize) -> Option<Time> {
        match self.reply(place) {
            Some(Reply::Committed { time }) => Some(*time),
            _ => None,
        }
    }

    /// Whether a line was refused before it could take a record.
    fn is_early(&self, place: usize) -> bool {
        match self.reply(place) {
            Some(Reply::Refused { cause }) => {
                matches!(cause, Cause::Idle | Cause::ReadOnly | Cause::TableFull)
            }
            _ => false,
        }
    }

    fn may_take_record(&self, place: usize) -> bool {
        match self.call(place) {
            Some(Call::Insert { .. }) => !self.is_early(place),
            _ => false,
        }
    }

    fn may_take_latch(&self, key: u64, place: usize) -> bool {
        let is_latched = match self.reply(place) {
            Some(Reply::Refused { cause }) => matches!(cause, Cause::Latched),
            _ => false,
        };
        self.is_on(key, place) && !is_latched && !self.is_early(place)
    }

    // ---- the state of a session before a place

    /// How many transactions the session has begun.
    pub(crate) fn begun(&self, session: u32, place: usize) -> u64 {
        let mut begun = 0u64;
        for before in 0..place {
            if self.is_by(session, before) {
                if let Some(Reply::Begun { .. }) = self.reply(before) {
                    begun = begun.wrapping_add(1);
                }
            }
        }
        begun
    }

    /// The place at which the session's open transaction was begun.
    fn opened_at(&self, session: u32, place: usize) -> Option<usize> {
        let mut opened = None;
        for before in 0..place {
            if self.is_by(session, before) {
                match self.reply(before) {
                    Some(Reply::Begun { .. }) => opened = Some(before),
                    Some(Reply::Committed { .. } | Reply::Ended { .. } | Reply::Aborted) => {
                        opened = None;
                    }
                    _ => (),
                }
            }
        }
        opened
    }

    pub(crate) fn opened(&self, session: u32, place: usize) -> Option<Opened> {
        let at = self.opened_at(session, place)?;
        let begin = match self.reply(at) {
            Some(Reply::Begun { time }) => *time,
            _ => 0,
        };
        let is_read_only = match self.call(at) {
            Some(Call::AsOf { .. }) => true,
            _ => false,
        };
        Some(Opened {
            place: at,
            number: self.begun(session, at).wrapping_add(1),
            begin,
            is_read_only,
        })
    }

    /// Whether the session wrote on a key, by an accepted write, from one place up to another.
    pub(crate) fn has_written(
        &self,
        session: u32,
        from: usize,
        to: usize,
        key: Option<u64>,
    ) -> bool {
        for place in from..to {
            if self.is_by(session, place) && self.is_accepted(place) {
                match key {
                    Some(key) if !self.is_on(key, place) => (),
                    _ => return true,
                }
            }
        }
        false
    }

    /// The greatest time that was told to a session, and of the commits in phases that have ended.
    pub(crate) fn floor(&self, session: u32, place: usize) -> Time {
        let mut floor = 0;
        for before in 0..place {
            let mut time = None;
            if self.is_by(session, before) {
                if let Some(reply) = self.reply(before) {
                    time = time_told(reply);
                }
            }
            for between in before..place {
                if self.is_phase(between) && time.is_none() {
                    time = self.commit_time(before);
                }
            }
            if let Some(time) = time {
                if time > floor {
                    floor = time;
                }
            }
        }
        floor
    }

    // ---- the history

    /// The place at which this time was told as that of a commit.
    fn commit_place(&self, time: Time) -> Option<usize> {
        for place in 0..self.lines.len() {
            if self.commit_time(place) == Some(time) {
                return Some(place);
            }
        }
        None
    }

    /// Whether the commit at a time wrote on a key, or on any.
    pub(crate) fn commit_wrote(&self, time: Time, key: u64) -> bool {
        let Some(place) = self.commit_place(time) else {
            return false;
        };
        let Some(session) = self.speaker(place) else {
            return false;
        };
        match self.opened_at(session, place) {
            Some(at) => self.has_written(session, at, place, Some(key)),
            None => false,
        }
    }

    /// Applies the accepted writes of a session from one place up to another.
    pub(crate) fn fold(
        &self,
        table: &mut Table,
        session: u32,
        from: usize,
        to: usize,
    ) -> Result<(), OutOfMemory> {
        for place in from..to {
            if self.is_by(session, place) && self.is_accepted(place) {
                if let Some(write) = self.write(place) {
                    apply(table, &write)?;
                }
            }
        }
        Ok(())
    }

    /// The table of the commits up to a time.
    pub(crate) fn table_at(&self, alloc: Global, begin: Time) -> Result<Table, OutOfMemory> {
        let mut table = Table::new(alloc);
        for earlier in 0..self.stamps.len() as u64 {
            if earlier < begin {
                if let Some(place) = self.commit_place(earlier.wrapping_add(1)) {
                    if let Some(session) = self.speaker(place) {
                        if let Some(at) = self.opened_at(session, place) {
                            self.fold(&mut table, session, at, place)?;
                        }
                    }
                }
            }
        }
        Ok(table)
    }

    /// What a session's open transaction sees before a place.
    pub(crate) fn sight(
        &self,
        alloc: Global,
        session: u32,
        place: usize,
        opened: &Opened,
    ) -> Result<Table, OutOfMemory> {
        let mut table = self.table_at(alloc, opened.begin)?;
        self.fold(&mut table, session, opened.place, place)?;
        Ok(table)
    }

    pub(crate) fn accepted(&self, place: usize) -> u64 {
        let mut count = 0u64;
        for before in 0..place {
            if self.is_accepted(before) {
                count = count.wrapping_add(1);
            }
        }
        count
    }

    /// The number last merged of a range and column before a place, or 0.
    pub(crate) fn last_merged(&self, range: u32, column: u32, place: usize) -> u32 {
        let mut last = 0;
        for before in 0..place {
            if let Some(
                Line::Merge {
                    range: other,
                    column: another,
                },
            ) = self.line(before)
            {
                if let Some(Reply::Merged { tps }) = self.reply(before) {
                    if *other == range && *another == column {
                        last = *tps;
                    }
                }
            }
        }
        last
    }

    // ---- the rules

    fn can_answer_line(&self, line: &Line, reply: &Reply) -> bool {
        match line {
            Line::Phase => false,
            Line::Merge { .. } => matches!(
                reply,
                Reply::Merged { .. } | Reply::NothingNew { .. } | Reply::NoFrame { .. }
            ),
            Line::Call { session: _, call } => can_answer(call, reply),
        }
    }

    fn has_shape(&self) -> bool {
        let mut told = 0usize;
        for place in 0..self.lines.len() {
            if !self.is_phase(place) {
                let Some(answer) = self.replies.get(told) else {
                    return false;
                };
                let Some(line) = self.line(place) else {
                    return false;
                };
                if answer.0 != self.speaker(place) || !self.can_answer_line(line, &answer.1) {
                    return false;
                }
                told = told.wrapping_add(1);
            }
        }
        told == self.replies.len()
    }

    /// Whether a commit is told at its time, once, and with its session, number and begin.
    fn is_entered(&self, place: usize) -> bool {
        let Some(time) = self.commit_time(place) else {
            return true;
        };
        let Some(session) = self.speaker(place) else {
            return false;
        };
        let Some(opened) = self.opened(session, place) else {
            return false;
        };
        if time == 0 || self.commit_place(time) != Some(place) {
            return false;
        }
        match self.stamps.get(time.wrapping_sub(1) as usize) {
            Some(stamp) => {
                stamp.session == session
                    && u64::from(stamp.number) == opened.number
                    && stamp.begin == opened.begin
            }
            None => false,
        }
    }

    /// Whether two commits wrote on one key.
    fn are_on_one_key(&self, earlier: Time, later: Time) -> bool {
        for key in 0..KEYS {
            if self.commit_wrote(earlier, key) && self.commit_wrote(later, key) {
                return true;
            }
        }
        false
    }

    /// Whether the commit at a time may stand behind those before it.
    fn may_follow(&self, time: Time) -> bool {
        let Some(own) = self.stamps.get(time.wrapping_sub(1) as usize) else {
            return false;
        };
        if own.begin >= time || self.commit_place(time).is_none() {
            return false;
        }
        for earlier in 1..time {
            if let Some(other) = self.stamps.get(earlier.wrapping_sub(1) as usize) {
                if other.session == own.session && other.number >= own.number {
                    return false;
                }
            }
            if own.begin < earlier && self.are_on_one_key(earlier, time) {
                return false;
            }
        }
        true
    }

    fn has_history(&self) -> bool {
        for place in 0..self.lines.len() {
            if !self.is_entered(place) {
                return false;
            }
        }
        for earlier in 0..self.stamps.len() as u64 {
            if !self.may_follow(earlier.wrapping_add(1)) {
                return false;
            }
        }
        true
    }

    fn is_time_bounded(&self, session: u32, place: usize, call: &Call, reply: &Reply) -> bool {
        let floor = self.floor(session, place);
        let last = self.stamps.len() as u64;
        match (call, reply) {
            (Call::Begin, Reply::Begun { time }) => floor <= *time && *time <= last,
            (Call::AsOf { time: named }, Reply::Begun { time }) => *time == *named && *time <= last,
            (Call::AsOf { time: named }, Reply::Refused { cause }) => match cause {
                Cause::Future { clock } => floor <= *clock && *clock <= last && *clock < *named,
                _ => true,
            },
            (_, Reply::Committed { time }) => floor < *time,
            _ => true,
        }
    }

    /// The cause for which the session's state alone refuses a call.
    pub(crate) fn state_cause(
        &self,
        limits: &Limits,
        session: u32,
        place: usize,
        call: &Call,
    ) -> Option<Cause> {
        let opened = self.opened(session, place);
        let begins = matches!(call, Call::Begin | Call::AsOf { .. });
        match opened {
            Some(_) if begins => Some(Cause::Active),
            Some(opened) if opened.is_read_only && key_of(call).is_some() => Some(Cause::ReadOnly),
            Some(_) => None,
            None if !begins => Some(Cause::Idle),
            None if self.begun(session, place) >= u64::from(limits.txns) => Some(Cause::Spent),
            None => None,
        }
    }

    fn is_state_told(
        &self,
        level: Level,
        limits: &Limits,
        session: u32,
        place: usize,
        call: &Call,
        reply: &Reply,
    ) -> bool {
        let wanted = self.state_cause(limits, session, place, call);
        let told = match cause_of(reply) {
            Some(Cause::Idle) => Some(Cause::Idle),
            Some(Cause::Active) => Some(Cause::Active),
            Some(Cause::ReadOnly) => Some(Cause::ReadOnly),
            Some(Cause::Spent) => Some(Cause::Spent),
            _ => None,
        };
        if told != wanted {
            return false;
        }
        match (self.opened(session, place), call) {
            (Some(opened), Call::Commit) => {
                if self.has_written(session, opened.place, place, None) {
                    self.is_committed_told(level, place)
                } else {
                    match reply {
                        Reply::Ended { time } => *time == opened.begin,
                        _ => false,
                    }
                }
            }
            _ => true,
        }
    }

    fn is_conflict_explained(&self, session: u32, begin: Time, key: u64, cause: Cause) -> bool {
        match cause {
            Cause::Latched => {
                for place in 0..self.lines.len() {
                    if !self.is_by(session, place) && self.may_take_latch(key, place) {
                        return true;
                    }
                }
                false
            }
            Cause::Unfinished {
                session: other,
                number,
            } => other != session && self.is_in_the_way(begin, key, other, u64::from(number)),
            Cause::Newer { time } => begin < time && self.commit_wrote(time, key),
            _ => true,
        }
    }

    fn is_in_the_way(&self, begin: Time, key: u64, other: u32, number: u64) -> bool {
        for earlier in 0..self.stamps.len() {
            if let Some(stamp) = self.stamps.get(earlier) {
                let is_it = stamp.session == other && u64::from(stamp.number) == number;
                if is_it && (earlier as u64) < begin {
                    return false;
                }
            }
        }
        for place in 0..self.lines.len() {
            if self.is_by(other, place) && self.is_accepted(place) && self.is_on(key, place) {
                if let Some(opened) = self.opened(other, place) {
                    if opened.number == number {
                        return true;
                    }
                }
            }
        }
        false
    }

    fn is_fullness_explained(
        &self,
        limits: &Limits,
        session: u32,
        place: usize,
        begin: Time,
        key: u64,
        cause: Cause,
    ) -> bool {
        match cause {
            Cause::TailFull => u64::from(limits.tails) <= self.accepted(self.lines.len()),
            Cause::TableFull => {
                for earlier in 0..self.stamps.len() as u64 {
                    if earlier < begin && self.commit_wrote(earlier.wrapping_add(1), key) {
                        return false;
                    }
                }
                let mut taken = 0u64;
                for other in 0..self.lines.len() {
                    if self.may_take_record(other) {
                        taken = taken.wrapping_add(1);
                    }
                }
                !self.has_written(session, 0, place, Some(key))
                    && u64::from(limits.ranges).wrapping_mul(256) <= taken
            }
            _ => true,
        }
    }

    /// Whether the reply to a write of an open transaction follows the rules.
    fn is_write_answered(
        &self,
        limits: &Limits,
        session: u32,
        place: usize,
        opened: &Opened,
        sight: &Table,
    ) -> bool {
        let (Some(write), Some(reply)) = (self.write(place), self.reply(place)) else {
            return true;
        };
        let is_there = sight.row(write.key).is_some();
        match reply {
            Reply::Done => match write.act {
                Act::Put(_) => !is_there,
                _ => is_there,
            },
            Reply::Refused { cause } => match cause {
                Cause::Exists => is_there,
                Cause::Missing => !is_there,
                other => {
                    self.is_conflict_explained(session, opened.begin, write.key, *other)
                        && self.is_fullness_explained(
                            limits,
                            session,
                            place,
                            opened.begin,
                            write.key,
                            *other,
                        )
                }
            },
            _ => true,
        }
    }

    fn is_merge_answered(
        &self,
        limits: &Limits,
        range: u32,
        column: u32,
        place: usize,
        reply: &Reply,
    ) -> bool {
        let last = self.last_merged(range, column, place);
        match reply {
            Reply::Merged { tps } => {
                last < *tps && u64::from(*tps) <= self.accepted(self.lines.len())
            }
            Reply::NothingNew { tps } => *tps == last,
            Reply::NoFrame { session } => {
                let mut merged = 0u32;
                for before in 0..place {
                    if let Some(Reply::Merged { .. }) = self.reply(before) {
                        merged = merged.wrapping_add(1);
                    }
                }
                limits.spare <= merged && self.begun(*session, self.lines.len()) > 0
            }
            _ => true,
        }
    }

    fn is_call_answered(
        &self,
        alloc: Global,
        level: Level,
        limits: &Limits,
        session: u32,
        place: usize,
        call: &Call,
        reply: &Reply,
    ) -> Result<bool, OutOfMemory> {
        if !self.is_time_bounded(session, place, call, reply)
            || !self.is_state_told(level, limits, session, place, call, reply)
        {
            return Ok(false);
        }
        let opened = self.opened(session, place);
        let is_refused = match cause_of(reply) {
            Some(Cause::NotIndexed) => true,
            _ => false,
        };
        if is_refused != (opened.is_some() && lacks_index(limits, call)) {
            return Ok(false);
        }
        let Some(opened) = opened else {
            return Ok(true);
        };
        let sight = self.sight(alloc, session, place, &opened)?;
        Ok(
            tells(&sight, call, reply)
                && self.is_write_answered(limits, session, place, &opened, &sight),
        )
    }

    fn is_answered(
        &self,
        alloc: Global,
        level: Level,
        limits: &Limits,
        place: usize,
    ) -> Result<bool, OutOfMemory> {
        let (Some(line), Some(reply)) = (self.line(place), self.reply(place)) else {
            return Ok(true);
        };
        match line {
            Line::Phase => Ok(true),
            Line::Merge { range, column } => {
                Ok(self.is_merge_answered(limits, *range, *column, place, reply))
            }
            Line::Call { session, call } => {
                self.is_call_answered(alloc, level, limits, *session, place, call, reply)
            }
        }
    }

    /// Whether the report is legal at a level.
    pub(crate) fn is_legal(
        &self,
        alloc: Global,
        level: Level,
        limits: &Limits,
    ) -> Result<bool, OutOfMemory> {
        if !self.has_shape() || !self.has_history() {
            return Ok(false);
        }
        for place in 0..self.lines.len() {
            if !self.is_answered(alloc, level, limits, place)? {
                return Ok(false);
            }
            if !self.is_of_level(alloc, level, place)? {
                return Ok(false);
            }
        }
        Ok(true)
    }
}
