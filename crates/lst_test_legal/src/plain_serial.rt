//! What the serializable level adds to the plain checker: a stale commit is explained by a walk over its transaction's lines, and a table is
//! folded from the start for each call of a transaction that commits.

use crate::plain::{Opened, Run, cause_of};
use crate::plain_replies::{key_of, tells};
use lst_legal_runs::Level;
use lst_model::{Call, Cause, Line, OutOfMemory, Reply, Time};
use std::alloc::Global;

impl<'a> Run<'a> {
    /// Whether a commit of writes has a commit's answer: at the serializable level it may be told stale.
    pub(crate) fn is_committed_told(&self, level: Level, place: usize) -> bool {
        match self.reply(place) {
            Some(Reply::Committed { .. }) => true,
            Some(Reply::Refused { cause }) => match (level, cause) {
                (Level::Serializable, Cause::Stale { .. }) => true,
                _ => false,
            },
            _ => false,
        }
    }

    /// Whether a transaction that was begun at a place may be told stale at another, for the commit at a time.
    pub(crate) fn may_be_stale(
        &self,
        session: u32,
        opened: &Opened,
        place: usize,
        time: Time,
    ) -> bool {
        if time <= opened.begin || time > self.stamps.len() as u64 {
            return false;
        }
        for before in opened.place..place {
            if self.is_by(session, before) {
                match self.reply(before) {
                    Some(
                        Reply::Sum { .. }
                        | Reply::Count { .. }
                        | Reply::Rows { .. }
                        | Reply::Keys { .. },
                    ) => return true,
                    _ => (),
                }
                let named = match self.call(before) {
                    Some(Call::Get { key }) => Some(*key),
                    _ => self.key(before),
                };
                if let Some(key) = named {
                    if self.commit_wrote(time, key) {
                        return true;
                    }
                }
            }
        }
        false
    }

    fn is_stale_explained(&self, session: u32, place: usize, reply: &Reply) -> bool {
        match (cause_of(reply), self.opened(session, place)) {
            (Some(Cause::Stale { time }), Some(opened)) => {
                self.may_be_stale(session, &opened, place, time)
            }
            _ => true,
        }
    }

    /// The time of the commit of a session's transaction of this number.
    fn time_of(&self, session: u32, number: u64) -> Option<Time> {
        for place in 0..self.lines.len() {
            if self.is_by(session, place) && self.commit_time(place).is_some() {
                if let Some(opened) = self.opened(session, place) {
                    if opened.number == number {
                        return self.commit_time(place);
                    }
                }
            }
        }
        None
    }

    /// Whether a call of a transaction that commits is answered by the table of the commits before it.
    fn is_in_place(
        &self,
        alloc: Global,
        session: u32,
        place: usize,
        call: &Call,
        reply: &Reply,
    ) -> Result<bool, OutOfMemory> {
        let Some(opened) = self.opened(session, place) else {
            return Ok(true);
        };
        let Some(time) = self.time_of(session, opened.number) else {
            return Ok(true);
        };
        let mut table = self.table_at(alloc, time.wrapping_sub(1))?;
        self.fold(&mut table, session, opened.place, place)?;
        let is_there = match key_of(call) {
            Some(key) => table.row(key).is_some(),
            None => false,
        };
        let is_told = match cause_of(reply) {
            Some(Cause::Exists) => is_there,
            Some(Cause::Missing) => !is_there,
            _ => true,
        };
        Ok(is_told && tells(&table, call, reply))
    }

    /// Whether a line follows the rules that the level adds.
    pub(crate) fn is_of_level(
        &self,
        alloc: Global,
        level: Level,
        place: usize,
    ) -> Result<bool, OutOfMemory> {
        match (level, self.line(place), self.reply(place)) {
            (Level::Serializable, Some(Line::Call { session, call }), Some(reply)) => Ok(
                self.is_stale_explained(*session, place, reply)
                    && self.is_in_place(alloc, *session, place, call, reply)?,
            ),
            _ => Ok(true),
        }
    }
}
