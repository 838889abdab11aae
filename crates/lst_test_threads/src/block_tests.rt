//! A phase of more lines than a block has, whose replies are put in order by two threads.

use crate::work_tests::{Opened, lines_fit, open_all};
use lst_layout::Limits;
use lst_model::{Call, Cause, Line, Reply};
use lst_script::Script;
use lst_work::{Gate, work_on};
use std::alloc::Global;
use std::sync::atomic::{AtomicU64, Ordering};
use std::test::Fail;

/// One range, and two sessions.
const PAIR: Limits = Limits {
    columns: 2,
    ranges: 1,
    tails: 1,
    sessions: 2,
    txns: 1,
    spare: 1,
    indexed: 0,
};

/// How many lines the phase has. A block has 32,768.
const LINES: usize = 40_000;

/// The session that a line is of, by its place from 0 on, or None where it is a merge.
fn session_at(place: usize) -> Option<u32> {
    if place % 9_973 == 500 {
        None
    } else if place % 3 == 0 || place % 7 == 0 {
        Some(0)
    } else {
        Some(1)
    }
}

/// Session 0 begins and gets a key that isn't there, again and again; session 1 asks for it without a transaction, and there are some merges between.
fn script(alloc: Global) -> Result<Script, Fail> {
    let mut lines = Script::new(alloc);
    for place in 0..LINES {
        lines.push(match session_at(place) {
            None => Line::Merge {
                range: 0,
                column: 1,
            },
            Some(session) => Line::Call {
                session,
                call: if place == 0 {
                    Call::Begin
                } else {
                    Call::Get { key: 5 }
                },
            },
        })?;
    }
    Ok(lines)
}

/// Whether this is the reply to the line at a place.
fn is_reply_at(place: usize, speaker: Option<u32>, reply: &Reply) -> bool {
    if speaker != session_at(place) {
        return false;
    }
    match reply {
        Reply::Begun { time } => place == 0 && *time == 0,
        Reply::Absent => place > 0 && speaker == Some(0),
        Reply::Refused { cause } => *cause == Cause::Idle && speaker == Some(1),
        Reply::NothingNew { tps } => *tps == 0 && speaker.is_none(),
        _ => false,
    }
}

/// How often the gate was passed by the session of the line that has the place which it was told, from 1 on. The merge worker is session 2.
#[derive(Drop)]
struct Passes {
    right: AtomicU64,
}

impl Gate for Passes {
    fn at(&self, session: u32, line: u64, _after: bool) {
        let place = line.wrapping_sub(1) as usize;
        if session_at(place).unwrap_or(2) == session {
            self.right.fetch_add(1, Ordering::SeqCst);
        }
    }
}

#[test]
fn a_phase_of_two_blocks_is_answered_in_the_order_of_its_lines(
    rt: HostRuntime,
) -> Result<(), Fail> {
    let alloc = rt.alloc();
    let Opened {
        store,
        sessions,
        mut merger,
    } = open_all(alloc, &PAIR)?;
    let script = script(alloc)?;
    if !lines_fit(&PAIR, &script) {
        return Err(Fail::from("each line fits the limits"));
    }
    let passes = Passes {
        right: AtomicU64::new(0),
    };
    let (_, replies) = work_on(&rt, alloc, &store, sessions, &mut merger, &script, &passes)?;
    assert_eq!(rt; passes.right.load(Ordering::SeqCst), 2 * LINES as u64);
    assert_eq!(rt; replies.len(), LINES);
    let mut right = 0usize;
    for (place, (speaker, reply)) in replies.items().iter().enumerate() {
        if is_reply_at(place, *speaker, reply) {
            right = right.wrapping_add(1);
        }
    }
    assert_eq!(rt; right, LINES);
    Ok(())
}
