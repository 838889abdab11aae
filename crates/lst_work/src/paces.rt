//! How far the sessions of a phase have come, so that its merges are made where they stand among the lines.
use std::sync::{Condvar, Mutex, Wait};

/// A store has at most so many sessions.
const SESSIONS: usize = 16;

/// How many merge lines each session of a phase has come past. The merge worker waits here, before each of its lines, for the sessions that haven't come
/// past it yet. That is for speed alone: no promise rests on it.
#[derive(Drop)]
pub(crate) struct Pace {
    /// By session. One that has no more lines, or isn't there, has the greatest number.
    passed: Mutex<[u64; SESSIONS]>,
    moved: Condvar,
}

impl Pace {
    /// So many sessions are at work, and none has come past a merge line.
    pub(crate) fn new(sessions: usize) -> Pace {
        let mut passed = [u64::MAX; SESSIONS];
        for count in passed.iter_mut().take(sessions) {
            *count = 0;
        }
        Pace {
            passed: Mutex::new(passed),
            moved: Condvar::new(),
        }
    }

    /// The session has come past one more merge line.
    pub(crate) fn pass<R: Wait>(&self, rt: &R, session: u32) {
        self.count(rt, session, 1);
    }

    /// The session has no more lines in this phase.
    pub(crate) fn leave<R: Wait>(&self, rt: &R, session: u32) {
        self.count(rt, session, u64::MAX);
    }

    /// Counts so many lines more of a session.
    fn count<R: Wait>(&self, rt: &R, session: u32, lines: u64) {
        if let Some(count) = self.passed.lock(rt).get_mut(session as usize) {
            *count = count.saturating_add(lines);
        }
        self.moved.notify_all();
    }

    /// Waits until each session has come past so many merge lines, or has no more lines. Nothing is promised of when that is.
    pub(crate) fn wait_for_all<R: Wait>(&self, rt: &R, lines: u64) {
        let _passed = self.moved.wait_while(rt, self.passed.lock(rt), |passed| {
            passed.iter().any(|count| *count < lines)
        });
    }
}
