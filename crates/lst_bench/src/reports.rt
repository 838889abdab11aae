//! What becomes of reports.

use crate::making::{Made, make};
use lst_layout::Limits;
use lst_legal::{Level, are_sessions_below, legal_at};
use lst_model::{OutOfMemory, Text};
use lst_report::{parse_report, print_report};
use std::alloc::Global;

/// The limits under which the reports are legal.
const LIMITS: Limits = Limits {
    columns: 2,
    ranges: 4,
    tails: 16_384,
    sessions: 4,
    txns: 65_535,
    spare: 8,
    indexed: 1,
};

/// What is done with a report once it is made.
#[derive(Clone, Copy)]
pub enum Task {
    Make,
    Print,
    Read,
    Judge { level: Level },
}

/// Makes a script that fills the rows and then has about so many lines, with its report, and does the task. It answers the number of
/// lines, or of the text's bytes, or of the replies that were read, or 1 for a report that is legal at a level.
pub fn reports(alloc: Global, task: Task, lines: u32) -> Result<u64, OutOfMemory> {
    let made = make(alloc, lines)?;
    match task {
        Task::Make => Ok(made.lines.len() as u64),
        Task::Print => Ok(print_report(alloc, &made.report)?.as_bytes().len() as u64),
        Task::Read => read(alloc, &print_report(alloc, &made.report)?),
        Task::Judge { level } => judge(alloc, level, &made),
    }
}

fn read(alloc: Global, text: &Text) -> Result<u64, OutOfMemory> {
    match parse_report(alloc, text.as_bytes(), LIMITS.columns) {
        Ok(report) => Ok(report.replies.len() as u64),
        Err(_) => Ok(0),
    }
}

fn judge(alloc: Global, level: Level, made: &Made) -> Result<u64, OutOfMemory> {
    if !are_sessions_below(LIMITS.sessions, made.lines.as_slice()) {
        return Ok(0);
    }
    let is_legal = legal_at(alloc, level, &LIMITS, made.lines.as_slice(), &made.report)?;
    Ok(is_legal as u64)
}
