//! How the text of a report is read.
ghost use Rattle.std.specs.Prelude.{◌≡◌, ℕ, ◌≤◌, length, take, drop, Some, IfOk, MatchResult};
ghost use Rattle.std.specs.List.{slice_split};
ghost use Rattle.lst_replies.specs.ReportTexts.{is_newline, text_lines, ends_empty, IsReportText, IsFirstFault};
ghost use Rattle.lst_replies.specs.Reading.{texts, replies_front, stamps_front, count_of, count_in, stamp_in, after_replies, after_count, report_in, Tells};
ghost use Rattle.lst_replies.specs.declared.reports.Report.{Report};
ghost use Rattle.lst_replies.specs.declared.parse.ReportFault.TheVariants as faults;

use crate::long::read_reply;
use crate::numbers::{read_u32, read_u64};
use crate::reports::{Replies, Report, Stamp, Stamps};
use crate::words::split_words;
use lst_model::OutOfMemory;
use std::alloc::{AllocError, AllocFailed, Global};

/// Why a text was not read as a report.
#[derive(Clone, Copy, Debug, PartialEq, Eq)]
pub enum ReportFault {
    /// A line can't stand in its place. It is the first such line, counted from 1, or the number after the last line where
    /// the report ends too early.
    Bad { line: u64 },
    /// A request for memory was refused.
    OutOfMemory,
}

impl From<AllocError> for ReportFault {
    ghost from_gives = { λ _ fault. fault ≡ faults.OutOfMemory };

    fn from(_error: AllocError) -> ReportFault {
        ReportFault::OutOfMemory
    }
}

impl<T: Drop> From<AllocFailed<T>> for ReportFault {
    ghost from_gives = { λ _ fault. fault ≡ faults.OutOfMemory };

    fn from(_failed: AllocFailed<T>) -> ReportFault {
        ReportFault::OutOfMemory
    }
}

impl From<OutOfMemory> for ReportFault {
    ghost from_gives = { λ _ fault. fault ≡ faults.OutOfMemory };

    fn from(_want: OutOfMemory) -> ReportFault {
        ReportFault::OutOfMemory
    }
}

/// The parts of a text between its newlines.
fn split_lines<'a>(alloc: Global, text: &'a [u8]) -> Result<Vec<&'a [u8]>, OutOfMemory>
    ensures { IfOk result (λ lines. texts lines.items ≡ slice_split is_newline text.now) }
{
    let mut lines = Vec::new(alloc);
    for line in text.split(|byte| *byte == b'\n') {
        lines.push(line)?;
    }
    Ok(lines)
}

/// The lines of a text. The last newline may be missing.
fn lines_of<'a>(alloc: Global, text: &'a [u8]) -> Result<Vec<&'a [u8]>, OutOfMemory>
    ensures { IfOk result (λ lines. texts lines.items ≡ text_lines text.now) }
{
    let mut lines = split_lines(alloc, text)?;
    if ends_empty(&lines) {
        let _ = lines.pop();
    }
    Ok(lines)
}

fn ends_empty(lines: &[&[u8]]) -> bool
    ensures { result ≡ ends_empty (texts lines.now) }
{
    match lines.last() {
        Some(line) => line.is_empty(),
        None => false,
    }
}

/// The replies with which the lines begin.
fn read_replies(alloc: Global, lines: &[&[u8]], columns: usize) -> Result<Replies, OutOfMemory>
    requires { columns ≤ 8 }
    ensures { IfOk result (λ replies. replies ≡ replies_front columns (texts lines.now)) }
{
    let mut replies = Replies::new(alloc);
    let mut words = Vec::new(alloc);
    for line in lines {
        let Some((session, reply)) = read_reply(alloc, line, columns, &mut words)? else {
            return Ok(replies);
        };
        replies.push(session, reply)?;
    }
    Ok(replies)
}

/// The number of commits that a line tells.
fn read_count(alloc: Global, line: &[u8]) -> Result<Option<u64>, OutOfMemory>
    ensures { IfOk result (λ count. count ≡ count_of line.now) }
{
    let mut words = Vec::new(alloc);
    split_words(line, &mut words)?;
    Ok(count_in(&words))
}

fn count_in(words: &[&[u8]]) -> Option<u64>
    ensures { result ≡ count_in (texts words.now) }
{
    match words {
        [name, word] if *name == b"history".as_slice() => read_u64(word),
        _ => None,
    }
}

fn stamp_in(time: u64, words: &[&[u8]]) -> Option<Stamp>
    ensures { result ≡ stamp_in time (texts words.now) }
{
    let [first, second, third, fourth] = words else {
        return None;
    };
    let mut buffer = itoa::Buffer::new();
    if *first != buffer.format(time).as_bytes() {
        return None;
    }
    let session = read_u32(second)?;
    let number = read_u32(third)?;
    let begin = read_u64(fourth)?;
    Some(Stamp {
        session,
        number,
        begin,
    })
}

/// The commits with which the lines begin, the first at time 1.
fn read_stamps(alloc: Global, lines: &[&[u8]]) -> Result<Stamps, OutOfMemory>
    ensures { IfOk result (λ stamps. stamps ≡ stamps_front (texts lines.now)) }
{
    let mut stamps = Stamps::new(alloc);
    let mut words = Vec::new(alloc);
    for (place, line) in lines.iter().enumerate() {
        split_words(line, &mut words)?;
        let Some(stamp) = stamp_in(place as u64 + 1, &words) else {
            return Ok(stamps);
        };
        stamps.push(stamp)?;
    }
    Ok(stamps)
}

/// The report that replies, and the lines behind them, are.
fn after_replies(alloc: Global, replies: Replies, lines: &[&[u8]]) -> Result<Report, ReportFault>
    ensures { Tells result (after_replies replies (texts lines.now)) }
{
    let Some((line, rest)) = lines.split_first() else {
        return Err(ReportFault::Bad {
            line: replies.len() as u64 + 1,
        });
    };
    let Some(count) = read_count(alloc, line)? else {
        return Err(ReportFault::Bad {
            line: replies.len() as u64 + 1,
        });
    };
    after_count(alloc, replies, rest, count)
}

/// The report that replies, a number of commits, and the lines behind it are.
fn after_count(
    alloc: Global,
    replies: Replies,
    lines: &[&[u8]],
    count: u64,
) -> Result<Report, ReportFault>
    ensures { Tells result (after_count replies (texts lines.now) (Some count)) }
{
    let history = read_stamps(alloc, front_of(lines, count))?;
    if history.len() as u64 == count && lines.len() as u64 == count {
        Ok(Report { replies, history })
    } else {
        Err(ReportFault::Bad {
            line: replies.len() as u64 + 2 + history.len() as u64,
        })
    }
}

/// The first lines, at most this many.
fn front_of<'a>(lines: &'a [&'a [u8]], count: u64) -> &'a [&'a [u8]]
    ensures { texts result.now ≡ take count (texts lines.now) }
{
    if (lines.len() as u64) < count {
        lines
    } else {
        &lines[..count as usize]
    }
}

/// The lines behind the first ones.
fn behind<'a>(lines: &'a [&'a [u8]], count: usize) -> &'a [&'a [u8]]
    requires { count ≤ length lines.now }
    ensures { texts result.now ≡ drop count (texts lines.now) }
{
    &lines[count..]
}

fn parse_lines(alloc: Global, lines: &[&[u8]], columns: usize) -> Result<Report, ReportFault>
    requires { columns ≤ 8 }
    ensures { Tells result (report_in columns (texts lines.now)) }
{
    let replies = read_replies(alloc, lines, columns)?;
    let rest = behind(lines, replies.len());
    after_replies(alloc, replies, rest)
}

fn parse_text(alloc: Global, text: &[u8], columns: usize) -> Result<Report, ReportFault>
    requires { columns ≤ 8 }
    ensures { Tells result (report_in columns (text_lines text.now)) }
{
    let lines = lines_of(alloc, text)?;
    parse_lines(alloc, &lines, columns)
}

/// The report that a text is, for a table with this many columns, 1 to 8. The last newline may be missing.
///
/// `Bad` tells that the text is no report's, and names the first line that can't stand in its place, counted from 1; where
/// the report ends too early it is the number after the last line. The only other error is want of memory.
pub fn parse_report(alloc: Global, bytes: &[u8], columns: u32) -> Result<Report, ReportFault>
    requires { (1 ≤ columns) × (columns ≤ 8) }

    // What is read is a report's text, each byte of it, and a report's text is read as this report.
    ensures found { IfOk result (λ report. IsReportText columns bytes.now report) }
    ensures only { (report : Report) → IsReportText columns bytes.now report
        → MatchResult result (λ read. read ≡ report) (λ fault. fault ≡ faults.OutOfMemory) }

    ensures bad { (line : ℕ) → result ≡ Err (faults.Bad line) → IsFirstFault columns bytes.now line }
{
    parse_text(alloc, bytes, columns as usize)
}
