//! The lines of a script with the replies of a report.
ghost use Rattle.std.specs.Prelude.{◌≡◌, ◌↔◌, IsTrue, IfOk, is_some};
ghost use Rattle.lst_replies.specs.ReplyKinds.{is_begin_cause, is_write_cause, begins, is_get, is_sum, is_count, is_scan, is_find, is_commit, is_abort, can_refuse, can_answer, can_answer_merge, can_answer_line, AnswersLine, HaveReplyShape};
ghost use Rattle.lst_replies.specs.Runs.{is_phase, speaker_of, write_of, run_of};
ghost use Rattle.lst_replies.specs.Seen.{seen_all};

use lst_model::{Call, Cause, Line, OutOfMemory, Reply};
use std::alloc::Global;

/// A line with the reply to it; the end of a phase has none.
#[derive(Clone, Copy)]
pub enum Answer<'a> {
    Phase,
    Merge {
        range: u32,
        column: u32,
        reply: &'a Reply,
    },
    Call {
        session: u32,
        call: &'a Call,
        reply: &'a Reply,
    },
}

/// Whether a report's replies are one for each line but the ends of phases, in order, each of a kind that answers its
/// line, and with its session.
pub fn has_reply_shape(lines: &[Line], replies: &[(Option<u32>, Reply)]) -> bool
    ensures { IsTrue result ↔ HaveReplyShape lines.now replies.now }
{
    let mut rest = replies;
    for line in lines {
        if is_phase(line) {
            continue;
        }
        let Some((reply, others)) = rest.split_first() else {
            return false;
        };
        if !answers_line(line, reply) {
            return false;
        }
        rest = others;
    }
    rest.is_empty()
}

fn is_phase(line: &Line) -> bool
    ensures { result ≡ is_phase line.now }
{
    matches!(line, Line::Phase)
}

fn answers_line(line: &Line, reply: &(Option<u32>, Reply)) -> bool
    ensures { IsTrue result ↔ AnswersLine line.now reply.now }
{
    speaker_of(line) == reply.0 && can_answer_line(line, &reply.1)
}

fn speaker_of(line: &Line) -> Option<u32>
    ensures { result ≡ speaker_of line.now }
{
    match line {
        Line::Call { session, .. } => Some(*session),
        _ => None,
    }
}

fn can_answer_line(line: &Line, reply: &Reply) -> bool
    ensures { result ≡ can_answer_line line.now reply.now }
{
    match line {
        Line::Phase => false,
        Line::Merge { .. } => can_answer_merge(reply),
        Line::Call { call, .. } => can_answer(call, reply),
    }
}

fn can_answer_merge(reply: &Reply) -> bool
    ensures { result ≡ can_answer_merge reply.now }
{
    match reply {
        Reply::Merged { .. } | Reply::NothingNew { .. } | Reply::NoFrame { .. } => true,
        _ => false,
    }
}

fn can_answer(call: &Call, reply: &Reply) -> bool
    ensures { result ≡ can_answer call.now reply.now }
{
    match reply {
        Reply::Begun { .. } => begins(call),
        Reply::Done => is_write(call),
        Reply::Row { .. } | Reply::Absent => is_get(call),
        Reply::Committed { .. } | Reply::Ended { .. } => is_commit(call),
        Reply::Aborted => is_abort(call),
        Reply::Sum { .. } => is_sum(call),
        Reply::Count { .. } => is_count(call),
        Reply::Rows { .. } => is_scan(call),
        Reply::Keys { .. } => is_find(call),
        Reply::Refused { cause } => can_refuse(call, cause),
        _ => false,
    }
}

pub(crate) fn begins(call: &Call) -> bool
    ensures { result ≡ begins call.now }
{
    match call {
        Call::Begin | Call::AsOf { .. } => true,
        _ => false,
    }
}

pub(crate) fn is_write(call: &Call) -> bool
    ensures { result ≡ is_some (write_of call.now) }
{
    match call {
        Call::Insert { .. } | Call::Update { .. } | Call::Delete { .. } => true,
        _ => false,
    }
}

fn is_get(call: &Call) -> bool
    ensures { result ≡ is_get call.now }
{
    match call {
        Call::Get { .. } => true,
        _ => false,
    }
}

fn is_commit(call: &Call) -> bool
    ensures { result ≡ is_commit call.now }
{
    match call {
        Call::Commit => true,
        _ => false,
    }
}

fn is_abort(call: &Call) -> bool
    ensures { result ≡ is_abort call.now }
{
    match call {
        Call::Abort => true,
        _ => false,
    }
}

fn is_sum(call: &Call) -> bool
    ensures { result ≡ is_sum call.now }
{
    match call {
        Call::Sum { .. } => true,
        _ => false,
    }
}

fn is_count(call: &Call) -> bool
    ensures { result ≡ is_count call.now }
{
    match call {
        Call::Count => true,
        _ => false,
    }
}

fn is_scan(call: &Call) -> bool
    ensures { result ≡ is_scan call.now }
{
    match call {
        Call::Scan => true,
        _ => false,
    }
}

fn is_find(call: &Call) -> bool
    ensures { result ≡ is_find call.now }
{
    match call {
        Call::Find { .. } => true,
        _ => false,
    }
}

fn can_refuse(call: &Call, cause: &Cause) -> bool
    ensures { result ≡ can_refuse call.now cause.now }
{
    match call {
        Call::Begin => is_begin_cause(cause),
        Call::AsOf { .. } => is_begin_cause(cause) || matches!(cause, Cause::Future { .. }),
        Call::Insert { .. } => is_write_cause(cause)
            || matches!(cause, Cause::Exists | Cause::TableFull),
        Call::Update { .. } | Call::Delete { .. } => is_write_cause(cause)
            || matches!(cause, Cause::Missing),
        Call::Find { .. } => matches!(cause, Cause::Idle | Cause::NotIndexed),
        Call::Commit => matches!(cause, Cause::Idle | Cause::Stale { .. }),
        _ => matches!(cause, Cause::Idle),
    }
}

fn is_begin_cause(cause: &Cause) -> bool
    ensures { result ≡ is_begin_cause cause.now }
{
    match cause {
        Cause::Active | Cause::Spent => true,
        _ => false,
    }
}

fn is_write_cause(cause: &Cause) -> bool
    ensures { result ≡ is_write_cause cause.now }
{
    match cause {
        Cause::Idle
        | Cause::ReadOnly
        | Cause::Latched
        | Cause::Newer { .. }
        | Cause::Unfinished { .. }
        | Cause::TailFull => true,
        _ => false,
    }
}

/// Each line with its reply, in order, as far as there are replies.
pub fn paired<'a>(
    alloc: Global,
    lines: &'a [Line],
    replies: &'a [(Option<u32>, Reply)],
) -> Result<Vec<Answer<'a>>, OutOfMemory>
    ensures { IfOk result (λ run. seen_all run.items ≡ run_of lines.now replies.now) }
{
    let mut run = Vec::new(alloc);
    let mut rest = replies;
    for line in lines {
        match line {
            Line::Phase => run.push(Answer::Phase)?,
            Line::Merge { range, column } => {
                let Some((told, others)) = rest.split_first() else {
                    return Ok(run);
                };
                run.push(Answer::Merge {
                    range: *range,
                    column: *column,
                    reply: &told.1,
                })?;
                rest = others;
            }
            Line::Call { session, call } => {
                let Some((told, others)) = rest.split_first() else {
                    return Ok(run);
                };
                run.push(Answer::Call {
                    session: *session,
                    call,
                    reply: &told.1,
                })?;
                rest = others;
            }
        }
    }
    Ok(run)
}
