//! What the calls answer, as replies.
ghost use Rattle.std.specs.Prelude.{◌≡◌};
ghost use Rattle.lst_session.specs.Replies as replies;

use crate::kinds::{Merge, Outcome, WriteRefusal};
use lst_model::{Cause, Reply, Row, Time};
use lst_txn::{BeginFault as BeginRefusal, Idle as NotBegun};

fn refused(cause: Cause) -> Reply
    ensures { result ≡ Reply.Refused cause }
{
    Reply::Refused { cause }
}

/// The reply to a begin or an as-of.
pub(crate) fn begin_reply(answer: Result<Time, BeginRefusal>) -> Reply
    ensures { result ≡ replies.begin_reply answer }
{
    match answer {
        Ok(time) => Reply::Begun { time },
        Err(BeginRefusal::Active) => refused(Cause::Active),
        Err(BeginRefusal::Spent) => refused(Cause::Spent),
        Err(BeginRefusal::Future { clock }) => refused(Cause::Future { clock }),
    }
}

/// The reply to a read.
pub(crate) fn get_reply(answer: Result<Option<Row>, NotBegun>) -> Reply
    ensures { result ≡ replies.get_reply answer }
{
    match answer {
        Ok(Some(row)) => Reply::Row { row },
        Ok(None) => Reply::Absent,
        Err(NotBegun) => refused(Cause::Idle),
    }
}

fn write_cause(refusal: WriteRefusal) -> Cause
    ensures { result ≡ replies.write_cause refusal }
{
    match refusal {
        WriteRefusal::Idle => Cause::Idle,
        WriteRefusal::ReadOnly => Cause::ReadOnly,
        WriteRefusal::Missing => Cause::Missing,
        WriteRefusal::Exists => Cause::Exists,
        WriteRefusal::TableFull => Cause::TableFull,
        WriteRefusal::Latched => Cause::Latched,
        WriteRefusal::Newer { time } => Cause::Newer { time },
        WriteRefusal::Unfinished { session, number } => Cause::Unfinished { session, number },
        WriteRefusal::TailFull => Cause::TailFull,
    }
}

/// The reply to a write.
pub(crate) fn write_reply(answer: Result<(), WriteRefusal>) -> Reply
    ensures { result ≡ replies.write_reply answer }
{
    match answer {
        Ok(()) => Reply::Done,
        Err(refusal) => refused(write_cause(refusal)),
    }
}

/// The reply to a commit.
pub fn commit_reply(answer: Result<Outcome, NotBegun>) -> Reply
    ensures { result ≡ replies.commit_reply answer }
{
    match answer {
        Ok(Outcome::Committed { time }) => Reply::Committed { time },
        Ok(Outcome::Ended { time }) => Reply::Ended { time },
        Err(NotBegun) => refused(Cause::Idle),
    }
}

/// The reply to a merge.
pub fn merge_reply(answer: Merge) -> Reply
    ensures { result ≡ replies.merge_reply answer }
{
    match answer {
        Merge::Merged { tps } => Reply::Merged { tps },
        Merge::Idle { tps } => Reply::NothingNew { tps },
        Merge::NoFrame { session } => Reply::NoFrame { session },
    }
}

/// The reply to an abort.
pub(crate) fn abort_reply(answer: Result<(), NotBegun>) -> Reply
    ensures { result ≡ replies.abort_reply answer }
{
    match answer {
        Ok(()) => Reply::Aborted,
        Err(NotBegun) => refused(Cause::Idle),
    }
}
