//! The lines of a session by its level of isolation.
ghost use Rattle.std.specs.Prelude.{◌≡◌, IfOk};
ghost use Rattle.lst_model.specs.declared.lines.Call.TheVariants as calls;
ghost use Rattle.lst_model.specs.Lines.{CallFits};
ghost use Rattle.lst_session.specs.Passes.{IsReady};
ghost use Rattle.lst_work_laws.specs.Keeping.{LineEnds, LineReads};
ghost use Rattle.lst_work_laws.specs.Lines.{AfterLine};
ghost use Rattle.lst_work.specs.Reads.{is_commit, end_reply, EndsRead, pass_of};

use crate::lines::line_reply;
use crate::reads::Reads;
use lst_legal_runs::Level;
use lst_model::{Call, Cause, OutOfMemory, Reply};
use lst_rule::Store;
use lst_serial::{SerialEnd, end_at_last};
use lst_session::{CommitLock, Outcome, Session};
use std::alloc::Global;
use std::sync::Wait;

/// The reply that tells how a transaction ended, or that it was found stale.
fn end_reply(end: Result<Outcome, SerialEnd>) -> Reply
    ensures { result ≡ end_reply end }
{
    match end {
        Ok(Outcome::Committed { time }) => Reply::Committed { time },
        Ok(Outcome::Ended { time }) => Reply::Ended { time },
        Err(SerialEnd::Idle) => Reply::Refused { cause: Cause::Idle },
        Err(SerialEnd::Stale { time }) => Reply::Refused {
            cause: Cause::Stale { time },
        },
    }
}

/// The reply to a commit of a session that has read this. It waits while the commit word is held.
fn serial_end<R: Wait>(
    rt: &R,
    store: &Store,
    session: &mut Session,
    reads: &Reads,
    lock: &CommitLock,
) -> Reply
    requires ready { IsReady store.now session.old }
    ensures ready { IsReady store.now session.new }
    ensures number { session.new.number ≡ session.old.number }
    ensures after { AfterLine session.old.number calls.Commit result session.old.seat.view session.new.seat.view }
    ensures ends { EndsRead session.old.seat.view session.new.seat.view session.old.number reads.now.keys reads.now.all result }
{
    session.seat.consider();
    if session.is_idle() {
        return Reply::Refused { cause: Cause::Idle };
    }
    end_reply(end_at_last(rt, session, store, lock, &reads.keys, reads.all))
}

/// Whether a call is a commit.
fn is_commit(call: &Call) -> bool
    ensures { result ≡ is_commit call.now }
{
    match call {
        Call::Commit => true,
        _ => false,
    }
}

/// The reply to a call, and a commit's by what the session has read.
fn serial_reply<R: Wait>(
    rt: &R,
    alloc: Global,
    store: &Store,
    session: &mut Session,
    reads: &Reads,
    lock: &CommitLock,
    call: &Call,
) -> Result<Reply, OutOfMemory>
    requires ready { IsReady store.now session.old }
    requires fits { CallFits session.old.seat.view.limits.columns call.now }
    ensures ready { IsReady store.now session.new }
    ensures number { session.new.number ≡ session.old.number }
    ensures after { IfOk result (λ reply. AfterLine session.old.number call.now reply session.old.seat.view session.new.seat.view) }
    ensures ends { IfOk result (λ reply. EndsRead session.old.seat.view session.new.seat.view session.old.number reads.now.keys reads.now.all reply) }
{
    if is_commit(call) {
        return Ok(serial_end(rt, store, session, reads, lock));
    }
    line_reply(rt, alloc, store, session, lock, call)
}

/// The reply to a call of the session at the serializable level, and what the session keeps of its reads then. The key that the call names joins first, also
/// where the call is refused; all keys join only where the reply was read off the whole table, so that a find in a column without an index joins none.
fn serial_line<R: Wait>(
    rt: &R,
    alloc: Global,
    store: &Store,
    session: &mut Session,
    reads: &mut Reads,
    lock: &CommitLock,
    call: &Call,
) -> Result<Reply, OutOfMemory>
    requires ready { IsReady store.now session.old }
    requires fits { CallFits session.old.seat.view.limits.columns call.now }
    ensures ready { IsReady store.now session.new }
    ensures number { session.new.number ≡ session.old.number }
    ensures after { IfOk result (λ reply. AfterLine session.old.number call.now reply session.old.seat.view session.new.seat.view) }
    ensures reads { IfOk result (λ reply. LineReads call.now reply (pass_of session.old reads.old) (pass_of session.new reads.new)) }
{
    reads.join(call)?;
    let reply = serial_reply(rt, alloc, store, session, reads, lock, call)?;
    reads.pass(&reply);
    Ok(reply)
}

/// The reply to a call of the session at a level of isolation, and what it tells by the rules of a legal report at that level. A commit waits while the
/// commit word is held. For want of memory the line is given up.
pub(crate) fn level_line<R: Wait>(
    rt: &R,
    alloc: Global,
    store: &Store,
    level: Level,
    session: &mut Session,
    reads: &mut Reads,
    lock: &CommitLock,
    call: &Call,
) -> Result<Reply, OutOfMemory>
    requires ready { IsReady store.now session.old }
    requires fits { CallFits session.old.seat.view.limits.columns call.now }
    ensures ready { IsReady store.now session.new }
    ensures number { session.new.number ≡ session.old.number }
    ensures after { IfOk result (λ reply. AfterLine session.old.number call.now reply session.old.seat.view session.new.seat.view) }
    ensures ends { IfOk result (λ reply. LineEnds level call.now reply (pass_of session.old reads.old) (pass_of session.new reads.new)) }
{
    match level {
        Level::Snapshot => line_reply(rt, alloc, store, session, lock, call),
        Level::Serializable => serial_line(rt, alloc, store, session, reads, lock, call),
    }
}
