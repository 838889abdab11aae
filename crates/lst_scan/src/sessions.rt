//! The calls of a script, each answered by the session that makes it, whatever other sessions do meanwhile.
ghost use Rattle.std.specs.Prelude.{◌≡◌, ◌<◌, ◌≤◌, IfOk, OnErr, length, true};
ghost use Rattle.lst_machine.specs.Calls.{is_indexed};
ghost use Rattle.lst_model.specs.Lines.{CallFits};
ghost use Rattle.lst_rule.specs.Rule.{knows};
ghost use Rattle.lst_session.specs.Calls.{Called};
ghost use Rattle.lst_session.specs.Lines.{IsOpen};
ghost use Rattle.lst_session.specs.Passes.{IsReady};
ghost use Rattle.lst_scan.specs.Lines.{HasScanned, SumLeaves, CountLeaves, ScanLeaves, FindLeaves};
ghost use Rattle.lst_scan.specs.Sessions.{EndLeaves, AfterCall, AnswerLeaves, LooksInVain};

use crate::finds::{FindRefusal, find};
use crate::lines::idle;
use crate::lists::rows;
use crate::sums::{count, sum};
use lst_model::{Call, Cause, OutOfMemory, Reply};
use lst_rule::Store;
use lst_session::{CommitLock, Session, commit_reply};
use std::alloc::Global;
use std::sync::Wait;

/// The answer of a session to a call. What the call itself promises of its answer and of what it leaves, and a scan of the reader's, `AfterCall` says by
/// the reply; that a read of what is merged loads no tail record is promised by the calls alone.
/// While no transaction is open, each call but a begin, also as of a time, is refused as idle before anything else is asked. A commit waits while
/// the commit word is held; no other call does. Memory may be wanted for a list of rows and for a find in an indexed column, with a
/// transaction open: then the session has only looked.
pub fn session_line<R: Wait>(
    rt: &R,
    alloc: Global,
    store: &Store,
    session: &mut Session,
    lock: &CommitLock,
    call: &Call,
) -> Result<Reply, OutOfMemory>
    requires ready { IsReady store.now session.old }
    requires fits { CallFits session.old.seat.view.limits.columns call.now }
    ensures ready { IsReady store.now session.new }
    ensures number { session.new.number ≡ session.old.number }
    ensures after { IfOk result (λ reply. AfterCall session.old.seat.view session.new.seat.view session.old.number call.now reply) }
    ensures looks { OnErr result (LooksInVain session.old.seat.view session.new.seat.view session.old.number call.now) }
{
    session.seat.consider();
    answered(rt, alloc, store, session, lock, call)
}

/// The same, by the call alone.
fn answered<R: Wait>(
    rt: &R,
    alloc: Global,
    store: &Store,
    session: &mut Session,
    lock: &CommitLock,
    call: &Call,
) -> Result<Reply, OutOfMemory>
    requires ready { IsReady store.now session.old }
    requires fits { CallFits session.old.seat.view.limits.columns call.now }
    ensures ready { IsReady store.now session.new }
    ensures number { session.new.number ≡ session.old.number }
    ensures called { Called session.old.seat.view session.new.seat.view session.old.number }
    ensures leaves { IfOk result (λ reply. AnswerLeaves session.old.seat.view session.new.seat.view session.old.number call.now reply) }
    ensures looks { OnErr result (LooksInVain session.old.seat.view session.new.seat.view session.old.number call.now) }
{
    match call {
        Call::Sum { column } => Ok(sum_line(store, session, *column)),
        Call::Count => Ok(count_line(store, session)),
        Call::Scan => scan_line(alloc, store, session),
        Call::Find { column, value } => find_line(alloc, store, session, *column, *value),
        Call::Commit => Ok(commit_line(rt, store, session, lock)),
        _ => Ok(session.answer(store, call)),
    }
}

/// The answer to a commit.
fn commit_line<R: Wait>(rt: &R, store: &Store, session: &mut Session, lock: &CommitLock) -> Reply
    requires ready { IsReady store.now session.old }
    ensures ready { IsReady store.now session.new }
    ensures number { session.new.number ≡ session.old.number }
    ensures called { Called session.old.seat.view session.new.seat.view session.old.number }
    ensures leaves { EndLeaves session.old.seat.view session.new.seat.view session.old.number result }
{
    commit_reply(session.commit(rt, store, lock))
}

/// The answer to a sum.
fn sum_line(store: &Store, session: &mut Session, column: u32) -> Reply
    requires ready { IsReady store.now session.old }
    requires column { column < session.old.seat.view.limits.columns }
    ensures ready { IsReady store.now session.new }
    ensures number { session.new.number ≡ session.old.number }
    ensures called { Called session.old.seat.view session.new.seat.view session.old.number }
    ensures leaves { SumLeaves session.old.seat.view session.new.seat.view session.old.number column result }
{
    if !session.seat.is_open(session.number) {
        return idle();
    }
    let total = sum(store, &mut session.seat, session.number, column);
    Reply::Sum { total }
}

/// The answer to a count.
fn count_line(store: &Store, session: &mut Session) -> Reply
    requires ready { IsReady store.now session.old }
    ensures ready { IsReady store.now session.new }
    ensures number { session.new.number ≡ session.old.number }
    ensures called { Called session.old.seat.view session.new.seat.view session.old.number }
    ensures leaves { CountLeaves session.old.seat.view session.new.seat.view session.old.number result }
{
    if !session.seat.is_open(session.number) {
        return idle();
    }
    let rows = count(store, &mut session.seat, session.number);
    Reply::Count { rows }
}

/// The answer to a scan of all rows.
fn scan_line(alloc: Global, store: &Store, session: &mut Session) -> Result<Reply, OutOfMemory>
    requires ready { IsReady store.now session.old }
    ensures ready { IsReady store.now session.new }
    ensures number { session.new.number ≡ session.old.number }
    ensures called { Called session.old.seat.view session.new.seat.view session.old.number }
    ensures leaves { IfOk result (λ reply. ScanLeaves session.old.seat.view session.new.seat.view session.old.number reply) }
    ensures looks { OnErr result (HasScanned session.old.seat.view session.new.seat.view session.old.number) }
{
    if !session.seat.is_open(session.number) {
        return Ok(idle());
    }
    match rows(alloc, store, &mut session.seat, session.number) {
        Ok(list) => Ok(Reply::Rows { list }),
        Err(OutOfMemory) => Err(OutOfMemory),
    }
}

/// The answer to a find.
fn find_line(
    alloc: Global,
    store: &Store,
    session: &mut Session,
    column: u32,
    number: u64,
) -> Result<Reply, OutOfMemory>
    requires ready { IsReady store.now session.old }
    requires column { column < session.old.seat.view.limits.columns }
    ensures ready { IsReady store.now session.new }
    ensures number { session.new.number ≡ session.old.number }
    ensures called { Called session.old.seat.view session.new.seat.view session.old.number }
    ensures leaves { IfOk result (λ reply. FindLeaves session.old.seat.view session.new.seat.view session.old.number column number reply) }
    ensures looks { OnErr result ((is_indexed session.old.seat.view.limits column ≡ true) × HasScanned session.old.seat.view session.new.seat.view session.old.number) }
{
    if !session.seat.is_open(session.number) {
        return Ok(idle());
    }
    match find(
        alloc,
        store,
        &mut session.seat,
        session.number,
        column,
        number,
    ) {
        Ok(list) => Ok(Reply::Keys { list }),
        Err(FindRefusal::NotIndexed) => Ok(Reply::Refused {
            cause: Cause::NotIndexed,
        }),
        Err(FindRefusal::OutOfMemory) => Err(OutOfMemory),
    }
}
