//! The lines of a session.
ghost use Rattle.std.specs.Prelude.{◌≡◌, IfOk, OnErr, IsNone};
ghost use Rattle.lst_model.specs.Lines.{CallFits};
ghost use Rattle.lst_session.specs.Passes.{IsReady};
ghost use Rattle.lst_replies.specs.Levels.{stale_time};
ghost use Rattle.lst_scan.specs.Sessions.{LooksInVain};
ghost use Rattle.lst_work_laws.specs.Lines.{AfterLine};

use lst_model::{Call, OutOfMemory, Reply};
use lst_rule::Store;
use lst_scan::session_line;
use lst_session::{CommitLock, Session};
use std::alloc::Global;
use std::sync::Wait;

/// The reply to a call of the session, and what it tells by the rules of a legal report, under snapshot isolation: no commit is told stale. A commit waits
/// while the commit word is held. For want of memory the session has only looked.
pub fn line_reply<R: Wait>(
    rt: &R,
    alloc: Global,
    store: &Store,
    session: &mut Session,
    lock: &CommitLock,
    call: &Call,
) -> Result<Reply, OutOfMemory>
    requires ready { IsReady store.now session.old }
    requires fits { CallFits session.old.seat.view.limits.columns call.now }
    ensures ready { IsReady store.now session.new }
    ensures number { session.new.number ≡ session.old.number }
    ensures after { IfOk result (λ reply. AfterLine session.old.number call.now reply session.old.seat.view session.new.seat.view) }
    ensures stale { IfOk result (λ reply. IsNone (stale_time reply)) }
    ensures looks { OnErr result (LooksInVain session.old.seat.view session.new.seat.view session.old.number call.now) }
{
    session_line(rt, alloc, store, session, lock, call)
}
