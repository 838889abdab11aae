//! The lines of a script.
use crate::crew::Crew;
use crate::replies::{abort_reply, begin_reply, commit_reply, get_reply, merge_reply, write_reply};
use crate::session::Session;
use lst_model::{Call, Line, OutOfMemory, Reply};
use lst_rule::Store;

impl Crew {
    ghost use Rattle.std.specs.Prelude.{◌≡◌, ◌<◌, IfOk, OnErr};
    ghost use Rattle.lst_model.specs.Lines.{LineFits, CallFits};
    ghost use Rattle.lst_session.specs.Crews.{IsCrewOf, TellsState, Answers, AnswersLine};
    ghost use Rattle.lst_session.specs.Lines.{CallLeaves, LineLeaves};
    ghost use Rattle.lst_session.specs.Replies.{IsCrewLine, IsCrewCall};

    /// The answer to a line. It promises of the session that calls what the call itself promises, and of the merger what a merge does; and where the crew tells a state of the machine,
    /// the answer is the machine's, and the crew then tells the next one. It takes no scans.
    #[inline(always)]
    pub fn line(&mut self, store: &Store, line: &Line) -> Result<Reply, OutOfMemory>
        requires crew { IsCrewOf store.now self.old }
        requires fits { LineFits self.old.seat.view.limits.sessions self.old.seat.view.limits.ranges self.old.seat.view.limits.columns line.now }
        requires taken { IsCrewLine line.now }
        ensures crew { IsCrewOf store.now self.new }
        ensures machine { TellsState self.old.seat.view → IfOk result (λ reply. TellsState self.new.seat.view × AnswersLine self.old.seat.view self.new.seat.view line.now reply) }
        ensures session { IfOk result (λ reply. LineLeaves self.old.seat.view self.new.seat.view line.now reply) }
        ensures err { OnErr result (self.new ≡ self.old) }
    {
        match line {
            Line::Phase => Ok(Reply::Silent),
            Line::Call { session, call } => Ok(self.call(store, *session, call)),
            Line::Merge { range, column } => { Ok(merge_reply(self.merge(store, *range, *column))) }
        }
    }

    /// The answer to a session's call.
    #[inline(always)]
    fn call(&mut self, store: &Store, s: u32, call: &Call) -> Reply
        requires crew { IsCrewOf store.now self.old }
        requires session { s < self.old.seat.view.limits.sessions }
        requires fits { CallFits self.old.seat.view.limits.columns call.now }
        requires taken { IsCrewCall call.now }
        ensures crew { IsCrewOf store.now self.new }
        ensures machine { TellsState self.old.seat.view → TellsState self.new.seat.view × Answers self.old.seat.view self.new.seat.view s call.now result }
        ensures session { CallLeaves self.old.seat.view self.new.seat.view s call.now result }
    {
        match call {
            Call::Begin => begin_reply(self.begin(store, s)),
            Call::AsOf { time } => begin_reply(self.as_of(store, s, *time)),
            Call::Get { key } => get_reply(self.get(store, s, *key)),
            Call::Insert { key, row } => write_reply(self.insert(store, s, *key, row)),
            Call::Update { key, patch } => write_reply(self.update(store, s, *key, patch)),
            Call::Delete { key } => write_reply(self.delete(store, s, *key)),
            Call::Commit => commit_reply(self.commit(store, s)),
            Call::Abort => abort_reply(self.abort(store, s)),
            _ => unreachable!(),
        }
    }
}

impl Session {
    ghost use Rattle.std.specs.Prelude.{◌≡◌};
    ghost use Rattle.lst_model.specs.Lines.{CallFits};
    ghost use Rattle.lst_session.specs.Calls.{Called};
    ghost use Rattle.lst_session.specs.Lines.{SessionLeaves};
    ghost use Rattle.lst_session.specs.Passes.{IsReady};
    ghost use Rattle.lst_session.specs.Replies.{IsPromptCall};

    /// The answer to a call. It promises what the call itself promises. It takes no scans, and no commits, which may
    /// wait.
    pub fn answer(&mut self, store: &Store, call: &Call) -> Reply
        requires ready { IsReady store.now self.old }
        requires fits { CallFits self.old.seat.view.limits.columns call.now }
        requires taken { IsPromptCall call.now }
        ensures ready { IsReady store.now self.new }
        ensures number { self.new.number ≡ self.old.number }
        ensures called { Called self.old.seat.view self.new.seat.view self.old.number }
        ensures leaves { SessionLeaves self.old.seat.view self.new.seat.view self.old.number call.now result }
    {
        match call {
            Call::Begin => begin_reply(self.begin(store)),
            Call::AsOf { time } => begin_reply(self.as_of(store, *time)),
            Call::Get { key } => get_reply(self.get(store, *key)),
            Call::Insert { key, row } => write_reply(self.insert(store, *key, row)),
            Call::Update { key, patch } => write_reply(self.update(store, *key, patch)),
            Call::Delete { key } => write_reply(self.delete(store, *key)),
            Call::Abort => abort_reply(self.abort(store)),
            _ => unreachable!(),
        }
    }
}
