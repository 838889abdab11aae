//! The lines of the engine: calls and merges.
ghost use Rattle.std.specs.Prelude.{◌≡◌, ◌<◌, IfOk, OnErr};
ghost use Rattle.lst_layout.specs.declared.limits.Limits.{Limits};
ghost use Rattle.lst_model.specs.Lines.{CallFits};
ghost use Rattle.lst_machine.specs.State.{State};
ghost use Rattle.lst_plain.specs.Plains.{limits_of, Tells, AnswersLine};

use crate::plain::Plain;
use lst_model::{Call, Line, OutOfMemory, Reply};

impl Plain {
    /// The answer to a session's call.
    pub(crate) fn call(&mut self, session: u32, call: &Call) -> Result<Reply, OutOfMemory>
        requires within { session < (limits_of self.old).sessions }
        requires fits { CallFits (limits_of self.old).columns call.now }
        ensures limits { limits_of self.new ≡ limits_of self.old }
        ensures ok { IfOk result (λ reply. AnswersLine self.old self.new (Line.Call session call.now) reply) }
        ensures err { OnErr result ((limits : Limits) (state : State) → Tells self.old limits state → Tells self.new limits state) }
    {
        let reply = self.engine.call(session, call)?;
        let newest = self.engine.newest_tail(call);
        self.lineage.follow(session, newest, &reply);
        Ok(reply)
    }

    /// The answer to a merge of a range and a column.
    pub(crate) fn merge(&mut self, range: u32, column: u32) -> Reply
        requires range { range < (limits_of self.old).ranges }
        requires column { column < (limits_of self.old).columns }
        ensures limits { limits_of self.new ≡ limits_of self.old }
        ensures answers { AnswersLine self.old self.new (Line.Merge range column) result }
    {
        let limits = self.engine.limits;
        let page = (range * limits.columns + column) as usize;
        let accepted = self.engine.accepted[range as usize];
        let tps = self.lineage.settled(range as usize, accepted);
        let old = self.lineage.tps(page);
        if old == tps {
            return Reply::NothingNew { tps };
        }
        if let Some(session) = self.lineage.holder(limits.sessions, limits.spare) {
            return Reply::NoFrame { session };
        }
        self.lineage.swap(page, tps, limits.spare);
        Reply::Merged { tps }
    }
}
