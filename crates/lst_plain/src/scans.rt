//! The calls that ask about all rows.
ghost use Rattle.std.specs.Prelude.{◌≡◌, ◌<◌, IfOk, Some};
ghost use Rattle.lst_layout.specs.declared.limits.Limits.{Limits};
ghost use Rattle.lst_model.specs.Tables.{scan_of};
ghost use Rattle.lst_machine.specs.State.{Store};
ghost use Rattle.lst_machine.specs.Writes.{sight_of};
ghost use Rattle.lst_machine.specs.Calls.{call_reply};
ghost use Rattle.lst_machine.specs.Scans.{IsScan};
ghost use Rattle.lst_plain.specs.Engines.{session_of};
ghost use Rattle.lst_plain.specs.Telling.{StoreTells};
ghost use Rattle.lst_plain.specs.EngineOf.{engine_of};

use crate::engine::Engine;
use lst_machine::{Transaction, answer_from_rows, lacks_index, refused};
use lst_model::{Call, Cause, OutOfMemory, Reply, RowList};

impl Engine {
    /// The answer to a sum, a count, a scan or a find.
    pub(crate) fn scan(&self, session: u32, call: &Call) -> Result<Reply, OutOfMemory>
        requires within { session < self.now.limits.sessions }
        requires scan { IsScan call.now }
        ensures { IfOk result (λ reply. (limits : Limits) (store : Store) → StoreTells (engine_of self.now) limits store → reply ≡ call_reply limits store session call.now) }
    {
        let Some(transaction) = self.transaction(session) else {
            return Ok(refused(Cause::Idle));
        };
        if lacks_index(&self.limits, call) {
            return Ok(refused(Cause::NotIndexed));
        }
        let rows = self.rows(session, transaction)?;
        answer_from_rows(self.records.alloc(), call, rows)
    }

    /// The rows that a session's open transaction sees, by rising key.
    fn rows(&self, session: u32, transaction: Transaction) -> Result<RowList, OutOfMemory>
        requires within { session < self.now.limits.sessions }
        requires open { (session_of (engine_of self.now) session).transaction ≡ Some transaction }
        ensures { IfOk result (λ rows. (limits : Limits) (store : Store) → StoreTells (engine_of self.now) limits store → rows ≡ scan_of (sight_of limits store session transaction.begin)) }
    {
        self.records.rows(session, transaction.begin)
    }
}
