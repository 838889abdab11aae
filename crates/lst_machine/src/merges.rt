//! Merges.
ghost use Rattle.std.specs.Prelude.{◌≡◌, ◌<◌, ◌==◌, ◌&&◌, ◌||◌, if◌then◌else◌, is_some, IfOk, OnErr};
ghost use Rattle.lst_machine.specs.Writes.{time_of};
ghost use Rattle.lst_machine.specs.Merges.{settled_count, holds_frame, lowest_where};
ghost use Rattle.lst_machine.specs.Parts.{tps_after};
ghost use Rattle.lst_machine.specs.Machines.{store_of, pages_of, state_of, AnswersLine};

use crate::machine::Machine;
use crate::parts::{Author, Swap};
use crate::views::time_of;
use lst_model::{Line, OutOfMemory, Reply};

impl Machine {
    /// The answer to a merge of a range and a column.
    pub(crate) fn merge(&mut self, range: u32, column: u32) -> Result<Reply, OutOfMemory>
        requires { range < self.old.limits.ranges }
        ensures limits { self.new.limits ≡ self.old.limits }
        ensures ok { IfOk result (λ reply. AnswersLine self.old self.new (Line.Merge range column) reply) }
        ensures err { OnErr result (state_of self.new ≡ state_of self.old) }
    {
        let tps = self.settled_count(range);
        if tps == tps_of(self.swaps.as_slice(), range, column) {
            return Ok(Reply::NothingNew { tps });
        }
        if let Some(session) = self.holder() {
            return Ok(Reply::NoFrame { session });
        }
        self.swaps.push(Swap { range, column, tps })?;
        Ok(Reply::Merged { tps })
    }

    /// How many writes of a range stand before its first unsettled one.
    fn settled_count(&self, range: u32) -> u32
        requires { range < self.now.limits.ranges }
        ensures { result ≡ settled_count (store_of self.now) range }
    {
        let mut count = 0;
        for write in self.ranges[range as usize].items() {
            if !self.is_settled(write.author()) {
                return count;
            }
            count += 1;
        }
        count
    }

    /// Whether a transaction is committed or closed.
    fn is_settled(&self, author: Author) -> bool
        ensures { result ≡ ((store_of self.now).closed author.session author.number || is_some (time_of (store_of self.now).history author.session author.number)) }
    {
        self.is_closed(author) || time_of(self.history.items(), author).is_some()
    }

    /// The lowest session whose open transaction began so long ago that no spare frame is free.
    fn holder(&self) -> Option<u32>
        ensures { result ≡ lowest_where (holds_frame self.now.limits (store_of self.now) (pages_of self.now)) self.now.limits.sessions }
    {
        for session in 0..self.limits.sessions {
            if self.holds_frame(session) {
                return Some(session);
            }
        }
        None
    }

    fn holds_frame(&self, session: u32) -> bool
        requires { session < self.now.limits.sessions }
        ensures { result ≡ holds_frame self.now.limits (store_of self.now) (pages_of self.now) session }
    {
        let state = &self.sessions[session as usize];
        let least = u128::from(state.swaps_at_begin()) + u128::from(self.limits.spare);
        state.is_open() && least <= self.swaps.len() as u128
    }
}

/// The TPS of a page after these swaps.
fn tps_of(swaps: &[Swap], range: u32, column: u32) -> u32
    ensures { result ≡ tps_after 0 swaps.now range column }
{
    let mut tps = 0;
    for swap in swaps {
        tps = swapped_tps(tps, swap, range, column);
    }
    tps
}

/// The TPS of a page after one more swap.
fn swapped_tps(tps: u32, swap: &Swap, range: u32, column: u32) -> u32
    ensures { result ≡ (if swap.now.range == range && swap.now.column == column then swap.now.tps else tps) }
{
    if swap.range == range && swap.column == column {
        return swap.tps;
    }
    tps
}
