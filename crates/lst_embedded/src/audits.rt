//! The auditors: several sessions add up all balances side by side, again and again while the tellers work.
ghost use Rattle.std.specs.Prelude.{IfOk};
ghost use Rattle.lst_session.specs.Parting.{IsMergerOf};
ghost use Rattle.lst_embedded.specs.Doing.{IsBank, AreAuditors, HaveAudited};

use crate::transactions::Stop;
use lst_model::Time;
use lst_rule::Store;
use lst_session::{Merger, Sessions, next_phase};
use lst_work::{all_can_begin, par_sum};
use std::alloc::Global;
use std::thread::Threads;

/// How many audits there are.
const AUDITS: u32 = 10;

/// All balances together, as they were read while the tellers worked.
#[derive(Clone, Copy, PartialEq, Eq, Debug)]
pub struct Audit {
    /// The begin of the transactions that read them.
    pub time: Time,
    pub total: u128,
}

/// The auditors audit again and again, and after each audit the balances are merged. For an audit all hear of what the first auditor has seen, and then they add up the
/// balances as of that time. By that each sees what was committed meanwhile, for the next audit.
pub(crate) fn audit_all<R: Threads + Sync>(
    rt: &R,
    alloc: Global,
    store: &Store,
    auditors: &mut Sessions,
    merger: &mut Merger,
) -> Result<Vec<Audit>, Stop>
    requires bank { IsBank store.now }
    requires auditors { AreAuditors store.now auditors.old }
    requires merger { IsMergerOf store.now merger.old }
    ensures { IfOk result (λ audits. HaveAudited store.now auditors.old auditors.new merger.new audits.items 10) }
{
    let mut audits = Vec::new(alloc);
    for round in 0..AUDITS {
        let _ = round;
        let first = &auditors.as_slice()[0];
        let time = first.seen();
        first.seat.consider();
        next_phase(store, auditors);
        if !all_can_begin(store, auditors.as_slice(), time) {
            return Err(Stop::Close);
        }
        let total = par_sum(rt, store, auditors, time, 0);
        audits.push(Audit { time, total }).or(Err(Stop::Close))?;
        merger.merge(store, 0, 0);
    }
    Ok(audits)
}
