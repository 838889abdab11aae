//! The bank: it opens, its tellers and auditors work side by side, and it closes.
ghost use Rattle.std.specs.Prelude.{◌≡◌, IfOk, OnOk, length};
ghost use Rattle.std.specs.List.{AllByRecursion};
ghost use Rattle.std.specs.Thread.{IsSync};
ghost use Rattle.lst_session.specs.declared.session.Session.{Session as SessionValue};
ghost use Rattle.lst_session.specs.Parting.{IsMergerOf, seen_at};
ghost use Rattle.lst_session.specs.Passes.{IsReady};
ghost use Rattle.lst_embedded.specs.Deeds.{IsMove};
ghost use Rattle.lst_embedded.specs.Doing.{IsBank, HasDone, AreAuditors, IsRead, HaveAudited};
ghost use Rattle.lst_embedded.specs.Kept.{IsKept};
ghost use Rattle.lst_embedded.specs.Staffs.{IsStaffed};

use crate::audits::{Audit, audit_all};
use crate::transactions::{Stop, open_accounts, work};
use lst_layout::Limits;
use lst_model::{History, Time};
use lst_rule::Store;
use lst_scan::sum;
use lst_session::{Merger, Reader, Session, Sessions, gather, open_crew};
use std::alloc::Global;
use std::thread::{Threads, join_mut};

/// What the bank hands back when it closes.
#[derive(Drop)]
pub struct Books {
    /// Each commit of the store at its time.
    pub history: History,
    /// What the auditors read, one audit after another.
    pub audits: Vec<Audit>,
    /// All balances together at the end.
    pub total: u128,
}

/// The sessions of the store, by what they do, and its merger. The first auditor has opened the accounts.
#[derive(Drop)]
pub(crate) struct Staff {
    pub first: Session,
    pub second: Session,
    pub auditors: Sessions,
    pub merger: Merger,
}

/// Opens a store with rows of one column, a range for each auditor, and four sessions. It is parted, and all accounts are opened.
fn open(alloc: Global) -> Result<(Store, Staff), Stop>
    ensures bank { IfOk result (λ both. IsBank both.0) }
    ensures staff { IfOk result (λ both. IsStaffed both.0 0 both.1) }
{
    let limits = Limits {
        columns: 1,
        ranges: 2,
        ..Limits::default()
    };
    let layout = limits.check().or(Err(Stop::Close))?;
    let (store, crew) = open_crew(alloc, &layout).or(Err(Stop::Close))?;
    let (sessions, merger) = crew.part(alloc, &store).or(Err(Stop::Close))?;
    let mut auditors = sessions.into_vec();
    let first = auditors.remove(0);
    let second = auditors.remove(0);
    open_accounts(&store, &mut auditors[0])?;
    let staff = Staff {
        first,
        second,
        auditors: Sessions::from_vec(auditors),
        merger,
    };
    Ok((store, staff))
}

/// Two tellers make their transfers side by side, and the auditors audit meanwhile.
fn work_and_audit<R: Threads + Sync>(
    rt: &R,
    alloc: Global,
    store: &Store,
    staff: &mut Staff,
) -> Result<Vec<Audit>, Stop>
    requires bank { IsBank store.now }
    requires staff { IsStaffed store.now 0 staff.old }
    ensures staff { OnOk result (IsStaffed store.now 25 staff.new) }
    ensures audits { IfOk result (λ audits. HaveAudited store.now staff.old.auditors staff.new.auditors staff.new.merger audits.items 10) }
{
    let first = &mut staff.first;
    let second = &mut staff.second;
    let auditors = &mut staff.auditors;
    let merger = &mut staff.merger;
    let mut transfers = || -> Result<(), Stop>
        requires { IsSync R.row × IsBank store.now × IsReady store.now first.now × IsReady store.now second.now }
        ensures { OnOk result (HasDone store.entry.now IsMove first.entry.now first.exit.now 25 × HasDone store.entry.now IsMove second.entry.now second.exit.now 25) }
    {
        let mut up = || -> Result<(), Stop>
            requires { IsBank store.now × IsReady store.now first.now }
            ensures { OnOk result (HasDone store.entry.now IsMove first.entry.now first.exit.now 25) }
        { work(store, first, true) };
        let mut down = || -> Result<(), Stop>
            requires { IsBank store.now × IsReady store.now second.now }
            ensures { OnOk result (HasDone store.entry.now IsMove second.entry.now second.exit.now 25) }
        { work(store, second, false) };
        let (up, down) = join_mut(rt, &mut up, &mut down);
        up.and(down)
    };
    let mut audits = || -> Result<Vec<Audit>, Stop>
        requires { IsSync R.row × IsBank store.now × AreAuditors store.now auditors.now × IsMergerOf store.now merger.now }
        ensures { IfOk result (λ audits. HaveAudited store.entry.now auditors.entry.now auditors.exit.now merger.exit.now audits.items 10) }
    { audit_all(rt, alloc, store, auditors, merger) };
    let (worked, audits) = join_mut(rt, &mut transfers, &mut audits);
    worked.and(audits)
}

/// Gathers the store, reads its history, and adds up all balances as of its end.
fn close(alloc: Global, store: &Store, staff: Staff, audits: Vec<Audit>) -> Result<Books, Stop>
    requires bank { IsBank store.now }
    requires staff { IsStaffed store.now 25 staff }
    requires count { length audits.items ≡ 10 }
    requires read { (none : SessionValue) → AllByRecursion (IsRead (seen_at staff.auditors 0 none)) audits.items }
    ensures { IfOk result IsKept }
{
    let mut sessions = staff.auditors.into_vec();
    sessions.insert(0, staff.second).or(Err(Stop::Close))?;
    sessions.insert(0, staff.first).or(Err(Stop::Close))?;
    let sessions = Sessions::from_vec(sessions);
    let mut crew = gather(alloc, store, sessions, staff.merger).or(Err(Stop::Close))?;
    crew.seat.consider();
    let history = crew.history(alloc, store).or(Err(Stop::Close))?;
    let end = history.len() as Time;
    crew.as_of(store, 0, end).or(Err(Stop::Close))?;
    let mut reader = Reader {
        seat: &mut crew.seat,
        s: 0,
    };
    let total = sum(store, &mut reader, 0);
    Ok(Books {
        history,
        audits,
        total,
    })
}

/// Opens a bank of eight accounts with 1,000 each. Two tellers make 25 transfers each, side by side, and two auditors meanwhile add up all balances, ten times; then the
/// bank is closed, and hands back its books. Whatever the schedule, where it doesn't close early: all balances together are what was paid in, at the end, and
/// at each audit by its time; there are as many commits as openings and transfers. Which transfers were made isn't said.
pub(crate) fn run<R: Threads + Sync>(rt: &R, alloc: Global) -> Result<Books, Stop>
    ensures { IfOk result IsKept }
{
    let (store, mut staff) = open(alloc)?;
    let audits = work_and_audit(rt, alloc, &store, &mut staff)?;
    close(alloc, &store, staff, audits)
}
