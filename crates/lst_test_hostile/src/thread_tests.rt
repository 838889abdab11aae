//! Sessions on threads of their own, each driven by drawn calls: what they are answered is judged by the checker of reports, over the history that is
//! gathered.
ghost use Rattle.std.specs.Prelude.{◌≡◌, All, IfOk};
ghost use Rattle.lst_session.specs.Parting.{IsMergerOf};
ghost use Rattle.lst_session.specs.Passes.{IsReady};

use crate::calls::same;
use crate::drawn_tests::Drawer;
use lst_layout::Limits;
use lst_legal::are_sessions_below;
use lst_model::{Call, Line, OutOfMemory, Reply};
use lst_report::{Replies, Report, Stamp, Stamps, legal};
use lst_rule::Store;
use lst_scan::session_line;
use lst_session::{CommitLock, Merger, Session, Sessions, gather, next_phase, open_crew};
use std::alloc::Global;
use std::mem;
use std::sync::Wait;
use std::test::Fail;
use std::thread::{Threads, join_mut};

/// Three sessions that write on few keys. The second column has an index.
const LIMITS: Limits = Limits {
    columns: 2,
    ranges: 1,
    tails: 600,
    sessions: 3,
    txns: 200,
    spare: 1,
    indexed: 2,
};

/// What a session is asked by, and what it has been asked and answered since the last phase ended.
#[derive(Drop)]
struct Asker {
    drawer: Drawer,
    said: Vec<(Call, Reply)>,
    has_failed: bool,
}

impl Asker {
    fn new(alloc: Global, seed: u64) -> Asker {
        Asker {
            drawer: Drawer { seed, keys: 8 },
            said: Vec::new(alloc),
            has_failed: false,
        }
    }

    /// Asks a drawn call of the session.
    fn ask<R: Wait>(
        &mut self,
        rt: &R,
        alloc: Global,
        store: &Store,
        session: &mut Session,
        lock: &CommitLock,
    ) -> Result<(), OutOfMemory>
        requires ready { IsReady store.now session.old }
        requires columns { store.now.layout.limits.columns ≡ 2 }
        ensures { IsReady store.now session.new }
    {
        let call = self.drawer.draw_call();
        let reply = session_line(rt, alloc, store, session, lock, &call)?;
        self.said.push((call, reply))?;
        Ok(())
    }

    /// Asks so many drawn calls of the session.
    fn ask_many<R: Wait>(
        &mut self,
        rt: &R,
        alloc: Global,
        store: &Store,
        session: &mut Session,
        lock: &CommitLock,
    )
        requires ready { IsReady store.now session.old }
        requires columns { store.now.layout.limits.columns ≡ 2 }
        ensures { IsReady store.now session.new }
    {
        for _ in 0..120u32 {
            if self.ask(rt, alloc, store, session, lock).is_err() {
                self.has_failed = true;
            }
        }
    }
}

/// Two sessions are asked, each on a thread of its own.
fn ask_two<R: Threads + Wait + Sync>(
    rt: &R,
    alloc: Global,
    store: &Store,
    lock: &CommitLock,
    first: &mut Session,
    one: &mut Asker,
    second: &mut Session,
    other: &mut Asker,
)
    requires first { IsReady store.now first.old }
    requires second { IsReady store.now second.old }
    requires columns { store.now.layout.limits.columns ≡ 2 }
    ensures first { IsReady store.now first.new }
    ensures second { IsReady store.now second.new }
{
    join_mut(
        rt,
        &mut ||
            requires ready { IsReady store.now first.now }
            requires columns { store.now.layout.limits.columns ≡ 2 }
        { one.ask_many(rt, alloc, store, first, lock) },
        &mut ||
            requires ready { IsReady store.now second.now }
            requires columns { store.now.layout.limits.columns ≡ 2 }
        { other.ask_many(rt, alloc, store, second, lock) },
    );
}

/// One session is asked beside the two others.
fn ask_three<R: Threads + Wait + Sync>(
    rt: &R,
    alloc: Global,
    store: &Store,
    lock: &CommitLock,
    first: &mut Session,
    one: &mut Asker,
    second: &mut Session,
    two: &mut Asker,
    third: &mut Session,
    three: &mut Asker,
)
    requires first { IsReady store.now first.old }
    requires second { IsReady store.now second.old }
    requires third { IsReady store.now third.old }
    requires columns { store.now.layout.limits.columns ≡ 2 }
    ensures first { IsReady store.now first.new }
    ensures second { IsReady store.now second.new }
    ensures third { IsReady store.now third.new }
{
    join_mut(
        rt,
        &mut ||
            requires ready { IsReady store.now first.now }
            requires columns { store.now.layout.limits.columns ≡ 2 }
        { one.ask_many(rt, alloc, store, first, lock) },
        &mut ||
            requires second { IsReady store.now second.now }
            requires third { IsReady store.now third.now }
            requires columns { store.now.layout.limits.columns ≡ 2 }
        { ask_two(rt, alloc, store, lock, second, two, third, three) },
    );
}

/// The three sessions of a list, in order.
fn three_of(store: &Store, sessions: Sessions) -> Result<(Session, Session, Session), Fail>
    requires { All (IsReady store.now) sessions }
    ensures first { IfOk result (λ all. IsReady store.now all.0) }
    ensures second { IfOk result (λ all. IsReady store.now all.1) }
    ensures third { IfOk result (λ all. IsReady store.now all.2) }
{
    let mut items = sessions.into_vec();
    let (Some(third), Some(second), Some(first)) = (items.pop(), items.pop(), items.pop()) else {
        return Err(Fail::from("there are three sessions"));
    };
    Ok((first, second, third))
}

/// Sessions in a list, in this order.
fn listed(
    alloc: Global,
    store: &Store,
    first: Session,
    second: Session,
    third: Session,
) -> Result<Sessions, Fail>
    requires first { IsReady store.now first }
    requires second { IsReady store.now second }
    requires third { IsReady store.now third }
    ensures { IfOk result (λ sessions. All (IsReady store.now) sessions) }
{
    let mut items = Vec::new(alloc);
    items.push(first)?;
    items.push(second)?;
    items.push(third)?;
    Ok(Sessions::from_vec(items))
}

/// What is told of a run so far.
#[derive(Drop)]
struct Telling {
    lines: Vec<Line>,
    replies: Replies,
}

impl Telling {
    /// Adds what was said to a session in the phase, and what it answered.
    fn add(&mut self, alloc: Global, session: u32, asker: &mut Asker) -> Result<(), Fail> {
        if asker.has_failed {
            return Err(Fail::from("there is memory"));
        }
        for (call, reply) in mem::replace(&mut asker.said, Vec::new(alloc)) {
            self.lines.push(Line::Call { session, call })?;
            self.replies.push(Some(session), reply)?;
        }
        Ok(())
    }
}

/// Three askers, one for each session.
#[derive(Drop)]
struct Askers {
    one: Asker,
    two: Asker,
    three: Asker,
}

impl Askers {
    fn new(alloc: Global, seed: u64) -> Askers {
        Askers {
            one: Asker::new(alloc, seed),
            two: Asker::new(alloc, seed.wrapping_add(1000)),
            three: Asker::new(alloc, seed.wrapping_add(2000)),
        }
    }
}

/// Runs a phase, in which all sessions are asked beside each other, and lets them hear of each other.
fn phase<R: Threads + Wait + Sync>(
    rt: &R,
    alloc: Global,
    store: &Store,
    lock: &CommitLock,
    sessions: Sessions,
    askers: &mut Askers,
    telling: &mut Telling,
) -> Result<Sessions, Fail>
    requires sessions { All (IsReady store.now) sessions }
    requires columns { store.now.layout.limits.columns ≡ 2 }
    ensures { IfOk result (λ sessions. All (IsReady store.now) sessions) }
{
    let (mut first, mut second, mut third) = three_of(store, sessions)?;
    ask_three(
        rt,
        alloc,
        store,
        lock,
        &mut first,
        &mut askers.one,
        &mut second,
        &mut askers.two,
        &mut third,
        &mut askers.three,
    );
    telling.add(alloc, 0, &mut askers.one)?;
    telling.add(alloc, 1, &mut askers.two)?;
    telling.add(alloc, 2, &mut askers.three)?;
    let mut sessions = listed(alloc, store, first, second, third)?;
    next_phase(store, &mut sessions);
    Ok(sessions)
}

/// A store that opens, its sessions, and the merger.
fn opened(alloc: Global) -> Result<(Store, Sessions, Merger), Fail>
    ensures columns { IfOk result (λ all. all.0.layout.limits.columns ≡ 2) }
    ensures sessions { IfOk result (λ all. All (IsReady all.0) all.1) }
    ensures merger { IfOk result (λ all. IsMergerOf all.0 all.2) }
{
    let limits = LIMITS;
    let Ok(layout) = limits.check() else {
        return Err(Fail::from("the limits are in range"));
    };
    let (store, crew) = open_crew(alloc, &layout)?;
    let Ok((sessions, merger)) = crew.part(alloc, &store) else {
        return Err(Fail::from("there is memory"));
    };
    Ok((store, sessions, merger))
}

/// The stamps of the commits that all have seen.
fn stamps(alloc: Global, store: &Store, sessions: Sessions, merger: Merger) -> Result<Stamps, Fail>
    requires sessions { All (IsReady store.now) sessions }
    requires merger { IsMergerOf store.now merger }
{
    let Ok(mut crew) = gather(alloc, store, sessions, merger) else {
        return Err(Fail::from("all sessions are there, and there is memory"));
    };
    let history = crew.history(alloc, store)?;
    let mut stamps = Stamps::new(alloc);
    for commit in history.items() {
        stamps.push(Stamp {
            session: commit.session,
            number: commit.number,
            begin: commit.begin,
        })?;
    }
    Ok(stamps)
}

/// Runs two phases from a seed. The sessions, and what is told of them.
fn two_phases<R: Threads + Wait + Sync>(
    rt: &R,
    alloc: Global,
    store: &Store,
    sessions: Sessions,
    seed: u64,
) -> Result<(Sessions, Telling), Fail>
    requires sessions { All (IsReady store.now) sessions }
    requires columns { store.now.layout.limits.columns ≡ 2 }
    ensures { IfOk result (λ all. All (IsReady store.now) all.0) }
{
    let lock = CommitLock::new();
    let mut askers = Askers::new(alloc, seed);
    let mut telling = Telling {
        lines: Vec::new(alloc),
        replies: Replies::new(alloc),
    };
    let sessions = phase(rt, alloc, store, &lock, sessions, &mut askers, &mut telling)?;
    telling.lines.push(Line::Phase)?;
    let sessions = phase(rt, alloc, store, &lock, sessions, &mut askers, &mut telling)?;
    Ok((sessions, telling))
}

/// Runs two phases on a store of their own. What is told of them, and the stamps of the commits.
fn told<R: Threads + Wait + Sync>(
    rt: &R,
    alloc: Global,
    seed: u64,
) -> Result<(Telling, Stamps), Fail> {
    let (store, sessions, merger) = opened(alloc)?;
    let (sessions, telling) = two_phases(rt, alloc, &store, sessions, seed)?;
    let history = stamps(alloc, &store, sessions, merger)?;
    Ok((telling, history))
}

/// Runs two phases from a seed. Whether the report is legal, and how many commits there are.
fn run<R: Threads + Wait + Sync>(rt: &R, alloc: Global, seed: u64) -> Result<(bool, usize), Fail> {
    let (Telling { lines, replies }, history) = told(rt, alloc, seed)?;
    if !are_sessions_below(3, &lines) {
        return Err(Fail::from("there are three sessions"));
    }
    let commits = history.len();
    let report = Report { replies, history };
    Ok((legal(alloc, &LIMITS, &lines, &report)?, commits))
}

#[test]
fn sessions_on_threads_give_a_legal_report(rt: HostRuntime) -> Result<(), Fail> {
    let mut commits = 0usize;
    for seed in 0..20u64 {
        let (is_legal, more) = run(&rt, rt.alloc(), seed)?;
        same(&rt, is_legal, true, seed);
        commits = commits.wrapping_add(more);
    }
    same(&rt, commits > 100, true, "commits");
    Ok(())
}
