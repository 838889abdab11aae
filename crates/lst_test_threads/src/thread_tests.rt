//! Passes of several sessions, each on a thread of its own.
ghost use Rattle.std.specs.Prelude.{◌≡◌, All, IfOk};
ghost use Rattle.lst_session.specs.Crews.{IsCrewOf};
ghost use Rattle.lst_session.specs.Parting.{IsMergerOf};
ghost use Rattle.lst_session.specs.Passes.{IsReady};

use crate::part_tests::{
    begins, crew_begins, crew_commits, crew_gets, crew_sees, gathered, gets, has_seen,
    in_next_phase, is_commit, opened, opened_parts, part_at_last, puts, refused, row,
};
use lst_index::find;
use lst_layout::Limits;
use lst_model::{Act, Key};
use lst_rule::Store;
use lst_session::{
    CommitLock, Crew, Merger, NotBegun, Outcome, Session, Sessions, WriteRefusal, open_crew,
};
use lst_txn::take_turn;
use lst_write::{latch, release};
use std::alloc::Global;
use std::process::Abort;
use std::sync::Wait;
use std::sync::atomic::{AtomicU64, Ordering};
use std::test::Fail;
use std::thread::{Threads, join_mut, yield_now};

/// One range, and two sessions.
const PAIR: Limits = Limits {
    columns: 2,
    ranges: 1,
    tails: 300,
    sessions: 2,
    txns: 4,
    spare: 1,
    indexed: 0,
};

/// The two sessions of a list, in order.
fn two(store: &Store, sessions: Sessions) -> Result<(Session, Session), Fail>
    requires { All (IsReady store.now) sessions }
    ensures first { IfOk result (λ both. IsReady store.now both.0) }
    ensures second { IfOk result (λ both. IsReady store.now both.1) }
{
    let mut items = sessions.into_vec();
    let (Some(second), Some(first)) = (items.pop(), items.pop()) else {
        return Err(Fail::from("there are two sessions"));
    };
    Ok((first, second))
}

/// The two sessions of a store that opens, in order, and its merger.
pub(crate) fn parted_pair(alloc: Global) -> Result<(Store, (Session, Session), Merger), Fail>
    ensures first { IfOk result (λ all. IsReady all.0 all.1.0) }
    ensures second { IfOk result (λ all. IsReady all.0 all.1.1) }
    ensures merger { IfOk result (λ all. IsMergerOf all.0 all.2) }
{
    let limits = PAIR;
    let Ok(layout) = limits.check() else {
        return Err(Fail::from("the limits are in range"));
    };
    let (store, crew) = open_crew(alloc, &layout)?;
    let (sessions, merger) = part_at_last(alloc, &store, crew)?;
    let both = two(&store, sessions)?;
    Ok((store, both, merger))
}

/// Inserts a row in the open transaction, of which the store has as many columns; else None.
fn inserts(store: &Store, session: &mut Session, key: Key) -> Option<Result<(), WriteRefusal>>
    requires { IsReady store.now session.old }
    ensures { IsReady store.now session.new }
{
    let row = row(10, 20);
    if row.len() != session.seat.limits().columns as usize {
        return None;
    }
    Some(session.insert(store, key, &row))
}

/// The same, compared with this answer.
pub(crate) fn insert_is(
    rt: &impl Abort,
    store: &Store,
    session: &mut Session,
    key: Key,
    wanted: Result<(), WriteRefusal>,
)
    requires { IsReady store.now session.old }
    ensures { IsReady store.now session.new }
{
    assert_eq!(rt; inserts(store, session, key), Some(wanted));
}

/// Whether a row is put and committed in a transaction of its own.
fn commits<R: Wait>(
    rt: &R,
    store: &Store,
    session: &mut Session,
    lock: &CommitLock,
    key: Key,
) -> bool
    requires { IsReady store.now session.old }
    ensures { IsReady store.now session.new }
{
    if session.begin(store).is_err() {
        return false;
    }
    if inserts(store, session, key) != Some(Ok(())) {
        return false;
    }
    matches!(
        session.commit(rt, store, lock),
        Ok(Outcome::Committed { time: _ })
    )
}

/// Whether four rows are, one after another.
fn commits_four<R: Wait>(
    rt: &R,
    store: &Store,
    session: &mut Session,
    lock: &CommitLock,
    keys: [Key; 4],
) -> bool
    requires { IsReady store.now session.old }
    ensures { IsReady store.now session.new }
{
    for key in keys {
        if !commits(rt, store, session, lock, key) {
            return false;
        }
    }
    true
}

/// Two sessions commit beside each other, in two threads, by one lock. Whether each committed all that it put.
fn commit_beside<R: Threads + Wait + Sync>(
    rt: &R,
    store: &Store,
    first: &mut Session,
    second: &mut Session,
    one: &mut bool,
    other: &mut bool,
)
    requires first { IsReady store.now first.old }
    requires second { IsReady store.now second.old }
    ensures first { IsReady store.now first.new }
    ensures second { IsReady store.now second.new }
{
    let lock = &CommitLock::new();
    join_mut(
        rt,
        &mut ||
            requires { IsReady store.now first.now }
        {
            *one = commits_four(rt, store, first, lock, [1, 2, 3, 4]);
        },
        &mut ||
            requires { IsReady store.now second.now }
        {
            *other = commits_four(rt, store, second, lock, [5, 6, 7, 8]);
        },
    );
}

#[test]
fn two_passes_commit_by_one_lock(rt: HostRuntime) -> Result<(), Fail> {
    let (store, mut first, mut second, third, _) = opened_parts(rt.alloc())?;
    let mut one = false;
    let mut other = false;
    commit_beside(&rt, &store, &mut first, &mut second, &mut one, &mut other);
    assert!(rt; one && other);
    // Each commit has a time of its own.
    let (first, second, third) = in_next_phase(rt.alloc(), &store, first, second, third)?;
    has_seen(&rt, &store, &first, 0, 8);
    has_seen(&rt, &store, &second, 1, 8);
    has_seen(&rt, &store, &third, 2, 8);
    Ok(())
}

/// A commit that may wait has this answer.
fn commit_is<R: Abort + Wait>(
    rt: &R,
    store: &Store,
    session: &mut Session,
    lock: &CommitLock,
    wanted: Result<Outcome, NotBegun>,
)
    requires { IsReady store.now session.old }
    ensures { IsReady store.now session.new }
{
    assert_eq!(rt; session.commit(rt, store, lock), wanted);
}

#[test]
fn a_commit_that_may_wait_ends_what_has_no_writes(rt: HostRuntime) -> Result<(), Fail> {
    let (store, mut first, _, _, _) = opened_parts(rt.alloc())?;
    let lock = CommitLock::new();
    commit_is(&rt, &store, &mut first, &lock, Err(NotBegun));
    begins(&rt, &store, &mut first, 0);
    commit_is(
        &rt,
        &store,
        &mut first,
        &lock,
        Ok(Outcome::Ended { time: 0 }),
    );
    commit_is(&rt, &store, &mut first, &lock, Err(NotBegun));
    Ok(())
}

/// Takes the turn, says so, and gives it back a while later. Whether it was had.
fn has_the_turn(store: &Store, session: &mut Session, taken: &AtomicU64) -> bool
    requires { IsReady store.now session.old }
{
    let s = session.number;
    if !session.seat.has_writes(s) {
        return false;
    }
    let Ok(turn) = take_turn(store, &mut session.seat, s) else {
        return false;
    };
    taken.store(1, Ordering::SeqCst);
    for _ in 0..2000u32 {
        yield_now();
    }
    turn.give_back(store, &mut session.seat);
    true
}

/// Waits till it is said.
fn wait_for<R: Wait>(rt: &R, taken: &AtomicU64) {
    for _ in rt.forever() {
        if taken.load(Ordering::SeqCst) == 1 {
            return;
        }
        yield_now();
    }
    unreachable!()
}

/// The answer to a commit that is asked for once it is said that the turn is another's.
fn committed_after<R: Wait>(
    rt: &R,
    store: &Store,
    session: &mut Session,
    taken: &AtomicU64,
) -> Result<Outcome, NotBegun>
    requires { IsReady store.now session.old }
{
    wait_for(rt, taken);
    session.commit(rt, store, &CommitLock::new())
}

/// What the second session's commit is answered, on a thread of its own, while the first one has the turn and gives it back; and whether it had it.
fn committed_at_last<R: Threads + Wait + Sync>(
    rt: &R,
    store: &Store,
    first: &mut Session,
    second: &mut Session,
) -> (Result<Outcome, NotBegun>, bool)
    requires first { IsReady store.now first.old }
    requires second { IsReady store.now second.old }
{
    let taken = &AtomicU64::new(0);
    join_mut(
        rt,
        &mut ||
            requires { IsReady store.now second.now }
        { committed_after(rt, store, second, taken) },
        &mut || -> bool
            requires { IsReady store.now first.now }
        {
            let had = has_the_turn(store, first, taken);
            taken.store(1, Ordering::SeqCst);
            had
        },
    )
}

#[test]
fn a_commit_waits_till_another_pass_gives_the_turn_back(rt: HostRuntime) -> Result<(), Fail> {
    let (store, (mut first, mut second), _) = parted_pair(rt.alloc())?;
    begins(&rt, &store, &mut first, 0);
    insert_is(&rt, &store, &mut first, 1, Ok(()));
    begins(&rt, &store, &mut second, 0);
    insert_is(&rt, &store, &mut second, 2, Ok(()));
    assert_eq!(rt;
        committed_at_last(&rt, &store, &mut first, &mut second),
        (Ok(Outcome::Committed { time: 1 }), true)
    );
    Ok(())
}

/// What the second session's insert is answered, on a thread of its own, while the first one has the latch of the key's record.
fn inserted_meanwhile<R: Threads + Sync>(
    rt: &R,
    store: &Store,
    first: &mut Session,
    second: &mut Session,
    key: Key,
) -> Result<Option<Result<(), WriteRefusal>>, Fail>
    requires first { IsReady store.now first.old }
    requires second { IsReady store.now second.old }
    ensures { IsReady store.now second.new }
{
    let s = first.number;
    if !first.seat.is_open(s) || first.seat.is_read_only(s) {
        return Err(Fail::from("the first session may write"));
    }
    let Some(rec) = find(store, &mut first.seat, s, key) else {
        return Err(Fail::from("the key has a record"));
    };
    let Ok(head) = latch(store, &mut first.seat, s, rec) else {
        return Err(Fail::from("nobody has the latch"));
    };
    let (answer, _) = join_mut(
        rt,
        &mut ||
            requires { IsReady store.now second.now }
        { inserts(store, second, key) },
        &mut || (),
    );
    release(store, &mut first.seat, s, rec, head);
    Ok(answer)
}

#[test]
fn a_record_is_latched_by_one_pass_at_a_time(rt: HostRuntime) -> Result<(), Fail> {
    let (store, (mut first, mut second), _) = parted_pair(rt.alloc())?;
    begins(&rt, &store, &mut first, 0);
    insert_is(&rt, &store, &mut first, 1, Ok(()));
    begins(&rt, &store, &mut second, 0);
    assert_eq!(rt;
        inserted_meanwhile(&rt, &store, &mut first, &mut second, 1)?,
        Some(Err(WriteRefusal::Latched))
    );
    // Once it was given back the latch is had, and the write that is found under it isn't finished.
    let unfinished = WriteRefusal::Unfinished {
        session: 0,
        number: 1,
    };
    insert_is(&rt, &store, &mut second, 1, Err(unfinished));
    Ok(())
}

/// The first session commits a row on a thread of its own, while the second one begins a transaction on another and gives it up. Whether both did.
fn commit_and_give_up<R: Threads + Wait + Sync>(
    rt: &R,
    store: &Store,
    first: &mut Session,
    second: &mut Session,
    key: Key,
) -> (bool, bool)
    requires first { IsReady store.now first.old }
    requires second { IsReady store.now second.old }
    ensures first { IsReady store.now first.new }
    ensures second { IsReady store.now second.new }
{
    let lock = &CommitLock::new();
    join_mut(
        rt,
        &mut ||
            requires { IsReady store.now first.now }
        { commits(rt, store, first, lock, key) },
        &mut ||
            requires { IsReady store.now second.now }
        { gives_up(store, second) },
    )
}

/// Whether a transaction is begun and given up.
fn gives_up(store: &Store, session: &mut Session) -> bool
    requires { IsReady store.now session.old }
    ensures { IsReady store.now session.new }
{
    session.begin(store).is_ok() && session.abort(store).is_ok()
}

/// The two sessions in a list.
fn listed_pair(
    alloc: Global,
    store: &Store,
    first: Session,
    second: Session,
) -> Result<Sessions, Fail>
    requires first { IsReady store.now first }
    requires second { IsReady store.now second }
    ensures { IfOk result (λ sessions. All (IsReady store.now) sessions) }
{
    let mut items = Vec::new(alloc);
    items.push(first)?;
    items.push(second)?;
    Ok(Sessions::from_vec(items))
}

/// Gathers the two sessions.
fn gathered_pair(
    alloc: Global,
    store: &Store,
    first: Session,
    second: Session,
    merger: Merger,
) -> Result<Crew, Fail>
    requires first { IsReady store.now first }
    requires second { IsReady store.now second }
    requires merger { IsMergerOf store.now merger }
    ensures { IfOk result (IsCrewOf store.now) }
{
    let sessions = listed_pair(alloc, store, first, second)?;
    gathered(alloc, store, sessions, merger)
}

/// A pair, of which the first session has committed key 7 at time 1 and the second one has heard of it.
fn told_pair<R: AllocGlobal + Threads + Wait + Sync>(
    rt: &R,
) -> Result<(Store, (Session, Session), Merger), Fail>
    ensures first { IfOk result (λ all. IsReady all.0 all.1.0) }
    ensures second { IfOk result (λ all. IsReady all.0 all.1.1) }
    ensures merger { IfOk result (λ all. IsMergerOf all.0 all.2) }
{
    let (store, (mut first, mut second), merger) = parted_pair(rt.alloc())?;
    if commit_and_give_up(rt, &store, &mut first, &mut second, 7) != (true, true) {
        return Err(Fail::from("the first session commits beside the second one"));
    }
    let note = first.tell(&store);
    second.hear(&store, note);
    Ok((store, (first, second), merger))
}

#[test]
fn what_a_thread_commits_another_one_hears_of(rt: HostRuntime) -> Result<(), Fail> {
    let (store, (first, mut second), merger) = told_pair(&rt)?;
    has_seen(&rt, &store, &second, 1, 1);
    begins(&rt, &store, &mut second, 1);
    gets(&rt, &store, &mut second, 7, Some((10, 20)));
    let crew = gathered_pair(rt.alloc(), &store, first, second, merger)?;
    crew_sees(&rt, &store, &crew, 0, 1);
    crew_sees(&rt, &store, &crew, 1, 1);
    Ok(())
}

#[test]
fn a_pass_that_is_left_out_is_missing(rt: HostRuntime) -> Result<(), Fail> {
    let (store, (first, second), merger) = told_pair(&rt)?;
    // All is handed back, and is gathered with the session that was left out.
    let (first, merger) = refused(&rt, rt.alloc(), &store, first, merger)?;
    has_seen(&rt, &store, &first, 0, 1);
    let crew = gathered_pair(rt.alloc(), &store, first, second, merger)?;
    crew_sees(&rt, &store, &crew, 1, 1);
    Ok(())
}

/// In a crew's calls, session 0 commits a row that it reads before.
fn with_a_row(rt: &impl Abort, alloc: Global) -> Result<(Store, Crew), Fail>
    ensures { IfOk result (λ both. IsCrewOf both.0 both.1) }
{
    let (store, mut crew) = opened(alloc)?;
    crew_begins(rt, &store, &mut crew, 0, 0);
    puts(rt, &store, &mut crew, 0, 7, (10, 20));
    crew_gets(rt, &store, &mut crew, 0, 7, Some((10, 20)));
    crew_commits(rt, &store, &mut crew, 0, Outcome::Committed { time: 1 });
    Ok((store, crew))
}

#[test]
fn a_crew_is_parted_and_gathered_at_once(rt: HostRuntime) -> Result<(), Fail> {
    let alloc = rt.alloc();
    let (store, crew) = with_a_row(&rt, alloc)?;
    let (sessions, merger) = part_at_last(alloc, &store, crew)?;
    let mut crew = gathered(alloc, &store, sessions, merger)?;
    let all = crew.history(alloc, &store)?;
    let [one] = all.items() else {
        return Err(Fail::from("the history has one commit"));
    };
    is_commit(&rt, one, 0, 1, 0);
    let [write] = one.writes.items() else {
        return Err(Fail::from("the commit has one write"));
    };
    assert_eq!(rt; (write.key, write.act.copied()), (7, Act::Put(row(10, 20))));
    Ok(())
}
