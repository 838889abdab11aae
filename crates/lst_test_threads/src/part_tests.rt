//! A crew is parted, its sessions tell each other what they have seen, and it is gathered.
//!
//! Each answer is compared in a function of its own, whose contract says no more than the next call asks: so the proofs of the tests stay short.
ghost use Rattle.std.specs.Prelude.{All, IfOk};
ghost use Rattle.lst_session.specs.Crews.{IsCrewOf};
ghost use Rattle.lst_session.specs.Parting.{IsMergerOf};
ghost use Rattle.lst_session.specs.Passes.{IsReady};

use arrayvec::ArrayVec;
use lst_layout::Limits;
use lst_model::{Commit, Key, Row, Time};
use lst_rule::Store;
use lst_session::{
    CommitRefusal, Crew, GatherCause, Merge, Merger, Outcome, Session, Sessions, WriteRefusal,
    gather, next_phase, open_crew,
};
use lst_txn::take_turn;
use std::alloc::Global;
use std::process::Abort;
use std::test::Fail;

/// One range, with 300 tails, and three sessions.
const SMALL: Limits = Limits {
    columns: 2,
    ranges: 1,
    tails: 300,
    sessions: 3,
    txns: 4,
    spare: 1,
    indexed: 0,
};

pub(crate) fn row(first: u64, second: u64) -> Row {
    let mut cells = ArrayVec::new();
    cells.push(first);
    cells.push(second);
    Row::of_numbers(cells)
}

pub(crate) fn opened(alloc: Global) -> Result<(Store, Crew), Fail>
    ensures { IfOk result (λ both. IsCrewOf both.0 both.1) }
{
    let limits = SMALL;
    let Ok(layout) = limits.check() else {
        return Err(Fail::from("the limits are in range"));
    };
    Ok(open_crew(alloc, &layout)?)
}

/// Parts a crew. Where there is no memory for it the crew is handed back, and is parted at a second try.
pub(crate) fn part_at_last(
    alloc: Global,
    store: &Store,
    crew: Crew,
) -> Result<(Sessions, Merger), Fail>
    requires { IsCrewOf store.now crew }
    ensures sessions { IfOk result (λ both. All (IsReady store.now) both.0) }
    ensures merger { IfOk result (λ both. IsMergerOf store.now both.1) }
{
    let again = match crew.part(alloc, store) {
        Ok(both) => return Ok(both),
        Err((again, _)) => again,
    };
    match again.part(alloc, store) {
        Ok(both) => Ok(both),
        Err(_) => Err(Fail::from("there is memory")),
    }
}

/// The three sessions of a list, in order.
fn three(store: &Store, sessions: Sessions) -> Result<(Session, Session, Session), Fail>
    requires { All (IsReady store.now) sessions }
    ensures first { IfOk result (λ all. IsReady store.now all.0) }
    ensures second { IfOk result (λ all. IsReady store.now all.1) }
    ensures third { IfOk result (λ all. IsReady store.now all.2) }
{
    let mut items = sessions.into_vec();
    let (Some(third), Some(second), Some(first)) = (items.pop(), items.pop(), items.pop()) else {
        return Err(Fail::from("there are three sessions"));
    };
    Ok((first, second, third))
}

/// The three sessions of a crew, in order, and its merger.
fn parted(
    alloc: Global,
    store: &Store,
    crew: Crew,
) -> Result<(Session, Session, Session, Merger), Fail>
    requires { IsCrewOf store.now crew }
    ensures first { IfOk result (λ all. IsReady store.now all.0) }
    ensures second { IfOk result (λ all. IsReady store.now all.1) }
    ensures third { IfOk result (λ all. IsReady store.now all.2) }
    ensures merger { IfOk result (λ all. IsMergerOf store.now all.3) }
{
    let (sessions, merger) = part_at_last(alloc, store, crew)?;
    let (first, second, third) = three(store, sessions)?;
    Ok((first, second, third, merger))
}

/// Sessions in a list, in this order.
fn listed(
    alloc: Global,
    store: &Store,
    first: Session,
    second: Session,
    third: Session,
) -> Result<Sessions, Fail>
    requires first { IsReady store.now first }
    requires second { IsReady store.now second }
    requires third { IsReady store.now third }
    ensures { IfOk result (λ sessions. All (IsReady store.now) sessions) }
{
    let mut items = Vec::new(alloc);
    items.push(first)?;
    items.push(second)?;
    items.push(third)?;
    Ok(Sessions::from_vec(items))
}

/// Gathers sessions that are all there. Where there is no memory for it all is handed back, and is gathered at a second try.
pub(crate) fn gathered(
    alloc: Global,
    store: &Store,
    sessions: Sessions,
    merger: Merger,
) -> Result<Crew, Fail>
    requires sessions { All (IsReady store.now) sessions }
    requires merger { IsMergerOf store.now merger }
    ensures { IfOk result (IsCrewOf store.now) }
{
    let refusal = match gather(alloc, store, sessions, merger) {
        Ok(crew) => return Ok(crew),
        Err(refusal) => refusal,
    };
    if !matches!(refusal.cause, GatherCause::OutOfMemory) {
        return Err(Fail::from("no session is missing"));
    }
    match gather(alloc, store, refusal.sessions, refusal.merger) {
        Ok(crew) => Ok(crew),
        Err(_) => Err(Fail::from("there is memory")),
    }
}

/// Parts the crew of a store that opens.
pub(crate) fn opened_parts(
    alloc: Global,
) -> Result<(Store, Session, Session, Session, Merger), Fail>
    ensures first { IfOk result (λ all. IsReady all.0 all.1) }
    ensures second { IfOk result (λ all. IsReady all.0 all.2) }
    ensures third { IfOk result (λ all. IsReady all.0 all.3) }
    ensures merger { IfOk result (λ all. IsMergerOf all.0 all.4) }
{
    let (store, crew) = opened(alloc)?;
    let (first, second, third, merger) = parted(alloc, &store, crew)?;
    Ok((store, first, second, third, merger))
}

/// Gathers three sessions, in this order.
fn gathered_three(
    alloc: Global,
    store: &Store,
    first: Session,
    second: Session,
    third: Session,
    merger: Merger,
) -> Result<Crew, Fail>
    requires first { IsReady store.now first }
    requires second { IsReady store.now second }
    requires third { IsReady store.now third }
    requires merger { IsMergerOf store.now merger }
    ensures { IfOk result (IsCrewOf store.now) }
{
    let sessions = listed(alloc, store, first, second, third)?;
    gathered(alloc, store, sessions, merger)
}

/// A row, or none.
fn row_of(cells: Option<(u64, u64)>) -> Option<Row> {
    match cells {
        Some((first, second)) => Some(row(first, second)),
        None => None,
    }
}

/// Inserts a row, in a crew's call.
fn put(
    rt: &impl Abort,
    store: &Store,
    crew: &mut Crew,
    s: u32,
    key: Key,
    cells: (u64, u64),
) -> Result<(), WriteRefusal>
    requires { IsCrewOf store.now crew.old }
    ensures { IsCrewOf store.now crew.new }
{
    let row = row(cells.0, cells.1);
    assert!(rt; s < crew.seat.limits().sessions);
    assert!(rt; row.len() == crew.seat.limits().columns as usize);
    crew.insert(store, s, key, &row)
}

/// The same, and it is accepted.
pub(crate) fn puts(
    rt: &impl Abort,
    store: &Store,
    crew: &mut Crew,
    s: u32,
    key: Key,
    cells: (u64, u64),
)
    requires { IsCrewOf store.now crew.old }
    ensures { IsCrewOf store.now crew.new }
{
    assert_eq!(rt; put(rt, store, crew, s, key, cells), Ok(()));
}

/// Begins a transaction, in a crew's call, at this time.
pub(crate) fn crew_begins(rt: &impl Abort, store: &Store, crew: &mut Crew, s: u32, time: Time)
    requires { IsCrewOf store.now crew.old }
    ensures { IsCrewOf store.now crew.new }
{
    assert!(rt; s < crew.seat.limits().sessions);
    assert_eq!(rt; crew.begin(store, s), Ok(time));
}

/// Reads a key, in a crew's call, and finds this.
pub(crate) fn crew_gets(
    rt: &impl Abort,
    store: &Store,
    crew: &mut Crew,
    s: u32,
    key: Key,
    cells: Option<(u64, u64)>,
)
    requires { IsCrewOf store.now crew.old }
    ensures { IsCrewOf store.now crew.new }
{
    assert!(rt; s < crew.seat.limits().sessions);
    assert_eq!(rt; crew.get(store, s, key), Ok(row_of(cells)));
}

/// Ends a transaction, in a crew's call, in this way.
pub(crate) fn crew_commits(
    rt: &impl Abort,
    store: &Store,
    crew: &mut Crew,
    s: u32,
    outcome: Outcome,
)
    requires { IsCrewOf store.now crew.old }
    ensures { IsCrewOf store.now crew.new }
{
    assert!(rt; s < crew.seat.limits().sessions);
    assert_eq!(rt; crew.commit(store, s), Ok(outcome));
}

/// The epoch that a session of the crew has pinned is this.
fn crew_pins(rt: &impl Abort, store: &Store, crew: &Crew, s: u32, epoch: Option<u64>)
    requires { IsCrewOf store.now crew.now }
{
    assert!(rt; s < crew.seat.limits().sessions);
    assert_eq!(rt; crew.seat.pinned(s), epoch);
}

/// The crew hosts the session, which has seen so many commits.
pub(crate) fn crew_sees(rt: &impl Abort, store: &Store, crew: &Crew, s: u32, time: Time)
    requires { IsCrewOf store.now crew.now }
{
    assert!(rt; s < crew.seat.limits().sessions && crew.seat.hosts(s));
    assert_eq!(rt; crew.seat.seen(s), time);
}

/// Inserts a row, in a session's call.
fn insert(
    rt: &impl Abort,
    store: &Store,
    session: &mut Session,
    key: Key,
    cells: (u64, u64),
) -> Result<(), WriteRefusal>
    requires { IsReady store.now session.old }
    ensures { IsReady store.now session.new }
{
    let row = row(cells.0, cells.1);
    assert!(rt; row.len() == session.seat.limits().columns as usize);
    session.insert(store, key, &row)
}

/// The same, and it is accepted.
fn inserts(rt: &impl Abort, store: &Store, session: &mut Session, key: Key, cells: (u64, u64))
    requires { IsReady store.now session.old }
    ensures { IsReady store.now session.new }
{
    assert_eq!(rt; insert(rt, store, session, key, cells), Ok(()));
}

/// Begins a transaction, in a session's call, at this time.
pub(crate) fn begins(rt: &impl Abort, store: &Store, session: &mut Session, time: Time)
    requires { IsReady store.now session.old }
    ensures { IsReady store.now session.new }
{
    assert_eq!(rt; session.begin(store), Ok(time));
}

/// Reads a key, in a session's call, and finds this.
pub(crate) fn gets(
    rt: &impl Abort,
    store: &Store,
    session: &mut Session,
    key: Key,
    cells: Option<(u64, u64)>,
)
    requires { IsReady store.now session.old }
    ensures { IsReady store.now session.new }
{
    assert_eq!(rt; session.get(store, key), Ok(row_of(cells)));
}

/// Ends a transaction, in a session's call, in this way.
fn commits(rt: &impl Abort, store: &Store, session: &mut Session, outcome: Outcome)
    requires { IsReady store.now session.old }
    ensures { IsReady store.now session.new }
{
    assert_eq!(rt; session.try_commit(store), Ok(outcome));
}

/// The epoch that the session has pinned is this.
fn pins(rt: &impl Abort, store: &Store, session: &Session, epoch: Option<u64>)
    requires { IsReady store.now session.now }
{
    assert_eq!(rt; session.seat.pinned(session.number), epoch);
}

/// The session has this number, and has seen so many commits.
pub(crate) fn has_seen(rt: &impl Abort, store: &Store, session: &Session, number: u32, time: Time)
    requires { IsReady store.now session.now }
{
    assert_eq!(rt; (session.number, session.seen()), (number, time));
}

/// Merges a page that is there, in the merger's call, in this way.
fn merges(rt: &impl Abort, store: &Store, merger: &mut Merger, column: u32, wanted: Merge)
    requires { IsMergerOf store.now merger.old }
    ensures { IsMergerOf store.now merger.new }
{
    assert!(rt; merger.seat.limits().ranges == 1);
    assert!(rt; column < merger.seat.limits().columns);
    assert_eq!(rt; merger.merge(store, 0, column), wanted);
}

/// The same in a crew's call.
fn crew_merges(rt: &impl Abort, store: &Store, crew: &mut Crew, column: u32, wanted: Merge)
    requires { IsCrewOf store.now crew.old }
    ensures { IsCrewOf store.now crew.new }
{
    assert!(rt; crew.seat.limits().ranges == 1);
    assert!(rt; column < crew.seat.limits().columns);
    assert_eq!(rt; crew.merge(store, 0, column), wanted);
}

/// Commits a row in a transaction of its own, which is the one at a time.
fn commit(rt: &impl Abort, store: &Store, session: &mut Session, key: Key, time: Time)
    requires { IsReady store.now session.old }
    ensures { IsReady store.now session.new }
{
    assert!(rt; session.begin(store).is_ok());
    inserts(rt, store, session, key, (10, 20));
    commits(rt, store, session, Outcome::Committed { time });
}

/// Lets a session hear a note of another one.
fn tells(store: &Store, teller: &mut Session, hearer: &mut Session)
    requires teller { IsReady store.now teller.old }
    requires hearer { IsReady store.now hearer.old }
    ensures teller { IsReady store.now teller.new }
    ensures hearer { IsReady store.now hearer.new }
{
    let note = teller.tell(store);
    hearer.hear(store, note);
}

/// Two sessions tell what they have seen, and then each hears the other's note.
fn tell_each_other(store: &Store, first: &mut Session, second: &mut Session)
    requires first { IsReady store.now first.old }
    requires second { IsReady store.now second.old }
    ensures first { IsReady store.now first.new }
    ensures second { IsReady store.now second.new }
{
    let older = first.tell(store);
    let newer = second.tell(store);
    second.hear(store, older);
    first.hear(store, newer);
}

/// The second session's commit and its pin then, while the first one has the turn, which it gives back.
fn committed_meanwhile(
    store: &Store,
    first: &mut Session,
    second: &mut Session,
) -> Result<(Result<Outcome, CommitRefusal>, Option<u64>), Fail>
    requires first { IsReady store.now first.old }
    requires second { IsReady store.now second.old }
    ensures { IsReady store.now second.new }
{
    let s = first.number;
    if !first.seat.has_writes(s) {
        return Err(Fail::from("the first session has writes"));
    }
    let Ok(turn) = take_turn(store, &mut first.seat, s) else {
        return Err(Fail::from("nobody has the turn"));
    };
    let answer = second.try_commit(store);
    let pinned = second.seat.pinned(second.number);
    turn.give_back(store, &mut first.seat);
    Ok((answer, pinned))
}

/// The commit meets the turn, and the pin stays.
fn is_busy_meanwhile(
    rt: &impl Abort,
    store: &Store,
    first: &mut Session,
    second: &mut Session,
) -> Result<(), Fail>
    requires first { IsReady store.now first.old }
    requires second { IsReady store.now second.old }
    ensures { IsReady store.now second.new }
{
    let told = committed_meanwhile(store, first, second)?;
    assert_eq!(rt; told, (Err(CommitRefusal::Busy), Some(0)));
    Ok(())
}

/// Gathers the session 0 alone, which is refused: the least one that is missing is named, and all is handed back.
pub(crate) fn refused(
    rt: &impl Abort,
    alloc: Global,
    store: &Store,
    session: Session,
    merger: Merger,
) -> Result<(Session, Merger), Fail>
    requires session { IsReady store.now session }
    requires merger { IsMergerOf store.now merger }
    ensures session { IfOk result (λ both. IsReady store.now both.0) }
    ensures merger { IfOk result (λ both. IsMergerOf store.now both.1) }
{
    let mut items = Vec::new(alloc);
    items.push(session)?;
    let Err(refusal) = gather(alloc, store, Sessions::from_vec(items), merger) else {
        return Err(Fail::from("sessions are missing"));
    };
    assert!(rt; matches!(refusal.cause, GatherCause::Gap { missing: 1 }));
    let mut items = refusal.sessions.into_vec();
    match items.pop() {
        Some(session) => Ok((session, refusal.merger)),
        None => Err(Fail::from("the session is handed back")),
    }
}

#[test]
fn a_session_stays_pinned_while_another_one_has_the_turn(rt: HostRuntime) -> Result<(), Fail> {
    let (store, mut first, mut second, _, _) = opened_parts(rt.alloc())?;
    begins(&rt, &store, &mut first, 0);
    inserts(&rt, &store, &mut first, 7, (10, 20));
    begins(&rt, &store, &mut second, 0);
    inserts(&rt, &store, &mut second, 8, (30, 40));
    is_busy_meanwhile(&rt, &store, &mut first, &mut second)?;
    commits(&rt, &store, &mut second, Outcome::Committed { time: 1 });
    pins(&rt, &store, &second, None);
    Ok(())
}

/// In a crew's calls, session 0 begins a transaction and puts a row, which stays open.
fn with_an_open_row(rt: &impl Abort, alloc: Global) -> Result<(Store, Crew), Fail>
    ensures { IfOk result (λ both. IsCrewOf both.0 both.1) }
{
    let (store, mut crew) = opened(alloc)?;
    crew_begins(rt, &store, &mut crew, 0, 0);
    puts(rt, &store, &mut crew, 0, 7, (10, 20));
    Ok((store, crew))
}

/// What is so of the open transaction after all was gathered.
fn goes_on(rt: &impl Abort, store: &Store, crew: &mut Crew)
    requires { IsCrewOf store.now crew.old }
{
    assert_eq!(rt; crew.seat.limits().sessions, 3);
    crew_pins(rt, store, crew, 0, Some(0));
    crew_gets(rt, store, crew, 0, 7, Some((10, 20)));
    crew_commits(rt, store, crew, 0, Outcome::Committed { time: 1 });
    crew_pins(rt, store, crew, 0, None);
    crew_gets(rt, store, crew, 1, 7, None);
    crew_commits(rt, store, crew, 1, Outcome::Ended { time: 0 });
    crew_begins(rt, store, crew, 2, 1);
    crew_gets(rt, store, crew, 2, 8, Some((30, 40)));
}

#[test]
fn an_open_transaction_goes_on_after_it_was_parted_and_gathered(
    rt: HostRuntime,
) -> Result<(), Fail> {
    let alloc = rt.alloc();
    let (store, crew) = with_an_open_row(&rt, alloc)?;
    let (mut first, mut second, third, merger) = parted(alloc, &store, crew)?;
    has_seen(&rt, &store, &first, 0, 0);
    has_seen(&rt, &store, &second, 1, 0);
    has_seen(&rt, &store, &third, 2, 0);
    pins(&rt, &store, &first, Some(0));
    pins(&rt, &store, &second, None);
    gets(&rt, &store, &mut first, 7, Some((10, 20)));
    inserts(&rt, &store, &mut first, 8, (30, 40));
    begins(&rt, &store, &mut second, 0);
    gets(&rt, &store, &mut second, 7, None);
    // In another order.
    let mut crew = gathered_three(alloc, &store, third, first, second, merger)?;
    goes_on(&rt, &store, &mut crew);
    Ok(())
}

#[test]
fn the_least_session_that_is_missing_is_named_and_all_is_handed_back(
    rt: HostRuntime,
) -> Result<(), Fail> {
    let alloc = rt.alloc();
    let (store, mut first, second, third, merger) = opened_parts(alloc)?;
    commit(&rt, &store, &mut first, 7, 1);
    let (first, merger) = refused(&rt, alloc, &store, first, merger)?;
    has_seen(&rt, &store, &first, 0, 1);
    let mut crew = gathered_three(alloc, &store, first, second, third, merger)?;
    crew_begins(&rt, &store, &mut crew, 2, 1);
    Ok(())
}

#[test]
fn a_session_that_hears_a_note_has_seen_what_was_told(rt: HostRuntime) -> Result<(), Fail> {
    let (store, mut first, mut second, _, _) = opened_parts(rt.alloc())?;
    commit(&rt, &store, &mut first, 7, 1);
    has_seen(&rt, &store, &first, 0, 1);
    has_seen(&rt, &store, &second, 1, 0);
    tells(&store, &mut first, &mut second);
    has_seen(&rt, &store, &second, 1, 1);
    begins(&rt, &store, &mut second, 1);
    gets(&rt, &store, &mut second, 7, Some((10, 20)));
    inserts(&rt, &store, &mut second, 8, (30, 40));
    commits(&rt, &store, &mut second, Outcome::Committed { time: 2 });
    // What it had seen itself it doesn't forget over an older note.
    tell_each_other(&store, &mut first, &mut second);
    has_seen(&rt, &store, &second, 1, 2);
    has_seen(&rt, &store, &first, 0, 2);
    begins(&rt, &store, &mut first, 2);
    gets(&rt, &store, &mut first, 8, Some((30, 40)));
    Ok(())
}

/// Lets each of three sessions hear of the others.
pub(crate) fn in_next_phase(
    alloc: Global,
    store: &Store,
    first: Session,
    second: Session,
    third: Session,
) -> Result<(Session, Session, Session), Fail>
    requires first { IsReady store.now first }
    requires second { IsReady store.now second }
    requires third { IsReady store.now third }
    ensures first { IfOk result (λ all. IsReady store.now all.0) }
    ensures second { IfOk result (λ all. IsReady store.now all.1) }
    ensures third { IfOk result (λ all. IsReady store.now all.2) }
{
    let mut sessions = listed(alloc, store, first, second, third)?;
    next_phase(store, &mut sessions);
    three(store, sessions)
}

#[test]
fn in_the_next_phase_each_session_has_seen_what_any_had(rt: HostRuntime) -> Result<(), Fail> {
    let (store, mut first, mut second, mut third, _) = opened_parts(rt.alloc())?;
    begins(&rt, &store, &mut second, 0);
    inserts(&rt, &store, &mut second, 9, (50, 60));
    commit(&rt, &store, &mut third, 7, 1);
    commit(&rt, &store, &mut first, 8, 2);
    has_seen(&rt, &store, &first, 0, 2);
    has_seen(&rt, &store, &second, 1, 0);
    has_seen(&rt, &store, &third, 2, 1);
    let (first, mut second, third) = in_next_phase(rt.alloc(), &store, first, second, third)?;
    has_seen(&rt, &store, &first, 0, 2);
    has_seen(&rt, &store, &second, 1, 2);
    has_seen(&rt, &store, &third, 2, 2);
    // The transaction that was open is so still, with its begin and its own writes.
    assert!(rt; first.is_idle() && !second.is_idle() && third.is_idle());
    gets(&rt, &store, &mut second, 7, None);
    gets(&rt, &store, &mut second, 9, Some((50, 60)));
    commits(&rt, &store, &mut second, Outcome::Committed { time: 3 });
    Ok(())
}

/// In a crew's calls, session 1 commits a row.
fn with_a_commit(rt: &impl Abort, alloc: Global) -> Result<(Store, Crew), Fail>
    ensures { IfOk result (λ both. IsCrewOf both.0 both.1) }
{
    let (store, mut crew) = opened(alloc)?;
    crew_begins(rt, &store, &mut crew, 1, 0);
    puts(rt, &store, &mut crew, 1, 5, (1, 2));
    crew_commits(rt, &store, &mut crew, 1, Outcome::Committed { time: 1 });
    Ok((store, crew))
}

/// The commit is of this session, and has this number and begin.
pub(crate) fn is_commit(rt: &impl Abort, commit: &Commit, session: u32, number: u32, begin: Time) {
    assert_eq!(rt;
        (commit.session, commit.number, commit.begin),
        (session, number, begin)
    );
}

#[test]
fn a_gathered_history_has_the_commits_of_all(rt: HostRuntime) -> Result<(), Fail> {
    let alloc = rt.alloc();
    let (store, crew) = with_a_commit(&rt, alloc)?;
    let (mut first, mut second, mut third, merger) = parted(alloc, &store, crew)?;
    commit(&rt, &store, &mut third, 7, 2);
    commit(&rt, &store, &mut first, 8, 3);
    commit(&rt, &store, &mut second, 9, 4);
    let mut crew = gathered_three(alloc, &store, first, second, third, merger)?;
    crew_sees(&rt, &store, &crew, 0, 4);
    let all = crew.history(alloc, &store)?;
    let [one, two, three, four] = all.items() else {
        return Err(Fail::from("the history has four commits"));
    };
    is_commit(&rt, one, 1, 1, 0);
    is_commit(&rt, two, 2, 1, 1);
    is_commit(&rt, three, 0, 1, 2);
    is_commit(&rt, four, 1, 2, 3);
    let [write] = four.writes.items() else {
        return Err(Fail::from("the last commit has one write"));
    };
    assert!(rt; write.key == 9);
    Ok(())
}

#[test]
fn a_merger_merges_while_sessions_go_on(rt: HostRuntime) -> Result<(), Fail> {
    let alloc = rt.alloc();
    let (store, mut first, mut second, third, mut merger) = opened_parts(alloc)?;
    begins(&rt, &store, &mut second, 0);
    commit(&rt, &store, &mut first, 7, 1);
    merges(&rt, &store, &mut merger, 0, Merge::Merged { tps: 1 });
    merges(&rt, &store, &mut merger, 1, Merge::NoFrame { session: 1 });
    gets(&rt, &store, &mut second, 7, None);
    commits(&rt, &store, &mut second, Outcome::Ended { time: 0 });
    let mut crew = gathered_three(alloc, &store, first, second, third, merger)?;
    crew_merges(&rt, &store, &mut crew, 0, Merge::Idle { tps: 1 });
    crew_merges(&rt, &store, &mut crew, 1, Merge::Merged { tps: 1 });
    Ok(())
}
