//! Scripts that the sessions of a store that opens run side by side: the texts of their replies compared, and where their workers were.
ghost use Rattle.std.specs.Prelude.{◌≡◌, ◌<◌, IsTrue, IfOk};
ghost use Rattle.std.specs.List.{All};
ghost use Rattle.lst_layout.specs.Limits.{IsValid};
ghost use Rattle.lst_model.specs.Lines.{CallFits, LineFits};
ghost use Rattle.lst_session.specs.Parting.{IsMergerOf};
ghost use Rattle.lst_work_laws.specs.Whole.{AreAll};

use lst_layout::Limits;
use lst_model::{Call, Line, Text};
use lst_replies::{Replies, print_report, push_line};
use lst_rule::Store;
use lst_script::{Script, parse};
use lst_session::{Merger, Sessions, open_crew};
use lst_work::{FreeGate, Gate, work_on, work_total};
use std::alloc::Global;
use std::process::Abort;
use std::sync::Wait;
use std::sync::atomic::{AtomicU64, Ordering};
use std::test::Fail;
use std::thread::Threads;

/// One range, and two sessions.
const PAIR: Limits = Limits {
    columns: 2,
    ranges: 1,
    tails: 300,
    sessions: 2,
    txns: 4,
    spare: 8,
    indexed: 0,
};

/// The same with as many sessions as there may be.
const MANY: Limits = Limits {
    columns: 2,
    ranges: 1,
    tails: 300,
    sessions: 16,
    txns: 4,
    spare: 8,
    indexed: 0,
};

/// A store with all its sessions and its merger.
#[derive(Drop)]
pub(crate) struct Opened {
    pub(crate) store: Store,
    pub(crate) sessions: Sessions,
    pub(crate) merger: Merger,
    pub(crate) ghost all: { AreAll store sessions },
    pub(crate) ghost ready: { IsMergerOf store merger },
}

/// Opens such a store.
pub(crate) fn open_all(alloc: Global, limits: &Limits) -> Result<Opened, Fail>
    ensures { IfOk result (λ on. on.store.layout.limits ≡ limits.now) }
{
    let Ok(layout) = limits.check() else {
        return Err(Fail::from("the limits are in range"));
    };
    let (store, crew) = open_crew(alloc, &layout)?;
    let Ok((sessions, merger)) = crew.part(alloc, &store) else {
        return Err(Fail::from("there is memory"));
    };
    Ok(Opened {
        store,
        sessions,
        merger,
    })
}

/// Whether a store with so many columns takes the call.
pub(crate) fn call_fits(columns: u32, call: &Call) -> bool
    ensures { IsTrue result → CallFits columns call.now }
{
    match call {
        Call::Insert { row, .. } => row.len() == columns as usize,
        Call::Update { patch, .. } => { patch.len() == columns as usize && patch.sets_some() }
        Call::Sum { column } => *column < columns,
        Call::Find { column, .. } => *column < columns,
        _ => true,
    }
}

/// Whether a store with these limits takes the line.
fn line_fits(limits: &Limits, line: &Line) -> bool
    ensures { IsTrue result → LineFits limits.now.sessions limits.now.ranges limits.now.columns line.now }
{
    match line {
        Line::Phase => true,
        Line::Merge { range, column } => *range < limits.ranges && *column < limits.columns,
        Line::Call { session, call } => {
            *session < limits.sessions && call_fits(limits.columns, call)
        }
    }
}

/// Whether it takes each line.
pub(crate) fn lines_fit(limits: &Limits, lines: &Script) -> bool
    ensures { IsTrue result → All (LineFits limits.now.sessions limits.now.ranges limits.now.columns) lines.now }
{
    for i in 0..lines.len() {
        if !line_fits(limits, &lines.line(i)) {
            return false;
        }
    }
    true
}

/// The script of a text.
pub(crate) fn script_of(alloc: Global, limits: &Limits, text: &[u8]) -> Result<Script, Fail>
    requires { IsValid limits.now }
    ensures { IfOk result (λ script. All (LineFits limits.now.sessions limits.now.ranges limits.now.columns) script) }
{
    let Ok(script) = parse(alloc, text, limits) else {
        return Err(Fail::from("the text is a script"));
    };
    if !lines_fit(limits, &script) {
        return Err(Fail::from("each line fits the limits"));
    }
    Ok(script)
}

/// The texts of the replies, one after another. The end of a phase has no reply.
fn told(alloc: Global, script: &Script, replies: &Replies) -> Result<Text, Fail> {
    let mut text = Text::new(alloc);
    let mut said = 0;
    for line in script.unpacked(alloc)?.iter() {
        if let Line::Phase = line {
            continue;
        }
        let Some(answered) = replies.items().get(said) else {
            return Err(Fail::from("each line has a reply"));
        };
        push_line(&mut text, line, &answered.1)?;
        said = said.wrapping_add(1);
    }
    Ok(text)
}

/// What all sessions of a store that opens with these limits answer to a script.
fn answered<R: AllocGlobal + Threads + Wait + Sync, G: Gate + Sync>(
    rt: &R,
    gate: &G,
    limits: Limits,
    text: &[u8],
) -> Result<Text, Fail> {
    let alloc = rt.alloc();
    let Opened {
        store,
        sessions,
        mut merger,
    } = open_all(alloc, &limits)?;
    let script = script_of(alloc, &limits, text)?;
    let (_, replies) = work_on(rt, alloc, &store, sessions, &mut merger, &script, gate)?;
    told(alloc, &script, &replies)
}

/// The same, compared with what is wanted.
fn answers<R: Abort + AllocGlobal + Threads + Wait + Sync, G: Gate + Sync>(
    rt: &R,
    gate: &G,
    limits: Limits,
    text: &[u8],
    wanted: &[u8],
) -> Result<(), Fail> {
    let told = answered(rt, gate, limits, text)?;
    assert_eq!(rt; told.as_bytes(), wanted);
    Ok(())
}

#[test]
fn two_sessions_write_on_keys_of_their_own(rt: HostRuntime) -> Result<(), Fail> {
    let script =
        b"0 begin\n1 begin\n0 insert 1 10 20\n1 insert 2 30 40\n0 get 1\n1 get 1\n1 get 2\nphase\n\
        1 update 2 _ 50\n0 commit\n1 get 2\n1 get 1\n";
    // Only one session commits in the second phase, and no transaction begins there.
    let wanted = b"0 begun 0\n1 begun 0\n0 ok\n1 ok\n0 row 10 20\n1 none\n1 row 30 40\n\
        1 ok\n0 committed 1\n1 row 30 50\n1 none\n";
    answers(&rt, &FreeGate, PAIR, script, wanted)
}

/// Whether the text is one of these.
fn is_one_of(text: &[u8], texts: &[&[u8]]) -> bool {
    for &one in texts {
        if text == one {
            return true;
        }
    }
    false
}

/// The replies of two sessions to a script, where those between the first ones and the last ones may come in several ways.
fn answers_one_of<R: Abort + AllocGlobal + Threads + Wait + Sync>(
    rt: &R,
    script: &[u8],
    first: &[u8],
    ways: &[&[u8]],
    last: &[u8],
) -> Result<(), Fail> {
    let text = answered(rt, &FreeGate, PAIR, script)?;
    let Some(rest) = text.as_bytes().strip_prefix(first) else {
        return Err(Fail::from("the first replies are these"));
    };
    let Some(between) = rest.strip_suffix(last) else {
        return Err(Fail::from("the last replies are these"));
    };
    assert!(rt; is_one_of(between, ways));
    Ok(())
}

#[test]
fn sessions_that_commit_in_a_phase_hear_of_each_other_behind_it(
    rt: HostRuntime,
) -> Result<(), Fail> {
    answers_one_of(
        &rt,
        b"0 begin\n1 begin\n0 insert 1 10 20\n1 insert 2 30 40\nphase\n0 commit\n1 commit\nphase\n\
        0 begin\n1 begin\n0 scan\n1 sum 0\n",
        b"0 begun 0\n1 begun 0\n0 ok\n1 ok\n",
        &[
            b"0 committed 1\n1 committed 2\n",
            b"0 committed 2\n1 committed 1\n",
        ],
        b"0 begun 2\n1 begun 2\n0 rows 1:10,20 2:30,40\n1 sum 40\n",
    )
}

/// Two sessions that wait for each other, each before a line of its own.
#[derive(Drop)]
struct Meeting {
    first: AtomicU64,
    second: AtomicU64,
    /// How often one waited in vain.
    in_vain: AtomicU64,
}

impl Meeting {
    fn new() -> Meeting {
        Meeting {
            first: AtomicU64::new(0),
            second: AtomicU64::new(0),
            in_vain: AtomicU64::new(0),
        }
    }

    /// Says that the one is there, and waits for the other.
    fn meet(&self, one: &AtomicU64, other: &AtomicU64) {
        one.store(1, Ordering::SeqCst);
        for _ in 0..100_000_000u64 {
            if other.load(Ordering::SeqCst) == 1 {
                return;
            }
        }
        self.in_vain.fetch_add(1, Ordering::SeqCst);
    }
}

impl Gate for Meeting {
    fn at(&self, session: u32, line: u64, after: bool) {
        if after {
            return;
        }
        if session == 0 && line == 4 {
            self.meet(&self.first, &self.second);
        }
        if session == 1 && line == 6 {
            self.meet(&self.second, &self.first);
        }
    }
}

#[test]
fn lines_of_two_sessions_run_side_by_side(rt: HostRuntime) -> Result<(), Fail> {
    let meeting = Meeting::new();
    let script = b"0 begin\n1 begin\nphase\n0 get 7\n0 abort\n1 get 7\n1 abort\n";
    let wanted = b"0 begun 0\n1 begun 0\n0 none\n0 aborted\n1 none\n1 aborted\n";
    answers(&rt, &meeting, PAIR, script, wanted)?;
    assert_eq!(rt; meeting.in_vain.load(Ordering::SeqCst), 0);
    Ok(())
}

/// What each of two sessions and the merge worker pass, in order: a digit to the base 16 for each time, twice the place of the line, and one more
/// behind it.
#[derive(Drop)]
struct Steps {
    first: AtomicU64,
    second: AtomicU64,
    merger: AtomicU64,
}

impl Steps {
    fn new() -> Steps {
        Steps {
            first: AtomicU64::new(0),
            second: AtomicU64::new(0),
            merger: AtomicU64::new(0),
        }
    }

    fn all(&self) -> (u64, u64, u64) {
        (
            self.first.load(Ordering::SeqCst),
            self.second.load(Ordering::SeqCst),
            self.merger.load(Ordering::SeqCst),
        )
    }
}

impl Gate for Steps {
    fn at(&self, session: u32, line: u64, after: bool) {
        let steps = match session {
            0 => &self.first,
            1 => &self.second,
            _ => &self.merger,
        };
        let digit = line.wrapping_mul(2).wrapping_add(u64::from(after));
        let passed = steps.load(Ordering::SeqCst);
        steps.store(
            passed.wrapping_mul(16).wrapping_add(digit),
            Ordering::SeqCst,
        );
    }
}

#[test]
fn the_gate_is_passed_before_and_behind_each_line_with_its_place(
    rt: HostRuntime,
) -> Result<(), Fail> {
    let steps = Steps::new();
    let script = b"1 begin\n0 begin\nphase\n0 count\nmerge 0 1\n1 abort\n0 abort\n";
    let wanted = b"1 begun 0\n0 begun 0\n0 count 0\nidle 0\n1 aborted\n0 aborted\n";
    answers(&rt, &steps, PAIR, script, wanted)?;
    assert_eq!(rt; steps.all(), (0x45_89_ef, 0x23_cd, 0xab));
    Ok(())
}

#[test]
fn a_merge_is_made_once_the_sessions_have_come_past_it(rt: HostRuntime) -> Result<(), Fail> {
    let script =
        b"0 begin\n0 insert 1 10 20\n0 insert 2 30 40\n0 commit\nmerge 0 1\nphase\nmerge 0 1\nphase\n\
        1 begin\nmerge 0 0\n1 sum 0\nmerge 0 0\n1 get 2\nmerge 0 1\n";
    let wanted = b"0 begun 0\n0 ok\n0 ok\n0 committed 1\nmerged 2\nidle 2\n\
        1 begun 1\nmerged 2\n1 sum 40\nidle 2\n1 row 30 40\nidle 2\n";
    answers(&rt, &FreeGate, PAIR, script, wanted)
}

/// Scripts with no phases and with empty ones, and their replies.
const PHASES: [(&str, &str); 4] = [
    (
        "0 begin\n1 begin\n1 abort\n",
        "0 begun 0\n1 begun 0\n1 aborted\n",
    ),
    (
        "0 begin\nphase\nphase\n0 get 1\nphase\n",
        "0 begun 0\n0 none\n",
    ),
    ("phase\n", ""),
    ("", ""),
];

#[test]
fn a_script_may_have_no_phases_and_empty_ones(rt: HostRuntime) -> Result<(), Fail> {
    for (script, wanted) in PHASES {
        answers(&rt, &FreeGate, PAIR, script.as_bytes(), wanted.as_bytes())?;
    }
    Ok(())
}

#[test]
fn there_may_be_more_sessions_than_lines(rt: HostRuntime) -> Result<(), Fail> {
    let script = b"15 begin\n3 begin\nphase\n15 abort\n";
    answers(
        &rt,
        &FreeGate,
        MANY,
        script,
        b"15 begun 0\n3 begun 0\n15 aborted\n",
    )
}

/// The report of a script, and the sum of a column behind it.
fn totalled<R: AllocGlobal + Threads + Wait + Sync>(
    rt: &R,
    text: &[u8],
    column: u32,
) -> Result<(Text, Option<u128>), Fail>
    requires { column < 2 }
{
    let alloc = rt.alloc();
    let limits = PAIR;
    let Ok(layout) = limits.check() else {
        return Err(Fail::from("the limits are in range"));
    };
    let script = script_of(alloc, &layout.limits, text)?;
    let (report, total, _, _) = work_total(rt, alloc, &layout, &script, &FreeGate, column)?;
    Ok((print_report(alloc, &report)?, total))
}

/// The same, compared with what is wanted.
fn totals<R: Abort + AllocGlobal + Threads + Wait + Sync>(
    rt: &R,
    text: &[u8],
    column: u32,
    wanted: &[u8],
    sum: Option<u128>,
) -> Result<(), Fail>
    requires { column < 2 }
{
    let (report, total) = totalled(rt, text, column)?;
    assert_eq!(rt; (report.as_bytes(), total), (wanted, sum));
    Ok(())
}

#[test]
fn the_total_behind_one_commit_is_its_cell(rt: HostRuntime) -> Result<(), Fail> {
    totals(
        &rt,
        b"0 begin\n0 insert 7 10 20\n0 commit\n",
        0,
        b"0 begun 0\n0 ok\n0 committed 1\nhistory 1\n1 0 1 0\n",
        Some(10),
    )
}

#[test]
fn there_is_no_total_behind_one_commit_and_a_begin(rt: HostRuntime) -> Result<(), Fail> {
    totals(
        &rt,
        b"0 begin\n0 insert 7 10 20\n0 commit\n0 begin\n",
        0,
        b"0 begun 0\n0 ok\n0 committed 1\n0 begun 1\nhistory 1\n1 0 1 0\n",
        None,
    )
}

#[test]
fn a_column_is_added_up_behind_a_script(rt: HostRuntime) -> Result<(), Fail> {
    totals(
        &rt,
        b"0 begin\n0 insert 1 10 20\n0 commit\nphase\n1 begin\n1 insert 2 30 40\n1 commit\n",
        1,
        b"0 begun 0\n0 ok\n0 committed 1\n1 begun 1\n1 ok\n1 committed 2\n\
        history 2\n1 0 1 0\n2 1 1 1\n",
        Some(60),
    )
}

#[test]
fn a_column_is_added_up_behind_a_merge_and_a_later_write(rt: HostRuntime) -> Result<(), Fail> {
    totals(
        &rt,
        b"0 begin\n0 insert 1 10 20\n0 commit\nphase\n1 begin\n1 insert 2 30 40\n1 commit\nphase\n\
        merge 0 1\nphase\n0 begin\n0 update 1 _ 25\n0 commit\n",
        1,
        b"0 begun 0\n0 ok\n0 committed 1\n1 begun 1\n1 ok\n1 committed 2\n\
        merged 2\n0 begun 2\n0 ok\n0 committed 3\n\
        history 3\n1 0 1 0\n2 1 1 1\n3 0 2 2\n",
        Some(65),
    )
}

#[test]
fn there_is_no_sum_behind_a_transaction_that_is_open(rt: HostRuntime) -> Result<(), Fail> {
    totals(
        &rt,
        b"0 begin\n0 insert 1 10 20\n0 commit\nphase\n1 begin\n1 insert 2 30 40\n1 commit\nphase\n0 begin\n",
        1,
        b"0 begun 0\n0 ok\n0 committed 1\n1 begun 1\n1 ok\n1 committed 2\n0 begun 2\n\
        history 2\n1 0 1 0\n2 1 1 1\n",
        None,
    )
}

#[test]
fn there_is_a_sum_where_a_session_may_begin_once_more(rt: HostRuntime) -> Result<(), Fail> {
    totals(
        &rt,
        b"1 begin\n1 abort\n1 begin\n1 abort\n1 begin\n1 abort\n",
        0,
        b"1 begun 0\n1 aborted\n1 begun 0\n1 aborted\n1 begun 0\n1 aborted\nhistory 0\n",
        Some(0),
    )
}

#[test]
fn there_is_no_sum_where_a_session_has_begun_as_many_as_it_may(
    rt: HostRuntime,
) -> Result<(), Fail> {
    totals(
        &rt,
        b"1 begin\n1 abort\n1 begin\n1 abort\n1 begin\n1 abort\n1 begin\n1 abort\n",
        0,
        b"1 begun 0\n1 aborted\n1 begun 0\n1 aborted\n1 begun 0\n1 aborted\n1 begun 0\n1 aborted\n\
        history 0\n",
        None,
    )
}
