//! Lines of two sessions, each at a seat of its own, with the texts of their replies.
ghost use Rattle.std.specs.Prelude.{◌≡◌, IfOk};
ghost use Rattle.std.specs.List.{All};
ghost use Rattle.lst_model.specs.Lines.{CallFits, IsPatch};
ghost use Rattle.lst_session.specs.Passes.{IsReady};

use crate::work_tests::call_fits;
use lst_layout::Limits;
use lst_model::{Call, Line, OutOfMemory, Patch, Reply, Text};
use lst_replies::print_line;
use lst_rule::Store;
use lst_script::parse;
use lst_session::{CommitLock, Session, Sessions, open_crew};
use lst_work::line_reply;
use std::alloc::Global;
use std::process::Abort;
use std::sync::Wait;
use std::test::Fail;

/// One range, and two sessions with three transactions each. The second column has an index.
const PAIR: Limits = Limits {
    columns: 2,
    ranges: 1,
    tails: 300,
    sessions: 2,
    txns: 3,
    spare: 1,
    indexed: 2,
};

/// A store with its two sessions.
#[derive(Drop)]
struct Pair {
    store: Store,
    first: Session,
    second: Session,
    lock: CommitLock,
    ghost own: { IsReady store first × IsReady store second × (store.layout.limits.columns ≡ 2) },
}

/// The two sessions of a list, in order.
fn two(store: &Store, sessions: Sessions) -> Result<(Session, Session), Fail>
    requires { All (IsReady store.now) sessions }
    ensures first { IfOk result (λ both. IsReady store.now both.0) }
    ensures second { IfOk result (λ both. IsReady store.now both.1) }
{
    let mut items = sessions.into_vec();
    let (Some(second), Some(first)) = (items.pop(), items.pop()) else {
        return Err(Fail::from("there are two sessions"));
    };
    Ok((first, second))
}

/// The sessions of a store that opens.
fn open_pair(alloc: Global) -> Result<Pair, Fail> {
    let limits = PAIR;
    let Ok(layout) = limits.check() else {
        return Err(Fail::from("the limits are in range"));
    };
    let (store, crew) = open_crew(alloc, &layout)?;
    let Ok((sessions, _)) = crew.part(alloc, &store) else {
        return Err(Fail::from("there is memory"));
    };
    let (first, second) = two(&store, sessions)?;
    Ok(Pair {
        store,
        first,
        second,
        lock: CommitLock::new(),
    })
}

/// The reply to a call of the session of this number, of which there are 0 and 1.
fn answer(
    rt: &(impl AllocGlobal + Wait),
    on: &mut Pair,
    s: u32,
    call: &Call,
) -> Result<Reply, OutOfMemory>
    requires { CallFits 2 call.now }
{
    if s == 0 {
        return line_reply(rt, rt.alloc(), &on.store, &mut on.first, &on.lock, call);
    }
    line_reply(rt, rt.alloc(), &on.store, &mut on.second, &on.lock, call)
}

/// The reply to a line that is a call.
fn reply_to(rt: &(impl AllocGlobal + Wait), on: &mut Pair, line: &Line) -> Result<Reply, Fail> {
    let Line::Call { session, call } = line else {
        return Err(Fail::from("the line is a call"));
    };
    if !call_fits(2, call) {
        return Err(Fail::from("the call fits two columns"));
    }
    Ok(answer(rt, on, *session, call)?)
}

/// The text of the reply to a line.
fn told(rt: &(impl AllocGlobal + Wait), on: &mut Pair, text: &str) -> Result<Text, Fail> {
    let alloc = rt.alloc();
    let Ok(script) = parse(alloc, text.as_bytes(), &on.store.layout().limits) else {
        return Err(Fail::from("the text is a script"));
    };
    if script.is_empty() {
        return Err(Fail::from("there is a line"));
    }
    let line = script.line(0);
    let reply = reply_to(rt, on, &line)?;
    Ok(print_line(alloc, &line, &reply)?)
}

/// A line, and what it is answered.
type Step = (&'static str, &'static str);

/// The replies to lines, one after another, compared.
fn play(rt: &(impl Abort + AllocGlobal + Wait), on: &mut Pair, steps: &[Step]) -> Result<(), Fail> {
    for &(line, wanted) in steps {
        let told = told(rt, on, line)?;
        let reply = told.as_bytes().strip_suffix(b"\n");
        assert_eq!(rt; reply, Some(wanted.as_bytes()), "{line}");
    }
    Ok(())
}

/// Session 0 commits a row at time 1, while session 1 has a transaction open that began before.
const COMMITS_MEANWHILE: [Step; 13] = [
    ("0 begin", "0 begun 0"),
    ("0 begin", "0 refused active"),
    ("0 insert 7 5 3", "0 ok"),
    ("0 insert 7 6 4", "0 refused exists"),
    ("1 get 7", "1 refused idle"),
    ("1 begin", "1 begun 0"),
    ("1 get 7", "1 none"),
    ("1 insert 7 6 4", "1 conflict open 0 1"),
    ("0 commit", "0 committed 1"),
    ("1 insert 7 6 4", "1 conflict newer 1"),
    ("1 count", "1 count 0"),
    ("1 delete 8", "1 refused missing"),
    ("1 commit", "1 ended 0"),
];

/// Session 1 reads what session 0 has committed, in a transaction as of then.
const READS_AS_OF_THEN: [Step; 9] = [
    ("1 asof 2", "1 refused future 1"),
    ("1 asof 1", "1 begun 1"),
    ("1 get 7", "1 row 5 3"),
    ("1 delete 7", "1 refused readonly"),
    ("1 sum 1", "1 sum 3"),
    ("1 scan", "1 rows 7:5,3"),
    ("1 find 1 3", "1 keys 7"),
    ("1 find 0 5", "1 refused noindex"),
    ("1 commit", "1 ended 1"),
];

/// Session 1 gives its last transaction up, in which it has made the row's second cell null; and session 0 takes the row away.
const GIVES_UP: [Step; 9] = [
    ("1 sum 1", "1 sum 0"),
    ("0 begin", "0 begun 1"),
    ("0 delete 7", "0 conflict open 1 3"),
    ("1 abort", "1 aborted"),
    ("0 delete 7", "0 ok"),
    ("0 get 7", "0 none"),
    ("0 commit", "0 committed 2"),
    ("1 begin", "1 refused spent"),
    ("1 abort", "1 refused idle"),
];

/// Makes the second column null, as no line of a script does.
fn patch() -> Patch
    ensures { IsPatch 2 result }
{
    let mut patch = Patch::of_numbers(Default::default());
    patch.push(None);
    patch.push(Some(None));
    patch
}

/// Session 1 makes the row's second cell null.
fn empties(rt: &(impl Abort + AllocGlobal + Wait), on: &mut Pair) {
    let update = Call::Update {
        key: 7,
        patch: patch(),
    };
    assert_eq!(rt; answer(rt, on, 1, &update), Ok(Reply::Done));
}

#[test]
fn two_sessions_answer_their_lines(rt: HostRuntime) -> Result<(), Fail> {
    let mut on = open_pair(rt.alloc())?;
    play(&rt, &mut on, &COMMITS_MEANWHILE)?;
    play(&rt, &mut on, &READS_AS_OF_THEN)?;
    play(&rt, &mut on, &[("1 begin", "1 begun 1")])?;
    empties(&rt, &mut on);
    play(&rt, &mut on, &GIVES_UP)
}

/// Session 0 lists its one row, unless the list is refused for want of memory.
fn lists(rt: &(impl Abort + AllocGlobal + Wait), on: &mut Pair) -> Result<(), Fail> {
    let Ok(reply) = answer(rt, on, 0, &Call::Scan) else {
        return Ok(());
    };
    let scan = Line::Call {
        session: 0,
        call: Call::Scan,
    };
    let told = print_line(rt.alloc(), &scan, &reply)?;
    assert_eq!(rt; told.as_bytes(), b"0 rows 7:5,3\n".as_slice());
    Ok(())
}

/// With `rt try --test --fail-alloc 21` the list is refused, and else it isn't. The transaction goes on as if it had not been asked for.
#[test]
fn a_refused_list_leaves_the_session(rt: HostRuntime) -> Result<(), Fail> {
    let mut on = open_pair(rt.alloc())?;
    play(
        &rt,
        &mut on,
        &[("0 begin", "0 begun 0"), ("0 insert 7 5 3", "0 ok")],
    )?;
    lists(&rt, &mut on)?;
    play(
        &rt,
        &mut on,
        &[
            ("0 count", "0 count 1"),
            ("0 commit", "0 committed 1"),
            ("1 begin", "1 begun 1"),
            ("1 count", "1 count 1"),
        ],
    )
}
