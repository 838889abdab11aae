//! The calls of a script, as a session answers them at a seat of its own.
ghost use Rattle.std.specs.Prelude.{◌≡◌};

use crate::scan_tests::HALVES;
use crate::scripts::{Step, call_fits, line_of, replies};
use crate::steps::{Opened, open_one};
use lst_layout::Limits;
use lst_model::{Line, Reply};
use lst_scan::session_line;
use lst_session::CommitLock;
use std::process::Abort;
use std::sync::Wait;
use std::test::Fail;

/// The reply of the session to a line that is a call of it.
fn answer_alone(
    rt: &(impl AllocGlobal + Wait),
    on: &mut Opened,
    lock: &CommitLock,
    line: &Line,
) -> Result<Reply, Fail> {
    let Line::Call { call, .. } = line else {
        return Err(Fail::from("the line is a call"));
    };
    if !call_fits(2, call) {
        return Err(Fail::from("the call fits two columns"));
    }
    Ok(session_line(rt, rt.alloc(), &on.store, &mut on.session, lock, call)?)
}

/// Lines in order, and their replies compared.
fn play_alone(
    rt: &(impl Abort + AllocGlobal + Wait),
    on: &mut Opened,
    script: &[Step],
) -> Result<(), Fail> {
    let lock = CommitLock::new();
    for &step in script {
        let line = line_of(rt.alloc(), &on.store, step.0)?;
        let reply = answer_alone(rt, on, &lock, &line)?;
        replies(rt, &line, &reply, step)?;
    }
    Ok(())
}

/// Each call of session 1.
const EACH_CALL: &[Step] = &[
    // Whether a transaction is open is asked before the index.
    ("1 find b 3", "1 refused idle"),
    ("1 sum b", "1 refused idle"),
    ("1 count", "1 refused idle"),
    ("1 scan", "1 refused idle"),
    ("1 get 7", "1 refused idle"),
    ("1 delete 7", "1 refused idle"),
    ("1 commit", "1 refused idle"),
    ("1 abort", "1 refused idle"),
    ("1 begin", "1 begun 0"),
    ("1 insert 7 a=5 b=3", "1 ok"),
    ("1 find a 5", "1 refused noindex"),
    ("1 sum b", "1 sum 3"),
    ("1 scan", "1 rows 7:5,3"),
    ("1 commit", "1 committed 1"),
    // The row is deleted, which is given up; then a transaction that is read-only ends.
    ("1 begin", "1 begun 1"),
    ("1 delete 7", "1 ok"),
    ("1 count", "1 count 0"),
    ("1 abort", "1 aborted"),
    ("1 get 7", "1 refused idle"),
    ("1 asof 1", "1 begun 1"),
    ("1 get 7", "1 row 5 3"),
    ("1 commit", "1 ended 1"),
];

#[test]
fn a_session_answers_each_call(rt: HostRuntime) -> Result<(), Fail> {
    let mut on = open_one(
        rt.alloc(),
        &Limits {
            tails: 300,
            ..HALVES
        },
    )?;
    play_alone(&rt, &mut on, EACH_CALL)
}
