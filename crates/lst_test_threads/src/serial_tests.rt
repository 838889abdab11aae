//! Scripts that sessions at the serializable level run side by side: what they are answered, and drawn scripts whose reports are judged at that level.

use crate::work_tests::script_of;
use lst_layout::Limits;
use lst_legal::{are_sessions_below, legal, legal_serial};
use lst_replies::{Report, print_report};
use lst_work::{FreeGate, work, work_serial};
use std::alloc::Global;
use std::process::Abort;
use std::sync::Wait;
use std::test::Fail;
use std::thread::Threads;

/// Three sessions, with an index on the second column.
const THREE: Limits = Limits {
    columns: 2,
    ranges: 1,
    tails: 300,
    sessions: 3,
    txns: 8,
    spare: 8,
    indexed: 2,
};

/// What is said of a script that was run: its report, and whether that is legal at either level.
#[derive(Drop)]
struct Judged {
    report: Report,
    is_legal: bool,
    is_serial: bool,
}

/// Runs a script at one level or the other, and judges its report at both.
fn run_judged<R: AllocGlobal + Threads + Wait + Sync>(
    rt: &R,
    limits: Limits,
    is_serial: bool,
    text: &[u8],
) -> Result<Judged, Fail> {
    let alloc = rt.alloc();
    let Ok(layout) = limits.check() else {
        return Err(Fail::from("the limits are in range"));
    };
    let script = script_of(alloc, &limits, text)?;
    let (report, _, _) = if is_serial {
        work_serial(rt, alloc, &layout, &script, &FreeGate)?
    } else {
        work(rt, alloc, &layout, &script, &FreeGate)?
    };
    let lines = script.unpacked(alloc)?;
    if !are_sessions_below(limits.sessions, lines.as_slice()) {
        return Err(Fail::from("the script's sessions are below the limit"));
    }
    let is_legal = legal(alloc, &limits, lines.as_slice(), &report)?;
    let is_serial = legal_serial(alloc, &limits, lines.as_slice(), &report)?;
    Ok(Judged {
        report,
        is_legal,
        is_serial,
    })
}

/// The report's text, compared with what is wanted.
fn reports<R: Abort + AllocGlobal>(rt: &R, judged: &Judged, wanted: &[u8]) -> Result<(), Fail> {
    let text = print_report(rt.alloc(), &judged.report)?;
    assert_eq!(rt; text.as_bytes(), wanted);
    Ok(())
}

/// Two sessions that each read what the other one writes. The ends of phases put their calls into this order.
const SKEW: &[u8] =
    b"2 begin\n2 insert 1 1 0\n2 insert 2 1 0\n2 commit\nphase\n0 begin\n0 get 1\nphase\n1 begin\n1 get 2\nphase\n0 update 2 0 _\n0 commit\nphase\n1 update 1 0 _\n1 commit\n";

#[test]
fn a_skewed_write_is_stale_at_the_serializable_level_alone(rt: HostRuntime) -> Result<(), Fail> {
    let one = run_judged(&rt, THREE, true, SKEW)?;
    reports(
        &rt,
        &one,
        b"2 begun 0\n2 ok\n2 ok\n2 committed 1\n0 begun 1\n0 row 1 0\n1 begun 1\n1 row 1 0\n0 ok\n0 committed 2\n1 ok\n1 conflict stale 2\nhistory 2\n1 2 1 0\n2 0 1 1\n",
    )?;
    assert!(rt; one.is_serial);
    assert!(rt; !one.is_legal);
    let other = run_judged(&rt, THREE, false, SKEW)?;
    reports(
        &rt,
        &other,
        b"2 begun 0\n2 ok\n2 ok\n2 committed 1\n0 begun 1\n0 row 1 0\n1 begun 1\n1 row 1 0\n0 ok\n0 committed 2\n1 ok\n1 committed 3\nhistory 3\n1 2 1 0\n2 0 1 1\n3 1 1 1\n",
    )?;
    assert!(rt; other.is_legal);
    assert!(rt; !other.is_serial);
    Ok(())
}

/// A stale transaction stays open: it may be given up, and made anew. What it had read is forgotten then.
const AGAIN: &[u8] =
    b"2 begin\n2 insert 1 1 0\n2 insert 2 1 0\n2 commit\nphase\n1 begin\n1 get 2\nphase\n0 begin\n0 update 2 5 _\n0 commit\nphase\n1 update 1 0 _\n1 commit\n1 commit\n1 abort\n1 begin\nphase\n0 begin\n0 update 2 9 _\n0 commit\nphase\n1 update 1 7 _\n1 commit\n";

#[test]
fn a_stale_transaction_stays_open(rt: HostRuntime) -> Result<(), Fail> {
    let one = run_judged(&rt, THREE, true, AGAIN)?;
    reports(
        &rt,
        &one,
        b"2 begun 0\n2 ok\n2 ok\n2 committed 1\n1 begun 1\n1 row 1 0\n0 begun 1\n0 ok\n0 committed 2\n1 ok\n1 conflict stale 2\n1 conflict stale 2\n1 aborted\n1 begun 2\n0 begun 2\n0 ok\n0 committed 3\n1 ok\n1 committed 4\nhistory 4\n1 2 1 0\n2 0 1 1\n3 0 2 2\n4 1 2 2\n",
    )?;
    assert!(rt; one.is_serial);
    Ok(())
}

/// A find in a column without an index reads nothing, and a sum reads all.
const READS: &[u8] =
    b"2 begin\n2 insert 1 1 0\n2 commit\nphase\n0 begin\n0 find 0 1\n1 begin\n1 sum 0\nphase\n2 begin\n2 insert 9 9 9\n2 commit\nphase\n0 update 1 2 _\n0 commit\nphase\n1 insert 5 5 5\n1 commit\n";

#[test]
fn a_find_without_an_index_reads_nothing(rt: HostRuntime) -> Result<(), Fail> {
    let one = run_judged(&rt, THREE, true, READS)?;
    reports(
        &rt,
        &one,
        b"2 begun 0\n2 ok\n2 committed 1\n0 begun 1\n0 refused noindex\n1 begun 1\n1 sum 1\n2 begun 1\n2 ok\n2 committed 2\n0 ok\n0 committed 3\n1 ok\n1 conflict stale 2\nhistory 3\n1 2 1 0\n2 2 2 1\n3 0 1 1\n",
    )?;
    assert!(rt; one.is_serial);
    Ok(())
}

#[test]
fn one_session_is_answered_alike_at_both_levels(rt: HostRuntime) -> Result<(), Fail> {
    let text =
        b"0 begin\n0 insert 3 30 1\n0 commit\n0 begin\n0 update 3 31 _\n0 get 3\n0 scan\n0 commit\n0 commit\n0 begin\n0 commit\n";
    let wanted =
        b"0 begun 0\n0 ok\n0 committed 1\n0 begun 1\n0 ok\n0 row 31 1\n0 rows 3:31,1\n0 committed 2\n0 refused idle\n0 begun 2\n0 ended 2\nhistory 2\n1 0 1 0\n2 0 2 1\n";
    let one = run_judged(&rt, THREE, true, text)?;
    reports(&rt, &one, wanted)?;
    let other = run_judged(&rt, THREE, false, text)?;
    reports(&rt, &other, wanted)?;
    assert!(rt; one.is_legal && one.is_serial && other.is_legal && other.is_serial);
    Ok(())
}

/// The next number of a seed, below this one.
fn drawn(seed: &mut u64, below: u64) -> u64 {
    *seed = seed
        .wrapping_mul(6364136223846793005)
        .wrapping_add(1442695040888963407);
    if below == 0 { 0 } else { (*seed >> 33) % below }
}

/// A drawn line of a script, of few keys.
fn push_drawn(text: &mut String, alloc: Global, seed: &mut u64, sessions: u64) -> Result<(), Fail> {
    let session = drawn(seed, sessions);
    let key = drawn(seed, 6);
    let value = drawn(seed, 50);
    let line = match drawn(seed, 40) {
        0..=9 => format!(in alloc; "{session} begin\n")?,
        10..=16 => format!(in alloc; "{session} get {key}\n")?,
        17..=20 => format!(in alloc; "{session} insert {key} {value} {value}\n")?,
        21..=25 => format!(in alloc; "{session} update {key} {value} _\n")?,
        26 => format!(in alloc; "{session} delete {key}\n")?,
        27 => format!(in alloc; "{session} sum 0\n")?,
        28 => format!(in alloc; "{session} find 1 {value}\n")?,
        29 => format!(in alloc; "{session} find 0 {value}\n")?,
        30 => format!(in alloc; "{session} abort\n")?,
        31 => format!(in alloc; "merge 0 0\n")?,
        32 => format!(in alloc; "phase\n")?,
        _ => format!(in alloc; "{session} commit\n")?,
    };
    text.push_str(line.as_str())?;
    Ok(())
}

/// A drawn script of so many sessions.
fn drawn_script(alloc: Global, seed: u64, sessions: u64) -> Result<String, Fail> {
    let mut text = String::new(alloc);
    let mut seed = seed;
    for _ in 0..200 {
        push_drawn(&mut text, alloc, &mut seed, sessions)?;
    }
    Ok(text)
}

/// Tight limits for so many sessions.
fn tight(sessions: u32) -> Limits {
    Limits {
        columns: 2,
        ranges: 1,
        tails: 40,
        sessions,
        txns: 12,
        spare: 1,
        indexed: 2,
    }
}

#[test]
fn drawn_scripts_give_serializable_reports(rt: HostRuntime) -> Result<(), Fail> {
    for seed in 0..30u64 {
        let sessions = (seed % 15) as u32 + 2;
        let text = drawn_script(rt.alloc(), seed.wrapping_add(77), sessions as u64)?;
        let one = run_judged(&rt, tight(sessions), true, text.as_bytes())?;
        assert!(rt;
            one.is_serial,
            "the report from seed {seed} is legal at the serializable level"
        );
    }
    Ok(())
}
