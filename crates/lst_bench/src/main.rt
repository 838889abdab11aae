//! Counts of instructions: each line of the input is a kind of run and how often it goes, and is answered by what the run came to.
#![tactic(auto)]

ghost use Rattle.std.specs.Prelude.{◌<◌, IfSome};

mod engines;
mod journals;
mod levels;
mod making;
mod packs;
mod phases;
mod reads;
mod reports;
mod runs;
mod sums;
mod works;

use engines::engine;
use journals::{journals, keeping_of};
use levels::{course_of, levels};
use lst_layout::{Layout, Limits};
use lst_legal::Level;
use lst_seat::open_store;
use packs::{deed_of, packs};
use phases::phases;
use reads::gets;
use reports::{Task, reports};
use runs::{clocks, finds, head_runs, heads, time_runs, turns};
use std::alloc::Global;
use std::io;
use std::sync::Wait;
use std::thread::Threads;
use std::time::Clock;
use sums::sums;
use works::{task_of, works};

/// A store of one session that may begin 65,535 transactions.
const LIMITS: Limits = Limits {
    columns: 2,
    ranges: 4,
    tails: 4096,
    sessions: 1,
    txns: 65_535,
    spare: 1,
    indexed: 0,
};

/// How many sessions add up a column in a kind of run, and how often each row is written after the commit that the sums are as of; None where there is no
/// kind of this name.
fn summing_of(kind: &str) -> Option<(u32, u32)>
    ensures { IfSome result (λ summing. summing.1 < 256) }
{
    match kind {
        "sums_1" => Some((1, 0)),
        "sums_4" => Some((4, 0)),
        "old_sums_1" => Some((1, 7)),
        "old_sums_4" => Some((4, 7)),
        "older_sums_1" => Some((1, 15)),
        "older_sums_4" => Some((4, 15)),
        "oldest_sums_1" => Some((1, 63)),
        "oldest_sums_4" => Some((4, 63)),
        _ => None,
    }
}

/// What the kind of run came to, or None for want of memory. A kind that there isn't comes to 0.
fn answer<R: Threads + Wait + Sync + Clock>(
    rt: &R,
    alloc: Global,
    layout: &Layout,
    kind: &str,
    count: u32,
) -> Option<u64> {
    if let Some(task) = task_of(kind) {
        return works(rt, alloc, task, count).ok();
    }
    if let Some(course) = course_of(kind) {
        return levels(alloc, course, count).ok();
    }
    if let Some(keeping) = keeping_of(kind) {
        return journals(alloc, keeping, count).ok();
    }
    match kind.split_once('_') {
        Some(("rows", forms)) => return gets(alloc, forms, true, count).ok(),
        Some(("versions", forms)) => return gets(alloc, forms, false, count).ok(),
        _ => {}
    }
    if let Some((deed, form)) = deed_of(kind) {
        return Some(packs(deed, form, count));
    }
    if let Some((sessions, later)) = summing_of(kind) {
        return sums(rt, alloc, sessions, later, count).ok();
    }
    let task = match kind {
        "drawn" => return engine(alloc, false, count).ok(),
        "plain" => return engine(alloc, true, count).ok(),
        "phases" => return phases(alloc, count).ok(),
        "made" => Task::Make,
        "printed" => Task::Print,
        "read" => Task::Read,
        "reports" => Task::Judge {
            level: Level::Snapshot,
        },
        "serial_reports" => Task::Judge {
            level: Level::Serializable,
        },
        _ => return seated(alloc, layout, kind, count),
    };
    reports(alloc, task, count).ok()
}

/// The same of a kind that runs on a store's seat.
fn seated(alloc: Global, layout: &Layout, kind: &str, count: u32) -> Option<u64>
    requires { 0 < layout.now.limits.sessions }
{
    let Ok((store, mut seat)) = open_store(alloc, layout) else {
        return None;
    };
    Some(match kind {
        "clocks" => clocks(&store, &mut seat, count),
        "finds" => finds(&store, &mut seat, count),
        "heads" => heads(&store, &mut seat, count),
        "head_runs" => head_runs(&store, &mut seat, count),
        "time_runs" => time_runs(&store, &mut seat, count),
        "turns" => turns(&store, &mut seat, count) as u64,
        _ => 0,
    })
}

fn main(rt: HostRuntime) -> io::Result<()> {
    let Ok(layout) = LIMITS.check() else {
        return Ok(());
    };
    for line in rt.lines(rt.alloc()) {
        let line = line?;
        let Some((kind, count)) = line.as_str().split_once(' ') else {
            continue;
        };
        let Ok(count) = count.parse::<u32>() else {
            continue;
        };
        let Some(answer) = answer(&rt, rt.alloc(), &layout, kind, count) else {
            println!(rt; "out of memory")?;
            return Ok(());
        };
        println!(rt; "{kind} {count}: {answer}")?;
    }
    Ok(())
}
