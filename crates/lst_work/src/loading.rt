//! A large input from a number.
ghost use Rattle.std.specs.Prelude.{◌≡◌, ℕ, ◌<◌, ◌≤◌, IfOk, Option, Some};
ghost use Rattle.lst_work.specs.Totals.{IsWorkedTotal};
ghost use Rattle.lst_work.specs.Loaded.{load_limits, IsLoaded, TellsTotals};
ghost use Rattle.lst_script.specs.Generated.{generated};

use crate::gates::Gate;
use crate::totals::work_total;
use lst_layout::{Layout, Limits};
use lst_model::{OutOfMemory, Reply};
use lst_replies::Report;
use lst_rule::Store;
use lst_script::generate;
use lst_session::Crew;
use std::alloc::Global;
use std::sync::Wait;
use std::thread::Threads;

/// The number of the rows of a table, as the last phase of a generated script tells it, and the sum of its column, as all sessions added it up behind the script.
#[derive(Clone, Copy, Debug, PartialEq, Eq)]
pub struct Loaded {
    pub rows: u64,
    pub total: u128,
}

/// The layout of a store for a generated script.
fn load_layout(keys: u32, sessions: u32) -> Layout
    requires some { 0 < keys }
    requires few { keys ≤ 4096 }
    requires hosts { 0 < sessions }
    requires most { sessions ≤ 16 }
    ensures { result.limits ≡ load_limits keys sessions }
{
    let limits = Limits {
        columns: 1,
        ranges: (keys + 255) / 256,
        tails: 16_384,
        sessions,
        txns: 16_384,
        spare: 8,
        indexed: 0,
    };
    match limits.check() {
        Ok(layout) => layout,
        Err(_) => unreachable!(),
    }
}

/// The number of rows that a reply tells.
fn row_count(reply: &Reply) -> u64
    requires { (rows : ℕ) × (reply.now ≡ Reply.Count rows) }
    ensures { reply.now ≡ Reply.Count result }
{
    match reply {
        Reply::Count { rows } => *rows,
        _ => unreachable!(),
    }
}

/// The number of rows that the last replies tell.
fn rows_told(replies: &[(Option<u32>, Reply)]) -> u64
    requires { (rows : ℕ) × (total : ℕ) × TellsTotals replies.now rows total }
    ensures { (total : ℕ) × TellsTotals replies.now result total }
{
    row_count(&replies[replies.len() - 3].1)
}

/// The sum that is there.
fn sum_made(total: Option<u128>) -> u128
    requires { (sum : ℕ) × (total ≡ Some sum) }
    ensures { total ≡ Some result }
{
    match total {
        Some(sum) => sum,
        None => unreachable!(),
    }
}

/// What was loaded, once all sessions of a new store have worked on a generated script, and its column was to be added up.
fn load_told(
    seed: u64,
    keys: u32,
    sessions: u32,
    layout: &Layout,
    report: &Report,
    total: Option<u128>,
    store: &Store,
    crew: &Crew,
) -> Loaded
    requires some { 0 < keys }
    requires few { keys ≤ 4096 }
    requires hosts { 0 < sessions }
    requires limits { layout.now.limits ≡ load_limits keys sessions }
    requires worked { IsWorkedTotal layout.now (generated keys sessions seed) 0 report.now total store.now crew.now }
    ensures { IsLoaded seed keys sessions result store.now crew.now }
{
    Loaded {
        rows: rows_told(report.replies.items()),
        total: sum_made(total),
    }
}

/// Lets all sessions of a new store work on the script that the seed generates for so many keys, and then adds up its column by all of them side by
/// side, as `work_total` does. Answers the number of rows that the last phase told, the sum, the store, and its crew, which is gathered again.
///
/// As many rows were told as there are keys, and the sum is 1,000 times as much, whatever the sessions' steps between each other; the last phase told
/// that sum too, and the table that the store's commits make has so many rows, with that sum. The only error is want of memory. Nothing is
/// promised of when the call returns.
pub fn load<R: Threads + Wait + Sync, G: Gate + Sync>(
    rt: &R,
    alloc: Global,
    seed: u64,
    keys: u32,
    sessions: u32,
    gate: &G,
) -> Result<(Loaded, Store, Crew), OutOfMemory>
    requires some { 0 < keys }
    requires few { keys ≤ 4096 }
    requires hosts { 0 < sessions }
    requires most { sessions ≤ 16 }
    ensures { IfOk result (λ done. IsLoaded seed keys sessions done.0 done.1 done.2) }
{
    let layout = load_layout(keys, sessions);
    let script = generate(alloc, seed, keys, sessions)?;
    let (report, total, store, crew) = work_total(rt, alloc, &layout, &script, gate, 0)?;
    let loaded = load_told(seed, keys, sessions, &layout, &report, total, &store, &crew);
    Ok((loaded, store, crew))
}
