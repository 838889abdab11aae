//! Loads: what `load` writes, and that it reads nothing.

use crate::calls::{called, failing, same};
use lst_command::{FreeGate, Gate, Status};
use lst_model::{Line, OutOfMemory};
use lst_script::generate;
use std::alloc::Global;
use std::process::Abort;
use std::sync::Wait;
use std::sync::atomic::{AtomicU64, Ordering};
use std::thread::Threads;

/// A load with these options, of a source that fails when it is read: it tells these numbers, and leaves a store.
fn loads(
    rt: &(impl Abort + Threads + Wait + Sync),
    alloc: Global,
    line: &str,
    output: &str,
) -> Result<(), OutOfMemory> {
    let shown = called(rt, alloc, line, b"0 begin\n", &failing(1, 0, 0), &FreeGate)?;
    same(rt, shown.status, Status::Done, line);
    same(rt, shown.sink.taken(), output.as_bytes(), line);
    let has_left = shown.left.is_some() && shown.errors.taken().is_empty();
    same(rt, has_left, true, line);
    Ok(())
}

/// The words of loads, with their outputs.
const LOADS: &[(&str, &str)] = &[
    (
        "load --seed 1 --keys 1000 --sessions 4",
        "rows 1000\ntotal 1000000\n",
    ),
    (
        "load --sessions=3 --keys=1 --seed=18446744073709551615",
        "rows 1\ntotal 1000\n",
    ),
    (
        "load --keys 300 --seed 0 --sessions 2",
        "rows 300\ntotal 300000\n",
    ),
];

#[test]
fn a_load_tells_its_rows_and_their_total(rt: HostRuntime) -> Result<(), OutOfMemory> {
    for &(line, output) in LOADS {
        loads(&rt, rt.alloc(), line, output)?;
    }
    Ok(())
}

/// A gate that counts its calls.
#[derive(Drop)]
struct Counter {
    calls: AtomicU64,
}

impl Gate for Counter {
    fn at(&self, _session: u32, _line: u64, _after: bool) {
        self.calls.fetch_add(1, Ordering::SeqCst);
    }
}

/// How often the gate is called while a load runs.
fn calls_of_the_gate(
    rt: &(impl Threads + Wait + Sync),
    alloc: Global,
    line: &str,
) -> Result<u64, OutOfMemory> {
    let counter = Counter {
        calls: AtomicU64::new(0),
    };
    called(rt, alloc, line, b"", &failing(1, 0, 0), &counter)?;
    Ok(counter.calls.load(Ordering::SeqCst))
}

/// Twice the number of lines that are no end of a phase.
fn twice_the_lines(lines: &[Line]) -> u64 {
    let mut twice = 0u64;
    for line in lines {
        if !matches!(line, Line::Phase) {
            twice = twice.wrapping_add(2);
        }
    }
    twice
}

#[test]
fn the_gate_of_a_load_is_called_twice_for_each_line(rt: HostRuntime) -> Result<(), OutOfMemory> {
    let line = "load --seed 1 --keys 1000 --sessions 4";
    let calls = calls_of_the_gate(&rt, rt.alloc(), line)?;
    let script = generate(rt.alloc(), 1, 1000, 4)?;
    let lines = script.unpacked(rt.alloc())?;
    same(&rt, calls, twice_the_lines(lines.as_slice()), line);
    Ok(())
}
