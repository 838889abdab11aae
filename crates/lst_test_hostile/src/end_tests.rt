//! A source that fails at each of its calls, and a sink at each of its calls.

use crate::calls::{Wanted, comes_to, same};
use crate::rows::STOCK;
use lst_command::Status;
use lst_model::OutOfMemory;
use lst_test_memory::Ends;
use std::alloc::Global;
use std::process::Abort;
use std::sync::Wait;
use std::thread::Threads;

/// A source that gives one byte a call, and a sink that takes seven, which fail at these calls.
fn ends(failing_read: u64, failing_write: u64) -> Ends {
    Ends {
        read_step: 1,
        write_step: 7,
        failing_read,
        failing_write,
        failing_report: 0,
    }
}

/// How many bytes a sink has taken before a call.
fn front(call: usize) -> usize {
    call.saturating_sub(1).saturating_mul(7)
}

/// The stock script over these ends.
fn ends_with(
    rt: &(impl Abort + Threads + Wait + Sync),
    alloc: Global,
    label: u64,
    ends: &Ends,
    wanted: Wanted<'_>,
) -> Result<(), OutOfMemory> {
    let input = STOCK.input.as_bytes();
    comes_to(rt, alloc, label, "run", input, ends, wanted)
}

#[test]
fn a_source_that_fails_at_any_call_gives_no_output(rt: HostRuntime) -> Result<(), OutOfMemory> {
    // One call for each byte, and one for the end.
    same(&rt, STOCK.input.len(), 219, "calls");
    let wanted = Wanted {
        status: Status::ReadFault,
        output: b"",
        message: b"lstore: read failed\n",
    };
    for call in 1..221 {
        ends_with(&rt, rt.alloc(), call, &ends(call, 0), wanted)?;
    }
    // There is no further call.
    let wanted = Wanted::output(STOCK.output);
    ends_with(&rt, rt.alloc(), 0, &ends(221, 0), wanted)
}

/// A sink that fails at a call has the front before it.
fn has_front(
    rt: &(impl Abort + Threads + Wait + Sync),
    alloc: Global,
    call: usize,
) -> Result<(), OutOfMemory> {
    let output = STOCK.output.as_bytes();
    let wanted = Wanted {
        status: Status::WriteFault,
        output: output.get(..front(call)).unwrap_or(b"no such front"),
        message: b"lstore: write failed\n",
    };
    let label = call as u64;
    ends_with(rt, alloc, label, &ends(0, label), wanted)
}

#[test]
fn a_sink_that_fails_at_any_call_has_the_front_before_it(
    rt: HostRuntime,
) -> Result<(), OutOfMemory> {
    same(&rt, STOCK.output.len(), 201, "bytes");
    for call in 1..30usize {
        has_front(&rt, rt.alloc(), call)?;
    }
    // There is no further call.
    let wanted = Wanted::output(STOCK.output);
    ends_with(&rt, rt.alloc(), 0, &ends(0, 30), wanted)
}
