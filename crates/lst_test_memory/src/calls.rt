//! A call over memory, and what it came to.
ghost use Rattle.std.specs.Prelude.{◌<◌, IfOk, map, string_bytes};
ghost use Rattle.lst_test_memory.specs.Calls.{IsAnswerTo};

use lst_command::{Gate, Status, lstore};
use lst_io::{MemSink, MemSource};
use lst_model::{KeyList, OutOfMemory, Text};
use lst_rule::Store;
use lst_session::Crew;
use std::alloc::Global;
use std::sync::Wait;
use std::thread::Threads;

/// How the ends of a call behave.
#[derive(Drop)]
pub struct Ends {
    /// How many bytes a read gives at most, and a write takes. A sink that takes none fails.
    pub read_step: usize,
    pub write_step: usize,
    /// Which read fails, which write of the output, and which write of the line of errors, counted from 1; none where it is 0.
    pub failing_read: u64,
    pub failing_write: u64,
    pub failing_report: u64,
    pub ghost some: { 0 < read_step },
}

/// What a call came to.
#[derive(Drop)]
pub struct Shown {
    pub status: Status,
    /// What the output went to, and the line of errors.
    pub sink: MemSink,
    pub errors: MemSink,
    /// The store and the crew that were left to the caller.
    pub left: Option<(Store, Crew)>,
}

/// The list of the calls that fail: this one, or none where it is 0.
fn named(alloc: Global, call: u64) -> Result<KeyList, OutOfMemory> {
    let mut calls = KeyList::new(alloc);
    if call > 0 {
        calls.push(call)?;
    }
    Ok(calls)
}

/// Calls `lstore` with these words, over a source of these bytes and two sinks with room for 65,536 bytes each, which behave as `ends` says. The one
/// error is want of memory for the ends.
pub fn call<R: Threads + Wait + Sync, G: Gate + Sync>(
    rt: &R,
    alloc: Global,
    words: &[String],
    input: &[u8],
    ends: &Ends,
    gate: &G,
) -> Result<Shown, OutOfMemory>
    ensures { IfOk result (IsAnswerTo (map string_bytes words.now) input.now) }
{
    let bytes = Text::from_bytes(input.to_vec(alloc)?);
    let mut source = MemSource::new(bytes, named(alloc, ends.failing_read)?, ends.read_step);
    let mut sink = MemSink::new(alloc, named(alloc, ends.failing_write)?, ends.write_step)?;
    let mut errors = MemSink::new(alloc, named(alloc, ends.failing_report)?, ends.write_step)?;
    let mut left = None;
    let status = lstore(
        rt,
        alloc,
        words,
        &mut source,
        &mut sink,
        &mut errors,
        gate,
        &mut left,
    );
    Ok(Shown {
        status,
        sink,
        errors,
        left,
    })
}
