//! A source and a sink over memory, which fail at the calls that they are told.
ghost use Rattle.std.specs.Prelude.{◌≡◌, ◌≤◌, ◌<◌, ◌+◌, ℕ, List, [], Some, None, OnOk, IfOk, length, min, take, vec_capacity};
ghost use Rattle.std.specs.Io.{ReadsAtMost, WritesAtMost};
ghost use Rattle.std.specs.Io.KnownBytes.{ReadConsumes, WriteAppends};
ghost use Rattle.lst_model.specs.Faults.{HasCause};

use crate::ends::{Failed, Sink, Source};
use crate::faults::raised;
use lst_model::{KeyList, OutOfMemory, Text};
use std::alloc::Global;

/// How many bytes a sink over memory has room for.
const ROOM: usize = 65_536;

/// A source that gives the bytes of a text, some at each call, and fails at the calls that a list names.
#[derive(Drop)]
pub struct MemSource {
    bytes: Text,
    given: usize,
    fails: KeyList,
    step: usize,
    calls: u64,
    faults: u64,
    ghost ahead: { given ≤ length bytes },
    ghost some: { 0 < step },
}

impl MemSource {
    ghost use Rattle.lst_io.specs.Memory.{IsNewSource};

    /// A source of these bytes that gives at most `step` of them a call, and fails at the calls, counted from 1, that
    /// `fails` names.
    pub fn new(bytes: Text, fails: KeyList, step: usize) -> MemSource
        requires { 0 < step }
        ensures { IsNewSource bytes fails step result }
    {
        MemSource {
            bytes,
            given: 0,
            fails,
            step,
            calls: 0,
            faults: 0,
        }
    }
}

impl Source for MemSource {
    ghost use Rattle.lst_io.specs.Memory.{source_left, source_faults, GivesAsTold};

    ghost left = { λ s. Some (source_left s) };

    ghost faults = { λ s. source_faults s };

    /// It fails at the calls that it was told, and else gives as many of the bytes left as its step and the room allow.
    fn read(&mut self, into: &mut [u8]) -> Result<usize, Failed>
        ensures bound { ReadsAtMost result into.new }
        ensures bytes { ReadConsumes (Some (source_left self.old)) (Some (source_left self.new)) result into.new }
        ensures cause { HasCause (source_faults self.old) (source_faults self.new) result }
        ensures told { GivesAsTold self.old self.new (length into.old) result }
    {
        self.calls = self.calls.saturating_add(1);
        if self.fails.items().contains(&self.calls) {
            self.faults = raised(self.faults);
            return Err(Failed);
        }
        let count = give(&self.bytes.as_bytes()[self.given..], self.step, into);
        self.given += count;
        Ok(count)
    }
}

/// Copies bytes to the front of `into`, at most `step`, and answers how many.
fn give(bytes: &[u8], step: usize, into: &mut [u8]) -> usize
    ensures count { result ≡ min (min (length bytes.now) step) (length into.old) }
    ensures given { take result into.new ≡ take result bytes.now }
{
    let count = bytes.len().min(step).min(into.len());
    into[..count].copy_from_slice(&bytes[..count]);
    count
}

/// A sink that keeps the bytes that it takes, some at each call, as many as it has room for, and fails at the calls that a
/// list names.
#[derive(Drop)]
pub struct MemSink {
    bytes: Vec<u8>,
    fails: KeyList,
    step: usize,
    calls: u64,
    faults: u64,
    ghost roomy: { 65536 ≤ vec_capacity bytes },
    ghost within: { length bytes.items ≤ 65536 },
}

impl MemSink {
    ghost use Rattle.lst_io.specs.Memory.{IsNewSink, sink_taken};

    /// An empty sink with room for 65,536 bytes that takes at most `step` of them a call, and fails at the calls, counted
    /// from 1, that `fails` names, and where it can't take a byte.
    pub fn new(alloc: Global, fails: KeyList, step: usize) -> Result<MemSink, OutOfMemory>
        ensures { IfOk result (λ sink. IsNewSink fails step sink) }
    {
        Ok(MemSink {
            bytes: Vec::with_capacity(alloc, ROOM)?,
            fails,
            step,
            calls: 0,
            faults: 0,
        })
    }

    /// The bytes that were taken so far.
    pub fn taken(&self) -> &[u8]
        ensures { result.now ≡ sink_taken self.now }
    {
        self.bytes.as_slice()
    }
}

impl Sink for MemSink {
    ghost use Rattle.lst_io.specs.Memory.{sink_taken, sink_faults, TakesAsTold};

    ghost taken = { λ s. Some (sink_taken s) };

    ghost faults = { λ s. sink_faults s };

    /// It fails at the calls that it was told and where it can't take a byte of a piece that isn't empty, and else takes
    /// as many bytes as its step and its room allow.
    fn write(&mut self, from: &[u8]) -> Result<usize, Failed>
        ensures bound { WritesAtMost result from.now }
        ensures some { 0 < length from.now → IfOk result (λ count. 0 < count) }
        ensures bytes { WriteAppends (Some (sink_taken self.old)) (Some (sink_taken self.new)) result from.now }
        ensures cause { HasCause (sink_faults self.old) (sink_faults self.new) result }
        ensures told { TakesAsTold ROOM self.old self.new (length from.now) result }
    {
        self.calls = self.calls.saturating_add(1);
        if self.fails.items().contains(&self.calls) {
            self.faults = raised(self.faults);
            return Err(Failed);
        }
        let count = from.len().min((ROOM - self.bytes.len()).min(self.step));
        if count == 0 && !from.is_empty() {
            self.faults = raised(self.faults);
            return Err(Failed);
        }
        match self.bytes.extend_from_slice(&from[..count]) {
            Ok(()) => Ok(count),
            Err(_) => unreachable!(),
        }
    }
}
