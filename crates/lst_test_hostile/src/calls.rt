//! Calls of the program over memory, compared with what is wanted.

use lst_command::{FreeGate, Gate, Status};
use lst_model::OutOfMemory;
use lst_script::FaultKind;
use lst_test_memory::{Ends, Shown, call};
use std::alloc::Global;
use std::fmt::Debug;
use std::process::Abort;
use std::sync::Wait;
use std::thread::Threads;

/// What was found is what was wanted, at this place of a test.
pub(crate) fn same<T: PartialEq + Debug + Drop>(
    rt: &impl Abort,
    found: T,
    wanted: T,
    at: impl Debug + Drop,
) {
    assert_eq!(rt; found, wanted, "{at:?}");
}

/// Ends that take short steps, and don't fail.
pub(crate) const SOUND: Ends = Ends {
    read_step: 7,
    write_step: 5,
    failing_read: 0,
    failing_write: 0,
    failing_report: 0,
};

/// Ends that take the same steps. It says which read fails, which write of the output and which write of the line of errors, counted from 1; none where it is 0.
pub(crate) fn failing(read: u64, write: u64, report: u64) -> Ends {
    Ends {
        read_step: 7,
        write_step: 5,
        failing_read: read,
        failing_write: write,
        failing_report: report,
    }
}

/// The words of a command line, which spaces separate.
fn words_of(alloc: Global, line: &str) -> Result<Vec<String>, OutOfMemory> {
    let mut words = Vec::new(alloc);
    for word in line.split_whitespace() {
        words.push(String::from_str(alloc, word)?)?;
    }
    Ok(words)
}

/// A call with these words.
pub(crate) fn called<R: Threads + Wait + Sync, G: Gate + Sync>(
    rt: &R,
    alloc: Global,
    line: &str,
    input: &[u8],
    ends: &Ends,
    gate: &G,
) -> Result<Shown, OutOfMemory> {
    let words = words_of(alloc, line)?;
    call(rt, alloc, words.as_slice(), input, ends, gate)
}

/// How a call ends, and what it writes.
#[derive(Clone, Copy)]
pub(crate) struct Wanted<'a> {
    pub status: Status,
    pub output: &'a [u8],
    pub message: &'a [u8],
}

impl<'a> Wanted<'a> {
    /// The command did its work, and writes this.
    pub(crate) fn output(output: &'a str) -> Wanted<'a> {
        Wanted {
            status: Status::Done,
            output: output.as_bytes(),
            message: b"",
        }
    }

    /// It ends with this status and line of errors, and writes nothing.
    pub(crate) fn stop(status: Status, message: &'a str) -> Wanted<'a> {
        Wanted {
            status,
            output: b"",
            message: message.as_bytes(),
        }
    }
}

/// Compares what a call comes to with what is wanted. The label names the case where they differ.
pub(crate) fn comes_to(
    rt: &(impl Abort + Threads + Wait + Sync),
    alloc: Global,
    label: u64,
    line: &str,
    input: &[u8],
    ends: &Ends,
    wanted: Wanted<'_>,
) -> Result<(), OutOfMemory> {
    let shown = called(rt, alloc, line, input, ends, &FreeGate)?;
    same(rt, shown.status, wanted.status, (line, label));
    same(rt, shown.sink.taken(), wanted.output, (line, label));
    same(rt, shown.errors.taken(), wanted.message, (line, label));
    Ok(())
}

/// The words of a call, its input, and what it comes to.
pub(crate) type Case<'a> = (&'a str, &'a [u8], Wanted<'a>);

/// Compares what each call comes to, over sound ends, with what is wanted.
pub(crate) fn all_come_to(
    rt: &(impl Abort + Threads + Wait + Sync),
    alloc: Global,
    cases: &[Case<'_>],
) -> Result<(), OutOfMemory> {
    let mut label = 0;
    for &(line, input, wanted) in cases {
        comes_to(rt, alloc, label, line, input, &SOUND, wanted)?;
        label = label.wrapping_add(1);
    }
    Ok(())
}

/// Compares what each call answers, by its words, its input and its output.
pub(crate) fn all_answer(
    rt: &(impl Abort + Threads + Wait + Sync),
    alloc: Global,
    calls: &[(&str, &str, &str)],
) -> Result<(), OutOfMemory> {
    let mut label = 0;
    for &(line, input, output) in calls {
        let (input, wanted) = (input.as_bytes(), Wanted::output(output));
        comes_to(rt, alloc, label, line, input, &SOUND, wanted)?;
        label = label.wrapping_add(1);
    }
    Ok(())
}

/// A call that ends with this status and line of errors, and writes nothing.
pub(crate) fn stops(
    rt: &(impl Abort + Threads + Wait + Sync),
    alloc: Global,
    line: &str,
    input: &str,
    status: Status,
    message: &str,
) -> Result<(), OutOfMemory> {
    let (input, wanted) = (input.as_bytes(), Wanted::stop(status, message));
    comes_to(rt, alloc, 0, line, input, &SOUND, wanted)
}

/// The words of a call and its input, the faulty line with its fault, and the line of errors.
pub(crate) type Faulty<'a> = (&'a str, &'a str, u64, FaultKind, &'a str);

/// Each call ends at its faulty line.
pub(crate) fn all_stop(
    rt: &(impl Abort + Threads + Wait + Sync),
    alloc: Global,
    calls: &[Faulty<'_>],
) -> Result<(), OutOfMemory> {
    for &(words, input, line, kind, message) in calls {
        let status = Status::BadScript { line, kind };
        stops(rt, alloc, words, input, status, message)?;
    }
    Ok(())
}

/// Words that are no command line: nothing is read and no output written, so ends that fail at their first call aren't noticed.
pub(crate) fn all_are_refused(
    rt: &(impl Abort + Threads + Wait + Sync),
    alloc: Global,
    lines: &[&str],
) -> Result<(), OutOfMemory> {
    let wanted = Wanted::stop(Status::Usage, "lstore: bad command line\n");
    for &line in lines {
        let (input, ends) = (b"0 begin\n".as_slice(), failing(1, 1, 0));
        comes_to(rt, alloc, 0, line, input, &ends, wanted)?;
    }
    Ok(())
}

/// A call that ends with this number, writes nothing, and leaves no store.
fn leaves_nothing(
    rt: &(impl Abort + Threads + Wait + Sync),
    alloc: Global,
    line: &str,
    input: &str,
    code: u8,
) -> Result<(), OutOfMemory> {
    let shown = called(rt, alloc, line, input.as_bytes(), &SOUND, &FreeGate)?;
    same(rt, shown.status.code(), code, line);
    let is_bare = shown.sink.taken().is_empty() && shown.left.is_none();
    same(rt, is_bare, true, line);
    Ok(())
}

/// The same of each call, by its words, its input and its number.
pub(crate) fn all_leave_nothing(
    rt: &(impl Abort + Threads + Wait + Sync),
    alloc: Global,
    calls: &[(&str, &str, u8)],
) -> Result<(), OutOfMemory> {
    for &(line, input, code) in calls {
        leaves_nothing(rt, alloc, line, input, code)?;
    }
    Ok(())
}

/// What a call writes that ends with the number 0.
pub(crate) fn written(
    rt: &(impl Abort + Threads + Wait + Sync),
    alloc: Global,
    line: &str,
    input: &str,
) -> Result<Vec<u8>, OutOfMemory> {
    let shown = called(rt, alloc, line, input.as_bytes(), &SOUND, &FreeGate)?;
    same(rt, shown.status.code(), 0, line);
    Ok(shown.sink.taken().to_vec(alloc)?)
}

/// A text behind another one.
pub(crate) fn joined(alloc: Global, front: &str, end: &str) -> Result<String, OutOfMemory> {
    let mut text = String::from_str(alloc, front)?;
    text.push_str(end)?;
    Ok(text)
}
