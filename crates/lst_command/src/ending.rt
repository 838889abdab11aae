//! A run of the program, from the arguments of its process to the number that it ends with.
ghost use Rattle.std.specs.Prelude.{◌≡◌, MatchResult, drop, map, string_bytes};
ghost use Rattle.std.specs.IoError.{error_kind};
ghost use Rattle.std.specs.declared.io.ErrorKind.TheVariants.{OutOfMemory};
ghost use Rattle.std.specs.Process.{exit_status};
ghost use Rattle.lst_command.specs.declared.status.Status.{Status as StatusOf};
ghost use Rattle.lst_command.specs.Statuses.{status_code};
ghost use Rattle.lst_command.specs.Answers.{Reports, change};
ghost use Rattle.lst_command.specs.Programs.{SaysOfWords, SaysOfNoWords, SaysOfProcess};

use crate::messages::report;
use crate::shell::lstore;
use crate::status::Status;
use lst_io::{Sink, Source};
use lst_work::FreeGate;
use std::alloc::Global;
use std::io::ErrorKind;
use std::process::ExitCode;
use std::rt::Env;
use std::sync::Wait;
use std::thread::Threads;
use std::{env, io};

/// Runs the words of the process's command line, and ends with the number of the status. Nothing is told of what the arguments are.
pub fn program<R: Env + AllocGlobal + Threads + Wait + Sync, S: Source, K: Sink, E: Sink>(
    rt: &R,
    source: &mut S,
    sink: &mut K,
    errors: &mut E,
) -> ExitCode
    ensures { (status : StatusOf) × (exit_status result ≡ status_code status)
        × SaysOfProcess status
        (change (S.left source.old) (S.faults source.old) (S.left source.new) (S.faults source.new))
        (change (K.taken sink.old) (K.faults sink.old) (K.taken sink.new) (K.faults sink.new))
        × Reports status (change (E.taken errors.old) (E.faults errors.old) (E.taken errors.new) (E.faults errors.new)) }
{
    ended(rt, rt.alloc(), arguments(rt), source, sink, errors)
}

/// The arguments of the process, the program's name first. An error where memory is wanting or one of them is no text.
fn arguments<R: Env + AllocGlobal>(rt: &R) -> io::Result<Vec<String>> {
    Ok(env::args(rt)?.collect(rt.alloc())?)
}

/// Runs the words behind the first argument, which is the program's name, and ends with the number of the status. Where the arguments can't be
/// told, nothing is read: for want of memory that is the status, and else, where one of them is no text, they are no command line.
pub fn ended<R: Threads + Wait + Sync, S: Source, K: Sink, E: Sink>(
    rt: &R,
    alloc: Global,
    arguments: io::Result<Vec<String>>,
    source: &mut S,
    sink: &mut K,
    errors: &mut E,
) -> ExitCode
    ensures { (status : StatusOf) × (exit_status result ≡ status_code status)
        × MatchResult arguments
        (λ all. SaysOfWords (map string_bytes (drop 1 all.items)) status
        (change (S.left source.old) (S.faults source.old) (S.left source.new) (S.faults source.new))
        (change (K.taken sink.old) (K.faults sink.old) (K.taken sink.new) (K.faults sink.new)))
        (λ error. SaysOfNoWords (error_kind error) status
        (change (S.left source.old) (S.faults source.old) (S.left source.new) (S.faults source.new))
        (change (K.taken sink.old) (K.faults sink.old) (K.taken sink.new) (K.faults sink.new)))
        × Reports status (change (E.taken errors.old) (E.faults errors.old) (E.taken errors.new) (E.faults errors.new)) }
{
    let status = status_of_arguments(rt, alloc, arguments, source, sink, errors);
    ExitCode::from(status.code())
}

/// The status of a run, whose line is then on the sink of errors.
fn status_of_arguments<R: Threads + Wait + Sync, S: Source, K: Sink, E: Sink>(
    rt: &R,
    alloc: Global,
    arguments: io::Result<Vec<String>>,
    source: &mut S,
    sink: &mut K,
    errors: &mut E,
) -> Status
    ensures says { MatchResult arguments
        (λ all. SaysOfWords (map string_bytes (drop 1 all.items)) result
        (change (S.left source.old) (S.faults source.old) (S.left source.new) (S.faults source.new))
        (change (K.taken sink.old) (K.faults sink.old) (K.taken sink.new) (K.faults sink.new)))
        (λ error. SaysOfNoWords (error_kind error) result
        (change (S.left source.old) (S.faults source.old) (S.left source.new) (S.faults source.new))
        (change (K.taken sink.old) (K.faults sink.old) (K.taken sink.new) (K.faults sink.new))) }
    ensures line { Reports result (change (E.taken errors.old) (E.faults errors.old) (E.taken errors.new) (E.faults errors.new)) }
{
    match arguments {
        Ok(all) => of_words(rt, alloc, behind_name(all.as_slice()), source, sink, errors),
        Err(error) => without_words(&error, errors),
    }
}

/// The status of a run with these words.
fn of_words<R: Threads + Wait + Sync, S: Source, K: Sink, E: Sink>(
    rt: &R,
    alloc: Global,
    words: &[String],
    source: &mut S,
    sink: &mut K,
    errors: &mut E,
) -> Status
    ensures says { SaysOfWords (map string_bytes words.now) result
        (change (S.left source.old) (S.faults source.old) (S.left source.new) (S.faults source.new))
        (change (K.taken sink.old) (K.faults sink.old) (K.taken sink.new) (K.faults sink.new)) }
    ensures line { Reports result (change (E.taken errors.old) (E.faults errors.old) (E.taken errors.new) (E.faults errors.new)) }
{
    let mut left = None;
    lstore(rt, alloc, words, source, sink, errors, &FreeGate, &mut left)
}

/// The arguments behind the program's name.
fn behind_name(arguments: &[String]) -> &[String]
    ensures { result.now ≡ drop 1 arguments.now }
{
    if arguments.is_empty() {
        return arguments;
    }
    &arguments[1..]
}

/// The status of arguments that can't be told, once its line is on the sink of errors.
fn without_words<E: Sink>(error: &io::Error, errors: &mut E) -> Status
    ensures memory { error_kind error.now ≡ OutOfMemory → result ≡ StatusOf.OutOfMemory }
    ensures other { ¬ (error_kind error.now ≡ OutOfMemory) → result ≡ StatusOf.Usage }
    ensures line { Reports result (change (E.taken errors.old) (E.faults errors.old) (E.taken errors.new) (E.faults errors.new)) }
{
    let status = if error.kind() == ErrorKind::OutOfMemory {
        Status::OutOfMemory
    } else {
        Status::Usage
    };
    report(&status, errors);
    status
}
