//! The command that the words of a command line name.
ghost use Rattle.std.specs.Prelude.{◌≡◌, ◌↔◌, IsTrue, IfOk, IfSome, Some, None, codes, map, slice_get, string_bytes};
ghost use Rattle.lst_command.specs.declared.command.Task.{Task as TaskNamed};
ghost use Rattle.lst_command.specs.Commands.{IsRunnable, TakesLimits, TellsCommand, task_word};

use lst_layout::Limits;
use lst_legal::Level;
use lst_model::{OutOfMemory, Time};
use lst_options::{
    DiskOptions, LoadNumbers, as_of_of_words, crash_of_words, level_of_words, limits_of_words,
    load_of_words, table_of_words,
};
use std::alloc::Global;

/// What is done with an input.
#[derive(Clone, Copy)]
pub enum Task {
    /// The input is a script, which is run line by line: `run`.
    Run,
    /// The input is a script, on which all sessions work side by side, at a level of isolation: `work`.
    Work { level: Level },
    /// The input is a script with a report, which is judged at a level of isolation: `check`.
    Check { level: Level },
    /// The input is a script, which is written in version 2: `migrate`.
    Migrate,
    /// The input is a script, which is run line by line, and its table as of a time is told from the block of its history: `asof`.
    AsOf { time: Time },
    /// The input is a table as comma-separated values, which is written as a script: `import`. Of the limits it takes the columns alone.
    Import,
    /// The input is a script, which is run line by line, and the table that its commits make is written as comma-separated values: `dump`.
    Dump,
    /// The input is a script, which is run line by line through a journal on a disk in memory. The disk crashes and is opened again: `crash`.
    Crash { disk: DiskOptions },
}

/// What is to be done.
#[derive(Clone, Copy)]
pub enum Command {
    /// A task on an input, and the limits of the store for which it is done.
    Input { task: Task, limits: Limits },
    /// A script is generated from these numbers, on which all sessions of a new store work: `load`.
    Load { numbers: LoadNumbers },
}

/// The command that words name, or None where they are no command line. The only error is want of memory.
pub(crate) fn command_of(alloc: Global, words: &[String]) -> Result<Option<Command>, OutOfMemory>
    ensures told { IfOk result (TellsCommand (map string_bytes words.now)) }
    ensures valid { IfOk result (λ command. IfSome command IsRunnable) }
{
    if begins_with(words, b"work") {
        return work_named(alloc, words);
    }
    if begins_with(words, b"check") {
        return check_named(alloc, words);
    }
    if begins_with(words, b"asof") {
        return as_of_named(alloc, words);
    }
    if begins_with(words, b"import") {
        return import_named(alloc, words);
    }
    if begins_with(words, b"crash") {
        return crash_named(alloc, words);
    }
    match task_of(words) {
        Some(task) => task_named(alloc, task, words),
        None => load_named(alloc, words),
    }
}

/// The command that words name whose first is the word of this task.
fn task_named(alloc: Global, task: Task, words: &[String]) -> Result<Option<Command>, OutOfMemory>
    requires plain { TakesLimits task }
    requires word { slice_get (map string_bytes words.now) 0 ≡ Some (task_word task) }
    ensures told { IfOk result (TellsCommand (map string_bytes words.now)) }
    ensures valid { IfOk result (λ command. IfSome command IsRunnable) }
{
    match limits_of_words(alloc, words)? {
        Some(limits) => Ok(Some(Command::Input { task, limits })),
        None => Ok(None),
    }
}

/// The command that words name whose first is `work`.
fn work_named(alloc: Global, words: &[String]) -> Result<Option<Command>, OutOfMemory>
    requires { slice_get (map string_bytes words.now) 0 ≡ Some (codes "work") }
    ensures told { IfOk result (TellsCommand (map string_bytes words.now)) }
    ensures valid { IfOk result (λ command. IfSome command IsRunnable) }
{
    match level_of_words(alloc, words)? {
        Some(options) => Ok(Some(Command::Input {
            task: Task::Work {
                level: options.level,
            },
            limits: options.limits,
        })),
        None => Ok(None),
    }
}

/// The command that words name whose first is `check`.
fn check_named(alloc: Global, words: &[String]) -> Result<Option<Command>, OutOfMemory>
    requires { slice_get (map string_bytes words.now) 0 ≡ Some (codes "check") }
    ensures told { IfOk result (TellsCommand (map string_bytes words.now)) }
    ensures valid { IfOk result (λ command. IfSome command IsRunnable) }
{
    match level_of_words(alloc, words)? {
        Some(options) => Ok(Some(Command::Input {
            task: Task::Check {
                level: options.level,
            },
            limits: options.limits,
        })),
        None => Ok(None),
    }
}

/// The command that words name whose first is `asof`.
fn as_of_named(alloc: Global, words: &[String]) -> Result<Option<Command>, OutOfMemory>
    requires { slice_get (map string_bytes words.now) 0 ≡ Some (codes "asof") }
    ensures told { IfOk result (TellsCommand (map string_bytes words.now)) }
    ensures valid { IfOk result (λ command. IfSome command IsRunnable) }
{
    match as_of_of_words(alloc, words)? {
        Some(options) => Ok(Some(Command::Input {
            task: Task::AsOf { time: options.time },
            limits: options.limits,
        })),
        None => Ok(None),
    }
}

/// The command that words name whose first is `import`.
fn import_named(alloc: Global, words: &[String]) -> Result<Option<Command>, OutOfMemory>
    requires { slice_get (map string_bytes words.now) 0 ≡ Some (codes "import") }
    ensures told { IfOk result (TellsCommand (map string_bytes words.now)) }
    ensures valid { IfOk result (λ command. IfSome command IsRunnable) }
{
    match table_of_words(alloc, words)? {
        Some(limits) => Ok(Some(Command::Input {
            task: Task::Import,
            limits,
        })),
        None => Ok(None),
    }
}

/// The command that words name whose first is `crash`.
fn crash_named(alloc: Global, words: &[String]) -> Result<Option<Command>, OutOfMemory>
    requires { slice_get (map string_bytes words.now) 0 ≡ Some (codes "crash") }
    ensures told { IfOk result (TellsCommand (map string_bytes words.now)) }
    ensures valid { IfOk result (λ command. IfSome command IsRunnable) }
{
    match crash_of_words(alloc, words)? {
        Some(options) => Ok(Some(Command::Input {
            task: Task::Crash { disk: options.disk },
            limits: options.limits,
        })),
        None => Ok(None),
    }
}

/// The command that words name whose first is the word of no task.
fn load_named(alloc: Global, words: &[String]) -> Result<Option<Command>, OutOfMemory>
    requires { (task : TaskNamed) → ¬ (slice_get (map string_bytes words.now) 0 ≡ Some (task_word task)) }
    ensures told { IfOk result (TellsCommand (map string_bytes words.now)) }
    ensures valid { IfOk result (λ command. IfSome command IsRunnable) }
{
    if !begins_with(words, b"load") {
        return Ok(None);
    }
    match load_of_words(alloc, words)? {
        Some(numbers) => Ok(Some(Command::Load { numbers })),
        None => Ok(None),
    }
}

/// The task that the first word names, where no other options than those of a store stand behind it.
fn task_of(words: &[String]) -> Option<Task>
    requires work { ¬ (slice_get (map string_bytes words.now) 0 ≡ Some (codes "work")) }
    requires check { ¬ (slice_get (map string_bytes words.now) 0 ≡ Some (codes "check")) }
    requires past { ¬ (slice_get (map string_bytes words.now) 0 ≡ Some (codes "asof")) }
    requires table { ¬ (slice_get (map string_bytes words.now) 0 ≡ Some (codes "import")) }
    requires crash { ¬ (slice_get (map string_bytes words.now) 0 ≡ Some (codes "crash")) }
    ensures plain { IfSome result TakesLimits }
    ensures some { IfSome result (λ task. slice_get (map string_bytes words.now) 0 ≡ Some (task_word task)) }
    ensures none { result ≡ None → (task : TaskNamed) → ¬ (slice_get (map string_bytes words.now) 0 ≡ Some (task_word task)) }
{
    if begins_with(words, b"run") {
        return Some(Task::Run);
    }
    if begins_with(words, b"migrate") {
        return Some(Task::Migrate);
    }
    if begins_with(words, b"dump") {
        return Some(Task::Dump);
    }
    None
}

/// Whether the first word is this one.
fn begins_with(words: &[String], wanted: &[u8]) -> bool
    ensures { IsTrue result ↔ (slice_get (map string_bytes words.now) 0 ≡ Some wanted.now) }
{
    !words.is_empty() && is_word(&words[0], wanted)
}

/// Whether a word is this one.
fn is_word(word: &String, wanted: &[u8]) -> bool
    ensures { IsTrue result ↔ (string_bytes word.now ≡ wanted.now) }
{
    word.as_bytes() == wanted
}
