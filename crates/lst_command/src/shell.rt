//! The top call: words and bytes in, bytes and a status out.
ghost use Rattle.std.specs.Prelude.{◌≡◌, ◌↔◌, ℕ, List, IsTrue, codes, IfOk, IfErr, IfSome, None, Some, map, string_bytes};
ghost use Rattle.lst_layout.specs.Limits.{IsValid};
ghost use Rattle.lst_command.specs.Answers.{Says, IsUsage, IsDue, IsComplete, Reports, Refuses, RefusesInput, change};
ghost use Rattle.lst_command.specs.declared.command.Command.{Command as CommandOf};
ghost use Rattle.lst_command.specs.declared.command.Task.{Task as TaskOf};
ghost use Rattle.lst_command.specs.declared.status.Status.{Status as StatusOf};
ghost use Rattle.lst_command.specs.Commands.{HasDisk, IsRunnable, Names};
ghost use Rattle.lst_command.specs.Outputs.{HasMade, HasSaid, IsLoadOutput, IsOutputFor, IsOutputOf, IsRefusalFor, IsVerdictOn};
ghost use Rattle.lst_command.specs.Owed.{load_text};
ghost use Rattle.lst_options.specs.Options.{IsLoadable};
ghost use Rattle.lst_legal.specs.Judged.{AreSessionsBelow};
ghost use Rattle.lst_legal.specs.Judged.{IsLegalAt};
ghost use Rattle.lst_replies.specs.ReportTexts.{report_text};
ghost use Rattle.lst_script.specs.Canonical.{named_text};

use crate::command::{Command, Task, command_of};
use crate::crashing::crash_input;
use crate::execution::{execute, layout};
use crate::looking::look_back;
use crate::messages::report;
use crate::output::{Output, of_fault, output_of};
use crate::printing::print_loaded;
use crate::status::Status;
use crate::tables::{dump_input, import_input};
use lst_io::{Failed, ReadAllFault, Sink, Source, read_all, write_all};
use lst_layout::Limits;
use lst_legal::{Level, legal_at};
use lst_model::{OutOfMemory, Text, Time};
use lst_options::LoadNumbers;
use lst_report::{Claim, Report, print_report, read_claim};
use lst_rule::Store;
use lst_script::{Named, parse, parse_named, print2};
use lst_session::Crew;
use lst_work::{Gate, Loaded, load, work_at};
use std::alloc::Global;
use std::sync::Wait;
use std::thread::Threads;

/// How many bytes an input may have.
const MOST_BYTES: u64 = 16_777_216;

/// Runs the command that the words name: reads its input from `source` to the end, unless the command is `load`, writes its output to `sink` as a
/// whole, and leaves a line on `errors` where it ends with another status than `Done` or `Illegal`.
///
/// The command is `run`, `migrate` or `dump`, with the options of a store behind it, which name limits, `work` or `check` with `--level` beside them, `asof`
/// with `--time` beside them, `crash` with `--stop`, `--torn` and `--bytes` beside them, `import` with `--columns` alone, or `load`, with a seed and numbers
/// of keys and sessions as its options. The input has at most 16,777,216 bytes.
/// For `run` it is a script, and the output is what the machine of one thread answers to each line under the limits. For `work` it is a script
/// too, on which all sessions of a store work side by side, and the output is a report of it: which one is up to their steps, but it is legal for
/// the script, with `--level 2` at the serializable level, and with `--level 1`, as without the option, under snapshot isolation. For `check` it is a script, the line `report` and a report: the output is `legal`, with `Done`, exactly where the report is legal for
/// the script under the limits, and `illegal`, with `Illegal`, where it isn't, by the same option.
/// For `migrate` it is a script, and the output is its text of version 2, which is read as the same script.
/// For `asof` it is a script too, which is run as for `run`. The output has a line `bytes` with the length of the block of the history after
/// the last line, and behind it `rows` with the table as of the time, by rising key, or `future` with the length of the history where the time is above it.
/// For `import` it is a table as comma-separated values, the word `key` and the names of the columns first, and the output is the script of version 2
/// that puts its rows in one transaction. Where a record is faulty, the status is `BadTable` with the first such record, and never `BadScript`.
/// For `dump` it is a script, which is run as for `run`, and the output is the table that its commits make, as comma-separated values.
/// For `crash` it is a script, which is run through a journal on a disk in memory of `--bytes` bytes that makes `--stop` calls and fails then. The disk crashes
/// at the first line at which it fails, or behind the last line, and is opened again. The output is what the lines are answered until then, how many
/// commits were recovered and the table that they make: they are those that were acknowledged, and the one at which the disk failed exactly where the disk is
/// torn and three of its calls were left for it.
/// The words are looked at first, then the whole input is read, then its lines are, then they are run, and then the output is written at once.
/// Want of memory may come at any of these but the last, so at the words too: then nothing is read.
///
/// For `load` nothing is read. All sessions of a new store work on the script that the seed generates, and the output is two lines: `rows` with the
/// number of keys, which is that of the rows, and `total` with 1,000 times as much, which is what they add up to. It ends with `Done`, unless the
/// sink fails or memory is wanting.
///
/// With `Done` and with `WriteFault` of a run, a look at a past table and a dump, `left` receives a store with those limits and the crew that hosts all of
/// it, which tells the machine's state after the last line; of sessions at work the store and the crew in which they are gathered, under whose history
/// the very report that was written is legal. Of a load it receives the store and the crew in which its sessions are gathered. With any other status,
/// and of a check, a migration, an import or a crash, `left` stays as it is.
///
/// A worker calls the gate before each of its lines, and after each that was answered, which no clause says. Nothing is promised of when the call returns: a session that commits
/// waits while another one does.
pub fn lstore<R: Threads + Wait + Sync, S: Source, K: Sink, E: Sink, G: Gate + Sync>(
    rt: &R,
    alloc: Global,
    words: &[String],
    source: &mut S,
    sink: &mut K,
    errors: &mut E,
    gate: &G,
    left: &mut Option<(Store, Crew)>,
) -> Status
    // What the status says of the words, of what was read, of what was written and of what is left to the caller.
    ensures answer { Says result (map string_bytes words.now)
        (change (S.left source.old) (S.faults source.old) (S.left source.new) (S.faults source.new))
        (change (K.taken sink.old) (K.faults sink.old) (K.taken sink.new) (K.faults sink.new)) left.old left.new }
    ensures usage { IsUsage result (map string_bytes words.now) }

    // Where the source tells its bytes they decide, unless an end fails or memory is wanting.
    ensures due { IfSome (S.left source.old) (λ input. IsDue result (map string_bytes words.now) input) }
    ensures complete { IsComplete result (map string_bytes words.now)
        (change (S.left source.old) (S.faults source.old) (S.left source.new) (S.faults source.new))
        (change (K.taken sink.old) (K.faults sink.old) (K.taken sink.new) (K.faults sink.new)) }

    // The line on the sink of errors.
    ensures errors { Reports result (change (E.taken errors.old) (E.faults errors.old) (E.taken errors.new) (E.faults errors.new)) }
{
    let status = by_words(rt, alloc, words, source, sink, gate, left);
    report(&status, errors);
    status
}

/// The work of the words, without the line on the sink of errors.
fn by_words<R: Threads + Wait + Sync, S: Source, K: Sink, G: Gate + Sync>(
    rt: &R,
    alloc: Global,
    words: &[String],
    source: &mut S,
    sink: &mut K,
    gate: &G,
    left: &mut Option<(Store, Crew)>,
) -> Status
    ensures says { Says result (map string_bytes words.now)
        (change (S.left source.old) (S.faults source.old) (S.left source.new) (S.faults source.new))
        (change (K.taken sink.old) (K.faults sink.old) (K.taken sink.new) (K.faults sink.new)) left.old left.new }
{
    match command_of(alloc, words) {
        Ok(Some(command)) => by_command(rt, alloc, &command, source, sink, gate, left),
        Ok(None) => Status::Usage,
        Err(OutOfMemory) => Status::OutOfMemory,
    }
}

/// The work of a command.
#[tactic(auto, using(crate::proofs::Leaving::says_written, crate::proofs::Leaving::says_part, crate::proofs::Leaving::says_refused))]
fn by_command<R: Threads + Wait + Sync, S: Source, K: Sink, G: Gate + Sync>(
    rt: &R,
    alloc: Global,
    command: &Command,
    source: &mut S,
    sink: &mut K,
    gate: &G,
    left: &mut Option<(Store, Crew)>,
) -> Status
    requires { IsRunnable command.now }
    ensures says { (words : List (List ℕ)) → Names words command.now → Says result words
        (change (S.left source.old) (S.faults source.old) (S.left source.new) (S.faults source.new))
        (change (K.taken sink.old) (K.faults sink.old) (K.taken sink.new) (K.faults sink.new)) left.old left.new }
{
    match output(rt, alloc, command, source, gate) {
        Ok(Output { text, status, both }) => {
            leave(left, both);
            match write_all(sink, text.as_bytes()) {
                Ok(()) => status,
                Err(Failed) => Status::WriteFault,
            }
        }
        Err(status) => status,
    }
}

/// Hands the store and its crew over to the caller, if there are any.
fn leave(left: &mut Option<(Store, Crew)>, both: Option<(Store, Crew)>)
    ensures some { IfSome both (λ given. left.new ≡ both) }
    ensures none { both ≡ None → left.new ≡ left.old }
{
    if both.is_some() {
        *left = both;
    }
}

/// The output of a command, or the status of what is in the way.
#[tactic(auto, using(crate::proofs::Leaving::load_made, crate::proofs::Leaving::load_refusal))]
fn output<R: Threads + Wait + Sync, S: Source, G: Gate + Sync>(
    rt: &R,
    alloc: Global,
    command: &Command,
    source: &mut S,
    gate: &G,
) -> Result<Output, Status>
    requires { IsRunnable command.now }
    ensures output { IfOk result (IsOutputOf command.now (change (S.left source.old) (S.faults source.old) (S.left source.new) (S.faults source.new))) }
    ensures refusal { IfErr result (λ status. Refuses command.now status
        (change (S.left source.old) (S.faults source.old) (S.left source.new) (S.faults source.new))) }
{
    match command {
        Command::Input { task, limits } => input_output(rt, alloc, *task, limits, source, gate),
        Command::Load { numbers } => load_output(rt, alloc, numbers, gate),
    }
}

/// The output of a load, or the status of what is in the way: want of memory.
fn load_output<R: Threads + Wait + Sync, G: Gate + Sync>(
    rt: &R,
    alloc: Global,
    numbers: &LoadNumbers,
    gate: &G,
) -> Result<Output, Status>
    requires { IsLoadable numbers.now }
    ensures output { IfOk result (IsLoadOutput numbers.now) }
    ensures refusal { IfErr result (λ status. status ≡ StatusOf.OutOfMemory) }
{
    match load(
        rt,
        alloc,
        numbers.seed,
        numbers.keys,
        numbers.sessions,
        gate,
    ) {
        Ok((loaded, store, crew)) => loaded_output(alloc, &loaded, (store, crew)),
        Err(OutOfMemory) => Err(Status::OutOfMemory),
    }
}

/// The output of what a load tells, with the store and the crew that it is of.
fn loaded_output(alloc: Global, loaded: &Loaded, left: (Store, Crew)) -> Result<Output, Status>
    ensures output { IfOk result (HasMade (load_text loaded.now.rows loaded.now.total) left) }
    ensures refusal { IfErr result (λ status. status ≡ StatusOf.OutOfMemory) }
{
    match print_loaded(alloc, loaded) {
        Ok(text) => Ok(Output {
            text,
            status: Status::Done,
            both: Some(left),
        }),
        Err(OutOfMemory) => Err(Status::OutOfMemory),
    }
}

/// The output of a task for the input that the source gives, or the status of what is in the way.
#[tactic(auto, using(crate::proofs::Leaving::made_output, crate::proofs::Leaving::made_refusal))]
fn input_output<R: Threads + Wait + Sync, S: Source, G: Gate + Sync>(
    rt: &R,
    alloc: Global,
    task: Task,
    limits: &Limits,
    source: &mut S,
    gate: &G,
) -> Result<Output, Status>
    requires valid { IsValid limits.now }
    requires disk { HasDisk task }
    ensures output { IfOk result (IsOutputOf (CommandOf.Input task limits.now) (change (S.left source.old) (S.faults source.old) (S.left source.new) (S.faults source.new))) }
    ensures refusal { IfErr result (λ status. RefusesInput task limits.now status
        (change (S.left source.old) (S.faults source.old) (S.left source.new) (S.faults source.new))) }
{
    let input = match read_all(alloc, source, MOST_BYTES) {
        Ok(input) => input,
        Err(ReadAllFault::Failed) => return Err(Status::ReadFault),
        Err(ReadAllFault::TooLong) => return Err(Status::TooLong),
        Err(ReadAllFault::OutOfMemory) => return Err(Status::OutOfMemory),
    };
    make(rt, alloc, task, limits, &input, gate)
}

/// The output of a task for an input.
fn make<R: Threads + Wait + Sync, G: Gate + Sync>(
    rt: &R,
    alloc: Global,
    task: Task,
    limits: &Limits,
    input: &Text,
    gate: &G,
) -> Result<Output, Status>
    requires valid { IsValid limits.now }
    requires disk { HasDisk task }
    ensures output { IfOk result (IsOutputFor task limits.now input.now) }
    ensures refusal { IfErr result (IsRefusalFor task limits.now input.now) }
{
    match task {
        Task::Run => run_input(alloc, limits, input),
        Task::Work { level } => work_input(rt, alloc, level, limits, input, gate),
        Task::Check { level } => check_input(alloc, level, limits, input),
        Task::Migrate => migrate_input(alloc, limits, input),
        Task::AsOf { time } => as_of_input(alloc, limits, time, input),
        Task::Import => import_input(alloc, limits, input),
        Task::Dump => dump_input(alloc, limits, input),
        Task::Crash { disk } => crash_input(alloc, limits, disk, input),
    }
}

/// The output of a run.
#[tactic(auto, using(crate::proofs::Leaving::run_fault))]
fn run_input(alloc: Global, limits: &Limits, input: &Text) -> Result<Output, Status>
    requires { IsValid limits.now }
    ensures output { IfOk result (IsOutputFor TaskOf.Run limits.now input.now) }
    ensures refusal { IfErr result (IsRefusalFor TaskOf.Run limits.now input.now) }
{
    let script = match parse(alloc, input.as_bytes(), limits) {
        Ok(script) => script,
        Err(fault) => return Err(of_fault(fault)),
    };
    match execute(alloc, &script, limits) {
        Ok(ran) => Ok(output_of(ran)),
        Err(OutOfMemory) => Err(Status::OutOfMemory),
    }
}

/// The output of a look at a past table.
#[tactic(auto, using(crate::proofs::Pasts::past_fault))]
fn as_of_input(alloc: Global, limits: &Limits, time: Time, input: &Text) -> Result<Output, Status>
    requires { IsValid limits.now }
    ensures output { IfOk result (IsOutputFor (TaskOf.AsOf time) limits.now input.now) }
    ensures refusal { IfErr result (IsRefusalFor (TaskOf.AsOf time) limits.now input.now) }
{
    let script = match parse(alloc, input.as_bytes(), limits) {
        Ok(script) => script,
        Err(fault) => return Err(of_fault(fault)),
    };
    match look_back(alloc, &script, limits, time) {
        Ok(ran) => Ok(output_of(ran)),
        Err(OutOfMemory) => Err(Status::OutOfMemory),
    }
}

/// The output of sessions at work at a level.
#[tactic(auto, using(crate::proofs::Leaving::work_fault, crate::proofs::Leaving::work_output, crate::proofs::Leaving::work_refusal))]
fn work_input<R: Threads + Wait + Sync, G: Gate + Sync>(
    rt: &R,
    alloc: Global,
    level: Level,
    limits: &Limits,
    input: &Text,
    gate: &G,
) -> Result<Output, Status>
    requires { IsValid limits.now }
    ensures output { IfOk result (IsOutputFor (TaskOf.Work level) limits.now input.now) }
    ensures refusal { IfErr result (IsRefusalFor (TaskOf.Work level) limits.now input.now) }
{
    let script = match parse(alloc, input.as_bytes(), limits) {
        Ok(script) => script,
        Err(fault) => return Err(of_fault(fault)),
    };
    match work_at(rt, alloc, level, &layout(limits), &script, gate) {
        Ok((told, store, crew)) => report_output(alloc, &told, (store, crew)),
        Err(OutOfMemory) => Err(Status::OutOfMemory),
    }
}

/// The output of a report, with the store and the crew that it is of.
fn report_output(alloc: Global, told: &Report, left: (Store, Crew)) -> Result<Output, Status>
    ensures output { IfOk result (HasMade (report_text told.now) left) }
    ensures refusal { IfErr result (λ status. status ≡ StatusOf.OutOfMemory) }
{
    match print_report(alloc, told) {
        Ok(text) => Ok(Output {
            text,
            status: Status::Done,
            both: Some(left),
        }),
        Err(OutOfMemory) => Err(Status::OutOfMemory),
    }
}

/// The output of a check at a level.
#[tactic(auto, using(crate::proofs::Leaving::check_fault, crate::proofs::Leaving::check_output, crate::proofs::Leaving::check_refusal))]
fn check_input(alloc: Global, level: Level, limits: &Limits, input: &Text) -> Result<Output, Status>
    requires { IsValid limits.now }
    ensures output { IfOk result (IsOutputFor (TaskOf.Check level) limits.now input.now) }
    ensures refusal { IfErr result (IsRefusalFor (TaskOf.Check level) limits.now input.now) }
{
    match read_claim(alloc, input.as_bytes(), limits) {
        Ok(claim) => judge(alloc, level, limits, &claim),
        Err(fault) => Err(of_fault(fault)),
    }
}

/// The output of a migration.
#[tactic(auto, using(crate::proofs::Leaving::migrate_fault, crate::proofs::Leaving::migrate_output, crate::proofs::Leaving::migrate_refusal))]
fn migrate_input(alloc: Global, limits: &Limits, input: &Text) -> Result<Output, Status>
    requires { IsValid limits.now }
    ensures output { IfOk result (IsOutputFor TaskOf.Migrate limits.now input.now) }
    ensures refusal { IfErr result (IsRefusalFor TaskOf.Migrate limits.now input.now) }
{
    match parse_named(alloc, input.as_bytes(), limits) {
        Ok(named) => migrated(alloc, &named),
        Err(fault) => Err(of_fault(fault)),
    }
}

/// The output of a script with its names: their text of version 2.
fn migrated(alloc: Global, named: &Named) -> Result<Output, Status>
    ensures output { IfOk result (HasSaid (named_text named.now.names named.now.script) StatusOf.Done) }
    ensures refusal { IfErr result (λ status. status ≡ StatusOf.OutOfMemory) }
{
    match print2(alloc, named) {
        Ok(text) => Ok(Output {
            text,
            status: Status::Done,
            both: None,
        }),
        Err(OutOfMemory) => Err(Status::OutOfMemory),
    }
}

/// The verdict on the report of a claim at a level.
fn judge(alloc: Global, level: Level, limits: &Limits, claim: &Claim) -> Result<Output, Status>
    requires { AreSessionsBelow limits.now.sessions claim.now.script }
    ensures output { IfOk result (IsVerdictOn level limits.now claim.now) }
    ensures refusal { IfErr result (λ status. status ≡ StatusOf.OutOfMemory) }
{
    match is_legal(alloc, level, limits, claim) {
        Ok(is_legal) => verdict(alloc, is_legal),
        Err(OutOfMemory) => Err(Status::OutOfMemory),
    }
}

/// Whether the report of a claim is legal at a level for its script, whose lines are unpacked for the judge.
fn is_legal(
    alloc: Global,
    level: Level,
    limits: &Limits,
    claim: &Claim,
) -> Result<bool, OutOfMemory>
    requires { AreSessionsBelow limits.now.sessions claim.now.script }
    ensures { IfOk result (λ b. IsTrue b ↔ IsLegalAt level limits.now claim.now.script claim.now.report) }
{
    let lines = claim.script.unpacked(alloc)?;
    legal_at(alloc, level, limits, lines.as_slice(), &claim.report)
}

/// The output of a verdict.
fn verdict(alloc: Global, is_legal: bool) -> Result<Output, Status>
    ensures legal { IsTrue is_legal → IfOk result (HasSaid (codes "legal\n") StatusOf.Done) }
    ensures illegal { (¬ IsTrue is_legal) → IfOk result (HasSaid (codes "illegal\n") StatusOf.Illegal) }
    ensures refusal { IfErr result (λ status. status ≡ StatusOf.OutOfMemory) }
{
    if is_legal {
        said(alloc, b"legal\n", Status::Done)
    } else {
        said(alloc, b"illegal\n", Status::Illegal)
    }
}

/// An output of these bytes alone.
fn said(alloc: Global, bytes: &[u8], status: Status) -> Result<Output, Status>
    ensures ok { IfOk result (HasSaid bytes.now status) }
    ensures err { IfErr result (λ fault. fault ≡ StatusOf.OutOfMemory) }
{
    match bytes.to_vec(alloc) {
        Ok(copy) => Ok(Output {
            text: Text::from_bytes(copy),
            status,
            both: None,
        }),
        Err(_) => Err(Status::OutOfMemory),
    }
}
