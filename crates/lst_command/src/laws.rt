//! What is so of the definitions, apart from any run.
ghost use Rattle.std.specs.Prelude.{◌≡◌, ℕ, List};
ghost use Rattle.lst_model.specs.declared.lines.Line.{Line};
ghost use Rattle.lst_script.specs.Scripts.{IsScript};
ghost use Rattle.lst_machine.specs.Others.{without_merges};
ghost use Rattle.lst_layout.specs.declared.limits.Limits.{Limits};
ghost use Rattle.lst_command.specs.Owed.{run_text, MigrationIsTheSame};
ghost use Rattle.lst_command.specs.Merges.{other_text};
ghost use Rattle.lst_command.specs.Loads.{LoadsReadNothing};
ghost use Rattle.lst_command.specs.Runs.{RunsAreSound};
ghost use Rattle.lst_command.specs.Reported.{WorkIsJudgedLegal};
ghost use Rattle.lst_command.specs.TablesAgain.{DumpsComeBack, ImportIsScript, TablesComeBack};

use lst_dumps::dumps_are_tables;
use lst_replay_laws::puts_are_committed;

/// An input is one script at most, so a run has one output alone. The contract is a law; the body does nothing.
pub fn input_is_one_script()
    ensures { (limits : Limits) (input : List ℕ) (script other : List Line) → IsScript limits input script → IsScript limits input other → script ≡ other }
{}

/// What a migration writes is the same script as its input, so a run of it has the same output, where it has no more bytes than an input may have. The
/// contract is a law; the body does nothing.
pub fn a_migration_changes_no_reply()
    ensures { (limits : Limits) (input text : List ℕ) → MigrationIsTheSame limits input text }
{}

/// With the merge lines taken out of a script, the output of its run loses exactly the texts of their replies. The contract is a law; the
/// body does nothing.
pub fn merges_change_no_other_text()
    ensures { (limits : Limits) (script : List Line) → run_text limits (without_merges script) ≡ other_text limits script }
{}

/// Where words name a load, the status is `Done`, `WriteFault` or `OutOfMemory`, and nothing was read. The contract is a law; the body does
/// nothing.
pub fn a_load_reads_nothing()
    ensures { LoadsReadNothing }
{}

/// The history that a store's crew tells after a run is sound: so no two overlapping transactions that were committed wrote one key. The
/// contract is a law; the body does nothing.
pub fn histories_of_runs_are_sound()
    ensures { RunsAreSound }
{}

/// What `work` writes under snapshot isolation, behind its script and the line `report`, is judged legal by `check`, under the same limits: the report is read
/// as the one that the sessions gave, and no other verdict is owed. Where the whole has more bytes than an input may have, `check` says that first. The contract is a
/// law; the body does nothing.
pub fn work_is_judged_legal()
    ensures { WorkIsJudgedLegal }
{}

/// What an import owes is read as a script, under any limits with as many columns. An import takes the text of a table of at most 16,384 rows; and what a
/// dump owes for the script that the import owes is the same text, byte for byte. For that a new store has to have room for the
/// rows: no more than 256 for each range, and as many tail records in a range as there are rows, or 256. A table with no rows needs none. What any dump owes
/// is such a text, and its rows have room under the limits of the dump where these have 256 tail records for each range or more. The contract is a
/// law; the body does nothing.
pub fn tables_come_back()
    ensures script { ImportIsScript }
    ensures same { TablesComeBack }
    ensures dumped { DumpsComeBack }
{
    puts_are_committed();
    dumps_are_tables();
}
