//! Inputs that are faulty, words that are no command line, and ends that fail.

use crate::answer_tests::{CHANGED, PUT};
use crate::calls::{
    Faulty, SOUND, Wanted, all_are_refused, all_leave_nothing, all_stop, comes_to, failing, stops,
};
use crate::example_tests::{ORDERS_TABLE_CSV, SCRIPT};
use lst_command::Status;
use lst_csv::TableFault;
use lst_model::OutOfMemory;
use lst_script::FaultKind;
use lst_test_memory::Ends;
use std::alloc::Global;
use std::process::Abort;
use std::sync::Wait;
use std::thread::Threads;

/// The words of a call and its input, the faulty line with its fault, and the line of errors.
const FAULTS: &[Faulty<'_>] = &[
    // The first faulty line of a script.
    (
        "run",
        "0 begin\n0 fly\n0 flee\n",
        2,
        FaultKind::UnknownWord,
        "lstore: line 2: unknown word\n",
    ),
    (
        "run",
        "0 update 7 _ _\n",
        1,
        FaultKind::NothingToSet,
        "lstore: line 1: nothing to set\n",
    ),
    (
        "run",
        "\n# a comment\n0 insert 7 1\n",
        3,
        FaultKind::BadCount,
        "lstore: line 3: wrong number of words\n",
    ),
    (
        "run",
        "4 begin\n",
        1,
        FaultKind::BadSession,
        "lstore: line 1: no such session\n",
    ),
    (
        "run",
        "0 get 18446744073709551616\n",
        1,
        FaultKind::BadNumber,
        "lstore: line 1: bad number\n",
    ),
    (
        "run",
        "merge 4 0\n",
        1,
        FaultKind::BadRange,
        "lstore: line 1: no such range\n",
    ),
    (
        "run",
        "0 insert 7 1\n",
        1,
        FaultKind::BadCount,
        "lstore: line 1: wrong number of words\n",
    ),
    (
        "run",
        "0 sum 2\n",
        1,
        FaultKind::BadColumn,
        "lstore: line 1: no such column\n",
    ),
    // Beyond the limits that options name.
    (
        "run --columns=1",
        "0 begin\n0 insert 7 1 2\n",
        2,
        FaultKind::BadCount,
        "lstore: line 2: wrong number of words\n",
    ),
    (
        "run --ranges 1",
        "merge 1 0\n",
        1,
        FaultKind::BadRange,
        "lstore: line 1: no such range\n",
    ),
    (
        "run --sessions 1",
        "1 begin\n",
        1,
        FaultKind::BadSession,
        "lstore: line 1: no such session\n",
    ),
    // A header.
    (
        "migrate",
        "version 3 a b",
        1,
        FaultKind::BadVersion,
        "lstore: line 1: unknown version\n",
    ),
    (
        "migrate",
        "version 2 a",
        1,
        FaultKind::BadCount,
        "lstore: line 1: wrong number of words\n",
    ),
    (
        "migrate",
        "version 2 a a",
        1,
        FaultKind::BadName,
        "lstore: line 1: bad column name\n",
    ),
    // A dump.
    (
        "dump",
        "0 begin\n1,5,\n",
        2,
        FaultKind::BadNumber,
        "lstore: line 2: bad number\n",
    ),
    // A report: the fault of the script comes first.
    (
        "check",
        "0 begin\n0 insert 7 10 20\n0 commit\n",
        4,
        FaultKind::NoReport,
        "lstore: line 4: no report\n",
    ),
    (
        "check",
        "",
        1,
        FaultKind::NoReport,
        "lstore: line 1: no report\n",
    ),
    (
        "check",
        "0 begin\n0 fly\n",
        2,
        FaultKind::UnknownWord,
        "lstore: line 2: unknown word\n",
    ),
    (
        "check",
        "0 fly\nreport\nnone",
        1,
        FaultKind::UnknownWord,
        "lstore: line 1: unknown word\n",
    ),
    (
        "check",
        "0 begin\nreport\n0 begun 00\nhistory 0\n",
        3,
        FaultKind::BadReport,
        "lstore: line 3: bad report line\n",
    ),
    (
        "check",
        "0 begin\nreport\n0 begun 0\n",
        4,
        FaultKind::BadReport,
        "lstore: line 4: bad report line\n",
    ),
];

/// A run of one line that is too long.
fn stops_at_a_long_line(
    rt: &(impl Abort + Threads + Wait + Sync),
    alloc: Global,
) -> Result<(), OutOfMemory> {
    let long = vec![in alloc; b'a'; 1_025]?;
    let (line, kind) = (1, FaultKind::LineTooLong);
    let status = Status::BadScript { line, kind };
    let wanted = Wanted::stop(status, "lstore: line 1: line too long\n");
    comes_to(rt, alloc, 0, "run", long.as_slice(), &SOUND, wanted)
}

#[test]
fn the_first_faulty_line_is_named(rt: HostRuntime) -> Result<(), OutOfMemory> {
    all_stop(&rt, rt.alloc(), FAULTS)?;
    stops_at_a_long_line(&rt, rt.alloc())
}

/// Tables, the places of their first faulty records with the faults, and the lines of errors.
const FAULTY_TABLES: &[(&str, u64, TableFault, &str)] = &[
    (
        "key,qty,price\n1,5,\n2,,9\n1,6,\n",
        4,
        TableFault::RepeatedKey,
        "lstore: record 4: repeated key\n",
    ),
    (
        "",
        1,
        TableFault::BadHeader,
        "lstore: record 1: bad header\n",
    ),
    (
        "key,qty,price\n1,5\n",
        2,
        TableFault::BadLength,
        "lstore: record 2: wrong number of fields\n",
    ),
    (
        "key,qty,price\n1,5,1.50\n",
        2,
        TableFault::BadField,
        "lstore: record 2: bad field\n",
    ),
];

#[test]
fn the_first_faulty_record_ends_the_call(rt: HostRuntime) -> Result<(), OutOfMemory> {
    for &(table, place, kind, message) in FAULTY_TABLES {
        let status = Status::BadTable { place, kind };
        stops(&rt, rt.alloc(), "import", table, status, message)?;
    }
    Ok(())
}

/// Ends that take longer steps, for the greatest inputs.
const LONG: Ends = Ends {
    read_step: 65_543,
    write_step: 5,
    failing_read: 0,
    failing_write: 0,
    failing_report: 0,
};

/// How many newlines an input has, and how a run of it ends, which has no output: the greatest size, and one byte too many.
const SIZES: &[(usize, Status, &str)] = &[
    (16_777_217, Status::TooLong, "lstore: input too long\n"),
    (16_777_216, Status::Done, ""),
];

#[test]
fn an_input_is_read_up_to_the_greatest_size(rt: HostRuntime) -> Result<(), OutOfMemory> {
    for &(count, status, message) in SIZES {
        let input = vec![in rt.alloc(); b'\n'; count]?;
        let wanted = Wanted::stop(status, message);
        comes_to(&rt, rt.alloc(), 0, "run", input.as_slice(), &LONG, wanted)?;
    }
    Ok(())
}

/// Words that are no command line.
const REFUSED: &[&str] = &[
    "",
    "fly",
    "run --columns",
    // Of a run, of work, of a look, of a load and of a check.
    "run --txns 1 --txns 1",
    "run --txns",
    "run extra",
    "run --columns 9",
    "run --columns 1 --index 1",
    "run --level 1",
    "run --level 2",
    "work --level 3",
    "asof --level 1",
    "load --level 1",
    "check --level 0",
    "check --level 3",
    "check --level 2 --level 2",
    "check --level",
    "run --help",
    "--txns 1 run",
    "runs",
    "Run",
    // Of a load.
    "load --keys 0",
    "load --keys 4097",
    "load --sessions 17",
    "load --tails 3",
    "load --seed 1 --seed 1",
    "load --seed 18446744073709551616",
    "load x",
    "loads",
    "run --keys 3",
    // Of an import and of a dump.
    "import --ranges 4",
    "import --columns 9",
    "dump --time 1",
    "imports",
    "dumps",
];

/// The same over ends that don't fail.
const REFUSED_TOO: &[&str] = &["", "run --ranges 0", "run --columns 1 --index 1"];

/// Words and inputs, and the number with which a call ends that leaves no store.
const LEAVES_NOTHING: &[(&str, &str, u8)] = &[
    // Of a look.
    ("asof --time", "", 2),
    ("asof --time -1", "", 2),
    ("asof --seed 1", "", 2),
    ("run --time 1", "", 2),
    ("asof --columns 3", CHANGED, 3),
    // Of a crash.
    ("crash --stop", "", 2),
    ("crash --stop 1000001", "", 2),
    ("crash --torn 2", "", 2),
    ("crash --bytes 63", "", 2),
    ("crash --bytes=262145", "", 2),
    ("run --stop 1", "", 2),
    ("crash --time 1", "", 2),
    ("crash --columns 3", PUT, 3),
];

#[test]
fn other_words_are_refused_before_anything_is_read(rt: HostRuntime) -> Result<(), OutOfMemory> {
    all_are_refused(&rt, rt.alloc(), REFUSED)?;
    for &words in REFUSED_TOO {
        let message = "lstore: bad command line\n";
        stops(&rt, rt.alloc(), words, "0 begin\n", Status::Usage, message)?;
    }
    all_leave_nothing(&rt, rt.alloc(), LEAVES_NOTHING)
}

/// The words of a call and its input, which read fails, which write and which write of the line of errors, counted from 1 and none where it is 0; and how the
/// call ends, with the front of its output and its line of errors.
const FAILING: &[(&str, &str, (u64, u64, u64), Status, &str, &str)] = &[
    // A source that fails gives no output.
    (
        "run",
        SCRIPT,
        (1, 0, 0),
        Status::ReadFault,
        "",
        "lstore: read failed\n",
    ),
    (
        "run",
        SCRIPT,
        (3, 0, 0),
        Status::ReadFault,
        "",
        "lstore: read failed\n",
    ),
    (
        "import",
        ORDERS_TABLE_CSV,
        (1, 0, 0),
        Status::ReadFault,
        "",
        "lstore: read failed\n",
    ),
    // A sink that fails has a front of the output.
    (
        "run",
        SCRIPT,
        (0, 1, 0),
        Status::WriteFault,
        "",
        "lstore: write failed\n",
    ),
    (
        "run",
        SCRIPT,
        (0, 3, 0),
        Status::WriteFault,
        "0 begun 0\n",
        "lstore: write failed\n",
    ),
    (
        "import",
        ORDERS_TABLE_CSV,
        (0, 1, 0),
        Status::WriteFault,
        "",
        "lstore: write failed\n",
    ),
    // A load reads nothing.
    (
        "load --keys 2",
        "",
        (1, 2, 0),
        Status::WriteFault,
        "rows ",
        "lstore: write failed\n",
    ),
    // A sink of errors that fails changes nothing else.
    ("", "", (0, 0, 2), Status::Usage, "", "lstor"),
];

#[test]
fn ends_that_fail_are_told(rt: HostRuntime) -> Result<(), OutOfMemory> {
    for &(words, input, (read, write, report), status, output, message) in FAILING {
        let wanted = Wanted {
            status,
            output: output.as_bytes(),
            message: message.as_bytes(),
        };
        let (input, ends) = (input.as_bytes(), failing(read, write, report));
        comes_to(&rt, rt.alloc(), 0, words, input, &ends, wanted)?;
    }
    Ok(())
}
