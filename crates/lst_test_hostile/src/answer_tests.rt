//! Inputs with what the program makes of them.

use crate::calls::{all_answer, same};
use lst_model::{Call, Line, OutOfMemory, Reply};
use lst_report::print_line;

/// A row, and a change of its first column.
pub(crate) const CHANGED: &str =
    "0 begin\n0 insert 7 10 20\n0 commit\n0 begin\n0 update 7 11 _\n0 commit\n";

/// A row that is put, deleted, and put again.
const PUT_AGAIN: &str =
    "0 begin\n0 insert 7 10 20\n0 commit\n0 begin\n0 delete 7\n0 commit\n0 begin\n0 insert 7 30 40\n0 commit\n";

/// A row is put.
pub(crate) const PUT: &str = "0 begin\n0 insert 7 10 20\n0 commit\n";

/// A row is put, and deleted.
const PUT_AND_DELETED: &str =
    "0 begin\n0 insert 7 10 20\n0 commit\n0 begin\n0 delete 7\n0 commit\n";

/// The commit is acknowledged, and recovered.
const KEPT: &str = "0 begun 0\n0 ok\n0 committed 1\nrecovered 1\nrows 7:10,20\n";

/// A table with nulls, and its script.
const NULLS_CSV: &str = "key,qty,price\n1,5,\n2,,9\n";

const NULLS: &str =
    "version 2 qty price\n0 begin\n0 insert 1 qty=5\n0 insert 2 price=9\n0 commit\n";

/// What transactions of a run are answered: the words of each call, its input and its output.
const RUNS: &[(&str, &str, &str)] = &[
    // No lines, and few.
    ("run", "", ""),
    ("run", "0 begin", "0 begun 0\n"),
    ("run", "0 begin\n0 commit\n", "0 begun 0\n0 ended 0\n"),
    // A session sees what was committed before its begin.
    (
        "run",
        "0 begin\n0 insert 7 10 20\n0 commit\n1 begin\n1 get 7\n",
        "0 begun 0\n0 ok\n0 committed 1\n1 begun 1\n1 row 10 20\n",
    ),
    (
        "run",
        "0 begin\n0 insert 7 10 20\n0 commit\n0 begin\n0 delete 7\n0 commit\n0 begin\n0 insert 7 30 40\n0 commit\n1 asof 1\n1 get 7\n1 commit\n1 asof 2\n1 get 7\n1 commit\n1 begin\n1 get 7\n",
        "0 begun 0\n0 ok\n0 committed 1\n0 begun 1\n0 ok\n0 committed 2\n0 begun 2\n0 ok\n0 committed 3\n1 begun 1\n1 row 10 20\n1 ended 1\n1 begun 2\n1 none\n1 ended 2\n1 begun 3\n1 row 30 40\n",
    ),
    // What cannot be done is refused, and the transaction goes on.
    (
        "run",
        "0 get 7\n0 begin\n0 begin\n0 insert 7 1 1\n0 insert 7 1 1\n0 get 8\n0 commit\n",
        "0 refused idle\n0 begun 0\n0 refused active\n0 ok\n0 refused exists\n0 none\n0 committed 1\n",
    ),
    (
        "run",
        "0 begin\n0 insert 7 1 1\n0 insert 7 1 1\n0 update 9 1 _\n0 delete 7\n0 update 7 1 _\n",
        "0 begun 0\n0 ok\n0 refused exists\n0 refused missing\n0 ok\n0 refused missing\n",
    ),
    (
        "run",
        "0 get 7\n0 commit\n0 begin\n0 begin\n0 abort\n0 asof 0\n0 insert 1 1 1\n0 commit\n",
        "0 refused idle\n0 refused idle\n0 begun 0\n0 refused active\n0 aborted\n0 begun 0\n0 refused readonly\n0 ended 0\n",
    ),
    ("run", "0 asof 1\n", "0 refused future 0\n"),
    // Scans.
    // Without a transaction, and of an empty table.
    (
        "run",
        "0 sum 0\n0 count\n0 scan\n0 find 0 1\n0 begin\n0 sum 0\n0 count\n0 scan\n0 find 0 1\n",
        "0 refused idle\n0 refused idle\n0 refused idle\n0 refused idle\n0 begun 0\n0 sum 0\n0 count 0\n0 rows\n0 refused noindex\n",
    ),
    // A past state stays while others commit; own writes are seen at once, those of others are not.
    (
        "run",
        "0 begin\n0 insert 7 10 20\n0 commit\n1 asof 1\n1 sum 1\n0 begin\n0 insert 6 1 18446744073709551615\n0 sum 1\n1 sum 1\n0 commit\n1 sum 1\n1 scan\n1 commit\n1 begin\n1 count\n1 scan\n",
        "0 begun 0\n0 ok\n0 committed 1\n1 begun 1\n1 sum 20\n0 begun 1\n0 ok\n0 sum 18446744073709551635\n1 sum 20\n0 committed 2\n1 sum 20\n1 rows 7:10,20\n1 ended 1\n1 begun 2\n1 count 2\n1 rows 6:1,18446744073709551615 7:10,20\n",
    ),
    (
        "run",
        "0 begin\n0 scan\n0 insert 9 30 20\n0 insert 7 10 20\n0 scan\n0 count\n",
        "0 begun 0\n0 rows\n0 ok\n0 ok\n0 rows 7:10,20 9:30,20\n0 count 2\n",
    ),
    // Rows are found by the index.
    (
        "run --index 1",
        "0 begin\n0 insert 9 30 20\n0 insert 7 10 20\n0 find 1 20\n0 find 0 10\n",
        "0 begun 0\n0 ok\n0 ok\n0 keys 7 9\n0 refused noindex\n",
    ),
    (
        "run --index 0",
        "0 begin\n0 insert 1 5 5\n0 commit\n0 begin\n0 update 1 6 _\n0 find 0 5\n0 find 0 6\n1 begin\n1 find 0 5\n1 find 0 6\n",
        "0 begun 0\n0 ok\n0 committed 1\n0 begun 1\n0 ok\n0 keys\n0 keys 1\n1 begun 1\n1 keys 1\n1 keys\n",
    ),
    // A sum doesn't wrap.
    (
        "run",
        "0 begin\n0 insert 1 18446744073709551615 0\n0 insert 2 18446744073709551615 0\n0 sum 0\n",
        "0 begun 0\n0 ok\n0 ok\n0 sum 36893488147419103230\n",
    ),
    // Nulls are set and read.
    (
        "run",
        "version 2 qty price\n0 begin\n0 insert 1 qty=5\n0 insert 2 qty=null price=9\n0 sum qty\n0 sum price\n0 update 1 price=7 qty=null\n0 scan\n0 count\n",
        "0 begun 0\n0 ok\n0 ok\n0 sum 5\n0 sum 9\n0 ok\n0 rows 1:null,7 2:null,9\n0 count 2\n",
    ),
];

/// Runs under the limits that options name.
const OPTIONS: &[(&str, &str, &str)] = &[
    // A session begins as often as its option says.
    (
        "run --txns 1",
        "0 begin\n0 commit\n0 begin\n0 asof 0\n",
        "0 begun 0\n0 ended 0\n0 refused spent\n0 refused spent\n",
    ),
    (
        "run --txns=1",
        "0 begin\n0 commit\n0 begin\n0 asof 0\n",
        "0 begun 0\n0 ended 0\n0 refused spent\n0 refused spent\n",
    ),
    (
        "run --txns 2",
        "0 begin\n0 commit\n0 begin\n0 asof 0\n",
        "0 begun 0\n0 ended 0\n0 begun 0\n0 refused active\n",
    ),
    // Each option reaches the store.
    (
        "run --columns 3",
        "0 begin\n0 insert 7 1 2 3\n0 get 7\n",
        "0 begun 0\n0 ok\n0 row 1 2 3\n",
    ),
    ("run --ranges 5", "merge 4 0\n", "idle 0\n"),
    (
        "run --tails 2",
        "0 begin\n0 insert 1 1 1\n0 insert 2 2 2\n0 update 1 3 _\n",
        "0 begun 0\n0 ok\n0 ok\n0 full tail\n",
    ),
    ("run --sessions 16", "15 begin\n", "15 begun 0\n"),
    (
        "run --spare 1",
        "0 begin\n0 insert 7 10 20\n0 commit\n1 begin\nmerge 0 0\nmerge 0 1\n",
        "0 begun 0\n0 ok\n0 committed 1\n1 begun 1\nmerged 1\nnoframe 1\n",
    ),
    // What is used up is refused.
    // The one spare frame is held by a session's pin.
    (
        "run --spare 1",
        "0 begin\n0 insert 7 10 20\n0 commit\n1 begin\nmerge 0 0\nmerge 0 1\n1 commit\nmerge 0 1\n",
        "0 begun 0\n0 ok\n0 committed 1\n1 begun 1\nmerged 1\nnoframe 1\n1 ended 1\nmerged 1\n",
    ),
    (
        "run --txns 1",
        "0 begin\n0 insert 7 10 20\n0 commit\n0 begin\n",
        "0 begun 0\n0 ok\n0 committed 1\n0 refused spent\n",
    ),
    (
        "run --txns=1",
        "0 begin\n0 insert 7 10 20\n0 commit\n0 begin\n",
        "0 begun 0\n0 ok\n0 committed 1\n0 refused spent\n",
    ),
    (
        "run --tails 1",
        "0 begin\n0 insert 1 1 1\n0 insert 2 2 2\n0 commit\n",
        "0 begun 0\n0 ok\n0 full tail\n0 committed 1\n",
    ),
    // All limits are 1.
    (
        "run --tails 1 --ranges 1 --sessions 1 --txns 1 --spare 1 --columns 1",
        "0 begin\n0 insert 1 1\n0 update 1 2\n0 sum 0\n0 commit\nmerge 0 0\nmerge 0 0\n0 begin\n",
        "0 begun 0\n0 ok\n0 full tail\n0 sum 1\n0 committed 1\nmerged 1\nidle 1\n0 refused spent\n",
    ),
];

/// What the other commands write.
const COMMANDS: &[(&str, &str, &str)] = &[
    // A script is migrated.
    (
        "migrate",
        "0 begin\n0 insert 7 10 20\n0 update 7 _ 21\nmerge 0 1\n",
        "version 2 c0 c1\n0 begin\n0 insert 7 c0=10 c1=20\n0 update 7 c1=21\nmerge 0 c1\n",
    ),
    (
        "migrate --columns 2",
        "version 2 c0 c1\n0 begin\n0 insert 7 c0=10 c1=20\n0 update 7 c1=21\nmerge 0 c1\n",
        "version 2 c0 c1\n0 begin\n0 insert 7 c0=10 c1=20\n0 update 7 c1=21\nmerge 0 c1\n",
    ),
    // Tables with nulls, and without rows.
    ("import", NULLS_CSV, NULLS),
    ("dump", NULLS, NULLS_CSV),
    (
        "import --columns 1",
        "\"key\",a\r\n7,\"007\"",
        "version 2 a\n0 begin\n0 insert 7 a=7\n0 commit\n",
    ),
    (
        "import",
        "key,qty,price\n",
        "version 2 qty price\n0 begin\n0 commit\n",
    ),
    (
        "dump",
        "version 2 qty price\n0 begin\n0 commit\n",
        "key,qty,price\n",
    ),
    // A table comes back where a range has room.
    ("dump --ranges 1 --tails 2", NULLS, NULLS_CSV),
    ("dump --ranges 1 --tails 1", NULLS, "key,qty,price\n1,5,\n"),
    // A dump has the table of all commits.
    ("dump", "", "key,c0,c1\n"),
    (
        "dump",
        "version 2 qty price\n0 begin\n0 insert 1 qty=5\n",
        "key,qty,price\n",
    ),
    (
        "dump",
        "0 begin\n0 insert 20 1 2\n0 insert 3 4 5\n0 commit\n1 begin\n1 update 3 _ 6\n1 delete 20\n1 commit\n0 begin\n0 insert 9 9 9\n",
        "key,c0,c1\n3,4,6\n",
    ),
    (
        "dump",
        "version 2 a b\n0 begin\n0 insert 2 a=1 b=2\n0 commit\n0 begin\n0 update 2 a=null\n0 commit\n0 begin\n0 insert 1 b=0\n0 abort\n",
        "key,a,b\n2,,2\n",
    ),
    (
        "dump --columns 1 --ranges 1 --index 0",
        "0 begin\n0 insert 7 8\n0 commit\n",
        "key,c0\n7,8\n",
    ),
    // A past table is told at each time.
    ("asof --time 0", CHANGED, "bytes 12\nrows\n"),
    ("asof --time 1", CHANGED, "bytes 12\nrows 7:10,20\n"),
    ("asof --time 2", CHANGED, "bytes 12\nrows 7:11,20\n"),
    ("asof --time 3", CHANGED, "bytes 12\nfuture 2\n"),
    ("asof", "", "bytes 3\nrows\n"),
    ("asof --time=0", PUT_AGAIN, "bytes 15\nrows\n"),
    ("asof --time=1", PUT_AGAIN, "bytes 15\nrows 7:10,20\n"),
    ("asof --time=2", PUT_AGAIN, "bytes 15\nrows\n"),
    ("asof --time=3", PUT_AGAIN, "bytes 15\nrows 7:30,40\n"),
    (
        "asof --time 18446744073709551615",
        PUT_AGAIN,
        "bytes 15\nfuture 3\n",
    ),
    // A script is crashed at calls of its disk.
    ("crash --stop 5", PUT, KEPT),
    (
        "crash --stop 4",
        PUT,
        "0 begun 0\n0 ok\n0 stopped\nrecovered 0\nrows\n",
    ),
    (
        "crash --stop 4 --torn 1",
        PUT,
        "0 begun 0\n0 ok\n0 stopped\nrecovered 1\nrows 7:10,20\n",
    ),
    ("crash --stop 0", PUT, "stopped\nrecovered 0\nrows\n"),
    ("crash", PUT, KEPT),
    ("crash", "", "recovered 0\nrows\n"),
    (
        "crash --bytes 64",
        PUT_AND_DELETED,
        "0 begun 0\n0 ok\n0 committed 1\n0 begun 1\n0 ok\n0 full journal\nrecovered 1\nrows 7:10,20\n",
    ),
    // One session at work has one report.
    (
        "work",
        "0 begin\n0 insert 7 10 20\n0 commit\n",
        "0 begun 0\n0 ok\n0 committed 1\nhistory 1\n1 0 1 0\n",
    ),
];

#[test]
fn each_input_is_answered(rt: HostRuntime) -> Result<(), OutOfMemory> {
    for &calls in &[RUNS, OPTIONS, COMMANDS] {
        all_answer(&rt, rt.alloc(), calls)?;
    }
    Ok(())
}

#[test]
fn a_reply_is_printed_by_itself(rt: HostRuntime) -> Result<(), OutOfMemory> {
    let line = Line::Call {
        session: 2,
        call: Call::Commit,
    };
    let text = print_line(rt.alloc(), &line, &Reply::Committed { time: 3 })?;
    same(
        &rt,
        text.as_bytes(),
        b"2 committed 3\n".as_slice(),
        "a commit",
    );
    Ok(())
}
