//! Tables of each form, read and written again, and each first faulty record.

use crate::texts::{names_of, row, same};
use itoa::Buffer;
use lst_csv::{TableFault, TableRefusal, dump_history, dump_text, import_text};
use lst_model::{Act, Commit, History, OutOfMemory, Table, Text, Write, Writes};
use lst_names::Names;
use std::alloc::Global;
use std::process::Abort;

/// Two rows, each with a null.
const TABLE: &str = "key,qty,price\n1,5,\n2,,9\n";

const SCRIPT: &str =
    "version 2 qty price\n0 begin\n0 insert 1 qty=5\n0 insert 2 price=9\n0 commit\n";

/// A table of two columns becomes this script.
fn becomes(rt: &impl Abort, alloc: Global, table: &[u8], script: &str) -> Result<(), TableRefusal> {
    let text = import_text(alloc, table, 2)?;
    same(rt, text.as_bytes(), script.as_bytes(), table);
    Ok(())
}

/// A table of two columns has this first faulty record.
fn is_refused(rt: &impl Abort, alloc: Global, table: &[u8], place: u64, kind: TableFault) {
    let found = import_text(alloc, table, 2).err();
    same(rt, found, Some(TableRefusal::Bad { place, kind }), kind);
}

/// The same of each table.
fn all_become(
    rt: &impl Abort,
    alloc: Global,
    tables: &[&str],
    script: &str,
) -> Result<(), TableRefusal> {
    for &table in tables {
        becomes(rt, alloc, table.as_bytes(), script)?;
    }
    Ok(())
}

/// Each table has its first faulty record.
fn all_are_refused(rt: &impl Abort, alloc: Global, tables: &[(&str, u64, TableFault)]) {
    for &(table, place, kind) in tables {
        is_refused(rt, alloc, table.as_bytes(), place, kind);
    }
}

#[test]
fn table_of_each_form_becomes_the_script(rt: HostRuntime) -> Result<(), TableRefusal> {
    all_become(
        &rt,
        rt.alloc(),
        &[
            TABLE,
            "key,qty,price\n1,5,\n2,,9",
            "key,qty,price\r\n1,5,\r\n2,,9\r\n",
            "key,qty,price\r1,5,\r2,,9\r",
            "\n\nkey,qty,price\n\n\r\n1,5,\n\n2,,9\n\n",
            "\u{feff}key,qty,price\n1,5,\n2,,9\n",
            "\"key\",\"qty\",\"price\"\n\"1\",\"5\",\"\"\n\"2\",,\"9\"\n",
            "key,qty,price\n01,0005,\n2,,00000000000000000009\n",
        ],
        SCRIPT,
    )
}

#[test]
fn table_without_rows_becomes_an_empty_transaction(rt: HostRuntime) -> Result<(), TableRefusal> {
    becomes(
        &rt,
        rt.alloc(),
        b"key,qty,price",
        "version 2 qty price\n0 begin\n0 commit\n",
    )
}

#[test]
fn first_faulty_record_is_named(rt: HostRuntime) {
    all_are_refused(
        &rt,
        rt.alloc(),
        &[
            ("", 1, TableFault::BadHeader),
            ("\n\n", 1, TableFault::BadHeader),
            ("key,qty\n", 1, TableFault::BadHeader),
            ("key,qty,qty\n1,5,\n", 1, TableFault::BadHeader),
            ("Key,qty,price\n", 1, TableFault::BadHeader),
            ("key, qty,price\n", 1, TableFault::BadHeader),
            ("key;qty;price\n1;5;\n", 1, TableFault::BadHeader),
            ("1,5,\n2,,9\n", 1, TableFault::BadHeader),
            ("key,qty,price\n1,5\n", 2, TableFault::BadLength),
            ("key,qty,price\n\"\"\n", 2, TableFault::BadLength),
            ("key,qty,price\n1,5,6,7\n", 2, TableFault::BadLength),
            ("key,qty,price\n1,x\n", 2, TableFault::BadLength),
            ("key,qty,price\n1,5,\n2,\"9\n,\n", 3, TableFault::BadLength),
            ("key,qty,price\n1,5,x\n", 2, TableFault::BadField),
            ("key,qty,price\n,5,6\n", 2, TableFault::BadField),
            ("key,qty,price\n1, 5,6\n", 2, TableFault::BadField),
            ("key,qty,price\n1,-5,6\n", 2, TableFault::BadField),
            (
                "key,qty,price\n1,18446744073709551616,\n",
                2,
                TableFault::BadField,
            ),
            (
                "key,qty,price\n1,5,\n2,,9\n1,6,\n",
                4,
                TableFault::RepeatedKey,
            ),
            (
                "key,qty,price\r\n07,1,\r\n7,2,\r\n",
                3,
                TableFault::RepeatedKey,
            ),
            ("key,qty,price\n1,5,\n1,x,\n1\n", 3, TableFault::BadField),
        ],
    );
}

#[test]
fn faults_are_told_in_words(rt: HostRuntime) {
    for &(fault, text) in &[
        (TableFault::BadHeader, "bad header"),
        (TableFault::BadLength, "wrong number of fields"),
        (TableFault::BadField, "bad field"),
        (TableFault::RepeatedKey, "repeated key"),
        (TableFault::TooManyRows, "too many rows"),
    ] {
        same(&rt, fault.text(), text, fault);
    }
}

/// A table with as many rows, of the keys from 0 on, and this end.
fn long_table(alloc: Global, rows: u64, end: &[u8]) -> Result<Vec<u8>, OutOfMemory> {
    let mut text = b"key,qty,price\n".to_vec(alloc)?;
    let mut buffer = Buffer::new();
    for key in 0..rows {
        text.extend_from_slice(buffer.format(key).as_bytes())?;
        text.extend_from_slice(b",1,\n")?;
    }
    text.extend_from_slice(end)?;
    Ok(text)
}

/// A table of 16,384 rows is read.
fn is_read(rt: &impl Abort, alloc: Global) -> Result<(), OutOfMemory> {
    let table = long_table(alloc, 16_384, b"")?;
    same(
        rt,
        import_text(alloc, table.as_slice(), 2).is_ok(),
        true,
        "rows",
    );
    Ok(())
}

#[test]
fn table_is_full_at_16384_rows(rt: HostRuntime) -> Result<(), OutOfMemory> {
    is_read(&rt, rt.alloc())?;
    let table = long_table(rt.alloc(), 16_384, b"x\n")?;
    let (place, kind) = (16_386, TableFault::TooManyRows);
    is_refused(&rt, rt.alloc(), table.as_slice(), place, kind);
    Ok(())
}

/// The front, then a megabyte of zeros, then the end.
fn wide_table(alloc: Global, front: &str, end: &str) -> Result<Vec<u8>, OutOfMemory> {
    let mut text = front.as_bytes().to_vec(alloc)?;
    text.resize(front.len().saturating_add(1_048_576), b'0')?;
    text.extend_from_slice(end.as_bytes())?;
    Ok(text)
}

/// Each wide table, of its front and its end, has its first faulty record.
fn wide_are_refused(
    rt: &impl Abort,
    alloc: Global,
    tables: &[(&str, &str, u64, TableFault)],
) -> Result<(), OutOfMemory> {
    for &(front, end, place, kind) in tables {
        let table = wide_table(alloc, front, end)?;
        is_refused(rt, alloc, table.as_slice(), place, kind);
    }
    Ok(())
}

#[test]
fn field_of_a_megabyte_is_answered(rt: HostRuntime) -> Result<(), OutOfMemory> {
    wide_are_refused(
        &rt,
        rt.alloc(),
        &[
            ("", "", 1, TableFault::BadHeader),
            ("key,qty,", "\n1,5,\n", 1, TableFault::BadHeader),
            ("key,qty,price\n", ",5,\n", 2, TableFault::BadField),
            ("key,qty,price\n1,5,", "", 2, TableFault::BadField),
            ("key,qty,price\n1,5,\"", "\"\n", 2, TableFault::BadField),
            ("key,qty,price\n1,5,\"", "", 2, TableFault::BadField),
            ("key,qty,price\n1,5\n", "", 2, TableFault::BadLength),
        ],
    )
}

/// The names of two columns.
fn two_names(alloc: Global) -> Result<Names, OutOfMemory> {
    names_of(alloc, &[b"qty", b"price"])
}

/// A table of two rows, each with a null.
fn two_rows(alloc: Global) -> Result<Table, OutOfMemory> {
    let mut table = Table::new(alloc);
    table.put(2, row(None, Some(9)))?;
    table.put(1, row(Some(5), None))?;
    Ok(table)
}

/// The text of the table of two rows.
fn dumped(alloc: Global) -> Result<Text, OutOfMemory> {
    let names = two_names(alloc)?;
    let table = two_rows(alloc)?;
    dump_text(alloc, &names, &table)
}

#[test]
fn table_is_written_by_rising_key(rt: HostRuntime) -> Result<(), TableRefusal> {
    let text = dumped(rt.alloc())?;
    same(&rt, text.as_bytes(), TABLE.as_bytes(), "dumped");
    becomes(&rt, rt.alloc(), text.as_bytes(), SCRIPT)
}

/// A commit of one write.
fn commit(alloc: Global, key: u64, act: Act) -> Result<Commit, OutOfMemory> {
    let mut writes = Writes::new(alloc);
    writes.push(Write { key, act })?;
    Ok(Commit {
        session: 0,
        number: 1,
        begin: 0,
        writes,
    })
}

/// The writes of a history, at whose end the table has two rows.
fn writes() -> [(u64, Act); 5] {
    [
        (2, Act::Put(row(None, Some(9)))),
        (1, Act::Put(row(Some(5), Some(5)))),
        (3, Act::Put(row(None, None))),
        (1, Act::Put(row(Some(5), None))),
        (3, Act::Del),
    ]
}

/// A commit of each write.
fn history(alloc: Global) -> Result<History, OutOfMemory> {
    let mut history = History::new(alloc);
    for (key, act) in writes() {
        history.push(commit(alloc, key, act)?)?;
    }
    Ok(history)
}

#[test]
fn table_of_a_history_is_written(rt: HostRuntime) -> Result<(), OutOfMemory> {
    let names = two_names(rt.alloc())?;
    let history = history(rt.alloc())?;
    let text = dump_history(rt.alloc(), &names, &history)?;
    same(&rt, text.as_bytes(), TABLE.as_bytes(), "dumped");
    Ok(())
}
