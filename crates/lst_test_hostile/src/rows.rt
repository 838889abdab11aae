//! Worked scripts with their replies.

/// A script with its replies.
#[derive(Clone, Copy)]
pub(crate) struct Row {
    pub input: &'static str,
    pub output: &'static str,
}

/// A stock table: a report reads it while it is changed, with merges beside.
pub(crate) const STOCK: Row = Row {
    input: "0 begin\n0 insert 1001 40 250\n0 insert 1002 15 900\n0 insert 1003 8 1200\n0 commit\n2 begin\n2 sum 0\n1 begin\n1 update 1002 14 _\n1 update 1003 6 _\n1 commit\nmerge 0 0\nmerge 0 1\n2 sum 0\n2 commit\n2 begin\n2 sum 0\n2 scan\n2 commit\n",
    output: "0 begun 0\n0 ok\n0 ok\n0 ok\n0 committed 1\n2 begun 1\n2 sum 63\n1 begun 1\n1 ok\n1 ok\n1 committed 2\nmerged 5\nmerged 5\n2 sum 63\n2 ended 1\n2 begun 2\n2 sum 60\n2 rows 1001:40,250 1002:14,900 1003:6,1200\n2 ended 2\n",
};

/// Scripts of few lines.
pub(crate) const ROWS: [Row; 10] = [
    // What one session committed, another sees.
    Row {
        input: "0 begin\n0 insert 7 10 20\n0 commit\n1 begin\n1 get 7\n",
        output: "0 begun 0\n0 ok\n0 committed 1\n1 begun 1\n1 row 10 20\n",
    },
    // A commit that came behind the begin is in the way of a write.
    Row {
        input: "0 begin\n0 insert 7 10 20\n0 commit\n0 begin\n1 begin\n0 update 7 11 _\n0 commit\n1 get 7\n1 update 7 _ 21\n1 commit\n",
        output: "0 begun 0\n0 ok\n0 committed 1\n0 begun 1\n1 begun 1\n0 ok\n0 committed 2\n1 row 10 20\n1 conflict newer 2\n1 ended 1\n",
    },
    // So is an open write.
    Row {
        input: "0 begin\n0 insert 7 10 20\n0 commit\n0 begin\n1 begin\n0 update 7 11 _\n1 update 7 _ 21\n",
        output: "0 begun 0\n0 ok\n0 committed 1\n0 begun 1\n1 begun 1\n0 ok\n1 conflict open 0 2\n",
    },
    // Once that was given up it isn't.
    Row {
        input: "0 begin\n0 insert 7 10 20\n0 commit\n0 begin\n1 begin\n0 update 7 11 _\n1 update 7 _ 21\n0 abort\n1 update 7 _ 21\n1 commit\n1 begin\n1 get 7\n",
        output: "0 begun 0\n0 ok\n0 committed 1\n0 begun 1\n1 begun 1\n0 ok\n1 conflict open 0 2\n0 aborted\n1 ok\n1 committed 2\n1 begun 2\n1 row 10 21\n",
    },
    // A key whose row is deleted and put again, read as of each time.
    Row {
        input: "0 begin\n0 insert 7 10 20\n0 commit\n0 begin\n0 delete 7\n0 commit\n0 begin\n0 insert 7 30 40\n0 commit\n1 asof 1\n1 get 7\n1 commit\n1 asof 2\n1 get 7\n1 commit\n1 begin\n1 get 7\n",
        output: "0 begun 0\n0 ok\n0 committed 1\n0 begun 1\n0 ok\n0 committed 2\n0 begun 2\n0 ok\n0 committed 3\n1 begun 1\n1 row 10 20\n1 ended 1\n1 begun 2\n1 none\n1 ended 2\n1 begun 3\n1 row 30 40\n",
    },
    // A session's own writes.
    Row {
        input: "0 begin\n0 insert 7 1 1\n0 insert 7 1 1\n0 update 9 1 _\n0 delete 7\n0 update 7 1 _\n",
        output: "0 begun 0\n0 ok\n0 refused exists\n0 refused missing\n0 ok\n0 refused missing\n",
    },
    // A merge, and one that finds nothing more.
    Row {
        input: "0 begin\n0 insert 7 10 20\n0 commit\nmerge 0 1\nmerge 0 1\n1 begin\n1 get 7\n",
        output: "0 begun 0\n0 ok\n0 committed 1\nmerged 1\nidle 1\n1 begun 1\n1 row 10 20\n",
    },
    // A merge stops at a write that is open.
    Row {
        input: "0 begin\n1 begin\n2 begin\n0 insert 1 1 1\n1 insert 2 2 2\n2 insert 3 3 3\n0 commit\n2 commit\nmerge 0 0\n1 abort\nmerge 0 0\n",
        output: "0 begun 0\n1 begun 0\n2 begun 0\n0 ok\n1 ok\n2 ok\n0 committed 1\n2 committed 2\nmerged 1\n1 aborted\nmerged 3\n",
    },
    // A page that is newer than a reader's snapshot.
    Row {
        input: "0 begin\n0 insert 7 10 20\n0 commit\n1 begin\n0 begin\n0 update 7 11 21\n0 commit\nmerge 0 0\n1 get 7\n0 begin\n0 get 7\n",
        output: "0 begun 0\n0 ok\n0 committed 1\n1 begun 1\n0 begun 1\n0 ok\n0 committed 2\nmerged 2\n1 row 10 20\n0 begun 2\n0 row 11 21\n",
    },
    STOCK,
];
