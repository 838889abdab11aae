//! The scripts and tables under `examples/`, word for word, with what the program makes of them.

use crate::calls::all_answer;
use lst_model::OutOfMemory;

pub(crate) const SCRIPT: &str = "0 begin\n0 insert 7 10 20\n0 get 7\n0 commit\n";

const ANSWERS: &str = "0 begun 0\n0 ok\n0 row 10 20\n0 committed 1\n";

// The scripts under examples/ with their replies, word for word.
const ORDERS: &str =
    "# Orders: the key is the order's number; column 0 is the customer, column 1 the amount in cents.\n# Session 0 takes two orders in one transaction.\n0 begin\n0 insert 1001 7 250\n0 insert 1002 7 900\n0 commit\n# Session 1 raises an order while session 2 reads the state before.\n2 begin\n1 begin\n1 update 1002 _ 950\n1 commit\n2 get 1002\n2 commit\n# A new transaction sees the change.\n2 begin\n2 get 1002\n2 commit\n";

const ORDERS_REPLIES: &str =
    "0 begun 0\n0 ok\n0 ok\n0 committed 1\n2 begun 1\n1 begun 1\n1 ok\n1 committed 2\n2 row 7 900\n2 ended 1\n2 begun 2\n2 row 7 950\n2 ended 2\n";

const STOCK: &str =
    "# Stock: the key is the article; column 0 is the number in store, column 1 the price.\n0 begin\n0 insert 11 40 250\n0 insert 12 15 900\n0 commit\n# Two sessions want the last pieces of article 12: the second to write it is refused while the first is open.\n1 begin\n2 begin\n1 update 12 14 _\n2 update 12 13 _\n1 commit\n# Its snapshot is older than the commit now, so it can only give up and begin again.\n2 update 12 13 _\n2 abort\n2 begin\n2 get 12\n2 update 12 13 _\n2 commit\n# An article that isn't kept any more, and the table as it was at time 1.\n0 begin\n0 delete 11\n0 commit\n3 asof 1\n3 get 11\n3 commit\n3 begin\n3 get 11\n3 commit\n";

const STOCK_REPLIES: &str =
    "0 begun 0\n0 ok\n0 ok\n0 committed 1\n1 begun 1\n2 begun 1\n1 ok\n2 conflict open 1 1\n1 committed 2\n2 conflict newer 2\n2 aborted\n2 begun 2\n2 row 14 900\n2 ok\n2 committed 3\n0 begun 3\n0 ok\n0 committed 4\n3 begun 1\n3 row 40 250\n3 ended 1\n3 begun 4\n3 none\n3 ended 4\n";

const ACCOUNTS: &str =
    "# Accounts: the key is the account; column 0 is the balance, column 1 the number of movements.\n0 begin\n0 insert 1 1000 0\n0 insert 2 1000 0\n0 commit\nphase\n# A transfer of 30: both writes are in the history, or neither.\n1 begin\n1 get 1\n1 update 1 970 1\n1 get 2\n1 update 2 1030 1\n1 commit\n# A transfer that is given up leaves nothing.\n2 begin\n2 update 1 0 2\n2 abort\n2 begin\n2 get 1\n2 get 2\n2 commit\n# What can't be done is refused, and the transaction goes on.\n3 begin\n3 insert 1 5 5\n3 update 9 1 _\n3 delete 9\n3 commit\n3 commit\n";

const ACCOUNTS_REPLIES: &str =
    "0 begun 0\n0 ok\n0 ok\n0 committed 1\n1 begun 1\n1 row 1000 0\n1 ok\n1 row 1000 0\n1 ok\n1 committed 2\n2 begun 2\n2 ok\n2 aborted\n2 begun 2\n2 row 970 1\n2 row 1030 1\n2 ended 2\n3 begun 2\n3 refused exists\n3 refused missing\n3 refused missing\n3 ended 2\n3 refused idle\n";

const REPORT: &str =
    "# A report on live rows: the key is the order; column 0 is the amount, column 1 the number of pieces.\n0 begin\n0 insert 3 100 5\n0 insert 1 250 2\n0 insert 2 400 1\n0 commit\nphase\n# The report reads as of time 1.\n3 asof 1\n3 count\n3 sum 0\n# Beside it orders are changed, added and taken away.\n1 begin\n1 update 1 300 _\n1 insert 4 900 3\n1 sum 0\n1 delete 2\n1 commit\n# Each line of the report is of the same state.\n3 sum 0\n3 scan\n3 commit\n# A later report sees the commit. A find needs an index on its column.\n2 begin\n2 count\n2 sum 0\n2 scan\n2 find 1 5\n2 commit\n# Nothing is scanned without a transaction.\n2 sum 0\n";

const REPORT_REPLIES: &str =
    "0 begun 0\n0 ok\n0 ok\n0 ok\n0 committed 1\n3 begun 1\n3 count 3\n3 sum 750\n1 begun 1\n1 ok\n1 ok\n1 sum 1700\n1 ok\n1 committed 2\n3 sum 750\n3 rows 1:250,2 2:400,1 3:100,5\n3 ended 1\n2 begun 2\n2 count 3\n2 sum 1300\n2 rows 1:300,2 3:100,5 4:900,3\n2 refused noindex\n2 ended 2\n2 refused idle\n";

const LINEAGE: &str =
    "# Two rows, committed at time 1, and a report that stays at that time.\n0 begin\n0 insert 7 10 1\n0 insert 9 30 1\n0 commit\n1 asof 1\n# A commit at time 2, a write that is given up, and one that stays open.\n0 begin\n0 update 7 11 _\n0 commit\n3 begin\n3 insert 4 50 1\n3 abort\n2 begin\n2 update 9 35 _\n# The merge takes the tail records 1 to 4. The fifth is unfinished.\nmerge 0 0\nmerge 0 0\n# The report still reads its own time; who begins now reads the newest.\n1 get 7\n0 begin\n0 get 7\n# Once the open write is committed there is something to merge again.\n2 commit\nmerge 0 0\n";

const LINEAGE_REPLIES: &str =
    "0 begun 0\n0 ok\n0 ok\n0 committed 1\n1 begun 1\n0 begun 1\n0 ok\n0 committed 2\n3 begun 2\n3 ok\n3 aborted\n2 begun 2\n2 ok\nmerged 4\nidle 4\n1 row 10 1\n0 begun 2\n0 row 11 1\n2 committed 3\nmerged 5\n";

const RUSH: &str =
    "# Two customers want the last piece of an article at the same moment. Column 0 is the stock, column 1 who has the piece.\n0 begin\n0 insert 7 1 0\n0 commit\nphase\n# On threads the two may meet: then one of them is told so.\n1 begin\n1 update 7 0 1\n1 commit\n2 begin\n2 update 7 0 2\n2 commit\nphase\n# Who has it?\n3 begin\n3 get 7\n3 commit\n";

const RUSH_REPLIES: &str =
    "0 begun 0\n0 ok\n0 committed 1\n1 begun 1\n1 ok\n1 committed 2\n2 begun 2\n2 ok\n2 committed 3\n3 begun 3\n3 row 0 2\n3 ended 3\n";

const FOUND: &str =
    "# run --index 1\n# Stock found by a value: the key is the article; column 0 is the number in store, column 1 the shelf, which has an index.\n0 begin\n0 insert 11 40 3\n0 insert 12 15 7\n0 insert 13 8 3\n0 commit\n# What lies on shelf 3, and how much there is of everything.\n1 begin\n1 find 1 3\n1 sum 0\n# Beside it article 11 is moved, and article 14 comes to the shelf.\n0 begin\n0 update 11 _ 7\n0 insert 14 5 3\n0 find 1 3\n0 commit\n# The reader finds what it saw when it began; who begins now finds the new state.\n1 find 1 3\n1 find 1 7\n1 commit\n1 begin\n1 find 1 3\n1 find 1 7\n# A merge changes no answer. No row has shelf 9, and column 0 has no index.\nmerge 0 1\n1 find 1 3\n1 find 1 9\n1 find 0 40\n1 commit\n";

const FOUND_REPLIES: &str =
    "0 begun 0\n0 ok\n0 ok\n0 ok\n0 committed 1\n1 begun 1\n1 keys 11 13\n1 sum 63\n0 begun 1\n0 ok\n0 ok\n0 keys 13 14\n0 committed 2\n1 keys 11 13\n1 keys 12\n1 ended 1\n1 begun 2\n1 keys 13 14\n1 keys 11 12\nmerged 5\n1 keys 13 14\n1 keys\n1 refused noindex\n1 ended 2\n";

const ORDERS_BY_NAME: &str =
    "# Orders: the key is the order's number.\n# Session 0 takes two orders in one transaction.\nversion 2 customer cents\n0 begin\n0 insert 1001 customer=7 cents=250\n0 insert 1002 customer=7 cents=900\n0 commit\n# Session 1 raises an order while session 2 reads the state before.\n2 begin\n1 begin\n1 update 1002 cents=950\n1 commit\n2 get 1002\n2 commit\n# A new transaction sees the change.\n2 begin\n2 get 1002\n2 commit\n";

const ORDERS_BY_NAME_REPLIES: &str =
    "0 begun 0\n0 ok\n0 ok\n0 committed 1\n2 begun 1\n1 begun 1\n1 ok\n1 committed 2\n2 row 7 900\n2 ended 1\n2 begun 2\n2 row 7 950\n2 ended 2\n";

const STOCK_BY_NAME: &str =
    "# Stock: the key is the article.\nversion 2 pieces price\n0 begin\n0 insert 11 pieces=40 price=250\n0 insert 12 pieces=15 price=900\n0 commit\n# Two sessions want the last pieces of article 12: the second to write it is refused while the first is open.\n1 begin\n2 begin\n1 update 12 pieces=14\n2 update 12 pieces=13\n1 commit\n# Its snapshot is older than the commit now, so it can only give up and begin again.\n2 update 12 pieces=13\n2 abort\n2 begin\n2 get 12\n2 update 12 pieces=13\n2 commit\n# An article that isn't kept any more, and the table as it was at time 1.\n0 begin\n0 delete 11\n0 commit\n3 asof 1\n3 get 11\n3 commit\n3 begin\n3 get 11\n3 commit\n";

const STOCK_BY_NAME_REPLIES: &str =
    "0 begun 0\n0 ok\n0 ok\n0 committed 1\n1 begun 1\n2 begun 1\n1 ok\n2 conflict open 1 1\n1 committed 2\n2 conflict newer 2\n2 aborted\n2 begun 2\n2 row 14 900\n2 ok\n2 committed 3\n0 begun 3\n0 ok\n0 committed 4\n3 begun 1\n3 row 40 250\n3 ended 1\n3 begun 4\n3 none\n3 ended 4\n";

const ACCOUNTS_BY_NAME: &str =
    "# Accounts: the key is the account.\nversion 2 balance movements\n0 begin\n0 insert 1 balance=1000 movements=0\n0 insert 2 balance=1000 movements=0\n0 commit\nphase\n# A transfer of 30: both writes are in the history, or neither.\n1 begin\n1 get 1\n1 update 1 balance=970 movements=1\n1 get 2\n1 update 2 balance=1030 movements=1\n1 commit\n# A transfer that is given up leaves nothing.\n2 begin\n2 update 1 balance=0 movements=2\n2 abort\n2 begin\n2 get 1\n2 get 2\n2 commit\n# What can't be done is refused, and the transaction goes on.\n3 begin\n3 insert 1 balance=5 movements=5\n3 update 9 balance=1\n3 delete 9\n3 commit\n3 commit\n";

const ACCOUNTS_BY_NAME_REPLIES: &str =
    "0 begun 0\n0 ok\n0 ok\n0 committed 1\n1 begun 1\n1 row 1000 0\n1 ok\n1 row 1000 0\n1 ok\n1 committed 2\n2 begun 2\n2 ok\n2 aborted\n2 begun 2\n2 row 970 1\n2 row 1030 1\n2 ended 2\n3 begun 2\n3 refused exists\n3 refused missing\n3 refused missing\n3 ended 2\n3 refused idle\n";

pub(crate) const ORDERS_TABLE_CSV: &str = "key,customer,cents\n1001,7,250\n1002,7,900\n1003,9,\n";

const ORDERS_TABLE: &str =
    "version 2 customer cents\n0 begin\n0 insert 1001 customer=7 cents=250\n0 insert 1002 customer=7 cents=900\n0 insert 1003 customer=9\n0 commit\n";

const ORDERS_TABLE_REPLIES: &str = "0 begun 0\n0 ok\n0 ok\n0 ok\n0 committed 1\n";

const STOCK_TABLE_CSV: &str = "key,pieces,price\n11,40,250\n12,15,900\n13,,\n";

const STOCK_TABLE: &str =
    "version 2 pieces price\n0 begin\n0 insert 11 pieces=40 price=250\n0 insert 12 pieces=15 price=900\n0 insert 13\n0 commit\n";

const STOCK_TABLE_REPLIES: &str = "0 begun 0\n0 ok\n0 ok\n0 ok\n0 committed 1\n";

const ACCOUNTS_TABLE_CSV: &str = "key,balance,movements\n1,1000,0\n2,1000,0\n";

const ACCOUNTS_TABLE: &str =
    "version 2 balance movements\n0 begin\n0 insert 1 balance=1000 movements=0\n0 insert 2 balance=1000 movements=0\n0 commit\n";

const ACCOUNTS_TABLE_REPLIES: &str = "0 begun 0\n0 ok\n0 ok\n0 committed 1\n";

/// Each with the words of its call and its output.
const EXAMPLES: &[(&str, &str, &str)] = &[
    ("run", SCRIPT, ANSWERS),
    ("run", ORDERS, ORDERS_REPLIES),
    ("run", STOCK, STOCK_REPLIES),
    ("run", ACCOUNTS, ACCOUNTS_REPLIES),
    ("run", REPORT, REPORT_REPLIES),
    ("run", RUSH, RUSH_REPLIES),
    ("run", LINEAGE, LINEAGE_REPLIES),
    // The first line of this script names the option.
    ("run --index 1", FOUND, FOUND_REPLIES),
    // By the names of their columns they are answered alike.
    ("run", ORDERS_BY_NAME, ORDERS_BY_NAME_REPLIES),
    ("run", STOCK_BY_NAME, STOCK_BY_NAME_REPLIES),
    ("run", ACCOUNTS_BY_NAME, ACCOUNTS_BY_NAME_REPLIES),
    // Tables come in and go out.
    ("import", ORDERS_TABLE_CSV, ORDERS_TABLE),
    ("run", ORDERS_TABLE, ORDERS_TABLE_REPLIES),
    ("dump", ORDERS_TABLE, ORDERS_TABLE_CSV),
    ("import", STOCK_TABLE_CSV, STOCK_TABLE),
    ("run", STOCK_TABLE, STOCK_TABLE_REPLIES),
    ("dump", STOCK_TABLE, STOCK_TABLE_CSV),
    ("import", ACCOUNTS_TABLE_CSV, ACCOUNTS_TABLE),
    ("run", ACCOUNTS_TABLE, ACCOUNTS_TABLE_REPLIES),
    ("dump", ACCOUNTS_TABLE, ACCOUNTS_TABLE_CSV),
];

#[test]
fn each_example_is_answered_as_the_guide_says(rt: HostRuntime) -> Result<(), OutOfMemory> {
    all_answer(&rt, rt.alloc(), EXAMPLES)
}
