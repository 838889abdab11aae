//! What is put into a queue comes out of it.

use crate::rows::row;
use crate::same::same;
use lst_model::{Cause, KeyList, Reply, RowList};
use lst_reply_queue::ReplyQueue;
use std::alloc::Global;
use std::test::Fail;

/// A reply by its number: each kind of reply, and then rows of each number of columns.
fn reply(alloc: Global, number: usize) -> Reply {
    match number {
        0 => Reply::Begun { time: 7 },
        1 => Reply::Done,
        2 => Reply::Absent,
        3 => Reply::Committed { time: 8 },
        4 => Reply::Ended { time: u64::MAX },
        5 => Reply::Aborted,
        6 => Reply::Sum { total: u128::MAX },
        7 => Reply::Count { rows: 9 },
        8 => Reply::Rows {
            list: RowList::new(alloc),
        },
        9 => Reply::Keys {
            list: KeyList::new(alloc),
        },
        10 => Reply::Refused {
            cause: Cause::Newer { time: 3 },
        },
        11 => Reply::Merged { tps: 4 },
        12 => Reply::NothingNew { tps: 5 },
        13 => Reply::NoFrame { session: 6 },
        14 => Reply::Silent,
        _ => Reply::Row {
            row: row(number - 15),
        },
    }
}

/// With `rt try --test --fail-alloc N` memory is refused the Nth time; the replies that were put before and after that come back all the same.
#[test]
fn each_kind_of_reply_comes_back_in_its_place(rt: HostRuntime) {
    let alloc = rt.alloc();
    let mut queue = ReplyQueue::new(alloc);
    let mut kept = [false; 24];
    for number in 0..24 {
        kept[number] = queue.push(reply(alloc, number)).is_ok();
    }
    for number in 0..24 {
        if kept[number] {
            same(&rt, queue.pop(), Some(reply(alloc, number)), number);
        }
    }
    same(&rt, queue.pop(), None, "end");
}

#[test]
fn replies_are_put_behind_those_that_are_left(rt: HostRuntime) -> Result<(), Fail> {
    let alloc = rt.alloc();
    let mut queue = ReplyQueue::new(alloc);
    for number in 0..1_000 {
        queue.push(reply(alloc, number % 24))?;
        queue.push(reply(alloc, (number + 5) % 24))?;
        let next = if number % 2 == 0 {
            number / 2
        } else {
            number / 2 + 5
        };
        same(&rt, queue.pop(), Some(reply(alloc, next % 24)), number);
    }
    Ok(())
}
