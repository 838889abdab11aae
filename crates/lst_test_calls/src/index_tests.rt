//! A crew's finds by the index, with open updates, nulls and merges; and what its seat knows once a reader has given it back.
ghost use Rattle.std.specs.Prelude.{◌≡◌, ◌<◌, true};
ghost use Rattle.lst_model.specs.Tables.{sum_of};
ghost use Rattle.lst_rule.specs.Rule.{knows, hosts};
ghost use Rattle.lst_rule.specs.Stores.{IsSeatOf};
ghost use Rattle.lst_scan.specs.Scans.{table_seen};

use crate::scan_tests::PAIR;
use crate::scripts::{By, Crewed, Step, answer, answers, open, play, puts, run, same};
use lst_layout::Limits;
use lst_model::{Call, Line, Reply, Time};
use lst_rule::{Seat, Store, load_clock};
use lst_scan::sum;
use lst_session::{Reader, Reads, Session};
use std::alloc::Global;
use std::process::Abort;
use std::test::Fail;

const OPEN_UPDATE: &[Step] = &[
    ("0 begin", "0 begun 0"),
    ("0 insert 1 a=5 b=5", "0 ok"),
    ("0 commit", "0 committed 1"),
    ("0 begin", "0 begun 1"),
    ("0 update 1 a=6", "0 ok"),
    ("0 find a 5", "0 keys"),
    ("0 find a 6", "0 keys 1"),
    ("1 begin", "1 begun 1"),
    ("1 find a 5", "1 keys 1"),
    ("1 find a 6", "1 keys"),
];

#[test]
fn an_open_update_is_found_by_its_own_transaction_alone(rt: HostRuntime) -> Result<(), Fail> {
    run(
        &rt,
        &Limits { indexed: 1, ..PAIR },
        By::CrewLine,
        OPEN_UPDATE,
    )
}

/// Session 0 sees a row of 5 and null, and one of null and 0, before merges and after.
const SEES_NULLS: &[Step] = &[
    ("0 begin", "0 begun 0"),
    ("0 insert 1 a=5", "0 ok"),
    ("0 insert 2 b=0", "0 ok"),
    ("0 sum a", "0 sum 5"),
    ("0 sum b", "0 sum 0"),
    ("0 count", "0 count 2"),
    ("0 find b 0", "0 keys 2"),
    ("0 get 1", "0 row 5 null"),
    ("0 commit", "0 committed 1"),
    ("merge 0 a", "merged 2"),
    ("merge 0 b", "merged 2"),
    ("0 begin", "0 begun 1"),
    ("0 sum a", "0 sum 5"),
    ("0 sum b", "0 sum 0"),
    ("0 count", "0 count 2"),
    ("0 find b 0", "0 keys 2"),
    ("0 get 1", "0 row 5 null"),
];

#[test]
fn a_null_is_not_found_before_merges_and_after(rt: HostRuntime) -> Result<(), Fail> {
    run(
        &rt,
        &Limits { indexed: 2, ..PAIR },
        By::CrewLine,
        SEES_NULLS,
    )
}

// ---- a large table

/// A store of 64 ranges, whose second column has an index.
const LARGE: Limits = Limits {
    columns: 2,
    ranges: 64,
    tails: 256,
    sessions: 2,
    txns: 8,
    spare: 8,
    indexed: 2,
};

/// Session 0 commits a row on each record, of which ten have the same number in the second column; and each page is merged.
fn fill(rt: &(impl Abort + AllocGlobal), on: &mut Crewed) -> Result<(), Fail> {
    play(rt, on, &[("0 begin", "0 begun 0")])?;
    for key in 0..16_384u64 {
        puts(rt, on, key, None, Some(key / 10))?;
    }
    play(rt, on, &[("0 commit", "0 committed 1")])?;
    for page in 0..128u32 {
        let range = page / 2;
        let column = page % 2;
        let merged = Reply::Merged { tps: 256 };
        answers(rt, on, &Line::Merge { range, column }, &merged)?;
    }
    Ok(())
}

/// How many rows session 1 lists, or None where it has no transaction open.
fn scanned(alloc: Global, on: &mut Crewed) -> Result<Option<usize>, Fail> {
    let scan = Line::Call {
        session: 1,
        call: Call::Scan,
    };
    match answer(alloc, on, &scan)? {
        Reply::Rows { list } => Ok(Some(list.items().len())),
        _ => Ok(None),
    }
}

/// What session 1 finds then.
const FINDS_TEN: &[Step] = &[
    ("1 begin", "1 begun 1"),
    (
        "1 find b 164",
        "1 keys 1640 1641 1642 1643 1644 1645 1646 1647 1648 1649",
    ),
    ("1 sum b", "1 sum 13413582"),
    ("1 count", "1 count 16384"),
];

#[test]
fn ten_keys_are_found_among_many_rows(rt: HostRuntime) -> Result<(), Fail> {
    let mut on = open(rt.alloc(), &LARGE, By::CrewLine)?;
    fill(&rt, &mut on)?;
    play(&rt, &mut on, FINDS_TEN)?;
    let count = scanned(rt.alloc(), &mut on)?;
    same(&rt, count, Some(16_384), 0);
    Ok(())
}

// ---- a seat that was lent

/// How many commits a session has seen, or None where the seat doesn't host it. It asks for nothing that is known of the seat.
fn seen_at(seat: &Seat, s: u32) -> Option<Time> {
    if s > seat.limits().sessions || !seat.hosts(s) {
        return None;
    }
    Some(seat.seen(s))
}

/// Session 1 begins, and session 0 commits then.
const LATER_COMMIT: &[Step] = &[
    ("1 begin", "1 begun 0"),
    ("0 begin", "0 begun 0"),
    ("0 insert 7 b=20", "0 ok"),
    ("0 commit", "0 committed 1"),
];

/// Session 1 has begun, and session 0 has committed since.
fn with_a_later_commit(rt: &(impl Abort + AllocGlobal)) -> Result<Crewed, Fail> {
    let mut on = open(rt.alloc(), &PAIR, By::CrewLine)?;
    play(rt, &mut on, LATER_COMMIT)?;
    Ok(on)
}

/// Loads the clock at the reader's seat, so that its session sees all commits, and answers how many these are.
fn catch_up(store: &Store, reader: Reader<'_>) -> Time
    requires seat { IsSeatOf store.now reader.seat.now }
    requires host { hosts reader.seat.now.view reader.s ≡ true }
{
    let s = reader.s;
    load_clock(store, reader.seat, s)
}

#[test]
fn a_crew_holds_its_seat_as_a_reader_left_it(rt: HostRuntime) -> Result<(), Fail> {
    let on = with_a_later_commit(&rt)?;
    let Crewed {
        store,
        mut crew,
        ..
    } = on;
    same(&rt, seen_at(&crew.seat, 1), Some(0), 1);
    assert!(rt; crew.seat.limits().sessions == 2);
    let Ok(reader) = crew.reader(1) else {
        return Err(Fail::from("a transaction is open"));
    };
    same(&rt, catch_up(&store, reader), 1, 2);
    same(&rt, seen_at(&crew.seat, 1), Some(1), 3);
    Ok(())
}

#[test]
fn a_session_holds_its_seat_as_a_reader_left_it(rt: HostRuntime) -> Result<(), Fail> {
    let on = with_a_later_commit(&rt)?;
    let Crewed { store, crew, .. } = on;
    assert!(rt; crew.seat.limits().sessions == 2);
    let mut session = Session {
        seat: crew.seat,
        number: 1,
    };
    let Ok(reader) = session.reader() else {
        return Err(Fail::from("a transaction is open"));
    };
    same(&rt, catch_up(&store, reader), 1, 4);
    same(&rt, session.number, 1, 5);
    same(&rt, seen_at(&session.seat, 1), Some(1), 6);
    Ok(())
}

/// The sum of the first column.
#[derive(Drop)]
struct Total;

impl Reads for Total {
    type Answer = u128;

    ghost can_read = { λ total store. 0 < store.layout.limits.columns };

    ghost answers = { λ total v w s sum. sum ≡ sum_of (table_seen (knows v s)) 0 };

    fn read(self, store: &Store, reader: &mut Reader<'_>) -> u128 {
        sum(store, reader, 0)
    }
}

#[test]
fn a_crew_reads_by_what_is_handed_in(rt: HostRuntime) -> Result<(), Fail> {
    let on = with_a_later_commit(&rt)?;
    let Crewed {
        store,
        mut crew,
        ..
    } = on;
    assert!(rt; crew.seat.limits().sessions == 2 && store.layout().limits.columns == 2);
    assert!(rt; matches!(crew.read(&store, 1, Total), Ok(0)));
    assert!(rt; crew.seat.limits().sessions == 2);
    assert!(rt; crew.read(&store, 0, Total).is_err());
    Ok(())
}
