//! Reads of rows by the public call, one after another: of merged ones, or of versions that aren't merged.
ghost use Rattle.std.specs.Prelude.{◌<◌};
ghost use Rattle.lst_session.specs.Crews.{IsCrewOf};

use crate::packs::values_of;
use crate::sums::merge_all;
use arrayvec::ArrayVec;
use lst_layout::Limits;
use lst_model::{Key, OutOfMemory, Row};
use lst_rule::Store;
use lst_session::{Crew, open_crew};
use std::alloc::Global;

/// A store of one session and one range, with a row of two columns on each of its records.
const LIMITS: Limits = Limits {
    columns: 2,
    ranges: 1,
    tails: 256,
    sessions: 1,
    txns: 2,
    spare: 2,
    indexed: 0,
};

/// Puts a row of these numbers, in the open transaction of session 0, and answers whether it was put.
pub(crate) fn put(store: &Store, crew: &mut Crew, key: Key, first: u64, second: u64) -> bool
    requires { IsCrewOf store.now crew.old }
    ensures { IsCrewOf store.now crew.new }
{
    let mut row = Row::of_numbers(ArrayVec::new());
    row.push(Some(first));
    row.push(Some(second));
    let limits = crew.seat.limits();
    if limits.sessions == 0 || limits.columns as usize != row.len() {
        return false;
    }
    crew.insert(store, 0, key, &row).is_ok()
}

/// Puts the rows of the keys 0 to 255 by one transaction of session 0, and answers whether it was committed.
fn fill(store: &Store, crew: &mut Crew, first: &[u64; 256], second: &[u64; 256]) -> bool
    requires { IsCrewOf store.now crew.old }
    ensures { IsCrewOf store.now crew.new }
{
    if crew.seat.limits().sessions == 0 || crew.begin(store, 0).is_err() {
        return false;
    }
    for key in 0..256 {
        if !put(store, crew, key as u64, first[key], second[key]) {
            return false;
        }
    }
    crew.seat.limits().sessions > 0 && crew.commit(store, 0).is_ok()
}

/// Gets the rows of the keys 0 to 255 in turn, in a transaction of session 0, and adds up the numbers of their second column.
fn read(store: &Store, crew: &mut Crew, count: u32) -> u64
    requires crew { IsCrewOf store.now crew.old }
    requires session { 0 < store.now.layout.limits.sessions }
{
    if crew.begin(store, 0).is_err() {
        return 0;
    }
    let mut sum = 0u64;
    for turn in 0..count {
        if let Ok(Some(row)) = crew.get(store, 0, u64::from(turn % 256)) {
            if let Some(number) = row.numbers().get(1) {
                sum = sum.wrapping_add(*number);
            }
        }
    }
    sum
}

/// Fills a store with rows whose pages are packed to these forms, one or one for each column with `-` between, merges them where that is asked, gets
/// `count` rows, and adds up their numbers in the second column.
pub(crate) fn gets(
    alloc: Global,
    forms: &str,
    merged: bool,
    count: u32,
) -> Result<u64, OutOfMemory> {
    let (first, second) = forms.split_once('-').unwrap_or((forms, forms));
    let Ok(layout) = LIMITS.check() else {
        return Ok(0);
    };
    let (store, mut crew) = open_crew(alloc, &layout)?;
    if store.layout().limits.sessions == 0
        || !fill(&store, &mut crew, &values_of(first), &values_of(second))
    {
        return Ok(0);
    }
    if merged {
        merge_all(&store, &mut crew);
    }
    Ok(read(&store, &mut crew, count))
}
