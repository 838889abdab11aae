//! The runs, each a loop over one call.
ghost use Rattle.std.specs.Prelude.{◌≡◌, ◌<◌, true};
ghost use Rattle.lst_rule.specs.Rule.{knows};
ghost use Rattle.lst_bench.specs.Seated.{Stays, Rests};

use lst_index::{find, place};
use lst_rule::{Seat, Store, load_clock, load_head, load_heads, load_times};
use lst_txn::{begin, close};

/// Loads the indirection words of all records in turn, and adds them up.
pub fn heads(store: &Store, seat: &mut Seat, count: u32) -> u64
    requires { Stays store.now seat.old }
    ensures { Stays store.now seat.new }
{
    let records = 256 * store.layout().limits.ranges;
    let mut sum = 0u64;
    let mut rec = 0;
    let mut turn = 0;
    while turn < count {
        sum = sum.wrapping_add(load_head(store, seat, 0, rec));
        rec = if rec + 1 < records { rec + 1 } else { 0 };
        turn += 1;
    }
    sum
}

/// Loads the indirection words of all ranges in turn, 256 in one call, and adds up one of each call.
pub fn head_runs(store: &Store, seat: &mut Seat, count: u32) -> u64
    requires { Stays store.now seat.old }
    ensures { Stays store.now seat.new }
{
    let ranges = store.layout().limits.ranges;
    let mut out = [0; 256];
    let mut sum = 0u64;
    let mut range = 0;
    let mut turn = 0;
    while turn < count {
        load_heads(store, seat, 0, range, &mut out);
        sum = sum.wrapping_add(out[(turn % 256) as usize]);
        range = if range + 1 < ranges { range + 1 } else { 0 };
        turn += 1;
    }
    sum
}

/// Loads the time words of the first frame, 256 in one call, and adds up one of each call.
pub fn time_runs(store: &Store, seat: &mut Seat, count: u32) -> u64
    requires { Stays store.now seat.old }
    ensures { Stays store.now seat.new }
{
    let mut out = [0; 256];
    let mut sum = 0u64;
    let mut turn = 0;
    while turn < count {
        load_times(store, seat, 0, 0, &mut out);
        sum = sum.wrapping_add(out[(turn % 256) as usize]);
        turn += 1;
    }
    sum
}

/// Loads the clock, and adds up what was found.
pub fn clocks(store: &Store, seat: &mut Seat, count: u32) -> u64
    requires { Stays store.now seat.old }
    ensures { Stays store.now seat.new }
{
    let mut sum = 0u64;
    let mut turn = 0;
    while turn < count {
        sum = sum.wrapping_add(load_clock(store, seat, 0));
        turn += 1;
    }
    sum
}

/// Begins a transaction and closes it, and tells whether it began.
fn one_turn(store: &Store, seat: &mut Seat) -> bool
    requires { Rests store.now seat.old }
    ensures { Rests store.now seat.new }
{
    if begin(store, seat, 0).is_err() {
        return false;
    }
    close(store, seat, 0).is_ok()
}

/// Begins and closes transactions, and counts those that began.
pub fn turns(store: &Store, seat: &mut Seat, count: u32) -> u32
    requires { Rests store.now seat.old }
    ensures { Rests store.now seat.new }
{
    let mut begun = 0;
    let mut turn = 0;
    while turn < count {
        if one_turn(store, seat) {
            begun += 1;
        }
        turn += 1;
    }
    begun
}

/// Places the key 7, and then finds it as often as asked; adds up one more than its record.
pub fn finds(store: &Store, seat: &mut Seat, count: u32) -> u64
    requires stays { Stays store.now seat.old }
    requires own { 0 < seat.old.view.limits.sessions }
    requires free { (knows seat.old.view 0).placing.hand ≡ 0 }
    ensures { Stays store.now seat.new }
{
    let _ = place(store, seat, 0, 7);
    let mut sum = 0u64;
    let mut turn = 0;
    while turn < count {
        if let Some(found) = find(store, seat, 0, 7) {
            sum = sum.wrapping_add(found.number as u64 + 1);
        }
        turn += 1;
    }
    sum
}
