//! The run of a merge.
ghost use Rattle.std.specs.Prelude.{◌≡◌, ◌⊎◌, ◌+◌, ◌*◌, ◌<◌, ◌≤◌, true, false};
ghost use Rattle.lst_pages.specs.Sound.{IsPage};
ghost use Rattle.lst_pages.specs.Runs.{tps_known};
ghost use Rattle.lst_rule.specs.Rule.{hosts};
ghost use Rattle.lst_rule.specs.PageSteps.{stock_of};
ghost use Rattle.lst_rule.specs.Stores.{IsSeatOf};
ghost use Rattle.lst_merge.specs.Inspections.{merger_of, Inspects};
ghost use Rattle.lst_merge.specs.Runs.{HasSettled, Unsettled, IsRun};
ghost use Rattle.lst_merge.specs.Tails.{IsTail};

use crate::frames::page_frame;
use crate::tails::{Tail, tail_at, time_of};
use lst_rule::{Seat, Store, load_frame, load_tail_counter};

/// The tails of a range that a merge of a page takes in: those with a number above `tps`, up to `end`.
#[derive(Clone, Copy, PartialEq, Eq, Debug)]
pub struct Run {
    /// The TPS of the page.
    pub tps: u32,
    /// The number of the last tail, or the TPS where there is none.
    pub end: u32,
}

/// Finds the run of a page: the tails of its range after its TPS that are settled, without a gap. Of each the merger then knows that it is
/// stored, and that its transaction is closed or committed by the clock. The end is found in this call: the tail after it is beyond the tail
/// counter that is loaded in this call, or beyond the limit, or found not stored or unfinished.
///
/// No word of the store changes.
pub fn run_end(store: &Store, seat: &mut Seat, range: u32, column: u32) -> Run
    requires seat { IsSeatOf store.now seat.old }
    requires host { hosts seat.old.view seat.old.view.limits.sessions ≡ true }
    requires page { IsPage seat.old.view.limits range column }
    ensures seat { IsSeatOf store.now seat.new }
    ensures inspects { Inspects seat.old.view seat.new.view seat.old.view.limits.sessions }
    ensures run { IsRun seat.old.view seat.new.view range column result }
{
    let layout = *store.layout();
    let tps = page_tps(store, seat, range, column);
    let count = load_tail_counter(store, seat, layout.limits.sessions, range);
    let last = last_tail(count, layout.limits.tails);
    let mut end = tps;
    while end < last {
        if !is_settled(store, seat, tail_at(&layout, range, end + 1)) {
            seat.consider();
            return Run { tps, end };
        }
        end += 1;
    }
    seat.consider();
    Run { tps, end }
}

/// The number of the last tail that may be stored in a range, by its tail counter and the limit.
fn last_tail(count: u64, tails: u32) -> u32
    ensures few { result ≤ tails }
    ensures drawn { result ≤ count }
    ensures last { (count ≤ result) ⊎ (tails ≤ result) }
{
    if count < tails as u64 {
        count as u32
    } else {
        tails
    }
}

/// The TPS of a page.
fn page_tps(store: &Store, seat: &mut Seat, range: u32, column: u32) -> u32
    requires seat { IsSeatOf store.now seat.old }
    requires host { hosts seat.old.view seat.old.view.limits.sessions ≡ true }
    requires page { IsPage seat.old.view.limits range column }
    ensures seat { IsSeatOf store.now seat.new }
    ensures inspects { Inspects seat.old.view seat.new.view seat.old.view.limits.sessions }
    ensures tps { result ≡ tps_known (stock_of seat.old.view) range column }
    ensures few { result ≤ seat.old.view.limits.tails }
{
    let merger = store.layout().limits.sessions;
    let frame = page_frame(store, seat, range, column);
    load_frame(store, seat, merger, frame, 0) as u32
}

/// Whether a tail is found to be settled.
#[inline(always)]
fn is_settled(store: &Store, seat: &mut Seat, tail: Tail) -> bool
    requires seat { IsSeatOf store.now seat.old }
    requires host { hosts seat.old.view seat.old.view.limits.sessions ≡ true }
    requires tail { IsTail store.now.layout.limits tail }
    ensures seat { IsSeatOf store.now seat.new }
    ensures inspects { Inspects seat.old.view seat.new.view seat.old.view.limits.sessions }
    ensures yes { result ≡ true → HasSettled (merger_of seat.new.view) tail.identifier }
    ensures no { result ≡ false → Unsettled seat.old.view seat.new.view tail.identifier }
{
    time_of(store, seat, tail).is_some()
}
