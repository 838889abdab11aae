//! The build of a page.
ghost use Rattle.std.specs.Prelude.{◌≡◌, ◌<◌, ◌≤◌, true, slice_index};
ghost use Rattle.lst_pages.specs.Runs.{frame_known, page_known, tps_known};
ghost use Rattle.lst_pages.specs.Sound.{IsPage};
ghost use Rattle.lst_rule.specs.Rule.{hosts};
ghost use Rattle.lst_rule.specs.Learned.{Kept, Possible};
ghost use Rattle.lst_rule.specs.PageSteps.{stock_of, StockIs};
ghost use Rattle.lst_rule.specs.Stores.{IsSeatOf};
ghost use Rattle.lst_merge.specs.Inspections.{merger_of};
ghost use Rattle.lst_merge.specs.Runs.{AreSettled};
ghost use Rattle.lst_merge.specs.Pages.{entry_of, AreEntriesIn, AreNumbers};
ghost use Rattle.lst_merge.specs.Builds.{IsFree, Builds, MayReplace};

use crate::entries::read_values;
use crate::folds::fold_run;
use crate::frames::{load_words, page_frame, store_words};
use crate::runs::Run;
use crate::words::write_page;
use lst_layout::FRAME_WORDS;
use lst_rule::{Seat, Store};

const WORDS: usize = FRAME_WORDS as usize;

/// Builds the page of a range and a column anew in a free frame: the entries of the page as it is, with the tails of a run folded in. Each of
/// them is settled, as the merger knows that found the run. The frame is being built then, and is a right page whose TPS is the end of the run; if
/// the run has a tail, it may take the page's place.
///
/// Of the words of the store only those of the frame change.
pub fn build(store: &Store, seat: &mut Seat, frame: u32, range: u32, column: u32, run: &Run)
    requires seat { IsSeatOf store.now seat.old }
    requires host { hosts seat.old.view seat.old.view.limits.sessions ≡ true }
    requires page { IsPage seat.old.view.limits range column }
    requires free { IsFree seat.old.view frame }
    requires tps { run.now.tps ≡ tps_known (stock_of seat.old.view) range column }
    requires from { run.now.tps ≤ run.now.end }
    requires few { run.now.end ≤ seat.old.view.limits.tails }
    requires settled { AreSettled seat.old.view.limits (merger_of seat.old.view) range run.now.tps run.now.end }
    ensures seat { IsSeatOf store.now seat.new }
    ensures builds { Builds seat.old.view seat.new.view range column frame run.now.end }
    ensures ready { run.now.tps < run.now.end → MayReplace seat.new.view range column frame }
{
    seat.consider();
    let mut words = [0; WORDS];
    let mut values = [0; 256];
    load_page(store, seat, range, column, &mut words, &mut values);
    fold_run(store, seat, range, column, run, &mut words, &mut values);
    write_page(run.end, &values, &mut words);
    store_words(store, seat, frame, &words);
}

/// Takes a page in hand: loads the words of its frame, and reads the values off them.
fn load_page(
    store: &Store,
    seat: &mut Seat,
    range: u32,
    column: u32,
    words: &mut [u64; WORDS],
    values: &mut [u64; 256],
)
    requires seat { IsSeatOf store.now seat.old }
    requires host { hosts seat.old.view seat.old.view.limits.sessions ≡ true }
    requires page { IsPage seat.old.view.limits range column }
    ensures seat { IsSeatOf store.now seat.new }
    ensures view { StockIs seat.old.view seat.new.view (stock_of seat.old.view) }
    ensures kept { Kept seat.old.view seat.new.view }
    ensures entries { AreEntriesIn (frame_known (stock_of seat.old.view) (page_known (stock_of seat.old.view) range column)) (entry_of (slice_index words.new) values.new) }
    ensures numbers { AreNumbers (slice_index words.new) values.new }
{
    seat.consider();
    let frame = page_frame(store, seat, range, column);
    load_words(store, seat, frame, words);
    read_values(words, values);
}
