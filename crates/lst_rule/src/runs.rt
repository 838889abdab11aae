//! Many words loaded by one call.
ghost use Rattle.std.specs.Prelude.{◌≡◌, ◌+◌, ◌*◌, ◌<◌, ◌≤◌, slice_index, true};
ghost use Rattle.lst_layout.specs.declared.TheConstants.{RANGE_RECORDS, FRAME_VALUES, FRAME_TIMES};
ghost use Rattle.lst_layout.specs.Addresses as addresses;
ghost use Rattle.lst_rule.specs.declared.runs.Run.TheVariants as runs;
ghost use Rattle.lst_rule.specs.Rule.{hosts};
ghost use Rattle.lst_rule.specs.Runs.{place_in, IsRunOf, LoadsNext, LoadsRun, FrameRun, HeadRun};
ghost use Rattle.lst_rule.specs.Stores.{IsSeatOf};

use crate::loads::load_quietly;
use crate::seat::Seat;
use crate::store::Store;
use lst_layout::{FRAME_TIMES, FRAME_VALUES, Layout, Place, RANGE_RECORDS};

/// 256 words of a store that lie side by side.
#[derive(Clone, Copy)]
pub enum Run {
    /// The packed values of a frame, but the last word of its widest form.
    Values { frame: u32 },
    /// The time words of a frame.
    Times { frame: u32 },
    /// The indirection words of a range.
    Heads { range: u32 },
}

/// The place of a word of a run.
#[inline(always)]
fn place_in_run(layout: &Layout, run: Run, i: u32) -> Place
    requires { addresses.IsWithin layout.now.limits (place_in run i) }
    ensures { result ≡ place_in run i }
{
    let _ = layout;
    match run {
        Run::Values { frame } => Place::FrameWord {
            frame,
            place: FRAME_VALUES + i,
        },
        Run::Times { frame } => Place::FrameWord {
            frame,
            place: FRAME_TIMES + i,
        },
        Run::Heads { range } => Place::HeadWord {
            rec: RANGE_RECORDS * range + i,
        },
    }
}

/// The address of the first word of a run.
#[inline(always)]
fn first_of_run(layout: &Layout, run: Run) -> u64
    requires { addresses.IsWithin layout.now.limits (place_in run 0) }
    ensures { result ≡ addresses.address layout.now.limits (place_in run 0) }
{
    match run {
        Run::Values { frame } => layout.frames(frame, FRAME_VALUES),
        Run::Times { frame } => layout.frames(frame, FRAME_TIMES),
        Run::Heads { range } => layout.indirection(RANGE_RECORDS * range),
    }
}

/// The address of a later word of some that stand side by side, whose first word has this address, in a store of so many words.
#[inline(always)]
pub(crate) fn later(words: u64, first: u64, i: u32) -> u64
    requires { first + i < words }
    ensures { result ≡ first + i }
{
    let _ = words;
    first + i as u64
}

/// Loads a word of a run, whose first word has this address.
#[inline(always)]
fn load_next(
    store: &Store,
    seat: &mut Seat,
    s: u32,
    run: Run,
    first: u64,
    i: u32,
    out: &mut [u64; 256],
)
    requires seat { IsSeatOf store.now seat.old }
    requires host { hosts seat.old.view s ≡ true }
    requires run { IsRunOf seat.old.view.limits run }
    requires low { i < RANGE_RECORDS }
    requires first { first ≡ addresses.address store.now.layout.limits (place_in run 0) }
    ensures seat { IsSeatOf store.now seat.new }
    ensures next { LoadsNext run seat.old.view s i seat.new.view out.old out.new }
{
    let place = place_in_run(&store.layout, run, i);
    let address = later(store.layout.words, first, i);
    out[i as usize] = load_quietly(store, seat, s, place, address);
}

/// Loads the words of a run, one after another. Their address is made up once, and eight are loaded a turn: the compiler unrolls the inner loop.
#[inline(always)]
fn load_run(store: &Store, seat: &mut Seat, s: u32, run: Run, out: &mut [u64; 256])
    requires seat { IsSeatOf store.now seat.old }
    requires host { hosts seat.old.view s ≡ true }
    requires run { IsRunOf seat.old.view.limits run }
    ensures seat { IsSeatOf store.now seat.new }
    ensures loads { LoadsRun run (slice_index out.new) seat.old.view s RANGE_RECORDS seat.new.view }
{
    let first = first_of_run(&store.layout, run);
    for turn in 0..RANGE_RECORDS / 8 {
        for place in 0..8 {
            load_next(store, seat, s, run, first, 8 * turn + place, out);
        }
    }
}

/// Loads the time words of a frame into an array. Does what 256 calls of `load_frame` do, in order.
pub fn load_times(store: &Store, seat: &mut Seat, s: u32, frame: u32, out: &mut [u64; 256])
    requires seat { IsSeatOf store.now seat.old }
    requires host { hosts seat.old.view s ≡ true }
    requires run { IsRunOf seat.old.view.limits (runs.Times frame) }
    ensures seat { IsSeatOf store.now seat.new }
    ensures loads { LoadsRun (runs.Times frame) (slice_index out.new) seat.old.view s RANGE_RECORDS seat.new.view }
    ensures found { FrameRun seat.old.view seat.new.view s frame FRAME_TIMES (slice_index out.new) }
{
    load_run(store, seat, s, Run::Times { frame }, out);
}

/// Loads the indirection words of a range into an array. Does what 256 calls of `load_head` do, in order.
pub fn load_heads(store: &Store, seat: &mut Seat, s: u32, range: u32, out: &mut [u64; 256])
    requires seat { IsSeatOf store.now seat.old }
    requires host { hosts seat.old.view s ≡ true }
    requires run { IsRunOf seat.old.view.limits (runs.Heads range) }
    ensures seat { IsSeatOf store.now seat.new }
    ensures loads { LoadsRun (runs.Heads range) (slice_index out.new) seat.old.view s RANGE_RECORDS seat.new.view }
    ensures found { HeadRun seat.old.view seat.new.view s }
{
    load_run(store, seat, s, Run::Heads { range }, out);
}
