//! A tail that holds an act, and how it comes onto a record's chain.
ghost use Rattle.std.specs.Prelude.{◌≡◌, ℕ, ◌+◌, ◌-◌, ◌*◌, ◌<◌, ◌≤◌, [], ◌∷◌, ◌++◌, true, false, length, IfOk, OnOk, OnErr};
ghost use Rattle.lst_core_state.specs.declared.facts.Find.TheVariants.{FullTails};
ghost use Rattle.lst_core_state.specs.Cells.{range_of};
ghost use Rattle.lst_core_state.specs.State.{counter_of};
ghost use Rattle.lst_rule.specs.Rule.{knows, hosts};
ghost use Rattle.lst_rule.specs.Learned.{Learns, Kept, Made};
ghost use Rattle.lst_layout.specs.declared.place.Place.TheVariants.{HeadWord};
ghost use Rattle.lst_core_state.specs.declared.events.Event.TheVariants.{Install};
ghost use Rattle.lst_rule.specs.Posting.{AllPosted};
ghost use Rattle.lst_rule.specs.Stores.{IsSeatOf};
ghost use Rattle.lst_write.specs.Holding.{MayLatch, HasLatch};
ghost use Rattle.lst_write.specs.Judgements.{HasJudged};
ghost use Rattle.lst_write.specs.Cells as cells;
ghost use Rattle.lst_write.specs.Appending.{FitsSight, ChangesTail, known_words, Counts, FindsFull, Draws, IsDraft, Appends, HasWhole, InstallsHeld};

use crate::cells::{cell_word, encoding};
use lst_bits::{Start, pack_start};
use lst_model::Act;
use lst_rule::{
    RecordId, Seat, Store, load_tail_counter, step_draw_tail, step_install, step_store_cell,
};

/// Every tail of the record's range is drawn.
#[derive(Clone, Copy, PartialEq, Eq, Debug)]
pub struct TailFull;

/// Looks whether a tail of a range is left to be drawn.
fn look_at_counter(store: &Store, seat: &mut Seat, s: u32, range: u32) -> Result<(), TailFull>
    requires seat { IsSeatOf store.now seat.old }
    requires host { hosts seat.old.view s ≡ true }
    requires own { s < seat.old.view.limits.sessions }
    requires range { range < seat.old.view.limits.ranges }
    requires latch { 0 < (knows seat.old.view s).hold.latch }
    ensures seat { IsSeatOf store.now seat.new }
    ensures ok { OnOk result ((count : ℕ) × Counts seat.old.view seat.new.view s range count []) }
    ensures serves { OnOk result ((counter_of (knows seat.new.view s) range).is_serving ≡ true) }
    ensures left { OnOk result (seat.old.view.whole ≡ true → (known_words seat.old.view).counts range < seat.old.view.limits.tails) }
    ensures kept { Kept seat.old.view seat.new.view }
    ensures err { OnErr result (FindsFull seat.old.view seat.new.view s range) }
{
    if load_tail_counter(store, seat, s, range) >= store.layout().limits.tails as u64 {
        return Err(TailFull);
    }
    Ok(())
}

/// Draws a tail of the range of a record whose latch is in hand and whose chain is judged.
fn draw(store: &Store, seat: &mut Seat, s: u32, rec: RecordId, head: u32) -> Result<u32, TailFull>
    requires seat { IsSeatOf store.now seat.old }
    requires host { hosts seat.old.view s ≡ true }
    requires own { s < seat.old.view.limits.sessions }
    requires latch { HasLatch (knows seat.old.view s) rec.number head }
    requires judged { HasJudged seat.old.view.limits (knows seat.old.view s) s rec.number head }
    ensures seat { IsSeatOf store.now seat.new }
    ensures ok { IfOk result (λ number. Draws seat.old.view seat.new.view s rec.number head number) }
    ensures err { OnErr result (FindsFull seat.old.view seat.new.view s (range_of rec.number)) }
{
    let _ = head;
    let range = rec.number / 256;
    look_at_counter(store, seat, s, range)?;
    let found = step_draw_tail(store, seat, s, range);
    if found >= store.layout().limits.tails as u64 {
        return Err(TailFull);
    }
    Ok(found as u32 + 1)
}

/// Stores the words of an act into the tail in hand, but its start word: its encoding word, its back word, and its values.
fn store_words(store: &Store, seat: &mut Seat, s: u32, encoding: u64, head: u32, act: &Act)
    requires seat { IsSeatOf store.now seat.old }
    requires host { hosts seat.old.view s ≡ true }
    requires own { s < seat.old.view.limits.sessions }
    requires tail { 0 < (knows seat.old.view s).hold.tail }
    requires blank { (knows seat.old.view s).hold.is_whole ≡ false }
    requires draft { IsDraft store.now.layout.limits.columns (knows seat.old.view s).draft (cells.cell_word encoding head act.now) 1 }
    requires act { cells.IsActFor store.now.layout.limits.columns act.now }
    ensures seat { IsSeatOf store.now seat.new }
    ensures view { Learns seat.old.view seat.new.view s (record (knows seat.old.view s) { draft = (knows seat.new.view s).draft }) }
    ensures draft { IsDraft store.now.layout.limits.columns (knows seat.new.view s).draft (cells.cell_word encoding head act.now) (3 + store.now.layout.limits.columns) }
    ensures words { seat.old.view.whole ≡ true → ChangesTail (known_words seat.old.view) (known_words seat.new.view) (knows seat.old.view s).hold.tail }
{
    let columns = store.layout().limits.columns;
    let mut place = 1;
    while place < 3 + columns {
        let word = cell_word(columns, encoding, head, act, place);
        step_store_cell(store, seat, s, place, word);
        place += 1;
    }
}

/// Draws a tail of the range of a record whose latch is in hand and whose chain is judged, and stores an act into it, which has to fit the
/// row that the transaction sees. It answers the tail's number in the range; the tail is whole then, and in hand. The start word is
/// stored last. At most one tail is drawn.
///
/// To a view that knows every word, the number is one more than the range's tail counter was, which has it then, and beside it only words
/// of that tail have changed.
///
/// TailFull comes exactly where the range's tail counter was found at its limit or above in this call. Nothing else than what the session
/// has found changes then, and, of a view that knows every word, no word.
pub fn append(
    store: &Store,
    seat: &mut Seat,
    s: u32,
    rec: RecordId,
    head: u32,
    act: &Act,
) -> Result<u32, TailFull>
    requires seat { IsSeatOf store.now seat.old }
    requires host { hosts seat.old.view s ≡ true }
    requires own { s < seat.old.view.limits.sessions }
    requires latch { HasLatch (knows seat.old.view s) rec.number head }
    requires judged { HasJudged seat.old.view.limits (knows seat.old.view s) s rec.number head }
    requires act { cells.IsActFor seat.old.view.limits.columns act.now }
    requires fits { FitsSight (knows seat.old.view s) rec.number act.now }
    ensures seat { IsSeatOf store.now seat.new }
    ensures ok { IfOk result (λ number. Appends seat.old.view seat.new.view s rec.number head number act.now) }
    ensures err { OnErr result (FindsFull seat.old.view seat.new.view s (range_of rec.number)) }
{
    let number = draw(store, seat, s, rec, head)?;
    let encoding = encoding(store.layout().limits.columns, rec, act);
    store_words(store, seat, s, encoding, head, act);
    let start = pack_start(Start::By {
        session: s,
        number: seat.number(s),
    });
    step_store_cell(store, seat, s, 0, start);
    Ok(number)
}

/// Puts the tail in hand, which is whole and posted, onto the record's chain, and gives the latch back: the write is one more of the
/// open transaction's own.
pub fn install(store: &Store, seat: &mut Seat, s: u32, rec: RecordId, tail: u32)
    requires seat { IsSeatOf store.now seat.old }
    requires host { hosts seat.old.view s ≡ true }
    requires own { s < seat.old.view.limits.sessions }
    requires whole { (head : ℕ) × (act : Act) × HasWhole seat.old.view.limits (knows seat.old.view s) s rec.number head tail act }
    requires posted { AllPosted seat.old.view.limits (knows seat.old.view s) }
    ensures seat { IsSeatOf store.now seat.new }
    ensures installs { InstallsHeld seat.old.view seat.new.view s rec.number tail }
    ensures free { MayLatch (knows seat.new.view s) }
    ensures writes { 0 < length (knows seat.new.view s).own }
    ensures word { Made seat.old.view seat.new.view (Install s) (HeadWord rec.number) (2 * tail) }
{
    let _ = (rec, tail);
    step_install(store, seat, s);
}
