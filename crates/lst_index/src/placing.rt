//! A record for a key.
ghost use Rattle.std.specs.Prelude.{◌≡◌, ◌≢◌, ℕ, ◌+◌, ◌-◌, ◌<◌, ◌≤◌, [], ◌∷◌, true, false, IfSome, IfNone, IfOk, IfErr, IsOk, OnOk, OnErr};
ghost use Rattle.lst_layout.specs.Words.{shown};
ghost use Rattle.lst_core_state.specs.declared.facts.Find.TheVariants.{FullRecords};
ghost use Rattle.lst_core_state.specs.Cells.{record_count};
ghost use Rattle.lst_core_state.specs.Index.{size, position_of};
ghost use Rattle.lst_rule.specs.Rule.{knows, hosts};
ghost use Rattle.lst_rule.specs.Learned.{Kept};
ghost use Rattle.lst_rule.specs.Stores.{IsSeatOf};
ghost use Rattle.lst_index.specs.Searches.{IsPlaced, Passed, Works};
ghost use Rattle.lst_index.specs.Placings.{Drew, IsFull, FoundFull, full_finds, HasRecord, Leaves, LeavesFull, DrawsAfterLook};
ghost use Rattle.lst_index.specs.Visits.{one, Holds, HasOne, Uses, Shows, Draws, Claims, Rests};

use crate::positions::position;
use crate::visits::{compare, look};
use lst_bits::unpack_index;
use lst_model::Key;
use lst_rule::{
    RecordId, Seat, Store, load_record_counter, step_claim, step_draw_record, step_store_key,
};

/// Every record of the store is drawn.
#[derive(Clone, Copy, PartialEq, Eq, Debug)]
pub struct TableFull;

/// Another session has filled the position, with this record.
#[derive(Clone, Copy, PartialEq, Eq, Debug)]
struct Lost {
    number: u32,
}

/// Looks whether a record is left to be drawn.
pub fn look_at_counter(store: &Store, seat: &mut Seat, s: u32) -> Result<(), TableFull>
    requires seat { IsSeatOf store.now seat.old }
    requires host { hosts seat.old.view s ≡ true }
    ensures seat { IsSeatOf store.now seat.new }
    ensures works { Works seat.old.view seat.new.view s (full_finds result) }
    ensures placing { let before = (knows seat.old.view s).placing in (knows seat.new.view s).placing ≡ record before { counter = (knows seat.new.view s).placing.counter } }
    ensures serves { OnOk result ((knows seat.new.view s).placing.counter.is_serving ≡ true) }
    ensures full { OnErr result (IsFull seat.new.view s) }
    ensures kept { Kept seat.old.view seat.new.view }
    ensures below { OnOk result (seat.old.view.whole ≡ true → (shown seat.old.view.limits seat.old.view.words).counter < record_count seat.old.view.limits) }
    ensures reached { OnErr result (seat.old.view.whole ≡ true → record_count seat.old.view.limits ≤ (shown seat.old.view.limits seat.old.view.words).counter) }
{
    if load_record_counter(store, seat, s) >= store.layout().limits.record_count() {
        return Err(TableFull);
    }
    Ok(())
}

/// Draws a record, and stores its key.
pub fn draw(store: &Store, seat: &mut Seat, s: u32, key: Key) -> Result<(), TableFull>
    requires seat { IsSeatOf store.now seat.old }
    requires host { hosts seat.old.view s ≡ true }
    requires own { s < seat.old.view.limits.sessions }
    requires free { (knows seat.old.view s).placing.hand ≡ 0 }
    requires keyless { (knows seat.old.view s).placing.has_key ≡ false }
    requires serves { (knows seat.old.view s).placing.counter.is_serving ≡ true }
    ensures seat { IsSeatOf store.now seat.new }
    ensures works { Works seat.old.view seat.new.view s (full_finds result) }
    ensures drawn { OnOk result (HasOne (knows seat.new.view s).placing key × Uses (knows seat.old.view s).placing (knows seat.new.view s).placing 1) }
    ensures full { OnErr result (IsFull seat.new.view s) }
    ensures none { OnErr result (let before = (knows seat.old.view s).placing in (knows seat.new.view s).placing ≡ record before { counter = (knows seat.new.view s).placing.counter }) }
    ensures stores { OnOk result (seat.old.view.whole ≡ true → Draws seat.old.view seat.new.view s key) }
    ensures reached { OnErr result (seat.old.view.whole ≡ true → record_count seat.old.view.limits ≤ (shown seat.old.view.limits seat.old.view.words).counter) }
{
    if step_draw_record(store, seat, s) >= store.layout().limits.record_count() {
        return Err(TableFull);
    }
    step_store_key(store, seat, s, key);
    Ok(())
}

/// Has a record in hand for the key, which it draws if there is none.
pub fn take_record(store: &Store, seat: &mut Seat, s: u32, key: Key) -> Result<(), TableFull>
    requires seat { IsSeatOf store.now seat.old }
    requires host { hosts seat.old.view s ≡ true }
    requires own { s < seat.old.view.limits.sessions }
    requires holds { Holds (knows seat.old.view s).placing key }
    ensures seat { IsSeatOf store.now seat.new }
    ensures works { Works seat.old.view seat.new.view s (full_finds result) }
    ensures has { OnOk result (HasOne (knows seat.new.view s).placing key × Uses (knows seat.old.view s).placing (knows seat.new.view s).placing 1) }
    ensures full { OnErr result (IsFull seat.new.view s) }
    ensures none { OnErr result (((knows seat.new.view s).placing.hand ≡ 0) × Uses (knows seat.old.view s).placing (knows seat.new.view s).placing 0) }
    ensures stores { OnOk result (seat.old.view.whole ≡ true → (knows seat.old.view s).placing.hand ≡ 0 → Draws seat.old.view seat.new.view s key) }
    ensures kept { OnErr result (Kept seat.old.view seat.new.view) }
    ensures reached { OnErr result (seat.old.view.whole ≡ true → record_count seat.old.view.limits ≤ (shown seat.old.view.limits seat.old.view.words).counter) }
{
    if seat.rec(s).is_some() {
        return Ok(());
    }
    look_at_counter(store, seat, s)?;
    draw(store, seat, s, key)
}

/// Tries to claim the position for the record in hand.
fn claim(
    store: &Store,
    seat: &mut Seat,
    s: u32,
    key: Key,
    offset: u32,
    position: u32,
) -> Result<RecordId, Lost>
    requires seat { IsSeatOf store.now seat.old }
    requires host { hosts seat.old.view s ≡ true }
    requires own { s < seat.old.view.limits.sessions }
    requires offset { offset < size store.now.layout.limits }
    requires position { position < size store.now.layout.limits }
    requires is { position ≡ position_of store.now.layout.limits key offset }
    requires has { HasOne (knows seat.old.view s).placing key }
    requires passed { Passed store.now.layout.limits (knows seat.old.view s).facts key offset }
    ensures seat { IsSeatOf store.now seat.new }
    ensures works { Works seat.old.view seat.new.view s [] }
    ensures won { IfOk result (λ r. (r.number < record_count store.now.layout.limits) × IsPlaced (knows seat.new.view s) r.number key × ((knows seat.new.view s).placing ≡ (let before = (knows seat.old.view s).placing in record before { hand = 0; has_key = false }))) }
    ensures lost { IfErr result (λ other. (other.number < record_count store.now.layout.limits) × Shows (knows seat.new.view s) position other.number × ((knows seat.new.view s).placing ≡ (knows seat.old.view s).placing)) }
    ensures stores { IfOk result (λ r. Claims seat.old.view seat.new.view s position r.number) }
    ensures taken { OnErr result (seat.old.view.whole ≡ true → (shown seat.old.view.limits seat.old.view.words).index position ≢ 0) }
{
    let Some(number) = seat.rec(s) else {
        unreachable!()
    };
    seat.consider();
    let word = step_claim(store, seat, s, position);
    match unpack_index(word) {
        None => Ok(RecordId { number }),
        Some(other) => Err(Lost { number: other }),
    }
}

/// Brings the record in hand to the position, or finds that another session's record stands there: then it is the key's, and the one
/// in hand is given up, or it has another key.
pub fn settle(
    store: &Store,
    seat: &mut Seat,
    s: u32,
    key: Key,
    offset: u32,
    position: u32,
) -> Option<RecordId>
    requires seat { IsSeatOf store.now seat.old }
    requires host { hosts seat.old.view s ≡ true }
    requires own { s < seat.old.view.limits.sessions }
    requires offset { offset < size store.now.layout.limits }
    requires position { position < size store.now.layout.limits }
    requires is { position ≡ position_of store.now.layout.limits key offset }
    requires has { HasOne (knows seat.old.view s).placing key }
    requires passed { Passed store.now.layout.limits (knows seat.old.view s).facts key offset }
    ensures seat { IsSeatOf store.now seat.new }
    ensures works { Works seat.old.view seat.new.view s [] }
    ensures drawn { (knows seat.new.view s).placing.drawn ≡ (knows seat.old.view s).placing.drawn }
    ensures placed { IfSome result (λ r. (r.number < record_count store.now.layout.limits) × IsPlaced (knows seat.new.view s) r.number key × ((knows seat.new.view s).placing.hand ≡ 0)) }
    ensures passed { IfNone result (HasOne (knows seat.new.view s).placing key × Passed store.now.layout.limits (knows seat.new.view s).facts key (offset + 1)) }
    ensures stores { IfSome result (λ r. seat.old.view.whole ≡ true → (shown seat.old.view.limits seat.old.view.words).index position ≡ 0 → Claims seat.old.view seat.new.view s position r.number) }
    ensures taken { IfNone result (seat.old.view.whole ≡ true → (shown seat.old.view.limits seat.old.view.words).index position ≢ 0) }
{
    match claim(store, seat, s, key, offset, position) {
        Ok(placed) => Some(placed),
        Err(lost) => compare(store, seat, s, key, position, lost.number),
    }
}

/// Looks at one position for the key, and claims it if it is free.
pub fn visit(
    store: &Store,
    seat: &mut Seat,
    s: u32,
    key: Key,
    offset: u32,
) -> Result<Option<RecordId>, TableFull>
    requires seat { IsSeatOf store.now seat.old }
    requires host { hosts seat.old.view s ≡ true }
    requires own { s < seat.old.view.limits.sessions }
    requires offset { offset < size store.now.layout.limits }
    requires holds { Holds (knows seat.old.view s).placing key }
    requires passed { Passed store.now.layout.limits (knows seat.old.view s).facts key offset }
    ensures seat { IsSeatOf store.now seat.new }
    ensures works { Works seat.old.view seat.new.view s (full_finds result) }
    ensures uses { Uses (knows seat.old.view s).placing (knows seat.new.view s).placing 1 }
    ensures after_look { IsOk result → DrawsAfterLook seat.old.view seat.new.view s key }
    ensures placed { IfOk result (λ o. IfSome o (λ r. (r.number < record_count store.now.layout.limits) × IsPlaced (knows seat.new.view s) r.number key × ((knows seat.new.view s).placing.hand ≡ 0))) }
    ensures passed { IfOk result (λ o. IfNone o (Uses (knows seat.old.view s).placing (knows seat.new.view s).placing (one (knows seat.new.view s).placing.has_key) × Holds (knows seat.new.view s).placing key × Passed store.now.layout.limits (knows seat.new.view s).facts key (offset + 1))) }
    ensures full { OnErr result (FoundFull seat.old.view seat.new.view s key) }
    ensures none { OnErr result (((knows seat.new.view s).placing.hand ≡ 0) × Uses (knows seat.old.view s).placing (knows seat.new.view s).placing 0) }
    ensures words { IfOk result (λ o. IfSome o (λ r. seat.old.view.whole ≡ true → (knows seat.old.view s).placing.hand ≡ 0 → Leaves seat.old.view.limits seat.old.view.words seat.new.view.words key r.number)) }
    ensures rests { IfOk result (λ o. IfNone o (seat.old.view.whole ≡ true → (knows seat.old.view s).placing.hand ≡ 0 → Rests seat.old.view seat.new.view s)) }
    ensures kept { OnErr result (seat.old.view.whole ≡ true → LeavesFull seat.old.view.limits seat.old.view.words seat.new.view.words key) }
{
    let at = position(store.layout(), key, offset);
    if let Some(number) = look(store, seat, s, at) {
        return Ok(compare(store, seat, s, key, at, number));
    }
    take_record(store, seat, s, key)?;
    Ok(settle(store, seat, s, key, offset, at))
}

/// The record of a key, which is drawn and placed if the key has none. At most one record is drawn, and none is in hand afterwards. A
/// record that was drawn while another session placed the key stays drawn in vain. Where one is drawn, looks lead from what was known at the
/// call's begin to a view that allows a state in which the key's run ends without it; that a load of this call found it so, before the draw, is
/// read in the body.
///
/// TableFull comes exactly where the key was found without a record and then the record counter at its limit; no record is drawn
/// then.
///
/// To a view that knows every word: a key that has a record gets it, and no word changes. Else the next record is drawn, its key is stored,
/// and it is put into one position that was empty; no other word changes. A refusal changes none.
pub fn place(store: &Store, seat: &mut Seat, s: u32, key: Key) -> Result<RecordId, TableFull>
    requires seat { IsSeatOf store.now seat.old }
    requires host { hosts seat.old.view s ≡ true }
    requires own { s < seat.old.view.limits.sessions }
    requires free { (knows seat.old.view s).placing.hand ≡ 0 }
    ensures seat { IsSeatOf store.now seat.new }
    ensures works { Works seat.old.view seat.new.view s (full_finds result) }
    ensures drew { Drew (knows seat.old.view s).placing (knows seat.new.view s).placing 1 }
    ensures after_look { IsOk result → DrawsAfterLook seat.old.view seat.new.view s key }
    ensures free { (knows seat.new.view s).placing.hand ≡ 0 }
    ensures ok { IfOk result (λ r. (r.number < record_count store.now.layout.limits) × IsPlaced (knows seat.new.view s) r.number key) }
    ensures full { OnErr result (FoundFull seat.old.view seat.new.view s key) }
    ensures none { OnErr result (Drew (knows seat.old.view s).placing (knows seat.new.view s).placing 0) }
    ensures words { IfOk result (λ r. seat.old.view.whole ≡ true → Leaves seat.old.view.limits seat.old.view.words seat.new.view.words key r.number) }
    ensures again { IfOk result (λ found. seat.old.view.whole ≡ true → (r : ℕ) → HasRecord seat.old.view.limits seat.old.view.words key r → (found.number ≡ r) × (seat.new.view.words ≡ seat.old.view.words)) }
    ensures kept { OnErr result (seat.old.view.whole ≡ true → LeavesFull seat.old.view.limits seat.old.view.words seat.new.view.words key) }
    ensures missed { OnErr result (seat.old.view.whole ≡ true → (r : ℕ) → ¬ (HasRecord seat.old.view.limits seat.old.view.words key r)) }
{
    seat.consider();
    let all = store.layout().index_positions() as u32;
    let mut offset = 0;
    while offset < all {
        if let Some(placed) = visit(store, seat, s, key, offset)? {
            return Ok(placed);
        }
        offset += 1;
    }
    seat.consider();
    unreachable!()
}
