//! The steps of a session's transaction, one call for each kind.
ghost use Rattle.std.specs.Prelude.{◌≡◌, ◌+◌, ◌*◌, ◌<◌, ◌≤◌, [], ◌∷◌, ◌++◌, length, true, false};
ghost use Rattle.lst_layout.specs.declared.place.Place.TheVariants.{ClockWord, CommitWord, LogWord, BeginWord, StateWord};
ghost use Rattle.lst_core_state.specs.Writes.{commit};
ghost use Rattle.lst_core_state.specs.declared.events.Event.TheVariants.{Begin, Take, Log, State, Clock, Give, Close};
ghost use Rattle.lst_core_state.specs.declared.known.Stage.TheVariants.{Away, Logged, Stated, Done};
ghost use Rattle.lst_core_state.specs.Step.{Enabled};
ghost use Rattle.lst_rule.specs.Rule.{knows, hosts};
ghost use Rattle.lst_rule.specs.Learned.{Learns, Made};
ghost use Rattle.lst_rule.specs.Stores.{IsSeatOf, Tried};

use crate::acts::{exchange_event, store_event};
use crate::seat::Seat;
use crate::store::Store;
use lst_core_state::Event;

/// Stores the begin word of the next transaction: a begin that the session has seen. Allowed where none is open and the number is below the
/// limit.
pub fn step_begin(store: &Store, seat: &mut Seat, s: u32, begin: u64, read_only: bool)
    requires seat { IsSeatOf store.now seat.old }
    requires host { hosts seat.old.view s ≡ true }
    requires own { s < seat.old.view.limits.sessions }
    requires enabled { Enabled seat.old.view.limits (knows seat.old.view s) (Begin s begin read_only) }
    ensures seat { IsSeatOf store.now seat.new }
    ensures view { let v = knows seat.old.view s in Learns seat.old.view seat.new.view s (record v { number = v.number + 1; begin = begin; read_only = read_only; is_open = true; own = [] }) }
    ensures made { Made seat.old.view seat.new.view (Begin s begin read_only) (BeginWord s ((knows seat.old.view s).number + 1)) (begin + 1) }
{
    store_event(
        store,
        seat,
        s,
        Event::Begin {
            session: s,
            begin,
            read_only,
        },
        0,
    );
}

/// Exchanges the commit word from 0 to the session's number plus one, and answers what it found: the turn is taken where that is 0.
/// Allowed where the open transaction has writes, with no latch and no turn.
pub fn step_take(store: &Store, seat: &mut Seat, s: u32) -> u64
    requires seat { IsSeatOf store.now seat.old }
    requires host { hosts seat.old.view s ≡ true }
    requires own { s < seat.old.view.limits.sessions }
    requires enabled { Enabled seat.old.view.limits (knows seat.old.view s) (Take s) }
    ensures seat { IsSeatOf store.now seat.new }
    ensures tried { Tried seat.old.view seat.new.view s result }
{
    exchange_event(store, seat, s, Event::Take { session: s })
}

/// Stores the log word above the clock. Allowed with the turn, once the clock was loaded since it was taken.
pub fn step_log(store: &Store, seat: &mut Seat, s: u32)
    requires seat { IsSeatOf store.now seat.old }
    requires host { hosts seat.old.view s ≡ true }
    requires own { s < seat.old.view.limits.sessions }
    requires enabled { Enabled seat.old.view.limits (knows seat.old.view s) (Log s) }
    ensures seat { IsSeatOf store.now seat.new }
    ensures view { let v = knows seat.old.view s in Learns seat.old.view seat.new.view s (record v { turn = Logged }) }
    ensures made { Made seat.old.view seat.new.view (Log s) (LogWord (length (knows seat.old.view s).seen + 1)) (16 * (knows seat.old.view s).number + s) }
{
    store_event(store, seat, s, Event::Log { session: s }, 0);
}

/// Stores the state word: committed at the time above the clock. Allowed once the log word is stored.
pub fn step_state(store: &Store, seat: &mut Seat, s: u32)
    requires seat { IsSeatOf store.now seat.old }
    requires host { hosts seat.old.view s ≡ true }
    requires own { s < seat.old.view.limits.sessions }
    requires enabled { Enabled seat.old.view.limits (knows seat.old.view s) (State s) }
    ensures seat { IsSeatOf store.now seat.new }
    ensures view { let v = knows seat.old.view s in Learns seat.old.view seat.new.view s (record v { turn = Stated }) }
    ensures made { Made seat.old.view seat.new.view (State s) (StateWord s (knows seat.old.view s).number) (length (knows seat.old.view s).seen + 2) }
{
    store_event(store, seat, s, Event::State { session: s }, 0);
}

/// Stores the clock, one higher: the transaction is committed. Allowed once the state word is stored.
pub fn step_clock(store: &Store, seat: &mut Seat, s: u32)
    requires seat { IsSeatOf store.now seat.old }
    requires host { hosts seat.old.view s ≡ true }
    requires own { s < seat.old.view.limits.sessions }
    requires enabled { Enabled seat.old.view.limits (knows seat.old.view s) (Clock s) }
    ensures seat { IsSeatOf store.now seat.new }
    ensures view { let v = knows seat.old.view s in Learns seat.old.view seat.new.view s (record v { is_open = false; turn = Done; own = []; seen = v.seen ++ commit s v.number v.begin v.own ∷ [] }) }
    ensures made { Made seat.old.view seat.new.view (Clock s) (ClockWord) (length (knows seat.old.view s).seen + 1) }
{
    store_event(store, seat, s, Event::Clock { session: s }, 0);
}

/// Gives the turn back. Allowed before the log word is stored, and once the clock is.
pub fn step_give(store: &Store, seat: &mut Seat, s: u32)
    requires seat { IsSeatOf store.now seat.old }
    requires host { hosts seat.old.view s ≡ true }
    requires own { s < seat.old.view.limits.sessions }
    requires enabled { Enabled seat.old.view.limits (knows seat.old.view s) (Give s) }
    ensures seat { IsSeatOf store.now seat.new }
    ensures view { let v = knows seat.old.view s in Learns seat.old.view seat.new.view s (record v { turn = Away }) }
    ensures made { Made seat.old.view seat.new.view (Give s) (CommitWord) (0) }
{
    store_event(store, seat, s, Event::Give { session: s }, 0);
}

/// Stores the state word of the open transaction: closed. Allowed with no latch and no turn.
pub fn step_close(store: &Store, seat: &mut Seat, s: u32)
    requires seat { IsSeatOf store.now seat.old }
    requires host { hosts seat.old.view s ≡ true }
    requires own { s < seat.old.view.limits.sessions }
    requires enabled { Enabled seat.old.view.limits (knows seat.old.view s) (Close s) }
    ensures seat { IsSeatOf store.now seat.new }
    ensures view { let v = knows seat.old.view s in Learns seat.old.view seat.new.view s (record v { is_open = false; own = [] }) }
    ensures made { Made seat.old.view seat.new.view (Close s) (StateWord s (knows seat.old.view s).number) (1) }
{
    store_event(store, seat, s, Event::Close { session: s }, 0);
}
