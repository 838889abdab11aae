//! Sessions tell each other what they have seen.
ghost use Rattle.std.specs.Prelude.{◌≡◌, ◌<◌, All, length};
ghost use Rattle.lst_model.specs.Histories.{Extends};
ghost use Rattle.lst_rule.specs.Stores.{IsSeatOf};
ghost use Rattle.lst_seat.specs.Seats.{Tells, Hears};
ghost use Rattle.lst_session.specs.Parting.{IsPass, known_by, HearsMore, HearMore, HasHeardOf, HasHeard, IsNextPhase};
ghost use Rattle.lst_session.specs.Passes.{IsReady};

use crate::passes::Sessions;
use crate::session::Session;
use lst_rule::Store;
use lst_seat::{Note, hear, tell};

impl Session {
    /// A note, which another session may hear, also on another thread: it has all that this session has seen, and more where another session at the
    /// same seat has seen more. Nothing changes, and it takes no memory.
    pub fn tell(&mut self, store: &Store) -> Note
        requires pass { IsPass store.now self.old }
        ensures same { self.new ≡ self.old }
        ensures note { Tells store.now self.old.seat.view result.seat }
        ensures told { Extends result.seat.view.note (known_by self.old).seen }
    {
        tell(store, &mut self.seat)
    }

    /// Lets the session hear a note of the same store: afterwards all that the teller had seen is a front of what this session has seen, and
    /// so is all that it had seen itself. Beside that only its facts grow, and an open transaction sees what it saw.
    pub fn hear(&mut self, store: &Store, note: Note)
        requires pass { IsPass store.now self.old }
        requires note { IsSeatOf store.now note.seat }
        ensures more { HearsMore store.now self.old self.new }
        ensures heard { Extends (known_by self.new).seen note.seat.view.note }
        ensures hears { Hears self.old.seat.view self.new.seat.view note.seat.view }
        ensures ready { IsReady store.now self.old → IsReady store.now self.new }
    {
        hear(store, &mut self.seat, note);
    }
}

/// Lets the session at one place hear a note of the session at another.
fn hear_from(store: &Store, sessions: &mut [Session], hearer: usize, teller: usize)
    requires sessions { All (IsPass store.now) sessions.old }
    requires hearer { hearer < length sessions.old }
    requires teller { teller < length sessions.old }
    ensures more { HearMore store.now sessions.old sessions.new }
    ensures heard { HasHeardOf sessions.old sessions.new hearer teller }
{
    if teller == hearer {
        return;
    }
    let note = sessions[teller].tell(store);
    sessions[hearer].hear(store, note);
}

/// Lets the session at a place hear a note of each other one.
fn hear_each(store: &Store, sessions: &mut [Session], hearer: usize)
    requires sessions { All (IsPass store.now) sessions.old }
    requires hearer { hearer < length sessions.old }
    ensures more { HearMore store.now sessions.old sessions.new }
    ensures heard { HasHeard sessions.old sessions.new hearer (length sessions.old) }
{
    let mut teller = 0;
    while teller < sessions.len() {
        hear_from(store, sessions, hearer, teller);
        teller += 1;
    }
}

/// Lets each session hear a note of each other one.
fn hear_all(store: &Store, sessions: &mut [Session])
    requires sessions { All (IsPass store.now) sessions.old }
    ensures next { IsNextPhase store.now sessions.old sessions.new }
{
    let mut hearer = 0;
    while hearer < sessions.len() {
        hear_each(store, sessions, hearer);
        hearer += 1;
    }
}

/// Between two phases of work: lets each session hear a note of every other one, each note being heard before the next one is made. Afterwards
/// each session has seen all that any of them had seen, and has the facts of each whose seat hosts it alone. Its number, its pin, its open transaction with its begin, its kind and its own writes,
/// what it drew, latched and wrote, and what it found are as before. It takes no memory.
pub fn next_phase(store: &Store, sessions: &mut Sessions)
    requires sessions { All (IsPass store.now) sessions.old }
    ensures next { IsNextPhase store.now sessions.old sessions.new }
    ensures ready { All (IsReady store.now) sessions.old → All (IsReady store.now) sessions.new }
{
    hear_all(store, sessions.items.as_mut_slice());
}
