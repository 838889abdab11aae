//! Reads of all rows at the serializable level, and what sessions tell each other.
ghost use Rattle.std.specs.Prelude.{◌≡◌, true, IfOk, OnOk, OnErr, false};
ghost use Rattle.lst_model.specs.Histories.{Extends};
ghost use Rattle.lst_rule.specs.Rule.{knows};
ghost use Rattle.lst_rule.specs.Stores.{IsSeatOf};
ghost use Rattle.lst_rule.specs.Watching.{Watched};
ghost use Rattle.lst_seat.specs.Seats.{Tells, Hears};
ghost use Rattle.lst_session.specs.Parting.{IsPass, known_by, HearsMore};
ghost use Rattle.lst_session.specs.Passes.{IsReady};

use crate::serial::Serial;
use lst_rule::Store;
use lst_session::{NotBegun, Note, Reads};

impl Serial {
    /// Reads by a reader of the open transaction as `Session::read` does. Then all keys count as read, whatever is answered: also where what is handed in looks at
    /// a few rows, or at none, or is itself refused. It is refused exactly where none is open, and nothing has changed then. No other call lends the seat.
    pub fn read<F: Reads + Drop>(&mut self, store: &Store, reads: F) -> Result<F::Answer, NotBegun>
        requires ready { IsReady store.now self.old.session }
        requires can { F.can_read reads store.now }
        ensures ready { IsReady store.now self.new.session }
        ensures number { self.new.session.number ≡ self.old.session.number }
        ensures ok { IfOk result (λ answer. ((knows self.old.session.seat.view self.old.session.number).is_open ≡ true) × Watched self.old.session.seat.view self.new.session.seat.view self.old.session.number × F.answers reads self.old.session.seat.view self.new.session.seat.view self.old.session.number answer) }
        ensures all { OnOk result (self.new.all ≡ true) }
        ensures keys { self.new.keys ≡ self.old.keys }
        ensures err { OnErr result (((knows self.old.session.seat.view self.old.session.number).is_open ≡ false) × (self.new ≡ self.old)) }
    {
        match self.session.read(store, reads) {
            Ok(answer) => {
                self.all = true;
                Ok(answer)
            }
            Err(refusal) => Err(refusal),
        }
    }

    /// A note, which another session may hear, as `Session::tell` makes one. Nothing changes.
    pub fn tell(&mut self, store: &Store) -> Note
        requires pass { IsPass store.now self.old.session }
        ensures same { self.new ≡ self.old }
        ensures note { Tells store.now self.old.session.seat.view result.seat }
        ensures told { Extends result.seat.view.note (known_by self.old.session).seen }
    {
        self.session.tell(store)
    }

    /// Lets the session hear a note of the same store, as `Session::hear` does. The read set stays.
    pub fn hear(&mut self, store: &Store, note: Note)
        requires pass { IsPass store.now self.old.session }
        requires note { IsSeatOf store.now note.seat }
        ensures more { HearsMore store.now self.old.session self.new.session }
        ensures heard { Extends (known_by self.new.session).seen note.seat.view.note }
        ensures hears { Hears self.old.session.seat.view self.new.session.seat.view note.seat.view }
        ensures ready { IsReady store.now self.old.session → IsReady store.now self.new.session }
        ensures keys { self.new.keys ≡ self.old.keys }
        ensures all { self.new.all ≡ self.old.all }
    {
        self.session.hear(store, note);
    }
}
