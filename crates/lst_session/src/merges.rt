//! Merges of a store's pages: of a crew's, and by the merger beside sessions.
ghost use Rattle.std.specs.Prelude.{◌≡◌, true};
ghost use Rattle.lst_pages.specs.Sound.{IsPage};
ghost use Rattle.lst_rule.specs.Rule.{hosts};
ghost use Rattle.lst_rule.specs.Spares.{AreSpares};
ghost use Rattle.lst_rule.specs.Stores.{IsSeatOf};
ghost use Rattle.lst_session.specs.Merges.{Merges};

use crate::crew::Crew;
use crate::kinds::Merge;
use crate::passes::Merger;
use lst_merge::{build, run_end, swap};
use lst_retire::free_frame;
use lst_rule::{Seat, Spares, Store};

/// Merges a page: the settled tails after its TPS, up to the first that isn't settled, are taken into a new page, which takes its place. The
/// TPS is the number of the last tail that a page has.
///
/// `Idle` comes exactly where the tail after the TPS isn't found to be settled. `NoFrame` comes where it is, and the pin of the session is
/// found to hold the oldest retired frame, which is the first that would be used again; no session before it holds that frame. Of the words of
/// the store only the page's directory word, the epoch and the words of one frame change, and these where the answer is `Merged`. The fold of tail
/// records into read-only base pages, put in place by a change of the page directory alone, is that of L-Store (EDBT 2018).
fn merge(store: &Store, seat: &mut Seat, spares: &mut Spares, range: u32, column: u32) -> Merge
    requires seat { IsSeatOf store.now seat.old }
    requires host { hosts seat.old.view seat.old.view.limits.sessions ≡ true }
    requires spares { AreSpares seat.old.view spares.old.items }
    requires page { IsPage seat.old.view.limits range column }
    ensures seat { IsSeatOf store.now seat.new }
    ensures hosted { seat.new.view.hosts ≡ seat.old.view.hosts }
    ensures spares { AreSpares seat.new.view spares.new.items }
    ensures merges { Merges seat.old.view seat.new.view range column result }
{
    seat.consider();
    let run = run_end(store, seat, range, column);
    if run.end == run.tps {
        return Merge::Idle { tps: run.tps };
    }
    match free_frame(store, seat, spares) {
        Err(held) => Merge::NoFrame {
            session: held.session,
        },
        Ok(frame) => {
            build(store, seat, frame, range, column, &run);
            swap(store, seat, spares, frame, range, column);
            Merge::Merged { tps: run.end }
        }
    }
}

impl Crew {
    ghost use Rattle.lst_model.specs.declared.lines.Line.TheVariants as line;
    ghost use Rattle.lst_session.specs.Crews.{IsCrewOf, TellsState, AnswersLine};
    ghost use Rattle.lst_session.specs.Replies.{merge_reply};

    /// Merges the page of a range and a column. Each answer says what it says of `Merger::merge`. Where the crew tells a state of the machine,
    /// the answer is the machine's, and the crew then tells the next one.
    pub fn merge(&mut self, store: &Store, range: u32, column: u32) -> Merge
        requires crew { IsCrewOf store.now self.old }
        requires page { IsPage self.old.seat.view.limits range column }
        ensures crew { IsCrewOf store.now self.new }
        ensures machine { TellsState self.old.seat.view → TellsState self.new.seat.view × AnswersLine self.old.seat.view self.new.seat.view (line.Merge range column) (merge_reply result) }
        ensures merges { Merges self.old.seat.view self.new.seat.view range column result }
    {
        self.seat.consider();
        merge(store, &mut self.seat, &mut self.spares, range, column)
    }
}

impl Merger {
    ghost use Rattle.lst_session.specs.Parting.{IsMergerOf};

    /// Merges the page of a range and a column: the settled tails after its TPS, which is the number of the last tail that it has, up to the first
    /// that isn't settled, are taken into a new page, which takes its place. `Idle` comes exactly where the tail after the TPS isn't found to be
    /// settled; `NoFrame` where it is, and the pin of the session is the first that is found to hold the oldest retired frame. Sessions may go on
    /// meanwhile.
    pub fn merge(&mut self, store: &Store, range: u32, column: u32) -> Merge
        requires merger { IsMergerOf store.now self.old }
        requires page { IsPage self.old.seat.view.limits range column }
        ensures merger { IsMergerOf store.now self.new }
        ensures merges { Merges self.old.seat.view self.new.seat.view range column result }
    {
        merge(store, &mut self.seat, &mut self.spares, range, column)
    }
}
