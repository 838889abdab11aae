//! The commits of the store.
use crate::crew::Crew;
use lst_history::{history, history_without_writes};
use lst_model::{History, OutOfMemory};
use lst_rule::Store;
use std::alloc::Global;

impl Crew {
    ghost use Rattle.std.specs.Prelude.{◌≡◌, true, IfOk, map};
    ghost use Rattle.lst_history.specs.Commits.{without_writes};
    ghost use Rattle.lst_session.specs.Crews.{IsCrewOf, TellsState, TakesStock, IsHistoryOfAll, store_told, state_told};

    /// The history of the store: each commit at its time, with its writes by key. The seat first takes stock of all words, and knows each
    /// afterwards. The history is read off their log and tail records by session 0, which only looks. Where the seat knew each word before,
    /// it tells the same state of the machine afterwards, also where memory is wanting.
    pub fn history(&mut self, alloc: Global, store: &Store) -> Result<History, OutOfMemory>
        requires crew { IsCrewOf store.now self.old }
        ensures crew { IsCrewOf store.now self.new }
        ensures whole { self.new.seat.view.whole ≡ true }
        ensures ok { IfOk result (λ all. all ≡ (store_told self.new.seat.view).history) }
        ensures all { IfOk result (λ all. IsHistoryOfAll self.old.seat.view all) }
        ensures session { TakesStock self.old.seat.view self.new.seat.view 0 }
        ensures told { self.old.seat.view.whole ≡ true → state_told self.new.seat.view ≡ state_told self.old.seat.view }
        ensures tells { TellsState self.old.seat.view → TellsState self.new.seat.view }
    {
        self.seat.consider();
        history(alloc, store, &mut self.seat, 0)
    }

    /// The commits of the store, each at its time without its writes. The seat first takes stock of all words, and session 0 only looks, as for
    /// `history`; no tail record is read.
    pub fn commits(&mut self, alloc: Global, store: &Store) -> Result<History, OutOfMemory>
        requires crew { IsCrewOf store.now self.old }
        ensures crew { IsCrewOf store.now self.new }
        ensures whole { self.new.seat.view.whole ≡ true }
        ensures ok { IfOk result (λ all. all ≡ map without_writes (store_told self.new.seat.view).history) }
        ensures all { IfOk result (λ _. IsHistoryOfAll self.old.seat.view (store_told self.new.seat.view).history) }
        ensures session { TakesStock self.old.seat.view self.new.seat.view 0 }
        ensures told { self.old.seat.view.whole ≡ true → state_told self.new.seat.view ≡ state_told self.old.seat.view }
        ensures tells { TellsState self.old.seat.view → TellsState self.new.seat.view }
    {
        self.seat.consider();
        history_without_writes(alloc, store, &mut self.seat, 0)
    }
}
