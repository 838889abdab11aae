//! The oldest retired frame, free or held.
ghost use Rattle.std.specs.Prelude.{◌≡◌, true, IfNone, IfSome, IfOk, IfErr, None};
ghost use Rattle.lst_rule.specs.Rule.{hosts};
ghost use Rattle.lst_rule.specs.PageSteps.{stock_of};
ghost use Rattle.lst_rule.specs.Stores.{IsSeatOf};
ghost use Rattle.lst_rule.specs.Spares.{AreSpares};
ghost use Rattle.lst_retire.specs.Frames.{NoPinHolds, FirstPinHolds, FindsFree, FindsHeld};

use lst_pages::lets_go;
use lst_rule::{Seat, Spares, Store, step_look_pin};

/// A session's pin holds the oldest retired frame.
#[derive(Clone, Copy, PartialEq, Eq, Debug)]
pub struct Held {
    pub session: u32,
}

/// Looks at the pins of all sessions in order, up to the first that holds a frame that was retired at this epoch, and answers its session.
pub fn first_holder(store: &Store, seat: &mut Seat, epoch: u64) -> Option<u32>
    requires seat { IsSeatOf store.now seat.old }
    requires host { hosts seat.old.view seat.old.view.limits.sessions ≡ true }
    requires idle { (stock_of seat.old.view).waiting ≡ None }
    ensures seat { IsSeatOf store.now seat.new }
    ensures none { IfNone result (NoPinHolds seat.old.view seat.new.view epoch seat.old.view.limits.sessions) }
    ensures some { IfSome result (λ s. FirstPinHolds seat.old.view seat.new.view epoch s) }
{
    let sessions = store.layout().limits.sessions;
    let mut session = 0;
    while session < sessions {
        let pin = step_look_pin(store, seat, session);
        if !lets_go(pin, epoch) {
            return Some(session);
        }
        session += 1;
    }
    None
}

/// Finds the oldest retired frame free to be built in, and answers it; it stays the first of the spares. Each session's pin is looked at in
/// this call, in order, and each is found empty, or at an epoch not below the frame's retirement. The first pin that is found set below it
/// holds the frame: its session is answered in Held.
///
/// No word of the store changes.
pub fn free_frame(store: &Store, seat: &mut Seat, spares: &mut Spares) -> Result<u32, Held>
    requires seat { IsSeatOf store.now seat.old }
    requires host { hosts seat.old.view seat.old.view.limits.sessions ≡ true }
    requires spares { AreSpares seat.old.view spares.old.items }
    ensures seat { IsSeatOf store.now seat.new }
    ensures hosted { seat.new.view.hosts ≡ seat.old.view.hosts }
    ensures spares { spares.new ≡ spares.old }
    ensures still { AreSpares seat.new.view spares.new.items }
    ensures ok { IfOk result (λ frame. FindsFree seat.old.view seat.new.view frame) }
    ensures held { IfErr result (λ held. FindsHeld seat.old.view seat.new.view held.session) }
{
    seat.consider();
    let Some(oldest) = spares.first().copied() else {
        unreachable!()
    };
    match first_holder(store, seat, oldest.epoch) {
        None => {
            seat.consider();
            Ok(oldest.frame)
        }
        Some(session) => Err(Held { session }),
    }
}
