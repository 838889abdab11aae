//! The machine of one thread: what a script is answered, line by line, and the state that each line leaves.
#![tactic(auto)]

mod answers;
mod calls;
mod machine;
mod merges;
mod parts;
mod sight;
mod views;
mod writes;

ghost use Rattle.std.specs.Prelude.{◌≡◌, List};
ghost use Rattle.lst_layout.specs.declared.limits.Limits.{Limits};
ghost use Rattle.lst_model.specs.declared.lines.Line.{Line};
ghost use Rattle.lst_machine.specs.State.{State};
ghost use Rattle.lst_machine.specs.Machine.{replies};
ghost use Rattle.lst_machine.specs.Others.{without_merges, other_replies};
ghost use Rattle.lst_machine.specs.Orders.{OrderIsForgotten};
ghost use Rattle.lst_machine.specs.Histories.{MachineIsSound};

pub use answers::{Transaction, answer_from_rows, lacks_index, list_row, refused, row_misfit};
pub use machine::Machine;

/// With the merge lines taken out of a script, exactly the replies to those lines are lost: two states with one store part
/// answer all other lines alike, whatever their page parts are. The contract is a law; the body does nothing.
pub fn merges_change_no_other_reply()
    ensures { (limits : Limits) (one other : State) (lines : List Line) → one.store ≡ other.store
        → other_replies lines (replies limits one lines) ≡ replies limits other (without_merges lines) }
{}

/// A transaction that has ended leaves nothing of when it began: after any script that leaves a session without an open one, the machine comes
/// to one state whether a merge comes before the session's next transaction, aborted at once, or after it. The contract is a law; the body does
/// nothing.
pub fn an_ended_begin_is_forgotten()
    ensures { OrderIsForgotten }
{}

/// After any script the machine's history is sound: each commit began before its time, no commit after its begin wrote one of its keys, its
/// number is above those of its session before it, and each of its writes fits what it saw. The contract is a law; the body does nothing.
pub fn every_history_is_sound()
    ensures { MachineIsSound }
{}
