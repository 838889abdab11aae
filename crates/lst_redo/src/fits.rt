//! The write that a call makes, which a record can hold, and what a reply leaves of the writes that are kept.
ghost use Rattle.std.specs.Prelude.{◌≡◌, ◌<◌, ℕ, [], length, get_or, set, IfSome};
ghost use Rattle.std.specs.List.{remove};
ghost use Rattle.lst_model.specs.Lines.{CallFits};
ghost use Rattle.lst_model.specs.declared.lines.Call.{Call as CallValue};
ghost use Rattle.lst_model.specs.declared.lines.Line.TheVariants.{Call as CallLine};
ghost use Rattle.lst_log.specs.Format.{IsWrite};
ghost use Rattle.lst_replies.specs.Runs as runs;
ghost use Rattle.lst_redo.specs.Owns.{lists_after};

use crate::own::OwnWrites;
use lst_log::has_place;
use lst_model::{Act, Call, Line, Reply, Write};
use std::alloc::Global;

/// The write that a call makes, if any, which a record of a table of so many columns can hold. It takes no memory.
pub(crate) fn write_of(call: &Call, columns: u32) -> Option<Write>
    requires { CallFits columns call.now }
    ensures is { result ≡ runs.write_of call.now }
    ensures fits { IfSome result (IsWrite columns) }
{
    let Some(write) = asked(call) else {
        return None;
    };
    has_place(write.key, &write.act, columns);
    Some(write)
}

/// The write that a call asks for.
fn asked(call: &Call) -> Option<Write>
    ensures { result ≡ runs.write_of call.now }
{
    match call {
        Call::Insert { key, row } => Some(Write {
            key: *key,
            act: Act::Put(row.copied()),
        }),
        Call::Update { key, patch } => Some(Write {
            key: *key,
            act: Act::Set(patch.copied()),
        }),
        Call::Delete { key } => Some(Write {
            key: *key,
            act: Act::Del,
        }),
        _ => None,
    }
}

/// Leaves the kept writes as they are once a line was answered that makes none: a session whose transaction begins has none.
pub(crate) fn follow(own: &mut OwnWrites, alloc: Global, line: &Line, answer: &Reply)
    requires { (s : ℕ) (call : CallValue) → line.now ≡ CallLine s call → s < length own.old }
    ensures { own.new ≡ lists_after line.now answer.now own.old }
{
    match line {
        Line::Call { session, .. } => match answer {
            Reply::Begun { .. } => own.clear(alloc, *session),
            _ => {}
        },
        _ => {}
    }
}

/// Takes a write that has joined a session's away again, unless it is done.
pub(crate) fn settle(own: &mut OwnWrites, alloc: Global, session: u32, place: usize, answer: &Reply)
    requires session { session < length own.old }
    requires place { place < length (get_or own.old session []) }
    ensures done { answer.now ≡ Reply.Done → own.new ≡ own.old }
    ensures refused { ¬ (answer.now ≡ Reply.Done) → own.new ≡ set own.old session (remove (get_or own.old session []) place) }
{
    match answer {
        Reply::Done => {}
        _ => own.part(alloc, session, place),
    }
}
