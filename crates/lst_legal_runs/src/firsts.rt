//! The first commits of a history by what they write, and by their names.
ghost use Rattle.std.specs.Prelude.{◌≡◌, ℕ, ◌==◌, length, IfOk, OnOk};
ghost use Rattle.std.specs.List.{list_any};
ghost use Rattle.lst_model.specs.declared.acts.Write.{Write as WriteTold};
ghost use Rattle.lst_replies.specs.Explained.{is_numbered};
ghost use Rattle.lst_legal_runs.specs.Marks.{number_at};
ghost use Rattle.lst_legal_runs.specs.Firsts.{AreFirstWrites, AreFirstNumbers, first_after};

use crate::marks::Marks;
use lst_model::{Commit, Key, OutOfMemory, Time, Write};
use std::alloc::Global;

/// By key: the time of the first commit with a write on it.
pub(crate) fn first_writes(alloc: Global, history: &[Commit]) -> Result<Marks, OutOfMemory>
    ensures { IfOk result (λ marks. AreFirstWrites marks history.now) }
{
    let mut marks = Marks::new(alloc);
    let mut time = 0;
    for commit in history {
        time += 1;
        mark_writes(&mut marks, time, commit.writes.items())?;
    }
    Ok(marks)
}

/// By session and number: the time of the first commit of this name, or 0 where there is none.
pub fn first_numbers(alloc: Global, history: &[Commit]) -> Result<Marks, OutOfMemory>
    ensures { IfOk result (λ marks. AreFirstNumbers marks history.now) }
{
    let mut marks = Marks::new(alloc);
    let mut time = 0;
    for commit in history {
        time += 1;
        mark_number(&mut marks, time, commit)?;
    }
    Ok(marks)
}

fn mark_writes(marks: &mut Marks, time: Time, writes: &[Write]) -> Result<(), OutOfMemory>
    ensures { OnOk result ((key : ℕ) → number_at marks.new key 0 0 ≡ first_after (list_any (λ (write : WriteTold). write.key == key) writes.now) (number_at marks.old key 0 0) time) }
{
    for write in writes {
        mark_key(marks, time, write.key)?;
    }
    Ok(())
}

fn mark_key(marks: &mut Marks, time: Time, key: Key) -> Result<(), OutOfMemory>
    ensures { OnOk result ((other : ℕ) → number_at marks.new other 0 0 ≡ first_after (key == other) (number_at marks.old other 0 0) time) }
{
    if marks.number(key, 0, 0) == 0 {
        marks.set(key, 0, 0, time)?;
    }
    Ok(())
}

fn mark_number(marks: &mut Marks, time: Time, commit: &Commit) -> Result<(), OutOfMemory>
    ensures { OnOk result ((session number : ℕ) → number_at marks.new session number 0 ≡ first_after (is_numbered session number commit.now) (number_at marks.old session number 0) time) }
{
    let session = u64::from(commit.session);
    let number = u64::from(commit.number);
    if marks.number(session, number, 0) == 0 {
        marks.set(session, number, 0, time)?;
    }
    Ok(())
}
