//! Writes that come into commits.
ghost use Rattle.std.specs.Prelude.{◌≡◌, ◌-◌, ◌<◌, ◌≤◌, length, OnOk};
ghost use Rattle.lst_history.specs.Commits.{with_write, entered};

use lst_model::{Commit, OutOfMemory, Write};

/// Puts a write behind the others of the commit at a time, from 1 on. It answers want of memory where the commit finds none.
pub(crate) fn enter(commits: &mut Vec<Commit>, time: u64, write: Write) -> Result<(), OutOfMemory>
    requires time { (0 < time) × (time ≤ length commits.old.items) }
    ensures ok { OnOk result (commits.new.items ≡ entered commits.old.items (time - 1) write) }
{
    add(&mut commits[time as usize - 1], write)
}

/// Puts a write behind the others of a commit.
fn add(commit: &mut Commit, write: Write) -> Result<(), OutOfMemory>
    ensures ok { OnOk result (commit.new ≡ with_write commit.old write) }
{
    commit.writes.push(write)
}
