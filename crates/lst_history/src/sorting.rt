//! The writes of commits, put in order.
ghost use Rattle.std.specs.Prelude.{◌≡◌, map, OnOk};
ghost use Rattle.lst_history.specs.Commits.{in_order};

use lst_model::{Commit, OutOfMemory, Writes};
use std::alloc::Global;
use std::mem;

/// Puts the writes of each commit in order: by rising key, those of one key in the order that they had. It answers want of memory where a sort
/// finds none.
pub(crate) fn sort_all(alloc: Global, commits: &mut [Commit]) -> Result<(), OutOfMemory>
    ensures ok { OnOk result (commits.new ≡ map in_order commits.old) }
{
    for commit in commits.iter_mut() {
        sort(alloc, commit)?;
    }
    Ok(())
}

/// Puts the writes of a commit in order.
fn sort(alloc: Global, commit: &mut Commit) -> Result<(), OutOfMemory>
    ensures ok { OnOk result (commit.new ≡ in_order commit.old) }
{
    commit.writes = mem::replace(&mut commit.writes, Writes::new(alloc)).by_key()?;
    Ok(())
}
