//! Reports of runs: the replies to the lines of a script, and the commits in the order of their times.
ghost use Rattle.std.specs.Prelude.{◌≡◌, ◌==◌, ℕ, List, Option, [], ◌∷◌, ◌++◌, length, OnOk, OnErr};

use lst_model::{OutOfMemory, Reply, Time};
use std::alloc::Global;
use std::marker::Model;

/// The replies of a report, in order, each with the session that it was given to, or None where it answers a merge. A
/// contract sees it as their list.
#[derive(Drop)]
pub struct Replies {
    items: Vec<(Option<u32>, Reply)>,
}

impl Model for Replies {
    ghost use Rattle.std.specs.Prelude.{List, Option, ℕ};
    ghost use Rattle.lst_model.specs.declared.replies.Reply.{Reply};

    ghost Value = { List (Option ℕ × Reply) };

    ghost view = { λ r. r.items.items };
}

impl Replies {
    /// No replies.
    pub fn new(alloc: Global) -> Replies
        ensures { result ≡ [] }
    {
        Replies {
            items: Vec::new(alloc),
        }
    }

    /// The list of these replies.
    pub fn from_items(items: Vec<(Option<u32>, Reply)>) -> Replies
        ensures { result ≡ items.items }
    {
        Replies { items }
    }

    /// The replies, which take no memory anew.
    pub fn into_items(self) -> Vec<(Option<u32>, Reply)>
        ensures { result.items ≡ self }
    {
        self.items
    }

    /// The replies, in order.
    pub fn items(&self) -> &[(Option<u32>, Reply)]
        ensures { result.now ≡ self.now }
    {
        self.items.as_slice()
    }

    /// The number of replies.
    pub fn len(&self) -> usize
        ensures { result ≡ length self.now }
    {
        self.items.len()
    }

    /// Whether there is none.
    pub fn is_empty(&self) -> bool
        ensures { result ≡ (length self.now == 0) }
    {
        self.items.is_empty()
    }

    /// Adds a reply at the end. For want of memory the list stays as it is.
    pub fn push(&mut self, session: Option<u32>, reply: Reply) -> Result<(), OutOfMemory>
        ensures ok { OnOk result (self.new ≡ self.old ++ (session, reply) ∷ []) }
        ensures err { OnErr result (self.new ≡ self.old) }
    {
        self.items.push((session, reply))?;
        Ok(())
    }
}

/// A commit without its writes: the session, the number that the transaction had there (1 and up), and the time at
/// which it began.
#[derive(Clone, Copy, Debug, PartialEq, Eq)]
pub struct Stamp {
    pub session: u32,
    pub number: u32,
    pub begin: Time,
}

/// The commits of a report in the order of their times: the first one's time is 1. A contract sees it as their list.
#[derive(Drop)]
pub struct Stamps {
    items: Vec<Stamp>,
}

impl Model for Stamps {
    ghost use Rattle.std.specs.Prelude.{List};
    ghost use Rattle.lst_replies.specs.declared.reports.Stamp.{Stamp};

    ghost Value = { List Stamp };

    ghost view = { λ s. s.items.items };
}

impl Stamps {
    /// No commits.
    pub fn new(alloc: Global) -> Stamps
        ensures { result ≡ [] }
    {
        Stamps {
            items: Vec::new(alloc),
        }
    }

    /// The list of these commits.
    pub fn from_items(items: Vec<Stamp>) -> Stamps
        ensures { result ≡ items.items }
    {
        Stamps { items }
    }

    /// The commits, which take no memory anew.
    pub fn into_items(self) -> Vec<Stamp>
        ensures { result.items ≡ self }
    {
        self.items
    }

    /// The commits, in the order of their times.
    pub fn items(&self) -> &[Stamp]
        ensures { result.now ≡ self.now }
    {
        self.items.as_slice()
    }

    /// The number of commits, which is the time of the last one.
    pub fn len(&self) -> usize
        ensures { result ≡ length self.now }
    {
        self.items.len()
    }

    /// Whether there is none.
    pub fn is_empty(&self) -> bool
        ensures { result ≡ (length self.now == 0) }
    {
        self.items.is_empty()
    }

    /// Adds a commit at the next time. For want of memory the list stays as it is.
    pub fn push(&mut self, stamp: Stamp) -> Result<(), OutOfMemory>
        ensures ok { OnOk result (self.new ≡ self.old ++ stamp ∷ []) }
        ensures err { OnErr result (self.new ≡ self.old) }
    {
        self.items.push(stamp)?;
        Ok(())
    }
}

/// What is told of a run: the replies to the lines of its script but those that end a phase, in the order of the lines,
/// and the commits in the order of their times.
#[derive(Drop)]
pub struct Report {
    pub replies: Replies,
    pub history: Stamps,
}
