//! A queue of replies.
ghost use Rattle.std.specs.Prelude.{◌≡◌, [], ◌∷◌, ◌++◌, MatchOption, OnOk, OnErr};

use crate::kinds::{Kind, keep, told, width};
use lst_model::{OutOfMemory, Reply};
use std::alloc::Global;
use std::collections::VecDeque;
use std::marker::Model;

/// Replies in a queue. A contract sees it as their list, the first one first.
#[derive(Drop)]
pub struct ReplyQueue {
    kinds: VecDeque<Kind>,
    numbers: Vec<u64>,
    /// How many of the numbers are those of replies that were taken.
    taken: usize,
    /// The replies that are kept whole.
    others: VecDeque<Reply>,
}

impl Model for ReplyQueue {
    ghost use Rattle.std.specs.Prelude.{List, ◌≤◌, length, drop};
    ghost use Rattle.lst_model.specs.declared.replies.Reply.{Reply};

    ghost Value = { List Reply };

    ghost use Rattle.lst_reply_queue.specs.Kinds.{all_told, AreKept};

    ghost view = { λ q. all_told q.kinds.items (drop q.taken q.numbers.items) q.others.items };

    ghost invariant = { λ q. (q.taken ≤ length q.numbers.items) × AreKept q.kinds.items (drop q.taken q.numbers.items) q.others.items };
}

impl ReplyQueue {
    /// No replies. It takes no memory.
    pub fn new(alloc: Global) -> ReplyQueue
        ensures { result ≡ [] }
    {
        ReplyQueue {
            kinds: VecDeque::new(alloc),
            numbers: Vec::new(alloc),
            taken: 0,
            others: VecDeque::new(alloc),
        }
    }

    /// Adds a reply at the end. The only error is want of memory, and the queue stays as it is then.
    pub fn push(&mut self, reply: Reply) -> Result<(), OutOfMemory>
        ensures ok { OnOk result (self.new ≡ self.old ++ reply ∷ []) }
        ensures err { OnErr result (self.new ≡ self.old) }
    {
        self.kinds.reserve(1)?;
        let kind = keep(reply, &mut self.numbers, &mut self.others)?;
        let Ok(()) = self.kinds.push_back(kind) else {
            unreachable!()
        };
        Ok(())
    }

    /// Takes the first reply away, or answers None where there is none.
    pub fn pop(&mut self) -> Option<Reply>
        ensures { MatchOption result ((self.old ≡ []) × (self.new ≡ [])) (λ reply. self.old ≡ reply ∷ self.new) }
    {
        let kind = self.kinds.pop_front()?;
        let end = self.taken + width(kind);
        let reply = told(kind, &self.numbers[self.taken..end]);
        self.taken = end;
        if reply.is_some() {
            return reply;
        }
        self.others.pop_front()
    }
}
