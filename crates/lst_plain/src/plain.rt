//! The engine as it is used.
ghost use Rattle.lst_plain.specs.Lineages.{IsWide};
ghost use Rattle.lst_plain.specs.LineageOf.{lineage_of};

use crate::engine::Engine;
use crate::lineage::Lineage;
use lst_layout::Layout;
use lst_model::{Line, OutOfMemory, Reply};
use std::alloc::Global;

/// An engine on one thread that keeps the rows of each key as a list of versions, and of each page its TPS alone.
#[derive(Drop)]
pub struct Plain {
    pub(crate) engine: Engine,
    pub(crate) lineage: Lineage,
    ghost wide: { IsWide engine.limits (lineage_of lineage) },
}

impl Plain {
    ghost use Rattle.std.specs.Prelude.{◌≡◌, IfOk, OnErr};
    ghost use Rattle.lst_layout.specs.declared.limits.Limits.{Limits};
    ghost use Rattle.lst_model.specs.Lines.{LineFits};
    ghost use Rattle.lst_machine.specs.State.{State, opening};
    ghost use Rattle.lst_plain.specs.Plains.{limits_of, Tells, AnswersLine};

    /// An engine for stores of this layout, without commits, keys or open transactions, and with empty pages.
    pub fn new(alloc: Global, layout: &Layout) -> Result<Plain, OutOfMemory>
        ensures limits { IfOk result (λ plain. limits_of plain ≡ layout.now.limits) }
        ensures opening { IfOk result (λ plain. Tells plain layout.now.limits opening) }
    {
        let engine = Engine::new(alloc, layout)?;
        let lineage = Lineage::new(alloc, &layout.limits)?;
        Ok(Plain { engine, lineage })
    }

    /// The answer to a line, which is the machine's for each state of it that the engine told; the engine then tells the
    /// next one. For want of memory it tells what it told before.
    pub fn line(&mut self, line: &Line) -> Result<Reply, OutOfMemory>
        requires { LineFits (limits_of self.old).sessions (limits_of self.old).ranges (limits_of self.old).columns line.now }
        ensures limits { limits_of self.new ≡ limits_of self.old }
        ensures ok { IfOk result (λ reply. AnswersLine self.old self.new line.now reply) }
        ensures err { OnErr result ((limits : Limits) (state : State) → Tells self.old limits state → Tells self.new limits state) }
    {
        match line {
            Line::Phase => Ok(Reply::Silent),
            Line::Call { session, call } => self.call(*session, call),
            Line::Merge { range, column } => Ok(self.merge(*range, *column)),
        }
    }
}
