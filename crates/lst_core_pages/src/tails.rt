//! The settled tails of a range.
ghost use Rattle.std.specs.Prelude.{◌≡◌, [], ◌∷◌, ◌++◌, OnOk, OnErr};

use lst_model::OutOfMemory;
use lst_pages::PageTail;
use std::alloc::Global;
use std::marker::Model;

/// The settled tails of a range, oldest first.
#[derive(Drop)]
pub(crate) struct TailList {
    items: Vec<PageTail>,
}

impl Model for TailList {
    ghost use Rattle.std.specs.Prelude.{List};
    ghost use Rattle.lst_pages.specs.declared.tails.PageTail.{PageTail};

    ghost Value = { List PageTail };

    ghost view = { λ t. t.items.items };
}

impl TailList {
    /// No tails.
    pub(crate) fn new(alloc: Global) -> TailList
        ensures { result ≡ [] }
    {
        TailList {
            items: Vec::new(alloc),
        }
    }

    /// The tails, oldest first.
    pub(crate) fn items(&self) -> &[PageTail]
        ensures { result.now ≡ self.now }
    {
        self.items.as_slice()
    }

    /// Adds a tail. For want of memory the list stays as it is.
    pub(crate) fn push(&mut self, tail: PageTail) -> Result<(), OutOfMemory>
        ensures ok { OnOk result (self.new ≡ self.old ++ tail ∷ []) }
        ensures err { OnErr result (self.new ≡ self.old) }
    {
        self.items.push(tail)?;
        Ok(())
    }
}
