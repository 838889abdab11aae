//! The pages that sessions have in hand.
ghost use Rattle.std.specs.Prelude.{◌≡◌, ◌<◌, ◌+◌, Some, None, length, replicate, slice_set, slice_index_or, IfOk};
ghost use Rattle.lst_core_pages.specs.Cells as spec;

use lst_model::OutOfMemory;
use lst_pages::PageEvent;
use std::alloc::Global;
use std::marker::Model;

/// A page, by its range and column.
#[derive(Clone, Copy, PartialEq, Eq, Debug)]
pub struct PageId {
    pub range: u32,
    pub column: u32,
}

/// What a session has in hand: for each frame the page that it was taken in hand as, if it is in hand.
#[derive(Drop)]
pub(crate) struct Hand {
    pages: Vec<Option<PageId>>,
}

impl Model for Hand {
    ghost use Rattle.std.specs.Prelude.{List, Option};
    ghost use Rattle.lst_core_pages.specs.declared.hands.PageId.{PageId};

    ghost Value = { List (Option PageId) };

    ghost view = { λ h. h.pages.items };
}

impl Hand {
    /// No frame of this many is in hand.
    pub(crate) fn new(alloc: Global, frames: usize) -> Result<Hand, OutOfMemory>
        ensures { IfOk result (λ hand. hand ≡ replicate frames None) }
    {
        Ok(Hand {
            pages: vec![in alloc; None; frames]?,
        })
    }

    /// The frame is in hand as this page.
    pub(crate) fn put(&mut self, frame: usize, page: PageId)
        requires { frame < length self.old }
        ensures { self.new ≡ slice_set self.old frame (Some page) }
    {
        self.pages[frame] = Some(page);
    }

    /// No frame is in hand any more.
    pub(crate) fn clear(&mut self)
        ensures { self.new ≡ replicate (length self.old) None }
    {
        self.pages.as_mut_slice().fill(None);
    }
}
