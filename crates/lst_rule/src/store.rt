//! A store: its table and its layout.
ghost use Rattle.std.specs.Prelude.{◌≡◌};
ghost use Rattle.lst_layout.specs.Areas.{words_of};

use crate::{StoreRule, View};
use atomic_table::Table;
use lst_layout::{Layout, Limits};
use std::alloc::Global;

/// The words of a store, in one table that threads share.
#[derive(Drop)]
pub struct Store {
    pub(crate) table: Table<(), View, Limits, StoreRule, Global>,
    pub(crate) layout: Layout,
    ghost wide: { table.shared.table_id.words ≡ words_of layout.limits },
    ghost keyed: { table.shared.key ≡ layout.limits },
}

impl Store {
    /// The store's layout.
    pub fn layout(&self) -> &Layout
        ensures { result.now ≡ self.now.layout }
    {
        &self.layout
    }
}
