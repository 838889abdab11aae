//! Writes in the order of a commit.
ghost use Rattle.std.specs.Prelude.{◌≡◌, IfOk};
ghost use Rattle.lst_model.specs.Histories as histories;

use crate::acts::Writes;
use crate::memory::OutOfMemory;

impl Writes {
    /// The writes by rising key, those of one key in the order that they had. It answers want of memory where the sort finds none.
    pub fn by_key(self) -> Result<Writes, OutOfMemory>
        ensures { IfOk result (λ sorted. sorted ≡ histories.by_key self) }
    {
        let mut items = self.into_items();
        items.sort_by_key(|write| write.key)?;
        Ok(Writes::from_items(items))
    }
}
