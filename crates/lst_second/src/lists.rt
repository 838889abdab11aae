//! Lists of records.
ghost use Rattle.std.specs.Prelude.{◌≡◌, map};
ghost use Rattle.std.specs.List.{Contains};
ghost use Rattle.std.specs.List.Sorted.{IsStrictlyIncreasing};
ghost use Rattle.lst_rule.specs.declared.records.RecordId.{RecordId};

use lst_rule::RecordId;
use std::marker::Model;

/// Records of one store.
#[derive(Drop)]
pub struct RecordList {
    items: Vec<RecordId>,
}

impl Model for RecordList {
    ghost use Rattle.std.specs.Prelude.{List};
    ghost use Rattle.lst_rule.specs.declared.records.RecordId.{RecordId};

    ghost Value = { List RecordId };

    ghost view = { λ r. r.items.items };
}

impl RecordList {
    /// The records of a vector, rising and without repeats.
    pub(crate) fn rising(items: Vec<RecordId>) -> RecordList
        ensures rises { IsStrictlyIncreasing (map (λ rec. rec.number) result) }
        ensures keeps { (rec : RecordId) → Contains items.items rec → Contains result rec }
        ensures adds_none { (rec : RecordId) → Contains result rec → Contains items.items rec }
    {
        let mut items = items;
        items.sort_unstable_by_key(|rec| rec.number);
        items.dedup();
        RecordList { items }
    }

    /// The records as a slice.
    pub fn as_slice(&self) -> &[RecordId]
        ensures { result.now ≡ self.now }
    {
        self.items.as_slice()
    }

    /// The vector of the records.
    pub fn into_vec(self) -> Vec<RecordId>
        ensures { result.items ≡ self }
    {
        self.items
    }
}
