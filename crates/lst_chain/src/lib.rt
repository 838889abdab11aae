//! Version chains: which version a begin time sees first, and what the visible versions leave in a column. No word of a store is touched.
#![tactic(auto)]

ghost use Rattle.std.specs.Prelude.{◌≡◌, ◌↔◌, ℕ, Option, IsNone, IfSome};
ghost use Rattle.std.specs.List.{All};
ghost use Rattle.lst_chain.specs.Chain.{column_value, IsFirstVisible};

mod laws;

pub use laws::{acts_in_order, column_laws, nullable_columns};

/// Whether a transaction with a given begin time sees a version.
#[derive(Clone, Copy, Debug, PartialEq, Eq)]
pub enum Seen {
    Visible,
    Hidden,
}

/// A version of a record.
pub trait Version {
    ghost use Rattle.lst_chain.specs.declared.Seen.{Seen};

    // What `status` answers.
    ghost status: { Self → ℕ → Seen };

    // What `explicit` answers.
    ghost explicit: { Self → ℕ → Option (Option ℕ) };

    /// Whether a transaction that began at the time `begin` sees this version.
    fn status(&self, begin: u64) -> Seen
        ensures { result ≡ status self.now begin };

    /// What this version holds in the column with number `column`: `Some(Some(value))` where it
    /// wrote a value there, `Some(None)` where it deleted the record, and `None` where it doesn't
    /// hold the column. A version with cells that may be null holds the number 0 for null, and the
    /// null flag of the column, 1 for null and 0 for a number, in column `column` + 8.
    fn explicit(&self, column: u32) -> Option<Option<u64>>
        ensures { result ≡ explicit self.now column };
}

/// The place, from 0, of the newest version of the chain that a transaction with the begin time
/// `begin` sees. `None` comes exactly where it sees no version.
pub fn first_visible<V: Version>(chain: &[V], begin: u64) -> Option<usize>
    ensures first { IfSome result (IsFirstVisible V.status begin chain.now) }
    ensures none { IsNone result ↔ All (λ v. V.status v begin ≡ Seen.Hidden) chain.now }
{
    chain
        .iter()
        .position(|version| version.status(begin) == Seen::Visible)
}

/// The value in the column with number `column`, as a transaction with the begin time `begin` sees
/// it. `None` comes exactly where the visible versions leave no value there.
///
/// It looks at the versions from the newest on, and at none below the first visible one that
/// holds the column.
pub fn column_at<V: Version>(chain: &[V], begin: u64, column: u32) -> Option<u64>
    ensures { result ≡ column_value V.status V.explicit begin column chain.now }
{
    for version in chain {
        if version.status(begin) == Seen::Visible {
            if let Some(held) = version.explicit(column) {
                return held;
            }
        }
    }
    None
}
