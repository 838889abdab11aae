//! A transfer from one account to another.
ghost use Rattle.std.specs.Prelude.{◌≡◌, ◌⊎◌, ◌+◌, ◌<◌, ◌≤◌, ◌^◌, MatchOption};
ghost use Rattle.lst_accounts.specs.Books.{IsPaid};

use lst_model::Key;

/// An amount that goes from the account of one key to that of another.
#[derive(Clone, Copy, PartialEq, Eq, Debug)]
pub struct Transfer {
    pub from: Key,
    pub to: Key,
    pub amount: u64,
}

impl Transfer {
    /// What the payer and the payee have after the transfer, from what they have before it. None comes exactly where the payer has less than
    /// the amount, or the payee would have 2^64 or more.
    pub fn balances(&self, payer: u64, payee: u64) -> Option<(u64, u64)>
        ensures { MatchOption result ((payer < self.now.amount) ⊎ (2 ^ 64 ≤ payee + self.now.amount)) (λ both. IsPaid self.now payer payee both.0 both.1) }
    {
        let paid = payer.checked_sub(self.amount)?;
        let received = payee.checked_add(self.amount)?;
        Some((paid, received))
    }
}
