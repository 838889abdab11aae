//! The rows of accounts.
ghost use Rattle.std.specs.Prelude.{◌≡◌, ℕ, IfSome, IfNone};
ghost use Rattle.lst_model.specs.Lines.{IsPatch};
ghost use Rattle.lst_accounts.specs.Books.{account, new_balance};

use arrayvec::ArrayVec;
use lst_model::{Patch, Row};

/// The row of an account with this balance.
pub fn account(balance: u64) -> Row
    ensures { result ≡ account balance }
{
    let mut cells = ArrayVec::new();
    cells.push(balance);
    Row::of_numbers(cells)
}

/// The patch that gives an account this balance.
pub fn new_balance(balance: u64) -> Patch
    ensures is { result ≡ new_balance balance }
    ensures patch { IsPatch 1 result }
{
    let mut cells = ArrayVec::new();
    cells.push(Some(balance));
    Patch::of_numbers(cells)
}

/// The balance of an account's row. None comes exactly where the row isn't one cell with a number.
pub fn balance_in(row: &Row) -> Option<u64>
    ensures some { IfSome result (λ balance. row.now ≡ account balance) }
    ensures none { IfNone result ((balance : ℕ) → ¬ (row.now ≡ account balance)) }
{
    if row.len() != 1 {
        return None;
    }
    row.get(0)
}
