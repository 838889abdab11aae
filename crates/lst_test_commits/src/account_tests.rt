//! Transfers between two accounts.

use crate::checks::same;
use lst_accounts::Transfer;

/// What a payer and a payee have after a transfer of this amount.
fn after(payer: u64, payee: u64, amount: u64) -> Option<(u64, u64)> {
    let transfer = Transfer {
        from: 1,
        to: 2,
        amount,
    };
    transfer.balances(payer, payee)
}

#[test]
fn a_transfer_takes_and_gives(rt: HostRuntime) {
    same(&rt, after(10, 5, 3), Some((7, 8)), 3);
    same(&rt, after(10, 5, 10), Some((0, 15)), 10);
}

#[test]
fn a_transfer_is_refused(rt: HostRuntime) {
    same(&rt, after(10, 5, 11), None, 11);
    same(&rt, after(1, u64::MAX, 1), None, 1);
}
