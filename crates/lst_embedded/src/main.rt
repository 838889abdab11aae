//! A bank in a program of one's own, on the calls of the store alone: sessions transfer amounts between accounts on threads while others add up all balances.
#![tactic(auto)]

mod audits;
mod bank;
mod transactions;

use std::io;

/// Runs the bank, and tells what its books say.
fn main(rt: HostRuntime) -> io::Result<()> {
    let Ok(books) = bank::run(&rt, rt.alloc()) else {
        return println!(rt; "the bank closed early");
    };
    println!(rt; "commits: {}", books.history.len())?;
    for audit in &books.audits {
        println!(rt; "an audit read {}", audit.total)?;
    }
    println!(rt; "in all: {}", books.total)
}
