//! The laws. Each function is a law: its contract holds at all values, and its body does nothing.
ghost use Rattle.lst_accounts.specs.Books.{EachSumIsPaidIn, EntriesLast, EntriesJoin};

/// In a sound history whose commits each open an account or make a transfer, the sum of all balances as of each time is what the commits up to that time
/// paid in. So the final table's is what was paid in at all.
pub fn every_sum_is_what_was_paid_in()
    ensures { EachSumIsPaidIn }
{}

/// The entries of a history are entries of each history that goes on from it, and two lists of them are one list of them. So a session that keeps its own commits entries
/// of what it has seen may see more.
pub fn entries_last()
    ensures last { EntriesLast }
    ensures join { EntriesJoin }
{}
