//! The laws. Each function is a law: its contract holds at all values, and its body does nothing.
ghost use Rattle.lst_refinement.specs.Laws.{CountsAreTold, KeysArePlaced, OthersAreUnplaced, OwnWritesAreTold, OpenMayFollow, SightsAreTold, ConflictsAreTold, OpeningIsTold, StampsTellNothing, OtherAreasTellNothing, TransactionsAreTold, BeginsAreTold, ClosesAreTold, CommitsAreTold, PlacesAreTold, WritesAreTold, OpeningPagesAreTold, PinsAndPagesAreTold, PinnedBeginsAreTold, PinnedEndsAreTold, OtherCallsLeavePages, SettledAreTold, HoldersAreTold, HoldingAllIsHolding, LowestHolderIsTold, NoHolderIsTold, NothingNewIsTold, NoFrameIsTold, SwapsAreTold, FoldedKeysNeedNoTail, FoldedTablesNeedNoTail, StampedNeedsNoTail};

/// What the machine says of the state that a crew's store tells is what the words and the sessions' knowledge say: the counts, the
/// places of keys, a transaction's own writes and what it sees, and what stands in the way of a write. An open transaction with own writes may be committed
/// behind the history: no commit after its begin has a write on a key of its own.
pub fn states_are_told()
    ensures counts { CountsAreTold }
    ensures placed { KeysArePlaced }
    ensures unplaced { OthersAreUnplaced }
    ensures own { OwnWritesAreTold }
    ensures follows { OpenMayFollow }
    ensures sights { SightsAreTold }
    ensures conflicts { ConflictsAreTold }
{}

/// An opening store tells the store part of the machine's opening state. Stamps change nothing of the part that is told, nor does any store in an area of
/// which nothing of it is told: the commit word, the epoch, the index, indirection words, the directory, frames, pins and postings. A begin, an end, a placed key and an
/// accepted write change it as the machine does.
pub fn changes_are_told()
    ensures opening { OpeningIsTold }
    ensures stamps { StampsTellNothing }
    ensures others { OtherAreasTellNothing }
    ensures transactions { TransactionsAreTold }
    ensures begins { BeginsAreTold }
    ensures closes { ClosesAreTold }
    ensures commits { CommitsAreTold }
    ensures places { PlacesAreTold }
    ensures writes { WritesAreTold }
{}

/// The page part of the machine is told of the pins, of the TPS of each page and of the epoch. An opening store tells that of the machine's opening
/// state. A begin that pins the epoch, an end that takes the pin away, and any other call, which leaves both, change it as the machine does.
pub fn pages_are_told()
    ensures opening { OpeningPagesAreTold }
    ensures same { PinsAndPagesAreTold }
    ensures begins { PinnedBeginsAreTold }
    ensures ends { PinnedEndsAreTold }
    ensures others { OtherCallsLeavePages }
{}

/// The machine's reply to a merge is what the words and the pins say, and a swap of the page changes the page part as the machine does: the settled
/// writes of a range are its settled tails, and a session's open transaction holds a frame exactly where its pin holds the oldest retired one.
pub fn merges_are_told()
    ensures settled { SettledAreTold }
    ensures holders { HoldersAreTold }
    ensures all { HoldingAllIsHolding }
    ensures lowest { LowestHolderIsTold }
    ensures nobody { NoHolderIsTold }
    ensures nothing_new { NothingNewIsTold }
    ensures no_frame { NoFrameIsTold }
    ensures swaps { SwapsAreTold }
{}

/// A read needs no tail record where the machine says that its writes are folded: each accepted write on the key, or on any key, stands in its range's list
/// at a place that the page of the column has folded, and was closed or committed at most at the time. The record's newest version then has a number of at
/// most the page's TPS, and its entry there is of the time or earlier. Stamps, which are all that a read stores, leave both.
pub fn merged_reads_need_no_tail()
    ensures key { FoldedKeysNeedNoTail }
    ensures table { FoldedTablesNeedNoTail }
    ensures stamps { StampedNeedsNoTail }
{}
