//! The laws. Each function is a law: its contract holds at all values, and its body does nothing.
ghost use Rattle.lst_rule.specs.Laws.{RangesAreFound, CountersWatch, LoadsFindChains, LatchesFindChains, ChainsAreWalked, CopiesStay, SeenIsByName, SightsStay, SightsFit, StatesTell, StatusesTell, StartsAreFound, TailsAreFound, WordsAreFound, StatesAreFound, UnfinishedIsAbout, LooksWatch, PagesWatch, StampsWatch, WatchesJoin, WatchersKeepPins, WatchersKeep, ClosedArePassed, JudgedMayDraw, CommittedWrote, CommittedMayBeStamped};

/// A load of a record's indirection word, and a latch, leave a copy of the record's whole chain in the facts. What the open
/// transaction sees of the copy is its sight of the record's key. The copy is walked by numbers: the word loaded names the
/// first version, each back word the next, and 0 none. With more facts it stays a copy.
pub fn chains_are_copied()
    ensures loads { LoadsFindChains }
    ensures latches { LatchesFindChains }
    ensures ranges { RangesAreFound }
    ensures walked { ChainsAreWalked }
    ensures stay { CopiesStay }
{}

/// A transaction sees a version exactly where it is its own, or where the commits seen up to its begin name the version's
/// transaction. So what it sees of a copy stays, whatever happens to the words. Each act of
/// a sight fits the row that those before it make.
pub fn versions_are_seen()
    ensures named { SeenIsByName }
    ensures stay { SightsStay }
    ensures fit { SightsFit }
{}

/// A state word, a stamp or a find of an unfinished version, whenever it was found, decides whether a transaction was committed
/// by the begin.
pub fn statuses_tell()
    ensures states { StatesTell }
    ensures found { StatusesTell }
{}

/// Loads of the words of a copied version find what the copy has. The start word names its transaction or its commit time;
/// where it isn't 0, the tail is a version.
/// A find that it is unfinished is about its record.
pub fn words_are_found()
    ensures starts { StartsAreFound }
    ensures tails { TailsAreFound }
    ensures words { WordsAreFound }
    ensures states { StatesAreFound }
    ensures about { UnfinishedIsAbout }
{}

/// A session that only looks at versions, statuses, the clock and pages, and stamps, knows more facts, finds and commits after it, may have
/// more pages in hand, and knows else what it knew: it sees the same, its own commits are those of before, it has its pin and has set none. A view that knows every word knows the same words then, but that
/// start words of stored versions may be stamped; each version keeps its transaction.
pub fn watchers_keep()
    ensures looks { LooksWatch }
    ensures counters { CountersWatch }
    ensures pages { PagesWatch }
    ensures stamps { StampsWatch }
    ensures joins { WatchesJoin }
    ensures pins { WatchersKeepPins }
    ensures keep { WatchersKeep }
{}

/// With the latch in hand, a tail may be drawn once each version of the chain down to one that is seen, or to its end, is
/// known to be closed. A version with a commit time that was seen is in the history seen, at that time, by a commit that wrote the
/// record's key; and it may be stamped with that time.
pub fn writers_are_judged()
    ensures passed { ClosedArePassed }
    ensures draws { JudgedMayDraw }
    ensures wrote { CommittedWrote }
    ensures stamps { CommittedMayBeStamped }
{}
