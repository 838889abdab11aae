//! The laws of the protocol. Each function is a law: its contract holds at all values, and its body does nothing.
ghost use Rattle.lst_core_state.specs.Laws.{HistoriesAreSound, ChainsAreSights, AbsentIsUnseen, VisibleIsSeen, ChainsAreHistory, AbsentIsUnwritten, PostingsHaveRoom, VersionsAreShown, PostingsAreTails, MarkedArePosted, EndsAreMarked, UnpostedMayBePosted, SeenMayGrow, MergerMayGrow, StepsAreSound};
ghost use Rattle.lst_core_state.specs.Reading.{DrawnAreChained, RunsGoOn, SeenIsOnChain, SeenMeansKnown, KnownStays, TailsTellChains};
ghost use Rattle.lst_core_state.specs.Runs.{EveryRunIsSound};

/// Every list of enabled events, from the opening state of a store with any limits, leads to a sound state.
pub fn every_run_is_sound()
    ensures { EveryRunIsSound }
{}

/// An enabled event leads from a sound state to a sound one. Publishing the clock appends one commit with the session's own
/// writes to the history, and every other step leaves it. A settled version keeps its writer, content and status, chains
/// grow at their heads alone, and facts stay.
pub fn steps_are_sound()
    ensures { StepsAreSound }
{}

/// In a sound state the decoded history is a sound one, in which no two overlapping commits wrote one key, and each key
/// that some commit wrote has a record in the index.
pub fn histories_are_sound()
    ensures { HistoriesAreSound }
{}

/// In a sound state the versions of a record's chain that a transaction sees are the acts on its key up to the begin, and
/// then its own; and where the chain is judged, so are the versions that aren't closed. A key that is in no position of
/// the index is in no transaction's sight.
pub fn chains_are_sights()
    ensures placed { ChainsAreSights }
    ensures absent { AbsentIsUnseen }
{}

/// Whether a version was committed by a transaction's begin can be read off what the session has seen, at any time.
pub fn visible_is_seen()
    ensures { VisibleIsSeen }
{}

/// In a sound state the acts on the key of a record in the index, up to any time by the clock, are those of its versions that
/// were committed by then. No commit wrote a key that is in no position of the index.
pub fn chains_are_history()
    ensures placed { ChainsAreHistory }
    ensures absent { AbsentIsUnwritten }
{}

/// In a sound state the postings of no column are full: each value's run comes to an empty position. The positions before it
/// show each version on a chain that holds the indexed column with this number, by a tail of its record with the value. Each
/// posting holds a stored tail that has the column with a number, on its record's chain or in hand. A column that a session has
/// marked as posted of its tail in hand is posted.
pub fn postings_are_complete()
    ensures room { PostingsHaveRoom }
    ensures shown { VersionsAreShown }
    ensures tails { PostingsAreTails }
    ensures marked { MarkedArePosted }
{}

/// A load of the position at which the run of a tail's number ends, with no posting of its record and number before it, marks the
/// column as found unposted. In a sound state the tail may then be posted at each position of the run whose positions before
/// are known to hold tails, until it is posted.
pub fn unposted_may_be_posted()
    ensures marked { EndsAreMarked }
    ensures enabled { UnpostedMayBePosted }
{}

/// A state stays sound where a session has seen more of the history and has more facts, and so it does for the merger.
pub fn seen_may_grow()
    ensures sessions { SeenMayGrow }
    ensures merger { MergerMayGrow }
{}

/// A tail that a transaction sees, stored, was on its record's chain in each earlier state in which the transaction was open already
/// and its session had no stored tail in hand: so its number had been drawn by then. Conversely a version on a chain stays
/// there, and is seen later exactly where it is seen now. Therefore those tails of a range that are seen, looked at by rising
/// number, each at a time of its own, are the seen versions of the chains as they were when the counter of the range was loaded.
/// Where nobody has a tail in hand, each tail that was drawn is on a chain.
/// A session's later states are those that it comes to by loads and stamps, whatever the others do.
pub fn seen_means_known()
    ensures runs { RunsGoOn }
    ensures chained { SeenIsOnChain }
    ensures known { SeenMeansKnown }
    ensures stays { KnownStays }
    ensures tails { TailsTellChains }
    ensures drawn { DrawnAreChained }
{}
