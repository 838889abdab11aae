//! Laws of counting and of runs. The functions do nothing.

ghost use Rattle.lst_probe.specs.Counting.{Pigeonhole, DistinctWithin, DistinctAreFew, CoveringIsLong, OwnersAreMany, FewerLeaveEmpty, EntriesLeaveEmpty, RunsEnd};
ghost use Rattle.lst_probe.specs.Run.{RunsAreInside, RunsAreApart, RunsCover, AbsentFromRun, ReachableStays};
ghost use Rattle.lst_probe.specs.Found.{HasOneAnswer};

/// The pigeonhole principle, for functions and for lists: different numbers below a limit are at
/// most as many as the limit, and what covers the numbers below a limit is at least as long.
pub fn pigeonhole()
    ensures function { Pigeonhole }
    ensures distinct { DistinctAreFew }
    ensures covering { CoveringIsLong }
    ensures owners { OwnersAreMany }
{}

/// The pigeonhole principle for lists of any items: a list without repeats is no longer than one in
/// which all its items stand.
pub fn distinct_within<X>()
    ensures { DistinctWithin X }
{}

/// Fewer entries than positions leave an empty position, and then each run comes to one.
pub fn empty_position()
    ensures counted { FewerLeaveEmpty }
    ensures entries { EntriesLeaveEmpty }
    ensures run { RunsEnd }
{}

/// A run goes once through all positions of a table.
pub fn run_positions()
    ensures inside { RunsAreInside }
    ensures apart { RunsAreApart }
    ensures covers { RunsCover }
{}

/// A value of which no run has an equal one before its first empty position stands nowhere, as long
/// as each filled position is reachable from the start of its own run; and a position that is
/// reachable stays so while filled positions stay filled.
pub fn reachable_positions()
    ensures absent { AbsentFromRun }
    ensures stays { ReachableStays }
{}

/// What a probe may answer is one answer, where each word is the same or isn't.
pub fn one_answer()
    ensures { HasOneAnswer }
{}
