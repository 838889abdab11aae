//! The laws. Each function is a law: its contract holds at all values, and its body does nothing.
ghost use Rattle.lst_replay_laws.specs.Laws.{OpeningRests, BeginsAgain, WritesAgain, CommitsAgain, RestsAgain, RestedHasRoom, RoomMeetsNone, AgainIsSame};
ghost use Rattle.lst_replay_laws.specs.Runs.{RecoveredRests, RoomRunsAgain, FullIsOne, FullIsNotRun, RoomGrows, SameTables, AgainAreSame, NumberedAreSame, SameHaveWrites, SameGrows, SameHaveRoom, AgainIsCounted};
ghost use Rattle.lst_replay_laws.specs.Counts.{OpeningIsCounted, CallsAreCounted, CountedHasRoom};
ghost use Rattle.lst_replay_laws.specs.Puts.{PutsAreCommitted};

use lst_snapshots::replayed_commit_may_follow;

/// A store in which commits were run again, and nothing else, answers the calls of one more, which may follow them: begin is answered their
/// number, or Spent; each write Done, or that the table or the range of its key is full; commit its time. The store then rests behind one commit
/// more. The writes stand at the same times as before.
pub fn commits_run_again()
    ensures opening { OpeningRests }
    ensures begins { BeginsAgain }
    ensures writes { WritesAgain }
    ensures commits { CommitsAgain }
    ensures rests { RestsAgain }
    ensures same { AgainIsSame }
{
    replayed_commit_may_follow();
}

/// Limits that have room for the sessions, the commits of each session, the different keys and the writes of all commits are never met. Those under
/// which commits were run again have it, given a tail for each write.
pub fn room_meets_no_limit()
    ensures never { RoomMeetsNone }
    ensures rested { RestedHasRoom }
{
    replayed_commit_may_follow();
}

/// A store's limits have room for its commits, given a tail for each write: the opening store is counted, each call keeps that, and it says so.
pub fn stores_have_room()
    ensures opening { OpeningIsCounted }
    ensures calls { CallsAreCounted }
    ensures room { CountedHasRoom }
{}

/// A recovered history that is run again on a new store rests there, and can be where there is room for it. At most one commit of a list is the
/// first that meets a limit, and none where all can be run again. Larger limits have room too.
pub fn histories_run_again()
    ensures rests { RecoveredRests }
    ensures room { RoomRunsAgain }
    ensures one { FullIsOne }
    ensures none { FullIsNotRun }
    ensures larger { RoomGrows }
    ensures counted { AgainIsCounted }
{
    replayed_commit_may_follow();
}

/// What commits run again share with those that they were: sessions, writes, and the table at each time.
pub fn same_commits_stay_same()
    ensures again { AgainAreSame }
    ensures numbered { NumberedAreSame }
    ensures writes { SameHaveWrites }
    ensures grows { SameGrows }
    ensures tables { SameTables }
    ensures room { SameHaveRoom }
{}

/// A transaction that puts rows by rising key into a new store, with at most 256 rows for each range and a tail for each row of a range, is committed
/// whole, and is the only commit. One that puts none makes no commit.
pub fn puts_are_committed()
    ensures { PutsAreCommitted }
{
    replayed_commit_may_follow();
}
