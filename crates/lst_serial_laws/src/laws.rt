//! Serial places: why a transaction whose reads no other commit changed since its begin could have run at its commit's time.
ghost use Rattle.lst_serial_laws.specs.Answers.{AnswersStay};
ghost use Rattle.lst_serial_laws.specs.Ends.{EndsAreLegal};
ghost use Rattle.lst_serial_laws.specs.Places.{PlacesAnswerKeys, PlacesAnswerAll, ChecksPlace, UnchangedIsPlaced};

/// Where no commit between a transaction's begin and its own commit wrote a key that it read, the tables as of both times agree on those keys; and they
/// are equal where it read all keys and there is no such commit.
pub fn checks_place()
    ensures { ChecksPlace }
{}

/// Then each answer is that of the table as of the time before the commit, with the own writes that stood before it: rows of keys that were read, so
/// also whether a write fits, and every scan where all keys were read.
pub fn places_answer()
    ensures keys { PlacesAnswerKeys }
    ensures all { PlacesAnswerAll }
{}

/// Where the whole history is seen, no commit above the begin wrote what was read, and the next commit is the transaction's, it is at its serial place.
pub fn unchanged_is_placed()
    ensures { UnchangedIsPlaced }
{}

/// Where what a transaction read is in place, each reply that its snapshot answers is answered alike as of the time before the commit, Exists and Missing
/// included.
pub fn answers_stay()
    ensures { AnswersStay }
{}

/// A report that follows the nine rules, with the wider one on ends, is legal at the serializable level where what the lines of each transaction with a
/// commit time have read is in place at that time, and each stale commit is explained.
pub fn ends_are_legal()
    ensures { EndsAreLegal }
{}
