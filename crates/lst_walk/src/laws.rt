//! Laws of the tails of a range, looked at by their numbers. Each function is a law: its contract holds at all values, and its body does nothing.
ghost use Rattle.lst_walk.specs.Folding.{CountersTellRanges, EmptyIsUntold, FoldsAreNumbers, FoldsStay, RangesAreFolded, SeenIsTold, UnseenIsUntold};
ghost use Rattle.lst_walk.specs.Numbered.{ArraysAreFolds, ChainsAreKnown, ChainsStayKnown, CopiesAreCut, EntriesAreOlder, FoldsAreCells, FoldsOnPages, SeenAreKnown, TailsTellCopies};

/// A version that a transaction sees is one of the chain of its record as the chain was found once, whenever the version comes to be known. So the tails of a
/// range that are seen, by rising number, are the seen versions of the chains that were found.
pub fn seen_are_known()
    ensures found { ChainsAreKnown }
    ensures stays { ChainsStayKnown }
    ensures seen { SeenAreKnown }
    ensures tails { TailsTellCopies }
{}

/// A loop over them, which starts with what the older versions leave of a column, ends with the number of the column in the row that is seen of the record.
pub fn folds_are_cells()
    ensures cut { CopiesAreCut }
    ensures cells { FoldsAreCells }
    ensures arrays { ArraysAreFolds }
{}

/// The entry of a page, where its time is at most the begin, has the number of what is seen of the versions up to the page's TPS, whatever is seen of newer ones. So
/// the loop may start with it.
pub fn folds_on_pages()
    ensures entries { EntriesAreOlder }
    ensures cells { FoldsOnPages }
{}

/// A loop that folds the tails of a range into an array of a page's numbers leaves at each slot the number of the column in the row that is seen of the record, if the
/// time of the page's entry there is at most the begin.
pub fn folds_are_numbers()
    ensures stay { FoldsStay }
    ensures numbers { FoldsAreNumbers }
{}

/// What a look at a tail tells such a loop: an empty start word, and a version that isn't seen, that there is nothing to fold; and a version that is seen, that it is one of the
/// record that its encoding word names.
pub fn looks_tell_folds()
    ensures empty { EmptyIsUntold }
    ensures unseen { UnseenIsUntold }
    ensures seen { SeenIsTold }
{}

/// A load of the tail counter of a range, by a session that reads, tells it the chains of the range's records, on which no number is above the one found, nor above the
/// limit. Where the loop goes over all tails above the page's TPS up to there, it leaves the numbers of the rows that are seen; where there are none, the page says them.
pub fn counters_tell_ranges()
    ensures found { CountersTellRanges }
    ensures folded { RangesAreFolded }
{}
