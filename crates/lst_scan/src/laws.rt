//! Laws. Each function is a law: its contract holds at all values, and its body does nothing.
ghost use Rattle.lst_scan.specs.Leavings.{ReadersOnlyLook, SessionsStayReady, CrewsStay};
ghost use Rattle.lst_scan.specs.Replies.{CrewsAnswerScans};
ghost use Rattle.lst_scan.specs.Laws.{PartsAddUp, RecordsAddUp, CellsStay, RowsHavePlaces, PlacesAgree, NumbersWerePut};

/// The sums over the parts of a table, cut at records, add up to the sum over the whole; and so do the cells of its records,
/// whenever since the first look each of them was seen.
pub fn sums_add_up()
    ensures parts { PartsAddUp }
    ensures records { RecordsAddUp }
    ensures stay { CellsStay }
{}

/// Each row of the table that a transaction sees has its place, a record of the store; and sessions that see the same table, and whose
/// facts have come together in one view, have the same places.
pub fn places_are_found()
    ensures some { RowsHavePlaces }
    ensures agree { PlacesAgree }
{}

/// A number that a find asks for was put into its row by an act that the transaction sees.
pub fn found_numbers_were_put()
    ensures { NumbersWerePut }
{}

/// What a reader of a scan leaves: the session has only looked, and is ready again where it was; so is a crew, which tells the same state of
/// the machine.
pub fn scans_leave_sessions()
    ensures looks { ReadersOnlyLook }
    ensures ready { SessionsStayReady }
    ensures crew { CrewsStay }
{}

/// Where a crew tells a state of the machine of one thread, the scans of its sessions are answered as the machine answers them, which leaves
/// its state.
pub fn crews_answer_scans()
    ensures { CrewsAnswerScans }
{}
