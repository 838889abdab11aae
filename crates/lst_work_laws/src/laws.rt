//! The laws. Each function is a law: its contract holds at all values, and its body does nothing.
ghost use Rattle.lst_work_laws.specs.Explained.{TailsAreWritten, ScriptIsExplained};
ghost use Rattle.lst_work_laws.specs.Keeping.{LinesCarryOn};
ghost use Rattle.lst_work_laws.specs.Legal.{WorkedScriptIsLegal};
ghost use Rattle.lst_work_laws.specs.Scripts.{ScriptIsTold};

/// The replies to a whole script of sessions that had begun nothing tell what is so, by those rules of a legal report that speak of one line,
/// with the floors and states of a legal report; and they are one of its kind for each line.
pub fn script_is_told()
    ensures { ScriptIsTold }
{}

/// The conflicts and full counters that the replies to a whole script of such sessions tell are explained, once all sessions are gathered.
pub fn script_is_explained()
    ensures { ScriptIsExplained }
{}

/// As many writes were accepted as tails were drawn in any one range, or more.
pub fn tails_are_written()
    ensures { TailsAreWritten }
{}

/// What a session keeps along its own lines, at its level of isolation, it keeps with one line more: at the serializable level what its open transaction
/// has read, so that what was read is in place at each commit, and was changed where one is told stale.
pub fn lines_carry_on()
    ensures { LinesCarryOn }
{}

/// Where sessions that had done nothing have run a whole script and are gathered, a report of their replies and of the store's commits is legal,
/// under the history that the store has, at the level of isolation at which the lines of each session end.
pub fn worked_script_is_legal()
    ensures { WorkedScriptIsLegal }
{}
