//! The laws of a loaded script. Each function is a law: its contract holds at all values, and its body does nothing.
ghost use Rattle.lst_work.specs.Loaded.{GeneratedHasTotal, GeneratedIsLoaded};

/// Where all sessions of a new store have worked on a generated script, the last phase tells as many rows as there are keys, and as their sum 1,000 for each; both are those
/// of the table that the store's commits make; and the commits of each session are its transactions with writes in the script, in order, with those writes.
pub fn generated_script_is_loaded()
    ensures { GeneratedIsLoaded }
{}

/// Behind a generated script on which all sessions of a new store have worked, none has a transaction open, and each may begin once more, as the replies
/// tell it; so `work_total` always gives the sum of a column.
pub fn generated_script_has_total()
    ensures { GeneratedHasTotal }
{}
