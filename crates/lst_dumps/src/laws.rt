//! The law. Its contract holds at all values, and its body does nothing.
ghost use Rattle.lst_dumps.specs.Dumps.{DumpsAreTables};

/// The commits of any script, under limits that are valid, make a table whose text is read as that table: the script's columns have names, each row has
/// a key below 2^64 and a cell for each column, null or a number below 2^64, and there are 256 rows at most for each range.
pub fn dumps_are_tables()
    ensures { DumpsAreTables }
{}
