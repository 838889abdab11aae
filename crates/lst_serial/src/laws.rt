//! What is so of the definitions, apart from any run.
ghost use Rattle.lst_serial.specs.Serials.{StaleFoundItFree};

/// A commit that is told stale found the commit word free: no other session that its seat hosts had the turn. So where one has it, a seat that hosts both answers
/// Busy. The contract is a law; the body does nothing.
pub fn stale_found_it_free()
    ensures { StaleFoundItFree }
{}
