//! The laws. Each function is a law: its contract holds at all values, and its body does nothing.
ghost use Rattle.lst_session.specs.Laws.{SeenIsSound};

/// The commits that a session has seen are a sound history, in every view that is possible.
pub fn seen_is_sound()
    ensures { SeenIsSound }
{}
