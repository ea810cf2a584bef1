//! What holds of all threads.

ghost use Rattle.thread_machine.specs.Laws.{AnUpdatePlaceHasAFlag};

/// A running thread whose innermost frame is at an update place is at the mark and the flag of one.
pub fn an_update_place_has_a_flag()
    ensures { AnUpdatePlaceHasAFlag }
{}
