//! What holds of every step.

ghost use Rattle.c_meaning.specs.Laws.{BlockedWhereNotAble};

/// A step is blocked exactly where the thread isn't able.
pub fn only_unable_threads_are_blocked()
    ensures { BlockedWhereNotAble }
{}
