//! What holds of every state of a run.

ghost use Rattle.state_laws.specs.Laws.{StartIsValid, StepsStayValid, RunsStayValid, RunsStayValidUntilUpdate, UpdatesStayValid, WholeRunsStayValid};

/// A formed program starts in a valid state.
pub fn first_state_is_valid()
    ensures { StartIsValid }
{}

/// A step of a formed program leads from a valid state to a valid one.
pub fn steps_stay_valid()
    ensures { StepsStayValid }
{}

/// Each state that a run of a formed program comes to is valid: all of them where no update is
/// armed, and else those before the update. A step that traps or ends the program leaves the state.
pub fn runs_stay_valid()
    ensures unarmed { RunsStayValid }
    ensures until_update { RunsStayValidUntilUpdate }
{}

/// An update by a sound patch leads from a valid state of the old program to a valid one of the
/// new, where both programs are formed.
pub fn updates_stay_valid()
    ensures { UpdatesStayValid }
{}

/// Each state that a run of a formed program comes to is valid for the program that runs then,
/// where the patch that is armed, if any, is sound and leads from this program to a formed one.
pub fn whole_runs_stay_valid()
    ensures { WholeRunsStayValid }
{}
