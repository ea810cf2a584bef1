//! What holds of every run.

ghost use Rattle.state_laws.specs.RunLaws.{ParkedThreadsStand, LiveThreadsStand, RunsHaveFew, AnUpdateHasThisShape, TheGateDecides, RequestsComeInTime, TheGateIsNeverStuck, ARefusedUpdateChangesNothing, EachPlanHasAList};

/// While an update is asked for, each parked thread is live and stands at an update place. So each
/// live thread stands where the outcome of the update may come.
pub fn parked_threads_stand()
    ensures parked { ParkedThreadsStand }
    ensures live { LiveThreadsStand }
{}

/// A run has at most as many Steps as its limit, one Request, one outcome of an update, and one
/// Park and one Resume of each thread.
pub fn a_run_keeps_its_counts()
    ensures { RunsHaveFew }
{}

/// Where a run has an Update, it has no other outcome. Each live thread stands where it is made,
/// and the state after it is the update of the state before it. The Steps before it are a run of
/// the old program, and those after it one of the new program from the updated state.
pub fn an_update_has_this_shape()
    ensures { AnUpdateHasThisShape }
{}

/// Once all live threads are parked, the update of the state alone decides what may come next: the
/// Update or the refusal for its reason, and always a refusal for memory. A run that is over has a
/// Request exactly where it came to the Steps that the Request waits for.
pub fn the_gate_decides()
    ensures outcome { TheGateDecides }
    ensures request { RequestsComeInTime }
{}

/// While an update is asked for and the run isn't over, a Step, a Park or an outcome may come.
pub fn the_gate_is_never_stuck()
    ensures { TheGateIsNeverStuck }
{}

/// Where no Update is made, the Steps alone are a run of the program without a patch, to the same
/// state and the same end.
pub fn a_refused_update_changes_nothing()
    ensures { ARefusedUpdateChangesNothing }
{}

/// For each picker of threads, and whether or not memory is short, there is a list of events that
/// is planned: each plan comes to an end.
pub fn each_plan_has_a_list()
    ensures { EachPlanHasAList }
{}
