//! What holds of the target machine and its code.

ghost use Rattle.target_laws.specs.Laws.{JumpsStop, TestsGoForward, MachinesHaveOneEnd, MoreFuelIsTheSame, RunsHaveOneTarget, AnUnwindingSaves, ARebuildingLoads, ValidStacksAreSound, ATurnIsAStep, ATurnEndsAsItsStep, ABlockedTurnWaits, TargetsFollowRuns};

/// In the code of a formed program each jump goes forward, or to a mark or an `after`, and each
/// test goes forward.
pub fn jumps_stop()
    ensures jumps { JumpsStop }
    ensures tests { TestsGoForward }
{}

/// The target's run of a list of events leads to one core, and more fuel leads to the same; so does
/// a run of one thread that is over.
pub fn a_run_has_one_target()
    ensures machine { MachinesHaveOneEnd }
    ensures fuel { MoreFuelIsTheSame }
    ensures one { RunsHaveOneTarget }
{}

/// A thread that runs and stands at an update place unwinds to exactly the frames for which it
/// stands, and leaves the memory as it was.
pub fn an_unwinding_saves()
    ensures { AnUnwindingSaves }
{}

/// A thread whose saved frames are sound and keep the limit of frames rebuilds exactly these: it
/// runs, its innermost activation at a mark and the others at the calls that they wait for.
pub fn a_rebuilding_loads()
    ensures { ARebuildingLoads }
{}

/// The frames of each live thread of a valid state can be rebuilt.
pub fn valid_stacks_are_sound()
    ensures { ValidStacksAreSound }
{}

/// Between two events a turn of a thread that runs comes to an end, stands for the state that the
/// thread's step leaves, and leaves what is true between two events; a trap and the program's end
/// leave the state. It ends as the step does: with the same trap or status, or has to wait as well.
pub fn a_turn_is_a_step()
    ensures turn { ATurnIsAStep }
    ensures ends { ATurnEndsAsItsStep }
    ensures waits { ABlockedTurnWaits }
{}

/// The target's run of the events of a run leads to a core that stands for the state that the run
/// leads to, where the program is formed and the armed patch, if any, is sound and leads to a
/// formed one. So saving and rebuilding don't show in the state.
pub fn targets_follow_runs()
    ensures { TargetsFollowRuns }
{}
