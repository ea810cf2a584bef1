//! What many turns of one thread rest on, made one after the other.

ghost use Rattle.target_laws.specs.Rows.{AThreadStands, ATurnEndsStanding, ATurnIsNeverStuck, ATurnLeadsToATurn, CountsTellNothing};
ghost use Rattle.target_laws.specs.Effects.{EffectsArrive, SpawnsStore, FunctionsBegin, FunctionsArrive, CallersArrive, ReturnsArrive, SlotsLieInside, FunctionsAreCoded, ParametersFit};

/// A thread that runs in a program between two events stands at a mark; its count tells nothing.
pub fn a_thread_stands()
    ensures stands { AThreadStands }
    ensures counts { CountsTellNothing }
{}

/// A turn of a thread always finds its instruction and its operands.
pub fn a_turn_is_never_stuck()
    ensures { ATurnIsNeverStuck }
{}

/// Where a turn ends at a mark the thread stands there; where it made no thread, the thread may
/// make another turn from there.
pub fn a_turn_leads_to_a_turn()
    ensures turn { ATurnLeadsToATurn }
    ensures stands { ATurnEndsStanding }
{}

/// Behind each effect of a step, at a function's begin, and from where a caller goes on, nothing
/// can fail up to the next mark; behind a `spawn` first comes a store.
pub fn effects_arrive()
    ensures effects { EffectsArrive }
    ensures spawns { SpawnsStore }
    ensures begins { FunctionsBegin }
    ensures functions { FunctionsArrive }
    ensures callers { CallersArrive }
    ensures returns { ReturnsArrive }
{}

/// The slots and functions that the code of a formed program names are there; each function has
/// its code, with room for its parameters.
pub fn code_lies_inside()
    ensures slots { SlotsLieInside }
    ensures functions { FunctionsAreCoded }
    ensures parameters { ParametersFit }
{}
