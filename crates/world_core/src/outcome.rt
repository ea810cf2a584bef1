//! How far the update of a run has come.

ghost use Rattle.std.specs.Prelude.{◌≡◌};
ghost use Rattle.world_core.specs.Outcome.{outcome_in};

use c_tree::{Armed, Phase, Reason};

/// How far the update of a run has come.
#[derive(Clone, Copy)]
pub enum Outcome {
    /// No update is armed.
    NoPatch,
    /// The Request has not come.
    NotAsked,
    /// The Request has come, and the outcome has not.
    Asked,
    /// The new program runs.
    Done,
    /// The old program went on.
    Refused(Reason),
}

/// How far the update has come, by the phase of the run.
pub fn how_far(armed: &Option<Armed>, phase: Phase) -> Outcome
    ensures { result ≡ outcome_in armed.now phase }
{
    if armed.is_none() {
        return Outcome::NoPatch;
    }
    match phase {
        Phase::Before => Outcome::NotAsked,
        Phase::Asked => Outcome::Asked,
        Phase::Updated => Outcome::Done,
        Phase::Refused(reason) => Outcome::Refused(reason),
    }
}
