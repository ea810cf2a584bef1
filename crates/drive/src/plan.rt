//! The plan of a run.

ghost use Rattle.std.specs.Prelude.{◌≡◌, [], IfOk};
ghost use Rattle.drive.specs.Driven.{IsDriven};

use crate::list::{Driven, drive_list};
use crate::planned::drive_planned;
use c_tree::Picker;
use history::Listing;
use std::alloc::AllocError;
use world_core::World;

/// How a run takes its next event.
#[derive(Drop)]
pub enum Plan {
    /// Each thread in turn.
    Round,
    /// The threads that the numbers after this one draw.
    Seed(u64),
    /// The listed events.
    List(Listing),
}

/// Runs a World to its end by a plan.
///
/// # Errors
///
/// Where memory is short: by a listing for any event, else for any but the outcome of the update,
/// which is a refusal then. The World holds the events up to there.
pub fn drive(world: &mut World, plan: Plan) -> Result<Driven, AllocError>
    requires new { world.old.events ≡ [] }
    requires single { world.old.earlier ≡ [] }
    ensures driven { IfOk result (λ d. IsDriven plan world.old.settings world.new d) }
    ensures same { world.new.settings ≡ world.old.settings }
    ensures single { world.new.earlier ≡ [] }
{
    match plan {
        Plan::Round => Ok(Driven::Ended(drive_planned(world, Picker::Round(None))?)),
        Plan::Seed(seed) => Ok(Driven::Ended(drive_planned(world, Picker::Seed(seed))?)),
        Plan::List(listing) => drive_list(world, &listing.events, listing.clean),
    }
}
