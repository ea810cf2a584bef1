//! A run by a picker of threads.

ghost use Rattle.std.specs.Prelude.{◌≡◌, [], IfOk, Some, None};
ghost use Rattle.c_tree.specs.Plan.{IsPlanned};
ghost use Rattle.c_tree.specs.Run.{is_short};
ghost use Rattle.c_tree.specs.declared.run.Picker.TheVariants as picker;
ghost use Rattle.world_core.specs.History.{core, over};
ghost use Rattle.drive.specs.OnWay.{IsLow};

use crate::next::make_next;
use c_tree::{End, Picker};
use std::alloc::AllocError;
use world_core::World;

/// Makes the events of a plan, with the Steps that a picker takes, until the run is over.
///
/// # Errors
///
/// Where memory is short for an event other than the outcome of the update. The World then holds
/// the events up to there.
pub fn drive_planned(world: &mut World, start: Picker) -> Result<End, AllocError>
    requires new { world.old.events ≡ [] }
    requires single { world.old.earlier ≡ [] }
    requires low { IsLow start }
    ensures over { IfOk result (λ end. over world.new ≡ Some end) }
    ensures same { world.new.settings ≡ world.old.settings }
    ensures single { world.new.earlier ≡ [] }
    ensures planned { IfOk result
        (λ _. IsPlanned world.old.settings (is_short (core world.new)) start
        world.new.events) }
{
    let mut picker = start;
    'run: while world.over().is_none() {
        make_next(world, &mut picker)?;
    }
    Ok(world.over().unwrap())
}

/// Makes the events of a plan, with the Steps of each thread in turn, until the run is over.
///
/// # Errors
///
/// As `drive_planned`.
pub fn drive_round(world: &mut World) -> Result<End, AllocError>
    requires new { world.old.events ≡ [] }
    requires single { world.old.earlier ≡ [] }
    ensures over { IfOk result (λ end. over world.new ≡ Some end) }
    ensures same { world.new.settings ≡ world.old.settings }
    ensures single { world.new.earlier ≡ [] }
    ensures planned { IfOk result
        (λ _. IsPlanned world.old.settings (is_short (core world.new)) (picker.Round None)
        world.new.events) }
{
    drive_planned(world, Picker::Round(None))
}
