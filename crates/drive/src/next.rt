//! The next event of a picker's plan.

ghost use Rattle.std.specs.Prelude.{◌≡◌, None, OnOk};
ghost use Rattle.world_core.specs.History.{core, over};
ghost use Rattle.drive.specs.OnWay.{IsKept, IsLow, IsOnward};

use crate::pick::{after_step, pick};
use c_tree::Picker;
use std::alloc::AllocError;
use world_core::World;

/// Makes the next event: a due Request, the Park of the lowest thread that may be parked, the
/// outcome of the update where every live thread is parked, the Resume of the lowest parked
/// thread, or the Step of the thread that the picker takes. Where memory is short the outcome is
/// a refusal.
///
/// # Errors
///
/// Where memory is short for another event.
pub fn make_next(world: &mut World, picker: &mut Picker) -> Result<(), AllocError>
    requires going { over world.old ≡ None }
    requires kept { IsKept (core world.old) }
    requires low { IsLow picker.old }
    ensures goes { OnOk result (IsOnward world.old world.new picker.old picker.new) }
    ensures same { world.new.settings ≡ world.old.settings }
    ensures parts { world.new.earlier ≡ world.old.earlier }
{
    if world.is_due() {
        return world.request(0);
    }
    if let Some(t) = world.next_to_park() {
        return world.park(0, t);
    }
    if world.may_decide() {
        world.commit(0);
        return Ok(());
    }
    if let Some(t) = world.next_to_resume() {
        world.resume(0, t);
        return Ok(());
    }
    match pick(world, *picker) {
        Some(t) => {
            world.turn(0, t)?;
            *picker = after_step(*picker, t);
            Ok(())
        }
        None => unreachable!(),
    }
}
