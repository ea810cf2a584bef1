//! A run by a listing of events.

ghost use Rattle.std.specs.Prelude.{◌≡◌, [], IfOk};
ghost use Rattle.c_tree.specs.Plan.{refused_at};
ghost use Rattle.c_tree.specs.Run.{first};
ghost use Rattle.drive.specs.Listed.{refusal, EndsAs};

use crate::take::take_event;
use c_tree::End;
use event_log::EventLog;
use std::alloc::AllocError;
use world_core::World;

/// What a plan came to.
#[derive(Clone, Copy, PartialEq, Eq)]
pub enum Driven {
    /// The run is over.
    Ended(End),
    /// The number, from 1 on, of the first listed event that isn't legal or that is a refusal for
    /// memory; or one more than the number of events, where the run isn't over after them or the
    /// listing isn't clean.
    ListRefused(u64),
}

/// Makes the listed events, each by the worker that it names.
///
/// # Errors
///
/// Where memory is short, also for a listed outcome of the update. The World then holds the events
/// up to there.
pub fn drive_list(world: &mut World, listed: &EventLog, clean: bool) -> Result<Driven, AllocError>
    requires new { world.old.events ≡ [] }
    requires single { world.old.earlier ≡ [] }
    ensures answer { IfOk result (λ d. refusal d
        ≡ refused_at world.old.settings clean 1 (first world.old.settings)
        listed.now.items) }
    ensures ended { IfOk result (λ d. EndsAs d clean world.new listed.now.items) }
    ensures same { world.new.settings ≡ world.old.settings }
    ensures single { world.new.earlier ≡ [] }
{
    for i in 0..listed.len() {
        let Some(event) = listed.get(i) else {
            unreachable!()
        };
        let taken = take_event(world, event.worker, event.kind)?;
        if !taken {
            return Ok(Driven::ListRefused(i as u64 + 1));
        }
    }
    let end = world.over();
    if clean {
        if let Some(end) = end {
            return Ok(Driven::Ended(end));
        }
    }
    let count = listed.len();
    if count == usize::MAX {
        return Err(AllocError);
    }
    Ok(Driven::ListRefused(count as u64 + 1))
}
