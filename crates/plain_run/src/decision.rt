//! What becomes of an update: it is decided, and then made at one moment.

ghost use Rattle.std.specs.Prelude.{◌≡◌, ◌≢◌, IfOk, true};
ghost use Rattle.c_tree.specs.Run as run;
ghost use Rattle.c_tree.specs.declared.event.EventKind.TheVariants as e;
ghost use Rattle.c_tree.specs.declared.event.Reason.TheVariants as why;
ghost use Rattle.plain_run.specs.CoreAt.{core_now};
ghost use Rattle.plain_run.specs.Decision.{committed_of, kind_decided, IsDecision, IsReason, IsUpdate};
ghost use Rattle.plain_run.specs.Ready.{IsReady};
ghost use Rattle.plain_run.specs.Settled.{Settles, Refuses, Updates};

use crate::now::Now;
use c_places::places;
use c_tree::{EventKind, Phase, Places, Reason, Settings};
use stack_map::MapEnd;
use state_transform::{Parts, updated};
use std::alloc::{AllocError, Global};

/// What was decided, before it is made: the parts and the places of the new state, or the reason
/// against it.
#[derive(Drop)]
pub enum Decision {
    /// The parts of the new state, and the places of the new program.
    Updated(Parts, Places),
    /// The old program goes on, for this reason.
    Refused(Reason),
}

/// The outcome that was made.
#[derive(Clone, Copy)]
pub enum Committed {
    /// The new program runs.
    Updated,
    /// The old program goes on, for this reason.
    Refused(Reason),
}

/// The outcome that a decision leads to.
pub fn committed_by(decision: &Decision) -> Committed
    ensures { result ≡ committed_of decision.now }
{
    match decision {
        Decision::Updated(_, _) => Committed::Updated,
        Decision::Refused(reason) => Committed::Refused(*reason),
    }
}

/// The event of a decided outcome.
pub fn kind_of(decision: &Decision) -> EventKind
    ensures { result ≡ kind_decided decision.now }
{
    match decision {
        Decision::Updated(_, _) => EventKind::Update,
        Decision::Refused(reason) => EventKind::Refuse(*reason),
    }
}

/// The reason against an update, where it isn't want of memory.
fn reason_of(end: MapEnd) -> Result<Reason, AllocError>
    ensures { IfOk result (λ r. end ≡ MapEnd.Refused r) }
{
    match end {
        MapEnd::Refused(reason) => Ok(reason),
        MapEnd::Memory(_) => Err(AllocError),
    }
}

/// What becomes of the update that is asked for. It takes all the memory that the update needs.
///
/// An `Err` is want of memory, so a reason that it gives is always another.
pub fn decide(
    alloc: Global,
    settings: &Settings,
    old: &Places,
    now: &Now,
) -> Result<Decision, AllocError>
    requires ready { IsReady settings.now old.now (core_now settings.now now.now) }
    requires asked { run.is_asked now.now.phase ≡ true }
    ensures decided { IfOk result
        (λ d. IsDecision settings.now (core_now settings.now now.now) d) }
    ensures named { IfOk result (λ d. kind_decided d ≢ e.Refuse why.Memory) }
{
    let patch = match &settings.armed {
        Some(armed) => &armed.patch,
        None => return Err(AllocError),
    };
    match updated(alloc, patch, old, &now.state) {
        Ok(parts) => {
            let new = places(alloc, &patch.new)?;
            Ok(Decision::Updated(parts, new))
        }
        Err(end) => Ok(Decision::Refused(reason_of(end)?)),
    }
}

/// Goes over to the new state and to the places of the new program. It takes no memory.
pub fn update(old: &mut Places, now: &mut Now, parts: Parts, new: Places)
    ensures { Updates parts new old.old now.old old.new now.new }
{
    parts.put_into(&mut now.state);
    now.phase = Phase::Updated;
    *old = new;
}

/// Refuses the update: the program goes on as it was.
pub fn refuse(now: &mut Now, reason: Reason)
    ensures { Refuses reason now.old now.new }
{
    now.phase = Phase::Refused(reason);
}

/// Makes the outcome that was decided. It takes no memory and can't be refused.
pub fn settle(places: &mut Places, now: &mut Now, decision: Decision)
    ensures { Settles decision places.old now.old places.new now.new }
{
    match decision {
        Decision::Updated(parts, new) => update(places, now, parts, new),
        Decision::Refused(reason) => refuse(now, reason),
    }
}
