//! A listed event, taken where it is legal.

ghost use Rattle.std.specs.Prelude.{◌≡◌, IfOk, OnOk, false};
ghost use Rattle.c_tree.specs.Plan.{is_memory_refusal};
ghost use Rattle.c_tree.specs.declared.event.EventKind.TheVariants as e;
ghost use Rattle.plain_run.specs.Decision.{IsOutcome};
ghost use Rattle.drive.specs.Listed.{Taken};

use c_tree::{EventKind, Reason};
use plain_run::decision::kind_of;
use std::alloc::AllocError;
use world_core::World;

fn take_step(world: &mut World, worker: u32, t: u32) -> Result<bool, AllocError>
    ensures taken { IfOk result (λ b. Taken b world.old world.new worker (e.Step t)) }
    ensures same { world.new.settings ≡ world.old.settings }
    ensures parts { world.new.earlier ≡ world.old.earlier }
{
    if !world.may_turn(t) {
        return Ok(false);
    }
    world.turn(worker, t)?;
    Ok(true)
}

fn take_request(world: &mut World, worker: u32) -> Result<bool, AllocError>
    ensures taken { IfOk result (λ b. Taken b world.old world.new worker e.Request) }
    ensures same { world.new.settings ≡ world.old.settings }
    ensures parts { world.new.earlier ≡ world.old.earlier }
{
    if !world.may_request() {
        return Ok(false);
    }
    world.request(worker)?;
    Ok(true)
}

fn take_park(world: &mut World, worker: u32, t: u32) -> Result<bool, AllocError>
    ensures taken { IfOk result (λ b. Taken b world.old world.new worker (e.Park t)) }
    ensures same { world.new.settings ≡ world.old.settings }
    ensures parts { world.new.earlier ≡ world.old.earlier }
{
    if !world.may_park(t) {
        return Ok(false);
    }
    world.park(worker, t)?;
    Ok(true)
}

fn take_resume(world: &mut World, worker: u32, t: u32) -> bool
    ensures taken { Taken result world.old world.new worker (e.Resume t) }
    ensures same { world.new.settings ≡ world.old.settings }
    ensures parts { world.new.earlier ≡ world.old.earlier }
{
    if !world.may_resume(t) {
        return false;
    }
    world.resume(worker, t);
    true
}

fn is_memory(kind: EventKind) -> bool
    ensures { result ≡ is_memory_refusal kind }
{
    match kind {
        EventKind::Refuse(Reason::Memory) => true,
        _ => false,
    }
}

/// Goes on where memory wasn't short for a decision.
fn unless_short(kind: EventKind) -> Result<(), AllocError>
    ensures { OnOk result (is_memory_refusal kind ≡ false) }
{
    if is_memory(kind) {
        return Err(AllocError);
    }
    Ok(())
}

/// Makes a listed outcome of the update where it is the one that the update comes to.
fn take_outcome(world: &mut World, worker: u32, listed: EventKind) -> Result<bool, AllocError>
    requires { IsOutcome listed }
    ensures taken { IfOk result (λ b. Taken b world.old world.new worker listed) }
    ensures same { world.new.settings ≡ world.old.settings }
    ensures parts { world.new.earlier ≡ world.old.earlier }
{
    if is_memory(listed) || !world.may_commit() {
        return Ok(false);
    }
    let decision = world.decide()?;
    let kind = kind_of(&decision);
    if kind == listed {
        world.settle(worker, decision);
        return Ok(true);
    }
    unless_short(kind)?;
    Ok(false)
}

/// Makes an event where it is legal and no refusal for memory, and says whether it is.
pub fn take_event(world: &mut World, worker: u32, kind: EventKind) -> Result<bool, AllocError>
    ensures taken { IfOk result (λ b. Taken b world.old world.new worker kind) }
    ensures same { world.new.settings ≡ world.old.settings }
    ensures parts { world.new.earlier ≡ world.old.earlier }
{
    match kind {
        EventKind::Step(t) => take_step(world, worker, t),
        EventKind::Request => take_request(world, worker),
        EventKind::Park(t) => take_park(world, worker, t),
        EventKind::Update => take_outcome(world, worker, EventKind::Update),
        EventKind::Refuse(reason) => take_outcome(world, worker, EventKind::Refuse(reason)),
        EventKind::Resume(t) => Ok(take_resume(world, worker, t)),
    }
}
