//! Any event of a run, made where it is legal.

ghost use Rattle.std.specs.Prelude.{◌≡◌, false, not, is_some, IfOk, OnOk, OnErr};
ghost use Rattle.c_tree.specs.Plan.{is_memory_refusal};
ghost use Rattle.c_tree.specs.Run.{over};
ghost use Rattle.c_tree.specs.declared.event.EventKind.TheVariants as e;
ghost use Rattle.c_tree.specs.declared.event.Reason.TheVariants as why;
ghost use Rattle.plain_run.specs.CoreAt.{core_now};
ghost use Rattle.plain_run.specs.Decision.{IsOutcome};
ghost use Rattle.plain_run.specs.Made.{Keeps, MakesIf};
ghost use Rattle.plain_run.specs.Ready.{IsReady};

use crate::decision::{Decision, decide, kind_of, settle};
use crate::event::{park, request, resume, step};
use crate::now::{Now, is_due, may_step, over, present};
use crate::parking::{may_decide, may_park, may_resume};
use c_tree::{EventKind, Places, Reason, Settings};
use std::alloc::{AllocError, Global};

/// Whether the run is on.
fn is_on(settings: &Settings, places: &Places, now: &Now) -> bool
    requires { IsReady settings.now places.now (core_now settings.now now.now) }
    ensures { result ≡ not (is_some (over settings.now (core_now settings.now now.now))) }
{
    over(settings, present(settings, now.phase), places, now).is_none()
}

fn make_request(settings: &Settings, places: &Places, now: &mut Now) -> bool
    requires ready { IsReady settings.now places.now (core_now settings.now now.old) }
    ensures { MakesIf result settings.now e.Request places.now now.old places.now now.new }
{
    let program = present(settings, now.phase);
    if !is_on(settings, places, now) || !is_due(settings, program, now) {
        return false;
    }
    request(now);
    true
}

fn make_step(
    alloc: Global,
    settings: &Settings,
    places: &Places,
    now: &mut Now,
    t: u32,
) -> Result<bool, AllocError>
    requires ready { IsReady settings.now places.now (core_now settings.now now.old) }
    ensures made { IfOk result
        (λ b. MakesIf b settings.now (e.Step t) places.now now.old places.now now.new) }
    ensures err { OnErr result (Keeps settings.now places.now now.old places.now now.new) }
{
    let program = present(settings, now.phase);
    if !is_on(settings, places, now) || !may_step(settings, program, places, now, t) {
        return Ok(false);
    }
    step(alloc, settings, places, now, t)?;
    Ok(true)
}

fn make_park(
    settings: &Settings,
    places: &Places,
    now: &mut Now,
    t: u32,
) -> Result<bool, AllocError>
    requires ready { IsReady settings.now places.now (core_now settings.now now.old) }
    ensures made { IfOk result
        (λ b. MakesIf b settings.now (e.Park t) places.now now.old places.now now.new) }
    ensures err { OnErr result (Keeps settings.now places.now now.old places.now now.new) }
{
    let program = present(settings, now.phase);
    if !is_on(settings, places, now) || !may_park(program, places, now, t) {
        return Ok(false);
    }
    park(now, t)?;
    Ok(true)
}

fn make_resume(settings: &Settings, places: &Places, now: &mut Now, t: u32) -> bool
    requires ready { IsReady settings.now places.now (core_now settings.now now.old) }
    ensures { MakesIf result settings.now (e.Resume t) places.now now.old places.now now.new }
{
    let program = present(settings, now.phase);
    if !is_on(settings, places, now) || !may_resume(program, now, t) {
        return false;
    }
    resume(now, t);
    true
}

/// Refuses the update for want of memory, which is free.
fn make_short(settings: &Settings, places: &mut Places, now: &mut Now) -> bool
    requires ready { IsReady settings.now places.old (core_now settings.now now.old) }
    ensures { MakesIf result settings.now (e.Refuse why.Memory) places.old now.old
        places.new now.new }
{
    let program = present(settings, now.phase);
    if !is_on(settings, places, now) || !may_decide(program, now) {
        return false;
    }
    settle(places, now, Decision::Refused(Reason::Memory));
    true
}

/// Makes an outcome where it is the one that the update comes to.
fn make_outcome(
    alloc: Global,
    settings: &Settings,
    places: &mut Places,
    now: &mut Now,
    kind: EventKind,
) -> Result<bool, AllocError>
    requires ready { IsReady settings.now places.old (core_now settings.now now.old) }
    requires outcome { IsOutcome kind }
    requires other { is_memory_refusal kind ≡ false }
    ensures made { IfOk result
        (λ b. MakesIf b settings.now kind places.old now.old places.new now.new) }
    ensures err { OnErr result (Keeps settings.now places.old now.old places.new now.new) }
{
    let program = present(settings, now.phase);
    if !is_on(settings, places, now) || !may_decide(program, now) {
        return Ok(false);
    }
    let decision = decide(alloc, settings, places, now)?;
    let decided = kind_of(&decision);
    if decided == kind {
        settle(places, now, decision);
        return Ok(true);
    }
    Ok(false)
}

/// Makes a refusal of the update.
fn make_refusal(
    alloc: Global,
    settings: &Settings,
    places: &mut Places,
    now: &mut Now,
    reason: Reason,
) -> Result<bool, AllocError>
    requires ready { IsReady settings.now places.old (core_now settings.now now.old) }
    ensures made { IfOk result
        (λ b. MakesIf b settings.now (e.Refuse reason) places.old now.old places.new now.new) }
    ensures err { OnErr result (Keeps settings.now places.old now.old places.new now.new) }
{
    if reason == Reason::Memory {
        return Ok(make_short(settings, places, now));
    }
    make_outcome(alloc, settings, places, now, EventKind::Refuse(reason))
}

/// Makes an event where it is legal, and says whether it is. Where it isn't all stays.
///
/// A refusal of the update for want of memory is legal wherever the outcome may come.
///
/// # Errors
///
/// Where memory is short; then all stays.
pub fn make(
    alloc: Global,
    settings: &Settings,
    places: &mut Places,
    now: &mut Now,
    kind: EventKind,
) -> Result<bool, AllocError>
    requires ready { IsReady settings.now places.old (core_now settings.now now.old) }
    ensures made { IfOk result
        (λ b. MakesIf b settings.now kind places.old now.old places.new now.new) }
    ensures err { OnErr result (Keeps settings.now places.old now.old places.new now.new) }
{
    match kind {
        EventKind::Request => Ok(make_request(settings, places, now)),
        EventKind::Step(t) => make_step(alloc, settings, places, now, t),
        EventKind::Park(t) => make_park(settings, places, now, t),
        EventKind::Update => make_outcome(alloc, settings, places, now, kind),
        EventKind::Refuse(reason) => make_refusal(alloc, settings, places, now, reason),
        EventKind::Resume(t) => Ok(make_resume(settings, places, now, t)),
    }
}
