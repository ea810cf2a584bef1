//! The events of a run but for the outcome of its update, each made where it may come.

ghost use Rattle.std.specs.Prelude.{◌≡◌, ◌<◌, ◌^◌, ◌+◌, true, map, IsTrue, OnOk, OnErr};
ghost use Rattle.c_tree.specs.Able as able;
ghost use Rattle.c_tree.specs.Layout as layout;
ghost use Rattle.c_tree.specs.Run as run;
ghost use Rattle.c_tree.specs.Step as step;
ghost use Rattle.c_tree.specs.declared.event.EventKind.TheVariants as e;
ghost use Rattle.c_tree.specs.declared.lifted.Lifted.{Lifted};
ghost use Rattle.plain_run.specs.CoreAt.{core_at, core_now};
ghost use Rattle.plain_run.specs.Made.{on, Makes, Serves};
ghost use Rattle.plain_run.specs.Ready.{IsReady};

use crate::now::{Now, present};
use c_meaning::{Stepped, plain_step};
use c_tree::{End, Lifted, Phase, Places, Settings};
use std::alloc::{AllocError, Global};

/// Makes a Step of this program. Where memory is short all stays.
fn step_now(
    alloc: Global,
    program: &Lifted,
    places: &Places,
    now: &mut Now,
    t: u32,
) -> Result<(), AllocError>
    requires same { places.now.functions ≡ map layout.places program.now.functions }
    requires able { able.able program.now now.old.state t ≡ true }
    requires room { now.old.steps + 1 < 2 ^ 64 }
    ensures ok { OnOk result (core_at program.now now.new
        ≡ run.stepped (core_at program.now now.old) t (step.step program.now t now.old.state)) }
    ensures err { OnErr result (now.new ≡ now.old) }
{
    let stepped = plain_step(alloc, program, places, &mut now.state, t)?;
    match stepped {
        Stepped::Done => {
            now.steps += 1;
            Ok(())
        }
        Stepped::Trapped(cause) => {
            now.steps += 1;
            now.ended = Some(End::Trapped(t, cause));
            Ok(())
        }
        Stepped::Finished(k) => {
            now.steps += 1;
            now.ended = Some(End::Finished(k));
            Ok(())
        }
        Stepped::Blocked => unreachable!(),
    }
}

/// Makes a Step of a thread. Where memory is short all stays.
pub fn step(
    alloc: Global,
    settings: &Settings,
    places: &Places,
    now: &mut Now,
    t: u32,
) -> Result<(), AllocError>
    requires ready { IsReady settings.now places.now (core_now settings.now now.old) }
    requires may { let c = core_now settings.now now.old in
        IsTrue (on settings.now c (run.may_step settings.now c t)) }
    ensures ok { OnOk result (Makes settings.now (e.Step t) now.old places.now now.new) }
    ensures err { OnErr result (now.new ≡ now.old) }
{
    step_now(alloc, present(settings, now.phase), places, now, t)
}

/// Asks for the update.
pub fn request(now: &mut Now)
    ensures { Serves run.is_due e.Request now.old now.new }
{
    now.phase = Phase::Asked;
}

/// Parks a thread. Where memory is short all stays.
pub fn park(now: &mut Now, t: u32) -> Result<(), AllocError>
    ensures ok { OnOk result (Serves (λ k c. run.may_park c t) (e.Park t) now.old now.new) }
    ensures err { OnErr result ((p : Lifted) → core_at p now.new ≡ core_at p now.old) }
{
    match now.parked.insert(0, t) {
        Ok(()) => Ok(()),
        Err(_) => Err(AllocError),
    }
}

/// Lets a parked thread go on.
pub fn resume(now: &mut Now, t: u32)
    ensures { Serves (λ k c. run.may_resume c t) (e.Resume t) now.old now.new }
{
    now.parked.retain(|u| *u != t);
}
