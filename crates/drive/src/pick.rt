//! The thread of the next Step.

ghost use Rattle.std.specs.Prelude.{◌≡◌, ◌<◌, IfSome, IsTrue, None};
ghost use Rattle.c_tree.specs.Plan as plan;
ghost use Rattle.c_tree.specs.declared.event.EventKind.TheVariants as e;
ghost use Rattle.c_tree.specs.declared.run.Picker.TheVariants as picker;
ghost use Rattle.world_core.specs.History.{core, over, may_turn};
ghost use Rattle.drive.specs.OnWay.{IsLow};

use crate::seed::{by_seed, drawn};
use c_tree::Picker;
use world_core::World;

/// The lowest thread from a number on that may make a Step.
pub fn lowest_from(world: &World, from: u32) -> Option<u32>
    requires { over world.now ≡ None }
    ensures value { result ≡ plan.lowest_from world.now.settings (core world.now) from }
    ensures may { IfSome result (λ t. IsTrue (may_turn world.now t)) }
    ensures small { IfSome result (λ t. t < 1000) }
{
    let n = world.threads();
    let first = from.min(n);
    for t in first..n {
        if world.may_step(t) {
            return Some(t);
        }
    }
    None
}

/// The number above the last thread's.
fn above(last: Option<u32>) -> u32
    requires { IfSome last (λ t. t < 1000) }
    ensures { result ≡ plan.above last }
{
    match last {
        Some(t) => t + 1,
        None => 0,
    }
}

/// The lowest thread above the last that may make a Step, or else the lowest of all.
pub fn by_round(world: &World, last: Option<u32>) -> Option<u32>
    requires going { over world.now ≡ None }
    requires low { IfSome last (λ t. t < 1000) }
    ensures value { result ≡ plan.picked world.now.settings (core world.now) (picker.Round last) }
    ensures may { IfSome result (λ t. IsTrue (may_turn world.now t)) }
    ensures small { IfSome result (λ t. t < 1000) }
{
    if let Some(t) = lowest_from(world, above(last)) {
        return Some(t);
    }
    lowest_from(world, 0)
}

/// The thread that the picker takes, where any may make a Step.
pub fn pick(world: &World, picker: Picker) -> Option<u32>
    requires going { over world.now ≡ None }
    requires low { IsLow picker }
    ensures value { result ≡ plan.picked world.now.settings (core world.now) picker }
    ensures may { IfSome result (λ t. IsTrue (may_turn world.now t)) }
    ensures low { IfSome result (λ t. t < 1000) }
{
    match picker {
        Picker::Round(last) => by_round(world, last),
        Picker::Seed(x) => by_seed(world, x),
    }
}

/// How the picker goes on after a Step.
pub fn after_step(picker: Picker, t: u32) -> Picker
    ensures { result ≡ plan.picker_after picker (e.Step t) }
{
    match picker {
        Picker::Round(_) => Picker::Round(Some(t)),
        Picker::Seed(x) => Picker::Seed(drawn(x)),
    }
}
