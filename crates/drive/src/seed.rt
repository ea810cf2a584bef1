//! The threads that a seed draws.

ghost use Rattle.std.specs.Prelude.{◌≡◌, ◌<◌, IfSome, IsTrue, None, length, slice_get};
ghost use Rattle.c_tree.specs.Plan as plan;
ghost use Rattle.c_tree.specs.declared.run.Picker.TheVariants as picker;
ghost use Rattle.world_core.specs.History.{core, over, may_turn};

use world_core::World;

/// How many threads may make a Step.
fn count_eligible(world: &World) -> u32
    requires { over world.now ≡ None }
    ensures { result ≡ length (plan.eligible world.now.settings (core world.now)) }
{
    let n = world.threads();
    let mut count: u32 = 0;
    for t in 0..n {
        if world.may_step(t) {
            count += 1;
        }
    }
    count
}

/// The thread at an index of those that may make a Step, in ascending order.
fn nth_eligible(world: &World, index: u32) -> Option<u32>
    requires { over world.now ≡ None }
    ensures value { result ≡ slice_get (plan.eligible world.now.settings (core world.now)) index }
    ensures may { IfSome result (λ t. IsTrue (may_turn world.now t)) }
    ensures small { IfSome result (λ t. t < 1000) }
{
    let n = world.threads();
    let mut left = index;
    for t in 0..n {
        if world.may_step(t) {
            if left == 0 {
                return Some(t);
            }
            left -= 1;
        }
    }
    None
}

/// The number that is drawn after x.
pub fn drawn(x: u64) -> u64
    ensures { result ≡ plan.drawn x }
{
    let y = (6364136223846793005 * x as u128 + 1442695040888963407) % 18446744073709551616;
    y as u64
}

/// The thread that the next number draws, where x was drawn last.
pub fn by_seed(world: &World, x: u64) -> Option<u32>
    requires { over world.now ≡ None }
    ensures value { result ≡ plan.picked world.now.settings (core world.now) (picker.Seed x) }
    ensures may { IfSome result (λ t. IsTrue (may_turn world.now t)) }
    ensures small { IfSome result (λ t. t < 1000) }
{
    let count = count_eligible(world);
    if count == 0 {
        return None;
    }
    let index = (drawn(x) / 8589934592) % count as u64;
    nth_eligible(world, index as u32)
}
