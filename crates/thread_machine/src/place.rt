//! Where activations stand.

ghost use Rattle.std.specs.Prelude.{◌≡◌, slice_get};
ghost use Rattle.target_code.specs.Machine.{function_in};
ghost use Rattle.target_code.specs.Seen.{place_after};
ghost use Rattle.thread_machine.specs.Standing.{place_by, cost_by};

use target_code::{Code, Instr};

/// The code of a function; none where no function has the number.
pub fn body_of(code: &Code, function: u32) -> &[Instr]
    ensures { result.now ≡ (function_in code.now function).body }
{
    match code.functions().as_slice().get(function as usize) {
        Some(function) => function.body.as_slice(),
        None => &[],
    }
}

/// The place of the `after` at a position.
fn place_of_after(body: &[Instr], at: u32) -> u32
    ensures { result ≡ place_after (slice_get body.now at) }
{
    match body.get(at as usize) {
        Some(Instr::After(place, _)) => *place,
        _ => 0,
    }
}

/// The place at whose mark or call a position is.
pub fn place_in(body: &[Instr], pc: u32) -> u32
    ensures { result ≡ place_by body.now (slice_get body.now pc) }
{
    match body.get(pc as usize) {
        Some(Instr::Mark(place)) => *place,
        Some(Instr::After(place, _)) => *place,
        Some(Instr::Jump(to)) => place_of_after(body, *to),
        _ => 0,
    }
}

/// How many instructions it takes to save a frame that stands at a position.
pub fn cost_in(body: &[Instr], pc: u32) -> u64
    ensures { result ≡ cost_by (slice_get body.now pc) }
{
    match body.get(pc as usize) {
        Some(Instr::After(_, _)) => 1,
        _ => 2,
    }
}
