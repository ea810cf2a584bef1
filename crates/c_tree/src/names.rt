//! The names of what is numbered; none of what is not there.

ghost use Rattle.std.specs.Prelude.{◌≡◌};
ghost use Rattle.c_tree.specs.Names as spec;
ghost use Rattle.c_tree.specs.Step.{function_of};

use crate::lifted::{Lifted, Slot};

/// The name of a function.
#[tactic(auto, using(crate::proofs::PrintLemmas::function_name))]
pub fn function_name(program: &Lifted, function: u32) -> &[u8]
    ensures name { result.now ≡ (function_of program.now function).name }
    ensures at { result.now ≡ spec.name_at program.now 0 function }
{
    match program.functions.as_slice().get(function as usize) {
        Some(function) => function.name.as_bytes(),
        None => &[],
    }
}

/// The name of a slot of a function, or of a field of a struct.
pub fn slot_name(slots: &[Slot], slot: u32) -> &[u8]
    ensures { result.now ≡ spec.slot_name slots.now slot }
{
    match slots.get(slot as usize) {
        Some(slot) => slot.name.as_bytes(),
        None => &[],
    }
}
