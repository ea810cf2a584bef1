//! The types that slots, fields and globals are declared with.

ghost use Rattle.std.specs.Prelude.{◌≡◌, slice_get, IfOk};
ghost use Rattle.c_tree.specs.MapExpr as spec;

use c_tree::{LGlobal, Slot, Ty};
use std::alloc::AllocError;

/// The type of a slot or a field.
pub fn slot_type(slots: &[Slot], i: u32) -> Result<Option<Ty>, AllocError>
    ensures { IfOk result (λ t. t ≡ spec.slot_type (slice_get slots.now i)) }
{
    match slots.get(i as usize) {
        Some(slot) => Ok(Some(slot.ty.clone()?)),
        None => Ok(None),
    }
}

/// The type of a global that is no array.
pub fn scalar_type(globals: &[LGlobal], g: u32) -> Result<Option<Ty>, AllocError>
    ensures { IfOk result (λ t. t ≡ spec.scalar_type (slice_get globals.now g)) }
{
    match globals.get(g as usize) {
        Some(global) => {
            if global.count.is_some() {
                return Ok(None);
            }
            Ok(Some(global.ty.clone()?))
        }
        None => Ok(None),
    }
}

/// The type of an array's elements.
pub fn array_type(globals: &[LGlobal], g: u32) -> Result<Option<Ty>, AllocError>
    ensures { IfOk result (λ t. t ≡ spec.array_type (slice_get globals.now g)) }
{
    match globals.get(g as usize) {
        Some(global) => {
            if global.count.is_none() {
                return Ok(None);
            }
            Ok(Some(global.ty.clone()?))
        }
        None => Ok(None),
    }
}
