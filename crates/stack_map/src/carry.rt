//! Which old slot or field a new one takes its value from.

ghost use Rattle.std.specs.Prelude.{◌≡◌, ◌&&◌, IfOk};
ghost use Rattle.c_tree.specs.Fillings as spec;
ghost use Rattle.c_tree.specs.Link.{is_image};
ghost use Rattle.c_tree.specs.Names.{find_name, slot_names};
ghost use Rattle.c_tree.specs.Scope.{is_same_name};

use c_tree::{Slot, narrowed};
use patch_match::Link;
use std::alloc::AllocError;

/// Whether a new slot or field takes the value of an old one.
fn takes(k: &Link<'_>, old: &Slot, new: &Slot) -> bool
    ensures { result ≡ (is_same_name old.now.name new.now.name
        && is_image k.now old.now.ty new.now.ty) }
{
    old.name == new.name && k.is_image(&old.ty, &new.ty)
}

/// The number of the old slot or field of the same name and image type. `first` is the first of the
/// name, where the search begins. A number past 4,294,967,295 counts as want of memory.
pub fn carried(
    k: &Link<'_>,
    olds: &[Slot],
    first: Option<u32>,
    new: &Slot,
) -> Result<Option<u32>, AllocError>
    requires { first ≡ find_name new.now.name (slot_names olds.now) }
    ensures { IfOk result (λ o. o ≡ spec.carried k.now olds.now new.now) }
{
    let first = match first {
        Some(first) => first,
        None => return Ok(None),
    };
    for i in first as usize..olds.len() {
        if takes(k, &olds[i], new) {
            return Ok(Some(narrowed(i)?));
        }
    }
    Ok(None)
}
