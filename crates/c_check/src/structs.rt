//! Structs in types, and their fields.

ghost use Rattle.std.specs.Prelude.{◌≡◌, Option, Some, is_some, IfOk, OnOk};
ghost use Rattle.c_tree.specs.declared.ty.Ty.{Ty};
ghost use Rattle.c_tree.specs.declared.ty.Ty.TheVariants as ty;
ghost use Rattle.c_tree.specs.Typing.{field_faults};
ghost use Rattle.c_check.specs.Words.{noted, member, selected, of_type};

use crate::note::{note_known_struct, note_unless};
use c_tree::{At, CheckCause, Fault, Name, Ty};
use name_index::File;
use std::alloc::AllocError;

/// Notes where a struct in a type is not declared.
#[tactic(auto, unfolding(crate::specs::Words::of_type, crate::specs::Words::noted))]
pub fn note_type(
    at: u32,
    ty: &Ty,
    file: &File<'_>,
    first: &mut Option<Fault>,
) -> Result<(), AllocError>
    ensures { OnOk result (first.new ≡ noted first.old (of_type file.now at ty.now)) }
{
    match ty {
        Ty::Ptr(name) => {
            let is_known = file.struct_named(name).is_some();
            note_known_struct(first, is_known, at, name)
        }
        _ => Ok(()),
    }
}

#[tactic(auto, unfolding(crate::specs::Words::member))]
fn member_type(owner: &Option<Ty>, name: &Name, file: &File<'_>) -> Result<Option<Ty>, AllocError>
    ensures { IfOk result (λ t. t ≡ member file.now owner.now name.now) }
{
    match owner {
        Some(Ty::Ptr(owner)) => match file.field(owner, name) {
            Some(field) => Ok(Some(field.ty.clone()?)),
            None => Ok(None),
        },
        _ => Ok(None),
    }
}

/// The type that `malloc` of a struct gives. It is noted where the struct is not declared.
pub fn object_of(
    name: &At<Name>,
    file: &File<'_>,
    first: &mut Option<Fault>,
) -> Result<Option<Ty>, AllocError>
    ensures ty { IfOk result (λ t. t ≡ Some (ty.Ptr name.now.it)) }
    ensures faults { OnOk result (first.new
        ≡ noted first.old (of_type file.now name.now.at (ty.Ptr name.now.it))) }
{
    let ty = Ty::Ptr(name.it.clone()?);
    note_type(name.at, &ty, file, first)?;
    Ok(Some(ty))
}

/// The type of a field of a value, whose type is that of `owner`.
#[tactic(auto, unfolding(crate::specs::Words::member, crate::specs::Words::selected))]
pub fn field_of(
    at: u32,
    owner: &Option<Ty>,
    name: &Name,
    file: &File<'_>,
    first: &mut Option<Fault>,
) -> Result<Option<Ty>, AllocError>
    ensures ty { IfOk result (λ t. t ≡ member file.now owner.now name.now) }
    ensures faults { OnOk result (first.new ≡ noted first.old
        (selected file.now at owner.now name.now)) }
{
    let ty = member_type(owner, name, file)?;
    note_field(first, at, owner, ty.is_some());
    Ok(ty)
}

/// Notes where a value has no such field, if its type can be told.
#[tactic(auto, unfolding(crate::specs::Words::noted))]
fn note_field(first: &mut Option<Fault>, at: u32, owner: &Option<Ty>, is_there: bool)
    ensures { (t : Option Ty) → is_there ≡ is_some t → first.new
        ≡ noted first.old (field_faults at owner.now t) }
{
    match owner {
        None | Some(Ty::Void) => {}
        Some(_) => note_unless(first, is_there, at, CheckCause::BadType),
    }
}
