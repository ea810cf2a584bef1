//! Elements of arrays, and fields of objects.

ghost use Rattle.std.specs.Prelude.{◌≡◌, slice_get, IfOk};
ghost use Rattle.c_tree.specs.MapExpr as map_expr;
ghost use Rattle.map_entries.specs.Forms as spec;

use crate::declared::{array_type, slot_type};
use crate::typed::Typed;
use crate::types::{passes_int, passes_pointer_to};
use c_tree::{Boxed, LExpr, LGlobal, LStruct, Name, Ty};
use patch_match::Tables;
use std::alloc::{AllocError, Global};

fn element_type(globals: &[LGlobal], g: u32, index: &Option<Ty>) -> Result<Option<Ty>, AllocError>
    ensures { IfOk result (λ t. t ≡
        map_expr.indexed_type (map_expr.array_type (slice_get globals.now g)) index.now) }
{
    if !passes_int(index) {
        return Ok(None);
    }
    array_type(globals, g)
}

/// An element of an array.
pub fn indexed(
    alloc: Global,
    old: &Tables<'_>,
    array: Option<u32>,
    index: Option<Typed>,
) -> Result<Option<Typed>, AllocError>
    ensures { IfOk result (λ o. o ≡ spec.indexed_typed old.now array index) }
{
    let array = match array {
        Some(array) => array,
        None => return Ok(None),
    };
    let index = match index {
        Some(index) => index,
        None => return Ok(None),
    };
    let ty = element_type(old.program().globals.as_slice(), array, &index.ty)?;
    let expr = LExpr::Elem(array, Boxed::new(alloc, index.expr)?);
    Ok(Some(Typed { expr, ty }))
}

/// The struct that a pointer points to.
fn pointed(old: &Tables<'_>, ty: &Option<Ty>) -> Option<u32>
    ensures { result ≡ map_expr.pointed old.now ty.now }
{
    match ty {
        Some(Ty::Ptr(owner)) => old.number(1, owner),
        _ => None,
    }
}

fn member_type(
    structs: &[LStruct],
    owner: u32,
    field: u32,
    pointer: &Option<Ty>,
) -> Result<Option<Ty>, AllocError>
    ensures { IfOk result (λ t. t ≡
        map_expr.member_type (slice_get structs.now owner) field pointer.now) }
{
    let owner = match structs.get(owner as usize) {
        Some(owner) => owner,
        None => return Ok(None),
    };
    if !passes_pointer_to(&owner.name, pointer) {
        return Ok(None);
    }
    slot_type(owner.fields.as_slice(), field)
}

/// A field of what a pointer points to.
pub fn member(
    alloc: Global,
    old: &Tables<'_>,
    base: Option<Typed>,
    name: &Name,
) -> Result<Option<Typed>, AllocError>
    ensures { IfOk result (λ o. o ≡ spec.member_typed old.now base name.now) }
{
    let base = match base {
        Some(base) => base,
        None => return Ok(None),
    };
    let owner = match pointed(old, &base.ty) {
        Some(owner) => owner,
        None => return Ok(None),
    };
    let field = match old.field(owner, name) {
        Some(field) => field,
        None => return Ok(None),
    };
    let ty = member_type(old.program().structs.as_slice(), owner, field, &base.ty)?;
    let expr = LExpr::Field(Boxed::new(alloc, base.expr)?, owner, field);
    Ok(Some(Typed { expr, ty }))
}
