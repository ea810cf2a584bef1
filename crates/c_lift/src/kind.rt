//! Types of names and fields.

ghost use Rattle.std.specs.Prelude.{◌≡◌, ◌&&◌, drop, find, map, position, slice_get, unwrap_or, List, Some, None, if◌then◌else◌, IfOk};
ghost use Rattle.std.specs.Option.{option_copied};
ghost use Rattle.c_tree.specs.Scope as spec;
ghost use Rattle.c_tree.specs.Types as types;
ghost use Rattle.c_tree.specs.Typing as typing;
ghost use Rattle.c_tree.specs.declared.ty.Ty.TheVariants as ty;
ghost use Rattle.c_tree.specs.Lifting as lifting;
ghost use Rattle.c_tree.specs.declared.scope.Named.{Named};
ghost use Rattle.c_lift.specs.Around.{scope_in};

use c_tree::{Field, Function, Meaning, Name, Program, Ty, narrowed};
use std::alloc::AllocError;

/// Whether a type can be told and is a pointer's.
pub fn is_pointer_type(ty: &Option<Ty>) -> bool
    ensures { result ≡ lifting.is_pointer_type ty.now }
{
    match ty {
        None => false,
        Some(ty) => ty.is_pointer(),
    }
}

fn type_at(slots: &[Ty], i: u32) -> Result<Option<Ty>, AllocError>
    ensures { IfOk result (λ t. t ≡ slice_get slots.now i) }
{
    match slots.get(i as usize) {
        Some(ty) => Ok(Some(ty.clone()?)),
        None => Ok(None),
    }
}

fn type_where(ty: &Ty, stands: bool) -> Result<Option<Ty>, AllocError>
    ensures { IfOk result (λ t. t ≡ (if stands then Some ty.now else None)) }
{
    if stands {
        Ok(Some(ty.clone()?))
    } else {
        Ok(None)
    }
}

/// The type of a name's value, of an array none.
pub fn name_type(program: &Program, slots: &[Ty], what: Meaning) -> Result<Option<Ty>, AllocError>
    ensures { IfOk result (λ t. (names : List Named) → t ≡ types.name_type (scope_in program.now
        names slots.now) what) }
{
    match what {
        Meaning::Local(i) => type_at(slots, i),
        Meaning::Constant(_) => Ok(Some(Ty::Int)),
        Meaning::Global(i) => match program.globals.as_slice().get(i as usize) {
            Some(global) => type_where(&global.ty, global.count.is_none()),
            None => Ok(None),
        },
        _ => Ok(None),
    }
}

/// The parameters of a function, and none where there is no function.
pub fn parameters(function: Option<&Function>) -> &[Field]
    ensures { result.now ≡ typing.parameters (option_copied function.entry) }
{
    match function {
        Some(function) => function.params.as_slice(),
        None => &[],
    }
}

/// The result type of a function.
pub fn result_type(function: Option<&Function>) -> Result<Option<Ty>, AllocError>
    ensures { IfOk result (λ t. t ≡ types.result_type (option_copied function.entry)) }
{
    match function {
        Some(function) => Ok(Some(function.ret.clone()?)),
        None => Ok(None),
    }
}

/// A type, where it can be told, and else `int`.
pub fn type_or_int(told: &Option<Ty>) -> Result<Ty, AllocError>
    ensures { IfOk result (λ t. t ≡ unwrap_or told.now ty.Int) }
{
    match told {
        Some(ty) => ty.clone(),
        None => Ok(Ty::Int),
    }
}

/// The parameters after the first.
pub fn rest_of(params: &[Field]) -> &[Field]
    ensures { result.now ≡ drop 1 params.now }
{
    match params {
        [] => params,
        [_, rest @ ..] => rest,
    }
}

fn field_place(fields: &[Field], name: &Name) -> Option<usize>
    ensures { result ≡ position (λ f. spec.is_same_name f.name.it name.now) fields.now }
{
    fields.iter().position(|f| f.name.it == *name)
}

/// The place of the first field of a name, and 0 where there is none.
pub fn field_number(fields: &[Field], name: &Name) -> Result<u32, AllocError>
    ensures { IfOk result (λ n. n ≡ lifting.number_of (map (λ f. f.name) fields.now) name.now) }
{
    let n = narrowed(field_place(fields, name).unwrap_or(0))?;
    Ok(n)
}

/// The type of the first field of a name.
pub fn field_type(fields: &[Field], name: &Name) -> Result<Option<Ty>, AllocError>
    ensures { IfOk result (λ t. t ≡ types.type_of_field (find (λ f. spec.is_same_name f.name.it
        name.now) fields.now)) }
{
    match fields.iter().find(|f| f.name.it == *name) {
        Some(field) => Ok(Some(field.ty.clone()?)),
        None => Ok(None),
    }
}
