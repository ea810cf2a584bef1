//! What names stand for where an expression stands.

ghost use Rattle.std.specs.Prelude.{◌≡◌, slice_get, IfOk, OnOk};
ghost use Rattle.std.specs.Option.{option_copied};
ghost use Rattle.c_tree.specs.Types as types;
ghost use Rattle.c_tree.specs.Typing as typing;
ghost use Rattle.c_tree.specs.Scope as spec;
ghost use Rattle.c_check.specs.Inner.{around};
ghost use Rattle.c_check.specs.Words.{noted, typed, found, element, indexed};

use crate::locals::Locals;
use crate::note::note;
use c_tree::{CheckCause, Expr, ExprKind, Fault, GlobalDecl, Meaning, Name, Program, Ty};
use name_index::{File, element_type, is_zero_define, is_zero_number};
use std::alloc::AllocError;

/// What a name stands for.
pub fn meaning(file: &File<'_>, locals: &Locals, name: &Name) -> Meaning
    ensures { result ≡ spec.meaning (around file.now locals.now) name.now }
{
    match locals.nearest(name) {
        Some(what) => what,
        None => file.meaning(name),
    }
}

/// Whether an expression is a literal 0, also by a define's name.
pub fn is_zero(x: &Expr, file: &File<'_>, locals: &Locals) -> bool
    ensures { result ≡ types.is_zero (around file.now locals.now) x.now.kind }
{
    match &x.kind {
        ExprKind::Num(n) => is_zero_number(*n),
        ExprKind::Name(name) => is_zero_define(file.define(meaning(file, locals, name))),
        _ => false,
    }
}

fn global(program: &Program, i: u32) -> Option<&GlobalDecl>
    ensures { option_copied result ≡ slice_get program.now.globals i }
{
    program.globals.as_slice().get(i as usize)
}

fn name_type(file: &File<'_>, locals: &Locals, what: Meaning) -> Result<Option<Ty>, AllocError>
    ensures { IfOk result (λ t. t ≡ types.name_type (around file.now locals.now) what) }
{
    match what {
        Meaning::Local(i) => match locals.slot(i as usize) {
            Some(ty) => Ok(Some(ty.clone()?)),
            None => Ok(None),
        },
        Meaning::Constant(_) => Ok(Some(Ty::Int)),
        Meaning::Global(i) => match global(file.program(), i) {
            Some(global) => if global.count.is_some() {
                Ok(None)
            } else {
                Ok(Some(global.ty.clone()?))
            },
            None => Ok(None),
        },
        _ => Ok(None),
    }
}

/// Notes where a name stands for nothing, or for what may not stand there.
#[tactic(auto, unfolding(crate::specs::Words::noted))]
fn note_name(
    first: &mut Option<Fault>,
    at: u32,
    name: &Name,
    what: Meaning,
    ty: &Option<Ty>,
) -> Result<(), AllocError>
    ensures { OnOk result (first.new ≡ noted first.old
        (typing.name_faults at name.now what ty.now)) }
{
    if ty.is_some() {
        return Ok(());
    }
    match what {
        Meaning::Nothing => note(first, at, CheckCause::Unknown(name.clone()?)),
        _ => note(first, at, CheckCause::BadType),
    }
    Ok(())
}

/// The type of a name that stands as a value or an lvalue.
#[tactic(auto, unfolding(crate::specs::Words::typed, crate::specs::Words::found))]
pub fn value_of_name(
    at: u32,
    name: &Name,
    file: &File<'_>,
    locals: &Locals,
    first: &mut Option<Fault>,
) -> Result<Option<Ty>, AllocError>
    ensures ty { IfOk result (λ t. t ≡ typed (around file.now locals.now)
        (ExprKind.Name name.now)) }
    ensures faults { OnOk result (first.new ≡ noted first.old
        (found (around file.now locals.now) at (ExprKind.Name name.now))) }
{
    let what = meaning(file, locals, name);
    let ty = name_type(file, locals, what)?;
    note_name(first, at, name, what, &ty)?;
    Ok(ty)
}

/// The type of an array's elements.
#[tactic(auto, unfolding(crate::specs::Words::element, crate::specs::Words::indexed))]
pub fn element_of(
    at: u32,
    name: &Name,
    file: &File<'_>,
    locals: &Locals,
    first: &mut Option<Fault>,
) -> Result<Option<Ty>, AllocError>
    ensures ty { IfOk result (λ t. t ≡ element (around file.now locals.now) name.now) }
    ensures faults { OnOk result (first.new ≡ noted first.old
        (indexed (around file.now locals.now) at name.now)) }
{
    let what = meaning(file, locals, name);
    let ty = element_type(file.program(), what)?;
    note_name(first, at, name, what, &ty)?;
    Ok(ty)
}
