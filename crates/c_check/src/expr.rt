//! The types and the faults of expressions.

ghost use Rattle.std.specs.Prelude.{◌≡◌, ◌++◌, drop, Some, IfOk, OnOk};
ghost use Rattle.c_tree.specs.declared.ty.Ty.TheVariants as ty;
ghost use Rattle.c_check.specs.Inner.{around};
ghost use Rattle.c_check.specs.Tests.{side_of};
ghost use Rattle.c_check.specs.Words.{noted, typed, found, valued, fitted, sided, placed, filled, started, argued, arguments};

use crate::calls::{lock, note_call, note_lvalue, note_start};
use crate::locals::Locals;
use crate::note::{ask, note, note_unless};
use crate::scope::{element_of, is_zero, meaning, value_of_name};
use crate::structs::{field_of, note_type, object_of};
use crate::types::{Operand, Test, may_fit, may_pass, takes, test_of};
use c_tree::{At, BinOp, CheckCause, Expr, ExprKind, Fault, Field, Name, Ty};
use name_index::{File, routine};
use std::alloc::AllocError;

/// The type of an expression. Its faults are noted, but for what is asked of its value.
#[cycle(expr)]
#[tactic(auto, using(crate::proofs::ExprLemmas::forms))]
pub fn expr(
    x: &Expr,
    file: &File<'_>,
    locals: &Locals,
    first: &mut Option<Fault>,
) -> Result<Option<Ty>, AllocError>
    ensures ty { IfOk result (λ t. t ≡ typed (around file.now locals.now) x.now.kind) }
    ensures faults { OnOk result (first.new ≡ noted first.old
        (found (around file.now locals.now) x.now.at x.now.kind)) }
{
    match &x.kind {
        ExprKind::Num(_) => Ok(Some(Ty::Int)),
        ExprKind::Eof => Ok(Some(Ty::Int)),
        ExprKind::Getchar => Ok(Some(Ty::Int)),
        ExprKind::Null => Ok(Some(Ty::AnyPtr)),
        ExprKind::Slot(_, _) => Ok(None),
        ExprKind::Name(name) => value_of_name(x.at, name, file, locals, first),
        ExprKind::Index(name, index) => {
            value(index.get(), Test::Int, file, locals, first)?;
            element_of(x.at, name, file, locals, first)
        }
        ExprKind::Field(base, name) => {
            let owner = value(base.get(), Test::Anything, file, locals, first)?;
            field_of(x.at, &owner, name, file, first)
        }
        ExprKind::Un(op, a) => {
            value(a.get(), test_of(*op), file, locals, first)?;
            Ok(Some(Ty::Int))
        }
        ExprKind::Bin(op, a, b) => {
            let left = operand(a.get(), file, locals, first)?;
            let right = operand(b.get(), file, locals, first)?;
            note_unless(first, takes(*op, &left, &right), x.at, CheckCause::BadType);
            Ok(Some(Ty::Int))
        }
        ExprKind::Cast(to, a) => cast(x.at, to, a.get(), file, locals, first),
        ExprKind::Call(name, args) => call(x.at, name, args.as_slice(), file, locals, first),
        ExprKind::Malloc(name) => object_of(name, file, first),
        ExprKind::Create(to, name, a) => {
            place_of(to.get(), Test::Thread, file, locals, first)?;
            note_start(name, file, locals, first)?;
            fitting(a.get(), &Ty::AnyPtr, file, locals, first)?;
            Ok(Some(Ty::Int))
        }
        ExprKind::Join(a) => {
            value(a.get(), Test::Thread, file, locals, first)?;
            Ok(Some(Ty::Int))
        }
        ExprKind::Lock(name) => lock(x.at, name, file, locals, first),
        ExprKind::Unlock(name) => lock(x.at, name, file, locals, first),
    }
}

/// The type that a cast gives.
#[cycle(expr)]
#[tactic(auto, using(crate::proofs::ExprLemmas::forms))]
fn cast(
    at: u32,
    to: &Ty,
    a: &Expr,
    file: &File<'_>,
    locals: &Locals,
    first: &mut Option<Fault>,
) -> Result<Option<Ty>, AllocError>
    ensures ty { IfOk result (λ t. t
        ≡ typed (around file.now locals.now) (ExprKind.Cast to.now a.now)) }
    ensures faults { OnOk result (first.new
        ≡ noted first.old (found (around file.now locals.now) at (ExprKind.Cast to.now a.now))) }
{
    note_type(at, to, file, first)?;
    value(a, Test::Pointer, file, locals, first)?;
    Ok(Some(to.clone()?))
}

/// The type of an expression whose value is to pass a test.
#[cycle(expr)]
#[tactic(auto, using(crate::proofs::ExprLemmas::asking))]
pub fn value(
    x: &Expr,
    test: Test,
    file: &File<'_>,
    locals: &Locals,
    first: &mut Option<Fault>,
) -> Result<Option<Ty>, AllocError>
    ensures ty { IfOk result (λ t. t ≡ typed (around file.now locals.now) x.now.kind) }
    ensures faults { OnOk result (first.new ≡ noted first.old
        (valued (around file.now locals.now) test x.now)) }
{
    let ty = expr(x, file, locals, first)?;
    let passes = may_pass(test, is_zero(x, file, locals), &ty);
    ask(first, passes, x.at, &ty);
    Ok(ty)
}

/// Notes the faults of an expression whose value is to fit a type.
#[cycle(expr)]
#[tactic(auto, using(crate::proofs::ExprLemmas::asking))]
pub fn fitting(
    x: &Expr,
    asked: &Ty,
    file: &File<'_>,
    locals: &Locals,
    first: &mut Option<Fault>,
) -> Result<(), AllocError>
    ensures { OnOk result (first.new ≡ noted first.old
        (fitted (around file.now locals.now) asked.now x.now)) }
{
    let ty = expr(x, file, locals, first)?;
    let passes = may_fit(asked, is_zero(x, file, locals), &ty);
    ask(first, passes, x.at, &ty);
    Ok(())
}

/// The type of an lvalue. Nothing is asked of its value.
#[cycle(expr)]
#[tactic(auto, using(crate::proofs::ExprLemmas::asking))]
pub fn place(
    x: &Expr,
    file: &File<'_>,
    locals: &Locals,
    first: &mut Option<Fault>,
) -> Result<Option<Ty>, AllocError>
    ensures ty { IfOk result (λ t. t ≡ typed (around file.now locals.now) x.now.kind) }
    ensures faults { OnOk result (first.new ≡ noted first.old
        (placed (around file.now locals.now) x.now)) }
{
    let ty = expr(x, file, locals, first)?;
    note_lvalue(x, file, locals, first);
    Ok(ty)
}

/// Notes the faults of an lvalue that is to pass a test.
#[cycle(expr)]
#[tactic(auto, using(crate::proofs::ExprLemmas::asking))]
pub fn place_of(
    x: &Expr,
    test: Test,
    file: &File<'_>,
    locals: &Locals,
    first: &mut Option<Fault>,
) -> Result<(), AllocError>
    ensures { OnOk result (first.new ≡ noted first.old
        (filled (around file.now locals.now) test x.now)) }
{
    let ty = place(x, file, locals, first)?;
    let passes = may_pass(test, is_zero(x, file, locals), &ty);
    ask(first, passes, x.at, &ty);
    Ok(())
}

/// The operand of an operator.
#[cycle(expr)]
#[tactic(auto, using(crate::proofs::ExprLemmas::asking))]
fn operand(
    x: &Expr,
    file: &File<'_>,
    locals: &Locals,
    first: &mut Option<Fault>,
) -> Result<Operand, AllocError>
    ensures side { IfOk result (λ a. side_of a ≡ sided (around file.now locals.now) x.now.kind) }
    ensures faults { OnOk result (first.new ≡ noted first.old
        (valued (around file.now locals.now) (Test.Anything) x.now)) }
{
    let ty = value(x, Test::Anything, file, locals, first)?;
    Ok(Operand {
        ty,
        is_zero: is_zero(x, file, locals),
    })
}

/// The type that a call gives.
#[cycle(expr)]
#[tactic(auto, using(crate::proofs::ExprLemmas::calling))]
fn call(
    at: u32,
    name: &Name,
    args: &[Expr],
    file: &File<'_>,
    locals: &Locals,
    first: &mut Option<Fault>,
) -> Result<Option<Ty>, AllocError>
    ensures ty { IfOk result (λ t. t ≡ typed (around file.now locals.now)
        (ExprKind.Call name.now args.now)) }
    ensures faults { OnOk result (first.new ≡ noted first.old
        (found (around file.now locals.now) at (ExprKind.Call name.now args.now))) }
{
    match routine(file.program(), meaning(file, locals, name)) {
        None => {
            note(first, at, CheckCause::Unknown(name.clone()?));
            all_arguments(args, &[], file, locals, first)?;
            Ok(None)
        }
        Some(function) => {
            note_call(at, name, args.len(), function, file, first)?;
            all_arguments(args, function.params.as_slice(), file, locals, first)?;
            Ok(Some(function.ret.clone()?))
        }
    }
}

#[cycle(expr)]
#[tactic(auto, using(crate::proofs::ExprLemmas::calling))]
fn all_arguments(
    args: &[Expr],
    params: &[Field],
    file: &File<'_>,
    locals: &Locals,
    first: &mut Option<Fault>,
) -> Result<(), AllocError>
    ensures { OnOk result (first.new ≡ noted first.old
        (arguments (around file.now locals.now) params.now args.now)) }
{
    let mut left = params;
    for arg in args {
        left = argument(arg, left, file, locals, first)?;
    }
    Ok(())
}

/// Notes the faults of an argument for the first of the parameters, and gives the others.
#[cycle(expr)]
#[tactic(auto, using(crate::proofs::ExprLemmas::calling))]
fn argument<'a>(
    arg: &Expr,
    params: &'a [Field],
    file: &File<'_>,
    locals: &Locals,
    first: &mut Option<Fault>,
) -> Result<&'a [Field], AllocError>
    ensures rest { IfOk result (λ r. r.now ≡ drop 1 params.now) }
    ensures faults { OnOk result (first.new ≡ noted first.old
        (argued (around file.now locals.now) params.now arg.now)) }
{
    match params {
        [] => {
            value(arg, Test::Anything, file, locals, first)?;
            Ok(params)
        }
        [param, rest @ ..] => {
            fitting(arg, &param.ty, file, locals, first)?;
            Ok(rest)
        }
    }
}
