//! Expressions by numbers, form by form.

ghost use Rattle.std.specs.Prelude.{◌≡◌, IfOk, Some};
ghost use Rattle.c_tree.specs.MapExpr as spec;
ghost use Rattle.map_entries.specs.Forms.{end_typed, lifted};
ghost use Rattle.map_entries.specs.Typed.{reads_of, typed};

use crate::member::{indexed, member};
use crate::names::{array_named, named, slot_name};
use crate::operator::{operated, prefixed};
use crate::reads::Reads;
use crate::typed::Typed;
use c_tree::{Boxed, ExprKind, LExpr, Ty, UnOp};
use patch_match::Tables;
use std::alloc::{AllocError, Global};

/// An expression of a type.
fn of_type(expr: LExpr, ty: Ty) -> Typed
    ensures expr { result.expr ≡ expr }
    ensures ty { result.ty ≡ Some ty }
{
    Typed { expr, ty: Some(ty) }
}

/// The end of a file, which is -1.
fn end_of_file(alloc: Global) -> Result<Option<Typed>, AllocError>
    ensures { IfOk result (λ o. o ≡ end_typed) }
{
    let one = Boxed::new(alloc, LExpr::Num(1))?;
    Ok(Some(of_type(LExpr::Un(UnOp::Neg, one), Ty::Int)))
}

#[tactic(auto, using(crate::proofs::LiftLemmas::lift_rules))]
fn lifted_expr(
    alloc: Global,
    old: &Tables<'_>,
    reads: Reads,
    x: &ExprKind,
) -> Result<Option<Typed>, AllocError>
    ensures { IfOk result (λ o. o ≡ lifted (reads_of old.now reads) x.now) }
{
    match x {
        ExprKind::Num(n) => Ok(Some(of_type(LExpr::Num(*n), Ty::Int))),
        ExprKind::Null => Ok(Some(of_type(LExpr::Null, Ty::AnyPtr))),
        ExprKind::Eof => end_of_file(alloc),
        ExprKind::Name(name) => named(old, reads, name),
        ExprKind::Slot(name, n) => {
            let full = slot_name(alloc, name, *n)?;
            named(old, reads, &full)
        }
        ExprKind::Index(name, index) => {
            let index = lifted_expr(alloc, old, reads, &index.get().kind)?;
            indexed(alloc, old, array_named(old, reads, name), index)
        }
        ExprKind::Field(base, name) => {
            let base = lifted_expr(alloc, old, reads, &base.get().kind)?;
            member(alloc, old, base, name)
        }
        ExprKind::Un(op, operand) => {
            let operand = lifted_expr(alloc, old, reads, &operand.get().kind)?;
            prefixed(alloc, *op, operand)
        }
        ExprKind::Bin(op, left, right) => {
            let left = lifted_expr(alloc, old, reads, &left.get().kind)?;
            let right = lifted_expr(alloc, old, reads, &right.get().kind)?;
            operated(alloc, *op, left, right)
        }
        ExprKind::Cast(_, _) | ExprKind::Call(_, _) | ExprKind::Malloc(_) => Ok(None),
        ExprKind::Getchar | ExprKind::Create(_, _, _) | ExprKind::Join(_) => Ok(None),
        ExprKind::Lock(_) | ExprKind::Unlock(_) => Ok(None),
    }
}

/// An expression by numbers in place of the names that a mapping writes, with its type. None where
/// a name is not there.
#[tactic(auto, using(crate::proofs::LiftLemmas::lifted_rules))]
pub fn numbered(
    alloc: Global,
    old: &Tables<'_>,
    reads: Reads,
    x: &ExprKind,
) -> Result<Option<Typed>, AllocError>
    ensures { IfOk result (λ o. o ≡ typed (reads_of old.now reads)
        (spec.numbered (reads_of old.now reads) x.now)) }
{
    lifted_expr(alloc, old, reads, x)
}
