//! Operators on operands that have types.

ghost use Rattle.std.specs.Prelude.{◌≡◌, IfOk};
ghost use Rattle.c_tree.specs.MapExpr as map_expr;
ghost use Rattle.map_entries.specs.Forms as spec;

use crate::typed::Typed;
use crate::types::{passes_pointer, takes_one, takes_two};
use c_tree::{BinOp, Boxed, LExpr, Ty, UnOp};
use std::alloc::{AllocError, Global};

fn int_if(takes: bool) -> Option<Ty>
    ensures { result ≡ map_expr.int_if takes }
{
    if takes { Some(Ty::Int) } else { None }
}

/// A prefix operator on its operand.
pub fn prefixed(
    alloc: Global,
    op: UnOp,
    operand: Option<Typed>,
) -> Result<Option<Typed>, AllocError>
    ensures { IfOk result (λ o. o ≡ spec.un_typed op operand) }
{
    let operand = match operand {
        Some(operand) => operand,
        None => return Ok(None),
    };
    let ty = int_if(takes_one(op, &operand.ty));
    let expr = LExpr::Un(op, Boxed::new(alloc, operand.expr)?);
    Ok(Some(Typed { expr, ty }))
}

fn is_zero(x: &LExpr) -> bool
    ensures { result ≡ spec.is_zero x.now }
{
    match x {
        LExpr::Num(n) => *n == 0,
        _ => false,
    }
}

/// The literal 0 beside a pointer is the null pointer.
#[tactic(auto, unfolding(crate::specs::Forms::beside_typed))]
fn beside(x: Typed, is_beside_pointer: bool) -> Typed
    ensures { result ≡ spec.beside_typed x is_beside_pointer }
{
    if is_zero(&x.expr) && is_beside_pointer {
        return Typed {
            expr: LExpr::Null,
            ty: Some(Ty::AnyPtr),
        };
    }
    x
}

fn joined(alloc: Global, op: BinOp, left: Typed, right: Typed) -> Result<Typed, AllocError>
    ensures { IfOk result (λ t. t ≡ spec.joined op left right) }
{
    let ty = int_if(takes_two(op, &left.ty, &right.ty));
    let left = Boxed::new(alloc, left.expr)?;
    let right = Boxed::new(alloc, right.expr)?;
    Ok(Typed {
        expr: LExpr::Bin(op, left, right),
        ty,
    })
}

fn compares(op: BinOp) -> bool
    ensures { result ≡ spec.compares op }
{
    matches!(op, BinOp::Eq | BinOp::Ne)
}

/// An operator on both sides.
pub fn operated(
    alloc: Global,
    op: BinOp,
    left: Option<Typed>,
    right: Option<Typed>,
) -> Result<Option<Typed>, AllocError>
    ensures { IfOk result (λ o. o ≡ spec.bin_typed op left right) }
{
    let left = match left {
        Some(left) => left,
        None => return Ok(None),
    };
    let right = match right {
        Some(right) => right,
        None => return Ok(None),
    };
    if !compares(op) {
        return Ok(Some(joined(alloc, op, left, right)?));
    }
    let left_is_pointer = passes_pointer(&left.ty);
    let right_is_pointer = passes_pointer(&right.ty);
    let left = beside(left, right_is_pointer);
    let right = beside(right, left_is_pointer);
    Ok(Some(joined(alloc, op, left, right)?))
}
