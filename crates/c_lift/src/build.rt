//! Small expressions of the lifted tree.

ghost use Rattle.std.specs.Prelude.{◌≡◌, IfOk};
ghost use Rattle.c_tree.specs.Lifting as lifting;
ghost use Rattle.c_tree.specs.declared.lifted.LExpr as l;

use c_tree::{BinOp, Boxed, Dest, LExpr, Meaning, Program, UnOp};
use std::alloc::{AllocError, Global};

/// An operator before an expression.
pub fn un(alloc: Global, op: UnOp, x: LExpr) -> Result<LExpr, AllocError>
    ensures { IfOk result (λ v. v ≡ l.Un op x) }
{
    Ok(LExpr::Un(op, Boxed::new(alloc, x)?))
}

/// An operator between two expressions.
pub fn bin(alloc: Global, op: BinOp, x: LExpr, y: LExpr) -> Result<LExpr, AllocError>
    ensures { IfOk result (λ v. v ≡ l.Bin op x y) }
{
    Ok(LExpr::Bin(op, Boxed::new(alloc, x)?, Boxed::new(alloc, y)?))
}

/// An element of an array, by the number of its global.
pub fn elem(alloc: Global, array: u32, index: LExpr) -> Result<LExpr, AllocError>
    ensures { IfOk result (λ v. v ≡ l.Elem array index) }
{
    Ok(LExpr::Elem(array, Boxed::new(alloc, index)?))
}

/// A field of the object that a pointer leads to, by the numbers of its struct and of the field in
/// it.
pub fn field(alloc: Global, base: LExpr, owner: u32, field: u32) -> Result<LExpr, AllocError>
    ensures { IfOk result (λ v. v ≡ l.Field base owner field) }
{
    Ok(LExpr::Field(Boxed::new(alloc, base)?, owner, field))
}

/// 1 where a value isn't 0 or null, and else 0.
pub fn truth(alloc: Global, x: LExpr) -> Result<LExpr, AllocError>
    ensures { IfOk result (λ v. v ≡ lifting.truth x) }
{
    un(alloc, UnOp::Not, un(alloc, UnOp::Not, x)?)
}

/// A literal with its minus.
pub fn literal(alloc: Global, minus: bool, n: i32) -> Result<LExpr, AllocError>
    ensures { IfOk result (λ v. v ≡ lifting.literal minus n) }
{
    if minus {
        un(alloc, UnOp::Neg, LExpr::Num(n))
    } else {
        Ok(LExpr::Num(n))
    }
}

/// A slot, a global or the literal of a define.
pub fn named(alloc: Global, program: &Program, what: Meaning) -> Result<LExpr, AllocError>
    ensures { IfOk result (λ v. v ≡ lifting.named program.now what) }
{
    match what {
        Meaning::Local(i) => Ok(LExpr::Slot(i)),
        Meaning::Global(i) => Ok(LExpr::Global(i)),
        Meaning::Constant(i) => match program.defines.as_slice().get(i as usize) {
            Some(define) => literal(alloc, define.minus, define.value),
            None => Ok(LExpr::Null),
        },
        _ => Ok(LExpr::Null),
    }
}

/// The test under which the right side of `&&` or `||` is made, where the left side's truth stands
/// in a slot.
pub fn goes_on(alloc: Global, op: BinOp, slot: u32) -> Result<LExpr, AllocError>
    ensures { IfOk result (λ v. v ≡ lifting.goes_on op slot) }
{
    match op {
        BinOp::And => Ok(LExpr::Slot(slot)),
        _ => un(alloc, UnOp::Not, LExpr::Slot(slot)),
    }
}

/// Whether the left side of an operator may decide alone, as of `&&` and `||` (ISO C11 6.5.13 and
/// 6.5.14).
pub fn is_lazy(op: BinOp) -> bool
    ensures { result ≡ lifting.is_lazy op }
{
    matches!(op, BinOp::And | BinOp::Or)
}

/// Whether an operator is `==` or `!=`.
pub fn is_equality(op: BinOp) -> bool
    ensures { result ≡ lifting.is_equality op }
{
    matches!(op, BinOp::Eq | BinOp::Ne)
}

/// The value where the literal 0 has become a null pointer, if it stands in a pointer's place.
pub fn in_place(pointer: bool, zero: bool, value: LExpr) -> LExpr
    ensures { result ≡ lifting.in_place pointer zero value }
{
    if pointer && zero { LExpr::Null } else { value }
}

/// An lvalue as a destination.
pub fn destination(value: LExpr) -> Dest
    ensures { result ≡ lifting.destination value }
{
    match value {
        LExpr::Slot(i) => Dest::Slot(i),
        LExpr::Global(g) => Dest::Global(g),
        LExpr::Elem(g, index) => Dest::Elem(g, index.into_inner()),
        LExpr::Field(base, owner, field) => Dest::Field(base.into_inner(), owner, field),
        _ => Dest::Slot(0),
    }
}

/// The number of the global that a name stands for, and 0 where it stands for none.
pub fn array_number(what: Meaning) -> u32
    ensures { result ≡ lifting.array_number what }
{
    match what {
        Meaning::Global(i) => i,
        _ => 0,
    }
}

/// The number of the mutex that a name stands for, and 0 where it stands for none.
pub fn mutex_number(what: Meaning) -> u32
    ensures { result ≡ lifting.mutex_number what }
{
    match what {
        Meaning::Mutex(i) => i,
        _ => 0,
    }
}
