//! Calls as statements of their own, and the temporaries that they give.

ghost use Rattle.std.specs.Prelude.{◌≡◌, ◌+◌, ◌&&◌, [], ◌∷◌, ◌++◌, Some, None, List, if◌then◌else◌, pos, length, IfOk, OnOk};
ghost use Rattle.c_tree.specs.Lifting as lifting;
ghost use Rattle.c_tree.specs.declared.lifted.Dest.TheVariants as d;
ghost use Rattle.c_tree.specs.declared.lifted.LExpr as l;
ghost use Rattle.c_tree.specs.declared.lifted.LStmt as s;
ghost use Rattle.c_tree.specs.declared.program.ExprKind as e;
ghost use Rattle.c_tree.specs.declared.ty.Ty.{Ty};
ghost use Rattle.c_tree.specs.declared.ty.Ty.TheVariants as ty;
ghost use Rattle.c_lift.specs.Around.{around};
ghost use Rattle.c_lift.specs.Taking.{Took, Operates};

use crate::build::{destination, goes_on, is_lazy, mutex_number, truth};
use crate::has_call::has_call;
use crate::spot::Spot;
use crate::taken::{Taken, int, joined};
use c_tree::{At, BinOp, Dest, Expr, Items, LExpr, LStmt, Name, Ty, narrowed};
use std::alloc::{AllocError, Global};

/// Whether the right side of an operator has calls that are made only if the left one lets them.
fn splits(op: BinOp, right: &Expr) -> bool
    ensures { result ≡ (lifting.is_lazy op && lifting.has_call right.now.kind) }
{
    is_lazy(op) && has_call(right)
}

fn add_type(made: &mut Vec<Ty>, ty: Ty) -> Result<(), AllocError>
    ensures { OnOk result (made.new.items ≡ made.old.items ++ ty ∷ []) }
{
    made.push(ty)?;
    Ok(())
}

/// Adds a statement.
pub fn add_call(calls: &mut Vec<LStmt>, call: LStmt) -> Result<(), AllocError>
    ensures { OnOk result (calls.new.items ≡ calls.old.items ++ call ∷ []) }
{
    calls.push(call)?;
    Ok(())
}

fn slot_after(base: u32, count: usize) -> Result<u32, AllocError>
    ensures { IfOk result (λ k. k ≡ base + count) }
{
    let count = narrowed(count)?;
    base.checked_add(count).ok_or(AllocError)
}

/// A new temporary's slot.
pub fn temporary(base: u32, made: &mut Vec<Ty>, ty: Ty) -> Result<u32, AllocError>
    ensures slot { IfOk result (λ k. k ≡ base + length made.old.items) }
    ensures made { OnOk result (made.new.items ≡ made.old.items ++ ty ∷ []) }
{
    let k = slot_after(base, made.len())?;
    add_type(made, ty)?;
    Ok(k)
}

/// The slot for the left side's truth, where the right side has calls that are made only if the
/// left one lets them.
pub fn deciding_slot(
    at: &Spot,
    op: BinOp,
    right: &Expr,
    made: &mut Vec<Ty>,
) -> Result<Option<u32>, AllocError>
    ensures slot { IfOk result (λ o. o ≡ (if lifting.is_lazy op && lifting.has_call
        right.now.kind then Some (at.now.setting.now.base + length made.old.items) else None)) }
    ensures made { OnOk result (made.new.items ≡ lifting.temporaries (lifting.is_lazy op &&
        lifting.has_call right.now.kind) made.old.items) }
{
    if splits(op, right) {
        Ok(Some(temporary(at.setting.base, made, Ty::Int)?))
    } else {
        Ok(None)
    }
}

/// An operator, of which the sides are taken. More calls are those of the right side.
pub fn operator(
    at: &Spot,
    op: BinOp,
    left: &Expr,
    a: Taken,
    right: &Expr,
    b: Taken,
    slot: Option<u32>,
    more: Vec<LStmt>,
    calls: &mut Vec<LStmt>,
) -> Result<Taken, AllocError>
    ensures { IfOk result (λ t. Operates (around at.now) op left.now.kind a.value a.ty
        right.now.kind b.value b.ty slot more.items calls.old.items t.value t.ty calls.new.items) }
{
    match slot {
        Some(k) => {
            decide(
                at.setting.alloc,
                op,
                k,
                a.into_value(),
                b.into_value(),
                more,
                calls,
            )
        }
        None => both(at, op, left, a, right, b, more, calls),
    }
}

/// An operator of which both sides are made. More calls are those of the right side.
fn both(
    at: &Spot,
    op: BinOp,
    left: &Expr,
    a: Taken,
    right: &Expr,
    b: Taken,
    mut more: Vec<LStmt>,
    calls: &mut Vec<LStmt>,
) -> Result<Taken, AllocError>
    ensures { IfOk result (λ t. Operates (around at.now) op left.now.kind a.value a.ty
        right.now.kind b.value b.ty None more.items calls.old.items t.value t.ty calls.new.items) }
{
    let value = joined(at, op, left, a, right, b)?;
    calls.append(&mut more)?;
    Ok(value)
}

/// The truth of a value is stored in a slot.
fn add_truth(alloc: Global, k: u32, value: LExpr, calls: &mut Vec<LStmt>) -> Result<(), AllocError>
    ensures { OnOk result (calls.new.items
        ≡ calls.old.items ++ s.Assign (d.Slot k) (lifting.truth value) ∷ []) }
{
    let value = truth(alloc, value)?;
    add_call(calls, LStmt::Assign(Dest::Slot(k), value))
}

/// The calls of the right side of `&&` or `||` are made where the left side lets them.
fn add_branch(
    alloc: Global,
    op: BinOp,
    k: u32,
    branch: Vec<LStmt>,
    calls: &mut Vec<LStmt>,
) -> Result<(), AllocError>
    ensures { OnOk result (calls.new.items
        ≡ calls.old.items ++ s.If (lifting.goes_on op k) branch.items [] ∷ []) }
{
    let test = goes_on(alloc, op, k)?;
    let branch = LStmt::If(test, Items::from_vec(branch), Items::new(alloc));
    add_call(calls, branch)
}

/// The statements of `&&` and `||` after those of the left side. The value is the slot's.
fn decide(
    alloc: Global,
    op: BinOp,
    k: u32,
    left: LExpr,
    right: LExpr,
    mut branch: Vec<LStmt>,
    calls: &mut Vec<LStmt>,
) -> Result<Taken, AllocError>
    ensures calls { OnOk result (calls.new.items
        ≡ calls.old.items ++ lifting.deciding op k left branch.items right) }
    ensures value { IfOk result (λ t. t ≡ record { value = l.Slot k; ty = Some ty.Int }) }
{
    add_truth(alloc, k, left, calls)?;
    add_truth(alloc, k, right, &mut branch)?;
    add_branch(alloc, op, k, branch, calls)?;
    Ok(int(LExpr::Slot(k)))
}

/// `malloc` into a new temporary.
pub fn new_object(
    at: &Spot,
    name: &At<Name>,
    calls: &mut Vec<LStmt>,
    made: &mut Vec<Ty>,
) -> Result<Taken, AllocError>
    ensures { IfOk result (λ t. Took (around at.now) (e.Malloc name.now) calls.old.items
        made.old.items t.value t.ty calls.new.items made.new.items) }
{
    let ty = Ty::Ptr(name.it.clone()?);
    let k = temporary(at.setting.base, made, ty.clone()?)?;
    add_call(
        calls,
        LStmt::New(k, at.setting.file.struct_number(&name.it)),
    )?;
    Ok(Taken {
        value: LExpr::Slot(k),
        ty: Some(ty),
    })
}

/// `getchar` into a new temporary.
pub fn read_byte(at: &Spot, calls: &mut Vec<LStmt>, made: &mut Vec<Ty>) -> Result<Taken, AllocError>
    ensures { IfOk result (λ t. Took (around at.now) e.Getchar calls.old.items made.old.items
        t.value t.ty calls.new.items made.new.items) }
{
    let k = temporary(at.setting.base, made, Ty::Int)?;
    add_call(calls, LStmt::Getc(k))?;
    Ok(int(LExpr::Slot(k)))
}

/// A call that gives 0.
fn with_zero(calls: &mut Vec<LStmt>, call: LStmt) -> Result<Taken, AllocError>
    ensures calls { OnOk result (calls.new.items ≡ calls.old.items ++ call ∷ []) }
    ensures value { IfOk result (λ t. t ≡ record { value = l.Num (pos 0); ty = Some ty.Int }) }
{
    add_call(calls, call)?;
    Ok(int(LExpr::Num(0)))
}

/// The wait for a thread's end.
pub fn join(thread: Taken, calls: &mut Vec<LStmt>) -> Result<Taken, AllocError>
    ensures calls { OnOk result (calls.new.items ≡ calls.old.items ++ s.Join thread.value ∷ []) }
    ensures value { IfOk result (λ t. t ≡ record { value = l.Num (pos 0); ty = Some ty.Int }) }
{
    let zero = with_zero(calls, LStmt::Join(thread.into_value()))?;
    Ok(zero)
}

/// The start of a thread, of which the lvalue and the argument are taken.
pub fn start(
    at: &Spot,
    to: Taken,
    name: &At<Name>,
    arg: &Expr,
    value: Taken,
    calls: &mut Vec<LStmt>,
) -> Result<Taken, AllocError>
    ensures calls { OnOk result (calls.new.items ≡ calls.old.items
        ++ s.Spawn (lifting.destination to.value)
        (lifting.function_number at.now.setting.now.file.now name.now.it)
        (lifting.fitted (around at.now).scope ty.AnyPtr arg.now.kind value.value) ∷ []) }
    ensures value { IfOk result (λ t. t ≡ record { value = l.Num (pos 0); ty = Some ty.Int }) }
{
    let value = at.fitted(&Ty::AnyPtr, arg, value.into_value());
    let function = at.setting.file.function_number(&name.it);
    let zero = with_zero(
        calls,
        LStmt::Spawn(destination(to.into_value()), function, value),
    )?;
    Ok(zero)
}

/// The lock of a mutex.
pub fn lock(at: &Spot, name: &At<Name>, calls: &mut Vec<LStmt>) -> Result<Taken, AllocError>
    ensures { (made : List Ty) → IfOk result (λ t. Took (around at.now) (e.Lock name.now)
        calls.old.items made t.value t.ty calls.new.items made) }
{
    let zero = with_zero(calls, LStmt::Lock(mutex_number(at.meaning(&name.it))))?;
    Ok(zero)
}

/// The unlock of a mutex.
pub fn unlock(at: &Spot, name: &At<Name>, calls: &mut Vec<LStmt>) -> Result<Taken, AllocError>
    ensures { (made : List Ty) → IfOk result (λ t. Took (around at.now) (e.Unlock name.now)
        calls.old.items made t.value t.ty calls.new.items made) }
{
    let zero = with_zero(calls, LStmt::Unlock(mutex_number(at.meaning(&name.it))))?;
    Ok(zero)
}
