//! The calls of an expression are taken out.

ghost use Rattle.std.specs.Prelude.{◌≡◌, IfOk};
ghost use Rattle.c_tree.specs.declared.program.ExprKind as e;
ghost use Rattle.c_lift.specs.Around.{around};
ghost use Rattle.c_lift.specs.Taking.{Took, TookAll};

use crate::call::{
    add_call, deciding_slot, join, lock, new_object, operator, read_byte, start, temporary, unlock,
};
use crate::kind::{parameters, rest_of, result_type, type_or_int};
use crate::spot::Spot;
use crate::taken::{
    Taken, add_value, cast, element, end_of_file, literal_value, name_value, null_pointer, unary,
    untold,
};
use c_tree::{Expr, ExprKind, Field, LExpr, LStmt, Name, Row, Ty};
use name_index::routine;
use std::alloc::AllocError;

/// The expression without its calls, whose statements and temporaries are added.
#[cycle(take)]
pub fn take(
    x: &Expr,
    at: &Spot,
    calls: &mut Vec<LStmt>,
    made: &mut Vec<Ty>,
) -> Result<Taken, AllocError>
    ensures { IfOk result (λ t. Took (around at.now) x.now.kind calls.old.items made.old.items
        t.value t.ty calls.new.items made.new.items) }
{
    match &x.kind {
        ExprKind::Num(n) => Ok(literal_value(n)),
        ExprKind::Null => Ok(null_pointer()),
        ExprKind::Eof => end_of_file(at),
        ExprKind::Slot(_, _) => Ok(untold()),
        ExprKind::Name(name) => name_value(at, name),
        ExprKind::Index(name, index) => element(at, name, take(index.get(), at, calls, made)?),
        ExprKind::Field(base, name) => take(base.get(), at, calls, made)?.member(at, name),
        ExprKind::Un(op, operand) => unary(at, *op, take(operand.get(), at, calls, made)?),
        ExprKind::Bin(op, left, right) => {
            let (left, right) = (left.get(), right.get());
            let a = take(left, at, calls, made)?;
            let slot = deciding_slot(at, *op, right, made)?;
            let mut more = Vec::new(at.setting.alloc);
            let b = take(right, at, &mut more, made)?;
            operator(at, *op, left, a, right, b, slot, more, calls)
        }
        ExprKind::Cast(to, operand) => cast(take(operand.get(), at, calls, made)?, to),
        ExprKind::Call(name, args) => take_call(name, args.as_slice(), at, calls, made),
        ExprKind::Malloc(name) => new_object(at, name, calls, made),
        ExprKind::Getchar => read_byte(at, calls, made),
        ExprKind::Create(dest, name, arg) => {
            let dest = take(dest.get(), at, calls, made)?;
            let arg = arg.get();
            let value = take(arg, at, calls, made)?;
            start(at, dest, name, arg, value, calls)
        }
        ExprKind::Join(thread) => join(take(thread.get(), at, calls, made)?, calls),
        ExprKind::Lock(name) => lock(at, name, calls),
        ExprKind::Unlock(name) => unlock(at, name, calls),
    }
}

/// A call of a function, whose result is a new temporary.
#[cycle(take)]
fn take_call(
    name: &Name,
    args: &[Expr],
    at: &Spot,
    calls: &mut Vec<LStmt>,
    made: &mut Vec<Ty>,
) -> Result<Taken, AllocError>
    ensures { IfOk result (λ t. Took (around at.now) (e.Call name.now args.now) calls.old.items
        made.old.items t.value t.ty calls.new.items made.new.items) }
{
    let callee = routine(at.setting.file.program(), at.meaning(name));
    let values = take_arguments(args, parameters(callee), at, calls, made)?;
    let ty = result_type(callee)?;
    let k = temporary(at.setting.base, made, type_or_int(&ty)?)?;
    let function = at.setting.file.function_number(name);
    add_call(calls, LStmt::Call(Some(k), function, Row::from_vec(values)))?;
    Ok(Taken {
        value: LExpr::Slot(k),
        ty,
    })
}

/// The arguments without their calls, as the parameters ask for them.
#[cycle(take)]
pub fn take_arguments(
    args: &[Expr],
    params: &[Field],
    at: &Spot,
    calls: &mut Vec<LStmt>,
    made: &mut Vec<Ty>,
) -> Result<Vec<LExpr>, AllocError>
    ensures { IfOk result (λ v. TookAll (around at.now) params.now args.now calls.old.items
        made.old.items v.items calls.new.items made.new.items) }
{
    let mut values = Vec::new(at.setting.alloc);
    let mut left = params;
    for arg in args {
        let taken = take(arg, at, calls, made)?;
        add_value(&mut values, at.fitted_first(left, arg, taken.into_value()))?;
        left = rest_of(left);
    }
    Ok(values)
}
