//! Simple statements: assignments, calls, returns, `free` and `printf`.

ghost use Rattle.std.specs.Prelude.{◌≡◌, unwrap_or, OnOk};
ghost use Rattle.c_tree.specs.declared.program.ExprKind.TheBlock.{hidden-the_row-Expr-1 as args_of};
ghost use Rattle.c_tree.specs.Lifting as lifting;
ghost use Rattle.c_tree.specs.declared.ty.Ty.TheVariants as ty;
ghost use Rattle.c_lift.specs.Around.{around, standing};
ghost use Rattle.c_lift.specs.Adding.{Adds, stored, operated_into};

use crate::bare::bare;
use crate::build::{bin, destination};
use crate::call::add_call;
use crate::kind::{parameters, type_or_int};
use crate::spot::{Locals, Setting, Spot};
use crate::take::{take, take_arguments};
use c_tree::{BinOp, Dest, Expr, ExprKind, LExpr, LStmt, Name, Row, Text, Ty};
use name_index::routine;
use std::alloc::AllocError;

/// A call with the slot of its result.
fn call_into(
    to: Option<u32>,
    name: &Name,
    args: &[Expr],
    at: &Spot,
    body: &mut Vec<LStmt>,
    made: &mut Vec<Ty>,
) -> Result<(), AllocError>
    ensures { OnOk result (Adds (lifting.call_into (around at.now) made.old.items to name.now
        (args_of args.now)) body.old.items body.new.items made.new.items) }
{
    let callee = routine(at.setting.file.program(), at.meaning(name));
    let values = take_arguments(args, parameters(callee), at, body, made)?;
    let function = at.setting.file.function_number(name);
    add_call(body, LStmt::Call(to, function, Row::from_vec(values)))
}

/// A value is stored, after its calls.
fn store_value(
    x: &Expr,
    to: Dest,
    want: &Ty,
    at: &Spot,
    body: &mut Vec<LStmt>,
    made: &mut Vec<Ty>,
) -> Result<(), AllocError>
    ensures { OnOk result (Adds (stored (around at.now) made.old.items to want.now x.now.kind)
        body.old.items body.new.items made.new.items) }
{
    let value = take(x, at, body, made)?;
    let value = at.fitted(want, x, value.into_value());
    add_call(body, LStmt::Assign(to, value))
}

/// A value is stored. A slot takes the result of a call itself.
pub fn store(
    x: &Expr,
    to: Dest,
    want: &Ty,
    at: &Spot,
    body: &mut Vec<LStmt>,
    made: &mut Vec<Ty>,
) -> Result<(), AllocError>
    ensures { OnOk result (Adds (lifting.store (around at.now) made.old.items to want.now
        x.now.kind) body.old.items body.new.items made.new.items) }
{
    store_bare(bare(x), to, want, at, body, made)
}

fn store_bare(
    x: &Expr,
    to: Dest,
    want: &Ty,
    at: &Spot,
    body: &mut Vec<LStmt>,
    made: &mut Vec<Ty>,
) -> Result<(), AllocError>
    ensures { OnOk result (Adds (lifting.store_bare (around at.now) made.old.items to want.now
        x.now.kind) body.old.items body.new.items made.new.items) }
{
    match &x.kind {
        ExprKind::Call(name, args) => match to {
            Dest::Slot(slot) => call_into(Some(slot), name, args.as_slice(), at, body, made),
            to => store_value(x, to, want, at, body, made),
        },
        ExprKind::Malloc(name) => match to {
            Dest::Slot(slot) => add_call(
                body,
                LStmt::New(slot, at.setting.file.struct_number(&name.it)),
            ),
            to => store_value(x, to, want, at, body, made),
        },
        ExprKind::Getchar => match to {
            Dest::Slot(slot) => add_call(body, LStmt::Getc(slot)),
            to => store_value(x, to, want, at, body, made),
        },
        _ => store_value(x, to, want, at, body, made),
    }
}

/// A call as a statement.
pub fn run(
    x: &Expr,
    setting: &Setting,
    locals: &Locals,
    body: &mut Vec<LStmt>,
    made: &mut Vec<Ty>,
) -> Result<(), AllocError>
    ensures { OnOk result (Adds (lifting.run (standing setting.now locals.now) made.old.items
        x.now.kind) body.old.items body.new.items made.new.items) }
{
    let at = Spot { setting, locals };
    match &x.kind {
        ExprKind::Call(name, args) => call_into(None, name, args.as_slice(), &at, body, made),
        _ => {
            take(x, &at, body, made)?;
            Ok(())
        }
    }
}

/// A value is stored where an expression without calls stands, which has this type.
fn assign_value(
    to: LExpr,
    told: &Option<Ty>,
    y: &Expr,
    at: &Spot,
    body: &mut Vec<LStmt>,
    made: &mut Vec<Ty>,
) -> Result<(), AllocError>
    ensures { OnOk result (Adds (lifting.store (around at.now) made.old.items
        (lifting.destination to) (unwrap_or told.now ty.Int) y.now.kind) body.old.items
        body.new.items made.new.items) }
{
    let want = type_or_int(told)?;
    store(y, destination(to), &want, at, body, made)
}

/// What an operator gives of an expression without calls and of a value is stored where the
/// expression stands.
fn assign_operated(
    op: BinOp,
    to: LExpr,
    y: &Expr,
    at: &Spot,
    body: &mut Vec<LStmt>,
    made: &mut Vec<Ty>,
) -> Result<(), AllocError>
    ensures { OnOk result (Adds (operated_into (around at.now) made.old.items op to y.now.kind)
        body.old.items body.new.items made.new.items) }
{
    let value = take(y, at, body, made)?.into_value();
    let old = to.copy(at.setting.alloc)?;
    let value = bin(at.setting.alloc, op, old, value)?;
    add_call(body, LStmt::Assign(destination(to), value))
}

/// `x = y`, or `x op= y`, of which the calls of x are made once and first.
pub fn assign(
    x: &Expr,
    op: Option<BinOp>,
    y: &Expr,
    setting: &Setting,
    locals: &Locals,
    body: &mut Vec<LStmt>,
    made: &mut Vec<Ty>,
) -> Result<(), AllocError>
    ensures { OnOk result (Adds (lifting.assign (standing setting.now locals.now) made.old.items
        x.now op y.now) body.old.items body.new.items made.new.items) }
{
    let at = Spot { setting, locals };
    let (to, ty) = take(x, &at, body, made)?.into_parts();
    match op {
        None => assign_value(to, &ty, y, &at, body, made),
        Some(op) => assign_operated(op, to, y, &at, body, made),
    }
}

/// The value that a local is declared with.
pub fn start_value(
    slot: u32,
    want: &Ty,
    value: &Option<Expr>,
    at: &Spot,
    body: &mut Vec<LStmt>,
    made: &mut Vec<Ty>,
) -> Result<(), AllocError>
    ensures { OnOk result (Adds (lifting.start_value (around at.now) made.old.items slot
        want.now value.now) body.old.items body.new.items made.new.items) }
{
    match value {
        None => Ok(()),
        Some(x) => store(x, Dest::Slot(slot), want, at, body, made),
    }
}

/// `return`, with a value or without.
pub fn give_back(
    value: &Option<Expr>,
    setting: &Setting,
    locals: &Locals,
    body: &mut Vec<LStmt>,
    made: &mut Vec<Ty>,
) -> Result<(), AllocError>
    ensures { OnOk result (Adds (lifting.give_back (standing setting.now locals.now) made.old.items
        value.now) body.old.items body.new.items made.new.items) }
{
    let at = Spot { setting, locals };
    match value {
        None => add_call(body, LStmt::Return(None)),
        Some(x) => {
            let value = take(x, &at, body, made)?;
            let value = at.fitted(at.setting.ret, x, value.into_value());
            add_call(body, LStmt::Return(Some(value)))
        }
    }
}

/// `free` of a value, after its calls.
pub fn free(
    x: &Expr,
    setting: &Setting,
    locals: &Locals,
    body: &mut Vec<LStmt>,
    made: &mut Vec<Ty>,
) -> Result<(), AllocError>
    ensures { OnOk result (Adds (lifting.freed (standing setting.now locals.now) made.old.items
        x.now) body.old.items body.new.items made.new.items) }
{
    let at = Spot { setting, locals };
    let value = take(x, &at, body, made)?;
    let value = at.fitted(&Ty::AnyPtr, x, value.into_value());
    add_call(body, LStmt::Free(value))
}

/// `printf`, after the calls of its arguments.
pub fn print(
    text: &Text,
    args: &[Expr],
    setting: &Setting,
    locals: &Locals,
    body: &mut Vec<LStmt>,
    made: &mut Vec<Ty>,
) -> Result<(), AllocError>
    ensures { OnOk result (Adds (lifting.printed (standing setting.now locals.now) made.old.items
        text.now args.now) body.old.items body.new.items made.new.items) }
{
    let at = Spot { setting, locals };
    let values = take_arguments(args, &[], &at, body, made)?;
    add_call(body, LStmt::Print(text.clone()?, Row::from_vec(values)))
}
