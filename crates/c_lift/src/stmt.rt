//! Statements are lifted.

ghost use Rattle.std.specs.Prelude.{◌≡◌, ℕ, [], IfOk, OnOk};
ghost use Rattle.c_tree.specs.declared.program.StmtKind as s;
ghost use Rattle.c_lift.specs.Adding.{Adds};
ghost use Rattle.c_lift.specs.Around.{standing};
ghost use Rattle.c_lift.specs.Lifts.{Lifts, LiftsAll, LiftsOther, lift_other};

use crate::call::add_call;
use crate::compound::{
    add_if, add_loop, back_to, branch_test, declare, for_test, leave, loop_test, scope_depth,
};
use crate::simple::{assign, free, give_back, print, run};
use crate::spot::{Locals, Setting};
use c_tree::{Boxed, Expr, LStmt, Stmt, StmtKind, Ty};
use std::alloc::AllocError;

/// The statement's lifting is added to a body, and the locals that it declares to those before.
#[cycle(lift)]
pub fn lift_stmt(
    s: &Stmt,
    setting: &Setting,
    locals: &mut Locals,
    made: &mut Vec<Ty>,
    body: &mut Vec<LStmt>,
) -> Result<(), AllocError>
    ensures { OnOk result (Lifts setting.now s.now.at s.now.kind locals.old made.old.items
        body.old.items locals.new made.new.items body.new.items) }
{
    let names = scope_depth(locals);
    match &s.kind {
        StmtKind::Empty => Ok(()),
        StmtKind::Block(inner) => lift_block(inner.as_slice(), setting, locals, made, body),
        StmtKind::Declare(ty, name, value) => {
            declare(s.at, ty, name, value, setting, locals, made, body)
        }
        StmtKind::If(test, yes, no) => {
            let test = branch_test(test, setting, locals, made, body)?;
            let yes = lift_apart(yes.get(), setting, locals, made)?;
            let no = lift_other(no, setting, locals, made)?;
            leave(locals, names);
            add_if(test, yes, no, body)
        }
        StmtKind::While(test, inner) => lift_while(inner.get(), test, setting, locals, made, body),
        StmtKind::For(starts, test, step, inner) => {
            lift_all(starts.as_slice(), setting, locals, made, body)?;
            let test = for_test(test, setting, locals, made)?;
            let step = lift_step(step, setting, locals, made)?;
            let inner = lift_apart(inner.get(), setting, locals, made)?;
            leave(locals, names);
            add_loop(test, inner, step, body)
        }
        StmtKind::Break => add_call(body, LStmt::Break),
        StmtKind::Continue => add_call(body, LStmt::Continue),
        StmtKind::Return(value) => give_back(value, setting, locals, body, made),
        StmtKind::Assign(x, op, y) => assign(x, *op, y, setting, locals, body, made),
        StmtKind::Run(x) => run(x, setting, locals, body, made),
        StmtKind::Free(x) => free(x, setting, locals, body, made),
        StmtKind::Print(text, args) => { print(text, args.as_slice(), setting, locals, body, made) }
    }
}

/// A block, whose names go out of scope.
#[cycle(lift)]
fn lift_block(
    inner: &[Stmt],
    setting: &Setting,
    locals: &mut Locals,
    made: &mut Vec<Ty>,
    body: &mut Vec<LStmt>,
) -> Result<(), AllocError>
    ensures { OnOk result ((at : ℕ) → Lifts setting.now at (s.Block inner.now) locals.old
        made.old.items body.old.items locals.new made.new.items body.new.items) }
{
    let names = scope_depth(locals);
    lift_all(inner, setting, locals, made, body)?;
    leave(locals, names);
    Ok(())
}

/// A `while`. The names of its body go out of scope.
#[cycle(lift)]
fn lift_while(
    inner: &Stmt,
    test: &Expr,
    setting: &Setting,
    locals: &mut Locals,
    made: &mut Vec<Ty>,
    body: &mut Vec<LStmt>,
) -> Result<(), AllocError>
    ensures { OnOk result ((at : ℕ) → Lifts setting.now at (s.While test.now inner.now) locals.old
        made.old.items body.old.items locals.new made.new.items body.new.items) }
{
    let names = scope_depth(locals);
    let test = loop_test(test, setting, locals, made)?;
    let inner = lift_apart(inner, setting, locals, made)?;
    leave(locals, names);
    add_loop(test, inner, Vec::new(setting.alloc), body)
}

/// Several statements, whose names stay in scope.
#[cycle(lift)]
pub fn lift_all(
    stmts: &[Stmt],
    setting: &Setting,
    locals: &mut Locals,
    made: &mut Vec<Ty>,
    body: &mut Vec<LStmt>,
) -> Result<(), AllocError>
    ensures { OnOk result (LiftsAll setting.now stmts.now locals.old made.old.items
        body.old.items locals.new made.new.items body.new.items) }
{
    for s in stmts {
        lift_stmt(s, setting, locals, made, body)?;
    }
    Ok(())
}

/// A statement's lifting as a body of its own.
#[cycle(lift)]
fn lift_apart(
    s: &Stmt,
    setting: &Setting,
    locals: &mut Locals,
    made: &mut Vec<Ty>,
) -> Result<Vec<LStmt>, AllocError>
    ensures { IfOk result (λ v. Lifts setting.now s.now.at s.now.kind locals.old made.old.items
        [] locals.new made.new.items v.items) }
{
    let mut body = Vec::new(setting.alloc);
    lift_stmt(s, setting, locals, made, &mut body)?;
    Ok(body)
}

/// The same for a statement that may be absent.
#[cycle(lift)]
fn lift_other(
    other: &Option<Boxed<Stmt>>,
    setting: &Setting,
    locals: &mut Locals,
    made: &mut Vec<Ty>,
) -> Result<Vec<LStmt>, AllocError>
    ensures { IfOk result (λ v. LiftsOther setting.now other.now locals.old made.old.items []
        locals.new made.new.items v.items) }
{
    match other {
        None => Ok(Vec::new(setting.alloc)),
        Some(s) => lift_apart(s.get(), setting, locals, made),
    }
}

/// The step of a `for`, after which nothing more is declared than before.
#[cycle(lift)]
fn lift_step(
    step: &Option<Boxed<Stmt>>,
    setting: &Setting,
    locals: &mut Locals,
    made: &mut Vec<Ty>,
) -> Result<Vec<LStmt>, AllocError>
    ensures adds { IfOk result (λ v. Adds (lift_other (standing setting.now locals.old)
        made.old.items step.now) [] v.items made.new.items) }
    ensures names { OnOk result (locals.new.names.items ≡ locals.old.names.items) }
    ensures slots { OnOk result (locals.new.slots.items ≡ locals.old.slots.items) }
{
    let names = locals.names.len();
    let slots = locals.slots.len();
    let lifted = lift_other(step, setting, locals, made)?;
    back_to(locals, names, slots);
    Ok(lifted)
}
