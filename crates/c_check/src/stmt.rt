//! Statements.

ghost use Rattle.std.specs.Prelude.{◌≡◌, ◌++◌, ℕ, true, length, OnOk};
ghost use Rattle.c_tree.specs.Fault.{fault, unless};
ghost use Rattle.c_tree.specs.declared.cause.CheckCause.TheVariants as cause;
ghost use Rattle.c_check.specs.Inner.{around, entered, left};
ghost use Rattle.c_check.specs.Words.{noted, valued};
ghost use Rattle.c_check.specs.Statements.{passed, all_passed, if_passed, reported};
ghost use Rattle.c_check.specs.Standing.{reports, all_report, if_reports};

use crate::expr::value;
use crate::locals::Locals;
use crate::note::note_unless;
use crate::print::print;
use crate::simple::{assign, declare, free, give_back, initial, loop_test, run};
use crate::stand::Stand;
use crate::types::Test;
use c_tree::{Boxed, CheckCause, Expr, Fault, Stmt, StmtKind};
use std::alloc::AllocError;

/// Notes the faults of a statement. The name of a declaration stays in use after it, and no other.
#[cycle(stmt)]
#[tactic(auto, using(crate::proofs::StatementLemmas::forms, crate::proofs::StatementLemmas::holding))]
pub fn statement(
    stmt: &Stmt,
    stand: &Stand<'_>,
    locals: &mut Locals,
    first: &mut Option<Fault>,
) -> Result<(), AllocError>
    ensures locals { OnOk result (locals.new ≡ passed locals.old stmt.now.at stmt.now.kind) }
    ensures faults { OnOk result (first.new ≡ noted first.old
        (reports stand.now locals.old stmt.now.at stmt.now.kind)) }
{
    let file = stand.file;
    let mark = locals.mark();
    match &stmt.kind {
        StmtKind::Empty => Ok(()),
        StmtKind::Block(body) => block(body.as_slice(), stand, locals, first),
        StmtKind::Declare(ty, name, given) => {
            declare(stmt.at, name, ty, file, locals, first)?;
            initial(ty, given, file, locals, first)
        }
        StmtKind::If(test, body, other) => {
            value(test, Test::Testable, file, locals, first)?;
            statement(body.get(), stand, locals, first)?;
            optional(other, stand, locals, first)?;
            locals.leave(&mark)?;
            Ok(())
        }
        StmtKind::While(test, body) => {
            value(test, Test::Testable, file, locals, first)?;
            statement(body.get(), &stand.in_body(), locals, first)?;
            locals.leave(&mark)?;
            Ok(())
        }
        StmtKind::For(starts, test, step, body) => {
            locals.enter();
            statements(starts.as_slice(), stand, locals, first)?;
            loop_test(test, file, locals, first)?;
            aside(step, stand, locals, first)?;
            statement(body.get(), &stand.in_body(), locals, first)?;
            locals.leave(&mark)?;
            Ok(())
        }
        StmtKind::Break | StmtKind::Continue => {
            note_unless(first, stand.in_loop, stmt.at, CheckCause::NotInLoop);
            Ok(())
        }
        StmtKind::Return(given) => give_back(stmt.at, stand.ret, given, file, locals, first),
        StmtKind::Assign(x, op, y) => assign(x, op, y, file, locals, first),
        StmtKind::Run(x) => run(x, file, locals, first),
        StmtKind::Free(x) => free(x, file, locals, first),
        StmtKind::Print(text, args) => {
            let (text, args) = (text.as_bytes(), args.as_slice());
            print(stmt.at, text, args, file, locals, first)
        }
    }
}

/// Notes the faults of several statements, one after the other.
#[cycle(stmt)]
pub fn statements(
    body: &[Stmt],
    stand: &Stand<'_>,
    locals: &mut Locals,
    first: &mut Option<Fault>,
) -> Result<(), AllocError>
    ensures locals { OnOk result (locals.new ≡ all_passed locals.old body.now) }
    ensures faults { OnOk result (first.new ≡ noted first.old
        (all_report stand.now locals.old body.now)) }
{
    for stmt in body {
        statement(stmt, stand, locals, first)?;
    }
    Ok(())
}

/// Notes the faults of a block.
#[cycle(stmt)]
#[tactic(auto, using(crate::proofs::StatementLemmas::holding))]
fn block(
    body: &[Stmt],
    stand: &Stand<'_>,
    locals: &mut Locals,
    first: &mut Option<Fault>,
) -> Result<(), AllocError>
    ensures locals { OnOk result (locals.new ≡ left (length locals.old.names) locals.old.block
        (all_passed (entered locals.old) body.now)) }
    ensures faults { OnOk result (first.new ≡ noted first.old
        (all_report stand.now (entered locals.old) body.now)) }
{
    let mark = locals.mark();
    locals.enter();
    statements(body, stand, locals, first)?;
    locals.leave(&mark)?;
    Ok(())
}

/// Notes the faults of a statement that need not be there.
#[cycle(stmt)]
#[tactic(auto, using(crate::proofs::StatementLemmas::holding))]
fn optional(
    stmt: &Option<Boxed<Stmt>>,
    stand: &Stand<'_>,
    locals: &mut Locals,
    first: &mut Option<Fault>,
) -> Result<(), AllocError>
    ensures locals { OnOk result (locals.new ≡ if_passed locals.old stmt.now) }
    ensures faults { OnOk result (first.new ≡ noted first.old
        (if_reports stand.now locals.old stmt.now)) }
{
    match stmt {
        None => Ok(()),
        Some(stmt) => statement(stmt.get(), stand, locals, first),
    }
}

/// Notes the faults of a statement that need not be there, and takes back what it declares.
#[cycle(stmt)]
#[tactic(auto, using(crate::proofs::StatementLemmas::holding))]
fn aside(
    stmt: &Option<Boxed<Stmt>>,
    stand: &Stand<'_>,
    locals: &mut Locals,
    first: &mut Option<Fault>,
) -> Result<(), AllocError>
    ensures locals { OnOk result (locals.new ≡ locals.old) }
    ensures faults { OnOk result (first.new ≡ noted first.old
        (if_reports stand.now locals.old stmt.now)) }
{
    let mark = locals.mark();
    let slots = locals.slots();
    optional(stmt, stand, locals, first)?;
    locals.leave(&mark)?;
    locals.forget_slots(slots);
    Ok(())
}
