//! Statements that hold no others.

ghost use Rattle.std.specs.Prelude.{◌≡◌, OnOk};
ghost use Rattle.c_check.specs.Inner.{around, declares};
ghost use Rattle.c_check.specs.Words.{found, noted, valued};
ghost use Rattle.c_check.specs.Statements.{declared, initial, tested, fitted_to, returned, assigned};

use crate::expr::{expr, fitting, place, place_of, value};
use crate::locals::Locals;
use crate::note::{note, note_twice, note_unless};
use crate::structs::note_type;
use crate::types::Test;
use c_tree::{BinOp, CheckCause, Expr, Fault, LimitKind, Name, Ty};
use name_index::File;
use std::alloc::AllocError;

/// The most parameters and locals that a function may have.
const MAX_LOCALS: usize = 64;

/// Declares a parameter or a local.
#[tactic(auto, using(crate::proofs::NoteLemmas::noting, crate::proofs::StatementLemmas::declared_is))]
pub fn declare(
    at: u32,
    name: &Name,
    ty: &Ty,
    file: &File<'_>,
    locals: &mut Locals,
    first: &mut Option<Fault>,
) -> Result<(), AllocError>
    ensures locals { OnOk result (locals.new ≡ declares locals.old at name.now ty.now) }
    ensures faults { OnOk result (first.new ≡ noted first.old
        (declared file.now locals.old at name.now ty.now)) }
{
    note_twice(first, locals.is_declared(name), at, name)?;
    note_type(at, ty, file, first)?;
    let is_within = locals.slots() < MAX_LOCALS;
    note_unless(first, is_within, at, CheckCause::Limit(LimitKind::Locals));
    locals.declare(at, name, ty)
}

/// Notes the faults of an initialiser.
#[tactic(auto, using(crate::proofs::StatementLemmas::values))]
pub fn initial(
    ty: &Ty,
    given: &Option<Expr>,
    file: &File<'_>,
    locals: &Locals,
    first: &mut Option<Fault>,
) -> Result<(), AllocError>
    ensures { OnOk result (first.new ≡ noted first.old
        (initial (around file.now locals.now) ty.now given.now)) }
{
    match given {
        None => Ok(()),
        Some(x) => {
            fitting(x, ty, file, locals, first)?;
            Ok(())
        }
    }
}

/// Notes the faults of the test of a `for`.
#[tactic(auto, using(crate::proofs::StatementLemmas::values))]
pub fn loop_test(
    test: &Option<Expr>,
    file: &File<'_>,
    locals: &Locals,
    first: &mut Option<Fault>,
) -> Result<(), AllocError>
    ensures { OnOk result (first.new ≡ noted first.old
        (tested (around file.now locals.now) test.now)) }
{
    match test {
        None => Ok(()),
        Some(x) => {
            value(x, Test::Testable, file, locals, first)?;
            Ok(())
        }
    }
}

/// Notes the faults of a `return`.
#[tactic(auto, using(crate::proofs::StatementLemmas::values))]
pub fn give_back(
    at: u32,
    ret: &Ty,
    given: &Option<Expr>,
    file: &File<'_>,
    locals: &Locals,
    first: &mut Option<Fault>,
) -> Result<(), AllocError>
    ensures { OnOk result (first.new ≡ noted first.old
        (returned (around file.now locals.now) at ret.now given.now)) }
{
    match (ret, given) {
        (Ty::Void, None) => Ok(()),
        (Ty::Void, Some(x)) => {
            note(first, at, CheckCause::ReturnValue);
            value(x, Test::Anything, file, locals, first)?;
            Ok(())
        }
        (_, None) => {
            note(first, at, CheckCause::ReturnValue);
            Ok(())
        }
        (_, Some(x)) => {
            fitting(x, ret, file, locals, first)?;
            Ok(())
        }
    }
}

/// Notes the faults of a value that is to fit a type, if that can be told.
#[tactic(auto, using(crate::proofs::StatementLemmas::values))]
fn fitting_to(
    x: &Expr,
    asked: &Option<Ty>,
    file: &File<'_>,
    locals: &Locals,
    first: &mut Option<Fault>,
) -> Result<(), AllocError>
    ensures { OnOk result (first.new ≡ noted first.old
        (fitted_to (around file.now locals.now) asked.now x.now)) }
{
    match asked {
        None => {
            value(x, Test::Anything, file, locals, first)?;
            Ok(())
        }
        Some(asked) => {
            fitting(x, asked, file, locals, first)?;
            Ok(())
        }
    }
}

/// Notes the faults of an assignment, or of `op=`.
#[tactic(auto, using(crate::proofs::StatementLemmas::values))]
pub fn assign(
    x: &Expr,
    op: &Option<BinOp>,
    y: &Expr,
    file: &File<'_>,
    locals: &Locals,
    first: &mut Option<Fault>,
) -> Result<(), AllocError>
    ensures { OnOk result (first.new ≡ noted first.old
        (assigned (around file.now locals.now) x.now op.now y.now)) }
{
    match op {
        None => {
            let ty = place(x, file, locals, first)?;
            fitting_to(y, &ty, file, locals, first)?;
            Ok(())
        }
        Some(_) => {
            place_of(x, Test::Int, file, locals, first)?;
            value(y, Test::Int, file, locals, first)?;
            Ok(())
        }
    }
}

/// Notes the faults of a call whose value, if it has one, isn't used.
pub fn run(
    x: &Expr,
    file: &File<'_>,
    locals: &Locals,
    first: &mut Option<Fault>,
) -> Result<(), AllocError>
    ensures { OnOk result (first.new ≡ noted first.old
        (found (around file.now locals.now) x.now.at x.now.kind)) }
{
    expr(x, file, locals, first)?;
    Ok(())
}

/// Notes the faults of a `free`.
pub fn free(
    x: &Expr,
    file: &File<'_>,
    locals: &Locals,
    first: &mut Option<Fault>,
) -> Result<(), AllocError>
    ensures { OnOk result (first.new ≡ noted first.old
        (valued (around file.now locals.now) (Test.Freeable) x.now)) }
{
    value(x, Test::Freeable, file, locals, first)?;
    Ok(())
}
