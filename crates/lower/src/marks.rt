//! The positions of the marks of statements' places.

ghost use Rattle.std.specs.Prelude.{◌≡◌, ◌≤◌, ◌+◌, ◌++◌, ◌∷◌, [], IfOk, OnOk};
ghost use Rattle.c_tree.specs.Layout.{count, size_of};
ghost use Rattle.c_tree.specs.declared.lifted.LStmt.TheVariants as stmt;
ghost use Rattle.c_tree.specs.declared.place.Act.TheVariants.{Do};
ghost use Rattle.target_code.specs.Code as spec;
ghost use Rattle.target_code.specs.Operands.{size};

use crate::blocks::over;
use crate::size::{do_size, expr_size};
use c_tree::{LExpr, LStmt};
use std::alloc::AllocError;

/// Appends a mark.
pub fn mark(at: u32, out: &mut Vec<u32>) -> Result<(), AllocError>
    ensures { OnOk result (out.new.items ≡ out.old.items ++ at ∷ []) }
{
    out.push(at)?;
    Ok(())
}

/// Appends the mark of a statement that is one place, at a position. Gives the position behind the
/// statement.
fn mark_simple(at: u32, s: &LStmt, out: &mut Vec<u32>) -> Result<u32, AllocError>
    requires { at + spec.act_size (Do s.now) ≤ 4294967295 }
    ensures marks { OnOk result (out.new.items ≡ out.old.items ++ at ∷ []) }
    ensures behind { IfOk result (λ behind. behind ≡ at + spec.act_size (Do s.now)) }
{
    mark(at, out)?;
    Ok(at + 1 + do_size(s) as u32)
}

/// Appends the marks of an `if` at a position. Gives the position behind it.
#[cycle(marking)]
fn mark_if(
    at: u32,
    test: &LExpr,
    yes: &[LStmt],
    no: &[LStmt],
    out: &mut Vec<u32>,
) -> Result<u32, AllocError>
    requires places { 1 + size_of yes.now + size_of no.now ≤ 10000 }
    requires positions { at + (size test.now + (2 + (spec.block_size yes.now
        + (spec.over_block no.now + spec.block_size no.now)))) ≤ 4294967295 }
    ensures marks { OnOk result (out.new.items
        ≡ out.old.items ++ spec.stmt_marks at (stmt.If test.now yes.now no.now)) }
    ensures behind { IfOk result (λ behind. behind ≡ at + (size test.now
        + (2 + (spec.block_size yes.now + (spec.over_block no.now + spec.block_size no.now))))) }
{
    let yes_at = at + expr_size(test) as u32 + 2;
    mark(at, out)?;
    let no_at = mark_block(yes_at, yes, out)? + over(no);
    let behind = mark_block(no_at, no, out)?;
    Ok(behind)
}

/// Appends the marks of a loop at a position. Gives the position behind it.
#[cycle(marking)]
fn mark_loop(
    at: u32,
    calls: &[LStmt],
    test: &LExpr,
    body: &[LStmt],
    step: &[LStmt],
    out: &mut Vec<u32>,
) -> Result<u32, AllocError>
    requires places { size_of calls.now + 1 + size_of body.now + size_of step.now + 1 ≤ 10000 }
    requires positions { at + (spec.block_size calls.now + (size test.now
        + (2 + (spec.block_size body.now + (spec.block_size step.now + 3))))) ≤ 4294967295 }
    ensures marks { OnOk result (out.new.items
        ≡ out.old.items ++ spec.stmt_marks at (stmt.Loop calls.now test.now body.now step.now)) }
    ensures behind { IfOk result (λ behind. behind
        ≡ at + (spec.block_size calls.now + (size test.now
        + (2 + (spec.block_size body.now + (spec.block_size step.now + 3)))))) }
{
    let test_at = mark_block(at, calls, out)?;
    mark(test_at, out)?;
    let step_at = mark_block(test_at + expr_size(test) as u32 + 2, body, out)?;
    let end_at = mark_block(step_at, step, out)?;
    mark(end_at, out)?;
    Ok(end_at + 3)
}

/// Appends the marks of a statement at a position. Gives the position behind it.
#[cycle(marking)]
#[tactic(auto, using(crate::proofs::BlockLemmas::mark_rules))]
fn mark_statement(at: u32, s: &LStmt, out: &mut Vec<u32>) -> Result<u32, AllocError>
    requires places { count s.now ≤ 10000 }
    requires positions { at + spec.stmt_size s.now ≤ 4294967295 }
    ensures marks { OnOk result (out.new.items ≡ out.old.items ++ spec.stmt_marks at s.now) }
    ensures behind { IfOk result (λ behind. behind ≡ at + spec.stmt_size s.now) }
{
    match s {
        LStmt::If(test, yes, no) => mark_if(at, test, yes.as_slice(), no.as_slice(), out),
        LStmt::Loop(calls, test, body, step) => {
            let (calls, body, step) = (calls.as_slice(), body.as_slice(), step.as_slice());
            mark_loop(at, calls, test, body, step, out)
        }
        LStmt::Break => Ok(at + 1),
        LStmt::Continue => Ok(at + 1),
        LStmt::Assign(_, _) => mark_simple(at, s, out),
        LStmt::New(_, _) => mark_simple(at, s, out),
        LStmt::Getc(_) => mark_simple(at, s, out),
        LStmt::Print(_, _) => mark_simple(at, s, out),
        LStmt::Free(_) => mark_simple(at, s, out),
        LStmt::Call(_, _, _) => mark_simple(at, s, out),
        LStmt::Spawn(_, _, _) => mark_simple(at, s, out),
        LStmt::Join(_) => mark_simple(at, s, out),
        LStmt::Lock(_) => mark_simple(at, s, out),
        LStmt::Unlock(_) => mark_simple(at, s, out),
        LStmt::Return(_) => mark_simple(at, s, out),
    }
}

/// Appends the marks of a block at a position. Gives the position behind it.
#[cycle(marking)]
pub fn mark_block(at: u32, block: &[LStmt], out: &mut Vec<u32>) -> Result<u32, AllocError>
    requires places { size_of block.now ≤ 10000 }
    requires positions { at + spec.block_size block.now ≤ 4294967295 }
    ensures marks { OnOk result (out.new.items ≡ out.old.items ++ spec.block_marks at block.now) }
    ensures behind { IfOk result (λ behind. behind ≡ at + spec.block_size block.now) }
{
    let mut from = at;
    'block: for i in 0..block.len() {
        from = mark_statement(from, &block[i], out)?;
    }
    Ok(from)
}
