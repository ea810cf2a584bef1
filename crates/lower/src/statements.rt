//! The instructions of statements.

ghost use Rattle.std.specs.Prelude.{◌≡◌, ◌≤◌, ◌+◌, ◌++◌, ◌∷◌, [], IfOk, OnOk};
ghost use Rattle.c_tree.specs.Layout.{count, size_of};
ghost use Rattle.c_tree.specs.declared.lifted.LStmt.TheVariants as stmt;
ghost use Rattle.c_tree.specs.declared.place.Act.TheVariants.{Do};
ghost use Rattle.target_code.specs.Code as spec;
ghost use Rattle.target_code.specs.Operands.{size};
ghost use Rattle.target_code.specs.declared.instr.Instr.TheVariants as instr;
ghost use Rattle.lower.specs.Texts.{number};

use crate::blocks::{block_size, over};
use crate::expressions::put;
use crate::simple::{put_simple, put_test};
use crate::size::{do_size, expr_size};
use crate::texts::Numbers;
use c_tree::{Exits, LExpr, LStmt};
use std::alloc::AllocError;
use target_code::Instr;

/// Where code goes on: a position, and the number of the next place.
#[derive(Clone, Copy)]
pub struct Spot {
    pub at: u32,
    pub place: u32,
}

/// Appends the jump past an else branch, where there is one.
#[tactic(auto, using(crate::proofs::BlockLemmas::jump_rules))]
fn put_jump_over(no: &[LStmt], to: u32, out: &mut Vec<Instr>) -> Result<(), AllocError>
    ensures { OnOk result (out.new.items ≡ out.old.items ++ spec.jump_over_block no.now to) }
{
    if no.is_empty() {
        return Ok(());
    }
    put(Instr::Jump(to), out)
}

/// Appends an `if` at a position, whose test is place `n`. Gives where it goes on behind it.
#[cycle(putting)]
fn put_if(
    numbers: &Numbers<'_>,
    exits: Exits,
    at: u32,
    n: u32,
    test: &LExpr,
    yes: &[LStmt],
    no: &[LStmt],
    out: &mut Vec<Instr>,
) -> Result<Spot, AllocError>
    requires places { n + 1 + size_of yes.now + size_of no.now ≤ 10000 }
    requires positions { at + (size test.now + (2 + (spec.block_size yes.now
        + (spec.over_block no.now + spec.block_size no.now)))) ≤ 4294967295 }
    ensures code { OnOk result (out.new.items ≡ out.old.items
        ++ spec.stmt_code (number numbers.now) exits at n (stmt.If test.now yes.now no.now)) }
    ensures position { IfOk result (λ behind. behind.at ≡ at + (size test.now
        + (2 + (spec.block_size yes.now + (spec.over_block no.now + spec.block_size no.now))))) }
    ensures place { IfOk result (λ behind. behind.place
        ≡ n + 1 + size_of yes.now + size_of no.now) }
{
    let yes_at = at + expr_size(test) as u32 + 2;
    let no_at = yes_at + block_size(yes) as u32 + over(no);
    let end = no_at + block_size(no) as u32;
    put_test(at, n, test, out)?;
    put(Instr::Jz(no_at), out)?;
    let first = put_block(numbers, exits, yes_at, n + 1, yes, out)?;
    put_jump_over(no, end, out)?;
    let behind = put_block(numbers, exits, no_at, first.place, no, out)?;
    Ok(behind)
}

/// Appends a loop at a position, whose first place is `n`: its calls, its test, its body, its
/// step, its end. Gives where it goes on behind it.
#[cycle(putting)]
fn put_loop(
    numbers: &Numbers<'_>,
    exits: Exits,
    at: u32,
    n: u32,
    calls: &[LStmt],
    test: &LExpr,
    body: &[LStmt],
    step: &[LStmt],
    out: &mut Vec<Instr>,
) -> Result<Spot, AllocError>
    requires places { n + size_of calls.now + 1 + size_of body.now + size_of step.now + 1
        ≤ 10000 }
    requires positions { at + (spec.block_size calls.now + (size test.now
        + (2 + (spec.block_size body.now + (spec.block_size step.now + 3))))) ≤ 4294967295 }
    ensures code { OnOk result (out.new.items ≡ out.old.items
        ++ spec.stmt_code (number numbers.now) exits at n
        (stmt.Loop calls.now test.now body.now step.now)) }
    ensures position { IfOk result (λ behind. behind.at
        ≡ at + (spec.block_size calls.now + (size test.now
        + (2 + (spec.block_size body.now + (spec.block_size step.now + 3)))))) }
    ensures place { IfOk result (λ behind. behind.place
        ≡ n + size_of calls.now + 1 + size_of body.now + size_of step.now + 1) }
{
    let tested = put_block(numbers, exits, at, n, calls, out)?;
    let body_at = tested.at + expr_size(test) as u32 + 2;
    let step_at = body_at + block_size(body) as u32;
    let end_at = step_at + block_size(step) as u32;
    let within = Exits {
        leave: end_at + 3,
        again: step_at,
    };
    put_test(tested.at, tested.place, test, out)?;
    put(Instr::Jz(end_at + 3), out)?;
    let stepped = put_block(numbers, within, body_at, tested.place + 1, body, out)?;
    let ended = put_block(numbers, exits, step_at, stepped.place, step, out)?;
    put_back(ended.place, at, out)?;
    Ok(Spot {
        at: end_at + 3,
        place: ended.place + 1,
    })
}

/// Appends a loop's end, which is place `n`, and the jump back.
fn put_back(n: u32, to: u32, out: &mut Vec<Instr>) -> Result<(), AllocError>
    ensures { OnOk result (out.new.items ≡ out.old.items
        ++ instr.Mark n ∷ instr.Flag n ∷ instr.Jump to ∷ []) }
{
    out.extend_from_slice(&[Instr::Mark(n), Instr::Flag(n), Instr::Jump(to)])
}

/// Appends a statement that is place `n`, at a position. Gives where it goes on behind it.
fn put_one(
    numbers: &Numbers<'_>,
    at: u32,
    n: u32,
    s: &LStmt,
    out: &mut Vec<Instr>,
) -> Result<Spot, AllocError>
    requires places { n + 1 ≤ 10000 }
    requires positions { at + spec.act_size (Do s.now) ≤ 4294967295 }
    ensures code { OnOk result (out.new.items ≡ out.old.items
        ++ spec.act_code (number numbers.now) at n (Do s.now)) }
    ensures position { IfOk result (λ behind. behind.at ≡ at + spec.act_size (Do s.now)) }
    ensures place { IfOk result (λ behind. behind.place ≡ n + 1) }
{
    put_simple(numbers, at, n, s, out)?;
    Ok(Spot {
        at: at + 1 + do_size(s) as u32,
        place: n + 1,
    })
}

/// Appends the jump of a `break` or a `continue` at a position. Gives where it goes on behind it.
fn put_exit(at: u32, n: u32, to: u32, out: &mut Vec<Instr>) -> Result<Spot, AllocError>
    requires positions { at + 1 ≤ 4294967295 }
    ensures code { OnOk result (out.new.items ≡ out.old.items ++ instr.Jump to ∷ []) }
    ensures position { IfOk result (λ behind. behind.at ≡ at + 1) }
    ensures place { IfOk result (λ behind. behind.place ≡ n) }
{
    put(Instr::Jump(to), out)?;
    Ok(Spot {
        at: at + 1,
        place: n,
    })
}

/// Appends a statement at a position, whose first place is `n`. Gives where it goes on behind it.
#[cycle(putting)]
#[tactic(auto, using(crate::proofs::BlockLemmas::code_rules))]
fn put_statement(
    numbers: &Numbers<'_>,
    exits: Exits,
    at: u32,
    n: u32,
    s: &LStmt,
    out: &mut Vec<Instr>,
) -> Result<Spot, AllocError>
    requires places { n + count s.now ≤ 10000 }
    requires positions { at + spec.stmt_size s.now ≤ 4294967295 }
    ensures code { OnOk result (out.new.items ≡ out.old.items
        ++ spec.stmt_code (number numbers.now) exits at n s.now) }
    ensures position { IfOk result (λ behind. behind.at ≡ at + spec.stmt_size s.now) }
    ensures place { IfOk result (λ behind. behind.place ≡ n + count s.now) }
{
    match s {
        LStmt::If(test, yes, no) => {
            let (yes, no) = (yes.as_slice(), no.as_slice());
            put_if(numbers, exits, at, n, test, yes, no, out)
        }
        LStmt::Loop(calls, test, body, step) => {
            let (calls, body, step) = (calls.as_slice(), body.as_slice(), step.as_slice());
            put_loop(numbers, exits, at, n, calls, test, body, step, out)
        }
        LStmt::Break => put_exit(at, n, exits.leave, out),
        LStmt::Continue => put_exit(at, n, exits.again, out),
        LStmt::Assign(_, _) => put_one(numbers, at, n, s, out),
        LStmt::New(_, _) => put_one(numbers, at, n, s, out),
        LStmt::Getc(_) => put_one(numbers, at, n, s, out),
        LStmt::Print(_, _) => put_one(numbers, at, n, s, out),
        LStmt::Free(_) => put_one(numbers, at, n, s, out),
        LStmt::Call(_, _, _) => put_one(numbers, at, n, s, out),
        LStmt::Spawn(_, _, _) => put_one(numbers, at, n, s, out),
        LStmt::Join(_) => put_one(numbers, at, n, s, out),
        LStmt::Lock(_) => put_one(numbers, at, n, s, out),
        LStmt::Unlock(_) => put_one(numbers, at, n, s, out),
        LStmt::Return(_) => put_one(numbers, at, n, s, out),
    }
}

/// Appends a block at a position, whose first place is `n`. Gives where it goes on behind it.
#[cycle(putting)]
pub fn put_block(
    numbers: &Numbers<'_>,
    exits: Exits,
    at: u32,
    n: u32,
    block: &[LStmt],
    out: &mut Vec<Instr>,
) -> Result<Spot, AllocError>
    requires places { n + size_of block.now ≤ 10000 }
    requires positions { at + spec.block_size block.now ≤ 4294967295 }
    ensures code { OnOk result (out.new.items ≡ out.old.items
        ++ spec.block_code (number numbers.now) exits at n block.now) }
    ensures position { IfOk result (λ behind. behind.at ≡ at + spec.block_size block.now) }
    ensures place { IfOk result (λ behind. behind.place ≡ n + size_of block.now) }
{
    let mut spot = Spot { at, place: n };
    'block: for i in 0..block.len() {
        spot = put_statement(numbers, exits, spot.at, spot.place, &block[i], out)?;
    }
    Ok(spot)
}
