//! How many instructions statements have.

ghost use Rattle.std.specs.Prelude.{◌≡◌, min};
ghost use Rattle.c_tree.specs.declared.lifted.LStmt.TheVariants as stmt;
ghost use Rattle.c_tree.specs.declared.place.Act.TheVariants.{Do};
ghost use Rattle.target_code.specs.Code as spec;

use crate::size::{capped, do_size, expr_size};
use c_tree::{LExpr, LStmt};

/// The number of instructions of a statement that is one place, or `MANY` where there are more.
fn simple_size(s: &LStmt) -> u64
    ensures { result ≡ min (spec.act_size (Do s.now)) 4294967296 }
{
    capped(1 + do_size(s))
}

/// The number of instructions of a statement, or `MANY` where there are more.
#[cycle(sizes)]
#[tactic(auto, using(crate::proofs::BlockLemmas::size_rules))]
fn statement_size(s: &LStmt) -> u64
    ensures { result ≡ min (spec.stmt_size s.now) 4294967296 }
{
    match s {
        LStmt::If(test, yes, no) => if_size(test, yes.as_slice(), no.as_slice()),
        LStmt::Loop(calls, test, body, step) => {
            loop_size(calls.as_slice(), test, body.as_slice(), step.as_slice())
        }
        LStmt::Assign(_, _) => simple_size(s),
        LStmt::New(_, _) => simple_size(s),
        LStmt::Getc(_) => simple_size(s),
        LStmt::Print(_, _) => simple_size(s),
        LStmt::Free(_) => simple_size(s),
        LStmt::Call(_, _, _) => simple_size(s),
        LStmt::Spawn(_, _, _) => simple_size(s),
        LStmt::Join(_) => simple_size(s),
        LStmt::Lock(_) => simple_size(s),
        LStmt::Unlock(_) => simple_size(s),
        LStmt::Return(_) => simple_size(s),
        LStmt::Break => 1,
        LStmt::Continue => 1,
    }
}

/// How many instructions pass an else branch: none where there is none.
#[tactic(auto, using(crate::proofs::BlockLemmas::over_rules))]
pub fn over(no: &[LStmt]) -> u32
    ensures { result ≡ spec.over_block no.now }
{
    if no.is_empty() { 0 } else { 1 }
}

#[cycle(sizes)]
#[tactic(auto, using(crate::proofs::BlockLemmas::size_rules))]
fn if_size(test: &LExpr, yes: &[LStmt], no: &[LStmt]) -> u64
    ensures { result ≡ min (spec.stmt_size (stmt.If test.now yes.now no.now)) 4294967296 }
{
    let branches = block_size(yes) + over(no) as u64 + block_size(no);
    capped(expr_size(test) + 2 + branches)
}

#[cycle(sizes)]
#[tactic(auto, using(crate::proofs::BlockLemmas::size_rules))]
fn loop_size(calls: &[LStmt], test: &LExpr, body: &[LStmt], step: &[LStmt]) -> u64
    ensures { result
        ≡ min (spec.stmt_size (stmt.Loop calls.now test.now body.now step.now)) 4294967296 }
{
    let blocks = block_size(calls) + block_size(body) + block_size(step);
    capped(expr_size(test) + 5 + blocks)
}

/// The number of instructions of a block, or `MANY` where there are more.
#[cycle(sizes)]
pub fn block_size(block: &[LStmt]) -> u64
    ensures { result ≡ min (spec.block_size block.now) 4294967296 }
{
    let mut size = 0;
    'block: for i in 0..block.len() {
        size = capped(size + statement_size(&block[i]));
    }
    size
}
