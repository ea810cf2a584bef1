//! How many instructions expressions and simple statements have.

ghost use Rattle.std.specs.Prelude.{◌≡◌, ◌≤◌, ◌+◌, min};
ghost use Rattle.target_code.specs.Code as code;
ghost use Rattle.target_code.specs.Operands as operands;

use c_tree::{BinOp, Dest, LExpr, LStmt};

/// More instructions than there are positions; larger numbers aren't told apart.
pub const MANY: u64 = 4_294_967_296;

/// The number, or `MANY` where it is larger.
pub fn capped(n: u64) -> u64
    ensures { result ≡ min n 4294967296 }
{
    n.min(MANY)
}

/// How many instructions an operator has beside those of its sides.
fn own_size(op: BinOp) -> u64
    ensures { result ≡ operands.bin_size op 0 0 }
{
    match op {
        BinOp::And => 5,
        BinOp::Or => 5,
        _ => 1,
    }
}

/// The number of instructions of an expression, or `MANY` where there are more.
#[tactic(auto, using(crate::proofs::SizeLemmas::expr_rules))]
pub fn expr_size(e: &LExpr) -> u64
    ensures { result ≡ min (operands.size e.now) 4294967296 }
{
    match e {
        LExpr::Num(_) => 1,
        LExpr::Null => 1,
        LExpr::Slot(_) => 1,
        LExpr::Global(_) => 1,
        LExpr::Elem(_, index) => capped(expr_size(index.get()) + 1),
        LExpr::Field(pointer, _, _) => capped(expr_size(pointer.get()) + 1),
        LExpr::Own(_) => 1,
        LExpr::Un(_, operand) => capped(expr_size(operand.get()) + 1),
        LExpr::Bin(op, left, right) => {
            capped(expr_size(left.get()) + expr_size(right.get()) + own_size(*op))
        }
    }
}

/// The number of instructions of arguments, or `MANY` where there are more.
pub fn args_size(args: &[LExpr]) -> u64
    ensures { result ≡ min (operands.sizes args.now) 4294967296 }
{
    let mut total = 0;
    'each: for i in 0..args.len() {
        total = capped(total + expr_size(&args[i]));
    }
    total
}

/// The number of instructions of a destination's operands, or `MANY` where there are more.
pub fn dest_size(to: &Dest) -> u64
    ensures { result ≡ min (operands.dest_size to.now) 4294967296 }
{
    match to {
        Dest::Slot(_) => 0,
        Dest::Global(_) => 0,
        Dest::Elem(_, index) => expr_size(index),
        Dest::Field(pointer, _, _) => expr_size(pointer),
    }
}

/// The number of instructions of a simple statement behind its mark, or `MANY` where there are
/// more; none of a statement that isn't simple.
pub fn do_size(s: &LStmt) -> u64
    ensures { result ≡ min (code.do_size s.now) 4294967296 }
{
    match s {
        LStmt::Assign(to, e) => capped(dest_size(to) + expr_size(e) + 1),
        LStmt::New(_, _) => 2,
        LStmt::Getc(_) => 2,
        LStmt::Print(_, args) => capped(args_size(args.as_slice()) + 1),
        LStmt::Free(e) => capped(expr_size(e) + 1),
        LStmt::Call(_, _, args) => capped(args_size(args.as_slice()) + 2),
        LStmt::Spawn(to, _, e) => capped(dest_size(to) + expr_size(e) + 2),
        LStmt::Join(e) => capped(expr_size(e) + 2),
        LStmt::Lock(_) => 2,
        LStmt::Unlock(_) => 1,
        LStmt::Return(None) => 2,
        LStmt::Return(Some(e)) => capped(expr_size(e) + 1),
        LStmt::If(_, _, _) => 0,
        LStmt::Loop(_, _, _, _) => 0,
        LStmt::Break => 0,
        LStmt::Continue => 0,
    }
}
