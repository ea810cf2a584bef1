//! The instructions of expressions and destinations.

ghost use Rattle.std.specs.Prelude.{◌≡◌, ◌≤◌, ◌+◌, ◌++◌, ◌∷◌, [], IfOk, OnOk};
ghost use Rattle.c_tree.specs.declared.op.BinOp.TheVariants as bin;
ghost use Rattle.target_code.specs.declared.instr.Instr.TheVariants as instr;
ghost use Rattle.target_code.specs.Operands as spec;

use crate::size::expr_size;
use c_tree::{BinOp, Dest, LExpr, UnOp};
use std::alloc::AllocError;
use target_code::Instr;

/// Appends an instruction.
pub fn put(instr: Instr, out: &mut Vec<Instr>) -> Result<(), AllocError>
    ensures { OnOk result (out.new.items ≡ out.old.items ++ instr ∷ []) }
{
    out.push(instr)?;
    Ok(())
}

/// Appends an instruction at a position. Gives the position behind it.
fn put_at(at: u32, instr: Instr, out: &mut Vec<Instr>) -> Result<u32, AllocError>
    requires { at + 1 ≤ 4294967295 }
    ensures code { OnOk result (out.new.items ≡ out.old.items ++ instr ∷ []) }
    ensures behind { IfOk result (λ behind. behind ≡ at + 1) }
{
    put(instr, out)?;
    Ok(at + 1)
}

/// Appends `&&`, whose left side begins at a position. Gives the position behind it.
#[cycle(putting)]
fn put_and(at: u32, left: &LExpr, right: &LExpr, out: &mut Vec<Instr>) -> Result<u32, AllocError>
    requires { at + (spec.size left.now + (1 + (spec.size right.now + 4))) ≤ 4294967295 }
    ensures code { OnOk result (out.new.items ≡ out.old.items
        ++ spec.bin_code bin.And at (spec.size left.now) (spec.size right.now)
        (spec.expr_code at left.now) (λ from. spec.expr_code from right.now)) }
    ensures behind { IfOk result (λ behind. behind
        ≡ at + (spec.size left.now + (1 + (spec.size right.now + 4)))) }
{
    let test = put_expr(at, left, out)?;
    let after = test + 1 + expr_size(right) as u32;
    put(Instr::Jz(after + 3), out)?;
    put_expr(test + 1, right, out)?;
    out.extend_from_slice(&[
        Instr::Un(UnOp::Not),
        Instr::Un(UnOp::Not),
        Instr::Jump(after + 4),
        Instr::Const(0),
    ])?;
    Ok(after + 4)
}

/// Appends `||`, whose left side begins at a position. Gives the position behind it.
#[cycle(putting)]
fn put_or(at: u32, left: &LExpr, right: &LExpr, out: &mut Vec<Instr>) -> Result<u32, AllocError>
    requires { at + (spec.size left.now + (3 + (spec.size right.now + 2))) ≤ 4294967295 }
    ensures code { OnOk result (out.new.items ≡ out.old.items
        ++ spec.bin_code bin.Or at (spec.size left.now) (spec.size right.now)
        (spec.expr_code at left.now) (λ from. spec.expr_code from right.now)) }
    ensures behind { IfOk result (λ behind. behind
        ≡ at + (spec.size left.now + (3 + (spec.size right.now + 2)))) }
{
    let second = put_expr(at, left, out)? + 3;
    let after = second + expr_size(right) as u32;
    out.extend_from_slice(&[Instr::Jz(second), Instr::Const(1), Instr::Jump(after + 2)])?;
    put_expr(second, right, out)?;
    out.extend_from_slice(&[Instr::Un(UnOp::Not), Instr::Un(UnOp::Not)])?;
    Ok(after + 2)
}

/// Appends an operator that always evaluates both sides. Gives the position behind it.
#[cycle(putting)]
fn put_both(
    at: u32,
    op: BinOp,
    left: &LExpr,
    right: &LExpr,
    out: &mut Vec<Instr>,
) -> Result<u32, AllocError>
    requires { at + (spec.size left.now + (spec.size right.now + 1)) ≤ 4294967295 }
    ensures code { OnOk result (out.new.items ≡ out.old.items
        ++ (spec.expr_code at left.now
        ++ (spec.expr_code (at + spec.size left.now) right.now ++ instr.Bin op ∷ []))) }
    ensures behind { IfOk result (λ behind. behind
        ≡ at + (spec.size left.now + (spec.size right.now + 1))) }
{
    let second = put_expr(at, left, out)?;
    let behind = put_expr(second, right, out)?;
    put_at(behind, Instr::Bin(op), out)
}

/// Appends an operator, whose left side begins at a position. Gives the position behind it.
#[cycle(putting)]
fn put_bin(
    at: u32,
    op: BinOp,
    left: &LExpr,
    right: &LExpr,
    out: &mut Vec<Instr>,
) -> Result<u32, AllocError>
    requires { at + spec.bin_size op (spec.size left.now) (spec.size right.now) ≤ 4294967295 }
    ensures code { OnOk result (out.new.items ≡ out.old.items
        ++ spec.bin_code op at (spec.size left.now) (spec.size right.now)
        (spec.expr_code at left.now) (λ from. spec.expr_code from right.now)) }
    ensures behind { IfOk result (λ behind. behind
        ≡ at + spec.bin_size op (spec.size left.now) (spec.size right.now)) }
{
    match op {
        BinOp::And => put_and(at, left, right, out),
        BinOp::Or => put_or(at, left, right, out),
        _ => put_both(at, op, left, right, out),
    }
}

/// Appends an expression, and an instruction behind it. Gives the position behind both.
#[cycle(putting)]
fn put_with(at: u32, e: &LExpr, instr: Instr, out: &mut Vec<Instr>) -> Result<u32, AllocError>
    requires { at + (spec.size e.now + 1) ≤ 4294967295 }
    ensures code { OnOk result (out.new.items
        ≡ out.old.items ++ (spec.expr_code at e.now ++ instr ∷ [])) }
    ensures behind { IfOk result (λ behind. behind ≡ at + (spec.size e.now + 1)) }
{
    let behind = put_expr(at, e, out)?;
    put_at(behind, instr, out)
}

/// Appends an expression that begins at a position. Gives the position behind it.
#[cycle(putting)]
#[tactic(auto, using(target_code::proofs::CodeLemmas::expr_code_rules, target_code::proofs::SizeLemmas::size_rules))]
pub fn put_expr(at: u32, e: &LExpr, out: &mut Vec<Instr>) -> Result<u32, AllocError>
    requires { at + spec.size e.now ≤ 4294967295 }
    ensures code { OnOk result (out.new.items ≡ out.old.items ++ spec.expr_code at e.now) }
    ensures behind { IfOk result (λ behind. behind ≡ at + spec.size e.now) }
{
    match e {
        LExpr::Num(n) => put_at(at, Instr::Const(*n), out),
        LExpr::Null => put_at(at, Instr::Const(0), out),
        LExpr::Slot(k) => put_at(at, Instr::Get(*k), out),
        LExpr::Global(g) => put_at(at, Instr::Gget(*g), out),
        LExpr::Elem(g, index) => put_with(at, index.get(), Instr::Aget(*g), out),
        LExpr::Field(pointer, owner, field) => {
            put_with(at, pointer.get(), Instr::Fget(*owner, *field), out)
        }
        LExpr::Own(_) => put_at(at, Instr::Const(0), out),
        LExpr::Un(op, operand) => put_with(at, operand.get(), Instr::Un(*op), out),
        LExpr::Bin(op, left, right) => put_bin(at, *op, left.get(), right.get(), out),
    }
}

/// Appends arguments that begin at a position, the first argument first.
pub fn put_args(at: u32, args: &[LExpr], out: &mut Vec<Instr>) -> Result<(), AllocError>
    requires { at + spec.sizes args.now ≤ 4294967295 }
    ensures { OnOk result (out.new.items ≡ out.old.items ++ spec.args_code at args.now) }
{
    let mut from = at;
    'each: for i in 0..args.len() {
        from = put_expr(from, &args[i], out)?;
    }
    Ok(())
}

/// Appends the operands of a destination: the index, or the object. Gives the position behind them.
pub fn put_dest(at: u32, to: &Dest, out: &mut Vec<Instr>) -> Result<u32, AllocError>
    requires { at + spec.dest_size to.now ≤ 4294967295 }
    ensures code { OnOk result (out.new.items ≡ out.old.items ++ spec.dest_code at to.now) }
    ensures behind { IfOk result (λ behind. behind ≡ at + spec.dest_size to.now) }
{
    match to {
        Dest::Slot(_) => Ok(at),
        Dest::Global(_) => Ok(at),
        Dest::Elem(_, index) => put_expr(at, index, out),
        Dest::Field(pointer, _, _) => put_expr(at, pointer, out),
    }
}

/// The instruction that stores in a destination.
pub fn store_instr(to: &Dest) -> Instr
    ensures { result ≡ spec.store_instr to.now }
{
    match to {
        Dest::Slot(k) => Instr::Set(*k),
        Dest::Global(g) => Instr::Gset(*g),
        Dest::Elem(g, _) => Instr::Aset(*g),
        Dest::Field(_, owner, field) => Instr::Fset(*owner, *field),
    }
}
