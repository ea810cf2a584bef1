//! The instructions of a statement that holds no other, and of a test.

ghost use Rattle.std.specs.Prelude.{◌≡◌, ◌≤◌, ◌+◌, ◌++◌, ◌∷◌, [], OnOk};
ghost use Rattle.c_tree.specs.declared.place.Act.TheVariants.{Do, Test};
ghost use Rattle.target_code.specs.Code as spec;
ghost use Rattle.target_code.specs.Operands as operands;
ghost use Rattle.target_code.specs.declared.instr.Instr.TheVariants as instr;
ghost use Rattle.lower.specs.Texts.{number};

use crate::expressions::{put, put_args, put_dest, put_expr, store_instr};
use crate::texts::Numbers;
use c_tree::{Dest, LExpr, LStmt};
use std::alloc::AllocError;
use target_code::Instr;

/// Appends arguments, and an instruction behind them.
fn put_args_with(
    at: u32,
    args: &[LExpr],
    instr: Instr,
    out: &mut Vec<Instr>,
) -> Result<(), AllocError>
    requires { at + operands.sizes args.now ≤ 4294967295 }
    ensures { OnOk result (out.new.items
        ≡ out.old.items ++ (operands.args_code at args.now ++ instr ∷ [])) }
{
    put_args(at, args, out)?;
    put(instr, out)
}

/// Appends an expression, and an instruction behind it.
fn put_expr_with(at: u32, e: &LExpr, instr: Instr, out: &mut Vec<Instr>) -> Result<(), AllocError>
    requires { at + operands.size e.now ≤ 4294967295 }
    ensures { OnOk result (out.new.items
        ≡ out.old.items ++ (operands.expr_code at e.now ++ instr ∷ [])) }
{
    put_expr(at, e, out)?;
    put(instr, out)
}

fn put_assign(at: u32, to: &Dest, e: &LExpr, out: &mut Vec<Instr>) -> Result<(), AllocError>
    requires { at + (operands.dest_size to.now + (operands.size e.now + 1)) ≤ 4294967295 }
    ensures { OnOk result (out.new.items ≡ out.old.items
        ++ (operands.dest_code at to.now
        ++ (operands.expr_code (at + operands.dest_size to.now) e.now
        ++ operands.store_instr to.now ∷ []))) }
{
    let value = put_dest(at, to, out)?;
    put_expr_with(value, e, store_instr(to), out)
}

fn put_call(
    at: u32,
    n: u32,
    to: Option<u32>,
    function: u32,
    args: &[LExpr],
    out: &mut Vec<Instr>,
) -> Result<(), AllocError>
    requires { at + operands.sizes args.now ≤ 4294967295 }
    ensures { OnOk result (out.new.items ≡ out.old.items
        ++ (operands.args_code at args.now
        ++ instr.Call function ∷ instr.After n to ∷ [])) }
{
    put_args(at, args, out)?;
    out.extend_from_slice(&[Instr::Call(function), Instr::After(n, to)])
}

fn put_spawn(
    at: u32,
    to: &Dest,
    function: u32,
    e: &LExpr,
    out: &mut Vec<Instr>,
) -> Result<(), AllocError>
    requires { at + (operands.dest_size to.now + (operands.size e.now + 2)) ≤ 4294967295 }
    ensures { OnOk result (out.new.items ≡ out.old.items
        ++ (operands.dest_code at to.now
        ++ (operands.expr_code (at + operands.dest_size to.now) e.now
        ++ instr.Spawn function ∷ operands.store_instr to.now ∷ []))) }
{
    let value = put_dest(at, to, out)?;
    put_expr(value, e, out)?;
    out.extend_from_slice(&[Instr::Spawn(function), store_instr(to)])
}

fn put_join(at: u32, n: u32, e: &LExpr, out: &mut Vec<Instr>) -> Result<(), AllocError>
    requires { at + (1 + (operands.size e.now + 1)) ≤ 4294967295 }
    ensures { OnOk result (out.new.items ≡ out.old.items
        ++ instr.Flag n ∷ (operands.expr_code (at + 1) e.now ++ instr.Join ∷ [])) }
{
    put(Instr::Flag(n), out)?;
    put_expr_with(at + 1, e, Instr::Join, out)
}

/// Appends a simple statement of place `n` behind its mark; nothing of one that isn't simple.
fn put_do(
    numbers: &Numbers<'_>,
    at: u32,
    n: u32,
    s: &LStmt,
    out: &mut Vec<Instr>,
) -> Result<(), AllocError>
    requires { at + spec.do_size s.now ≤ 4294967295 }
    ensures { OnOk result (out.new.items ≡ out.old.items
        ++ spec.do_code (number numbers.now) at n s.now) }
{
    match s {
        LStmt::Assign(to, e) => put_assign(at, to, e, out),
        LStmt::New(slot, owner) => {
            out.extend_from_slice(&[Instr::New(*owner), Instr::Set(*slot)])
        }
        LStmt::Getc(slot) => out.extend_from_slice(&[Instr::Getc, Instr::Set(*slot)]),
        LStmt::Print(_, args) => {
            put_args_with(at, args.as_slice(), Instr::Print(numbers.number(n)), out)
        }
        LStmt::Free(e) => put_expr_with(at, e, Instr::Free, out),
        LStmt::Call(to, function, args) => put_call(at, n, *to, *function, args.as_slice(), out),
        LStmt::Spawn(to, function, e) => put_spawn(at, to, *function, e, out),
        LStmt::Join(e) => put_join(at, n, e, out),
        LStmt::Lock(m) => out.extend_from_slice(&[Instr::Flag(n), Instr::Lock(*m)]),
        LStmt::Unlock(m) => put(Instr::Unlock(*m), out),
        LStmt::Return(None) => out.extend_from_slice(&[Instr::Const(0), Instr::Ret]),
        LStmt::Return(Some(e)) => put_expr_with(at, e, Instr::Ret, out),
        LStmt::If(_, _, _) => Ok(()),
        LStmt::Loop(_, _, _, _) => Ok(()),
        LStmt::Break => Ok(()),
        LStmt::Continue => Ok(()),
    }
}

/// Appends a statement that is place `n`.
pub fn put_simple(
    numbers: &Numbers<'_>,
    at: u32,
    n: u32,
    s: &LStmt,
    out: &mut Vec<Instr>,
) -> Result<(), AllocError>
    requires { at + spec.act_size (Do s.now) ≤ 4294967295 }
    ensures { OnOk result (out.new.items ≡ out.old.items
        ++ spec.act_code (number numbers.now) at n (Do s.now)) }
{
    put(Instr::Mark(n), out)?;
    put_do(numbers, at + 1, n, s, out)
}

/// Appends a test that is place `n`.
pub fn put_test(at: u32, n: u32, e: &LExpr, out: &mut Vec<Instr>) -> Result<(), AllocError>
    requires { at + (1 + operands.size e.now) ≤ 4294967295 }
    ensures { OnOk result (out.new.items ≡ out.old.items
        ++ instr.Mark n ∷ operands.expr_code (at + 1) e.now) }
{
    put(Instr::Mark(n), out)?;
    put_expr(at + 1, e, out)?;
    Ok(())
}
