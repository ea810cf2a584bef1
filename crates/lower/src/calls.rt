//! The calls of a function, and the parts that rebuild the frames inside them.

ghost use Rattle.std.specs.Prelude.{◌≡◌, ◌+◌, ◌++◌, ◌∷◌, [], replicate, pos, IfOk, OnOk};
ghost use Rattle.c_tree.specs.Step.{function_of};
ghost use Rattle.c_tree.specs.declared.place.Act.TheVariants.{Do};
ghost use Rattle.target_code.specs.Code as spec;
ghost use Rattle.target_code.specs.declared.instr.Instr.TheVariants as instr;
ghost use Rattle.target_code.specs.Operands as operands;
ghost use Rattle.lower.specs.Calls.{parts_size, called};

use crate::expressions::put;
use crate::size::{MANY, args_size};
use crate::texts::narrow;
use c_tree::{Act, LExpr, LStmt, Lifted, Place};
use std::alloc::AllocError;
use target_code::{CallSpot, Instr};

/// How many parameters a function has; 0 where it is not there.
fn parameter_count(program: &Lifted, function: u32) -> u32
    ensures { result ≡ (function_of program.now function).params }
{
    match program.functions.as_slice().get(function as usize) {
        Some(function) => function.params,
        None => 0,
    }
}

fn put_zeros(count: u32, out: &mut Vec<Instr>) -> Result<(), AllocError>
    ensures { OnOk result (out.new.items
        ≡ out.old.items ++ replicate count (instr.Const (pos 0))) }
{
    'zeros: for i in 0..count {
        put(Instr::Const(0), out)?;
    }
    Ok(())
}

/// Appends the rebuilding part of a call of a function with so many parameters: zeros for them,
/// the call, and the jump to where it returns.
fn put_part(params: u32, function: u32, after: u32, out: &mut Vec<Instr>) -> Result<(), AllocError>
    ensures { OnOk result (out.new.items ≡ out.old.items
        ++ (replicate params (instr.Const (pos 0))
        ++ instr.Call function ∷ instr.Jump after ∷ [])) }
{
    put_zeros(params, out)?;
    out.extend_from_slice(&[Instr::Call(function), Instr::Jump(after)])
}

/// The position where a call returns, whose mark is at a position.
fn after_call(mark: u32, args: &[LExpr]) -> Result<u32, AllocError>
    ensures { IfOk result (λ after. after
        ≡ mark + 1 + operands.sizes args.now + 1) }
{
    let size = args_size(args);
    if size < MANY {
        narrow(mark as u64 + size + 2)
    } else {
        Err(AllocError)
    }
}

/// Appends what belongs to a call of place `n`: its rebuilding part at a position, and where that
/// stands. Gives the position behind it.
fn put_called(
    program: &Lifted,
    n: u32,
    function: u32,
    after: u32,
    at: u32,
    body: &mut Vec<Instr>,
    spots: &mut Vec<CallSpot>,
) -> Result<u32, AllocError>
    ensures body { OnOk result (body.new.items
        ≡ body.old.items ++ spec.parts program.now (called n function after ∷ [])) }
    ensures spots { OnOk result (spots.new.items
        ≡ spots.old.items ++ spec.spots program.now at (called n function after ∷ [])) }
    ensures at { IfOk result (λ behind. behind
        ≡ at + parts_size program.now (called n function after ∷ [])) }
{
    let params = parameter_count(program, function);
    let behind = narrow(at as u64 + params as u64 + 2)?;
    put_part(params, function, after, body)?;
    spots.push(CallSpot {
        place: n,
        after,
        rebuild: at,
    })?;
    Ok(behind)
}

/// Appends what belongs to a simple statement of place `n`, whose mark is at a position, where it
/// is a call. Gives the position behind it.
fn put_call_of(
    program: &Lifted,
    n: u32,
    mark: u32,
    s: &LStmt,
    at: u32,
    body: &mut Vec<Instr>,
    spots: &mut Vec<CallSpot>,
) -> Result<u32, AllocError>
    ensures body { OnOk result (body.new.items
        ≡ body.old.items ++ spec.parts program.now (spec.called_at n mark (Do s.now))) }
    ensures spots { OnOk result (spots.new.items
        ≡ spots.old.items ++ spec.spots program.now at (spec.called_at n mark (Do s.now))) }
    ensures at { IfOk result (λ behind. behind
        ≡ at + parts_size program.now (spec.called_at n mark (Do s.now))) }
{
    match s {
        LStmt::Call(_, function, args) => {
            let after = after_call(mark, args.as_slice())?;
            put_called(program, n, *function, after, at, body, spots)
        }
        LStmt::Assign(_, _) => Ok(at),
        LStmt::New(_, _) => Ok(at),
        LStmt::Getc(_) => Ok(at),
        LStmt::Print(_, _) => Ok(at),
        LStmt::Free(_) => Ok(at),
        LStmt::Spawn(_, _, _) => Ok(at),
        LStmt::Join(_) => Ok(at),
        LStmt::Lock(_) => Ok(at),
        LStmt::Unlock(_) => Ok(at),
        LStmt::Return(_) => Ok(at),
        LStmt::If(_, _, _) => Ok(at),
        LStmt::Loop(_, _, _, _) => Ok(at),
        LStmt::Break => Ok(at),
        LStmt::Continue => Ok(at),
    }
}

/// The same for what is done at a place.
fn put_call_at(
    program: &Lifted,
    n: u32,
    mark: u32,
    act: &Act,
    at: u32,
    body: &mut Vec<Instr>,
    spots: &mut Vec<CallSpot>,
) -> Result<u32, AllocError>
    ensures body { OnOk result (body.new.items
        ≡ body.old.items ++ spec.parts program.now (spec.called_at n mark act.now)) }
    ensures spots { OnOk result (spots.new.items
        ≡ spots.old.items ++ spec.spots program.now at (spec.called_at n mark act.now)) }
    ensures at { IfOk result (λ behind. behind
        ≡ at + parts_size program.now (spec.called_at n mark act.now)) }
{
    match act {
        Act::Enter => Ok(at),
        Act::Do(s) => put_call_of(program, n, mark, s, at, body, spots),
        Act::Test(_) => Ok(at),
        Act::EndLoop => Ok(at),
        Act::Finish => Ok(at),
    }
}

/// Appends the rebuilding parts of the calls among places with these marks, and where they stand;
/// the first part is at a position.
pub fn put_calls(
    program: &Lifted,
    row: &[Place],
    marks: &[u32],
    at: u32,
    body: &mut Vec<Instr>,
    spots: &mut Vec<CallSpot>,
) -> Result<(), AllocError>
    ensures body { OnOk result (body.new.items
        ≡ body.old.items ++ spec.parts program.now (spec.called_in 0 row.now marks.now)) }
    ensures spots { OnOk result (spots.new.items
        ≡ spots.old.items ++ spec.spots program.now at (spec.called_in 0 row.now marks.now)) }
{
    let count = row.len().min(marks.len());
    let mut from = at;
    'each: for n in 0..count {
        let place = narrow(n as u64)?;
        from = put_call_at(program, place, marks[n], &row[n].act, from, body, spots)?;
    }
    Ok(())
}
