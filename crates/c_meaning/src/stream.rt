//! Output and input.

ghost use Rattle.std.specs.Prelude.{◌≡◌, IsTrue, IfOk, OnErr};
ghost use Rattle.c_tree.specs.declared.lifted.LStmt.TheVariants as stmt;
ghost use Rattle.c_tree.specs.Step as spec;
ghost use Rattle.c_meaning.specs.Leads.{Leads};

use crate::change::{go, write};
use crate::read::values_in;
use crate::stepped::Stepped;
use c_tree::{LExpr, Lifted, State, Trap};
use std::alloc::{AllocError, Global};
use store_mem::printed;

/// Prints a text with the values of the arguments (ISO C11, 7.21.6.1, the conversion `%d` alone)
/// and goes on at place `n`. It traps where an argument does, first to last, and where the output
/// would be longer than 4,194,304 bytes.
pub fn print(
    alloc: Global,
    program: &Lifted,
    state: &mut State,
    t: u32,
    n: u32,
    text: &[u8],
    args: &[LExpr],
) -> Result<Stepped, AllocError>
    requires { IsTrue (spec.is_live state.old t) }
    ensures ok { IfOk result (λ r. Leads r state.old state.new
        (spec.done (spec.acting program.now t state.old) n (stmt.Print text.now args.now))) }
    ensures err { OnErr result (state.new ≡ state.old) }
{
    let values = match values_in(alloc, state, t, args)? {
        Ok(values) => values,
        Err(cause) => return Ok(Stepped::Trapped(cause)),
    };
    let bytes = printed(alloc, text, values.as_slice())?;
    if state.output.as_bytes().len() + bytes.len() > 4194304 {
        return Ok(Stepped::Trapped(Trap::Output));
    }
    write(state, bytes.as_slice())?;
    go(state, t, n, None, 0);
    Ok(Stepped::Done)
}

/// Puts the next byte of the input, or -1 at its end, into a slot (ISO C11, 7.21.7.6) and goes on
/// at place `n`.
pub fn getc(program: &Lifted, state: &mut State, t: u32, n: u32, slot: u32) -> Stepped
    requires { IsTrue (spec.is_live state.old t) }
    ensures { Leads result state.old state.new
        (spec.got (spec.acting program.now t state.old) n slot state.old.input) }
{
    match state.input.next_byte() {
        Some(c) => go(state, t, n, Some(slot), c as i32),
        None => go(state, t, n, Some(slot), -1),
    }
    Stepped::Done
}
