//! The texts of expressions, destinations and calls.

ghost use Rattle.std.specs.Prelude.{◌≡◌, ◌++◌, IfOk, OnOk};
ghost use Rattle.c_tree.specs.Shown.{shown};
ghost use Rattle.frame_transform.specs.Inside.{reads};
ghost use Rattle.frame_transform.specs.Line.{each, listed};
ghost use Rattle.frame_transform.specs.Statements as spec;

use c_tree::{Boxed, Dest, LExpr, Lifted, function_name, print_expr};
use std::alloc::{AllocError, Global};

/// The function that is printed.
#[derive(Clone, Copy)]
pub struct Inside<'a> {
    pub alloc: Global,
    pub program: &'a Lifted,
    pub function: u32,
}

/// Appends an expression.
pub fn append_expr(inside: &Inside<'_>, expr: &LExpr, out: &mut Vec<u8>) -> Result<(), AllocError>
    ensures { OnOk result (out.new.items
        ≡ out.old.items ++ shown (reads inside.now) expr.now) }
{
    let text = print_expr(
        inside.alloc,
        inside.program,
        Some(inside.function),
        None,
        expr,
    )?;
    out.extend_from_slice(text.as_bytes())
}

/// Appends expressions with a comma before each.
pub fn append_each(
    inside: &Inside<'_>,
    exprs: &[LExpr],
    out: &mut Vec<u8>,
) -> Result<(), AllocError>
    ensures { OnOk result (out.new.items
        ≡ out.old.items ++ each (shown (reads inside.now)) exprs.now) }
{
    'exprs: for i in 0..exprs.len() {
        out.extend_from_slice(b", ")?;
        append_expr(inside, &exprs[i], out)?;
    }
    Ok(())
}

/// Appends expressions with a comma between them.
fn append_listed(inside: &Inside<'_>, exprs: &[LExpr], out: &mut Vec<u8>) -> Result<(), AllocError>
    ensures { OnOk result (out.new.items
        ≡ out.old.items ++ listed (shown (reads inside.now)) exprs.now) }
{
    match exprs.split_first() {
        None => Ok(()),
        Some((first, rest)) => {
            append_expr(inside, first, out)?;
            append_each(inside, rest, out)
        }
    }
}

/// Appends a call of a function.
pub fn append_call(
    inside: &Inside<'_>,
    function: u32,
    args: &[LExpr],
    out: &mut Vec<u8>,
) -> Result<(), AllocError>
    ensures { OnOk result (out.new.items
        ≡ out.old.items ++ spec.call_text (reads inside.now) function args.now) }
{
    out.extend_from_slice(function_name(inside.program, function))?;
    out.extend_from_slice(b"(")?;
    append_listed(inside, args, out)?;
    out.extend_from_slice(b");")
}

/// The expression that reads a destination.
fn read_of(alloc: Global, to: &Dest) -> Result<LExpr, AllocError>
    ensures { IfOk result (λ e. e ≡ spec.read_of to.now) }
{
    Ok(match to {
        Dest::Slot(slot) => LExpr::Slot(*slot),
        Dest::Global(global) => LExpr::Global(*global),
        Dest::Elem(global, at) => LExpr::Elem(*global, Boxed::new(alloc, at.copy(alloc)?)?),
        Dest::Field(pointer, owner, field) => {
            LExpr::Field(Boxed::new(alloc, pointer.copy(alloc)?)?, *owner, *field)
        }
    })
}

/// Appends a destination.
pub fn append_dest(inside: &Inside<'_>, to: &Dest, out: &mut Vec<u8>) -> Result<(), AllocError>
    ensures { OnOk result (out.new.items
        ≡ out.old.items ++ shown (reads inside.now) (spec.read_of to.now)) }
{
    let read = read_of(inside.alloc, to)?;
    append_expr(inside, &read, out)
}
