//! Expressions by numbers as text.

use crate::trees::put_bytes;
use c_tree::LExpr;
use std::alloc::{AllocError, Global};

fn put_head(text: &mut String, x: &LExpr) -> Result<(), AllocError> {
    match x {
        LExpr::Num(n) => write!(text, "{n}"),
        LExpr::Null => text.push_str("NULL"),
        LExpr::Slot(n) => write!(text, "Slot {n}"),
        LExpr::Global(n) => write!(text, "Global {n}"),
        LExpr::Own(n) => write!(text, "Own {n}"),
        LExpr::Elem(n, _) => write!(text, "Elem {n}"),
        LExpr::Field(_, owner, field) => write!(text, "Field {owner} {field}"),
        LExpr::Un(op, _) => put_bytes(text, op.text()),
        LExpr::Bin(op, _, _) => put_bytes(text, op.text()),
    }
}

/// Takes up a part of an expression; the last that is taken up is told first.
fn take<'a>(work: &mut Vec<&'a LExpr>, x: &'a LExpr) -> Result<(), AllocError> {
    work.push(x)?;
    Ok(())
}

fn take_two<'a>(
    work: &mut Vec<&'a LExpr>,
    left: &'a LExpr,
    right: &'a LExpr,
) -> Result<(), AllocError> {
    work.push(right)?;
    work.push(left)?;
    Ok(())
}

fn take_parts<'a>(work: &mut Vec<&'a LExpr>, x: &'a LExpr) -> Result<(), AllocError> {
    match x {
        LExpr::Elem(_, index) => take(work, index.get()),
        LExpr::Field(base, _, _) => take(work, base.get()),
        LExpr::Un(_, operand) => take(work, operand.get()),
        LExpr::Bin(_, left, right) => take_two(work, left.get(), right.get()),
        _ => Ok(()),
    }
}

/// An expression by numbers, each node before its parts.
///
/// # Errors
/// Memory for the text.
pub fn put_shape(text: &mut String, alloc: Global, x: &LExpr) -> Result<(), AllocError> {
    let mut work = Vec::new(alloc);
    work.push(x)?;
    for _ in 0..100 {
        match work.pop() {
            Some(x) => {
                text.push_str(if text.is_empty() { "" } else { " " })?;
                put_head(text, x)?;
                take_parts(&mut work, x)?;
            }
            None => return Ok(()),
        }
    }
    Ok(())
}
