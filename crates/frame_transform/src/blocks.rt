//! The lines of statements. They stand at a depth, inside the loop of a label, and begin at place
//! `n`, with `k` ends of loops before.

ghost use Rattle.std.specs.Prelude.{◌≡◌, ◌≤◌, ◌+◌, ◌++◌, OnOk};
ghost use Rattle.c_tree.specs.Layout.{count, size_of};
ghost use Rattle.c_tree.specs.declared.lifted.LStmt.TheVariants as stmt;
ghost use Rattle.frame_transform.specs.Blocks as spec;
ghost use Rattle.frame_transform.specs.Inside.{reads};
ghost use Rattle.frame_transform.specs.Line.{line};
ghost use Rattle.frame_transform.specs.Loops.{loops, loops_of};

use crate::expressions::Inside;
use crate::extent::{extent_of_block, extent_of_statement};
use crate::line::{append_indent, append_line, append_numbered_line};
use crate::statements::{append_around, append_mark, append_simple_lines};
use c_tree::{LExpr, LStmt};
use std::alloc::AllocError;

#[tactic(auto, using(crate::proofs::LineLemmas::line_rules))]
fn append_if_line(
    inside: &Inside<'_>,
    depth: u32,
    test: &LExpr,
    out: &mut Vec<u8>,
) -> Result<(), AllocError>
    ensures { OnOk result (out.new.items
        ≡ out.old.items ++ line depth (spec.if_text (reads inside.now) test.now)) }
{
    append_indent(depth, out)?;
    append_around(inside, b"if (", test, b") {", out)?;
    out.extend_from_slice(b"\n")
}

/// Appends the test of a loop.
#[tactic(auto, using(crate::proofs::LineLemmas::line_rules))]
fn append_leave_line(
    inside: &Inside<'_>,
    depth: u32,
    test: &LExpr,
    out: &mut Vec<u8>,
) -> Result<(), AllocError>
    ensures { OnOk result (out.new.items
        ≡ out.old.items ++ line depth (spec.leave_text (reads inside.now) test.now)) }
{
    append_indent(depth, out)?;
    append_around(inside, b"if (!(", test, b")) break;", out)?;
    out.extend_from_slice(b"\n")
}

/// Appends the line before an else branch that is not empty.
#[tactic(auto, using(crate::proofs::BlockLemmas::else_rules))]
fn append_else_line(depth: u32, no: &[LStmt], out: &mut Vec<u8>) -> Result<(), AllocError>
    ensures { OnOk result (out.new.items ≡ out.old.items ++ spec.else_line_of depth no.now) }
{
    if no.is_empty() {
        return Ok(());
    }
    append_line(depth, b"} else {", out)
}

/// Appends an `if` with both branches.
#[cycle(blocks)]
fn append_if(
    inside: &Inside<'_>,
    depth: u32,
    label: u32,
    n: u32,
    k: u32,
    test: &LExpr,
    yes: &[LStmt],
    no: &[LStmt],
    out: &mut Vec<u8>,
) -> Result<(), AllocError>
    requires depth { depth + 1 + size_of yes.now + size_of no.now ≤ 10000 }
    requires places { n + 1 + size_of yes.now + size_of no.now ≤ 10000 }
    requires loops { k + loops_of yes.now + loops_of no.now ≤ 10000 }
    ensures { OnOk result (out.new.items ≡ out.old.items
        ++ spec.text (reads inside.now) depth label n k (stmt.If test.now yes.now no.now)) }
{
    let first = extent_of_block(yes);
    let other = n + 1 + first.places;
    append_if_line(inside, depth, test, out)?;
    append_block(inside, depth + 1, label, n + 1, k, yes, out)?;
    append_else_line(depth, no, out)?;
    append_block(inside, depth + 1, label, other, k + first.loops, no, out)?;
    append_line(depth, b"}", out)
}

/// Appends a loop: its calls, its test, its body, its step, its end.
#[cycle(blocks)]
fn append_loop(
    inside: &Inside<'_>,
    depth: u32,
    label: u32,
    n: u32,
    k: u32,
    calls: &[LStmt],
    test: &LExpr,
    body: &[LStmt],
    step: &[LStmt],
    out: &mut Vec<u8>,
) -> Result<(), AllocError>
    requires depth { depth + size_of calls.now + 1 + size_of body.now + size_of step.now + 1
        ≤ 10000 }
    requires places { n + size_of calls.now + 1 + size_of body.now + size_of step.now + 1
        ≤ 10000 }
    requires loops { k + loops_of calls.now + loops_of body.now + loops_of step.now + 1
        ≤ 10000 }
    ensures { OnOk result (out.new.items ≡ out.old.items
        ++ spec.text (reads inside.now) depth label n k
        (stmt.Loop calls.now test.now body.now step.now)) }
{
    let first = extent_of_block(calls);
    let second = extent_of_block(body);
    let third = extent_of_block(step);
    let body_at = n + first.places + 1;
    let step_at = body_at + second.places;
    let before = k + first.loops + second.loops;
    let number = before + third.loops + 1;
    let inner = depth + 1;
    append_line(depth, b"for (;;) {", out)?;
    append_block(inside, inner, label, n, k, calls, out)?;
    append_leave_line(inside, inner, test, out)?;
    append_block(inside, inner, number, body_at, k + first.loops, body, out)?;
    append_numbered_line(inner, b"UP_CONT_", number as usize, b": ;", out)?;
    append_block(inside, inner, label, step_at, before, step, out)?;
    append_mark(inner, step_at + third.places, out)?;
    append_line(depth, b"}", out)
}

#[cycle(blocks)]
#[tactic(auto, using(crate::proofs::BlockLemmas::statement_rules))]
fn append_statement(
    inside: &Inside<'_>,
    depth: u32,
    label: u32,
    n: u32,
    k: u32,
    s: &LStmt,
    out: &mut Vec<u8>,
) -> Result<(), AllocError>
    requires depth { depth + count s.now ≤ 10000 }
    requires places { n + count s.now ≤ 10000 }
    requires loops { k + loops s.now ≤ 10000 }
    ensures { OnOk result (out.new.items ≡ out.old.items
        ++ spec.text (reads inside.now) depth label n k s.now) }
{
    match s {
        LStmt::If(test, yes, no) => {
            let (yes, no) = (yes.as_slice(), no.as_slice());
            append_if(inside, depth, label, n, k, test, yes, no, out)
        }
        LStmt::Loop(calls, test, body, step) => {
            let (calls, body, step) = (calls.as_slice(), body.as_slice(), step.as_slice());
            append_loop(inside, depth, label, n, k, calls, test, body, step, out)
        }
        LStmt::Assign(_, _) => append_simple_lines(inside, depth, label, n, s, out),
        LStmt::New(_, _) => append_simple_lines(inside, depth, label, n, s, out),
        LStmt::Getc(_) => append_simple_lines(inside, depth, label, n, s, out),
        LStmt::Print(_, _) => append_simple_lines(inside, depth, label, n, s, out),
        LStmt::Free(_) => append_simple_lines(inside, depth, label, n, s, out),
        LStmt::Call(_, _, _) => append_simple_lines(inside, depth, label, n, s, out),
        LStmt::Spawn(_, _, _) => append_simple_lines(inside, depth, label, n, s, out),
        LStmt::Join(_) => append_simple_lines(inside, depth, label, n, s, out),
        LStmt::Lock(_) => append_simple_lines(inside, depth, label, n, s, out),
        LStmt::Unlock(_) => append_simple_lines(inside, depth, label, n, s, out),
        LStmt::Return(_) => append_simple_lines(inside, depth, label, n, s, out),
        LStmt::Break => append_simple_lines(inside, depth, label, n, s, out),
        LStmt::Continue => append_simple_lines(inside, depth, label, n, s, out),
    }
}

/// Appends the lines of a block.
#[cycle(blocks)]
pub fn append_block(
    inside: &Inside<'_>,
    depth: u32,
    label: u32,
    n: u32,
    k: u32,
    block: &[LStmt],
    out: &mut Vec<u8>,
) -> Result<(), AllocError>
    requires depth { depth + size_of block.now ≤ 10000 }
    requires places { n + size_of block.now ≤ 10000 }
    requires loops { k + loops_of block.now ≤ 10000 }
    ensures { OnOk result (out.new.items ≡ out.old.items
        ++ spec.text_of (reads inside.now) depth label n k block.now) }
{
    let mut at = n;
    let mut before = k;
    'block: for i in 0..block.len() {
        let s = &block[i];
        let more = extent_of_statement(s);
        append_statement(inside, depth, label, at, before, s, out)?;
        at += more.places;
        before += more.loops;
    }
    Ok(())
}
