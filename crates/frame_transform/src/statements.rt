//! The lines of a statement that holds no other statement.

ghost use Rattle.std.specs.Prelude.{◌≡◌, ◌++◌, codes, OnOk};
ghost use Rattle.std.specs.List.{flat_map};
ghost use Rattle.c_tree.specs.Names.{name_at};
ghost use Rattle.c_tree.specs.Shown.{shown};
ghost use Rattle.c_tree.specs.declared.lifted.LExpr.TheVariants as l;
ghost use Rattle.frame_transform.specs.Inside.{reads};
ghost use Rattle.frame_transform.specs.Line.{each, line, mark};
ghost use Rattle.frame_transform.specs.Statements as spec;

use crate::expressions::{Inside, append_call, append_dest, append_each, append_expr};
use crate::line::{append_indent, append_numbered, append_numbered_line};
use crate::names::{mutex_name, struct_name};
use c_tree::{Dest, LExpr, LStmt, function_name};
use std::alloc::AllocError;

fn append_slot(inside: &Inside<'_>, slot: u32, out: &mut Vec<u8>) -> Result<(), AllocError>
    ensures { OnOk result (out.new.items
        ≡ out.old.items ++ shown (reads inside.now) (l.Slot slot)) }
{
    append_expr(inside, &LExpr::Slot(slot), out)
}

fn append_assign(
    inside: &Inside<'_>,
    to: &Dest,
    e: &LExpr,
    out: &mut Vec<u8>,
) -> Result<(), AllocError>
    ensures { OnOk result (out.new.items ≡ out.old.items
        ++ (shown (reads inside.now) (spec.read_of to.now)
        ++ (codes " = " ++ (shown (reads inside.now) e.now ++ codes ";")))) }
{
    append_dest(inside, to, out)?;
    out.extend_from_slice(b" = ")?;
    append_expr(inside, e, out)?;
    out.extend_from_slice(b";")
}

/// Appends a name between two texts.
fn append_named(
    before: &[u8],
    name: &[u8],
    after: &[u8],
    out: &mut Vec<u8>,
) -> Result<(), AllocError>
    ensures { OnOk result (out.new.items
        ≡ out.old.items ++ (before.now ++ (name.now ++ after.now))) }
{
    out.extend_from_slice(before)?;
    out.extend_from_slice(name)?;
    out.extend_from_slice(after)
}

fn append_new(
    inside: &Inside<'_>,
    slot: u32,
    owner: u32,
    out: &mut Vec<u8>,
) -> Result<(), AllocError>
    ensures { OnOk result (out.new.items ≡ out.old.items
        ++ (shown (reads inside.now) (l.Slot slot)
        ++ (codes " = malloc(sizeof(struct "
        ++ (name_at (reads inside.now).program 1 owner ++ codes "));")))) }
{
    let name = struct_name(inside.program, owner);
    append_slot(inside, slot, out)?;
    append_named(b" = malloc(sizeof(struct ", name, b"));", out)
}

fn append_getc(inside: &Inside<'_>, slot: u32, out: &mut Vec<u8>) -> Result<(), AllocError>
    ensures { OnOk result (out.new.items ≡ out.old.items
        ++ (shown (reads inside.now) (l.Slot slot) ++ codes " = getchar();")) }
{
    append_slot(inside, slot, out)?;
    out.extend_from_slice(b" = getchar();")
}

/// Appends a byte as it stands in the source of a string.
fn append_escaped(byte: u8, out: &mut Vec<u8>) -> Result<(), AllocError>
    ensures { OnOk result (out.new.items ≡ out.old.items ++ spec.escaped byte) }
{
    if byte == b'\n' {
        out.extend_from_slice(b"\\n")
    } else if byte == b'\t' {
        out.extend_from_slice(b"\\t")
    } else if byte == b'\\' {
        out.extend_from_slice(b"\\\\")
    } else if byte == b'"' {
        out.extend_from_slice(b"\\\"")
    } else {
        out.extend_from_slice(&[byte])
    }
}

fn append_string(text: &[u8], out: &mut Vec<u8>) -> Result<(), AllocError>
    ensures { OnOk result (out.new.items ≡ out.old.items ++ flat_map spec.escaped text.now) }
{
    'bytes: for i in 0..text.len() {
        append_escaped(text[i], out)?;
    }
    Ok(())
}

fn append_print(
    inside: &Inside<'_>,
    text: &[u8],
    args: &[LExpr],
    out: &mut Vec<u8>,
) -> Result<(), AllocError>
    ensures { OnOk result (out.new.items ≡ out.old.items
        ++ (codes "printf(\"" ++ (flat_map spec.escaped text.now
        ++ (codes "\"" ++ (each (shown (reads inside.now)) args.now ++ codes ");"))))) }
{
    out.extend_from_slice(b"printf(\"")?;
    append_string(text, out)?;
    out.extend_from_slice(b"\"")?;
    append_each(inside, args, out)?;
    out.extend_from_slice(b");")
}

/// Appends an expression between two texts.
pub fn append_around(
    inside: &Inside<'_>,
    before: &[u8],
    e: &LExpr,
    after: &[u8],
    out: &mut Vec<u8>,
) -> Result<(), AllocError>
    ensures { OnOk result (out.new.items ≡ out.old.items
        ++ (before.now ++ (shown (reads inside.now) e.now ++ after.now))) }
{
    out.extend_from_slice(before)?;
    append_expr(inside, e, out)?;
    out.extend_from_slice(after)
}

fn append_result(inside: &Inside<'_>, to: Option<u32>, out: &mut Vec<u8>) -> Result<(), AllocError>
    ensures { OnOk result (out.new.items
        ≡ out.old.items ++ spec.result_text (reads inside.now) to) }
{
    match to {
        None => Ok(()),
        Some(slot) => {
            append_slot(inside, slot, out)?;
            out.extend_from_slice(b" = ")
        }
    }
}

fn append_call_to(
    inside: &Inside<'_>,
    to: Option<u32>,
    function: u32,
    args: &[LExpr],
    out: &mut Vec<u8>,
) -> Result<(), AllocError>
    ensures { OnOk result (out.new.items ≡ out.old.items
        ++ (spec.result_text (reads inside.now) to
        ++ spec.call_text (reads inside.now) function args.now)) }
{
    append_result(inside, to, out)?;
    append_call(inside, function, args, out)
}

fn append_spawn(
    inside: &Inside<'_>,
    to: &Dest,
    function: u32,
    e: &LExpr,
    out: &mut Vec<u8>,
) -> Result<(), AllocError>
    ensures { OnOk result (out.new.items ≡ out.old.items
        ++ (codes "pthread_create(&" ++ (shown (reads inside.now) (spec.read_of to.now)
        ++ (codes ", NULL, " ++ (name_at (reads inside.now).program 0 function
        ++ (codes ", " ++ (shown (reads inside.now) e.now ++ codes ");"))))))) }
{
    out.extend_from_slice(b"pthread_create(&")?;
    append_dest(inside, to, out)?;
    out.extend_from_slice(b", NULL, ")?;
    out.extend_from_slice(function_name(inside.program, function))?;
    append_around(inside, b", ", e, b");", out)
}

/// Appends a statement that holds no other; nothing of one that does.
fn append_simple(
    inside: &Inside<'_>,
    label: u32,
    s: &LStmt,
    out: &mut Vec<u8>,
) -> Result<(), AllocError>
    ensures { OnOk result (out.new.items
        ≡ out.old.items ++ spec.simple_text (reads inside.now) label s.now) }
{
    match s {
        LStmt::Assign(to, e) => append_assign(inside, to, e, out),
        LStmt::New(slot, owner) => append_new(inside, *slot, *owner, out),
        LStmt::Getc(slot) => append_getc(inside, *slot, out),
        LStmt::Print(text, args) => append_print(inside, text.as_bytes(), args.as_slice(), out),
        LStmt::Free(e) => append_around(inside, b"free(", e, b");", out),
        LStmt::Call(to, function, args) => {
            append_call_to(inside, *to, *function, args.as_slice(), out)
        }
        LStmt::Spawn(to, function, e) => append_spawn(inside, to, *function, e, out),
        LStmt::Join(e) => append_around(inside, b"pthread_join(", e, b", NULL);", out),
        LStmt::Lock(m) => {
            let name = mutex_name(inside.program, *m);
            append_named(b"pthread_mutex_lock(&", name, b");", out)
        }
        LStmt::Unlock(m) => {
            let name = mutex_name(inside.program, *m);
            append_named(b"pthread_mutex_unlock(&", name, b");", out)
        }
        LStmt::Return(None) => out.extend_from_slice(b"return;"),
        LStmt::Return(Some(e)) => append_around(inside, b"return ", e, b";", out),
        LStmt::Break => out.extend_from_slice(b"break;"),
        LStmt::Continue => append_numbered(b"goto UP_CONT_", label as usize, b";", out),
        LStmt::If(_, _, _) => Ok(()),
        LStmt::Loop(_, _, _, _) => Ok(()),
    }
}

/// Appends the mark of a place at which a frame may be saved.
pub fn append_mark(depth: u32, n: u32, out: &mut Vec<u8>) -> Result<(), AllocError>
    ensures { OnOk result (out.new.items ≡ out.old.items ++ line depth (mark n)) }
{
    append_numbered_line(depth, b"UP_AT(", n as usize, b");", out)
}

/// Appends the mark before a statement at which a thread may wait.
fn append_mark_before(depth: u32, n: u32, s: &LStmt, out: &mut Vec<u8>) -> Result<(), AllocError>
    ensures { OnOk result (out.new.items ≡ out.old.items ++ spec.mark_before depth n s.now) }
{
    match s {
        LStmt::Join(_) => append_mark(depth, n, out),
        LStmt::Lock(_) => append_mark(depth, n, out),
        LStmt::Assign(_, _) => Ok(()),
        LStmt::New(_, _) => Ok(()),
        LStmt::Getc(_) => Ok(()),
        LStmt::Print(_, _) => Ok(()),
        LStmt::Free(_) => Ok(()),
        LStmt::Call(_, _, _) => Ok(()),
        LStmt::Spawn(_, _, _) => Ok(()),
        LStmt::Unlock(_) => Ok(()),
        LStmt::Return(_) => Ok(()),
        LStmt::If(_, _, _) => Ok(()),
        LStmt::Loop(_, _, _, _) => Ok(()),
        LStmt::Break => Ok(()),
        LStmt::Continue => Ok(()),
    }
}

/// Appends the mark behind a call.
fn append_mark_behind(depth: u32, n: u32, s: &LStmt, out: &mut Vec<u8>) -> Result<(), AllocError>
    ensures { OnOk result (out.new.items ≡ out.old.items ++ spec.mark_behind depth n s.now) }
{
    match s {
        LStmt::Call(_, _, _) => append_numbered_line(depth, b"UP_AFTER(", n as usize, b");", out),
        LStmt::Assign(_, _) => Ok(()),
        LStmt::New(_, _) => Ok(()),
        LStmt::Getc(_) => Ok(()),
        LStmt::Print(_, _) => Ok(()),
        LStmt::Free(_) => Ok(()),
        LStmt::Spawn(_, _, _) => Ok(()),
        LStmt::Join(_) => Ok(()),
        LStmt::Lock(_) => Ok(()),
        LStmt::Unlock(_) => Ok(()),
        LStmt::Return(_) => Ok(()),
        LStmt::If(_, _, _) => Ok(()),
        LStmt::Loop(_, _, _, _) => Ok(()),
        LStmt::Break => Ok(()),
        LStmt::Continue => Ok(()),
    }
}

#[tactic(auto, using(crate::proofs::LineLemmas::line_rules))]
fn append_simple_line(
    inside: &Inside<'_>,
    depth: u32,
    label: u32,
    s: &LStmt,
    out: &mut Vec<u8>,
) -> Result<(), AllocError>
    ensures { OnOk result (out.new.items
        ≡ out.old.items ++ line depth (spec.simple_text (reads inside.now) label s.now)) }
{
    append_indent(depth, out)?;
    append_simple(inside, label, s, out)?;
    out.extend_from_slice(b"\n")
}

/// Appends the lines of a statement that holds no other, at place `n` and inside the loop of a
/// label.
pub fn append_simple_lines(
    inside: &Inside<'_>,
    depth: u32,
    label: u32,
    n: u32,
    s: &LStmt,
    out: &mut Vec<u8>,
) -> Result<(), AllocError>
    ensures { OnOk result (out.new.items
        ≡ out.old.items ++ spec.simple_lines (reads inside.now) depth label n s.now) }
{
    append_mark_before(depth, n, s, out)?;
    append_simple_line(inside, depth, label, s, out)?;
    append_mark_behind(depth, n, s, out)
}
