//! The text of an entry.

ghost use Rattle.std.specs.Prelude.{◌≡◌, ◌++◌, OnOk};
ghost use Rattle.c_tree.specs.declared.mapping.LEntry.TheVariants as form;
ghost use Rattle.c_tree.specs.Canonical as spec;
ghost use Rattle.map_text.specs.Lines as words;

use crate::fills::append_expr;
use crate::names::name_at;
use crate::part::append_parts;
use crate::points::Points;
use crate::programs::Programs;
use c_tree::{LEntry, LExpr, LPart, function_name, slot_name};
use patch_match::{Link, Tables};
use std::alloc::{AllocError, Global};

fn match_word(kind: u8) -> &'static [u8]
    ensures { result.now ≡ spec.match_word kind }
{
    match kind {
        0 => b"function",
        1 => b"struct",
        2 => b"global",
        _ => b"mutex",
    }
}

fn side_text<'a>(program: &'a Tables<'_>, kind: u8, side: Option<u32>) -> &'a [u8]
    ensures { result.now ≡ spec.side_text program.now kind side }
{
    match side {
        Some(i) => name_at(program, kind, i),
        None => b"none",
    }
}

/// Appends two texts.
fn append_two(first: &[u8], second: &[u8], out: &mut Vec<u8>) -> Result<(), AllocError>
    ensures { OnOk result (out.new.items ≡ out.old.items ++ (first.now ++ second.now)) }
{
    out.extend_from_slice(first)?;
    out.extend_from_slice(second)
}

fn append_match(
    link: &Link<'_>,
    kind: u8,
    old: u32,
    new: Option<u32>,
    out: &mut Vec<u8>,
) -> Result<(), AllocError>
    ensures { OnOk result (out.new.items ≡ out.old.items
        ++ spec.entry_text link.now (form.Match kind old new)) }
{
    append_two(match_word(kind), b" ", out)?;
    append_two(name_at(link.old(), kind, old), b" -> ", out)?;
    out.extend_from_slice(side_text(link.new(), kind, new))
}

fn append_field(
    alloc: Global,
    link: &Link<'_>,
    owner: u32,
    field: u32,
    expr: &LExpr,
    out: &mut Vec<u8>,
) -> Result<(), AllocError>
    ensures { OnOk result (out.new.items ≡ out.old.items
        ++ spec.entry_text link.now (form.Field owner field expr.now)) }
{
    let old = link.old().program();
    let origin = link.origin(owner);
    append_two(b"field ", name_at(link.new(), 1, owner), out)?;
    append_two(b".", slot_name(link.new().fields(owner), field), out)?;
    out.extend_from_slice(b" = ")?;
    append_expr(alloc, old, None, origin, expr, out)
}

fn append_init(
    alloc: Global,
    link: &Link<'_>,
    global: u32,
    expr: &LExpr,
    out: &mut Vec<u8>,
) -> Result<(), AllocError>
    ensures { OnOk result (out.new.items ≡ out.old.items
        ++ spec.entry_text link.now (form.Init global expr.now)) }
{
    let old = link.old().program();
    out.extend_from_slice(b"init ")?;
    out.extend_from_slice(name_at(link.new(), 2, global))?;
    out.extend_from_slice(b" = ")?;
    append_expr(alloc, old, None, None, expr, out)
}

/// Appends the old side of a point.
fn append_from(
    old: &Points<'_>,
    function: u32,
    place: u32,
    out: &mut Vec<u8>,
) -> Result<(), AllocError>
    ensures { OnOk result (out.new.items ≡ out.old.items ++ words.from old.now function place) }
{
    out.extend_from_slice(b"point ")?;
    out.extend_from_slice(function_name(old.program(), function))?;
    out.extend_from_slice(b" ")?;
    old.append(function, place, out)
}

fn append_point(
    alloc: Global,
    programs: &Programs<'_>,
    function: u32,
    place: u32,
    parts: &[LPart],
    out: &mut Vec<u8>,
) -> Result<(), AllocError>
    ensures { OnOk result (out.new.items ≡ out.old.items
        ++ spec.entry_text programs.now (form.Point function place parts.now)) }
{
    append_from(programs.old(), function, place, out)?;
    out.extend_from_slice(b" -> ")?;
    append_parts(alloc, programs, function, parts, out)
}

fn append_check(
    alloc: Global,
    link: &Link<'_>,
    expr: &LExpr,
    out: &mut Vec<u8>,
) -> Result<(), AllocError>
    ensures { OnOk result (out.new.items ≡ out.old.items
        ++ spec.entry_text link.now (form.Check expr.now)) }
{
    let old = link.old().program();
    out.extend_from_slice(b"check ")?;
    append_expr(alloc, old, None, None, expr, out)
}

/// Appends an entry.
pub fn append_entry(
    alloc: Global,
    programs: &Programs<'_>,
    entry: &LEntry,
    out: &mut Vec<u8>,
) -> Result<(), AllocError>
    ensures { OnOk result (out.new.items ≡ out.old.items
        ++ spec.entry_text programs.now entry.now) }
{
    let link = programs.link();
    match entry {
        LEntry::Match(kind, old, new) => append_match(link, *kind, *old, *new, out),
        LEntry::Field(owner, field, expr) => {
            append_field(alloc, link, *owner, *field, expr, out)
        }
        LEntry::Init(global, expr) => append_init(alloc, link, *global, expr, out),
        LEntry::Point(function, place, parts) => {
            append_point(alloc, programs, *function, *place, parts.as_slice(), out)
        }
        LEntry::Check(expr) => append_check(alloc, link, expr, out),
    }
}
