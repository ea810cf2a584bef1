//! The text of what fills the slots of a frame.

ghost use Rattle.std.specs.Prelude.{◌≡◌, ◌++◌, ℕ, None, OnOk, Some};
ghost use Rattle.std.specs.List.{flat_map};
ghost use Rattle.c_tree.specs.Canonical as spec;
ghost use Rattle.c_tree.specs.MapExpr.{reads_of};
ghost use Rattle.c_tree.specs.Shown.{shown};

use c_tree::{LExpr, LFill, Lifted, Slot, print_expr, slot_name};
use std::alloc::{AllocError, Global};

/// Appends an expression, whose slots are those of the function, and whose own fields are those of
/// the struct.
pub fn append_expr(
    alloc: Global,
    program: &Lifted,
    function: Option<u32>,
    owner: Option<u32>,
    expr: &LExpr,
    out: &mut Vec<u8>,
) -> Result<(), AllocError>
    ensures { OnOk result (out.new.items ≡ out.old.items
        ++ shown (reads_of program.now function owner) expr.now) }
{
    let text = print_expr(alloc, program, function, owner, expr)?;
    out.extend_from_slice(text.as_bytes())
}

fn append_fill(
    alloc: Global,
    old: &Lifted,
    function: u32,
    slots: &[Slot],
    fill: &LFill,
    out: &mut Vec<u8>,
) -> Result<(), AllocError>
    ensures { OnOk result (out.new.items ≡ out.old.items
        ++ spec.fill_text (reads_of old.now (Some function) None) slots.now fill.now) }
{
    out.extend_from_slice(slot_name(slots, fill.slot))?;
    out.extend_from_slice(b" = ")?;
    append_expr(alloc, old, Some(function), None, &fill.expr, out)?;
    out.extend_from_slice(b"; ")
}

fn append_each(
    alloc: Global,
    old: &Lifted,
    function: u32,
    slots: &[Slot],
    fills: &[LFill],
    out: &mut Vec<u8>,
) -> Result<(), AllocError>
    ensures { OnOk result (out.new.items ≡ out.old.items
        ++ flat_map (spec.fill_text (reads_of old.now (Some function) None) slots.now) fills.now) }
{
    'fills: for i in 0..fills.len() {
        append_fill(alloc, old, function, slots, &fills[i], out)?;
    }
    Ok(())
}

/// Appends what fills the new slots, by expressions over those of the old function, where something
/// does.
#[tactic(auto, using(crate::proofs::TextLemmas::some_fills))]
pub fn append_fills(
    alloc: Global,
    old: &Lifted,
    function: u32,
    slots: &[Slot],
    fills: &[LFill],
    out: &mut Vec<u8>,
) -> Result<(), AllocError>
    ensures { OnOk result (out.new.items ≡ out.old.items
        ++ spec.fills_text (reads_of old.now (Some function) None) slots.now fills.now) }
{
    if fills.is_empty() {
        return Ok(());
    }
    out.extend_from_slice(b" { ")?;
    append_each(alloc, old, function, slots, fills, out)?;
    out.extend_from_slice(b"}")
}
