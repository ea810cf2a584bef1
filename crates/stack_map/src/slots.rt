//! What fills the slots of a new frame.

ghost use Rattle.std.specs.Prelude.{◌≡◌, IfOk};
ghost use Rattle.std.specs.Option.{option_map};
ghost use Rattle.c_tree.specs.Fillings as fillings;
ghost use Rattle.c_tree.specs.MapStack as spec;
ghost use Rattle.c_tree.specs.Step.{function_of};
ghost use Rattle.c_tree.specs.declared.lifted.LExpr.TheVariants as l;
ghost use Rattle.stack_map.specs.Moved.{carried_from};

use crate::carry::carried;
use c_tree::{LExpr, LFill, Row, Slot};
use patch_match::Link;
use std::alloc::{AllocError, Global};

/// What a new slot takes where no entry fills it: the old slot, else 0.
fn carried_slot(old: Option<u32>) -> LExpr
    ensures { result ≡ fillings.filling None (option_map (λ i. l.Slot i) old) }
{
    match old {
        Some(old) => LExpr::Slot(old),
        None => LExpr::Num(0),
    }
}

/// The declared expression of a slot, else the old slot, else 0.
fn slot_filling(
    alloc: Global,
    fills: &[LFill],
    slot: usize,
    old: Option<u32>,
) -> Result<LExpr, AllocError>
    ensures { IfOk result (λ e. e
        ≡ fillings.filling (spec.fill_for fills.now slot) (option_map (λ i. l.Slot i) old)) }
{
    for fill in fills {
        if fill.slot as usize == slot {
            return fill.expr.copy(alloc);
        }
    }
    Ok(carried_slot(old))
}

/// The old slot that a new one takes its value from; none where no old function is carried over.
fn old_slot(k: &Link<'_>, from: Option<u32>, slot: &Slot) -> Result<Option<u32>, AllocError>
    ensures { IfOk result (λ o. o
        ≡ fillings.carried k.now (carried_from k.now from) slot.now) }
{
    match from {
        Some(f) => carried(k, k.old().slots(f), k.old().slot(f, &slot.name), slot),
        None => Ok(None),
    }
}

/// What fills the slots of a frame of the new function `g`, to which the slots of the old function
/// `from`, if any, are carried over.
pub fn slot_fillings(
    alloc: Global,
    k: &Link<'_>,
    from: Option<u32>,
    g: u32,
    fills: &[LFill],
) -> Result<Row<LExpr>, AllocError>
    ensures { IfOk result (λ es. es ≡
        spec.slot_fillings k.now (carried_from k.now from) fills.now
        (function_of k.now.new g).slots) }
{
    let mut made = Vec::new(alloc);
    for (j, slot) in k.new().slots(g).iter().enumerate() {
        let old = old_slot(k, from, slot)?;
        made.push(slot_filling(alloc, fills, j, old)?)?;
    }
    Ok(Row::from_vec(made))
}
