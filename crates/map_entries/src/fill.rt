//! What fills the slots of a part.

ghost use Rattle.std.specs.Prelude.{◌≡◌, map, IfOk};
ghost use Rattle.c_tree.specs.Step.{function_of};
ghost use Rattle.c_tree.specs.Suits as suits;
ghost use Rattle.c_tree.specs.Entries.{all_there};
ghost use Rattle.c_tree.specs.Chain.{lifted_fill};

use crate::fits::{filling, slot_asked};
use crate::reads::Reads;
use c_tree::{Fill, LFill, Row};
use patch_match::Link;
use std::alloc::{AllocError, Global};
use std::collections::HashSet;

/// What fills a slot of a new function, from the slots of an old one.
fn lifted_fill(
    alloc: Global,
    k: &Link<'_>,
    from: u32,
    to: u32,
    fill: &Fill,
) -> Result<Option<LFill>, AllocError>
    ensures { IfOk result (λ o. o ≡ lifted_fill k.now
        (suits.reads_slots k.now from) (function_of k.now.new to).slots fill.now) }
{
    let slot = match k.new().slot(to, &fill.slot) {
        Some(slot) => slot,
        None => return Ok(None),
    };
    let asked = slot_asked(k.new().slots(to), slot);
    match filling(alloc, k, Reads::Slots(from), asked, &fill.expr)? {
        Some(expr) => Ok(Some(LFill { slot, expr })),
        None => Ok(None),
    }
}

/// All that fills slots of a new function, if each is there and suits.
pub fn lifted_fills(
    alloc: Global,
    k: &Link<'_>,
    from: u32,
    to: u32,
    fills: &[Fill],
) -> Result<Option<Row<LFill>>, AllocError>
    ensures { IfOk result (λ o. o ≡ all_there (map (lifted_fill k.now
        (suits.reads_slots k.now from) (function_of k.now.new to).slots) fills.now)) }
{
    let mut lifted = Vec::new(alloc);
    for fill in fills {
        match lifted_fill(alloc, k, from, to, fill)? {
            Some(fill) => lifted.push(fill)?,
            None => return Ok(None),
        }
    }
    Ok(Some(Row::from_vec(lifted)))
}

/// Whether a slot is filled twice.
pub fn has_twice(alloc: Global, fills: &[LFill]) -> Result<bool, AllocError>
    ensures { IfOk result (λ b. b ≡ suits.has_twice (map (λ x. x.slot) fills.now)) }
{
    let mut filled = HashSet::new(alloc);
    for fill in fills {
        if !filled.insert(fill.slot)? {
            return Ok(true);
        }
    }
    Ok(false)
}
