//! The text of the parts that a frame becomes.

ghost use Rattle.std.specs.Prelude.{◌≡◌, ◌++◌, OnOk};
ghost use Rattle.std.specs.List.{flat_map};
ghost use Rattle.c_tree.specs.Canonical as spec;

use crate::fills::append_fills;
use crate::programs::Programs;
use c_tree::{LPart, function_name};
use std::alloc::{AllocError, Global};

/// Appends the point of a part of a frame of the old function, and what fills its slots.
fn append_part(
    alloc: Global,
    programs: &Programs<'_>,
    function: u32,
    part: &LPart,
    out: &mut Vec<u8>,
) -> Result<(), AllocError>
    ensures { OnOk result (out.new.items ≡ out.old.items
        ++ spec.part_text programs.now function part.now) }
{
    let link = programs.link();
    let slots = link.new().slots(part.function);
    let fills = part.fills.as_slice();
    programs.new().append(part.function, part.place, out)?;
    append_fills(alloc, link.old().program(), function, slots, fills, out)
}

/// Appends an added part, which also tells its function.
fn append_added(
    alloc: Global,
    programs: &Programs<'_>,
    function: u32,
    part: &LPart,
    out: &mut Vec<u8>,
) -> Result<(), AllocError>
    ensures { OnOk result (out.new.items ≡ out.old.items
        ++ spec.added_text programs.now function part.now) }
{
    out.extend_from_slice(b" + ")?;
    out.extend_from_slice(function_name(programs.new().program(), part.function))?;
    out.extend_from_slice(b" ")?;
    append_part(alloc, programs, function, part, out)
}

fn append_each_added(
    alloc: Global,
    programs: &Programs<'_>,
    function: u32,
    added: &[LPart],
    out: &mut Vec<u8>,
) -> Result<(), AllocError>
    ensures { OnOk result (out.new.items ≡ out.old.items
        ++ flat_map (spec.added_text programs.now function) added.now) }
{
    'added: for i in 0..added.len() {
        append_added(alloc, programs, function, &added[i], out)?;
    }
    Ok(())
}

/// Appends the parts that a frame of the old function becomes.
pub fn append_parts(
    alloc: Global,
    programs: &Programs<'_>,
    function: u32,
    parts: &[LPart],
    out: &mut Vec<u8>,
) -> Result<(), AllocError>
    ensures { OnOk result (out.new.items ≡ out.old.items
        ++ spec.parts_text programs.now function parts.now) }
{
    match parts.split_first() {
        None => Ok(()),
        Some((first, added)) => {
            append_part(alloc, programs, function, first, out)?;
            append_each_added(alloc, programs, function, added, out)
        }
    }
}
