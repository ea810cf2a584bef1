//! The text of a patch's entries.

ghost use Rattle.std.specs.Prelude.{◌≡◌, ◌++◌, IfOk, OnOk};
ghost use Rattle.std.specs.List.{flat_map};
ghost use Rattle.c_places.specs.Limit.{KeepsLimit};
ghost use Rattle.c_tree.specs.Canonical as spec;
ghost use Rattle.map_text.specs.Lines.{line};

use crate::entry::append_entry;
use crate::programs::Programs;
use c_tree::{LEntry, Lifted};
use std::alloc::{AllocError, Global};

fn append_line(
    alloc: Global,
    programs: &Programs<'_>,
    entry: &LEntry,
    out: &mut Vec<u8>,
) -> Result<(), AllocError>
    ensures { OnOk result (out.new.items ≡ out.old.items ++ line programs.now entry.now) }
{
    append_entry(alloc, programs, entry, out)?;
    out.extend_from_slice(b";\n")
}

fn append_lines(
    alloc: Global,
    programs: &Programs<'_>,
    entries: &[LEntry],
    out: &mut Vec<u8>,
) -> Result<(), AllocError>
    ensures { OnOk result (out.new.items ≡ out.old.items
        ++ flat_map (line programs.now) entries.now) }
{
    'entries: for i in 0..entries.len() {
        append_line(alloc, programs, &entries[i], out)?;
    }
    Ok(())
}

/// The text of a patch's entries, one a line, in the order in which they stand. The number of a
/// thing that is not there has no name, and a place that is not there is no point.
pub fn mapping_text(
    alloc: Global,
    old: &Lifted,
    new: &Lifted,
    entries: &[LEntry],
) -> Result<Vec<u8>, AllocError>
    requires old_limit { KeepsLimit old.now }
    requires new_limit { KeepsLimit new.now }
    ensures { IfOk result (λ t. t.items ≡ spec.canonical_text old.now new.now entries.now) }
{
    let programs = Programs::of(alloc, old, new, entries)?;
    let mut out = Vec::new(alloc);
    append_lines(alloc, &programs, entries, &mut out)?;
    Ok(out)
}
