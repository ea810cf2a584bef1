//! The canonical order of a patch's entries.

ghost use Rattle.std.specs.Prelude.{◌≡◌, map, IfOk};
ghost use Rattle.c_tree.specs.Canonical as spec;
ghost use Rattle.patch_maker.specs.Order.{numbers_of};

use c_tree::{LEntry, LFill, LPart, Row};
use std::alloc::{AllocError, Global};

/// Where an entry stands: its group, and two numbers within the group.
type Key = (u8, u32, u32);

fn key_of(entry: &LEntry) -> Key
    ensures { result ≡ numbers_of (spec.key_of entry.now) }
{
    match entry {
        LEntry::Match(kind, old, _) => (*kind, *old, 0),
        LEntry::Field(owner, field, _) => (4, *owner, *field),
        LEntry::Init(global, _) => (5, *global, 0),
        LEntry::Point(function, place, _) => (6, *function, *place),
        LEntry::Check(_) => (7, 0, 0),
    }
}

fn fills_in_order(fills: Row<LFill>) -> Result<Row<LFill>, AllocError>
    ensures { IfOk result (λ r. r ≡ spec.fills_in_order fills) }
{
    let mut fills = fills.into_vec();
    fills.sort_by_key(|fill| fill.slot)?;
    Ok(Row::from_vec(fills))
}

fn part_in_order(part: LPart) -> Result<LPart, AllocError>
    ensures { IfOk result (λ p. p ≡ spec.part_in_order part) }
{
    let LPart {
        function,
        place,
        fills,
    } = part;
    Ok(LPart {
        function,
        place,
        fills: fills_in_order(fills)?,
    })
}

/// The parts of a point, with the slots of each in order.
fn parts_in_order(alloc: Global, parts: Row<LPart>) -> Result<Row<LPart>, AllocError>
    ensures { IfOk result (λ r. r ≡ map spec.part_in_order parts) }
{
    let mut made = Vec::new(alloc);
    for part in parts.into_vec() {
        made.push(part_in_order(part)?)?;
    }
    Ok(Row::from_vec(made))
}

fn with_fills_in_order(alloc: Global, entry: LEntry) -> Result<LEntry, AllocError>
    ensures { IfOk result (λ e. e ≡ spec.with_fills_in_order entry) }
{
    match entry {
        LEntry::Point(function, place, parts) => {
            Ok(LEntry::Point(function, place, parts_in_order(alloc, parts)?))
        }
        LEntry::Match(_, _, _) => Ok(entry),
        LEntry::Field(_, _, _) => Ok(entry),
        LEntry::Init(_, _) => Ok(entry),
        LEntry::Check(_) => Ok(entry),
    }
}

fn all_with_fills_in_order(alloc: Global, entries: Vec<LEntry>) -> Result<Vec<LEntry>, AllocError>
    ensures { IfOk result (λ v. v.items ≡ map spec.with_fills_in_order entries.items) }
{
    let mut made = Vec::new(alloc);
    for entry in entries {
        made.push(with_fills_in_order(alloc, entry)?)?;
    }
    Ok(made)
}

/// The entries of a patch, in their order.
pub fn canonical(alloc: Global, entries: Vec<LEntry>) -> Result<Vec<LEntry>, AllocError>
    ensures { IfOk result (λ v. v.items ≡ spec.canonical entries.items) }
{
    let mut entries = all_with_fills_in_order(alloc, entries)?;
    entries.sort_by_key(|entry| key_of(entry))?;
    Ok(entries)
}
