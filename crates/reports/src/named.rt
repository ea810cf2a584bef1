//! The names of what a reason numbers.

ghost use Rattle.std.specs.Prelude.{◌≡◌, ◌++◌, OnOk, find};
ghost use Rattle.std.specs.Option.{option_map};
ghost use Rattle.c_places.specs.Limit.{KeepsLimit};
ghost use Rattle.c_tree.specs.MapStack.{is_point_of};
ghost use Rattle.c_tree.specs.Names as names;
ghost use Rattle.reports.specs.Words as spec;

use c_tree::{LEntry, LPart, Lifted, function_name, slot_name};
use map_text::{Points, name_at};
use patch_match::Link;
use std::alloc::{AllocError, Global};

fn append_point(
    points: &Points<'_>,
    function: u32,
    place: u32,
    out: &mut Vec<u8>,
) -> Result<(), AllocError>
    ensures { OnOk result (out.new.items ≡ out.old.items ++ spec.place points.now function place) }
{
    out.extend_from_slice(function_name(points.program(), function))?;
    out.extend_from_slice(b" ")?;
    points.append(function, place, out)
}

/// Appends the function and the point of a place of a program.
pub fn append_place(
    alloc: Global,
    program: &Lifted,
    function: u32,
    place: u32,
    out: &mut Vec<u8>,
) -> Result<(), AllocError>
    requires { KeepsLimit program.now }
    ensures { OnOk result (out.new.items ≡ out.old.items ++ spec.place program.now function place) }
{
    match Points::of(alloc, program) {
        Ok(points) => append_point(&points, function, place, out),
        Err(e) => Err(e),
    }
}

fn matched_struct(link: &Link<'_>, owner: u32) -> u32
    ensures { result ≡ spec.matched_struct link.now owner }
{
    link.structure(owner).unwrap_or(0)
}

/// Appends the new struct of an object of the old struct `owner`, and a field of it.
pub fn append_field(
    link: &Link<'_>,
    owner: u32,
    field: u32,
    out: &mut Vec<u8>,
) -> Result<(), AllocError>
    ensures { OnOk result (out.new.items ≡ out.old.items ++ spec.field link.now owner field) }
{
    let owner = matched_struct(link, owner);
    out.extend_from_slice(name_at(link.new(), 1, owner))?;
    out.extend_from_slice(b".")?;
    out.extend_from_slice(slot_name(link.new().fields(owner), field))
}

fn matched_function(link: &Link<'_>, function: u32) -> u32
    ensures { result ≡ spec.matched_function link.now function }
{
    link.function(function).unwrap_or(0)
}

/// The parts that an entry declares.
fn parts_of(entry: &LEntry) -> Option<&[LPart]>
    ensures { option_map (λ r. r.now) result ≡ spec.declared (Some entry.now) }
{
    match entry {
        LEntry::Point(_, _, parts) => Some(parts.as_slice()),
        LEntry::Match(_, _, _) => None,
        LEntry::Field(_, _, _) => None,
        LEntry::Init(_, _) => None,
        LEntry::Check(_) => None,
    }
}

/// Whether an entry maps a place of an old function.
fn is_point_of(function: u32, place: u32, entry: &LEntry) -> bool
    ensures { result ≡ is_point_of function place entry.now }
{
    match entry {
        LEntry::Point(f, p, _) => function == *f && place == *p,
        LEntry::Match(_, _, _) => false,
        LEntry::Field(_, _, _) => false,
        LEntry::Init(_, _) => false,
        LEntry::Check(_) => false,
    }
}

/// The parts that the entries take a place of an old function to.
fn declared_parts(entries: &[LEntry], function: u32, place: u32) -> Option<&[LPart]>
    ensures { option_map (λ r. r.now) result
        ≡ spec.declared (find (is_point_of function place) entries.now) }
{
    for entry in entries {
        if is_point_of(function, place, entry) {
            return parts_of(entry);
        }
    }
    None
}

/// The name of a slot, counted through the slots of all parts.
fn name_in<'a>(link: &'a Link<'_>, parts: &[LPart], slot: u32) -> &'a [u8]
    ensures { result.now
        ≡ names.slot_name (spec.slots_in link.now (spec.functions_of parts.now)) slot }
{
    let mut left = slot;
    for part in parts {
        let slots = link.new().slots(part.function);
        if (left as usize) < slots.len() {
            return slot_name(slots, left);
        }
        left -= slots.len() as u32;
    }
    b""
}

/// The name of a slot of the parts of a frame of an old function at a place of it.
fn slot_of<'a>(link: &'a Link<'_>, entries: &[LEntry], at: (u32, u32), slot: u32) -> &'a [u8]
    ensures { result.now ≡ spec.slot link.now entries.now at slot }
{
    match declared_parts(entries, at.0, at.1) {
        Some(parts) => name_in(link, parts, slot),
        None => slot_name(link.new().slots(matched_function(link, at.0)), slot),
    }
}

/// Appends a slot of the parts of a frame of an old function at a place of it.
pub fn append_slot(
    link: &Link<'_>,
    entries: &[LEntry],
    at: (u32, u32),
    slot: u32,
    out: &mut Vec<u8>,
) -> Result<(), AllocError>
    ensures { OnOk result
        (out.new.items ≡ out.old.items ++ spec.slot link.now entries.now at slot) }
{
    out.extend_from_slice(slot_of(link, entries, at, slot))
}
