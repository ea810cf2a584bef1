//! The parts that a frame becomes: where each stands, and what fills its slots.

ghost use Rattle.std.specs.Prelude.{◌≡◌, ◌<◌, ◌∷◌, [], IfOk, Some, length, is_some, map};
ghost use Rattle.c_tree.specs.Link.{match_at};
ghost use Rattle.c_tree.specs.MapStack as spec;
ghost use Rattle.c_tree.specs.Step.{function_of};
ghost use Rattle.stack_map.specs.Kept as kept;
ghost use Rattle.stack_map.specs.Moved as moved;

use crate::entries::declared_point;
use crate::frame_map::FrameMap;
use crate::slots::slot_fillings;
use c_tree::{LExpr, LFill, LPart, PlaceKind, Row};
use patch_match::Link;
use std::alloc::{AllocError, Global};

/// A part that a frame becomes: where it stands, and what fills its slots.
#[derive(Drop)]
pub struct Part {
    /// The new function.
    pub function: u32,
    pub place: u32,
    /// What fills each slot, an expression over the old state.
    pub fillings: Row<LExpr>,
}

/// Whether an old function has a match that leaves it unchanged.
fn is_same(m: &FrameMap<'_, '_>, function: u32) -> bool
    ensures { result ≡ kept.is_same_function m.now.link.now function }
{
    match m.same.get(function as usize) {
        Some(same) => *same,
        None => false,
    }
}

/// Whether a place of an old function is plain; one that is not there is.
fn is_plain(m: &FrameMap<'_, '_>, function: u32, place: u32) -> bool
    requires { function < length m.now.link.now.old.functions }
    ensures { result ≡ kept.is_plain m.now.link.now function place }
{
    if place >= m.places.count(function) {
        return true;
    }
    matches!(m.places.kind(function, place), PlaceKind::Plain)
}

/// Whether a frame stays at the same place of the match `to`.
fn is_kept(m: &FrameMap<'_, '_>, function: u32, to: u32, place: u32) -> bool
    requires { match_at m.now.link.now.functions function ≡ Some to }
    ensures { result ≡ kept.is_kept m.now.link.now function to place }
{
    is_same(m, function) && !is_plain(m, function, place)
}

/// Whether a place of an old function has a map.
pub fn has_map(m: &FrameMap<'_, '_>, function: u32, place: u32) -> bool
    ensures { result ≡ is_some (spec.parts_at m.now.link.now m.now.entries.now function place) }
{
    let to = match m.link.function(function) {
        Some(to) => to,
        None => return false,
    };
    match declared_point(m.declared, m.entries, function, place) {
        Some(_) => true,
        None => is_kept(m, function, to, place),
    }
}

/// How many parts a frame at a place of an old function becomes; none where the place has no map.
pub fn count_at(m: &FrameMap<'_, '_>, function: u32, place: u32) -> usize
    ensures { result
        ≡ spec.count_of (spec.parts_at m.now.link.now m.now.entries.now function place) }
{
    let to = match m.link.function(function) {
        Some(to) => to,
        None => return 0,
    };
    match declared_point(m.declared, m.entries, function, place) {
        Some(parts) => parts.len(),
        None => usize::from(is_kept(m, function, to, place)),
    }
}

/// The part at a place of the new function `to`, to which the slots of the old function `from`, if
/// any, are carried over.
fn part_of(
    alloc: Global,
    k: &Link<'_>,
    from: Option<u32>,
    to: u32,
    place: u32,
    fills: &[LFill],
) -> Result<Part, AllocError>
    ensures { IfOk result (λ p. moved.part p
        ≡ spec.part k.now (moved.carried_from k.now from) to place fills.now) }
{
    let fillings = slot_fillings(alloc, k, from, to, fills)?;
    Ok(Part {
        function: to,
        place,
        fillings,
    })
}

/// The parts that an entry declares for a frame of an old function. Only to the first are its slots
/// carried over.
fn declared_parts(
    alloc: Global,
    k: &Link<'_>,
    function: u32,
    parts: &[LPart],
) -> Result<Row<Part>, AllocError>
    ensures { IfOk result (λ ps. map moved.part ps
        ≡ spec.parts_of k.now (function_of k.now.old function).slots parts.now) }
{
    let mut made = Vec::new(alloc);
    let mut from = Some(function);
    for part in parts {
        let fills = part.fills.as_slice();
        made.push(part_of(alloc, k, from, part.function, part.place, fills)?)?;
        from = None;
    }
    Ok(Row::from_vec(made))
}

/// A row of one part.
fn alone(alloc: Global, part: Part) -> Result<Row<Part>, AllocError>
    ensures { IfOk result (λ ps. ps ≡ part ∷ []) }
{
    let mut made = Vec::new(alloc);
    made.push(part)?;
    Ok(Row::from_vec(made))
}

/// The part of a place that no entry maps.
fn kept_part(
    alloc: Global,
    m: &FrameMap<'_, '_>,
    function: u32,
    to: u32,
    place: u32,
) -> Result<Option<Row<Part>>, AllocError>
    requires { match_at m.now.link.now.functions function ≡ Some to }
    ensures { IfOk result (λ o. moved.parts o
        ≡ spec.unchanged_parts m.now.link.now function to place) }
{
    if !is_kept(m, function, to, place) {
        return Ok(None);
    }
    let part = part_of(alloc, m.link, Some(function), to, place, &[])?;
    Ok(Some(alone(alloc, part)?))
}

/// The parts that a frame at a place of an old function becomes, outermost first; none where the
/// place has no map.
pub fn parts_at(
    alloc: Global,
    m: &FrameMap<'_, '_>,
    function: u32,
    place: u32,
) -> Result<Option<Row<Part>>, AllocError>
    ensures { IfOk result (λ o. moved.parts o
        ≡ spec.parts_at m.now.link.now m.now.entries.now function place) }
{
    let to = match m.link.function(function) {
        Some(to) => to,
        None => return Ok(None),
    };
    match declared_point(m.declared, m.entries, function, place) {
        Some(parts) => Ok(Some(declared_parts(alloc, m.link, function, parts)?)),
        None => kept_part(alloc, m, function, to, place),
    }
}
