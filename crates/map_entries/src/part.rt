//! The parts that a frame becomes: their functions, where they stand, and what fills their slots.

ghost use Rattle.std.specs.Prelude.{◌≡◌, map, IfOk};
ghost use Rattle.std.specs.List.{list_any};
ghost use Rattle.std.specs.Option.{option_map};
ghost use Rattle.c_tree.specs.Entries as spec;
ghost use Rattle.c_tree.specs.Chain as chain;
ghost use Rattle.map_entries.specs.Rest as rest;

use crate::fill::{has_twice, lifted_fills};
use crate::points::PointTable;
use crate::site::Site;
use c_tree::{Fill, LPart, Name, Part, Pt, Row};
use patch_match::Link;
use std::alloc::{AllocError, Global};

/// The number of a part's function, where the match of the old one has this number.
fn function_in(k: &Link<'_>, matched: u32, name: &Option<Name>) -> Option<u32>
    ensures { result ≡ spec.function_in k.now matched name.now }
{
    match name {
        None => Some(matched),
        Some(name) => k.new().number(0, name),
    }
}

/// The numbers of the parts' functions, if each is there.
pub fn functions_of(
    alloc: Global,
    k: &Link<'_>,
    matched: u32,
    parts: &[Part],
) -> Result<Option<Row<u32>>, AllocError>
    ensures { IfOk result (λ o. o ≡
        spec.all_there (map (λ p. spec.function_in k.now matched p.function) parts.now)) }
{
    let mut functions = Vec::new(alloc);
    for part in parts {
        match function_in(k, matched, &part.function) {
            Some(function) => functions.push(function)?,
            None => return Ok(None),
        }
    }
    Ok(Some(Row::from_vec(functions)))
}

/// The place of a point in a new function.
fn site_in(new: &PointTable<'_>, function: u32, point: Pt) -> Option<Site>
    ensures { option_map rest.seen result ≡ rest.site_in new.now function point }
{
    match new.place_of(function, point) {
        Some(place) => Some(Site { function, place }),
        None => None,
    }
}

/// Where the parts of these functions stand, if each point is there.
pub fn sites_in(
    alloc: Global,
    new: &PointTable<'_>,
    functions: &[u32],
    parts: &[Part],
) -> Result<Option<Row<Site>>, AllocError>
    ensures { IfOk result (λ o. option_map (map rest.seen) o ≡
        rest.sites_in new.now functions.now parts.now) }
{
    let mut sites = Vec::new(alloc);
    'parts: for i in 0..functions.len().min(parts.len()) {
        match site_in(new, functions[i], parts[i].point) {
            Some(site) => sites.push(site)?,
            None => return Ok(None),
        }
    }
    Ok(Some(Row::from_vec(sites)))
}

/// A part that stands there, with what fills its slots from those of an old function.
fn lifted_part(
    alloc: Global,
    k: &Link<'_>,
    from: u32,
    site: Site,
    fills: &[Fill],
) -> Result<Option<LPart>, AllocError>
    ensures { IfOk result (λ o. o ≡ chain.lifted_part k.now from (rest.seen site) fills.now) }
{
    let Site { function, place } = site;
    match lifted_fills(alloc, k, from, function, fills)? {
        Some(fills) => Ok(Some(LPart {
            function,
            place,
            fills,
        })),
        None => Ok(None),
    }
}

/// The parts that stand there, if what fills their slots is there and suits.
pub fn lifted_parts(
    alloc: Global,
    k: &Link<'_>,
    from: u32,
    sites: &[Site],
    parts: &[Part],
) -> Result<Option<Row<LPart>>, AllocError>
    ensures { IfOk result (λ o. o ≡
        chain.lifted_parts k.now from (map rest.seen sites.now) parts.now) }
{
    let mut lifted = Vec::new(alloc);
    'parts: for i in 0..sites.len().min(parts.len()) {
        match lifted_part(alloc, k, from, sites[i], parts[i].fills.as_slice())? {
            Some(part) => lifted.push(part)?,
            None => return Ok(None),
        }
    }
    Ok(Some(Row::from_vec(lifted)))
}

/// Whether a slot of one part is filled twice.
pub fn some_fills_twice(alloc: Global, parts: &[LPart]) -> Result<bool, AllocError>
    ensures { IfOk result (λ b. b ≡ list_any chain.is_twice_filled parts.now) }
{
    for part in parts {
        if has_twice(alloc, part.fills.as_slice())? {
            return Ok(true);
        }
    }
    Ok(false)
}
