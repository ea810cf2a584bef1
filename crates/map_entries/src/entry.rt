//! One entry of a mapping by numbers, or its least cause.

ghost use Rattle.std.specs.Prelude.{◌≡◌, [], map};
ghost use Rattle.c_tree.specs.Entries as spec;
ghost use Rattle.c_tree.specs.Chain as chain;
ghost use Rattle.map_entries.specs.Gives.{Gives};
ghost use Rattle.map_entries.specs.Rest as rest;

use crate::fits::{fields_read, filling, scalar_asked, slot_asked, testing};
use crate::part::{functions_of, lifted_parts, sites_in, some_fills_twice};
use crate::points::PointTable;
use crate::reads::Reads;
use crate::refused::EntryRefused;
use crate::site::{Site, callees_differ, kinds_differ};
use c_tree::{Entry, EntryCause, Expr, LEntry, Name, Part, Pt};
use patch_match::{Link, lifted_match};
use std::alloc::Global;

/// A match by numbers.
fn match_entry(k: &Link<'_>, kind: u8, a: &Name, b: &Option<Name>) -> Result<LEntry, EntryRefused>
    ensures { Gives result (chain.lifted_match k.now.old k.now.new kind a.now b.now) }
{
    let lifted = lifted_match(k.old(), k.new(), kind, a, b)?;
    Ok(lifted)
}

/// What fills a field of a new struct.
fn lifted_field(
    alloc: Global,
    k: &Link<'_>,
    owner: &Name,
    name: &Name,
    x: &Expr,
) -> Result<LEntry, EntryRefused>
    ensures { Gives result (chain.lifted_field k.now owner.now name.now x.now) }
{
    let s = k.new().number(1, owner).ok_or(EntryCause::UnknownStruct)?;
    let i = k.new().field(s, name).ok_or(EntryCause::BadExpr)?;
    let asked = slot_asked(k.new().fields(s), i);
    let y = filling(alloc, k, fields_read(k, s), asked, x)?.ok_or(EntryCause::BadExpr)?;
    Ok(LEntry::Field(s, i, y))
}

/// What fills a new global.
fn lifted_init(alloc: Global, k: &Link<'_>, name: &Name, x: &Expr) -> Result<LEntry, EntryRefused>
    ensures { Gives result (chain.lifted_init k.now name.now x.now) }
{
    let g = k.new().number(2, name).ok_or(EntryCause::UnknownGlobal)?;
    let asked = scalar_asked(k.new().program().globals.as_slice(), g);
    let y = filling(alloc, k, Reads::Nothing, asked, x)?.ok_or(EntryCause::BadExpr)?;
    Ok(LEntry::Init(g, y))
}

/// A check by numbers.
fn lifted_check(alloc: Global, k: &Link<'_>, x: &Expr) -> Result<LEntry, EntryRefused>
    ensures { Gives result (chain.lifted_check k.now x.now) }
{
    let y = testing(alloc, k, x)?.ok_or(EntryCause::BadExpr)?;
    Ok(LEntry::Check(y))
}

/// A point whose places are there and suit each other.
fn filled_point(
    alloc: Global,
    k: &Link<'_>,
    from: Site,
    sites: &[Site],
    parts: &[Part],
) -> Result<LEntry, EntryRefused>
    ensures { Gives result
        (rest.filled_point k.now (rest.seen from) (map rest.seen sites.now) parts.now) }
{
    let lifted = lifted_parts(alloc, k, from.function, sites, parts)?;
    let parts = lifted.ok_or(EntryCause::BadExpr)?;
    if some_fills_twice(alloc, parts.as_slice())? {
        return Err(EntryRefused::Cause(EntryCause::Twice));
    }
    Ok(LEntry::Point(from.function, from.place, parts))
}

/// A point whose places are there.
fn point_between(
    alloc: Global,
    k: &Link<'_>,
    old: &PointTable<'_>,
    new: &PointTable<'_>,
    from: Site,
    sites: &[Site],
    parts: &[Part],
) -> Result<LEntry, EntryRefused>
    requires old { old.now ≡ k.now.old }
    requires new { new.now ≡ k.now.new }
    ensures { Gives result
        (rest.point_between k.now (rest.seen from) (map rest.seen sites.now) parts.now) }
{
    if kinds_differ(k, old, new, from, sites) {
        return Err(EntryRefused::Cause(EntryCause::KindDiffers));
    }
    if callees_differ(k, old, new, from, sites) {
        return Err(EntryRefused::Cause(EntryCause::CalleeDiffers));
    }
    filled_point(alloc, k, from, sites, parts)
}

/// A point from an old function, the numbers of whose parts' functions are there.
fn point_of(
    alloc: Global,
    k: &Link<'_>,
    old: &PointTable<'_>,
    new: &PointTable<'_>,
    f: u32,
    from: Pt,
    functions: &[u32],
    parts: &[Part],
) -> Result<LEntry, EntryRefused>
    requires old { old.now ≡ k.now.old }
    requires new { new.now ≡ k.now.new }
    ensures { Gives result (rest.point_of k.now f from functions.now parts.now) }
{
    let n = old.place_of(f, from).ok_or(EntryCause::UnknownPoint)?;
    let sites = sites_in(alloc, new, functions, parts)?.ok_or(EntryCause::UnknownPoint)?;
    let from = Site {
        function: f,
        place: n,
    };
    point_between(alloc, k, old, new, from, sites.as_slice(), parts)
}

/// A place that is mapped, with its parts.
fn lifted_point(
    alloc: Global,
    k: &Link<'_>,
    old: &PointTable<'_>,
    new: &PointTable<'_>,
    name: &Name,
    from: Pt,
    parts: &[Part],
) -> Result<LEntry, EntryRefused>
    requires old { old.now ≡ k.now.old }
    requires new { new.now ≡ k.now.new }
    ensures { Gives result (chain.lifted_point k.now name.now from parts.now) }
{
    let f = k.old().number(0, name).ok_or(EntryCause::UnknownFunction)?;
    let g = k.function(f).ok_or(EntryCause::UnknownFunction)?;
    let functions = functions_of(alloc, k, g, parts)?.ok_or(EntryCause::UnknownFunction)?;
    point_of(alloc, k, old, new, f, from, functions.as_slice(), parts)
}

/// An entry of a mapping by numbers, or its least cause, where no entry comes before it. The link
/// and the tables of points are of the same programs.
pub fn lifted_entry(
    alloc: Global,
    k: &Link<'_>,
    old: &PointTable<'_>,
    new: &PointTable<'_>,
    entry: &Entry,
) -> Result<LEntry, EntryRefused>
    requires old { old.now ≡ k.now.old }
    requires new { new.now ≡ k.now.new }
    ensures { Gives result (spec.sound_entry k.now [] entry.now) }
{
    match entry {
        Entry::Match(kind, a, b) => match_entry(k, *kind, a, b),
        Entry::Field(owner, name, x) => lifted_field(alloc, k, owner, name, x),
        Entry::Init(name, x) => lifted_init(alloc, k, name, x),
        Entry::Point(f, from, parts) => {
            lifted_point(alloc, k, old, new, f, *from, parts.as_slice())
        }
        Entry::Check(x) => lifted_check(alloc, k, x),
    }
}
