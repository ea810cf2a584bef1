//! The matches of one kind: what the entries of a mapping say, else equal names.

ghost use Rattle.std.specs.Prelude.{◌≡◌, ℕ, [], ◌∷◌, ◌++◌, List, map, slice_index_or, IfOk};
ghost use Rattle.c_tree.specs.declared.mapping.Entry.{Entry};
ghost use Rattle.c_tree.specs.Link.{Claim};
ghost use Rattle.c_tree.specs.Names.{find_name, names_in};
ghost use Rattle.c_tree.specs.Entries as entries;
ghost use Rattle.c_tree.specs.Chain as chain;
ghost use Rattle.patch_match.specs.Sides as sides;
ghost use Rattle.patch_match.specs.Matching as spec;
ghost use Rattle.patch_match.specs.declared.sides.Said.TheVariants.{Nothing};

use crate::sides::{Said, Sides};
use crate::start::{is_start, start_differs};
use crate::tables::Tables;
use c_tree::{At, Entry, EntryCause, LEntry, Lifted, Name};
use std::alloc::{AllocError, Global};

/// Why a match entry of a kind is unsound that names what is not there.
fn missing(kind: u8) -> EntryCause
    ensures { result ≡ chain.missing kind }
{
    match kind {
        0 => EntryCause::UnknownFunction,
        1 => EntryCause::UnknownStruct,
        _ => EntryCause::UnknownGlobal,
    }
}

/// `none`, or the number of a new side.
fn new_number(kind: u8, new: &Tables<'_>, name: &Option<Name>) -> Result<Option<u32>, EntryCause>
    ensures { result ≡ chain.new_number kind new.now name.now }
{
    match name {
        None => Ok(None),
        Some(name) => match new.number(kind, name) {
            Some(j) => Ok(Some(j)),
            None => Err(missing(kind)),
        },
    }
}

/// A match entry by numbers, or its least cause.
pub fn lifted_match(
    old: &Tables<'_>,
    new: &Tables<'_>,
    kind: u8,
    a: &Name,
    b: &Option<Name>,
) -> Result<LEntry, EntryCause>
    ensures { result ≡ chain.lifted_match old.now new.now kind a.now b.now }
{
    let i = match old.number(kind, a) {
        Some(i) => i,
        None => return Err(missing(kind)),
    };
    let j = match new_number(kind, new, b) {
        Ok(j) => j,
        Err(cause) => return Err(cause),
    };
    if kind == 0 && start_differs(old.program(), new.program(), i, j) {
        return Err(EntryCause::StartDiffers);
    }
    Ok(LEntry::Match(kind, i, j))
}

/// The number of a new side that is there.
fn side_number(kind: u8, new: &Tables<'_>, name: &Option<Name>) -> Option<u32>
    ensures { result ≡ entries.side_number kind new.now name.now }
{
    match name {
        None => None,
        Some(name) => new.number(kind, name),
    }
}

/// Whether an entry before names one of these sides.
fn is_taken(named: &Sides, old: Option<u32>, new: Option<u32>) -> bool
    ensures { result ≡ spec.is_taken named.now old new }
{
    let old_is_taken = match old {
        Some(i) => is_said(named.said(i as usize)),
        None => false,
    };
    let new_is_taken = match new {
        Some(j) => named.is_named(j),
        None => false,
    };
    old_is_taken || new_is_taken
}

fn is_said(said: Said) -> bool
    ensures { result ≡ spec.is_said said }
{
    match said {
        Said::Nothing => false,
        Said::Named | Said::Matched(_) => true,
    }
}

/// Whether a match entry is sound after those before.
fn stands(
    named: &Sides,
    kind: u8,
    old: &Tables<'_>,
    new: &Tables<'_>,
    a: &Name,
    b: &Option<Name>,
) -> bool
    ensures { result ≡ spec.stands_beside named.now kind old.now new.now a.now b.now }
{
    let is_free = !is_taken(named, old.number(kind, a), side_number(kind, new, b));
    lifted_match(old, new, kind, a, b).is_ok() && is_free
}

/// Notes the sides of a match entry.
fn note_match(
    named: &mut Sides,
    kind: u8,
    old: &Tables<'_>,
    new: &Tables<'_>,
    a: &Name,
    b: &Option<Name>,
)
    ensures { (claims : List Claim) (n m : ℕ) → sides.Tells named.old claims n m
        → sides.Tells named.new (claims ++ spec.claim_beside named.old kind old.now new.now a.now
        b.now ∷ []) n m }
{
    let i = old.number(kind, a);
    let j = side_number(kind, new, b);
    let stands = stands(named, kind, old, new, a, b);
    named.note(i, j, stands);
}

/// Notes what an entry names in one kind.
fn note_entry(named: &mut Sides, kind: u8, old: &Tables<'_>, new: &Tables<'_>, entry: &Entry)
    ensures { (before : List Entry) → spec.TellsOf named.old kind old.now new.now before
        → spec.TellsOf named.new kind old.now new.now (before ++ entry.now ∷ []) }
{
    match entry {
        Entry::Match(i, a, b) => {
            if *i != kind {
                return;
            }
            note_match(named, kind, old, new, a, b);
            return;
        }
        Entry::Field(_, _, _) => return,
        Entry::Init(_, _) => return,
        Entry::Point(_, _, _) => return,
        Entry::Check(_) => return,
    }
}

/// What the entries of a mapping name in one kind.
pub fn sides_of(
    alloc: Global,
    kind: u8,
    old: &Tables<'_>,
    new: &Tables<'_>,
    mapping: &[At<Entry>],
) -> Result<Sides, AllocError>
    ensures { IfOk result (λ s. spec.TellsOf s kind old.now new.now (map (λ x. x.it) mapping.now)) }
{
    let mut named = Sides::new(alloc, old.names(kind).len(), new.names(kind).len())?;
    for entry in mapping {
        note_entry(&mut named, kind, old, new, &entry.it);
    }
    Ok(named)
}

/// Whether things of equal names may match: functions where both or neither can be started.
fn may_match(kind: u8, old: &Lifted, new: &Lifted, i: usize, j: u32) -> bool
    ensures { result ≡ spec.may kind old.now new.now i j }
{
    if kind > 0 {
        return true;
    }
    let starts = is_start(new, j as usize);
    if is_start(old, i) { starts } else { !starts }
}

/// The new thing of a name, where no entry names it and it may be the match.
fn free_match(
    named: &Sides,
    kind: u8,
    old: &Lifted,
    new: &Lifted,
    i: usize,
    found: Option<u32>,
) -> Option<u32>
    ensures { result ≡ spec.free named.now.named.items (spec.may kind old.now new.now i) found }
{
    match found {
        None => None,
        Some(j) => if named.is_named(j) || !may_match(kind, old, new, i, j) {
            None
        } else {
            Some(j)
        },
    }
}

fn match_of(
    named: &Sides,
    kind: u8,
    old: &Tables<'_>,
    new: &Tables<'_>,
    i: usize,
    name: &Name,
) -> Option<u32>
    ensures { result ≡ spec.match_beside named.now kind old.now new.now i name.now }
{
    match named.said(i) {
        Said::Matched(side) => side,
        Said::Named => None,
        Said::Nothing => free_match(
            named,
            kind,
            old.program(),
            new.program(),
            i,
            new.number(kind, name),
        ),
    }
}

/// The matches of all old things of a kind, by what the entries name.
pub fn matches_beside(
    alloc: Global,
    named: &Sides,
    kind: u8,
    old: &Tables<'_>,
    new: &Tables<'_>,
) -> Result<Vec<Option<u32>>, AllocError>
    ensures { IfOk result (λ made. made.items ≡ spec.matched named.now kind old.now new.now 0
        (names_in old.now kind)) }
{
    let names = old.names(kind);
    let mut made = Vec::new(alloc);
    for (i, name) in names.iter().enumerate() {
        made.push(match_of(named, kind, old, new, i, name))?;
    }
    Ok(made)
}

/// The matches of all old things of a kind.
pub fn matches(
    alloc: Global,
    kind: u8,
    old: &Tables<'_>,
    new: &Tables<'_>,
    mapping: &[At<Entry>],
) -> Result<Vec<Option<u32>>, AllocError>
    ensures { IfOk result (λ made. made.items ≡ spec.matches_of kind old.now new.now
        (map (λ x. x.it) mapping.now)) }
{
    let named = sides_of(alloc, kind, old, new, mapping)?;
    let made = matches_beside(alloc, &named, kind, old, new)?;
    Ok(made)
}
