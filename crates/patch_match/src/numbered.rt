//! The matches of one kind: what entries say that name things by their numbers, else equal names.

ghost use Rattle.std.specs.Prelude.{◌≡◌, ℕ, ◌++◌, List, IfOk};
ghost use Rattle.c_tree.specs.Link.{Claim, claim_of};
ghost use Rattle.patch_match.specs.Sides as sides;
ghost use Rattle.patch_match.specs.Matching as spec;

use crate::matching::matches_beside;
use crate::sides::Sides;
use crate::tables::Tables;
use c_tree::LEntry;
use std::alloc::{AllocError, Global};

/// Notes what an entry names in one kind.
fn note_entry(named: &mut Sides, kind: u8, entry: &LEntry)
    ensures { (claims : List Claim) (n m : ℕ) → sides.Tells named.old claims n m
        → sides.Tells named.new (claims ++ claim_of kind entry.now) n m }
{
    match entry {
        LEntry::Match(of, old, new) => {
            if *of != kind {
                return;
            }
            named.note(Some(*old), *new, true);
            return;
        }
        LEntry::Field(_, _, _) => return,
        LEntry::Init(_, _) => return,
        LEntry::Point(_, _, _) => return,
        LEntry::Check(_) => return,
    }
}

/// What entries name in one kind. A number that is not there names nothing.
fn sides_of(
    alloc: Global,
    kind: u8,
    old: &Tables<'_>,
    new: &Tables<'_>,
    entries: &[LEntry],
) -> Result<Sides, AllocError>
    ensures { IfOk result (λ s. spec.TellsNumbers s kind old.now new.now entries.now) }
{
    let mut named = Sides::new(alloc, old.names(kind).len(), new.names(kind).len())?;
    for entry in entries {
        note_entry(&mut named, kind, entry);
    }
    Ok(named)
}

/// The matches of all old things of a kind.
pub fn matches(
    alloc: Global,
    kind: u8,
    old: &Tables<'_>,
    new: &Tables<'_>,
    entries: &[LEntry],
) -> Result<Vec<Option<u32>>, AllocError>
    ensures { IfOk result (λ made. made.items ≡
        spec.matches_by_numbers kind old.now new.now entries.now) }
{
    let named = sides_of(alloc, kind, old, new, entries)?;
    let made = matches_beside(alloc, &named, kind, old, new)?;
    Ok(made)
}
