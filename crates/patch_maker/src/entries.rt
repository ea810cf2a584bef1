//! The entries of a mapping by numbers, or the first that is unsound.

ghost use Rattle.std.specs.Prelude.{◌≡◌, ◌+◌, [], ◌∷◌, ◌++◌, List, map, Ok, OnOk, IfOk, MatchResult};
ghost use Rattle.c_tree.specs.declared.mapping.Entry.{Entry};
ghost use Rattle.c_tree.specs.declared.mapping.LEntry.{LEntry};
ghost use Rattle.c_tree.specs.Entries as spec;
ghost use Rattle.map_entries.specs.Gives.{Gives};
ghost use Rattle.patch_maker.specs.Judged.{AreJudged, Mirrors, Stops};
ghost use Rattle.patch_maker.specs.Subjects.{AreSubjects};

use crate::refused::PatchRefused;
use crate::subjects::{Subjects, clashes, note};
use c_tree::{At, Entry, EntryCause, LEntry};
use map_entries::{EntryRefused, PointTable, lifted_entry};
use patch_match::Link;
use std::alloc::{AllocError, Global};
use std::collections::HashSet;

/// An entry by numbers, or its least cause, where earlier entries are about these subjects.
fn sound_entry(
    alloc: Global,
    k: &Link<'_>,
    old: &PointTable<'_>,
    new: &PointTable<'_>,
    subjects: &Subjects,
    entry: &Entry,
) -> Result<LEntry, EntryRefused>
    requires old { old.now ≡ k.now.old }
    requires new { new.now ≡ k.now.new }
    ensures sound { (earlier : List Entry) (done : List LEntry) → Mirrors k.now earlier done
        → AreSubjects subjects.now done
        → Gives result (spec.sound_entry k.now earlier entry.now) }
    ensures alone { IfOk result (λ y. spec.sound_entry k.now [] entry.now ≡ Ok y) }
{
    let lifted = lifted_entry(alloc, k, old, new, entry)?;
    if clashes(subjects, &lifted) {
        return Err(EntryRefused::Cause(EntryCause::Twice));
    }
    Ok(lifted)
}

/// Keeps an entry, and notes what it is about.
fn keep(lifted: &mut Vec<LEntry>, subjects: &mut Subjects, sound: LEntry) -> Result<(), AllocError>
    ensures { OnOk result ((lifted.new.items ≡ lifted.old.items ++ sound ∷ [])
        × (AreSubjects subjects.old lifted.old.items → AreSubjects subjects.new lifted.new.items)) }
{
    note(subjects, &sound)?;
    lifted.push(sound)?;
    Ok(())
}

/// The number of the next entry; memory holds no more than a `u32` counts.
fn next(number: u32) -> Result<u32, AllocError>
    ensures { IfOk result (λ n. n ≡ number + 1) }
{
    match number.checked_add(1) {
        Some(number) => Ok(number),
        None => Err(AllocError),
    }
}

/// The entries of a mapping by numbers, in the order of the mapping. The link and the tables of
/// points are of the same programs.
pub fn all_entries(
    alloc: Global,
    k: &Link<'_>,
    old: &PointTable<'_>,
    new: &PointTable<'_>,
    entries: &[At<Entry>],
) -> Result<Vec<LEntry>, PatchRefused>
    requires old { old.now ≡ k.now.old }
    requires new { new.now ≡ k.now.new }
    ensures { let xs = map (λ x. x.it) entries.now
        in MatchResult result (λ v. AreJudged k.now xs v.items) (Stops k.now xs) }
{
    let mut lifted = Vec::new(alloc);
    let mut subjects = HashSet::new(alloc);
    let mut number: u32 = 0;
    for entry in entries {
        number = next(number)?;
        match sound_entry(alloc, k, old, new, &subjects, &entry.it) {
            Ok(sound) => keep(&mut lifted, &mut subjects, sound)?,
            Err(EntryRefused::Cause(cause)) => return Err(PatchRefused::Entry(number, cause)),
            Err(EntryRefused::Memory(e)) => return Err(PatchRefused::Memory(e)),
        }
    }
    Ok(lifted)
}
