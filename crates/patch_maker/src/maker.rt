//! From a mapping between two programs to their patch.

ghost use Rattle.std.specs.Prelude.{◌≡◌, MatchResult, map};
ghost use Rattle.c_places.specs.Limit.{KeepsLimit};
ghost use Rattle.c_tree.specs.MapForm.{HasMapForm};
ghost use Rattle.c_tree.specs.Sound.{Sound};
ghost use Rattle.patch_maker.specs.Judged.{AreJudged, AreLifted, AreUnlifted, Stops};
ghost use Rattle.patch_maker.specs.Made.{AreCanonical, AreRefused, IsPatch, IsRefusal};

use crate::entries::all_entries;
use crate::order::canonical;
use crate::refused::PatchRefused;
use c_tree::{At, Entry, LEntry, Lifted, Mapping, Patch, Row, Text};
use map_entries::PointTable;
use patch_match::Link;
use std::alloc::Global;
use std::marker::Model;

/// A patch whose entries are sound and stand in their canonical order. Contracts see the patch.
pub struct SoundPatch {
    patch: Patch,
}

impl Drop for SoundPatch {
    fn drop(self) {
        let SoundPatch { patch: _ } = self;
    }
}

impl Model for SoundPatch {
    ghost use Rattle.std.specs.Prelude.{◌≡◌};
    ghost use Rattle.std.specs.Coded.{codes};
    ghost use Rattle.c_tree.specs.declared.mapping.Patch.{Patch};
    ghost use Rattle.c_tree.specs.contracts.mapping.Patch as given;
    ghost use Rattle.c_places.specs.Limit.{KeepsLimit};
    ghost use Rattle.c_tree.specs.Canonical.{canonical};
    ghost use Rattle.c_tree.specs.Sound.{Sound};

    ghost Value = { Patch };

    ghost coded = { Prim.hlevel (codes, given.the_row.coded) };

    ghost view = { λ p. p.patch };

    ghost invariant = { λ p. Sound p.patch.old p.patch.new p.patch.entries
        × (canonical p.patch.entries ≡ p.patch.entries)
        × KeepsLimit p.patch.old × KeepsLimit p.patch.new };
}

impl SoundPatch {
    /// The patch. The functions of both its programs keep the limit of places.
    pub fn patch(&self) -> &Patch
        ensures same { result.now ≡ self.now }
        ensures old_limit { KeepsLimit self.now.old }
        ensures new_limit { KeepsLimit self.now.new }
    {
        &self.patch
    }

    /// Gives the patch, with no copy.
    pub fn into_patch(self) -> Patch
        ensures same { result ≡ self }
        ensures sound { Sound result.old result.new result.entries }
        ensures old_limit { KeepsLimit result.old }
        ensures new_limit { KeepsLimit result.new }
    {
        let SoundPatch { patch } = self;
        patch
    }
}

/// The entries by numbers under a link, whose old program has these points.
fn judged_beside(
    alloc: Global,
    k: &Link<'_>,
    old: &PointTable<'_>,
    new: &Lifted,
    mapping: &[At<Entry>],
) -> Result<Vec<LEntry>, PatchRefused>
    requires limit { KeepsLimit new.now }
    requires old { old.now ≡ k.now.old }
    requires new { new.now ≡ k.now.new }
    ensures { let xs = map (λ x. x.it) mapping.now
        in MatchResult result (λ v. AreJudged k.now xs v.items) (Stops k.now xs) }
{
    let new = PointTable::of(alloc, new)?;
    all_entries(alloc, k, old, &new, mapping)
}

/// The entries by numbers under a link of these programs.
fn judged(
    alloc: Global,
    k: &Link<'_>,
    old: &Lifted,
    new: &Lifted,
    mapping: &[At<Entry>],
) -> Result<Vec<LEntry>, PatchRefused>
    requires old_limit { KeepsLimit old.now }
    requires new_limit { KeepsLimit new.now }
    requires old { old.now ≡ k.now.old }
    requires new { new.now ≡ k.now.new }
    ensures { let xs = map (λ x. x.it) mapping.now
        in MatchResult result (λ v. AreJudged k.now xs v.items) (Stops k.now xs) }
{
    let old = PointTable::of(alloc, old)?;
    judged_beside(alloc, k, &old, new, mapping)
}

/// The entries of a mapping by numbers.
#[tactic(none)]
fn lifted_entries(
    alloc: Global,
    old: &Lifted,
    new: &Lifted,
    mapping: &[At<Entry>],
) -> Result<Vec<LEntry>, PatchRefused>
    requires old_limit { KeepsLimit old.now }
    requires new_limit { KeepsLimit new.now }
    ensures { let xs = map (λ x. x.it) mapping.now
        in MatchResult result (λ v. AreLifted old.now new.now xs v.items)
        (AreUnlifted old.now new.now xs) }
{
    match Link::by_names(alloc, old, new, mapping) {
        Ok(k) => judged(alloc, &k, old, new, mapping),
        Err(e) => Err(PatchRefused::Memory(e)),
    }
}

/// The canonical entries of a mapping.
#[tactic(auto, using(crate::proofs::MakerLemmas::order_rules))]
fn canonical_entries(
    alloc: Global,
    old: &Lifted,
    new: &Lifted,
    mapping: &[At<Entry>],
) -> Result<Vec<LEntry>, PatchRefused>
    requires old_limit { KeepsLimit old.now }
    requires new_limit { KeepsLimit new.now }
    ensures { let xs = map (λ x. x.it) mapping.now
        in MatchResult result (λ v. AreCanonical old.now new.now xs v.items)
        (AreRefused old.now new.now xs) }
{
    let entries = lifted_entries(alloc, old, new, mapping)?;
    let entries = canonical(alloc, entries)?;
    Ok(entries)
}

/// The patch from an old program to a new one by a mapping.
///
/// # Errors
///
/// `Entry` with the number, from 1, of the first unsound entry, and the least of its causes.
pub fn make_patch(
    alloc: Global,
    old_text: Text,
    old: Lifted,
    new_text: Text,
    new: Lifted,
    mapping: &Mapping,
) -> Result<SoundPatch, PatchRefused>
    requires old_limit { KeepsLimit old }
    requires new_limit { KeepsLimit new }
    requires form { HasMapForm mapping.now }
    ensures { MatchResult result (IsPatch old_text old new_text new mapping.now)
        (IsRefusal old new mapping.now) }
{
    let entries = canonical_entries(alloc, &old, &new, mapping.entries.as_slice())?;
    Ok(SoundPatch {
        patch: Patch {
            old_text,
            old,
            new_text,
            new,
            entries: Row::from_vec(entries),
        },
    })
}
