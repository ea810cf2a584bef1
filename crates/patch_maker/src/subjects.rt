//! What entries are about, so that no two are about one thing.

ghost use Rattle.std.specs.Prelude.{◌≡◌, ◌∷◌, [], ◌++◌, List, IfOk, OnOk};
ghost use Rattle.std.specs.List.{list_any};
ghost use Rattle.c_tree.specs.Sound.{numbers_clash};
ghost use Rattle.c_tree.specs.declared.mapping.LEntry.{LEntry};
ghost use Rattle.patch_maker.specs.Subjects as spec;

use c_tree::LEntry;
use std::alloc::{AllocError, Global};
use std::collections::HashSet;

/// What an entry is about, by numbers.
#[derive(Clone, Copy, PartialEq, Eq, Hash)]
pub enum Subject {
    /// The kind of a match, and the old thing.
    OldSide(u8, u32),
    /// The kind of a match, and the new thing.
    NewSide(u8, u32),
    /// The new struct, and its field.
    Field(u32, u32),
    /// The new global.
    Global(u32),
    /// The old function, and its place.
    Place(u32, u32),
}

/// What the entries so far are about.
pub type Subjects = HashSet<Subject>;

fn first_subject(entry: &LEntry) -> Option<Subject>
    ensures { result ≡ spec.first_subject entry.now }
{
    match entry {
        LEntry::Match(kind, old, _) => Some(Subject::OldSide(*kind, *old)),
        LEntry::Field(owner, field, _) => Some(Subject::Field(*owner, *field)),
        LEntry::Init(global, _) => Some(Subject::Global(*global)),
        LEntry::Point(function, place, _) => Some(Subject::Place(*function, *place)),
        LEntry::Check(_) => None,
    }
}

/// A match entry is about its new side too.
fn second_subject(entry: &LEntry) -> Option<Subject>
    ensures { result ≡ spec.second_subject entry.now }
{
    match entry {
        LEntry::Match(kind, _, Some(new)) => Some(Subject::NewSide(*kind, *new)),
        LEntry::Match(_, _, None) => None,
        LEntry::Field(_, _, _) => None,
        LEntry::Init(_, _) => None,
        LEntry::Point(_, _, _) => None,
        LEntry::Check(_) => None,
    }
}

fn has(subjects: &Subjects, subject: Option<Subject>) -> bool
    ensures { (entries : List LEntry) → spec.AreSubjects subjects.now entries
        → result ≡ list_any (spec.is_about_some subject) entries }
{
    match subject {
        Some(subject) => subjects.contains(&subject),
        None => false,
    }
}

/// Whether an entry is about what an earlier one is about.
pub fn clashes(subjects: &Subjects, entry: &LEntry) -> bool
    ensures { (entries : List LEntry) → spec.AreSubjects subjects.now entries
        → result ≡ list_any (numbers_clash entry.now) entries }
{
    has(subjects, first_subject(entry)) || has(subjects, second_subject(entry))
}

fn add(subjects: &mut Subjects, subject: Option<Subject>) -> Result<(), AllocError>
    ensures { OnOk result (spec.Adds subjects.old subject subjects.new) }
{
    if let Some(subject) = subject {
        subjects.insert(subject)?;
    }
    Ok(())
}

/// Notes what one entry more is about.
pub fn note(subjects: &mut Subjects, entry: &LEntry) -> Result<(), AllocError>
    ensures { OnOk result ((entries : List LEntry) → spec.AreSubjects subjects.old entries
        → spec.AreSubjects subjects.new (entries ++ entry.now ∷ [])) }
{
    add(subjects, first_subject(entry))?;
    add(subjects, second_subject(entry))?;
    Ok(())
}
