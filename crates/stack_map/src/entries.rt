//! What the entries of a patch declare, by what they are about.

ghost use Rattle.std.specs.Prelude.{◌≡◌, ◌++◌, ◌∷◌, [], List, IfOk, OnOk, Some, find, length, map};
ghost use Rattle.std.specs.Option.{option_map};
ghost use Rattle.c_tree.specs.declared.mapping.LEntry.{LEntry};
ghost use Rattle.c_tree.specs.MapGlobals.{init_of};
ghost use Rattle.c_tree.specs.MapHeap.{field_for};
ghost use Rattle.c_tree.specs.MapStack.{is_point_of};
ghost use Rattle.c_tree.specs.Refusal.{first_some};
ghost use Rattle.stack_map.specs.Subjects as spec;

use c_tree::{LEntry, LExpr, LPart, narrowed};
use indexmap::IndexMap;
use std::alloc::{AllocError, Global};

/// What an entry declares something of.
#[derive(Clone, Copy, PartialEq, Eq, Hash)]
pub enum Subject {
    /// A new struct, and its field.
    Field(u32, u32),
    /// A new global.
    Global(u32),
    /// An old function, and its place.
    Place(u32, u32),
}

/// The first entry about each thing, by its number.
pub type Declared = IndexMap<Subject, u32>;

fn subject_of(entry: &LEntry) -> Option<Subject>
    ensures { result ≡ spec.subject_of entry.now }
{
    match entry {
        LEntry::Field(owner, field, _) => Some(Subject::Field(*owner, *field)),
        LEntry::Init(global, _) => Some(Subject::Global(*global)),
        LEntry::Point(function, place, _) => Some(Subject::Place(*function, *place)),
        LEntry::Match(_, _, _) => None,
        LEntry::Check(_) => None,
    }
}

/// Adds the entry that follows those of the table.
fn add(declared: &mut Declared, entry: &LEntry, at: u32) -> Result<(), AllocError>
    ensures { OnOk result ((before : List LEntry) → spec.GivesFirst declared.old before
        → at ≡ length before → spec.GivesFirst declared.new (before ++ entry.now ∷ [])) }
{
    let subject = match subject_of(entry) {
        Some(subject) => subject,
        None => return Ok(()),
    };
    match declared.get(&subject) {
        Some(_) => Ok(()),
        None => {
            declared.insert(subject, at)?;
            Ok(())
        }
    }
}

/// The first entry about each thing. A list of more than 4,294,967,296 entries counts as want of
/// memory.
pub fn declared(alloc: Global, entries: &[LEntry]) -> Result<Declared, AllocError>
    ensures { IfOk result (λ d. spec.GivesFirst d entries.now) }
{
    let mut declared = IndexMap::new(alloc);
    for (i, entry) in entries.iter().enumerate() {
        add(&mut declared, entry, narrowed(i)?)?;
    }
    Ok(declared)
}

/// The first entry about a thing.
fn first<'a>(declared: &Declared, entries: &'a [LEntry], subject: Subject) -> Option<&'a LEntry>
    requires { spec.GivesFirst declared.now entries.now }
    ensures { option_map (λ r. r.now) result ≡ spec.first_about subject entries.now }
{
    match declared.get(&subject) {
        Some(at) => entries.get(*at as usize),
        None => None,
    }
}

/// What the entries fill a new field with.
pub fn declared_field<'a>(
    declared: &Declared,
    entries: &'a [LEntry],
    owner: u32,
    field: u32,
) -> Option<&'a LExpr>
    requires { spec.GivesFirst declared.now entries.now }
    ensures { option_map (λ r. r.now) result
        ≡ first_some (map (field_for owner field) entries.now) }
{
    match first(declared, entries, Subject::Field(owner, field)) {
        Some(entry) => field_value(entry),
        None => None,
    }
}

fn field_value(entry: &LEntry) -> Option<&LExpr>
    ensures { option_map (λ r. r.now) result ≡ spec.field_value (Some entry.now) }
{
    match entry {
        LEntry::Field(_, _, value) => Some(value),
        LEntry::Match(_, _, _) => None,
        LEntry::Init(_, _) => None,
        LEntry::Point(_, _, _) => None,
        LEntry::Check(_) => None,
    }
}

/// What the entries fill a new scalar with.
pub fn declared_init<'a>(
    declared: &Declared,
    entries: &'a [LEntry],
    global: u32,
) -> Option<&'a LExpr>
    requires { spec.GivesFirst declared.now entries.now }
    ensures { option_map (λ r. r.now) result ≡ first_some (map (init_of global) entries.now) }
{
    match first(declared, entries, Subject::Global(global)) {
        Some(entry) => init_value(entry),
        None => None,
    }
}

fn init_value(entry: &LEntry) -> Option<&LExpr>
    ensures { option_map (λ r. r.now) result ≡ spec.init_value (Some entry.now) }
{
    match entry {
        LEntry::Init(_, value) => Some(value),
        LEntry::Match(_, _, _) => None,
        LEntry::Field(_, _, _) => None,
        LEntry::Point(_, _, _) => None,
        LEntry::Check(_) => None,
    }
}

/// The parts that the entries take a place of an old function to.
pub fn declared_point<'a>(
    declared: &Declared,
    entries: &'a [LEntry],
    function: u32,
    place: u32,
) -> Option<&'a [LPart]>
    requires { spec.GivesFirst declared.now entries.now }
    ensures { option_map (λ r. r.now) result
        ≡ spec.point_of (find (is_point_of function place) entries.now) }
{
    match first(declared, entries, Subject::Place(function, place)) {
        Some(entry) => point_value(entry),
        None => None,
    }
}

fn point_value(entry: &LEntry) -> Option<&[LPart]>
    ensures { option_map (λ r. r.now) result ≡ spec.point_of (Some entry.now) }
{
    match entry {
        LEntry::Point(_, _, parts) => Some(parts.as_slice()),
        LEntry::Match(_, _, _) => None,
        LEntry::Field(_, _, _) => None,
        LEntry::Init(_, _) => None,
        LEntry::Check(_) => None,
    }
}
