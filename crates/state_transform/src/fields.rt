//! What objects of old structs become, and what fills their fields.

ghost use Rattle.std.specs.Prelude.{◌≡◌, ◌++◌, ◌∷◌, [], IfOk, OnOk, map};
ghost use Rattle.std.specs.Option.{option_map};
ghost use Rattle.c_tree.specs.Fillings.{filling};
ghost use Rattle.c_tree.specs.MapHeap as spec;
ghost use Rattle.c_tree.specs.Names.{struct_of};
ghost use Rattle.c_tree.specs.declared.lifted.LExpr.TheVariants as l;
ghost use Rattle.stack_map.specs.Subjects.{GivesFirst};
ghost use Rattle.state_transform.specs.Fields as fields;

use c_tree::{LEntry, LExpr, Row, Slot, narrowed};
use patch_match::Link;
use stack_map::{Declared, carried, declared_field};
use std::alloc::{AllocError, Global};

/// What the objects of an old struct become.
#[derive(Drop)]
pub struct StructMap {
    /// The new struct.
    pub owner: u32,
    /// What fills each of its fields.
    pub fillings: Row<LExpr>,
}

/// The declared expression, else the old field, else 0.
fn field_filling(
    alloc: Global,
    declared: Option<&LExpr>,
    old: Option<u32>,
) -> Result<LExpr, AllocError>
    ensures { IfOk result (λ e. e ≡
        filling (option_map (λ r. r.now) declared.entry) (option_map (λ i. l.Own i) old)) }
{
    match declared {
        Some(declared) => declared.copy(alloc),
        None => match old {
            Some(old) => Ok(LExpr::Own(old)),
            None => Ok(LExpr::Num(0)),
        },
    }
}

/// What fills the new field of number `j`, where objects of the old struct `owner` become those of
/// `to`.
fn filling_of(
    alloc: Global,
    k: &Link<'_>,
    entries: &[LEntry],
    declared: &Declared,
    owner: u32,
    to: u32,
    j: usize,
    field: &Slot,
) -> Result<LExpr, AllocError>
    requires { GivesFirst declared.now entries.now }
    ensures { IfOk result (λ e. e ≡
        fields.filling_of k.now entries.now (struct_of k.now.old owner).fields to j field.now) }
{
    let first = k.old().field(owner, &field.name);
    let old = carried(k, k.old().fields(owner), first, field)?;
    field_filling(
        alloc,
        declared_field(declared, entries, to, narrowed(j)?),
        old,
    )
}

/// What fills the fields of an object of the old struct `owner` that becomes one of `to`.
fn field_fillings(
    alloc: Global,
    k: &Link<'_>,
    entries: &[LEntry],
    declared: &Declared,
    owner: u32,
    to: u32,
) -> Result<Row<LExpr>, AllocError>
    requires { GivesFirst declared.now entries.now }
    ensures { IfOk result (λ es. es ≡ spec.field_fillings k.now entries.now owner to) }
{
    let mut made = Vec::new(alloc);
    for (j, field) in k.new().fields(to).iter().enumerate() {
        made.push(filling_of(alloc, k, entries, declared, owner, to, j, field)?)?;
    }
    Ok(Row::from_vec(made))
}

/// What the objects of an old struct become, where it has a match.
fn struct_map(
    alloc: Global,
    k: &Link<'_>,
    entries: &[LEntry],
    declared: &Declared,
    old: u32,
) -> Result<Option<StructMap>, AllocError>
    requires { GivesFirst declared.now entries.now }
    ensures { IfOk result (λ o. o ≡ fields.struct_map k.now entries.now old) }
{
    match k.structure(old) {
        Some(owner) => Ok(Some(StructMap {
            owner,
            fillings: field_fillings(alloc, k, entries, declared, old, owner)?,
        })),
        None => Ok(None),
    }
}

/// What the objects of each old struct become, where it has a match. More than 4,294,967,296 old
/// structs, or fields of a new one, count as want of memory.
pub fn struct_maps(
    alloc: Global,
    k: &Link<'_>,
    entries: &[LEntry],
    declared: &Declared,
) -> Result<Vec<Option<StructMap>>, AllocError>
    requires { GivesFirst declared.now entries.now }
    ensures { IfOk result (λ made. fields.AreStructMaps k.now entries.now made.items) }
{
    let mut made = Vec::new(alloc);
    for old in 0..k.old().program().structs.len() {
        made.push(struct_map(alloc, k, entries, declared, narrowed(old)?)?)?;
    }
    Ok(made)
}
