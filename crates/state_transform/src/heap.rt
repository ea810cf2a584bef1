//! How the objects of an old state become those of a new one.

ghost use Rattle.std.specs.Prelude.{◌≡◌, ◌++◌, ◌∷◌, [], IfOk, OnOk, MatchResult, Ok, Some, length};
ghost use Rattle.std.specs.Option.{option_map};
ghost use Rattle.c_tree.specs.MapHeap as spec;
ghost use Rattle.stack_map.specs.Refusal.{IsRefusal};
ghost use Rattle.stack_map.specs.Subjects.{GivesFirst};
ghost use Rattle.state_transform.specs.Fields as fields;
ghost use Rattle.state_transform.specs.Whole.{IsWhole};

use crate::fields::{StructMap, struct_maps};
use c_tree::{Heap, LEntry, Object, Reason, Row, State, narrowed};
use patch_match::Link;
use stack_map::{Declared, MapEnd, Whose, filled};
use std::alloc::{AllocError, Global};

/// What tells what becomes of objects: how the two programs belong together, and what is found of
/// the old structs once for a whole update.
#[derive(Drop)]
pub struct ObjectMap<'a, 'b> {
    /// The link that the entries make.
    pub link: &'a Link<'b>,
    /// The entries of the patch.
    pub entries: &'a [LEntry],
    /// What the objects of each old struct become.
    pub structs: &'a [Option<StructMap>],
    ghost maps: { fields.AreStructMaps link.now entries.now structs.now },
    // The link says of each old struct whether it has a match.
    ghost whole: { length link.now.structs ≡ length link.now.old.structs },
}

/// Whether an object lives whose struct has no match.
fn is_removed(k: &Link<'_>, object: &Option<Object>) -> bool
    ensures { result ≡ spec.is_removed k.now object.now }
{
    match object {
        Some(object) => k.structure(object.owner).is_none(),
        None => false,
    }
}

/// The first object that lives and whose struct has no match, as a reason. Its number counts as
/// want of memory where it is above 4,294,967,295.
pub fn removed(k: &Link<'_>, objects: &[Option<Object>]) -> Result<Option<Reason>, AllocError>
    ensures { IfOk result (λ r. r ≡ spec.removed k.now 1 objects.now) }
{
    for i in 0..objects.len() {
        if is_removed(k, &objects[i]) {
            return Ok(Some(Reason::Removed(narrowed(i + 1)?)));
        }
    }
    Ok(None)
}

/// What the objects of an old struct become.
fn struct_at<'a>(m: &'a ObjectMap<'_, '_>, old: u32) -> Option<&'a StructMap>
    ensures { option_map (λ r. r.now) result ≡
        fields.struct_map m.now.link.now m.now.entries.now old }
{
    match m.structs.get(old as usize) {
        Some(Some(map)) => Some(map),
        Some(None) => None,
        None => None,
    }
}

/// An object of a struct that has a match.
fn map_to(
    alloc: Global,
    map: &StructMap,
    state: &State,
    number: u32,
    object: &Object,
) -> Result<Option<Object>, MapEnd>
    ensures { let wanted = fields.object_to map.now state.now number object.now in
        MatchResult result (λ o. wanted ≡ Ok o) (IsRefusal wanted) }
{
    match narrowed(map.fillings.len()) {
        Ok(_) => {}
        Err(e) => return Err(MapEnd::Memory(e)),
    }
    match filled(
        alloc,
        map.fillings.as_slice(),
        0,
        &[],
        object.fields.as_slice(),
        state,
        Whose::Object(number),
    ) {
        Ok(fields) => Ok(Some(Object {
            owner: map.owner,
            fields,
        })),
        Err(end) => Err(end),
    }
}

/// A live object; its struct has a match, or it is refused.
fn map_live(
    alloc: Global,
    m: &ObjectMap<'_, '_>,
    state: &State,
    number: usize,
    object: &Object,
) -> Result<Option<Object>, MapEnd>
    ensures { let wanted = spec.map_object m.now.link.now m.now.entries.now state.now number
        (Some object.now) in
        MatchResult result (λ o. wanted ≡ Ok o) (IsRefusal wanted) }
{
    let number = match narrowed(number) {
        Ok(number) => number,
        Err(e) => return Err(MapEnd::Memory(e)),
    };
    match struct_at(m, object.owner) {
        Some(map) => map_to(alloc, map, state, number, object),
        None => Err(MapEnd::Refused(Reason::Removed(number))),
    }
}

/// An object; a freed one stays freed.
fn map_object(
    alloc: Global,
    m: &ObjectMap<'_, '_>,
    state: &State,
    number: usize,
    object: &Option<Object>,
) -> Result<Option<Object>, MapEnd>
    ensures { let wanted = spec.map_object m.now.link.now m.now.entries.now state.now number
        object.now in
        MatchResult result (λ o. wanted ≡ Ok o) (IsRefusal wanted) }
{
    match object {
        Some(object) => map_live(alloc, m, state, number, object),
        None => Ok(None),
    }
}

fn put(made: &mut Vec<Option<Object>>, object: Option<Object>) -> Result<(), AllocError>
    ensures { OnOk result (made.new.items ≡ made.old.items ++ object ∷ []) }
{
    made.push(object)?;
    Ok(())
}

/// The new objects; freed ones stay freed, and each keeps its number. Refused is the first object
/// whose struct has no match, or whose field traps.
fn objects_by(
    alloc: Global,
    m: &ObjectMap<'_, '_>,
    state: &State,
) -> Result<Row<Option<Object>>, MapEnd>
    ensures { let wanted = spec.map_objects m.now.link.now m.now.entries.now state.now 1
        state.now.heap.objects in
        MatchResult result (λ os. wanted ≡ Ok os) (IsRefusal wanted) }
{
    let objects = state.heap.objects.as_slice();
    let mut made = Vec::new(alloc);
    for i in 0..objects.len() {
        match map_object(alloc, m, state, i + 1, &objects[i]) {
            Ok(object) => match put(&mut made, object) {
                Ok(()) => {}
                Err(e) => return Err(MapEnd::Memory(e)),
            },
            Err(end) => return Err(end),
        }
    }
    Ok(Row::from_vec(made))
}

/// The new objects; freed ones stay freed, and each keeps its number. Refused is the first object
/// whose struct has no match, or whose field traps. The number of a live object, or of a struct's
/// fields, counts as want of memory where it is above 4,294,967,295.
pub fn map_objects(
    alloc: Global,
    k: &Link<'_>,
    entries: &[LEntry],
    declared: &Declared,
    state: &State,
) -> Result<Row<Option<Object>>, MapEnd>
    requires first { GivesFirst declared.now entries.now }
    requires whole { IsWhole k.now }
    ensures { let wanted = spec.map_objects k.now entries.now state.now 1 state.now.heap.objects in
        MatchResult result (λ os. wanted ≡ Ok os) (IsRefusal wanted) }
{
    let structs = match struct_maps(alloc, k, entries, declared) {
        Ok(structs) => structs,
        Err(e) => return Err(MapEnd::Memory(e)),
    };
    let m = ObjectMap {
        link: k,
        entries,
        structs: structs.as_slice(),
    };
    objects_by(alloc, &m, state)
}

/// The new heap. Refused is the first object that lives and whose struct has no match, else the
/// first field that traps. The number of a live object, or of a struct's fields, counts as want of
/// memory where it is above 4,294,967,295.
pub fn map_heap(
    alloc: Global,
    k: &Link<'_>,
    entries: &[LEntry],
    declared: &Declared,
    state: &State,
) -> Result<Heap, MapEnd>
    requires first { GivesFirst declared.now entries.now }
    requires whole { IsWhole k.now }
    ensures { let wanted = spec.map_heap k.now entries.now state.now in
        MatchResult result (λ heap. wanted ≡ Ok heap.objects) (IsRefusal wanted) }
{
    match removed(k, state.heap.objects.as_slice()) {
        Ok(None) => {}
        Ok(Some(reason)) => return Err(MapEnd::Refused(reason)),
        Err(e) => return Err(MapEnd::Memory(e)),
    }
    match map_objects(alloc, k, entries, declared, state) {
        Ok(objects) => Ok(Heap { objects }),
        Err(end) => Err(end),
    }
}
