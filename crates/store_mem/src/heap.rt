//! Heap objects: how they are made, freed, read and written.

ghost use Rattle.std.specs.Prelude.{◌≡◌, ◌≢◌, ◌<◌, ◌-◌, ◌++◌, ◌∷◌, [], pos, length, map, replicate, IsOk, IfOk, OnOk, OnErr, MatchResult, Some, None, slice_index_or, slice_set};
ghost use Rattle.c_tree.specs.Step.{index, with_field};
ghost use Rattle.c_tree.specs.Value as v;
ghost use Rattle.store_mem.specs.Access as spec;

use c_tree::{LStruct, Object, Row, Trap, narrowed};
use std::alloc::{AllocError, Global};

/// The number of fields of each struct. A struct of more than 4,294,967,295 fields counts as want
/// of memory.
pub fn field_counts(alloc: Global, structs: &[LStruct]) -> Result<Row<u32>, AllocError>
    ensures { IfOk result (λ counts. counts ≡ map (λ s. length s.fields) structs.now) }
{
    let mut counts = Vec::new(alloc);
    for s in structs {
        counts.push(narrowed(s.fields.len())?)?;
    }
    Ok(Row::from_vec(counts))
}

/// The place in the heap's list of an object that is there and of the struct, or the trap of an
/// access to it.
pub fn object_of(objects: &[Option<Object>], number: i32, owner: u32) -> Result<usize, Trap>
    ensures { MatchResult result
        (λ i. (i ≡ index number - 1) × (i < length objects.now)
        × IsOk (v.object_of objects.now number owner))
        (λ cause. v.object_of objects.now number owner ≡ Err cause) }
{
    if number == 0 {
        return Err(Trap::Null);
    }
    if number < 0 {
        return Err(Trap::Freed);
    }
    match objects.get(number as usize - 1) {
        Some(Some(object)) => if object.owner == owner {
            Ok(number as usize - 1)
        } else {
            Err(Trap::Struct)
        },
        _ => Err(Trap::Freed),
    }
}

/// The struct of an object that is there.
pub fn struct_of(objects: &[Option<Object>], number: i32) -> Option<u32>
    ensures { result ≡ spec.owner_in (v.object objects.now number) }
{
    if number <= 0 {
        return None;
    }
    match objects.get(number as usize - 1) {
        Some(Some(object)) => Some(object.owner),
        _ => None,
    }
}

fn zeros(alloc: Global, n: u32) -> Result<Row<i32>, AllocError>
    ensures { IfOk result (λ values. values ≡ replicate n (pos 0)) }
{
    let mut values = Vec::new(alloc);
    'zeros: for _ in 0..n {
        values.push(0)?;
    }
    Ok(Row::from_vec(values))
}

fn blank(alloc: Global, fields: &[u32], owner: u32) -> Result<Object, AllocError>
    ensures { IfOk result (λ object. object ≡ spec.blank fields.now owner) }
{
    let count = fields.get(owner as usize).copied().unwrap_or(0);
    let fields = zeros(alloc, count)?;
    Ok(Object { owner, fields })
}

/// Appends an object of zeros. Where memory is short all stays.
pub fn push(objects: &mut Row<Option<Object>>, fields: &[u32], owner: u32) -> Result<(), AllocError>
    ensures ok { OnOk result
        (objects.new ≡ objects.old ++ Some (spec.blank fields.now owner) ∷ []) }
    ensures err { OnErr result (objects.new ≡ objects.old) }
{
    let object = blank(objects.alloc(), fields, owner)?;
    objects.push(Some(object))
}

fn put(slots: &mut Row<i32>, field: u32, value: i32)
    ensures { slots.new ≡ slice_set slots.old field value }
{
    if (field as usize) < slots.len() {
        slots.set(field as usize, value);
    }
}

fn put_field(object: &mut Option<Object>, field: u32, value: i32)
    ensures { object.new ≡ with_field field value object.old }
{
    if let Some(object) = object {
        put(&mut object.fields, field, value);
    }
}

/// Writes a field of an object that is there and of the struct.
pub fn write(
    objects: &mut Row<Option<Object>>,
    number: i32,
    owner: u32,
    field: u32,
    value: i32,
) -> Result<(), Trap>
    ensures { let found = v.object_of objects.old number owner in
        let i = index number - 1 in
        MatchResult result
        (λ _. IsOk found × (objects.new ≡ slice_set objects.old i
        (with_field field value (slice_index_or objects.old i None))))
        (λ cause. (found ≡ Err cause) × (objects.new ≡ objects.old)) }
{
    let i = object_of(objects.as_slice(), number, owner)?;
    let object = objects.get_mut(i);
    put_field(object, field, value);
    Ok(())
}

/// Frees an object that is there.
pub fn free(objects: &mut Row<Option<Object>>, number: i32) -> Result<(), Trap>
    requires { number ≢ pos 0 }
    ensures { let found = v.object objects.old number in MatchResult result
        (λ _. IsOk found × (objects.new ≡ slice_set objects.old (index number - 1) None))
        (λ cause. (found ≡ Err cause) × (objects.new ≡ objects.old)) }
{
    if struct_of(objects.as_slice(), number).is_none() {
        return Err(Trap::Freed);
    }
    objects.set(number as usize - 1, None);
    Ok(())
}
