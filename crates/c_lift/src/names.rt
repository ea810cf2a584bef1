//! Names of slots.

ghost use Rattle.std.specs.Prelude.{◌≡◌, ◌+◌, [], ◌∷◌, ◌++◌, codes, count_by, string_bytes, IfOk, OnOk};
ghost use Rattle.std.specs.Fmt.{decimal};
ghost use Rattle.c_tree.specs.Scope as spec;
ghost use Rattle.c_tree.specs.Lifting as lifting;
ghost use Rattle.c_lift.specs.Variables.{numbered_after};

use c_tree::{Name, Slot, Ty};
use std::alloc::{AllocError, Global};

/// A dot and a number.
fn dotted(alloc: Global, n: usize) -> Result<String, AllocError>
    ensures { IfOk result (λ s. string_bytes s ≡ codes "." ++ decimal n) }
{
    format!(in alloc; ".{n}")
}

/// The name of the j-th slot that is declared with a name.
fn slot_name(alloc: Global, name: &Name, j: usize) -> Result<Name, AllocError>
    ensures { IfOk result (λ n. n ≡ lifting.slot_name name.now j) }
{
    let mut own = name.clone()?;
    if j < 2 {
        return Ok(own);
    }
    own.append(dotted(alloc, j)?.as_bytes())?;
    Ok(own)
}

/// How many of these slots have a name.
fn count_of(slots: &[Slot], name: &Name) -> usize
    ensures { result ≡ count_by (λ y. spec.is_same_name y.name name.now) slots.now }
{
    slots.iter().filter(|s| s.name == *name).count()
}

/// Adds a slot, of which the name is declared for the j-th time.
fn add_numbered(
    alloc: Global,
    named: &mut Vec<Slot>,
    slot: &Slot,
    j: usize,
) -> Result<(), AllocError>
    ensures { OnOk result (named.new.items ≡ named.old.items ++ record {
      name =
          lifting.slot_name slot.now.name j;
      ty = slot.now.ty;
    } ∷ []) }
{
    let name = slot_name(alloc, &slot.name, j)?;
    named.push(Slot {
        name,
        ty: slot.ty.clone()?,
    })?;
    Ok(())
}

/// The slots under names that differ: the j-th of a name has j behind a dot.
pub fn numbered(alloc: Global, slots: &[Slot]) -> Result<Vec<Slot>, AllocError>
    ensures { IfOk result (λ v. v.items ≡ numbered_after [] slots.now) }
{
    let mut named = Vec::new(alloc);
    for (i, slot) in slots.iter().enumerate() {
        let before = count_of(&slots[..i], &slot.name);
        add_numbered(alloc, &mut named, slot, before + 1)?;
    }
    Ok(named)
}

/// Adds the slots of temporaries, which are called by their numbers.
pub fn add_temporaries(alloc: Global, slots: &mut Vec<Slot>, made: &[Ty]) -> Result<(), AllocError>
    ensures { OnOk result (slots.new.items ≡ slots.old.items ++ lifting.temporary_slots 1
        made.now) }
{
    for (i, ty) in made.iter().enumerate() {
        let name = Name::from_vec(dotted(alloc, i + 1)?.into_bytes());
        slots.push(Slot {
            name,
            ty: ty.clone()?,
        })?;
    }
    Ok(())
}
