//! What the names in an expression of a mapping stand for.

ghost use Rattle.std.specs.Prelude.{◌≡◌, ◌∷◌, ◌++◌, codes, string_bytes, is_some, IfOk};
ghost use Rattle.std.specs.Fmt.{decimal};
ghost use Rattle.c_tree.specs.MapExpr as spec;
ghost use Rattle.map_entries.specs.Forms.{global_in};
ghost use Rattle.map_entries.specs.Typed.{reads_of, typed};

use crate::declared::{scalar_type, slot_type};
use crate::reads::Reads;
use crate::typed::Typed;
use c_tree::{LExpr, Name};
use patch_match::Tables;
use std::alloc::{AllocError, Global};

/// A slot or a field of the old object, by its name.
#[tactic(auto, using(crate::proofs::TypeLemmas::type_rules))]
fn local_named(old: &Tables<'_>, reads: Reads, name: &Name) -> Result<Option<Typed>, AllocError>
    ensures { IfOk result (λ o. o ≡ typed (reads_of old.now reads)
        (spec.local_named (reads_of old.now reads) name.now)) }
{
    match reads {
        Reads::Nothing => Ok(None),
        Reads::Slots(f) => match old.slot(f, name) {
            Some(i) => {
                let ty = slot_type(old.slots(f), i)?;
                Ok(Some(Typed {
                    expr: LExpr::Slot(i),
                    ty,
                }))
            }
            None => Ok(None),
        },
        Reads::Fields(s) => match old.field(s, name) {
            Some(i) => {
                let ty = slot_type(old.fields(s), i)?;
                Ok(Some(Typed {
                    expr: LExpr::Own(i),
                    ty,
                }))
            }
            None => Ok(None),
        },
    }
}

/// A global, by its name.
#[tactic(auto, using(crate::proofs::TypeLemmas::type_rules))]
fn global_named(old: &Tables<'_>, reads: Reads, name: &Name) -> Result<Option<Typed>, AllocError>
    ensures { IfOk result (λ o. o ≡ typed (reads_of old.now reads)
        (global_in (reads_of old.now reads) name.now)) }
{
    match old.number(2, name) {
        Some(g) => {
            let ty = scalar_type(old.program().globals.as_slice(), g)?;
            Ok(Some(Typed {
                expr: LExpr::Global(g),
                ty,
            }))
        }
        None => Ok(None),
    }
}

/// The nearest thing of a name: a slot or a field, else a global.
#[tactic(auto, using(crate::proofs::TypeLemmas::typed_rules))]
pub fn named(old: &Tables<'_>, reads: Reads, name: &Name) -> Result<Option<Typed>, AllocError>
    ensures { IfOk result (λ o. o ≡ typed (reads_of old.now reads)
        (spec.named (reads_of old.now reads) name.now)) }
{
    match local_named(old, reads, name)? {
        Some(local) => Ok(Some(local)),
        None => global_named(old, reads, name),
    }
}

fn is_local(old: &Tables<'_>, reads: Reads, name: &Name) -> bool
    ensures { result ≡ is_some (spec.local_named (reads_of old.now reads) name.now) }
{
    match reads {
        Reads::Nothing => false,
        Reads::Slots(f) => old.slot(f, name).is_some(),
        Reads::Fields(s) => old.field(s, name).is_some(),
    }
}

/// An array that no slot or own field hides.
pub fn array_named(old: &Tables<'_>, reads: Reads, name: &Name) -> Option<u32>
    ensures { result ≡ spec.array_named (reads_of old.now reads) name.now }
{
    if is_local(old, reads, name) {
        return None;
    }
    old.number(2, name)
}

fn dotted(alloc: Global, n: u32) -> Result<String, AllocError>
    ensures { IfOk result (λ s. string_bytes s ≡ codes "." ++ decimal n) }
{
    format!(in alloc; ".{n}")
}

/// The name of a slot that is written with a number.
pub fn slot_name(alloc: Global, name: &Name, n: u32) -> Result<Name, AllocError>
    ensures { IfOk result (λ full. full ≡ name.now ++ 46 ∷ decimal n) }
{
    let mut full = name.clone()?;
    full.append(dotted(alloc, n)?.as_bytes())?;
    Ok(full)
}
