//! Expressions that suit what they fill.

ghost use Rattle.std.specs.Prelude.{◌≡◌, slice_get, IfOk};
ghost use Rattle.std.specs.Option.{option_copied};
ghost use Rattle.c_tree.specs.MapExpr as spec;
ghost use Rattle.c_tree.specs.Suits as suits;
ghost use Rattle.c_tree.specs.Chain.{suited};
ghost use Rattle.map_entries.specs.Typed.{reads_of};

use crate::expr::numbered;
use crate::reads::Reads;
use crate::types::passes_int;
use c_tree::{Expr, LExpr, LGlobal, Slot, Ty};
use patch_match::Link;
use std::alloc::{AllocError, Global};

/// Whether an expression of an old type fills what has a new type.
fn fills(k: &Link<'_>, given: &Option<Ty>, asked: &Ty) -> bool
    ensures { result ≡ spec.fills_type k.now given.now asked.now }
{
    match given {
        None => false,
        Some(Ty::AnyPtr) => asked.is_pointer(),
        Some(given) => k.is_image(given, asked),
    }
}

/// An expression by numbers that fills what has a type, if both are there.
#[tactic(auto, using(crate::proofs::SuitLemmas::suit_rules))]
pub fn filling(
    alloc: Global,
    k: &Link<'_>,
    reads: Reads,
    asked: Option<&Ty>,
    x: &Expr,
) -> Result<Option<LExpr>, AllocError>
    ensures { IfOk result (λ o. o ≡ suited
        (suits.suits k.now (reads_of k.now.old reads) (option_copied asked.entry))
        (spec.numbered (reads_of k.now.old reads) x.now.kind)) }
{
    let asked = match asked {
        Some(asked) => asked,
        None => return Ok(None),
    };
    let typed = match numbered(alloc, k.old(), reads, &x.kind)? {
        Some(typed) => typed,
        None => return Ok(None),
    };
    if !fills(k, &typed.ty, asked) {
        return Ok(None);
    }
    Ok(Some(typed.expr))
}

/// An expression by numbers that is an `int` over the old globals.
#[tactic(auto, using(crate::proofs::SuitLemmas::suit_rules))]
pub fn testing(alloc: Global, k: &Link<'_>, x: &Expr) -> Result<Option<LExpr>, AllocError>
    ensures { IfOk result (λ o. o ≡ suited (suits.suits_check k.now)
        (spec.numbered (spec.only_globals k.now.old) x.now.kind)) }
{
    let typed = match numbered(alloc, k.old(), Reads::Nothing, &x.kind)? {
        Some(typed) => typed,
        None => return Ok(None),
    };
    if !passes_int(&typed.ty) {
        return Ok(None);
    }
    Ok(Some(typed.expr))
}

/// The type of a global that is no array.
pub fn scalar_asked(globals: &[LGlobal], g: u32) -> Option<&Ty>
    ensures { option_copied result ≡ spec.scalar_type (slice_get globals.now g) }
{
    match globals.get(g as usize) {
        Some(global) => if global.count.is_some() {
            None
        } else {
            Some(&global.ty)
        },
        None => None,
    }
}

/// The type of a slot or a field.
pub fn slot_asked(slots: &[Slot], i: u32) -> Option<&Ty>
    ensures { option_copied result ≡ suits.slot_asked slots.now i }
{
    match slots.get(i as usize) {
        Some(slot) => Some(&slot.ty),
        None => None,
    }
}

/// What an expression that fills a field of a new struct reads: the fields of the old object.
pub fn fields_read(k: &Link<'_>, s: u32) -> Reads
    ensures { reads_of k.now.old result ≡ suits.reads_fields k.now s }
{
    match k.origin(s) {
        Some(old) => Reads::Fields(old),
        None => Reads::Nothing,
    }
}
