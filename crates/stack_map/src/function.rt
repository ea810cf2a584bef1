//! Functions that are the same by names, after the matches: those that an update leaves unchanged.

ghost use Rattle.std.specs.Prelude.{◌≡◌, IfOk};
ghost use Rattle.c_tree.specs.Same as spec;
ghost use Rattle.c_tree.specs.Step.{function_of};
ghost use Rattle.c_tree.specs.declared.ty.Ty.TheVariants as ty;
ghost use Rattle.stack_map.specs.Kept as kept;

use crate::stmt::same_block;
use c_tree::{LStmt, Lifted, Slot, Ty, narrowed};
use patch_match::Link;
use std::alloc::{AllocError, Global};

/// The result type of a function; one that is not there has the other.
fn result_of<'a>(program: &'a Lifted, f: u32, other: &'a Ty) -> &'a Ty
    requires { other.now ≡ ty.Void }
    ensures { result.now ≡ (function_of program.now f).ret }
{
    match program.functions.as_slice().get(f as usize) {
        Some(function) => &function.ret,
        None => other,
    }
}

fn body_of(program: &Lifted, f: u32) -> &[LStmt]
    ensures { result.now ≡ (function_of program.now f).body }
{
    match program.functions.as_slice().get(f as usize) {
        Some(function) => function.body.as_slice(),
        None => &[],
    }
}

/// Whether two functions have slots of the same names and image types in the same order.
fn same_slots(k: &Link<'_>, a: &[Slot], b: &[Slot]) -> bool
    ensures { result ≡ spec.same_slots k.now a.now b.now }
{
    if a.len() != b.len() {
        return false;
    }
    for i in 0..a.len() {
        if a[i].name != b[i].name || !k.is_image(&a[i].ty, &b[i].ty) {
            return false;
        }
    }
    true
}

/// Whether an old function and a new one have the same result type, slots and body.
pub fn is_unchanged(k: &Link<'_>, f: u32, g: u32) -> bool
    ensures { result ≡ spec.is_unchanged k.now f g }
{
    let old = k.old().program();
    let new = k.new().program();
    let none = Ty::Void;
    k.is_image(result_of(old, f, &none), result_of(new, g, &none))
        && same_slots(k, k.old().slots(f), k.new().slots(g))
        && same_block(k, body_of(old, f), body_of(new, g))
}

/// Whether an old function has a match that leaves it unchanged.
fn is_same(k: &Link<'_>, f: u32) -> bool
    ensures { result ≡ kept.is_same_function k.now f }
{
    match k.function(f) {
        Some(g) => is_unchanged(k, f, g),
        None => false,
    }
}

/// Whether each old function has a match that leaves it unchanged, by the function's number. More
/// than 4,294,967,296 functions count as want of memory.
pub fn unchanged_functions(alloc: Global, k: &Link<'_>) -> Result<Vec<bool>, AllocError>
    ensures { IfOk result (λ same. kept.AreUnchanged k.now same.items) }
{
    let mut same = Vec::new(alloc);
    for f in 0..k.old().program().functions.len() {
        same.push(is_same(k, narrowed(f)?))?;
    }
    Ok(same)
}
