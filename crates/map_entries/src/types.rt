//! Which types the operators of a mapping's expressions take.

ghost use Rattle.std.specs.Prelude.{◌≡◌, false};
ghost use Rattle.c_tree.specs.MapExpr as spec;
ghost use Rattle.c_tree.specs.Types as types;

use c_tree::{BinOp, Name, Ty, UnOp};

fn is_testable(ty: &Ty) -> bool
    ensures { result ≡ types.is_testable ty.now }
{
    ty.is_int() || ty.is_pointer()
}

/// Whether there is a type, and it is `int`.
pub fn passes_int(ty: &Option<Ty>) -> bool
    ensures { result ≡ spec.passes types.is_int ty.now }
{
    match ty {
        None => false,
        Some(ty) => ty.is_int(),
    }
}

/// Whether there is a type, and it is a pointer.
pub fn passes_pointer(ty: &Option<Ty>) -> bool
    ensures { result ≡ spec.passes types.is_pointer ty.now }
{
    match ty {
        None => false,
        Some(ty) => ty.is_pointer(),
    }
}

fn passes_testable(ty: &Option<Ty>) -> bool
    ensures { result ≡ spec.passes types.is_testable ty.now }
{
    match ty {
        None => false,
        Some(ty) => is_testable(ty),
    }
}

/// Whether there is a type, and it is the pointer to the struct of a name.
pub fn passes_pointer_to(name: &Name, ty: &Option<Ty>) -> bool
    ensures { result ≡ spec.passes (spec.is_pointer_to name.now) ty.now }
{
    match ty {
        Some(Ty::Ptr(owner)) => *name == *owner,
        _ => false,
    }
}

fn fits(asked: &Ty, given: &Ty) -> bool
    ensures { result ≡ types.fits asked.now given.now false }
{
    asked.is_same(given)
        || asked.is_pointer()
            && (given.is_pointer() && (asked.is_any_pointer() || given.is_any_pointer()))
}

fn are_alike(s: &Ty, t: &Ty) -> bool
    ensures { result ≡ spec.are_alike s.now t.now }
{
    if s.is_int() {
        return t.is_int();
    }
    s.is_pointer() && t.is_pointer() && fits(s, t)
}

fn are_comparable(s: &Option<Ty>, t: &Option<Ty>) -> bool
    ensures { result ≡ spec.are_comparable s.now t.now }
{
    match (s, t) {
        (Some(s), Some(t)) => are_alike(s, t),
        _ => false,
    }
}

/// Whether a prefix operator takes a type.
pub fn takes_one(op: UnOp, ty: &Option<Ty>) -> bool
    ensures { result ≡ spec.takes_one op ty.now }
{
    match op {
        UnOp::Not => passes_testable(ty),
        UnOp::Neg | UnOp::Flip => passes_int(ty),
    }
}

/// Whether an operator takes these types.
pub fn takes_two(op: BinOp, s: &Option<Ty>, t: &Option<Ty>) -> bool
    ensures { result ≡ spec.takes_two op s.now t.now }
{
    match op {
        BinOp::Eq | BinOp::Ne => are_comparable(s, t),
        BinOp::And | BinOp::Or => passes_testable(s) && passes_testable(t),
        _ => passes_int(s) && passes_int(t),
    }
}
